// The slots of a routine's frame, kept for its next call.
ghost use Rattle.std.specs.Prelude.{◌≡◌, ◌<◌, ◌≤◌, ◌^◌, [], ◌∷◌, ◌++◌, length, drop, true, is_ok, OnOk, OnErr, if◌then◌else◌, vec_capacity, ℕ, ◌+◌};
ghost use Rattle.alma_base.specs.Limits.{cell_limit, frame_limit};
ghost use Rattle.alma_code.specs.Carries.{IsLive};
ghost use Rattle.alma_code.specs.Layout.{FitsParams, IsHead, RunsRise, blank_cells, cells_of_call, frame_of_call, kinds_of};
ghost use Rattle.alma_code.specs.Picture.{live_cells};
ghost use Rattle.alma_memory_store.specs.Frames.{AreWhole};
ghost use Rattle.alma_memory_store.specs.Images.{IsImage, image_count};
ghost use Rattle.alma_memory_store.specs.Regions.{cells_in, kinds_in};
ghost use Rattle.alma_memory_store.specs.PlainStore.{IsNoted};

use crate::layout::{push_args, put_blanks, put_cells};
use crate::live_frames::LiveFrames;
use crate::store::{Slot, Store};
use alma_base::NoMemory;
use alma_code::{Cell, Head, Run};
use std::alloc::Global;
use std::marker::Model;

// Routines whose numbers leave the same rest share an image.
const IMAGES: u32 = 8;

// A frame of more slots is wide. All routines of wide frames share one image, so that one large
// copy is kept at most.
const WIDE: u32 = 256;

/// The slots of a frame that was entered: the next frame of the same runs differs from it in its
/// first slots alone.
#[derive(Drop)]
pub struct Image {
    runs: Vec<Run>,
    slots: Vec<Slot>,
    // How many slots the arguments filled.
    written: usize,
}

impl Model for Image {
    ghost use Rattle.std.specs.Prelude.{List};
    ghost use Rattle.alma_memory_store.specs.declared.store.Slot.{Slot};

    ghost Value = { List Slot };

    ghost use Rattle.alma_memory_store.specs.Images.{IsImage};

    ghost view = { λ i. i.slots.items };

    ghost invariant = { λ i. IsImage i.runs.items i.slots.items i.written };
}

// Whether two runs are equal.
#[inline(always)]
fn is_same_run(a: Run, b: Run) -> bool
    ensures { result ≡ true → a ≡ b }
{
    a.end == b.end && a.kind == b.kind
}

// Whether these are the runs of the head.
#[inline(always)]
fn has_runs<H: Head>(runs: &[Run], head: &H) -> bool
    ensures { result ≡ true → runs.now ≡ (H.head head.now).runs }
{
    let count = head.run_count();
    if runs.len() != count as usize {
        return false;
    }
    for i in 0..count {
        if !is_same_run(runs[i as usize], head.run(i)) {
            return false;
        }
    }
    true
}

// The runs of the head, for which there is room.
fn push_runs<H: Head>(runs: &mut Vec<Run>, head: &H)
    requires empty { runs.old.items ≡ [] }
    requires room { length (H.head head.now).runs ≤ vec_capacity runs.old }
    ensures { runs.new.items ≡ (H.head head.now).runs }
{
    for i in 0..head.run_count() {
        runs.push_reserved(head.run(i));
    }
}

// The runs of a head and its slots before anything is written, in place of what stood there.
#[inline(never)]
fn renew<H: Head>(runs: &mut Vec<Run>, slots: &mut Vec<Slot>, head: &H) -> Result<(), NoMemory>
    requires { RunsRise 0 (H.head head.now).runs (H.head head.now).slots }
    ensures runs { OnOk result (runs.new.items ≡ (H.head head.now).runs) }
    ensures image { (written : ℕ) → IsImage runs.new.items slots.new.items written }
{
    runs.clear();
    slots.clear();
    runs.reserve(head.run_count() as usize)?;
    put_blanks(slots, head)?;
    push_runs(runs, head);
    Ok(())
}

// The slots of a head, of which the first `count` are to be written: those of before, or else new
// ones.
#[inline(always)]
fn prepare<H: Head>(
    runs: &mut Vec<Run>,
    slots: &mut Vec<Slot>,
    written: usize,
    head: &H,
    count: usize,
) -> Result<(), NoMemory>
    requires image { IsImage runs.old.items slots.old.items written }
    requires rise { RunsRise 0 (H.head head.now).runs (H.head head.now).slots }
    ensures runs { OnOk result (runs.new.items ≡ (H.head head.now).runs) }
    ensures image { OnOk result (IsImage runs.new.items slots.new.items count) }
    ensures refused { OnErr result (IsImage runs.new.items slots.new.items written) }
{
    if written <= count && has_runs(runs.as_slice(), head) {
        return Ok(());
    }
    renew(runs, slots, head)
}

impl Image {
    /// An image of nothing, which takes no memory.
    pub fn new(alloc: Global) -> Image
        ensures { result ≡ [] }
    {
        Image {
            runs: Vec::new(alloc),
            slots: Vec::new(alloc),
            written: 0,
        }
    }

    /// The slots of a frame with this head, of which the first hold these cells.
    #[inline(always)]
    pub fn lay<H: Head>(&mut self, head: &H, cells: &[Cell]) -> Result<(), NoMemory>
        requires head { IsHead (H.head head.now) }
        requires fit { length cells.now ≤ (H.head head.now).slots }
        ensures kinds { OnOk result (kinds_in self.new ≡ kinds_of 0 (H.head head.now).runs) }
        ensures cells { OnOk result (cells_in self.new
            ≡ cells.now ++ drop (length cells.now) (blank_cells (H.head head.now))) }
        ensures few { OnOk result (length self.new < 2 ^ 32) }
    {
        // Brings in that the number of slots is one of 32 bits.
        let _ = head.slots();
        let count = cells.len();
        prepare(&mut self.runs, &mut self.slots, self.written, head, count)?;
        put_cells(&mut self.slots, cells);
        self.written = count;
        Ok(())
    }

    /// The slots that were laid last.
    #[inline(always)]
    pub fn slots(&self) -> &[Slot]
        ensures { result.now ≡ self.now }
    {
        self.slots.as_slice()
    }
}

// The slots of the frame that a call enters, in an image; `cells` is for the arguments.
#[inline(always)]
fn lay_call<F: LiveFrames, H: Head>(
    image: &mut Image,
    cells: &mut Vec<Cell>,
    frames: &F,
    head: &H,
    args: &[Cell],
) -> Result<(), NoMemory>
    requires head { IsHead (H.head head.now) }
    requires whole { AreWhole (F.live frames.now) }
    requires args { FitsParams (IsLive (F.live frames.now)) (λ routine. IsLive (F.live frames.now))
        (H.head head.now).params args.now }
    ensures kinds { OnOk result (kinds_in image.new ≡ kinds_of 0 (H.head head.now).runs) }
    ensures cells { OnOk result (cells_in image.new ≡ cells_of_call (F.live frames.now)
        (H.head head.now) args.now) }
    ensures few { OnOk result (length image.new < 2 ^ 32) }
{
    push_args(cells, frames, head, args)?;
    image.lay(head, cells.as_slice())
}

// Pushes the frame that a call enters, laid out in an image.
#[inline(always)]
fn enter_image<H: Head>(
    image: &mut Image,
    cells: &mut Vec<Cell>,
    store: &mut Store,
    head: &H,
    routine: u32,
    back: u32,
    args: &[Cell],
) -> Result<(), NoMemory>
    requires head { IsHead (H.head head.now) }
    requires whole { AreWhole store.old.now }
    requires args { FitsParams (IsLive store.old.now) (λ routine. IsLive store.old.now)
        (H.head head.now).params args.now }
    requires depth { length store.old.now < frame_limit }
    requires limit { live_cells store.old.now + (H.head head.now).declared ≤ cell_limit }
    ensures now { store.new.now ≡ (if is_ok result
        then store.old.now ++ frame_of_call store.old.now (H.head head.now) routine back args.now
        ∷ []
        else store.old.now) }
    ensures held { store.new.held ≡ store.old.held }
    ensures kept { (f s : ℕ) → IsNoted store.old.noted f s → IsNoted store.new.noted f s }
    ensures choice_room { store.old.choice_room ≤ store.new.choice_room }
    ensures trail_room { store.old.trail_room ≤ store.new.trail_room }
{
    lay_call(image, cells, store, head, args)?;
    store.enter(routine, back, head.declared(), image.slots())
}

/// Images for the routines that are called.
#[derive(Drop)]
pub struct Images {
    images: Vec<Image>,
    // For the arguments of a call.
    cells: Vec<Cell>,
}

impl Model for Images {
    ghost use Rattle.std.specs.Prelude.{◌≡◌, List, length};
    ghost use Rattle.alma_memory_store.specs.declared.store.Slot.{Slot};

    ghost Value = { List (List Slot) };

    ghost use Rattle.alma_memory_store.specs.Images.{image_count};

    ghost view = { λ i. i.images.items };

    ghost invariant = { λ i. length i.images.items ≡ image_count };
}

// Which image serves a routine.
#[inline(always)]
fn image_of(routine: u32, slots: u32) -> usize
    ensures { result < image_count }
{
    if slots > WIDE {
        return IMAGES as usize;
    }
    (routine % IMAGES) as usize
}

impl Images {
    /// Images of nothing.
    pub fn new(alloc: Global) -> Result<Images, NoMemory> {
        let mut images = Vec::new(alloc);
        for _ in 0..IMAGES + 1 {
            images.push(Image::new(alloc))?;
        }
        Ok(Images {
            images,
            cells: Vec::new(alloc),
        })
    }

    /// Pushes the frame that a call enters, laid out by its head and its arguments.
    pub fn enter<H: Head>(
        &mut self,
        store: &mut Store,
        head: &H,
        routine: u32,
        back: u32,
        args: &[Cell],
    ) -> Result<(), NoMemory>
        requires head { IsHead (H.head head.now) }
        requires whole { AreWhole store.old.now }
        requires args { FitsParams (IsLive store.old.now) (λ routine. IsLive store.old.now)
            (H.head head.now).params args.now }
        requires depth { length store.old.now < frame_limit }
        requires limit { live_cells store.old.now + (H.head head.now).declared ≤ cell_limit }
        ensures now { store.new.now ≡ (if is_ok result
            then store.old.now ++ frame_of_call store.old.now (H.head head.now) routine back
            args.now ∷ []
            else store.old.now) }
        ensures held { store.new.held ≡ store.old.held }
        ensures kept { (f s : ℕ) → IsNoted store.old.noted f s → IsNoted store.new.noted f s }
        ensures choice_room { store.old.choice_room ≤ store.new.choice_room }
        ensures trail_room { store.old.trail_room ≤ store.new.trail_room }
    {
        let at = image_of(routine, head.slots());
        let image = &mut self.images[at];
        enter_image(image, &mut self.cells, store, head, routine, back, args)
    }
}
