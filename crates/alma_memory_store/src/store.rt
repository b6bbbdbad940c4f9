// The store of frames.
ghost use Rattle.std.specs.Prelude.{◌≡◌, ℕ, ◌+◌, ◌-◌, ◌<◌, ◌≤◌, [], ◌∷◌, ◌++◌, ◌^◌, min, max, length, take, set, slice_get, slice_index_or, Some, true, false, is_ok, IsOk, OnOk, OnErr, IfOk, if◌then◌else◌, vec_len, vec_capacity};
ghost use Rattle.alma_base.specs.Limits.{cell_limit, frame_limit};
ghost use Rattle.alma_code.specs.Picture.{no_frame, frames_with_cell, cell_at, last_frame, without_last, live_cells};
ghost use Rattle.alma_code.specs.Carries.{diffs, number_at};
ghost use Rattle.alma_code.specs.declared.cell.Cell.TheVariants as cell;
ghost use Rattle.alma_memory_rewind.specs.PlainRewind.{needed, top_copy};
ghost use Rattle.alma_memory_store.specs.Carries.{carry_of_entries};
ghost use Rattle.alma_memory_store.specs.Frames.{AreLive, AreWhole};
ghost use Rattle.alma_memory_store.specs.Numbers.{number_of};
ghost use Rattle.alma_memory_store.specs.Past.{SameGain};
ghost use Rattle.alma_memory_store.specs.Regions.{AreLaid, cells_in, end_of, frames_of, kinds_in, no_slot, slot_number};
ghost use Rattle.alma_memory_store.specs.PlainStore.{IsNoted, IsState};

use crate::carry::SlotPlace;
use crate::past::Past;
use alma_base::NoMemory;
use alma_code::{Cell, SlotKind};
use alma_memory_rewind::Rewind;
use std::alloc::Global;
use std::marker::Model;

/// A slot of a frame.
#[derive(Clone, Copy)]
pub struct Slot {
    pub kind: SlotKind,
    pub cell: Cell,
}

/// A frame: where its slots stand, and how many cells it and the frames below it declare.
#[derive(Clone, Copy)]
pub struct Region {
    pub routine: u32,
    pub back: u32,
    pub declared: u32,
    pub total: u32,
    pub base: usize,
    pub slots: u32,
}

/// The live frames, and copies of them. A region that was left stands where it stood, as long as a
/// copy needs it.
#[derive(Drop)]
pub struct Store {
    slots: Rewind<Slot>,
    regions: Rewind<Region>,
    // How many regions are live, from the bottom.
    live: usize,
    // The last live region.
    top: Region,
    // How many regions were live in each copy.
    lives: Vec<usize>,
}

impl Model for Store {
    ghost use Rattle.std.specs.Prelude.{◌≡◌, ◌-◌, take, min, slice_get, Some};
    ghost use Rattle.std.specs.Vec.{vec_len, vec_capacity};
    ghost use Rattle.alma_memory_store.specs.PlainStore.{PlainStore};

    ghost Value = { PlainStore };

    ghost use Rattle.alma_memory_store.specs.Regions.{frames_of};
    ghost use Rattle.alma_memory_store.specs.PlainStore.{copies_of, flags_of, IsState, AreStates};

    ghost view = { λ s. record {
      now = frames_of s.slots.now (take s.live s.regions.now);
      held = copies_of s.slots.held s.regions.held s.lives.items;
      noted = flags_of s.slots.noted (take s.live s.regions.now);
      choice_room = min s.slots.choice_room
          (min s.regions.choice_room (vec_capacity s.lives - vec_len s.lives));
      trail_room = s.slots.trail_room;
    } };

    ghost invariant = { λ s. IsState s.slots.now s.regions.now s.live
        × AreStates s.slots.held s.regions.held s.lives.items
        × (slice_get s.regions.now (s.live - 1) ≡ Some s.top) };
}

// Where the last live region ends. `limit` only bounds the sum.
fn end_of_live(regions: &Rewind<Region>, live: usize, limit: usize) -> usize
    requires some { 1 ≤ live }
    requires live { live ≤ length regions.now.now }
    requires laid { AreLaid 0 (take live regions.now.now) limit }
    ensures { result ≡ end_of 0 (take live regions.now.now) }
{
    let last = regions.get(live - 1);
    last.base + last.slots as usize
}

// The larger of two numbers.
fn higher(a: usize, b: usize) -> usize
    ensures { result ≡ max a b }
{
    if a < b { b } else { a }
}

/// Where a slot of a region stands in the list of slots. `limit` only bounds the sum.
#[inline(always)]
pub fn place_of(region: Region, slot: usize, limit: usize) -> usize
    requires { region.base + slot < limit }
    ensures { result ≡ region.base + slot }
{
    region.base + slot
}

// Writes the cell of a slot that is noted, and leaves its kind.
#[inline(always)]
fn put_cell(slots: &mut Rewind<Slot>, at: usize, cell: Cell)
    requires inside { at < length slots.old.now }
    requires noted { slice_index_or slots.old.noted at false ≡ true }
    ensures now { slots.new.now ≡ set slots.old.now at (record {
      kind = (slice_index_or slots.old.now at no_slot).kind;
      cell = cell;
    }) }
    ensures held { slots.new.held ≡ slots.old.held }
    ensures noted { slots.new.noted ≡ slots.old.noted }
    ensures choice_room { slots.new.choice_room ≡ slots.old.choice_room }
    ensures trail_room { slots.new.trail_room ≡ slots.old.trail_room }
{
    let kind = slots.get(at).kind;
    slots.put(at, Slot { kind, cell });
}

// Writes the cell of a slot, and leaves its kind.
#[inline(always)]
fn write_cell(slots: &mut Rewind<Slot>, at: usize, cell: Cell) -> Result<(), NoMemory>
    requires { at < length slots.old.now }
    ensures now { slots.new.now ≡ (if is_ok result then set slots.old.now at (record {
      kind = (slice_index_or slots.old.now at no_slot).kind;
      cell = cell;
    }) else slots.old.now) }
    ensures held { slots.new.held ≡ slots.old.held }
    ensures succeeds { 1 ≤ slots.old.trail_room → IsOk result }
    ensures free { slice_index_or slots.old.noted at false ≡ true
        → IsOk result × (slots.new.trail_room ≡ slots.old.trail_room) }
    ensures noted { OnOk result (slice_index_or slots.new.noted at false ≡ true) }
    ensures kept { (p : ℕ) → slice_index_or slots.old.noted p false ≡ true
        → slice_index_or slots.new.noted p false ≡ true }
    ensures choice_room { slots.new.choice_room ≡ slots.old.choice_room }
    ensures trail_room { slots.old.trail_room ≤ slots.new.trail_room
        + (if is_ok result then 1 else 0) }
{
    slots.note(at)?;
    put_cell(slots, at, cell);
    Ok(())
}

impl Store {
    /// One frame of routine 0 with these slots, and no copy. The vector is taken over.
    pub fn start(alloc: Global, declared: u32, slots: Vec<Slot>) -> Result<Store, NoMemory>
        requires few { length slots.items < 2 ^ 32 }
        requires limit { declared ≤ cell_limit }
        ensures now { IfOk result (λ store. store.now ≡ (record {
          routine = 0;
          back = 0;
          declared = declared;
          kinds = kinds_in slots.items;
          cells = cells_in slots.items;
        }) ∷ []) }
        ensures held { IfOk result (λ store. store.held ≡ []) }
    {
        let top = Region {
            routine: 0,
            back: 0,
            declared,
            total: declared,
            base: 0,
            slots: slots.len() as u32,
        };
        let slots = Rewind::of(alloc, slots)?;
        let mut regions = Rewind::new(alloc);
        regions.push(top)?;
        let lives = Vec::new(alloc);
        Ok(Store {
            slots,
            regions,
            live: 1,
            top,
            lives,
        })
    }

    /// How many more copies can be made without taking memory.
    pub fn choice_room(&self) -> usize
        ensures { result ≡ self.now.choice_room }
    {
        let lives = self.lives.capacity() - self.lives.len();
        self.slots
            .choice_room()
            .min(self.regions.choice_room().min(lives))
    }

    /// How many more notes can be made without taking memory.
    pub fn trail_room(&self) -> usize
        ensures { result ≡ self.now.trail_room }
    {
        self.slots.trail_room()
    }

    /// Makes room for so many more copies and notes.
    pub fn reserve(&mut self, choices: usize, trail: usize) -> Result<(), NoMemory>
        ensures now { self.new.now ≡ self.old.now }
        ensures held { self.new.held ≡ self.old.held }
        ensures noted { self.new.noted ≡ self.old.noted }
        ensures succeeds { choices ≤ self.old.choice_room → trail ≤ self.old.trail_room
            → IsOk result }
        ensures choice_room { OnOk result (choices ≤ self.new.choice_room) }
        ensures trail_room { OnOk result (trail ≤ self.new.trail_room) }
        ensures no_less { (self.old.choice_room ≤ self.new.choice_room)
            × (self.old.trail_room ≤ self.new.trail_room) }
    {
        self.slots.reserve(choices, trail)?;
        self.regions.reserve(choices, 0)?;
        self.lives.reserve(choices)?;
        Ok(())
    }

    /// How many copies there are.
    pub fn height(&self) -> usize
        ensures { result ≡ length self.now.held }
    {
        self.lives.len()
    }

    /// How many frames are live.
    #[inline(always)]
    pub fn len(&self) -> usize
        ensures value { result ≡ length self.now.now }
        ensures live { AreLive self.now.now }
    {
        // Opens the store: that its frames may be live together follows from its invariant.
        let _ = &self.regions;
        self.live
    }

    /// The routine of the top frame.
    pub fn routine(&self) -> u32
        ensures { result ≡ (last_frame self.now.now).routine }
    {
        self.top.routine
    }

    /// How many cells the live frames declare together.
    pub fn declared(&self) -> u32
        ensures value { result ≡ live_cells self.now.now }
        ensures limit { result ≤ cell_limit }
    {
        self.top.total
    }

    /// The cell in a slot of a live frame.
    #[inline(always)]
    pub fn read(&self, frame: usize, slot: usize) -> Cell
        requires live { frame < length self.now.now }
        requires slot_of { slot < length (slice_index_or self.now.now frame no_frame).cells }
        ensures { result ≡ cell_at self.now.now frame slot cell.Unknown }
    {
        let region = self.regions.get(frame);
        let at = place_of(region, slot, self.slots.len());
        self.slots.get(at).cell
    }

    /// The kind of a slot of a live frame.
    #[inline(always)]
    pub fn kind(&self, frame: usize, slot: usize) -> SlotKind
        requires live { frame < length self.now.now }
        requires slot_of { slot < length (slice_index_or self.now.now frame no_frame).kinds }
        ensures { slice_get (slice_index_or self.now.now frame no_frame).kinds slot ≡ Some result }
    {
        let region = self.regions.get(frame);
        let at = place_of(region, slot, self.slots.len());
        self.slots.get(at).kind
    }

    /// The cell in a slot of the top frame.
    #[inline(always)]
    pub fn top_cell(&self, slot: usize) -> Cell
        requires { slot < length (last_frame self.now.now).cells }
        ensures { result ≡ slice_index_or (last_frame self.now.now).cells slot cell.Unknown }
    {
        let at = place_of(self.top, slot, self.slots.len());
        self.slots.get(at).cell
    }

    /// The kind of a slot of the top frame.
    #[inline(always)]
    pub fn top_kind(&self, slot: usize) -> SlotKind
        requires { slot < length (last_frame self.now.now).kinds }
        ensures { slice_get (last_frame self.now.now).kinds slot ≡ Some result }
    {
        let at = place_of(self.top, slot, self.slots.len());
        self.slots.get(at).kind
    }

    /// The cell of a live number slot.
    pub fn number(&self, place: SlotPlace) -> Option<Cell>
        ensures { result ≡ number_of self.now.now place.frame place.slot }
    {
        live_number(&self.slots, &self.regions, self.live, place)
    }

    /// Whether the place is a number slot of a live frame.
    pub fn has_number(&self, place: SlotPlace) -> bool
        ensures value { result ≡ number_at self.now.now place.frame place.slot }
        ensures whole { AreWhole self.now.now }
    {
        // Opens the store: frames that are read off its regions are whole.
        let _ = &self.live;
        self.number(place).is_some()
    }

    /// Writes the cell of a slot of a live frame and leaves its kind. What stood there is noted for
    /// the copies where it is not yet, and only that may take memory.
    #[inline(always)]
    pub fn write(&mut self, frame: usize, slot: usize, cell: Cell) -> Result<(), NoMemory>
        requires live { frame < length self.old.now }
        requires slot_of { slot < length (slice_index_or self.old.now frame no_frame).cells }
        ensures now { self.new.now ≡ (if is_ok result
            then frames_with_cell self.old.now frame slot cell else self.old.now) }
        ensures held { self.new.held ≡ self.old.held }
        ensures succeeds { 1 ≤ self.old.trail_room → IsOk result }
        ensures free { IsNoted self.old.noted frame slot
            → IsOk result × (self.new.trail_room ≡ self.old.trail_room) }
        ensures noted { OnOk result (IsNoted self.new.noted frame slot) }
        ensures kept { (f s : ℕ) → IsNoted self.old.noted f s → IsNoted self.new.noted f s }
        ensures choice_room { self.old.choice_room ≤ self.new.choice_room }
        ensures trail_room { self.old.trail_room ≤ self.new.trail_room
            + (if is_ok result then 1 else 0) }
    {
        let region = self.regions.get(frame);
        let at = place_of(region, slot, self.slots.len());
        write_cell(&mut self.slots, at, cell)
    }

    /// Writes into a slot of the top frame.
    #[inline(always)]
    pub fn write_top(&mut self, slot: usize, cell: Cell) -> Result<(), NoMemory>
        requires { slot < length (last_frame self.old.now).cells }
        ensures now { self.new.now ≡ (if is_ok result
            then frames_with_cell self.old.now (length self.old.now - 1) slot cell
            else self.old.now) }
        ensures held { self.new.held ≡ self.old.held }
    {
        let at = place_of(self.top, slot, self.slots.len());
        write_cell(&mut self.slots, at, cell)
    }

    /// Pushes a frame with these slots. Its region stands above the live frames and above all that
    /// a copy needs.
    pub fn enter(
        &mut self,
        routine: u32,
        back: u32,
        declared: u32,
        slots: &[Slot],
    ) -> Result<(), NoMemory>
        requires few { length slots.now < 2 ^ 32 }
        requires depth { length self.old.now < frame_limit }
        requires limit { live_cells self.old.now + declared ≤ cell_limit }
        ensures now { self.new.now ≡ (if is_ok result then self.old.now ++ (record {
          routine = routine;
          back = back;
          declared = declared;
          kinds = kinds_in slots.now;
          cells = cells_in slots.now;
        }) ∷ [] else self.old.now) }
        ensures held { self.new.held ≡ self.old.held }
        ensures kept { (f s : ℕ) → IsNoted self.old.noted f s → IsNoted self.new.noted f s }
        ensures choice_room { self.old.choice_room ≤ self.new.choice_room }
        ensures trail_room { self.old.trail_room ≤ self.new.trail_room }
    {
        let total = self.declared() + declared;
        let end = end_of_live(&self.regions, self.live, self.slots.len());
        let base = higher(end, self.slots.needed());
        lay(&mut self.slots, base, slots)?;
        let region = Region {
            routine,
            back,
            declared,
            total,
            base,
            slots: slots.len() as u32,
        };
        put(&mut self.regions, self.live, region)?;
        self.live += 1;
        self.top = region;
        Ok(())
    }

    /// Drops the top frame, and answers the address that it returns to. It notes nothing and takes
    /// no memory.
    pub fn leave(&mut self) -> u32
        requires { 2 ≤ length self.old.now }
        ensures now { self.new.now ≡ without_last self.old.now }
        ensures held { self.new.held ≡ self.old.held }
        ensures back { result ≡ (last_frame self.old.now).back }
        ensures choice_room { self.new.choice_room ≡ self.old.choice_room }
        ensures trail_room { self.new.trail_room ≡ self.old.trail_room }
    {
        let back = self.top.back;
        self.live -= 1;
        self.top = self.regions.get(self.live - 1);
        back
    }

    /// Makes a whole copy of the frames.
    pub fn choose(&mut self) -> Result<(), NoMemory>
        ensures now { self.new.now ≡ self.old.now }
        ensures held { self.new.held ≡ (if is_ok result
            then self.old.held ++ self.old.now ∷ [] else self.old.held) }
        ensures succeeds { 1 ≤ self.old.choice_room → IsOk result }
        ensures choice_room { self.old.choice_room ≤ self.new.choice_room
            + (if is_ok result then 1 else 0) }
        ensures trail_room { self.old.trail_room ≤ self.new.trail_room }
    {
        let end = end_of_live(&self.regions, self.live, self.slots.len());
        let top = higher(end, self.slots.needed());
        let high = higher(self.live, self.regions.needed());
        self.slots.reserve(1, 0)?;
        self.regions.reserve(1, 0)?;
        self.lives.reserve(1)?;
        choose_all(
            &mut self.slots,
            &mut self.regions,
            &mut self.lives,
            self.live,
            top,
            high,
        );
        Ok(())
    }

    /// Goes back to the top copy, which stays.
    pub fn back(&mut self)
        requires { 1 ≤ length self.old.held }
        ensures now { self.new.now ≡ top_copy self.old.held }
        ensures held { self.new.held ≡ self.old.held }
        ensures choice_room { self.old.choice_room ≤ self.new.choice_room }
        ensures trail_room { self.old.trail_room ≤ self.new.trail_room }
    {
        let live = self.lives[self.lives.len() - 1];
        self.slots.back();
        self.regions.back();
        self.live = live;
        self.top = self.regions.get(live - 1);
    }

    /// The number slots that are live in the top copy and now and differ, with their cells of now.
    /// It looks only at what was written since the copy was made.
    pub fn changes(&self, alloc: Global) -> Result<Vec<(SlotPlace, Cell)>, NoMemory>
        requires { 1 ≤ length self.now.held }
        ensures { IfOk result (λ found. SameGain (carry_of_entries found.items)
            (diffs (top_copy self.now.held) self.now.now)) }
    {
        let live = self.lives[self.lives.len() - 1];
        let past = Past::of(alloc, &self.slots, &self.regions, self.live, live)?;
        past.changes(alloc)
    }

    /// Drops the copies above a height.
    pub fn cut(&mut self, height: usize)
        ensures now { self.new.now ≡ self.old.now }
        ensures held { self.new.held ≡ take height self.old.held }
        ensures choice_room { self.old.choice_room ≤ self.new.choice_room }
        ensures trail_room { self.old.trail_room ≤ self.new.trail_room }
    {
        self.slots.cut(height);
        self.regions.cut(height);
        self.lives.truncate(height);
    }
}

/// The cell of a slot, where it is a number slot.
pub fn number_in(slot: Slot) -> Option<Cell>
    ensures { result ≡ slot_number (Some slot) }
{
    match slot.kind {
        SlotKind::Number => Some(slot.cell),
        SlotKind::Place(_) | SlotKind::Mark | SlotKind::Link(_) => None,
    }
}

/// The cell of a place, where it is a number slot of one of the `live` frames.
pub fn live_number(
    slots: &Rewind<Slot>,
    regions: &Rewind<Region>,
    live: usize,
    place: SlotPlace,
) -> Option<Cell>
    requires { IsState slots.now.now regions.now.now live }
    ensures { result ≡ number_of (frames_of slots.now.now (take live regions.now.now)) place.frame
        place.slot }
{
    let frame = place.frame as usize;
    if frame >= live {
        return None;
    }
    let region = regions.get(frame);
    if place.slot >= region.slots {
        return None;
    }
    let at = place_of(region, place.slot as usize, slots.len());
    number_in(slots.get(at))
}

// Makes the copies, for which there is room.
fn choose_all(
    slots: &mut Rewind<Slot>,
    regions: &mut Rewind<Region>,
    lives: &mut Vec<usize>,
    live: usize,
    top: usize,
    high: usize,
)
    requires slots { 1 ≤ slots.old.choice_room }
    requires regions { 1 ≤ regions.old.choice_room }
    requires lives { vec_len lives.old < vec_capacity lives.old }
    requires top { (needed slots.old.held ≤ top) × (top ≤ length slots.old.now) }
    requires high { (needed regions.old.held ≤ high) × (high ≤ length regions.old.now) }
    ensures slots { slots.new.held ≡ slots.old.held ++ take top slots.old.now ∷ [] }
    ensures regions { regions.new.held ≡ regions.old.held ++ take high regions.old.now ∷ [] }
    ensures lives { lives.new.items ≡ lives.old.items ++ live ∷ [] }
    ensures now { (slots.new.now ≡ slots.old.now) × (regions.new.now ≡ regions.old.now) }
    ensures rooms { (slots.old.choice_room ≤ slots.new.choice_room + 1)
        × (regions.old.choice_room ≤ regions.new.choice_room + 1) }
    ensures len { (vec_len lives.new ≡ vec_len lives.old + 1)
        × (vec_capacity lives.old ≤ vec_capacity lives.new) }
    ensures trail { slots.new.trail_room ≡ slots.old.trail_room }
{
    match slots.choose(top) {
        Ok(()) => (),
        Err(_) => unreachable!(),
    }
    match regions.choose(high) {
        Ok(()) => (),
        Err(_) => unreachable!(),
    }
    lives.push_reserved(live);
}

// Drops the slots from `base` on, and pushes these.
fn lay(slots: &mut Rewind<Slot>, base: usize, more: &[Slot]) -> Result<(), NoMemory>
    requires needed { needed slots.old.held ≤ base }
    requires base { base ≤ length slots.old.now }
    ensures agrees { take base slots.new.now ≡ take base slots.old.now }
    ensures wide { base ≤ length slots.new.now }
    ensures all { OnOk result (slots.new.now ≡ take base slots.old.now ++ more.now) }
    ensures held { slots.new.held ≡ slots.old.held }
    ensures kept { (p : ℕ) → slice_index_or (take base slots.old.noted) p false ≡ true
        → slice_index_or slots.new.noted p false ≡ true }
    ensures choice_room { slots.new.choice_room ≡ slots.old.choice_room }
    ensures trail_room { slots.new.trail_room ≡ slots.old.trail_room }
{
    slots.truncate(base);
    slots.extend(more)?;
    Ok(())
}

// Puts a region at a place, or at the end.
fn put(regions: &mut Rewind<Region>, at: usize, region: Region) -> Result<(), NoMemory>
    requires { at ≤ length regions.old.now }
    ensures now { OnOk result (take (at + 1) regions.new.now
        ≡ take at regions.old.now ++ region ∷ []) }
    ensures wide { OnOk result (at + 1 ≤ length regions.new.now) }
    ensures same { OnErr result (regions.new.now ≡ regions.old.now) }
    ensures held { regions.new.held ≡ regions.old.held }
    ensures choice_room { regions.new.choice_room ≡ regions.old.choice_room }
{
    if at < regions.len() {
        return regions.write(at, region);
    }
    regions.push(region)
}
