// How the slots of a new frame are laid out.
ghost use Rattle.std.specs.Prelude.{◌≡◌, ◌+◌, ◌-◌, ◌^◌, ◌<◌, ◌≤◌, [], ◌++◌, length, map, drop, replicate, slice_index_or, IfOk, OnOk, OnErr, vec_capacity};
ghost use Rattle.alma_code.specs.Layout.{RunsRise, kinds_of, arg_cells, args_cells, FitsParam, FitsParams, FitsPlace, mix_cells, cells_behind_argument, IsHead, cells_at, cells_of_call, start_frame};
ghost use Rattle.alma_code.specs.Picture.{no_frame};
ghost use Rattle.alma_code.specs.Carries.{IsLive};
ghost use Rattle.alma_memory_store.specs.Frames.{AreWhole};
ghost use Rattle.alma_memory_store.specs.Regions.{blank_slot, cells_in, kinds_in};

use crate::live_frames::LiveFrames;
use crate::store::Slot;
use alma_base::NoMemory;
use alma_code::{Cell, CellPlace, CodeParam, Head, ParamKind, SlotKind};

// A slot before anything is written.
#[inline(always)]
fn blank(kind: SlotKind) -> Slot
    ensures { result ≡ blank_slot kind }
{
    let cell = match kind {
        SlotKind::Number => Cell::Unknown,
        SlotKind::Place(_) | SlotKind::Mark | SlotKind::Link(_) => Cell::Unset,
    };
    Slot { kind, cell }
}

// Pushes a slot again and again, up to an end.
#[inline(always)]
fn push_run(slots: &mut Vec<Slot>, end: usize, slot: Slot)
    requires { end ≤ vec_capacity slots.old }
    ensures items { slots.new.items ≡ slots.old.items
        ++ replicate (end - length slots.old.items) slot }
    ensures capacity { vec_capacity slots.new ≡ vec_capacity slots.old }
{
    while slots.len() < end {
        slots.push_reserved(slot);
    }
}

/// The slots of a head before anything is written, in place of what stood there: number slots are
/// unknown, all others unset.
pub fn put_blanks<H: Head>(slots: &mut Vec<Slot>, head: &H) -> Result<(), NoMemory>
    requires { RunsRise 0 (H.head head.now).runs (H.head head.now).slots }
    ensures slots { OnOk result (slots.new.items
        ≡ map blank_slot (kinds_of 0 (H.head head.now).runs)) }
    ensures few { OnOk result ((H.head head.now).slots < 2 ^ 32) }
    ensures none { OnErr result (slots.new.items ≡ []) }
{
    slots.clear();
    slots.reserve(head.slots() as usize)?;
    for i in 0..head.run_count() {
        let run = head.run(i);
        push_run(slots, run.end as usize, blank(run.kind));
    }
    Ok(())
}

/// Writes cells, those of the arguments at a call, into the first slots.
#[inline(always)]
pub fn put_cells(slots: &mut Vec<Slot>, cells: &[Cell])
    requires { length cells.now ≤ length slots.old.items }
    ensures kinds { kinds_in slots.new.items ≡ kinds_in slots.old.items }
    ensures cells { cells_in slots.new.items
        ≡ cells.now ++ drop (length cells.now) (cells_in slots.old.items) }
{
    for i in 0..cells.len() {
        let kind = slots[i].kind;
        let cell = cells[i];
        slots[i] = Slot { kind, cell };
    }
}

// Adds what an argument puts into the slots of its parameter.
fn push_arg<F: LiveFrames>(
    cells: &mut Vec<Cell>,
    frames: &F,
    param: CodeParam,
    arg: Cell,
) -> Result<(), NoMemory>
    requires fits { FitsParam (IsLive (F.live frames.now)) (λ routine. IsLive (F.live frames.now))
        param.kind param.cells arg }
    requires whole { AreWhole (F.live frames.now) }
    requires room { param.kind ≡ ParamKind.Mix → length cells.old.items + 1 < 2 ^ 32 }
    ensures { IfOk result (λ _. cells.new.items ≡ cells.old.items ++ arg_cells (F.live frames.now)
        (length (F.live frames.now)) (length cells.old.items) param.kind arg) }
{
    match param.kind {
        ParamKind::Value | ParamKind::Place | ParamKind::Link => {
            cells.push(arg)?;
            Ok(())
        }
        ParamKind::Mix => push_mix(cells, frames.len() as u32, arg),
        ParamKind::Cells => push_copies(cells, frames, param.cells, arg),
    }
}

// The two slots of a Mix in the frame `me`.
fn push_mix(cells: &mut Vec<Cell>, me: u32, arg: Cell) -> Result<(), NoMemory>
    requires { length cells.old.items + 1 < 2 ^ 32 }
    ensures { IfOk result (λ _. cells.new.items ≡ cells.old.items ++ mix_cells me
        (length cells.old.items) arg) }
{
    match arg {
        Cell::Place(_) => {
            cells.push(arg)?;
            cells.push(Cell::Unknown)?;
        }
        Cell::Int(_) => {
            let slot = cells.len() as u32 + 1;
            cells.push(Cell::Place(CellPlace {
                frame: me,
                slot,
                len: 1,
            }))?;
            cells.push(arg)?;
        }
        Cell::Unknown | Cell::Unset | Cell::Mark(_) => {}
    }
    Ok(())
}

// The cells at a place.
fn push_place<F: LiveFrames>(
    cells: &mut Vec<Cell>,
    frames: &F,
    place: CellPlace,
) -> Result<(), NoMemory>
    requires live { place.frame < length (F.live frames.now) }
    requires end { place.slot + place.len
        ≤ length (slice_index_or (F.live frames.now) place.frame no_frame).cells }
    ensures { IfOk result (λ _. cells.new.items ≡ cells.old.items
        ++ cells_at (F.live frames.now) place) }
{
    let from = place.slot as usize;
    for k in 0..place.len {
        let cell = frames.read(place.frame as usize, from + k as usize);
        cells.push(cell)?;
    }
    Ok(())
}

// Adds copies of the cells at the place that an argument is.
fn push_copies<F: LiveFrames>(
    cells: &mut Vec<Cell>,
    frames: &F,
    count: u32,
    arg: Cell,
) -> Result<(), NoMemory>
    requires fits { FitsPlace (IsLive (F.live frames.now)) count arg }
    requires whole { AreWhole (F.live frames.now) }
    ensures { IfOk result (λ _. cells.new.items ≡ cells.old.items
        ++ cells_behind_argument (F.live frames.now) arg) }
{
    match arg {
        Cell::Place(place) if place.len > 0 => push_place(cells, frames, place),
        Cell::Place(_) | Cell::Int(_) | Cell::Unknown | Cell::Unset | Cell::Mark(_) => Ok(()),
    }
}

/// What the arguments put into the first slots, in place of what stood there: two cells for Mix,
/// copies of the cells at a place for Cells, and else the argument itself.
#[inline(always)]
pub fn push_args<F: LiveFrames, H: Head>(
    cells: &mut Vec<Cell>,
    frames: &F,
    head: &H,
    args: &[Cell],
) -> Result<(), NoMemory>
    requires head { IsHead (H.head head.now) }
    requires whole { AreWhole (F.live frames.now) }
    requires args { FitsParams (IsLive (F.live frames.now)) (λ routine. IsLive (F.live frames.now))
        (H.head head.now).params args.now }
    ensures { OnOk result (cells.new.items ≡ args_cells (F.live frames.now)
        (H.head head.now).params args.now (length (H.head head.now).params)) }
{
    // Brings in that the number of slots is one of 32 bits.
    let _ = head.slots();
    cells.clear();
    for i in 0..head.param_count() {
        push_arg(cells, frames, head.param(i), args[i as usize])?;
    }
    Ok(())
}

/// The slots of the frame of a start, in place of what stood there.
pub fn put_start<H: Head>(slots: &mut Vec<Slot>, head: &H) -> Result<(), NoMemory>
    requires head { IsHead (H.head head.now) }
    requires some { 1 ≤ (H.head head.now).slots }
    ensures kinds { OnOk result (kinds_in slots.new.items ≡ kinds_of 0 (H.head head.now).runs) }
    ensures cells { OnOk result (cells_in slots.new.items ≡ (start_frame (H.head head.now)).cells) }
    ensures few { OnOk result (length slots.new.items < 2 ^ 32) }
{
    put_blanks(slots, head)?;
    let kind = slots[0].kind;
    slots[0] = Slot {
        kind,
        cell: Cell::Int(0),
    };
    Ok(())
}

/// The slots of the frame that a call enters, in place of what stood there; `cells` is for the
/// arguments.
pub fn put_call<F: LiveFrames, H: Head>(
    slots: &mut Vec<Slot>,
    cells: &mut Vec<Cell>,
    frames: &F,
    head: &H,
    args: &[Cell],
) -> Result<(), NoMemory>
    requires head { IsHead (H.head head.now) }
    requires whole { AreWhole (F.live frames.now) }
    requires args { FitsParams (IsLive (F.live frames.now)) (λ routine. IsLive (F.live frames.now))
        (H.head head.now).params args.now }
    ensures kinds { OnOk result (kinds_in slots.new.items ≡ kinds_of 0 (H.head head.now).runs) }
    ensures cells { OnOk result (cells_in slots.new.items ≡ cells_of_call (F.live frames.now)
        (H.head head.now) args.now) }
    ensures few { OnOk result (length slots.new.items < 2 ^ 32) }
{
    put_blanks(slots, head)?;
    push_args(cells, frames, head, args)?;
    put_cells(slots, cells.as_slice());
    Ok(())
}
