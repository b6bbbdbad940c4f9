// The frames that a start and a call enter.
ghost use Rattle.std.specs.Prelude.{◌≡◌, ◌≤◌, length, IfOk};
ghost use Rattle.alma_code.specs.Layout.{FitsParams, IsHead, frame_of_call, start_frame};
ghost use Rattle.alma_code.specs.Carries.{IsLive};
ghost use Rattle.alma_memory_store.specs.Frames.{AreWhole, IsWhole};
ghost use Rattle.alma_memory_store.specs.Regions.{cells_in, kinds_in};

use crate::frame::Frame;
use crate::frames::Frames;
use alma_base::NoMemory;
use alma_code::{Cell, Head, SlotKind};
use alma_memory_store::{Slot, put_call, put_start};
use std::alloc::Global;

// The kinds of slots, and what they hold.
fn parts_of(alloc: Global, slots: &[Slot]) -> Result<(Vec<SlotKind>, Vec<Cell>), NoMemory>
    ensures kinds { IfOk result (λ parts. parts.0.items ≡ kinds_in slots.now) }
    ensures cells { IfOk result (λ parts. parts.1.items ≡ cells_in slots.now) }
    ensures same { IfOk result (λ parts. length parts.0.items ≡ length parts.1.items) }
    ensures wide { IfOk result (λ parts. length parts.1.items ≡ length slots.now) }
{
    let mut kinds = Vec::with_capacity(alloc, slots.len())?;
    let mut cells = Vec::with_capacity(alloc, slots.len())?;
    for i in 0..slots.len() {
        let slot = slots[i];
        kinds.push(slot.kind)?;
        cells.push(slot.cell)?;
    }
    Ok((kinds, cells))
}

/// The frame of a start, of routine 0.
pub fn start_from<H: Head>(alloc: Global, head: &H) -> Result<Frame, NoMemory>
    requires head { IsHead (H.head head.now) }
    requires some { 1 ≤ (H.head head.now).slots }
    ensures frame { IfOk result (λ frame. frame ≡ start_frame (H.head head.now)) }
    ensures whole { IfOk result IsWhole }
{
    let mut slots = Vec::new(alloc);
    put_start(&mut slots, head)?;
    let (kinds, cells) = parts_of(alloc, slots.as_slice())?;
    Frame::new(alloc, 0, 0, head.declared(), kinds, cells)
}

/// The frame that a call enters.
pub fn frame_from<H: Head>(
    alloc: Global,
    frames: &Frames,
    head: &H,
    routine: u32,
    back: u32,
    args: &[Cell],
) -> Result<Frame, NoMemory>
    requires head { IsHead (H.head head.now) }
    requires whole { AreWhole frames.now }
    requires args { FitsParams (IsLive frames.now) (λ routine. IsLive frames.now)
        (H.head head.now).params args.now }
    ensures frame { IfOk result (λ frame. frame ≡ frame_of_call frames.now
        (H.head head.now) routine back args.now) }
    ensures whole { IfOk result IsWhole }
{
    let mut slots = Vec::new(alloc);
    let mut arguments = Vec::new(alloc);
    put_call(&mut slots, &mut arguments, frames, head, args)?;
    let (kinds, cells) = parts_of(alloc, slots.as_slice())?;
    Frame::new(alloc, routine, back, head.declared(), kinds, cells)
}
