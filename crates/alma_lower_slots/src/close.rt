// Whether the stretches of slots are closed: a slot is written where its stretch begins, and none
// jumps into the stretch from outside.
ghost use Rattle.std.specs.Prelude.{◌≡◌, ◌-◌, ◌<◌, ◌≤◌, ◌^◌, ℕ, true, false, get_or, length, slice_get, Some};
ghost use Rattle.alma_code.specs.Kinds.{is_number as is_number_spec};
ghost use Rattle.alma_code.specs.Plain.{code_of};
ghost use Rattle.alma_code.specs.declared.instr.Instr.TheVariants as I;
ghost use Rattle.alma_lower_slots.specs.Inner.Checks.{AreSources, Encloses, FitSlots, FitsSlot, HasStretch, IsCalm, no_sources};
ghost use Rattle.alma_lower_slots.specs.Slots.{target_slot};

use crate::lookups::{end_of, instr_at, start_of};
use crate::matters::{is_kept, stretch_of};
use crate::sources::Sources;
use crate::stretch::Stretch;
use crate::uses::{away_of, lays_over, written_by};
use alma_code::{Code, Instr, SlotKind};

// The sources of an address by its place in the routine; of one that is not there those that
// nothing encloses.
fn source_at(sources: &[Sources], place: usize) -> Sources
    ensures { result ≡ get_or sources.now place no_sources }
{
    match sources.get(place) {
        None => Sources { first: 0, last: 0 },
        Some(found) => *found,
    }
}

// Whether the sources of an address lie behind low up to high.
fn encloses(source: Sources, low: u32, high: u32) -> bool
    ensures { result ≡ true → Encloses source low high }
{
    low < source.first && source.last <= high
}

// Whether those of all addresses behind low up to high lie there.
fn leads_inside(sources: &[Sources], start: u32, low: u32, high: u32) -> bool
    requires { start ≤ low }
    ensures { result ≡ true → (t : ℕ) → low < t → t ≤ high
        → Encloses (get_or sources.now (t - start) no_sources) low high }
{
    for before in low..high {
        let source = source_at(sources, (before - start) as usize + 1);
        if !encloses(source, low, high) {
            return false;
        }
    }
    true
}

// Whether no carry may have been laid over the frame behind an instruction, or it is the last of a
// stretch and leads nowhere else.
fn leaves_calm(instr: Instr, at: u32, high: u32) -> bool
    ensures { result ≡ true → IsCalm instr at high }
{
    !lays_over(instr) || at == high && away_of(instr).is_none()
}

// Whether a number may live behind low up to high: a Call at `high` reads it, and it does not live
// behind that.
fn is_calm(code: &Code, low: u32, high: u32) -> bool
    ensures { result ≡ true → (at : ℕ) → low < at → at ≤ high
        → IsCalm (get_or (code_of code.now).instrs at I.Fail) at high }
{
    for before in low..high {
        let at = before + 1;
        if !leaves_calm(instr_at(code, at), at, high) {
            return false;
        }
    }
    true
}

// Whether the instruction at an address writes a slot.
fn writes(code: &Code, at: u32, slot: u32) -> bool
    ensures { result ≡ true → target_slot (code_of code.now) (get_or (code_of code.now).instrs at
        I.Fail) ≡ Some slot }
{
    match written_by(code, instr_at(code, at)) {
        None => false,
        Some(found) => found == slot,
    }
}

// Whether a kind is that of a number slot.
fn is_number(kind: Option<SlotKind>) -> bool
    ensures { result ≡ is_number_spec kind }
{
    matches!(kind, Some(SlotKind::Number))
}

/// Whether a slot lives behind no carry in its stretch, if it is a number slot.
pub fn is_calm_for(code: &Code, kind: Option<SlotKind>, low: u32, high: u32) -> bool
    ensures { result ≡ true → is_number_spec kind ≡ true → (at : ℕ) → low < at → at ≤ high
        → IsCalm (get_or (code_of code.now).instrs at I.Fail) at high }
{
    !is_number(kind) || is_calm(code, low, high)
}

// Whether the stretch of a slot fits the code of the routine.
fn fits_slot(
    code: &Code,
    routine: usize,
    sources: &[Sources],
    kind: Option<SlotKind>,
    slot: u32,
    stretch: Stretch,
) -> bool
    requires { AreSources (code_of code.now) routine sources.now }
    ensures { result ≡ true → FitsSlot (code_of code.now) routine kind slot stretch }
{
    let start = start_of(code, routine);
    let end = end_of(code, routine);
    if stretch.low < start || stretch.high >= end {
        return false;
    }
    if !writes(code, stretch.low, slot) {
        return false;
    }
    if !leads_inside(sources, start, stretch.low, stretch.high) {
        return false;
    }
    is_calm_for(code, kind, stretch.low, stretch.high)
}

// Whether a slot has a stretch, and is not kept.
fn has_stretch(stretch: Stretch) -> bool
    ensures { result ≡ false → HasStretch stretch → ⊥ }
{
    !is_kept(stretch) && stretch.low < stretch.high
}

// The kind of a slot.
fn kind_of(kinds: &[SlotKind], slot: u32) -> Option<SlotKind>
    ensures { result ≡ slice_get kinds.now slot }
{
    kinds.get(slot as usize).copied()
}

/// Whether the stretches of all slots fit the code of the routine.
pub fn fit_slots(
    code: &Code,
    routine: usize,
    sources: &[Sources],
    kinds: &[SlotKind],
    stretches: &[Stretch],
) -> bool
    requires sources { AreSources (code_of code.now) routine sources.now }
    requires few { length stretches.now < 2 ^ 32 }
    ensures { result ≡ true → FitSlots (code_of code.now) routine kinds.now stretches.now }
{
    for slot in 0..stretches.len() as u32 {
        let stretch = stretch_of(stretches, slot);
        let kind = kind_of(kinds, slot);
        if has_stretch(stretch) && !fits_slot(code, routine, sources, kind, slot, stretch) {
            return false;
        }
    }
    true
}
