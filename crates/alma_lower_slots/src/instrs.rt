// Whether the instructions of a routine fit stretches.
ghost use Rattle.std.specs.Prelude.{◌≡◌, ◌+◌, ◌<◌, ℕ, true, get_or, Some};
ghost use Rattle.alma_code.specs.Plain.{code_of};
ghost use Rattle.alma_code.specs.declared.instr.Instr.TheVariants as I;
ghost use Rattle.alma_lower_slots.specs.Inner.Checks.{begin_of as begin_of_spec, FitInstrs, FitsInstr, StayTogether, WritesIn};
ghost use Rattle.alma_lower_slots.specs.Slots.{target_slot};
ghost use Rattle.alma_lower_slots.specs.Stretches.{stretch_at};

use crate::flow::fits_flow;
use crate::lookups::{end_of, instr_at, param_count, start_of};
use crate::matters::{is_kept, reads_matter, stretch_of};
use crate::names::{begins_own, names_own};
use crate::stretch::Stretch;
use crate::uses::written_by;
use alma_code::{Code, Instr, SlotKind};

/// The address behind which a slot has its new number.
pub fn begin_of(stretch: Stretch) -> u32
    ensures { result ≡ begin_of_spec stretch }
{
    if is_kept(stretch) { 0 } else { stretch.low }
}

// Whether a slot is there, and has its new number behind an address.
fn holds_behind(stretches: &[Stretch], at: u32, slot: u32) -> bool
    ensures { result ≡ true → WritesIn stretches.now at slot }
{
    if slot as usize >= stretches.len() {
        return false;
    }
    let stretch = stretch_of(stretches, slot);
    begin_of(stretch) <= at && at < stretch.high
}

// Whether the slot that an instruction writes has its new number behind it.
fn write_fits(code: &Code, stretches: &[Stretch], at: u32, instr: Instr) -> bool
    ensures { result ≡ true → (w : ℕ) → target_slot (code_of code.now) instr ≡ Some w
        → WritesIn stretches.now at w }
{
    match written_by(code, instr) {
        None => true,
        Some(slot) => holds_behind(stretches, at, slot),
    }
}

// The new number of a slot.
fn slot_of(stretches: &[Stretch], slot: u64) -> u64
    ensures { result ≡ (stretch_at stretches.now slot).slot }
{
    match stretches.get(slot as usize) {
        None => slot,
        Some(found) => u64::from(found.slot),
    }
}

// Whether slots that follow one another still do.
fn follow(stretches: &[Stretch], first: u32, count: u32) -> bool
    ensures { result ≡ true → (k : ℕ) → k < count
        → (stretch_at stretches.now (first + k)).slot
        ≡ (stretch_at stretches.now first).slot + k }
{
    let begin = u64::from(stretch_of(stretches, first).slot);
    for k in 0..count {
        let step = u64::from(k);
        if slot_of(stretches, u64::from(first) + step) != begin + step {
            return false;
        }
    }
    true
}

// Whether the arguments of a Call stay together.
fn stay_together(code: &Code, stretches: &[Stretch], instr: Instr) -> bool
    ensures { result ≡ true → StayTogether (code_of code.now) stretches.now instr }
{
    match instr {
        Instr::Call { routine, first, .. } => follow(stretches, first, param_count(code, routine)),
        _ => true,
    }
}

// Whether the instruction at an address fits.
fn fits_instr(
    code: &Code,
    routine: usize,
    own: &[u32],
    kinds: &[SlotKind],
    stretches: &[Stretch],
    at: u32,
) -> bool
    ensures { result ≡ true → FitsInstr (code_of code.now) own.now kinds.now stretches.now routine
        at (get_or (code_of code.now).instrs at I.Fail) }
{
    let instr = instr_at(code, at);
    if !reads_matter(code, stretches, at, instr) || !write_fits(code, stretches, at, instr) {
        return false;
    }
    if !names_own(own, kinds, routine, instr) || !begins_own(own, routine, instr) {
        return false;
    }
    if !fits_flow(code, at, instr) {
        return false;
    }
    stay_together(code, stretches, instr)
}

/// Whether each instruction of a routine fits.
pub fn fit_instrs(
    code: &Code,
    routine: usize,
    own: &[u32],
    kinds: &[SlotKind],
    stretches: &[Stretch],
) -> bool
    ensures { result ≡ true
        → FitInstrs (code_of code.now) own.now kinds.now stretches.now routine }
{
    let start = start_of(code, routine);
    let end = end_of(code, routine);
    for at in start..end {
        if !fits_instr(code, routine, own, kinds, stretches, at) {
            return false;
        }
    }
    true
}
