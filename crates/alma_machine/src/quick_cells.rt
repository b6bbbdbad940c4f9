// Stores, bindings and equations of known cells, and the simple choices, made at once.
ghost use Rattle.std.specs.Prelude.{◌+◌, ◌<◌, ◌^◌, Some, length};
ghost use Rattle.alma_code.specs.Machine.{number, place, content, store, binds_content, optional_range_check, equation, mark, cut_to, answer_of_push, state_after_push, pop, put_mark, quiet_step, act};
ghost use Rattle.alma_code.specs.declared.cell.ChoiceKind.TheVariants as choice;
ghost use Rattle.alma_machine.specs.Needs.{Needs};
ghost use Rattle.alma_machine.specs.Quick.{Quickly, Quietly};
ghost use Rattle.alma_machine.specs.View.{run_state};
ghost use Rattle.alma_machine_acts.specs.Rows.{HasMark, HasNumber, HasNumberIn, HasOneCell};

use alma_base::Range;
use alma_code::{CellPlace, ChoiceKind, Instr};
use alma_machine_acts::choices::{choose, mark, set_mark};
use alma_machine_acts::{CodeView, Mode, Registers};
use alma_memory::Memory;

// Puts the number in a slot into the cell at a place.
#[inline(always)]
#[tactic(auto, using(alma_machine_acts::proofs::Words::one_slot, std::proofs::lemmas::Grind::common_steps))]
fn store_quickly(registers: &mut Registers<Memory>, to: u32, from: u32) -> bool
    requires to { HasOneCell registers.old.memory.now to }
    requires from { HasNumber registers.old.memory.now from }
    ensures { let s = run_state registers.old in Quietly result s (run_state registers.new)
        (place s to (λ p. number s from (λ v. store s p.frame p.slot v quiet_step))) }
{
    let Ok(place) = registers.place(to) else {
        return false;
    };
    let Ok(number) = registers.number(from) else {
        return false;
    };
    registers.set(place.frame, place.slot, number).is_ok()
}

// Gives a number to an unknown cell, if it is in the range of the cell.
#[inline(always)]
#[tactic(auto, using(alma_machine_acts::proofs::Words::ranges, std::proofs::lemmas::Int::ints, std::proofs::lemmas::Grind::common_steps))]
fn give_quickly(
    registers: &mut Registers<Memory>,
    place: CellPlace,
    range: &Range,
    number: i64,
) -> bool
    requires { HasNumberIn registers.old.memory.now place.frame place.slot }
    ensures { let s = run_state registers.old in Quietly result s (run_state registers.new)
        (optional_range_check (Some range.now) s number
        (λ _. store s place.frame place.slot number quiet_step)) }
{
    if number < range.low || range.high < number {
        return false;
    }
    registers.set(place.frame, place.slot, number).is_ok()
}

// The equation of the cell at a place and a number.
#[inline(always)]
#[tactic(auto, using(alma_machine_acts::proofs::Words::one_slot, alma_machine_acts::proofs::Words::tests, alma_machine_acts::proofs::Words::ranges, std::proofs::lemmas::Int::ints, std::proofs::lemmas::Grind::common_steps))]
fn bind_to_quickly(
    registers: &mut Registers<Memory>,
    place: CellPlace,
    range: &Range,
    number: i64,
) -> bool
    requires { HasNumberIn registers.old.memory.now place.frame place.slot }
    ensures { let s = run_state registers.old in Quietly result s (run_state registers.new)
        (content s place.frame place.slot (λ u. binds_content s place range.now number u)) }
{
    match registers.content(place.frame, place.slot) {
        Some(known) => {
            if known != number {
                registers.mode = Mode::Failing;
            }
            true
        }
        None => give_quickly(registers, place, range, number),
    }
}

// The equation of the cell at the place in a slot and the number in another.
#[inline(always)]
#[tactic(auto, using(alma_machine_acts::proofs::Words::one_slot, std::proofs::lemmas::Grind::common_steps))]
fn bind_quickly(registers: &mut Registers<Memory>, to: u32, value: u32, range: &Range) -> bool
    requires to { HasOneCell registers.old.memory.now to }
    requires value { HasNumber registers.old.memory.now value }
    ensures { let s = run_state registers.old in Quietly result s (run_state registers.new)
        (place s to (λ p. number s value
        (λ v. content s p.frame p.slot (λ u. binds_content s p range.now v u)))) }
{
    let Ok(place) = registers.place(to) else {
        return false;
    };
    match registers.number(value) {
        Ok(number) => bind_to_quickly(registers, place, range, number),
        Err(_) => false,
    }
}

// The equation of two cells, of which one is known.
#[inline(always)]
#[tactic(auto, using(alma_machine_acts::proofs::Words::tests, std::proofs::lemmas::Int::ints, std::proofs::lemmas::Grind::common_steps))]
fn equate_quickly(
    registers: &mut Registers<Memory>,
    left: CellPlace,
    first: Range,
    right: CellPlace,
    second: Range,
) -> bool
    requires left { HasNumberIn registers.old.memory.now left.frame left.slot }
    requires right { HasNumberIn registers.old.memory.now right.frame right.slot }
    ensures { let s = run_state registers.old in Quietly result s (run_state registers.new)
        (equation s left.frame left.slot (Some first) right.frame right.slot (Some second)
        quiet_step) }
{
    let left_known = registers.content(left.frame, left.slot);
    let right_known = registers.content(right.frame, right.slot);
    match (left_known, right_known) {
        (Some(x), Some(y)) => {
            if x != y {
                registers.mode = Mode::Failing;
            }
            true
        }
        (Some(x), None) => give_quickly(registers, right, &second, x),
        (None, Some(y)) => give_quickly(registers, left, &first, y),
        (None, None) => false,
    }
}

// The equation of the cells at the places in two slots, of which one is known.
#[inline(always)]
#[tactic(auto, using(alma_machine_acts::proofs::Words::one_slot, std::proofs::lemmas::Grind::common_steps))]
fn unify_quickly(
    registers: &mut Registers<Memory>,
    left: u32,
    first: Range,
    right: u32,
    second: Range,
) -> bool
    requires left { HasOneCell registers.old.memory.now left }
    requires right { HasOneCell registers.old.memory.now right }
    ensures { let s = run_state registers.old in Quietly result s (run_state registers.new)
        (place s left (λ p. place s right
        (λ q. equation s p.frame p.slot (Some first) q.frame q.slot (Some second) quiet_step))) }
{
    let Ok(one) = registers.place(left) else {
        return false;
    };
    let Ok(other) = registers.place(right) else {
        return false;
    };
    equate_quickly(registers, one, first, other, second)
}

/// What a store, a binding or an equation does, if it ends in no fault and what it looks at is
/// known.
#[inline(always)]
#[tactic(auto, unfolding(alma_code::specs::Machine::act, crate::specs::Needs::Needs), using(crate::proofs::Acting::actings))]
pub(crate) fn cell_quickly<V: CodeView>(
    registers: &mut Registers<Memory>,
    view: &V,
    instr: Instr,
    input: &[u8],
) -> bool
    requires { Needs (V.code view.now) registers.old.memory.now instr }
    ensures { Quietly result (run_state registers.old) (run_state registers.new)
        (act (V.code view.now) input.now instr (run_state registers.old)) }
{
    match instr {
        Instr::Store { to, from } => store_quickly(registers, to, from),
        Instr::Bind {
            place,
            value,
            range,
        } => match view.range(range) {
            Some(range) => bind_quickly(registers, place, value, &range),
            None => false,
        },
        Instr::Unify {
            left,
            left_range,
            right,
            right_range,
        } => match (view.range(left_range), view.range(right_range)) {
            (Some(first), Some(second)) => unify_quickly(registers, left, first, right, second),
            _ => false,
        },
        _ => false,
    }
}

// Drops the entries above the height in a slot.
#[inline(always)]
#[tactic(auto, using(alma_machine_acts::proofs::Entries::cuts))]
fn cut_quickly(registers: &mut Registers<Memory>, slot: u32) -> bool
    requires { HasMark registers.old.memory.now slot }
    ensures { let s = run_state registers.old in Quickly result s (run_state registers.new)
        (mark s slot (λ h. cut_to s h)) }
{
    match mark(registers, slot) {
        Ok(height) => {
            if height < registers.memory.height() {
                registers.memory.cut(height);
            }
            true
        }
        Err(_) => false,
    }
}

// Pushes a Branch.
#[inline(always)]
fn choose_quickly(registers: &mut Registers<Memory>, resume: u32) -> bool
    requires few { registers.old.choices + 1 < 2 ^ 63 }
    ensures { Quickly result (run_state registers.old) (run_state registers.new)
        (answer_of_push (state_after_push (run_state registers.old) choice.Branch resume)) }
{
    choose(registers, ChoiceKind::Branch, resume).is_ok()
}

// Puts the height into a mark slot.
#[inline(always)]
fn mark_quickly(registers: &mut Registers<Memory>, to: u32) -> bool
    requires { HasMark registers.old.memory.now to }
    ensures { let s = run_state registers.old in Quickly result s (run_state registers.new)
        (put_mark s to (length s.held)) }
{
    set_mark(registers, to).is_ok()
}

/// What a Mark, a Cut or a Choose does, if it ends in no fault.
#[inline(always)]
#[tactic(auto, unfolding(alma_code::specs::Machine::act, crate::specs::Needs::Needs))]
pub(crate) fn choice_quickly<V: CodeView>(
    registers: &mut Registers<Memory>,
    view: &V,
    instr: Instr,
    input: &[u8],
) -> bool
    requires needs { Needs (V.code view.now) registers.old.memory.now instr }
    requires few { registers.old.choices + 1 < 2 ^ 63 }
    ensures { Quickly result (run_state registers.old) (run_state registers.new)
        (act (V.code view.now) input.now instr (run_state registers.old)) }
{
    match instr {
        Instr::Mark { to } => mark_quickly(registers, to),
        Instr::Cut { mark } => cut_quickly(registers, mark),
        Instr::Choose { resume } => choose_quickly(registers, resume),
        _ => false,
    }
}

/// Goes back to the top entry, where there is one.
#[inline(always)]
#[tactic(auto, using(alma_machine_acts::proofs::Entries::pops))]
pub(crate) fn pop_quickly(registers: &mut Registers<Memory>) -> bool
    requires few { registers.old.fails + 1 < 2 ^ 63 }
    ensures { Quickly result (run_state registers.old) (run_state registers.new)
        (pop (run_state registers.old)) }
{
    match registers.memory.fail() {
        Some(resumed) => {
            registers.mode = Mode::Going;
            registers.at = resumed.resume;
            registers.fails += 1;
            true
        }
        None => false,
    }
}
