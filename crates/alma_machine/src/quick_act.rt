// Instructions that are made at once: those that come often, with nothing to tell. Where a step
// would be another, or memory is wanted, nothing happens, and it is left to `act`.
ghost use Rattle.std.specs.Prelude.{◌≡◌};
ghost use Rattle.alma_base.specs.Choice.{if_true};
ghost use Rattle.alma_base.specs.Numbers.{is_zero};
ghost use Rattle.alma_base.specs.declared.fault.RunFault.TheVariants as fault;
ghost use Rattle.alma_code.specs.Machine.{State, number, put_number, goes_to, fails_now, range_check, quiet_step, act};
ghost use Rattle.alma_machine.specs.Needs.{Needs, Computes};
ghost use Rattle.alma_machine.specs.Quick.{Quietly};
ghost use Rattle.alma_machine.specs.View.{run_state};
ghost use Rattle.alma_machine_acts.specs.Rows.{HasNumber, HasPlace, count_on, put_or_fault, point_or_fault};

use crate::dispatch::computation;
use alma_base::{Range, RunFault};
use alma_code::{Cell, Instr};
use alma_machine_acts::{CodeView, Mode, Registers, Spot};
use alma_memory::Memory;

// Puts a number into a slot, unless it is a fault.
#[inline(always)]
#[tactic(auto, using(alma_machine_acts::proofs::Words::puts))]
fn lay_number(registers: &mut Registers<Memory>, to: u32, number: Result<i64, RunFault>) -> bool
    requires { HasNumber registers.old.memory.now to }
    ensures { Quietly result (run_state registers.old) (run_state registers.new)
        (put_or_fault (run_state registers.old) to number) }
{
    match number {
        Ok(number) => registers.write(to, Cell::Int(number)).is_ok(),
        Err(_) => false,
    }
}

// Puts the place that begins at a spot into a place slot, unless it is a fault.
#[inline(always)]
fn lay_place(registers: &mut Registers<Memory>, to: u32, spot: Result<Spot, RunFault>) -> bool
    requires { HasPlace registers.old.memory.now to }
    ensures { Quietly result (run_state registers.old) (run_state registers.new)
        (point_or_fault (run_state registers.old) to spot) }
{
    match spot {
        Ok(spot) => registers.put_place(to, spot.frame, spot.slot).is_ok(),
        Err(_) => false,
    }
}

// Counts a counter on, or goes to an address.
#[inline(always)]
fn count_quickly(
    registers: &mut Registers<Memory>,
    counter: u32,
    limit: u32,
    by: u32,
    out: u32,
) -> bool
    requires counter { HasNumber registers.old.memory.now counter }
    requires limit { HasNumber registers.old.memory.now limit }
    requires by { HasNumber registers.old.memory.now by }
    ensures { let s = run_state registers.old in Quietly result s (run_state registers.new)
        (count_on s counter limit by (goes_to out s) (put_number s counter)) }
{
    match registers.next(counter, limit, by) {
        Ok(Some(next)) => lay_number(registers, counter, Ok(next)),
        Ok(None) => {
            registers.at = out;
            true
        }
        Err(_) => false,
    }
}

// Goes to an address where the number in a slot is 0.
#[inline(always)]
#[tactic(auto, using(alma_machine_acts::proofs::Words::tests, std::proofs::lemmas::Int::ints, std::proofs::lemmas::Grind::common_steps))]
fn jump_quickly(registers: &mut Registers<Memory>, value: u32, to: u32) -> bool
    requires { HasNumber registers.old.memory.now value }
    ensures { let s = run_state registers.old in Quietly result s (run_state registers.new)
        (number s value (λ v. if_true (is_zero v) (λ _. goes_to to s) (λ _. quiet_step s))) }
{
    match registers.number(value) {
        Ok(number) => {
            if number == 0 {
                registers.at = to;
            }
            true
        }
        Err(_) => false,
    }
}

// Fails where the number in a slot is 0.
#[inline(always)]
#[tactic(auto, using(alma_machine_acts::proofs::Words::tests, std::proofs::lemmas::Int::ints, std::proofs::lemmas::Grind::common_steps))]
fn check_quickly(registers: &mut Registers<Memory>, value: u32) -> bool
    requires { HasNumber registers.old.memory.now value }
    ensures { let s = run_state registers.old in Quietly result s (run_state registers.new)
        (number s value (λ v. if_true (is_zero v) (λ _. fails_now s) (λ _. quiet_step s))) }
{
    match registers.number(value) {
        Ok(number) => {
            if number == 0 {
                registers.mode = Mode::Failing;
            }
            true
        }
        Err(_) => false,
    }
}

// Whether the number in a slot is known, and in a range.
#[inline(always)]
#[tactic(auto, using(std::proofs::lemmas::Int::ints, std::proofs::lemmas::Grind::common_steps))]
fn in_range_quickly(registers: &Registers<Memory>, value: u32, range: &Range) -> bool
    requires { HasNumber registers.now.memory.now value }
    ensures { (s : State) → s.now ≡ registers.now.memory.now
        → Quietly result s s (number s value
        (λ v. range_check range.now fault.Range s v (λ _. quiet_step s))) }
{
    match registers.number_within(value, range, RunFault::Range) {
        Ok(_) => true,
        Err(_) => false,
    }
}

/// What an instruction of numbers does, if it ends in no fault.
#[inline(always)]
#[tactic(auto, unfolding(alma_code::specs::Machine::act), using(crate::proofs::Acting::actings))]
pub(crate) fn number_quickly<V: CodeView>(
    registers: &mut Registers<Memory>,
    view: &V,
    instr: Instr,
    input: &[u8],
) -> bool
    requires { Computes registers.old.memory.now instr }
    ensures { Quietly result (run_state registers.old) (run_state registers.new)
        (act (V.code view.now) input.now instr (run_state registers.old)) }
{
    let (to, number) = computation(registers, instr);
    lay_number(registers, to, number)
}

/// What a jump, a test or a counted loop does, if it ends in no fault.
#[inline(always)]
#[tactic(auto, unfolding(alma_code::specs::Machine::act, crate::specs::Needs::Needs), using(crate::proofs::Acting::actings))]
pub(crate) fn control_quickly<V: CodeView>(
    registers: &mut Registers<Memory>,
    view: &V,
    instr: Instr,
    input: &[u8],
) -> bool
    requires { Needs (V.code view.now) registers.old.memory.now instr }
    ensures { Quietly result (run_state registers.old) (run_state registers.new)
        (act (V.code view.now) input.now instr (run_state registers.old)) }
{
    match instr {
        Instr::Jump { to } => {
            registers.at = to;
            true
        }
        Instr::JumpZero { value, to } => jump_quickly(registers, value, to),
        Instr::Check { value } => check_quickly(registers, value),
        Instr::Fail => {
            registers.mode = Mode::Failing;
            true
        }
        Instr::InRange { value, range } => match view.range(range) {
            Some(range) => in_range_quickly(registers, value, &range),
            None => false,
        },
        Instr::Step {
            counter,
            limit,
            by,
            out,
        } => count_quickly(registers, counter, limit, by, out),
        _ => false,
    }
}

/// What an instruction of places does, if it ends in no fault.
#[inline(always)]
#[tactic(auto, unfolding(alma_code::specs::Machine::act, crate::specs::Needs::Needs), using(crate::proofs::Acting::actings))]
pub(crate) fn place_quickly<V: CodeView>(
    registers: &mut Registers<Memory>,
    view: &V,
    instr: Instr,
    input: &[u8],
) -> bool
    requires { Needs (V.code view.now) registers.old.memory.now instr }
    ensures { Quietly result (run_state registers.old) (run_state registers.new)
        (act (V.code view.now) input.now instr (run_state registers.old)) }
{
    match instr {
        Instr::Local { to, first } => {
            let frame = registers.memory.frames() - 1;
            lay_place(registers, to, Ok(Spot { frame, slot: first }))
        }
        Instr::Global { to, first } => lay_place(
            registers,
            to,
            Ok(Spot {
                frame: 0,
                slot: first,
            }),
        ),
        Instr::Same { to, from } => {
            let spot = registers.whole(from);
            lay_place(registers, to, spot)
        }
        Instr::Field { to, from, offset } => {
            let spot = registers.field(from, offset);
            lay_place(registers, to, spot)
        }
        Instr::Index {
            to,
            from,
            index,
            range,
        } => match view.range(range) {
            Some(range) => {
                let spot = registers.part(to, from, index, &range);
                lay_place(registers, to, spot)
            }
            None => false,
        },
        _ => false,
    }
}
