// Calls and returns, made at once.
ghost use Rattle.std.specs.Prelude.{◌≡◌, ◌-◌, ◌<◌, ◌≤◌, ℕ, Some, nat_eq, length, slice_get};
ghost use Rattle.alma_base.specs.Choice.{if_true};
ghost use Rattle.alma_code.specs.declared.instr.Instr.TheVariants as instr;
ghost use Rattle.alma_code.specs.declared.step.End.TheVariants as end;
ghost use Rattle.alma_code.specs.Carries.{IsLive};
ghost use Rattle.alma_code.specs.Layout.{IsHead, FitsParams};
ghost use Rattle.alma_code.specs.Machine.{number, arguments, enters_routine, ends_run, answers_return, state_after_leave, result_to, act};
ghost use Rattle.alma_code.specs.Picture.{last_frame};
ghost use Rattle.alma_machine.specs.Needs.{Needs};
ghost use Rattle.alma_machine.specs.Quick.{Quickly};
ghost use Rattle.alma_machine.specs.View.{run_state};
ghost use Rattle.alma_machine_acts.specs.Calls.{HasArguments, CallsBack};
ghost use Rattle.alma_machine_acts.specs.Rows.{HasNumber};

use alma_code::{Cell, Head, Instr};
use alma_machine_acts::calls::arguments;
use alma_machine_acts::{CodeView, Registers};
use alma_memory::Memory;

// Enters a routine with the arguments that were read, where there is room for its frame.
#[inline(always)]
#[tactic(auto, using(alma_machine_acts::proofs::Given::enters))]
fn enter_quickly<H: Head>(
    registers: &mut Registers<Memory>,
    head: &H,
    routine: u32,
    start: u32,
) -> bool
    requires head { IsHead (H.head head.now) }
    requires args { FitsParams (IsLive registers.old.memory.now)
        (λ routine. IsLive registers.old.memory.now) (H.head head.now).params
        registers.old.args.items }
    ensures { Quickly result (run_state registers.old) (run_state registers.new)
        (enters_routine (run_state registers.old) routine start (H.head head.now)
        registers.old.args.items) }
{
    match registers
        .memory
        .enter(head, routine, registers.at, &registers.args)
    {
        Ok(()) => {
            registers.at = start;
            true
        }
        Err(_) => false,
    }
}

// Calls a routine, with the arguments in the slots from the first on, where all are known.
#[inline(always)]
fn call_with<H: Head>(
    registers: &mut Registers<Memory>,
    head: &H,
    routine: u32,
    start: u32,
    first: u32,
) -> bool
    requires head { IsHead (H.head head.now) }
    requires args { HasArguments registers.old.memory.now (H.head head.now).params first }
    ensures { let s = run_state registers.old in Quickly result s (run_state registers.new)
        (arguments (H.head head.now).params s first
        (λ args. enters_routine s routine start (H.head head.now) args)) }
{
    match arguments(&registers.memory, head, first, &mut registers.args) {
        Ok(None) => enter_quickly(registers, head, routine, start),
        Ok(Some(_)) | Err(_) => false,
    }
}

// Returns without a number, unless one frame is live.
#[inline(always)]
#[tactic(auto, using(alma_machine_acts::proofs::Given::returns))]
fn leave_quickly(registers: &mut Registers<Memory>) -> bool
    requires { 1 ≤ length registers.old.memory.now }
    ensures { let s = run_state registers.old in Quickly result s (run_state registers.new)
        (if_true (nat_eq (length s.now) 1) (λ _. ends_run end.Succeeded s)
        (λ _. answers_return (state_after_leave s))) }
{
    if registers.memory.frames() == 1 {
        return false;
    }
    match registers.memory.leave() {
        Ok(back) => {
            registers.at = back;
            true
        }
        Err(_) => false,
    }
}

// The slot of the caller that the Call at an address names for the number that comes back.
#[inline(always)]
fn called_to<V: CodeView>(view: &V, at: u32) -> u32
    requires { at < length (V.code view.now).instrs }
    ensures { (routine first to : ℕ) → slice_get (V.code view.now).instrs at
        ≡ Some (instr.Call routine first to) → result ≡ to }
{
    view.record(at).third()
}

// Leaves the top frame and puts a number into the slot of the caller, where both can be noted
// without more memory.
#[inline(always)]
#[tactic(auto, using(alma_machine_acts::proofs::Back::backs))]
fn give_back_quickly<V: CodeView>(registers: &mut Registers<Memory>, view: &V, number: i64) -> bool
    requires { CallsBack (V.code view.now) registers.old.memory.now }
    ensures { let s = run_state registers.old in Quickly result s (run_state registers.new)
        (result_to (slice_get (V.code view.now).instrs ((last_frame s.now).back - 1))
        (state_after_leave s) number) }
{
    if registers.memory.trail_room() < 2 {
        return false;
    }
    let Ok(back) = registers.memory.leave() else {
        unreachable!()
    };
    let to = called_to(view, back - 1);
    let frame = registers.memory.frames() - 1;
    let Ok(()) = registers.memory.write(frame, to, Cell::Int(number)) else {
        unreachable!()
    };
    registers.at = back;
    true
}

// Returns the number in a slot, if it is known, to the slot of the caller.
#[inline(always)]
fn leave_with_quickly<V: CodeView>(registers: &mut Registers<Memory>, view: &V, value: u32) -> bool
    requires slot { HasNumber registers.old.memory.now value }
    requires back { CallsBack (V.code view.now) registers.old.memory.now }
    ensures { let s = run_state registers.old in Quickly result s (run_state registers.new)
        (number s value (λ v. result_to (slice_get (V.code view.now).instrs
        ((last_frame s.now).back - 1)) (state_after_leave s) v)) }
{
    match registers.number(value) {
        Ok(number) => give_back_quickly(registers, view, number),
        Err(_) => false,
    }
}

/// What a Call or a return does, if it ends in no fault and does not end the run.
#[inline(always)]
#[tactic(auto, unfolding(alma_code::specs::Machine::act, crate::specs::Needs::Needs), using(crate::proofs::Acting::actings))]
pub(crate) fn call_quickly<V: CodeView>(
    registers: &mut Registers<Memory>,
    view: &V,
    instr: Instr,
    input: &[u8],
) -> bool
    requires { Needs (V.code view.now) registers.old.memory.now instr }
    ensures { Quickly result (run_state registers.old) (run_state registers.new)
        (act (V.code view.now) input.now instr (run_state registers.old)) }
{
    match instr {
        Instr::Call { routine, first, .. } => match view.routine(routine) {
            Some(head) => call_with(registers, &head, routine, view.start(routine), first),
            None => false,
        },
        Instr::Return => leave_quickly(registers),
        Instr::ReturnValue { value } => leave_with_quickly(registers, view, value),
        _ => false,
    }
}
