// Calls and returns.
ghost use Rattle.std.specs.Prelude.{◌≤◌, length, Some, IfOk};
ghost use Rattle.alma_code.specs.declared.step.End.TheVariants as end;
ghost use Rattle.alma_code.specs.Carries.{IsLive};
ghost use Rattle.alma_code.specs.Layout.{IsHead, FitsParams};
ghost use Rattle.alma_base.specs.Choice.{if_true};
ghost use Rattle.std.specs.Prelude.{nat_eq, ◌-◌, slice_get};
ghost use Rattle.alma_code.specs.Machine.{number, arguments, enters_routine, ends_run, answers_return, state_after_leave, result_to};
ghost use Rattle.alma_code.specs.Picture.{last_frame};
ghost use Rattle.alma_machine_acts.specs.Acts.{Acts};
ghost use Rattle.alma_machine_acts.specs.Rows.{state_of, HasNumber};
ghost use Rattle.alma_machine_acts.specs.Calls.{HasArgument, HasArguments, GivesArgument, GivesArguments, CallsBack, back_or_fault};

use crate::codes::CodeView;
use crate::registers::Registers;
use alma_base::{NoMemory, RunFault};
use alma_code::{Cell, CodeParam, End, Head, Instr, Step};
use alma_memory::{EnterError, MachineMemory};

// The argument of a parameter in a slot.
#[inline(always)]
#[tactic(auto, using(crate::proofs::Given::givens))]
fn argument<M: MachineMemory>(memory: &M, param: CodeParam, slot: u32) -> Result<Cell, RunFault>
    requires { HasArgument (M.picture memory.now).now param slot }
    ensures { GivesArgument (M.picture memory.now).now param slot result }
{
    let cell = memory.top(slot);
    match cell {
        Cell::Unknown | Cell::Unset => Err(RunFault::Unknown),
        Cell::Int(_) | Cell::Place(_) => Ok(cell),
        Cell::Mark(_) => unreachable!(),
    }
}

/// The arguments of all parameters, in the slots from the first on, in place of those of an earlier
/// call; or the fault of the first that is not known.
#[inline(always)]
pub fn arguments<M: MachineMemory, H: Head>(
    memory: &M,
    head: &H,
    first: u32,
    args: &mut Vec<Cell>,
) -> Result<Option<RunFault>, NoMemory>
    requires { HasArguments (M.picture memory.now).now (H.head head.now).params first }
    ensures { IfOk result
        (λ fault. GivesArguments (M.picture memory.now).now (H.head head.now).params first fault
        args.new.items) }
{
    args.clear();
    for i in 0..head.param_count() {
        match argument(memory, head.param(i), first + i) {
            Ok(cell) => args.push(cell)?,
            Err(fault) => return Ok(Some(fault)),
        }
    }
    Ok(None)
}

// Enters a routine with the arguments that were read, or ends the run where there is no room for
// its frame.
#[tactic(auto, using(crate::proofs::Given::enters))]
fn enter<M: MachineMemory, H: Head>(
    registers: &mut Registers<M>,
    head: &H,
    routine: u32,
    start: u32,
) -> Result<Step, NoMemory>
    requires head { IsHead (H.head head.now) }
    requires args { FitsParams (IsLive (M.picture registers.old.memory).now)
        (λ routine. IsLive (M.picture registers.old.memory).now) (H.head head.now).params
        registers.old.args.items }
    ensures { Acts M.picture registers.old registers.new result
        (enters_routine (state_of M.picture registers.old) routine start
        (H.head head.now) registers.old.args.items) }
{
    match registers
        .memory
        .enter(head, routine, registers.at, &registers.args)
    {
        Ok(()) => {
            registers.at = start;
            Ok(Step::Called(routine, registers.memory.frames()))
        }
        Err(EnterError::DepthFull) => Ok(registers.end(End::Fault(RunFault::DepthFull))),
        Err(EnterError::CellsFull) => Ok(registers.end(End::Fault(RunFault::CellsFull))),
        Err(EnterError::Memory) => Err(NoMemory),
    }
}

/// Calls a routine, with the arguments in the slots from the first on.
pub fn call<M: MachineMemory, H: Head>(
    registers: &mut Registers<M>,
    head: &H,
    routine: u32,
    start: u32,
    first: u32,
) -> Result<Step, NoMemory>
    requires head { IsHead (H.head head.now) }
    requires args { HasArguments (M.picture registers.old.memory).now
        (H.head head.now).params first }
    ensures { let s = state_of M.picture registers.old in
        Acts M.picture registers.old registers.new result
        (arguments (H.head head.now).params s first
        (λ args. enters_routine s routine start (H.head head.now) args)) }
{
    match arguments(&registers.memory, head, first, &mut registers.args)? {
        Some(fault) => Ok(registers.end(End::Fault(fault))),
        None => enter(registers, head, routine, start),
    }
}

/// Returns without a number, or ends the run where one frame is live.
#[tactic(auto, using(crate::proofs::Given::returns))]
pub fn leave<M: MachineMemory>(registers: &mut Registers<M>) -> Result<Step, NoMemory>
    requires { 1 ≤ length (M.picture registers.old.memory).now }
    ensures { let s = state_of M.picture registers.old in
        Acts M.picture registers.old registers.new result
        (if_true (nat_eq (length s.now) 1) (λ _. ends_run end.Succeeded s)
        (λ _. answers_return (state_after_leave s))) }
{
    if registers.memory.frames() == 1 {
        return Ok(registers.end(End::Succeeded));
    }
    registers.at = registers.memory.leave()?;
    Ok(Step::Returned(registers.memory.frames()))
}

/// Returns a number to the slot that the Call before the return address names.
pub fn leave_with<M: MachineMemory, V: CodeView>(
    registers: &mut Registers<M>,
    view: &V,
    value: u32,
) -> Result<Step, NoMemory>
    requires slot { HasNumber (M.picture registers.old.memory).now value }
    requires back { CallsBack (V.code view.now) (M.picture registers.old.memory).now }
    ensures { let s = state_of M.picture registers.old in
        Acts M.picture registers.old registers.new result
        (number s value
        (λ v. result_to (slice_get (V.code view.now).instrs ((last_frame s.now).back - 1))
        (state_after_leave s) v)) }
{
    let number = registers.number(value);
    give_back(registers, view, number)
}

// Leaves the top frame and puts a number into the slot of the caller, or ends the run in its fault.
#[tactic(auto, using(crate::proofs::Back::backs))]
fn give_back<M: MachineMemory, V: CodeView>(
    registers: &mut Registers<M>,
    view: &V,
    number: Result<i64, RunFault>,
) -> Result<Step, NoMemory>
    requires { CallsBack (V.code view.now) (M.picture registers.old.memory).now }
    ensures { let s = state_of M.picture registers.old in
        Acts M.picture registers.old registers.new result
        (back_or_fault
        (slice_get (V.code view.now).instrs ((last_frame s.now).back - 1)) s number) }
{
    let number = match number {
        Ok(number) => number,
        Err(fault) => return Ok(registers.end(End::Fault(fault))),
    };
    // A note for the frame that is left, and one for the slot of the caller.
    registers.memory.reserve(0, 2)?;
    let back = match registers.memory.leave() {
        Ok(back) => back,
        Err(_) => unreachable!(),
    };
    let Instr::Call { to, .. } = view.instr(back - 1) else {
        unreachable!()
    };
    let frame = registers.memory.frames() - 1;
    match registers.memory.write(frame, to, Cell::Int(number)) {
        Ok(()) => (),
        Err(_) => unreachable!(),
    }
    registers.at = back;
    Ok(Step::Returned(registers.memory.frames()))
}
