// Choice entries: pushed, cut, kept and popped.
ghost use Rattle.std.specs.Prelude.{◌≡◌, ◌≢◌, ◌+◌, ◌<◌, ◌≤◌, ◌^◌, length, IsOk, IfOk, OnOk, OnErr};
ghost use Rattle.alma_code.specs.declared.cell.Cell.TheVariants as cell;
ghost use Rattle.alma_code.specs.declared.cell.ChoiceKind.TheVariants as choice;
ghost use Rattle.alma_code.specs.Machine.{answer_of_push, state_after_push, put_mark, mark, cut_to, pop, to_mark, kind_of, with_slot, is_forall_at, overlay, keep, finish};
ghost use Rattle.alma_machine_acts.specs.Acts.{Acts, Makes, KeepsPast};
ghost use Rattle.alma_machine_acts.specs.Rows.{state_of, HasMark, GivesMark};

use crate::registers::{Mode, Registers};
use alma_base::{NoMemory, RunFault};
use alma_code::{Cell, ChoiceKind, End, Step};
use alma_memory::MachineMemory;

/// The height in a mark slot.
#[inline(always)]
#[tactic(auto, using(crate::proofs::Entries::marks))]
pub fn mark<M: MachineMemory>(registers: &Registers<M>, slot: u32) -> Result<usize, RunFault>
    requires { HasMark (M.picture registers.now.memory).now slot }
    ensures { GivesMark (M.picture registers.now.memory).now slot result }
{
    match registers.memory.top(slot) {
        Cell::Mark(height) => Ok(height),
        Cell::Unset => Err(RunFault::Unknown),
        Cell::Unknown | Cell::Int(_) | Cell::Place(_) => unreachable!(),
    }
}

/// Puts the height into a mark slot.
#[inline(always)]
#[tactic(auto, using(crate::proofs::Entries::put_marks))]
pub fn set_mark<M: MachineMemory>(registers: &mut Registers<M>, to: u32) -> Result<Step, NoMemory>
    requires { HasMark (M.picture registers.old.memory).now to }
    ensures { let s = state_of M.picture registers.old in
        Acts M.picture registers.old registers.new result (put_mark s to (length s.held)) }
{
    let height = registers.memory.height();
    registers.write(to, Cell::Mark(height))
}

/// Pushes an entry.
#[inline(always)]
pub fn choose<M: MachineMemory>(
    registers: &mut Registers<M>,
    kind: ChoiceKind,
    resume: u32,
) -> Result<Step, NoMemory>
    requires kind { kind ≢ ChoiceKind.Done }
    requires few { registers.old.choices + 1 < 2 ^ 63 }
    ensures acts { Acts M.picture registers.old registers.new result
        (answer_of_push (state_after_push (state_of M.picture registers.old) kind resume)) }
    ensures succeeds { 1 ≤ (M.picture registers.old.memory).choice_room → IsOk result }
{
    registers.memory.choose(kind, resume)?;
    registers.choices += 1;
    Ok(Step::Chose(registers.memory.height()))
}

/// Drops the entries above the height in a slot.
#[tactic(auto, using(crate::proofs::Entries::cuts))]
pub fn cut<M: MachineMemory>(registers: &mut Registers<M>, slot: u32) -> Step
    requires { HasMark (M.picture registers.old.memory).now slot }
    ensures { let s = state_of M.picture registers.old in
        Makes M.picture registers.old registers.new result (mark s slot (λ h. cut_to s h)) }
{
    match mark(registers, slot) {
        Ok(height) => {
            if height < registers.memory.height() {
                registers.memory.cut(height);
                Step::Cut(registers.memory.height())
            } else {
                Step::Went
            }
        }
        Err(fault) => registers.end(End::Fault(fault)),
    }
}

/// Goes back to the top entry, or ends the run where there is none.
#[tactic(auto, using(crate::proofs::Entries::pops))]
pub fn pop<M: MachineMemory>(registers: &mut Registers<M>) -> Step
    requires few { registers.old.fails + 1 < 2 ^ 63 }
    ensures { Makes M.picture registers.old registers.new result
        (pop (state_of M.picture registers.old)) }
{
    let height = registers.memory.height();
    match registers.memory.fail() {
        Some(resumed) => {
            registers.mode = Mode::Going;
            registers.at = resumed.resume;
            registers.fails += 1;
            Step::Popped(height)
        }
        None => registers.end(End::Failed),
    }
}

/// Pushes a Forall, and puts the height after it into a mark slot.
#[tactic(auto, using(crate::proofs::Entries::foralls))]
pub fn forall<M: MachineMemory>(
    registers: &mut Registers<M>,
    slot: u32,
    resume: u32,
) -> Result<Step, NoMemory>
    requires mark { HasMark (M.picture registers.old.memory).now slot }
    requires few { registers.old.choices + 1 < 2 ^ 63 }
    ensures { let s = state_of M.picture registers.old in
        Acts M.picture registers.old registers.new result
        (to_mark (kind_of s slot) s
        (λ _. answer_of_push (with_slot (state_after_push s choice.Forall resume) slot
        (cell.Mark (length s.held + 1))))) }
{
    // An entry, and a note for the mark slot.
    registers.memory.reserve(1, 1)?;
    let frame = registers.memory.frames() - 1;
    match registers.memory.choose(ChoiceKind::Forall, resume) {
        Ok(()) => (),
        Err(_) => unreachable!(),
    }
    let height = registers.memory.height();
    match registers.memory.write(frame, slot, Cell::Mark(height)) {
        Ok(()) => (),
        Err(_) => unreachable!(),
    }
    registers.choices += 1;
    Ok(Step::Chose(height))
}

// Whether a Forall is at a height.
fn has_forall<M: MachineMemory>(registers: &Registers<M>, height: usize) -> bool
    ensures { result ≡ is_forall_at (M.picture registers.now.memory).held height }
{
    match registers.memory.kind_at(height) {
        Some(ChoiceKind::Forall) => true,
        Some(ChoiceKind::Branch | ChoiceKind::Body | ChoiceKind::Done) | None => false,
    }
}

// Lays the carry of the Forall at a height over the frames, where there is one.
#[tactic(auto, using(crate::proofs::Entries::overlays))]
fn lay_over<M: MachineMemory>(registers: &mut Registers<M>, height: usize) -> Result<(), NoMemory>
    ensures ok { IfOk result
        (λ _. state_of M.picture registers.new
        ≡ overlay (state_of M.picture registers.old) height) }
    ensures room { OnOk result (1 ≤ (M.picture registers.new.memory).choice_room) }
    ensures choices { registers.new.choices ≡ registers.old.choices }
    ensures refused { OnErr result
        (state_of M.picture registers.new ≡ state_of M.picture registers.old) }
    ensures past { KeepsPast M.picture registers.old registers.new }
{
    registers.memory.reserve(1, 0)?;
    if has_forall(registers, height) {
        registers.memory.overlay(height)?;
    }
    Ok(())
}

/// Lays the carry of a Forall over the frames, and pushes a Body.
pub fn begin_body<M: MachineMemory>(
    registers: &mut Registers<M>,
    slot: u32,
    resume: u32,
) -> Result<Step, NoMemory>
    requires mark { HasMark (M.picture registers.old.memory).now slot }
    requires few { registers.old.choices + 1 < 2 ^ 63 }
    ensures { let s = state_of M.picture registers.old in
        Acts M.picture registers.old registers.new result
        (mark s slot (λ h. answer_of_push (state_after_push (overlay s h) choice.Body resume))) }
{
    match mark(registers, slot) {
        Ok(height) => {
            lay_over(registers, height)?;
            match choose(registers, ChoiceKind::Body, resume) {
                Ok(step) => Ok(step),
                Err(_) => unreachable!(),
            }
        }
        Err(fault) => Ok(registers.end(End::Fault(fault))),
    }
}

// Keeps the Body on top in the Forall at a height below it, where they are there.
#[tactic(auto, using(crate::proofs::Entries::keeps))]
fn keep_at<M: MachineMemory>(registers: &mut Registers<M>, height: usize) -> Result<Step, NoMemory>
    ensures { Acts M.picture registers.old registers.new result
        (keep (state_of M.picture registers.old) height) }
{
    let top = registers.memory.height();
    if registers.memory.kind_at(height) == Some(ChoiceKind::Forall)
        && height < top
        && registers.memory.kind_at(top) == Some(ChoiceKind::Body)
    {
        registers.memory.keep(height)?;
        return Ok(Step::Cut(registers.memory.height()));
    }
    Ok(Step::Went)
}

/// Keeps the Body on top in the Forall whose height is in a slot.
pub fn keep<M: MachineMemory>(registers: &mut Registers<M>, slot: u32) -> Result<Step, NoMemory>
    requires { HasMark (M.picture registers.old.memory).now slot }
    ensures { let s = state_of M.picture registers.old in
        Acts M.picture registers.old registers.new result (mark s slot (λ h. keep s h)) }
{
    match mark(registers, slot) {
        Ok(height) => keep_at(registers, height),
        Err(fault) => Ok(registers.end(End::Fault(fault))),
    }
}

/// Drops the Done on top and lays its carry over the frames, where there is one.
#[tactic(auto, using(crate::proofs::Entries::finishes))]
pub fn finish<M: MachineMemory>(registers: &mut Registers<M>) -> Result<Step, NoMemory>
    ensures { Acts M.picture registers.old registers.new result
        (finish (state_of M.picture registers.old)) }
{
    if registers.memory.kind_at(registers.memory.height()) == Some(ChoiceKind::Done) {
        registers.memory.finish()?;
        return Ok(Step::Cut(registers.memory.height()));
    }
    Ok(Step::Went)
}
