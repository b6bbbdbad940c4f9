// READ.
ghost use Rattle.std.specs.Prelude.{◌≡◌, ◌<◌, ◌≤◌, ℕ, length, slice_get};
ghost use Rattle.alma_base.specs.Limits.{input_limit};
ghost use Rattle.alma_base.specs.Reading.{number_from};
ghost use Rattle.alma_code.specs.Machine.{State, StepResult, place, position, takes_read, byte_or_failure};
ghost use Rattle.alma_machine_acts.specs.Acts.{Acts};
ghost use Rattle.alma_machine_acts.specs.Rows.{state_of, HasOneCell, HasNumberIn};
ghost use Rattle.alma_machine_acts.specs.Inputs.{HasPosition, IsBelow};

use crate::registers::Registers;
use alma_base::{NoMemory, Range, ReadInt, RunFault, read_int};
use alma_code::{Cell, CellPlace, End, Step};
use alma_memory::MachineMemory;

// What READ finds in an input from a place on.
#[tactic(auto, using(crate::proofs::Reading::finds))]
fn find_number(input: &[u8], from: usize) -> ReadInt
    requires { length input.now ≤ input_limit }
    ensures found { result ≡ number_from input.now from }
    ensures below { IsBelow result }
{
    if from > input.len() {
        return ReadInt::NoNumber;
    }
    read_int(input, from)
}

// What READ finds on a CHAR type: the byte at a place.
#[tactic(auto, using(crate::proofs::Reading::byte_read))]
fn find_char(input: &[u8], from: usize) -> ReadInt
    requires { length input.now ≤ input_limit }
    ensures found { (s : State) (r : Range) (p : CellPlace)
        → byte_or_failure s r p from (slice_get input.now from) ≡ takes_read s r p result }
    ensures below { IsBelow result }
{
    match input.get(from) {
        Some(byte) => ReadInt::Number(i64::from(*byte), from + 1),
        None => ReadInt::NoNumber,
    }
}

// The input position.
#[tactic(auto, using(crate::proofs::Reading::positions))]
fn position<M: MachineMemory>(registers: &Registers<M>) -> usize
    requires { HasPosition (M.picture registers.now.memory).now }
    ensures { (s : State) (k : ℕ → StepResult) → s.now ≡ (M.picture registers.now.memory).now
        → position s k
        ≡ k result }
{
    match registers.memory.read(0, 0) {
        Cell::Int(place) => place.unsigned_abs() as usize,
        Cell::Unknown | Cell::Unset | Cell::Place(_) | Cell::Mark(_) => unreachable!(),
    }
}

// Puts what was found into the cell at a place, and moves the input position behind it.
#[tactic(auto, using(crate::proofs::Reading::takes, crate::proofs::Words::ranges, std::proofs::lemmas::Int::ints, std::proofs::lemmas::Grind::common_steps))]
fn take<M: MachineMemory>(
    registers: &mut Registers<M>,
    read: ReadInt,
    place: CellPlace,
    range: &Range,
) -> Result<Step, NoMemory>
    requires below { IsBelow read }
    requires position { HasNumberIn (M.picture registers.old.memory).now 0 0 }
    requires place { HasNumberIn (M.picture registers.old.memory).now place.frame place.slot }
    ensures { Acts M.picture registers.old registers.new result
        (takes_read (state_of M.picture registers.old) range.now place read) }
{
    match read {
        ReadInt::NoNumber => Ok(registers.fail()),
        ReadInt::TooLarge => Ok(registers.end(End::Fault(RunFault::ReadRange))),
        ReadInt::Number(number, behind) => {
            if number < range.low || range.high < number {
                return Ok(registers.end(End::Fault(RunFault::Range)));
            }
            // A note for the input position, and one for the cell.
            registers.memory.reserve(0, 2)?;
            match registers.memory.write(0, 0, Cell::Int(behind as i64)) {
                Ok(()) => (),
                Err(_) => unreachable!(),
            }
            match registers
                .memory
                .write(place.frame, place.slot, Cell::Int(number))
            {
                Ok(()) => Ok(Step::Went),
                Err(_) => unreachable!(),
            }
        }
    }
}

/// Reads a number into the cell at the place in a slot.
#[tactic(auto, using(crate::proofs::Words::one_slot, crate::proofs::Reading::position_slot, std::proofs::lemmas::Grind::common_steps))]
pub fn read_number<M: MachineMemory>(
    registers: &mut Registers<M>,
    input: &[u8],
    to: u32,
    range: &Range,
) -> Result<Step, NoMemory>
    requires lawful { length input.now ≤ input_limit }
    requires position { HasPosition (M.picture registers.old.memory).now }
    requires to { HasOneCell (M.picture registers.old.memory).now to }
    ensures { let s = state_of M.picture registers.old in
        Acts M.picture registers.old registers.new result
        (place s to (λ p. position s (λ n. takes_read s range.now p (number_from input.now n)))) }
{
    match registers.place(to) {
        Ok(place) => {
            let from = position(registers);
            take(registers, find_number(input, from), place, range)
        }
        Err(fault) => Ok(registers.end(End::Fault(fault))),
    }
}

/// Reads a byte into the cell at the place in a slot.
#[tactic(auto, using(crate::proofs::Words::one_slot, crate::proofs::Reading::position_slot))]
pub fn read_char<M: MachineMemory>(
    registers: &mut Registers<M>,
    input: &[u8],
    to: u32,
    range: &Range,
) -> Result<Step, NoMemory>
    requires lawful { length input.now ≤ input_limit }
    requires position { HasPosition (M.picture registers.old.memory).now }
    requires to { HasOneCell (M.picture registers.old.memory).now to }
    ensures { let s = state_of M.picture registers.old in
        Acts M.picture registers.old registers.new result
        (place s to (λ p. position s
        (λ n. byte_or_failure s range.now p n (slice_get input.now n)))) }
{
    match registers.place(to) {
        Ok(place) => {
            let from = position(registers);
            take(registers, find_char(input, from), place, range)
        }
        Err(fault) => Ok(registers.end(End::Fault(fault))),
    }
}
