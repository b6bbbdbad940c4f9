// Prints, and the ends that are faults by their numbers.
ghost use Rattle.std.specs.Prelude.{◌≡◌, [], not, pos, nat_abs, slice_get, Some, IfOk, OnErr};
ghost use Rattle.std.specs.Int.{int_rem_euclid};
ghost use Rattle.alma_base.specs.declared.value.Value.TheVariants as kind;
ghost use Rattle.alma_base.specs.Numbers.{is_zero};
ghost use Rattle.alma_base.specs.Value.{value_text};
ghost use Rattle.alma_code.specs.Machine.{number, prints_bytes, run_faults};
ghost use Rattle.alma_machine_acts.specs.Acts.{ActsWith};
ghost use Rattle.alma_machine_acts.specs.Rows.{state_of, HasNumber, IsFaultNumber};

use crate::registers::Registers;
use alma_base::{NoMemory, RunFault, Value, write_value};
use alma_code::{End, NO_CASE, NO_RETURN, Step};
use alma_memory::MachineMemory;

/// The fault that a Fault instruction names by its number: `NO_CASE` or `NO_RETURN`.
pub fn fault_of_number(number: u32) -> RunFault
    requires { IsFaultNumber number }
    ensures { slice_get run_faults number ≡ Some result }
{
    match number {
        NO_CASE => RunFault::NoCase,
        NO_RETURN => RunFault::NoReturn,
        _ => unreachable!(),
    }
}

/// Prints a text.
pub fn print_text(text: &[u8], bytes: &mut Vec<u8>) -> Result<Step, NoMemory>
    requires { bytes.old.items ≡ [] }
    ensures ok { IfOk result (λ answer. (answer ≡ Step.Printed) × (bytes.new.items ≡ text.now)) }
    ensures refused { OnErr result (bytes.new.items ≡ []) }
{
    bytes.extend_from_slice(text)?;
    Ok(Step::Printed)
}

/// Prints the number in a slot.
#[tactic(auto, using(std::proofs::lemmas::Int::ints, std::proofs::lemmas::Grind::common_steps))]
pub fn print_number<M: MachineMemory>(
    registers: &mut Registers<M>,
    value: u32,
    bytes: &mut Vec<u8>,
) -> Result<Step, NoMemory>
    requires slot { HasNumber (M.picture registers.old.memory).now value }
    requires empty { bytes.old.items ≡ [] }
    ensures { let s = state_of M.picture registers.old in
        ActsWith M.picture registers.old registers.new bytes.new.items result
        (number s value (λ v. prints_bytes (value_text (kind.Int v)) s)) }
{
    match registers.number(value) {
        Ok(number) => {
            write_value(bytes, &Value::Int(number))?;
            Ok(Step::Printed)
        }
        Err(fault) => Ok(registers.end(End::Fault(fault))),
    }
}

/// Prints the truth in a slot.
#[tactic(auto, using(crate::proofs::Words::tests, std::proofs::lemmas::Int::ints, std::proofs::lemmas::Grind::common_steps))]
pub fn print_truth<M: MachineMemory>(
    registers: &mut Registers<M>,
    value: u32,
    bytes: &mut Vec<u8>,
) -> Result<Step, NoMemory>
    requires slot { HasNumber (M.picture registers.old.memory).now value }
    requires empty { bytes.old.items ≡ [] }
    ensures { let s = state_of M.picture registers.old in
        ActsWith M.picture registers.old registers.new bytes.new.items result
        (number s value (λ v. prints_bytes (value_text (kind.Bool (not (is_zero v)))) s)) }
{
    match registers.number(value) {
        Ok(number) => {
            write_value(bytes, &Value::Bool(number != 0))?;
            Ok(Step::Printed)
        }
        Err(fault) => Ok(registers.end(End::Fault(fault))),
    }
}

/// Prints the character whose number is the number in a slot modulo 256.
#[tactic(auto, using(std::proofs::lemmas::Int::ints, std::proofs::lemmas::Grind::common_steps))]
pub fn print_character<M: MachineMemory>(
    registers: &mut Registers<M>,
    value: u32,
    bytes: &mut Vec<u8>,
) -> Result<Step, NoMemory>
    requires slot { HasNumber (M.picture registers.old.memory).now value }
    requires empty { bytes.old.items ≡ [] }
    ensures { let s = state_of M.picture registers.old in
        ActsWith M.picture registers.old registers.new bytes.new.items result
        (number s value
        (λ v. prints_bytes (value_text (kind.Char (nat_abs (int_rem_euclid v (pos 256))))) s)) }
{
    match registers.number(value) {
        Ok(number) => {
            write_value(bytes, &Value::Char(number.rem_euclid(256) as u8))?;
            Ok(Step::Printed)
        }
        Err(fault) => Ok(registers.end(End::Fault(fault))),
    }
}
