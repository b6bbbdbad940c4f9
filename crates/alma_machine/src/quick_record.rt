// Instructions that are made at once, by the opcode of their record. Where a step would be another,
// or end the run, or memory is wanted, nothing happens, and it is left to `act`.
ghost use Rattle.std.specs.Prelude.{◌+◌, ◌<◌, ◌^◌};
ghost use Rattle.alma_code.specs.Machine.{act};
ghost use Rattle.alma_machine.specs.Needs.{Needs};
ghost use Rattle.alma_machine.specs.Quick.{Quickly};
ghost use Rattle.alma_machine.specs.View.{run_state};
ghost use Rattle.alma_object.specs.View.{instr_of_record};

use crate::quick_act::{control_quickly, number_quickly, place_quickly};
use crate::quick_calls::call_quickly;
use crate::quick_cells::{cell_quickly, choice_quickly};
use alma_code::Instr;
use alma_machine_acts::{CodeView, Registers};
use alma_memory::Memory;
use alma_object::InstrRecord;
use alma_object_format::opcode;

/// What the instruction of a record does, with the address already at the next one, if it is one
/// that is made at once. Of the record only the opcode is read, and the words that the form uses.
#[inline(always)]
pub(crate) fn act_quickly<V: CodeView>(
    registers: &mut Registers<Memory>,
    view: &V,
    form: InstrRecord<'_>,
    input: &[u8],
) -> bool
    requires needs { Needs (V.code view.now) registers.old.memory.now (instr_of_record form) }
    requires few { registers.old.choices + 1 < 2 ^ 63 }
    ensures { Quickly result (run_state registers.old) (run_state registers.new)
        (act (V.code view.now) input.now (instr_of_record form.entry) (run_state registers.old)) }
{
    match form.opcode() {
        opcode::CONST => {
            let instr = Instr::Const {
                to: form.first(),
                value: form.value(),
            };
            number_quickly(registers, view, instr, input)
        }
        opcode::MOVE => {
            let instr = Instr::Move {
                to: form.first(),
                from: form.second(),
            };
            number_quickly(registers, view, instr, input)
        }
        opcode::ADD => {
            let instr = Instr::Add {
                to: form.first(),
                left: form.second(),
                right: form.third(),
            };
            number_quickly(registers, view, instr, input)
        }
        opcode::SUB => {
            let instr = Instr::Sub {
                to: form.first(),
                left: form.second(),
                right: form.third(),
            };
            number_quickly(registers, view, instr, input)
        }
        opcode::MUL => {
            let instr = Instr::Mul {
                to: form.first(),
                left: form.second(),
                right: form.third(),
            };
            number_quickly(registers, view, instr, input)
        }
        opcode::DIV => {
            let instr = Instr::Div {
                to: form.first(),
                left: form.second(),
                right: form.third(),
            };
            number_quickly(registers, view, instr, input)
        }
        opcode::MOD => {
            let instr = Instr::Mod {
                to: form.first(),
                left: form.second(),
                right: form.third(),
            };
            number_quickly(registers, view, instr, input)
        }
        opcode::NEG => {
            let instr = Instr::Neg {
                to: form.first(),
                from: form.second(),
            };
            number_quickly(registers, view, instr, input)
        }
        opcode::EQUAL => {
            let instr = Instr::Equal {
                to: form.first(),
                left: form.second(),
                right: form.third(),
            };
            number_quickly(registers, view, instr, input)
        }
        opcode::LESS => {
            let instr = Instr::Less {
                to: form.first(),
                left: form.second(),
                right: form.third(),
            };
            number_quickly(registers, view, instr, input)
        }
        opcode::LESS_EQ => {
            let instr = Instr::LessEq {
                to: form.first(),
                left: form.second(),
                right: form.third(),
            };
            number_quickly(registers, view, instr, input)
        }
        opcode::FLIP => {
            let instr = Instr::Flip {
                to: form.first(),
                from: form.second(),
            };
            number_quickly(registers, view, instr, input)
        }
        opcode::IN_RANGE => {
            let instr = Instr::InRange {
                value: form.first(),
                range: form.second(),
            };
            control_quickly(registers, view, instr, input)
        }
        opcode::LOCAL => {
            let instr = Instr::Local {
                to: form.first(),
                first: form.second(),
            };
            place_quickly(registers, view, instr, input)
        }
        opcode::GLOBAL => {
            let instr = Instr::Global {
                to: form.first(),
                first: form.second(),
            };
            place_quickly(registers, view, instr, input)
        }
        opcode::SAME => {
            let instr = Instr::Same {
                to: form.first(),
                from: form.second(),
            };
            place_quickly(registers, view, instr, input)
        }
        opcode::FIELD => {
            let instr = Instr::Field {
                to: form.first(),
                from: form.second(),
                offset: form.third(),
            };
            place_quickly(registers, view, instr, input)
        }
        opcode::INDEX => {
            let instr = Instr::Index {
                to: form.first(),
                from: form.second(),
                index: form.third(),
                range: form.fourth(),
            };
            place_quickly(registers, view, instr, input)
        }
        opcode::LOAD => {
            let instr = Instr::Load {
                to: form.first(),
                from: form.second(),
            };
            number_quickly(registers, view, instr, input)
        }
        opcode::STORE => {
            let instr = Instr::Store {
                to: form.first(),
                from: form.second(),
            };
            cell_quickly(registers, view, instr, input)
        }
        opcode::KNOWN => {
            let instr = Instr::Known {
                to: form.first(),
                of: form.second(),
            };
            number_quickly(registers, view, instr, input)
        }
        opcode::BIND => {
            let instr = Instr::Bind {
                place: form.first(),
                value: form.second(),
                range: form.third(),
            };
            cell_quickly(registers, view, instr, input)
        }
        opcode::UNIFY => {
            let instr = Instr::Unify {
                left: form.first(),
                left_range: form.second(),
                right: form.third(),
                right_range: form.fourth(),
            };
            cell_quickly(registers, view, instr, input)
        }
        opcode::JUMP => {
            let instr = Instr::Jump { to: form.first() };
            control_quickly(registers, view, instr, input)
        }
        opcode::JUMP_ZERO => {
            let instr = Instr::JumpZero {
                value: form.first(),
                to: form.second(),
            };
            control_quickly(registers, view, instr, input)
        }
        opcode::CHECK => {
            let instr = Instr::Check {
                value: form.first(),
            };
            control_quickly(registers, view, instr, input)
        }
        opcode::FAIL => control_quickly(registers, view, Instr::Fail, input),
        opcode::MARK => {
            let instr = Instr::Mark { to: form.first() };
            choice_quickly(registers, view, instr, input)
        }
        opcode::CUT => {
            let instr = Instr::Cut { mark: form.first() };
            choice_quickly(registers, view, instr, input)
        }
        opcode::CHOOSE => {
            let instr = Instr::Choose {
                resume: form.first(),
            };
            choice_quickly(registers, view, instr, input)
        }
        opcode::CALL => {
            let instr = Instr::Call {
                routine: form.first(),
                first: form.second(),
                to: form.third(),
            };
            call_quickly(registers, view, instr, input)
        }
        opcode::RETURN => call_quickly(registers, view, Instr::Return, input),
        opcode::RETURN_VALUE => {
            let instr = Instr::ReturnValue {
                value: form.first(),
            };
            call_quickly(registers, view, instr, input)
        }
        opcode::STEP => {
            let instr = Instr::Step {
                counter: form.first(),
                limit: form.second(),
                by: form.third(),
                out: form.fourth(),
            };
            control_quickly(registers, view, instr, input)
        }
        _ => false,
    }
}
