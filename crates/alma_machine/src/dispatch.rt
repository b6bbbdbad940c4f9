// What each instruction does.
ghost use Rattle.std.specs.Prelude.{◌≡◌, ◌+◌, ◌^◌, ◌<◌, ◌≤◌, List, ℕ, [], length};
ghost use Rattle.alma_base.specs.Limits.{input_limit};
ghost use Rattle.alma_code.specs.Machine.{State, act};
ghost use Rattle.alma_code.specs.Plain.{PlainCode};
ghost use Rattle.alma_machine.specs.Needs.{Computes, Needs, WithinLimits, LeftToControl, LeftToPlaces, LeftToCells, LeftToChoices, LeftToCalls, LeftToInput, LeftToLinks};
ghost use Rattle.alma_machine_acts.specs.Acts.{Acts, ActsWith};
ghost use Rattle.alma_machine_acts.specs.Rows.{state_of, HasNumber, put_or_fault};

use alma_base::{NoMemory, RunFault};
use alma_code::{ChoiceKind, End, Instr, Step};
use alma_machine_acts::calls::{call, leave, leave_with};
use alma_machine_acts::choices::{begin_body, choose, cut, finish, forall, keep, set_mark};
use alma_machine_acts::copies::copy_cells;
use alma_machine_acts::input::{read_char, read_number};
use alma_machine_acts::output::{
    fault_of_number, print_character, print_number, print_text, print_truth,
};
use alma_machine_acts::{CodeView, Registers};
use alma_memory::MachineMemory;

/// The slot that an instruction of numbers writes, and the number that goes there.
#[tactic(auto, unfolding(alma_code::specs::Machine::act, crate::specs::Needs::Computes))]
#[inline(always)]
pub(crate) fn computation<M: MachineMemory>(
    registers: &Registers<M>,
    instr: Instr,
) -> (u32, Result<i64, RunFault>)
    requires { Computes (M.picture registers.now.memory).now instr }
    ensures slot { HasNumber (M.picture registers.now.memory).now result.0 }
    ensures number { (code : PlainCode) (input : List ℕ) (s : State) → s.now
        ≡ (M.picture registers.now.memory).now
        → act code input instr s ≡ put_or_fault s result.0 result.1 }
{
    match instr {
        Instr::Const { to, value } => (to, Ok(value)),
        Instr::Move { to, from } => (to, registers.number(from)),
        Instr::Add { to, left, right } => (to, registers.sum(left, right)),
        Instr::Sub { to, left, right } => (to, registers.difference(left, right)),
        Instr::Mul { to, left, right } => (to, registers.product(left, right)),
        Instr::Div { to, left, right } => (to, registers.quotient(left, right)),
        Instr::Mod { to, left, right } => (to, registers.remainder(left, right)),
        Instr::Neg { to, from } => (to, registers.negated(from)),
        Instr::Equal { to, left, right } => (to, registers.equal(left, right)),
        Instr::Less { to, left, right } => (to, registers.less(left, right)),
        Instr::LessEq { to, left, right } => (to, registers.at_most(left, right)),
        Instr::Flip { to, from } => (to, registers.flipped(from)),
        Instr::Load { to, from } => (to, registers.number_at(from)),
        Instr::Known { to, of } => (to, registers.knows(of)),
        _ => unreachable!(),
    }
}

/// What an instruction does, with the address already at the next one. Where memory is wanted,
/// nothing has happened.
#[tactic(auto, unfolding(alma_code::specs::Machine::act, crate::specs::Needs::Needs), using(crate::proofs::Acting::actings))]
pub fn act<M: MachineMemory, V: CodeView>(
    registers: &mut Registers<M>,
    view: &V,
    instr: Instr,
    input: &[u8],
    bytes: &mut Vec<u8>,
) -> Result<Step, NoMemory>
    requires needs { Needs (V.code view.now) (M.picture registers.old.memory).now instr }
    requires few { registers.old.choices + 1 < 2 ^ 63 }
    requires lawful { length input.now ≤ input_limit }
    requires empty { bytes.old.items ≡ [] }
    ensures { ActsWith M.picture registers.old registers.new bytes.new.items result
        (act (V.code view.now) input.now instr (state_of M.picture registers.old)) }
{
    match instr {
        Instr::WriteInt { value } => print_number(registers, value, bytes),
        Instr::WriteChar { value } => print_character(registers, value, bytes),
        Instr::WriteBool { value } => print_truth(registers, value, bytes),
        Instr::WriteText { text } => match view.text(text) {
            Some(text) => print_text(text, bytes),
            None => unreachable!(),
        },
        Instr::WriteLine => print_text(b"\n", bytes),
        Instr::Const { .. }
        | Instr::Move { .. }
        | Instr::Add { .. }
        | Instr::Sub { .. }
        | Instr::Mul { .. }
        | Instr::Div { .. }
        | Instr::Mod { .. }
        | Instr::Neg { .. }
        | Instr::Equal { .. }
        | Instr::Less { .. }
        | Instr::LessEq { .. }
        | Instr::Flip { .. }
        | Instr::Load { .. }
        | Instr::Known { .. } => {
            let (to, number) = computation(registers, instr);
            registers.put(to, number)
        }
        _ => act_control(registers, view, instr, input),
    }
}

// Jumps, tests and counted loops, and else `act_places`.
#[tactic(auto, unfolding(alma_code::specs::Machine::act, crate::specs::Needs::Needs), using(crate::proofs::Acting::actings))]
fn act_control<M: MachineMemory, V: CodeView>(
    registers: &mut Registers<M>,
    view: &V,
    instr: Instr,
    input: &[u8],
) -> Result<Step, NoMemory>
    requires needs { Needs (V.code view.now) (M.picture registers.old.memory).now instr }
    requires left { LeftToControl instr }
    requires limits { WithinLimits registers.old.choices input.now }
    ensures { Acts M.picture registers.old registers.new result
        (act (V.code view.now) input.now instr (state_of M.picture registers.old)) }
{
    match instr {
        Instr::InRange { value, range } => match view.range(range) {
            Some(range) => Ok(registers.in_range(value, &range)),
            None => unreachable!(),
        },
        Instr::Jump { to } => Ok(registers.jump(to)),
        Instr::JumpZero { value, to } => Ok(registers.jump_zero(value, to)),
        Instr::Check { value } => Ok(registers.check(value)),
        Instr::Fail => Ok(registers.fail()),
        Instr::Fault { number } => Ok(registers.end(End::Fault(fault_of_number(number)))),
        Instr::Step {
            counter,
            limit,
            by,
            out,
        } => registers.count(counter, limit, by, out),
        _ => act_places(registers, view, instr, input),
    }
}

// Places, and else `act_cells`.
#[tactic(auto, unfolding(alma_code::specs::Machine::act, crate::specs::Needs::Needs), using(crate::proofs::Acting::actings))]
fn act_places<M: MachineMemory, V: CodeView>(
    registers: &mut Registers<M>,
    view: &V,
    instr: Instr,
    input: &[u8],
) -> Result<Step, NoMemory>
    requires needs { Needs (V.code view.now) (M.picture registers.old.memory).now instr }
    requires left { LeftToPlaces instr }
    requires limits { WithinLimits registers.old.choices input.now }
    ensures { Acts M.picture registers.old registers.new result
        (act (V.code view.now) input.now instr (state_of M.picture registers.old)) }
{
    match instr {
        Instr::Local { to, first } => {
            let frame = registers.memory.frames() - 1;
            registers.put_place(to, frame, first)
        }
        Instr::Global { to, first } => registers.put_place(to, 0, first),
        Instr::Same { to, from } => {
            let spot = registers.whole(from);
            registers.point(to, spot)
        }
        Instr::Field { to, from, offset } => {
            let spot = registers.field(from, offset);
            registers.point(to, spot)
        }
        Instr::Index {
            to,
            from,
            index,
            range,
        } => match view.range(range) {
            Some(range) => {
                let spot = registers.part(to, from, index, &range);
                registers.point(to, spot)
            }
            None => unreachable!(),
        },
        _ => act_cells(registers, view, instr, input),
    }
}

// Cells at places: stores, bindings, equations and copies, and else `act_choices`.
#[tactic(auto, unfolding(alma_code::specs::Machine::act, crate::specs::Needs::Needs), using(crate::proofs::Acting::actings))]
fn act_cells<M: MachineMemory, V: CodeView>(
    registers: &mut Registers<M>,
    view: &V,
    instr: Instr,
    input: &[u8],
) -> Result<Step, NoMemory>
    requires needs { Needs (V.code view.now) (M.picture registers.old.memory).now instr }
    requires left { LeftToCells instr }
    requires limits { WithinLimits registers.old.choices input.now }
    ensures { Acts M.picture registers.old registers.new result
        (act (V.code view.now) input.now instr (state_of M.picture registers.old)) }
{
    match instr {
        Instr::Store { to, from } => registers.store(to, from),
        Instr::Bind {
            place,
            value,
            range,
        } => match view.range(range) {
            Some(range) => registers.bind(place, value, &range),
            None => unreachable!(),
        },
        Instr::Unify {
            left,
            left_range,
            right,
            right_range,
        } => match (view.range(left_range), view.range(right_range)) {
            (Some(first), Some(second)) => registers.unify(left, first, right, second),
            _ => unreachable!(),
        },
        Instr::CopyCells { to, from } => copy_cells(registers, to, from),
        Instr::SameCells { left, right } => registers.same_cells(left, right),
        _ => act_choices(registers, view, instr, input),
    }
}

// Choice entries, and else `act_calls`.
#[tactic(auto, unfolding(alma_code::specs::Machine::act, crate::specs::Needs::Needs), using(crate::proofs::Acting::actings))]
fn act_choices<M: MachineMemory, V: CodeView>(
    registers: &mut Registers<M>,
    view: &V,
    instr: Instr,
    input: &[u8],
) -> Result<Step, NoMemory>
    requires needs { Needs (V.code view.now) (M.picture registers.old.memory).now instr }
    requires left { LeftToChoices instr }
    requires limits { WithinLimits registers.old.choices input.now }
    ensures { Acts M.picture registers.old registers.new result
        (act (V.code view.now) input.now instr (state_of M.picture registers.old)) }
{
    match instr {
        Instr::Mark { to } => set_mark(registers, to),
        Instr::Cut { mark } => Ok(cut(registers, mark)),
        Instr::Choose { resume } => choose(registers, ChoiceKind::Branch, resume),
        Instr::Forall { mark, resume } => forall(registers, mark, resume),
        Instr::Overlay { mark, resume } => begin_body(registers, mark, resume),
        Instr::Keep { mark } => keep(registers, mark),
        Instr::Finish => finish(registers),
        _ => act_calls(registers, view, instr, input),
    }
}

// Calls and returns, and else `act_input`.
#[tactic(auto, unfolding(alma_code::specs::Machine::act, crate::specs::Needs::Needs), using(crate::proofs::Acting::actings))]
fn act_calls<M: MachineMemory, V: CodeView>(
    registers: &mut Registers<M>,
    view: &V,
    instr: Instr,
    input: &[u8],
) -> Result<Step, NoMemory>
    requires needs { Needs (V.code view.now) (M.picture registers.old.memory).now instr }
    requires left { LeftToCalls instr }
    requires limits { WithinLimits registers.old.choices input.now }
    ensures { Acts M.picture registers.old registers.new result
        (act (V.code view.now) input.now instr (state_of M.picture registers.old)) }
{
    match instr {
        Instr::Call { routine, first, .. } => match view.routine(routine) {
            Some(head) => call(registers, &head, routine, view.start(routine), first),
            None => unreachable!(),
        },
        Instr::Return => leave(registers),
        Instr::ReturnValue { value } => leave_with(registers, view, value),
        _ => act_input(registers, view, instr, input),
    }
}

// Reads of the input, and else `act_links`.
#[tactic(auto, unfolding(alma_code::specs::Machine::act, crate::specs::Needs::Needs), using(crate::proofs::Acting::actings))]
fn act_input<M: MachineMemory, V: CodeView>(
    registers: &mut Registers<M>,
    view: &V,
    instr: Instr,
    input: &[u8],
) -> Result<Step, NoMemory>
    requires needs { Needs (V.code view.now) (M.picture registers.old.memory).now instr }
    requires left { LeftToInput instr }
    requires limits { WithinLimits registers.old.choices input.now }
    ensures { Acts M.picture registers.old registers.new result
        (act (V.code view.now) input.now instr (state_of M.picture registers.old)) }
{
    match instr {
        Instr::ReadInt { place, range } => match view.range(range) {
            Some(range) => read_number(registers, input, place, &range),
            None => unreachable!(),
        },
        Instr::ReadChar { place, range } => match view.range(range) {
            Some(range) => read_char(registers, input, place, &range),
            None => unreachable!(),
        },
        _ => act_links(registers, view, instr, input),
    }
}

// Links: no other instruction is left.
#[tactic(auto, unfolding(alma_code::specs::Machine::act, crate::specs::Needs::Needs), using(crate::proofs::Acting::actings))]
fn act_links<M: MachineMemory, V: CodeView>(
    registers: &mut Registers<M>,
    view: &V,
    instr: Instr,
    input: &[u8],
) -> Result<Step, NoMemory>
    requires needs { Needs (V.code view.now) (M.picture registers.old.memory).now instr }
    requires left { LeftToLinks instr }
    requires limits { WithinLimits registers.old.choices input.now }
    ensures { Acts M.picture registers.old registers.new result
        (act (V.code view.now) input.now instr (state_of M.picture registers.old)) }
{
    match instr {
        Instr::Own { to } => {
            let frame = registers.memory.frames() - 1;
            registers.put_link(to, Ok(frame))
        }
        Instr::Chain { to, link, slot } => {
            let frame = registers.chained(link, slot);
            registers.put_link(to, frame)
        }
        Instr::Outer { to, link, first } => {
            let spot = registers.outer(link, first);
            registers.point(to, spot)
        }
        Instr::OuterSame { to, link, slot } => {
            let spot = registers.outer_whole(link, slot);
            registers.point(to, spot)
        }
        _ => unreachable!(),
    }
}
