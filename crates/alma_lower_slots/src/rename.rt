// Instructions with their slots renamed.
ghost use Rattle.std.specs.Prelude.{◌≡◌, ◌++◌, map, OnOk};
ghost use Rattle.alma_lower_slots.specs.Slots.{rename_slots};
ghost use Rattle.alma_lower_slots.specs.Stretches.{stretch_at};
ghost use Rattle.alma_lower_slots.specs.Inner.Shared.{slot_in};

use crate::stretch::Stretch;
use alma_base::NoMemory;
use alma_code::Instr;

/// The new number of a slot.
pub fn slot_of(stretches: &[Stretch], slot: u32) -> u32
    ensures { result ≡ slot_in stretches.now slot }
{
    match stretches.get(slot as usize) {
        Some(stretch) => stretch.slot,
        None => slot,
    }
}

/// An instruction with its slots renamed.
#[tactic(auto, unfolding(crate::specs::Slots::rename_slots))]
pub fn renamed(instr: Instr, stretches: &[Stretch]) -> Instr
    ensures { result ≡ rename_slots (λ n. (stretch_at stretches.now n).slot) instr }
{
    match instr {
        Instr::Const { to, value } => Instr::Const {
            to: slot_of(stretches, to),
            value,
        },
        Instr::Move { to, from } => Instr::Move {
            to: slot_of(stretches, to),
            from: slot_of(stretches, from),
        },
        Instr::Add { to, left, right } => Instr::Add {
            to: slot_of(stretches, to),
            left: slot_of(stretches, left),
            right: slot_of(stretches, right),
        },
        Instr::Sub { to, left, right } => Instr::Sub {
            to: slot_of(stretches, to),
            left: slot_of(stretches, left),
            right: slot_of(stretches, right),
        },
        Instr::Mul { to, left, right } => Instr::Mul {
            to: slot_of(stretches, to),
            left: slot_of(stretches, left),
            right: slot_of(stretches, right),
        },
        Instr::Div { to, left, right } => Instr::Div {
            to: slot_of(stretches, to),
            left: slot_of(stretches, left),
            right: slot_of(stretches, right),
        },
        Instr::Mod { to, left, right } => Instr::Mod {
            to: slot_of(stretches, to),
            left: slot_of(stretches, left),
            right: slot_of(stretches, right),
        },
        Instr::Neg { to, from } => Instr::Neg {
            to: slot_of(stretches, to),
            from: slot_of(stretches, from),
        },
        Instr::Equal { to, left, right } => Instr::Equal {
            to: slot_of(stretches, to),
            left: slot_of(stretches, left),
            right: slot_of(stretches, right),
        },
        Instr::Less { to, left, right } => Instr::Less {
            to: slot_of(stretches, to),
            left: slot_of(stretches, left),
            right: slot_of(stretches, right),
        },
        Instr::LessEq { to, left, right } => Instr::LessEq {
            to: slot_of(stretches, to),
            left: slot_of(stretches, left),
            right: slot_of(stretches, right),
        },
        Instr::Flip { to, from } => Instr::Flip {
            to: slot_of(stretches, to),
            from: slot_of(stretches, from),
        },
        Instr::InRange { value, range } => Instr::InRange {
            value: slot_of(stretches, value),
            range,
        },
        Instr::Local { to, first } => Instr::Local {
            to: slot_of(stretches, to),
            first,
        },
        Instr::Global { to, first } => Instr::Global {
            to: slot_of(stretches, to),
            first,
        },
        Instr::Same { to, from } => Instr::Same {
            to: slot_of(stretches, to),
            from: slot_of(stretches, from),
        },
        Instr::Field { to, from, offset } => Instr::Field {
            to: slot_of(stretches, to),
            from: slot_of(stretches, from),
            offset,
        },
        Instr::Index {
            to,
            from,
            index,
            range,
        } => Instr::Index {
            to: slot_of(stretches, to),
            from: slot_of(stretches, from),
            index: slot_of(stretches, index),
            range,
        },
        Instr::Load { to, from } => Instr::Load {
            to: slot_of(stretches, to),
            from: slot_of(stretches, from),
        },
        Instr::Store { to, from } => Instr::Store {
            to: slot_of(stretches, to),
            from: slot_of(stretches, from),
        },
        Instr::Known { to, of } => Instr::Known {
            to: slot_of(stretches, to),
            of: slot_of(stretches, of),
        },
        Instr::Bind {
            place,
            value,
            range,
        } => Instr::Bind {
            place: slot_of(stretches, place),
            value: slot_of(stretches, value),
            range,
        },
        Instr::Unify {
            left,
            left_range,
            right,
            right_range,
        } => Instr::Unify {
            left: slot_of(stretches, left),
            left_range,
            right: slot_of(stretches, right),
            right_range,
        },
        Instr::CopyCells { to, from } => Instr::CopyCells {
            to: slot_of(stretches, to),
            from: slot_of(stretches, from),
        },
        Instr::SameCells { left, right } => Instr::SameCells {
            left: slot_of(stretches, left),
            right: slot_of(stretches, right),
        },
        Instr::JumpZero { value, to } => Instr::JumpZero {
            value: slot_of(stretches, value),
            to,
        },
        Instr::Check { value } => Instr::Check {
            value: slot_of(stretches, value),
        },
        Instr::Mark { to } => Instr::Mark {
            to: slot_of(stretches, to),
        },
        Instr::Cut { mark } => Instr::Cut {
            mark: slot_of(stretches, mark),
        },
        Instr::Forall { mark, resume } => Instr::Forall {
            mark: slot_of(stretches, mark),
            resume,
        },
        Instr::Overlay { mark, resume } => Instr::Overlay {
            mark: slot_of(stretches, mark),
            resume,
        },
        Instr::Keep { mark } => Instr::Keep {
            mark: slot_of(stretches, mark),
        },
        Instr::Call { routine, first, to } => Instr::Call {
            routine,
            first: slot_of(stretches, first),
            to: slot_of(stretches, to),
        },
        Instr::ReturnValue { value } => Instr::ReturnValue {
            value: slot_of(stretches, value),
        },
        Instr::ReadInt { place, range } => Instr::ReadInt {
            place: slot_of(stretches, place),
            range,
        },
        Instr::ReadChar { place, range } => Instr::ReadChar {
            place: slot_of(stretches, place),
            range,
        },
        Instr::WriteInt { value } => Instr::WriteInt {
            value: slot_of(stretches, value),
        },
        Instr::WriteChar { value } => Instr::WriteChar {
            value: slot_of(stretches, value),
        },
        Instr::WriteBool { value } => Instr::WriteBool {
            value: slot_of(stretches, value),
        },
        Instr::Step {
            counter,
            limit,
            by,
            out,
        } => Instr::Step {
            counter: slot_of(stretches, counter),
            limit: slot_of(stretches, limit),
            by: slot_of(stretches, by),
            out,
        },
        Instr::Own { to } => Instr::Own {
            to: slot_of(stretches, to),
        },
        Instr::Chain { to, link, slot } => Instr::Chain {
            to: slot_of(stretches, to),
            link: slot_of(stretches, link),
            slot,
        },
        Instr::Outer { to, link, first } => Instr::Outer {
            to: slot_of(stretches, to),
            link: slot_of(stretches, link),
            first,
        },
        Instr::OuterSame { to, link, slot } => Instr::OuterSame {
            to: slot_of(stretches, to),
            link: slot_of(stretches, link),
            slot,
        },
        Instr::Jump { .. }
        | Instr::Fail
        | Instr::Choose { .. }
        | Instr::Finish
        | Instr::Return
        | Instr::WriteText { .. }
        | Instr::WriteLine
        | Instr::Fault { .. } => instr,
    }
}

/// Puts the instructions of a routine, with their slots renamed, behind others.
pub fn push_renamed(
    instrs: &mut Vec<Instr>,
    code: &[Instr],
    stretches: &[Stretch],
) -> Result<(), NoMemory>
    ensures { OnOk result (instrs.new.items ≡ instrs.old.items
        ++ map (rename_slots (slot_in stretches.now))
        code.now) }
{
    for instr in code {
        instrs.push(renamed(*instr, stretches))?;
    }
    Ok(())
}
