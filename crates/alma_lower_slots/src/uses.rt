// What an instruction does with slots, and where it leads, as the checker and the analysis ask it.
ghost use Rattle.std.specs.Prelude.{◌≡◌, ◌++◌, [], ◌∷◌};
ghost use Rattle.alma_code.specs.Plain.{PlainCode, code_of};
ghost use Rattle.alma_lower_slots.specs.Slots.{away as away_spec, body_of as body_of_spec, lays_over as lays_over_spec, reads, target_slot};
ghost use Rattle.alma_lower_slots.specs.Slots.{is_finish as is_finish_spec, is_forall as is_forall_spec};
ghost use Rattle.alma_lower_slots.specs.Inner.Checks.{arguments, mark_of as mark_of_spec, slots_of};

use crate::lookups::has_result;
use alma_code::{Code, Instr};

/// Whether the carry of a FORALL may be laid over the frame before the next address is reached.
#[tactic(auto, unfolding(crate::specs::Slots::lays_over))]
pub fn lays_over(instr: Instr) -> bool
    ensures { result ≡ lays_over_spec instr }
{
    matches!(
        instr,
        Instr::Overlay { .. } | Instr::Finish | Instr::Call { .. }
    )
}

/// Whether it is a Finish.
#[tactic(auto, unfolding(crate::specs::Slots::is_finish))]
pub fn is_finish(instr: Instr) -> bool
    ensures { result ≡ is_finish_spec instr }
{
    matches!(instr, Instr::Finish)
}

/// Whether it is a Forall.
#[tactic(auto, unfolding(crate::specs::Slots::is_forall))]
pub fn is_forall(instr: Instr) -> bool
    ensures { result ≡ is_forall_spec instr }
{
    matches!(instr, Instr::Forall { .. })
}

/// The slot that a Mark writes.
#[tactic(auto, unfolding(crate::specs::Inner::Checks::mark_of))]
pub fn mark_of(instr: Instr) -> Option<u32>
    ensures { result ≡ mark_of_spec instr }
{
    match instr {
        Instr::Mark { to } => Some(to),
        _ => None,
    }
}

/// The mark slot in which it looks for the height of a FORALL.
#[tactic(auto, unfolding(crate::specs::Slots::body_of))]
pub fn body_of(instr: Instr) -> Option<u32>
    ensures { result ≡ body_of_spec instr }
{
    match instr {
        Instr::Overlay { mark, .. } | Instr::Keep { mark } => Some(mark),
        _ => None,
    }
}

/// The address where it may go on beside the next.
#[tactic(auto, unfolding(crate::specs::Slots::away))]
pub fn away_of(instr: Instr) -> Option<u32>
    ensures { result ≡ away_spec instr }
{
    match instr {
        Instr::Jump { to } | Instr::JumpZero { to, .. } => Some(to),
        Instr::Choose { resume } | Instr::Forall { resume, .. } | Instr::Overlay { resume, .. } =>
            Some(resume),
        Instr::Step { out, .. } => Some(out),
        _ => None,
    }
}

/// The slot that it writes before the next address is reached.
#[tactic(auto, unfolding(crate::specs::Slots::target_slot))]
pub fn written_by(code: &Code, instr: Instr) -> Option<u32>
    ensures { result ≡ target_slot (code_of code.now) instr }
{
    match instr {
        Instr::Call { routine, to, .. } => {
            if has_result(code, routine) {
                Some(to)
            } else {
                None
            }
        }
        Instr::Const { to, .. }
        | Instr::Move { to, .. }
        | Instr::Neg { to, .. }
        | Instr::Flip { to, .. }
        | Instr::Add { to, .. }
        | Instr::Sub { to, .. }
        | Instr::Mul { to, .. }
        | Instr::Div { to, .. }
        | Instr::Mod { to, .. }
        | Instr::Equal { to, .. }
        | Instr::Less { to, .. }
        | Instr::LessEq { to, .. }
        | Instr::Local { to, .. }
        | Instr::Global { to, .. }
        | Instr::Same { to, .. }
        | Instr::Field { to, .. }
        | Instr::Index { to, .. }
        | Instr::Load { to, .. }
        | Instr::Known { to, .. }
        | Instr::Mark { to }
        | Instr::Forall { mark: to, .. }
        | Instr::Step { counter: to, .. }
        | Instr::Own { to }
        | Instr::Chain { to, .. }
        | Instr::Outer { to, .. }
        | Instr::OuterSame { to, .. } => Some(to),
        Instr::InRange { .. }
        | Instr::Store { .. }
        | Instr::Bind { .. }
        | Instr::Unify { .. }
        | Instr::CopyCells { .. }
        | Instr::SameCells { .. }
        | Instr::Jump { .. }
        | Instr::JumpZero { .. }
        | Instr::Check { .. }
        | Instr::Cut { .. }
        | Instr::Choose { .. }
        | Instr::Overlay { .. }
        | Instr::Keep { .. }
        | Instr::ReturnValue { .. }
        | Instr::ReadInt { .. }
        | Instr::ReadChar { .. }
        | Instr::WriteInt { .. }
        | Instr::WriteChar { .. }
        | Instr::WriteBool { .. }
        | Instr::WriteText { .. }
        | Instr::Fault { .. }
        | Instr::Fail
        | Instr::Finish
        | Instr::Return
        | Instr::WriteLine => None,
    }
}

// A slot, and no other.
fn one(a: u32) -> [Option<u32>; 3]
    ensures { slots_of result ≡ a ∷ [] }
{
    [Some(a), None, None]
}

// Two slots, and no third.
fn two(a: u32, b: u32) -> [Option<u32>; 3]
    ensures { slots_of result ≡ a ∷ b ∷ [] }
{
    [Some(a), Some(b), None]
}

/// The slots that it reads, up to three; those of a Call, its arguments, are not among them.
#[tactic(auto, unfolding(crate::specs::Slots::reads, crate::specs::Inner::Checks::arguments))]
pub fn reads_of(instr: Instr) -> [Option<u32>; 3]
    ensures { (code : PlainCode) → reads code instr ≡ slots_of result ++ arguments code instr }
{
    match instr {
        Instr::Move { from, .. }
        | Instr::Neg { from, .. }
        | Instr::Flip { from, .. }
        | Instr::Same { from, .. }
        | Instr::Field { from, .. }
        | Instr::Load { from, .. }
        | Instr::Known { of: from, .. }
        | Instr::Chain { link: from, .. }
        | Instr::Outer { link: from, .. }
        | Instr::OuterSame { link: from, .. } => one(from),
        Instr::Add { left, right, .. }
        | Instr::Sub { left, right, .. }
        | Instr::Mul { left, right, .. }
        | Instr::Div { left, right, .. }
        | Instr::Mod { left, right, .. }
        | Instr::Equal { left, right, .. }
        | Instr::Less { left, right, .. }
        | Instr::LessEq { left, right, .. }
        | Instr::Index {
            from: left,
            index: right,
            ..
        }
        | Instr::Store {
            to: left,
            from: right,
        }
        | Instr::Bind {
            place: left,
            value: right,
            ..
        }
        | Instr::Unify { left, right, .. }
        | Instr::CopyCells {
            to: left,
            from: right,
        }
        | Instr::SameCells { left, right } => two(left, right),
        Instr::InRange { value, .. }
        | Instr::JumpZero { value, .. }
        | Instr::Check { value }
        | Instr::Cut { mark: value }
        | Instr::Overlay { mark: value, .. }
        | Instr::Keep { mark: value }
        | Instr::ReturnValue { value }
        | Instr::ReadInt { place: value, .. }
        | Instr::ReadChar { place: value, .. }
        | Instr::WriteInt { value }
        | Instr::WriteChar { value }
        | Instr::WriteBool { value } => one(value),
        Instr::Step {
            counter,
            limit,
            by,
            ..
        } => [Some(counter), Some(limit), Some(by)],
        Instr::Const { .. }
        | Instr::Local { .. }
        | Instr::Global { .. }
        | Instr::Jump { .. }
        | Instr::Mark { .. }
        | Instr::Choose { .. }
        | Instr::Forall { .. }
        | Instr::Call { .. }
        | Instr::WriteText { .. }
        | Instr::Fault { .. }
        | Instr::Own { .. }
        | Instr::Fail
        | Instr::Finish
        | Instr::Return
        | Instr::WriteLine => [None, None, None],
    }
}
