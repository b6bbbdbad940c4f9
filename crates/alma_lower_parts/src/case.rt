// The labels of the arms of CASE.
ghost use Rattle.std.specs.Prelude.{◌≡◌, ◌+◌, ◌∷◌, [], IfOk, IsOk, OnOk, length};
ghost use Rattle.alma_code.specs.declared.cell.SlotKind.TheVariants as slot;
ghost use Rattle.alma_ir.specs.View.{cases_list};
ghost use Rattle.alma_lower_templates.specs.LineInstr.{own};
ghost use Rattle.alma_lower_templates.specs.Pieces as pieces;
ghost use Rattle.alma_lower_work.specs.Front.{front, Adds, Codes};
ghost use Rattle.alma_lower_parts.specs.Labels.{PutsLabels};
ghost use Rattle.alma_lower_parts.specs.Steps.{EndsArm, EndsDead};

use alma_base::{NoMemory, Range};
use alma_code::{Instr, SlotKind};
use alma_ir::CaseArm;
use alma_lower_work::Work;

/// What the labels of an arm need: the slot of the value, and two slots for the ends of a label and
/// for the test of one.
#[derive(Clone, Copy)]
pub struct Labels {
    pub value: u32,
    pub bound: u32,
    pub test: u32,
}

/// The jumps of the last label, which are to be aimed where the number lies in none: that behind
/// its lower end and that behind its upper end, or twice the one of a label of one number.
#[derive(Clone, Copy)]
pub struct Miss {
    pub low: u32,
    pub high: u32,
}

/// Whether an arm of CASE has no label, and so is never tried.
pub fn has_dead(arms: &[CaseArm]) -> bool
    ensures { result ≡ pieces.has_dead (cases_list arms.now) }
{
    for arm in arms {
        if arm.labels.is_empty() {
            return true;
        }
    }
    false
}

// The two slots for the labels of a CASE.
fn take_labels(work: &mut Work, value: u32) -> Result<Labels, NoMemory>
    ensures value { IfOk result (λ labels. labels.value ≡ value) }
    ensures bound { IfOk result (λ labels. labels.bound ≡ (front work.old).next) }
    ensures test { IfOk result (λ labels. labels.test ≡ labels.bound + 1) }
    ensures puts { OnOk result (Adds (front work.old) (front work.new) (λ at lo ls. [])
        (λ ls. slot.Number ∷ slot.Number ∷ []) (λ ls. ls)) }
{
    let bound = work.slot(SlotKind::Number)?;
    let test = work.slot(SlotKind::Number)?;
    Ok(Labels { value, bound, test })
}

/// The test of a label: the code goes on where the number lies in it, and else by one of its jumps.
pub fn put_label_test(
    work: &mut Work,
    line: u32,
    labels: Labels,
    label: Range,
) -> Result<Miss, NoMemory>
    ensures { labels.test ≡ labels.bound + 1 → IfOk result (λ miss.
        PutsLabels (front work.old) (front work.new) line miss.low miss.high
        (λ none at. pieces.label_test labels.value labels.bound none label)) }
{
    if label.low == label.high {
        put_single(work, line, labels, label.low)
    } else {
        put_between(work, line, labels, label)
    }
}

// The test of a label of one number.
fn put_single(work: &mut Work, line: u32, labels: Labels, number: i64) -> Result<Miss, NoMemory>
    ensures { labels.test ≡ labels.bound + 1 → IfOk result (λ miss.
        PutsLabels (front work.old) (front work.new) line miss.low miss.high
        (λ none at. pieces.single_test labels.value labels.bound none number)) }
{
    let Labels { value, bound, test } = labels;
    work.put(
        line,
        Instr::Const {
            to: bound,
            value: number,
        },
    )?;
    work.put(
        line,
        Instr::Equal {
            to: test,
            left: bound,
            right: value,
        },
    )?;
    let jump = work.put(line, Instr::JumpZero { value: test, to: 0 })?;
    Ok(Miss {
        low: jump,
        high: jump,
    })
}

// The test of a label that is a range.
fn put_between(work: &mut Work, line: u32, labels: Labels, label: Range) -> Result<Miss, NoMemory>
    ensures { labels.test ≡ labels.bound + 1 → IfOk result (λ miss.
        PutsLabels (front work.old) (front work.new) line miss.low miss.high
        (λ none at. pieces.between_test labels.value labels.bound none label)) }
{
    let Labels { value, bound, test } = labels;
    work.put(
        line,
        Instr::Const {
            to: bound,
            value: label.low,
        },
    )?;
    work.put(
        line,
        Instr::LessEq {
            to: test,
            left: bound,
            right: value,
        },
    )?;
    let low = work.put(line, Instr::JumpZero { value: test, to: 0 })?;
    work.put(
        line,
        Instr::Const {
            to: bound,
            value: label.high,
        },
    )?;
    work.put(
        line,
        Instr::LessEq {
            to: test,
            left: value,
            right: bound,
        },
    )?;
    let high = work.put(line, Instr::JumpZero { value: test, to: 0 })?;
    Ok(Miss { low, high })
}

/// A label that is not the last of its arm: goes to `hit` where the number lies in it, else on
/// behind.
pub fn put_label(
    work: &mut Work,
    line: u32,
    labels: Labels,
    hit: u32,
    label: Range,
) -> Result<(), NoMemory>
    ensures { labels.test ≡ labels.bound + 1 → OnOk result (Codes (front work.old) (front work.new)
        (own line (pieces.label_code labels.value labels.bound (length (front work.old).code) hit
        label))) }
{
    let miss = put_label_test(work, line, labels, label)?;
    let behind = work.behind(1)?;
    work.aim(miss.low, behind);
    work.aim(miss.high, behind);
    work.put(line, Instr::Jump { to: hit })?;
    Ok(())
}

/// Behind the arms of CASE without a label: lines are handed out anew from a position on, and the
/// jump over the arms is aimed.
pub fn end_dead(
    work: &mut Work,
    done: Result<(), NoMemory>,
    before: usize,
    over: u32,
) -> Result<(), NoMemory>
    ensures done { OnOk result (IsOk done) }
    ensures ends { OnOk result (EndsDead (front work.old) (front work.new) before over) }
{
    done?;
    work.go_to(before);
    work.aim_behind(over, 0)
}

/// The two slots for the labels of a CASE, behind the arms without a label.
pub fn then_take_labels(
    work: &mut Work,
    done: Result<(), NoMemory>,
    value: u32,
) -> Result<Labels, NoMemory>
    ensures done { OnOk result (IsOk done) }
    ensures value { IfOk result (λ labels. labels.value ≡ value) }
    ensures bound { IfOk result (λ labels. labels.bound ≡ (front work.old).next) }
    ensures test { IfOk result (λ labels. labels.test ≡ labels.bound + 1) }
    ensures puts { OnOk result (Adds (front work.old) (front work.new) (λ at lo ls. [])
        (λ ls. slot.Number ∷ slot.Number ∷ []) (λ ls. ls)) }
{
    done?;
    take_labels(work, value)
}

/// Behind the body of an arm of CASE: the jumps of its last label are aimed behind the jump that
/// follows.
pub fn end_arm(work: &mut Work, done: Result<(), NoMemory>, miss: Miss) -> Result<(), NoMemory>
    ensures done { OnOk result (IsOk done) }
    ensures ends { OnOk result (EndsArm (front work.old) (front work.new) miss.low miss.high) }
{
    done?;
    let behind = work.behind(1)?;
    work.aim(miss.low, behind);
    work.aim(miss.high, behind);
    Ok(())
}
