// Instructions on numbers.
ghost use Rattle.std.specs.Prelude.{◌≡◌, ◌∷◌, [], length, IfOk, OnOk};
ghost use Rattle.alma_code.specs.declared.instr.Instr.TheVariants as instr;
ghost use Rattle.alma_lower_templates.specs.LineInstr.{own};
ghost use Rattle.alma_lower_templates.specs.Pieces as pieces;
ghost use Rattle.alma_lower_templates.specs.Templates as T;
ghost use Rattle.alma_lower_work.specs.Front.{around, front, result_of, Codes};
ghost use Rattle.alma_lower_work.specs.Puts.{behind_sign, first_of};

use crate::first_operand::FirstOperand;
use crate::scene::Scene;
use crate::work::Work;
use alma_base::{NoMemory, Range};
use alma_code::Instr;
use alma_ir::{Cmp, Op, ReadAs, WriteAs};
use alma_lower_tables::is_whole;

/// The instruction of an operator on the numbers in two slots.
pub fn op_instr(op: Op, to: u32, left: u32, right: u32) -> Instr
    ensures { result ≡ pieces.op_code op to left right }
{
    match op {
        Op::Add => Instr::Add { to, left, right },
        Op::Sub => Instr::Sub { to, left, right },
        Op::Mul => Instr::Mul { to, left, right },
        Op::Div => Instr::Div { to, left, right },
        Op::Mod => Instr::Mod { to, left, right },
    }
}

/// The print of a number.
pub fn write_instr(how: WriteAs, value: u32) -> Instr
    ensures { result ≡ pieces.write_code how value }
{
    match how {
        WriteAs::Int => Instr::WriteInt { value },
        WriteAs::Bool => Instr::WriteBool { value },
        WriteAs::Char => Instr::WriteChar { value },
    }
}

/// What takes a number or a byte of the input.
pub fn read_instr(how: ReadAs, place: u32, range: u32) -> Instr
    ensures { result ≡ pieces.read_code how place range }
{
    match how {
        ReadAs::Int => Instr::ReadInt { place, range },
        ReadAs::Char => Instr::ReadChar { place, range },
    }
}

/// A comparison of the numbers in two slots.
pub fn put_cmp(
    work: &mut Work,
    line: u32,
    cmp: Cmp,
    first: FirstOperand,
    other: u32,
) -> Result<(), NoMemory>
    ensures { OnOk result (Codes (front work.old) (front work.new)
        (own line (pieces.cmp_code cmp first.to first.from other))) }
{
    let FirstOperand { from, to } = first;
    work.put(line, cmp_instr(cmp, to, from, other))?;
    if let Cmp::Unequal = cmp {
        return work.add(line, Instr::Flip { to, from: to });
    }
    Ok(())
}

// The instruction of a comparison, which for Unequal gives the contrary.
fn cmp_instr(cmp: Cmp, to: u32, left: u32, right: u32) -> Instr
    ensures { result ≡ first_of (pieces.cmp_code cmp to left right) }
{
    match cmp {
        Cmp::Equal | Cmp::Unequal => Instr::Equal { to, left, right },
        Cmp::Less => Instr::Less { to, left, right },
        Cmp::LessEq => Instr::LessEq { to, left, right },
        Cmp::Greater => Instr::Less {
            to,
            left: right,
            right: left,
        },
        Cmp::GreaterEq => Instr::LessEq {
            to,
            left: right,
            right: left,
        },
    }
}

/// The sign of a first operand, which puts it into the slot for the value; where it stands then.
pub fn put_neg(
    work: &mut Work,
    line: u32,
    negated: bool,
    first: FirstOperand,
) -> Result<FirstOperand, NoMemory>
    ensures from { IfOk result (λ signed. signed.from ≡ behind_sign negated first.from first.to) }
    ensures to { IfOk result (λ signed. signed.to ≡ first.to) }
    ensures codes { OnOk result (Codes (front work.old) (front work.new)
        (own line (pieces.neg_code negated first.to first.from))) }
{
    if !negated {
        return Ok(first);
    }
    let FirstOperand { from, to } = first;
    work.put(line, Instr::Neg { to, from })?;
    Ok(FirstOperand { from: to, to })
}

/// The check that the number in a slot is in a range; none for a range of all numbers.
pub fn put_fit(
    work: &mut Work,
    scene: &Scene<'_>,
    line: u32,
    range: Range,
    value: u32,
) -> Result<(), NoMemory>
    ensures { OnOk result (Codes (front work.old) (front work.new)
        (own line (pieces.fit_code (around scene.now).tables range value))) }
{
    if is_whole(range) {
        return Ok(());
    }
    let range = scene.range_number(range)?;
    work.add(line, Instr::InRange { value, range })
}

/// The check of what a RETURN gives.
pub fn put_result_fit(
    work: &mut Work,
    scene: &Scene<'_>,
    line: u32,
    value: u32,
) -> Result<(), NoMemory>
    ensures { OnOk result (Codes (front work.old) (front work.new)
        (own line (T.fit_result (around scene.now).program (around scene.now).tables
        (around scene.now).routine (result_of (around scene.now)) value))) }
{
    match scene.result() {
        Some(range) => put_fit(work, scene, line, range, value),
        None => Ok(()),
    }
}

/// A condition as a number, behind the jump where it has no alternative, which is aimed at the last
/// instruction.
pub fn put_truth(work: &mut Work, line: u32, to: u32) -> Result<(), NoMemory>
    ensures { OnOk result (Codes (front work.old) (front work.new)
        (pieces.truth_code line to (length (front work.old).code))) }
{
    let behind = work.behind(3)?;
    let yes = work.add(line, Instr::Const { to, value: 1 });
    let past = work.then_add(yes, line, Instr::Jump { to: behind });
    work.then_add(past, line, Instr::Const { to, value: 0 })
}

/// A call of a function behind its mark, and the cut.
pub fn put_function(
    work: &mut Work,
    line: u32,
    mark: u32,
    routine: u32,
    first: u32,
    to: u32,
) -> Result<(), NoMemory>
    ensures { OnOk result (Codes (front work.old) (front work.new) (own line
        (instr.Mark mark ∷ instr.Call routine first to ∷ instr.Cut mark ∷ []))) }
{
    let marked = work.add(line, Instr::Mark { to: mark });
    let called = work.then_add(marked, line, Instr::Call { routine, first, to });
    work.then_add(called, line, Instr::Cut { mark })
}
