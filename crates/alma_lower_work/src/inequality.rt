// Tests of inequality, which fail by themselves.
ghost use Rattle.std.specs.Prelude.{◌≡◌, length, false, MatchOption, OnOk};
ghost use Rattle.alma_ir.specs.declared.phrase.Cmp.TheVariants as cmp;
ghost use Rattle.alma_ir.specs.Tree.{Compare};
ghost use Rattle.alma_ir.specs.View.{expr_of};
ghost use Rattle.alma_lower_templates.specs.LineInstr.{own};
ghost use Rattle.alma_lower_templates.specs.Pieces as pieces;
ghost use Rattle.alma_lower_work.specs.Front.{front, Codes};
ghost use Rattle.alma_lower_work.specs.Puts.{is_unequal};

use crate::first_operand::FirstOperand;
use crate::work::Work;
use alma_base::NoMemory;
use alma_code::Instr;
use alma_ir::{Cmp, Expr};

/// The operands of a test of inequality.
pub fn unequal(expr: &Expr) -> Option<(&Expr, &Expr)>
    ensures { MatchOption result (is_unequal (expr_of expr.now) ≡ false) (λ both. expr_of expr.now
        ≡ Compare cmp.Unequal (expr_of both.0.now) (expr_of both.1.now)) }
{
    match expr {
        Expr::Compare(how, left, right) => match how {
            Cmp::Unequal => Some((left, right)),
            Cmp::Equal | Cmp::Less | Cmp::LessEq | Cmp::Greater | Cmp::GreaterEq => None,
        },
        Expr::Const(_)
        | Expr::Load(_)
        | Expr::Chain(_, _, _)
        | Expr::Truth(_)
        | Expr::Known(_)
        | Expr::Chr(_)
        | Expr::Call(_) => None,
    }
}

/// The end of such a test, behind both numbers: it fails where they are equal, and else goes over
/// the failure.
pub fn put_unequal(
    work: &mut Work,
    line: u32,
    first: FirstOperand,
    other: u32,
) -> Result<(), NoMemory>
    ensures { OnOk result (Codes (front work.old) (front work.new) (own line
        (pieces.unequal_code first.to first.from other (length (front work.old).code)))) }
{
    let FirstOperand { from, to } = first;
    let behind = work.behind(3)?;
    let compare = Instr::Equal {
        to,
        left: from,
        right: other,
    };
    let equal = work.add(line, compare);
    let over = work.then_add(
        equal,
        line,
        Instr::JumpZero {
            value: to,
            to: behind,
        },
    );
    work.then_add(over, line, Instr::Fail)
}
