// Conditions that WHILE tests behind its body: simple comparisons whose opposite is one instruction
// too.
ghost use Rattle.std.specs.Prelude.{◌≡◌, ◌∷◌, [], false, MatchOption, OnOk};
ghost use Rattle.alma_code.specs.declared.instr.Instr.TheVariants as instr;
ghost use Rattle.alma_ir.specs.Tree.{Compare, Value};
ghost use Rattle.alma_ir.specs.View.{expr_of, test_of};
ghost use Rattle.alma_lower_templates.specs.LineInstr.{own};
ghost use Rattle.alma_lower_templates.specs.Pieces as pieces;
ghost use Rattle.alma_lower_templates.specs.Slots.{has_opposite, is_turned};
ghost use Rattle.alma_lower_work.specs.Front.{front, Codes};
ghost use Rattle.alma_lower_work.specs.Puts.{IsTurned};

use crate::first_operand::FirstOperand;
use crate::simple::is_simple;
use crate::work::Work;
use alma_base::NoMemory;
use alma_code::Instr;
use alma_ir::{Cmp, Expr, Test};

/// The comparison of such a condition.
#[tactic(auto, using(alma_ir::proofs::Views::viewed))]
pub fn turned_test(test: &Test) -> Option<(Cmp, &Expr, &Expr)>
    ensures { MatchOption result (is_turned (test_of test.now) ≡ false) (λ parts. IsTurned
        (test_of test.now) parts.0 (expr_of parts.1.now) (expr_of parts.2.now)) }
{
    match test {
        Test::Value(value) => turned_value(value),
        Test::Bind(_, _, _, _) => None,
        Test::Unify(_, _, _, _) => None,
        Test::SameCells(_, _) => None,
        Test::Seq(_) => None,
        Test::And(_) => None,
        Test::Or(_) => None,
        Test::Not(_) => None,
        Test::Call(_) => None,
    }
}

// That of a value.
#[tactic(auto, using(alma_ir::proofs::Views::viewed))]
fn turned_value(value: &Expr) -> Option<(Cmp, &Expr, &Expr)>
    ensures { MatchOption result (is_turned (Value (expr_of value.now)) ≡ false) (λ parts. IsTurned
        (Value (expr_of value.now)) parts.0 (expr_of parts.1.now) (expr_of parts.2.now)) }
{
    match value {
        Expr::Compare(how, left, right) => simple_comparison(*how, left, right),
        Expr::Const(_) => None,
        Expr::Load(_) => None,
        Expr::Chain(_, _, _) => None,
        Expr::Truth(_) => None,
        Expr::Known(_) => None,
        Expr::Chr(_) => None,
        Expr::Call(_) => None,
    }
}

// A comparison of simple values, where its opposite is one instruction too.
fn simple_comparison<'a>(
    how: Cmp,
    left: &'a Expr,
    right: &'a Expr,
) -> Option<(Cmp, &'a Expr, &'a Expr)>
    ensures { MatchOption result
        (is_turned (Value (Compare how (expr_of left.now) (expr_of right.now))) ≡ false)
        (λ parts. IsTurned (Value (Compare how (expr_of left.now) (expr_of right.now))) parts.0
        (expr_of parts.1.now) (expr_of parts.2.now)) }
{
    if !has_opposite(how) {
        return None;
    }
    if !is_simple(left) {
        return None;
    }
    if !is_simple(right) {
        return None;
    }
    Some((how, left, right))
}

// Whether the opposite of a comparison is one instruction too.
fn has_opposite(how: Cmp) -> bool
    ensures { result ≡ has_opposite how }
{
    match how {
        Cmp::Equal => false,
        Cmp::Unequal => true,
        Cmp::Less => true,
        Cmp::LessEq => true,
        Cmp::Greater => true,
        Cmp::GreaterEq => true,
    }
}

/// The end of such a condition, behind both numbers: it goes back to `top` while the comparison
/// holds.
pub fn put_back(
    work: &mut Work,
    line: u32,
    how: Cmp,
    first: FirstOperand,
    other: u32,
    top: u32,
) -> Result<(), NoMemory>
    ensures { OnOk result (Codes (front work.old) (front work.new) (own line
        (pieces.opposite_code how first.to first.from other ∷ instr.JumpZero first.to top ∷ []))) }
{
    let FirstOperand { from, to } = first;
    let said = work.add(line, opposite_instr(how, to, from, other));
    work.then_add(said, line, Instr::JumpZero { value: to, to: top })
}

// The instruction that gives 0 where a comparison holds.
fn opposite_instr(how: Cmp, to: u32, left: u32, right: u32) -> Instr
    ensures { result ≡ pieces.opposite_code how to left right }
{
    match how {
        Cmp::Equal => Instr::Equal { to, left, right },
        Cmp::Unequal => Instr::Equal { to, left, right },
        Cmp::Less => Instr::LessEq {
            to,
            left: right,
            right: left,
        },
        Cmp::LessEq => Instr::Less {
            to,
            left: right,
            right: left,
        },
        Cmp::Greater => Instr::LessEq { to, left, right },
        Cmp::GreaterEq => Instr::Less { to, left, right },
    }
}
