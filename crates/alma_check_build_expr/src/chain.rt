// Sums and products: operators with their operands.
ghost use Rattle.std.specs.Prelude.{◌≡◌, true, false, is_some, Option, None, Some, option_map, option_and_then, IfOk};
ghost use Rattle.alma_ir.specs.Tree as ir;
ghost use Rattle.alma_ir.specs.View.{test_of, links_list, tests_list};
ghost use Rattle.alma_rules.specs.View.{terms_of, factors_of};
ghost use Rattle.alma_rules.specs.Judgement.{both_of, holds};
ghost use Rattle.alma_rules.specs.Parts as parts;
ghost use Rattle.alma_rules.specs.ExprRules as rules;
ghost use Rattle.alma_rules.specs.Nodes as nodes;
ghost use Rattle.alma_check_rules.specs.Views.{scene_of, typing_in, typing_of, meaning_view, operator_view, operand_view, operands_view, operands_in, operands_of, join_view, gather};
ghost use Rattle.alma_check_build_expr.specs.First.{first_of};

use crate::expression::{as_test, as_value, no_place};
use alma_base::{div_down, mod_down};
use alma_check_rules::{Behind, Env, Join, Meaning, Operand, Operator, Place, TypedExpr};
use alma_ir::{Expr, Link, Op, Test};
use alma_names::{BOOLEAN, INTEGER};
use alma_tree::{AddLink, AddOperator, MulLink, MulOperator, Sign};
use std::alloc::{AllocError, Global};

/// An operator of a sum.
pub fn add_operator(operator: AddOperator) -> Operator
    ensures { operator_view result ≡ parts.add_operator operator }
{
    match operator {
        AddOperator::Plus => Operator::Arithmetic(Op::Add),
        AddOperator::Minus => Operator::Arithmetic(Op::Sub),
        AddOperator::Or => Operator::Logical,
    }
}

/// An operator of a product.
pub fn mul_operator(operator: MulOperator) -> Operator
    ensures { operator_view result ≡ parts.mul_operator operator }
{
    match operator {
        MulOperator::Star => Operator::Arithmetic(Op::Mul),
        MulOperator::Div => Operator::Arithmetic(Op::Div),
        MulOperator::Mod => Operator::Arithmetic(Op::Mod),
        MulOperator::And => Operator::Logical,
    }
}

/// The place of an operand behind an operator.
pub fn behind(sort: bool, operator: Operator) -> Operand
    ensures { operand_view result ≡ nodes.operand_behind sort (operator_view operator) }
{
    Operand {
        signed: false,
        sort,
        operator: Some(operator),
    }
}

/// The place of the first operand of a sum.
pub fn first_add(sign: Option<Sign>, more: &[AddLink]) -> Operand
    ensures { operand_view result ≡ nodes.first_add sign (terms_of more.now) }
{
    match more.first() {
        None => Operand {
            signed: sign.is_some(),
            sort: false,
            operator: None,
        },
        Some(link) => {
            let operator = add_operator(link.operator);
            Operand {
                signed: sign.is_some(),
                sort: operator.is_logical(),
                operator: Some(operator),
            }
        }
    }
}

/// The place of the first operand of a product.
pub fn first_mul(more: &[MulLink]) -> Operand
    ensures { operand_view result ≡ nodes.first_mul (factors_of more.now) }
{
    match more.first() {
        None => Operand {
            signed: false,
            sort: false,
            operator: None,
        },
        Some(link) => {
            let operator = mul_operator(link.operator);
            behind(operator.is_logical(), operator)
        }
    }
}

/// One more operand, behind its operator; None where an operand is Bad.
pub fn with_operand(
    kept: Option<Vec<Behind>>,
    operator: Operator,
    typed: Option<TypedExpr>,
) -> Result<Option<Vec<Behind>>, AllocError>
    ensures { IfOk result (λ k. operands_in k ≡ gather (operator_view operator) (operands_in kept)
        (typing_in typed)) }
{
    match kept {
        None => Ok(None),
        Some(operands) => match typed {
            None => Ok(None),
            Some(operand) => {
                let mut operands = operands;
                operands.push(Behind { operator, operand })?;
                Ok(Some(operands))
            }
        },
    }
}

// ---- constants

// The value of an operation; None where it leaves INTEGER or divides by zero.
#[tactic(auto, using(crate::proofs::Numbers::tests, std::proofs::lemmas::Int::ints, std::proofs::lemmas::Grind::common_steps))]
fn apply_op(op: Op, left: i64, right: i64) -> Option<i64>
    ensures { result ≡ parts.apply_op op left right }
{
    match op {
        Op::Add => left.checked_add(right),
        Op::Sub => left.checked_sub(right),
        Op::Mul => left.checked_mul(right),
        Op::Div => {
            if right == 0 {
                return None;
            }
            div_down(left, right)
        }
        Op::Mod => {
            if right == 0 {
                return None;
            }
            Some(mod_down(left, right))
        }
    }
}

#[tactic(auto, using(std::proofs::lemmas::Int::ints, std::proofs::lemmas::Grind::common_steps))]
fn apply_sign(sign: Option<Sign>, value: Option<i64>) -> Option<i64>
    ensures { result ≡ option_and_then (parts.apply_sign sign) value }
{
    match value {
        None => None,
        Some(value) => match sign {
            Some(Sign::Minus) => value.checked_neg(),
            Some(Sign::Plus) | None => Some(value),
        },
    }
}

fn apply_operator(value: Option<i64>, behind: &Behind) -> Option<i64>
    ensures { result ≡ option_and_then (parts.apply_operator (operator_view behind.now.operator)
        (typing_of behind.now.operand)) value }
{
    match value {
        None => None,
        Some(left) => match behind.operator {
            Operator::Logical => None,
            Operator::Arithmetic(op) => match behind.operand.constant {
                None => None,
                Some(right) => apply_op(op, left, right),
            },
        },
    }
}

// The value of a sum or a product, from left to right.
fn folded(sign: Option<Sign>, first: &TypedExpr, rest: &[Behind]) -> Option<i64>
    ensures { result ≡ parts.chain_value sign (typing_of first.now, operands_view rest.now) }
{
    let mut value = apply_sign(sign, first.constant);
    for behind in rest {
        value = apply_operator(value, behind);
    }
    value
}

fn has_no_value(sign: Option<Sign>, first: &Option<TypedExpr>, rest: &Option<Vec<Behind>>) -> bool
    ensures { result ≡ holds (rules.has_no_value sign) (both_of (typing_in first.now)
        (operands_in rest.now)) }
{
    match first {
        None => false,
        Some(first) => match rest {
            None => false,
            Some(rest) => folded(sign, first, rest).is_none(),
        },
    }
}

/// Whether an arithmetic sum or product in a constant place overflows or divides by zero.
pub fn no_constant_sum(
    env: &Env,
    place: Place,
    sign: Option<Sign>,
    logical: bool,
    first: &Option<TypedExpr>,
    rest: &Option<Vec<Behind>>,
) -> bool
    ensures { result ≡ rules.no_constant_sum (scene_of env.now place) sign logical
        (both_of (typing_in first.now) (operands_in rest.now)) }
{
    place.constant && !logical && has_no_value(sign, first, rest)
}

// ---- what a sum or a product stands for

#[tactic(auto, using(crate::proofs::Chains::gathers, std::proofs::lemmas::Grind::common_steps))]
fn links(alloc: Global, rest: Vec<Behind>) -> Result<Vec<Link>, AllocError>
    ensures { IfOk result (λ v. links_list v.items ≡ parts.links_of (operands_of rest)) }
{
    let mut links: Vec<Link> = Vec::with_capacity(alloc, rest.len())?;
    for behind in rest {
        let Behind { operator, operand } = behind;
        match operator {
            Operator::Arithmetic(op) => {
                let operand = as_value(alloc, operand.meaning)?;
                links.push(Link { op, operand })?;
            }
            Operator::Logical => {}
        }
    }
    Ok(links)
}

#[tactic(auto, using(crate::proofs::Chains::gathers, std::proofs::lemmas::Grind::common_steps))]
fn tests(alloc: Global, first: Meaning, rest: Vec<Behind>) -> Result<Vec<Test>, AllocError>
    ensures { IfOk result (λ v. tests_list v.items ≡ ir.more_tests
        (parts.test_of (meaning_view first)) (parts.tests_of (operands_of rest))) }
{
    let mut tests: Vec<Test> = Vec::new(alloc);
    tests.push(as_test(first))?;
    for behind in rest {
        tests.push(as_test(behind.operand.meaning))?;
    }
    Ok(tests)
}

fn is_minus(sign: Option<Sign>) -> bool
    ensures { result ≡ parts.is_minus sign }
{
    match sign {
        Some(Sign::Minus) => true,
        Some(Sign::Plus) | None => false,
    }
}

fn arithmetic(
    alloc: Global,
    sign: Option<Sign>,
    first: Meaning,
    rest: Vec<Behind>,
) -> Result<Meaning, AllocError>
    ensures { IfOk result (λ m. meaning_view m ≡ parts.plain
        (ir.Chain (parts.is_minus sign) (parts.value_of (meaning_view first))
        (parts.links_of (operands_of rest)))) }
{
    let value = Box::new(alloc, as_value(alloc, first)?)?;
    let links = links(alloc, rest)?;
    Ok(Meaning::Plain(Expr::Chain(is_minus(sign), value, links)))
}

fn logical(
    alloc: Global,
    join: Join,
    first: Meaning,
    rest: Vec<Behind>,
) -> Result<Meaning, AllocError>
    ensures { IfOk result (λ m. meaning_view m ≡ parts.a_test
        (join_view join (ir.more_tests (parts.test_of (meaning_view first))
        (parts.tests_of (operands_of rest))))) }
{
    let tests = tests(alloc, first, rest)?;
    match join {
        Join::And => Ok(Meaning::Test(Test::And(tests))),
        Join::Or => Ok(Meaning::Test(Test::Or(tests))),
    }
}

fn first_operator(rest: &[Behind]) -> Option<Operator>
    ensures { option_map operator_view result ≡ first_of (operands_view rest.now) }
{
    match rest.first() {
        None => None,
        Some(behind) => Some(behind.operator),
    }
}

#[tactic(auto, using(crate::proofs::Chains::chains, std::proofs::lemmas::Grind::common_steps))]
fn chain_of(
    alloc: Global,
    join: Join,
    sign: Option<Sign>,
    first: TypedExpr,
    rest: Vec<Behind>,
) -> Result<Meaning, AllocError>
    ensures { IfOk result (λ m. meaning_view m ≡ parts.chain_of (join_view join) sign
        (typing_of first, operands_of rest)) }
{
    match first_operator(&rest) {
        None => match sign {
            None => Ok(first.meaning),
            Some(Sign::Plus) => Ok(no_place(first.meaning)),
            Some(Sign::Minus) => arithmetic(alloc, sign, first.meaning, rest),
        },
        Some(Operator::Arithmetic(_)) => arithmetic(alloc, sign, first.meaning, rest),
        Some(Operator::Logical) => logical(alloc, join, first.meaning, rest),
    }
}

// BOOLEAN behind AND and OR, and else INTEGER.
fn chain_shape(rest: &[Behind]) -> u32
    ensures { result ≡ parts.chain_shape (operands_view rest.now) }
{
    match first_operator(rest) {
        None | Some(Operator::Arithmetic(_)) => INTEGER,
        Some(Operator::Logical) => BOOLEAN,
    }
}

fn chained(
    alloc: Global,
    join: Join,
    sign: Option<Sign>,
    first: TypedExpr,
    rest: Vec<Behind>,
) -> Result<TypedExpr, AllocError>
    ensures { IfOk result (λ t. typing_of t ≡ parts.chain_typing (join_view join) sign
        (typing_of first, operands_of rest)) }
{
    let shape = chain_shape(&rest);
    let constant = folded(sign, &first, &rest);
    let meaning = chain_of(alloc, join, sign, first, rest)?;
    Ok(TypedExpr {
        shape,
        constant,
        meaning,
    })
}

/// A sum or a product with its operators.
pub fn chained_in(
    alloc: Global,
    join: Join,
    sign: Option<Sign>,
    first: Option<TypedExpr>,
    rest: Option<Vec<Behind>>,
) -> Result<Option<TypedExpr>, AllocError>
    ensures { IfOk result (λ t. typing_in t ≡ option_map (parts.chain_typing (join_view join) sign)
        (both_of (typing_in first) (operands_in rest))) }
{
    match first {
        None => Ok(None),
        Some(first) => match rest {
            None => Ok(None),
            Some(rest) => Ok(Some(chained(alloc, join, sign, first, rest)?)),
        },
    }
}

/// A sum or a product of one operand.
pub fn alone(first: Option<TypedExpr>, rest: Option<Vec<Behind>>) -> Option<TypedExpr>
    ensures { typing_in result ≡ option_map (λ p. p.0) (both_of (typing_in first)
        (operands_in rest)) }
{
    match rest {
        None => None,
        Some(_rest) => first,
    }
}

/// Whether one of the operators is OR.
pub fn any_or(more: &[AddLink]) -> bool
    ensures { result ≡ nodes.any_or (terms_of more.now) }
{
    for link in more {
        if add_operator(link.operator).is_logical() {
            return true;
        }
    }
    false
}

/// Whether one of the operators is AND.
pub fn any_and(more: &[MulLink]) -> bool
    ensures { result ≡ nodes.any_and (factors_of more.now) }
{
    for link in more {
        if mul_operator(link.operator).is_logical() {
            return true;
        }
    }
    false
}
