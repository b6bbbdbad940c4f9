// Sums and products behind all their operands.
ghost use Rattle.std.specs.Prelude.{◌≡◌, ℕ, Option, None, Some};
ghost use Rattle.alma_rules.specs.Judgement.{Judgement, of_value, both, both_of};
ghost use Rattle.alma_rules.specs.View.{terms_of, factors_of};
ghost use Rattle.alma_rules.specs.Answers.{Answers};
ghost use Rattle.alma_rules.specs.Parts as parts;
ghost use Rattle.alma_rules.specs.Nodes as nodes;
ghost use Rattle.alma_check_rules.specs.Views.{scene_of, typing_in, typing_of, operand_view, operands_in, operands_of, join_view};
ghost use Rattle.alma_check_join_expr.specs.Single.{one_term, one_factor};

use alma_base::CheckFault;
use alma_check_build_expr::{alone, any_and, any_or, chained_in, no_constant_sum};
use alma_check_rules::{Behind, Env, Join, Operand, Place, TypedExpr, pass_operand};
use alma_rules::Stop;
use alma_tree::{AddLink, MulLink, Sign};
use std::alloc::Global;

#[tactic(auto, using(crate::proofs::Chains::chains, alma_rules::proofs::Judging::judging, std::proofs::lemmas::Grind::common_steps))]
fn join_chain(
    alloc: Global,
    env: &Env,
    place: Place,
    join: Join,
    operand: Operand,
    node: u32,
    sign: Option<Sign>,
    logical: bool,
    first: Option<TypedExpr>,
    rest: Option<Vec<Behind>>,
) -> Result<Option<TypedExpr>, Stop>
    ensures { (m : ℕ) → Answers (nodes.chain_at (scene_of env.now place) (join_view join)
        (operand_view operand) node sign logical
        (of_value m (both_of (typing_in first) (operands_in rest)))) typing_of m result }
{
    if place.constant && logical {
        return Err(Stop::Fault(CheckFault::NotConst, node));
    }
    if no_constant_sum(env, place, sign, logical, &first, &rest) {
        pass_operand(env, node, operand, &None)?;
        return Err(Stop::Fault(CheckFault::ConstRange, node));
    }
    let whole = chained_in(alloc, join, sign, first, rest)?;
    pass_operand(env, node, operand, &whole)?;
    Ok(whole)
}

/// Whether a sum has neither sign nor operators.
pub fn is_one_term(sign: Option<Sign>, more: &[AddLink]) -> bool
    ensures { result ≡ one_term sign (terms_of more.now) }
{
    match sign {
        None => more.first().is_none(),
        Some(_sign) => false,
    }
}

/// A sum behind all its operands, or its only term.
pub fn join_sum(
    alloc: Global,
    env: &Env,
    place: Place,
    node: u32,
    sign: Option<Sign>,
    more: &[AddLink],
    first: Option<TypedExpr>,
    rest: Result<Option<Vec<Behind>>, Stop>,
) -> Result<Option<TypedExpr>, Stop>
    ensures { (j : Judgement parts.Operands) (n m : ℕ) → Answers j operands_of m rest
        → Answers (nodes.sum_at (scene_of env.now place) node sign (terms_of more.now)
        (both (of_value n (typing_in first)) j)) typing_of m result }
{
    let rest = rest?;
    if is_one_term(sign, more) {
        return Ok(alone(first, rest));
    }
    let operand = Operand {
        signed: false,
        sort: false,
        operator: None,
    };
    join_chain(
        alloc,
        env,
        place,
        Join::Or,
        operand,
        node,
        sign,
        any_or(more),
        first,
        rest,
    )
}

/// Whether a product has no operators.
pub fn is_one_factor(more: &[MulLink]) -> bool
    ensures { result ≡ one_factor (factors_of more.now) }
{
    more.first().is_none()
}

/// A product behind all its operands, or its only factor.
pub fn join_product(
    alloc: Global,
    env: &Env,
    place: Place,
    operand: Operand,
    node: u32,
    more: &[MulLink],
    first: Option<TypedExpr>,
    rest: Result<Option<Vec<Behind>>, Stop>,
) -> Result<Option<TypedExpr>, Stop>
    ensures { (j : Judgement parts.Operands) (n m : ℕ) → Answers j operands_of m rest
        → Answers (nodes.product_at (scene_of env.now place) (operand_view operand) node
        (factors_of more.now) (both (of_value n (typing_in first)) j)) typing_of m result }
{
    let rest = rest?;
    if is_one_factor(more) {
        let typed = alone(first, rest);
        pass_operand(env, node, operand, &typed)?;
        return Ok(typed);
    }
    join_chain(
        alloc,
        env,
        place,
        Join::And,
        operand,
        node,
        None,
        any_and(more),
        first,
        rest,
    )
}
