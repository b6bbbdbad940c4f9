// Expressions: relations, sums, products, factors and primaries.
ghost use Rattle.std.specs.Prelude.{◌≡◌};
ghost use Rattle.alma_rules.specs.Numbered as tree;
ghost use Rattle.alma_rules.specs.View.{view_expr, view_simple, view_term, view_factor, view_primary, terms_of, factors_of};
ghost use Rattle.alma_rules.specs.Answers.{Answers};
ghost use Rattle.alma_rules.specs.Walk.{judge_expr, judge_simple, judge_terms, judge_term, judge_factors, judge_factor, judge_primary};
ghost use Rattle.alma_check_rules.specs.Views.{scene_of, typing_of, operand_view, operands_of};
ghost use Rattle.alma_check_phrases.specs.Inside.{JudgesStmts};

use crate::call::check_named;
use crate::designator::check_desig;
use crate::parens::check_parens;
use alma_check_build_expr::{add_operator, behind, first_add, first_mul, mul_operator};
use alma_check_join_expr::{
    check_literal, check_number, join_chr, join_factor, join_known, join_not, join_ord,
    join_product, join_relation, join_sum,
};
use alma_check_join_stmt::add_operand;
use alma_check_rules::{Behind, Env, Operand, Place, TypedExpr, Use};
use alma_ir::Stmt as IrStmt;
use alma_rules::Stop;
use alma_tree::{AddLink, Expr, Factor, MulLink, Primary, Simple, Stmts, Term};
use std::alloc::Global;

/// What judging the statements inside a parenthesis gives.
pub type StmtsJudged = Result<Option<Vec<IrStmt>>, Stop>;

/// An expression.
#[cycle(values)]
pub fn check_expr<S>(
    alloc: Global,
    env: &Env,
    place: Place,
    slot: &mut u32,
    expr: &Expr,
    inside: &S,
) -> Result<Option<TypedExpr>, Stop>
where
    S: Fn(Global, &Env, Place, &mut u32, &Stmts) -> StmtsJudged,
    requires judges { JudgesStmts (S.IsAlwaysCallable inside.now) (S.post inside.now) }
    ensures { Answers (judge_expr (scene_of env.now place) slot.old (view_expr expr.now)) typing_of
        slot.new result }
{
    let left = check_simple(alloc, env, place, slot, &expr.left, inside)?;
    match &expr.right {
        None => Ok(left),
        Some(compared) => {
            let right = check_simple(alloc, env, place, slot, &compared.right, inside);
            join_relation(alloc, env, place, expr.node, compared.relation, left, right)
        }
    }
}

#[cycle(values)]
fn check_simple<S>(
    alloc: Global,
    env: &Env,
    place: Place,
    slot: &mut u32,
    simple: &Simple,
    inside: &S,
) -> Result<Option<TypedExpr>, Stop>
where
    S: Fn(Global, &Env, Place, &mut u32, &Stmts) -> StmtsJudged,
    requires judges { JudgesStmts (S.IsAlwaysCallable inside.now) (S.post inside.now) }
    ensures { Answers (judge_simple (scene_of env.now place) slot.old (view_simple simple.now))
        typing_of slot.new result }
{
    let operand = first_add(simple.sign, &simple.more);
    let first = check_term(alloc, env, place, slot, operand, &simple.first, inside)?;
    let rest = check_terms(alloc, env, place, slot, operand.sort, &simple.more, inside);
    join_sum(
        alloc,
        env,
        place,
        simple.node,
        simple.sign,
        &simple.more,
        first,
        rest,
    )
}

#[cycle(values)]
fn check_terms<S>(
    alloc: Global,
    env: &Env,
    place: Place,
    slot: &mut u32,
    sort: bool,
    more: &[AddLink],
    inside: &S,
) -> Result<Option<Vec<Behind>>, Stop>
where
    S: Fn(Global, &Env, Place, &mut u32, &Stmts) -> StmtsJudged,
    requires judges { JudgesStmts (S.IsAlwaysCallable inside.now) (S.post inside.now) }
    ensures { Answers (judge_terms (scene_of env.now place) slot.old sort (terms_of more.now))
        operands_of slot.new result }
{
    let mut kept: Option<Vec<Behind>> = Some(Vec::new(alloc));
    for link in more {
        let operator = add_operator(link.operator);
        let operand = behind(sort, operator);
        let typed = check_term(alloc, env, place, slot, operand, &link.operand, inside);
        kept = add_operand(kept, operator, typed)?;
    }
    Ok(kept)
}

#[cycle(values)]
fn check_term<S>(
    alloc: Global,
    env: &Env,
    place: Place,
    slot: &mut u32,
    operand: Operand,
    term: &Term,
    inside: &S,
) -> Result<Option<TypedExpr>, Stop>
where
    S: Fn(Global, &Env, Place, &mut u32, &Stmts) -> StmtsJudged,
    requires judges { JudgesStmts (S.IsAlwaysCallable inside.now) (S.post inside.now) }
    ensures { Answers (judge_term (scene_of env.now place) slot.old (operand_view operand)
        (view_term term.now)) typing_of slot.new result }
{
    let inner = first_mul(&term.more);
    let first = check_factor(alloc, env, place, slot, inner, &term.first, inside)?;
    let rest = check_factors(alloc, env, place, slot, inner.sort, &term.more, inside);
    join_product(
        alloc, env, place, operand, term.node, &term.more, first, rest,
    )
}

#[cycle(values)]
fn check_factors<S>(
    alloc: Global,
    env: &Env,
    place: Place,
    slot: &mut u32,
    sort: bool,
    more: &[MulLink],
    inside: &S,
) -> Result<Option<Vec<Behind>>, Stop>
where
    S: Fn(Global, &Env, Place, &mut u32, &Stmts) -> StmtsJudged,
    requires judges { JudgesStmts (S.IsAlwaysCallable inside.now) (S.post inside.now) }
    ensures { Answers (judge_factors (scene_of env.now place) slot.old sort (factors_of more.now))
        operands_of slot.new result }
{
    let mut kept: Option<Vec<Behind>> = Some(Vec::new(alloc));
    for link in more {
        let operator = mul_operator(link.operator);
        let operand = behind(sort, operator);
        let typed = check_factor(alloc, env, place, slot, operand, &link.operand, inside);
        kept = add_operand(kept, operator, typed)?;
    }
    Ok(kept)
}

#[cycle(values)]
fn check_factor<S>(
    alloc: Global,
    env: &Env,
    place: Place,
    slot: &mut u32,
    operand: Operand,
    factor: &Factor,
    inside: &S,
) -> Result<Option<TypedExpr>, Stop>
where
    S: Fn(Global, &Env, Place, &mut u32, &Stmts) -> StmtsJudged,
    requires judges { JudgesStmts (S.IsAlwaysCallable inside.now) (S.post inside.now) }
    ensures { Answers (judge_factor (scene_of env.now place) slot.old (operand_view operand)
        (view_factor factor.now)) typing_of slot.new result }
{
    match factor {
        Factor::Not { node, primary } => {
            let within = Place {
                constant: place.constant,
                inside: true,
            };
            let inner = primary_number(primary);
            let typed = check_primary(alloc, env, within, slot, primary, inside);
            join_not(alloc, env, place, *node, inner, operand, typed)
        }
        Factor::Plain { node, primary } => {
            let typed = check_primary(alloc, env, place, slot, primary, inside);
            join_factor(env, *node, operand, typed)
        }
    }
}

fn primary_number(primary: &Primary) -> u32
    ensures { result ≡ tree.primary_node (view_primary primary.now) }
{
    match primary {
        Primary::Number { node, .. } | Primary::Literal { node, .. } => *node,
        Primary::Desig { node, .. } | Primary::Paren { node, .. } => *node,
        Primary::Known { node, .. } => *node,
        Primary::Ord { node, .. } | Primary::Chr { node, .. } => *node,
    }
}

#[cycle(values)]
fn check_primary<S>(
    alloc: Global,
    env: &Env,
    place: Place,
    slot: &mut u32,
    primary: &Primary,
    inside: &S,
) -> Result<Option<TypedExpr>, Stop>
where
    S: Fn(Global, &Env, Place, &mut u32, &Stmts) -> StmtsJudged,
    requires judges { JudgesStmts (S.IsAlwaysCallable inside.now) (S.post inside.now) }
    ensures { Answers (judge_primary (scene_of env.now place) slot.old (view_primary primary.now))
        typing_of slot.new result }
{
    match primary {
        Primary::Number { node: _, number } => check_number(env, number.token),
        Primary::Literal { node, literal } => check_literal(env, place, *node, literal.token),
        Primary::Desig { node, desig, args } => {
            check_named(alloc, env, place, slot, *node, desig, args, inside)
        }
        Primary::Paren { node, body } => check_parens(alloc, env, place, slot, *node, body, inside),
        Primary::Known { node, desig } => {
            let found = check_desig(alloc, env, place, slot, Use::Variable, desig, inside);
            join_known(env, place, *node, found)
        }
        Primary::Ord { node, value } => {
            let typed = check_expr(alloc, env, place, slot, value, inside);
            join_ord(alloc, env, *node, typed)
        }
        Primary::Chr { node, value } => {
            let typed = check_expr(alloc, env, place, slot, value, inside);
            join_chr(alloc, env, place, *node, typed)
        }
    }
}
