// CASE, its arms and its labels, whose last part has been judged.
#![tactic(auto, using(alma_rules::proofs::Judging::judging, std::proofs::lemmas::Grind::common_steps))]

ghost use Rattle.std.specs.Prelude.{◌≡◌, ℕ, option_map, option_and_then};
ghost use Rattle.alma_ir.specs.Tree as ir;
ghost use Rattle.alma_ir.specs.View.{else_option};
ghost use Rattle.alma_rules.specs.Judgement.{Judgement, of_value, both, both_of, with};
ghost use Rattle.alma_rules.specs.Answers.{Answers};
ghost use Rattle.alma_rules.specs.Parts as parts;
ghost use Rattle.alma_rules.specs.Nodes as nodes;
ghost use Rattle.alma_check_rules.specs.Views.{scene_of, typing_in, typing_of, span_view, spans_view, spans_in, stmts_of, stmts_in, somewhere};
ghost use Rattle.alma_check_build_expr.specs.Lists.{cases_of, cases_in, else_in};
ghost use Rattle.alma_check_join_case.specs.JudgesArms.{JudgesArms};

use alma_check_build_stmt::{case_arm, case_stmt};
use alma_check_rules::{Env, Labels, Span, TypedExpr, pass_case, pass_label, span_of};
use alma_ir::{CaseArm, Stmt};
use alma_rules::Stop;
use std::alloc::Global;

/// A label of CASE, behind its upper end.
pub fn join_label(
    env: &Env,
    node: u32,
    case: &Option<TypedExpr>,
    earlier: &Labels,
    low: Option<TypedExpr>,
    high: Result<Option<TypedExpr>, Stop>,
) -> Result<Option<Span>, Stop>
    ensures { (j : Judgement parts.Typing) (n m : ℕ) → Answers j typing_of m high
        → Answers (nodes.label_at (scene_of env.now somewhere) (typing_in case.now) (spans_view
        earlier.now) node (of_value n (typing_in low)) j) span_view m result }
{
    let high = high?;
    pass_label(env, node, case, earlier, &low, &high)?;
    Ok(span_in(env, &low, &high))
}

/// A label of CASE with one end.
pub fn join_single(
    env: &Env,
    node: u32,
    case: &Option<TypedExpr>,
    earlier: &Labels,
    low: Result<Option<TypedExpr>, Stop>,
) -> Result<Option<Span>, Stop>
    ensures { (j : Judgement parts.Typing) (m : ℕ) → Answers j typing_of m low
        → Answers (nodes.label_at (scene_of env.now somewhere) (typing_in case.now) (spans_view
        earlier.now) node j (of_value j.next j.value)) span_view m result }
{
    let low = low?;
    pass_label(env, node, case, earlier, &low, &low)?;
    Ok(span_in(env, &low, &low))
}

/// An arm of CASE, behind its statements.
pub fn join_arm(
    alloc: Global,
    labels: Option<Vec<Span>>,
    body: Result<Option<Vec<Stmt>>, Stop>,
) -> Result<Option<Vec<CaseArm>>, Stop>
    ensures { (j : Judgement ir.Stmts) (n m : ℕ) → Answers j stmts_of m body
        → Answers (with nodes.arm_of (both (of_value n (spans_in labels)) j)) cases_of m result }
{
    let body = body?;
    let whole = case_arm(alloc, labels, body)?;
    Ok(whole)
}

/// The value of a CASE with its arms.
#[derive(Drop)]
pub struct CaseWithArms {
    pub typed: Option<TypedExpr>,
    pub arms: Option<Vec<CaseArm>>,
}

/// The value of a CASE, behind its arms.
pub fn join_arms(
    typed: Option<TypedExpr>,
    arms: Result<Option<Vec<CaseArm>>, Stop>,
) -> Result<CaseWithArms, Stop>
    ensures { (j : Judgement ir.CaseArms) (m : ℕ) → Answers j cases_of m arms
        → JudgesArms (typing_in typed) j m result }
{
    let arms = arms?;
    Ok(CaseWithArms { typed, arms })
}

/// The ELSE part of a CASE.
pub fn join_else(body: Result<Option<Vec<Stmt>>, Stop>) -> Result<Option<Option<Vec<Stmt>>>, Stop>
    ensures { (j : Judgement ir.Stmts) (m : ℕ) → Answers j stmts_of m body
        → Answers (with ir.else_part j) else_option m result }
{
    let body = body?;
    Ok(else_part(body))
}

fn else_part(body: Option<Vec<Stmt>>) -> Option<Option<Vec<Stmt>>>
    ensures { else_in result ≡ option_map ir.else_part (stmts_in body) }
{
    match body {
        None => None,
        Some(body) => Some(Some(body)),
    }
}

/// CASE, behind its ELSE part.
pub fn join_case(
    alloc: Global,
    env: &Env,
    node: u32,
    case: CaseWithArms,
    other: Result<Option<Option<Vec<Stmt>>>, Stop>,
) -> Result<Option<Vec<Stmt>>, Stop>
    ensures { (j : Judgement ir.Else) (n a m : ℕ) → Answers j else_option m other
        → Answers (nodes.one (nodes.case_at (scene_of env.now somewhere) node (of_value n (typing_in
        case.typed)) (of_value a (cases_in case.arms)) j)) stmts_of m result }
{
    let other = other?;
    pass_case(env, node, &case.typed)?;
    let whole = case_stmt(alloc, case.typed, case.arms, other)?;
    Ok(whole)
}

fn span_in(env: &Env, low: &Option<TypedExpr>, high: &Option<TypedExpr>) -> Option<Span>
    ensures { option_map span_view result ≡ option_and_then (parts.span_of (scene_of env.now
        somewhere)) (both_of (typing_in low.now) (typing_in high.now)) }
{
    match low {
        None => None,
        Some(low) => match high {
            None => None,
            Some(high) => span_of(env, low, high),
        },
    }
}
