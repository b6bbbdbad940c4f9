// CASE.
ghost use Rattle.std.specs.Prelude.{◌≡◌, ◌++◌, OnOk, IfOk};
ghost use Rattle.alma_ir.specs.View.{else_option};
ghost use Rattle.alma_rules.specs.Numbered as tree;
ghost use Rattle.alma_rules.specs.View as view;
ghost use Rattle.alma_rules.specs.Answers.{Answers};
ghost use Rattle.alma_rules.specs.Walk as walk;
ghost use Rattle.alma_check_rules.specs.Views.{scene_of, typing_in, stmts_of, span_view, spans_view, spans_of, spans_in};
ghost use Rattle.alma_check_build_expr.specs.Lists.{arms_of, cases_of};
ghost use Rattle.alma_rules.specs.Arms.{arms_judged, labels_judged};
ghost use Rattle.alma_check_join_stmt.specs.Noted.{GrowsBy};
ghost use Rattle.alma_check_phrases.specs.Inside.{JudgesStmts};

use crate::expression::{StmtsJudged, check_expr};
use crate::walk::nested;
use alma_check_join_case::{join_arm, join_arms, join_case, join_else, join_label, join_single};
use alma_check_join_stmt::{add_cases, add_label, settle};
use alma_check_rules::{Env, Labels, Place, Span, TypedExpr};
use alma_ir::{CaseArm, Stmt as IrStmt};
use alma_rules::Stop;
use alma_tree::{Arm, Expr, Label, Stmts};
use std::alloc::Global;

/// CASE.
pub fn check_case<S>(
    alloc: Global,
    env: &Env,
    place: Place,
    slot: &mut u32,
    node: u32,
    value: &Expr,
    first: &Arm,
    more: &[Arm],
    otherwise: &Option<Stmts>,
    inside: &S,
) -> Result<Option<Vec<IrStmt>>, Stop>
where
    S: Fn(Global, &Env, Place, &mut u32, &Stmts) -> StmtsJudged,
    requires judges { JudgesStmts (S.IsAlwaysCallable inside.now) (S.post inside.now) }
    ensures { Answers (walk.judge_stmt (scene_of env.now place) slot.old
        (tree.case_stmt node (view.view_expr value.now) (view.view_arm first.now)
        (view.arms_of more.now) (view.else_of otherwise.now))) stmts_of slot.new result }
{
    let typed = check_expr(alloc, env, place, slot, value, inside)?;
    let arms = check_arms(alloc, env, place, slot, &typed, first, more, inside);
    let case = join_arms(typed, arms)?;
    let other = check_case_else(alloc, env, place, slot, otherwise, inside);
    join_case(alloc, env, node, case, other)
}

fn check_arms<S>(
    alloc: Global,
    env: &Env,
    place: Place,
    slot: &mut u32,
    case: &Option<TypedExpr>,
    first: &Arm,
    more: &[Arm],
    inside: &S,
) -> Result<Option<Vec<CaseArm>>, Stop>
where
    S: Fn(Global, &Env, Place, &mut u32, &Stmts) -> StmtsJudged,
    requires judges { JudgesStmts (S.IsAlwaysCallable inside.now) (S.post inside.now) }
    ensures { Answers (arms_judged (scene_of env.now place) slot.old (typing_in case.now)
        (view.view_arm first.now) (view.arms_of more.now)) cases_of slot.new result }
{
    let mut spans = Labels::new(alloc);
    let mut arms = check_arm(alloc, env, place, slot, case, &mut spans, first, inside)?;
    for arm in more {
        let next = check_arm(alloc, env, place, slot, case, &mut spans, arm, inside);
        arms = add_cases(arms, next)?;
    }
    Ok(arms)
}

fn check_arm<S>(
    alloc: Global,
    env: &Env,
    place: Place,
    slot: &mut u32,
    case: &Option<TypedExpr>,
    spans: &mut Labels,
    arm: &Arm,
    inside: &S,
) -> Result<Option<Vec<CaseArm>>, Stop>
where
    S: Fn(Global, &Env, Place, &mut u32, &Stmts) -> StmtsJudged,
    requires judges { JudgesStmts (S.IsAlwaysCallable inside.now) (S.post inside.now) }
    ensures judged { Answers (walk.judge_arm (scene_of env.now place) slot.old (typing_in case.now)
        (spans_view spans.old) (view.view_arm arm.now)).arm cases_of slot.new result }
    ensures spans { OnOk result (spans_view spans.new
        ≡ spans_view spans.old ++ (walk.judge_arm (scene_of env.now place) slot.old
        (typing_in case.now) (spans_view spans.old) (view.view_arm arm.now)).spans) }
{
    match arm {
        Arm::Empty { .. } => Ok(Some(Vec::new(alloc))),
        Arm::Labelled {
            node: _,
            first,
            more,
            body,
        } => {
            let before = spans.len();
            let labels = check_labels(alloc, env, place, slot, case, spans, first, more, inside)?;
            settle(spans, before, &labels);
            let body = nested(alloc, env, place, slot, body, inside);
            join_arm(alloc, labels, body)
        }
    }
}

fn check_case_else<S>(
    alloc: Global,
    env: &Env,
    place: Place,
    slot: &mut u32,
    otherwise: &Option<Stmts>,
    inside: &S,
) -> Result<Option<Option<Vec<IrStmt>>>, Stop>
where
    S: Fn(Global, &Env, Place, &mut u32, &Stmts) -> StmtsJudged,
    requires judges { JudgesStmts (S.IsAlwaysCallable inside.now) (S.post inside.now) }
    ensures { Answers (walk.judge_case_else (scene_of env.now place) slot.old
        (view.else_of otherwise.now)) else_option slot.new result }
{
    match otherwise {
        None => Ok(Some(None)),
        Some(body) => {
            let stmts = nested(alloc, env, place, slot, body, inside);
            join_else(stmts)
        }
    }
}

fn check_labels<S>(
    alloc: Global,
    env: &Env,
    place: Place,
    slot: &mut u32,
    case: &Option<TypedExpr>,
    spans: &mut Labels,
    first: &Label,
    more: &[Label],
    inside: &S,
) -> Result<Option<Vec<Span>>, Stop>
where
    S: Fn(Global, &Env, Place, &mut u32, &Stmts) -> StmtsJudged,
    requires judges { JudgesStmts (S.IsAlwaysCallable inside.now) (S.post inside.now) }
    ensures judged { Answers (labels_judged (scene_of env.now place) slot.old (typing_in case.now)
        (spans_view spans.old) (view.view_label first.now) (view.labels_of more.now)) spans_of
        slot.new result }
    ensures spans { IfOk result (λ v. GrowsBy (spans_view spans.old) (spans_in v)
        (spans_view spans.new)) }
{
    let span = check_label(alloc, env, place, slot, case, spans, first, inside);
    let mut labels = add_label(Some(Vec::new(alloc)), spans, span)?;
    for label in more {
        let span = check_label(alloc, env, place, slot, case, spans, label, inside);
        labels = add_label(labels, spans, span)?;
    }
    Ok(labels)
}

fn check_label<S>(
    alloc: Global,
    env: &Env,
    place: Place,
    slot: &mut u32,
    case: &Option<TypedExpr>,
    spans: &Labels,
    label: &Label,
    inside: &S,
) -> Result<Option<Span>, Stop>
where
    S: Fn(Global, &Env, Place, &mut u32, &Stmts) -> StmtsJudged,
    requires judges { JudgesStmts (S.IsAlwaysCallable inside.now) (S.post inside.now) }
    ensures { Answers (walk.judge_label (scene_of env.now place) slot.old (typing_in case.now)
        (spans_view spans.now) (view.view_label label.now)) span_view slot.new result }
{
    let within = Place {
        constant: true,
        inside: place.inside,
    };
    match &label.high {
        None => {
            let low = check_expr(alloc, env, within, slot, &label.low, inside);
            join_single(env, label.node, case, spans, low)
        }
        Some(high) => {
            let low = check_expr(alloc, env, within, slot, &label.low, inside)?;
            let high = check_expr(alloc, env, within, slot, high, inside);
            join_label(env, label.node, case, spans, low, high)
        }
    }
}
