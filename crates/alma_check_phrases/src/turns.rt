// FOR and SOME.
ghost use Rattle.std.specs.Prelude.{◌+◌, ◌<◌, ◌^◌, IfOk};
ghost use Rattle.alma_rules.specs.Numbered as tree;
ghost use Rattle.alma_rules.specs.View as view;
ghost use Rattle.alma_rules.specs.Answers.{Answers};
ghost use Rattle.alma_rules.specs.Walk as walk;
ghost use Rattle.alma_check_rules.specs.Views.{scene_of, stmts_of};
ghost use Rattle.alma_check_join_stmt.specs.Bounded.{JudgesHead};
ghost use Rattle.alma_check_phrases.specs.Inside.{JudgesStmts};

use crate::expression::{StmtsJudged, check_expr};
use crate::walk::nested;
use alma_check_join_stmt::{Head, join_by, join_for, join_head, join_some, join_step, start_loop};
use alma_check_rules::{Env, Place};
use alma_ir::Stmt as IrStmt;
use alma_rules::Stop;
use alma_tree::{Expr, Name, Stmts};
use std::alloc::Global;

// The head of FOR and of SOME.
fn check_head<S>(
    alloc: Global,
    env: &Env,
    place: Place,
    slot: &mut u32,
    variable: &Name,
    from: &Expr,
    to: &Expr,
    inside: &S,
) -> Result<Head, Stop>
where
    S: Fn(Global, &Env, Place, &mut u32, &Stmts) -> StmtsJudged,
    requires judges { JudgesStmts (S.IsAlwaysCallable inside.now) (S.post inside.now) }
    ensures judged { JudgesHead env.now place (view.view_name variable.now)
        (view.view_expr from.now)
        (view.view_expr to.now) slot.old slot.new result }
    ensures limit { IfOk result (λ h. h.counter + 1 < 2 ^ 32) }
{
    let start = start_loop(env, place, slot, variable)?;
    let low = check_expr(alloc, env, place, slot, from, inside)?;
    let high = check_expr(alloc, env, place, slot, to, inside);
    join_head(start, low, high)
}

/// FOR.
pub fn check_for<S>(
    alloc: Global,
    env: &Env,
    place: Place,
    slot: &mut u32,
    node: u32,
    variable: &Name,
    from: &Expr,
    to: &Expr,
    by: &Option<Expr>,
    body: &Stmts,
    inside: &S,
) -> Result<Option<Vec<IrStmt>>, Stop>
where
    S: Fn(Global, &Env, Place, &mut u32, &Stmts) -> StmtsJudged,
    requires judges { JudgesStmts (S.IsAlwaysCallable inside.now) (S.post inside.now) }
    ensures { Answers (walk.judge_stmt (scene_of env.now place) slot.old
        (tree.for_stmt node (view.view_name variable.now) (view.view_expr from.now)
        (view.view_expr to.now) (view.by_of by.now) (view.view_stmts body.now))) stmts_of
        slot.new result }
{
    let head = check_head(alloc, env, place, slot, variable, from, to, inside)?;
    let step = check_by(alloc, env, place, slot, by, inside);
    let turns = join_by(head.bounds, step)?;
    let body = nested(alloc, env, place, slot, body, inside);
    join_for(alloc, env, head.counter, node, head.found, turns, body)
}

fn check_by<S>(
    alloc: Global,
    env: &Env,
    place: Place,
    slot: &mut u32,
    by: &Option<Expr>,
    inside: &S,
) -> Result<Option<i64>, Stop>
where
    S: Fn(Global, &Env, Place, &mut u32, &Stmts) -> StmtsJudged,
    requires judges { JudgesStmts (S.IsAlwaysCallable inside.now) (S.post inside.now) }
    ensures { Answers (walk.judge_by (scene_of env.now place) slot.old (view.by_of by.now))
        (λ v. v) slot.new result }
{
    match by {
        None => Ok(Some(1)),
        Some(by) => {
            let within = Place {
                constant: true,
                inside: place.inside,
            };
            let typed = check_expr(alloc, env, within, slot, by, inside);
            join_step(env, by.node, typed)
        }
    }
}

/// SOME.
pub fn check_some<S>(
    alloc: Global,
    env: &Env,
    place: Place,
    slot: &mut u32,
    node: u32,
    variable: &Name,
    from: &Expr,
    to: &Expr,
    body: &Stmts,
    inside: &S,
) -> Result<Option<Vec<IrStmt>>, Stop>
where
    S: Fn(Global, &Env, Place, &mut u32, &Stmts) -> StmtsJudged,
    requires judges { JudgesStmts (S.IsAlwaysCallable inside.now) (S.post inside.now) }
    ensures { Answers (walk.judge_stmt (scene_of env.now place) slot.old
        (tree.some_stmt node (view.view_name variable.now) (view.view_expr from.now)
        (view.view_expr to.now) (view.view_stmts body.now))) stmts_of slot.new result }
{
    let head = check_head(alloc, env, place, slot, variable, from, to, inside)?;
    let body = nested(alloc, env, place, slot, body, inside);
    join_some(
        alloc,
        env,
        head.counter,
        node,
        head.found,
        head.bounds,
        body,
    )
}
