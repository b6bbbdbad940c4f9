// IF, WHILE and REPEAT.
ghost use Rattle.alma_rules.specs.Numbered as tree;
ghost use Rattle.alma_rules.specs.View as view;
ghost use Rattle.alma_rules.specs.Judgement.{and_then};
ghost use Rattle.alma_rules.specs.Answers.{Answers};
ghost use Rattle.alma_rules.specs.Nodes as nodes;
ghost use Rattle.alma_rules.specs.Walk as walk;
ghost use Rattle.alma_check_rules.specs.Views.{scene_of, stmts_of};
ghost use Rattle.alma_check_build_expr.specs.Lists.{guarded_of, arms_of, arms_in};
ghost use Rattle.alma_check_join_stmt.specs.Onward.{onward_arms};
ghost use Rattle.alma_check_phrases.specs.Inside.{JudgesStmts};

use crate::assign::check_condition;
use crate::expression::StmtsJudged;
use crate::walk::nested;
use alma_check_build_stmt::nothing;
use alma_check_join_stmt::{add_guarded, join_guarded, join_if, join_repeat, join_while};
use alma_check_rules::{Env, Place};
use alma_ir::{Arm, Stmt as IrStmt};
use alma_rules::Stop;
use alma_tree::{Elsif, Expr, Stmts};
use std::alloc::Global;

/// IF.
pub fn check_if<S>(
    alloc: Global,
    env: &Env,
    place: Place,
    slot: &mut u32,
    node: u32,
    test: &Expr,
    then: &Stmts,
    elsifs: &[Elsif],
    otherwise: &Option<Stmts>,
    inside: &S,
) -> Result<Option<Vec<IrStmt>>, Stop>
where
    S: Fn(Global, &Env, Place, &mut u32, &Stmts) -> StmtsJudged,
    requires judges { JudgesStmts (S.IsAlwaysCallable inside.now) (S.post inside.now) }
    ensures { Answers (walk.judge_stmt (scene_of env.now place) slot.old
        (tree.if_stmt node (view.view_expr test.now) (view.view_stmts then.now)
        (view.elsifs_of elsifs.now) (view.else_of otherwise.now))) stmts_of slot.new result }
{
    let first = check_guarded(alloc, env, place, slot, test, then, inside);
    let arms = add_guarded(Some(Vec::new(alloc)), first)?;
    let arms = check_elsifs(alloc, env, place, slot, arms, elsifs, inside)?;
    let other = check_else(alloc, env, place, slot, otherwise, inside);
    join_if(alloc, arms, other)
}

fn check_guarded<S>(
    alloc: Global,
    env: &Env,
    place: Place,
    slot: &mut u32,
    test: &Expr,
    then: &Stmts,
    inside: &S,
) -> Result<Option<Arm>, Stop>
where
    S: Fn(Global, &Env, Place, &mut u32, &Stmts) -> StmtsJudged,
    requires judges { JudgesStmts (S.IsAlwaysCallable inside.now) (S.post inside.now) }
    ensures { Answers (and_then (nodes.condition_at (scene_of env.now place)
        (view.view_expr test.now) (walk.judge_expr (scene_of env.now place) slot.old
        (view.view_expr test.now))) (λ m. walk.judge_stmts (scene_of env.now place) m
        (view.view_stmts then.now))) guarded_of slot.new result }
{
    let test = check_condition(alloc, env, place, slot, test, inside)?;
    let body = nested(alloc, env, place, slot, then, inside);
    join_guarded(test, body)
}

fn check_elsifs<S>(
    alloc: Global,
    env: &Env,
    place: Place,
    slot: &mut u32,
    kept: Option<Vec<Arm>>,
    elsifs: &[Elsif],
    inside: &S,
) -> Result<Option<Vec<Arm>>, Stop>
where
    S: Fn(Global, &Env, Place, &mut u32, &Stmts) -> StmtsJudged,
    requires judges { JudgesStmts (S.IsAlwaysCallable inside.now) (S.post inside.now) }
    ensures { Answers (onward_arms (arms_in kept)
        (walk.judge_elsifs (scene_of env.now place) slot.old (view.elsifs_of elsifs.now))) arms_of
        slot.new result }
{
    let mut kept = kept;
    for elsif in elsifs {
        let arm = check_guarded(alloc, env, place, slot, &elsif.test, &elsif.then, inside);
        kept = add_guarded(kept, arm)?;
    }
    Ok(kept)
}

fn check_else<S>(
    alloc: Global,
    env: &Env,
    place: Place,
    slot: &mut u32,
    otherwise: &Option<Stmts>,
    inside: &S,
) -> Result<Option<Vec<IrStmt>>, Stop>
where
    S: Fn(Global, &Env, Place, &mut u32, &Stmts) -> StmtsJudged,
    requires judges { JudgesStmts (S.IsAlwaysCallable inside.now) (S.post inside.now) }
    ensures { Answers (walk.judge_else (scene_of env.now place) slot.old
        (view.else_of otherwise.now)) stmts_of slot.new result }
{
    match otherwise {
        None => Ok(nothing(alloc)),
        Some(body) => nested(alloc, env, place, slot, body, inside),
    }
}

/// WHILE.
pub fn check_while<S>(
    alloc: Global,
    env: &Env,
    place: Place,
    slot: &mut u32,
    node: u32,
    test: &Expr,
    body: &Stmts,
    inside: &S,
) -> Result<Option<Vec<IrStmt>>, Stop>
where
    S: Fn(Global, &Env, Place, &mut u32, &Stmts) -> StmtsJudged,
    requires judges { JudgesStmts (S.IsAlwaysCallable inside.now) (S.post inside.now) }
    ensures { Answers (walk.judge_stmt (scene_of env.now place) slot.old
        (tree.while_stmt node (view.view_expr test.now) (view.view_stmts body.now))) stmts_of
        slot.new result }
{
    let test = check_condition(alloc, env, place, slot, test, inside)?;
    let body = nested(alloc, env, place, slot, body, inside);
    join_while(alloc, test, body)
}

/// REPEAT.
pub fn check_repeat<S>(
    alloc: Global,
    env: &Env,
    place: Place,
    slot: &mut u32,
    node: u32,
    body: &Stmts,
    test: &Expr,
    inside: &S,
) -> Result<Option<Vec<IrStmt>>, Stop>
where
    S: Fn(Global, &Env, Place, &mut u32, &Stmts) -> StmtsJudged,
    requires judges { JudgesStmts (S.IsAlwaysCallable inside.now) (S.post inside.now) }
    ensures { Answers (walk.judge_stmt (scene_of env.now place) slot.old
        (tree.repeat_stmt node (view.view_stmts body.now) (view.view_expr test.now))) stmts_of
        slot.new result }
{
    let body = nested(alloc, env, place, slot, body, inside)?;
    let test = check_condition(alloc, env, place, slot, test, inside);
    join_repeat(alloc, body, test)
}
