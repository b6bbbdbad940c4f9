// EITHER, FORALL and COMMIT.
ghost use Rattle.alma_rules.specs.Numbered as tree;
ghost use Rattle.alma_rules.specs.View as view;
ghost use Rattle.alma_rules.specs.Answers.{Answers};
ghost use Rattle.alma_rules.specs.Walk as walk;
ghost use Rattle.alma_check_rules.specs.Views.{scene_of, stmts_of};
ghost use Rattle.alma_check_build_expr.specs.Lists.{branches_of, branches_in};
ghost use Rattle.alma_check_join_stmt.specs.Onward.{onward_branches};
ghost use Rattle.alma_check_phrases.specs.Inside.{JudgesStmts};

use crate::expression::StmtsJudged;
use crate::walk::nested;
use alma_check_join_stmt::{add_branch, join_commit, join_either, join_forall};
use alma_check_rules::{Env, Place};
use alma_ir::{Branch, Stmt as IrStmt};
use alma_rules::Stop;
use alma_tree::Stmts;
use std::alloc::Global;

/// EITHER.
pub fn check_either<S>(
    alloc: Global,
    env: &Env,
    place: Place,
    slot: &mut u32,
    node: u32,
    first: &Stmts,
    more: &[Stmts],
    inside: &S,
) -> Result<Option<Vec<IrStmt>>, Stop>
where
    S: Fn(Global, &Env, Place, &mut u32, &Stmts) -> StmtsJudged,
    requires judges { JudgesStmts (S.IsAlwaysCallable inside.now) (S.post inside.now) }
    ensures { Answers (walk.judge_stmt (scene_of env.now place) slot.old
        (tree.either_stmt node (view.view_stmts first.now) (view.orelses_of more.now))) stmts_of
        slot.new result }
{
    let first = nested(alloc, env, place, slot, first, inside);
    let branches = add_branch(Some(Vec::new(alloc)), first)?;
    let branches = check_orelses(alloc, env, place, slot, branches, more, inside);
    join_either(alloc, branches)
}

fn check_orelses<S>(
    alloc: Global,
    env: &Env,
    place: Place,
    slot: &mut u32,
    kept: Option<Vec<Branch>>,
    more: &[Stmts],
    inside: &S,
) -> Result<Option<Vec<Branch>>, Stop>
where
    S: Fn(Global, &Env, Place, &mut u32, &Stmts) -> StmtsJudged,
    requires judges { JudgesStmts (S.IsAlwaysCallable inside.now) (S.post inside.now) }
    ensures { Answers (onward_branches (branches_in kept)
        (walk.judge_orelses (scene_of env.now place) slot.old (view.orelses_of more.now)))
        branches_of slot.new result }
{
    let mut kept = kept;
    for body in more {
        let stmts = nested(alloc, env, place, slot, body, inside);
        kept = add_branch(kept, stmts)?;
    }
    Ok(kept)
}

/// FORALL.
pub fn check_forall<S>(
    alloc: Global,
    env: &Env,
    place: Place,
    slot: &mut u32,
    node: u32,
    choice: &Stmts,
    body: &Stmts,
    inside: &S,
) -> Result<Option<Vec<IrStmt>>, Stop>
where
    S: Fn(Global, &Env, Place, &mut u32, &Stmts) -> StmtsJudged,
    requires judges { JudgesStmts (S.IsAlwaysCallable inside.now) (S.post inside.now) }
    ensures { Answers (walk.judge_stmt (scene_of env.now place) slot.old
        (tree.forall_stmt node (view.view_stmts choice.now) (view.view_stmts body.now))) stmts_of
        slot.new result }
{
    let within = Place {
        constant: place.constant,
        inside: true,
    };
    let choice = nested(alloc, env, within, slot, choice, inside)?;
    let body = nested(alloc, env, within, slot, body, inside);
    join_forall(alloc, choice, body)
}

/// COMMIT.
pub fn check_commit<S>(
    alloc: Global,
    env: &Env,
    place: Place,
    slot: &mut u32,
    node: u32,
    body: &Stmts,
    inside: &S,
) -> Result<Option<Vec<IrStmt>>, Stop>
where
    S: Fn(Global, &Env, Place, &mut u32, &Stmts) -> StmtsJudged,
    requires judges { JudgesStmts (S.IsAlwaysCallable inside.now) (S.post inside.now) }
    ensures { Answers (walk.judge_stmt (scene_of env.now place) slot.old
        (tree.commit_stmt node (view.view_stmts body.now))) stmts_of slot.new result }
{
    let within = Place {
        constant: place.constant,
        inside: true,
    };
    let body = nested(alloc, env, within, slot, body, inside);
    join_commit(alloc, body)
}
