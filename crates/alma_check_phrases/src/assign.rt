// Assignments, conditions and tests.
ghost use Rattle.alma_ir.specs.View.{test_of};
ghost use Rattle.alma_rules.specs.Numbered as tree;
ghost use Rattle.alma_rules.specs.View as view;
ghost use Rattle.alma_rules.specs.Answers.{Answers};
ghost use Rattle.alma_rules.specs.Nodes as nodes;
ghost use Rattle.alma_rules.specs.Walk as walk;
ghost use Rattle.alma_check_rules.specs.Views.{scene_of, stmts_of};
ghost use Rattle.alma_check_phrases.specs.Inside.{JudgesStmts};

use crate::designator::check_desig;
use crate::expression::{StmtsJudged, check_expr};
use alma_check_join_stmt::{join_assign, join_condition, join_place, join_test};
use alma_check_rules::{Env, Place, Use};
use alma_ir::{Stmt as IrStmt, Test};
use alma_rules::Stop;
use alma_tree::{Desig, Expr, Stmts};
use std::alloc::Global;

/// An assignment.
pub fn check_assign<S>(
    alloc: Global,
    env: &Env,
    place: Place,
    slot: &mut u32,
    node: u32,
    target: &Desig,
    value: &Expr,
    inside: &S,
) -> Result<Option<Vec<IrStmt>>, Stop>
where
    S: Fn(Global, &Env, Place, &mut u32, &Stmts) -> StmtsJudged,
    requires judges { JudgesStmts (S.IsAlwaysCallable inside.now) (S.post inside.now) }
    ensures { Answers (walk.judge_stmt (scene_of env.now place) slot.old
        (tree.assign node (view.view_desig target.now) (view.view_expr value.now))) stmts_of
        slot.new result }
{
    let found = check_desig(alloc, env, place, slot, Use::Variable, target, inside);
    let located = join_place(env, found)?;
    let typed = check_expr(alloc, env, place, slot, value, inside);
    join_assign(alloc, env, node, located, typed)
}

/// A condition.
pub fn check_condition<S>(
    alloc: Global,
    env: &Env,
    place: Place,
    slot: &mut u32,
    test: &Expr,
    inside: &S,
) -> Result<Option<Test>, Stop>
where
    S: Fn(Global, &Env, Place, &mut u32, &Stmts) -> StmtsJudged,
    requires judges { JudgesStmts (S.IsAlwaysCallable inside.now) (S.post inside.now) }
    ensures { Answers (nodes.condition_at (scene_of env.now place) (view.view_expr test.now)
        (walk.judge_expr (scene_of env.now place) slot.old (view.view_expr test.now))) test_of
        slot.new result }
{
    let typed = check_expr(alloc, env, place, slot, test, inside);
    join_condition(env, test.node, typed)
}

/// An expression as a statement, which is a test.
pub fn check_value<S>(
    alloc: Global,
    env: &Env,
    place: Place,
    slot: &mut u32,
    node: u32,
    value: &Expr,
    inside: &S,
) -> Result<Option<Vec<IrStmt>>, Stop>
where
    S: Fn(Global, &Env, Place, &mut u32, &Stmts) -> StmtsJudged,
    requires judges { JudgesStmts (S.IsAlwaysCallable inside.now) (S.post inside.now) }
    ensures { Answers (walk.judge_stmt (scene_of env.now place) slot.old
        (tree.value node (view.view_expr value.now))) stmts_of slot.new result }
{
    let test = check_condition(alloc, env, place, slot, value, inside);
    join_test(alloc, test)
}
