// The recursion: statements hold statements, and so does a parenthesis of an expression.
ghost use Rattle.alma_rules.specs.View as view;
ghost use Rattle.alma_rules.specs.View.{view_expr};
ghost use Rattle.alma_rules.specs.Answers.{Answers};
ghost use Rattle.alma_rules.specs.Walk as walk;
ghost use Rattle.alma_rules.specs.Walk.{judge_expr};
ghost use Rattle.alma_check_rules.specs.Views.{scene_of, stmts_of, typing_of};
ghost use Rattle.alma_check_phrases.specs.Inside.{JudgesAt, JudgesStmts};

use crate::expression::StmtsJudged;
use crate::sequence::statements;
use alma_check_rules::{Env, Place, TypedExpr};
use alma_ir::Stmt as IrStmt;
use alma_rules::Stop;
use alma_tree::{Expr, Stmts};
use std::alloc::Global;

/// An expression.
pub fn check_expr(
    alloc: Global,
    env: &Env,
    place: Place,
    slot: &mut u32,
    expr: &Expr,
) -> Result<Option<TypedExpr>, Stop>
    ensures { Answers (judge_expr (scene_of env.now place) slot.old (view_expr expr.now)) typing_of
        slot.new result }
{
    crate::expression::check_expr(
        alloc,
        env,
        place,
        slot,
        expr,
        &|alloc: Global, env: &Env, place: Place, slot: &mut u32, stmts: &Stmts|
            ensures { JudgesAt env.now place slot.old stmts.now slot.new result }
        { deeper(alloc, env, place, slot, stmts, usize::MAX) },
    )
}

/// Statements in order.
pub fn check_stmts(
    alloc: Global,
    env: &Env,
    place: Place,
    slot: &mut u32,
    stmts: &Stmts,
) -> Result<Option<Vec<IrStmt>>, Stop>
    ensures { Answers (walk.judge_stmts (scene_of env.now place) slot.old
        (view.view_stmts stmts.now)) stmts_of slot.new result }
{
    deeper(alloc, env, place, slot, stmts, usize::MAX)
}

// Statements in order, in a nest of at most `left` levels. A deeper one answers as where memory
// runs out: more than 2^64 levels fit no memory.
#[cycle(walk)]
fn deeper(
    alloc: Global,
    env: &Env,
    place: Place,
    slot: &mut u32,
    stmts: &Stmts,
    left: usize,
) -> Result<Option<Vec<IrStmt>>, Stop>
    ensures { Answers (walk.judge_stmts (scene_of env.now place) slot.old
        (view.view_stmts stmts.now)) stmts_of slot.new result }
{
    if left == 0 {
        return Err(Stop::Memory);
    }
    let left = left - 1;
    statements(
        alloc,
        env,
        place,
        slot,
        stmts,
        &|alloc: Global, env: &Env, place: Place, slot: &mut u32, stmts: &Stmts|
            ensures { JudgesAt env.now place slot.old stmts.now slot.new result }
        { deeper(alloc, env, place, slot, stmts, left) },
    )
}

/// The statements inside a statement.
pub fn nested<S>(
    alloc: Global,
    env: &Env,
    place: Place,
    slot: &mut u32,
    stmts: &Stmts,
    inside: &S,
) -> Result<Option<Vec<IrStmt>>, Stop>
where
    S: Fn(Global, &Env, Place, &mut u32, &Stmts) -> StmtsJudged,
    requires judges { JudgesStmts (S.IsAlwaysCallable inside.now) (S.post inside.now) }
    ensures { Answers (walk.judge_stmts (scene_of env.now place) slot.old
        (view.view_stmts stmts.now)) stmts_of slot.new result }
{
    inside(alloc, env, place, slot, stmts)
}
