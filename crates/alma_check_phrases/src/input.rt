// RETURN, READ and WRITE.
ghost use Rattle.alma_rules.specs.Numbered as tree;
ghost use Rattle.alma_rules.specs.View as view;
ghost use Rattle.alma_rules.specs.Answers.{Answers};
ghost use Rattle.alma_rules.specs.ExprRules as rules;
ghost use Rattle.alma_rules.specs.Nodes as nodes;
ghost use Rattle.alma_rules.specs.Walk as walk;
ghost use Rattle.alma_check_rules.specs.Views.{scene_of, stmts_of};
ghost use Rattle.alma_check_phrases.specs.Inside.{JudgesStmts};

use crate::designator::check_desig;
use crate::expression::{StmtsJudged, check_expr};
use alma_check_build_stmt::nothing;
use alma_check_join_expr::item_text;
use alma_check_join_stmt::{
    add_stmts, check_bare_return, check_text, join_item, join_line, join_place, join_read,
    join_return,
};
use alma_check_rules::{Env, Place, Use};
use alma_ir::Stmt as IrStmt;
use alma_rules::Stop;
use alma_tree::{Args, Desig, Expr, Exprs, Stmts};
use std::alloc::Global;

/// RETURN.
pub fn check_return<S>(
    alloc: Global,
    env: &Env,
    place: Place,
    slot: &mut u32,
    node: u32,
    value: &Option<Expr>,
    inside: &S,
) -> Result<Option<Vec<IrStmt>>, Stop>
where
    S: Fn(Global, &Env, Place, &mut u32, &Stmts) -> StmtsJudged,
    requires judges { JudgesStmts (S.IsAlwaysCallable inside.now) (S.post inside.now) }
    ensures { Answers (walk.judge_stmt (scene_of env.now place) slot.old
        (tree.return_stmt node (view.returned_of value.now))) stmts_of slot.new result }
{
    match value {
        None => check_bare_return(alloc, env, place, node),
        Some(value) => {
            let typed = check_expr(alloc, env, place, slot, value, inside);
            join_return(alloc, env, place, node, typed)
        }
    }
}

/// READ.
pub fn check_read<S>(
    alloc: Global,
    env: &Env,
    place: Place,
    slot: &mut u32,
    node: u32,
    first: &Desig,
    more: &[Desig],
    inside: &S,
) -> Result<Option<Vec<IrStmt>>, Stop>
where
    S: Fn(Global, &Env, Place, &mut u32, &Stmts) -> StmtsJudged,
    requires judges { JudgesStmts (S.IsAlwaysCallable inside.now) (S.post inside.now) }
    ensures { Answers (walk.judge_stmt (scene_of env.now place) slot.old
        (tree.read_stmt node (view.view_desig first.now) (view.desigs_of more.now))) stmts_of
        slot.new result }
{
    let mut kept = check_read_one(alloc, env, place, slot, first, inside)?;
    for desig in more {
        let next = check_read_one(alloc, env, place, slot, desig, inside);
        kept = add_stmts(kept, next)?;
    }
    Ok(kept)
}

fn check_read_one<S>(
    alloc: Global,
    env: &Env,
    place: Place,
    slot: &mut u32,
    desig: &Desig,
    inside: &S,
) -> Result<Option<Vec<IrStmt>>, Stop>
where
    S: Fn(Global, &Env, Place, &mut u32, &Stmts) -> StmtsJudged,
    requires judges { JudgesStmts (S.IsAlwaysCallable inside.now) (S.post inside.now) }
    ensures { Answers (nodes.read_at (scene_of env.now place) (view.view_desig desig.now)
        (walk.judge_desig (scene_of env.now place) slot.old rules.as_variable
        (view.view_desig desig.now))) stmts_of slot.new result }
{
    let found = check_desig(alloc, env, place, slot, Use::Variable, desig, inside);
    let located = join_place(env, found);
    join_read(alloc, env, desig.node, located)
}

/// The items of WRITE.
pub fn check_items<S>(
    alloc: Global,
    env: &Env,
    place: Place,
    slot: &mut u32,
    items: &Exprs,
    inside: &S,
) -> Result<Option<Vec<IrStmt>>, Stop>
where
    S: Fn(Global, &Env, Place, &mut u32, &Stmts) -> StmtsJudged,
    requires judges { JudgesStmts (S.IsAlwaysCallable inside.now) (S.post inside.now) }
    ensures { Answers (walk.judge_items (scene_of env.now place) slot.old
        (view.view_exprs items.now)) stmts_of slot.new result }
{
    let mut kept = check_item(alloc, env, place, slot, &items.first, inside)?;
    for item in &items.more {
        let next = check_item(alloc, env, place, slot, item, inside);
        kept = add_stmts(kept, next)?;
    }
    Ok(kept)
}

fn check_item<S>(
    alloc: Global,
    env: &Env,
    place: Place,
    slot: &mut u32,
    item: &Expr,
    inside: &S,
) -> Result<Option<Vec<IrStmt>>, Stop>
where
    S: Fn(Global, &Env, Place, &mut u32, &Stmts) -> StmtsJudged,
    requires judges { JudgesStmts (S.IsAlwaysCallable inside.now) (S.post inside.now) }
    ensures { Answers (nodes.item_of (scene_of env.now place) slot.old
        (tree.expr_node (view.view_expr item.now)) (nodes.item_literal (view.view_expr item.now))
        (walk.judge_expr (scene_of env.now place) slot.old (view.view_expr item.now))) stmts_of
        slot.new result }
{
    match item_text(env, item) {
        None => {
            let typed = check_expr(alloc, env, place, slot, item, inside);
            join_item(alloc, env, item.node, typed)
        }
        Some((node, bytes)) => check_text(alloc, env, place, node, bytes),
    }
}

/// WRITELN.
pub fn check_writeln<S>(
    alloc: Global,
    env: &Env,
    place: Place,
    slot: &mut u32,
    node: u32,
    items: &Option<Args>,
    inside: &S,
) -> Result<Option<Vec<IrStmt>>, Stop>
where
    S: Fn(Global, &Env, Place, &mut u32, &Stmts) -> StmtsJudged,
    requires judges { JudgesStmts (S.IsAlwaysCallable inside.now) (S.post inside.now) }
    ensures { Answers (walk.judge_stmt (scene_of env.now place) slot.old
        (tree.writeln_stmt node (view.args_of items.now))) stmts_of slot.new result }
{
    match items {
        None => join_line(Ok(nothing(alloc))),
        Some(args) => match &args.values {
            None => join_line(Ok(nothing(alloc))),
            Some(values) => {
                let stmts = check_items(alloc, env, place, slot, values, inside);
                join_line(stmts)
            }
        },
    }
}
