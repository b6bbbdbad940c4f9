// Sequences of statements.
ghost use Rattle.alma_rules.specs.View as view;
ghost use Rattle.alma_rules.specs.Answers.{Answers};
ghost use Rattle.alma_rules.specs.Walk as walk;
ghost use Rattle.alma_check_rules.specs.Views.{scene_of, stmts_of};
ghost use Rattle.alma_check_phrases.specs.Inside.{JudgesStmts};

use crate::assign::{check_assign, check_value};
use crate::branch::{check_if, check_repeat, check_while};
use crate::case::check_case;
use crate::choice::{check_commit, check_either, check_forall};
use crate::expression::StmtsJudged;
use crate::input::{check_items, check_read, check_return, check_writeln};
use crate::turns::{check_for, check_some};
use alma_check_build_stmt::nothing;
use alma_check_join_stmt::add_stmts;
use alma_check_rules::{Env, Place};
use alma_ir::Stmt as IrStmt;
use alma_rules::Stop;
use alma_tree::{Stmt, Stmts};
use std::alloc::Global;

/// Statements in order.
pub fn statements<S>(
    alloc: Global,
    env: &Env,
    place: Place,
    slot: &mut u32,
    stmts: &Stmts,
    inside: &S,
) -> Result<Option<Vec<IrStmt>>, Stop>
where
    S: Fn(Global, &Env, Place, &mut u32, &Stmts) -> StmtsJudged,
    requires judges { JudgesStmts (S.IsAlwaysCallable inside.now) (S.post inside.now) }
    ensures { Answers (walk.judge_stmts (scene_of env.now place) slot.old
        (view.view_stmts stmts.now)) stmts_of slot.new result }
{
    let mut kept = check_stmt(alloc, env, place, slot, &stmts.first, inside)?;
    for stmt in &stmts.more {
        let next = check_stmt(alloc, env, place, slot, stmt, inside);
        kept = add_stmts(kept, next)?;
    }
    Ok(kept)
}

fn check_stmt<S>(
    alloc: Global,
    env: &Env,
    place: Place,
    slot: &mut u32,
    stmt: &Stmt,
    inside: &S,
) -> Result<Option<Vec<IrStmt>>, Stop>
where
    S: Fn(Global, &Env, Place, &mut u32, &Stmts) -> StmtsJudged,
    requires judges { JudgesStmts (S.IsAlwaysCallable inside.now) (S.post inside.now) }
    ensures { Answers (walk.judge_stmt (scene_of env.now place) slot.old (view.view_stmt stmt.now))
        stmts_of slot.new result }
{
    match stmt {
        Stmt::Nothing { .. } => Ok(nothing(alloc)),
        Stmt::Assign {
            node,
            target,
            value,
        } => check_assign(alloc, env, place, slot, *node, target, value, inside),
        Stmt::Value { node, value } => check_value(alloc, env, place, slot, *node, value, inside),
        Stmt::If {
            node,
            test,
            then,
            elsifs,
            otherwise,
        } => {
            check_if(
                alloc, env, place, slot, *node, test, then, elsifs, otherwise, inside,
            )
        }
        Stmt::While { node, test, body } => check_while(
            alloc, env, place, slot, *node, test, body, inside,
        ),
        Stmt::Repeat { node, body, test } => check_repeat(
            alloc, env, place, slot, *node, body, test, inside,
        ),
        Stmt::For {
            node,
            variable,
            from,
            to,
            by,
            body,
        } => {
            check_for(
                alloc, env, place, slot, *node, variable, from, to, by, body, inside,
            )
        }
        Stmt::Some {
            node,
            variable,
            from,
            to,
            body,
        } => {
            check_some(
                alloc, env, place, slot, *node, variable, from, to, body, inside,
            )
        }
        Stmt::Case {
            node,
            value,
            first,
            more,
            otherwise,
        } => {
            check_case(
                alloc, env, place, slot, *node, value, first, more, otherwise, inside,
            )
        }
        Stmt::Either { node, first, more } => check_either(
            alloc, env, place, slot, *node, first, more, inside,
        ),
        Stmt::Forall { node, choice, body } => check_forall(
            alloc, env, place, slot, *node, choice, body, inside,
        ),
        Stmt::Commit { node, body } => check_commit(alloc, env, place, slot, *node, body, inside),
        Stmt::Return { node, value } => check_return(alloc, env, place, slot, *node, value, inside),
        Stmt::Read { node, first, more } => check_read(
            alloc, env, place, slot, *node, first, more, inside,
        ),
        Stmt::Write { node: _, items } => check_items(alloc, env, place, slot, items, inside),
        Stmt::Writeln { node, items } => check_writeln(
            alloc, env, place, slot, *node, items, inside,
        ),
    }
}
