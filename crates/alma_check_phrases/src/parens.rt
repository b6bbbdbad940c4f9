// Parentheses.
ghost use Rattle.alma_rules.specs.Numbered as tree;
ghost use Rattle.alma_rules.specs.View.{view_stmts};
ghost use Rattle.alma_rules.specs.Scene.{inside_of};
ghost use Rattle.alma_rules.specs.Answers.{Answers};
ghost use Rattle.alma_rules.specs.Nodes as nodes;
ghost use Rattle.alma_rules.specs.Walk.{judge_primary, judge_stmts};
ghost use Rattle.alma_check_rules.specs.Views.{scene_of, typing_of};
ghost use Rattle.alma_check_phrases.specs.Inside.{JudgesStmts};

use crate::expression::{StmtsJudged, check_expr};
use alma_check_join_expr::{join_parens, join_sequence};
use alma_check_rules::{Env, Place, TypedExpr};
use alma_rules::Stop;
use alma_tree::{Stmt, Stmts};
use std::alloc::Global;

/// A parenthesis: a single expression stands for itself, but for no place, and any other body is a
/// sequence of type BOOLEAN, which `inside` judges.
#[cycle(values)]
pub fn check_parens<S>(
    alloc: Global,
    env: &Env,
    place: Place,
    slot: &mut u32,
    node: u32,
    body: &Stmts,
    inside: &S,
) -> Result<Option<TypedExpr>, Stop>
where
    S: Fn(Global, &Env, Place, &mut u32, &Stmts) -> StmtsJudged,
    requires judges { JudgesStmts (S.IsAlwaysCallable inside.now) (S.post inside.now) }
    ensures { Answers (judge_primary (scene_of env.now place) slot.old
        (tree.paren node (view_stmts body.now))) typing_of slot.new result }
{
    if !body.more.is_empty() {
        return check_sequence(alloc, env, place, slot, node, body, inside);
    }
    match &*body.first {
        Stmt::Value { node: _, value } => {
            let typed = check_expr(alloc, env, place, slot, value, inside);
            join_parens(env, node, typed)
        }
        _ => check_sequence(alloc, env, place, slot, node, body, inside),
    }
}

fn check_sequence<S>(
    alloc: Global,
    env: &Env,
    place: Place,
    slot: &mut u32,
    node: u32,
    body: &Stmts,
    inside: &S,
) -> Result<Option<TypedExpr>, Stop>
where
    S: Fn(Global, &Env, Place, &mut u32, &Stmts) -> StmtsJudged,
    requires judges { JudgesStmts (S.IsAlwaysCallable inside.now) (S.post inside.now) }
    ensures { Answers (nodes.as_sequence (scene_of env.now place) node
        (judge_stmts (inside_of (scene_of env.now place)) slot.old (view_stmts body.now))) typing_of
        slot.new result }
{
    let within = Place {
        constant: place.constant,
        inside: true,
    };
    let stmts = inside(alloc, env, within, slot, body);
    join_sequence(env, place, node, stmts)
}
