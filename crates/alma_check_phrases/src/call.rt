// Designators as values, and calls with their arguments.
ghost use Rattle.std.specs.Prelude.{option_map};
ghost use Rattle.alma_ir.specs.View.{arg_of};
ghost use Rattle.alma_rules.specs.Numbered as tree;
ghost use Rattle.alma_rules.specs.View.{view_desig, view_expr, view_exprs};
ghost use Rattle.alma_rules.specs.View.{args_of as tree_args};
ghost use Rattle.alma_rules.specs.Answers.{Answers};
ghost use Rattle.alma_rules.specs.Nodes as nodes;
ghost use Rattle.alma_rules.specs.Walk.{judge_expr, judge_primary, judge_arguments};
ghost use Rattle.alma_check_rules.specs.Views.{scene_of, headings_in, typing_of, callee_in, formal_view, args_of};
ghost use Rattle.alma_check_phrases.specs.Inside.{JudgesStmts};

use crate::designator::check_desig;
use crate::expression::{StmtsJudged, check_expr};
use alma_check_join_expr::{
    argument_kind, formal_of, join_argument, join_call, join_callee, join_value,
};
use alma_check_join_stmt::add_argument;
use alma_check_rules::{Callee, Env, Formal, Place, TypedExpr, Use};
use alma_ir::Arg;
use alma_rules::Stop;
use alma_tree::{Args, Desig, Expr, Exprs, Stmts};
use std::alloc::Global;

/// A designator as a value, where no argument list stands behind it, and else a call with its
/// arguments, of which there may be none.
#[cycle(values)]
pub fn check_named<S>(
    alloc: Global,
    env: &Env,
    place: Place,
    slot: &mut u32,
    node: u32,
    desig: &Desig,
    args: &Option<Args>,
    inside: &S,
) -> Result<Option<TypedExpr>, Stop>
where
    S: Fn(Global, &Env, Place, &mut u32, &Stmts) -> StmtsJudged,
    requires judges { JudgesStmts (S.IsAlwaysCallable inside.now) (S.post inside.now) }
    ensures { Answers (judge_primary (scene_of env.now place) slot.old
        (tree.named node (view_desig desig.now) (tree_args args.now))) typing_of slot.new result }
{
    match args {
        None => {
            let found = check_desig(alloc, env, place, slot, Use::Value, desig, inside);
            join_value(alloc, env, found)
        }
        Some(args) => {
            let found = check_desig(alloc, env, place, slot, Use::Procedure, desig, inside);
            let callee = join_callee(env, found)?;
            match &args.values {
                None => join_call(env, place, node, callee, 0, Ok(Some(Vec::new(alloc)))),
                Some(values) => {
                    let args = check_arguments(alloc, env, place, slot, callee, values, inside);
                    join_call(env, place, node, callee, 1 + values.more.len(), args)
                }
            }
        }
    }
}

#[cycle(values)]
fn check_arguments<S>(
    alloc: Global,
    env: &Env,
    place: Place,
    slot: &mut u32,
    callee: Option<Callee>,
    values: &Exprs,
    inside: &S,
) -> Result<Option<Vec<Arg>>, Stop>
where
    S: Fn(Global, &Env, Place, &mut u32, &Stmts) -> StmtsJudged,
    requires judges { JudgesStmts (S.IsAlwaysCallable inside.now) (S.post inside.now) }
    ensures { Answers (judge_arguments (scene_of env.now place) slot.old
        (nodes.formals_of (callee_in (headings_in env.now) callee)) (view_exprs values.now)) args_of
        slot.new result }
{
    let formal = formal_of(env, callee, 0);
    let first = check_argument(alloc, env, place, slot, formal, &values.first, inside);
    let mut kept = add_argument(Some(Vec::new(alloc)), first)?;
    let mut index = 0;
    for value in &values.more {
        index += 1;
        let formal = formal_of(env, callee, index);
        let arg = check_argument(alloc, env, place, slot, formal, value, inside);
        kept = add_argument(kept, arg)?;
    }
    Ok(kept)
}

#[cycle(values)]
fn check_argument<S>(
    alloc: Global,
    env: &Env,
    place: Place,
    slot: &mut u32,
    formal: Option<Formal>,
    value: &Expr,
    inside: &S,
) -> Result<Option<Arg>, Stop>
where
    S: Fn(Global, &Env, Place, &mut u32, &Stmts) -> StmtsJudged,
    requires judges { JudgesStmts (S.IsAlwaysCallable inside.now) (S.post inside.now) }
    ensures { Answers (nodes.judged_argument (scene_of env.now place)
        (option_map formal_view formal) (view_expr value.now)
        (judge_expr (scene_of env.now place) slot.old (view_expr value.now))) arg_of
        slot.new result }
{
    let kind = argument_kind(env, value)?;
    let typed = check_expr(alloc, env, place, slot, value, inside);
    join_argument(alloc, env, value.node, formal, kind, typed)
}
