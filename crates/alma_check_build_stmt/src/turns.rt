// FOR and SOME. A part is None where a name in use there is Bad, and then so is the whole.
ghost use Rattle.std.specs.Prelude.{◌≡◌, ◌+◌, ◌<◌, ◌^◌, option_map, IfOk};
ghost use Rattle.alma_ir.specs.Tree as ir;
ghost use Rattle.alma_ir.specs.View.{expr_of};
ghost use Rattle.alma_rules.specs.Judgement.{both_of};
ghost use Rattle.alma_rules.specs.Parts as parts;
ghost use Rattle.alma_rules.specs.Nodes as nodes;
ghost use Rattle.alma_check_rules.specs.Views.{scene_of, typing_in, located_in, stmts_in, somewhere};
ghost use Rattle.alma_check_build_expr.specs.Lists.{loop_in};
ghost use Rattle.alma_check_build_stmt.specs.Turns.{turns_of};

use crate::statement::single;
use alma_check_build_expr::{as_value, desig};
use alma_check_rules::{Env, Location, TypedExpr};
use alma_ir::{Expr, Loop, Stmt};
use std::alloc::{AllocError, Global};

/// What FOR and SOME share; the hidden slots are the first and the one behind it.
pub fn loop_of(
    alloc: Global,
    env: &Env,
    counter: u32,
    variable: Option<Location>,
    low: Option<TypedExpr>,
    high: Option<TypedExpr>,
    by: Option<i64>,
    body: Option<Vec<Stmt>>,
) -> Result<Option<Loop>, AllocError>
    requires limit { counter + 1 < 2 ^ 32 }
    ensures { IfOk result (λ l. loop_in l ≡ option_map (nodes.loop_of
        (scene_of env.now somewhere) counter) (both_of (located_in variable)
        (both_of (typing_in low) (both_of (typing_in high) (both_of by (stmts_in body)))))) }
{
    let from = value(alloc, low)?;
    let to = value(alloc, high)?;
    Ok(turns(env, counter, variable, from, to, by, body))
}

// A bound as a value.
fn value(alloc: Global, typed: Option<TypedExpr>) -> Result<Option<Expr>, AllocError>
    ensures { IfOk result (λ v. option_map expr_of v
        ≡ option_map (λ t. parts.value_of t.meaning) (typing_in typed)) }
{
    match typed {
        None => Ok(None),
        Some(typed) => Ok(Some(as_value(alloc, typed.meaning)?)),
    }
}

// A loop, where each of its parts is there.
fn turns(
    env: &Env,
    counter: u32,
    variable: Option<Location>,
    from: Option<Expr>,
    to: Option<Expr>,
    by: Option<i64>,
    body: Option<Vec<Stmt>>,
) -> Option<Loop>
    requires limit { counter + 1 < 2 ^ 32 }
    ensures { loop_in result ≡ option_map (turns_of (scene_of env.now somewhere) counter)
        (both_of (located_in variable) (both_of (option_map expr_of from)
        (both_of (option_map expr_of to) (both_of by (stmts_in body))))) }
{
    let variable = variable?;
    let range = env.range(variable.shape);
    Some(Loop {
        var: desig(variable),
        range,
        counter,
        limit: counter + 1,
        from: from?,
        to: to?,
        by: by?,
        body: body?,
    })
}

/// FOR.
pub fn for_stmt(alloc: Global, turns: Option<Loop>) -> Result<Option<Vec<Stmt>>, AllocError>
    ensures { IfOk result (λ v. stmts_in v ≡ option_map parts.one_stmt
        (option_map ir.ForTo (loop_in turns))) }
{
    match turns {
        None => Ok(None),
        Some(turns) => Ok(Some(single(alloc, Stmt::ForTo(turns))?)),
    }
}

/// SOME.
pub fn some_stmt(alloc: Global, turns: Option<Loop>) -> Result<Option<Vec<Stmt>>, AllocError>
    ensures { IfOk result (λ v. stmts_in v ≡ option_map parts.one_stmt
        (option_map ir.SomeOf (loop_in turns))) }
{
    match turns {
        None => Ok(None),
        Some(turns) => Ok(Some(single(alloc, Stmt::SomeOf(turns))?)),
    }
}
