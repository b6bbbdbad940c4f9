// What statements stand for. A part is None where a name in use there is Bad, and then so is the
// whole.
ghost use Rattle.std.specs.Prelude.{◌≡◌, None, Some, option_map, IfOk};
ghost use Rattle.alma_ir.specs.View.{stmt_of, return_option};
ghost use Rattle.alma_ir.specs.Tree as ir;
ghost use Rattle.alma_rules.specs.Judgement.{both_of};
ghost use Rattle.alma_rules.specs.Parts as parts;
ghost use Rattle.alma_rules.specs.Nodes as nodes;
ghost use Rattle.alma_check_rules.specs.Views.{scene_of, typing_in, located_in, located_of, meaning_view, stmts_in, stmts_of, somewhere};
ghost use Rattle.alma_check_build_expr.specs.Lists.{test_in, arms_in, branches_in, guarded_in};

use crate::list::one;
use alma_check_build_expr::{as_test, as_value, desig};
use alma_check_rules::{Env, Location, Meaning, TypedExpr};
use alma_ir::{Arm, Branch, Expr, ReadAs, Stmt, Test, WriteAs};
use alma_names::{CHAR, INTEGER};
use std::alloc::{AllocError, Global};

/// A statement alone.
pub fn single(alloc: Global, stmt: Stmt) -> Result<Vec<Stmt>, AllocError>
    ensures { IfOk result (λ v. stmts_of v ≡ parts.one_stmt (stmt_of stmt)) }
{
    one(alloc, stmt)
}

/// No statement.
pub fn nothing(alloc: Global) -> Option<Vec<Stmt>>
    ensures { stmts_in result ≡ Some ir.no_stmts }
{
    Some(Vec::new(alloc))
}

/// An expression as a condition.
pub fn condition(typed: Option<TypedExpr>) -> Option<Test>
    ensures { test_in result ≡ option_map (λ t. parts.test_of t.meaning) (typing_in typed) }
{
    match typed {
        None => None,
        Some(typed) => Some(as_test(typed.meaning)),
    }
}

/// A condition as a statement.
pub fn test_stmt(alloc: Global, test: Option<Test>) -> Result<Option<Vec<Stmt>>, AllocError>
    ensures { IfOk result (λ v. stmts_in v ≡ option_map parts.one_stmt
        (option_map ir.TestStmt (test_in test))) }
{
    match test {
        None => Ok(None),
        Some(test) => Ok(Some(single(alloc, Stmt::Test(test))?)),
    }
}

// ---- :=

fn assigned_to(
    alloc: Global,
    env: &Env,
    located: Location,
    meaning: Meaning,
) -> Result<Stmt, AllocError>
    ensures { IfOk result (λ x. stmt_of x ≡ parts.assigned_to (scene_of env.now somewhere)
        (located_of located) (meaning_view meaning)) }
{
    let shape = located.shape;
    let range = env.range(shape);
    match meaning {
        Meaning::Place(place) => {
            if env.is_structured(shape) {
                return Ok(Stmt::CopyCells(desig(located), place));
            }
            let value = as_value(alloc, Meaning::Place(place))?;
            Ok(Stmt::Assign(desig(located), value, range))
        }
        Meaning::Plain(expr) => Ok(Stmt::Assign(desig(located), expr, range)),
        Meaning::Test(test) => {
            let value = as_value(alloc, Meaning::Test(test))?;
            Ok(Stmt::Assign(desig(located), value, range))
        }
    }
}

/// `:=`, by which a structured value is copied cell by cell.
pub fn assign_stmt(
    alloc: Global,
    env: &Env,
    located: Option<Location>,
    typed: Option<TypedExpr>,
) -> Result<Option<Vec<Stmt>>, AllocError>
    ensures { IfOk result (λ v. stmts_in v ≡ option_map (parts.assignment_stmts
        (scene_of env.now somewhere)) (both_of (located_in located) (typing_in typed))) }
{
    match located {
        None => Ok(None),
        Some(located) => match typed {
            None => Ok(None),
            Some(typed) => {
                let stmt = assigned_to(alloc, env, located, typed.meaning)?;
                Ok(Some(single(alloc, stmt)?))
            }
        },
    }
}

// ---- IF, WHILE and REPEAT

/// A condition with the statements behind it.
pub fn guarded_arm(test: Option<Test>, body: Option<Vec<Stmt>>) -> Option<Arm>
    ensures { guarded_in result ≡ both_of (test_in test) (stmts_in body) }
{
    match test {
        None => None,
        Some(cond) => match body {
            None => None,
            Some(body) => Some(Arm { cond, body }),
        },
    }
}

/// IF, with all its arms and the ELSE part.
pub fn if_stmt(
    alloc: Global,
    arms: Option<Vec<Arm>>,
    other: Option<Vec<Stmt>>,
) -> Result<Option<Vec<Stmt>>, AllocError>
    ensures { IfOk result (λ v. stmts_in v ≡ option_map parts.one_stmt
        (option_map (λ p. ir.If p.0 p.1) (both_of (arms_in arms) (stmts_in other)))) }
{
    match arms {
        None => Ok(None),
        Some(arms) => match other {
            None => Ok(None),
            Some(other) => Ok(Some(single(alloc, Stmt::If(arms, other))?)),
        },
    }
}

/// WHILE.
pub fn while_stmt(
    alloc: Global,
    test: Option<Test>,
    body: Option<Vec<Stmt>>,
) -> Result<Option<Vec<Stmt>>, AllocError>
    ensures { IfOk result (λ v. stmts_in v ≡ option_map parts.one_stmt
        (option_map (λ p. ir.While p.0 p.1) (both_of (test_in test) (stmts_in body)))) }
{
    match test {
        None => Ok(None),
        Some(test) => match body {
            None => Ok(None),
            Some(body) => Ok(Some(single(alloc, Stmt::While(test, body))?)),
        },
    }
}

/// REPEAT.
pub fn repeat_stmt(
    alloc: Global,
    body: Option<Vec<Stmt>>,
    test: Option<Test>,
) -> Result<Option<Vec<Stmt>>, AllocError>
    ensures { IfOk result (λ v. stmts_in v ≡ option_map parts.one_stmt
        (option_map (λ p. ir.Repeat p.0 p.1) (both_of (stmts_in body) (test_in test)))) }
{
    match body {
        None => Ok(None),
        Some(body) => match test {
            None => Ok(None),
            Some(test) => Ok(Some(single(alloc, Stmt::Repeat(body, test))?)),
        },
    }
}

// ---- EITHER, FORALL and COMMIT

/// EITHER, with all its branches.
pub fn either_stmt(
    alloc: Global,
    branches: Option<Vec<Branch>>,
) -> Result<Option<Vec<Stmt>>, AllocError>
    ensures { IfOk result (λ v. stmts_in v ≡ option_map parts.one_stmt
        (option_map ir.Either (branches_in branches))) }
{
    match branches {
        None => Ok(None),
        Some(branches) => Ok(Some(single(alloc, Stmt::Either(branches))?)),
    }
}

/// FORALL.
pub fn forall_stmt(
    alloc: Global,
    choice: Option<Vec<Stmt>>,
    body: Option<Vec<Stmt>>,
) -> Result<Option<Vec<Stmt>>, AllocError>
    ensures { IfOk result (λ v. stmts_in v ≡ option_map parts.one_stmt
        (option_map (λ p. ir.Forall p.0 p.1) (both_of (stmts_in choice) (stmts_in body)))) }
{
    match choice {
        None => Ok(None),
        Some(choice) => match body {
            None => Ok(None),
            Some(body) => Ok(Some(single(alloc, Stmt::Forall(choice, body))?)),
        },
    }
}

/// COMMIT.
pub fn commit_stmt(alloc: Global, body: Option<Vec<Stmt>>) -> Result<Option<Vec<Stmt>>, AllocError>
    ensures { IfOk result (λ v. stmts_in v ≡ option_map parts.one_stmt
        (option_map ir.Commit (stmts_in body))) }
{
    match body {
        None => Ok(None),
        Some(body) => Ok(Some(single(alloc, Stmt::Commit(body))?)),
    }
}

// ---- RETURN, READ and WRITE

fn return_of(value: Option<Expr>) -> Stmt
    ensures { stmt_of result ≡ ir.Return (return_option value) }
{
    Stmt::Return(value)
}

/// RETURN alone.
pub fn bare_return(alloc: Global) -> Result<Option<Vec<Stmt>>, AllocError>
    ensures { IfOk result (λ v. stmts_in v ≡ Some (parts.one_stmt (ir.Return ir.no_result))) }
{
    Ok(Some(single(alloc, return_of(None))?))
}

/// RETURN with an expression.
pub fn return_stmt(alloc: Global, typed: Option<TypedExpr>) -> Result<Option<Vec<Stmt>>, AllocError>
    ensures { IfOk result (λ v. stmts_in v ≡ option_map parts.one_stmt
        (option_map (λ t. ir.Return (ir.some_result (parts.value_of t.meaning)))
        (typing_in typed))) }
{
    match typed {
        None => Ok(None),
        Some(typed) => {
            let value = as_value(alloc, typed.meaning)?;
            Ok(Some(single(alloc, return_of(Some(value)))?))
        }
    }
}

fn read_as(env: &Env, shape: u32) -> ReadAs
    ensures { result ≡ parts.read_as (scene_of env.now somewhere) shape }
{
    if env.has_base(shape, INTEGER) {
        ReadAs::Int
    } else {
        ReadAs::Char
    }
}

/// READ of one designator.
pub fn read_stmt(
    alloc: Global,
    env: &Env,
    located: Option<Location>,
) -> Result<Option<Vec<Stmt>>, AllocError>
    ensures { IfOk result (λ v. stmts_in v ≡ option_map (parts.read_stmts
        (scene_of env.now somewhere)) (located_in located)) }
{
    match located {
        None => Ok(None),
        Some(located) => {
            let how = read_as(env, located.shape);
            let range = env.range(located.shape);
            Ok(Some(single(alloc, Stmt::Read(desig(located), how, range))?))
        }
    }
}

fn write_as(env: &Env, shape: u32) -> WriteAs
    ensures { result ≡ parts.write_as (scene_of env.now somewhere) shape }
{
    if env.has_base(shape, INTEGER) {
        WriteAs::Int
    } else if env.has_base(shape, CHAR) {
        WriteAs::Char
    } else {
        WriteAs::Bool
    }
}

/// WRITE of one expression.
pub fn write_stmt(
    alloc: Global,
    env: &Env,
    typed: Option<TypedExpr>,
) -> Result<Option<Vec<Stmt>>, AllocError>
    ensures { IfOk result (λ v. stmts_in v ≡ option_map (parts.write_stmts
        (scene_of env.now somewhere)) (typing_in typed)) }
{
    match typed {
        None => Ok(None),
        Some(typed) => {
            let how = write_as(env, typed.shape);
            let value = as_value(alloc, typed.meaning)?;
            Ok(Some(single(alloc, Stmt::WriteExpr(value, how))?))
        }
    }
}

/// WRITE of a text.
pub fn text_stmt(alloc: Global, bytes: &[u8]) -> Result<Option<Vec<Stmt>>, AllocError>
    ensures { IfOk result (λ v. stmts_in v ≡ Some (parts.one_stmt (ir.WriteText bytes.now))) }
{
    let bytes = bytes.to_vec(alloc)?;
    Ok(Some(single(alloc, Stmt::WriteText(bytes))?))
}

/// WRITELN, behind its items.
pub fn writeln_stmt(items: Option<Vec<Stmt>>) -> Result<Option<Vec<Stmt>>, AllocError>
    ensures { IfOk result (λ v. stmts_in v ≡ option_map nodes.with_line (stmts_in items)) }
{
    match items {
        None => Ok(None),
        Some(items) => {
            let mut items = items;
            items.push(Stmt::WriteLine)?;
            Ok(Some(items))
        }
    }
}
