// The walk over all phrases of statements.
ghost use Rattle.std.specs.Prelude.{OnOk};
ghost use Rattle.alma_ir.specs.View.{stmts_list, stmt_of, arms_list, cases_list, branches_list, loop_of, tests_list, test_of, expr_of, links_list, args_list, arg_of, desig_of, sels_list, sel_of, return_option};
ghost use Rattle.alma_ir.specs.Phrases.{stmts_phrases, stmt_phrases, arms_phrases, cases_phrases, branches_phrases, loop_phrases, tests_phrases, test_phrases, expr_phrases, links_phrases, args_phrases, arg_phrases, desig_phrases, sels_phrases, sel_phrases, return_phrases};
ghost use Rattle.alma_lower_tables.specs.Numbers.{tables_of};
ghost use Rattle.alma_lower_tables.specs.AddsPhrases.{AddsPhrases};

use crate::entry::{add_checked, add_range, add_text, pass_number};
use crate::numbers::Numbers;
use alma_base::{NoMemory, Range};
use alma_ir::{Arg, Arm, Branch, CaseArm, Desig, Expr, Link, Loop, Sel, Stmt, Test};
use std::alloc::Global;

/// Gives numbers to the ranges and texts that the code of these statements names, and that of all
/// that stands inside them. The bodies of routines that are called are none of these.
#[cycle(walk)]
pub fn walk_stmts(alloc: Global, numbers: &mut Numbers, body: &[Stmt]) -> Result<(), NoMemory>
    ensures { OnOk result (AddsPhrases (tables_of numbers.old) (tables_of numbers.new)
        (stmts_phrases (stmts_list body.now))) }
{
    for stmt in body {
        walk_stmt(alloc, numbers, stmt)?;
    }
    Ok(())
}

// A statement and those inside it.
#[cycle(walk)]
fn walk_stmt(alloc: Global, numbers: &mut Numbers, stmt: &Stmt) -> Result<(), NoMemory>
    ensures { OnOk result (AddsPhrases (tables_of numbers.old) (tables_of numbers.new)
        (stmt_phrases (stmt_of stmt.now))) }
{
    match stmt {
        Stmt::Test(test) => walk_test(alloc, numbers, test),
        Stmt::Assign(desig, value, range) => {
            add_checked(numbers, *range)?;
            walk_desig(alloc, numbers, desig)?;
            walk_expr(alloc, numbers, value)
        }
        Stmt::CopyCells(desig, from) => {
            walk_desig(alloc, numbers, desig)?;
            walk_desig(alloc, numbers, from)
        }
        Stmt::If(arms, rest) => {
            walk_arms(alloc, numbers, arms)?;
            walk_stmts(alloc, numbers, rest)
        }
        Stmt::While(test, body) => {
            walk_test(alloc, numbers, test)?;
            walk_stmts(alloc, numbers, body)
        }
        Stmt::Repeat(body, test) => {
            walk_stmts(alloc, numbers, body)?;
            walk_test(alloc, numbers, test)
        }
        Stmt::ForTo(each) => {
            add_checked(numbers, each.range)?;
            walk_loop(alloc, numbers, each)
        }
        Stmt::SomeOf(each) => {
            add_checked(numbers, each.range)?;
            walk_loop(alloc, numbers, each)
        }
        Stmt::Case(value, arms, rest) => {
            walk_expr(alloc, numbers, value)?;
            walk_cases(alloc, numbers, arms)?;
            match rest {
                Some(body) => walk_stmts(alloc, numbers, body),
                None => Ok(()),
            }
        }
        Stmt::Either(branches) => walk_branches(alloc, numbers, branches),
        Stmt::Forall(each, body) => {
            walk_stmts(alloc, numbers, each)?;
            walk_stmts(alloc, numbers, body)
        }
        Stmt::Commit(body) => walk_stmts(alloc, numbers, body),
        Stmt::Return(value) => walk_return(alloc, numbers, value),
        Stmt::Read(desig, _, range) => {
            add_range(numbers, *range)?;
            walk_desig(alloc, numbers, desig)
        }
        Stmt::WriteExpr(value, _) => walk_expr(alloc, numbers, value),
        Stmt::WriteText(text) => add_text(alloc, numbers, text),
        Stmt::WriteLine => Ok(()),
    }
}

// What RETURN gives.
#[cycle(walk)]
fn walk_return(alloc: Global, numbers: &mut Numbers, value: &Option<Expr>) -> Result<(), NoMemory>
    ensures { OnOk result (AddsPhrases (tables_of numbers.old) (tables_of numbers.new)
        (return_phrases (return_option value.now))) }
{
    match value {
        Some(value) => walk_expr(alloc, numbers, value),
        None => Ok(()),
    }
}

// The arms of IF.
#[cycle(walk)]
fn walk_arms(alloc: Global, numbers: &mut Numbers, arms: &[Arm]) -> Result<(), NoMemory>
    ensures { OnOk result (AddsPhrases (tables_of numbers.old) (tables_of numbers.new)
        (arms_phrases (arms_list arms.now))) }
{
    for arm in arms {
        walk_test(alloc, numbers, &arm.cond)?;
        walk_stmts(alloc, numbers, &arm.body)?;
    }
    Ok(())
}

// The arms of CASE.
#[cycle(walk)]
fn walk_cases(alloc: Global, numbers: &mut Numbers, arms: &[CaseArm]) -> Result<(), NoMemory>
    ensures { OnOk result (AddsPhrases (tables_of numbers.old) (tables_of numbers.new)
        (cases_phrases (cases_list arms.now))) }
{
    for arm in arms {
        walk_stmts(alloc, numbers, &arm.body)?;
    }
    Ok(())
}

// The branches of EITHER.
#[cycle(walk)]
fn walk_branches(alloc: Global, numbers: &mut Numbers, branches: &[Branch]) -> Result<(), NoMemory>
    ensures { OnOk result (AddsPhrases (tables_of numbers.old) (tables_of numbers.new)
        (branches_phrases (branches_list branches.now))) }
{
    for branch in branches {
        walk_stmts(alloc, numbers, &branch.body)?;
    }
    Ok(())
}

// The parts of FOR and SOME.
#[cycle(walk)]
fn walk_loop(alloc: Global, numbers: &mut Numbers, each: &Loop) -> Result<(), NoMemory>
    ensures { OnOk result (AddsPhrases (tables_of numbers.old) (tables_of numbers.new)
        (loop_phrases (loop_of each.now))) }
{
    walk_desig(alloc, numbers, &each.var)?;
    walk_expr(alloc, numbers, &each.from)?;
    walk_expr(alloc, numbers, &each.to)?;
    walk_stmts(alloc, numbers, &each.body)
}

// The operands of AND or OR.
#[cycle(walk)]
fn walk_tests(alloc: Global, numbers: &mut Numbers, tests: &[Test]) -> Result<(), NoMemory>
    ensures { OnOk result (AddsPhrases (tables_of numbers.old) (tables_of numbers.new)
        (tests_phrases (tests_list tests.now))) }
{
    for test in tests {
        walk_test(alloc, numbers, test)?;
    }
    Ok(())
}

// A test.
#[cycle(walk)]
fn walk_test(alloc: Global, numbers: &mut Numbers, test: &Test) -> Result<(), NoMemory>
    ensures { OnOk result (AddsPhrases (tables_of numbers.old) (tables_of numbers.new)
        (test_phrases (test_of test.now))) }
{
    match test {
        Test::Value(value) => walk_expr(alloc, numbers, value),
        Test::Bind(desig, value, range, _) => {
            add_range(numbers, *range)?;
            walk_desig(alloc, numbers, desig)?;
            walk_expr(alloc, numbers, value)
        }
        Test::Unify(left, range, right, other) => {
            add_range(numbers, *range)?;
            add_range(numbers, *other)?;
            walk_desig(alloc, numbers, left)?;
            walk_desig(alloc, numbers, right)
        }
        Test::SameCells(left, right) => {
            walk_desig(alloc, numbers, left)?;
            walk_desig(alloc, numbers, right)
        }
        Test::Seq(body) => walk_stmts(alloc, numbers, body),
        Test::And(tests) => walk_tests(alloc, numbers, tests),
        Test::Or(tests) => walk_tests(alloc, numbers, tests),
        Test::Not(test) => walk_test(alloc, numbers, test),
        Test::Call(call) => walk_args(alloc, numbers, &call.args),
    }
}

// An expression.
#[cycle(walk)]
fn walk_expr(alloc: Global, numbers: &mut Numbers, expr: &Expr) -> Result<(), NoMemory>
    ensures { OnOk result (AddsPhrases (tables_of numbers.old) (tables_of numbers.new)
        (expr_phrases (expr_of expr.now))) }
{
    match expr {
        Expr::Const(value) => {
            pass_number(*value);
            Ok(())
        }
        Expr::Load(desig) => walk_desig(alloc, numbers, desig),
        Expr::Chain(_, first, links) => {
            walk_expr(alloc, numbers, first)?;
            walk_links(alloc, numbers, links)
        }
        Expr::Compare(_, left, right) => {
            walk_expr(alloc, numbers, left)?;
            walk_expr(alloc, numbers, right)
        }
        Expr::Truth(test) => walk_test(alloc, numbers, test),
        Expr::Known(desig) => walk_desig(alloc, numbers, desig),
        Expr::Chr(inner) => {
            add_range(numbers, Range::character())?;
            walk_expr(alloc, numbers, inner)
        }
        Expr::Call(call) => walk_args(alloc, numbers, &call.args),
    }
}

// Operators with their operands.
#[cycle(walk)]
fn walk_links(alloc: Global, numbers: &mut Numbers, links: &[Link]) -> Result<(), NoMemory>
    ensures { OnOk result (AddsPhrases (tables_of numbers.old) (tables_of numbers.new)
        (links_phrases (links_list links.now))) }
{
    for link in links {
        walk_expr(alloc, numbers, &link.operand)?;
    }
    Ok(())
}

// Arguments.
#[cycle(walk)]
fn walk_args(alloc: Global, numbers: &mut Numbers, args: &[Arg]) -> Result<(), NoMemory>
    ensures { OnOk result (AddsPhrases (tables_of numbers.old) (tables_of numbers.new)
        (args_phrases (args_list args.now))) }
{
    for arg in args {
        walk_arg(alloc, numbers, arg)?;
    }
    Ok(())
}

// An argument.
#[cycle(walk)]
fn walk_arg(alloc: Global, numbers: &mut Numbers, arg: &Arg) -> Result<(), NoMemory>
    ensures { OnOk result (AddsPhrases (tables_of numbers.old) (tables_of numbers.new)
        (arg_phrases (arg_of arg.now))) }
{
    match arg {
        Arg::Value(value, range) => {
            add_checked(numbers, *range)?;
            walk_expr(alloc, numbers, value)
        }
        Arg::Cells(desig) => walk_desig(alloc, numbers, desig),
        Arg::Place(desig) => walk_desig(alloc, numbers, desig),
        Arg::MixValue(value, range) => {
            add_checked(numbers, *range)?;
            walk_expr(alloc, numbers, value)
        }
        Arg::MixPlace(desig) => walk_desig(alloc, numbers, desig),
    }
}

// A designator.
#[cycle(walk)]
fn walk_desig(alloc: Global, numbers: &mut Numbers, desig: &Desig) -> Result<(), NoMemory>
    ensures { OnOk result (AddsPhrases (tables_of numbers.old) (tables_of numbers.new)
        (desig_phrases (desig_of desig.now))) }
{
    walk_sels(alloc, numbers, &desig.sels)
}

// Selectors.
#[cycle(walk)]
fn walk_sels(alloc: Global, numbers: &mut Numbers, sels: &[Sel]) -> Result<(), NoMemory>
    ensures { OnOk result (AddsPhrases (tables_of numbers.old) (tables_of numbers.new)
        (sels_phrases (sels_list sels.now))) }
{
    for sel in sels {
        walk_sel(alloc, numbers, sel)?;
    }
    Ok(())
}

// A selector.
#[cycle(walk)]
fn walk_sel(alloc: Global, numbers: &mut Numbers, sel: &Sel) -> Result<(), NoMemory>
    ensures { OnOk result (AddsPhrases (tables_of numbers.old) (tables_of numbers.new)
        (sel_phrases (sel_of sel.now))) }
{
    match sel {
        Sel::Field(_, _) => Ok(()),
        Sel::Index(index, range, _) => {
            add_range(numbers, *range)?;
            walk_expr(alloc, numbers, index)
        }
    }
}
