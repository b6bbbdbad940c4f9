// The size of a program.

ghost use Rattle.std.specs.Prelude.{◌≡◌, ◌*◌};
ghost use Rattle.alma_ir.specs.View.{program_of, stmts_list, stmt_of, arms_list, cases_list, branches_list, loop_of, tests_list, test_of, expr_of, links_list, args_list, arg_of, desig_of, sel_of};
ghost use Rattle.alma_ir.specs.Count.{saturate, nodes, stmts_nodes, stmt_nodes, arms_nodes, cases_nodes, branches_nodes, loop_nodes, tests_nodes, test_nodes, expr_nodes, links_nodes, args_nodes, arg_nodes, desig_nodes, sel_nodes};

use crate::{Arg, Arm, Branch, CaseArm, Desig, Expr, Link, Loop, Program, Sel, Stmt, Test};

/// 16 times the number of nodes, or 2^64-1 where that is smaller.
pub fn size(program: &Program) -> u64
    ensures { result ≡ saturate (16 * nodes (program_of program.now)) }
{
    let mut total: u64 = 0;
    for routine in &program.routines {
        total = total
            .saturating_add(1)
            .saturating_add(count_stmts(&routine.body));
    }
    total.saturating_mul(16)
}

#[cycle(count)]
fn count_stmts(body: &[Stmt]) -> u64
    ensures { result ≡ saturate (stmts_nodes (stmts_list body.now)) }
{
    let mut total: u64 = 0;
    for stmt in body {
        total = total.saturating_add(count_stmt(stmt));
    }
    total
}

#[cycle(count)]
fn count_stmt(stmt: &Stmt) -> u64
    ensures { result ≡ saturate (stmt_nodes (stmt_of stmt.now)) }
{
    match stmt {
        Stmt::Test(test) => count_test(test).saturating_add(1),
        Stmt::Assign(desig, value, _) => count_desig(desig)
            .saturating_add(count_expr(value))
            .saturating_add(1),
        Stmt::CopyCells(desig, from) => count_desig(desig)
            .saturating_add(count_desig(from))
            .saturating_add(1),
        Stmt::If(arms, rest) => count_arms(arms)
            .saturating_add(count_stmts(rest))
            .saturating_add(1),
        Stmt::While(test, body) => count_test(test)
            .saturating_add(count_stmts(body))
            .saturating_add(1),
        Stmt::Repeat(body, test) => count_stmts(body)
            .saturating_add(count_test(test))
            .saturating_add(1),
        Stmt::ForTo(each) => count_loop(each).saturating_add(1),
        Stmt::SomeOf(each) => count_loop(each).saturating_add(1),
        Stmt::Case(value, arms, rest) => {
            let total = count_expr(value)
                .saturating_add(count_cases(arms))
                .saturating_add(1);
            match rest {
                None => total,
                Some(rest) => total.saturating_add(count_stmts(rest)),
            }
        }
        Stmt::Either(branches) => count_branches(branches).saturating_add(1),
        Stmt::Forall(each, body) => count_stmts(each)
            .saturating_add(count_stmts(body))
            .saturating_add(1),
        Stmt::Commit(body) => count_stmts(body).saturating_add(1),
        Stmt::Return(value) => match value {
            None => 1,
            Some(value) => count_expr(value).saturating_add(1),
        },
        Stmt::Read(desig, _, _) => count_desig(desig).saturating_add(1),
        Stmt::WriteExpr(value, _) => count_expr(value).saturating_add(1),
        Stmt::WriteText(_) | Stmt::WriteLine => 1,
    }
}

#[cycle(count)]
fn count_arms(arms: &[Arm]) -> u64
    ensures { result ≡ saturate (arms_nodes (arms_list arms.now)) }
{
    let mut total: u64 = 0;
    for arm in arms {
        total = total
            .saturating_add(1)
            .saturating_add(count_test(&arm.cond))
            .saturating_add(count_stmts(&arm.body));
    }
    total
}

#[cycle(count)]
fn count_cases(arms: &[CaseArm]) -> u64
    ensures { result ≡ saturate (cases_nodes (cases_list arms.now)) }
{
    let mut total: u64 = 0;
    for arm in arms {
        total = total
            .saturating_add(1)
            .saturating_add(arm.labels.len() as u64)
            .saturating_add(count_stmts(&arm.body));
    }
    total
}

#[cycle(count)]
fn count_branches(branches: &[Branch]) -> u64
    ensures { result ≡ saturate (branches_nodes (branches_list branches.now)) }
{
    let mut total: u64 = 0;
    for branch in branches {
        total = total
            .saturating_add(1)
            .saturating_add(count_stmts(&branch.body));
    }
    total
}

#[cycle(count)]
fn count_loop(each: &Loop) -> u64
    ensures { result ≡ saturate (loop_nodes (loop_of each.now)) }
{
    count_desig(&each.var)
        .saturating_add(count_expr(&each.from))
        .saturating_add(count_expr(&each.to))
        .saturating_add(count_stmts(&each.body))
}

#[cycle(count)]
fn count_tests(tests: &[Test]) -> u64
    ensures { result ≡ saturate (tests_nodes (tests_list tests.now)) }
{
    let mut total: u64 = 0;
    for test in tests {
        total = total.saturating_add(count_test(test));
    }
    total
}

#[cycle(count)]
fn count_test(test: &Test) -> u64
    ensures { result ≡ saturate (test_nodes (test_of test.now)) }
{
    match test {
        Test::Value(value) => count_expr(value).saturating_add(1),
        Test::Bind(desig, value, _, _) => count_desig(desig)
            .saturating_add(count_expr(value))
            .saturating_add(1),
        Test::Unify(left, _, right, _) => count_desig(left)
            .saturating_add(count_desig(right))
            .saturating_add(1),
        Test::SameCells(left, right) => count_desig(left)
            .saturating_add(count_desig(right))
            .saturating_add(1),
        Test::Seq(body) => count_stmts(body).saturating_add(1),
        Test::And(tests) => count_tests(tests).saturating_add(1),
        Test::Or(tests) => count_tests(tests).saturating_add(1),
        Test::Not(test) => count_test(test).saturating_add(1),
        Test::Call(call) => count_args(&call.args).saturating_add(1),
    }
}

#[cycle(count)]
fn count_expr(expr: &Expr) -> u64
    ensures { result ≡ saturate (expr_nodes (expr_of expr.now)) }
{
    match expr {
        Expr::Const(_) => 1,
        Expr::Load(desig) => count_desig(desig).saturating_add(1),
        Expr::Chain(_, first, links) => count_expr(first)
            .saturating_add(count_links(links))
            .saturating_add(1),
        Expr::Compare(_, left, right) => count_expr(left)
            .saturating_add(count_expr(right))
            .saturating_add(1),
        Expr::Truth(test) => count_test(test).saturating_add(1),
        Expr::Known(desig) => count_desig(desig).saturating_add(1),
        Expr::Chr(value) => count_expr(value).saturating_add(1),
        Expr::Call(call) => count_args(&call.args).saturating_add(1),
    }
}

#[cycle(count)]
fn count_links(links: &[Link]) -> u64
    ensures { result ≡ saturate (links_nodes (links_list links.now)) }
{
    let mut total: u64 = 0;
    for link in links {
        total = total.saturating_add(count_expr(&link.operand));
    }
    total
}

#[cycle(count)]
fn count_args(args: &[Arg]) -> u64
    ensures { result ≡ saturate (args_nodes (args_list args.now)) }
{
    let mut total: u64 = 0;
    for arg in args {
        total = total.saturating_add(count_arg(arg));
    }
    total
}

#[cycle(count)]
fn count_arg(arg: &Arg) -> u64
    ensures { result ≡ saturate (arg_nodes (arg_of arg.now)) }
{
    match arg {
        Arg::Value(value, _) => count_expr(value).saturating_add(1),
        Arg::Cells(desig) => count_desig(desig).saturating_add(1),
        Arg::Place(desig) => count_desig(desig).saturating_add(1),
        Arg::MixValue(value, _) => count_expr(value).saturating_add(1),
        Arg::MixPlace(desig) => count_desig(desig).saturating_add(1),
    }
}

#[cycle(count)]
fn count_desig(desig: &Desig) -> u64
    ensures { result ≡ saturate (desig_nodes (desig_of desig.now)) }
{
    let mut total: u64 = 1;
    for sel in &desig.sels {
        total = total.saturating_add(count_sel(sel));
    }
    total
}

#[cycle(count)]
fn count_sel(sel: &Sel) -> u64
    ensures { result ≡ saturate (sel_nodes (sel_of sel.now)) }
{
    match sel {
        Sel::Field(_, _) => 1,
        Sel::Index(value, _, _) => count_expr(value).saturating_add(1),
    }
}
