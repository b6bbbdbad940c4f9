// How many statements stand in a phrase, at any depth, and how many bytes their texts have.
#![tactic(auto, using(crate::proofs::Counted::counted, std::proofs::lemmas::Grind::common_steps))]

ghost use Rattle.std.specs.Prelude.{◌≡◌, ℕ, IfOk, sum_by};
ghost use Rattle.alma_ir.specs.View.{stmts_list, stmt_of, arms_list, cases_list, branches_list, loop_of, tests_list, test_of, expr_of, links_list, args_list, arg_of, desig_of, sel_of};
ghost use Rattle.alma_ir.specs.Checked.{text_bytes};
ghost use Rattle.alma_ir.specs.Count.{saturate};
ghost use Rattle.alma_ir.specs.Lines.{stmt_count};
ghost use Rattle.alma_ir.specs.Inner.Measures.{own, amount, parts};
ghost use Rattle.alma_ir.specs.Phrases.{stmts_phrases, arms_phrases, cases_phrases, branches_phrases, loop_phrases, tests_phrases, test_phrases, expr_phrases, links_phrases, args_phrases, arg_phrases, desig_phrases, sel_phrases};

use crate::phrase::{Arg, Arm, Branch, CaseArm, Desig, Expr, Link, Loop, Sel, Stmt, Test};
use alma_base::NoMemory;

/// What is counted: each statement, or each byte of its text.
#[derive(Clone, Copy)]
pub enum Measure {
    Statements,
    TextBytes,
}

/// How many statements a list has, with those inside them; NoMemory where there are 2^64-1 or more.
#[tactic(auto, using(crate::proofs::Counted::statements_amount))]
pub fn stmts_inside(body: &[Stmt]) -> Result<usize, NoMemory>
    ensures { IfOk result (λ n. n ≡ stmt_count (stmts_phrases (stmts_list body.now))) }
{
    exact(sum_stmts(Measure::Statements, body))
}

/// How many statements stand inside a designator; NoMemory where there are 2^64-1 or more.
#[tactic(auto, using(crate::proofs::Counted::statements_amount))]
pub fn desig_inside(desig: &Desig) -> Result<usize, NoMemory>
    ensures { IfOk result (λ n. n ≡ stmt_count (desig_phrases (desig_of desig.now))) }
{
    exact(sum_desig(Measure::Statements, desig))
}

/// How many bytes the texts have that stand in a list of statements, or 2^64-1 where that is
/// smaller.
#[tactic(auto, using(crate::proofs::Counted::texts_amount))]
pub fn text_bytes_inside(body: &[Stmt]) -> u64
    ensures { result ≡ saturate (sum_by text_bytes (stmts_phrases (stmts_list body.now))) }
{
    sum_stmts(Measure::TextBytes, body)
}

// A number that was counted, where the count was not cut off.
#[tactic(auto)]
fn exact(count: u64) -> Result<usize, NoMemory>
    ensures { (n : ℕ) → count ≡ saturate n → IfOk result (λ m. m ≡ n) }
{
    if count == u64::MAX {
        return Err(NoMemory);
    }
    Ok(count as usize)
}

// What a statement counts by itself.
#[tactic(auto)]
fn own_amount(measure: Measure, stmt: &Stmt) -> u64
    ensures { result ≡ saturate (own measure (stmt_of stmt.now)) }
{
    match measure {
        Measure::Statements => 1,
        Measure::TextBytes => match stmt {
            Stmt::WriteText(text) => text.len() as u64,
            _ => 0,
        },
    }
}

#[cycle(sum)]
fn sum_stmts(measure: Measure, body: &[Stmt]) -> u64
    ensures { result ≡ saturate (amount measure (stmts_phrases (stmts_list body.now))) }
{
    let mut total: u64 = 0;
    for stmt in body {
        total = total
            .saturating_add(own_amount(measure, stmt))
            .saturating_add(sum_stmt(measure, stmt));
    }
    total
}

// What stands inside of a statement.
#[cycle(sum)]
fn sum_stmt(measure: Measure, stmt: &Stmt) -> u64
    ensures { result ≡ saturate (amount measure (parts (stmt_of stmt.now))) }
{
    match stmt {
        Stmt::Test(test) => sum_test(measure, test),
        Stmt::Assign(desig, value, _) => sum_desig(measure, desig).saturating_add(sum_expr(
            measure, value,
        )),
        Stmt::CopyCells(desig, from) => sum_desig(measure, desig).saturating_add(sum_desig(
            measure, from,
        )),
        Stmt::If(arms, rest) => sum_arms(measure, arms).saturating_add(sum_stmts(measure, rest)),
        Stmt::While(test, body) => sum_test(measure, test).saturating_add(sum_stmts(measure, body)),
        Stmt::Repeat(body, test) => sum_stmts(measure, body).saturating_add(sum_test(
            measure, test,
        )),
        Stmt::ForTo(each) => sum_loop(measure, each),
        Stmt::SomeOf(each) => sum_loop(measure, each),
        Stmt::Case(value, arms, rest) => {
            let total = sum_expr(measure, value).saturating_add(sum_cases(measure, arms));
            match rest {
                None => total,
                Some(rest) => total.saturating_add(sum_stmts(measure, rest)),
            }
        }
        Stmt::Either(branches) => sum_branches(measure, branches),
        Stmt::Forall(each, body) => sum_stmts(measure, each).saturating_add(sum_stmts(
            measure, body,
        )),
        Stmt::Commit(body) => sum_stmts(measure, body),
        Stmt::Return(value) => match value {
            None => 0,
            Some(value) => sum_expr(measure, value),
        },
        Stmt::Read(desig, _, _) => sum_desig(measure, desig),
        Stmt::WriteExpr(value, _) => sum_expr(measure, value),
        Stmt::WriteText(_) | Stmt::WriteLine => 0,
    }
}

#[cycle(sum)]
fn sum_arms(measure: Measure, arms: &[Arm]) -> u64
    ensures { result ≡ saturate (amount measure (arms_phrases (arms_list arms.now))) }
{
    let mut total: u64 = 0;
    for arm in arms {
        total = total
            .saturating_add(sum_test(measure, &arm.cond))
            .saturating_add(sum_stmts(measure, &arm.body));
    }
    total
}

#[cycle(sum)]
fn sum_cases(measure: Measure, arms: &[CaseArm]) -> u64
    ensures { result ≡ saturate (amount measure (cases_phrases (cases_list arms.now))) }
{
    let mut total: u64 = 0;
    for arm in arms {
        total = total.saturating_add(sum_stmts(measure, &arm.body));
    }
    total
}

#[cycle(sum)]
fn sum_branches(measure: Measure, branches: &[Branch]) -> u64
    ensures { result ≡ saturate (amount measure (branches_phrases (branches_list branches.now))) }
{
    let mut total: u64 = 0;
    for branch in branches {
        total = total.saturating_add(sum_stmts(measure, &branch.body));
    }
    total
}

#[cycle(sum)]
fn sum_loop(measure: Measure, each: &Loop) -> u64
    ensures { result ≡ saturate (amount measure (loop_phrases (loop_of each.now))) }
{
    sum_desig(measure, &each.var)
        .saturating_add(sum_expr(measure, &each.from))
        .saturating_add(sum_expr(measure, &each.to))
        .saturating_add(sum_stmts(measure, &each.body))
}

#[cycle(sum)]
fn sum_tests(measure: Measure, tests: &[Test]) -> u64
    ensures { result ≡ saturate (amount measure (tests_phrases (tests_list tests.now))) }
{
    let mut total: u64 = 0;
    for test in tests {
        total = total.saturating_add(sum_test(measure, test));
    }
    total
}

#[cycle(sum)]
fn sum_test(measure: Measure, test: &Test) -> u64
    ensures { result ≡ saturate (amount measure (test_phrases (test_of test.now))) }
{
    match test {
        Test::Value(value) => sum_expr(measure, value),
        Test::Bind(desig, value, _, _) => sum_desig(measure, desig).saturating_add(sum_expr(
            measure, value,
        )),
        Test::Unify(left, _, right, _) => sum_desig(measure, left).saturating_add(sum_desig(
            measure, right,
        )),
        Test::SameCells(left, right) => sum_desig(measure, left).saturating_add(sum_desig(
            measure, right,
        )),
        Test::Seq(body) => sum_stmts(measure, body),
        Test::And(tests) => sum_tests(measure, tests),
        Test::Or(tests) => sum_tests(measure, tests),
        Test::Not(test) => sum_test(measure, test),
        Test::Call(call) => sum_args(measure, &call.args),
    }
}

#[cycle(sum)]
fn sum_expr(measure: Measure, expr: &Expr) -> u64
    ensures { result ≡ saturate (amount measure (expr_phrases (expr_of expr.now))) }
{
    match expr {
        Expr::Const(_) => 0,
        Expr::Load(desig) => sum_desig(measure, desig),
        Expr::Chain(_, first, links) => sum_expr(measure, first).saturating_add(sum_links(
            measure, links,
        )),
        Expr::Compare(_, left, right) => sum_expr(measure, left).saturating_add(sum_expr(
            measure, right,
        )),
        Expr::Truth(test) => sum_test(measure, test),
        Expr::Known(desig) => sum_desig(measure, desig),
        Expr::Chr(value) => sum_expr(measure, value),
        Expr::Call(call) => sum_args(measure, &call.args),
    }
}

#[cycle(sum)]
fn sum_links(measure: Measure, links: &[Link]) -> u64
    ensures { result ≡ saturate (amount measure (links_phrases (links_list links.now))) }
{
    let mut total: u64 = 0;
    for link in links {
        total = total.saturating_add(sum_expr(measure, &link.operand));
    }
    total
}

#[cycle(sum)]
fn sum_args(measure: Measure, args: &[Arg]) -> u64
    ensures { result ≡ saturate (amount measure (args_phrases (args_list args.now))) }
{
    let mut total: u64 = 0;
    for arg in args {
        total = total.saturating_add(sum_arg(measure, arg));
    }
    total
}

#[cycle(sum)]
fn sum_arg(measure: Measure, arg: &Arg) -> u64
    ensures { result ≡ saturate (amount measure (arg_phrases (arg_of arg.now))) }
{
    match arg {
        Arg::Value(value, _) => sum_expr(measure, value),
        Arg::Cells(desig) => sum_desig(measure, desig),
        Arg::Place(desig) => sum_desig(measure, desig),
        Arg::MixValue(value, _) => sum_expr(measure, value),
        Arg::MixPlace(desig) => sum_desig(measure, desig),
    }
}

#[cycle(sum)]
fn sum_desig(measure: Measure, desig: &Desig) -> u64
    ensures { result ≡ saturate (amount measure (desig_phrases (desig_of desig.now))) }
{
    let mut total: u64 = 0;
    for sel in &desig.sels {
        total = total.saturating_add(sum_sel(measure, sel));
    }
    total
}

#[cycle(sum)]
fn sum_sel(measure: Measure, sel: &Sel) -> u64
    ensures { result ≡ saturate (amount measure (sel_phrases (sel_of sel.now))) }
{
    match sel {
        Sel::Field(_, _) => 0,
        Sel::Index(value, _, _) => sum_expr(measure, value),
    }
}
