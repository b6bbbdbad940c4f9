// A copy of phrases, with slots and routines numbered anew.
ghost use Rattle.std.specs.Prelude.{◌≡◌, IfOk};
ghost use Rattle.alma_ir.specs.View.{routine_of, global_of, stmts_list, stmt_of, arms_list, cases_list, branches_list, loop_of, tests_list, test_of, expr_of, links_list, args_list, arg_of, desig_of, sel_of};
ghost use Rattle.alma_copy.specs.Moved.{moved_root, moved_routine, moved_global, moved_stmts, moved_stmt, moved_arms, moved_cases, moved_branches, moved_loop, moved_test, moved_tests, moved_expr, moved_links, moved_args, moved_arg, moved_desig, moved_sel};
ghost use Rattle.alma_copy.specs.Numbers.{slot_behind, number_in, moves_of};

use crate::parts::{both, boxed, copy_ranges, push_part};
use alma_base::NoMemory;
use alma_ir::{
    Arg, Arm, Branch, Call, CaseArm, Desig, Expr, Global as Variable, Link, Loop, Root, Routine,
    Sel, Stmt, Test,
};
use std::alloc::Global;

/// How slots and routines are numbered anew.
#[derive(Clone, Copy)]
pub struct Moves<'m> {
    /// How many slots the slots of the routine itself move; slot 0 stays.
    pub own: u32,
    /// How many the slots of the module's body move; slot 0 stays.
    pub global: u32,
    /// The new number of each routine. A routine for which it has none keeps its number.
    pub routines: &'m [u32],
}

// The new number of a slot. NoMemory where a u32 does not hold it; within the limits of a program
// it does.
fn copy_slot(slot: u32, before: u32) -> Result<u32, NoMemory>
    ensures { IfOk result (λ n. n ≡ slot_behind before slot) }
{
    if slot == 0 {
        return Ok(0);
    }
    slot.checked_add(before).ok_or(NoMemory)
}

// The new number of a routine.
fn copy_number(table: &[u32], routine: u32) -> u32
    ensures { result ≡ number_in table.now routine }
{
    match table.get(routine as usize) {
        None => routine,
        Some(number) => *number,
    }
}

// A root at its new slot; a parameter, and a variable of a procedure round it, stay.
fn copy_root(root: Root, moves: &Moves<'_>) -> Result<Root, NoMemory>
    ensures { IfOk result (λ x. x ≡ moved_root (moves_of moves.now) root) }
{
    match root {
        Root::Local(slot) => Ok(Root::Local(copy_slot(slot, moves.own)?)),
        Root::Global(slot) => Ok(Root::Global(copy_slot(slot, moves.global)?)),
        other => Ok(other),
    }
}

/// The variable of the module at its new slot. NoMemory also where a u32 does not hold the slot,
/// which is not so within the limits of a program.
pub fn copy_global(
    alloc: Global,
    global: &Variable,
    moves: &Moves<'_>,
) -> Result<Variable, NoMemory>
    ensures copy { IfOk result (λ g. global_of g
        ≡ moved_global (moves_of moves.now) (global_of global.now)) }
{
    let slot = copy_slot(global.slot, moves.global)?;
    Ok(Variable {
        name: global.name.to_vec(alloc)?,
        slot,
        cells: global.cells,
    })
}

/// The routine, its body and the routine round it numbered anew. NoMemory also where a u32 does not
/// hold a slot, which is not so within the limits of a program.
pub fn copy_routine(
    alloc: Global,
    routine: &Routine,
    moves: &Moves<'_>,
) -> Result<Routine, NoMemory>
    ensures copy { IfOk result (λ r. routine_of r
        ≡ moved_routine (moves_of moves.now) (routine_of routine.now)) }
{
    Ok(Routine {
        name: routine.name.to_vec(alloc)?,
        params: routine.params.to_vec(alloc)?,
        result: routine.result,
        declared: routine.declared,
        slots: routine.slots,
        body: copy_stmts(alloc, &routine.body, moves)?,
        level: routine.level,
        outer: copy_number(moves.routines, routine.outer),
        line: routine.line,
        lines: routine.lines.to_vec(alloc)?,
    })
}

/// The statements with their slots and routines numbered anew. NoMemory also where a u32 does not
/// hold a slot, which is not so within the limits of a program.
#[cycle(copy)]
pub fn copy_stmts(alloc: Global, body: &[Stmt], moves: &Moves<'_>) -> Result<Vec<Stmt>, NoMemory>
    ensures { IfOk result (λ v. stmts_list v.items
        ≡ moved_stmts (moves_of moves.now) (stmts_list body.now)) }
{
    let mut copy = Vec::with_capacity(alloc, body.len())?;
    for stmt in body {
        push_part(&mut copy, copy_stmt(alloc, stmt, moves))?;
    }
    Ok(copy)
}

#[cycle(copy)]
fn copy_stmt(alloc: Global, stmt: &Stmt, moves: &Moves<'_>) -> Result<Stmt, NoMemory>
    ensures { IfOk result (λ x. stmt_of x ≡ moved_stmt (moves_of moves.now) (stmt_of stmt.now)) }
{
    match stmt {
        Stmt::Test(test) => Ok(Stmt::Test(copy_test(alloc, test, moves)?)),
        Stmt::Assign(desig, value, range) => {
            let value = copy_expr(alloc, value, moves);
            let (desig, value) = both(copy_desig(alloc, desig, moves), value)?;
            Ok(Stmt::Assign(desig, value, *range))
        }
        Stmt::CopyCells(desig, from) => {
            let from = copy_desig(alloc, from, moves);
            let (desig, from) = both(copy_desig(alloc, desig, moves), from)?;
            Ok(Stmt::CopyCells(desig, from))
        }
        Stmt::If(arms, rest) => {
            let rest = copy_stmts(alloc, rest, moves);
            let (arms, rest) = both(copy_arms(alloc, arms, moves), rest)?;
            Ok(Stmt::If(arms, rest))
        }
        Stmt::While(test, body) => {
            let body = copy_stmts(alloc, body, moves);
            let (test, body) = both(copy_test(alloc, test, moves), body)?;
            Ok(Stmt::While(test, body))
        }
        Stmt::Repeat(body, test) => {
            let test = copy_test(alloc, test, moves);
            let (body, test) = both(copy_stmts(alloc, body, moves), test)?;
            Ok(Stmt::Repeat(body, test))
        }
        Stmt::ForTo(each) => Ok(Stmt::ForTo(copy_loop(alloc, each, moves)?)),
        Stmt::SomeOf(each) => Ok(Stmt::SomeOf(copy_loop(alloc, each, moves)?)),
        Stmt::Case(value, arms, rest) => {
            let arms = copy_cases(alloc, arms, moves);
            let (value, arms) = both(copy_expr(alloc, value, moves), arms)?;
            match rest {
                None => Ok(Stmt::Case(value, arms, None)),
                Some(rest) => Ok(Stmt::Case(value, arms, Some(copy_stmts(alloc, rest, moves)?))),
            }
        }
        Stmt::Either(branches) => Ok(Stmt::Either(copy_branches(alloc, branches, moves)?)),
        Stmt::Forall(each, body) => {
            let body = copy_stmts(alloc, body, moves);
            let (each, body) = both(copy_stmts(alloc, each, moves), body)?;
            Ok(Stmt::Forall(each, body))
        }
        Stmt::Commit(body) => Ok(Stmt::Commit(copy_stmts(alloc, body, moves)?)),
        Stmt::Return(value) => match value {
            None => Ok(Stmt::Return(None)),
            Some(value) => Ok(Stmt::Return(Some(copy_expr(alloc, value, moves)?))),
        },
        Stmt::Read(desig, how, range) => {
            Ok(Stmt::Read(copy_desig(alloc, desig, moves)?, *how, *range))
        }
        Stmt::WriteExpr(value, how) => Ok(Stmt::WriteExpr(copy_expr(alloc, value, moves)?, *how)),
        Stmt::WriteText(text) => Ok(Stmt::WriteText(text.to_vec(alloc)?)),
        Stmt::WriteLine => Ok(Stmt::WriteLine),
    }
}

#[cycle(copy)]
fn copy_arms(alloc: Global, arms: &[Arm], moves: &Moves<'_>) -> Result<Vec<Arm>, NoMemory>
    ensures { IfOk result (λ v. arms_list v.items
        ≡ moved_arms (moves_of moves.now) (arms_list arms.now)) }
{
    let mut copy = Vec::with_capacity(alloc, arms.len())?;
    for arm in arms {
        let body = copy_stmts(alloc, &arm.body, moves);
        let (cond, body) = both(copy_test(alloc, &arm.cond, moves), body)?;
        copy.push(Arm { cond, body })?;
    }
    Ok(copy)
}

#[cycle(copy)]
fn copy_cases(alloc: Global, arms: &[CaseArm], moves: &Moves<'_>) -> Result<Vec<CaseArm>, NoMemory>
    ensures { IfOk result (λ v. cases_list v.items
        ≡ moved_cases (moves_of moves.now) (cases_list arms.now)) }
{
    let mut copy = Vec::with_capacity(alloc, arms.len())?;
    for arm in arms {
        let body = copy_stmts(alloc, &arm.body, moves);
        let (labels, body) = both(copy_ranges(alloc, &arm.labels), body)?;
        copy.push(CaseArm { labels, body })?;
    }
    Ok(copy)
}

#[cycle(copy)]
fn copy_branches(
    alloc: Global,
    branches: &[Branch],
    moves: &Moves<'_>,
) -> Result<Vec<Branch>, NoMemory>
    ensures { IfOk result (λ v. branches_list v.items
        ≡ moved_branches (moves_of moves.now) (branches_list branches.now)) }
{
    let mut copy = Vec::with_capacity(alloc, branches.len())?;
    for branch in branches {
        let body = copy_stmts(alloc, &branch.body, moves)?;
        copy.push(Branch { body })?;
    }
    Ok(copy)
}

#[cycle(copy)]
fn copy_loop(alloc: Global, each: &Loop, moves: &Moves<'_>) -> Result<Loop, NoMemory>
    ensures { IfOk result (λ x. loop_of x ≡ moved_loop (moves_of moves.now) (loop_of each.now)) }
{
    let counter = copy_slot(each.counter, moves.own)?;
    let limit = copy_slot(each.limit, moves.own)?;
    let from = copy_expr(alloc, &each.from, moves);
    let to = copy_expr(alloc, &each.to, moves);
    let body = copy_stmts(alloc, &each.body, moves);
    let (var, body) = both(copy_desig(alloc, &each.var, moves), body)?;
    let (from, to) = both(from, to)?;
    Ok(Loop {
        var,
        range: each.range,
        counter,
        limit,
        from,
        to,
        by: each.by,
        body,
    })
}

#[cycle(copy)]
fn copy_tests(alloc: Global, tests: &[Test], moves: &Moves<'_>) -> Result<Vec<Test>, NoMemory>
    ensures { IfOk result (λ v. tests_list v.items
        ≡ moved_tests (moves_of moves.now) (tests_list tests.now)) }
{
    let mut copy = Vec::with_capacity(alloc, tests.len())?;
    for test in tests {
        push_part(&mut copy, copy_test(alloc, test, moves))?;
    }
    Ok(copy)
}

#[cycle(copy)]
fn copy_test(alloc: Global, test: &Test, moves: &Moves<'_>) -> Result<Test, NoMemory>
    ensures { IfOk result (λ x. test_of x ≡ moved_test (moves_of moves.now) (test_of test.now)) }
{
    match test {
        Test::Value(value) => Ok(Test::Value(copy_expr(alloc, value, moves)?)),
        Test::Bind(desig, value, range, left) => {
            let value = copy_expr(alloc, value, moves);
            let (desig, value) = both(copy_desig(alloc, desig, moves), value)?;
            Ok(Test::Bind(desig, value, *range, *left))
        }
        Test::Unify(left, range, right, other) => {
            let right = copy_desig(alloc, right, moves);
            let (left, right) = both(copy_desig(alloc, left, moves), right)?;
            Ok(Test::Unify(left, *range, right, *other))
        }
        Test::SameCells(left, right) => {
            let right = copy_desig(alloc, right, moves);
            let (left, right) = both(copy_desig(alloc, left, moves), right)?;
            Ok(Test::SameCells(left, right))
        }
        Test::Seq(body) => Ok(Test::Seq(copy_stmts(alloc, body, moves)?)),
        Test::And(tests) => Ok(Test::And(copy_tests(alloc, tests, moves)?)),
        Test::Or(tests) => Ok(Test::Or(copy_tests(alloc, tests, moves)?)),
        Test::Not(test) => Ok(Test::Not(boxed(alloc, copy_test(alloc, test, moves))?)),
        Test::Call(call) => Ok(Test::Call(Call {
            routine: copy_number(moves.routines, call.routine),
            args: copy_args(alloc, &call.args, moves)?,
            up: call.up,
        })),
    }
}

#[cycle(copy)]
fn copy_expr(alloc: Global, expr: &Expr, moves: &Moves<'_>) -> Result<Expr, NoMemory>
    ensures { IfOk result (λ x. expr_of x ≡ moved_expr (moves_of moves.now) (expr_of expr.now)) }
{
    match expr {
        Expr::Const(number) => Ok(Expr::Const(*number)),
        Expr::Load(desig) => Ok(Expr::Load(copy_desig(alloc, desig, moves)?)),
        Expr::Chain(negated, first, links) => {
            let first = boxed(alloc, copy_expr(alloc, first, moves));
            let (first, links) = both(first, copy_links(alloc, links, moves))?;
            Ok(Expr::Chain(*negated, first, links))
        }
        Expr::Compare(how, left, right) => {
            let left = boxed(alloc, copy_expr(alloc, left, moves));
            let right = boxed(alloc, copy_expr(alloc, right, moves));
            let (left, right) = both(left, right)?;
            Ok(Expr::Compare(*how, left, right))
        }
        Expr::Truth(test) => Ok(Expr::Truth(boxed(alloc, copy_test(alloc, test, moves))?)),
        Expr::Known(desig) => Ok(Expr::Known(copy_desig(alloc, desig, moves)?)),
        Expr::Chr(value) => Ok(Expr::Chr(boxed(alloc, copy_expr(alloc, value, moves))?)),
        Expr::Call(call) => Ok(Expr::Call(Call {
            routine: copy_number(moves.routines, call.routine),
            args: copy_args(alloc, &call.args, moves)?,
            up: call.up,
        })),
    }
}

#[cycle(copy)]
fn copy_links(alloc: Global, links: &[Link], moves: &Moves<'_>) -> Result<Vec<Link>, NoMemory>
    ensures { IfOk result (λ v. links_list v.items
        ≡ moved_links (moves_of moves.now) (links_list links.now)) }
{
    let mut copy = Vec::with_capacity(alloc, links.len())?;
    for link in links {
        let operand = copy_expr(alloc, &link.operand, moves)?;
        copy.push(Link {
            op: link.op,
            operand,
        })?;
    }
    Ok(copy)
}

#[cycle(copy)]
fn copy_args(alloc: Global, args: &[Arg], moves: &Moves<'_>) -> Result<Vec<Arg>, NoMemory>
    ensures { IfOk result (λ v. args_list v.items
        ≡ moved_args (moves_of moves.now) (args_list args.now)) }
{
    let mut copy = Vec::with_capacity(alloc, args.len())?;
    for arg in args {
        push_part(&mut copy, copy_arg(alloc, arg, moves))?;
    }
    Ok(copy)
}

#[cycle(copy)]
fn copy_arg(alloc: Global, arg: &Arg, moves: &Moves<'_>) -> Result<Arg, NoMemory>
    ensures { IfOk result (λ x. arg_of x ≡ moved_arg (moves_of moves.now) (arg_of arg.now)) }
{
    match arg {
        Arg::Value(value, range) => Ok(Arg::Value(copy_expr(alloc, value, moves)?, *range)),
        Arg::Cells(desig) => Ok(Arg::Cells(copy_desig(alloc, desig, moves)?)),
        Arg::Place(desig) => Ok(Arg::Place(copy_desig(alloc, desig, moves)?)),
        Arg::MixValue(value, range) => Ok(Arg::MixValue(copy_expr(alloc, value, moves)?, *range)),
        Arg::MixPlace(desig) => Ok(Arg::MixPlace(copy_desig(alloc, desig, moves)?)),
    }
}

#[cycle(copy)]
fn copy_desig(alloc: Global, desig: &Desig, moves: &Moves<'_>) -> Result<Desig, NoMemory>
    ensures { IfOk result (λ x. desig_of x
        ≡ moved_desig (moves_of moves.now) (desig_of desig.now)) }
{
    let root = copy_root(desig.root, moves)?;
    let mut sels = Vec::with_capacity(alloc, desig.sels.len())?;
    for sel in &desig.sels {
        push_part(&mut sels, copy_sel(alloc, sel, moves))?;
    }
    Ok(Desig {
        root,
        cells: desig.cells,
        sels,
    })
}

#[cycle(copy)]
fn copy_sel(alloc: Global, sel: &Sel, moves: &Moves<'_>) -> Result<Sel, NoMemory>
    ensures { IfOk result (λ x. sel_of x ≡ moved_sel (moves_of moves.now) (sel_of sel.now)) }
{
    match sel {
        Sel::Field(offset, cells) => Ok(Sel::Field(*offset, *cells)),
        Sel::Index(value, range, cells) => {
            Ok(Sel::Index(copy_expr(alloc, value, moves)?, *range, *cells))
        }
    }
}
