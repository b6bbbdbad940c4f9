// The code of tests.
ghost use Rattle.std.specs.Prelude.{◌≤◌, true, false, length, drop, OnOk};
ghost use Rattle.alma_ir.specs.View.{desig_of, expr_of, test_of, tests_list};
ghost use Rattle.alma_ir.specs.Tree as tree;
ghost use Rattle.alma_lower_work.specs.Front.{around, front};
ghost use Rattle.alma_lower_work.specs.Puts.{PutsTest, PutsOperands, PutsFirst};
ghost use Rattle.alma_lower_emit.specs.Inside.{EmitsStmts};

use crate::call::emit_call;
use crate::designator::emit_held;
use crate::expression::{emit_expr, emit_first, emit_value};
use crate::inside::emit_inside;
use crate::plain::{bind_place, bind_value, call_of, check_of, unequal_of};
use alma_base::{NoMemory, Range};
use alma_code::Instr;
use alma_ir::{Desig, Expr, Stmt, Test};
use alma_lower_parts::{Scene, Taken, Work, begin_first, end_first, end_not, put_unify, unequal};

/// A test.
#[cycle(emit)]
pub fn emit_test<S>(
    work: &mut Work,
    scene: &Scene<'_>,
    line: u32,
    test: &Test,
    inside: &S,
) -> Result<(), NoMemory>
where
    S: for<'a, 'b, 'c, 'd> Fn(&'a mut Work, &'b Scene<'c>, &'d [Stmt]) -> Result<(), NoMemory>,
    requires emits { EmitsStmts (S.IsAlwaysCallable inside.now) (S.post inside.now) }
    ensures puts { OnOk result (PutsTest (around scene.now) line
        (front work.old) (front work.new) (test_of test.now)) }
{
    match test {
        Test::Value(value) => emit_checked(work, scene, line, value, inside),
        Test::Bind(desig, value, range, left) => {
            emit_bind(work, scene, line, desig, value, *range, *left, inside)
        }
        Test::Unify(left, range, right, other) => {
            emit_unify(work, scene, line, left, *range, right, *other, inside)
        }
        Test::SameCells(left, right) => emit_same_cells(work, scene, line, left, right, inside),
        Test::Seq(body) => emit_inside(work, scene, body, inside),
        Test::And(tests) => emit_and(work, scene, line, tests, inside),
        Test::Or(tests) => emit_or(work, scene, line, tests, inside),
        Test::Not(test) => emit_not(work, scene, line, test, inside),
        Test::Call(call) => {
            let first = emit_call(work, scene, line, call.routine, call.up, &call.args, inside);
            call_of(work, line, call.routine, first)
        }
    }
}

// The value of an expression; where the test is an inequality, it fails by itself.
#[cycle(emit)]
fn emit_checked<S>(
    work: &mut Work,
    scene: &Scene<'_>,
    line: u32,
    value: &Expr,
    inside: &S,
) -> Result<(), NoMemory>
where
    S: for<'a, 'b, 'c, 'd> Fn(&'a mut Work, &'b Scene<'c>, &'d [Stmt]) -> Result<(), NoMemory>,
    requires emits { EmitsStmts (S.IsAlwaysCallable inside.now) (S.post inside.now) }
    ensures puts { OnOk result (PutsTest (around scene.now) line
        (front work.old) (front work.new) (tree.Value (expr_of value.now))) }
{
    match unequal(value) {
        Some((left, right)) => {
            let first = emit_first(work, scene, line, left, Taken::Behind(right), inside)?;
            let other = emit_value(work, scene, line, right, inside);
            unequal_of(work, line, first, other)
        }
        None => {
            let number = emit_value(work, scene, line, value, inside);
            check_of(work, line, number)
        }
    }
}

// An equation of a variable and an expression, of which the one on the left comes first.
#[cycle(emit)]
fn emit_bind<S>(
    work: &mut Work,
    scene: &Scene<'_>,
    line: u32,
    desig: &Desig,
    value: &Expr,
    range: Range,
    left: bool,
    inside: &S,
) -> Result<(), NoMemory>
where
    S: for<'a, 'b, 'c, 'd> Fn(&'a mut Work, &'b Scene<'c>, &'d [Stmt]) -> Result<(), NoMemory>,
    requires emits { EmitsStmts (S.IsAlwaysCallable inside.now) (S.post inside.now) }
    ensures puts { OnOk result (PutsTest (around scene.now) line
        (front work.old) (front work.new)
        (tree.Bind (desig_of desig.now) (expr_of value.now) range left)) }
{
    if left {
        emit_bind_left(work, scene, line, desig, value, range, inside)
    } else {
        emit_bind_right(work, scene, line, desig, value, range, inside)
    }
}

// An equation whose variable stands on the left.
#[cycle(emit)]
fn emit_bind_left<S>(
    work: &mut Work,
    scene: &Scene<'_>,
    line: u32,
    desig: &Desig,
    value: &Expr,
    range: Range,
    inside: &S,
) -> Result<(), NoMemory>
where
    S: for<'a, 'b, 'c, 'd> Fn(&'a mut Work, &'b Scene<'c>, &'d [Stmt]) -> Result<(), NoMemory>,
    requires emits { EmitsStmts (S.IsAlwaysCallable inside.now) (S.post inside.now) }
    ensures puts { OnOk result (PutsTest (around scene.now) line
        (front work.old) (front work.new)
        (tree.Bind (desig_of desig.now) (expr_of value.now) range true)) }
{
    let place = emit_held(work, scene, line, desig, inside)?;
    let number = emit_value(work, scene, line, value, inside);
    bind_value(work, scene, line, place, number, range)
}

// An equation whose variable stands on the right.
#[cycle(emit)]
fn emit_bind_right<S>(
    work: &mut Work,
    scene: &Scene<'_>,
    line: u32,
    desig: &Desig,
    value: &Expr,
    range: Range,
    inside: &S,
) -> Result<(), NoMemory>
where
    S: for<'a, 'b, 'c, 'd> Fn(&'a mut Work, &'b Scene<'c>, &'d [Stmt]) -> Result<(), NoMemory>,
    requires emits { EmitsStmts (S.IsAlwaysCallable inside.now) (S.post inside.now) }
    ensures puts { OnOk result (PutsTest (around scene.now) line
        (front work.old) (front work.new)
        (tree.Bind (desig_of desig.now) (expr_of value.now) range false)) }
{
    let value = emit_expr(work, scene, line, value, inside)?;
    let place = emit_held(work, scene, line, desig, inside);
    bind_place(work, scene, line, place, value, range)
}

// An equation of two variables.
#[cycle(emit)]
fn emit_unify<S>(
    work: &mut Work,
    scene: &Scene<'_>,
    line: u32,
    left: &Desig,
    left_range: Range,
    right: &Desig,
    right_range: Range,
    inside: &S,
) -> Result<(), NoMemory>
where
    S: for<'a, 'b, 'c, 'd> Fn(&'a mut Work, &'b Scene<'c>, &'d [Stmt]) -> Result<(), NoMemory>,
    requires emits { EmitsStmts (S.IsAlwaysCallable inside.now) (S.post inside.now) }
    ensures puts { OnOk result (PutsTest (around scene.now) line
        (front work.old) (front work.new)
        (tree.Unify (desig_of left.now) left_range (desig_of right.now) right_range)) }
{
    let left = emit_held(work, scene, line, left, inside)?;
    let right = emit_held(work, scene, line, right, inside)?;
    put_unify(work, scene, line, (left, left_range), (right, right_range))
}

// An equation of two structured variables.
#[cycle(emit)]
fn emit_same_cells<S>(
    work: &mut Work,
    scene: &Scene<'_>,
    line: u32,
    left: &Desig,
    right: &Desig,
    inside: &S,
) -> Result<(), NoMemory>
where
    S: for<'a, 'b, 'c, 'd> Fn(&'a mut Work, &'b Scene<'c>, &'d [Stmt]) -> Result<(), NoMemory>,
    requires emits { EmitsStmts (S.IsAlwaysCallable inside.now) (S.post inside.now) }
    ensures puts { OnOk result (PutsTest (around scene.now) line
        (front work.old) (front work.new)
        (tree.SameCells (desig_of left.now) (desig_of right.now))) }
{
    let left = emit_held(work, scene, line, left, inside)?;
    let right = emit_held(work, scene, line, right, inside)?;
    work.add(line, Instr::SameCells { left, right })
}

// AND.
#[cycle(emit)]
fn emit_and<S>(
    work: &mut Work,
    scene: &Scene<'_>,
    line: u32,
    tests: &[Test],
    inside: &S,
) -> Result<(), NoMemory>
where
    S: for<'a, 'b, 'c, 'd> Fn(&'a mut Work, &'b Scene<'c>, &'d [Stmt]) -> Result<(), NoMemory>,
    requires emits { EmitsStmts (S.IsAlwaysCallable inside.now) (S.post inside.now) }
    ensures puts { OnOk result (PutsTest (around scene.now) line
        (front work.old) (front work.new) (tree.And (tests_list tests.now))) }
{
    for test in tests {
        emit_test(work, scene, line, test, inside)?;
    }
    Ok(())
}

// OR: the first operand leaves over all, the others by its jump.
#[cycle(emit)]
fn emit_or<S>(
    work: &mut Work,
    scene: &Scene<'_>,
    line: u32,
    tests: &[Test],
    inside: &S,
) -> Result<(), NoMemory>
where
    S: for<'a, 'b, 'c, 'd> Fn(&'a mut Work, &'b Scene<'c>, &'d [Stmt]) -> Result<(), NoMemory>,
    requires emits { EmitsStmts (S.IsAlwaysCallable inside.now) (S.post inside.now) }
    ensures puts { OnOk result (PutsTest (around scene.now) line
        (front work.old) (front work.new) (tree.Or (tests_list tests.now))) }
{
    if tests.is_empty() {
        return work.add(line, Instr::Fail);
    }
    let test = &tests[0];
    if tests.len() == 1 {
        return emit_test(work, scene, line, test, inside);
    }
    let done = emit_operand(work, scene, line, test, inside);
    let exit = work.then_put(done, line, Instr::Jump { to: 0 })?;
    let done = emit_operands(work, scene, line, exit, tests, inside);
    work.then_aim(done, exit, 0)
}

// The operands of OR behind the first, of which there is one.
#[cycle(emit)]
fn emit_operands<S>(
    work: &mut Work,
    scene: &Scene<'_>,
    line: u32,
    exit: u32,
    tests: &[Test],
    inside: &S,
) -> Result<(), NoMemory>
where
    S: for<'a, 'b, 'c, 'd> Fn(&'a mut Work, &'b Scene<'c>, &'d [Stmt]) -> Result<(), NoMemory>,
    requires emits { EmitsStmts (S.IsAlwaysCallable inside.now) (S.post inside.now) }
    ensures puts { 2 ≤ length tests.now → OnOk result (PutsOperands (around scene.now) line exit
        (front work.old) (front work.new) (tests_list (drop 1 tests.now))) }
{
    if tests.len() < 2 {
        return Ok(());
    }
    let last = tests.len() - 1;
    for i in 1..last {
        let test = &tests[i];
        let done = emit_operand(work, scene, line, test, inside);
        work.then_add(done, line, Instr::Jump { to: exit })?;
    }
    let test = &tests[last];
    emit_test(work, scene, line, test, inside)
}

// An operand of OR that is not the last.
#[cycle(emit)]
fn emit_operand<S>(
    work: &mut Work,
    scene: &Scene<'_>,
    line: u32,
    test: &Test,
    inside: &S,
) -> Result<(), NoMemory>
where
    S: for<'a, 'b, 'c, 'd> Fn(&'a mut Work, &'b Scene<'c>, &'d [Stmt]) -> Result<(), NoMemory>,
    requires emits { EmitsStmts (S.IsAlwaysCallable inside.now) (S.post inside.now) }
    ensures puts { OnOk result (PutsFirst (around scene.now) line (front work.old) (front work.new)
        (test_of test.now)) }
{
    let (mark, choice) = begin_first(work, line)?;
    let done = emit_test(work, scene, line, test, inside);
    end_first(work, done, line, mark, choice)
}

// NOT.
#[cycle(emit)]
fn emit_not<S>(
    work: &mut Work,
    scene: &Scene<'_>,
    line: u32,
    test: &Test,
    inside: &S,
) -> Result<(), NoMemory>
where
    S: for<'a, 'b, 'c, 'd> Fn(&'a mut Work, &'b Scene<'c>, &'d [Stmt]) -> Result<(), NoMemory>,
    requires emits { EmitsStmts (S.IsAlwaysCallable inside.now) (S.post inside.now) }
    ensures puts { OnOk result (PutsTest (around scene.now) line
        (front work.old) (front work.new) (tree.Not (test_of test.now))) }
{
    let (mark, choice) = begin_first(work, line)?;
    let done = emit_test(work, scene, line, test, inside);
    end_not(work, done, line, mark, choice)
}
