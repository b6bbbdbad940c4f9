// The code of IF, WHILE and REPEAT.
ghost use Rattle.std.specs.Prelude.{◌≡◌, ℕ, drop, true, OnOk};
ghost use Rattle.alma_ir.specs.View.{arms_list, expr_of, stmts_list, test_of};
ghost use Rattle.alma_ir.specs.Tree as tree;
ghost use Rattle.alma_lower_templates.specs.Slots.{constant, is_turned};
ghost use Rattle.alma_lower_work.specs.Front.{around, front};
ghost use Rattle.alma_lower_work.specs.Puts.{PutsStmt, PutsArms, PutsBack, PutsGuarded};
ghost use Rattle.alma_lower_parts.specs.Steps.{held_slot};
ghost use Rattle.alma_lower_emit.specs.Inside.{EmitsStmts};

use crate::condition::emit_guard;
use crate::expression::{emit_first, emit_value};
use crate::inside::emit_inside;
use alma_base::NoMemory;
use alma_code::Instr;
use alma_ir::{Arm, Cmp, Expr, Stmt, Test};
use alma_lower_parts::{
    Scene, Taken, Work, begin_while, end_repeat, put_back, put_held, put_held_back, turned_test,
};

// A condition, and what is done where it has an alternative; else the code goes on behind the jump
// that follows.
fn emit_guarded<S>(
    work: &mut Work,
    scene: &Scene<'_>,
    line: u32,
    test: &Test,
    body: &[Stmt],
    inside: &S,
) -> Result<(), NoMemory>
where
    S: for<'a, 'b, 'c, 'd> Fn(&'a mut Work, &'b Scene<'c>, &'d [Stmt]) -> Result<(), NoMemory>,
    requires emits { EmitsStmts (S.IsAlwaysCallable inside.now) (S.post inside.now) }
    ensures puts { OnOk result (PutsGuarded (around scene.now) line 1 (front work.old)
        (front work.new) (test_of test.now) (stmts_list body.now)) }
{
    let jump = emit_guard(work, scene, line, test, inside)?;
    let done = emit_inside(work, scene, body, inside);
    work.then_aim(done, jump, 1)
}

// IF: the first arm leaves over all, the others by its jump.
pub(crate) fn emit_if<S>(
    work: &mut Work,
    scene: &Scene<'_>,
    line: u32,
    arms: &[Arm],
    rest: &[Stmt],
    inside: &S,
) -> Result<(), NoMemory>
where
    S: for<'a, 'b, 'c, 'd> Fn(&'a mut Work, &'b Scene<'c>, &'d [Stmt]) -> Result<(), NoMemory>,
    requires emits { EmitsStmts (S.IsAlwaysCallable inside.now) (S.post inside.now) }
    ensures puts { OnOk result (PutsStmt (around scene.now) line
        (front work.old) (front work.new) (tree.If (arms_list arms.now) (stmts_list rest.now))) }
{
    if arms.is_empty() {
        return emit_inside(work, scene, rest, inside);
    }
    let arm = &arms[0];
    let done = emit_guarded(work, scene, line, &arm.cond, &arm.body, inside);
    let exit = work.then_put(done, line, Instr::Jump { to: 0 })?;
    emit_arms(work, scene, line, exit, arms, inside)?;
    let done = emit_inside(work, scene, rest, inside);
    work.then_aim(done, exit, 0)
}

// The arms of IF behind the first.
fn emit_arms<S>(
    work: &mut Work,
    scene: &Scene<'_>,
    line: u32,
    exit: u32,
    arms: &[Arm],
    inside: &S,
) -> Result<(), NoMemory>
where
    S: for<'a, 'b, 'c, 'd> Fn(&'a mut Work, &'b Scene<'c>, &'d [Stmt]) -> Result<(), NoMemory>,
    requires emits { EmitsStmts (S.IsAlwaysCallable inside.now) (S.post inside.now) }
    ensures puts { OnOk result (PutsArms (around scene.now) line exit
        (front work.old) (front work.new) (arms_list (drop 1 arms.now))) }
{
    for i in 1..arms.len() {
        let arm = &arms[i];
        let done = emit_guarded(work, scene, line, &arm.cond, &arm.body, inside);
        work.then_add(done, line, Instr::Jump { to: exit })?;
    }
    Ok(())
}

// WHILE.
pub(crate) fn emit_while<S>(
    work: &mut Work,
    scene: &Scene<'_>,
    line: u32,
    test: &Test,
    body: &[Stmt],
    inside: &S,
) -> Result<(), NoMemory>
where
    S: for<'a, 'b, 'c, 'd> Fn(&'a mut Work, &'b Scene<'c>, &'d [Stmt]) -> Result<(), NoMemory>,
    requires emits { EmitsStmts (S.IsAlwaysCallable inside.now) (S.post inside.now) }
    ensures puts { OnOk result (PutsStmt (around scene.now) line
        (front work.old) (front work.new) (tree.While (test_of test.now) (stmts_list body.now))) }
{
    match turned_test(test) {
        Some((how, left, right)) => emit_turned(work, scene, line, how, left, right, body, inside),
        None => {
            let top = begin_while(work, line)?;
            let done = emit_guarded(work, scene, line, test, body, inside);
            work.then_add(done, line, Instr::Jump { to: top })
        }
    }
}

// WHILE whose condition stands behind its body.
fn emit_turned<S>(
    work: &mut Work,
    scene: &Scene<'_>,
    line: u32,
    how: Cmp,
    left: &Expr,
    right: &Expr,
    body: &[Stmt],
    inside: &S,
) -> Result<(), NoMemory>
where
    S: for<'a, 'b, 'c, 'd> Fn(&'a mut Work, &'b Scene<'c>, &'d [Stmt]) -> Result<(), NoMemory>,
    requires emits { EmitsStmts (S.IsAlwaysCallable inside.now) (S.post inside.now) }
    ensures puts { is_turned (tree.Value (tree.Compare how (expr_of left.now) (expr_of right.now)))
        ≡ true → OnOk result (PutsStmt (around scene.now) line (front work.old) (front work.new)
        (tree.While (tree.Value (tree.Compare how (expr_of left.now) (expr_of right.now)))
        (stmts_list body.now))) }
{
    let held = put_held(work, line, right)?;
    let jump = work.put(line, Instr::Jump { to: 0 })?;
    let top = work.here()?;
    let done = emit_inside(work, scene, body, inside);
    work.then_aim(done, jump, 0)?;
    emit_back(work, scene, line, how, left, right, held, top, inside)
}

// A comparison, which goes back to `top` while it holds. A constant that is its second operand is
// held in a slot.
fn emit_back<S>(
    work: &mut Work,
    scene: &Scene<'_>,
    line: u32,
    how: Cmp,
    left: &Expr,
    right: &Expr,
    held: Option<u32>,
    top: u32,
    inside: &S,
) -> Result<(), NoMemory>
where
    S: for<'a, 'b, 'c, 'd> Fn(&'a mut Work, &'b Scene<'c>, &'d [Stmt]) -> Result<(), NoMemory>,
    requires emits { EmitsStmts (S.IsAlwaysCallable inside.now) (S.post inside.now) }
    ensures puts { (slot : ℕ) → held ≡ held_slot (constant (expr_of right.now)) slot
        → OnOk result (PutsBack (around scene.now) line slot top (front work.old) (front work.new)
        (tree.Value (tree.Compare how (expr_of left.now) (expr_of right.now)))) }
{
    let first = emit_first(work, scene, line, left, Taken::Behind(right), inside)?;
    match held {
        Some(held) => put_held_back(work, line, how, first, held, top),
        None => {
            let other = emit_value(work, scene, line, right, inside)?;
            put_back(work, line, how, first, other, top)
        }
    }
}

// REPEAT.
pub(crate) fn emit_repeat<S>(
    work: &mut Work,
    scene: &Scene<'_>,
    line: u32,
    body: &[Stmt],
    test: &Test,
    inside: &S,
) -> Result<(), NoMemory>
where
    S: for<'a, 'b, 'c, 'd> Fn(&'a mut Work, &'b Scene<'c>, &'d [Stmt]) -> Result<(), NoMemory>,
    requires emits { EmitsStmts (S.IsAlwaysCallable inside.now) (S.post inside.now) }
    ensures puts { OnOk result (PutsStmt (around scene.now) line
        (front work.old) (front work.new) (tree.Repeat (stmts_list body.now) (test_of test.now))) }
{
    let top = work.here()?;
    emit_inside(work, scene, body, inside)?;
    let jump = emit_guard(work, scene, line, test, inside);
    end_repeat(work, jump, top)
}
