// The code of CASE.
ghost use Rattle.std.specs.Prelude.{◌≡◌, ◌+◌, OnOk};
ghost use Rattle.alma_ir.specs.View.{cases_list, else_option, expr_of, stmts_list};
ghost use Rattle.alma_ir.specs.Tree as tree;
ghost use Rattle.alma_ir.specs.Tree.{CaseArms};
ghost use Rattle.alma_lower_work.specs.Front.{around, front, Front};
ghost use Rattle.alma_lower_work.specs.Puts.{PutsStmt, PutsCases, PutsDead, PutsDeadBodies, PutsElse};
ghost use Rattle.alma_lower_parts.specs.Cases.{PutsAllArms, PutsArmOf};
ghost use Rattle.alma_lower_emit.specs.Inside.{EmitsStmts};

use crate::expression::emit_expr;
use crate::inside::emit_inside;
use alma_base::NoMemory;
use alma_code::{Instr, NO_CASE};
use alma_ir::{CaseArm, Expr, Stmt};
use alma_lower_parts::{
    Labels, Scene, Work, end_arm, end_dead, has_dead, pass_stmts, pass_unlabelled, put_labels,
    then_take_labels,
};

// CASE.
pub(crate) fn emit_case<S>(
    work: &mut Work,
    scene: &Scene<'_>,
    line: u32,
    value: &Expr,
    arms: &[CaseArm],
    rest: &Option<Vec<Stmt>>,
    inside: &S,
) -> Result<(), NoMemory>
where
    S: for<'a, 'b, 'c, 'd> Fn(&'a mut Work, &'b Scene<'c>, &'d [Stmt]) -> Result<(), NoMemory>,
    requires emits { EmitsStmts (S.IsAlwaysCallable inside.now) (S.post inside.now) }
    ensures puts { OnOk result (PutsStmt (around scene.now) line
        (front work.old) (front work.new)
        (tree.Case (expr_of value.now) (cases_list arms.now) (else_option rest.now))) }
{
    let value = emit_expr(work, scene, line, value, inside)?;
    let done = emit_dead_arms(work, scene, line, arms, inside);
    let labels = then_take_labels(work, done, value)?;
    emit_all_arms(work, scene, line, labels, arms, rest, inside)
}

// The arms of CASE without a label, behind a jump over them, where there are some: they are never
// tried. The lines of all arms are still to be handed out.
fn emit_dead_arms<S>(
    work: &mut Work,
    scene: &Scene<'_>,
    line: u32,
    arms: &[CaseArm],
    inside: &S,
) -> Result<(), NoMemory>
where
    S: for<'a, 'b, 'c, 'd> Fn(&'a mut Work, &'b Scene<'c>, &'d [Stmt]) -> Result<(), NoMemory>,
    requires emits { EmitsStmts (S.IsAlwaysCallable inside.now) (S.post inside.now) }
    ensures puts { OnOk result (PutsDead (around scene.now) line
        (front work.old) (front work.new) (cases_list arms.now)) }
{
    if !has_dead(arms) {
        return Ok(());
    }
    let before = work.position();
    let over = work.put(line, Instr::Jump { to: 0 })?;
    let done = emit_dead_bodies(work, scene, arms, inside);
    end_dead(work, done, before, over)
}

// The bodies of the arms of CASE without a label.
fn emit_dead_bodies<S>(
    work: &mut Work,
    scene: &Scene<'_>,
    arms: &[CaseArm],
    inside: &S,
) -> Result<(), NoMemory>
where
    S: for<'a, 'b, 'c, 'd> Fn(&'a mut Work, &'b Scene<'c>, &'d [Stmt]) -> Result<(), NoMemory>,
    requires emits { EmitsStmts (S.IsAlwaysCallable inside.now) (S.post inside.now) }
    ensures puts { OnOk result (PutsDeadBodies (around scene.now)
        (front work.old) (front work.new) (cases_list arms.now)) }
{
    for arm in arms {
        emit_dead_body(work, scene, arm, inside)?;
    }
    Ok(())
}

// The body of an arm of CASE, if it has no label.
fn emit_dead_body<S>(
    work: &mut Work,
    scene: &Scene<'_>,
    arm: &CaseArm,
    inside: &S,
) -> Result<(), NoMemory>
where
    S: for<'a, 'b, 'c, 'd> Fn(&'a mut Work, &'b Scene<'c>, &'d [Stmt]) -> Result<(), NoMemory>,
    requires emits { EmitsStmts (S.IsAlwaysCallable inside.now) (S.post inside.now) }
    ensures puts { OnOk result ((c : Front) (rest : CaseArms)
        → PutsDeadBodies (around scene.now) (front work.new) c rest
        → PutsDeadBodies (around scene.now) (front work.old) c
        (tree.more_cases arm.now.labels.items (stmts_list arm.now.body.items) rest)) }
{
    if !arm.labels.is_empty() {
        return pass_stmts(work, &arm.body);
    }
    emit_inside(work, scene, &arm.body, inside)
}

// The arms of CASE that have a label. Those before the first of them have their code elsewhere.
fn emit_all_arms<S>(
    work: &mut Work,
    scene: &Scene<'_>,
    line: u32,
    labels: Labels,
    arms: &[CaseArm],
    rest: &Option<Vec<Stmt>>,
    inside: &S,
) -> Result<(), NoMemory>
where
    S: for<'a, 'b, 'c, 'd> Fn(&'a mut Work, &'b Scene<'c>, &'d [Stmt]) -> Result<(), NoMemory>,
    requires emits { EmitsStmts (S.IsAlwaysCallable inside.now) (S.post inside.now) }
    ensures puts { labels.test ≡ labels.bound + 1 → OnOk result (PutsAllArms (around scene.now) line
        labels.value labels.bound (front work.old) (front work.new) (cases_list arms.now)
        (else_option rest.now)) }
{
    let first = pass_unlabelled(work, arms)?;
    if first >= arms.len() {
        return emit_else(work, scene, line, rest, inside);
    }
    emit_labelled(work, scene, line, labels, &arms[first..], rest, inside)
}

// The arms of CASE, of which the first has a label: it leaves over all, the others by its jump.
fn emit_labelled<S>(
    work: &mut Work,
    scene: &Scene<'_>,
    line: u32,
    labels: Labels,
    arms: &[CaseArm],
    rest: &Option<Vec<Stmt>>,
    inside: &S,
) -> Result<(), NoMemory>
where
    S: for<'a, 'b, 'c, 'd> Fn(&'a mut Work, &'b Scene<'c>, &'d [Stmt]) -> Result<(), NoMemory>,
    requires emits { EmitsStmts (S.IsAlwaysCallable inside.now) (S.post inside.now) }
    ensures puts { labels.test ≡ labels.bound + 1 → OnOk result (PutsAllArms (around scene.now) line
        labels.value labels.bound (front work.old) (front work.new) (cases_list arms.now)
        (else_option rest.now)) }
{
    if arms.is_empty() {
        return Err(NoMemory);
    }
    let done = emit_case_arm(work, scene, line, labels, &arms[0], inside);
    let exit = work.then_put(done, line, Instr::Jump { to: 0 })?;
    emit_cases(work, scene, line, labels, exit, &arms[1..], inside)?;
    let done = emit_else(work, scene, line, rest, inside);
    work.then_aim(done, exit, 0)
}

// The arms of CASE behind the first that has a label.
fn emit_cases<S>(
    work: &mut Work,
    scene: &Scene<'_>,
    line: u32,
    labels: Labels,
    exit: u32,
    arms: &[CaseArm],
    inside: &S,
) -> Result<(), NoMemory>
where
    S: for<'a, 'b, 'c, 'd> Fn(&'a mut Work, &'b Scene<'c>, &'d [Stmt]) -> Result<(), NoMemory>,
    requires emits { EmitsStmts (S.IsAlwaysCallable inside.now) (S.post inside.now) }
    ensures puts { labels.test ≡ labels.bound + 1 → OnOk result (PutsCases (around scene.now) line
        labels.value labels.bound exit (front work.old) (front work.new) (cases_list arms.now)) }
{
    for arm in arms {
        emit_next_arm(work, scene, line, labels, exit, arm, inside)?;
    }
    Ok(())
}

// An arm of CASE behind the first that has a label.
fn emit_next_arm<S>(
    work: &mut Work,
    scene: &Scene<'_>,
    line: u32,
    labels: Labels,
    exit: u32,
    arm: &CaseArm,
    inside: &S,
) -> Result<(), NoMemory>
where
    S: for<'a, 'b, 'c, 'd> Fn(&'a mut Work, &'b Scene<'c>, &'d [Stmt]) -> Result<(), NoMemory>,
    requires emits { EmitsStmts (S.IsAlwaysCallable inside.now) (S.post inside.now) }
    ensures puts { labels.test ≡ labels.bound + 1 → OnOk result ((c : Front) (rest : CaseArms)
        → PutsCases (around scene.now) line labels.value labels.bound exit (front work.new) c rest
        → PutsCases (around scene.now) line labels.value labels.bound exit (front work.old) c
        (tree.more_cases arm.now.labels.items (stmts_list arm.now.body.items) rest)) }
{
    if arm.labels.is_empty() {
        return pass_stmts(work, &arm.body);
    }
    let done = emit_case_arm(work, scene, line, labels, arm, inside);
    work.then_add(done, line, Instr::Jump { to: exit })
}

// An arm of CASE that has a label.
fn emit_case_arm<S>(
    work: &mut Work,
    scene: &Scene<'_>,
    line: u32,
    labels: Labels,
    arm: &CaseArm,
    inside: &S,
) -> Result<(), NoMemory>
where
    S: for<'a, 'b, 'c, 'd> Fn(&'a mut Work, &'b Scene<'c>, &'d [Stmt]) -> Result<(), NoMemory>,
    requires emits { EmitsStmts (S.IsAlwaysCallable inside.now) (S.post inside.now) }
    ensures puts { labels.test ≡ labels.bound + 1 → OnOk result (PutsArmOf (around scene.now) line
        labels.value labels.bound (front work.old) (front work.new) arm.now.labels.items
        (stmts_list arm.now.body.items)) }
{
    let miss = put_labels(work, line, labels, &arm.labels)?;
    let done = emit_inside(work, scene, &arm.body, inside);
    end_arm(work, done, miss)
}

// The ELSE part of CASE.
fn emit_else<S>(
    work: &mut Work,
    scene: &Scene<'_>,
    line: u32,
    rest: &Option<Vec<Stmt>>,
    inside: &S,
) -> Result<(), NoMemory>
where
    S: for<'a, 'b, 'c, 'd> Fn(&'a mut Work, &'b Scene<'c>, &'d [Stmt]) -> Result<(), NoMemory>,
    requires emits { EmitsStmts (S.IsAlwaysCallable inside.now) (S.post inside.now) }
    ensures puts { OnOk result (PutsElse (around scene.now) line
        (front work.old) (front work.new) (else_option rest.now)) }
{
    match rest {
        Some(body) => emit_inside(work, scene, body, inside),
        None => work.add(line, Instr::Fault { number: NO_CASE }),
    }
}
