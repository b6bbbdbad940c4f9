// The code of EITHER, FORALL and COMMIT.
ghost use Rattle.std.specs.Prelude.{◌≤◌, drop, length, OnOk};
ghost use Rattle.alma_ir.specs.View.{branches_list, stmts_list};
ghost use Rattle.alma_ir.specs.Tree as tree;
ghost use Rattle.alma_lower_work.specs.Front.{around, front};
ghost use Rattle.alma_lower_work.specs.Puts.{PutsStmt, PutsBranches, PutsChosen};
ghost use Rattle.alma_lower_emit.specs.Inside.{EmitsStmts};

use crate::inside::emit_inside;
use alma_base::NoMemory;
use alma_code::Instr;
use alma_ir::{Branch, Stmt};
use alma_lower_parts::{Scene, Work, begin_commit, begin_forall, end_both, then_begin_each};

// EITHER: the first branch leaves over all, the others by its jump.
pub(crate) fn emit_either<S>(
    work: &mut Work,
    scene: &Scene<'_>,
    line: u32,
    branches: &[Branch],
    inside: &S,
) -> Result<(), NoMemory>
where
    S: for<'a, 'b, 'c, 'd> Fn(&'a mut Work, &'b Scene<'c>, &'d [Stmt]) -> Result<(), NoMemory>,
    requires emits { EmitsStmts (S.IsAlwaysCallable inside.now) (S.post inside.now) }
    ensures puts { OnOk result (PutsStmt (around scene.now) line
        (front work.old) (front work.new) (tree.Either (branches_list branches.now))) }
{
    if branches.is_empty() {
        return work.add(line, Instr::Fail);
    }
    let branch = &branches[0];
    if branches.len() == 1 {
        return emit_inside(work, scene, &branch.body, inside);
    }
    let done = emit_chosen(work, scene, line, &branch.body, inside);
    let exit = work.then_put(done, line, Instr::Jump { to: 0 })?;
    let done = emit_branches(work, scene, line, exit, branches, inside);
    work.then_aim(done, exit, 0)
}

// The branches of EITHER behind the first, of which there is one.
fn emit_branches<S>(
    work: &mut Work,
    scene: &Scene<'_>,
    line: u32,
    exit: u32,
    branches: &[Branch],
    inside: &S,
) -> Result<(), NoMemory>
where
    S: for<'a, 'b, 'c, 'd> Fn(&'a mut Work, &'b Scene<'c>, &'d [Stmt]) -> Result<(), NoMemory>,
    requires emits { EmitsStmts (S.IsAlwaysCallable inside.now) (S.post inside.now) }
    ensures puts { 2 ≤ length branches.now → OnOk result (PutsBranches (around scene.now) line exit
        (front work.old) (front work.new) (branches_list (drop 1 branches.now))) }
{
    if branches.len() < 2 {
        return Ok(());
    }
    let last = branches.len() - 1;
    for i in 1..last {
        let branch = &branches[i];
        let done = emit_chosen(work, scene, line, &branch.body, inside);
        work.then_add(done, line, Instr::Jump { to: exit })?;
    }
    let branch = &branches[last];
    emit_inside(work, scene, &branch.body, inside)
}

// A branch that is not the last.
fn emit_chosen<S>(
    work: &mut Work,
    scene: &Scene<'_>,
    line: u32,
    body: &[Stmt],
    inside: &S,
) -> Result<(), NoMemory>
where
    S: for<'a, 'b, 'c, 'd> Fn(&'a mut Work, &'b Scene<'c>, &'d [Stmt]) -> Result<(), NoMemory>,
    requires emits { EmitsStmts (S.IsAlwaysCallable inside.now) (S.post inside.now) }
    ensures puts { OnOk result (PutsChosen (around scene.now) line (front work.old)
        (front work.new) (stmts_list body.now)) }
{
    let choice = work.put(line, Instr::Choose { resume: 0 })?;
    let done = emit_inside(work, scene, body, inside);
    work.then_aim(done, choice, 1)
}

// FORALL.
pub(crate) fn emit_forall<S>(
    work: &mut Work,
    scene: &Scene<'_>,
    line: u32,
    first: &[Stmt],
    second: &[Stmt],
    inside: &S,
) -> Result<(), NoMemory>
where
    S: for<'a, 'b, 'c, 'd> Fn(&'a mut Work, &'b Scene<'c>, &'d [Stmt]) -> Result<(), NoMemory>,
    requires emits { EmitsStmts (S.IsAlwaysCallable inside.now) (S.post inside.now) }
    ensures puts { OnOk result (PutsStmt (around scene.now) line
        (front work.old) (front work.new)
        (tree.Forall (stmts_list first.now) (stmts_list second.now))) }
{
    let (mark, forall) = begin_forall(work, line)?;
    let done = emit_inside(work, scene, first, inside);
    let each = then_begin_each(work, done, line, mark)?;
    let last = emit_inside(work, scene, second, inside);
    end_both(work, last, line, mark, each, forall)
}

// COMMIT.
pub(crate) fn emit_commit<S>(
    work: &mut Work,
    scene: &Scene<'_>,
    line: u32,
    body: &[Stmt],
    inside: &S,
) -> Result<(), NoMemory>
where
    S: for<'a, 'b, 'c, 'd> Fn(&'a mut Work, &'b Scene<'c>, &'d [Stmt]) -> Result<(), NoMemory>,
    requires emits { EmitsStmts (S.IsAlwaysCallable inside.now) (S.post inside.now) }
    ensures puts { OnOk result (PutsStmt (around scene.now) line
        (front work.old) (front work.new) (tree.Commit (stmts_list body.now))) }
{
    let mark = begin_commit(work, line)?;
    let done = emit_inside(work, scene, body, inside);
    work.then_add(done, line, Instr::Cut { mark })
}
