// The code of statements, and of those that hold no others.
ghost use Rattle.std.specs.Prelude.{OnOk};
ghost use Rattle.alma_ir.specs.View.{desig_of, expr_of, return_option, stmt_of, stmts_list};
ghost use Rattle.alma_ir.specs.Tree as tree;
ghost use Rattle.alma_lower_work.specs.Front.{around, front};
ghost use Rattle.alma_lower_work.specs.Puts.{PutsStmts, PutsStmt};
ghost use Rattle.alma_lower_emit.specs.Inside.{EmitsStmts};

use crate::case::emit_case;
use crate::choice::{emit_commit, emit_either, emit_forall};
use crate::designator::{emit_held, emit_target};
use crate::expression::emit_value;
use crate::guarded::{emit_if, emit_repeat, emit_while};
use crate::leaf::{read_of, return_of, write_of};
use crate::loops::{emit_for, emit_some};
use crate::test::emit_test;
use alma_base::{NoMemory, Range};
use alma_code::Instr;
use alma_ir::{Desig, Expr, Stmt};
use alma_lower_parts::{Scene, Work, emit_line, emit_text, put_set, straight_slot};

// Statements in order, each at its line.
pub(crate) fn emit_sequence<S>(
    work: &mut Work,
    scene: &Scene<'_>,
    body: &[Stmt],
    inside: &S,
) -> Result<(), NoMemory>
where
    S: for<'a, 'b, 'c, 'd> Fn(&'a mut Work, &'b Scene<'c>, &'d [Stmt]) -> Result<(), NoMemory>,
    requires emits { EmitsStmts (S.IsAlwaysCallable inside.now) (S.post inside.now) }
    ensures puts { OnOk result (PutsStmts (around scene.now)
        (front work.old) (front work.new) (stmts_list body.now)) }
{
    for stmt in body {
        let line = work.next_line();
        emit_stmt(work, scene, line, stmt, inside)?;
    }
    Ok(())
}

// A statement, at its line.
fn emit_stmt<S>(
    work: &mut Work,
    scene: &Scene<'_>,
    line: u32,
    stmt: &Stmt,
    inside: &S,
) -> Result<(), NoMemory>
where
    S: for<'a, 'b, 'c, 'd> Fn(&'a mut Work, &'b Scene<'c>, &'d [Stmt]) -> Result<(), NoMemory>,
    requires emits { EmitsStmts (S.IsAlwaysCallable inside.now) (S.post inside.now) }
    ensures puts { OnOk result (PutsStmt (around scene.now) line
        (front work.old) (front work.new) (stmt_of stmt.now)) }
{
    match stmt {
        Stmt::Test(test) => emit_test(work, scene, line, test, inside),
        Stmt::Assign(desig, value, range) => {
            emit_assign(work, scene, line, desig, value, *range, inside)
        }
        Stmt::CopyCells(desig, from) => emit_copy(work, scene, line, desig, from, inside),
        Stmt::If(arms, rest) => emit_if(work, scene, line, arms, rest, inside),
        Stmt::While(test, body) => emit_while(work, scene, line, test, body, inside),
        Stmt::Repeat(body, test) => emit_repeat(work, scene, line, body, test, inside),
        Stmt::ForTo(each) => emit_for(work, scene, line, each, inside),
        Stmt::SomeOf(each) => emit_some(work, scene, line, each, inside),
        Stmt::Case(value, arms, rest) => emit_case(work, scene, line, value, arms, rest, inside),
        Stmt::Either(branches) => emit_either(work, scene, line, branches, inside),
        Stmt::Forall(first, second) => emit_forall(work, scene, line, first, second, inside),
        Stmt::Commit(body) => emit_commit(work, scene, line, body, inside),
        Stmt::Return(value) => emit_return(work, scene, line, value, inside),
        Stmt::Read(desig, how, range) => {
            let place = emit_held(work, scene, line, desig, inside);
            read_of(work, scene, line, *how, place, *range)
        }
        Stmt::WriteExpr(value, how) => {
            let number = emit_value(work, scene, line, value, inside);
            write_of(work, line, *how, number)
        }
        Stmt::WriteText(text) => emit_text(work, scene, line, text),
        Stmt::WriteLine => emit_line(work, scene, line),
    }
}

// A number for a variable.
fn emit_assign<S>(
    work: &mut Work,
    scene: &Scene<'_>,
    line: u32,
    desig: &Desig,
    value: &Expr,
    range: Range,
    inside: &S,
) -> Result<(), NoMemory>
where
    S: for<'a, 'b, 'c, 'd> Fn(&'a mut Work, &'b Scene<'c>, &'d [Stmt]) -> Result<(), NoMemory>,
    requires emits { EmitsStmts (S.IsAlwaysCallable inside.now) (S.post inside.now) }
    ensures puts { OnOk result (PutsStmt (around scene.now) line
        (front work.old) (front work.new)
        (tree.Assign (desig_of desig.now) (expr_of value.now) range)) }
{
    let stand = emit_target(work, scene, line, desig, inside)?;
    let number = emit_value(work, scene, line, value, inside)?;
    match straight_slot(scene, desig, value, range)? {
        Some(to) => {
            work.redirect(to);
            Ok(())
        }
        None => put_set(work, scene, line, range, stand, number),
    }
}

// All cells of a variable for another.
fn emit_copy<S>(
    work: &mut Work,
    scene: &Scene<'_>,
    line: u32,
    desig: &Desig,
    from: &Desig,
    inside: &S,
) -> Result<(), NoMemory>
where
    S: for<'a, 'b, 'c, 'd> Fn(&'a mut Work, &'b Scene<'c>, &'d [Stmt]) -> Result<(), NoMemory>,
    requires emits { EmitsStmts (S.IsAlwaysCallable inside.now) (S.post inside.now) }
    ensures puts { OnOk result (PutsStmt (around scene.now) line
        (front work.old) (front work.new)
        (tree.CopyCells (desig_of desig.now) (desig_of from.now))) }
{
    let to = emit_held(work, scene, line, desig, inside)?;
    let from = emit_held(work, scene, line, from, inside)?;
    work.add(line, Instr::CopyCells { to, from })
}

// RETURN.
fn emit_return<S>(
    work: &mut Work,
    scene: &Scene<'_>,
    line: u32,
    value: &Option<Expr>,
    inside: &S,
) -> Result<(), NoMemory>
where
    S: for<'a, 'b, 'c, 'd> Fn(&'a mut Work, &'b Scene<'c>, &'d [Stmt]) -> Result<(), NoMemory>,
    requires emits { EmitsStmts (S.IsAlwaysCallable inside.now) (S.post inside.now) }
    ensures puts { OnOk result (PutsStmt (around scene.now) line
        (front work.old) (front work.new) (tree.Return (return_option value.now))) }
{
    match value {
        Some(value) => {
            let number = emit_value(work, scene, line, value, inside);
            return_of(work, scene, line, number)
        }
        None => work.add(line, Instr::Return),
    }
}
