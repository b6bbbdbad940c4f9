// The code of expressions.
ghost use Rattle.std.specs.Prelude.{◌≡◌, IfOk, OnOk};
ghost use Rattle.alma_ir.specs.View.{desig_of, expr_of, test_of, links_list};
ghost use Rattle.alma_ir.specs.Lines.{expr_with};
ghost use Rattle.alma_ir.specs.Tree as tree;
ghost use Rattle.alma_lower_work.specs.Front.{around, front};
ghost use Rattle.alma_lower_work.specs.Puts.{PutsExpr, PutsFirstOperand, PutsValue, PutsLinks};
ghost use Rattle.alma_lower_work.specs.Puts.{stays_until, value_slot};
ghost use Rattle.alma_lower_templates.specs.Templates as T;
ghost use Rattle.alma_lower_emit.specs.Inside.{EmitsStmts};

use crate::call::emit_call_value;
use crate::condition::emit_guard;
use crate::designator::emit_held;
use crate::plain::{chr_of, load_of};
use alma_base::NoMemory;
use alma_code::{Instr, SlotKind};
use alma_ir::{Cmp, Desig, Expr, Link, Stmt, Test};
use alma_lower_parts::{
    FirstOperand, Scene, Taken, Work, emit_const, end_truth, op_instr, own_first, own_stand,
    own_value, put_at, put_cmp, put_neg, slot_of, stay_at, taken_by,
};

/// An expression, and the slot of its number.
#[cycle(emit)]
pub fn emit_expr<S>(
    work: &mut Work,
    scene: &Scene<'_>,
    line: u32,
    expr: &Expr,
    inside: &S,
) -> Result<u32, NoMemory>
where
    S: for<'a, 'b, 'c, 'd> Fn(&'a mut Work, &'b Scene<'c>, &'d [Stmt]) -> Result<(), NoMemory>,
    requires emits { EmitsStmts (S.IsAlwaysCallable inside.now) (S.post inside.now) }
    ensures slot { IfOk result (λ slot. slot ≡ (front work.old).next) }
    ensures puts { OnOk result (PutsExpr (around scene.now) line
        (front work.old) (front work.new) (expr_of expr.now)) }
{
    match expr {
        Expr::Const(value) => emit_const(work, scene, line, *value),
        Expr::Load(desig) => emit_load(work, scene, line, desig, inside),
        Expr::Chain(negated, first, links) => {
            emit_chain(work, scene, line, *negated, first, links, inside)
        }
        Expr::Compare(cmp, left, right) => emit_compare(
            work, scene, line, *cmp, left, right, inside,
        ),
        Expr::Truth(test) => emit_truth(work, scene, line, test, inside),
        Expr::Known(desig) => emit_known(work, scene, line, desig, inside),
        Expr::Chr(inner) => {
            let number = emit_expr(work, scene, line, inner, inside);
            chr_of(work, scene, line, number)
        }
        Expr::Call(call) => emit_call_value(work, scene, line, call, inside),
    }
}

// The number of a variable.
#[cycle(emit)]
fn emit_load<S>(
    work: &mut Work,
    scene: &Scene<'_>,
    line: u32,
    desig: &Desig,
    inside: &S,
) -> Result<u32, NoMemory>
where
    S: for<'a, 'b, 'c, 'd> Fn(&'a mut Work, &'b Scene<'c>, &'d [Stmt]) -> Result<(), NoMemory>,
    requires emits { EmitsStmts (S.IsAlwaysCallable inside.now) (S.post inside.now) }
    ensures slot { IfOk result (λ slot. slot ≡ (front work.old).next) }
    ensures puts { OnOk result (PutsExpr (around scene.now) line
        (front work.old) (front work.new) (tree.Load (desig_of desig.now))) }
{
    let to = work.slot(SlotKind::Number)?;
    match own_stand(scene, desig)? {
        Some(from) => slot_of(work.add(line, Instr::Move { to, from }), to),
        None => {
            let place = emit_held(work, scene, line, desig, inside);
            load_of(work, line, to, place)
        }
    }
}

// A first operand, its sign, and operators with their operands.
#[cycle(emit)]
fn emit_chain<S>(
    work: &mut Work,
    scene: &Scene<'_>,
    line: u32,
    negated: bool,
    first: &Expr,
    links: &[Link],
    inside: &S,
) -> Result<u32, NoMemory>
where
    S: for<'a, 'b, 'c, 'd> Fn(&'a mut Work, &'b Scene<'c>, &'d [Stmt]) -> Result<(), NoMemory>,
    requires emits { EmitsStmts (S.IsAlwaysCallable inside.now) (S.post inside.now) }
    ensures slot { IfOk result (λ slot. slot ≡ (front work.old).next) }
    ensures puts { OnOk result (PutsExpr (around scene.now) line
        (front work.old) (front work.new)
        (tree.Chain negated (expr_of first.now) (links_list links.now))) }
{
    let taken = taken_by(negated, links);
    let first = emit_first(work, scene, line, first, taken, inside)?;
    let first = put_neg(work, line, negated, first)?;
    slot_of(
        emit_links(work, scene, line, first, links, inside),
        first.to,
    )
}

/// A first operand, which has no code where it stays until it is taken.
#[cycle(emit)]
pub fn emit_first<S>(
    work: &mut Work,
    scene: &Scene<'_>,
    line: u32,
    expr: &Expr,
    taken: Taken<'_>,
    inside: &S,
) -> Result<FirstOperand, NoMemory>
where
    S: for<'a, 'b, 'c, 'd> Fn(&'a mut Work, &'b Scene<'c>, &'d [Stmt]) -> Result<(), NoMemory>,
    requires emits { EmitsStmts (S.IsAlwaysCallable inside.now) (S.post inside.now) }
    ensures to { IfOk result (λ first. first.to ≡ (front work.old).next) }
    ensures from { IfOk result (λ first. first.from ≡ T.slot_or (around scene.now).program
        (around scene.now).tables (around scene.now).routine
        (stays_until (expr_of expr.now) taken.entry) (front work.old).next) }
    ensures puts { OnOk result (PutsFirstOperand (around scene.now) line (front work.old)
        (front work.new) (stays_until (expr_of expr.now) taken.entry) (expr_of expr.now)) }
{
    match own_first(scene, expr, taken)? {
        Some(from) => stay_at(work, from),
        None => put_at(emit_expr(work, scene, line, expr, inside)),
    }
}

// Operators and their operands, from left to right.
#[cycle(emit)]
fn emit_links<S>(
    work: &mut Work,
    scene: &Scene<'_>,
    line: u32,
    first: FirstOperand,
    links: &[Link],
    inside: &S,
) -> Result<(), NoMemory>
where
    S: for<'a, 'b, 'c, 'd> Fn(&'a mut Work, &'b Scene<'c>, &'d [Stmt]) -> Result<(), NoMemory>,
    requires emits { EmitsStmts (S.IsAlwaysCallable inside.now) (S.post inside.now) }
    ensures puts { OnOk result (PutsLinks (around scene.now) line first.from first.to
        (front work.old) (front work.new) (links_list links.now)) }
{
    let mut left = first.from;
    for link in links {
        let operand = emit_value(work, scene, line, &link.operand, inside)?;
        work.add(line, op_instr(link.op, first.to, left, operand))?;
        left = first.to;
    }
    Ok(())
}

// A comparison.
#[cycle(emit)]
fn emit_compare<S>(
    work: &mut Work,
    scene: &Scene<'_>,
    line: u32,
    cmp: Cmp,
    left: &Expr,
    right: &Expr,
    inside: &S,
) -> Result<u32, NoMemory>
where
    S: for<'a, 'b, 'c, 'd> Fn(&'a mut Work, &'b Scene<'c>, &'d [Stmt]) -> Result<(), NoMemory>,
    requires emits { EmitsStmts (S.IsAlwaysCallable inside.now) (S.post inside.now) }
    ensures slot { IfOk result (λ slot. slot ≡ (front work.old).next) }
    ensures puts { OnOk result (PutsExpr (around scene.now) line
        (front work.old) (front work.new)
        (tree.Compare cmp (expr_of left.now) (expr_of right.now))) }
{
    let first = emit_first(work, scene, line, left, Taken::Behind(right), inside)?;
    let other = emit_value(work, scene, line, right, inside)?;
    slot_of(put_cmp(work, line, cmp, first, other), first.to)
}

// A test as a number.
#[cycle(emit)]
fn emit_truth<S>(
    work: &mut Work,
    scene: &Scene<'_>,
    line: u32,
    test: &Test,
    inside: &S,
) -> Result<u32, NoMemory>
where
    S: for<'a, 'b, 'c, 'd> Fn(&'a mut Work, &'b Scene<'c>, &'d [Stmt]) -> Result<(), NoMemory>,
    requires emits { EmitsStmts (S.IsAlwaysCallable inside.now) (S.post inside.now) }
    ensures slot { IfOk result (λ slot. slot ≡ (front work.old).next) }
    ensures puts { OnOk result (PutsExpr (around scene.now) line
        (front work.old) (front work.new) (tree.Truth (test_of test.now))) }
{
    let to = work.slot(SlotKind::Number)?;
    let jump = emit_guard(work, scene, line, test, inside)?;
    end_truth(work, line, jump, to)
}

// KNOWN.
#[cycle(emit)]
fn emit_known<S>(
    work: &mut Work,
    scene: &Scene<'_>,
    line: u32,
    desig: &Desig,
    inside: &S,
) -> Result<u32, NoMemory>
where
    S: for<'a, 'b, 'c, 'd> Fn(&'a mut Work, &'b Scene<'c>, &'d [Stmt]) -> Result<(), NoMemory>,
    requires emits { EmitsStmts (S.IsAlwaysCallable inside.now) (S.post inside.now) }
    ensures slot { IfOk result (λ slot. slot ≡ (front work.old).next) }
    ensures puts { OnOk result (PutsExpr (around scene.now) line
        (front work.old) (front work.new) (tree.Known (desig_of desig.now))) }
{
    let to = work.slot(SlotKind::Number)?;
    let of = emit_held(work, scene, line, desig, inside)?;
    slot_of(work.add(line, Instr::Known { to, of }), to)
}

/// A value that is used at once: a variable of the routine stands for itself.
#[cycle(emit)]
pub fn emit_value<S>(
    work: &mut Work,
    scene: &Scene<'_>,
    line: u32,
    expr: &Expr,
    inside: &S,
) -> Result<u32, NoMemory>
where
    S: for<'a, 'b, 'c, 'd> Fn(&'a mut Work, &'b Scene<'c>, &'d [Stmt]) -> Result<(), NoMemory>,
    requires emits { EmitsStmts (S.IsAlwaysCallable inside.now) (S.post inside.now) }
    ensures value { IfOk result (λ value. value ≡ value_slot (around scene.now)
        (front work.old).next (expr_with (expr_of expr.now) (front work.old).lines)) }
    ensures puts { OnOk result (PutsValue (around scene.now) line
        (front work.old) (front work.new) (expr_of expr.now)) }
{
    match own_value(scene, expr)? {
        Some(slot) => Ok(slot),
        None => emit_expr(work, scene, line, expr, inside),
    }
}
