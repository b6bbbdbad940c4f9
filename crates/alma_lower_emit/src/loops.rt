// The code of FOR and SOME.
ghost use Rattle.std.specs.Prelude.{◌≡◌, IfOk, OnOk};
ghost use Rattle.alma_ir.specs.View.{desig_of, expr_of, loop_of, stmts_list};
ghost use Rattle.alma_ir.specs.Tree as tree;
ghost use Rattle.alma_lower_work.specs.Front.{around, front};
ghost use Rattle.alma_lower_work.specs.Puts.{PutsStmt};
ghost use Rattle.alma_lower_parts.specs.Loops.{PassesAndBounds, PutsFirstCount, PutsLimit};
ghost use Rattle.alma_lower_parts.specs.Loops.{PutsTurn};
ghost use Rattle.alma_lower_templates.specs.Slots as slots;
ghost use Rattle.alma_lower_templates.specs.Templates.{own_slot};
ghost use Rattle.alma_lower_emit.specs.Inside.{EmitsStmts};

use crate::designator::emit_target;
use crate::expression::{emit_expr, emit_first};
use crate::inside::emit_inside;
use alma_base::NoMemory;
use alma_code::{Instr, SlotKind};
use alma_ir::{Expr, Loop, Stmt};
use alma_lower_parts::{
    Bounds, Scene, Taken, Work, begin_for, begin_loop, begin_some, constant, end_for, ends_alone,
    put_count,
};

// FOR. The lines of the variable come first, and its code behind that of the bounds.
pub(crate) fn emit_for<S>(
    work: &mut Work,
    scene: &Scene<'_>,
    line: u32,
    each: &Loop,
    inside: &S,
) -> Result<(), NoMemory>
where
    S: for<'a, 'b, 'c, 'd> Fn(&'a mut Work, &'b Scene<'c>, &'d [Stmt]) -> Result<(), NoMemory>,
    requires emits { EmitsStmts (S.IsAlwaysCallable inside.now) (S.post inside.now) }
    ensures puts { OnOk result (PutsStmt (around scene.now) line
        (front work.old) (front work.new) (tree.ForTo (loop_of each.now))) }
{
    let before = work.position();
    let bounds = emit_bounds(work, scene, line, each, each.by, inside)?;
    let after = work.position();
    let (jump, top) = begin_for(work, line, each.by, bounds)?;
    work.go_to(before);
    let done = emit_turn(work, scene, line, each, bounds.counter, after, inside);
    end_for(work, done, line, bounds, jump, top)
}

// SOME.
pub(crate) fn emit_some<S>(
    work: &mut Work,
    scene: &Scene<'_>,
    line: u32,
    each: &Loop,
    inside: &S,
) -> Result<(), NoMemory>
where
    S: for<'a, 'b, 'c, 'd> Fn(&'a mut Work, &'b Scene<'c>, &'d [Stmt]) -> Result<(), NoMemory>,
    requires emits { EmitsStmts (S.IsAlwaysCallable inside.now) (S.post inside.now) }
    ensures puts { OnOk result (PutsStmt (around scene.now) line
        (front work.old) (front work.new) (tree.SomeOf (loop_of each.now))) }
{
    let before = work.position();
    let bounds = emit_bounds(work, scene, line, each, 1, inside)?;
    let after = work.position();
    begin_some(work, line, bounds)?;
    work.go_to(before);
    emit_turn(work, scene, line, each, bounds.counter, after, inside)
}

// The step of a loop, its first count and its limit, behind the lines of its variable.
fn emit_bounds<S>(
    work: &mut Work,
    scene: &Scene<'_>,
    line: u32,
    each: &Loop,
    by: i64,
    inside: &S,
) -> Result<Bounds, NoMemory>
where
    S: for<'a, 'b, 'c, 'd> Fn(&'a mut Work, &'b Scene<'c>, &'d [Stmt]) -> Result<(), NoMemory>,
    requires emits { EmitsStmts (S.IsAlwaysCallable inside.now) (S.post inside.now) }
    ensures counter { IfOk result (λ bounds. bounds.counter ≡ own_slot (around scene.now).program
        (around scene.now).tables (around scene.now).routine each.now.counter) }
    ensures limit { IfOk result (λ bounds. bounds.limit ≡ own_slot (around scene.now).program
        (around scene.now).tables (around scene.now).routine each.now.limit) }
    ensures constant { IfOk result (λ bounds. bounds.constant
        ≡ slots.constant (expr_of each.now.from)) }
    ensures puts { IfOk result (λ bounds. PassesAndBounds (around scene.now) line by bounds.limit
        (front work.old) (front work.new) (desig_of each.now.var) (expr_of each.now.from)
        (expr_of each.now.to) bounds.step bounds.first) }
{
    let counts = begin_loop(work, scene, line, each, by)?;
    let first = emit_first_count(work, scene, line, &each.from, inside)?;
    emit_limit(work, scene, line, &each.to, counts.limit, inside)?;
    Ok(Bounds {
        counter: counts.counter,
        limit: counts.limit,
        step: counts.step,
        first,
        constant: constant(&each.from),
    })
}

// The first count of a loop, and its slot: a constant has no code, since it goes straight to the
// slot of the count.
fn emit_first_count<S>(
    work: &mut Work,
    scene: &Scene<'_>,
    line: u32,
    expr: &Expr,
    inside: &S,
) -> Result<u32, NoMemory>
where
    S: for<'a, 'b, 'c, 'd> Fn(&'a mut Work, &'b Scene<'c>, &'d [Stmt]) -> Result<(), NoMemory>,
    requires emits { EmitsStmts (S.IsAlwaysCallable inside.now) (S.post inside.now) }
    ensures slot { IfOk result (λ slot. slot ≡ (front work.old).next) }
    ensures puts { OnOk result (PutsFirstCount (around scene.now) line
        (front work.old) (front work.new) (expr_of expr.now)) }
{
    match constant(expr) {
        Some(_) => work.slot(SlotKind::Number),
        None => emit_expr(work, scene, line, expr, inside),
    }
}

// The limit of a loop goes to its slot. A variable of the routine stands for itself, and takes a
// slot all the same.
fn emit_limit<S>(
    work: &mut Work,
    scene: &Scene<'_>,
    line: u32,
    expr: &Expr,
    limit: u32,
    inside: &S,
) -> Result<(), NoMemory>
where
    S: for<'a, 'b, 'c, 'd> Fn(&'a mut Work, &'b Scene<'c>, &'d [Stmt]) -> Result<(), NoMemory>,
    requires emits { EmitsStmts (S.IsAlwaysCallable inside.now) (S.post inside.now) }
    ensures puts { OnOk result (PutsLimit (around scene.now) line limit
        (front work.old) (front work.new) (expr_of expr.now)) }
{
    let last = emit_first(work, scene, line, expr, Taken::AtOnce, inside)?;
    if ends_alone(expr) {
        work.redirect(limit);
        return Ok(());
    }
    work.add(
        line,
        Instr::Move {
            to: limit,
            from: last.from,
        },
    )
}

// A turn: the count is checked, the variable is set, and the body follows with the lines behind
// those of the bounds.
fn emit_turn<S>(
    work: &mut Work,
    scene: &Scene<'_>,
    line: u32,
    each: &Loop,
    counter: u32,
    after: usize,
    inside: &S,
) -> Result<(), NoMemory>
where
    S: for<'a, 'b, 'c, 'd> Fn(&'a mut Work, &'b Scene<'c>, &'d [Stmt]) -> Result<(), NoMemory>,
    requires emits { EmitsStmts (S.IsAlwaysCallable inside.now) (S.post inside.now) }
    ensures puts { OnOk result (PutsTurn (around scene.now) line after each.now.range counter
        (front work.old) (front work.new) (desig_of each.now.var)
        (stmts_list each.now.body.items)) }
{
    let count = put_count(work, scene, line, &each.var, each.range, counter)?;
    let stand = emit_target(work, scene, line, &each.var, inside)?;
    work.add(line, stand.set(count))?;
    work.go_to(after);
    emit_inside(work, scene, &each.body, inside)
}
