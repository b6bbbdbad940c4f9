// The code of calls and of their arguments.
ghost use Rattle.std.specs.Prelude.{◌≡◌, IfOk, OnOk};
ghost use Rattle.alma_ir.specs.View.{arg_of, args_list};
ghost use Rattle.alma_ir.specs.Tree as tree;
ghost use Rattle.alma_lower_work.specs.Front.{around, front};
ghost use Rattle.alma_lower_work.specs.Puts.{PutsExpr, PutsArgs, PutsArg, PutsHanded, first_slot};
ghost use Rattle.alma_lower_emit.specs.Inside.{EmitsStmts};

use crate::designator::emit_place;
use crate::expression::emit_value;
use crate::plain::number_of;
use alma_base::NoMemory;
use alma_ir::{Arg, Call, Stmt};
use alma_lower_parts::{Scene, Work, begin_call, put_function, slot_of, slot_past, take_result};

// The link and the arguments of a call; the slot of the first of them, or 0 where nothing is handed
// over.
#[cycle(emit)]
pub(crate) fn emit_call<S>(
    work: &mut Work,
    scene: &Scene<'_>,
    line: u32,
    called: u32,
    up: u32,
    args: &[Arg],
    inside: &S,
) -> Result<u32, NoMemory>
where
    S: for<'a, 'b, 'c, 'd> Fn(&'a mut Work, &'b Scene<'c>, &'d [Stmt]) -> Result<(), NoMemory>,
    requires emits { EmitsStmts (S.IsAlwaysCallable inside.now) (S.post inside.now) }
    ensures first { IfOk result (λ first. first ≡ first_slot (around scene.now) called up
        (front work.old).next (args_list args.now)) }
    ensures puts { OnOk result (PutsHanded (around scene.now) line called up
        (front work.old) (front work.new) (args_list args.now)) }
{
    let handed = begin_call(work, scene, line, called, up, args)?;
    slot_of(
        emit_args(work, scene, line, handed.to, args, inside),
        handed.first,
    )
}

// Arguments, into the slots from one on.
#[cycle(emit)]
fn emit_args<S>(
    work: &mut Work,
    scene: &Scene<'_>,
    line: u32,
    to: u32,
    args: &[Arg],
    inside: &S,
) -> Result<(), NoMemory>
where
    S: for<'a, 'b, 'c, 'd> Fn(&'a mut Work, &'b Scene<'c>, &'d [Stmt]) -> Result<(), NoMemory>,
    requires emits { EmitsStmts (S.IsAlwaysCallable inside.now) (S.post inside.now) }
    ensures puts { OnOk result (PutsArgs (around scene.now) line to
        (front work.old) (front work.new) (args_list args.now)) }
{
    let mut slot = to;
    for arg in args {
        slot = slot_past(emit_arg(work, scene, line, slot, arg, inside), slot)?;
    }
    Ok(())
}

// An argument, into a slot.
#[cycle(emit)]
fn emit_arg<S>(
    work: &mut Work,
    scene: &Scene<'_>,
    line: u32,
    to: u32,
    arg: &Arg,
    inside: &S,
) -> Result<(), NoMemory>
where
    S: for<'a, 'b, 'c, 'd> Fn(&'a mut Work, &'b Scene<'c>, &'d [Stmt]) -> Result<(), NoMemory>,
    requires emits { EmitsStmts (S.IsAlwaysCallable inside.now) (S.post inside.now) }
    ensures puts { OnOk result (PutsArg (around scene.now) line to
        (front work.old) (front work.new) (arg_of arg.now)) }
{
    match arg {
        Arg::Value(value, range) => {
            let from = emit_value(work, scene, line, value, inside);
            number_of(work, scene, line, value, *range, to, from)
        }
        Arg::MixValue(value, range) => {
            let from = emit_value(work, scene, line, value, inside);
            number_of(work, scene, line, value, *range, to, from)
        }
        Arg::Cells(desig) => emit_place(work, scene, line, to, desig, inside),
        Arg::Place(desig) => emit_place(work, scene, line, to, desig, inside),
        Arg::MixPlace(desig) => emit_place(work, scene, line, to, desig, inside),
    }
}

// A call of a function, and the slot of its result.
#[cycle(emit)]
pub(crate) fn emit_call_value<S>(
    work: &mut Work,
    scene: &Scene<'_>,
    line: u32,
    call: &Call,
    inside: &S,
) -> Result<u32, NoMemory>
where
    S: for<'a, 'b, 'c, 'd> Fn(&'a mut Work, &'b Scene<'c>, &'d [Stmt]) -> Result<(), NoMemory>,
    requires emits { EmitsStmts (S.IsAlwaysCallable inside.now) (S.post inside.now) }
    ensures slot { IfOk result (λ slot. slot ≡ (front work.old).next) }
    ensures puts { OnOk result (PutsExpr (around scene.now) line
        (front work.old) (front work.new)
        (tree.CallExpr call.now.routine (args_list call.now.args.items) call.now.up)) }
{
    let (to, mark) = take_result(work)?;
    let first = emit_call(work, scene, line, call.routine, call.up, &call.args, inside)?;
    slot_of(put_function(work, line, mark, call.routine, first, to), to)
}
