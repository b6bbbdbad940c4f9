// The code of a routine.
ghost use Rattle.std.specs.Prelude.{◌≡◌, ◌<◌, ◌++◌, length, Result, IfOk, OnOk};
ghost use Rattle.alma_code.specs.Plain as code;
ghost use Rattle.alma_ir.specs.Tree.{routine_at};
ghost use Rattle.alma_lower_templates.specs.Runs.{NamesKinds};
ghost use Rattle.alma_lower_templates.specs.Slots.{routine_kinds};
ghost use Rattle.alma_lower_templates.specs.Templates.{routine_code};
ghost use Rattle.alma_lower_work.specs.Front.{around, front};
ghost use Rattle.alma_lower.specs.Routines.{HeadFor};

use crate::heads::{begin, head_of, put_end};
use alma_base::NoMemory;
use alma_code::{RoutineHead, SlotKind};
use alma_lower_emit::emit_stmts;
use alma_lower_parts::{Scene, Work};
use alma_lower_tables::own_kinds;
use std::alloc::Global;

/// Puts the code of the scene's routine behind the code so far, and gives its head.
pub fn lower_routine(
    alloc: Global,
    work: &mut Work,
    scene: &Scene<'_>,
) -> Result<RoutineHead, NoMemory>
    requires exists { (around scene.now).routine < length (around scene.now).program.routines }
    ensures code { OnOk result ((front work.new).code ≡ (front work.old).code ++ routine_code
        (around scene.now).program (around scene.now).tables (around scene.now).routine
        (length (front work.old).code)) }
    ensures names { IfOk result (λ head. NamesKinds head.kinds.items (routine_kinds
        (around scene.now).program (around scene.now).routine)) }
    ensures head { IfOk result (λ head. HeadFor (routine_at (around scene.now).program
        (around scene.now).routine) (routine_kinds (around scene.now).program
        (around scene.now).routine) (length (front work.new).code) (code.routine_of head)) }
{
    let kinds = put_routine(alloc, work, scene)?;
    let routine = &scene.program.routines[scene.routine as usize];
    let code_end = work.here()?;
    head_of(alloc, routine, &kinds, code_end)
}

// Puts the code of the scene's routine behind the code so far, and gives the kinds of its slots.
fn put_routine(alloc: Global, work: &mut Work, scene: &Scene<'_>) -> Result<Vec<SlotKind>, NoMemory>
    requires exists { (around scene.now).routine < length (around scene.now).program.routines }
    ensures code { OnOk result ((front work.new).code ≡ (front work.old).code ++ routine_code
        (around scene.now).program (around scene.now).tables (around scene.now).routine
        (length (front work.old).code)) }
    ensures kinds { IfOk result (λ kinds. kinds.items ≡ routine_kinds (around scene.now).program
        (around scene.now).routine) }
{
    let routine = &scene.program.routines[scene.routine as usize];
    let mut kinds = own_kinds(alloc, routine)?;
    begin(alloc, work, routine, kinds.len())?;
    emit_stmts(work, scene, &routine.body)?;
    put_end(work, routine)?;
    kinds.extend_from_slice(&work.emit.kinds)?;
    Ok(kinds)
}
