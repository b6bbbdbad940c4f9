// The recursion: statements and tests hold statements.
ghost use Rattle.std.specs.Prelude.{OnOk};
ghost use Rattle.alma_ir.specs.View.{stmts_list};
ghost use Rattle.alma_lower_work.specs.Front.{around, front};
ghost use Rattle.alma_lower_work.specs.Puts.{PutsStmts};

use crate::statement::emit_sequence;
use alma_base::NoMemory;
use alma_ir::Stmt;
use alma_lower_parts::{Scene, Work};

/// Statements in order, each at its line.
pub fn emit_stmts(work: &mut Work, scene: &Scene<'_>, body: &[Stmt]) -> Result<(), NoMemory>
    ensures puts { OnOk result (PutsStmts (around scene.now)
        (front work.old) (front work.new) (stmts_list body.now)) }
{
    emit_nested(work, scene, body, usize::MAX)
}

// Statements, in which others are held at most `left` deep; no memory holds more than
// `usize::MAX`.
#[cycle(nest)]
fn emit_nested(
    work: &mut Work,
    scene: &Scene<'_>,
    body: &[Stmt],
    left: usize,
) -> Result<(), NoMemory>
    ensures puts { OnOk result (PutsStmts (around scene.now)
        (front work.old) (front work.new) (stmts_list body.now)) }
{
    if left == 0 {
        return Err(NoMemory);
    }
    let deeper = left - 1;
    emit_sequence(
        work,
        scene,
        body,
        &|work: &mut Work, scene: &Scene<'_>, body: &[Stmt]|
            ensures { OnOk result (PutsStmts (around scene.now) (front work.old) (front work.new)
                (stmts_list body.now)) }
        { emit_nested(work, scene, body, deeper) },
    )
}
