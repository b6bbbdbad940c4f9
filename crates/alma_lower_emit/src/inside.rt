// The statements inside a test or a statement.
ghost use Rattle.std.specs.Prelude.{OnOk};
ghost use Rattle.alma_ir.specs.View.{stmts_list};
ghost use Rattle.alma_lower_work.specs.Front.{around, front};
ghost use Rattle.alma_lower_work.specs.Puts.{PutsStmts};
ghost use Rattle.alma_lower_emit.specs.Inside.{EmitsStmts};

use alma_base::NoMemory;
use alma_ir::Stmt;
use alma_lower_parts::{Scene, Work};

/// The statements that stand inside, as `inside` puts them.
pub fn emit_inside<S>(
    work: &mut Work,
    scene: &Scene<'_>,
    body: &[Stmt],
    inside: &S,
) -> Result<(), NoMemory>
where
    S: for<'a, 'b, 'c, 'd> Fn(&'a mut Work, &'b Scene<'c>, &'d [Stmt]) -> Result<(), NoMemory>,
    requires emits { EmitsStmts (S.IsAlwaysCallable inside.now) (S.post inside.now) }
    ensures puts { OnOk result (PutsStmts (around scene.now)
        (front work.old) (front work.new) (stmts_list body.now)) }
{
    inside(work, scene, body)
}
