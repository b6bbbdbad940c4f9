// Lines that are passed over: those of statements that are emitted elsewhere.
ghost use Rattle.std.specs.Prelude.{◌≡◌, ℕ, drop, IfOk, OnOk};
ghost use Rattle.alma_ir.specs.Lines.{behind};
ghost use Rattle.alma_ir.specs.Phrases.{desig_phrases, stmts_phrases};
ghost use Rattle.alma_ir.specs.Tree.{Else};
ghost use Rattle.alma_ir.specs.View.{cases_list, desig_of, stmts_list};
ghost use Rattle.alma_lower_work.specs.Front.{Around, Front, around, front, Turns};
ghost use Rattle.alma_lower_templates.specs.Templates.{own_slot};
ghost use Rattle.alma_lower_parts.specs.Cases.{PutsAllArms};
ghost use Rattle.alma_lower_parts.specs.Loops.{BeginsLoop};

use crate::loops::{Counts, put_counts};
use alma_base::NoMemory;
use alma_ir::{CaseArm, Desig, Loop, Stmt, desig_inside, stmts_inside};
use alma_lower_work::{Scene, Work};

// Passes the lines of the statements inside a designator.
fn pass_desig(work: &mut Work, desig: &Desig) -> Result<(), NoMemory>
    ensures { OnOk result (Turns (front work.old) (front work.new)
        (behind (desig_phrases (desig_of desig.now)) (front work.old).lines)) }
{
    let count = desig_inside(desig)?;
    work.pass(count)
}

/// Passes the lines of statements.
pub fn pass_stmts(work: &mut Work, body: &[Stmt]) -> Result<(), NoMemory>
    ensures { OnOk result (Turns (front work.old) (front work.new)
        (behind (stmts_phrases (stmts_list body.now)) (front work.old).lines)) }
{
    let count = stmts_inside(body)?;
    work.pass(count)
}

/// Passes the arms of CASE before the first that has a label; its place.
pub fn pass_unlabelled(work: &mut Work, arms: &[CaseArm]) -> Result<usize, NoMemory>
    ensures { IfOk result (λ first. (s : Around) (line value bound : ℕ) (c : Front) (rest : Else)
        → PutsAllArms s line value bound (front work.new) c (cases_list (drop first arms.now)) rest
        → PutsAllArms s line value bound (front work.old) c (cases_list arms.now) rest) }
{
    let mut first = 0;
    for arm in arms {
        if !arm.labels.is_empty() {
            return Ok(first);
        }
        pass_stmts(work, &arm.body)?;
        first += 1;
    }
    Ok(first)
}

/// Passes the lines of the variable of a loop, and puts its step into a slot of its own.
pub fn begin_loop(
    work: &mut Work,
    scene: &Scene<'_>,
    line: u32,
    each: &Loop,
    by: i64,
) -> Result<Counts, NoMemory>
    ensures counter { IfOk result (λ counts. counts.counter ≡ own_slot (around scene.now).program
        (around scene.now).tables (around scene.now).routine each.now.counter) }
    ensures limit { IfOk result (λ counts. counts.limit ≡ own_slot (around scene.now).program
        (around scene.now).tables (around scene.now).routine each.now.limit) }
    ensures begins { IfOk result (λ counts. BeginsLoop line by (front work.old) (front work.new)
        (desig_of each.now.var) counts.step) }
{
    pass_desig(work, &each.var)?;
    let counts = put_counts(work, scene, line, each, by)?;
    Ok(counts)
}
