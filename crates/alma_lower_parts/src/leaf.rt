// What is emitted for a phrase that holds no other, and what is asked of one without a recursion.
ghost use Rattle.std.specs.Prelude.{◌≡◌, ◌+◌, IfOk, IsOk, OnOk};
ghost use Rattle.alma_ir.specs.View.{test_of};
ghost use Rattle.alma_ir.specs.Lines.{sel_with};
ghost use Rattle.alma_ir.specs.Tree as tree;
ghost use Rattle.alma_lower_templates.specs.Slots.{is_simple};
ghost use Rattle.alma_lower_templates.specs.Templates.{part_slot};
ghost use Rattle.alma_lower_work.specs.declared.stand.Stand.TheVariants as stands;
ghost use Rattle.alma_lower_work.specs.Front.{around, front};
ghost use Rattle.alma_lower_work.specs.Puts.{PutsExpr, PutsSel, PutsStmt};

use alma_base::NoMemory;
use alma_code::{Instr, SlotKind};
use alma_ir::Test;
use alma_lower_work::{Scene, Stand, Work, is_simple};

/// A number.
pub fn emit_const(
    work: &mut Work,
    scene: &Scene<'_>,
    line: u32,
    value: i64,
) -> Result<u32, NoMemory>
    ensures slot { IfOk result (λ slot. slot ≡ (front work.old).next) }
    ensures puts { OnOk result (PutsExpr (around scene.now) line
        (front work.old) (front work.new) (tree.Const value)) }
{
    let to = work.slot(SlotKind::Number)?;
    work.put(line, Instr::Const { to, value })?;
    Ok(to)
}

/// A field.
pub fn emit_field(
    work: &mut Work,
    scene: &Scene<'_>,
    line: u32,
    from: u32,
    offset: u32,
    cells: u32,
) -> Result<u32, NoMemory>
    ensures part { IfOk result (λ part. part ≡ part_slot (around scene.now).program
        (around scene.now).tables (around scene.now).routine (front work.old).next (sel_with
        (tree.Field offset cells) (front work.old).lines)) }
    ensures puts { OnOk result (PutsSel (around scene.now) line from
        (front work.old) (front work.new) (tree.Field offset cells)) }
{
    let to = work.slot(SlotKind::Place(cells))?;
    work.put(line, Instr::Field { to, from, offset })?;
    Ok(to)
}

/// WRITE of a text.
pub fn emit_text(work: &mut Work, scene: &Scene<'_>, line: u32, text: &[u8]) -> Result<(), NoMemory>
    ensures puts { OnOk result (PutsStmt (around scene.now) line
        (front work.old) (front work.new) (tree.WriteText text.now)) }
{
    let text = scene.text_number(text)?;
    work.add(line, Instr::WriteText { text })
}

/// WRITELN.
pub fn emit_line(work: &mut Work, scene: &Scene<'_>, line: u32) -> Result<(), NoMemory>
    ensures puts { OnOk result (PutsStmt (around scene.now) line
        (front work.old) (front work.new) tree.WriteLine) }
{
    work.add(line, Instr::WriteLine)
}

// The slot behind a slot.
fn slot_behind(slot: u32) -> Result<u32, NoMemory>
    ensures { IfOk result (λ next. next ≡ slot + 1) }
{
    slot.checked_add(1).ok_or(NoMemory)
}

/// The slot behind a slot, where all is done of which it has the number.
pub fn slot_past(done: Result<(), NoMemory>, slot: u32) -> Result<u32, NoMemory>
    ensures done { OnOk result (IsOk done) }
    ensures next { IfOk result (λ next. next ≡ slot + 1) }
{
    done?;
    slot_behind(slot)
}

/// Where a variable stands whose place is in a slot.
pub fn stand_at(place: Result<u32, NoMemory>) -> Result<Stand, NoMemory>
    ensures done { OnOk result (IsOk place) }
    ensures stand { IfOk result (λ stand. IfOk place (λ at. stand ≡ stands.Placed at)) }
{
    Ok(Stand::Placed(place?))
}

/// Whether a condition is tested by a jump.
#[tactic(auto, using(alma_ir::proofs::Views::viewed))]
pub fn is_plain(test: &Test) -> bool
    ensures { result ≡ is_simple (test_of test.now) }
{
    match test {
        Test::Value(value) => is_simple(value),
        Test::Bind(_, _, _, _) => false,
        Test::Unify(_, _, _, _) => false,
        Test::SameCells(_, _) => false,
        Test::Seq(_) => false,
        Test::And(_) => false,
        Test::Or(_) => false,
        Test::Not(_) => false,
        Test::Call(_) => false,
    }
}
