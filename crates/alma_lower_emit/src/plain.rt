// What expressions, tests, places and arguments put behind a part, whose result is handed on
// unopened.
ghost use Rattle.std.specs.Prelude.{◌≡◌, ◌∷◌, [], length, IfOk, IsOk, OnOk};
ghost use Rattle.alma_code.specs.declared.cell.SlotKind.TheVariants as slot;
ghost use Rattle.alma_code.specs.declared.instr.Instr.TheVariants as instr;
ghost use Rattle.alma_ir.specs.View.{expr_of};
ghost use Rattle.alma_lower_templates.specs.LineInstr.{own};
ghost use Rattle.alma_lower_templates.specs.Pieces as pieces;
ghost use Rattle.alma_lower_templates.specs.Tables.{range_number};
ghost use Rattle.alma_base.specs.Numbers.{char_range};
ghost use Rattle.alma_lower_work.specs.Front.{around, front, Changes, Codes};
ghost use Rattle.alma_lower_parts.specs.Numbers.{PutsNumber};
ghost use Rattle.alma_lower_parts.specs.Steps.{PutsSlot};

use alma_base::{NoMemory, Range};
use alma_code::{Instr, SlotKind};
use alma_ir::Expr;
use alma_lower_parts::{
    FirstOperand, Scene, Work, put_bind, put_chr, put_index, put_number, put_unequal,
};

// A number for the slot of an argument, in a range.
pub(crate) fn number_of(
    work: &mut Work,
    scene: &Scene<'_>,
    line: u32,
    value: &Expr,
    range: Range,
    to: u32,
    from: Result<u32, NoMemory>,
) -> Result<(), NoMemory>
    ensures done { OnOk result (IsOk from) }
    ensures puts { IfOk from (λ from. OnOk result (PutsNumber (around scene.now) line
        (expr_of value.now) range to from (front work.old) (front work.new))) }
{
    let from = from?;
    put_number(work, scene, line, value, range, to, from)
}

// The place that was made last goes straight to the slot of an argument.
pub(crate) fn place_of(
    work: &mut Work,
    to: u32,
    made: Result<u32, NoMemory>,
) -> Result<(), NoMemory>
    ensures done { OnOk result (IsOk made) }
    ensures places { OnOk result (Changes (front work.old) (front work.new)
        (λ xs. pieces.place_code to xs)) }
{
    made?;
    work.redirect_place(to);
    Ok(())
}

// The place of a parameter for the slot of an argument, from its own slot; a slot is taken all the
// same.
pub(crate) fn hand_own(
    work: &mut Work,
    line: u32,
    cells: u32,
    to: u32,
    from: u32,
) -> Result<(), NoMemory>
    ensures { OnOk result (PutsSlot (front work.old) (front work.new) (slot.Place cells)
        (own line (instr.Same to from ∷ []))) }
{
    work.slot(SlotKind::Place(cells))?;
    work.add(line, Instr::Same { to, from })
}

// The number at a place, for a slot; that slot.
pub(crate) fn load_of(
    work: &mut Work,
    line: u32,
    to: u32,
    place: Result<u32, NoMemory>,
) -> Result<u32, NoMemory>
    ensures done { OnOk result (IsOk place) }
    ensures slot { IfOk result (λ given. given ≡ to) }
    ensures codes { IfOk place (λ place. OnOk result (Codes (front work.old) (front work.new)
        (own line (instr.Load to place ∷ [])))) }
{
    let from = place?;
    work.put(line, Instr::Load { to, from })?;
    Ok(to)
}

// The end of a test of inequality, behind its first operand.
pub(crate) fn unequal_of(
    work: &mut Work,
    line: u32,
    first: FirstOperand,
    other: Result<u32, NoMemory>,
) -> Result<(), NoMemory>
    ensures done { OnOk result (IsOk other) }
    ensures codes { IfOk other (λ other. OnOk result (Codes (front work.old) (front work.new) (own
        line (pieces.unequal_code first.to first.from other (length (front work.old).code))))) }
{
    let other = other?;
    put_unequal(work, line, first, other)
}

// The call of a procedure, behind what it is handed.
pub(crate) fn call_of(
    work: &mut Work,
    line: u32,
    routine: u32,
    first: Result<u32, NoMemory>,
) -> Result<(), NoMemory>
    ensures done { OnOk result (IsOk first) }
    ensures codes { IfOk first (λ first. OnOk result (Codes (front work.old) (front work.new)
        (own line (instr.Call routine first 0 ∷ [])))) }
{
    let first = first?;
    work.add(
        line,
        Instr::Call {
            routine,
            first,
            to: 0,
        },
    )
}

// The test of a number that fails where it is 0.
pub(crate) fn check_of(
    work: &mut Work,
    line: u32,
    value: Result<u32, NoMemory>,
) -> Result<(), NoMemory>
    ensures done { OnOk result (IsOk value) }
    ensures codes { IfOk value (λ value. OnOk result (Codes (front work.old) (front work.new)
        (own line (instr.Check value ∷ [])))) }
{
    let value = value?;
    work.add(line, Instr::Check { value })
}

// An equation of a place and a number, which comes last.
pub(crate) fn bind_value(
    work: &mut Work,
    scene: &Scene<'_>,
    line: u32,
    place: u32,
    value: Result<u32, NoMemory>,
    range: Range,
) -> Result<(), NoMemory>
    ensures done { OnOk result (IsOk value) }
    ensures codes { IfOk value (λ value. OnOk result (Codes (front work.old) (front work.new)
        (own line (instr.Bind place value (range_number (around scene.now).tables range) ∷ [])))) }
{
    let value = value?;
    put_bind(work, scene, line, place, value, range)
}

// An equation of a number and a place, which comes last.
pub(crate) fn bind_place(
    work: &mut Work,
    scene: &Scene<'_>,
    line: u32,
    place: Result<u32, NoMemory>,
    value: u32,
    range: Range,
) -> Result<(), NoMemory>
    ensures done { OnOk result (IsOk place) }
    ensures codes { IfOk place (λ place. OnOk result (Codes (front work.old) (front work.new)
        (own line (instr.Bind place value (range_number (around scene.now).tables range) ∷ [])))) }
{
    let place = place?;
    put_bind(work, scene, line, place, value, range)
}

// An element of an array; its place.
pub(crate) fn element_of(
    work: &mut Work,
    scene: &Scene<'_>,
    line: u32,
    from: u32,
    index: Result<u32, NoMemory>,
    range: Range,
    cells: u32,
) -> Result<u32, NoMemory>
    ensures done { OnOk result (IsOk index) }
    ensures slot { IfOk result (λ to. to ≡ (front work.old).next) }
    ensures puts { IfOk index (λ index. IfOk result (λ to. PutsSlot (front work.old)
        (front work.new) (slot.Place cells) (own line (instr.Index to from index
        (range_number (around scene.now).tables range) ∷ [])))) }
{
    let index = index?;
    put_index(work, scene, line, from, index, range, cells)
}

// The check of CHR, that a number is one of CHAR; its slot.
pub(crate) fn chr_of(
    work: &mut Work,
    scene: &Scene<'_>,
    line: u32,
    value: Result<u32, NoMemory>,
) -> Result<u32, NoMemory>
    ensures done { OnOk result (IsOk value) }
    ensures slot { IfOk result (λ given. IfOk value (λ value. given ≡ value)) }
    ensures codes { IfOk value (λ value. OnOk result (Codes (front work.old) (front work.new)
        (own line (instr.InRange value (range_number (around scene.now).tables char_range)
        ∷ [])))) }
{
    let value = value?;
    put_chr(work, scene, line, value)
}

// The jump where a number is 0, which is still to be aimed; its address.
pub(crate) fn jump_of(
    work: &mut Work,
    line: u32,
    value: Result<u32, NoMemory>,
) -> Result<u32, NoMemory>
    ensures done { OnOk result (IsOk value) }
    ensures address { IfOk result (λ at. at ≡ length (front work.old).code) }
    ensures codes { IfOk value (λ value. OnOk result (Codes (front work.old) (front work.new)
        (own line (instr.JumpZero value 0 ∷ [])))) }
{
    let value = value?;
    work.put(line, Instr::JumpZero { value, to: 0 })
}
