// What is put for a form of phrase behind its parts, or before them.
ghost use Rattle.std.specs.Prelude.{◌≡◌, ◌∷◌, [], IfOk, IsOk, OnOk};
ghost use Rattle.alma_code.specs.declared.cell.SlotKind.TheVariants as slot;
ghost use Rattle.alma_code.specs.declared.instr.Instr.TheVariants as instr;
ghost use Rattle.alma_choice.specs.Emitted.{aim_jump};
ghost use Rattle.alma_ir.specs.View.{expr_of, sels_list};
ghost use Rattle.alma_lower_templates.specs.LineInstr.{own};
ghost use Rattle.alma_lower_templates.specs.Pieces as pieces;
ghost use Rattle.alma_lower_templates.specs.Tables.{range_number};
ghost use Rattle.alma_base.specs.Numbers.{char_range};
ghost use Rattle.alma_lower_templates.specs.Templates.{fit_result};
ghost use Rattle.alma_lower_work.specs.Front.{around, front, result_of, Changes, Codes};
ghost use Rattle.alma_lower_work.specs.Puts.{set_instr};
ghost use Rattle.alma_lower_parts.specs.Numbers.{PutsNumber};
ghost use Rattle.alma_lower_parts.specs.Steps.{BeginsPlace, BeginsWhile, EndsTruth, PutsSlot, PutsTwo};

use alma_base::{NoMemory, Range};
use alma_code::{Instr, SlotKind};
use alma_ir::{Desig, Expr, ReadAs};
use alma_lower_work::{
    Scene, Stand, Work, is_straight, own_root, put_fit, put_result_fit, put_root, put_truth,
    read_instr,
};

/// A number for a variable, in a range.
pub fn put_set(
    work: &mut Work,
    scene: &Scene<'_>,
    line: u32,
    range: Range,
    stand: Stand,
    value: u32,
) -> Result<(), NoMemory>
    ensures { OnOk result (PutsTwo (front work.old) (front work.new)
        (own line (pieces.fit_code (around scene.now).tables range value))
        (own line (set_instr stand value ∷ []))) }
{
    put_fit(work, scene, line, range, value)?;
    work.add(line, stand.set(value))
}

/// A number for the slot of an argument, in a range: it goes straight there, or from its own slot
/// behind its check.
pub fn put_number(
    work: &mut Work,
    scene: &Scene<'_>,
    line: u32,
    value: &Expr,
    range: Range,
    to: u32,
    from: u32,
) -> Result<(), NoMemory>
    ensures { OnOk result (PutsNumber (around scene.now) line (expr_of value.now) range to from
        (front work.old) (front work.new)) }
{
    if is_straight(value, range) {
        work.redirect(to);
        return Ok(());
    }
    put_fit(work, scene, line, range, from)?;
    work.add(line, Instr::Move { to, from })
}

/// RETURN of a number, in the range of the result.
pub fn put_return(work: &mut Work, scene: &Scene<'_>, line: u32, value: u32) -> Result<(), NoMemory>
    ensures { OnOk result (PutsTwo (front work.old) (front work.new)
        (own line (fit_result (around scene.now).program (around scene.now).tables
        (around scene.now).routine (result_of (around scene.now)) value))
        (own line (instr.ReturnValue value ∷ []))) }
{
    put_result_fit(work, scene, line, value)?;
    work.add(line, Instr::ReturnValue { value })
}

/// READ into a place.
pub fn put_read(
    work: &mut Work,
    scene: &Scene<'_>,
    line: u32,
    how: ReadAs,
    place: u32,
    range: Range,
) -> Result<(), NoMemory>
    ensures { OnOk result (Codes (front work.old) (front work.new) (own line
        (pieces.read_code how place (range_number (around scene.now).tables range) ∷ []))) }
{
    let range = scene.range_number(range)?;
    work.add(line, read_instr(how, place, range))
}

/// The check of CHR, that a number is one of CHAR; its slot.
pub fn put_chr(work: &mut Work, scene: &Scene<'_>, line: u32, value: u32) -> Result<u32, NoMemory>
    ensures slot { IfOk result (λ given. given ≡ value) }
    ensures codes { OnOk result (Codes (front work.old) (front work.new) (own line
        (instr.InRange value (range_number (around scene.now).tables char_range) ∷ []))) }
{
    let range = scene.range_number(Range::character())?;
    work.put(line, Instr::InRange { value, range })?;
    Ok(value)
}

/// An equation of a place and a number.
pub fn put_bind(
    work: &mut Work,
    scene: &Scene<'_>,
    line: u32,
    place: u32,
    value: u32,
    range: Range,
) -> Result<(), NoMemory>
    ensures { OnOk result (Codes (front work.old) (front work.new) (own line
        (instr.Bind place value (range_number (around scene.now).tables range) ∷ []))) }
{
    let range = scene.range_number(range)?;
    work.add(
        line,
        Instr::Bind {
            place,
            value,
            range,
        },
    )
}

/// An equation of two places, each with its range.
pub fn put_unify(
    work: &mut Work,
    scene: &Scene<'_>,
    line: u32,
    one: (u32, Range),
    other: (u32, Range),
) -> Result<(), NoMemory>
    ensures { OnOk result (Codes (front work.old) (front work.new) (own line
        (instr.Unify one.0 (range_number (around scene.now).tables one.1) other.0
        (range_number (around scene.now).tables other.1) ∷ []))) }
{
    let left_range = scene.range_number(one.1)?;
    let right_range = scene.range_number(other.1)?;
    work.add(
        line,
        Instr::Unify {
            left: one.0,
            left_range,
            right: other.0,
            right_range,
        },
    )
}

/// The place of an element of the array at a place.
pub fn put_index(
    work: &mut Work,
    scene: &Scene<'_>,
    line: u32,
    from: u32,
    index: u32,
    range: Range,
    cells: u32,
) -> Result<u32, NoMemory>
    ensures slot { IfOk result (λ to. to ≡ (front work.old).next) }
    ensures puts { IfOk result (λ to. PutsSlot (front work.old) (front work.new) (slot.Place cells)
        (own line (instr.Index to from index (range_number (around scene.now).tables range)
        ∷ []))) }
{
    let to = work.slot(SlotKind::Place(cells))?;
    let range = scene.range_number(range)?;
    work.put(
        line,
        Instr::Index {
            to,
            from,
            index,
            range,
        },
    )?;
    Ok(to)
}

/// The place of the root of a designator, in a slot of its own where it is not used in that of a
/// parameter.
pub fn begin_place(
    work: &mut Work,
    scene: &Scene<'_>,
    line: u32,
    desig: &Desig,
) -> Result<u32, NoMemory>
    ensures { IfOk result (λ to. BeginsPlace (around scene.now) line (front work.old)
        (front work.new) desig.now.cells desig.now.root (sels_list desig.now.sels.items) to) }
{
    let to = work.slot(SlotKind::Place(desig.cells))?;
    match own_root(scene, desig.root, &desig.sels)? {
        Some(from) => Ok(from),
        None => {
            put_root(work, scene, line, to, desig.root)?;
            Ok(to)
        }
    }
}

/// A condition as a number, behind the condition, whose jump is aimed; the slot of the number.
pub fn end_truth(work: &mut Work, line: u32, jump: u32, to: u32) -> Result<u32, NoMemory>
    ensures slot { IfOk result (λ given. given ≡ to) }
    ensures ends { OnOk result (EndsTruth line (front work.old) (front work.new) jump to) }
{
    work.aim_behind(jump, 2)?;
    put_truth(work, line, to)?;
    Ok(to)
}

/// The jump of WHILE to its condition, and the address of the condition.
pub fn begin_while(work: &mut Work, line: u32) -> Result<u32, NoMemory>
    ensures { IfOk result (λ top. BeginsWhile line (front work.old) (front work.new) top) }
{
    let top = work.behind(1)?;
    work.put(line, Instr::Jump { to: top })?;
    Ok(top)
}

/// Behind REPEAT: the jump of its condition is aimed at its top.
pub fn end_repeat(work: &mut Work, jump: Result<u32, NoMemory>, top: u32) -> Result<(), NoMemory>
    ensures done { OnOk result (IsOk jump) }
    ensures aims { IfOk jump (λ at. OnOk result (Changes (front work.old) (front work.new)
        (λ xs. aim_jump xs at top))) }
{
    let at = jump?;
    work.aim(at, top);
    Ok(())
}
