// What RETURN, READ and WRITE put behind their part, whose result is handed on unopened.
ghost use Rattle.std.specs.Prelude.{◌∷◌, [], IfOk, IsOk, OnOk};
ghost use Rattle.alma_code.specs.declared.instr.Instr.TheVariants as instr;
ghost use Rattle.alma_lower_templates.specs.LineInstr.{own};
ghost use Rattle.alma_lower_templates.specs.Pieces as pieces;
ghost use Rattle.alma_lower_templates.specs.Tables.{range_number};
ghost use Rattle.alma_lower_templates.specs.Templates.{fit_result};
ghost use Rattle.alma_lower_work.specs.Front.{around, front, result_of, Codes};
ghost use Rattle.alma_lower_parts.specs.Steps.{PutsTwo};

use alma_base::{NoMemory, Range};
use alma_ir::{ReadAs, WriteAs};
use alma_lower_parts::{Scene, Work, put_read, put_return, write_instr};

// RETURN of a number, in the range of the result.
pub(crate) fn return_of(
    work: &mut Work,
    scene: &Scene<'_>,
    line: u32,
    value: Result<u32, NoMemory>,
) -> Result<(), NoMemory>
    ensures done { OnOk result (IsOk value) }
    ensures puts { IfOk value (λ value. OnOk result (PutsTwo (front work.old) (front work.new)
        (own line (fit_result (around scene.now).program (around scene.now).tables
        (around scene.now).routine (result_of (around scene.now)) value))
        (own line (instr.ReturnValue value ∷ [])))) }
{
    let value = value?;
    put_return(work, scene, line, value)
}

// READ into a place.
pub(crate) fn read_of(
    work: &mut Work,
    scene: &Scene<'_>,
    line: u32,
    how: ReadAs,
    place: Result<u32, NoMemory>,
    range: Range,
) -> Result<(), NoMemory>
    ensures done { OnOk result (IsOk place) }
    ensures codes { IfOk place (λ place. OnOk result (Codes (front work.old) (front work.new)
        (own line (pieces.read_code how place (range_number (around scene.now).tables range)
        ∷ [])))) }
{
    let place = place?;
    put_read(work, scene, line, how, place, range)
}

// WRITE of a number.
pub(crate) fn write_of(
    work: &mut Work,
    line: u32,
    how: WriteAs,
    value: Result<u32, NoMemory>,
) -> Result<(), NoMemory>
    ensures done { OnOk result (IsOk value) }
    ensures codes { IfOk value (λ value. OnOk result (Codes (front work.old) (front work.new)
        (own line (pieces.write_code how value ∷ [])))) }
{
    let value = value?;
    work.add(line, write_instr(how, value))
}
