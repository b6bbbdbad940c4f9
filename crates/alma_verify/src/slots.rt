// What kinds the slots of a routine have, and where its code begins.
ghost use Rattle.std.specs.Prelude.{◌^◌, ◌≡◌, ◌<◌, length};
ghost use Rattle.alma_code.specs.Plain.{start_at, kinds_at};
ghost use Rattle.alma_code.specs.Kinds.{numbers_from};
ghost use Rattle.alma_code.specs.Rules.{IsTable, kind_in, length_in, link_in, is_slot as is_slot_spec, cells_in};
ghost use Rattle.alma_verify.specs.Routines.{HasRoutine};

use crate::kinds::{is_number, link_routine, place_length};
use crate::reader::CodeReader;
use alma_code::SlotKind;

/// The kind of a slot.
pub fn kind_of<R: CodeReader>(reader: &R, routine: u32, slot: u64) -> Option<SlotKind>
    requires { HasRoutine (R.code reader.now) routine }
    ensures { result ≡ kind_in (R.code reader.now) routine slot }
{
    match reader.run_over(routine, slot) {
        Some(run) => Some(run.kind),
        None => None,
    }
}

/// Whether a slot word is below the routine's slots and not the input position.
pub fn is_slot<R: CodeReader>(reader: &R, routine: u32, slot: u32) -> bool
    requires { routine < length (R.code reader.now).routines }
    ensures { result ≡ is_slot_spec (R.code reader.now) routine slot }
{
    slot < reader.slots(routine) && (routine > 0 || slot > 0)
}

/// How many cells the places of a slot have; 0 where it is no place slot.
pub fn length_of<R: CodeReader>(reader: &R, routine: u32, slot: u32) -> u32
    requires { HasRoutine (R.code reader.now) routine }
    ensures { result ≡ length_in (R.code reader.now) routine slot }
{
    place_length(kind_of(reader, routine, u64::from(slot)))
}

/// The routine to whose frames the links of a slot lead.
pub fn link_of<R: CodeReader>(reader: &R, routine: u32, slot: u32) -> u32
    requires { HasRoutine (R.code reader.now) routine }
    ensures { result ≡ link_in (R.code reader.now) routine slot }
{
    link_routine(kind_of(reader, routine, u64::from(slot)))
}

/// The kind of a slot of a routine that may not be there.
pub fn kind_of_any<R: CodeReader>(reader: &R, routine: u32, slot: u32) -> Option<SlotKind>
    requires table { IsTable (R.code reader.now) }
    ensures { result ≡ kind_in (R.code reader.now) routine slot }
{
    if routine < reader.routine_count() {
        kind_of(reader, routine, u64::from(slot))
    } else {
        None
    }
}

/// The address of the routine's first instruction: where the code of the routine before ends, or 0.
#[tactic(auto, using(crate::proofs::SlotStarts::starts))]
pub fn start_of<R: CodeReader>(reader: &R, routine: u32) -> u32
    requires { routine < length (R.code reader.now).routines }
    ensures { result ≡ start_at (R.code reader.now) routine }
{
    if routine == 0 {
        0
    } else {
        reader.code_end(routine - 1)
    }
}

/// Whether count slots from first on are number slots, a run at a time.
pub fn are_numbers<R: CodeReader>(reader: &R, routine: u32, first: u64, count: u32) -> bool
    requires routine { HasRoutine (R.code reader.now) routine }
    requires first { first < 2 ^ 62 }
    ensures { result ≡ numbers_from count (kinds_at (R.code reader.now) routine) first }
{
    let end = first + u64::from(count);
    let mut at = first;
    'walk: while at < end {
        match reader.run_over(routine, at) {
            None => return false,
            Some(run) => {
                if !is_number(Some(run.kind)) {
                    return false;
                }
                at = u64::from(run.end);
            }
        }
    }
    true
}

/// Whether count slots from first on are number slots other than the input position.
#[tactic(auto, using(crate::proofs::SlotStarts::numbers))]
pub fn are_cells<R: CodeReader>(reader: &R, routine: u32, first: u32, count: u32) -> bool
    requires { HasRoutine (R.code reader.now) routine }
    ensures { result ≡ cells_in (R.code reader.now) routine first count }
{
    if count == 0 {
        return true;
    }
    (routine > 0 || first > 0) && are_numbers(reader, routine, u64::from(first), count)
}

/// Whether count slots from first on, of a routine that may not be there, are number slots.
pub fn are_numbers_of_any<R: CodeReader>(reader: &R, routine: u32, first: u32, count: u32) -> bool
    requires table { IsTable (R.code reader.now) }
    ensures { result ≡ numbers_from count (kinds_at (R.code reader.now) routine) first }
{
    if routine < reader.routine_count() {
        are_numbers(reader, routine, u64::from(first), count)
    } else {
        count == 0
    }
}
