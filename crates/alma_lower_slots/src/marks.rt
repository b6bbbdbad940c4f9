// Whether the slots in which a routine looks for the height of a FORALL are written by no Mark.
ghost use Rattle.std.specs.Prelude.{◌≡◌, IfOk, true};
ghost use Rattle.alma_code.specs.Plain.{code_of};
ghost use Rattle.alma_lower_slots.specs.Inner.Checks.{AreMarks, ClearBodies, FitBodies, IsClear, NotesMark};

use crate::lookups::{end_of, instr_at, start_of};
use crate::uses::{body_of, is_finish, mark_of};
use alma_base::NoMemory;
use alma_code::Code;
use std::alloc::Global;

// Marks a slot.
fn note_mark(marks: &mut [bool], slot: Option<u32>)
    ensures { NotesMark marks.old marks.new slot }
{
    match slot {
        None => {}
        Some(slot) => {
            let place = slot as usize;
            if place < marks.len() {
                marks[place] = true;
            }
        }
    }
}

// Those of so many slots that a Mark of the routine writes.
fn marks_of(alloc: Global, code: &Code, routine: usize, count: usize) -> Result<Vec<bool>, NoMemory>
    ensures { IfOk result (λ marks. AreMarks (code_of code.now) routine marks.items) }
{
    let start = start_of(code, routine);
    let end = end_of(code, routine);
    let mut marks = Vec::from_elem(alloc, false, count)?;
    for at in start..end {
        note_mark(&mut marks, mark_of(instr_at(code, at)));
    }
    Ok(marks)
}

// Whether a slot is not marked; one that is not there counts as marked.
fn is_clear(marks: &[bool], slot: Option<u32>) -> bool
    ensures { result ≡ true → IsClear marks.now slot }
{
    match slot {
        None => true,
        Some(slot) => match marks.get(slot as usize) {
            None => false,
            Some(found) => !*found,
        },
    }
}

// Whether no slot in which the routine looks for the height of a FORALL is marked, where those are
// marked that a Mark writes.
fn are_clear(code: &Code, routine: usize, marks: &[bool]) -> bool
    requires { AreMarks (code_of code.now) routine marks.now }
    ensures { result ≡ true → ClearBodies (code_of code.now) routine }
{
    let start = start_of(code, routine);
    let end = end_of(code, routine);
    for at in start..end {
        if !is_clear(marks, body_of(instr_at(code, at))) {
            return false;
        }
    }
    true
}

/// Whether the routine begins with no Finish, and no Mark writes where it looks for the height of a
/// FORALL. Of its slots there are so many.
pub fn fit_bodies(
    alloc: Global,
    code: &Code,
    routine: usize,
    count: usize,
) -> Result<bool, NoMemory>
    ensures { IfOk result (λ fit. fit ≡ true → FitBodies (code_of code.now) routine) }
{
    if is_finish(instr_at(code, start_of(code, routine))) {
        return Ok(false);
    }
    let marks = marks_of(alloc, code, routine, count)?;
    Ok(are_clear(code, routine, &marks))
}
