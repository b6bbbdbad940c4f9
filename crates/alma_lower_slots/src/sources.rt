// From where jumps lead to the addresses of a routine.
ghost use Rattle.std.specs.Prelude.{IfOk};
ghost use Rattle.alma_code.specs.Plain.{code_of};
ghost use Rattle.alma_lower_slots.specs.Inner.Checks.{AreSources, Notes, NotesJump};

use crate::lookups::{end_of, instr_at, start_of};
use crate::uses::away_of;
use alma_base::NoMemory;
use alma_code::Code;
use std::alloc::Global;

/// The least and the greatest address from which one leads away to an address; of one to which none
/// leads the greatest and the least number.
#[derive(Clone, Copy)]
pub struct Sources {
    pub first: u32,
    pub last: u32,
}

// Notes an address as one from which one leads to a place.
fn note(sources: &mut [Sources], place: usize, at: u32)
    ensures { Notes sources.old sources.new place at }
{
    if place < sources.len() {
        let first = sources[place].first.min(at);
        let last = sources[place].last.max(at);
        sources[place] = Sources { first, last };
    }
}

// Notes an address as one from which one leads to another.
fn note_jump(sources: &mut [Sources], start: u32, at: u32, to: Option<u32>)
    ensures { NotesJump sources.old sources.new start at to }
{
    match to {
        None => {}
        Some(to) => {
            if start <= to {
                note(sources, (to - start) as usize, at);
            }
        }
    }
}

/// Those of all addresses of a routine, in order.
pub fn sources_of(alloc: Global, code: &Code, routine: usize) -> Result<Vec<Sources>, NoMemory>
    ensures { IfOk result (λ sources. AreSources (code_of code.now) routine sources.items) }
{
    let start = start_of(code, routine);
    let end = end_of(code, routine);
    let none = Sources {
        first: u32::MAX,
        last: 0,
    };
    let count = end.saturating_sub(start) as usize;
    let mut sources = Vec::from_elem(alloc, none, count)?;
    for at in start..end {
        note_jump(&mut sources, start, at, away_of(instr_at(code, at)));
    }
    Ok(sources)
}
