// How many slots are a routine's own: its parameters and variables, and what places name or other
// frames read. What is found here the checker looks over.

use crate::lookups::{end_of, instr_at, start_of};
use crate::names::{length_of, link_of};
use alma_base::NoMemory;
use alma_code::{Code, Instr, ParamKind, RoutineHead, SlotKind};
use std::alloc::Global;

/// For each routine a count of slots, from 0 on, that keep their numbers. `kinds` has those of the
/// slots of each.
pub fn own_slots(
    alloc: Global,
    code: &Code,
    kinds: &[Vec<SlotKind>],
) -> Result<Vec<u32>, NoMemory> {
    let mut own = Vec::new(alloc);
    for routine in 0..code.routines.len() {
        own.push(declared_slots(&code.routines[routine], routine == 0))?;
    }
    for global in &code.globals {
        raise(&mut own, 0, global.slot.saturating_add(global.cells));
    }
    for routine in 0..code.routines.len().min(kinds.len()) {
        raise_in(code, routine, kinds[routine].as_slice(), &mut own);
    }
    Ok(own)
}

// How many slots parameters and variables have: as many as are declared cells, one more for a link
// and for a simple MIX parameter. The body of the module has the input position in front of them.
fn declared_slots(head: &RoutineHead, is_body: bool) -> u32 {
    let mut count = head.declared;
    if is_body {
        count = count.saturating_add(1);
    }
    for param in &head.params {
        if param.kind == ParamKind::Link || param.kind == ParamKind::Mix {
            count = count.saturating_add(1);
        }
    }
    count.max(1)
}

// A routine has at least so many own slots.
fn raise(own: &mut [u32], routine: usize, least: u32) {
    if routine < own.len() && own[routine] < least {
        own[routine] = least;
    }
}

// What the code of a routine asks of it and of others.
fn raise_in(code: &Code, routine: usize, kinds: &[SlotKind], own: &mut [u32]) {
    for at in start_of(code, routine)..end_of(code, routine) {
        raise_for(instr_at(code, at), routine, kinds, own);
    }
}

// What an instruction asks; a place of no cells, too, begins at an own slot.
fn raise_for(instr: Instr, routine: usize, kinds: &[SlotKind], own: &mut [u32]) {
    match instr {
        Instr::Local { to, first } => raise(
            own,
            routine,
            first.saturating_add(length_of(kinds, to).max(1)),
        ),
        Instr::Global { to, first } => raise(own, 0, first.saturating_add(length_of(kinds, to))),
        Instr::Outer { to, link, first } => raise(
            own,
            link_of(kinds, link) as usize,
            first.saturating_add(length_of(kinds, to)),
        ),
        Instr::Chain { to: _, link, slot } | Instr::OuterSame { to: _, link, slot } => raise(
            own,
            link_of(kinds, link) as usize,
            slot.saturating_add(1),
        ),
        _ => {}
    }
}
