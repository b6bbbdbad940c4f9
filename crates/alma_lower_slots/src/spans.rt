// Where slots are live, as far as writes, reads and jumps tell. What is found here the checker
// looks over.

use crate::close::is_calm_for;
use crate::lookups::{end_of, instr_at, param_count, start_of};
use crate::matters::is_kept;
use crate::names::own_of;
use crate::sources::{Sources, sources_of};
use crate::stretch::{KEPT, NOWHERE, Stretch};
use crate::units::{Unit, give_numbers};
use crate::uses::{reads_of, written_by};
use alma_base::{NoMemory, SLOT_LIMIT};
use alma_code::{Code, Instr, SlotKind};
use std::alloc::Global;

// A stretch of more instructions is not looked at: its slot is kept.
const LONGEST_STRETCH: u32 = 256;

// The stretch of a slot that is kept; its number is given later.
const KEPT_STRETCH: Stretch = Stretch {
    slot: 0,
    low: 0,
    high: KEPT,
};

/// The stretch of each slot of a routine, with its new number. `own` has for each routine how many
/// of its slots are own ones.
pub fn stretches_of(
    alloc: Global,
    code: &Code,
    routine: usize,
    own: &[u32],
    kinds: &[SlotKind],
) -> Result<Vec<Stretch>, NoMemory> {
    if kinds.len() > SLOT_LIMIT as usize {
        return Err(NoMemory);
    }
    let own = own_of(own, routine);
    let mut stretches = without_uses(alloc, own, kinds.len() as u32)?;
    let mut units = singles(alloc, kinds.len() as u32)?;
    for at in start_of(code, routine)..end_of(code, routine) {
        see(code, at, &mut stretches, &mut units);
    }
    close_all(alloc, code, routine, kinds, &mut stretches)?;
    give_numbers(alloc, kinds, own, &units, &mut stretches)?;
    Ok(stretches)
}

// Each stretch with the jumps in it.
fn close_all(
    alloc: Global,
    code: &Code,
    routine: usize,
    kinds: &[SlotKind],
    stretches: &mut [Stretch],
) -> Result<(), NoMemory> {
    let start = start_of(code, routine);
    let sources = sources_of(alloc, code, routine)?;
    for n in 0..stretches.len().min(kinds.len()) {
        let whole = closure_of(start, &sources, stretches[n]);
        stretches[n] = calm_or_kept(code, kinds.get(n).copied(), whole);
    }
    Ok(())
}

// The own slots, which are kept, and the others, of which nothing was seen.
fn without_uses(alloc: Global, own: u32, count: u32) -> Result<Vec<Stretch>, NoMemory> {
    let mut stretches = Vec::new(alloc);
    for n in 0..count {
        let kept = Stretch {
            slot: n,
            low: 0,
            high: KEPT,
        };
        stretches.push(if n < own { kept } else { NOWHERE })?;
    }
    Ok(stretches)
}

// Each slot by itself.
fn singles(alloc: Global, count: u32) -> Result<Vec<Unit>, NoMemory> {
    let mut units = Vec::new(alloc);
    for n in 0..count {
        units.push(Unit { first: n, len: 1 })?;
    }
    Ok(units)
}

// What an instruction reads and writes.
fn see(code: &Code, at: u32, stretches: &mut [Stretch], units: &mut [Unit]) {
    let instr = instr_at(code, at);
    for word in reads_of(instr) {
        if let Some(slot) = word {
            see_read(stretches, slot, at);
        }
    }
    if let Instr::Call {
        routine,
        first,
        to: _,
    } = instr
    {
        see_arguments(code, routine, first, at, stretches, units);
    }
    if let Some(slot) = written_by(code, instr) {
        see_write(stretches, slot, at);
    }
}

// The arguments of a call are read, and stay together.
fn see_arguments(
    code: &Code,
    routine: u32,
    first: u32,
    at: u32,
    stretches: &mut [Stretch],
    units: &mut [Unit],
) {
    let len = param_count(code, routine);
    for k in 0..len {
        let slot = first.saturating_add(k);
        see_read(stretches, slot, at);
        if (slot as usize) < units.len() {
            units[slot as usize] = Unit { first, len };
        }
    }
}

// A slot is read: one that was not written before is kept.
fn see_read(stretches: &mut [Stretch], slot: u32, at: u32) {
    let slot = slot as usize;
    if slot >= stretches.len() || stretches[slot].high == KEPT {
        return;
    }
    if stretches[slot].low == NOWHERE.low {
        stretches[slot] = KEPT_STRETCH;
    } else {
        stretches[slot].high = stretches[slot].high.max(at);
    }
}

// A slot is written.
fn see_write(stretches: &mut [Stretch], slot: u32, at: u32) {
    let slot = slot as usize;
    if slot >= stretches.len() || stretches[slot].high == KEPT {
        return;
    }
    stretches[slot].low = stretches[slot].low.min(at);
    stretches[slot].high = stretches[slot].high.max(at.saturating_add(1));
}

// The stretch with all jumps in it that lead back into it. Where one leads into it from before, or
// it is long, the slot is kept.
fn closure_of(start: u32, sources: &[Sources], stretch: Stretch) -> Stretch {
    let mut closure = stretch;
    if stretch.high <= stretch.low || is_kept(stretch) {
        return closure;
    }
    for at in stretch.low.saturating_add(1)..stretch.low.saturating_add(LONGEST_STRETCH) {
        if at > closure.high {
            return closure;
        }
        let Some(from) = sources.get(at.saturating_sub(start) as usize) else {
            return KEPT_STRETCH;
        };
        if from.first <= stretch.low {
            return KEPT_STRETCH;
        }
        closure.high = closure.high.max(from.last);
    }
    KEPT_STRETCH
}

// The stretch, if no number lives in it behind a carry; else the slot is kept.
fn calm_or_kept(code: &Code, kind: Option<SlotKind>, stretch: Stretch) -> Stretch {
    if is_kept(stretch) || is_calm_for(code, kind, stretch.low, stretch.high) {
        return stretch;
    }
    KEPT_STRETCH
}
