// All routines of a code, with their slots shared.
ghost use Rattle.std.specs.Prelude.{◌≡◌, ◌<◌, ◌≤◌, ◌++◌, length, map, sum_by, true, IfOk, IfSome, OnOk};
ghost use Rattle.alma_base.specs.Limits.{slot_limit};
ghost use Rattle.alma_code.specs.Plain.{code_of, routine_of, kinds_at, start_at};
ghost use Rattle.alma_code.specs.Rules.{IsSound};
ghost use Rattle.alma_lower_slots.specs.Inner.Shared.{Adds, SharesSoFar, head_kinds, instrs_in, kinds_of_all, slot_in};
ghost use Rattle.alma_lower_slots.specs.Slots.{rename_slots};

use crate::check::may_share;
use crate::heads::{head_behind, kinds_in};
use crate::rename::push_renamed;
use crate::spans::stretches_of;
use crate::stretch::Stretch;
use alma_base::{NoMemory, SLOT_LIMIT};
use alma_code::{Code, Instr, RoutineHead, SlotKind};
use std::alloc::Global;

/// The heads of routines and their instructions.
#[derive(Drop)]
pub struct Parts {
    pub heads: Vec<RoutineHead>,
    pub instrs: Vec<Instr>,
}

/// The kinds of the slots of each routine.
pub fn all_kinds(alloc: Global, heads: &[RoutineHead]) -> Result<Vec<Vec<SlotKind>>, NoMemory>
    ensures { IfOk result (λ all. kinds_of_all all.items ≡ map head_kinds heads.now) }
{
    let mut all = Vec::new(alloc);
    for head in heads {
        all.push(kinds_in(alloc, &head.kinds)?)?;
    }
    Ok(all)
}

/// Whether the runs of all routines are not too many.
pub fn runs_fit(heads: &[RoutineHead]) -> bool
    ensures { result ≡ true → sum_by (λ r. length r.head.runs) (map routine_of heads.now)
        ≤ slot_limit }
{
    let mut count = 0;
    for head in heads {
        count += head.kinds.len();
        if count > SLOT_LIMIT as usize {
            return false;
        }
    }
    true
}

// Puts the instructions of a routine, with their slots renamed, behind those of the routines before
// it.
fn push_instrs(
    instrs: &mut Vec<Instr>,
    code: &Code,
    routine: usize,
    stretches: &[Stretch],
) -> Result<(), NoMemory>
    requires sound { IsSound (code_of code.now) }
    requires exists { routine < length (code_of code.now).routines }
    requires start { length instrs.old.items ≡ start_at (code_of code.now) routine }
    ensures { OnOk result (instrs.new.items ≡ instrs.old.items
        ++ map (rename_slots (slot_in stretches.now))
        (instrs_in (code_of code.now) routine)) }
{
    let start = instrs.len();
    let end = code.routines[routine].code_end as usize;
    push_renamed(instrs, &code.code[start..end], stretches)
}

// Adds a routine with its slots shared, or says that they may not be.
fn add_routine(
    alloc: Global,
    code: &Code,
    routine: usize,
    own: &[u32],
    kinds: &[SlotKind],
    parts: &mut Parts,
) -> Result<bool, NoMemory>
    requires sound { IsSound (code_of code.now) }
    requires exists { routine < length (code_of code.now).routines }
    requires kinds { kinds.now ≡ kinds_at (code_of code.now) routine }
    requires start { length parts.old.instrs.items ≡ start_at (code_of code.now) routine }
    ensures { IfOk result (λ added. added ≡ true → Adds (code_of code.now) own.now routine
        (map routine_of parts.old.heads.items) parts.old.instrs.items
        (map routine_of parts.new.heads.items) parts.new.instrs.items) }
{
    let stretches = stretches_of(alloc, code, routine, own, kinds)?;
    if !may_share(alloc, code, routine, own, kinds, &stretches)? {
        return Ok(false);
    }
    match head_behind(alloc, &code.routines[routine], kinds, &stretches)? {
        Some(head) => parts.heads.push(head)?,
        None => return Ok(false),
    }
    push_instrs(&mut parts.instrs, code, routine, &stretches)?;
    Ok(true)
}

/// All routines with their slots shared, or none where they may not be.
pub fn share_routines(
    alloc: Global,
    code: &Code,
    own: &[u32],
    kinds: &[Vec<SlotKind>],
) -> Result<Option<Parts>, NoMemory>
    requires sound { IsSound (code_of code.now) }
    requires kinds { kinds_of_all kinds.now ≡ map head_kinds code.now.routines.items }
    ensures { IfOk result (λ found. IfSome found (λ parts. SharesSoFar (code_of code.now) own.now
        (length (code_of code.now).routines) (map routine_of parts.heads.items)
        parts.instrs.items)) }
{
    let mut parts = Parts {
        heads: Vec::new(alloc),
        instrs: Vec::new(alloc),
    };
    for routine in 0..code.routines.len() {
        if !add_routine(alloc, code, routine, own, &kinds[routine], &mut parts)? {
            return Ok(None);
        }
    }
    Ok(Some(parts))
}
