// The kinds of slots, and the heads of routines over new ones.
ghost use Rattle.std.specs.Prelude.{◌≡◌, ◌≤◌, ◌++◌, length, replicate, map, take, IfOk, OnOk, IfSome, true, None, Some};
ghost use Rattle.alma_base.specs.Limits.{slot_limit};
ghost use Rattle.alma_code.specs.Layout.{kinds_of};
ghost use Rattle.alma_code.specs.Plain as code;
ghost use Rattle.alma_lower_slots.specs.Inner.Shared.{HeadBehind, HeadOver, KindsFor, NamesOne, NamesSoFar};

use crate::rename::slot_of;
use crate::stretch::Stretch;
use alma_base::{NoMemory, SLOT_LIMIT};
use alma_code::{RoutineHead, Run, SlotKind};
use alma_lower_tables::runs_of;
use std::alloc::Global;

// Puts so many slots of a kind behind others.
fn push_kinds(kinds: &mut Vec<SlotKind>, count: u32, kind: SlotKind) -> Result<(), NoMemory>
    ensures { OnOk result (kinds.new.items ≡ kinds.old.items ++ replicate count kind) }
{
    for _ in 0..count {
        kinds.push(kind)?;
    }
    Ok(())
}

/// The kinds of the slots that runs name.
pub fn kinds_in(alloc: Global, runs: &[Run]) -> Result<Vec<SlotKind>, NoMemory>
    ensures { IfOk result (λ kinds. kinds.items ≡ kinds_of 0 runs.now) }
{
    let mut kinds = Vec::new(alloc);
    let mut low = 0;
    for run in runs {
        push_kinds(&mut kinds, run.end.saturating_sub(low), run.kind)?;
        low = run.end;
    }
    Ok(kinds)
}

// So many slots of which nothing is named.
fn unnamed(alloc: Global, count: usize) -> Result<Vec<Option<SlotKind>>, NoMemory>
    ensures { IfOk result (λ named. named.items ≡ replicate count None) }
{
    let mut named = Vec::new(alloc);
    for _ in 0..count {
        named.push(None)?;
    }
    Ok(named)
}

// Whether two kinds are equal.
fn is_same(kind: SlotKind, other: SlotKind) -> bool
    ensures { result ≡ true → kind ≡ other }
{
    kind == other
}

// Whether a number is free, or named this kind already.
fn is_free(named: Option<SlotKind>, kind: SlotKind) -> bool
    ensures { result ≡ true → (named ≡ None → ⊥) → named ≡ Some kind }
{
    match named {
        Some(other) => is_same(other, kind),
        None => true,
    }
}

// Names the kind of a slot at its new number, or says that another kind stands there, or that there
// is no such number.
fn name_kind(named: &mut [Option<SlotKind>], slot: usize, kind: SlotKind) -> bool
    ensures { result ≡ true → NamesOne named.old slot kind named.new }
{
    if slot >= named.len() {
        return false;
    }
    if !is_free(named[slot], kind) {
        return false;
    }
    named[slot] = Some(kind);
    true
}

// Names the kinds of all slots at their new numbers, and gives the count of these, or says that
// there is no such renaming.
fn name_kinds(
    named: &mut [Option<SlotKind>],
    kinds: &[SlotKind],
    stretches: &[Stretch],
) -> Option<usize>
    requires none { named.old ≡ replicate (length kinds.now) None }
    requires few { length kinds.now ≤ slot_limit }
    ensures { IfSome result (λ count. NamesSoFar kinds.now stretches.now (length kinds.now)
        named.new count) }
{
    let mut count = 0;
    for i in 0..kinds.len() {
        let slot = slot_of(stretches, i as u32) as usize;
        if !name_kind(named, slot, kinds[i]) {
            return None;
        }
        count = count.max(slot + 1);
    }
    Some(count)
}

// The kinds of the first so many numbers, or none where one is free.
fn all_named(
    alloc: Global,
    named: &[Option<SlotKind>],
    count: usize,
) -> Result<Option<Vec<SlotKind>>, NoMemory>
    requires { count ≤ length named.now }
    ensures { IfOk result (λ found. IfSome found (λ kinds. map Some kinds.items
        ≡ take count named.now)) }
{
    let mut kinds = Vec::new(alloc);
    for i in 0..count {
        match named[i] {
            Some(kind) => kinds.push(kind)?,
            None => return Ok(None),
        }
    }
    Ok(Some(kinds))
}

// The kinds of the slots behind a renaming, or none where two slots of one new number differ in
// kind, or a number stands for none.
fn new_kinds(
    alloc: Global,
    kinds: &[SlotKind],
    stretches: &[Stretch],
) -> Result<Option<Vec<SlotKind>>, NoMemory>
    ensures { IfOk result (λ found. IfSome found (λ new. KindsFor kinds.now stretches.now
        new.items)) }
{
    if kinds.len() > SLOT_LIMIT as usize {
        return Ok(None);
    }
    let mut named = unnamed(alloc, kinds.len())?;
    match name_kinds(&mut named, kinds, stretches) {
        Some(count) => all_named(alloc, &named, count),
        None => Ok(None),
    }
}

// A routine as before, but with slots of these kinds.
fn head_over(alloc: Global, old: &RoutineHead, kinds: &[SlotKind]) -> Result<RoutineHead, NoMemory>
    requires few { length kinds.now ≤ slot_limit }
    requires enough { old.now.declared ≤ length kinds.now }
    ensures { IfOk result (λ head. HeadOver (code.routine_of old.now) kinds.now (code.routine_of
        head)) }
{
    Ok(RoutineHead {
        name: Vec::from_slice(alloc, &old.name)?,
        slots: kinds.len() as u32,
        declared: old.declared,
        kinds: runs_of(alloc, kinds)?,
        params: Vec::from_slice(alloc, &old.params)?,
        result: old.result,
        code_end: old.code_end,
    })
}

/// A routine as before, but with its slots, which are of these kinds, behind a renaming, or none
/// where there is no such renaming.
pub fn head_behind(
    alloc: Global,
    old: &RoutineHead,
    kinds: &[SlotKind],
    stretches: &[Stretch],
) -> Result<Option<RoutineHead>, NoMemory>
    ensures { IfOk result (λ found. IfSome found (λ head. HeadBehind (code.routine_of old.now)
        kinds.now stretches.now (code.routine_of head))) }
{
    match new_kinds(alloc, kinds, stretches)? {
        Some(new) => {
            if new.len() > SLOT_LIMIT as usize || old.declared as usize > new.len() {
                return Ok(None);
            }
            Ok(Some(head_over(alloc, old, &new)?))
        }
        None => Ok(None),
    }
}
