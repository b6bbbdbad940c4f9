// The kinds of the slots of a routine, and the runs in which a code names them.
ghost use Rattle.std.specs.Prelude.{◌≡◌, ◌+◌, ◌-◌, ◌≤◌, ◌++◌, true, false, length, replicate, IfOk, OnOk};
ghost use Rattle.alma_base.specs.Limits.{slot_limit};
ghost use Rattle.alma_code.specs.declared.cell.SlotKind.TheVariants as slot;
ghost use Rattle.alma_ir.specs.View as view;
ghost use Rattle.alma_lower_templates.specs.Runs.{NamesKinds};
ghost use Rattle.alma_lower_templates.specs.Slots as slots;

use alma_base::NoMemory;
use alma_code::{Run, SlotKind};
use alma_ir::{ArgKind, Param, Routine};
use std::alloc::Global;

/// The level from which a routine has a link to the frame of the routine round it.
pub const LINK_LEVEL: u32 = 2;

// Whether two kinds are equal.
fn is_same(kind: SlotKind, other: SlotKind) -> bool
    ensures same { result ≡ true → kind ≡ other }
    ensures different { result ≡ false → kind ≡ other → ⊥ }
{
    kind == other
}

/// The runs of slots of these kinds, each as long as it can be.
pub fn runs_of(alloc: Global, kinds: &[SlotKind]) -> Result<Vec<Run>, NoMemory>
    requires room { length kinds.now ≤ slot_limit }
    ensures names { IfOk result (λ runs. NamesKinds runs.items kinds.now) }
    ensures few { IfOk result (λ runs. length runs.items ≤ length kinds.now) }
{
    if kinds.is_empty() {
        return Ok(Vec::new(alloc));
    }
    let mut runs = Vec::new(alloc);
    let mut latest = Run {
        kind: kinds[0],
        end: 1,
    };
    for i in 1..kinds.len() {
        if is_same(kinds[i], latest.kind) {
            latest.end += 1;
        } else {
            runs.push(latest)?;
            latest = Run {
                kind: kinds[i],
                end: latest.end + 1,
            };
        }
    }
    runs.push(latest)?;
    Ok(runs)
}

/// The link and the own slots of a routine: its parameters, and numbers.
pub fn own_kinds(alloc: Global, routine: &Routine) -> Result<Vec<SlotKind>, NoMemory>
    ensures { IfOk result (λ kinds. kinds.items ≡ slots.own_kinds (view.routine_of routine.now)) }
{
    let mut kinds = Vec::new(alloc);
    push_params(&mut kinds, &routine.params)?;
    let taken = kinds.len();
    push_numbers(&mut kinds, (routine.slots as usize).saturating_sub(taken))?;
    with_link(alloc, routine, &kinds)
}

// These kinds behind the link of a routine, where it has one.
fn with_link(
    alloc: Global,
    routine: &Routine,
    kinds: &[SlotKind],
) -> Result<Vec<SlotKind>, NoMemory>
    ensures { IfOk result (λ all. all.items ≡ slots.link_kinds routine.now.level routine.now.outer
        ++ kinds.now) }
{
    let mut all = Vec::new(alloc);
    if routine.level >= LINK_LEVEL {
        all.push(SlotKind::Link(routine.outer))?;
    }
    all.extend_from_slice(kinds)?;
    Ok(all)
}

// The slots of parameters.
fn push_params(kinds: &mut Vec<SlotKind>, params: &[Param]) -> Result<(), NoMemory>
    ensures { OnOk result (kinds.new.items ≡ kinds.old.items ++ slots.params_kinds params.now) }
{
    for param in params {
        push_param(kinds, param)?;
    }
    Ok(())
}

// The slots of a parameter.
fn push_param(kinds: &mut Vec<SlotKind>, param: &Param) -> Result<(), NoMemory>
    ensures { OnOk result (kinds.new.items ≡ kinds.old.items ++ slots.param_kinds param.now.kind
        param.now.cells) }
{
    match param.kind {
        ArgKind::Value => {
            kinds.push(SlotKind::Number)?;
        }
        ArgKind::Place => {
            kinds.push(SlotKind::Place(param.cells))?;
        }
        ArgKind::Mix => {
            kinds.push(SlotKind::Place(1))?;
            kinds.push(SlotKind::Number)?;
        }
        ArgKind::Cells => push_numbers(kinds, param.cells as usize)?,
    }
    Ok(())
}

// So many slots for numbers.
fn push_numbers(kinds: &mut Vec<SlotKind>, count: usize) -> Result<(), NoMemory>
    ensures { OnOk result (kinds.new.items ≡ kinds.old.items ++ replicate count slot.Number) }
{
    for _ in 0..count {
        kinds.push(SlotKind::Number)?;
    }
    Ok(())
}
