// The head of a routine, and where its code begins.
ghost use Rattle.std.specs.Prelude.{◌≡◌, ◌≤◌, ◌++◌, [], ◌∷◌, length, map, Result, IfOk, OnOk};
ghost use Rattle.alma_base.specs.Limits.{record_limit};
ghost use Rattle.alma_code.specs.Plain as code;
ghost use Rattle.alma_ir.specs.View as view;
ghost use Rattle.alma_lower_templates.specs.Runs.{NamesKinds};
ghost use Rattle.alma_lower_templates.specs.Compiled as compiled;
ghost use Rattle.alma_lower_templates.specs.LineInstr.{own};
ghost use Rattle.alma_lower_work.specs.Front.{front, Codes};
ghost use Rattle.alma_lower.specs.Routines.{end_instr, Begins, HeadFor};

use alma_base::{NoMemory, RECORD_LIMIT, SLOT_LIMIT};
use alma_code::{CodeParam, Instr, NO_RETURN, RoutineHead, SlotKind};
use alma_ir::Routine;
use alma_lower_parts::Work;
use alma_lower_tables::{params_of, runs_of};
use std::alloc::Global;

/// Begins a routine, behind so many own slots of it. Past the limit of slots this is NoMemory.
#[tactic(auto, unfolding(alma_lower_work::specs::Front::front))]
pub fn begin(alloc: Global, work: &mut Work, routine: &Routine, own: usize) -> Result<(), NoMemory>
    ensures { OnOk result (Begins (front work.old) (front work.new) own routine.now.lines.items) }
{
    if own > SLOT_LIMIT as usize {
        return Err(NoMemory);
    }
    let lines = Vec::from_slice(alloc, &routine.lines)?;
    work.emit.start(own as u32);
    work.emit.kinds = Vec::new(alloc);
    work.lines = lines;
    work.handed = 0;
    Ok(())
}

/// The end of a routine: a fault where a function gave no result.
pub fn put_end(work: &mut Work, routine: &Routine) -> Result<(), NoMemory>
    ensures { OnOk result (Codes (front work.old) (front work.new) (own routine.now.line
        (end_instr routine.now.result ∷ []))) }
{
    let end = match routine.result {
        Some(_) => Instr::Fault { number: NO_RETURN },
        None => Instr::Return,
    };
    work.put(routine.line, end)?;
    Ok(())
}

/// The head of a routine whose slots are of these kinds, and whose code ends before an address. At
/// a limit this is NoMemory.
pub fn head_of(
    alloc: Global,
    routine: &Routine,
    kinds: &[SlotKind],
    code_end: u32,
) -> Result<RoutineHead, NoMemory>
    ensures names { IfOk result (λ head. NamesKinds head.kinds.items kinds.now) }
    ensures head { IfOk result (λ head. HeadFor (view.routine_of routine.now) kinds.now code_end
        (code.routine_of head)) }
{
    if kinds.len() > SLOT_LIMIT as usize {
        return Err(NoMemory);
    }
    let params = few_params(alloc, routine)?;
    Ok(RoutineHead {
        name: Vec::from_slice(alloc, &routine.name)?,
        slots: kinds.len() as u32,
        declared: routine.declared,
        kinds: runs_of(alloc, kinds)?,
        params,
        result: routine.result.is_some(),
        code_end,
    })
}

// The parameters of a routine, its link before the others. Past the limit of records this is
// NoMemory.
fn few_params(alloc: Global, routine: &Routine) -> Result<Vec<CodeParam>, NoMemory>
    ensures params { IfOk result (λ params. params.items ≡ compiled.link_params routine.now.level
        routine.now.outer ++ map compiled.param_named routine.now.params.items) }
    ensures few { IfOk result (λ params. length params.items ≤ record_limit) }
{
    let params = params_of(alloc, routine)?;
    if params.len() > RECORD_LIMIT as usize {
        return Err(NoMemory);
    }
    Ok(params)
}
