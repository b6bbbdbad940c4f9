// Which routines of a module are imports.
ghost use Rattle.std.specs.Prelude.{◌≡◌, ◌<◌, false, map, nat_eq, not, ◌&&◌, sum_by, IfOk};
ghost use Rattle.alma_ir.specs.Checked.{param_slots};
ghost use Rattle.alma_ir.specs.View.{program_of, routine_of, stmts_list};
ghost use Rattle.alma_join.specs.Joined.{is_empty};
ghost use Rattle.alma_join.specs.Bare.{MarksOuter, MarksBare};

use alma_base::NoMemory;
use alma_ir::{ArgKind, Param, Program, Routine};
use std::alloc::Global;

// The slots of a parameter.
fn slots_of(param: &Param) -> u32
    ensures { result ≡ param_slots param.now }
{
    match param.kind {
        ArgKind::Value | ArgKind::Place => 1,
        ArgKind::Mix => 2,
        ArgKind::Cells => param.cells,
    }
}

// Whether the parameters take all the slots.
fn take_all_slots(params: &[Param], slots: u32) -> bool
    ensures { result ≡ nat_eq slots (sum_by param_slots params.now) }
{
    let mut left = slots;
    for param in params {
        let taken = slots_of(param);
        if left < taken {
            return false;
        }
        left -= taken;
    }
    left == 0
}

// Whether a routine has no statements.
fn has_empty_body(routine: &Routine) -> bool
    ensures { result ≡ is_empty (stmts_list routine.now.body.items) }
{
    routine.body.is_empty()
}

// Whether a routine is bare, given whether one stands inside of it.
fn is_bare(routine: &Routine, holds_routine: bool) -> bool
    ensures { result ≡ (nat_eq routine.now.level 1
        && (is_empty (stmts_list routine.now.body.items)
        && (nat_eq routine.now.slots (sum_by param_slots routine.now.params.items)
        && not holds_routine))) }
{
    routine.level == 1
        && has_empty_body(routine)
        && take_all_slots(&routine.params, routine.slots)
        && !holds_routine
}

// Of each routine, whether one stands inside of it.
fn mark_outer(alloc: Global, program: &Program) -> Result<Vec<bool>, NoMemory>
    ensures { IfOk result (λ marks. MarksOuter (map routine_of program.now.routines.items)
        marks.items) }
{
    let mut marks = Vec::from_elem(alloc, false, program.routines.len())?;
    for routine in &program.routines {
        let outer = routine.outer as usize;
        if outer < marks.len() {
            marks[outer] = true;
        }
    }
    Ok(marks)
}

/// Of each routine, whether it is bare.
pub fn mark_bare(alloc: Global, program: &Program) -> Result<Vec<bool>, NoMemory>
    ensures { IfOk result (λ marks. MarksBare (program_of program.now) marks.items) }
{
    let outer = mark_outer(alloc, program)?;
    let mut marks = Vec::new(alloc);
    for (r, routine) in program.routines.iter().enumerate() {
        marks.push(is_bare(routine, outer[r]))?;
    }
    Ok(marks)
}
