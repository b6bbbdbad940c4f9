// One program of several modules.
ghost use Rattle.std.specs.Prelude.{◌≡◌, ◌<◌, length, map, None, IfOk, IfErr};
ghost use Rattle.alma_ir.specs.Checked.{IsChecked};
ghost use Rattle.alma_ir.specs.View.{program_of};
ghost use Rattle.alma_join.specs.Joined.{AreUnits, joined_program, join_fault};
ghost use Rattle.alma_join.specs.Fault.{IsJoinError};
ghost use Rattle.alma_join.specs.Parts.{with_body};

use crate::directory::successor;
use crate::error::JoinError;
use crate::import::number_all;
use crate::laws::joined_is_checked;
use crate::part::{Parts, parts_of};
use crate::size::first_too_large;
use alma_base::NoMemory;
use alma_ir::{Program, Routine};
use std::alloc::Global;

// The program with the name of a module and the head of its body.
fn program_with(alloc: Global, first: &Program, parts: Parts) -> Result<Program, NoMemory>
    requires body { 0 < length first.now.routines.items }
    ensures { IfOk result (λ p. program_of p ≡ with_body (program_of first.now) parts) }
{
    let head = &first.routines[0];
    let slots = successor(parts.slots)?;
    let name = head.name.to_vec(alloc)?;
    let params = head.params.to_vec(alloc)?;
    let mut routines = Vec::new(alloc);
    routines.push(Routine {
        name,
        params,
        result: head.result,
        declared: parts.declared,
        slots,
        body: parts.body,
        level: head.level,
        outer: head.outer,
        line: head.line,
        lines: parts.lines,
    })?;
    let mut procedures = parts.procedures;
    routines.append(&mut procedures)?;
    Ok(Program {
        name: first.name.to_vec(alloc)?,
        globals: parts.globals,
        routines,
    })
}

/// The program of 1 to 16 modules that were checked apart. Memory also where a number does not fit
/// a u32, which is not so within the limits of a program.
pub fn join(alloc: Global, units: &[Program]) -> Result<Program, JoinError>
    requires units { AreUnits (map program_of units.now) }
    ensures joined { IfOk result (λ p. program_of p ≡ joined_program (map program_of units.now)) }
    ensures sound { IfOk result (λ p. join_fault (map program_of units.now) ≡ None) }
    ensures checked { IfOk result (λ p. IsChecked (program_of p)) }
    ensures refused { IfErr result (λ e. IsJoinError e (map program_of units.now)) }
{
    let tables = number_all(alloc, units)?;
    if let Some(unit) = first_too_large(units) {
        return Err(JoinError::TooLarge(unit));
    }
    joined_is_checked();
    let parts = parts_of(alloc, units, &tables)?;
    Ok(program_with(alloc, &units[0], parts)?)
}
