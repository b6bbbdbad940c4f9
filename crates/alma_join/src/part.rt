// The parts of a joined program, unit after unit.
ghost use Rattle.std.specs.Prelude.{◌≡◌, ℕ, ◌+◌, ◌<◌, ◌++◌, length, map, IfOk, OnOk};
ghost use Rattle.std.specs.List.{AllByRecursion};
ghost use Rattle.alma_copy.specs.Moved.{moved_global, moved_routine, moved_stmts};
ghost use Rattle.alma_copy.specs.Numbers.{moves_of};
ghost use Rattle.alma_ir.specs.View.{program_of, routine_of, global_of, stmts_list};
ghost use Rattle.alma_join.specs.Joined.{kept_in, kept_of};
ghost use Rattle.alma_join.specs.Numbers.{NumbersUnits, numbers_in};
ghost use Rattle.alma_join.specs.Parts.{AddsUnit, AddsBody, ArePartsOf};
ghost use Rattle.alma_rules.specs.Parts.{append_stmts};

use crate::bare::mark_bare;
use alma_base::NoMemory;
use alma_copy::{Moves, copy_global, copy_routine, copy_stmts};
use alma_ir::{Global as Variable, Program, Routine, Stmt};
use std::alloc::Global;

/// The parts of the units so far.
#[derive(Drop)]
pub struct Parts {
    pub globals: Vec<Variable>,
    pub body: Vec<Stmt>,
    pub lines: Vec<u32>,
    pub procedures: Vec<Routine>,
    /// The cells that the bodies of the modules declare.
    pub declared: u32,
    /// The slots of the bodies of the modules, without the input position.
    pub slots: u32,
}

// The sum, where it fits.
fn sum(a: u32, b: u32) -> Result<u32, NoMemory>
    ensures { IfOk result (λ n. n ≡ a + b) }
{
    a.checked_add(b).ok_or(NoMemory)
}

// Variables of a module.
fn add_globals(
    alloc: Global,
    globals: &mut Vec<Variable>,
    more: &[Variable],
    moves: &Moves<'_>,
) -> Result<(), NoMemory>
    ensures { OnOk result (map global_of globals.new.items ≡ map global_of globals.old.items
        ++ map (moved_global (moves_of moves.now)) (map global_of more.now)) }
{
    for global in more {
        globals.push(copy_global(alloc, global, moves)?)?;
    }
    Ok(())
}

// The procedures of a module that stay.
fn add_procedures(
    alloc: Global,
    procedures: &mut Vec<Routine>,
    program: &Program,
    moves: &Moves<'_>,
) -> Result<(), NoMemory>
    ensures { OnOk result ((unit : ℕ) → map routine_of procedures.new.items
        ≡ map routine_of procedures.old.items
        ++ map (λ k. moved_routine (moves_of moves.now) k.routine)
        (kept_of unit (program_of program.now))) }
{
    let bare = mark_bare(alloc, program)?;
    for r in 1..program.routines.len() {
        if !bare[r] {
            procedures.push(copy_routine(alloc, &program.routines[r], moves)?)?;
        }
    }
    Ok(())
}

// Statements behind others.
fn add_stmts(
    alloc: Global,
    body: &mut Vec<Stmt>,
    more: &[Stmt],
    moves: &Moves<'_>,
) -> Result<(), NoMemory>
    ensures { OnOk result (stmts_list body.new.items ≡ append_stmts (stmts_list body.old.items)
        (moved_stmts (moves_of moves.now) (stmts_list more.now))) }
{
    let mut more = copy_stmts(alloc, more, moves)?;
    body.append(&mut more)?;
    Ok(())
}

// The body of a module; it moves behind the slots that there are.
fn add_body(
    alloc: Global,
    parts: &mut Parts,
    body: &Routine,
    moves: &Moves<'_>,
) -> Result<(), NoMemory>
    ensures { OnOk result (AddsBody parts.old parts.new (routine_of body.now)
        (moves_of moves.now)) }
{
    add_stmts(alloc, &mut parts.body, &body.body, moves)?;
    parts.lines.extend_from_slice(&body.lines)?;
    parts.declared = sum(parts.declared, body.declared)?;
    parts.slots = sum(parts.slots, body.slots.saturating_sub(1))?;
    Ok(())
}

// One more unit.
fn add_unit(
    alloc: Global,
    parts: &mut Parts,
    program: &Program,
    numbers: &[u32],
) -> Result<(), NoMemory>
    requires body { 0 < length program.now.routines.items }
    ensures { OnOk result (AddsUnit parts.old parts.new (program_of program.now) numbers.now) }
{
    let in_body = Moves {
        own: parts.slots,
        global: parts.slots,
        routines: numbers,
    };
    let in_procedures = Moves { own: 0, ..in_body };
    add_globals(alloc, &mut parts.globals, &program.globals, &in_body)?;
    add_procedures(alloc, &mut parts.procedures, program, &in_procedures)?;
    add_body(alloc, parts, &program.routines[0], &in_body)?;
    Ok(())
}

/// The parts of all units, given the new numbers of each.
pub fn parts_of(alloc: Global, units: &[Program], tables: &[Vec<u32>]) -> Result<Parts, NoMemory>
    requires bodies { AllByRecursion (λ p. 0 < length p.routines) (map program_of units.now) }
    requires numbers { NumbersUnits (kept_in 1 (map program_of units.now)) 1
        (map program_of units.now) (map numbers_in tables.now) }
    ensures { IfOk result (λ parts. ArePartsOf parts (map program_of units.now)) }
{
    let mut parts = Parts {
        globals: Vec::new(alloc),
        body: Vec::new(alloc),
        lines: Vec::new(alloc),
        procedures: Vec::new(alloc),
        declared: 0,
        slots: 0,
    };
    for (i, program) in units.iter().enumerate() {
        add_unit(alloc, &mut parts, program, &tables[i])?;
    }
    Ok(parts)
}
