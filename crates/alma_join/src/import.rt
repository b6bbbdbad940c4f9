// The new numbers of all routines, and the faults of imports.
ghost use Rattle.std.specs.Prelude.{◌≡◌, true, false, ◌+◌, ◌<◌, ◌≤◌, List, length, map, None, IfOk, IfErr, OnOk};
ghost use Rattle.alma_ir.specs.View.{program_of, routine_of};
ghost use Rattle.alma_join.specs.Joined.{Kept, kept_in, kept_of, matches, import_fault, greatest_units};
ghost use Rattle.alma_join.specs.Directory.{Holds};
ghost use Rattle.alma_join.specs.Fault.{IsErrorOf};
ghost use Rattle.alma_join.specs.Numbers.{Resolves, StandsAt, unit_fault, NumbersUnit, NumbersUnits, numbers_in};
ghost use Rattle.alma_join.specs.declared.error.JoinError.TheVariants.{Memory};

use crate::bare::mark_bare;
use crate::directory::{Directory, Matches, directory_of, matches_of, successor};
use crate::error::JoinError;
use crate::head::same_head;
use alma_base::NoMemory;
use alma_ir::{Program, Routine};
use std::alloc::Global;

// The new number of an import, which is that of its match.
fn number_import(
    directory: &Directory<'_>,
    unit: u32,
    number: u32,
    routine: &Routine,
) -> Result<u32, JoinError>
    ensures { (all : List Kept) → Holds directory.now all
        → Resolves unit number (routine_of routine.now)
        (matches all 1 unit routine.now.name.items) result }
{
    match matches_of(directory, unit, routine) {
        Matches::None => Err(JoinError::Missing(unit, number)),
        Matches::Many => Err(JoinError::Twice(unit, number)),
        Matches::One(export) => {
            if !same_head(export.routine, routine) {
                return Err(JoinError::HeadDiffers(unit, number));
            }
            Ok(export.number)
        }
    }
}

// A place in a list as a number of a routine.
fn number_at(place: usize) -> Result<u32, NoMemory>
    ensures { IfOk result (λ n. n ≡ place) }
{
    u32::try_from(place).map_err(|_| NoMemory)
}

// The next number.
fn take_number(next: &mut u32) -> Result<u32, NoMemory>
    ensures number { IfOk result (λ n. n ≡ next.old) }
    ensures next { OnOk result (next.new ≡ next.old + 1) }
{
    let number = *next;
    *next = successor(number)?;
    Ok(number)
}

// The new number of a routine that is not the body of the module.
fn number_routine(
    directory: &Directory<'_>,
    next: &mut u32,
    unit: u32,
    place: usize,
    routine: &Routine,
    is_bare: bool,
) -> Result<u32, JoinError>
    ensures bare { is_bare ≡ true → (all : List Kept) → Holds directory.now all
        → Resolves unit place (routine_of routine.now)
        (matches all 1 unit routine.now.name.items) result }
    ensures same { is_bare ≡ true → next.new ≡ next.old }
    ensures kept { is_bare ≡ false → IfOk result (λ n. (n ≡ next.old) × (next.new ≡ next.old + 1)) }
    ensures memory { is_bare ≡ false → IfErr result (λ e. e ≡ Memory) }
{
    if is_bare {
        return number_import(directory, unit, number_at(place)?, routine);
    }
    Ok(take_number(next)?)
}

// The new numbers of a unit, where `next` is the number of its first routine that stays.
fn number_unit(
    alloc: Global,
    directory: &Directory<'_>,
    next: &mut u32,
    unit: u32,
    program: &Program,
) -> Result<Vec<u32>, JoinError>
    ensures numbers { (all : List Kept) → Holds directory.now all
        → StandsAt all unit (program_of program.now) next.old
        → IfOk result (λ table. NumbersUnit all unit (program_of program.now) table.items) }
    ensures sound { (all : List Kept) → Holds directory.now all
        → IfOk result (λ table. unit_fault all unit (program_of program.now) ≡ None) }
    ensures next { IfOk result (λ table. next.new
        ≡ next.old + length (kept_of unit (program_of program.now))) }
    ensures fault { (all : List Kept) → Holds directory.now all
        → IfErr result (λ e. IsErrorOf e (unit_fault all unit (program_of program.now))) }
{
    let bare = mark_bare(alloc, program)?;
    let mut table = Vec::new(alloc);
    table.push(0)?;
    for r in 1..program.routines.len() {
        let routine = &program.routines[r];
        table.push(number_routine(directory, next, unit, r, routine, bare[r])?)?;
    }
    Ok(table)
}

// The new numbers of all units, or the first fault of an import.
fn number_units(
    alloc: Global,
    directory: &Directory<'_>,
    units: &[Program],
) -> Result<Vec<Vec<u32>>, JoinError>
    requires few { length units.now ≤ greatest_units }
    requires holds { Holds directory.now (kept_in 1 (map program_of units.now)) }
    ensures numbers { IfOk result (λ tables. NumbersUnits (kept_in 1 (map program_of units.now)) 1
        (map program_of units.now) (map numbers_in tables.items)) }
    ensures sound { IfOk result (λ tables. import_fault (kept_in 1 (map program_of units.now)) 1
        (map program_of units.now) ≡ None) }
    ensures fault { IfErr result (λ e. IsErrorOf e (import_fault
        (kept_in 1 (map program_of units.now)) 1 (map program_of units.now))) }
{
    let mut tables = Vec::new(alloc);
    let mut next = 1;
    for (i, program) in units.iter().enumerate() {
        let unit = i as u32 + 1;
        tables.push(number_unit(alloc, directory, &mut next, unit, program)?)?;
    }
    Ok(tables)
}

/// The new numbers of all units, or the first fault of an import.
pub fn number_all(alloc: Global, units: &[Program]) -> Result<Vec<Vec<u32>>, JoinError>
    requires few { length units.now ≤ greatest_units }
    ensures numbers { IfOk result (λ tables. NumbersUnits (kept_in 1 (map program_of units.now)) 1
        (map program_of units.now) (map numbers_in tables.items)) }
    ensures sound { IfOk result (λ tables. import_fault (kept_in 1 (map program_of units.now)) 1
        (map program_of units.now) ≡ None) }
    ensures fault { IfErr result (λ e. IsErrorOf e (import_fault
        (kept_in 1 (map program_of units.now)) 1 (map program_of units.now))) }
{
    let directory = directory_of(alloc, units)?;
    number_units(alloc, &directory, units)
}
