// The ranges and texts of a whole program.
ghost use Rattle.std.specs.Prelude.{[], IfOk, OnOk};
ghost use Rattle.alma_ir.specs.View.{program_of};
ghost use Rattle.alma_lower_sound.specs.Entries.{AreSome, program_phrases, program_ranges, program_texts};
ghost use Rattle.alma_lower_tables.specs.Numbers.{tables_of};
ghost use Rattle.alma_lower_templates.specs.CodeOf.{HoldsAllOf, IsOfIntegers};
ghost use Rattle.alma_lower_templates.specs.Tables.{same_range, same_text};
ghost use Rattle.alma_lower_tables.specs.AddsPhrases.{AddsPhrases, Names, checked_result, checked_results};

use crate::entry::add_checked;
use crate::numbers::Numbers;
use crate::walk::walk_stmts;
use alma_base::NoMemory;
use alma_ir::{Program, Routine};
use std::alloc::Global;

/// The numbers of all ranges and texts that the code of a program names. The numbers in the program
/// are of INTEGER, as those of each program in memory are.
pub fn gather(alloc: Global, program: &Program) -> Result<Numbers, NoMemory>
    ensures holds { IfOk result (λ numbers. HoldsAllOf (program_of program.now)
        (tables_of numbers)) }
    ensures ranges { IfOk result (λ numbers. AreSome same_range
        (program_ranges (program_of program.now))
        (tables_of numbers).ranges) }
    ensures texts { IfOk result (λ numbers. AreSome same_text
        (program_texts (program_of program.now))
        (tables_of numbers).texts) }
    ensures integers { IfOk result (λ numbers. IsOfIntegers (program_of program.now)) }
{
    let mut numbers = Numbers::new(alloc);
    add_bodies(alloc, &mut numbers, program)?;
    add_results(&mut numbers, program)?;
    Ok(numbers)
}

// The bodies of all routines.
fn add_bodies(alloc: Global, numbers: &mut Numbers, program: &Program) -> Result<(), NoMemory>
    ensures { OnOk result (AddsPhrases (tables_of numbers.old) (tables_of numbers.new)
        (program_phrases (program_of program.now))) }
{
    for routine in &program.routines {
        walk_stmts(alloc, numbers, &routine.body)?;
    }
    Ok(())
}

// The results of all functions.
fn add_results(numbers: &mut Numbers, program: &Program) -> Result<(), NoMemory>
    ensures { OnOk result (Names (tables_of numbers.old) (tables_of numbers.new)
        (checked_results (program_of program.now)) []) }
{
    for routine in &program.routines {
        add_result(numbers, routine)?;
    }
    Ok(())
}

// The result of a function.
fn add_result(numbers: &mut Numbers, routine: &Routine) -> Result<(), NoMemory>
    ensures { OnOk result (Names (tables_of numbers.old) (tables_of numbers.new)
        (checked_result routine.now.result) []) }
{
    match routine.result {
        Some(range) => add_checked(numbers, range),
        None => Ok(()),
    }
}
