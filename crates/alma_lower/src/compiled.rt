// The code of a program whose size is within the limit.
ghost use Rattle.std.specs.Prelude.{IfOk};
ghost use Rattle.alma_code.specs.Plain.{code_of};
ghost use Rattle.alma_ir.specs.View.{program_of};
ghost use Rattle.alma_lower_sound.specs.Entries.{HoldsEachOnce};
ghost use Rattle.alma_lower_sound.specs.Runs.{HasLongRuns};
ghost use Rattle.alma_lower_templates.specs.CodeOf.{IsCodeOf, IsOfIntegers};

use crate::routines::lower_routines;
use alma_base::{INSTR_LIMIT, NoMemory};
use alma_code::{Code, LATEST_VERSION};
use alma_ir::Program;
use alma_lower_tables::{gather, globals_of, instrs_of, lines_of};
use std::alloc::Global;

/// The code of a program. Past a limit this is NoMemory.
pub fn compiled(alloc: Global, program: &Program) -> Result<Code, NoMemory>
    ensures code { IfOk result (λ code. IsCodeOf (program_of program.now) (code_of code)) }
    ensures runs { IfOk result (λ code. HasLongRuns (program_of program.now) (code_of code)) }
    ensures once { IfOk result (λ code. HoldsEachOnce (program_of program.now) (code_of code)) }
    ensures integers { IfOk result (λ code. IsOfIntegers (program_of program.now)) }
{
    let numbers = gather(alloc, program)?;
    let made = lower_routines(alloc, program, &numbers)?;
    if made.code.len() > INSTR_LIMIT as usize {
        return Err(NoMemory);
    }
    let globals = globals_of(alloc, &program.globals)?;
    let ranges = numbers.all_ranges(alloc)?;
    let texts = numbers.all_texts(alloc)?;
    let code = instrs_of(alloc, &made.code)?;
    let lines = lines_of(alloc, &made.code)?;
    Ok(Code {
        version: LATEST_VERSION,
        routines: made.heads,
        globals,
        ranges,
        texts,
        code,
        lines,
    })
}
