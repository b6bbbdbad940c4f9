// The object of a program.
ghost use Rattle.alma_code.specs.Plain.{code_of};
ghost use Rattle.alma_code.specs.Records.{KeepsCounts, KeepsRecords, KeepsVersion};
ghost use Rattle.alma_io.specs.Sides.{SinkSide, SourceSide};
ghost use Rattle.alma_ir.specs.Checked.{IsChecked};
ghost use Rattle.alma_ir.specs.Tree as tree;
ghost use Rattle.alma_ir.specs.View.{program_of};
ghost use Rattle.alma_plan.specs.Course.{Follows};
ghost use Rattle.alma_plan.specs.Plan.{Ending, Ends};
ghost use Rattle.alma_plan.specs.Ends.{program_end};
ghost use Rattle.alma_lower.specs.CodeFor.{IsCodeFor};
ghost use Rattle.alma_plan.specs.Programs.{Stores, sense, store_plan};
ghost use Rattle.std.specs.Prelude.{List, ℕ};

use crate::end::ProgramEnd;
use crate::stop::Stop;
use alma_code::Code;
use alma_io::{Files, StoreFault};
use alma_ir::Program;
use alma_lower::{LowerError, lower};
use alma_object::encode;
use alma_verify::fits_fields;
use std::alloc::Global;

// Stores the object of the code of a program.
fn store_code<F: Files>(alloc: Global, code: &Code, object: &str, files: &mut F) -> ProgramEnd
    requires version { KeepsVersion (code_of code.now) }
    requires counts { KeepsCounts (code_of code.now) }
    requires records { KeepsRecords (code_of code.now) }
    ensures { (p : tree.Program) → IsCodeFor p (code_of code.now)
        → (name : List ℕ) (failed : Ending) (input : SourceSide) (out : SinkSide)
        → Follows (sense name failed) name (Ends (Stores p object.now)) (F.side files.old)
        (F.side files.new) input input out out (program_end name failed result) }
{
    fits_fields(code);
    let Ok(bytes) = encode(alloc, code) else {
        return ProgramEnd::Stopped(Stop::Memory);
    };
    match files.store(alloc, object, &bytes) {
        Ok(()) => ProgramEnd::Stored,
        Err(StoreFault::Failed) => ProgramEnd::Stopped(Stop::Write),
        Err(StoreFault::Memory) => ProgramEnd::Stopped(Stop::Memory),
    }
}

/// Compiles a program, and stores its object under a name. Nothing is printed.
pub fn store_program<F: Files>(
    alloc: Global,
    program: &Program,
    object: &str,
    files: &mut F,
) -> ProgramEnd
    requires checked { IsChecked (program_of program.now) }
    ensures { (name : List ℕ) (failed : Ending) (input : SourceSide) (out : SinkSide)
        → Follows (sense name failed) name (store_plan name (program_of program.now) object.now)
        (F.side files.old) (F.side files.new) input input out out
        (program_end name failed result) }
{
    match lower(alloc, program) {
        Ok(code) => store_code(alloc, &code, object, files),
        Err(LowerError::TooMuchCode(size)) => ProgramEnd::TooMuchCode(size),
        Err(LowerError::Memory) => ProgramEnd::Stopped(Stop::Memory),
    }
}
