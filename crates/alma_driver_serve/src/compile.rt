// The command `compile`.
ghost use Rattle.std.specs.Prelude.{◌≤◌, length};
ghost use Rattle.alma_base.specs.Limits.{source_limit};
ghost use Rattle.alma_driver_outcome.specs.Outcome.{CompileOutcome, SourceOutcome};
ghost use Rattle.alma_driver_outcome.specs.Parts.{Works};

use crate::load::load_source;
use alma_driver_outcome::End;
use alma_io::Files;
use alma_plan::store_program;
use std::alloc::Global;

/// Compiles a source, and stores its object under a name. Nothing is printed.
pub fn compile_source<F: Files>(alloc: Global, source: &[u8], object: &str, files: &mut F) -> End
    requires short { length source.now ≤ source_limit }
    ensures { Works (SourceOutcome source.now (λ p. CompileOutcome p object.now))
        (F.side files.old) (F.side files.new) result }
{
    match load_source(alloc, source) {
        Ok(program) => End::from(store_program(alloc, &program, object, files)),
        Err(end) => end,
    }
}
