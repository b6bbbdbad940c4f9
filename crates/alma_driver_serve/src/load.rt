// The program of a source, and the command `check`.
ghost use Rattle.std.specs.Prelude.{◌≤◌, length, IfErr, IfOk};
ghost use Rattle.alma_base.specs.Limits.{source_limit};
ghost use Rattle.alma_ir.specs.Checked.{IsChecked};
ghost use Rattle.alma_ir.specs.View.{program_of};
ghost use Rattle.alma_driver_outcome.specs.Outcome.{IsStop, CheckOutcome, SourceOutcome};
ghost use Rattle.alma_io.specs.Sides.{SinkSide};
ghost use Rattle.alma_driver_outcome.specs.Parts.{Goes};
ghost use Rattle.alma_source.specs.Refusal.{IsProgramOf};

use alma_driver_outcome::End;
use alma_ir::Program;
use alma_plan::{Refusal, Stop};
use alma_scan::place;
use alma_source::SourceStop;
use alma_unit::check_source;
use std::alloc::Global;

/// Scans, parses and checks a source: its program, or the end of the call.
pub fn load_source(alloc: Global, source: &[u8]) -> Result<Program, End>
    requires short { length source.now ≤ source_limit }
    ensures program { IfOk result (λ program. IsProgramOf source.now (program_of program)) }
    ensures checked { IfOk result (λ program. IsChecked (program_of program)) }
    ensures stop { IfErr result (λ end. IsStop source.now end) }
{
    match check_source(alloc, source) {
        Ok(program) => Ok(program),
        Err(SourceStop::Refused(fault, offset)) => Err(End::BadSource(
            fault,
            place(source, offset),
        )),
        Err(SourceStop::Memory) => Err(End::Refused(Refusal::Stopped(Stop::Memory))),
    }
}

/// Checks a source. Nothing is printed.
pub fn check_only(alloc: Global, source: &[u8]) -> End
    requires short { length source.now ≤ source_limit }
    ensures { (out : SinkSide) → Goes (SourceOutcome source.now CheckOutcome) out out result }
{
    match load_source(alloc, source) {
        Ok(_program) => End::Succeeded(None),
        Err(end) => end,
    }
}
