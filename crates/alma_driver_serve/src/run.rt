// The run of code in memory.
ghost use Rattle.std.specs.Prelude.{◌≤◌};
ghost use Rattle.alma_code.specs.Plain.{code_of};
ghost use Rattle.alma_code.specs.Records.{KeepsCounts, KeepsRecords, KeepsVersion};
ghost use Rattle.alma_code.specs.Rules.{IsSound};
ghost use Rattle.alma_driver_words.specs.Words.{greatest_steps};
ghost use Rattle.alma_driver_outcome.specs.Outcome.{InputOutcome};
ghost use Rattle.alma_driver_outcome.specs.Showing.{shown_of};
ghost use Rattle.alma_driver_outcome.specs.Parts.{Runs};

use crate::input::run_verified;
use alma_base::NoMemory;
use alma_code::Code;
use alma_driver_outcome::{End, Showing};
use alma_io::{Sink, Source};
use alma_object::encode;
use alma_plan::{Refusal, Stop};
use alma_verify::open_encoded;
use std::alloc::Global;

/// Encodes code, and runs its object for at most so many steps.
pub fn run_code<I: Source, O: Sink>(
    alloc: Global,
    code: &Code,
    input: &mut I,
    steps: u64,
    showing: Showing<'_>,
    out: &mut O,
) -> End
    requires sound { IsSound (code_of code.now) }
    requires version { KeepsVersion (code_of code.now) }
    requires counts { KeepsCounts (code_of code.now) }
    requires records { KeepsRecords (code_of code.now) }
    requires few { steps ≤ greatest_steps }
    ensures { Runs
        (InputOutcome (I.side input.old).left (code_of code.now) steps (shown_of showing.entry))
        (I.side input.old) (I.side input.new) (O.side out.old) (O.side out.new) result }
{
    match encode(alloc, code) {
        Ok(object) => {
            let verified = open_encoded(code, &object);
            run_verified(alloc, verified, input, steps, showing, out)
        }
        Err(NoMemory) => End::Refused(Refusal::Stopped(Stop::Memory)),
    }
}
