// The command `exec`.
ghost use Rattle.std.specs.Prelude.{◌≤◌};
ghost use Rattle.alma_object.specs.View.{code_of_view};
ghost use Rattle.alma_driver_words.specs.Words.{greatest_steps};
ghost use Rattle.alma_driver_outcome.specs.Outcome.{CodeOutcome, ExecOutcome};
ghost use Rattle.alma_driver_outcome.specs.Parts.{Runs};

use crate::input::run_verified;
use alma_driver_outcome::{End, Showing};
use alma_io::{Sink, Source};
use alma_object::ObjectView;
use alma_plan::Refusal;
use alma_verify::{open_object, verify};
use std::alloc::Global;

// Verifies the code of a view, and runs it for at most so many steps.
fn exec_view<I: Source, O: Sink>(
    alloc: Global,
    view: ObjectView<'_>,
    input: &mut I,
    steps: u64,
    stats: bool,
    out: &mut O,
) -> End
    requires { steps ≤ greatest_steps }
    ensures { Runs (CodeOutcome (I.side input.old).left (code_of_view view.entry) steps stats)
        (I.side input.old) (I.side input.new) (O.side out.old) (O.side out.new) result }
{
    match verify(view) {
        Ok(code) => run_verified(alloc, code, input, steps, Showing::Prints(stats), out),
        Err(fault) => End::Refused(Refusal::BadCode(fault)),
    }
}

/// Verifies the code of an object, and runs it for at most so many steps.
pub fn exec_object<I: Source, O: Sink>(
    alloc: Global,
    bytes: &[u8],
    input: &mut I,
    steps: u64,
    stats: bool,
    out: &mut O,
) -> End
    requires { steps ≤ greatest_steps }
    ensures { Runs (ExecOutcome (I.side input.old).left bytes.now steps stats)
        (I.side input.old) (I.side input.new) (O.side out.old) (O.side out.new) result }
{
    match open_object(bytes) {
        Ok(view) => exec_view(alloc, view, input, steps, stats, out),
        Err(fault) => End::Refused(Refusal::BadObject(fault)),
    }
}
