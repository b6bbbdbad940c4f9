// The run of a source: the commands `run` and `trace`.
ghost use Rattle.std.specs.Prelude.{◌≤◌, length, map};
ghost use Rattle.alma_base.specs.Limits.{source_limit};
ghost use Rattle.alma_ir.specs.View.{program_of};
ghost use Rattle.alma_ir.specs.Checked.{IsChecked};
ghost use Rattle.alma_driver_words.specs.Words.{greatest_steps};
ghost use Rattle.alma_driver_outcome.specs.Outcome.{ProgramOutcome, SourceOutcome};
ghost use Rattle.alma_driver_outcome.specs.Showing.{Traces, shown_of};
ghost use Rattle.alma_driver_outcome.specs.Parts.{Runs};

use crate::load::load_source;
use crate::run::run_code;
use alma_driver_outcome::{End, Showing};
use alma_io::{Sink, Source};
use alma_ir::Program;
use alma_lower::lower;
use std::alloc::Global;

// Compiles a program and runs it.
fn run_program<I: Source, O: Sink>(
    alloc: Global,
    program: &Program,
    input: &mut I,
    steps: u64,
    showing: Showing<'_>,
    out: &mut O,
) -> End
    requires checked { IsChecked (program_of program.now) }
    requires few { steps ≤ greatest_steps }
    ensures { Runs (ProgramOutcome (I.side input.old).left (program_of program.now) steps
        (shown_of showing.entry))
        (I.side input.old) (I.side input.new) (O.side out.old) (O.side out.new) result }
{
    match lower(alloc, program) {
        Ok(code) => run_code(alloc, &code, input, steps, showing, out),
        Err(error) => End::from(error),
    }
}

/// Compiles a source and runs the object of its code for at most so many steps.
pub fn run_source<I: Source, O: Sink>(
    alloc: Global,
    source: &[u8],
    input: &mut I,
    steps: u64,
    showing: Showing<'_>,
    out: &mut O,
) -> End
    requires short { length source.now ≤ source_limit }
    requires few { steps ≤ greatest_steps }
    ensures { Runs (SourceOutcome source.now
        (λ p. ProgramOutcome (I.side input.old).left p steps (shown_of showing.entry)))
        (I.side input.old) (I.side input.new) (O.side out.old) (O.side out.new) result }
{
    match load_source(alloc, source) {
        Ok(program) => run_program(alloc, &program, input, steps, showing, out),
        Err(end) => end,
    }
}

/// Compiles a source and traces the run of its object for at most so many steps, with the values of
/// watched names.
pub fn trace_source<I: Source, O: Sink>(
    alloc: Global,
    source: &[u8],
    input: &mut I,
    steps: u64,
    names: &[&str],
    out: &mut O,
) -> End
    requires short { length source.now ≤ source_limit }
    requires few { steps ≤ greatest_steps }
    ensures { Runs (SourceOutcome source.now
        (λ p. ProgramOutcome (I.side input.old).left p steps
        (Traces (map (λ name. name.now) names.now))))
        (I.side input.old) (I.side input.new) (O.side out.old) (O.side out.new) result }
{
    run_source(alloc, source, input, steps, Showing::Traces(names), out)
}
