// The run of verified code, on the input that it reads, and what it shows.
ghost use Rattle.std.specs.Prelude.{◌≡◌, ◌≤◌, true, length};
ghost use Rattle.alma_base.specs.Limits.{input_limit};
ghost use Rattle.alma_verify.specs.Verified.{code_of_verified};
ghost use Rattle.alma_driver_words.specs.Words.{greatest_steps};
ghost use Rattle.alma_driver_outcome.specs.Ends.{counts_in};
ghost use Rattle.alma_code.specs.Reads.{code_reads};
ghost use Rattle.alma_driver_outcome.specs.Outcome.{code_due, InputOutcome};
ghost use Rattle.alma_driver_outcome.specs.Showing.{Prints, shown_of};
ghost use Rattle.alma_driver_outcome.specs.Parts.{Goes, Runs};

use crate::trace::trace_on;
use alma_base::{INPUT_LIMIT, NoMemory};
use alma_driver_outcome::{Counts, End, Showing, end_of};
use alma_io::{Sink, Source, read_all};
use alma_machine::Machine;
use alma_plan::{Refusal, Stop};
use alma_verify::Verified;
use std::alloc::Global;

// The counts of a machine, where they are asked for.
fn counts_of(machine: &Machine<'_, '_>, stats: bool) -> Option<Counts>
    ensures { result ≡ counts_in stats machine.now.state }
{
    if stats {
        Some(Counts {
            steps: machine.steps(),
            choices: machine.choices(),
            fails: machine.fails(),
        })
    } else {
        None
    }
}

// Runs verified code for at most so many steps, and writes what it prints.
fn print_on<O: Sink>(
    alloc: Global,
    code: Verified<'_>,
    input: &[u8],
    steps: u64,
    stats: bool,
    out: &mut O,
) -> End
    requires few { steps ≤ greatest_steps }
    requires lawful { length input.now ≤ input_limit }
    ensures { Goes (λ due. due ≡ code_due (code_of_verified code.entry) input.now steps
        (Prints stats))
        (O.side out.old) (O.side out.new) result }
{
    match Machine::new(alloc, code, input) {
        Ok(mut machine) => {
            let end = machine.run(steps, out);
            let line = machine.view().line_at(machine.at());
            end_of(end, line, counts_of(&machine, stats))
        }
        Err(NoMemory) => End::Refused(Refusal::Stopped(Stop::Memory)),
    }
}

// Runs verified code for at most so many steps, on an input of at most 16,777,216 bytes.
fn run_on<O: Sink>(
    alloc: Global,
    code: Verified<'_>,
    input: &[u8],
    steps: u64,
    showing: Showing<'_>,
    out: &mut O,
) -> End
    requires few { steps ≤ greatest_steps }
    requires lawful { length input.now ≤ input_limit }
    ensures { Goes (λ due. due ≡ code_due (code_of_verified code.entry) input.now steps
        (shown_of showing.entry))
        (O.side out.old) (O.side out.new) result }
{
    match showing {
        Showing::Prints(stats) => print_on(alloc, code, input, steps, stats, out),
        Showing::Traces(names) => trace_on(alloc, code, input, steps, names, out),
    }
}

// Runs verified code that reads, on the whole input.
fn run_reading<I: Source, O: Sink>(
    alloc: Global,
    code: Verified<'_>,
    input: &mut I,
    steps: u64,
    showing: Showing<'_>,
    out: &mut O,
) -> End
    requires few { steps ≤ greatest_steps }
    requires reads { code_reads (code_of_verified code) ≡ true }
    ensures { Runs (InputOutcome (I.side input.old).left (code_of_verified code.entry) steps
        (shown_of showing.entry))
        (I.side input.old) (I.side input.new) (O.side out.old) (O.side out.new) result }
{
    match read_all(alloc, input, INPUT_LIMIT) {
        Ok(bytes) => run_on(alloc, code, &bytes, steps, showing, out),
        Err(error) => End::from(Stop::from(error)),
    }
}

/// Runs verified code for at most so many steps. Where it reads, the whole input is read before;
/// else it is left.
pub fn run_verified<I: Source, O: Sink>(
    alloc: Global,
    code: Verified<'_>,
    input: &mut I,
    steps: u64,
    showing: Showing<'_>,
    out: &mut O,
) -> End
    requires { steps ≤ greatest_steps }
    ensures { Runs (InputOutcome (I.side input.old).left (code_of_verified code.entry) steps
        (shown_of showing.entry))
        (I.side input.old) (I.side input.new) (O.side out.old) (O.side out.new) result }
{
    if code.view().has_read() {
        return run_reading(alloc, code, input, steps, showing, out);
    }
    run_on(alloc, code, b"", steps, showing, out)
}
