// What a call says on err at its end.
ghost use Rattle.std.specs.Prelude.{Some};
ghost use Rattle.alma_io.specs.Outside.{Writes};
ghost use Rattle.alma_plan.specs.Course.{Reports};
ghost use Rattle.alma_plan.specs.Plan.{ending_of};
ghost use Rattle.alma_driver_outcome.specs.Ends.{counts_line, counts_text, end_text, ending_in, status_of};

use crate::end::{Counts, End};
use alma_base::Status;
use alma_driver_words::exit;
use alma_io::{Failed, Sink};
use alma_plan::{refuse, tell_fault, tell_refusal, tell_steps_out, tell_too_much_code, write_text};
use itoa::Buffer;

/// The name of the program.
const PROGRAM: &[u8] = b"alma";

// Writes the line of counts, by the texts in it.
fn write_counts_line<E: Sink>(
    err: &mut E,
    steps: &[u8],
    choices: &[u8],
    fails: &[u8],
) -> Result<(), Failed>
    ensures { Writes (E.side err.old) (E.side err.new)
        (counts_line steps.now choices.now fails.now) result }
{
    let first = b"steps ".as_slice();
    let second = b" choices ".as_slice();
    let third = b" fails ".as_slice();
    let end = b"\n".as_slice();
    write_text(err, &[first, steps, second, choices, third, fails, end])
}

// Writes the line of these counts.
fn write_known_counts<E: Sink>(err: &mut E, counts: Counts) -> Result<(), Failed>
    ensures { Writes (E.side err.old) (E.side err.new) (counts_text (Some counts)) result }
{
    let mut steps = Buffer::new();
    let mut choices = Buffer::new();
    let mut fails = Buffer::new();
    let steps = steps.format(counts.steps).as_bytes();
    let choices = choices.format(counts.choices).as_bytes();
    let fails = fails.format(counts.fails).as_bytes();
    write_counts_line(err, steps, choices, fails)
}

// Writes the line of counts, where there are any.
#[tactic(auto, using(alma_io::proofs::Known::appends_none))]
fn write_counts<E: Sink>(err: &mut E, counts: Option<Counts>) -> Result<(), Failed>
    ensures { Writes (E.side err.old) (E.side err.new) (counts_text counts) result }
{
    match counts {
        Some(counts) => write_known_counts(err, counts),
        None => Ok(()),
    }
}

// Says on err how a call ends, but for its counts, where the words name this file: the status of
// the end, or that of a write fault where err fails.
fn tell<E: Sink>(err: &mut E, file: &str, end: End) -> Status
    ensures { Reports (ending_of (status_of end) (end_text file.now end))
        (E.side err.old) (E.side err.new) result.0 }
{
    match end {
        End::Succeeded(_) => Status(exit::SUCCEEDED),
        End::Failed(_) => Status(exit::FAILED),
        End::Faulted(fault, line, _) => tell_fault(err, PROGRAM, fault, line),
        End::StepsOut(_) => tell_steps_out(err, PROGRAM),
        End::BadSource(fault, place) => tell_refusal(err, file.as_bytes(), fault, place),
        End::TooMuchCode(size) => tell_too_much_code(err, PROGRAM, size),
        End::Refused(refusal) => refuse(err, PROGRAM, refusal),
    }
}

/// Says on err how a call ends, where the words name this file: counts, where the end has them, and
/// its text. The status is that of the end, or that of a write fault where err fails.
pub fn report<E: Sink>(err: &mut E, file: &str, end: End) -> Status
    ensures { Reports (ending_in file.now end) (E.side err.old) (E.side err.new) result.0 }
{
    match write_counts(err, end.counts()) {
        Ok(()) => tell(err, file, end),
        Err(_) => Status(exit::WRITE_FAULT),
    }
}
