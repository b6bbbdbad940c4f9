// The command `sample`.
ghost use Rattle.std.specs.Prelude.{◌≡◌, ◌≤◌, None, length, IfOk};
ghost use Rattle.alma_base.specs.Limits.{source_limit};
ghost use Rattle.alma_io.specs.Outside.{Writes};
ghost use Rattle.alma_driver_words.specs.Sample.{sample_text};
ghost use Rattle.alma_driver_words.specs.Words.{greatest_lines};
ghost use Rattle.alma_driver_outcome.specs.declared.end.End.TheVariants.{Succeeded};
ghost use Rattle.alma_driver_outcome.specs.Ends.{sample_line, summary_line};
ghost use Rattle.alma_driver_outcome.specs.Outcome.{due_of, IsSampled, SampleOutcome};
ghost use Rattle.alma_driver_outcome.specs.Parts.{Goes};

use crate::source::run_source;
use alma_base::NoMemory;
use alma_driver_outcome::{End, Showing};
use alma_driver_words::{DEFAULT_STEPS, sample_source};
use alma_io::{Failed, MemSink, MemSource, Sink, write_parts};
use alma_plan::{Refusal, Stop};
use itoa::Buffer;
use std::alloc::Global;

/// Room for what a sample prints, which is one digit for each of its hundred cells at most.
const PRINT_ROOM: usize = 4_096;

// Writes the line that sums up a run, by the texts in it.
fn write_summary_line<O: Sink>(
    out: &mut O,
    lines: &[u8],
    bytes: &[u8],
    printed: &[u8],
    status: &[u8],
) -> Result<(), Failed>
    ensures { Writes (O.side out.old) (O.side out.new)
        (summary_line lines.now bytes.now printed.now status.now) result }
{
    let first = b"lines ".as_slice();
    let second = b" bytes ".as_slice();
    let third = b" printed ".as_slice();
    let fourth = b" status ".as_slice();
    let end = b"\n".as_slice();
    write_parts(
        out,
        &[
            first, lines, second, bytes, third, printed, fourth, status, end,
        ],
    )
}

// Writes the line that sums up a run.
fn write_summary<O: Sink>(
    out: &mut O,
    lines: u32,
    bytes: usize,
    printed: usize,
    status: u8,
) -> Result<(), Failed>
    ensures { Writes (O.side out.old) (O.side out.new)
        (sample_line lines bytes printed status) result }
{
    let mut first = Buffer::new();
    let mut second = Buffer::new();
    let mut third = Buffer::new();
    let mut fourth = Buffer::new();
    let lines = first.format(lines).as_bytes();
    let bytes = second.format(bytes).as_bytes();
    let printed = third.format(printed).as_bytes();
    let status = fourth.format(status).as_bytes();
    write_summary_line(out, lines, bytes, printed, status)
}

/// What is told of the run of a sample: how many bytes it printed, and its status.
#[derive(Clone, Copy)]
struct Summary {
    printed: usize,
    status: u8,
}

// Runs a source on an empty input. Any refusal is want of memory: no other comes where input and
// output are held in memory.
fn run_aside(alloc: Global, source: &[u8]) -> Result<Summary, NoMemory>
    requires short { length source.now ≤ source_limit }
    ensures { IfOk result (λ told. IsSampled source.now told.printed told.status) }
{
    let mut input = MemSource::new(alloc, b"", 1, &[])?;
    let mut prints = MemSink::new(alloc, PRINT_ROOM, PRINT_ROOM, &[])?;
    let showing = Showing::Prints(false);
    match run_source(
        alloc,
        source,
        &mut input,
        DEFAULT_STEPS,
        showing,
        &mut prints,
    ) {
        End::Refused(_) => Err(NoMemory),
        end => Ok(Summary {
            printed: prints.bytes().len(),
            status: end.status(),
        }),
    }
}

// Shows the line that sums up the run of a source of so many lines and bytes.
fn show_summary<O: Sink>(out: &mut O, lines: u32, bytes: usize, told: Summary) -> End
    ensures { Goes (λ due. due
        ≡ due_of (Succeeded None) (sample_line lines bytes told.printed told.status))
        (O.side out.old) (O.side out.new) result }
{
    match write_summary(out, lines, bytes, told.printed, told.status) {
        Ok(()) => End::Succeeded(None),
        Err(_) => End::Refused(Refusal::Stopped(Stop::Write)),
    }
}

// Runs the source of a sample, and writes the line that sums up the run.
fn sum_up<O: Sink>(alloc: Global, lines: u32, source: &[u8], out: &mut O) -> End
    requires text { source.now ≡ sample_text lines }
    requires short { length source.now ≤ source_limit }
    ensures { Goes (SampleOutcome lines)
        (O.side out.old) (O.side out.new) result }
{
    match run_aside(alloc, source) {
        Ok(told) => show_summary(out, lines, source.len(), told),
        Err(NoMemory) => End::Refused(Refusal::Stopped(Stop::Memory)),
    }
}

/// Makes a source of so many lines, runs it on an empty input, and writes the line that sums up the
/// run.
pub fn sample<O: Sink>(alloc: Global, lines: u32, out: &mut O) -> End
    requires few { lines ≤ greatest_lines }
    ensures { Goes (SampleOutcome lines)
        (O.side out.old) (O.side out.new) result }
{
    match sample_source(alloc, lines) {
        Ok(source) => sum_up(alloc, lines, &source, out),
        Err(NoMemory) => End::Refused(Refusal::Stopped(Stop::Memory)),
    }
}
