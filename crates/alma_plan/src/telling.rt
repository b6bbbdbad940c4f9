// What is said on err of the end of a program, and of a file that is refused.
ghost use Rattle.std.specs.Prelude.{[], decimal};
ghost use Rattle.alma_driver_words.specs.Exit as exit;
ghost use Rattle.alma_plan.specs.Course.{Reports};
ghost use Rattle.alma_plan.specs.Plan.{ending_of, steps_out, tells, too_much_code};
ghost use Rattle.alma_plan.specs.Ends.{program_end};
ghost use Rattle.alma_plan.specs.Programs.{fault_words, named_words, refuse_source};
ghost use Rattle.alma_source.specs.Texts.{refusal_line};

use crate::end::ProgramEnd;
use crate::refusal::{Refusal, refuse};
use crate::writing::{report, tell_line, tell_number};
use alma_base::{Place, RunFault, Status};
use alma_code::End;
use alma_driver_words::exit;
use alma_io::Sink;
use alma_source::SourceFault;
use itoa::Buffer;

// Says that a run stopped in a fault of this name, with its line where that is known.
fn tell_named<'t, E: Sink>(err: &mut E, program: &'t [u8], name: &'t [u8], line: u32) -> Status
    ensures { Reports (tells program.now exit.faulted (named_words name.now line)) (E.side err.old)
        (E.side err.new) result.0 }
{
    let front = b": fault ".as_slice();
    let end = b"\n".as_slice();
    if line == 0 {
        return report(err, exit::FAULTED, &[program, front, name, end]);
    }
    let mut digits = Buffer::new();
    let middle = b" line ".as_slice();
    let number = digits.format(line).as_bytes();
    report(
        err,
        exit::FAULTED,
        &[program, front, name, middle, number, end],
    )
}

/// Says on err, in the name of a program, that a run stopped in a fault, with its line where that
/// is known: the status of that, or that of a write fault where err fails.
pub fn tell_fault<E: Sink>(err: &mut E, program: &[u8], fault: RunFault, line: u32) -> Status
    ensures { Reports (tells program.now exit.faulted (fault_words fault line)) (E.side err.old)
        (E.side err.new) result.0 }
{
    tell_named(err, program, fault.text().as_bytes(), line)
}

/// Says on err, in the name of a program, that all steps were made: the status of that, or that of
/// a write fault where err fails.
pub fn tell_steps_out<E: Sink>(err: &mut E, program: &[u8]) -> Status
    ensures { Reports (steps_out program.now) (E.side err.old) (E.side err.new) result.0 }
{
    tell_line(err, program, exit::STEPS_OUT, b"steps out")
}

/// Says on err, in the name of a program, that another is too large, by its size: the status of
/// that, or that of a write fault where err fails.
pub fn tell_too_much_code<E: Sink>(err: &mut E, program: &[u8], size: u64) -> Status
    ensures { Reports (too_much_code program.now size) (E.side err.old) (E.side err.new) result.0 }
{
    tell_number(err, program, exit::TOO_MUCH_CODE, b"too much code ", size)
}

/// Says on err, in the name of a program, how the run of another ended, where one that failed ends
/// with this status and without a word: the status, or that of a write fault where err fails.
pub fn tell_program<E: Sink>(err: &mut E, program: &[u8], failed: u8, end: ProgramEnd) -> Status
    ensures { Reports (program_end program.now (ending_of failed []) end) (E.side err.old)
        (E.side err.new) result.0 }
{
    match end {
        ProgramEnd::Ended(End::Succeeded, _) | ProgramEnd::Stored => Status(exit::SUCCEEDED),
        ProgramEnd::Ended(End::Failed, _) => Status(failed),
        ProgramEnd::Ended(End::Fault(fault), line) => tell_fault(err, program, fault, line),
        ProgramEnd::StepsOut => tell_steps_out(err, program),
        ProgramEnd::TooMuchCode(size) => tell_too_much_code(err, program, size),
        ProgramEnd::Stopped(stop) => refuse(err, program, Refusal::Stopped(stop)),
    }
}

// Says on err for which fault, of this name, a file is refused, and where.
fn tell_refusal_named<'t, E: Sink>(
    err: &mut E,
    file: &'t [u8],
    name: &'t [u8],
    place: Place,
) -> Status
    ensures { Reports (ending_of exit.refused (refusal_line file.now (decimal place.line)
        (decimal place.column) name.now)) (E.side err.old) (E.side err.new) result.0 }
{
    let mut line_digits = Buffer::new();
    let mut column_digits = Buffer::new();
    let line = line_digits.format(place.line).as_bytes();
    let column = column_digits.format(place.column).as_bytes();
    let colon = b":".as_slice();
    let middle = b": ".as_slice();
    let end = b"\n".as_slice();
    report(
        err,
        exit::REFUSED,
        &[file, colon, line, colon, column, middle, name, end],
    )
}

/// Says on err for which fault a file is refused, and where: the status of that, or that of a write
/// fault where err fails.
pub fn tell_refusal<E: Sink>(err: &mut E, file: &[u8], fault: SourceFault, place: Place) -> Status
    ensures { Reports (refuse_source file.now fault place)
        (E.side err.old) (E.side err.new) result.0 }
{
    tell_refusal_named(err, file, fault.text().as_bytes(), place)
}
