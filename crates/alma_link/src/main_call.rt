// The top call: from the words to the status.
ghost use Rattle.std.specs.Prelude.{◌≡◌, map};
ghost use Rattle.alma_ir.specs.Tree.{routine_at};
ghost use Rattle.alma_ir.specs.View.{program_of};
ghost use Rattle.alma_plan.specs.Causes.{Causes};
ghost use Rattle.alma_plan.specs.Course.{Answers, Reports};
ghost use Rattle.alma_io.specs.Outside.{outside_of};
ghost use Rattle.alma_plan.specs.Plan.{tells};
ghost use Rattle.alma_driver_words.specs.Exit as exit;
ghost use Rattle.alma_driver_words.specs.Words.{texts};
ghost use Rattle.alma_plan.specs.Programs.{sense};
ghost use Rattle.alma_link.specs.Ends.{stop_ending, join_end, link_end};
ghost use Rattle.alma_link.specs.Link.{failure, import_text, link_plan, program, unit_at};

use crate::serve::perform;
use crate::stop::LinkStop;
use alma_base::Status;
use alma_driver_words::exit;
use alma_io::{Files, Sink, Source};
use alma_ir::Program;
use alma_join::JoinError;
use alma_plan::{ProgramEnd, Refusal, Stop, refuse, report, tell_file, tell_number, tell_program};
use itoa::Buffer;
use std::alloc::Global;

/// The name of the program.
const PROGRAM: &[u8] = b"alma_link";

// The name of a routine of a module by their numbers, that of the module from 1; empty where there
// is none.
fn routine_name(units: &[Program], unit: u32, routine: u32) -> &[u8]
    ensures { result.now ≡ (routine_at (unit_at (map program_of units.now) unit) routine).name }
{
    let Some(found) = units.get((unit as usize).saturating_sub(1)) else {
        return b"";
    };
    match found.routines.get(routine as usize) {
        Some(routine) => &routine.name,
        None => b"",
    }
}

// Says which fault an import has, by its module and its number there.
fn tell_import<'t, E: Sink>(
    err: &mut E,
    fault: &'t [u8],
    units: &'t [Program],
    unit: u32,
    routine: u32,
) -> Status
    ensures { Reports (tells program exit.own_refusal
        (import_text fault.now (map program_of units.now) unit routine))
        (E.side err.old) (E.side err.new) result.0 }
{
    let mut digits = Buffer::new();
    let front = b": ".as_slice();
    let number = digits.format(unit).as_bytes();
    let space = b" ".as_slice();
    let name = routine_name(units, unit, routine);
    let end = b"\n".as_slice();
    report(
        err,
        exit::OWN_REFUSAL,
        &[PROGRAM, front, fault, number, space, name, end],
    )
}

// Says why the modules are not joined.
fn tell_join<E: Sink>(err: &mut E, units: &[Program], error: JoinError) -> Status
    ensures { Reports (join_end (map program_of units.now) error) (E.side err.old) (E.side err.new)
        result.0 }
{
    match error {
        JoinError::Missing(unit, routine) => tell_import(err, b"Missing ", units, unit, routine),
        JoinError::Twice(unit, routine) => tell_import(err, b"Twice ", units, unit, routine),
        JoinError::HeadDiffers(unit, routine) => {
            tell_import(err, b"HeadDiffers ", units, unit, routine)
        }
        JoinError::TooLarge(unit) => tell_number(
            err,
            PROGRAM,
            exit::OWN_REFUSAL,
            b"TooLarge ",
            u64::from(unit),
        ),
        JoinError::Memory => refuse(err, PROGRAM, Refusal::Stopped(Stop::Memory)),
    }
}

// Says on err why the call performs nothing, which read these modules: the status of that, or that
// of a write fault where err fails.
fn tell_stop<E: Sink>(err: &mut E, units: &[Program], error: LinkStop<'_>) -> Status
    ensures { Reports (stop_ending (map program_of units.now) error.entry) (E.side err.old)
        (E.side err.new) result.0 }
{
    match error {
        LinkStop::Refused(refusal) => refuse(err, PROGRAM, refusal),
        LinkStop::Unread(file, stop) => tell_file(err, PROGRAM, file.as_bytes(), stop),
        LinkStop::Unjoined(error) => tell_join(err, units, error),
    }
}

// Says on err how the call ends, which read these modules: the status of that, or that of a write
// fault where err fails.
fn tell<E: Sink>(err: &mut E, units: &[Program], end: Result<ProgramEnd, LinkStop<'_>>) -> Status
    ensures { Reports (link_end (map program_of units.now) end.entry) (E.side err.old)
        (E.side err.new) result.0 }
{
    match end {
        Ok(end) => tell_program(err, PROGRAM, exit::FAILED, end),
        Err(error) => tell_stop(err, units, error),
    }
}

/// All that the program does: it reads the modules that the words name, each to its end and checked
/// before the next is fetched, joins them to one program, and runs that for at most 1,000,000,000
/// steps, or stores its object. `words` are those behind the program's name.
///
/// The status is 0 where the run succeeded or the object is stored, 1 where the run failed, 2 for a
/// bad word, 3 for a module that is refused, 4 for a fault of the run, 5 where all steps were made,
/// 6 for a read fault, 7 for a write fault, 8 for want of memory, 10 for a file of more than
/// 1,048,576 bytes or an input of more than 16,777,216, 11 for too much code, and 13 for modules
/// that cannot be joined. The input is read only where the joined program reads.
pub fn link<F: Files, I: Source, O: Sink, E: Sink>(
    alloc: Global,
    words: &[String],
    files: &mut F,
    input: &mut I,
    out: &mut O,
    err: &mut E,
) -> Status
    ensures answer { Answers (sense program failure) program (link_plan (texts words.now))
        (outside_of (F.side files.old) (I.side input.old) (O.side out.old) (E.side err.old))
        (outside_of (F.side files.new) (I.side input.new) (O.side out.new) (E.side err.new))
        result.0 }
    ensures causes { Causes (sense program failure) program (link_plan (texts words.now))
        (outside_of (F.side files.old) (I.side input.old) (O.side out.old) (E.side err.old))
        (outside_of (F.side files.new) (I.side input.new) (O.side out.new) (E.side err.new))
        result.0 }
{
    let mut units = Vec::new(alloc);
    let end = perform(alloc, words, &mut units, files, input, out);
    tell(err, &units, end)
}
