// The top call: from the words to the status.
ghost use Rattle.alma_plan.specs.Causes.{Causes};
ghost use Rattle.alma_plan.specs.Course.{Answers, Reports};
ghost use Rattle.alma_io.specs.Outside.{outside_of};
ghost use Rattle.alma_driver_words.specs.Words.{texts};
ghost use Rattle.alma_all.specs.All.{program, all_sense, all_plan};
ghost use Rattle.alma_all.specs.Ends.{all_end, stop_ending};

use crate::serve::perform;
use crate::stop::AllStop;
use alma_base::Status;
use alma_driver_words::exit;
use alma_io::{Files, Sink, Source};
use alma_plan::{ProgramEnd, refuse, tell_file, tell_line, tell_program};
use std::alloc::Global;

/// The name of the program.
const PROGRAM: &[u8] = b"alma_all";

// Says on err why the call lists nothing: the status of that, or that of a write fault where err
// fails.
fn tell_stop<E: Sink>(err: &mut E, error: AllStop<'_>) -> Status
    ensures { Reports (stop_ending error.entry) (E.side err.old) (E.side err.new) result.0 }
{
    match error {
        AllStop::Refused(refusal) => refuse(err, PROGRAM, refusal),
        AllStop::Unread(file, stop) => tell_file(err, PROGRAM, file.as_bytes(), stop),
        AllStop::ModuleReturn => tell_line(err, PROGRAM, exit::OWN_REFUSAL, b"ModuleReturn"),
    }
}

// Says on err how the call ends: the status of that, or that of a write fault where err fails.
fn tell<E: Sink>(err: &mut E, end: Result<ProgramEnd, AllStop<'_>>) -> Status
    ensures { Reports (all_end end.entry) (E.side err.old) (E.side err.new) result.0 }
{
    match end {
        Ok(end) => tell_program(err, PROGRAM, exit::SUCCEEDED, end),
        Err(error) => tell_stop(err, error),
    }
}

/// All that the program does: it reads the source in the named file, and prints a line of the
/// values of its variables for each alternative of its module body, in their order, with the prints
/// of the program between. `words` are those behind the program's name: the file, and `--steps=N`,
/// where there are to be at most so many steps.
///
/// The status is 0 where all alternatives were listed, 2 for a bad word, 3 for a source that is
/// refused, 4 for a fault of the program behind those that were listed, 5 where the steps ran out,
/// 6 for a read fault, 7 for a write fault, 8 for want of memory, 10 for a source of more than
/// 1,048,576 bytes or an input of more than 16,777,216, 11 where the program that lists the
/// alternatives is too large, and 13 for a RETURN in the body of the module. The input is read only
/// where the program has a READ.
pub fn all<F: Files, I: Source, O: Sink, E: Sink>(
    alloc: Global,
    words: &[String],
    files: &mut F,
    input: &mut I,
    out: &mut O,
    err: &mut E,
) -> Status
    ensures answer { Answers all_sense program (all_plan (texts words.now))
        (outside_of (F.side files.old) (I.side input.old) (O.side out.old) (E.side err.old))
        (outside_of (F.side files.new) (I.side input.new) (O.side out.new) (E.side err.new))
        result.0 }
    ensures causes { Causes all_sense program (all_plan (texts words.now))
        (outside_of (F.side files.old) (I.side input.old) (O.side out.old) (E.side err.old))
        (outside_of (F.side files.new) (I.side input.new) (O.side out.new) (E.side err.new))
        result.0 }
{
    let end = perform(alloc, words, files, input, out);
    tell(err, end)
}
