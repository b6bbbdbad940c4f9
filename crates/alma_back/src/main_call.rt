// The top call: from the words to the status.
ghost use Rattle.alma_plan.specs.Causes.{Causes};
ghost use Rattle.alma_plan.specs.Course.{Answers, Reports};
ghost use Rattle.alma_io.specs.Outside.{outside_of};
ghost use Rattle.alma_plan.specs.Plan.{plain};
ghost use Rattle.alma_driver_words.specs.Words.{texts};
ghost use Rattle.alma_back.specs.Due.{program, back_plan};
ghost use Rattle.alma_plan.specs.Refusals.{end_by};
ghost use Rattle.alma_back.specs.Ends.{back_end};

use crate::serve::perform;
use crate::stop::BackStop;
use alma_base::Status;
use alma_driver_words::exit;
use alma_io::{Files, Sink, Source};
use alma_plan::{refuse, tell_number};
use std::alloc::Global;

/// The name of the program.
const PROGRAM: &[u8] = b"alma_back";

// Says on err how the call ends: the status of that, or that of a write fault where err fails.
fn tell<E: Sink>(err: &mut E, outcome: Result<(), BackStop>) -> Status
    ensures { Reports (end_by back_end outcome) (E.side err.old) (E.side err.new) result.0 }
{
    match outcome {
        Ok(()) => Status(exit::SUCCEEDED),
        Err(BackStop::BadLine(line)) => {
            tell_number(err, PROGRAM, exit::OWN_REFUSAL, b"bad line ", line as u64)
        }
        Err(BackStop::Refused(refusal)) => refuse(err, PROGRAM, refusal),
    }
}

/// All that the program does: it fetches the object and the script that the words name, walks the
/// run of the object by the lines of the script, step by step forward and back, and prints what
/// each line shows. `words` are those behind the program's name.
///
/// The status is 0 where all lines were done, 2 for a bad word, 6 for a read fault, 7 for a write
/// fault, 8 for want of memory, 9 for bytes that are no object and for code that is not sound, 10
/// for a script of more than 1,048,576 bytes, an object of more than 268,435,456 or an input of
/// more than 16,777,216, and 13 for a line of the script that is none. The input is read only where
/// the code reads.
pub fn back_main<F: Files, I: Source, O: Sink, E: Sink>(
    alloc: Global,
    words: &[String],
    files: &mut F,
    input: &mut I,
    out: &mut O,
    err: &mut E,
) -> Status
    ensures answer { Answers plain program (back_plan (texts words.now))
        (outside_of (F.side files.old) (I.side input.old) (O.side out.old) (E.side err.old))
        (outside_of (F.side files.new) (I.side input.new) (O.side out.new) (E.side err.new))
        result.0 }
    ensures causes { Causes plain program (back_plan (texts words.now))
        (outside_of (F.side files.old) (I.side input.old) (O.side out.old) (E.side err.old))
        (outside_of (F.side files.new) (I.side input.new) (O.side out.new) (E.side err.new))
        result.0 }
{
    let outcome = perform(alloc, words, files, input, out);
    tell(err, outcome)
}
