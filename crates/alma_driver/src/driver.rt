// The top call: from the words to the status.
ghost use Rattle.alma_driver_words.specs.Words.{texts};
ghost use Rattle.alma_io.specs.Outside.{outside_of};
ghost use Rattle.alma_driver_outcome.specs.Scope.{Answers, Causes};

use alma_base::Status;
use alma_driver_outcome::report;
use alma_driver_serve::perform;
use alma_driver_words::file_word;
use alma_io::{Files, Sink, Source};
use std::alloc::Global;

/// All that the program does: what the words ask, over the files, the input and the two outputs.
/// `words` are those behind the program's name. Programs, listings, traces and the line of a sample
/// print on `out`; what stands in the way is told on `err`. `compile` alone changes a file: the one
/// that it stores.
///
/// The status is 0 for success, 1 for a program that fails, 2 for a bad word, 3 for a source that
/// is no program, which is told with the line and the column of its first fault, 4 for a fault of
/// the run, 5 for steps that ran out, 6 for a read fault, also of the input, which is read only
/// where the code of a run reads, 7 for a write fault or a store that failed, 8 for want of memory,
/// 9 for bytes that are no object and for an object to run whose code is not sound, 10 for a source
/// of more than 1,048,576 bytes or an object of more than 268,435,456 or an input of more than
/// 16,777,216, and 11 for a program whose size passes 4,194,304.
pub fn alma<F: Files, I: Source, O: Sink, E: Sink>(
    alloc: Global,
    words: &[String],
    files: &mut F,
    input: &mut I,
    out: &mut O,
    err: &mut E,
) -> Status
    ensures answer { Answers (texts words.now)
        (outside_of (F.side files.old) (I.side input.old) (O.side out.old) (E.side err.old))
        (outside_of (F.side files.new) (I.side input.new) (O.side out.new) (E.side err.new))
        result.0 }
    ensures causes { Causes (texts words.now)
        (outside_of (F.side files.old) (I.side input.old) (O.side out.old) (E.side err.old))
        (outside_of (F.side files.new) (I.side input.new) (O.side out.new) (E.side err.new))
        result.0 }
{
    let end = perform(alloc, words, files, input, out);
    report(err, file_word(words), end)
}
