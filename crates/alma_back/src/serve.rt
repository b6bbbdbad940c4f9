// From the words to an end.
ghost use Rattle.std.specs.Prelude.{◌≡◌, IfOk, IfErr};
ghost use Rattle.alma_plan.specs.Course.{Follows};
ghost use Rattle.alma_plan.specs.Plan.{Ends, Fetches, plain, silent};
ghost use Rattle.alma_plan.specs.Refusals.{end_by, refusal_end};
ghost use Rattle.alma_driver_words.specs.Words.{texts};
ghost use Rattle.alma_back.specs.Due.{program, script_limit, walk_files_plan, fetch_plan, back_plan};
ghost use Rattle.alma_back.specs.Ends.{back_end};

use crate::stop::BackStop;
use crate::walk::walk_files;
use alma_base::OBJECT_LIMIT;
use alma_driver_words::{is_file_name, split_word};
use alma_io::{Files, Sink, Source};
use alma_plan::Refusal;
use std::alloc::Global;

/// The greatest number of bytes of a script.
const SCRIPT_LIMIT: usize = 1_048_576;

// The names of an object and of a script, or the refusal of the first word that cannot stand where
// it is, or of one more than there are.
fn file_words(words: &[String]) -> Result<(&str, &str), Refusal>
    ensures names { IfOk result (λ names. back_plan (texts words.now)
        ≡ fetch_plan names.0.now names.1.now) }
    ensures refused { IfErr result (λ refusal. back_plan (texts words.now)
        ≡ Ends (silent (refusal_end program refusal))) }
{
    let Some((object, rest)) = split_word(words) else {
        return Err(Refusal::BadWord(1));
    };
    if !is_file_name(object) {
        return Err(Refusal::BadWord(1));
    }
    let Some((script, more)) = split_word(rest) else {
        return Err(Refusal::BadWord(2));
    };
    if !is_file_name(script) {
        return Err(Refusal::BadWord(2));
    }
    if more.is_empty() {
        Ok((object, script))
    } else {
        Err(Refusal::BadWord(3))
    }
}

// Fetches the script of a name, and walks an object by it.
fn serve_script<F: Files, I: Source, O: Sink>(
    alloc: Global,
    object: &[u8],
    script: &str,
    files: &mut F,
    input: &mut I,
    out: &mut O,
) -> Result<(), BackStop>
    ensures { Follows plain program (Fetches script.now script_limit (walk_files_plan object.now))
        (F.side files.old) (F.side files.new) (I.side input.old) (I.side input.new)
        (O.side out.old) (O.side out.new) (end_by back_end result) }
{
    let bytes = files.fetch(alloc, script, SCRIPT_LIMIT)?;
    walk_files(alloc, object, &bytes, input, out)
}

// Fetches the object of a name, then the script of another, and walks the one by the other.
fn serve<F: Files, I: Source, O: Sink>(
    alloc: Global,
    object: &str,
    script: &str,
    files: &mut F,
    input: &mut I,
    out: &mut O,
) -> Result<(), BackStop>
    ensures { Follows plain program (fetch_plan object.now script.now) (F.side files.old)
        (F.side files.new) (I.side input.old) (I.side input.new) (O.side out.old)
        (O.side out.new) (end_by back_end result) }
{
    let bytes = files.fetch(alloc, object, OBJECT_LIMIT)?;
    serve_script(alloc, &bytes, script, files, input, out)
}

/// Does what the words ask, with all its bytes on `out` where nothing stops it.
pub fn perform<F: Files, I: Source, O: Sink>(
    alloc: Global,
    words: &[String],
    files: &mut F,
    input: &mut I,
    out: &mut O,
) -> Result<(), BackStop>
    ensures { Follows plain program (back_plan (texts words.now)) (F.side files.old)
        (F.side files.new) (I.side input.old) (I.side input.new) (O.side out.old)
        (O.side out.new) (end_by back_end result) }
{
    let (object, script) = file_words(words)?;
    serve(alloc, object, script, files, input, out)
}
