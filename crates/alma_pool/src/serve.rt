// From the words to an end.
ghost use Rattle.std.specs.Prelude.{◌≤◌, length};
ghost use Rattle.alma_plan.specs.Course.{Follows};
ghost use Rattle.alma_driver_words.specs.Words.{texts};
ghost use Rattle.alma_plan.specs.Plan.{plain};
ghost use Rattle.alma_plan.specs.Refusals.{end_by};
ghost use Rattle.alma_pool.specs.Due.{program, objects_plan, fetch_plan, pool_plan, turns_limit};
ghost use Rattle.alma_pool.specs.Ends.{pool_end};
ghost use Rattle.alma_pool.specs.Inner.{all_bytes};

use crate::play::play_files;
use crate::stop::PoolStop;
use crate::turns::TURNS_LIMIT;
use alma_base::OBJECT_LIMIT;
use alma_driver_words::split_word;
use alma_io::{Files, Sink, Source};
use alma_plan::{Refusal, bad_file};
use std::alloc::Global;

// Fetches the objects of these names, behind those that were, and then makes the turns.
fn serve_objects<F: Files, I: Source, O: Sink>(
    alloc: Global,
    turns: &[u8],
    got: &mut Vec<Vec<u8>>,
    names: &[String],
    files: &mut F,
    input: &mut I,
    out: &mut O,
) -> Result<(), PoolStop>
    requires { length turns.now ≤ turns_limit }
    ensures { Follows plain program
        (objects_plan turns.now (all_bytes got.old.items) (texts names.now))
        (F.side files.old) (F.side files.new) (I.side input.old) (I.side input.new)
        (O.side out.old) (O.side out.new) (end_by pool_end result) }
{
    let Some((name, rest)) = split_word(names) else {
        return play_files(alloc, turns, got.as_slice(), input, out);
    };
    let bytes = files.fetch(alloc, name, OBJECT_LIMIT)?;
    got.push(bytes)?;
    serve_objects(alloc, turns, got, rest, files, input, out)
}

// Does what words ask that can stand.
fn serve<F: Files, I: Source, O: Sink>(
    alloc: Global,
    words: &[String],
    files: &mut F,
    input: &mut I,
    out: &mut O,
) -> Result<(), PoolStop>
    ensures { Follows plain program (fetch_plan (texts words.now)) (F.side files.old)
        (F.side files.new) (I.side input.old) (I.side input.new) (O.side out.old)
        (O.side out.new) (end_by pool_end result) }
{
    let Some((turns, objects)) = split_word(words) else {
        return Err(PoolStop::Refused(Refusal::BadWord(1)));
    };
    let bytes = files.fetch(alloc, turns, TURNS_LIMIT)?;
    let mut got = Vec::new(alloc);
    serve_objects(alloc, &bytes, &mut got, objects, files, input, out)
}

/// Does what the words ask, with all its bytes on `out`, or answers what it stopped at.
pub fn perform<F: Files, I: Source, O: Sink>(
    alloc: Global,
    words: &[String],
    files: &mut F,
    input: &mut I,
    out: &mut O,
) -> Result<(), PoolStop>
    ensures { Follows plain program (pool_plan (texts words.now)) (F.side files.old)
        (F.side files.new) (I.side input.old) (I.side input.new) (O.side out.old)
        (O.side out.new) (end_by pool_end result) }
{
    match bad_file(1, 0, words) {
        Some(word) => Err(PoolStop::Refused(Refusal::BadWord(word))),
        None => serve(alloc, words, files, input, out),
    }
}
