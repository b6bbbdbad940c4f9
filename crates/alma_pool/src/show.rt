// What is shown of the programs of a pool.
ghost use Rattle.std.specs.Prelude.{◌≡◌, ◌<◌, ◌+◌, ◌++◌, length, IsTrue};
ghost use Rattle.alma_io.specs.Outside.{Writes};
ghost use Rattle.alma_pool.specs.Due.{program_lines, program_text};
ghost use Rattle.alma_pool.specs.Inner.{end_word as end_word_of, fault_word as fault_word_of, shown_text};
ghost use Rattle.alma_pool.specs.Pool.{program_at, seen_of};

use crate::pool::Pool;
use alma_code::End;
use alma_io::{Failed, Sink, write_parts};
use itoa::Buffer;

// The words for an end, but for the name of a fault.
fn end_word(end: Option<End>) -> &'static [u8]
    ensures { result.now ≡ end_word_of end }
{
    match end {
        None => b"waiting",
        Some(End::Succeeded) => b"succeeded",
        Some(End::Failed) => b"failed",
        Some(End::Fault(_)) => b"fault ",
    }
}

// The name of the fault of an end.
fn fault_word(end: Option<End>) -> &'static [u8]
    ensures { result.now ≡ fault_word_of end }
{
    match end {
        None | Some(End::Succeeded) | Some(End::Failed) => b"",
        Some(End::Fault(fault)) => fault.text().as_bytes(),
    }
}

// Writes the lines of a program, by the texts in them.
fn show_parts<'t, O: Sink>(
    out: &mut O,
    number: usize,
    word: &'t [u8],
    fault: &'t [u8],
    output: &'t [u8],
) -> Result<(), Failed>
    ensures { Writes (O.side out.old) (O.side out.new)
        (program_lines number (word.now ++ fault.now) output.now) result }
{
    let mut number_digits = Buffer::new();
    let mut count_digits = Buffer::new();
    let first = b"program ".as_slice();
    let number = number_digits.format(number).as_bytes();
    let space = b" ".as_slice();
    let bytes = b" bytes ".as_slice();
    let count = count_digits.format(output.len()).as_bytes();
    let end = b"\n".as_slice();
    write_parts(
        out,
        &[
            first, number, space, word, fault, bytes, count, end, output, end,
        ],
    )
}

// Writes the lines of the program of a number.
fn show_one<O: Sink>(pool: &Pool<'_, '_>, k: usize, out: &mut O) -> Result<(), Failed>
    requires there { k < length pool.now.programs }
    requires whole { IsTrue pool.now.whole }
    ensures { Writes (O.side out.old) (O.side out.new)
        (program_text (k + 1) (seen_of (program_at pool.now k))) result }
{
    // The count bounds `k + 1`: it is a usize, and `k` is below it.
    let _count = pool.count();
    let ended = pool.end(k);
    show_parts(
        out,
        k + 1,
        end_word(ended),
        fault_word(ended),
        pool.output(k),
    )
}

/// Writes the lines of all programs, in the order of their numbers.
pub fn show_all<O: Sink>(pool: &Pool<'_, '_>, out: &mut O) -> Result<(), Failed>
    requires { IsTrue pool.now.whole }
    ensures { Writes (O.side out.old) (O.side out.new) (shown_text 0 pool.now.programs) result }
{
    for k in 0..pool.count() {
        show_one(pool, k, out)?;
    }
    Ok(())
}
