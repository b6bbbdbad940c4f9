// The source of a sample: its head, the lines of its numbers, and its tail.
ghost use Rattle.std.specs.Prelude.{◌≡◌, ◌++◌, ◌≤◌, length, OnOk, IfOk};
ghost use Rattle.alma_base.specs.Limits.{source_limit};
ghost use Rattle.alma_driver_words.specs.Words.{greatest_lines};
ghost use Rattle.alma_driver_words.specs.Sample.{next_number, lines_from, sample_text};

use crate::sample_line::{push_line, push_texts};
use alma_base::NoMemory;
use std::alloc::Global;

/// The first number of the sequence. Behind x stands (`MULTIPLIER` x + `INCREMENT`) mod `MODULUS`.
const FIRST_NUMBER: u32 = 12_345;

const MULTIPLIER: u64 = 1_103_515_245;

const INCREMENT: u64 = 12_345;

const MODULUS: u64 = 2_147_483_648;

// The number behind a number.
fn next_number(number: u32) -> u32
    ensures { result ≡ next_number number }
{
    ((MULTIPLIER * u64::from(number) + INCREMENT) % MODULUS) as u32
}

// The lines of as many numbers, from the first on.
fn push_lines(text: &mut Vec<u8>, lines: u32) -> Result<(), NoMemory>
    ensures { OnOk result (text.new.items ≡ text.old.items ++ lines_from lines 12345) }
{
    let mut number = FIRST_NUMBER;
    for _ in 0..lines {
        push_line(text, number)?;
        number = next_number(number);
    }
    Ok(())
}

/// A source with this many lines between its first and its last.
#[tactic(auto, using(crate::proofs::Lengths::sample_length), unfolding(crate::specs::Sample::sample_text))]
pub fn sample_source(alloc: Global, lines: u32) -> Result<Vec<u8>, NoMemory>
    requires few { lines ≤ greatest_lines }
    ensures text { IfOk result (λ source. source.items ≡ sample_text lines) }
    ensures short { length (sample_text lines) ≤ source_limit }
{
    let mut text = Vec::new(alloc);
    push_texts(
        &mut text,
        &[
            b"MODULE S;\n",
            b"VAR v: ARRAY [0..99] OF INTEGER; n: INTEGER;\n",
            b"BEGIN\n",
        ],
    )?;
    push_lines(&mut text, lines)?;
    push_texts(
        &mut text,
        &[
            b"FOR n := 0 TO 99 DO IF KNOWN(v[n]) THEN WRITE(v[n]) END END\n",
            b"END S.\n",
        ],
    )?;
    Ok(text)
}
