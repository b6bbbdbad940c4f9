// The lines of a script.
ghost use Rattle.std.specs.Prelude.{◌≡◌, ◌≤◌, ◌*◌, ◌+◌, Ok, Some, All, length, option_map, IfOk, IfErr, IfSome, MatchOption};
ghost use Rattle.alma_back.specs.Script.{texts_in, count_in, name_in, line_with as line_with_of, line_in, lines_in};
ghost use Rattle.alma_back.specs.Inner.{line_of, lines_of, none_ended, one_ended, IsShort, IsUnread};

use crate::stop::BackStop;
use alma_driver_words::{is_name, numeral};
use std::alloc::Global;

/// The greatest number of digits of a number of steps.
const COUNT_DIGITS: usize = 7;

/// The greatest number of steps of a line.
const GREATEST_COUNT: u64 = 1_000_000;

/// A line of a script.
#[derive(Clone, Copy)]
pub enum Line<'s> {
    /// `s N`: so many steps.
    Forward(u64),
    /// `b N`: so many steps back.
    Backward(u64),
    /// `p NAME`: the value of the first global of this name.
    Value(&'s [u8]),
    /// `o`: how many bytes were printed.
    Output,
}

// The number of steps that a text names.
fn count_of(text: &[u8]) -> Option<u64>
    ensures { result ≡ count_in text.now }
{
    match numeral(text, COUNT_DIGITS, GREATEST_COUNT)? {
        0 => None,
        count => Some(count),
    }
}

// The name that a text is.
fn name_of(text: &[u8]) -> Option<&[u8]>
    ensures { option_map (λ name. name.now) result ≡ name_in text.now }
{
    if is_name(text) { Some(text) } else { None }
}

// The line of a letter and what stands behind its space.
fn line_with(letter: u8, rest: &[u8]) -> Option<Line<'_>>
    ensures line { option_map line_of result ≡ line_with_of letter rest.now }
    ensures short { IfSome result IsShort }
{
    match letter {
        b's' => Some(Line::Forward(count_of(rest)?)),
        b'b' => Some(Line::Backward(count_of(rest)?)),
        b'p' => Some(Line::Value(name_of(rest)?)),
        _ => None,
    }
}

// The line that a text is.
fn read_line(text: &[u8]) -> Option<Line<'_>>
    ensures line { option_map line_of result ≡ line_in text.now }
    ensures short { IfSome result IsShort }
    ensures some { IfSome result (λ line. 1 ≤ length text.now) }
{
    match text {
        [b'o'] => Some(Line::Output),
        [letter, b' ', rest @ ..] => line_with(*letter, rest),
        _ => None,
    }
}

// What stands before the first line feed, and what stands behind it.
fn split_line(text: &[u8]) -> Option<(&[u8], &[u8])>
    ensures texts { MatchOption result (texts_in text.now ≡ none_ended text.now)
        (λ split. texts_in text.now ≡ one_ended split.0.now (texts_in split.1.now)) }
    ensures length { IfSome result
        (λ split. length split.0.now + (1 + length split.1.now) ≡ length text.now) }
{
    for at in 0..text.len() {
        if text[at] == b'\n' {
            return Some((&text[..at], &text[at + 1..]));
        }
    }
    None
}

/// The lines of a script, unless one of them is none.
pub fn read_lines(alloc: Global, script: &[u8]) -> Result<Vec<Line<'_>>, BackStop>
    ensures lines { IfOk result (λ lines. lines_in script.now ≡ Ok (lines_of lines.items)) }
    ensures few { IfOk result (λ lines. 2 * length lines.items ≤ length script.now) }
    ensures short { IfOk result (λ lines. All IsShort lines.items) }
    ensures refused { IfErr result (λ stop. IsUnread script.now stop) }
{
    let mut lines = Vec::new(alloc);
    let mut rest = script;
    while !rest.is_empty() {
        let Some((text, behind)) = split_line(rest) else {
            return Err(BackStop::BadLine(lines.len() + 1));
        };
        let Some(line) = read_line(text) else {
            return Err(BackStop::BadLine(lines.len() + 1));
        };
        lines.push(line)?;
        rest = behind;
    }
    Ok(lines)
}
