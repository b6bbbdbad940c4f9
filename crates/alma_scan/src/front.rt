// The token at the front of bytes.
ghost use Rattle.std.specs.Prelude.{◌≡◌, nat_le, []};
ghost use Rattle.alma_base.specs.Bytes.{is_letter};
ghost use Rattle.alma_base.specs.Reading.{is_digit};
ghost use Rattle.alma_scan.specs.Bytes.{Begins, AllIn, is_quote, value_of};
ghost use Rattle.alma_scan.specs.Spellings.{greatest_number};
ghost use Rattle.alma_scan.specs.Inner.Fronts.{IsGapEnd, IsFront, IsFrontOf, IsOtherFirst, IsSymbolAt};

use crate::byte::{Class, is_letter, is_quote, split_run};
use crate::gap::skip_two;
use crate::spelling::{reserved_kind, symbol_kind};
use alma_base::{LexFault, is_digit};
use alma_tree::Kind;

/// A token, and the bytes behind it.
#[derive(Clone, Copy)]
pub struct Front<'s> {
    pub kind: Kind,
    pub text: &'s [u8],
    pub rest: &'s [u8],
}

fn word_front(bytes: &[u8]) -> Front<'_>
    requires { Begins is_letter bytes.now }
    ensures { IsFrontOf bytes.now result }
{
    let (text, rest) = split_run(Class::Word, bytes);
    let kind = reserved_kind(text).unwrap_or(Kind::Name);
    Front { kind, text, rest }
}

/// Whether the value of digits is a number of the language.
fn is_number(digits: &[u8]) -> bool
    requires { AllIn is_digit digits.now }
    ensures { result ≡ nat_le (value_of digits.now) greatest_number }
{
    let mut value = 0u64;
    for digit in digits {
        let more = u64::from(*digit) - 48;
        if value > (i64::MAX as u64 - more) / 10 {
            return false;
        }
        value = value * 10 + more;
    }
    true
}

fn number_front(bytes: &[u8]) -> Result<Front<'_>, LexFault>
    requires { Begins is_digit bytes.now }
    ensures { IsFront bytes.now result }
{
    let (text, rest) = split_run(Class::Digit, bytes);
    if is_number(text) {
        Ok(Front {
            kind: Kind::Number,
            text,
            rest,
        })
    } else {
        Err(LexFault::NumberTooLarge)
    }
}

fn literal_front(bytes: &[u8]) -> Result<Front<'_>, LexFault>
    requires { Begins is_quote bytes.now }
    ensures { IsFront bytes.now result }
{
    let Some((quote, inner)) = bytes.split_first() else {
        return Err(LexFault::OpenString);
    };
    let (inside, end) = split_run(Class::Inside(*quote), inner);
    match end.split_first() {
        Some((closing, rest)) if *closing == *quote => Ok(Front {
            kind: Kind::Literal,
            text: &bytes[..inside.len() + 2],
            rest,
        }),
        _ => Err(LexFault::OpenString),
    }
}

/// The symbol of this length at the front.
fn symbol_of(bytes: &[u8], size: usize) -> Option<Front<'_>>
    ensures { IsSymbolAt bytes.now size result }
{
    if bytes.len() < size {
        return None;
    }
    let (text, rest) = bytes.split_at(size);
    let kind = symbol_kind(text)?;
    Some(Front { kind, text, rest })
}

fn symbol_front(bytes: &[u8]) -> Result<Front<'_>, LexFault>
    requires gap_end { IsGapEnd bytes.now }
    requires other { IsOtherFirst bytes.now }
    ensures { IsFront bytes.now result }
{
    if let Some(_inner) = skip_two(bytes, b'(', b'*') {
        return Err(LexFault::OpenComment);
    }
    if let Some(front) = symbol_of(bytes, 2) {
        return Ok(front);
    }
    symbol_of(bytes, 1).ok_or(LexFault::BadByte)
}

/// The token at the front of bytes that begin with no blank and with no whole comment, or the fault
/// there.
pub fn read_front(bytes: &[u8]) -> Result<Front<'_>, LexFault>
    requires gap_end { IsGapEnd bytes.now }
    requires some { bytes.now ≡ [] → ⊥ }
    ensures { IsFront bytes.now result }
{
    let Some(first) = bytes.first() else {
        return Err(LexFault::BadByte);
    };
    if is_letter(*first) {
        Ok(word_front(bytes))
    } else if is_digit(*first) {
        number_front(bytes)
    } else if is_quote(*first) {
        literal_front(bytes)
    } else {
        symbol_front(bytes)
    }
}
