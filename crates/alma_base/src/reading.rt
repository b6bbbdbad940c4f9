// What READ finds in the input.
ghost use Rattle.std.specs.Prelude.{◌≡◌, ◌≤◌, ◌-◌, ◌^◌, ℕ, Bool, false, nat_lt, length, drop, min, MatchOption};
ghost use Rattle.alma_base.specs.Numbers.{is_integer};
ghost use Rattle.alma_base.specs.Reading.{is_blank, is_digit, signed_value, ended, digits_on, sign_on, number_from};

use crate::ReadInt;

/// Space, TAB, CR or LF: blanks separate tokens of a source, and stand before what READ reads.
pub fn is_blank(byte: u8) -> bool
    ensures { result ≡ is_blank byte }
{
    matches!(byte, b' ' | b'\t' | b'\r' | b'\n')
}

/// `0` to `9`: a number begins with one, and a name may go on with one.
pub fn is_digit(byte: u8) -> bool
    ensures { result ≡ is_digit byte }
{
    matches!(byte, b'0'..=b'9')
}

/// The place behind the blanks that stand from a place on.
fn skip_blanks(input: &[u8], from: usize) -> usize
    requires { from ≤ length input.now }
    ensures within { result ≤ length input.now }
    ensures blanks { number_from input.now from ≡ sign_on result (drop result input.now) }
{
    let mut place = from;
    while place < input.len() && is_blank(input[place]) {
        place += 1;
    }
    place
}

// What digits write, or the greatest number of 64 bits where that is greater, and the place behind
// them.
#[derive(Clone, Copy)]
struct Digits {
    magnitude: u64,
    end: usize,
}

/// All digits that stand from a place on.
fn read_digits(input: &[u8], start: usize) -> Digits
    requires { start ≤ length input.now }
    ensures within { (start ≤ result.end) × (result.end ≤ length input.now) }
    ensures digits { (value : ℕ) × (result.magnitude ≡ min value (2 ^ 64 - 1)) ×
        ((negative : Bool) →
        digits_on false negative 0 start (drop start input.now) ≡ ended
        (nat_lt start result.end) negative value result.end) }
{
    let mut magnitude: u64 = 0;
    let mut end = start;
    while end < input.len() && is_digit(input[end]) {
        magnitude = magnitude
            .saturating_mul(10)
            .saturating_add(u64::from(input[end] - b'0'));
        end += 1;
    }
    Digits { magnitude, end }
}

/// The number of this sign, where it is one of INTEGER.
fn with_sign(is_negative: bool, magnitude: u64) -> Option<i64>
    ensures { MatchOption result (is_integer (signed_value is_negative magnitude) ≡ false)
        (λ number. number ≡ signed_value is_negative magnitude) }
{
    let number = i128::from(magnitude);
    let signed = if is_negative { -number } else { number };
    i64::try_from(signed).ok()
}

/// The number that begins with its digits at a place, behind a sign that was read.
fn read_unsigned(input: &[u8], start: usize, is_negative: bool) -> ReadInt
    requires { start ≤ length input.now }
    ensures { result ≡ digits_on false is_negative 0 start (drop start input.now) }
{
    let digits = read_digits(input, start);
    if digits.end == start {
        return ReadInt::NoNumber;
    }
    match with_sign(is_negative, digits.magnitude) {
        Some(number) => ReadInt::Number(number, digits.end),
        None => ReadInt::TooLarge,
    }
}

/// What READ finds from a place of the input on, on an INTEGER type: behind any blanks an optional
/// sign, and all digits that follow.
pub fn read_int(input: &[u8], from: usize) -> ReadInt
    requires from { from ≤ length input.now }
    ensures { result ≡ number_from input.now from }
{
    let start = skip_blanks(input, from);
    match input.get(start) {
        Some(b'-') => read_unsigned(input, start + 1, true),
        Some(b'+') => read_unsigned(input, start + 1, false),
        _ => read_unsigned(input, start, false),
    }
}
