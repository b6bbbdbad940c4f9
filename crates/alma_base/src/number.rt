// The numbers of the language: ranges of them, division, and what READ finds.
ghost use Rattle.std.specs.Prelude.{◌≡◌, ◌≢◌, ◌<ℤ◌, pos, false, MatchOption};
ghost use Rattle.alma_base.specs.Numbers.{whole_range, char_range, is_integer, div_down_of, mod_down_of};

/// The numbers from `low` to `high`. Whoever makes one keeps `low` at most `high`.
#[derive(Clone, Copy)]
pub struct Range {
    pub low: i64,
    pub high: i64,
}

impl Range {
    /// All numbers of INTEGER.
    pub fn integer() -> Range
        ensures { result ≡ whole_range }
    {
        Range {
            low: i64::MIN,
            high: i64::MAX,
        }
    }

    /// All numbers of CHAR.
    pub fn character() -> Range
        ensures { result ≡ char_range }
    {
        Range { low: 0, high: 255 }
    }
}

/// What READ finds at a place of the input, on an INTEGER type.
#[derive(Clone, Copy, Debug, PartialEq, Eq)]
pub enum ReadInt {
    /// A number, and the place behind its last digit.
    Number(i64, usize),
    NoNumber,
    /// A number outside 64 bits.
    TooLarge,
}

// The quotient of a negative number by a positive one, rounded down.
fn div_below(a: i64, b: i64) -> i64
    requires negative { a <ℤ pos 0 }
    requires positive { pos 0 <ℤ b }
    ensures { result ≡ div_down_of a b }
{
    -1 - (-1 - a) / b
}

// The quotient of a positive number by a negative one, rounded down.
fn div_above(a: i64, b: i64) -> i64
    requires positive { pos 0 <ℤ a }
    requires negative { b <ℤ pos 0 }
    ensures { result ≡ div_down_of a b }
{
    -1 - (1 - a) / b
}

// The quotient of numbers of one sign, or of 0.
fn div_alike(a: i64, b: i64) -> Option<i64>
    requires nonzero { b ≢ pos 0 }
    requires below { a <ℤ pos 0 → b <ℤ pos 0 }
    requires above { pos 0 <ℤ a → pos 0 <ℤ b }
    ensures { MatchOption result (is_integer (div_down_of a b) ≡ false)
        (λ quotient. quotient ≡ div_down_of a b) }
{
    a.checked_div(b)
}

/// The quotient rounded down; None for -2^63 by -1 alone, whose quotient is no INTEGER.
pub fn div_down(a: i64, b: i64) -> Option<i64>
    requires { b ≢ pos 0 }
    ensures { MatchOption result (is_integer (div_down_of a b) ≡ false)
        (λ quotient. quotient ≡ div_down_of a b) }
{
    if a < 0 && b > 0 {
        Some(div_below(a, b))
    } else if a > 0 && b < 0 {
        Some(div_above(a, b))
    } else {
        div_alike(a, b)
    }
}

// The remainder of a negative number by a positive one.
fn mod_below(a: i64, b: i64) -> i64
    requires negative { a <ℤ pos 0 }
    requires positive { pos 0 <ℤ b }
    ensures { result ≡ mod_down_of a b }
{
    b - 1 - (-1 - a) % b
}

// The remainder of a positive number by a negative one.
fn mod_above(a: i64, b: i64) -> i64
    requires positive { pos 0 <ℤ a }
    requires negative { b <ℤ pos 0 }
    ensures { result ≡ mod_down_of a b }
{
    b + 1 - (1 - a) % b
}

/// `a - b * (a DIV b)`, computed exactly: of the sign of `b`, and 0 for -2^63 by -1.
pub fn mod_down(a: i64, b: i64) -> i64
    requires { b ≢ pos 0 }
    ensures { result ≡ mod_down_of a b }
{
    if a < 0 && b > 0 {
        mod_below(a, b)
    } else if a > 0 && b < 0 {
        mod_above(a, b)
    } else {
        a.wrapping_rem(b)
    }
}
