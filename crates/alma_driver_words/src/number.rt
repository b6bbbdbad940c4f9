// Numbers, as words name them.
ghost use Rattle.std.specs.Prelude.{◌≤◌, ℕ, MatchOption};
ghost use Rattle.alma_driver_words.specs.Words.{IsNumeral, NamesSteps, NamesLines};

/// The greatest number of steps that words may name.
const GREATEST_STEPS: u64 = 1 << 62;

/// The greatest number of digits by which words may name a number of steps.
const STEPS_DIGITS: usize = 19;

/// The greatest number of lines of a sample.
const GREATEST_LINES: u64 = 5_000;

/// The greatest number of digits by which words may name it.
const LINES_DIGITS: usize = 4;

/// The number that digits are, so many at most, where it is no greater than this.
pub fn numeral(digits: &[u8], most: usize, greatest: u64) -> Option<u64>
    requires { 9 ≤ greatest }
    ensures { MatchOption result ((number : ℕ) → IsNumeral most digits.now number → number
        ≤ greatest → ⊥) (λ number. IsNumeral most digits.now number × (number ≤ greatest)) }
{
    if digits.is_empty() || digits.len() > most {
        return None;
    }
    let mut number = 0u64;
    for digit in digits {
        if !digit.is_ascii_digit() {
            return None;
        }
        let more = u64::from(*digit - b'0');
        if number > (greatest - more) / 10 {
            return None;
        }
        number = number * 10 + more;
    }
    Some(number)
}

/// The number of steps that digits name.
pub fn named_steps(digits: &str) -> Option<u64>
    ensures { MatchOption result ((steps : ℕ) → NamesSteps digits.now steps → ⊥)
        (λ steps. NamesSteps digits.now steps) }
{
    match numeral(digits.as_bytes(), STEPS_DIGITS, GREATEST_STEPS)? {
        0 => None,
        steps => Some(steps),
    }
}

/// The number of lines of a sample that digits name.
pub fn named_lines(digits: &str) -> Option<u32>
    ensures { MatchOption result ((lines : ℕ) → NamesLines digits.now lines → ⊥)
        (λ lines. NamesLines digits.now lines) }
{
    let lines = numeral(digits.as_bytes(), LINES_DIGITS, GREATEST_LINES)?;
    Some(lines as u32)
}
