// Classes of bytes, and the longest front of one class.
ghost use Rattle.std.specs.Prelude.{◌≡◌, ◌++◌};
ghost use Rattle.alma_base.specs.Bytes.{is_letter};
ghost use Rattle.alma_scan.specs.Bytes.{is_quote, AllIn, Stops};
ghost use Rattle.alma_scan.specs.Inner.Classes.{in_class};

use alma_base::{is_blank, is_digit};

/// A class of bytes.
#[derive(Clone, Copy)]
pub enum Class {
    Blank,
    Digit,
    Word,
    /// What may stand between two quotes of this sort.
    Inside(u8),
}

/// A letter of ASCII or the underscore: a name and a reserved word begin with one.
pub fn is_letter(byte: u8) -> bool
    ensures { result ≡ is_letter byte }
{
    (b'A' <= byte && byte <= b'Z') || (b'a' <= byte && byte <= b'z') || byte == b'_'
}

/// `"` or `'`: a literal begins with one and ends at the next of the same sort.
pub fn is_quote(byte: u8) -> bool
    ensures { result ≡ is_quote byte }
{
    byte == b'"' || byte == b'\''
}

fn is_in(class: Class, byte: u8) -> bool
    ensures { result ≡ in_class class byte }
{
    match class {
        Class::Blank => is_blank(byte),
        Class::Digit => is_digit(byte),
        Class::Word => is_letter(byte) || is_digit(byte),
        Class::Inside(quote) => !(byte == quote || byte == b'\n' || byte == b'\r'),
    }
}

/// Splits bytes behind the longest front of one class.
pub fn split_run(class: Class, bytes: &[u8]) -> (&[u8], &[u8])
    ensures whole { bytes.now ≡ result.0.now ++ result.1.now }
    ensures run { AllIn (in_class class) result.0.now }
    ensures stop { Stops (in_class class) result.1.now }
{
    let mut count = 0;
    while count < bytes.len() && is_in(class, bytes[count]) {
        count += 1;
    }
    bytes.split_at(count)
}
