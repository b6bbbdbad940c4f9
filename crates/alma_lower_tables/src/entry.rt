// What one phrase names.
ghost use Rattle.std.specs.Prelude.{◌≡◌, true, [], ◌∷◌, OnOk};
ghost use Rattle.alma_base.specs.Numbers.{is_integer};
ghost use Rattle.alma_lower_tables.specs.Numbers.{tables_of};
ghost use Rattle.alma_lower_templates.specs.Tables as tables;
ghost use Rattle.alma_lower_tables.specs.AddsPhrases.{check_range, HasIntegerEnds, Names};

use crate::numbers::Numbers;
use alma_base::{NoMemory, Range};
use std::alloc::Global;

/// Gives a range a number where it has none, one that holds all numbers of INTEGER too. It is for
/// READ, CHR, indices and equations of numbers, whose instructions always name their range.
pub fn add_range(numbers: &mut Numbers, range: Range) -> Result<(), NoMemory>
    ensures names { OnOk result (Names (tables_of numbers.old) (tables_of numbers.new)
        (range ∷ []) []) }
    ensures integers { HasIntegerEnds range }
{
    numbers.add_range(range)
}

/// Whether a range holds all numbers of INTEGER, so that no code is put for a check against it.
pub fn is_whole(range: Range) -> bool
    ensures { result ≡ tables.is_whole range }
{
    range.low <= i64::MIN && i64::MAX <= range.high
}

/// Gives a range that is only checked a number where it has none. A whole one gets none.
pub fn add_checked(numbers: &mut Numbers, range: Range) -> Result<(), NoMemory>
    ensures names { OnOk result (Names (tables_of numbers.old) (tables_of numbers.new)
        (check_range range) []) }
{
    if is_whole(range) {
        return Ok(());
    }
    add_range(numbers, range)
}

/// Gives the text of a WRITE a number where it has none; texts of the same bytes share one. The
/// table keeps a copy.
pub fn add_text(alloc: Global, numbers: &mut Numbers, text: &[u8]) -> Result<(), NoMemory>
    ensures names { OnOk result (Names (tables_of numbers.old) (tables_of numbers.new) []
        (text.now ∷ [])) }
{
    numbers.add_text(alloc, text)
}

/// Does nothing. Its contract tells of the value of a constant that it is one of INTEGER, as each
/// i64 is.
pub fn pass_number(value: i64)
    ensures integer { is_integer value ≡ true }
{}
