// Lines of words.
ghost use Rattle.std.specs.Prelude.{◌≡◌, ◌∷◌, [], decimal, OnOk};
ghost use Rattle.alma_code.specs.ListText.{text_line};

use alma_base::NoMemory;
use alma_code_list::{push_next, push_word};
use itoa::Buffer;

/// A line of two words.
pub fn put_two(line: &mut Vec<u8>, first: &[u8], second: &[u8]) -> Result<(), NoMemory>
    ensures { OnOk result (line.new.items ≡ text_line (first.now ∷ second.now ∷ [])) }
{
    line.clear();
    push_word(line, first)?;
    push_next(line, second)?;
    line.push(b'\n')?;
    Ok(())
}

/// A line of three words.
pub fn put_three(
    line: &mut Vec<u8>,
    first: &[u8],
    second: &[u8],
    third: &[u8],
) -> Result<(), NoMemory>
    ensures { OnOk result (line.new.items ≡ text_line (first.now ∷ second.now ∷ third.now ∷ [])) }
{
    line.clear();
    push_word(line, first)?;
    push_next(line, second)?;
    push_next(line, third)?;
    line.push(b'\n')?;
    Ok(())
}

/// A line of a word and a number.
pub fn put_number(line: &mut Vec<u8>, word: &[u8], number: u64) -> Result<(), NoMemory>
    ensures { OnOk result (line.new.items ≡ text_line (word.now ∷ decimal number ∷ [])) }
{
    let mut digits = Buffer::new();
    put_two(line, word, digits.format(number).as_bytes())
}
