// Lines of a text: words with a space between two.
ghost use Rattle.std.specs.Prelude.{◌≡◌, ◌∷◌, ◌++◌, map, flat_map, decimal, OnOk};
ghost use Rattle.alma_code.specs.ListText.{text_line};
ghost use Rattle.alma_code_list.specs.Spaces.{behind_space};

use alma_base::NoMemory;
use itoa::Buffer;

/// Appends a word.
pub fn push_word(text: &mut Vec<u8>, word: &[u8]) -> Result<(), NoMemory>
    ensures { OnOk result (text.new.items ≡ text.old.items ++ word.now) }
{
    text.extend_from_slice(word)?;
    Ok(())
}

/// Appends a space and a word.
pub fn push_next(text: &mut Vec<u8>, word: &[u8]) -> Result<(), NoMemory>
    ensures { OnOk result (text.new.items ≡ text.old.items ++ 32 ∷ word.now) }
{
    text.push(b' ')?;
    push_word(text, word)
}

/// Appends a space and a number in decimal.
pub fn push_number(text: &mut Vec<u8>, number: u64) -> Result<(), NoMemory>
    ensures { OnOk result (text.new.items ≡ text.old.items ++ 32 ∷ decimal number) }
{
    let mut digits = Buffer::new();
    push_next(text, digits.format(number).as_bytes())
}

/// Appends numbers, each behind a space.
pub fn push_numbers(text: &mut Vec<u8>, numbers: &[u32]) -> Result<(), NoMemory>
    ensures { OnOk result (text.new.items ≡ text.old.items ++ flat_map behind_space numbers.now) }
{
    for number in numbers {
        push_number(text, u64::from(*number))?;
    }
    Ok(())
}

// Appends words, each behind a space.
fn push_words(text: &mut Vec<u8>, words: &[&[u8]]) -> Result<(), NoMemory>
    ensures { OnOk result
        (text.new.items ≡ text.old.items ++ flat_map (λ word. 32 ∷ word.now) words.now) }
{
    for word in words {
        push_next(text, word)?;
    }
    Ok(())
}

/// Appends a line of words.
pub fn push_line_of_words(text: &mut Vec<u8>, first: &[u8], words: &[&[u8]]) -> Result<(), NoMemory>
    ensures { OnOk result (text.new.items ≡ text.old.items
        ++ text_line (first.now ∷ map (λ word. word.now) words.now)) }
{
    push_word(text, first)?;
    push_words(text, words)?;
    text.push(b'\n')?;
    Ok(())
}

/// Appends a line of a word and numbers.
#[tactic(auto, using(crate::proofs::Lines::line_put))]
pub fn push_line(text: &mut Vec<u8>, word: &str, numbers: &[u32]) -> Result<(), NoMemory>
    ensures { OnOk result
        (text.new.items ≡ text.old.items ++ text_line (word.now ∷ map decimal numbers.now)) }
{
    push_word(text, word.as_bytes())?;
    push_numbers(text, numbers)?;
    text.push(b'\n')?;
    Ok(())
}

/// Appends a line of an address, the name of a form, and its words.
#[tactic(auto, using(crate::proofs::Lines::instr_put))]
pub fn push_form(
    text: &mut Vec<u8>,
    address: u64,
    name: &str,
    numbers: &[u32],
) -> Result<(), NoMemory>
    ensures { OnOk result (text.new.items ≡ text.old.items
        ++ text_line (decimal address ∷ name.now ∷ map decimal numbers.now)) }
{
    let mut digits = Buffer::new();
    push_word(text, digits.format(address).as_bytes())?;
    text.push(b' ')?;
    push_line(text, name, numbers)?;
    Ok(())
}
