// Words of the command line, one by one.
use alma_base::NoMemory;
use std::alloc::Global;
use std::env::{Env, FillError};

// The sizes of buffers that are tried for a word; no system hands out a longer word than the last.
const WORD_SIZES: [usize; 4] = [256, 8_192, 262_144, 8_388_608];

// What stands for a word that is no UTF-8: no request has it at any place, so it is a bad word
// there.
const NO_TEXT: &str = "--";

// The word at a place of the command line, and None behind the last.
fn read_word<E: Env>(alloc: Global, env: &E, at: usize) -> Result<Option<String>, NoMemory> {
    for size in WORD_SIZES {
        let mut word = Vec::from_elem(alloc, 0, size)?;
        match env.arg(at, &mut word) {
            Ok(len) => {
                word.truncate(len);
                return match String::from_utf8(word) {
                    Ok(text) => Ok(Some(text)),
                    Err(_) => Ok(Some(String::from_str(alloc, NO_TEXT)?)),
                };
            }
            Err(FillError::NotPresent) => return Ok(None),
            Err(FillError::TooLong) => {}
        }
    }
    Err(NoMemory)
}

/// The words behind the program's name, in their order. A word that is no UTF-8 is `--`. Want of
/// memory is also the answer for a word of more than 8,388,608 bytes.
pub fn all_words<E: Env>(alloc: Global, env: &E) -> Result<Vec<String>, NoMemory> {
    let mut words = Vec::new(alloc);
    for at in 1..usize::MAX {
        match read_word(alloc, env, at)? {
            Some(word) => words.push(word)?,
            None => break,
        }
    }
    Ok(words)
}
