// The words of a call that names files.
ghost use Rattle.std.specs.Prelude.{◌≡◌, ◌≤◌, ◌+◌};
ghost use Rattle.alma_driver_words.specs.Words.{texts};
ghost use Rattle.alma_plan.specs.Words.{bad_file as bad_file_of, greatest_files};

use alma_driver_words::is_file_name;

/// The greatest number of files.
const GREATEST_FILES: usize = 16;

/// The number, from 1, of the first of these words that names no file or is one too many; or one
/// more than there are, where there is no file. `seen` words stand in front, `before` of them no
/// files.
pub fn bad_file(before: usize, seen: usize, words: &[String]) -> Option<usize>
    requires few { before ≤ 2 }
    requires within { seen ≤ before + greatest_files }
    ensures { result ≡ bad_file_of before seen (texts words.now) }
{
    match words {
        [] => { if before < seen { None } else { Some(seen + 1) } }
        [word, rest @ ..] => {
            if is_file_name(word.as_str()) && seen < before + GREATEST_FILES {
                bad_file(before, seen + 1, rest)
            } else {
                Some(seen + 1)
            }
        }
    }
}
