// What the words of a call ask for.
ghost use Rattle.std.specs.Prelude.{◌≡◌, ◌≤◌, ◌<◌, length, Ok, Err, IfOk, MatchResult};
ghost use Rattle.alma_driver_words.specs.Words.{texts};
ghost use Rattle.alma_link.specs.Ends.{request_in, task_of};
ghost use Rattle.alma_link.specs.Words.{compile_request as compile_request_of, request_of as request_named, with_files as with_files_of};
ghost use Rattle.alma_plan.specs.Words.{greatest_files};

use alma_driver_words::{is_file_name, split_word};
use alma_plan::bad_file;

/// What is done with the joined program.
#[derive(Clone, Copy)]
pub enum Task<'w> {
    /// It is run.
    Run,
    /// Its object is stored under this name.
    Compile(&'w str),
}

/// What the words ask for.
#[derive(Clone, Copy)]
pub struct Request<'w> {
    pub task: Task<'w>,
    /// The names of the files that hold the modules.
    pub files: &'w [String],
}

// A request whose files stand behind so many words.
fn with_files<'w>(before: usize, task: Task<'w>, files: &'w [String]) -> Result<Request<'w>, usize>
    requires few { before ≤ 2 }
    ensures request { MatchResult result
        (λ r. with_files_of before (task_of task.entry) (texts files.now) ≡ Ok (request_in r))
        (λ word. with_files_of before (task_of task.entry) (texts files.now) ≡ Err word) }
    ensures some { IfOk result (λ r. 0 < length r.files.now) }
    ensures few { IfOk result (λ r. length r.files.now ≤ greatest_files) }
{
    match bad_file(before, before, files) {
        None => Ok(Request { task, files }),
        Some(word) => Err(word),
    }
}

// The request behind the word `compile`.
fn compile_request(words: &[String]) -> Result<Request<'_>, usize>
    ensures request { MatchResult result
        (λ r. compile_request_of (texts words.now) ≡ Ok (request_in r))
        (λ word. compile_request_of (texts words.now) ≡ Err word) }
    ensures some { IfOk result (λ r. 0 < length r.files.now) }
    ensures few { IfOk result (λ r. length r.files.now ≤ greatest_files) }
{
    match split_word(words) {
        Some((object, files)) if is_file_name(object) => with_files(
            2,
            Task::Compile(object),
            files,
        ),
        _ => Err(2),
    }
}

/// The request that the words are, or the first word, from 1, that cannot stand where it is, or one
/// more than there are.
pub fn request_of(words: &[String]) -> Result<Request<'_>, usize>
    ensures request { MatchResult result
        (λ r. request_named (texts words.now) ≡ Ok (request_in r))
        (λ word. request_named (texts words.now) ≡ Err word) }
    ensures some { IfOk result (λ r. 0 < length r.files.now) }
    ensures few { IfOk result (λ r. length r.files.now ≤ greatest_files) }
{
    let Some((word, rest)) = split_word(words) else {
        return Err(1);
    };
    match word {
        "run" => with_files(1, Task::Run, rest),
        "compile" => compile_request(rest),
        _ => Err(1),
    }
}
