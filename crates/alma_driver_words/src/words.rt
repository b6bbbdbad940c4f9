// The words of a call.
ghost use Rattle.std.specs.Prelude.{◌≡◌, ◌∷◌, [], codes, MatchOption};
ghost use Rattle.alma_driver_words.specs.Words.{Reads, texts, file_of, IsFileName, is_file_name as is_file_name_of};
ghost use Rattle.alma_driver_words.specs.Inner.Names.{LacksName, ReadsOne};

use crate::command::{Command, command_of};
use crate::number::named_lines;
use crate::options::{Allowance, read_options};
use alma_base::NoMemory;
use std::alloc::Global;

/// The greatest number of names that words watch.
const GREATEST_WATCHES: usize = 8;

/// What the options of `run` and `exec` may be.
const RUN_OPTIONS: Allowance = Allowance {
    stats: true,
    watches: 0,
};

/// What the options of `trace` may be.
const TRACE_OPTIONS: Allowance = Allowance {
    stats: false,
    watches: GREATEST_WATCHES,
};

/// What the words ask for.
#[derive(Drop)]
pub enum Request<'w> {
    /// `check FILE`: whether the source of this name has a fault.
    Check(&'w str),
    /// `compile FILE OUT`: stores the object of the source of the first name under the second.
    Compile(&'w str, &'w str),
    /// `list OBJ`: prints the text that lists the object of this name.
    List(&'w str),
    /// `run FILE`: runs the source of this name for so many steps at most, with a line of
    /// statistics where that is asked for.
    Run(&'w str, u64, bool),
    /// `exec OBJ`: runs the object of this name, as `run` does.
    Exec(&'w str, u64, bool),
    /// `trace FILE`: traces the run of the source of this name for so many steps at most, and
    /// watches variables of these names.
    Trace(&'w str, u64, Vec<&'w str>),
    /// `sample NUMBER`: makes a source of so many lines and runs it.
    Sample(u32),
}

/// Why words are no request.
#[derive(Clone, Copy)]
pub enum WordsError {
    /// The first word, from 1, that cannot stand where it is, or one more than there are.
    Bad(usize),
    /// Memory ran out.
    Memory,
}

impl From<NoMemory> for WordsError {
    ghost use Rattle.std.specs.Prelude.{◌≡◌};
    ghost use Rattle.alma_driver_words.specs.declared.words.WordsError.TheVariants.{Memory};

    ghost from_gives = { λ _ error. error ≡ Memory };

    fn from(_: NoMemory) -> Self {
        WordsError::Memory
    }
}

/// Whether a word may name a file: it is not empty, and `-` is not its first byte.
pub fn is_file_name(word: &str) -> bool
    ensures { result ≡ is_file_name_of word.now }
{
    match word.as_bytes() {
        [byte, ..] => *byte != b'-',
        [] => false,
    }
}

/// The first word and the rest.
pub fn split_word(words: &[String]) -> Option<(&str, &[String])>
    ensures { MatchOption result (texts words.now ≡ []) (λ split. texts words.now ≡ split.0.now
        ∷ texts split.1.now) }
{
    match words {
        [first, rest @ ..] => Some((first.as_str(), rest)),
        [] => None,
    }
}

// The name of a file in front, and the rest.
fn split_name(words: &[String]) -> Option<(&str, &[String])>
    ensures { MatchOption result (LacksName (texts words.now)) (λ split. (texts words.now
        ≡ split.0.now ∷ texts split.1.now) × IsFileName split.0.now) }
{
    let (name, rest) = split_word(words)?;
    if is_file_name(name) {
        Some((name, rest))
    } else {
        None
    }
}

// The one name behind `check` or `list`.
fn read_one(names: &[String]) -> Result<&str, WordsError>
    ensures { ReadsOne (texts names.now) result }
{
    let Some((name, more)) = split_name(names) else {
        return Err(WordsError::Bad(2));
    };
    match split_word(more) {
        None => Ok(name),
        Some((_word, _rest)) => Err(WordsError::Bad(3)),
    }
}

// The request to check a source, by the words behind the command.
fn read_check(names: &[String]) -> Result<Request<'_>, WordsError>
    ensures { Reads (codes "check" ∷ texts names.now) result }
{
    Ok(Request::Check(read_one(names)?))
}

// The request to list an object, by the words behind the command.
fn read_list(names: &[String]) -> Result<Request<'_>, WordsError>
    ensures { Reads (codes "list" ∷ texts names.now) result }
{
    Ok(Request::List(read_one(names)?))
}

// The request to compile a source, by the words behind the command.
fn read_compile(names: &[String]) -> Result<Request<'_>, WordsError>
    ensures { Reads (codes "compile" ∷ texts names.now) result }
{
    let Some((name, behind)) = split_name(names) else {
        return Err(WordsError::Bad(2));
    };
    let Some((object, more)) = split_name(behind) else {
        return Err(WordsError::Bad(3));
    };
    match split_word(more) {
        None => Ok(Request::Compile(name, object)),
        Some((_word, _rest)) => Err(WordsError::Bad(4)),
    }
}

// The request to run a source, by the words behind the command.
fn read_run(alloc: Global, names: &[String]) -> Result<Request<'_>, WordsError>
    ensures { Reads (codes "run" ∷ texts names.now) result }
{
    let Some((name, words)) = split_name(names) else {
        return Err(WordsError::Bad(2));
    };
    let options = read_options(alloc, RUN_OPTIONS, words)?;
    Ok(Request::Run(name, options.step_limit(), options.stats))
}

// The request to run an object, by the words behind the command.
fn read_exec(alloc: Global, names: &[String]) -> Result<Request<'_>, WordsError>
    ensures { Reads (codes "exec" ∷ texts names.now) result }
{
    let Some((object, words)) = split_name(names) else {
        return Err(WordsError::Bad(2));
    };
    let options = read_options(alloc, RUN_OPTIONS, words)?;
    Ok(Request::Exec(object, options.step_limit(), options.stats))
}

// The request to trace a source, by the words behind the command.
fn read_trace(alloc: Global, names: &[String]) -> Result<Request<'_>, WordsError>
    ensures { Reads (codes "trace" ∷ texts names.now) result }
{
    let Some((name, words)) = split_name(names) else {
        return Err(WordsError::Bad(2));
    };
    let options = read_options(alloc, TRACE_OPTIONS, words)?;
    Ok(Request::Trace(name, options.step_limit(), options.watch))
}

// The request for a sample, by the words behind the command.
fn read_sample(words: &[String]) -> Result<Request<'_>, WordsError>
    ensures { Reads (codes "sample" ∷ texts words.now) result }
{
    let Some((digits, more)) = split_word(words) else {
        return Err(WordsError::Bad(2));
    };
    let Some(lines) = named_lines(digits) else {
        return Err(WordsError::Bad(2));
    };
    match split_word(more) {
        None => Ok(Request::Sample(lines)),
        Some((_word, _rest)) => Err(WordsError::Bad(3)),
    }
}

/// The second word, which names the file of a refusal; empty where there is none.
pub fn file_word(words: &[String]) -> &str
    ensures { result.now ≡ file_of (texts words.now) }
{
    match words {
        [_, file, ..] => file.as_str(),
        _ => "",
    }
}

/// The request that the words are. They are those behind the program's name.
pub fn read_words(alloc: Global, words: &[String]) -> Result<Request<'_>, WordsError>
    ensures { Reads (texts words.now) result }
{
    let Some((word, names)) = split_word(words) else {
        return Err(WordsError::Bad(1));
    };
    let Some(command) = command_of(word) else {
        return Err(WordsError::Bad(1));
    };
    match command {
        Command::Check => read_check(names),
        Command::Compile => read_compile(names),
        Command::List => read_list(names),
        Command::Run => read_run(alloc, names),
        Command::Exec => read_exec(alloc, names),
        Command::Trace => read_trace(alloc, names),
        Command::Sample => read_sample(names),
    }
}
