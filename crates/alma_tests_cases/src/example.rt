// An example: a program in a file, with its input and what it must print beside it.
use crate::field::CaseError;
use alma_io::Files;
use std::alloc::Global;

/// The most bytes of an input, and of what an example prints.
pub const EXAMPLE_LIMIT: usize = 65_536;

/// How an example is run, and what it must print.
#[derive(Drop)]
pub struct Example {
    /// The words `run NAME.al`.
    pub words: Vec<String>,
    pub input: Vec<u8>,
    pub wanted: Vec<u8>,
}

/// The example of this name: its input lies in `NAME.in`, and is empty where there is none; what it
/// must print, in `NAME.out`.
pub fn read_example<F: Files>(
    alloc: Global,
    files: &mut F,
    name: &str,
) -> Result<Example, CaseError> {
    let mut words = Vec::new(alloc);
    words.push(String::from_str(alloc, "run")?)?;
    words.push(format!(in alloc; "{name}.al")?)?;
    Ok(Example {
        words,
        input: beside(alloc, files, name, ".in")?,
        wanted: beside(alloc, files, name, ".out")?,
    })
}

// What lies under a name with an ending; nothing where there is no such file.
fn beside<F: Files>(
    alloc: Global,
    files: &mut F,
    name: &str,
    ending: &str,
) -> Result<Vec<u8>, CaseError> {
    let file = format!(in alloc; "{name}{ending}")?;
    match files.fetch(alloc, &file, EXAMPLE_LIMIT) {
        Ok(bytes) => Ok(bytes),
        Err(_absent) => Ok(Vec::new(alloc)),
    }
}
