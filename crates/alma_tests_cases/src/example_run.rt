// One example: it is run on the input that lies beside it, and what it prints is compared with what
// it must.
use crate::example::{EXAMPLE_LIMIT, Example, read_example};
use crate::field::CaseError;
use alma_driver::alma;
use alma_io::{Files, MemSink, MemSource, Sink};
use std::alloc::Global;

/// The status of the example of this name in the folder `examples`, and whether it prints what it
/// must.
pub fn run_example<F: Files, E: Sink>(
    alloc: Global,
    files: &mut F,
    err: &mut E,
    name: &str,
) -> Result<(u8, bool), CaseError> {
    let path = format!(in alloc; "examples/{name}")?;
    let Example {
        words,
        input,
        wanted,
    } = read_example(alloc, files, &path)?;
    let mut input = MemSource::new(alloc, &input, 4096, &[])?;
    let mut out = MemSink::new(alloc, EXAMPLE_LIMIT, EXAMPLE_LIMIT, &[])?;
    let status = alma(alloc, &words, files, &mut input, &mut out, err).0;
    Ok((status, out.bytes() == wanted.as_slice()))
}
