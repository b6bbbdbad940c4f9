// Calls of the program over files, input and output in memory.
use crate::case::{Answer, Call, fits, read_call};
use crate::devices::Devices;
use crate::field::CaseError;
use alma_driver::alma;
use alma_io::{MemFiles, MemSink, MemSource};
use serde_json::Value;
use std::alloc::Global;

// Calls the program.
fn call(
    alloc: Global,
    words: &[String],
    files: &mut MemFiles,
    input: &[u8],
    devices: &Devices,
) -> Result<Answer, CaseError> {
    let piece = devices.piece.max(1);
    let mut input = MemSource::new(alloc, input, piece, &devices.input)?;
    let mut out = MemSink::new(alloc, devices.room, piece, &devices.out)?;
    let mut err = MemSink::new(alloc, devices.room, piece, &devices.err)?;
    let status = alma(alloc, words, files, &mut input, &mut out, &mut err).0;
    Ok(Answer { status, out, err })
}

/// Whether the program answers the call of a case as it must.
pub fn is_answered(alloc: Global, case: &Value) -> Result<bool, CaseError> {
    let Call {
        words,
        mut files,
        input,
        devices,
    } = read_call(alloc, case)?;
    let answer = call(alloc, &words, &mut files, &input, &devices)?;
    fits(alloc, case, &files, &answer)
}
