// A case: a call of the program, and what it must answer.
use crate::devices::Devices;
use crate::field::{CaseError, bytes, bytes_of, field, members, number, text_of, texts};
use alma_io::{MemFiles, MemSink};
use serde_json::Value;
use std::alloc::Global;

/// A call of the program.
#[derive(Drop)]
pub struct Call {
    /// The words behind the program's name.
    pub words: Vec<String>,
    pub files: MemFiles,
    pub input: Vec<u8>,
    pub devices: Devices,
}

/// What a call comes to.
#[derive(Drop)]
pub struct Answer {
    pub status: u8,
    pub out: MemSink,
    pub err: MemSink,
}

/// The call of a case.
pub fn read_call(alloc: Global, case: &Value) -> Result<Call, CaseError> {
    let devices = devices_of(alloc, case)?;
    Ok(Call {
        words: texts(alloc, case, "words")?,
        files: files_of(alloc, case, &devices)?,
        input: bytes(alloc, case, "input")?,
        devices,
    })
}

// How the devices move bytes, and which of their calls fail; without `devices`, none does.
fn devices_of(alloc: Global, case: &Value) -> Result<Devices, CaseError> {
    match case.get("devices") {
        Some(devices) => Devices::read(alloc, devices),
        None => Ok(Devices::sound(alloc)),
    }
}

// The files that are there.
fn files_of(alloc: Global, case: &Value, devices: &Devices) -> Result<MemFiles, CaseError> {
    let mut files = MemFiles::new(alloc, &devices.files)?;
    for (name, value) in members(case, "files")? {
        files.put(alloc, name, &bytes_of(alloc, value)?)?;
    }
    Ok(files)
}

/// The name of a case.
pub fn name_of(case: &Value) -> Result<&str, CaseError> {
    text_of(field(case, "name")?)
}

/// Whether an answer, and the files behind the call, are those that are wanted.
pub fn fits(
    alloc: Global,
    case: &Value,
    files: &MemFiles,
    answer: &Answer,
) -> Result<bool, CaseError> {
    let out = has_out(alloc, case, answer.out.bytes())?;
    let err = has_err(alloc, case, answer.err.bytes())?;
    let status = u64::from(answer.status) == number(case, "status")?;
    Ok(out && err && status && has_files(alloc, case, files)?)
}

// Whether this is printed on out. Lines that begin with `drop` are compared with nothing.
fn has_out(alloc: Global, case: &Value, out: &[u8]) -> Result<bool, CaseError> {
    let wanted = bytes(alloc, case, "out")?;
    match case.get("drop") {
        Some(front) => {
            let front = text_of(front)?.as_bytes();
            Ok(kept_lines(alloc, out, front)? == kept_lines(alloc, &wanted, front)?)
        }
        None => Ok(out == wanted.as_slice()),
    }
}

// The lines that do not begin so.
fn kept_lines(alloc: Global, text: &[u8], front: &[u8]) -> Result<Vec<u8>, CaseError> {
    let mut kept = Vec::new(alloc);
    for line in text.split_inclusive(|byte| *byte == b'\n') {
        if !line.starts_with(front) {
            kept.extend_from_slice(line)?;
        }
    }
    Ok(kept)
}

// Whether this is told on err. With `err_tail` only the end of it is compared.
fn has_err(alloc: Global, case: &Value, err: &[u8]) -> Result<bool, CaseError> {
    let wanted = bytes(alloc, case, "err")?;
    match case.get("err_tail") {
        Some(Value::Bool(true)) => Ok(err.ends_with(&wanted)),
        Some(Value::Bool(false)) | None => Ok(err == wanted.as_slice()),
        Some(_) => Err(CaseError::Form),
    }
}

// Whether each file of `behind` has the bytes that it must have behind the call, or is not there
// where it says null.
fn has_files(alloc: Global, case: &Value, files: &MemFiles) -> Result<bool, CaseError> {
    if case.get("behind").is_none() {
        return Ok(true);
    }
    for (name, value) in members(case, "behind")? {
        if !has_file(alloc, files.get(name), value)? {
            return Ok(false);
        }
    }
    Ok(true)
}

fn has_file(alloc: Global, file: Option<&[u8]>, value: &Value) -> Result<bool, CaseError> {
    if matches!(value, Value::Null) {
        return Ok(file.is_none());
    }
    let wanted = bytes_of(alloc, value)?;
    Ok(file == Some(wanted.as_slice()))
}
