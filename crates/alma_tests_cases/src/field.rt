// The fields of a JSON object, by their names.
use alma_base::NoMemory;
use hex::FromHexError;
use serde_json::{Map, Value};
use std::alloc::{AllocError, AllocFailed, Global};
use thiserror::Error;

/// Why a case was not run.
#[derive(Clone, Copy, Debug, Error)]
pub enum CaseError {
    #[error("a field is missing, or of another form")]
    Form,
    #[error("out of memory")]
    Memory,
}

impl From<NoMemory> for CaseError {
    fn from(_: NoMemory) -> CaseError {
        CaseError::Memory
    }
}

impl From<AllocError> for CaseError {
    fn from(_: AllocError) -> CaseError {
        CaseError::Memory
    }
}

impl<T: Drop> From<AllocFailed<T>> for CaseError {
    fn from(_: AllocFailed<T>) -> CaseError {
        CaseError::Memory
    }
}

impl From<FromHexError> for CaseError {
    fn from(error: FromHexError) -> CaseError {
        match error {
            FromHexError::OutOfMemory => CaseError::Memory,
            _ => CaseError::Form,
        }
    }
}

/// The text of a value.
pub fn text_of(value: &Value) -> Result<&str, CaseError> {
    value.as_str().ok_or(CaseError::Form)
}

/// A field that must be there.
pub fn field<'v>(value: &'v Value, name: &str) -> Result<&'v Value, CaseError> {
    value.get(name).ok_or(CaseError::Form)
}

/// The members of a field that holds an object.
pub fn members<'v>(value: &'v Value, name: &str) -> Result<&'v Map<String, Value>, CaseError> {
    field(value, name)?.as_object().ok_or(CaseError::Form)
}

/// The number of a field.
pub fn number(value: &Value, name: &str) -> Result<u64, CaseError> {
    field(value, name)?.as_u64().ok_or(CaseError::Form)
}

/// The bytes of a value: a text has them in hexadecimal, a list has objects with such `bytes` and
/// how many `times` they stand there.
pub fn bytes_of(alloc: Global, value: &Value) -> Result<Vec<u8>, CaseError> {
    match value.as_array() {
        Some(parts) => repeated(alloc, parts),
        None => decoded(alloc, value),
    }
}

fn decoded(alloc: Global, value: &Value) -> Result<Vec<u8>, CaseError> {
    Ok(hex::decode(alloc, text_of(value)?.as_bytes())?)
}

fn repeated(alloc: Global, parts: &[Value]) -> Result<Vec<u8>, CaseError> {
    let mut bytes = Vec::new(alloc);
    for part in parts {
        let piece = decoded(alloc, field(part, "bytes")?)?;
        for _ in 0..number(part, "times")? {
            bytes.extend_from_slice(&piece)?;
        }
    }
    Ok(bytes)
}

/// The bytes of a field.
pub fn bytes(alloc: Global, value: &Value, name: &str) -> Result<Vec<u8>, CaseError> {
    bytes_of(alloc, field(value, name)?)
}

/// The texts of a field that holds a list of them.
pub fn texts(alloc: Global, value: &Value, name: &str) -> Result<Vec<String>, CaseError> {
    let items = field(value, name)?.as_array().ok_or(CaseError::Form)?;
    let mut texts = Vec::new(alloc);
    for item in items {
        texts.push(String::from_str(alloc, text_of(item)?)?)?;
    }
    Ok(texts)
}

/// Adds the numbers of a field that holds a list of them; none without the field.
pub fn push_numbers(numbers: &mut Vec<u64>, value: &Value, name: &str) -> Result<(), CaseError> {
    if let Some(list) = value.get(name) {
        for item in list.as_array().ok_or(CaseError::Form)? {
            numbers.push(item.as_u64().ok_or(CaseError::Form)?)?;
        }
    }
    Ok(())
}
