// The devices of a call.
use crate::field::{CaseError, number, push_numbers};
use serde_json::Value;
use std::alloc::Global;

/// The most bytes that a call may print.
const ROOM: usize = 1_048_576;

/// How the devices of a call move bytes, and which of their calls fail, counted from 1.
#[derive(Drop)]
pub struct Devices {
    /// The most bytes that one call of the input, of out or of err moves, at least 1.
    pub piece: usize,
    /// The most bytes that out and err take.
    pub room: usize,
    pub files: Vec<u64>,
    pub input: Vec<u64>,
    pub out: Vec<u64>,
    pub err: Vec<u64>,
}

impl Devices {
    /// Devices of which no call fails, and each moves all that it may.
    pub fn sound(alloc: Global) -> Devices {
        Devices {
            piece: ROOM,
            room: ROOM,
            files: Vec::new(alloc),
            input: Vec::new(alloc),
            out: Vec::new(alloc),
            err: Vec::new(alloc),
        }
    }

    /// Devices as an object of a case tells them.
    pub fn read(alloc: Global, value: &Value) -> Result<Devices, CaseError> {
        let mut devices = Devices::sound(alloc);
        devices.piece = (number(value, "piece")? as usize).max(1);
        push_numbers(&mut devices.files, value, "files")?;
        push_numbers(&mut devices.input, value, "input")?;
        push_numbers(&mut devices.out, value, "out")?;
        push_numbers(&mut devices.err, value, "err")?;
        Ok(devices)
    }
}
