//! The exit statuses, as all programs answer them.

/// The program succeeded, or what was asked is done.
pub const SUCCEEDED: u8 = 0;

/// The program failed: no way is left to try.
pub const FAILED: u8 = 1;

/// The words are no request.
pub const BAD_WORD: u8 = 2;

/// A source is no program.
pub const REFUSED: u8 = 3;

/// The run stopped in a fault.
pub const FAULTED: u8 = 4;

/// All steps were made, and the run was not at its end.
pub const STEPS_OUT: u8 = 5;

/// A file is missing, or a fetch or a read of the input failed.
pub const READ_FAULT: u8 = 6;

/// A write or a store failed.
pub const WRITE_FAULT: u8 = 7;

/// Memory ran out.
pub const NO_MEMORY: u8 = 8;

/// Bytes are no object, or its code is not sound.
pub const BAD_OBJECT: u8 = 9;

/// A file or the input is past its greatest length.
pub const TOO_LONG: u8 = 10;

/// The size of the program is past the greatest.
pub const TOO_MUCH_CODE: u8 = 11;

/// A program refuses for a reason of its own, as a bad line of a script: each of the further
/// programs has one.
pub const OWN_REFUSAL: u8 = 13;
