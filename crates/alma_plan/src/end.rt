// How the run of a program ends, or the storing of its object.
use crate::stop::Stop;
use alma_code::End;

/// How the run of a program ends, or the storing of its object, but for what becomes of its text on
/// err.
#[derive(Clone, Copy)]
pub enum ProgramEnd {
    /// The run ended, at this line of the source; 0 where none is known.
    Ended(End, u32),
    /// The object is stored.
    Stored,
    /// All steps were made, and the run was not at its end.
    StepsOut,
    /// The size of the program, which is past the greatest.
    TooMuchCode(u64),
    /// What stops any call.
    Stopped(Stop),
}
