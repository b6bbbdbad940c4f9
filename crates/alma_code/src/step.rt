// What a step answers, how a run ends, and which rule a code breaks.
use alma_base::RunFault;

/// The number of the fault NoCase, among all run faults from 0 on: the word of `Instr::Fault` where
/// no arm of a CASE is for the value.
pub const NO_CASE: u32 = 5;

/// The number of the fault NoReturn: the word of `Instr::Fault` where a function ends and has
/// returned nothing.
pub const NO_RETURN: u32 = 6;

/// How a run ends.
#[derive(Clone, Copy, Debug, PartialEq, Eq)]
pub enum End {
    Succeeded,
    Failed,
    Fault(RunFault),
}

/// What a step did.
#[derive(Clone, Copy, Debug, PartialEq, Eq)]
pub enum Step {
    /// Nothing that is told.
    Went,
    /// Pushed a choice entry; the height after it.
    Chose(usize),
    /// Failed back to the top entry; the height before it.
    Popped(usize),
    /// Dropped choice entries; the height after it.
    Cut(usize),
    /// Entered a routine, which is the first number; how many frames live after it.
    Called(u32, u32),
    /// Left a routine; how many frames live after it.
    Returned(u32),
    /// Printed bytes, or a text of none.
    Printed,
    /// Ended the run, or found it ended.
    Done(End),
}

/// The first broken rule, from 1 to 12, and the routine (for 1 to 3) or the address where it is
/// broken.
#[derive(Clone, Copy, Debug, PartialEq, Eq)]
pub struct VerifyFault {
    pub rule: u8,
    pub at: u32,
}
