//! The code of a program: cells and frames, heads of routines, instructions, and the copying code
//! machine.
#![tactic(auto)]

mod cell;
mod code;
mod head;
mod instr;
mod step;

pub use cell::{Cell, CellPlace, ChoiceKind, SlotKind};
pub use code::{Code, CodeGlobal, FIRST_VERSION, LATEST_VERSION, Line, RoutineHead};
pub use head::{CodeParam, Head, ParamKind, Run};
pub use instr::{Instr, Word};
pub use step::{End, NO_CASE, NO_RETURN, Step, VerifyFault};
