//! The memory of the machine: a stack of whole copies of the frames, kept as one store that goes
//! back.
#![tactic(auto)]

mod late_carry;
pub mod laws;
mod machine_memory;
mod memory;
mod stack;

pub use alma_base::NoMemory;
pub use alma_code::{Cell, CellPlace, ChoiceKind, CodeParam, Head, ParamKind, Run, SlotKind};
pub use machine_memory::MachineMemory;
pub use memory::{EnterError, Memory, Resumed};
