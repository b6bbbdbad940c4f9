//! What every layer speaks of: faults, places, values and the numbers of the language.
#![tactic(auto)]

mod fault;
pub mod laws;
mod limit;
mod number;
mod place;
mod reading;
mod value;

pub use fault::{CheckFault, LexFault, NoMemory, RunFault, SyntaxFault};
pub use limit::{
    CELL_LIMIT, DEPTH_LIMIT, FRAME_LIMIT, INPUT_LIMIT, INSTR_LIMIT, OBJECT_LIMIT, POOL_LIMIT,
    RECORD_LIMIT, ROUTINE_LIMIT, ROUTINE_SLOT_LIMIT, SIZE_LIMIT, SLOT_LIMIT, SOURCE_LIMIT,
};
pub use number::{Range, ReadInt, div_down, mod_down};
pub use place::{Place, Status};
pub use reading::{is_blank, is_digit, read_int};
pub use value::{Value, write_value};
