//! The format of objects: header, records, instructions, sections.
#![tactic(auto)]

mod bytes;
mod fault;
mod header;
mod instr;
pub mod kinds;
mod lengths;
pub mod offsets;
pub mod opcode;
mod record;
mod walk;

pub use bytes::{i64_at, push_i64, push_words, u32_at};
pub use fault::ObjectFault;
pub use header::{Header, MAGIC, read_header};
pub use instr::{instr_at, push_instr};
pub use lengths::{GLOBAL_LEN, INSTR_LEN, LINE_LEN, PARAM_LEN, RANGE_LEN, ROUTINE_LEN, RUN_LEN};
pub use record::{line_in, param_in, range_in, run_in};
pub use walk::{
    code_end, code_start, name_end, name_start, params_end, params_start, runs_end, runs_start,
    sections_fault, text_end, text_start,
};
