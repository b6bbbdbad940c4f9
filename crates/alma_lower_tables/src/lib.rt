//! Tables of a code beside its instructions: the ranges and texts that are gathered before code is
//! made, the kinds of slots and their runs, parameters, variables and lines.
#![tactic(auto)]

mod entry;
mod kinds;
mod numbers;
mod program;
mod tables;
mod walk;

pub use entry::is_whole;
pub use kinds::{LINK_LEVEL, own_kinds, runs_of};
pub use numbers::Numbers;
pub use program::gather;
pub use tables::{globals_of, instrs_of, lines_of, params_of};
