//! A copy of phrases, with slots and routines numbered anew, and the laws of new numbers.
#![tactic(auto)]

mod copy;
pub mod laws;
mod parts;

pub use copy::{Moves, copy_global, copy_routine, copy_stmts};
