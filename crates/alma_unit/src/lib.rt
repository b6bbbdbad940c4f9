//! From the bytes of a source, and from the file that holds it, to its checked program.
#![tactic(auto)]

mod check;
mod unit;

pub use check::check_source;
pub use unit::{UnitError, read_unit};
