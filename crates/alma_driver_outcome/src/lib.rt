//! What a call of the program must come to, clause by clause, and what it tells of it.
#![tactic(auto)]

mod end;
pub mod laws;
mod showing;
mod writing;

pub use end::{Counts, End, end_of};
pub use showing::Showing;
pub use writing::report;
