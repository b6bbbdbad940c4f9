//! The scanner: from the bytes of a source to its tokens, or to its first lexical fault.
#![tactic(auto)]

mod byte;
mod front;
mod gap;
pub mod laws;
mod line;
mod scanner;
mod spelling;

pub use line::place;
pub use scanner::{LexStop, ScanError, Scanner, Token, scan};
