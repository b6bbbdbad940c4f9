//! The text of code, and words of a line.
#![tactic(auto)]

mod form;
mod line;
mod listing;

pub use line::{push_next, push_number, push_word};
pub use listing::list_text;
