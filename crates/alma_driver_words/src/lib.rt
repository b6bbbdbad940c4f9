//! What the words of a call ask for, the source that `alma sample` is asked for, and the statuses
//! that calls answer.
#![tactic(auto)]

mod command;
pub mod exit;
pub mod laws;
mod number;
mod options;
mod sample;
mod sample_line;
mod setting;
mod words;

pub use number::numeral;
pub use options::DEFAULT_STEPS;
pub use sample::sample_source;
pub use setting::{is_name, steps_option};
pub use words::{Request, WordsError, file_word, is_file_name, read_words, split_word};
