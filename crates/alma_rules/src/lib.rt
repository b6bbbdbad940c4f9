//! The rules that a program keeps, and the judgement of each phrase.
#![tactic(auto)]

mod error;

pub use error::{CheckError, Stop};
