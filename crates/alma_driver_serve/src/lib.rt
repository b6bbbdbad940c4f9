//! The requests of the program, each served.
#![tactic(auto)]

mod compile;
mod exec;
mod input;
mod list;
mod load;
mod request;
mod run;
mod sample;
mod serve;
mod source;
mod trace;

pub use serve::perform;
