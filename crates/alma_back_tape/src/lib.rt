//! A memory of the machine that goes back step by step, and takes no memory for that.
#![tactic(auto)]

mod backward;
mod change;
mod earlier;
mod forward;
mod frame;
mod frames;
mod journal;
mod keeping;
mod laying;
mod layout;
mod tape;

pub use tape::Tape;
