//! Laws of runs: what so many steps of compiled code show, in words of the program's meaning.
#![tactic(auto)]

pub mod laws;
