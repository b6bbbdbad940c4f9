//! Laws of the code of a checked program: it is sound, and keeps the counts and records of an
//! object.
#![tactic(auto)]

pub mod laws;
