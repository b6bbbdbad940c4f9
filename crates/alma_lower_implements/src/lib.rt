//! What it is that code implements a program, and the relation between events and runs that shows
//! it.
#![tactic(auto)]

pub mod laws;
