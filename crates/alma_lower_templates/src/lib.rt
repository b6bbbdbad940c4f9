//! The code that is made of each phrase of a resolved program, as definitions.
#![tactic(auto)]

pub mod laws;
