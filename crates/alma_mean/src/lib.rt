//! The meaning of resolved programs: definitions, and the laws that hold of them.
#![tactic(auto)]

pub mod laws;
pub mod worked;
