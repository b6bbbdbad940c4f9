//! The program that lists every alternative of another, and the laws that hold of it.
#![tactic(auto)]

pub mod laws;
mod procedure;
mod program;
mod returns;

pub use program::{ListingError, listing_program};
