//! Every alternative of a program, with the values of its variables.
#![tactic(auto)]

pub mod laws;
mod main_call;
mod serve;
mod stop;
mod words;

pub use alma_listing::{ListingError, listing_program};
pub use main_call::all;
