//! The tracer: a line for each choice, failure, cut, call, return and print, and for the end.
#![tactic(auto)]

pub mod laws;
mod line;
mod resolve;
mod step;
mod tracer;
mod watch;

pub use line::put_number;
pub use resolve::{push_named, watches};
pub use tracer::trace;
pub use watch::Watch;
