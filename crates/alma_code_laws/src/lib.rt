//! Laws of the copying machine: it is never stuck on sound code, and a failing branch gives back
//! all frames.
#![tactic(auto)]

mod laws;
pub mod undo;

pub use laws::{never_stuck, sound_where_no_fault, start_fits, step_fits};
