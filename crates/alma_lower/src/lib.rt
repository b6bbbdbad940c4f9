//! A resolved program as code.
#![tactic(auto)]

mod compiled;
mod heads;
mod lowering;
mod routine;
mod routines;

pub use lowering::{LowerError, lower};
pub use routines::Routines;
