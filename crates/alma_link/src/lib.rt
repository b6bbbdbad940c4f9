//! Modules that were checked apart: they are joined to one program, which is run, or whose object
//! is stored.
#![tactic(auto)]

pub mod laws;
mod main_call;
mod serve;
mod stop;
mod words;

pub use alma_join::{JoinError, join};
pub use alma_unit::{UnitError, read_unit};
pub use main_call::link;
