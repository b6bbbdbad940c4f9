//! Modules that were checked apart, joined to one program: its definition, its laws, its code.
#![tactic(auto)]

mod bare;
mod directory;
mod error;
mod head;
mod import;
pub mod laws;
mod part;
mod program;
mod size;

pub use error::JoinError;
pub use program::join;
