//! What each form of instruction does to registers and memory.
#![tactic(auto)]

pub mod calls;
mod cells;
pub mod choices;
mod codes;
mod control;
pub mod copies;
mod equations;
pub mod input;
mod links;
mod numbers;
pub mod output;
mod places;
mod registers;

pub use codes::CodeView;
pub use places::Spot;
pub use registers::{Mode, Registers};
