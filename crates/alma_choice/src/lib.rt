//! The instructions and slots of a code in the making, and the pieces that choices are made of.
#![tactic(auto)]

mod emit;

pub use emit::Emit;
