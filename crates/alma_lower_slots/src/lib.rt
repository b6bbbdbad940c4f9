//! The code of a program with fewer slots: temporaries share them.
#![tactic(auto)]

mod apart;
mod check;
mod close;
mod find;
mod flow;
mod head;
mod heads;
mod instrs;
pub mod laws;
mod lookups;
mod marks;
mod matters;
mod names;
mod rename;
mod routines;
mod share;
mod sources;
mod spans;
mod stretch;
mod units;
mod uses;

pub use share::share_slots;
pub use stretch::{KEPT, Stretch};
