//! What a source is: the program that it spells, or the fault for which it is refused.
#![tactic(auto)]

mod fault;
pub mod laws;
mod stop;

pub use fault::SourceFault;
pub use stop::SourceStop;
