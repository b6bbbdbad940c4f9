//! A run that is walked both ways: a script makes steps and takes them back.
#![tactic(auto)]

mod back;
pub mod laws;
mod main_call;
mod script;
mod serve;
mod show;
mod stop;
mod walk;

pub use back::Back;
pub use main_call::back_main;
