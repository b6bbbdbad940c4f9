//! Programs that take turns: a letter of a file gives one of them one step.
#![tactic(auto)]

pub mod laws;
mod main_call;
mod open;
mod play;
mod pool;
mod serve;
mod show;
mod stop;
mod turns;

pub use main_call::pool_main;
pub use pool::Pool;
