//! Checking a module: its routines, their bodies, and the resolved program.
#![tactic(auto)]

mod body;
mod checked;
mod line;
mod module;
mod routine;

pub use body::Site;
pub use checked::Checked;
pub use line::Lines;
pub use module::check;
