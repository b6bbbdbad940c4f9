//! The machine: one step, and runs of many.
#![tactic(auto)]

mod dispatch;
mod machine;
mod quick;
mod quick_act;
mod quick_calls;
mod quick_cells;
mod quick_record;

pub use alma_code::{End, Step};
pub use alma_machine_acts::CodeView;
pub use machine::{Machine, RunEnd, advance};
