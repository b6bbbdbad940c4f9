//! What the top calls of all programs share: how a call may go within its scope, what its status
//! tells, and how its end is reported; plans of what is read, each of which is a scope; and programs
//! as parts of plans: a file that holds a source, and the run or the object of a program.
#![tactic(auto)]

mod end;
pub mod laws;
mod open;
mod refusal;
mod run;
mod source;
mod stop;
mod store;
mod telling;
mod words;
mod writing;

pub use end::ProgramEnd;
pub use open::open_code;
pub use refusal::{Refusal, refuse};
pub use run::run_program;
pub use source::{FileStop, tell_file};
pub use stop::Stop;
pub use store::store_program;
pub use telling::{tell_fault, tell_program, tell_refusal, tell_steps_out, tell_too_much_code};
pub use words::bad_file;
pub use writing::{report, tell_line, tell_number, write_text};
