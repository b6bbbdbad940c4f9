//! Objects: written, and read as a view of their bytes.
#![tactic(auto)]

pub mod laws;
mod record;
mod routine;
mod view;
mod writing;

pub use alma_object_format::ObjectFault;
pub use record::InstrRecord;
pub use routine::RoutineView;
pub use view::{GlobalView, ObjectView};
pub use writing::encode;
