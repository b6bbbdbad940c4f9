//! Checking types: names that are looked up, shapes, fields, subranges.
// The line #![tactic(auto)] of every crate, with lemmas for all functions of this one.
#![tactic(auto, using(crate::proofs::Tells::steps, std::proofs::lemmas::Grind::common_steps))]

mod block;
mod field;
mod join;
mod listed;
mod name;
mod reader;
mod reading;
mod shape;
mod subrange;

pub use block::{Around, with_name};
pub use field::{Fields, join_fields, join_record, no_fields};
pub use join::{join_index, join_type, plain_node};
pub use listed::{last_token, read_listed, redeclared};
pub use name::{read_named, read_type_name};
pub use reader::Reader;
pub use reading::{Bound, BrokenRule, Reading, ShapeOrLimit, earlier};
pub use subrange::join_subrange;
