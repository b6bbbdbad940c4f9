//! Types, constants and the declarations of a block, and the first rule that is broken in them.
// The line #![tactic(auto)] of every crate, with lemmas for all functions of this one.
#![tactic(auto, using(alma_check_type::proofs::Tells::steps, std::proofs::lemmas::Grind::common_steps))]

mod compatible;
mod constant;
mod decls;
mod entry;
mod formal;
mod frame;
mod heading;
mod names;
mod open;
mod type_node;
mod variable;

pub use compatible::fits;
pub use constant::read_constant;
pub use decls::read_decls;
pub use frame::{Frame, new_frame};
pub use heading::{Headed, read_heading};
pub use open::{count_routines, open_block};
pub use type_node::read_type;
