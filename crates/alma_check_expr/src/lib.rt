//! What one constant or type expression alone is, in the environment that a reader holds.
// The line #![tactic(auto)] of every crate, with lemmas for all functions of this one.
#![tactic(auto, using(std::proofs::lemmas::Grind::common_steps))]

mod phrase;

pub use alma_check_block::fits;
pub use alma_check_rules::Env;
pub use alma_rules::CheckError;
pub use phrase::{const_value, shape_of};
