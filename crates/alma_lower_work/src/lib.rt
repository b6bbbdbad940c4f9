//! The work of the emitter: code in the making, the scene of a routine, and the single instructions
//! of values and places.
#![tactic(auto)]

mod field;
mod first_operand;
mod held;
mod inequality;
mod place;
mod scene;
mod simple;
mod stand;
mod straight;
mod turned;
mod value;
mod work;

pub use first_operand::{FirstOperand, Taken, own_first, put_at, stay_at, taken_by};
pub use held::{hold_at, own_place, own_root};
pub use inequality::{put_unequal, unequal};
pub use place::{put_links, put_root};
pub use scene::Scene;
pub use simple::is_simple;
pub use stand::{Stand, own_stand, own_value};
pub use straight::{constant, ends_alone, is_straight, straight_slot};
pub use turned::{put_back, turned_test};
pub use value::{
    op_instr, put_cmp, put_fit, put_function, put_neg, put_result_fit, put_truth, read_instr,
    write_instr,
};
pub use work::{Work, slot_of};
