//! Reading expressions, over a reader of the statements inside them; and the boxes, lists and steps
//! that reading statements takes too.
#![tactic(auto)]

mod expression;
mod leaf;
mod list;
mod node;
mod step;

pub use expression::{StmtsRead, args, desig, desig_value, expr, exprs};
pub use list::{boxed, present, pushed};
pub use step::open_after;
