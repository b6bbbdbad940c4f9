//! Verdicts on expressions, of the verdicts on their parts.
#![tactic(auto)]

mod chain;
mod expression;
mod look;

pub use chain::{join_product, join_sum};
pub use expression::{
    check_found, check_literal, check_number, join_argument, join_array, join_call, join_callee,
    join_chr, join_desig, join_factor, join_field, join_index, join_known, join_not, join_ord,
    join_parens, join_relation, join_sequence, join_value,
};
pub use look::{argument_kind, formal_of, item_text};
