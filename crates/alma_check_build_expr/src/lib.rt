//! Expressions of the resolved program, put together of checked parts.
// The line #![tactic(auto)] of every crate, with lemmas for all functions of this one.
#![tactic(auto, using(crate::proofs::Steps::steps, std::proofs::lemmas::Grind::common_steps))]

mod chain;
mod expression;
mod relation;

pub use chain::{
    add_operator, alone, any_and, any_or, behind, chained_in, first_add, first_mul, mul_operator,
    no_constant_sum, with_operand,
};
pub use expression::{
    argument, as_callee, as_located, as_test, as_typed, as_value, call, character, chr, desig,
    integer, known, negate, ord, select_field, select_index, sequence, without_place,
};
pub use relation::relate;
