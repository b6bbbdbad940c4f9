//! Where the parts of a module begin, by the numbers of their tokens.
#![tactic(auto)]

mod declaration;
mod expression;
mod form;
mod mark;
mod statement;
mod type_node;
mod widths;

pub use declaration::first_token_of;
pub use expression::mark_expr;
pub use mark::{Mark, Marks};
pub use widths::{
    first_token_in_expr, first_token_in_type, statement_tokens, width_of_expr, width_of_type,
};
