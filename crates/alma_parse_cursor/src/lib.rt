//! Where the parser stands in the tokens, its single steps, and which form of a phrase the next
//! token begins.
#![tactic(auto)]

mod cursor;
mod fault;
mod form;
mod join;

pub use cursor::Cursor;
pub use fault::Fault;
pub use form::{
    DeclForm, PlainForm, PrimaryForm, SelectorForm, StmtForm, add_operator, begins_expr, decl_form,
    mode, mul_operator, plain_form, primary_form, relation, selector_form, sign, stmt_form,
};
pub use join::{followed_by, numbered};
