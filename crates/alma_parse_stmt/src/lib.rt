//! Reading statements.
#![tactic(auto)]

mod control;
mod head;
mod node;
mod phrase;
mod simple;
mod statement;

pub use phrase::{expr, stmts};
