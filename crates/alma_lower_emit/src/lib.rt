//! Code of phrases: expressions, tests and statements, which stand in each other.
#![tactic(auto)]

mod call;
mod case;
mod choice;
mod condition;
mod designator;
mod expression;
mod guarded;
mod inside;
mod leaf;
mod loops;
mod plain;
mod statement;
mod test;
mod walk;

pub use walk::emit_stmts;
