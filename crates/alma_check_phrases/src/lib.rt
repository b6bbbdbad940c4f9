//! Checking expressions and statements, which stand in each other.
#![tactic(auto)]

mod assign;
mod branch;
mod call;
mod case;
mod choice;
mod designator;
mod expression;
mod input;
mod parens;
mod sequence;
mod turns;
mod walk;

pub use expression::StmtsJudged;
pub use walk::{check_expr, check_stmts};
