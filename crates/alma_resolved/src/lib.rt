//! Laws of resolved programs: numbers of nodes, kept rules, what a checked program holds, limits.
#![tactic(auto)]

pub mod conditions;
pub mod laws;
pub mod limits;
mod numbers;

pub use numbers::{one_numbered_tree, one_tree_of_a_spelling};
