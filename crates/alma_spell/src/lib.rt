//! A tree spelled as the kinds of its tokens.
#![tactic(auto)]

mod module;
mod phrase;
mod type_node;
mod word;

pub use module::spell;
