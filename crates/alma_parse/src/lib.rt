//! Reading a module: its types, its declarations, its body and its end.
#![tactic(auto)]

mod declarations;
mod ending;
mod entries;
mod error;
mod list;
mod parser;
mod types;
mod whole;

pub use declarations::block;
pub use error::ParseError;
pub use parser::parse;
pub use whole::module;
