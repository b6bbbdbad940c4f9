//! The tables of a checker: the shapes of types, and the scopes of names.
#![tactic(auto)]

mod block;
mod index;
mod scopes;
mod shapes;

pub use block::{Access, Entry};
pub use scopes::{DeclareError, Id, Scopes};
pub use shapes::{BOOLEAN, CHAR, FieldOf, INTEGER, Shape, ShapeError, ShapeId, Shapes};
