//! The concrete tree of a source: what it is made of, and the kinds of the tokens that it stands
//! for.
#![tactic(auto)]

mod bracket;
mod kind;
mod leaf;
mod module;
mod phrase;
mod type_node;

pub use bracket::depth;
pub use kind::Kind;
pub use leaf::{AddOperator, Leaf, Mode, MulOperator, Name, Names, Relation, Sign};
pub use module::{Block, ConstEntry, Decl, Formal, Formals, Module, Params, TypeEntry, VarEntry};
pub use phrase::{
    AddLink, Args, Arm, Compared, Desig, Elsif, Expr, Exprs, Factor, Label, MulLink, Primary,
    Selector, Simple, Stmt, Stmts, Term,
};
pub use type_node::{Arrays, Dimensions, FieldList, PlainType, TypeNode};
