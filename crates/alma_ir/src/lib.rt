//! The resolved program: its phrases, its size, and how many statements and bytes of texts stand
//! inside a phrase.
#![tactic(auto)]

mod count;
mod inside;
mod phrase;
mod program;

pub use count::size;
pub use inside::{desig_inside, stmts_inside, text_bytes_inside};
pub use phrase::{
    Arg, Arm, Branch, Call, CaseArm, Cmp, Desig, Expr, Link, Loop, Op, ReadAs, Root, Sel, Stmt,
    Test, WriteAs,
};
pub use program::{ArgKind, Global, Param, Program, Routine};
