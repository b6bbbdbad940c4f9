//! What a phrase stands in, and the rules of expressions and statements, each as one function.
// The line #![tactic(auto)] of every crate, with lemmas for all functions of this one.
#![tactic(auto, using(std::proofs::lemmas::Grind::common_steps))]

mod env;
mod labels;
mod name;
mod part;
mod reach;
mod rule;
mod stmt_rule;

pub use env::{Env, Formal, Found, Heading, Place, Returns};
pub use labels::Labels;
pub use part::{
    Argument, Behind, Callee, Denotation, Join, Location, Meaning, Operand, Operator, Span,
    TypedExpr, Use,
};
pub use rule::{
    pass_argument, pass_array, pass_call, pass_chr, pass_constant, pass_desig, pass_field,
    pass_index, pass_known, pass_literal, pass_name, pass_not, pass_operand, pass_relation,
    pass_simple, pass_test,
};
pub use stmt_rule::{
    is_above, pass_assign, pass_bare_return, pass_by, pass_case, pass_label, pass_loop,
    pass_loop_name, pass_read, pass_return, pass_write, span_of,
};
