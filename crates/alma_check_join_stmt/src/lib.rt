//! Verdicts on statements and lists, of the verdicts on their parts.
#![tactic(auto)]

mod list;
mod statement;
mod turns;

pub use list::{
    add_argument, add_branch, add_cases, add_guarded, add_label, add_operand, add_stmts, settle,
};
pub use statement::{
    check_bare_return, check_text, join_assign, join_commit, join_condition, join_either,
    join_forall, join_guarded, join_if, join_item, join_line, join_place, join_read, join_repeat,
    join_return, join_test, join_while,
};
pub use turns::{
    Bounds, Head, Start, Turns, join_by, join_for, join_head, join_some, join_step, start_loop,
};
