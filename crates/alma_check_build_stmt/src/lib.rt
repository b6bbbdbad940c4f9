//! Statements of the resolved program, put together of checked parts.
// The line #![tactic(auto)] of every crate, with lemmas for all functions of this one.
#![tactic(auto, using(alma_check_build_expr::proofs::Steps::steps, std::proofs::lemmas::Grind::common_steps))]

mod case;
mod list;
mod statement;
mod turns;

pub use case::{case_arm, case_stmt};
pub use list::{joined, with_part};
pub use statement::{
    assign_stmt, bare_return, commit_stmt, condition, either_stmt, forall_stmt, guarded_arm,
    if_stmt, nothing, read_stmt, repeat_stmt, return_stmt, test_stmt, text_stmt, while_stmt,
    write_stmt, writeln_stmt,
};
pub use turns::{for_stmt, loop_of, some_stmt};
