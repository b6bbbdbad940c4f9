//! CASE behind its parts: its rules, and what it stands for.
// The line #![tactic(auto)] of every crate, with lemmas for all functions of this one.
#![tactic(auto, using(alma_rules::proofs::Judging::judging, std::proofs::lemmas::Grind::common_steps))]

mod case;

pub use case::{CaseWithArms, join_arm, join_arms, join_case, join_else, join_label, join_single};
