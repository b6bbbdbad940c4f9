// The laws of code that implements a program, each as the contract of a function that does nothing.
ghost use Rattle.alma_code.specs.Plain.{PlainCode};
ghost use Rattle.alma_ir.specs.Tree.{Program};
ghost use Rattle.alma_lower_implements.specs.Implements.{Implements, IsEnough};

/// A budget of 32 steps for each visit, and 32 more, brings code that implements a program to its
/// end.
#[tactic(auto, using(crate::proofs::Enough::is_enough))]
pub fn steps_for_each_visit_are_enough()
    ensures { (code : PlainCode) (p : Program) → Implements code p → IsEnough code p }
{}
