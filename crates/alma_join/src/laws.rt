// The laws of joined programs, each as the contract of a function that does nothing.
ghost use Rattle.alma_join.specs.Joined.{AloneIsItself, JoinedIsChecked};
ghost use Rattle.alma_join.specs.Worked.{JoinsWork};

/// What small modules give that are joined.
#[tactic(auto, using(crate::proofs::Worked::joins_work))]
pub fn joins_work()
    ensures { JoinsWork }
{}

/// A program with no import, joined alone, is itself.
#[tactic(auto, using(crate::proofs::Alone::alone_is_itself))]
pub fn alone_is_itself()
    ensures { AloneIsItself }
{}

/// Checked modules that join with no fault are a checked program.
pub fn joined_is_checked()
    ensures { JoinedIsChecked }
{}
