// Small programs and what they give at a level, each fact a field of the contract of a function
// that does nothing.
ghost use Rattle.alma_mean.specs.Worked.Choices.{ChoicesRun};
ghost use Rattle.alma_mean.specs.Worked.Equations.{EquationsRun, NumbersRun};
ghost use Rattle.alma_mean.specs.Worked.Loops.{LoopsRun, QueensRun};
ghost use Rattle.alma_mean.specs.Worked.Foralls.{ForallsRun};
ghost use Rattle.alma_mean.specs.Worked.Calls.{CallsRun};
ghost use Rattle.alma_mean.specs.Worked.Nested.{NestedRun};
ghost use Rattle.alma_mean.specs.Worked.FaultLines.{FaultLines};
ghost use Rattle.alma_mean.specs.Worked.InOut.{InOutRuns};
ghost use Rattle.alma_mean.specs.Worked.Conditions.{ConditionsTell};
ghost use Rattle.alma_mean.specs.Worked.Visits.{VisitsCount};

/// Programs that choose.
#[tactic(auto, using(crate::proofs::Choices::choices_run))]
pub fn choices_run()
    ensures { ChoicesRun }
{}

/// Programs with equations and assignments.
#[tactic(auto, using(crate::proofs::Equations::equations_run))]
pub fn equations_run()
    ensures { EquationsRun }
{}

/// Programs with arithmetic.
#[tactic(auto, using(crate::proofs::Equations::numbers_run))]
pub fn numbers_run()
    ensures { NumbersRun }
{}

/// Programs with loops.
#[tactic(auto, using(crate::proofs::Loops::loops_run))]
pub fn loops_run()
    ensures { LoopsRun }
{}

/// Queens on a small board.
#[tactic(auto, using(crate::proofs::Loops::queens_run))]
pub fn queens_run()
    ensures { QueensRun }
{}

/// Programs with FORALL.
#[tactic(auto, using(crate::proofs::Foralls::foralls_run))]
pub fn foralls_run()
    ensures { ForallsRun }
{}

/// Programs with procedures and functions.
#[tactic(auto, using(crate::proofs::Calls::calls_run))]
pub fn calls_run()
    ensures { CallsRun }
{}

/// Programs with procedures inside procedures.
#[tactic(auto, using(crate::proofs::Nested::nested_run))]
pub fn nested_run()
    ensures { NestedRun }
{}

/// Programs that end in a fault, and its line.
#[tactic(auto, using(crate::proofs::FaultLines::fault_lines))]
pub fn fault_lines()
    ensures { FaultLines }
{}

/// Programs that read and write.
#[tactic(auto, using(crate::proofs::InOut::in_out_runs))]
pub fn in_out_runs()
    ensures { InOutRuns }
{}

/// How many visits small programs make.
#[tactic(auto, using(crate::proofs::Visits::visits_count))]
pub fn visits_count()
    ensures { VisitsCount }
{}

/// What the conditions on a checked program let through and refuse.
#[tactic(auto, using(crate::proofs::Conditions::conditions_tell))]
pub fn conditions_tell()
    ensures { ConditionsTell }
{}
