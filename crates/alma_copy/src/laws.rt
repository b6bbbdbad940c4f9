// The laws of new numbers, each as the contract of a function that does nothing.
ghost use Rattle.alma_copy.specs.Moved.{StatementsStay};

/// Where no number changes the statements stay.
#[tactic(auto, using(crate::proofs::Stays::stmts_stay))]
pub fn statements_stay()
    ensures { StatementsStay }
{}
