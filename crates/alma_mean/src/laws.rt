// The laws of the meaning, each as the contract of a function that does nothing.
ghost use Rattle.std.specs.Prelude.{List, ℕ};
ghost use Rattle.alma_ir.specs.Tree.{Program};
ghost use Rattle.alma_mean.specs.Meaning.{Level};
ghost use Rattle.alma_mean.specs.Laws.{LevelsRise, UncutListsStay, ResultStays, PrintsGrow, TurnsAgree};

/// The events of each phrase, and of the program, at a level are extended by those at the next.
#[tactic(auto, using(crate::proofs::Rising::levels_rise))]
pub fn levels_rise()
    ensures { (p : Program) (input : List ℕ) → LevelsRise p input }
{}

/// Events with no cut are extended by themselves alone.
#[tactic(auto, using(crate::proofs::Results::uncut_lists_stay))]
pub fn uncut_lists_stay()
    ensures { UncutListsStay }
{}

/// A result that is not cut off stays at higher levels.
#[tactic(auto, using(crate::proofs::Results::result_stays))]
pub fn result_stays()
    ensures { (p : Program) (input : List ℕ) → ResultStays p input }
{}

/// What is printed grows with the level.
#[tactic(auto, using(crate::proofs::Results::prints_grow))]
pub fn prints_grow()
    ensures { (p : Program) (input : List ℕ) → PrintsGrow p input }
{}

/// The first turn of a loop is a turn like those that follow it.
#[tactic(auto, using(crate::proofs::Turns::turns_agree))]
pub fn turns_agree()
    ensures { (p : Program) (input : List ℕ) (below : Level) → TurnsAgree p input below }
{}
