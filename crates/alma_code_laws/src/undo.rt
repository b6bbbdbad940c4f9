//! The law, as the contract of a function that does nothing.
ghost use Rattle.std.specs.Prelude.{List, ℕ};
ghost use Rattle.alma_code.specs.Plain.{PlainCode};
ghost use Rattle.alma_code_laws.specs.Undo.{GivesBack};

/// A failing branch gives back all frames, cell for cell, unknown ones too, as they were at its
/// choice point: over any number of steps between the push of an entry and its pop, on any code.
#[tactic(auto, using(crate::proofs::Undoing::gives_back))]
pub fn a_failing_branch_gives_back_all_frames()
    ensures { (code : PlainCode) (input : List ℕ) → GivesBack code input }
{}
