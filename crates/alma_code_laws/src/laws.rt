// Each law is the contract of a function that does nothing.
ghost use Rattle.std.specs.Prelude.{◌≡◌, ◌↔◌, List, ℕ, None};
ghost use Rattle.alma_code.specs.Plain.{PlainCode};
ghost use Rattle.alma_code.specs.Rules.{IsTable, IsSound, code_fault};
ghost use Rattle.alma_code.specs.Machine.{start};
ghost use Rattle.alma_code.specs.Fits.{Fits};
ghost use Rattle.alma_code.specs.Laws.{NeverStuck, StaysFit};

/// A code whose tables are in order is sound exactly where no rule is broken.
#[tactic(auto, using(crate::proofs::Verdicts::sound_where_no_fault))]
pub fn sound_where_no_fault()
    ensures { (code : PlainCode) → IsTable code → (IsSound code ↔ (code_fault code ≡ None)) }
{}

/// The machine begins a sound code in a state that fits it.
#[tactic(auto, using(crate::proofs::Runs::start_fits))]
pub fn start_fits()
    ensures { (code : PlainCode) → IsSound code → Fits code (start code) }
{}

/// A step of a sound code keeps what fits.
#[tactic(auto, using(crate::proofs::Runs::stays_fit))]
pub fn step_fits()
    ensures { (code : PlainCode) (input : List ℕ) → IsSound code → StaysFit code input }
{}

/// On a sound code the machine has a next step until it ends.
#[tactic(auto, using(crate::proofs::Runs::never_stuck))]
pub fn never_stuck()
    ensures { (code : PlainCode) (input : List ℕ) → IsSound code → NeverStuck code input }
{}
