//! Laws of the definitions that the contracts cite: functions without work, whose contracts are the
//! laws.
ghost use Rattle.std.specs.Prelude.{◌≡◌, ◌⊎◌, List, ℕ, ◌∷◌};
ghost use Rattle.alma_ir.specs.Tree.{Program};
ghost use Rattle.alma_plan.specs.Causes.{Causes};
ghost use Rattle.alma_io.specs.Outside.{Outside, IsUndisturbed};
ghost use Rattle.alma_plan.specs.Plan.{plain};
ghost use Rattle.alma_driver_words.specs.BadWords.{IsBadWord};
ghost use Rattle.alma_pool.specs.Due.{fetch_plan, pool_plan, bad_word_plan, program};
ghost use Rattle.alma_pool.specs.Laws.{StandsAlone, RunAlone, PrintsFront};
ghost use Rattle.alma_pool.specs.Shown.{PlaysPrograms, ShowsPrograms};
ghost use Rattle.alma_pool.specs.Words.{AsksToPlay, IsRequest};

/// Each program of a pool runs as if it were alone, whatever turns the others take: it stands in the
/// state in which it stands alone, and has printed a front of what it prints alone.
pub fn programs_run_alone()
    ensures state { StandsAlone }
    ensures alone { RunAlone }
    ensures front { PrintsFront }
{}

/// Words name a file of turns and from 1 to 16 objects, and the plan goes by these; or one is the
/// first that cannot stand where it is, or they end too early, and the plan tells that.
pub fn words_are_a_request_or_have_a_bad_word()
    ensures request { (words files : List (List ℕ)) (file : List ℕ) → AsksToPlay words file files
        → pool_plan words ≡ fetch_plan (file ∷ files) }
    ensures bad_word { (words : List (List ℕ)) (k : ℕ) → IsBadWord IsRequest words k
        → pool_plan words ≡ bad_word_plan k }
    ensures one_of_both { (words : List (List ℕ)) → IsRequest words
        ⊎ ((k : ℕ) × IsBadWord IsRequest words k) }
{}

/// A call that gives turns to programs whose objects `alma compile` stored, where memory is found
/// and nothing fails outside, shows of each what its meaning prints on the input and how it ends,
/// or a front of that where it has too few turns.
pub fn a_pool_shows_what_its_programs_mean()
    ensures shown { (words : List (List ℕ)) (turns : List ℕ) (programs : List Program)
        (input : List ℕ) (before after : Outside) (status : ℕ)
        → PlaysPrograms words before turns programs input
        → Causes plain program (pool_plan words) before after status
        → IsUndisturbed before after status
        → ShowsPrograms turns programs input before after status }
{}
