//! Laws of the definitions that the contracts cite: functions without work, whose contracts are the
//! laws.
ghost use Rattle.std.specs.Prelude.{◌≡◌, ◌⊎◌, ◌↔◌, List, ℕ, IsTrue};
ghost use Rattle.alma_ir.specs.Tree.{Program};
ghost use Rattle.alma_plan.specs.Causes.{Causes};
ghost use Rattle.alma_io.specs.Outside.{Outside, IsUndisturbed};
ghost use Rattle.alma_plan.specs.Plan.{plain};
ghost use Rattle.alma_driver_words.specs.BadWords.{IsBadWord};
ghost use Rattle.alma_back.specs.Due.{fetch_plan, back_plan, bad_word_plan, program};
ghost use Rattle.alma_driver_words.specs.Words.{IsName};
ghost use Rattle.alma_back.specs.Laws.{BackUndoesStep, WalksAreRuns};
ghost use Rattle.alma_back.specs.Script.{Line, is_name};
ghost use Rattle.alma_back.specs.Shown.{ShowsWalk, WalksProgram};
ghost use Rattle.alma_back.specs.Words.{AsksToWalk, IsRequest};

/// One back after a step is where the step began, and every walk leads where steps alone lead.
pub fn walks_stay_on_the_run()
    ensures undone { BackUndoesStep }
    ensures runs { WalksAreRuns }
{}

/// The names that a script may ask for are those that the tracer may watch.
pub fn names_are_those_that_are_watched()
    ensures names { (text : List ℕ) → IsTrue (is_name text) ↔ IsName text }
{}

/// Words name an object and a script, and the plan goes by these; or one is the first that cannot
/// stand where it is, or they end too early, and the plan tells that.
pub fn words_are_a_request_or_have_a_bad_word()
    ensures request { (words : List (List ℕ)) (object script : List ℕ)
        → AsksToWalk words object script
        → back_plan words ≡ fetch_plan object script }
    ensures bad_word { (words : List (List ℕ)) (k : ℕ) → IsBadWord IsRequest words k
        → back_plan words ≡ bad_word_plan k }
    ensures one_of_both { (words : List (List ℕ)) → IsRequest words
        ⊎ ((k : ℕ) × IsBadWord IsRequest words k) }
{}

/// A call that walks a program whose object `alma compile` stored, where memory is found and
/// nothing fails outside, shows of each line, as the run of the object's code stands after it, the
/// number of steps, the cells of a variable of the program, which at a success are those of its
/// meaning, or how many bytes of what its meaning prints were printed.
pub fn a_walk_shows_its_program()
    ensures shown { (words : List (List ℕ)) (p : Program) (lines : List Line) (input : List ℕ)
        (before after : Outside) (status : ℕ) (asks : WalksProgram words before p lines input)
        → Causes plain program (back_plan words) before after status
        → IsUndisturbed before after status
        → ShowsWalk p lines input asks.bytes before after status }
{}
