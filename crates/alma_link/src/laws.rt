//! Laws of linked modules: functions without work, whose contracts are the laws.
ghost use Rattle.std.specs.Prelude.{◌≡◌, ◌⊎◌, List, ℕ, []};
ghost use Rattle.alma_link.specs.Link.{bad_word_plan, failure, files_plan, link_plan, program};
ghost use Rattle.alma_link.specs.Shown.{AsksForModules, IsGiven, ModulesEnd, ShowsObject, ShowsRun};
ghost use Rattle.alma_link.specs.Words.{AsksFor, Compile, IsRequest, Request, Run};
ghost use Rattle.alma_plan.specs.Causes.{Causes};
ghost use Rattle.alma_io.specs.Outside.{Outside, IsUndisturbed};
ghost use Rattle.alma_plan.specs.Programs.{sense};
ghost use Rattle.alma_driver_words.specs.BadWords.{IsBadWord};

/// Words ask for a task with from 1 to 16 files, and the plan is that of the task; or one is the
/// first that cannot stand where it is, or they end too early, and the plan tells that.
pub fn words_are_a_request_or_have_a_bad_word()
    ensures request { (words : List (List ℕ)) (r : Request) → AsksFor words r
        → link_plan words ≡ files_plan r.task [] r.files }
    ensures bad_word { (words : List (List ℕ)) (k : ℕ) → IsBadWord IsRequest words k
        → link_plan words ≡ bad_word_plan k }
    ensures one_of_both { (words : List (List ℕ)) → IsRequest words
        ⊎ ((k : ℕ) × IsBadWord IsRequest words k) }
{}

/// A call that runs modules, where memory is found and nothing fails outside, refuses the first
/// file that holds no module, tells the first fault for which the modules cannot be joined, or that
/// the joined program is too large; or it prints what the joined program means and ends in its
/// success, failure or fault; or its steps ran out, and it printed a front of that, which covers
/// one visit for each 32 steps.
pub fn a_run_of_modules_shows_what_they_mean_joined()
    ensures shown { (words files sources : List (List ℕ)) (input : List ℕ) (before after : Outside)
        (status : ℕ) → AsksForModules Run words before files sources → IsGiven before sources input
        → Causes (sense program failure) program (link_plan words) before after status
        → IsUndisturbed before after status
        → ModulesEnd (ShowsRun input before after status) files sources before after status }
{}

/// A call that compiles modules, where memory is found and nothing fails outside, refuses as a run
/// does; or it stores, under the name that the words give, the object of a sound code that
/// implements their joined program.
pub fn a_compile_of_modules_stores_what_they_mean_joined()
    ensures stored { (words files sources : List (List ℕ)) (object : List ℕ)
        (before after : Outside) (status : ℕ)
        → AsksForModules (Compile object) words before files sources
        → Causes (sense program failure) program (link_plan words) before after status
        → IsUndisturbed before after status
        → ModulesEnd (ShowsObject object before after status) files sources before after status }
{}
