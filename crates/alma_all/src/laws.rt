//! Laws of what is listed: functions without work, whose contracts are the laws.
ghost use Rattle.std.specs.Prelude.{◌≡◌, ◌⊎◌, List, ℕ};
ghost use Rattle.alma_plan.specs.Causes.{Causes};
ghost use Rattle.alma_io.specs.Outside.{Outside, IsUndisturbed};
ghost use Rattle.alma_driver_words.specs.BadWords.{IsBadWord};
ghost use Rattle.alma_all.specs.All.{all_plan, all_sense, file_plan, bad_word_plan, program};
ghost use Rattle.alma_all.specs.Shown.{AsksToList, IsRequest, ListEnds, ListsEveryAlternative, ListsSource};

/// Where a call lists the alternatives of a program on an input, it prints what the meaning of the
/// program prints, and the line of each of its alternatives, in their order, and ends behind them
/// as the meaning does; or its steps ran out, and it printed a front of what the listing program
/// prints, which covers one visit for each 32 steps. 32 steps for each visit, and 32 more, are
/// enough: those of the program, and 128 for each alternative times one more than the cells and the
/// number of its variables.
pub fn every_alternative_is_listed()
    ensures listed { ListsEveryAlternative }
{}

/// Words name a file and, where they say so, a number of steps, and the plan goes by these; or one
/// is the first that cannot stand where it is, or they end too early, and the plan tells that.
pub fn words_are_a_request_or_have_a_bad_word()
    ensures request { (words : List (List ℕ)) (file : List ℕ) (steps : ℕ)
        → AsksToList words file steps
        → all_plan words ≡ file_plan file steps }
    ensures bad_word { (words : List (List ℕ)) (k : ℕ) → IsBadWord IsRequest words k
        → all_plan words ≡ bad_word_plan k }
    ensures one_of_both { (words : List (List ℕ)) → IsRequest words
        ⊎ ((k : ℕ) × IsBadWord IsRequest words k) }
{}

/// A call that lists the alternatives of a source, where memory is found and nothing fails outside,
/// refuses the source for its one stated fault, for a RETURN in the body of its module, or for the
/// size of the program that lists them; or it lists its alternatives, or a front of them where the
/// steps ran out.
pub fn a_call_lists_the_alternatives_of_its_source()
    ensures shown { (words : List (List ℕ)) (file source input : List ℕ) (steps : ℕ)
        (before after : Outside) (status : ℕ) → ListsSource words before file source input steps
        → Causes all_sense program (all_plan words) before after status
        → IsUndisturbed before after status
        → ListEnds file source input steps before after status }
{}
