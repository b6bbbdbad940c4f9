//! Laws of the definitions that the contracts cite: functions without work, whose contracts are the
//! laws.
ghost use Rattle.std.specs.Prelude.{◌≡◌, ◌≤◌, ◌⊎◌, List, ℕ, length};
ghost use Rattle.alma_driver_words.specs.Sample.{sample_text};
ghost use Rattle.alma_base.specs.Limits.{source_limit};
ghost use Rattle.alma_driver_words.specs.Words.{Request, Asks, IsBadWord, greatest_lines};
ghost use Rattle.alma_driver_words.specs.Limits.{IsWithinLimits};

/// Words are no two requests, no two words are the first bad one, and words with a bad one are no
/// request.
pub fn words_have_one_answer()
    ensures request { (words : List (List ℕ)) (first second : Request) → Asks words first
        → Asks words second → first ≡ second }
    ensures bad_word { (words : List (List ℕ)) (j k : ℕ) → IsBadWord words j → IsBadWord words k → j
        ≡ k }
    ensures apart { (words : List (List ℕ)) (request : Request) (k : ℕ) → Asks words request
        → IsBadWord words k → ⊥ }
{}

/// Any words are a request, or one is the first that cannot stand where it is, or they end too
/// early.
pub fn words_have_an_answer()
    ensures some { (words : List (List ℕ)) → ((request : Request) × Asks words request)
        ⊎ ((k : ℕ) × IsBadWord words k) }
{}

/// What words ask for is within the limits.
pub fn requests_are_within_limits()
    ensures within { (words : List (List ℕ)) (request : Request) → Asks words request
        → IsWithinLimits request }
{}

/// A sample of up to 5,000 lines is a source that is not too long.
#[tactic(auto, using(crate::proofs::Lengths::sample_length))]
pub fn samples_are_short()
    ensures short { (lines : ℕ) → lines ≤ greatest_lines → length (sample_text lines)
        ≤ source_limit }
{}
