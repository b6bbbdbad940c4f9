// What the words of a call ask for.
ghost use Rattle.std.specs.Prelude.{◌≡◌, ◌≤◌, List, ℕ, IfOk, MatchResult};
ghost use Rattle.alma_driver_words.specs.Words.{greatest_steps, texts};
ghost use Rattle.alma_plan.specs.Refusals.{refusal_end};
ghost use Rattle.alma_all.specs.All.{program, all_plan, end_plan, file_plan, with_options};

use alma_driver_words::{DEFAULT_STEPS, is_file_name, split_word, steps_option};
use alma_plan::Refusal;

// The number of steps that the words behind the name of the file ask for.
fn steps_of(options: &[String]) -> Result<u64, Refusal>
    ensures steps { (file : List ℕ) → MatchResult result
        (λ steps. with_options file (texts options.now) ≡ file_plan file steps)
        (λ refusal. with_options file (texts options.now)
        ≡ end_plan (refusal_end program refusal)) }
    ensures few { IfOk result (λ steps. steps ≤ greatest_steps) }
{
    let Some((option, more)) = split_word(options) else {
        return Ok(DEFAULT_STEPS);
    };
    let Some(steps) = steps_option(option) else {
        return Err(Refusal::BadWord(2));
    };
    if more.is_empty() {
        Ok(steps)
    } else {
        Err(Refusal::BadWord(3))
    }
}

/// The name of the file whose alternatives are asked for, and the number of steps; or why the words
/// ask for none.
pub fn request_of(words: &[String]) -> Result<(&str, u64), Refusal>
    ensures request { MatchResult result
        (λ request. all_plan (texts words.now) ≡ file_plan request.0.now request.1)
        (λ refusal. all_plan (texts words.now) ≡ end_plan (refusal_end program refusal)) }
    ensures few { IfOk result (λ request. request.1 ≤ greatest_steps) }
{
    let Some((file, options)) = split_word(words) else {
        return Err(Refusal::BadWord(1));
    };
    if !is_file_name(file) {
        return Err(Refusal::BadWord(1));
    }
    Ok((file, steps_of(options)?))
}
