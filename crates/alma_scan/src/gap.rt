// Comments, and the gaps between tokens.
ghost use Rattle.std.specs.Prelude.{◌≡◌, ◌∷◌, List, ℕ, MatchOption, false};
ghost use Rattle.alma_scan.specs.Comments.{starts_with_two, Closes, Gap};
ghost use Rattle.alma_scan.specs.Inner.Fronts.{IsGapEnd};

use crate::byte::{Class, split_run};

/// What stands behind these two bytes; None where the front is another.
pub fn skip_two(bytes: &[u8], first: u8, second: u8) -> Option<&[u8]>
    ensures { MatchOption result (starts_with_two first second bytes.now ≡ false)
        (λ rest. bytes.now ≡ first ∷ second ∷ rest.now) }
{
    let (a, rest) = bytes.split_first()?;
    let (b, rest) = rest.split_first()?;
    if *a == first && *b == second {
        Some(rest)
    } else {
        None
    }
}

/// What stands behind a comment, of which these bytes stand behind `(*`; None where it does not
/// end.
#[tactic(auto, using(crate::proofs::Comments::same_start, crate::proofs::Comments::same_opened, crate::proofs::Comments::same_closed, crate::proofs::Comments::same_end, crate::proofs::Comments::same_byte, crate::proofs::Comments::same_none))]
fn skip_comment(bytes: &[u8]) -> Option<&[u8]>
    ensures { MatchOption result ((rest : List ℕ) → Closes bytes.now rest → ⊥)
        (λ rest. Closes bytes.now rest.now) }
{
    let mut depth: usize = 0;
    let mut rest = bytes;
    loop {
        if let Some(after) = skip_two(rest, b'(', b'*') {
            depth += 1;
            rest = after;
        } else if let Some(after) = skip_two(rest, b'*', b')') {
            if depth == 0 {
                return Some(after);
            }
            depth -= 1;
            rest = after;
        } else {
            let (_, after) = rest.split_first()?;
            rest = after;
        }
    }
}

/// What stands behind the whole comment with which the bytes begin.
fn behind_comment(bytes: &[u8]) -> Option<&[u8]>
    ensures { MatchOption result
        ((inner rest : List ℕ) → bytes.now ≡ 40 ∷ 42 ∷ inner → Closes inner rest → ⊥)
        (λ rest. (inner : List ℕ) × (bytes.now ≡ 40 ∷ 42 ∷ inner) × Closes inner rest.now) }
{
    skip_comment(skip_two(bytes, b'(', b'*')?)
}

/// What stands behind all blanks and whole comments.
pub fn skip_gap(bytes: &[u8]) -> &[u8]
    ensures gap { Gap bytes.now result.now }
    ensures end { IsGapEnd result.now }
{
    let mut rest = bytes;
    loop {
        let (_blanks, text) = split_run(Class::Blank, rest);
        match behind_comment(text) {
            Some(after) => rest = after,
            None => return text,
        }
    }
}
