// Whether slots that share a new number have it one after another.
ghost use Rattle.std.specs.Prelude.{◌≡◌, IfOk, true};
ghost use Rattle.alma_lower_slots.specs.Inner.Checks.{AreApart, Takes};

use crate::instrs::begin_of;
use crate::stretch::Stretch;
use alma_base::NoMemory;
use std::alloc::Global;

// Whether the new number of a stretch is free where it begins; it is taken up to its end. `ends`
// has of each new number where the last stretch that had it ends.
fn take(ends: &mut [u32], stretch: Stretch) -> bool
    ensures { result ≡ true → Takes ends.old ends.new stretch }
{
    let begin = begin_of(stretch);
    if begin >= stretch.high {
        return true;
    }
    let slot = stretch.slot as usize;
    if slot >= ends.len() || ends[slot] > begin {
        return false;
    }
    ends[slot] = stretch.high;
    true
}

/// Whether no two slots have one new number at one address. The stretches of each new number have
/// to rise.
pub fn are_apart(alloc: Global, stretches: &[Stretch]) -> Result<bool, NoMemory>
    ensures { IfOk result (λ apart. apart ≡ true → AreApart stretches.now) }
{
    let mut ends = Vec::from_elem(alloc, 0, stretches.len())?;
    for stretch in stretches {
        if !take(&mut ends, *stretch) {
            return Ok(false);
        }
    }
    Ok(true)
}
