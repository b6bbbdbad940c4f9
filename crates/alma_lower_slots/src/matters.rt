// Whether what an instruction reads matters there.
ghost use Rattle.std.specs.Prelude.{◌≡◌};
ghost use Rattle.std.specs.List.{list_all};
ghost use Rattle.alma_code.specs.Plain.{code_of};
ghost use Rattle.alma_lower_slots.specs.Inner.Checks.{arguments, matters_at, matters_if as matters_if_spec};
ghost use Rattle.alma_lower_slots.specs.Slots.{reads, slots_from};
ghost use Rattle.alma_lower_slots.specs.Stretches.{stretch_at, is_kept as is_kept_spec, is_live as is_live_spec};

use crate::lookups::param_count;
use crate::stretch::{KEPT, Stretch};
use crate::uses::reads_of;
use alma_code::{Code, Instr};

/// The stretch of a slot.
pub fn stretch_of(stretches: &[Stretch], slot: u32) -> Stretch
    ensures { result ≡ stretch_at stretches.now slot }
{
    match stretches.get(slot as usize) {
        None => Stretch {
            slot,
            low: 0,
            high: KEPT,
        },
        Some(found) => *found,
    }
}

/// Whether the slot of a stretch is kept.
pub fn is_kept(stretch: Stretch) -> bool
    ensures { result ≡ is_kept_spec stretch }
{
    stretch.high == KEPT
}

// Whether the slot of a stretch is not kept, and the address is in the stretch.
fn is_live(stretch: Stretch, at: u32) -> bool
    ensures { result ≡ is_live_spec stretch at }
{
    !is_kept(stretch) && stretch.low < at && at <= stretch.high
}

// Whether what a slot holds at an address matters.
fn matters(stretches: &[Stretch], at: u32, slot: u64) -> bool
    ensures { result ≡ matters_at stretches.now at slot }
{
    match stretches.get(slot as usize) {
        None => true,
        Some(found) => is_kept(*found) || is_live(*found, at),
    }
}

// Whether what a slot holds that may not be there matters.
fn matters_if(stretches: &[Stretch], at: u32, slot: Option<u32>) -> bool
    ensures { result ≡ matters_if_spec stretches.now at slot }
{
    match slot {
        None => true,
        Some(slot) => matters(stretches, at, u64::from(slot)),
    }
}

// Whether what slots from one on hold matters.
fn all_matter(stretches: &[Stretch], at: u32, first: u32, count: u32) -> bool
    ensures { result ≡ list_all (λ n. matters_at stretches.now at n) (slots_from count first) }
{
    for k in 0..count {
        if !matters(stretches, at, u64::from(first) + u64::from(k)) {
            return false;
        }
    }
    true
}

// Whether what the arguments of a Call hold matters.
#[tactic(auto, unfolding(crate::specs::Inner::Checks::arguments))]
fn arguments_matter(code: &Code, stretches: &[Stretch], at: u32, instr: Instr) -> bool
    ensures { result ≡ list_all (λ n. matters_at stretches.now at n)
        (arguments (code_of code.now) instr) }
{
    match instr {
        Instr::Call { routine, first, .. } => all_matter(
            stretches,
            at,
            first,
            param_count(code, routine),
        ),
        _ => true,
    }
}

/// Whether what an instruction reads matters.
pub fn reads_matter(code: &Code, stretches: &[Stretch], at: u32, instr: Instr) -> bool
    ensures { result ≡ list_all (λ n. matters_at stretches.now at n)
        (reads (code_of code.now) instr) }
{
    let [a, b, c] = reads_of(instr);
    matters_if(stretches, at, a)
        && matters_if(stretches, at, b)
        && matters_if(stretches, at, c)
        && arguments_matter(code, stretches, at, instr)
}
