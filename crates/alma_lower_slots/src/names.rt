// Whether the slots of which an instruction makes places, or which it reads in another frame, are
// own ones of their routine.
ghost use Rattle.std.specs.Prelude.{◌≡◌, ◌+◌, suc, get_or, nat_le, slice_get};
ghost use Rattle.alma_code.specs.Rules.{place_length, link_routine};
ghost use Rattle.alma_lower_slots.specs.Sharing.{begins_own as begins_own_spec, names_own as names_own_spec};
ghost use Rattle.alma_lower_slots.specs.Stretches.{own_count};

use alma_code::{Instr, SlotKind};

/// How many cells the places of a place slot have.
pub fn length_of(kinds: &[SlotKind], slot: u32) -> u32
    ensures { result ≡ place_length (slice_get kinds.now slot) }
{
    match kinds.get(slot as usize).copied() {
        Some(SlotKind::Place(length)) => length,
        Some(SlotKind::Number) | Some(SlotKind::Mark) | Some(SlotKind::Link(_)) | None => 0,
    }
}

/// The routine to whose frames the links of a link slot lead.
pub fn link_of(kinds: &[SlotKind], slot: u32) -> u32
    ensures { result ≡ link_routine (slice_get kinds.now slot) }
{
    match kinds.get(slot as usize).copied() {
        Some(SlotKind::Link(routine)) => routine,
        Some(SlotKind::Number) | Some(SlotKind::Mark) | Some(SlotKind::Place(_)) | None => 0,
    }
}

/// How many own slots a routine has.
pub fn own_of(own: &[u32], routine: usize) -> u32
    ensures { result ≡ get_or own.now routine 1 }
{
    match own.get(routine) {
        None => 1,
        Some(count) => *count,
    }
}

/// Whether slots from one on end before a count.
pub fn are_within(first: u32, count: u32, own: u32) -> bool
    ensures { result ≡ nat_le (first + count) own }
{
    u64::from(first) + u64::from(count) <= u64::from(own)
}

// Whether a slot is below a count.
fn is_within(slot: u32, own: u32) -> bool
    ensures { result ≡ nat_le (suc slot) own }
{
    slot < own
}

/// Whether the slots that an instruction names elsewhere are own ones of their routine.
#[tactic(auto, unfolding(crate::specs::Sharing::names_own))]
pub fn names_own(own: &[u32], kinds: &[SlotKind], routine: usize, instr: Instr) -> bool
    ensures { result ≡ names_own_spec (own_count own.now) kinds.now routine instr }
{
    match instr {
        Instr::Local { to, first } => {
            are_within(first, length_of(kinds, to), own_of(own, routine))
        }
        Instr::Global { to, first } => are_within(first, length_of(kinds, to), own_of(own, 0)),
        Instr::Chain { link, slot, .. } | Instr::OuterSame { link, slot, .. } => {
            is_within(slot, own_of(own, link_of(kinds, link) as usize))
        }
        Instr::Outer { to, link, first } => are_within(
            first,
            length_of(kinds, to),
            own_of(own, link_of(kinds, link) as usize),
        ),
        _ => true,
    }
}

/// Whether the places that an instruction makes begin at an own slot.
#[tactic(auto, unfolding(crate::specs::Sharing::begins_own))]
pub fn begins_own(own: &[u32], routine: usize, instr: Instr) -> bool
    ensures { result ≡ begins_own_spec (own_count own.now) routine instr }
{
    match instr {
        Instr::Local { first, .. } => first < own_of(own, routine),
        _ => true,
    }
}
