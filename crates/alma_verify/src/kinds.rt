// Tests of the kind of a slot that may not be there.
ghost use Rattle.std.specs.Prelude.{◌≡◌};
ghost use Rattle.alma_code.specs.Kinds.{is_number as is_number_spec, is_mark as is_mark_spec, is_place as is_place_spec, is_place_of as is_place_of_spec, is_link as is_link_spec, is_link_of as is_link_of_spec};
ghost use Rattle.alma_code.specs.Rules.{place_length as place_length_spec, link_routine as link_routine_spec};

use alma_code::SlotKind;

/// Whether there is a slot and it is a number slot, the only kind whose cells a place may name.
pub fn is_number(kind: Option<SlotKind>) -> bool
    ensures { result ≡ is_number_spec kind }
{
    matches!(kind, Some(SlotKind::Number))
}

/// Whether there is a slot and it is a mark slot, for a height of the stack of choice entries.
pub fn is_mark(kind: Option<SlotKind>) -> bool
    ensures { result ≡ is_mark_spec kind }
{
    matches!(kind, Some(SlotKind::Mark))
}

/// Whether there is a slot and it is a place slot, of any length.
pub fn is_place(kind: Option<SlotKind>) -> bool
    ensures { result ≡ is_place_spec kind }
{
    matches!(kind, Some(SlotKind::Place(_)))
}

/// Whether there is a slot and it is a place slot for places of exactly so many cells.
pub fn is_place_of(length: u32, kind: Option<SlotKind>) -> bool
    ensures { result ≡ is_place_of_spec length kind }
{
    match kind {
        Some(SlotKind::Place(size)) => size == length,
        Some(SlotKind::Number) | Some(SlotKind::Mark) | Some(SlotKind::Link(_)) | None => false,
    }
}

/// How many cells the places of a place slot have; 0 where the slot is no place slot or not there.
pub fn place_length(kind: Option<SlotKind>) -> u32
    ensures { result ≡ place_length_spec kind }
{
    match kind {
        Some(SlotKind::Place(length)) => length,
        Some(SlotKind::Number) | Some(SlotKind::Mark) | Some(SlotKind::Link(_)) | None => 0,
    }
}

/// Whether there is a slot and it is a link slot, of any routine.
pub fn is_link(kind: Option<SlotKind>) -> bool
    ensures { result ≡ is_link_spec kind }
{
    matches!(kind, Some(SlotKind::Link(_)))
}

/// Whether there is a slot and it is a link slot to frames of this very routine.
pub fn is_link_of(routine: u32, kind: Option<SlotKind>) -> bool
    ensures { result ≡ is_link_of_spec routine kind }
{
    match kind {
        Some(SlotKind::Link(other)) => other == routine,
        Some(SlotKind::Number) | Some(SlotKind::Mark) | Some(SlotKind::Place(_)) | None => false,
    }
}

/// The routine to whose frames a link slot leads; 0, which rule 2 refuses for a link, where it is
/// none.
pub fn link_routine(kind: Option<SlotKind>) -> u32
    ensures { result ≡ link_routine_spec kind }
{
    match kind {
        Some(SlotKind::Link(routine)) => routine,
        Some(SlotKind::Number) | Some(SlotKind::Mark) | Some(SlotKind::Place(_)) | None => 0,
    }
}
