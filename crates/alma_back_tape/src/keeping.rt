// How the carry of a FORALL gains what a body changed, and how that is taken back.
ghost use Rattle.std.specs.Prelude.{◌≡◌, ◌<◌, ◌≤◌, length, drop, slice_index_or, is_ok, IfOk, OnOk, if◌then◌else◌, vec_len, vec_capacity};
ghost use Rattle.alma_code.specs.Carries.{diffs, held_after_keep};
ghost use Rattle.alma_memory_store.specs.Carries.{IsRising, carry_of_entries};
ghost use Rattle.alma_memory_store.specs.Past.{SameGain};
ghost use Rattle.alma_back_tape.specs.Inner.Keeping.{entries_with_changes, gain_of};
ghost use Rattle.alma_back_tape.specs.Inner.Past.{Fits, HasRooms, IsTape, Rests, picture_of, scenes};
ghost use Rattle.alma_back_tape.specs.Inner.Reel.{entries_without, no_entry, unwind};

use crate::change::{Change, Entry, Gain, Note};
use crate::earlier::earlier_frames;
use crate::forward::drop_top;
use crate::frames::Frames;
use crate::journal::{Journal, changes_due, sum};
use alma_base::NoMemory;
use alma_code::Cell;
use alma_memory_store::SlotPlace;
use std::alloc::Global;

// What number slots changed since a mark, by the notes above it.
fn changes_since(
    alloc: Global,
    frames: &Frames,
    trail: &[Note],
    mark: usize,
) -> Result<Vec<(SlotPlace, Cell)>, NoMemory>
    requires fits { Fits trail.now frames.now }
    requires mark { mark ≤ length trail.now }
    ensures { IfOk result (λ found. SameGain (carry_of_entries found.items)
        (diffs (unwind (drop mark trail.now) frames.now) frames.now)) }
{
    let earlier = earlier_frames(alloc, frames, trail, mark)?;
    earlier.changes(alloc)
}

// Sets the cells in the carry of an entry, or none of them, and answers what it gained.
fn gain(
    alloc: Global,
    entries: &mut Vec<Entry>,
    at: usize,
    places: Vec<(SlotPlace, Cell)>,
) -> Result<Gain, NoMemory>
    requires { at < length entries.old.items }
    ensures items { entries.new.items ≡ (if is_ok result
        then entries_with_changes at (carry_of_entries places.items) entries.old.items
        else entries.old.items) }
    ensures gain { IfOk result (λ gain. gain ≡ gain_of at places.items entries.old.items) }
    ensures rising { OnOk result
        (IsRising (slice_index_or entries.old.items at no_entry).carry) }
    ensures len { vec_len entries.new ≡ vec_len entries.old }
    ensures capacity { vec_capacity entries.new ≡ vec_capacity entries.old }
{
    let entry = &mut entries[at];
    let had = entry.carry.set_all(alloc, places.as_slice())?;
    Ok(Gain { at, places, had })
}

/// Takes from the carry of an entry what it gained.
pub fn lose(entries: &mut Vec<Entry>, gain: Gain)
    requires at { gain.at < length entries.old.items }
    requires few { length gain.had ≤ length gain.places }
    ensures items { entries.new.items ≡ entries_without gain entries.old.items }
    ensures len { vec_len entries.new ≡ vec_len entries.old }
    ensures capacity { vec_capacity entries.new ≡ vec_capacity entries.old }
{
    let had = gain.had;
    let entry = &mut entries[gain.at];
    entry.carry.put_all_back(gain.places.as_slice(), had);
}

// Room for one more change.
fn change_room(journal: &mut Journal) -> Result<(), NoMemory>
    requires { IsTape journal.old }
    ensures rests { Rests journal.old journal.new }
    ensures room { OnOk result (HasRooms 1 journal.new) }
{
    let due = changes_due(journal, journal.trail_room, journal.choice_room)?;
    journal.changes.reserve(sum(due, 1)?)?;
    Ok(())
}

// The carry of an entry gains cells for places.
fn gain_at(journal: &mut Journal, at: usize, places: Vec<(SlotPlace, Cell)>) -> Result<(), NoMemory>
    requires tape { IsTape journal.old }
    requires at { at < length journal.old.entries.items }
    ensures tape { IsTape journal.new }
    ensures now { journal.new.frames ≡ journal.old.frames }
    ensures trail { journal.new.trail.items ≡ journal.old.trail.items }
    ensures entries { journal.new.entries.items ≡ (if is_ok result
        then entries_with_changes at (carry_of_entries places.items) journal.old.entries.items
        else journal.old.entries.items) }
    ensures rising { OnOk result
        (IsRising (slice_index_or journal.old.entries.items at no_entry).carry) }
    ensures past { scenes journal.new ≡ scenes journal.old }
{
    change_room(journal)?;
    journal.kept.reserve(1)?;
    let gain = gain(journal.alloc, &mut journal.entries, at, places)?;
    journal.kept.push_reserved(gain);
    journal.changes.push_reserved(Change::Kept);
    Ok(())
}

/// Drops the top entry; what differs from its copy enters the carry of the entry at the height.
pub fn keep(journal: &mut Journal, height: usize) -> Result<(), NoMemory>
    requires tape { IsTape journal.old }
    requires low { 1 ≤ height }
    requires below { height < length journal.old.entries.items }
    ensures tape { IsTape journal.new }
    ensures now { journal.new.frames ≡ journal.old.frames }
    ensures held { (picture_of journal.new).held ≡ (if is_ok result
        then held_after_keep (picture_of journal.old).held height journal.old.frames
        else (picture_of journal.old).held) }
    ensures past { scenes journal.new ≡ scenes journal.old }
{
    let mark = journal.entries[journal.entries.len() - 1].mark;
    let found = changes_since(
        journal.alloc,
        &journal.frames,
        journal.trail.as_slice(),
        mark,
    )?;
    gain_at(journal, height - 1, found)?;
    drop_top(journal);
    Ok(())
}
