// How a carry is laid over the frames.
ghost use Rattle.std.specs.Prelude.{◌≡◌, ◌+◌, ◌-◌, ◌≤◌, length, take, is_ok, if◌then◌else◌};
ghost use Rattle.alma_code.specs.Carries.{frames_with_change, frames_with_carry};
ghost use Rattle.alma_code.specs.Picture.{entry_at, top_of};
ghost use Rattle.alma_memory_store.specs.Carries.{carry_of_entries, change_of};
ghost use Rattle.alma_back_tape.specs.Inner.Past.{IsTape, picture_of, scenes};

use crate::forward::{drop_top, write};
use crate::journal::{Journal, reserve_notes};
use alma_base::NoMemory;
use alma_code::Cell;
use alma_memory_store::SlotPlace;

// Lays one cell over the frames, where its place is a live number slot.
fn lay_one(journal: &mut Journal, place: SlotPlace, cell: Cell)
    requires tape { IsTape journal.old }
    requires room { 1 ≤ journal.old.trail_room }
    ensures tape { IsTape journal.new }
    ensures now { journal.new.frames ≡ frames_with_change journal.old.frames
        (change_of place cell) }
    ensures held { (picture_of journal.new).held ≡ (picture_of journal.old).held }
    ensures past { scenes journal.new ≡ scenes journal.old }
    ensures choice_room { journal.old.choice_room ≤ journal.new.choice_room }
    ensures trail_room { journal.old.trail_room ≤ journal.new.trail_room + 1 }
{
    if journal.frames.has_number(place) {
        match write(journal, place, cell) {
            Ok(()) => (),
            Err(_) => unreachable!(),
        }
    }
}

// Lays cells over the frames.
fn lay(journal: &mut Journal, cells: &[(SlotPlace, Cell)])
    requires tape { IsTape journal.old }
    requires room { length cells.now ≤ journal.old.trail_room }
    ensures tape { IsTape journal.new }
    ensures now { journal.new.frames ≡ frames_with_carry journal.old.frames
        (carry_of_entries cells.now) }
    ensures held { (picture_of journal.new).held ≡ (picture_of journal.old).held }
    ensures past { scenes journal.new ≡ scenes journal.old }
    ensures choice_room { journal.old.choice_room ≤ journal.new.choice_room }
{
    for (place, cell) in cells {
        lay_one(journal, *place, *cell);
    }
}

/// Lays the carry of the entry at a height over the frames.
pub fn overlay(journal: &mut Journal, height: usize) -> Result<(), NoMemory>
    requires tape { IsTape journal.old }
    requires some { 1 ≤ height }
    requires below { height ≤ length journal.old.entries.items }
    ensures tape { IsTape journal.new }
    ensures now { journal.new.frames ≡ (if is_ok result
        then frames_with_carry journal.old.frames
        (entry_at (picture_of journal.old).held height).carry
        else journal.old.frames) }
    ensures held { (picture_of journal.new).held ≡ (picture_of journal.old).held }
    ensures past { scenes journal.new ≡ scenes journal.old }
    ensures choice_room { journal.old.choice_room ≤ journal.new.choice_room }
{
    let cells = journal.entries[height - 1].carry.listed(journal.alloc)?;
    reserve_notes(journal, cells.len())?;
    lay(journal, cells.as_slice());
    Ok(())
}

/// Drops the top entry, and lays its carry over the frames.
pub fn finish(journal: &mut Journal) -> Result<(), NoMemory>
    requires tape { IsTape journal.old }
    requires some { 1 ≤ length journal.old.entries.items }
    ensures tape { IsTape journal.new }
    ensures now { journal.new.frames ≡ (if is_ok result
        then frames_with_carry journal.old.frames (top_of (picture_of journal.old).held).carry
        else journal.old.frames) }
    ensures held { (picture_of journal.new).held ≡ (if is_ok result
        then take (length (picture_of journal.old).held - 1) (picture_of journal.old).held
        else (picture_of journal.old).held) }
    ensures past { scenes journal.new ≡ scenes journal.old }
{
    let height = journal.entries.len();
    overlay(journal, height)?;
    drop_top(journal);
    Ok(())
}
