// How changes are taken back, without memory.
ghost use Rattle.std.specs.Prelude.{true, false, ◌≡◌, [], ◌∷◌, if◌then◌else◌};
ghost use Rattle.alma_back_tape.specs.Inner.Reel.{scene_of};
ghost use Rattle.alma_back_tape.specs.Inner.Past.{IsOpen, IsTape, reel_of, scenes, scenes_open};
ghost use Rattle.alma_back_tape.specs.declared.change.Change.TheVariants.{Dropped, Finished, Kept, Noted, Pushed, Undone};

use crate::change::{Change, Entry};
use crate::forward::undo_note;
use crate::journal::Journal;
use crate::keeping::lose;
use alma_code::ChoiceKind;

// Takes a note back.
fn back_noted(journal: &mut Journal)
    requires { IsOpen Noted journal.old }
    ensures tape { IsTape journal.new }
    ensures past { scenes journal.new ≡ scenes_open Noted journal.old }
    ensures changes { journal.new.changes.items ≡ journal.old.changes.items }
{
    let Some(note) = journal.trail.pop() else {
        unreachable!()
    };
    let _ = undo_note(&mut journal.frames, note);
}

// Takes an entry back that was pushed.
fn back_pushed(journal: &mut Journal)
    requires { IsOpen Pushed journal.old }
    ensures tape { IsTape journal.new }
    ensures past { scenes journal.new ≡ scenes_open Pushed journal.old }
    ensures changes { journal.new.changes.items ≡ journal.old.changes.items }
{
    let Some(_entry) = journal.entries.pop() else {
        unreachable!()
    };
}

// Undoes the undoing of a note.
fn back_undone(journal: &mut Journal)
    requires { IsOpen Undone journal.old }
    ensures tape { IsTape journal.new }
    ensures past { scenes journal.new ≡ scenes_open Undone journal.old }
    ensures changes { journal.new.changes.items ≡ journal.old.changes.items }
{
    let Some(note) = journal.redo.pop() else {
        unreachable!()
    };
    let flipped = undo_note(&mut journal.frames, note);
    journal.trail.push_reserved(flipped);
}

// Brings an entry back that was dropped.
fn back_dropped(journal: &mut Journal)
    requires { IsOpen Dropped journal.old }
    ensures tape { IsTape journal.new }
    ensures past { scenes journal.new ≡ scenes_open Dropped journal.old }
    ensures changes { journal.new.changes.items ≡ journal.old.changes.items }
{
    let Some(entry) = journal.dropped.pop() else {
        unreachable!()
    };
    journal.entries.push_reserved(entry);
}

// Turns a Done back into a Forall.
fn back_finished(journal: &mut Journal)
    requires { IsOpen Finished journal.old }
    ensures tape { IsTape journal.new }
    ensures past { scenes journal.new ≡ scenes_open Finished journal.old }
    ensures changes { journal.new.changes.items ≡ journal.old.changes.items }
{
    let Some(entry) = journal.entries.pop() else {
        unreachable!()
    };
    journal.entries.push_reserved(Entry {
        kind: ChoiceKind::Forall,
        resume: entry.resume,
        mark: entry.mark,
        carry: entry.carry,
    });
}

// Takes from a carry what it gained.
fn back_kept(journal: &mut Journal)
    requires { IsOpen Kept journal.old }
    ensures tape { IsTape journal.new }
    ensures past { scenes journal.new ≡ scenes_open Kept journal.old }
    ensures changes { journal.new.changes.items ≡ journal.old.changes.items }
{
    let Some(gain) = journal.kept.pop() else {
        unreachable!()
    };
    lose(&mut journal.entries, gain);
}

// Takes a change back that was the last one, and tells whether a step began with it.
fn take_back(journal: &mut Journal, change: Change) -> bool
    requires { IsOpen change journal.old }
    ensures tape { IsTape journal.new }
    ensures past { (if result then scene_of (reel_of journal.new) ∷ scenes journal.new
        else scenes journal.new) ≡ scenes_open change journal.old }
    ensures changes { journal.new.changes.items ≡ journal.old.changes.items }
{
    match change {
        Change::Began => return true,
        Change::Noted => back_noted(journal),
        Change::Pushed => back_pushed(journal),
        Change::Undone => back_undone(journal),
        Change::Dropped => back_dropped(journal),
        Change::Finished => back_finished(journal),
        Change::Kept => back_kept(journal),
    }
    false
}

/// Goes back to where the last step began; false where none did, and then nothing is left to go
/// back to.
pub fn back(journal: &mut Journal) -> bool
    requires { IsTape journal.old }
    ensures tape { IsTape journal.new }
    ensures back { (if result then scene_of (reel_of journal.new) ∷ scenes journal.new else [])
        ≡ scenes journal.old }
{
    while let Some(change) = journal.changes.pop() {
        if take_back(journal, change) {
            return true;
        }
    }
    false
}
