// Live frames and choice entries, and all that takes their changes back.
ghost use Rattle.std.specs.Prelude.{◌≡◌, ◌<◌, ◌≤◌, ◌+◌, ◌*◌, [], ◌∷◌, ◌++◌, length, is_ok, IfOk, OnOk, IsOk, if◌then◌else◌};
ghost use Rattle.alma_base.specs.Limits.{cell_limit};
ghost use Rattle.alma_code.specs.Picture.{kind_at as kind_there};
ghost use Rattle.alma_memory_store.specs.Frames.{IsWhole};
ghost use Rattle.alma_back_tape.specs.declared.change.Change.TheVariants.{Noted};
ghost use Rattle.alma_back_tape.specs.Inner.Past.{HasRooms, IsTape, Reserves, Rests, picture_of, reel_of, scenes};
ghost use Rattle.alma_back_tape.specs.Inner.Reel.{scene_of};

use crate::change::{Change, Entry, Gain, Note};
use crate::frame::Frame;
use crate::frames::Frames;
use alma_base::NoMemory;
use alma_code::ChoiceKind;
use std::alloc::Global;

/// What a `Tape` is made of. Each list but the frames grows and shrinks at its end alone.
#[derive(Drop)]
pub struct Journal {
    pub alloc: Global,
    pub frames: Frames,
    pub trail: Vec<Note>,
    pub entries: Vec<Entry>,
    /// Notes that were undone, each turned into the one that undoes that.
    pub redo: Vec<Note>,
    /// Entries that were dropped.
    pub dropped: Vec<Entry>,
    /// What carries gained.
    pub kept: Vec<Gain>,
    pub changes: Vec<Change>,
    /// How many more entries need no memory.
    pub choice_room: usize,
    /// How many more notes need no memory.
    pub trail_room: usize,
}

/// The sum, where it is a number of memory.
pub fn sum(left: usize, right: usize) -> Result<usize, NoMemory>
    ensures { IfOk result (λ sum. sum ≡ left + right) }
{
    left.checked_add(right).ok_or(NoMemory)
}

/// How many changes there may be, where there is room for so many more notes and entries.
pub fn changes_due(journal: &Journal, notes: usize, choices: usize) -> Result<usize, NoMemory>
    ensures { IfOk result (λ due. due ≡ length journal.now.trail.items
        + length journal.now.dropped.items + 2 * length journal.now.entries.items
        + 2 * notes + 3 * choices) }
{
    let once = sum(journal.trail.len(), journal.dropped.len())?;
    let twice = sum(sum(journal.entries.len(), notes)?, choices)?;
    let due = sum(sum(once, twice)?, twice)?;
    sum(due, choices)
}

// How many places are taken at once where one is wanted.
const BATCH: usize = 64;

/// Room for so many more notes.
pub fn reserve_notes(journal: &mut Journal, notes: usize) -> Result<(), NoMemory>
    requires { HasRooms 0 journal.old }
    ensures reserves { Reserves journal.old journal.new }
    ensures choice_room { journal.new.choice_room ≡ journal.old.choice_room }
    ensures trail_room { OnOk result (notes ≤ journal.new.trail_room) }
{
    if notes <= journal.trail_room {
        return Ok(());
    }
    let beside_trail = sum(journal.redo.len(), notes)?;
    let beside_redo = sum(journal.trail.len(), notes)?;
    let changes = changes_due(journal, notes, journal.choice_room)?;
    journal.trail.reserve(beside_trail)?;
    journal.redo.reserve(beside_redo)?;
    journal.changes.reserve(changes)?;
    journal.trail_room = notes;
    Ok(())
}

/// Room for so many more entries.
pub fn reserve_choices(journal: &mut Journal, choices: usize) -> Result<(), NoMemory>
    requires { HasRooms 0 journal.old }
    ensures reserves { Reserves journal.old journal.new }
    ensures trail_room { journal.new.trail_room ≡ journal.old.trail_room }
    ensures choice_room { OnOk result (choices ≤ journal.new.choice_room) }
{
    if choices <= journal.choice_room {
        return Ok(());
    }
    let beside_entries = sum(journal.dropped.len(), choices)?;
    let beside_dropped = sum(journal.entries.len(), choices)?;
    let changes = changes_due(journal, journal.trail_room, choices)?;
    journal.entries.reserve(beside_entries)?;
    journal.dropped.reserve(beside_dropped)?;
    journal.changes.reserve(changes)?;
    journal.choice_room = choices;
    Ok(())
}

/// Room for one more note.
pub fn note_room(journal: &mut Journal) -> Result<(), NoMemory>
    requires { IsTape journal.old }
    ensures rests { Rests journal.old journal.new }
    ensures succeeds { 1 ≤ journal.old.trail_room → IsOk result }
    ensures choice_room { journal.old.choice_room ≤ journal.new.choice_room }
    ensures trail_room { journal.old.trail_room ≤ journal.new.trail_room }
    ensures room { OnOk result (1 ≤ journal.new.trail_room) }
{
    if journal.trail_room > 0 {
        return Ok(());
    }
    reserve_notes(journal, BATCH)
}

/// Room for one more entry.
pub fn choice_room(journal: &mut Journal) -> Result<(), NoMemory>
    requires { IsTape journal.old }
    ensures rests { Rests journal.old journal.new }
    ensures succeeds { 1 ≤ journal.old.choice_room → IsOk result }
    ensures trail_room { journal.old.trail_room ≤ journal.new.trail_room }
    ensures choice_room { journal.old.choice_room ≤ journal.new.choice_room }
    ensures room { OnOk result (1 ≤ journal.new.choice_room) }
{
    if journal.choice_room > 0 {
        return Ok(());
    }
    reserve_choices(journal, BATCH)
}

/// Adds a note, where there is room for it.
pub fn add_note(journal: &mut Journal, note: Note)
    requires rooms { HasRooms 0 journal.old }
    requires some { 1 ≤ journal.old.trail_room }
    ensures rooms { HasRooms 0 journal.new }
    ensures reel { reel_of journal.new ≡ record (reel_of journal.old) {
      trail = journal.old.trail.items ++ note ∷ [];
    } }
    ensures changes { journal.new.changes.items ≡ journal.old.changes.items ++ Noted ∷ [] }
    ensures choice_room { journal.new.choice_room ≡ journal.old.choice_room }
    ensures trail_room { journal.new.trail_room + 1 ≡ journal.old.trail_room }
{
    journal.trail.push_reserved(note);
    journal.changes.push_reserved(Change::Noted);
    journal.trail_room -= 1;
}

/// One frame, no entry, and no step to go back to.
pub fn start(alloc: Global, frame: Frame) -> Result<Journal, NoMemory>
    requires few { frame.declared ≤ cell_limit }
    requires whole { IsWhole frame }
    ensures tape { IfOk result IsTape }
    ensures now { IfOk result (λ journal. journal.frames ≡ frame ∷ []) }
    ensures held { IfOk result (λ journal. (picture_of journal).held ≡ []) }
    ensures past { IfOk result (λ journal. scenes journal ≡ []) }
{
    let frames = Frames::start(alloc, frame)?;
    Ok(Journal {
        alloc,
        frames,
        trail: Vec::new(alloc),
        entries: Vec::new(alloc),
        redo: Vec::new(alloc),
        dropped: Vec::new(alloc),
        kept: Vec::new(alloc),
        changes: Vec::new(alloc),
        choice_room: 0,
        trail_room: 0,
    })
}

/// A step begins here.
pub fn begin(journal: &mut Journal) -> Result<(), NoMemory>
    requires { IsTape journal.old }
    ensures tape { IsTape journal.new }
    ensures reel { reel_of journal.new ≡ reel_of journal.old }
    ensures past { scenes journal.new ≡ (if is_ok result
        then scene_of (reel_of journal.old) ∷ scenes journal.old else scenes journal.old) }
    ensures choice_room { journal.new.choice_room ≡ journal.old.choice_room }
    ensures trail_room { journal.new.trail_room ≡ journal.old.trail_room }
{
    let due = changes_due(journal, journal.trail_room, journal.choice_room)?;
    journal.changes.reserve(sum(due, 1)?)?;
    journal.changes.push_reserved(Change::Began);
    Ok(())
}

/// The kind of the entry at a height, counted from 1 at the bottom. None where there is none.
pub fn kind_at(journal: &Journal, height: usize) -> Option<ChoiceKind>
    ensures { result ≡ kind_there (picture_of journal.now).held height }
{
    if height == 0 {
        return None;
    }
    if height > journal.entries.len() {
        return None;
    }
    Some(journal.entries[height - 1].kind)
}
