// Changes, each with what takes it back.
ghost use Rattle.std.specs.Prelude.{◌≡◌, ◌<◌, ◌≤◌, ◌+◌, ◌-◌, [], ◌∷◌, ◌++◌, length, take, drop, slice_index_or, is_ok, IfOk, IsOk, IsSome, IsNone, IfSome, if◌then◌else◌, ◌↔◌};
ghost use Rattle.alma_base.specs.Limits.{cell_limit, frame_limit};
ghost use Rattle.alma_code.specs.Picture.{no_frame, frames_with_cell, last_frame, without_last, live_cells, stack_after_pop, top_of};
ghost use Rattle.alma_code.specs.Carries.{IsLive};
ghost use Rattle.alma_code.specs.Layout.{FitsParams, IsHead, frame_of_call};
ghost use Rattle.alma_code.specs.declared.cell.ChoiceKind.TheVariants as choice;
ghost use Rattle.alma_memory_store.specs.Frames.{AreLive, IsWhole};
ghost use Rattle.alma_back_tape.specs.Inner.Reel.{flip, front, last_or, no_entry, no_note, stays, undo, unwind};
ghost use Rattle.alma_back_tape.specs.Inner.Past.{IsTape, Rises, Undoes, picture_of, scenes};

use crate::change::{Change, Entry, Note};
use crate::frame::Frame;
use crate::frames::Frames;
use crate::journal::{Journal, add_note, choice_room, note_room};
use crate::layout::frame_from;
use alma_base::NoMemory;
use alma_code::{Cell, ChoiceKind, Head};
use alma_memory::Resumed;
use alma_memory_store::{Carry, SlotPlace};

/// Undoes a note, and gives the one by which that is undone.
pub fn undo_note(frames: &mut Frames, note: Note) -> Note
    requires live { AreLive frames.old }
    requires undoes { Undoes note frames.old }
    requires after { AreLive (undo note frames.old) }
    ensures frames { frames.new ≡ undo note frames.old }
    ensures flipped { result ≡ flip note frames.old }
{
    match note {
        Note::Wrote(place, cell) => {
            let now = frames.cell(place);
            frames.write(place, cell);
            Note::Wrote(place, now)
        }
        Note::Entered => Note::Left(frames.pop()),
        Note::Left(frame) => {
            frames.push(frame);
            Note::Entered
        }
    }
}

/// Writes a cell.
pub fn write(journal: &mut Journal, place: SlotPlace, cell: Cell) -> Result<(), NoMemory>
    requires tape { IsTape journal.old }
    requires live { place.frame < length journal.old.frames }
    requires slot_of { place.slot < length
        (slice_index_or journal.old.frames place.frame no_frame).cells }
    ensures tape { IsTape journal.new }
    ensures now { journal.new.frames ≡ (if is_ok result then frames_with_cell journal.old.frames
        place.frame place.slot cell else journal.old.frames) }
    ensures held { (picture_of journal.new).held ≡ (picture_of journal.old).held }
    ensures past { scenes journal.new ≡ scenes journal.old }
    ensures succeeds { 1 ≤ journal.old.trail_room → IsOk result }
    ensures choice_room { journal.old.choice_room ≤ journal.new.choice_room }
    ensures trail_room { journal.old.trail_room ≤ journal.new.trail_room
        + (if is_ok result then 1 else 0) }
{
    note_room(journal)?;
    let old = journal.frames.cell(place);
    journal.frames.write(place, cell);
    add_note(journal, Note::Wrote(place, old));
    Ok(())
}

// Pushes a frame.
fn enter(journal: &mut Journal, frame: Frame) -> Result<(), NoMemory>
    requires tape { IsTape journal.old }
    requires depth { length journal.old.frames < frame_limit }
    requires cells { live_cells journal.old.frames + frame.declared ≤ cell_limit }
    requires whole { IsWhole frame }
    ensures tape { IsTape journal.new }
    ensures now { journal.new.frames ≡ (if is_ok result then journal.old.frames ++ frame ∷ []
        else journal.old.frames) }
    ensures held { (picture_of journal.new).held ≡ (picture_of journal.old).held }
    ensures past { scenes journal.new ≡ scenes journal.old }
{
    note_room(journal)?;
    journal.frames.push(frame);
    add_note(journal, Note::Entered);
    Ok(())
}

/// Pushes the frame of a call, laid out by its head and its arguments.
pub fn call<H: Head>(
    journal: &mut Journal,
    head: &H,
    routine: u32,
    back: u32,
    args: &[Cell],
) -> Result<(), NoMemory>
    requires tape { IsTape journal.old }
    requires head { IsHead (H.head head.now) }
    requires args { FitsParams (IsLive journal.old.frames)
        (λ routine. IsLive journal.old.frames) (H.head head.now).params args.now }
    requires depth { length journal.old.frames < frame_limit }
    requires cells { live_cells journal.old.frames + (H.head head.now).declared ≤ cell_limit }
    ensures tape { IsTape journal.new }
    ensures now { journal.new.frames ≡ (if is_ok result
        then journal.old.frames ++ frame_of_call journal.old.frames (H.head head.now) routine back
        args.now ∷ []
        else journal.old.frames) }
    ensures held { (picture_of journal.new).held ≡ (picture_of journal.old).held }
    ensures past { scenes journal.new ≡ scenes journal.old }
{
    let frame = frame_from(journal.alloc, &journal.frames, head, routine, back, args)?;
    enter(journal, frame)
}

/// Drops the top frame, and answers the address that it returns to.
pub fn leave(journal: &mut Journal) -> Result<u32, NoMemory>
    requires tape { IsTape journal.old }
    requires below { 2 ≤ length journal.old.frames }
    ensures tape { IsTape journal.new }
    ensures now { journal.new.frames ≡ (if is_ok result then without_last journal.old.frames
        else journal.old.frames) }
    ensures back { IfOk result (λ back. back ≡ (last_frame journal.old.frames).back) }
    ensures held { (picture_of journal.new).held ≡ (picture_of journal.old).held }
    ensures past { scenes journal.new ≡ scenes journal.old }
    ensures succeeds { 1 ≤ journal.old.trail_room → IsOk result }
    ensures trail_room { journal.old.trail_room ≤ journal.new.trail_room
        + (if is_ok result then 1 else 0) }
{
    note_room(journal)?;
    let frame = journal.frames.pop();
    let back = frame.back();
    add_note(journal, Note::Left(frame));
    Ok(back)
}

/// Pushes an entry with a copy of the frames, a Forall with an empty carry.
pub fn choose(journal: &mut Journal, kind: ChoiceKind, resume: u32) -> Result<(), NoMemory>
    requires { IsTape journal.old }
    ensures tape { IsTape journal.new }
    ensures now { journal.new.frames ≡ journal.old.frames }
    ensures held { (picture_of journal.new).held ≡ (if is_ok result
        then (picture_of journal.old).held ++ (record {
          kind = kind;
          resume = resume;
          frames = journal.old.frames;
          carry = [];
        }) ∷ []
        else (picture_of journal.old).held) }
    ensures past { scenes journal.new ≡ scenes journal.old }
    ensures succeeds { 1 ≤ journal.old.choice_room → IsOk result }
    ensures trail_room { journal.old.trail_room ≤ journal.new.trail_room }
{
    choice_room(journal)?;
    let mark = journal.trail.len();
    let carry = Carry::new(journal.alloc);
    journal.entries.push_reserved(Entry {
        kind,
        resume,
        mark,
        carry,
    });
    journal.changes.push_reserved(Change::Pushed);
    journal.choice_room -= 1;
    Ok(())
}

/// Drops the top entry.
pub fn drop_top(journal: &mut Journal)
    requires tape { IsTape journal.old }
    requires some { 1 ≤ length journal.old.entries.items }
    ensures tape { IsTape journal.new }
    ensures now { journal.new.frames ≡ journal.old.frames }
    ensures entries { journal.new.entries.items ≡ front journal.old.entries.items }
    ensures trail { journal.new.trail.items ≡ journal.old.trail.items }
    ensures trail_room { journal.new.trail_room ≡ journal.old.trail_room }
    ensures choice_room { journal.new.choice_room ≡ journal.old.choice_room }
    ensures past { scenes journal.new ≡ scenes journal.old }
{
    let Some(entry) = journal.entries.pop() else {
        unreachable!()
    };
    journal.dropped.push_reserved(entry);
    journal.changes.push_reserved(Change::Dropped);
}

// Turns the top entry, a Forall, into a Done.
fn finish_top(journal: &mut Journal)
    requires tape { IsTape journal.old }
    requires some { 1 ≤ length journal.old.entries.items }
    requires forall { (last_or journal.old.entries.items no_entry).kind ≡ choice.Forall }
    ensures tape { IsTape journal.new }
    ensures now { journal.new.frames ≡ journal.old.frames }
    ensures entries { journal.new.entries.items ≡ front journal.old.entries.items
        ++ record (last_or journal.old.entries.items no_entry) { kind = choice.Done } ∷ [] }
    ensures trail { journal.new.trail.items ≡ journal.old.trail.items }
    ensures past { scenes journal.new ≡ scenes journal.old }
{
    let Some(entry) = journal.entries.pop() else {
        unreachable!()
    };
    journal.entries.push_reserved(Entry {
        kind: ChoiceKind::Done,
        resume: entry.resume,
        mark: entry.mark,
        carry: entry.carry,
    });
    journal.changes.push_reserved(Change::Finished);
}

// Undoes the last note.
fn undo_top(journal: &mut Journal)
    requires tape { IsTape journal.old }
    requires some { 1 ≤ length journal.old.trail.items }
    requires above { Rises 0 journal.old.entries.items
        (length (front journal.old.trail.items)) }
    ensures tape { IsTape journal.new }
    ensures now { journal.new.frames ≡ undo (last_or journal.old.trail.items no_note)
        journal.old.frames }
    ensures trail { journal.new.trail.items ≡ front journal.old.trail.items }
    ensures entries { journal.new.entries.items ≡ journal.old.entries.items }
    ensures past { scenes journal.new ≡ scenes journal.old }
{
    let Some(note) = journal.trail.pop() else {
        unreachable!()
    };
    let flipped = undo_note(&mut journal.frames, note);
    journal.redo.push_reserved(flipped);
    journal.changes.push_reserved(Change::Undone);
}

// Undoes the notes above a mark, the last one first.
fn unwind_to(journal: &mut Journal, mark: usize)
    requires tape { IsTape journal.old }
    requires above { Rises 0 journal.old.entries.items mark }
    requires within { mark ≤ length journal.old.trail.items }
    ensures tape { IsTape journal.new }
    ensures now { journal.new.frames ≡ unwind (drop mark journal.old.trail.items)
        journal.old.frames }
    ensures trail { journal.new.trail.items ≡ take mark journal.old.trail.items }
    ensures entries { journal.new.entries.items ≡ journal.old.entries.items }
    ensures past { scenes journal.new ≡ scenes journal.old }
{
    while journal.trail.len() > mark {
        undo_top(journal);
    }
}

// Takes the top entry away, but turns a Forall into a Done.
fn pop_top(journal: &mut Journal, kind: ChoiceKind)
    requires tape { IsTape journal.old }
    requires some { 1 ≤ length journal.old.entries.items }
    requires kind { (last_or journal.old.entries.items no_entry).kind ≡ kind }
    ensures tape { IsTape journal.new }
    ensures now { journal.new.frames ≡ journal.old.frames }
    ensures entries { journal.new.entries.items ≡ front journal.old.entries.items
        ++ stays (last_or journal.old.entries.items no_entry) }
    ensures trail { journal.new.trail.items ≡ journal.old.trail.items }
    ensures past { scenes journal.new ≡ scenes journal.old }
{
    if kind == ChoiceKind::Forall {
        finish_top(journal);
    } else {
        drop_top(journal);
    }
}

/// Goes back to the top entry, and drops it, but a Forall stays as a Done. None where there is no
/// entry.
pub fn fail(journal: &mut Journal) -> Option<Resumed>
    requires { IsTape journal.old }
    ensures tape { IsTape journal.new }
    ensures none { IsNone result ↔ ((picture_of journal.old).held ≡ []) }
    ensures kind { IfSome result
        (λ resumed. resumed.kind ≡ (top_of (picture_of journal.old).held).kind) }
    ensures resume { IfSome result
        (λ resumed. resumed.resume ≡ (top_of (picture_of journal.old).held).resume) }
    ensures now { IsSome result
        → journal.new.frames ≡ (top_of (picture_of journal.old).held).frames }
    ensures held { IsSome result
        → (picture_of journal.new).held ≡ stack_after_pop (picture_of journal.old).held }
    ensures empty { IsNone result → journal.new ≡ journal.old }
    ensures past { scenes journal.new ≡ scenes journal.old }
{
    let height = journal.entries.len();
    if height == 0 {
        return None;
    }
    let top = &journal.entries[height - 1];
    let (kind, resume, mark) = (top.kind, top.resume, top.mark);
    unwind_to(journal, mark);
    pop_top(journal, kind);
    Some(Resumed { kind, resume })
}

/// Drops all entries above a height.
pub fn cut(journal: &mut Journal, height: usize)
    requires { IsTape journal.old }
    ensures tape { IsTape journal.new }
    ensures now { journal.new.frames ≡ journal.old.frames }
    ensures held { (picture_of journal.new).held ≡ take height (picture_of journal.old).held }
    ensures past { scenes journal.new ≡ scenes journal.old }
{
    while journal.entries.len() > height {
        drop_top(journal);
    }
}
