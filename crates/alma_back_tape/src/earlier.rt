// The frames from before some notes, known by what of the frames of now was other then.
ghost use Rattle.std.specs.Prelude.{◌≡◌, ◌+◌, ◌<◌, ◌≤◌, ◌∷◌, [], ◌++◌, length, drop, IfOk, slice_index_or};
ghost use Rattle.alma_base.specs.Limits.{frame_limit};
ghost use Rattle.alma_code.specs.Picture.{no_frame, frames_with_cell, without_last};
ghost use Rattle.alma_code.specs.Carries.{diffs, diff_at, slot_diffs};
ghost use Rattle.alma_memory_store.specs.Carries.{carry_of_entries};
ghost use Rattle.alma_memory_store.specs.Frames.{AreLive, AreWhole};
ghost use Rattle.alma_back_tape.specs.Inner.Past.{Fits, Undoes};
ghost use Rattle.alma_memory_store.specs.Numbers.{number_of};
ghost use Rattle.alma_memory_store.specs.Past.{SameGain};
ghost use Rattle.alma_back_tape.specs.Inner.Earlier.{over, diffs_at, diffs_between};
ghost use Rattle.alma_back_tape.specs.Inner.Reel.{undo, unwind};

use crate::change::Note;
use crate::frame::Frame;
use crate::frames::Frames;
use alma_base::NoMemory;
use alma_code::Cell;
use alma_memory_store::{Carry, SlotPlace, changed_to};
use std::alloc::Global;
use std::marker::Model;

/// The frames of now and those from before some notes: the first `shared` frames of now with the
/// old `cells`, and the frames that stood above them.
#[derive(Drop)]
pub struct Earlier<'a> {
    frames: &'a Frames,
    shared: u32,
    cells: Carry,
    above: Vec<Frame>,
}

impl<'a> Model for Earlier<'a> {
    ghost use Rattle.std.specs.Prelude.{◌≤◌, length};
    ghost use Rattle.alma_back_tape.specs.Inner.Earlier.{PlainEarlier, before_of};

    ghost Value = { PlainEarlier };

    ghost view = { λ p. record { now = p.frames.now; before = before_of p } };

    ghost invariant = { λ p. p.shared ≤ length p.frames.now };
}

impl<'a> Earlier<'a> {
    // The frames from before no note: those of now.
    fn start(alloc: Global, frames: &'a Frames) -> Earlier<'a>
        ensures now { result.now ≡ frames.now }
        ensures before { result.before ≡ frames.now }
    {
        Earlier {
            frames,
            shared: frames.len(),
            cells: Carry::new(alloc),
            above: Vec::new(alloc),
        }
    }

    // Puts back the old cell of a place.
    fn write(&mut self, place: SlotPlace, cell: Cell) -> Result<(), NoMemory>
        requires live { place.frame < length self.old.before }
        requires slot_of { place.slot < length (slice_index_or self.old.before place.frame
            no_frame).cells }
        ensures now { self.new.now ≡ self.old.now }
        ensures before { IfOk result (λ _. self.new.before
            ≡ frames_with_cell self.old.before place.frame place.slot cell) }
    {
        if place.frame < self.shared {
            self.cells.set(place, cell)?;
            return Ok(());
        }
        let frame = &mut self.above[(place.frame - self.shared) as usize];
        frame.write(place.slot, cell);
        Ok(())
    }

    // Takes the top frame away.
    fn pop(&mut self)
        requires { 1 ≤ length self.old.before }
        ensures now { self.new.now ≡ self.old.now }
        ensures before { self.new.before ≡ without_last self.old.before }
    {
        if self.above.is_empty() {
            self.shared -= 1;
            return;
        }
        let _ = self.above.pop();
    }

    // Puts a copy of a frame on top.
    fn push(&mut self, alloc: Global, frame: &Frame) -> Result<(), NoMemory>
        ensures now { self.new.now ≡ self.old.now }
        ensures before { IfOk result (λ _. self.new.before ≡ self.old.before ++ frame.now ∷ []) }
    {
        self.above.push(frame.copy(alloc)?)?;
        Ok(())
    }

    // Goes back by one note.
    fn undo(&mut self, alloc: Global, note: &Note) -> Result<(), NoMemory>
        requires undoes { Undoes note.now self.old.before }
        requires after { AreLive (undo note.now self.old.before) }
        ensures now { self.new.now ≡ self.old.now }
        ensures before { IfOk result (λ _. self.new.before ≡ undo note.now self.old.before) }
    {
        match note {
            Note::Wrote(place, cell) => self.write(*place, *cell),
            Note::Entered => {
                self.pop();
                Ok(())
            }
            Note::Left(frame) => self.push(alloc, frame),
        }
    }

    // The cell of a place that was a live number slot before the notes.
    fn number(&self, place: SlotPlace) -> Option<Cell>
        requires before { AreWhole self.now.before }
        requires now { AreWhole self.now.now }
        ensures { result ≡ number_of self.now.before place.frame place.slot }
    {
        if place.frame < self.shared {
            return laid_over(self.frames.number(place), self.cells.get(place));
        }
        let at = (place.frame - self.shared) as usize;
        if at >= self.above.len() {
            return None;
        }
        self.above[at].number(place.slot)
    }

    // Adds the change at a place, where there is one.
    fn push_change(
        &self,
        found: &mut Vec<(SlotPlace, Cell)>,
        place: SlotPlace,
    ) -> Result<(), NoMemory>
        requires before { AreWhole self.now.before }
        requires now { AreWhole self.now.now }
        ensures { IfOk result (λ _. carry_of_entries found.new.items
            ≡ carry_of_entries found.old.items
            ++ diff_at self.now.before self.now.now place.frame place.slot) }
    {
        if let Some(cell) = changed_to(self.number(place), self.frames.number(place)) {
            found.push((place, cell))?;
        }
        Ok(())
    }

    // Adds the changes in the first slots of a frame.
    fn push_frame(
        &self,
        found: &mut Vec<(SlotPlace, Cell)>,
        frame: u32,
        slots: u32,
    ) -> Result<(), NoMemory>
        requires before { AreWhole self.now.before }
        requires now { AreWhole self.now.now }
        ensures { IfOk result (λ _. carry_of_entries found.new.items
            ≡ carry_of_entries found.old.items
            ++ slot_diffs self.now.before self.now.now frame slots) }
    {
        for slot in 0..slots {
            self.push_change(found, SlotPlace { frame, slot })?;
        }
        Ok(())
    }

    // How many slots a frame of now has.
    fn slots(&self, frame: u32) -> u32
        requires { frame < length self.now.now }
        ensures { result ≡ length (slice_index_or self.now.now frame no_frame).cells }
    {
        self.frames.at(frame).slots()
    }

    // Adds the changes in so many frames, from one on.
    fn push_frames(
        &self,
        found: &mut Vec<(SlotPlace, Cell)>,
        low: u32,
        count: u32,
    ) -> Result<(), NoMemory>
        requires before { AreWhole self.now.before }
        requires now { AreWhole self.now.now }
        requires live { low + count ≤ length self.now.now }
        requires few { length self.now.now ≤ frame_limit }
        ensures { IfOk result (λ _. carry_of_entries found.new.items
            ≡ carry_of_entries found.old.items
            ++ diffs_between self.now.before self.now.now low count) }
    {
        for at in 0..count {
            let frame = low + at;
            self.push_frame(found, frame, self.slots(frame))?;
        }
        Ok(())
    }

    // Adds the changes at the places of a carry.
    fn push_places(
        &self,
        found: &mut Vec<(SlotPlace, Cell)>,
        places: &Carry,
    ) -> Result<(), NoMemory>
        requires before { AreWhole self.now.before }
        requires now { AreWhole self.now.now }
        ensures { IfOk result (λ _. carry_of_entries found.new.items
            ≡ carry_of_entries found.old.items
            ++ diffs_at self.now.before self.now.now places.now) }
    {
        for (place, _) in &places.cells {
            self.push_change(found, *place)?;
        }
        Ok(())
    }

    /// The number slots that are live in both and differ, with their cells of now. It looks only at
    /// places that the notes name, and at frames that stood above the shared ones.
    pub fn changes(&self, alloc: Global) -> Result<Vec<(SlotPlace, Cell)>, NoMemory>
        requires before { AreLive self.now.before }
        requires now { AreLive self.now.now }
        ensures { IfOk result (λ found. SameGain (carry_of_entries found.items)
            (diffs self.now.before self.now.now)) }
    {
        let mut found = Vec::new(alloc);
        self.push_places(&mut found, &self.cells)?;
        let count = (self.above.len() as u32).min(self.frames.len() - self.shared);
        self.push_frames(&mut found, self.shared, count)?;
        Ok(found)
    }
}

// The cell of a number slot, or the one that is laid over it.
fn laid_over(number: Option<Cell>, cell: Option<Cell>) -> Option<Cell>
    ensures { result ≡ over number cell }
{
    match (number, cell) {
        (Some(_), Some(laid)) => Some(laid),
        (number, _) => number,
    }
}

/// The frames from before the notes above a mark.
pub fn earlier_frames<'a>(
    alloc: Global,
    frames: &'a Frames,
    trail: &[Note],
    mark: usize,
) -> Result<Earlier<'a>, NoMemory>
    requires fits { Fits trail.now frames.now }
    requires mark { mark ≤ length trail.now }
    ensures now { IfOk result (λ past. past.now ≡ frames.now) }
    ensures before { IfOk result (λ past. past.before ≡ unwind (drop mark trail.now) frames.now) }
{
    let mut past = Earlier::start(alloc, frames);
    let mut left = trail.len();
    while left > mark {
        left -= 1;
        past.undo(alloc, &trail[left])?;
    }
    Ok(past)
}
