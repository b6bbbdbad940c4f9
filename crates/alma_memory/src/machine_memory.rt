// What a machine needs of its memory, whichever it is.
ghost use Rattle.std.specs.Prelude.{◌≡◌, ◌≢◌, ◌+◌, ◌-◌, ◌<◌, ◌≤◌, [], ◌∷◌, ◌++◌, length, take, is_ok, slice_index_or, slice_get, Some, IfOk, OnOk, IsOk, IsSome, IsNone, IfSome, IfNone, MatchResult, if◌then◌else◌, ◌↔◌};
ghost use Rattle.alma_code.specs.Picture.{no_frame, frames_with_cell, cell_at, kind_at, last_frame, without_last, stack_after_pop, top_of, entry_at};
ghost use Rattle.alma_code.specs.Carries.{IsLive, IsForallAt, IsTop, held_after_keep, frames_with_carry};
ghost use Rattle.alma_code.specs.Layout.{IsHead, FitsParams, frame_of_call};
ghost use Rattle.alma_code.specs.declared.cell.Cell.TheVariants as cell;
ghost use Rattle.alma_memory.specs.Machine.{MachinePicture};
ghost use Rattle.alma_memory.specs.Refusals.{HasFrameRoom, RefusesFor};

use crate::memory::{EnterError, Memory, Resumed};
use alma_base::NoMemory;
use alma_code::{Cell, ChoiceKind, Head, SlotKind};

/// A memory that a machine runs over: live frames, and a stack of choice entries with a whole copy
/// of the frames for each.
pub trait MachineMemory: Drop {
    ghost picture: { Self → MachinePicture };

    /// Makes room for so many more entries and notes.
    fn reserve(&mut self, choices: usize, trail: usize) -> Result<(), NoMemory>
        ensures now { (picture self.new).now ≡ (picture self.old).now }
        ensures held { (picture self.new).held ≡ (picture self.old).held }
        ensures past { (picture self.new).past ≡ (picture self.old).past }
        ensures choice_room { OnOk result (choices ≤ (picture self.new).choice_room) }
        ensures trail_room { OnOk result (trail ≤ (picture self.new).trail_room) };

    /// How many frames are live.
    fn frames(&self) -> u32
        ensures { result ≡ length (picture self.now).now };

    /// How many entries there are.
    fn height(&self) -> usize
        ensures { result ≡ length (picture self.now).held };

    /// The kind of the entry at a height, counted from 1 at the bottom. None where there is none.
    fn kind_at(&self, height: usize) -> Option<ChoiceKind>
        ensures { result ≡ kind_at (picture self.now).held height };

    /// What a slot of a live frame holds. Frame 0 is that of the module body.
    fn read(&self, frame: u32, slot: u32) -> Cell
        requires live { frame < length (picture self.now).now }
        requires slot_of { slot
            < length (slice_index_or (picture self.now).now frame no_frame).cells }
        ensures { result ≡ cell_at (picture self.now).now frame slot cell.Unknown };

    /// What a slot of the top frame holds.
    fn top(&self, slot: u32) -> Cell
        requires { slot < length (last_frame (picture self.now).now).cells }
        ensures { slice_get (last_frame (picture self.now).now).cells slot ≡ Some result };

    /// The kind of a slot of the top frame.
    fn top_kind(&self, slot: u32) -> SlotKind
        requires { slot < length (last_frame (picture self.now).now).kinds }
        ensures { slice_get (last_frame (picture self.now).now).kinds slot ≡ Some result };

    /// Writes into a slot of a live frame.
    fn write(&mut self, frame: u32, slot: u32, cell: Cell) -> Result<(), NoMemory>
        requires live { frame < length (picture self.old).now }
        requires slot_of { slot
            < length (slice_index_or (picture self.old).now frame no_frame).cells }
        ensures now { (picture self.new).now ≡ (if is_ok result then frames_with_cell
            (picture self.old).now frame slot cell else (picture self.old).now) }
        ensures held { (picture self.new).held ≡ (picture self.old).held }
        ensures past { (picture self.new).past ≡ (picture self.old).past }
        ensures succeeds { 1 ≤ (picture self.old).trail_room → IsOk result }
        ensures choice_room { (picture self.old).choice_room ≤ (picture self.new).choice_room }
        ensures trail_room { (picture self.old).trail_room ≤ (picture self.new).trail_room +
            (if is_ok result then 1 else 0) };

    /// Writes into a slot of the top frame.
    fn put(&mut self, slot: u32, cell: Cell) -> Result<(), NoMemory>
        requires { slot < length (last_frame (picture self.old).now).cells }
        ensures now { (picture self.new).now ≡ (if is_ok result then frames_with_cell
            (picture self.old).now (length (picture self.old).now - 1) slot cell
            else (picture self.old).now) }
        ensures held { (picture self.new).held ≡ (picture self.old).held }
        ensures past { (picture self.new).past ≡ (picture self.old).past };

    /// Pushes a frame, laid out by its head and its arguments.
    fn enter<H: Head>(
        &mut self,
        head: &H,
        routine: u32,
        back: u32,
        args: &[Cell],
    ) -> Result<(), EnterError>
        requires head { IsHead (H.head head.now) }
        requires args { FitsParams (IsLive (picture self.old).now)
            (λ routine. IsLive (picture self.old).now) (H.head head.now).params args.now }
        ensures now { (picture self.new).now ≡ (if is_ok result
            then (picture self.old).now ++ frame_of_call (picture self.old).now
            (H.head head.now) routine back args.now ∷ []
            else (picture self.old).now) }
        ensures held { (picture self.new).held ≡ (picture self.old).held }
        ensures past { (picture self.new).past ≡ (picture self.old).past }
        ensures answer { MatchResult result
            (λ _. HasFrameRoom (picture self.old).now (H.head head.now).declared)
            (λ error. RefusesFor error (picture self.old).now (H.head head.now).declared) };

    /// Drops the top frame, and answers the address that it returns to.
    fn leave(&mut self) -> Result<u32, NoMemory>
        requires { 2 ≤ length (picture self.old).now }
        ensures now { (picture self.new).now ≡ (if is_ok result
            then without_last (picture self.old).now else (picture self.old).now) }
        ensures held { (picture self.new).held ≡ (picture self.old).held }
        ensures past { (picture self.new).past ≡ (picture self.old).past }
        ensures back { IfOk result (λ back. back ≡ (last_frame (picture self.old).now).back) }
        ensures succeeds { 1 ≤ (picture self.old).trail_room → IsOk result }
        ensures trail_room { (picture self.old).trail_room ≤ (picture self.new).trail_room +
            (if is_ok result then 1 else 0) };

    /// Pushes an entry with a copy of the frames, a Forall with an empty carry.
    fn choose(&mut self, kind: ChoiceKind, resume: u32) -> Result<(), NoMemory>
        requires { kind ≢ ChoiceKind.Done }
        ensures now { (picture self.new).now ≡ (picture self.old).now }
        ensures held { (picture self.new).held ≡ (if is_ok result
            then (picture self.old).held ++ (record {
              kind = kind;
              resume = resume;
              frames = (picture self.old).now;
              carry = [];
            }) ∷ []
            else (picture self.old).held) }
        ensures past { (picture self.new).past ≡ (picture self.old).past }
        ensures succeeds { 1 ≤ (picture self.old).choice_room → IsOk result }
        ensures trail_room { (picture self.old).trail_room ≤ (picture self.new).trail_room };

    /// Goes back to the top entry: its copy becomes the frames, and the entry is dropped, but a
    /// Forall stays as a Done. None where there is no entry.
    fn fail(&mut self) -> Option<Resumed>
        ensures none { IsNone result ↔ ((picture self.old).held ≡ []) }
        ensures kind { IfSome result
            (λ resumed. resumed.kind ≡ (top_of (picture self.old).held).kind) }
        ensures resume { IfSome result
            (λ resumed. resumed.resume ≡ (top_of (picture self.old).held).resume) }
        ensures now { IsSome result
            → (picture self.new).now ≡ (top_of (picture self.old).held).frames }
        ensures held { IsSome result
            → (picture self.new).held ≡ stack_after_pop (picture self.old).held }
        ensures empty { IfNone result (self.new ≡ self.old) }
        ensures past { (picture self.new).past ≡ (picture self.old).past };

    /// Drops all entries above a height.
    fn cut(&mut self, height: usize)
        ensures now { (picture self.new).now ≡ (picture self.old).now }
        ensures held { (picture self.new).held ≡ take height (picture self.old).held }
        ensures past { (picture self.new).past ≡ (picture self.old).past };

    /// Lays the carry of the Forall at a height over the frames.
    fn overlay(&mut self, height: usize) -> Result<(), NoMemory>
        requires { IsForallAt (picture self.old).held height }
        ensures now { (picture self.new).now ≡ (if is_ok result
            then frames_with_carry (picture self.old).now
            (entry_at (picture self.old).held height).carry
            else (picture self.old).now) }
        ensures held { (picture self.new).held ≡ (picture self.old).held }
        ensures past { (picture self.new).past ≡ (picture self.old).past }
        ensures choice_room { (picture self.old).choice_room ≤ (picture self.new).choice_room };

    /// Drops the Body on top: each number slot that is live in its copy and now and differs enters
    /// the carry of the Forall at the height.
    fn keep(&mut self, height: usize) -> Result<(), NoMemory>
        requires body { IsTop (picture self.old).held ChoiceKind.Body }
        requires forall { IsForallAt (picture self.old).held height }
        requires below { height < length (picture self.old).held }
        ensures now { (picture self.new).now ≡ (picture self.old).now }
        ensures held { (picture self.new).held ≡ (if is_ok result
            then held_after_keep (picture self.old).held height (picture self.old).now
            else (picture self.old).held) }
        ensures past { (picture self.new).past ≡ (picture self.old).past };

    /// Drops the Done on top, and lays its carry over the frames.
    fn finish(&mut self) -> Result<(), NoMemory>
        requires { IsTop (picture self.old).held ChoiceKind.Done }
        ensures now { (picture self.new).now ≡ (if is_ok result
            then frames_with_carry (picture self.old).now (top_of (picture self.old).held).carry
            else (picture self.old).now) }
        ensures held { (picture self.new).held ≡ (if is_ok result
            then take (length (picture self.old).held - 1) (picture self.old).held
            else (picture self.old).held) }
        ensures past { (picture self.new).past ≡ (picture self.old).past };
}

impl MachineMemory for Memory {
    ghost picture = { λ m. record {
      now = m.now;
      held = m.held;
      choice_room = m.choice_room;
      trail_room = m.trail_room;
      past = [];
    } };

    fn reserve(&mut self, choices: usize, trail: usize) -> Result<(), NoMemory> {
        Memory::reserve(self, choices, trail)
    }

    #[inline(always)]
    fn frames(&self) -> u32 {
        Memory::frames(self)
    }

    #[inline(always)]
    fn height(&self) -> usize {
        Memory::height(self)
    }

    fn kind_at(&self, height: usize) -> Option<ChoiceKind> {
        Memory::kind_at(self, height)
    }

    #[inline(always)]
    fn read(&self, frame: u32, slot: u32) -> Cell {
        Memory::read(self, frame, slot)
    }

    #[inline(always)]
    fn top(&self, slot: u32) -> Cell {
        Memory::top(self, slot)
    }

    #[inline(always)]
    fn top_kind(&self, slot: u32) -> SlotKind {
        Memory::top_kind(self, slot)
    }

    #[inline(always)]
    fn write(&mut self, frame: u32, slot: u32, cell: Cell) -> Result<(), NoMemory> {
        Memory::write(self, frame, slot, cell)
    }

    #[inline(always)]
    fn put(&mut self, slot: u32, cell: Cell) -> Result<(), NoMemory> {
        Memory::put(self, slot, cell)
    }

    fn enter<H: Head>(
        &mut self,
        head: &H,
        routine: u32,
        back: u32,
        args: &[Cell],
    ) -> Result<(), EnterError> {
        Memory::enter(self, head, routine, back, args)
    }

    #[inline(always)]
    fn leave(&mut self) -> Result<u32, NoMemory> {
        Memory::leave(self)
    }

    #[inline(always)]
    fn choose(&mut self, kind: ChoiceKind, resume: u32) -> Result<(), NoMemory> {
        Memory::choose(self, kind, resume)
    }

    #[inline(always)]
    fn fail(&mut self) -> Option<Resumed> {
        Memory::fail(self)
    }

    #[inline(always)]
    fn cut(&mut self, height: usize) {
        Memory::cut(self, height)
    }

    fn overlay(&mut self, height: usize) -> Result<(), NoMemory> {
        Memory::overlay(self, height)
    }

    fn keep(&mut self, height: usize) -> Result<(), NoMemory> {
        Memory::keep(self, height)
    }

    fn finish(&mut self) -> Result<(), NoMemory> {
        Memory::finish(self)
    }
}
