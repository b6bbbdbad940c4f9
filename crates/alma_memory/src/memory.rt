// The memory of the machine, and its calls.
ghost use Rattle.std.specs.Prelude.{◌≡◌, ◌≢◌, ℕ, ◌+◌, ◌-◌, ◌<◌, ◌≤◌, [], ◌∷◌, ◌++◌, length, take, is_ok, is_some, slice_index_or, slice_get, Some, IfOk, OnOk, IsOk, IsSome, IsNone, IfSome, IfNone, MatchResult, if◌then◌else◌, ◌↔◌};
ghost use Rattle.alma_base.specs.Limits.{cell_limit};
ghost use Rattle.alma_code.specs.Picture.{no_frame, frames_with_cell, cell_at, kind_at, last_frame, without_last, live_cells, stack_after_pop, top_of, entry_at};
ghost use Rattle.alma_code.specs.Carries.{IsLive, IsForallAt, IsTop, held_after_keep, frames_with_carry};
ghost use Rattle.alma_code.specs.Layout.{IsHead, FitsParams, start_frame, frame_of_call};
ghost use Rattle.alma_code.specs.declared.cell.Cell.TheVariants as cell;
ghost use Rattle.alma_memory.specs.Calls.{Choose, Cut, Enter, Fail, Finish, Keep, Leave, Makes, Nothing, Overlay, Write};
ghost use Rattle.alma_memory.specs.Picture.{IsNoted, KeepsRooms};
ghost use Rattle.alma_memory.specs.Refusals.{HasFrameRoom, RefusesFor};

use crate::stack::{Entry, cut_to, keep_top, lay, lay_top, pop_entry, push_entry};
use alma_base::{CELL_LIMIT, FRAME_LIMIT, NoMemory};
use alma_code::{Cell, ChoiceKind, Head, SlotKind};
use alma_memory_store::{Images, Store, put_start};
use std::alloc::Global;
use std::marker::Model;

// Room for so many entries and notes is made at the start. It costs nothing before it is used, and
// lists that grow from little leave holes behind them.
const FIRST_ENTRIES: usize = 32_768;

const FIRST_NOTES: usize = 65_536;

/// What a pop gives: the kind of the entry, as it was before, and where to go on.
#[derive(Clone, Copy, Debug, PartialEq, Eq)]
pub struct Resumed {
    pub kind: ChoiceKind,
    pub resume: u32,
}

/// Why a frame is not entered.
#[derive(Clone, Copy, Debug)]
pub enum EnterError {
    /// 10,000 frames are live.
    DepthFull,
    /// More than 1,048,576 declared cells would be live.
    CellsFull,
    /// Memory ran out.
    Memory,
}

/// Live frames, and a stack of choice entries with a whole copy of the frames for each.
#[derive(Drop)]
pub struct Memory {
    alloc: Global,
    store: Store,
    entries: Vec<Entry>,
    // For the frame that is entered.
    images: Images,
}

impl Model for Memory {
    ghost use Rattle.std.specs.Prelude.{◌≡◌, ◌-◌, min, length};
    ghost use Rattle.std.specs.Vec.{vec_len, vec_capacity};
    ghost use Rattle.alma_memory.specs.Picture.{Picture};

    ghost Value = { Picture };

    ghost use Rattle.alma_memory.specs.Inner.Stack.{stack_of};

    ghost view = { λ m. record {
      now = m.store.now;
      held = stack_of m.entries.items m.store.held;
      noted = m.store.noted;
      choice_room = min (vec_capacity m.entries - vec_len m.entries) m.store.choice_room;
      trail_room = m.store.trail_room;
    } };

    ghost invariant = { λ m. length m.entries.items ≡ length m.store.held };
}

impl Memory {
    /// A memory with the frame of routine 0 alone, and no entry. It takes the memory that putting
    /// frames back needs.
    pub fn new<H: Head>(alloc: Global, head: &H) -> Result<Memory, NoMemory>
        requires head { IsHead (H.head head.now) }
        requires some { 1 ≤ (H.head head.now).slots }
        requires few { (H.head head.now).declared ≤ cell_limit }
        ensures now { IfOk result (λ memory. memory.now ≡ start_frame (H.head head.now) ∷ []) }
        ensures held { IfOk result (λ memory. memory.held ≡ []) }
    {
        let mut slots = Vec::new(alloc);
        put_start(&mut slots, head)?;
        let mut memory = Memory {
            alloc,
            store: Store::start(alloc, head.declared(), slots)?,
            entries: Vec::new(alloc),
            images: Images::new(alloc)?,
        };
        memory.reserve(FIRST_ENTRIES, FIRST_NOTES)?;
        Ok(memory)
    }

    /// Makes room for so many more entries and notes.
    pub fn reserve(&mut self, choices: usize, trail: usize) -> Result<(), NoMemory>
        ensures now { self.new.now ≡ self.old.now }
        ensures held { self.new.held ≡ self.old.held }
        ensures rooms { KeepsRooms self.old self.new }
        ensures succeeds { choices ≤ self.old.choice_room → trail ≤ self.old.trail_room
            → IsOk result }
        ensures choice_room { OnOk result (choices ≤ self.new.choice_room) }
        ensures trail_room { OnOk result (trail ≤ self.new.trail_room) }
        ensures noted { self.new.noted ≡ self.old.noted }
        ensures call { Makes Nothing self.old self.new }
    {
        self.entries.reserve(choices)?;
        self.store.reserve(choices, trail)?;
        Ok(())
    }

    /// How many more entries can be pushed without taking memory.
    pub fn choice_room(&self) -> usize
        ensures { result ≡ self.now.choice_room }
    {
        (self.entries.capacity() - self.entries.len()).min(self.store.choice_room())
    }

    /// How many more changes can be noted without taking memory.
    pub fn trail_room(&self) -> usize
        ensures { result ≡ self.now.trail_room }
    {
        self.store.trail_room()
    }

    /// How many frames are live.
    #[inline(always)]
    pub fn frames(&self) -> u32
        ensures { result ≡ length self.now.now }
    {
        self.store.len() as u32
    }

    /// The routine of the top frame.
    pub fn routine(&self) -> u32
        ensures { result ≡ (last_frame self.now.now).routine }
    {
        self.store.routine()
    }

    /// How many cells the live frames declare together.
    pub fn live_cells(&self) -> u32
        ensures { result ≡ live_cells self.now.now }
    {
        self.store.declared()
    }

    /// What a slot of a live frame holds. Frame 0 is that of the module body.
    #[inline(always)]
    pub fn read(&self, frame: u32, slot: u32) -> Cell
        requires live { frame < length self.now.now }
        requires slot_of { slot < length (slice_index_or self.now.now frame no_frame).cells }
        ensures { result ≡ cell_at self.now.now frame slot cell.Unknown }
    {
        self.store.read(frame as usize, slot as usize)
    }

    /// What a slot of the top frame holds.
    #[inline(always)]
    pub fn top(&self, slot: u32) -> Cell
        requires { slot < length (last_frame self.now.now).cells }
        ensures { slice_get (last_frame self.now.now).cells slot ≡ Some result }
    {
        self.store.top_cell(slot as usize)
    }

    /// The kind of a slot of the top frame.
    #[inline(always)]
    pub fn top_kind(&self, slot: u32) -> SlotKind
        requires { slot < length (last_frame self.now.now).kinds }
        ensures { slice_get (last_frame self.now.now).kinds slot ≡ Some result }
    {
        self.store.top_kind(slot as usize)
    }

    /// Writes into a slot of a live frame. What stood there is noted for the entries where it is
    /// not yet, and only that may take memory.
    #[inline(always)]
    pub fn write(&mut self, frame: u32, slot: u32, cell: Cell) -> Result<(), NoMemory>
        requires live { frame < length self.old.now }
        requires slot_of { slot < length (slice_index_or self.old.now frame no_frame).cells }
        ensures now { self.new.now ≡ (if is_ok result then frames_with_cell self.old.now frame
            slot cell else
            self.old.now) }
        ensures held { self.new.held ≡ self.old.held }
        ensures succeeds { 1 ≤ self.old.trail_room → IsOk result }
        ensures choice_room { self.old.choice_room ≤ self.new.choice_room }
        ensures trail_room { self.old.trail_room ≤ self.new.trail_room +
            (if is_ok result then 1 else 0) }
        ensures free { IsNoted self.old.noted frame slot
            → IsOk result × (self.new.trail_room ≡ self.old.trail_room) }
        ensures noted { OnOk result (IsNoted self.new.noted frame slot) }
        ensures kept { (f s : ℕ) → IsNoted self.old.noted f s → IsNoted self.new.noted f s }
        ensures call { Makes (if is_ok result then Write frame slot cell else Nothing) self.old
            self.new }
    {
        self.store.write(frame as usize, slot as usize, cell)
    }

    /// Writes into a slot of the top frame.
    #[inline(always)]
    pub fn put(&mut self, slot: u32, cell: Cell) -> Result<(), NoMemory>
        requires { slot < length (last_frame self.old.now).cells }
        ensures now { self.new.now ≡ (if is_ok result then frames_with_cell self.old.now
            (length self.old.now - 1) slot cell else
            self.old.now) }
        ensures held { self.new.held ≡ self.old.held }
    {
        self.store.write_top(slot as usize, cell)
    }

    /// Pushes a frame, laid out by its head and its arguments.
    pub fn enter<H: Head>(
        &mut self,
        head: &H,
        routine: u32,
        back: u32,
        args: &[Cell],
    ) -> Result<(), EnterError>
        requires head { IsHead (H.head head.now) }
        requires args { FitsParams (IsLive self.old.now) (λ routine. IsLive self.old.now)
            (H.head head.now).params args.now }
        ensures now { self.new.now ≡ (if is_ok result
            then self.old.now ++ frame_of_call self.old.now (H.head head.now) routine back args.now
            ∷ []
            else self.old.now) }
        ensures held { self.new.held ≡ self.old.held }
        ensures answer { MatchResult result
            (λ _. HasFrameRoom self.old.now (H.head head.now).declared)
            (λ error. RefusesFor error self.old.now (H.head head.now).declared) }
        ensures choice_room { self.old.choice_room ≤ self.new.choice_room }
        ensures trail_room { self.old.trail_room ≤ self.new.trail_room +
            (if is_ok result then 1 else 0) }
        ensures kept { (f s : ℕ) → IsNoted self.old.noted f s → IsNoted self.new.noted f s }
        ensures call { Makes
            (if is_ok result then Enter (frame_of_call self.old.now
            (H.head head.now) routine back args.now) else Nothing)
            self.old self.new }
    {
        if self.store.len() >= FRAME_LIMIT as usize {
            return Err(EnterError::DepthFull);
        }
        if head.declared() > CELL_LIMIT - self.store.declared() {
            return Err(EnterError::CellsFull);
        }
        let images = &mut self.images;
        if images
            .enter(&mut self.store, head, routine, back, args)
            .is_err()
        {
            return Err(EnterError::Memory);
        }
        Ok(())
    }

    /// Drops the top frame, and answers the address that it returns to.
    pub fn leave(&mut self) -> Result<u32, NoMemory>
        requires { 2 ≤ length self.old.now }
        ensures now { self.new.now ≡ (if is_ok result then without_last self.old.now else
            self.old.now) }
        ensures held { self.new.held ≡ self.old.held }
        ensures back { IfOk result (λ back. back ≡ (last_frame self.old.now).back) }
        ensures succeeds { 1 ≤ self.old.trail_room → IsOk result }
        ensures choice_room { self.old.choice_room ≤ self.new.choice_room }
        ensures trail_room { self.old.trail_room ≤ self.new.trail_room +
            (if is_ok result then 1 else 0) }
        ensures call { Makes (if is_ok result then Leave else Nothing) self.old self.new }
    {
        Ok(self.store.leave())
    }

    /// Pushes an entry with a copy of the frames, a Forall with an empty carry.
    pub fn choose(&mut self, kind: ChoiceKind, resume: u32) -> Result<(), NoMemory>
        requires { kind ≢ ChoiceKind.Done }
        ensures now { self.new.now ≡ self.old.now }
        ensures held { self.new.held ≡ (if is_ok result
            then self.old.held ++ (record {
              kind = kind;
              resume = resume;
              frames = self.old.now;
              carry = [];
            }) ∷ []
            else self.old.held) }
        ensures succeeds { 1 ≤ self.old.choice_room → IsOk result }
        ensures choice_room { self.old.choice_room ≤ self.new.choice_room +
            (if is_ok result then 1 else 0) }
        ensures trail_room { self.old.trail_room ≤ self.new.trail_room }
        ensures call { Makes (if is_ok result then Choose kind resume else Nothing) self.old
            self.new }
    {
        push_entry(&mut self.entries, &mut self.store, kind, resume)
    }

    /// Goes back to the top entry: its copy becomes the frames, and the entry is dropped, but a
    /// Forall stays as a Done. None where there is no entry.
    pub fn fail(&mut self) -> Option<Resumed>
        ensures none { IsNone result ↔ (self.old.held ≡ []) }
        ensures kind { IfSome result (λ resumed. resumed.kind ≡ (top_of self.old.held).kind) }
        ensures resume { IfSome result (λ resumed. resumed.resume ≡ (top_of self.old.held).resume) }
        ensures now { IsSome result → self.new.now ≡ (top_of self.old.held).frames }
        ensures held { IsSome result → self.new.held ≡ stack_after_pop self.old.held }
        ensures empty { IfNone result (self.new ≡ self.old) }
        ensures rooms { KeepsRooms self.old self.new }
        ensures call { Makes (if is_some result then Fail else Nothing) self.old self.new }
    {
        if self.entries.is_empty() {
            return None;
        }
        let entry = &self.entries[self.entries.len() - 1];
        let resumed = Resumed {
            kind: entry.kind,
            resume: entry.resume,
        };
        pop_entry(&mut self.entries, &mut self.store);
        Some(resumed)
    }

    /// Drops all entries above a height.
    pub fn cut(&mut self, height: usize)
        ensures now { self.new.now ≡ self.old.now }
        ensures held { self.new.held ≡ take height self.old.held }
        ensures rooms { KeepsRooms self.old self.new }
        ensures call { Makes (Cut height) self.old self.new }
    {
        cut_to(&mut self.entries, &mut self.store, height);
    }

    /// How many entries there are.
    pub fn height(&self) -> usize
        ensures { result ≡ length self.now.held }
    {
        self.entries.len()
    }

    /// The kind of the entry at a height, counted from 1 at the bottom. None where there is none.
    pub fn kind_at(&self, height: usize) -> Option<ChoiceKind>
        ensures { result ≡ kind_at self.now.held height }
    {
        if height == 0 || height > self.entries.len() {
            return None;
        }
        Some(self.entries[height - 1].kind)
    }

    /// Lays the carry of the Forall at a height over the frames: each place of it that is a live
    /// number slot gets its cell.
    pub fn overlay(&mut self, height: usize) -> Result<(), NoMemory>
        requires { IsForallAt self.old.held height }
        ensures now { self.new.now ≡ (if is_ok result
            then frames_with_carry self.old.now (entry_at self.old.held height).carry
            else self.old.now) }
        ensures held { self.new.held ≡ self.old.held }
        ensures succeeds { length (entry_at self.old.held height).carry ≤ self.old.trail_room
            → IsOk result }
        ensures choice_room { self.old.choice_room ≤ self.new.choice_room }
        ensures trail_room { self.old.trail_room ≤ self.new.trail_room
            + (if is_ok result then length (entry_at self.old.held height).carry else 0) }
        ensures call { Makes (if is_ok result then Overlay height else Nothing) self.old self.new }
    {
        let carry = &self.entries[height - 1].carry;
        self.store.reserve(0, carry.len())?;
        lay(&mut self.store, carry);
        Ok(())
    }

    /// Drops the Body on top: each number slot that is live in its copy and now and differs enters
    /// the carry of the Forall at the height. It costs as much as the changes since the Body was
    /// pushed.
    pub fn keep(&mut self, height: usize) -> Result<(), NoMemory>
        requires body { IsTop self.old.held ChoiceKind.Body }
        requires forall { IsForallAt self.old.held height }
        requires below { height < length self.old.held }
        ensures now { self.new.now ≡ self.old.now }
        ensures held { self.new.held ≡ (if is_ok result then held_after_keep self.old.held height
            self.old.now
            else self.old.held) }
        ensures rooms { KeepsRooms self.old self.new }
        ensures call { Makes (if is_ok result then Keep height else Nothing) self.old self.new }
    {
        keep_top(self.alloc, &mut self.entries, &mut self.store, height)
    }

    /// Drops the Done on top, and lays its carry over the frames.
    pub fn finish(&mut self) -> Result<(), NoMemory>
        requires { IsTop self.old.held ChoiceKind.Done }
        ensures now { self.new.now ≡ (if is_ok result then frames_with_carry self.old.now
            (top_of self.old.held).carry else self.old.now) }
        ensures held { self.new.held ≡ (if is_ok result then take
            (length self.old.held - 1) self.old.held else self.old.held) }
        ensures succeeds { length (top_of self.old.held).carry ≤ self.old.trail_room → IsOk result }
        ensures choice_room { self.old.choice_room ≤ self.new.choice_room }
        ensures trail_room { self.old.trail_room ≤ self.new.trail_room
            + (if is_ok result then length (top_of self.old.held).carry else 0) }
        ensures call { Makes (if is_ok result then Finish else Nothing) self.old self.new }
    {
        let carry = &self.entries[self.entries.len() - 1].carry;
        self.store.reserve(0, carry.len())?;
        lay_top(&mut self.entries, &mut self.store);
        Ok(())
    }
}
