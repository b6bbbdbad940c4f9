// The memory that goes back, as a machine sees it.
ghost use Rattle.std.specs.Prelude.{false, ◌≡◌, ◌≤◌, [], ◌∷◌, is_ok, IfOk, IsFalse, if◌then◌else◌};
ghost use Rattle.alma_base.specs.Limits.{cell_limit};
ghost use Rattle.alma_code.specs.Layout.{IsHead, start_frame};

use crate::backward::back;
use crate::forward::{call, choose, cut, fail, leave, write};
use crate::journal::{Journal, begin, kind_at, reserve_choices, reserve_notes, start};
use crate::keeping::keep;
use crate::laying::{finish, overlay};
use crate::layout::start_from;
use alma_base::{CELL_LIMIT, FRAME_LIMIT, NoMemory};
use alma_code::{Cell, ChoiceKind, Head, SlotKind};
use alma_memory::{EnterError, MachineMemory, Resumed};
use alma_memory_store::SlotPlace;
use std::alloc::Global;
use std::marker::Model;

/// A memory that can go back to where each step began. It takes no memory for that.
#[derive(Drop)]
pub struct Tape {
    journal: Journal,
    // How many steps began that it can go back to.
    begun: usize,
}

impl Model for Tape {
    ghost use Rattle.std.specs.Prelude.{◌≡◌, length};
    ghost use Rattle.alma_memory.specs.Machine.{MachinePicture};

    ghost Value = { MachinePicture };

    ghost use Rattle.alma_back_tape.specs.Inner.Past.{IsTape, picture_of, scenes};

    ghost view = { λ t. picture_of t.journal };

    ghost invariant = { λ t. IsTape t.journal × (t.begun ≡ length (scenes t.journal)) };
}

impl Tape {
    /// A memory with the frame of routine 0 alone, no entry, and no step to go back to.
    pub fn new<H: Head>(alloc: Global, head: &H) -> Result<Tape, NoMemory>
        requires head { IsHead (H.head head.now) }
        requires some { 1 ≤ (H.head head.now).slots }
        requires few { (H.head head.now).declared ≤ cell_limit }
        ensures now { IfOk result (λ tape. tape.now ≡ start_frame (H.head head.now) ∷ []) }
        ensures held { IfOk result (λ tape. tape.held ≡ []) }
        ensures past { IfOk result (λ tape. tape.past ≡ []) }
    {
        let frame = start_from(alloc, head)?;
        let journal = start(alloc, frame)?;
        Ok(Tape { journal, begun: 0 })
    }

    /// A step begins here.
    pub fn begin(&mut self) -> Result<(), NoMemory>
        ensures now { self.new.now ≡ self.old.now }
        ensures held { self.new.held ≡ self.old.held }
        ensures past { self.new.past ≡ (if is_ok result
            then (record { now = self.old.now; held = self.old.held }) ∷ self.old.past
            else self.old.past) }
    {
        let Some(begun) = self.begun.checked_add(1) else {
            return Err(NoMemory);
        };
        begin(&mut self.journal)?;
        self.begun = begun;
        Ok(())
    }

    /// Goes back to where the last step began, at about the cost of what came since. It takes no
    /// memory. False where no step began.
    pub fn back(&mut self) -> bool
        ensures back { (if result
            then (record { now = self.new.now; held = self.new.held }) ∷ self.new.past else [])
            ≡ self.old.past }
        ensures same { IsFalse result → self.new ≡ self.old }
    {
        if self.begun == 0 {
            return false;
        }
        self.begun -= 1;
        back(&mut self.journal)
    }
}

impl MachineMemory for Tape {
    ghost picture = { λ tape. tape };

    fn reserve(&mut self, choices: usize, trail: usize) -> Result<(), NoMemory> {
        reserve_choices(&mut self.journal, choices)?;
        reserve_notes(&mut self.journal, trail)
    }

    fn frames(&self) -> u32 {
        self.journal.frames.len()
    }

    fn height(&self) -> usize {
        self.journal.entries.len()
    }

    fn kind_at(&self, height: usize) -> Option<ChoiceKind> {
        kind_at(&self.journal, height)
    }

    fn read(&self, frame: u32, slot: u32) -> Cell {
        self.journal.frames.cell(SlotPlace { frame, slot })
    }

    fn top(&self, slot: u32) -> Cell {
        self.journal.frames.top().cell(slot as usize)
    }

    fn top_kind(&self, slot: u32) -> SlotKind {
        self.journal.frames.top().kind(slot)
    }

    fn write(&mut self, frame: u32, slot: u32, cell: Cell) -> Result<(), NoMemory> {
        write(&mut self.journal, SlotPlace { frame, slot }, cell)
    }

    fn put(&mut self, slot: u32, cell: Cell) -> Result<(), NoMemory> {
        let frame = self.journal.frames.len() - 1;
        write(&mut self.journal, SlotPlace { frame, slot }, cell)
    }

    fn enter<H: Head>(
        &mut self,
        head: &H,
        routine: u32,
        back: u32,
        args: &[Cell],
    ) -> Result<(), EnterError> {
        if self.journal.frames.len() >= FRAME_LIMIT {
            return Err(EnterError::DepthFull);
        }
        if head.declared() > CELL_LIMIT - self.journal.frames.declared() {
            return Err(EnterError::CellsFull);
        }
        match call(&mut self.journal, head, routine, back, args) {
            Ok(()) => Ok(()),
            Err(NoMemory) => Err(EnterError::Memory),
        }
    }

    fn leave(&mut self) -> Result<u32, NoMemory> {
        leave(&mut self.journal)
    }

    fn choose(&mut self, kind: ChoiceKind, resume: u32) -> Result<(), NoMemory> {
        choose(&mut self.journal, kind, resume)
    }

    fn fail(&mut self) -> Option<Resumed> {
        fail(&mut self.journal)
    }

    fn cut(&mut self, height: usize) {
        cut(&mut self.journal, height);
    }

    fn overlay(&mut self, height: usize) -> Result<(), NoMemory> {
        overlay(&mut self.journal, height)
    }

    fn keep(&mut self, height: usize) -> Result<(), NoMemory> {
        keep(&mut self.journal, height)
    }

    fn finish(&mut self) -> Result<(), NoMemory> {
        finish(&mut self.journal)
    }
}
