// One live frame.
ghost use Rattle.std.specs.Prelude.{◌≡◌, ◌<◌, ◌^◌, length, slice_get, slice_index_or, Some, IfOk};
ghost use Rattle.alma_code.specs.Picture.{frame_with};
ghost use Rattle.alma_code.specs.Kinds.{is_number};
ghost use Rattle.alma_memory_store.specs.Frames.{IsWhole};
ghost use Rattle.alma_memory_store.specs.Numbers.{number_in};
ghost use Rattle.alma_code.specs.declared.cell.Cell.TheVariants as cell;

use alma_base::NoMemory;
use alma_code::{Cell, SlotKind};
use std::alloc::Global;
use std::marker::Model;

// What a frame holds.
#[derive(Drop)]
struct Parts {
    routine: u32,
    back: u32,
    declared: u32,
    kinds: Vec<SlotKind>,
    cells: Vec<Cell>,
}

/// A frame that moves between the live frames and the notes at no cost.
#[derive(Drop)]
pub struct Frame {
    parts: Box<Parts>,
}

impl Model for Frame {
    ghost use Rattle.std.specs.Prelude.{◌<◌, ◌^◌, length};
    ghost use Rattle.alma_code.specs.Picture.{PlainFrame};

    ghost Value = { PlainFrame };

    ghost view = { λ f. record {
      routine = f.parts.value.routine;
      back = f.parts.value.back;
      declared = f.parts.value.declared;
      kinds = f.parts.value.kinds.items;
      cells = f.parts.value.cells.items;
    } };

    ghost invariant = { λ f. length f.parts.value.cells.items < 2 ^ 32 };
}

impl Frame {
    /// A frame of these parts: `back` is the address that it returns to, `declared` counts for the
    /// limit of live cells, and `kinds` and `cells` have an item for each slot.
    pub fn new(
        alloc: Global,
        routine: u32,
        back: u32,
        declared: u32,
        kinds: Vec<SlotKind>,
        cells: Vec<Cell>,
    ) -> Result<Frame, NoMemory>
        requires { length cells.items < 2 ^ 32 }
        ensures { IfOk result (λ frame. frame ≡ record {
          routine = routine;
          back = back;
          declared = declared;
          kinds = kinds.items;
          cells = cells.items;
        }) }
    {
        let parts = Parts {
            routine,
            back,
            declared,
            kinds,
            cells,
        };
        let parts = Box::new(alloc, parts)?;
        Ok(Frame { parts })
    }

    /// The address that the frame returns to.
    pub fn back(&self) -> u32
        ensures { result ≡ self.now.back }
    {
        self.parts.back
    }

    /// How many cells the frame counts for the limit of live cells.
    pub fn declared(&self) -> u32
        ensures { result ≡ self.now.declared }
    {
        self.parts.declared
    }

    /// What a slot holds, of whatever kind it is.
    pub fn cell(&self, slot: usize) -> Cell
        requires { slot < length self.now.cells }
        ensures { result ≡ slice_index_or self.now.cells slot cell.Unknown }
    {
        self.parts.cells[slot]
    }

    /// The kind of a slot.
    pub fn kind(&self, slot: u32) -> SlotKind
        requires { slot < length self.now.kinds }
        ensures { slice_get self.now.kinds slot ≡ Some result }
    {
        self.parts.kinds[slot as usize]
    }

    /// Puts a cell into a slot and leaves its kind. Nothing is noted here; that is for the caller.
    pub fn write(&mut self, slot: u32, cell: Cell)
        requires { slot < length self.old.cells }
        ensures { self.new ≡ frame_with self.old slot cell }
    {
        self.parts.cells[slot as usize] = cell;
    }

    /// A copy of the frame.
    pub fn copy(&self, alloc: Global) -> Result<Frame, NoMemory>
        ensures { IfOk result (λ frame. frame ≡ self.now) }
    {
        let kinds = Vec::from_slice(alloc, self.parts.kinds.as_slice())?;
        let cells = Vec::from_slice(alloc, self.parts.cells.as_slice())?;
        Frame::new(
            alloc,
            self.parts.routine,
            self.parts.back,
            self.parts.declared,
            kinds,
            cells,
        )
    }

    /// How many slots the frame has.
    pub fn slots(&self) -> u32
        ensures { result ≡ length self.now.cells }
    {
        self.parts.cells.len() as u32
    }

    /// Whether the slot is a number slot; one that the frame does not have is none.
    pub fn is_number(&self, slot: u32) -> bool
        ensures { result ≡ is_number (slice_get self.now.kinds slot) }
    {
        matches!(self.parts.kinds.get(slot as usize), Some(SlotKind::Number))
    }

    /// The cell of a number slot.
    pub fn number(&self, slot: u32) -> Option<Cell>
        requires { IsWhole self.now }
        ensures { result ≡ number_in self.now slot }
    {
        if self.is_number(slot) {
            Some(self.cell(slot as usize))
        } else {
            None
        }
    }
}
