// The live frames, and how many cells they declare.
ghost use Rattle.std.specs.Prelude.{◌≡◌, ◌+◌, ◌<◌, ◌≤◌, [], ◌∷◌, ◌++◌, length, slice_index_or, IfOk};
ghost use Rattle.alma_base.specs.Limits.{cell_limit, frame_limit};
ghost use Rattle.alma_code.specs.Picture.{no_frame, frames_with_cell, cell_at, last_frame, without_last, live_cells};
ghost use Rattle.alma_code.specs.Carries.{number_at};
ghost use Rattle.alma_memory_store.specs.Frames.{AreWhole};
ghost use Rattle.alma_memory_store.specs.Numbers.{number_of};
ghost use Rattle.alma_code.specs.declared.cell.Cell.TheVariants as cell;

use crate::frame::Frame;
use alma_base::{FRAME_LIMIT, NoMemory};
use alma_code::Cell;
use alma_memory_store::{LiveFrames, SlotPlace};
use std::alloc::Global;
use std::marker::Model;

/// The live frames. There is always room to put a frame back.
#[derive(Drop)]
pub struct Frames {
    list: Vec<Frame>,
    declared: u32,
}

impl Model for Frames {
    ghost use Rattle.std.specs.Prelude.{List};
    ghost use Rattle.alma_code.specs.Picture.{PlainFrame};

    ghost Value = { List PlainFrame };

    ghost use Rattle.alma_back_tape.specs.Inner.Counted.{IsCounted};

    ghost view = { λ f. f.list.items };

    ghost invariant = { IsCounted };
}

impl Frames {
    /// One frame, and room for all 10,000 that may be live.
    pub fn start(alloc: Global, frame: Frame) -> Result<Frames, NoMemory>
        requires { frame.declared ≤ cell_limit }
        ensures { IfOk result (λ frames. frames ≡ frame ∷ []) }
    {
        let declared = frame.declared();
        let mut list = Vec::with_capacity(alloc, FRAME_LIMIT as usize)?;
        list.push(frame)?;
        Ok(Frames { list, declared })
    }

    /// How many frames are live, that of the module body too.
    pub fn len(&self) -> u32
        ensures { result ≡ length self.now }
    {
        self.list.len() as u32
    }

    /// How many cells the live frames declare together; a frame is refused that would pass the
    /// limit.
    pub fn declared(&self) -> u32
        ensures value { result ≡ live_cells self.now }
        ensures limit { result ≤ cell_limit }
    {
        self.declared
    }

    /// The live frame with a number, counted from 0 at the bottom.
    pub fn at(&self, frame: u32) -> &Frame
        requires { frame < length self.now }
        ensures { result.now ≡ slice_index_or self.now frame no_frame }
    {
        &self.list[frame as usize]
    }

    /// The top frame.
    pub fn top(&self) -> &Frame
        requires { 1 ≤ length self.now }
        ensures { result.now ≡ last_frame self.now }
    {
        &self.list[self.list.len() - 1]
    }

    /// What a slot of a live frame holds, of whatever kind it is.
    pub fn cell(&self, place: SlotPlace) -> Cell
        requires live { place.frame < length self.now }
        requires slot_of { place.slot < length
            (slice_index_or self.now place.frame no_frame).cells }
        ensures { result ≡ cell_at self.now place.frame place.slot cell.Unknown }
    {
        self.at(place.frame).cell(place.slot as usize)
    }

    /// Puts a cell into a slot of a live frame. Nothing is noted here; that is for the caller.
    pub fn write(&mut self, place: SlotPlace, cell: Cell)
        requires live { place.frame < length self.old }
        requires slot_of { place.slot < length
            (slice_index_or self.old place.frame no_frame).cells }
        ensures { self.new ≡ frames_with_cell self.old place.frame place.slot cell }
    {
        let changed = &mut self.list[place.frame as usize];
        changed.write(place.slot, cell);
    }

    /// Puts a frame on top. It takes no memory, for there is room since the start.
    pub fn push(&mut self, frame: Frame)
        requires depth { length self.old < frame_limit }
        requires cells { live_cells self.old + frame.declared ≤ cell_limit }
        ensures { self.new ≡ self.old ++ frame ∷ [] }
    {
        self.declared += frame.declared();
        match self.list.push(frame) {
            Ok(()) => (),
            Err(_) => unreachable!(),
        }
    }

    /// Takes the top frame off and hands it over whole, with which a note can put it back.
    pub fn pop(&mut self) -> Frame
        requires { 1 ≤ length self.old }
        ensures rest { self.new ≡ without_last self.old }
        ensures last { result ≡ last_frame self.old }
    {
        let Some(frame) = self.list.pop() else {
            unreachable!()
        };
        self.declared -= frame.declared();
        frame
    }

    /// Whether the place is a number slot of a live frame.
    pub fn has_number(&self, place: SlotPlace) -> bool
        ensures { result ≡ number_at self.now place.frame place.slot }
    {
        place.frame < self.len() && self.at(place.frame).is_number(place.slot)
    }

    /// The cell of a live number slot.
    pub fn number(&self, place: SlotPlace) -> Option<Cell>
        requires { AreWhole self.now }
        ensures { result ≡ number_of self.now place.frame place.slot }
    {
        if place.frame < self.len() {
            self.at(place.frame).number(place.slot)
        } else {
            None
        }
    }
}

impl LiveFrames for Frames {
    ghost live = { λ frames. frames };

    fn len(&self) -> usize {
        self.list.len()
    }

    fn read(&self, frame: usize, slot: usize) -> Cell {
        self.list[frame].cell(slot)
    }
}
