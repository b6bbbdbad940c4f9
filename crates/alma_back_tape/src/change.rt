// Notes, choice entries and changes.
use crate::frame::Frame;
use alma_code::{Cell, ChoiceKind};
use alma_memory_store::{Carry, SlotPlace};
use std::marker::Model;

/// What changed in the frames: a cell, with its content from before, or the top frame.
#[derive(Drop)]
pub enum Note {
    Wrote(SlotPlace, Cell),
    Entered,
    /// The frame itself.
    Left(Frame),
}

/// A choice entry. Its mark is the length of the trail when it was pushed.
#[derive(Drop)]
pub struct Entry {
    pub kind: ChoiceKind,
    pub resume: u32,
    pub mark: usize,
    pub carry: Carry,
}

/// What the carry of an entry gained: the cells that were set, and what it had for their places
/// before.
#[derive(Drop)]
pub struct Gain {
    /// Where the entry stands, counted from 0 at the bottom.
    pub at: usize,
    pub places: Vec<(SlotPlace, Cell)>,
    pub had: Vec<Option<Cell>>,
}

impl Model for Gain {
    ghost use Rattle.alma_back_tape.specs.Inner.PlainGain.{PlainGain};

    ghost Value = { PlainGain };

    ghost view = { λ g. record {
      at = g.at;
      places = g.places.items;
      had = g.had.items;
    } };
}

/// A change, without what it changed: that stands on top of the lists.
#[derive(Clone, Copy)]
pub enum Change {
    /// A step began.
    Began,
    /// A note was added.
    Noted,
    /// An entry was pushed.
    Pushed,
    /// The last note was undone.
    Undone,
    /// The top entry was dropped.
    Dropped,
    /// The top entry was turned from a Forall into a Done.
    Finished,
    /// The carry of an entry gained.
    Kept,
}
