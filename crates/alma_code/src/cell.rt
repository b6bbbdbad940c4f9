// What a slot holds, and the kinds of choice entries.

/// What a slot of a frame may hold.
#[derive(Clone, Copy, Debug, PartialEq, Eq)]
pub enum SlotKind {
    /// A number, or nothing known yet.
    Number,
    /// A place of so many cells.
    Place(u32),
    /// A height of the stack of choice entries.
    Mark,
    /// A frame of the routine with this number, as a place of slot 0 and length 0.
    Link(u32),
}

/// Cells that follow one another in a frame. Frames are counted from 0, the global one.
#[derive(Clone, Copy, Debug, PartialEq, Eq)]
pub struct CellPlace {
    pub frame: u32,
    pub slot: u32,
    pub len: u32,
}

/// What stands in a slot.
#[derive(Clone, Copy, Debug, PartialEq, Eq)]
pub enum Cell {
    /// A number slot with no number yet.
    Unknown,
    /// A number.
    Int(i64),
    /// A slot for a place, a mark or a link that was not written yet.
    Unset,
    /// A place, or a link as a place.
    Place(CellPlace),
    /// A height of the stack of choice entries.
    Mark(usize),
}

/// The kind of a choice entry.
#[derive(Clone, Copy, Debug, PartialEq, Eq)]
pub enum ChoiceKind {
    /// An alternative that is still to be tried.
    Branch,
    /// A FORALL whose alternatives are gone through.
    Forall,
    /// The body of a FORALL, run for one alternative.
    Body,
    /// A FORALL that has no further alternative.
    Done,
}
