// The head of a routine, as the table of a code or the view of an object gives it.
ghost use Rattle.std.specs.Prelude.{◌≡◌, ◌<◌, length, Some, slice_get};
ghost use Rattle.alma_code.specs.Head.{PlainHead};
ghost use Rattle.alma_code.specs.Layout.{param_slots};

use crate::cell::SlotKind;

/// How a parameter takes its argument.
#[derive(Clone, Copy, Debug, PartialEq, Eq)]
pub enum ParamKind {
    /// A number.
    Value,
    /// A place, by reference.
    Place,
    /// A place of one cell by reference, or a number.
    Mix,
    /// A place of which all cells are copied.
    Cells,
    /// A link to a frame of the routine round it.
    Link,
}

/// A parameter. `cells` is 1 for Value and Mix, and for Link the routine to whose frame it links.
#[derive(Clone, Copy)]
pub struct CodeParam {
    pub kind: ParamKind,
    pub cells: u32,
}

impl CodeParam {
    /// How many slots its argument takes.
    pub fn slots(self) -> u32
        ensures { result ≡ param_slots self.kind self.cells }
    {
        match self.kind {
            ParamKind::Value | ParamKind::Place | ParamKind::Link => 1,
            ParamKind::Mix => 2,
            ParamKind::Cells => self.cells,
        }
    }
}

/// Slots of one kind: from the end of the run before, or from 0, up to and without `end`.
#[derive(Clone, Copy, Debug, PartialEq, Eq)]
pub struct Run {
    pub kind: SlotKind,
    pub end: u32,
}

/// The head of a routine.
pub trait Head {
    ghost head: { Self → PlainHead };

    /// How many slots a frame of the routine has.
    fn slots(&self) -> u32
        ensures { result ≡ (head self.now).slots };

    /// How many cells of a frame count for the limit of live cells.
    fn declared(&self) -> u32
        ensures { result ≡ (head self.now).declared };

    /// How many parameters the routine has.
    fn param_count(&self) -> u32
        ensures { result ≡ length (head self.now).params };

    /// The parameter with a number, counted from 0.
    fn param(&self, i: u32) -> CodeParam
        requires { i < length (head self.now).params }
        ensures { slice_get (head self.now).params i ≡ Some result };

    /// How many runs its slots have.
    fn run_count(&self) -> u32
        ensures { result ≡ length (head self.now).runs };

    /// The run of slots with a number, counted from 0.
    fn run(&self, i: u32) -> Run
        requires { i < length (head self.now).runs }
        ensures { slice_get (head self.now).runs i ≡ Some result };

    /// Whether the routine gives a number.
    fn has_result(&self) -> bool
        ensures { result ≡ (head self.now).has_result };
}
