// What a call reads of the live frames, whoever keeps them.
ghost use Rattle.std.specs.Prelude.{◌≡◌, ◌<◌, ◌^◌, List, length, slice_index_or};
ghost use Rattle.alma_code.specs.Picture.{PlainFrame, no_frame, cell_at};
ghost use Rattle.alma_code.specs.declared.cell.Cell.TheVariants as cell;

use crate::store::Store;
use alma_code::Cell;

/// Live frames, for a call that lays out one more.
pub trait LiveFrames {
    ghost live: { Self → List PlainFrame };

    /// How many frames are live.
    fn len(&self) -> usize
        ensures value { result ≡ length (live self.now) }
        ensures few { length (live self.now) < 2 ^ 32 };

    /// The cell in a slot of a live frame.
    fn read(&self, frame: usize, slot: usize) -> Cell
        requires live { frame < length (live self.now) }
        requires slot_of { slot < length (slice_index_or (live self.now) frame no_frame).cells }
        ensures { result ≡ cell_at (live self.now) frame slot cell.Unknown };
}

impl LiveFrames for Store {
    ghost live = { λ store. store.now };

    #[inline(always)]
    fn len(&self) -> usize {
        Store::len(self)
    }

    #[inline(always)]
    fn read(&self, frame: usize, slot: usize) -> Cell {
        Store::read(self, frame, slot)
    }
}
