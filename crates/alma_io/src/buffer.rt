// Output that waits for more of it.
ghost use Rattle.std.specs.Prelude.{◌≡◌, ◌++◌, [], true, false, OnErr};
ghost use Rattle.alma_io.specs.Buffer.{Buffers};
ghost use Rattle.alma_io.specs.Outside.{Writes};

use crate::{Failed, Sink, write_all};
use arrayvec::ArrayVec;
use std::marker::Model;

/// The greatest number of bytes that wait.
const BUFFER_ROOM: usize = 4096;

/// Bytes on their way to a sink: short pieces wait, and go out together. What waits when it is
/// dropped is lost.
#[derive(Drop)]
pub struct SinkBuffer {
    held: ArrayVec<u8, BUFFER_ROOM>,
}

impl Model for SinkBuffer {
    ghost use Rattle.std.specs.Prelude.{List, ℕ};

    ghost Value = { List ℕ };

    ghost view = { λ buffer. buffer.held.items };
}

impl SinkBuffer {
    /// A buffer in which nothing waits.
    pub fn new() -> SinkBuffer
        ensures { result ≡ [] }
    {
        SinkBuffer {
            held: ArrayVec::new(),
        }
    }

    // Holds the piece behind what waits, if there is room.
    fn hold(&mut self, piece: &[u8]) -> bool
        ensures held { result ≡ true → self.new ≡ self.old ++ piece.now }
        ensures full { result ≡ false → self.new ≡ self.old }
    {
        self.held.try_extend_from_slice(piece).is_ok()
    }

    /// Takes a piece. Where it finds no room, what waited goes out first, and a long piece too. At
    /// an error what did not go out is lost.
    pub fn write<K: Sink>(&mut self, piece: &[u8], sink: &mut K) -> Result<(), Failed>
        ensures writes { Buffers (K.side sink.old) (K.side sink.new) (self.old ++ piece.now)
            self.new result }
        ensures empty { OnErr result (self.new ≡ []) }
    {
        if self.hold(piece) {
            return Ok(());
        }
        self.flush(sink)?;
        if self.hold(piece) {
            return Ok(());
        }
        Ok(write_all(sink, piece)?)
    }

    /// Writes what waits. At an error what did not go out is lost.
    pub fn flush<K: Sink>(&mut self, sink: &mut K) -> Result<(), Failed>
        ensures writes { Writes (K.side sink.old) (K.side sink.new) self.old result }
        ensures empty { self.new ≡ [] }
    {
        let outcome = write_all(sink, self.held.as_slice());
        self.held.clear();
        Ok(outcome?)
    }
}
