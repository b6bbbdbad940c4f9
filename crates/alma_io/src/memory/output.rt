// Output in memory.
ghost use Rattle.std.specs.Prelude.{◌≡◌, ◌≤◌, ◌<◌, ◌-◌, ◌↔◌, ◌⊎◌, [], Some, length, min, IfOk, IsErr};
ghost use Rattle.std.specs.Io.{WritesAtMost};
ghost use Rattle.std.specs.Io.KnownBytes.{WriteAppends};
ghost use Rattle.alma_io.specs.Causes.{HasCause};
ghost use Rattle.alma_io.specs.Memory.{FailsNext, after_write};

use crate::memory::schedule::Schedule;
use crate::{Failed, Sink};
use alma_base::NoMemory;
use std::alloc::Global;
use std::marker::Model;

/// Output in memory, whose calls fail as a list says. It takes its memory when it is made.
#[derive(Drop)]
pub struct MemSink {
    bytes: Vec<u8>,
    room: usize,
    piece: usize,
    schedule: Schedule,
    faults: u64,
}

impl Model for MemSink {
    ghost use Rattle.std.specs.Prelude.{◌≤◌, ◌<◌, vec_len, vec_capacity};
    ghost use Rattle.alma_io.specs.Memory.{SinkState};

    ghost Value = { SinkState };

    ghost view = { λ s. record { written = s.bytes.items; room = s.room; piece = s.piece; schedule = s.schedule; faults = s.faults } };

    ghost invariant = { λ s. (vec_len s.bytes ≤ s.room) × (s.room ≤ vec_capacity s.bytes) × (0 < s.piece) };
}

impl MemSink {
    /// Room for so many bytes, at most `piece` of them in a call. `fails` lists the calls, from 1,
    /// that fail.
    pub fn new(alloc: Global, room: usize, piece: usize, fails: &[u64]) -> Result<MemSink, NoMemory>
        requires { 0 < piece }
        ensures { IfOk result (λ sink. sink ≡ record {
          written = [];
          room = room;
          piece = piece;
          schedule = record { fails = fails.now; calls = 0 };
          faults = 0;
        }) }
    {
        Ok(MemSink {
            bytes: Vec::with_capacity(alloc, room)?,
            room,
            piece,
            schedule: Schedule::new(alloc, fails)?,
            faults: 0,
        })
    }

    /// What was written.
    pub fn bytes(&self) -> &[u8]
        ensures { result.now ≡ self.now.written }
    {
        &self.bytes
    }
}

impl Sink for MemSink {
    ghost side = { λ s. record { written = Some s.written; faults = s.faults } };

    fn write(&mut self, piece: &[u8]) -> Result<usize, Failed>
        ensures bound { WritesAtMost result piece.now }
        ensures some { IfOk result (λ count. 0 < length piece.now → 0 < count) }
        ensures bytes { WriteAppends (Some self.old.written)
            (Some self.new.written) result piece.now }
        ensures cause { HasCause self.old.faults self.new.faults result }

        // Which calls fail, how many bytes the others move, and what is written then.
        ensures fails { IsErr result ↔ (FailsNext self.old.schedule
            ⊎ ((0 < length piece.now) × (self.old.room ≤ length self.old.written))) }
        ensures count { IfOk result (λ n. n ≡ min self.old.piece
            (min (self.old.room - length self.old.written) (length piece.now))) }
        ensures after { self.new ≡ after_write self.old piece.now result }
    {
        let free = self.room - self.bytes.len();
        let is_stuck = free == 0 && !piece.is_empty();
        if self.schedule.fails_next() || is_stuck {
            self.faults = self.faults.saturating_add(1);
            return Err(Failed);
        }
        let count = self.piece.min(free).min(piece.len());
        match self.bytes.extend_from_slice(&piece[..count]) {
            Ok(()) => Ok(count),
            Err(_) => unreachable!(),
        }
    }
}
