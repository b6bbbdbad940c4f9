// Input in memory.
ghost use Rattle.std.specs.Prelude.{◌≡◌, ◌<◌, ◌↔◌, Some, length, drop, min, IfOk, IsErr, OnErr};
ghost use Rattle.std.specs.Io.{ReadsAtMost};
ghost use Rattle.std.specs.Io.KnownBytes.{ReadConsumes};
ghost use Rattle.alma_io.specs.Causes.{HasCause};
ghost use Rattle.alma_io.specs.Memory.{FailsNext, after_read};

use crate::memory::schedule::Schedule;
use crate::{Failed, Source};
use alma_base::NoMemory;
use std::alloc::Global;
use std::marker::Model;

/// Input in memory, whose calls fail as a list says.
#[derive(Drop)]
pub struct MemSource {
    bytes: Vec<u8>,
    at: usize,
    piece: usize,
    schedule: Schedule,
    faults: u64,
}

impl Model for MemSource {
    ghost use Rattle.std.specs.Prelude.{◌≤◌, ◌<◌, drop, vec_len};
    ghost use Rattle.alma_io.specs.Memory.{SourceState};

    ghost Value = { SourceState };

    ghost view = { λ s. record { left = drop s.at s.bytes.items; piece = s.piece; schedule = s.schedule; faults = s.faults } };

    ghost invariant = { λ s. (s.at ≤ vec_len s.bytes) × (0 < s.piece) };
}

impl MemSource {
    /// These bytes, at most `piece` of them in a call. `fails` lists the calls, from 1, that fail.
    pub fn new(
        alloc: Global,
        bytes: &[u8],
        piece: usize,
        fails: &[u64],
    ) -> Result<MemSource, NoMemory>
        requires { 0 < piece }
        ensures { IfOk result (λ source. source ≡ record {
          left = bytes.now;
          piece = piece;
          schedule = record { fails = fails.now; calls = 0 };
          faults = 0;
        }) }
    {
        Ok(MemSource {
            bytes: Vec::from_slice(alloc, bytes)?,
            at: 0,
            piece,
            schedule: Schedule::new(alloc, fails)?,
            faults: 0,
        })
    }
}

impl Source for MemSource {
    ghost side = { λ s. record { left = Some s.left; faults = s.faults } };

    fn read(&mut self, buf: &mut [u8]) -> Result<usize, Failed>
        ensures bound { ReadsAtMost result buf.new }
        ensures bytes { ReadConsumes (Some self.old.left) (Some self.new.left) result buf.new }
        ensures cause { HasCause self.old.faults self.new.faults result }

        // Which calls fail, how many bytes the others move, and what is left.
        ensures fails { IsErr result ↔ FailsNext self.old.schedule }
        ensures count { IfOk result (λ n. n ≡ min self.old.piece
            (min (length buf.new) (length self.old.left))) }
        ensures after { self.new ≡ after_read self.old result }

        // The buffer behind those bytes stays as it was.
        ensures rest { IfOk result (λ n. drop n buf.new ≡ drop n buf.old) }
        ensures err { OnErr result (buf.new ≡ buf.old) }
    {
        if self.schedule.fails_next() {
            self.faults = self.faults.saturating_add(1);
            return Err(Failed);
        }
        let rest = &self.bytes[self.at..];
        let count = self.piece.min(buf.len()).min(rest.len());
        buf[..count].copy_from_slice(&rest[..count]);
        self.at += count;
        Ok(count)
    }
}
