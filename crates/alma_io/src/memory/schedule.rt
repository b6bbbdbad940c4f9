// Which calls of a fake fail.
ghost use Rattle.std.specs.Prelude.{◌≡◌, ◌↔◌, IfOk, IsTrue};
ghost use Rattle.alma_io.specs.Memory.{FailsNext, after_call};

use alma_base::NoMemory;
use std::alloc::Global;
use std::marker::Model;

/// The calls that fail, the first being 1, and a count of those made.
#[derive(Drop)]
pub(super) struct Schedule {
    fails: Vec<u64>,
    calls: u64,
}

impl Model for Schedule {
    ghost use Rattle.alma_io.specs.Memory.{ScheduleState};

    ghost Value = { ScheduleState };

    ghost view = { λ s. record { fails = s.fails.items; calls = s.calls } };
}

impl Schedule {
    pub(super) fn new(alloc: Global, fails: &[u64]) -> Result<Schedule, NoMemory>
        ensures { IfOk result (λ schedule. schedule ≡ record { fails = fails.now; calls = 0 }) }
    {
        Ok(Schedule {
            fails: Vec::from_slice(alloc, fails)?,
            calls: 0,
        })
    }

    /// Counts a call, and says whether it fails.
    pub(super) fn fails_next(&mut self) -> bool
        ensures answer { IsTrue result ↔ FailsNext self.old }
        ensures after { self.new ≡ after_call self.old }
    {
        self.calls = self.calls.saturating_add(1);
        self.fails.contains(&self.calls)
    }
}
