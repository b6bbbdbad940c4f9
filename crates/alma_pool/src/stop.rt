// What stops a call of this program before its own end.
ghost use Rattle.std.specs.Prelude.{◌≡◌};
ghost use Rattle.alma_plan.specs.Refusals.{fetch_stop};

use alma_io::Fetch;
use alma_plan::{Refusal, Stop};
use std::alloc::AllocFailed;

/// What stops a call of this program before its own end.
#[derive(Clone, Copy)]
pub enum PoolStop {
    /// The first byte, from 1, that may not stand in the file of turns.
    BadTurn(usize),
    /// The call was refused as every program may refuse.
    Refused(Refusal),
}

impl From<Refusal> for PoolStop {
    ghost use Rattle.alma_pool.specs.declared.stop.PoolStop.{PoolStop};

    ghost from_gives = { λ refusal stop. stop ≡ PoolStop.Refused refusal };

    fn from(refusal: Refusal) -> Self {
        PoolStop::Refused(refusal)
    }
}

impl From<Stop> for PoolStop {
    ghost use Rattle.alma_pool.specs.declared.stop.PoolStop.{PoolStop};
    ghost use Rattle.alma_plan.specs.declared.refusal.Refusal.{Refusal};

    ghost from_gives = { λ reason stop. stop ≡ PoolStop.Refused (Refusal.Stopped reason) };

    fn from(reason: Stop) -> Self {
        PoolStop::Refused(Refusal::Stopped(reason))
    }
}

impl From<Fetch> for PoolStop {
    ghost use Rattle.alma_pool.specs.declared.stop.PoolStop.{PoolStop};
    ghost use Rattle.alma_plan.specs.declared.refusal.Refusal.{Refusal};

    ghost from_gives = { λ fault stop.
        stop ≡ PoolStop.Refused (Refusal.Stopped (fetch_stop fault)) };

    fn from(fault: Fetch) -> Self {
        PoolStop::from(Stop::from(fault))
    }
}

impl<T: Drop> From<AllocFailed<T>> for PoolStop {
    ghost use Rattle.alma_pool.specs.declared.stop.PoolStop.{PoolStop};
    ghost use Rattle.alma_plan.specs.declared.refusal.Refusal.{Refusal};
    ghost use Rattle.alma_plan.specs.declared.stop.Stop.{Stop};

    ghost from_gives = { λ _ stop. stop ≡ PoolStop.Refused (Refusal.Stopped Stop.Memory) };

    fn from(_error: AllocFailed<T>) -> Self {
        PoolStop::from(Stop::Memory)
    }
}
