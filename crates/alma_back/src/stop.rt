// What stops a call of this program before its own end.
ghost use Rattle.std.specs.Prelude.{◌≡◌};
ghost use Rattle.alma_plan.specs.declared.refusal.Refusal.TheVariants.{Stopped};
ghost use Rattle.alma_plan.specs.declared.stop.Stop.TheVariants.{Memory};
ghost use Rattle.alma_plan.specs.Refusals.{fetch_stop};

use alma_io::Fetch;
use alma_plan::{Refusal, Stop};
use std::alloc::AllocFailed;

/// What stops a call of this program before its own end.
#[derive(Clone, Copy)]
pub enum BackStop {
    /// The first line of the script, from 1, that is none.
    BadLine(usize),
    /// The call was refused as every program may refuse.
    Refused(Refusal),
}

impl From<Refusal> for BackStop {
    ghost use Rattle.alma_back.specs.declared.stop.BackStop.{BackStop};

    ghost from_gives = { λ refusal stop. stop ≡ BackStop.Refused refusal };

    fn from(refusal: Refusal) -> Self {
        BackStop::Refused(refusal)
    }
}

impl From<Fetch> for BackStop {
    ghost use Rattle.alma_back.specs.declared.stop.BackStop.{BackStop};

    ghost from_gives = { λ fault stop. stop ≡ BackStop.Refused (Stopped (fetch_stop fault)) };

    fn from(fault: Fetch) -> Self {
        BackStop::Refused(Refusal::Stopped(Stop::from(fault)))
    }
}

impl<T: Drop> From<AllocFailed<T>> for BackStop {
    ghost use Rattle.alma_back.specs.declared.stop.BackStop.{BackStop};

    ghost from_gives = { λ _ stop. stop ≡ BackStop.Refused (Stopped Memory) };

    fn from(_error: AllocFailed<T>) -> Self {
        BackStop::Refused(Refusal::Stopped(Stop::Memory))
    }
}
