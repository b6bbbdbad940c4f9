// What stops a call of this program before its own end.
ghost use Rattle.std.specs.Prelude.{◌≡◌};

use alma_join::JoinError;
use alma_plan::{FileStop, Refusal, Stop};
use std::alloc::AllocFailed;

/// What stops a call of this program before its own end.
#[derive(Clone, Copy)]
pub enum LinkStop<'w> {
    /// The call is refused as every program may refuse.
    Refused(Refusal),
    /// The file of this name gives no module.
    Unread(&'w str, FileStop),
    /// The modules are not joined.
    Unjoined(JoinError),
}

impl<'w> From<Refusal> for LinkStop<'w> {
    ghost use Rattle.alma_link.specs.declared.stop.LinkStop.TheVariants.{Refused};

    ghost from_gives = { λ refusal error. error ≡ Refused refusal };

    fn from(refusal: Refusal) -> Self {
        LinkStop::Refused(refusal)
    }
}

impl<'w> From<JoinError> for LinkStop<'w> {
    ghost use Rattle.alma_link.specs.declared.stop.LinkStop.TheVariants.{Unjoined};

    ghost from_gives = { λ fault error. error ≡ Unjoined fault };

    fn from(fault: JoinError) -> Self {
        LinkStop::Unjoined(fault)
    }
}

impl<'w, T: Drop> From<AllocFailed<T>> for LinkStop<'w> {
    ghost use Rattle.alma_link.specs.declared.stop.LinkStop.TheVariants.{Refused};
    ghost use Rattle.alma_plan.specs.declared.refusal.Refusal.TheVariants.{Stopped};
    ghost use Rattle.alma_plan.specs.declared.stop.Stop.TheVariants.{Memory};

    ghost from_gives = { λ _ error. error ≡ Refused (Stopped Memory) };

    fn from(_: AllocFailed<T>) -> Self {
        LinkStop::Refused(Refusal::from(Stop::Memory))
    }
}
