// What stops a call of this program before its own end.
ghost use Rattle.std.specs.Prelude.{◌≡◌};
ghost use Rattle.alma_all.specs.Ends.{listing_error};

use alma_listing::ListingError;
use alma_plan::{FileStop, Refusal, Stop};

/// What stops a call of this program before its own end.
#[derive(Clone, Copy)]
pub enum AllStop<'w> {
    /// The call is refused as every program may refuse.
    Refused(Refusal),
    /// The file of this name gives no program.
    Unread(&'w str, FileStop),
    /// A RETURN stands in the body of the module.
    ModuleReturn,
}

impl<'w> From<Refusal> for AllStop<'w> {
    ghost use Rattle.alma_all.specs.declared.stop.AllStop.TheVariants.{Refused};

    ghost from_gives = { λ refusal error. error ≡ Refused refusal };

    fn from(refusal: Refusal) -> Self {
        AllStop::Refused(refusal)
    }
}

impl<'w> From<ListingError> for AllStop<'w> {
    ghost from_gives = { λ fault error. error ≡ listing_error fault };

    fn from(fault: ListingError) -> Self {
        match fault {
            ListingError::ModuleReturn => AllStop::ModuleReturn,
            ListingError::Memory => AllStop::Refused(Refusal::from(Stop::Memory)),
        }
    }
}
