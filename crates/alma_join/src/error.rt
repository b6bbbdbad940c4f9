// Why modules are not joined.
ghost use Rattle.std.specs.Prelude.{◌≡◌};
ghost use Rattle.alma_join.specs.declared.error.JoinError.TheVariants.{Memory};

use alma_base::NoMemory;
use std::alloc::AllocFailed;

/// Why modules are not joined: the fault of the first bare routine that has one, by its unit, from
/// 1, and its number; or the unit with which a bound is first passed.
#[derive(Clone, Copy, Debug, PartialEq, Eq)]
pub enum JoinError {
    /// No match.
    Missing(u32, u32),
    /// More than one match.
    Twice(u32, u32),
    /// The match has other parameters or another result.
    HeadDiffers(u32, u32),
    /// The unit with which a bound is first passed.
    TooLarge(u32),
    /// Memory ran out.
    Memory,
}

impl From<NoMemory> for JoinError {
    ghost from_gives = { λ fault error. error ≡ Memory };

    fn from(_: NoMemory) -> Self {
        JoinError::Memory
    }
}

impl<T: Drop> From<AllocFailed<T>> for JoinError {
    ghost from_gives = { λ fault error. error ≡ Memory };

    fn from(_: AllocFailed<T>) -> Self {
        JoinError::Memory
    }
}
