// What a check answers where it does not succeed.
ghost use Rattle.std.specs.Prelude.{◌≡◌};
ghost use Rattle.alma_rules.specs.declared.error.Stop.TheVariants.{Memory};

use alma_base::CheckFault;
use std::alloc::{AllocError, AllocFailed};

/// The first broken rule with the number of its node, or want of memory.
#[derive(Clone, Copy)]
pub enum Stop {
    Fault(CheckFault, u32),
    Memory,
}

impl From<AllocError> for Stop {
    ghost from_gives = { λ e r. r ≡ Memory };

    fn from(_error: AllocError) -> Self {
        Stop::Memory
    }
}

impl<T: Drop> From<AllocFailed<T>> for Stop {
    ghost from_gives = { λ e r. r ≡ Memory };

    fn from(_error: AllocFailed<T>) -> Self {
        Stop::Memory
    }
}

/// The broken rule with the number of its node and the index of that node's first token, or want of
/// memory.
#[derive(Clone, Copy)]
pub enum CheckError {
    Fault(CheckFault, u32, usize),
    Memory,
}
