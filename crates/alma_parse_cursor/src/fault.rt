// Why the parser stops.
use alma_scan::Token;
use std::alloc::{AllocError, AllocFailed};

/// Why the parser stops, with the tokens from the refused one on.
#[derive(Clone, Copy)]
pub enum Fault<'t, 's> {
    /// No program goes on with the next token.
    Unexpected(&'t [Token<'s>]),
    /// The next token opens a bracket below `DEPTH_LIMIT` others.
    TooDeep(&'t [Token<'s>]),
    /// Memory ran out, or a count passed 32 bits.
    Memory,
}

impl<'t, 's> From<AllocError> for Fault<'t, 's> {
    ghost use Rattle.std.specs.Prelude.{◌≡◌};
    ghost use Rattle.alma_parse_cursor.specs.declared.fault.Fault.TheVariants.{Memory};

    ghost from_gives = { λ _ e. e ≡ Memory };

    fn from(_: AllocError) -> Self {
        Fault::Memory
    }
}

impl<'t, 's, T: Drop> From<AllocFailed<T>> for Fault<'t, 's> {
    ghost use Rattle.std.specs.Prelude.{◌≡◌};
    ghost use Rattle.alma_parse_cursor.specs.declared.fault.Fault.TheVariants.{Memory};

    ghost from_gives = { λ _ e. e ≡ Memory };

    fn from(_: AllocFailed<T>) -> Self {
        Fault::Memory
    }
}
