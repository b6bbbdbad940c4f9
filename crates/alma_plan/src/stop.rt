// What stops a call before its own end.
ghost use Rattle.std.specs.Prelude.{◌≡◌};
ghost use Rattle.alma_plan.specs.Refusals.{stop_status, stop_text, fetch_stop, read_stop};

use alma_base::NoMemory;
use alma_driver_words::exit;
use alma_io::{Fetch, ReadAll, WriteFault};

/// What stops a call before its own end.
#[derive(Clone, Copy)]
pub enum Stop {
    /// A file is missing, or a fetch or a read of the input failed.
    Read,
    /// A write or a store failed.
    Write,
    /// Memory ran out.
    Memory,
    /// A file or the input is past its greatest length.
    TooLong,
}

impl Stop {
    /// The exit status.
    pub fn status(self) -> u8
        ensures { result ≡ stop_status self }
    {
        match self {
            Stop::Read => exit::READ_FAULT,
            Stop::Write => exit::WRITE_FAULT,
            Stop::Memory => exit::NO_MEMORY,
            Stop::TooLong => exit::TOO_LONG,
        }
    }

    /// What is said of it on err, behind the name of the program.
    pub fn text(self) -> &'static [u8]
        ensures { result.now ≡ stop_text self }
    {
        match self {
            Stop::Read => b"read fault",
            Stop::Write => b"write fault",
            Stop::Memory => b"out of memory",
            Stop::TooLong => b"too long",
        }
    }
}

impl From<Fetch> for Stop {
    ghost from_gives = { λ fault stop. stop ≡ fetch_stop fault };

    fn from(fault: Fetch) -> Self {
        match fault {
            Fetch::Absent => Stop::Read,
            Fetch::Failed => Stop::Read,
            Fetch::TooLong => Stop::TooLong,
            Fetch::Memory => Stop::Memory,
        }
    }
}

impl From<ReadAll> for Stop {
    ghost from_gives = { λ error stop. stop ≡ read_stop error };

    fn from(error: ReadAll) -> Self {
        match error {
            ReadAll::Fault => Stop::Read,
            ReadAll::TooLong => Stop::TooLong,
            ReadAll::Memory => Stop::Memory,
        }
    }
}

impl From<NoMemory> for Stop {
    ghost use Rattle.alma_plan.specs.declared.stop.Stop.{Stop};

    ghost from_gives = { λ _ stop. stop ≡ Stop.Memory };

    fn from(_error: NoMemory) -> Self {
        Stop::Memory
    }
}

impl From<WriteFault> for Stop {
    ghost use Rattle.alma_plan.specs.declared.stop.Stop.{Stop};

    ghost from_gives = { λ _ stop. stop ≡ Stop.Write };

    fn from(_error: WriteFault) -> Self {
        Stop::Write
    }
}
