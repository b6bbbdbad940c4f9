// The ends of a call: how they come from the answers of its parts, and their statuses.
ghost use Rattle.std.specs.Prelude.{◌≡◌};
ghost use Rattle.alma_driver_outcome.specs.Ends.{status_of, counts_with, run_end, lower_end, words_end, end_of_stop, end_of_program};

use alma_base::{Place, RunFault};
use alma_driver_words::{WordsError, exit};
use alma_lower::LowerError;
use alma_machine::RunEnd;
use alma_plan::{ProgramEnd, Refusal, Stop};
use alma_source::SourceFault;

/// What a run counted: the steps that it made, the choice entries that it pushed, and those that it
/// popped.
#[derive(Clone, Copy)]
pub struct Counts {
    pub steps: u64,
    pub choices: u64,
    pub fails: u64,
}

/// How a call ends, but for what becomes of its text on err.
#[derive(Clone, Copy)]
pub enum End {
    /// The call succeeded; with the counts of its run, where they are asked for.
    Succeeded(Option<Counts>),
    /// The program failed.
    Failed(Option<Counts>),
    /// The run stopped in a fault, at this line; 0 where none is known.
    Faulted(RunFault, u32, Option<Counts>),
    /// All steps were made, and the run was not at its end.
    StepsOut(Option<Counts>),
    /// The source is no program: its fault, and the place of it.
    BadSource(SourceFault, Place),
    /// The size of the program, which is past the greatest.
    TooMuchCode(u64),
    /// The call was refused as every program may refuse.
    Refused(Refusal),
}

impl End {
    /// The exit status.
    pub fn status(self) -> u8
        ensures { result ≡ status_of self }
    {
        match self {
            End::Succeeded(_) => exit::SUCCEEDED,
            End::Failed(_) => exit::FAILED,
            End::Faulted(_, _, _) => exit::FAULTED,
            End::StepsOut(_) => exit::STEPS_OUT,
            End::BadSource(_, _) => exit::REFUSED,
            End::TooMuchCode(_) => exit::TOO_MUCH_CODE,
            End::Refused(refusal) => refusal.status(),
        }
    }

    /// The counts that it tells.
    pub fn counts(self) -> Option<Counts>
        ensures { result ≡ counts_with self }
    {
        match self {
            End::Succeeded(counts) => counts,
            End::Failed(counts) => counts,
            End::Faulted(_, _, counts) => counts,
            End::StepsOut(counts) => counts,
            _ => None,
        }
    }
}

/// The end of a call by the answer of its run, the line of the last instruction, and counts.
pub fn end_of(run: RunEnd, line: u32, counts: Option<Counts>) -> End
    ensures { result ≡ run_end run line counts }
{
    match run {
        RunEnd::Succeeded => End::Succeeded(counts),
        RunEnd::Failed => End::Failed(counts),
        RunEnd::Fault(fault) => End::Faulted(fault, line, counts),
        RunEnd::StepsOut => End::StepsOut(counts),
        RunEnd::WriteFault => End::Refused(Refusal::Stopped(Stop::Write)),
        RunEnd::Memory => End::Refused(Refusal::Stopped(Stop::Memory)),
    }
}

impl From<LowerError> for End {
    ghost from_gives = { λ error end. end ≡ lower_end error };

    fn from(error: LowerError) -> Self {
        match error {
            LowerError::TooMuchCode(size) => End::TooMuchCode(size),
            LowerError::Memory => End::Refused(Refusal::Stopped(Stop::Memory)),
        }
    }
}

impl From<WordsError> for End {
    ghost from_gives = { λ error end. end ≡ words_end error };

    fn from(error: WordsError) -> Self {
        match error {
            WordsError::Bad(word) => End::Refused(Refusal::BadWord(word)),
            WordsError::Memory => End::Refused(Refusal::Stopped(Stop::Memory)),
        }
    }
}

impl From<Stop> for End {
    ghost from_gives = { λ stop end. end ≡ end_of_stop stop };

    fn from(stop: Stop) -> Self {
        End::Refused(Refusal::Stopped(stop))
    }
}

impl From<ProgramEnd> for End {
    ghost from_gives = { λ ended end. end ≡ end_of_program ended };

    fn from(ended: ProgramEnd) -> Self {
        match ended {
            ProgramEnd::Ended(alma_code::End::Succeeded, _) => End::Succeeded(None),
            ProgramEnd::Ended(alma_code::End::Failed, _) => End::Failed(None),
            ProgramEnd::Ended(alma_code::End::Fault(fault), line) => {
                End::Faulted(fault, line, None)
            }
            ProgramEnd::Stored => End::Succeeded(None),
            ProgramEnd::StepsOut => End::StepsOut(None),
            ProgramEnd::TooMuchCode(size) => End::TooMuchCode(size),
            ProgramEnd::Stopped(stop) => End::Refused(Refusal::Stopped(stop)),
        }
    }
}
