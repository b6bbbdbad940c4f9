// Files that hold sources.
ghost use Rattle.std.specs.Prelude.{◌≡◌};
ghost use Rattle.alma_plan.specs.Course.{Reports};
ghost use Rattle.alma_plan.specs.Ends.{file_end, unit_stop};

use crate::refusal::{Refusal, refuse};
use crate::stop::Stop;
use crate::telling::tell_refusal;
use alma_base::{Place, Status};
use alma_io::Sink;
use alma_source::SourceFault;
use alma_unit::UnitError;

/// Why a call ends at a file that is to hold a source, but for what becomes of its text on err.
#[derive(Clone, Copy)]
pub enum FileStop {
    /// The source is refused for this fault, at this place.
    Refused(SourceFault, Place),
    /// What stops any call.
    Stopped(Stop),
}

impl From<UnitError> for FileStop {
    ghost from_gives = { λ error stop. stop ≡ unit_stop error };

    fn from(error: UnitError) -> Self {
        match error {
            UnitError::Absent => FileStop::Stopped(Stop::Read),
            UnitError::Failed => FileStop::Stopped(Stop::Read),
            UnitError::TooLong => FileStop::Stopped(Stop::TooLong),
            UnitError::Lex(fault, place) => FileStop::Refused(SourceFault::Lex(fault), place),
            UnitError::Syntax(fault, place) => FileStop::Refused(SourceFault::Syntax(fault), place),
            UnitError::Check(fault, place) => FileStop::Refused(SourceFault::Check(fault), place),
            UnitError::Memory => FileStop::Stopped(Stop::Memory),
        }
    }
}

/// Says on err, in the name of a program, why a call ends at a file: the status of that, or that of
/// a write fault where err fails.
pub fn tell_file<E: Sink>(err: &mut E, program: &[u8], file: &[u8], stop: FileStop) -> Status
    ensures { Reports (file_end program.now file.now stop) (E.side err.old) (E.side err.new)
        result.0 }
{
    match stop {
        FileStop::Refused(fault, place) => tell_refusal(err, file, fault, place),
        FileStop::Stopped(stop) => refuse(err, program, Refusal::Stopped(stop)),
    }
}
