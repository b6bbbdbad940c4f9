// The program of a file.
ghost use Rattle.std.specs.Prelude.{◌≡◌, ◌≤◌, List, ℕ, IfOk, length};
ghost use Rattle.alma_base.specs.Limits.{source_limit};
ghost use Rattle.alma_ir.specs.Checked.{IsChecked};
ghost use Rattle.alma_ir.specs.View.{program_of};
ghost use Rattle.alma_resolved.specs.Room.{HasRoom};
ghost use Rattle.alma_unit.specs.Unit.{IsUnit, IsUnitOf, fault_error, fetch_error};

use crate::check::check_source;
use alma_base::{CheckFault, LexFault, Place, SOURCE_LIMIT, SyntaxFault};
use alma_io::{Fetch, Files};
use alma_ir::Program;
use alma_scan::place;
use alma_source::{SourceFault, SourceStop};
use std::alloc::Global;

/// Why a file gives no program.
#[derive(Clone, Copy, Debug, PartialEq, Eq)]
pub enum UnitError {
    /// There is no such file.
    Absent,
    /// The fetch failed.
    Failed,
    /// The file has more than 1,048,576 bytes.
    TooLong,
    /// Its bytes are no tokens: the first fault, and where it is.
    Lex(LexFault, Place),
    /// Its tokens are no program of the grammar.
    Syntax(SyntaxFault, Place),
    /// It breaks a rule of names or types: the least that is broken.
    Check(CheckFault, Place),
    /// Memory ran out.
    Memory,
}

impl UnitError {
    /// The error of a fault of a source.
    pub fn of_fault(fault: SourceFault, place: Place) -> UnitError
        ensures { result ≡ fault_error fault place }
    {
        match fault {
            SourceFault::Lex(fault) => UnitError::Lex(fault, place),
            SourceFault::Syntax(fault) => UnitError::Syntax(fault, place),
            SourceFault::Check(fault) => UnitError::Check(fault, place),
        }
    }
}

impl From<Fetch> for UnitError {
    ghost from_gives = { λ fault error. error ≡ fetch_error fault };

    fn from(fault: Fetch) -> Self {
        match fault {
            Fetch::Absent => UnitError::Absent,
            Fetch::Failed => UnitError::Failed,
            Fetch::TooLong => UnitError::TooLong,
            Fetch::Memory => UnitError::Memory,
        }
    }
}

// The program of a source.
fn judge(alloc: Global, source: &[u8]) -> Result<Program, UnitError>
    requires short { length source.now ≤ source_limit }
    ensures answer { IsUnitOf source.now result }
    ensures checked { IfOk result (λ program. IsChecked (program_of program)) }
    ensures room { IfOk result (λ program. HasRoom (program_of program)) }
{
    match check_source(alloc, source) {
        Ok(program) => Ok(program),
        Err(SourceStop::Refused(fault, offset)) => {
            Err(UnitError::of_fault(fault, place(source, offset)))
        }
        Err(SourceStop::Memory) => Err(UnitError::Memory),
    }
}

/// The program of the named file, which is a source of at most 1,048,576 bytes.
pub fn read_unit<F: Files>(alloc: Global, files: &mut F, name: &str) -> Result<Program, UnitError>
    ensures same { (other : List ℕ) → (F.side files.new).told other
        ≡ (F.side files.old).told other }
    ensures store_count { (F.side files.new).store_faults ≡ (F.side files.old).store_faults }
    ensures answer { IsUnit ((F.side files.old).told name.now) name.now
        (F.side files.old).fetch_faults (F.side files.new).fetch_faults result }
    ensures checked { IfOk result (λ program. IsChecked (program_of program)) }
    ensures room { IfOk result (λ program. HasRoom (program_of program)) }
{
    match files.fetch(alloc, name, SOURCE_LIMIT) {
        Ok(source) => judge(alloc, &source),
        Err(fault) => Err(UnitError::from(fault)),
    }
}
