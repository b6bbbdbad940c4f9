// Why a source is not shown to be a program.
use crate::fault::SourceFault;

/// Why a source is not shown to be a program.
#[derive(Clone, Copy)]
pub enum SourceStop {
    /// Its fault, and the offset of the byte at which it is.
    Refused(SourceFault, usize),
    /// Memory ran out.
    Memory,
}
