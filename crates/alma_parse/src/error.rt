// Why the parser refuses.
use alma_base::SyntaxFault;
use thiserror::Error;

/// Why tokens are no program.
#[derive(Clone, Copy, Debug, PartialEq, Eq, Error)]
pub enum ParseError {
    /// The fault, and the index of its token.
    #[error("{0:?} at token {1}")]
    Syntax(SyntaxFault, usize),
    /// Memory ran out.
    #[error("out of memory")]
    Memory,
}
