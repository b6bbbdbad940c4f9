// The faults for which a source is refused.
ghost use Rattle.std.specs.Prelude.{◌≡◌};
ghost use Rattle.alma_source.specs.Texts.{source_fault_text};

use alma_base::{CheckFault, LexFault, SyntaxFault};

/// Why a source is no program.
#[derive(Clone, Copy, Debug, PartialEq, Eq)]
pub enum SourceFault {
    /// Its bytes are no tokens.
    Lex(LexFault),
    /// Its tokens are no program of the grammar.
    Syntax(SyntaxFault),
    /// It breaks a rule of names or types.
    Check(CheckFault),
}

impl SourceFault {
    /// The name of the fault.
    pub fn text(self) -> &'static str
        ensures { result.now ≡ source_fault_text self }
    {
        match self {
            SourceFault::Lex(fault) => fault.text(),
            SourceFault::Syntax(fault) => fault.text(),
            SourceFault::Check(fault) => fault.text(),
        }
    }
}
