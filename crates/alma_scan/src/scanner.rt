// Tokens, the scanner that gives them one by one, and all tokens of a source.
ghost use Rattle.std.specs.Prelude.{◌≤◌, length, vec_len, All, IfOk, IfErr};

use crate::front::read_front;
use crate::gap::skip_gap;
use alma_base::LexFault;
use alma_tree::Kind;
use std::alloc::{AllocFailed, Global};
use std::marker::Model;
use thiserror::Error;

/// A token, whose text borrows from its source.
#[derive(Clone, Copy, Debug, PartialEq, Eq)]
pub struct Token<'s> {
    pub kind: Kind,
    /// The slice of the source at `start`.
    pub text: &'s [u8],
    /// The offset of the first byte of the text.
    pub start: usize,
}

/// The first lexical fault of a source, and its offset.
#[derive(Clone, Copy, Debug, PartialEq, Eq)]
pub struct LexStop {
    pub fault: LexFault,
    pub at: usize,
}

/// Why a source has no token list.
#[derive(Clone, Copy, Debug, PartialEq, Eq, Error)]
pub enum ScanError {
    /// The first lexical fault, and its offset.
    #[error("{0:?} at byte {1}")]
    Lex(LexFault, usize),
    /// Memory ran out.
    #[error("out of memory")]
    Memory,
}

impl<T: Drop> From<AllocFailed<T>> for ScanError {
    ghost use Rattle.std.specs.Prelude.{◌≡◌};
    ghost use Rattle.alma_scan.specs.declared.scanner.ScanError.TheVariants.{Memory};

    ghost from_gives = { λ _ error. error ≡ Memory };

    fn from(_: AllocFailed<T>) -> Self {
        ScanError::Memory
    }
}

/// Gives the tokens of a source in order. It takes no memory.
#[derive(Drop)]
pub struct Scanner<'s> {
    size: usize,
    rest: &'s [u8],
}

impl<'s> Model for Scanner<'s> {
    ghost use Rattle.std.specs.Prelude.{◌≤◌, length};
    ghost use Rattle.alma_scan.specs.Unread.{Unread};

    ghost Value = { Unread };

    ghost view = { λ s. record { size = s.size; bytes = s.rest.now } };

    ghost invariant = { λ s. length s.rest.now ≤ s.size };
}

impl<'s> Scanner<'s> {
    ghost use Rattle.std.specs.Prelude.{◌≡◌, [], length, IfSome, IfNone, OnErr};
    ghost use Rattle.alma_scan.specs.Comments.{Gap};
    ghost use Rattle.alma_scan.specs.Tokens.{HasToken};
    ghost use Rattle.alma_scan.specs.Faults.{HasFault};
    ghost use Rattle.alma_scan.specs.Scanned.{lexeme};

    /// A scanner at the start of a source.
    pub fn new(source: &'s [u8]) -> Scanner<'s>
        ensures { result ≡ record { size = length source.now; bytes = source.now } }
    {
        Scanner {
            size: source.len(),
            rest: source,
        }
    }

    /// The next token, `None` behind the last, or the first lexical fault; the last two for good.
    #[tactic(auto, using(crate::proofs::Gaps::gap_shorter))]
    pub fn next(&mut self) -> Result<Option<Token<'s>>, LexStop>
        ensures size { self.new.size ≡ self.old.size }
        ensures token { IfOk result (λ found. IfSome found (λ token.
            HasToken self.old.size self.old.bytes (lexeme token) self.new.bytes)) }
        ensures end { IfOk result (λ found. IfNone found (Gap self.old.bytes [])) }
        ensures end_stays { IfOk result (λ found. IfNone found (self.new ≡ self.old)) }
        ensures fault { IfErr result (λ stop. HasFault self.old.size self.old.bytes [] stop.fault
            stop.at) }
        ensures fault_stays { OnErr result (self.new ≡ self.old) }
    {
        let bytes = skip_gap(self.rest);
        if bytes.is_empty() {
            return Ok(None);
        }
        let start = self.size - bytes.len();
        match read_front(bytes) {
            Ok(front) => {
                self.rest = front.rest;
                Ok(Some(Token {
                    kind: front.kind,
                    text: front.text,
                    start,
                }))
            }
            Err(fault) => Err(LexStop { fault, at: start }),
        }
    }
}

ghost use Rattle.alma_scan.specs.Tokens.{Tokens, IsSlice};
ghost use Rattle.alma_scan.specs.Scanned.{lexemes, IsScanErrorOf};

/// All tokens of a source in order, or its first lexical fault. Their texts borrow from the source;
/// only the list takes memory.
pub fn scan(alloc: Global, source: &[u8]) -> Result<Vec<Token<'_>>, ScanError>
    ensures tokens { IfOk result (λ tokens. Tokens source.now (lexemes tokens.items)) }
    ensures slices { IfOk result (λ tokens. All (IsSlice source.now) (lexemes tokens.items)) }
    ensures count { IfOk result (λ tokens. vec_len tokens ≤ length source.now) }
    ensures fault { IfErr result (λ error. IsScanErrorOf source.now error) }
{
    let mut scanner = Scanner::new(source);
    let mut tokens = Vec::new(alloc);
    loop {
        match scanner.next() {
            Ok(Some(token)) => tokens.push(token)?,
            Ok(None) => return Ok(tokens),
            Err(stop) => return Err(ScanError::Lex(stop.fault, stop.at)),
        }
    }
}
