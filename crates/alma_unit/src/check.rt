// Whether a source is a program, and which.
ghost use Rattle.std.specs.Prelude.{◌≡◌, ◌≤◌, length, IfOk, IfErr};
ghost use Rattle.alma_base.specs.Limits.{source_limit};
ghost use Rattle.alma_ir.specs.Checked.{IsChecked};
ghost use Rattle.alma_ir.specs.View.{program_of};
ghost use Rattle.alma_scan.specs.Scanned.{lexemes};
ghost use Rattle.alma_scan.specs.Tokens.{Tokens};
ghost use Rattle.alma_source.specs.Refusal.{offset_of, IsParsed, IsProgramOf, IsStopOf};

use alma_check_stmt::check;
use alma_ir::Program;
use alma_parse::{ParseError, parse};
use alma_rules::CheckError;
use alma_scan::{ScanError, Token, scan};
use alma_source::{SourceFault, SourceStop};
use alma_tree::Module;
use std::alloc::Global;

// The offset of a token, or of the end of the source where there is none.
fn offset_of(source: &[u8], tokens: &[Token<'_>], index: usize) -> usize
    ensures { result ≡ offset_of (length source.now) (lexemes tokens.now) index }
{
    match tokens.get(index) {
        Some(token) => token.start,
        None => source.len(),
    }
}

// Checks the tree of a source.
fn check_tree(
    alloc: Global,
    source: &[u8],
    tokens: &[Token<'_>],
    tree: &Module,
) -> Result<Program, SourceStop>
    requires parsed { IsParsed source.now (lexemes tokens.now) tree.now }
    requires short { length source.now ≤ source_limit }
    ensures program { IfOk result (λ program. IsProgramOf source.now (program_of program)) }
    ensures checked { IfOk result (λ program. IsChecked (program_of program)) }
    ensures refused { IfErr result (λ stop. IsStopOf source.now stop) }
{
    match check(alloc, tree, tokens, source) {
        Ok(program) => Ok(program),
        Err(CheckError::Fault(fault, _node, token)) => Err(SourceStop::Refused(
            SourceFault::Check(fault),
            offset_of(source, tokens, token),
        )),
        Err(CheckError::Memory) => Err(SourceStop::Memory),
    }
}

// Parses the tokens of a source, and checks their tree.
fn check_tokens(alloc: Global, source: &[u8], tokens: &[Token<'_>]) -> Result<Program, SourceStop>
    requires scanned { Tokens source.now (lexemes tokens.now) }
    requires few { length tokens.now ≤ source_limit }
    requires short { length source.now ≤ source_limit }
    ensures program { IfOk result (λ program. IsProgramOf source.now (program_of program)) }
    ensures checked { IfOk result (λ program. IsChecked (program_of program)) }
    ensures refused { IfErr result (λ stop. IsStopOf source.now stop) }
{
    match parse(alloc, tokens) {
        Ok(tree) => check_tree(alloc, source, tokens, &tree),
        Err(ParseError::Syntax(fault, index)) => Err(SourceStop::Refused(
            SourceFault::Syntax(fault),
            offset_of(source, tokens, index),
        )),
        Err(ParseError::Memory) => Err(SourceStop::Memory),
    }
}

/// Scans, parses and checks a source: its resolved program; or the fault of the first of the three
/// that refuses it, with its offset in bytes: the end of the source where a token is lacking.
pub fn check_source(alloc: Global, source: &[u8]) -> Result<Program, SourceStop>
    requires short { length source.now ≤ source_limit }
    ensures program { IfOk result (λ program. IsProgramOf source.now (program_of program)) }
    ensures checked { IfOk result (λ program. IsChecked (program_of program)) }
    ensures refused { IfErr result (λ stop. IsStopOf source.now stop) }
{
    match scan(alloc, source) {
        Ok(tokens) => check_tokens(alloc, source, &tokens),
        Err(ScanError::Lex(fault, at)) => Err(SourceStop::Refused(SourceFault::Lex(fault), at)),
        Err(ScanError::Memory) => Err(SourceStop::Memory),
    }
}
