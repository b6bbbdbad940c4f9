// The parser, and why it refuses.
ghost use Rattle.std.specs.Prelude.{◌≡◌, ◌≤◌, ◌-◌, length, IfOk, IfErr};
ghost use Rattle.alma_base.specs.Limits.{source_limit, depth_limit};
ghost use Rattle.alma_tree.specs.Spelling.{spelling};
ghost use Rattle.alma_tree.specs.View.{view_module};
ghost use Rattle.alma_tree.specs.Numbers.{IsNumbered};
ghost use Rattle.alma_tree.specs.Depth.{depth};
ghost use Rattle.alma_parse_cursor.specs.Parsing.{kinds_of};
ghost use Rattle.alma_parse.specs.Refusals.{Refuses};

use crate::error::ParseError;
use crate::whole::module;
use alma_base::SyntaxFault;
use alma_parse_cursor::Fault;
use alma_scan::Token;
use alma_tree::Module;
use std::alloc::Global;

/// The concrete tree that the tokens spell; or the index of the first token at which no program
/// goes on, which is the number of tokens where they end too early.
pub fn parse(alloc: Global, tokens: &[Token<'_>]) -> Result<Module, ParseError>
    requires few { length tokens.now ≤ source_limit }
    ensures found { IfOk result
        (λ m. (kinds_of tokens.now ≡ spelling (view_module m)) × IsNumbered m (length tokens.now) ×
        (depth (kinds_of tokens.now) ≤ depth_limit)) }
    ensures refused { IfErr result (λ e. Refuses e (kinds_of tokens.now)) }
{
    match module(alloc, tokens) {
        Ok(module) => Ok(module),
        Err(Fault::Unexpected(rest)) => Err(ParseError::Syntax(
            SyntaxFault::Unexpected,
            index_of(tokens, rest),
        )),
        Err(Fault::TooDeep(rest)) => Err(ParseError::Syntax(
            SyntaxFault::TooDeep,
            index_of(tokens, rest),
        )),
        Err(Fault::Memory) => Err(ParseError::Memory),
    }
}

/// The index of the first token of the rest: how many stand before it.
fn index_of(tokens: &[Token<'_>], rest: &[Token<'_>]) -> usize
    requires shorter { length rest.now ≤ length tokens.now }
    ensures index { result ≡ length tokens.now - length rest.now }
{
    tokens.len() - rest.len()
}
