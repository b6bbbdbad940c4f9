// The whole module.
ghost use Rattle.std.specs.Prelude.{◌≡◌, ◌≤◌, true, length, MatchResult};
ghost use Rattle.alma_base.specs.Limits.{source_limit};
ghost use Rattle.alma_tree.specs.Spelling.{spelling};
ghost use Rattle.alma_tree.specs.View.{view_module};
ghost use Rattle.alma_tree.specs.Numbers.{IsNumbered};
ghost use Rattle.alma_grammar.specs.Parts.{whole};
ghost use Rattle.alma_grammar.specs.Reading.{reading, done};
ghost use Rattle.alma_parse_cursor.specs.Parsing.{kinds_of, EndsIn};

use crate::declarations::block;
use crate::ending::end_of_module;
use alma_parse_cursor::{Cursor, Fault};
use alma_scan::Token;
use alma_tree::{Kind, Module};
use std::alloc::Global;

/// The module that all of the tokens spell. Its nodes and tokens are numbered from 0.
pub fn module<'t, 's>(alloc: Global, tokens: &'t [Token<'s>]) -> Result<Module, Fault<'t, 's>>
    requires few { length tokens.now ≤ source_limit }
    ensures read { MatchResult result
        (λ m. (kinds_of tokens.now ≡ spelling (view_module m)) × IsNumbered m (length tokens.now) ×
        (reading true (kinds_of tokens.now) 0 whole ≡ done))
        (λ e. EndsIn e (reading true (kinds_of tokens.now) 0 whole)) }
{
    let (at, inner) = Cursor::start(tokens).open(Kind::Module, 0)?;
    let (name, at) = at.name()?;
    let at = at.expect(Kind::Semicolon)?;
    let (block, at) = block(alloc, at, inner)?;
    let at = at.expect(Kind::End)?;
    let ((end_name, node), _) = end_of_module(at)?;
    Ok(Module {
        node,
        name,
        block,
        end_name,
    })
}
