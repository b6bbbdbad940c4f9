// The recursion: statements hold statements, and so does a parenthesis of an expression.
ghost use Rattle.std.specs.Prelude.{◌≡◌, length, MatchResult};
ghost use Rattle.alma_tree.specs.Spelling.{spell_expr, spell_stmts};
ghost use Rattle.alma_tree.specs.View.{view_expr, view_stmts};
ghost use Rattle.alma_tree.specs.Numbers.{number_expr, number_stmts};
ghost use Rattle.alma_grammar.specs.Parts.{expr_parts, stmts_parts};
ghost use Rattle.alma_parse_cursor.specs.Parsing.{position_of, Reads, Fails};
ghost use Rattle.alma_parse_expr.specs.Inside.{ReadsAt};

use crate::statement::statements;
use alma_parse_cursor::{Cursor, Fault};
use alma_tree::{Expr, Stmts};
use std::alloc::Global;

/// How many tokens are left.
fn tokens_left(at: Cursor<'_, '_>) -> usize
    ensures counted { result ≡ length (position_of at.entry).kinds }
{
    at.rest.len()
}

/// An expression; what stands behind it is left to the caller. `depth` counts the brackets that are
/// open here.
pub fn expr<'t, 's>(
    alloc: Global,
    at: Cursor<'t, 's>,
    depth: u32,
) -> Result<(Expr, Cursor<'t, 's>), Fault<'t, 's>>
    ensures read { MatchResult result (λ t. Reads (spell_expr (view_expr t.0))
        (number_expr t.0) expr_parts depth depth (position_of at.entry) (position_of t.1))
        (λ e. Fails e expr_parts depth (position_of at.entry)) }
{
    alma_parse_expr::expr(
        alloc,
        at,
        depth,
        &|alloc: Global, at: Cursor<'_, '_>, depth: u32|
            ensures { ReadsAt at.entry depth result }
        { stmts(alloc, at, depth) },
    )
}

/// One statement or more with semicolons between them, any of which may be empty; what ends them is
/// left to the caller. `depth` counts the brackets that are open here. What stands in a statement,
/// or in a parenthesis, is read by this again, with fewer tokens left.
#[cycle(phrases)]
pub fn stmts<'t, 's>(
    alloc: Global,
    at: Cursor<'t, 's>,
    depth: u32,
) -> Result<(Stmts, Cursor<'t, 's>), Fault<'t, 's>>
    ensures read { MatchResult result (λ t. Reads (spell_stmts (view_stmts t.0))
        (number_stmts t.0) stmts_parts depth depth (position_of at.entry) (position_of t.1))
        (λ e. Fails e stmts_parts depth (position_of at.entry)) }
{
    let left = tokens_left(at);
    statements(
        alloc,
        at,
        depth,
        &|alloc: Global, at: Cursor<'_, '_>, depth: u32|
            ensures { ReadsAt at.entry depth result }
        { inside(alloc, at, depth, left) },
    )
}

/// The statements that stand in a statement or a parenthesis, where fewer than `left` tokens are
/// left.
#[cycle(phrases)]
fn inside<'t, 's>(
    alloc: Global,
    at: Cursor<'t, 's>,
    depth: u32,
    left: usize,
) -> Result<(Stmts, Cursor<'t, 's>), Fault<'t, 's>>
    ensures read { ReadsAt at.entry depth result }
{
    if tokens_left(at) < left {
        return stmts(alloc, at, depth);
    }
    Err(Fault::Memory)
}
