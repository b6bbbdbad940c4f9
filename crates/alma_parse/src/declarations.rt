// Declarations and blocks.
ghost use Rattle.std.specs.Prelude.{◌∷◌, ◌<◌, length, MatchResult, IfOk};
ghost use Rattle.alma_tree.specs.Spelling.{spell_block, spell_decl_tail, spell_decl};
ghost use Rattle.alma_tree.specs.View.{view_decl, decls_of, view_block};
ghost use Rattle.alma_tree.specs.Numbers.{number_decl, numbers_of_decls, number_block};
ghost use Rattle.alma_grammar.specs.Parts.{block_parts, decl_tail};
ghost use Rattle.alma_parse_cursor.specs.Forms.{procedure_parts, decl_form_parts};
ghost use Rattle.alma_parse_cursor.specs.Parsing.{position_of, Reads, Fails};

use crate::entries::{body, const_decl, params, result_name, type_decl, var_decl};
use alma_parse_cursor::{Cursor, DeclForm, Fault};
use alma_tree::{Block, Decl, Kind};
use std::alloc::Global;

/// Declarations, of which there may be none, and the body, if there is one; END is left to the
/// caller. `depth` counts the brackets that are open here.
#[cycle(declarations)]
pub fn block<'t, 's>(
    alloc: Global,
    at: Cursor<'t, 's>,
    depth: u32,
) -> Result<(Block, Cursor<'t, 's>), Fault<'t, 's>>
    ensures read { MatchResult result (λ t. Reads (spell_block (view_block t.0))
        (number_block t.0) block_parts depth depth (position_of at.entry) (position_of t.1))
        (λ e. Fails e block_parts depth (position_of at.entry)) }
{
    let (decls, at) = decl_list(alloc, at, depth)?;
    let (body, at) = body(alloc, at, depth)?;
    let (node, at) = at.count()?;
    Ok((Block { node, decls, body }, at))
}

#[cycle(declarations)]
fn decl_list<'t, 's>(
    alloc: Global,
    mut at: Cursor<'t, 's>,
    depth: u32,
) -> Result<(Vec<Decl>, Cursor<'t, 's>), Fault<'t, 's>>
    ensures read { MatchResult result
        (λ t. Reads (spell_decl_tail (decls_of t.0.items)) (numbers_of_decls t.0.items)
        (λ o. decl_tail ∷ o) depth depth (position_of at.entry) (position_of t.1))
        (λ e. Fails e (λ o. decl_tail ∷ o) depth (position_of at.entry)) }
{
    let mut more = Vec::new(alloc);
    while let Some(form) = at.decl_form() {
        let (next, after) = decl(alloc, form, at, depth)?;
        more.push(next)?;
        at = after;
    }
    Ok((more, at))
}

#[cycle(declarations)]
fn decl<'t, 's>(
    alloc: Global,
    form: DeclForm,
    at: Cursor<'t, 's>,
    depth: u32,
) -> Result<(Decl, Cursor<'t, 's>), Fault<'t, 's>>
    ensures read { MatchResult result (λ t. Reads (spell_decl (view_decl t.0)) (number_decl t.0)
        (decl_form_parts form) depth depth (position_of at.entry) (position_of t.1))
        (λ e. Fails e (decl_form_parts form) depth (position_of at.entry)) }
    ensures shorter { IfOk result (λ t. length (position_of t.1).kinds < length
        (position_of at.entry).kinds) }
{
    match form {
        DeclForm::Const => const_decl(alloc, at, depth),
        DeclForm::Type => type_decl(alloc, at, depth),
        DeclForm::Var => var_decl(alloc, at, depth),
        DeclForm::Procedure => procedure(alloc, at, depth),
    }
}

#[cycle(declarations)]
fn procedure<'t, 's>(
    alloc: Global,
    at: Cursor<'t, 's>,
    depth: u32,
) -> Result<(Decl, Cursor<'t, 's>), Fault<'t, 's>>
    ensures read { MatchResult result (λ t. Reads (spell_decl (view_decl t.0))
        (number_decl t.0) procedure_parts depth depth (position_of at.entry) (position_of t.1))
        (λ e. Fails e procedure_parts depth (position_of at.entry)) }
    ensures shorter { IfOk result (λ t. length (position_of t.1).kinds < length
        (position_of at.entry).kinds) }
{
    let (at, inner) = at.open(Kind::Procedure, depth)?;
    let (name, at) = at.name()?;
    let (params, at) = params(alloc, at, inner)?;
    let (result, at) = result_name(at)?;
    let at = at.expect(Kind::Semicolon)?;
    let (block, at) = block(alloc, at, inner)?;
    let at = at.expect(Kind::End)?;
    let (end_name, at) = at.name()?;
    let at = at.expect(Kind::Semicolon)?;
    let (node, at) = at.count()?;
    Ok((
        Decl::Procedure {
            node,
            name,
            params,
            result,
            block,
            end_name,
        },
        at,
    ))
}
