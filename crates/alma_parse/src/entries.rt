// The entries of declarations: constants, types, variables, parameters, results and bodies.
ghost use Rattle.std.specs.Prelude.{◌∷◌, ◌<◌, ℕ, pred, length, MatchResult, IfOk};
ghost use Rattle.alma_tree.specs.Spelling.{spell_const_tail, spell_type_tail, spell_var_tail, spell_formal, spell_formal_tail, spell_formals, spell_params};
ghost use Rattle.alma_tree.specs.Spelling.{spell_result_name, spell_body, spell_decl};
ghost use Rattle.alma_tree.specs.View.{consts_of, types_of, vars_of, view_formal, formal_tail_of, view_formals, params_of, result_of, body_of};
ghost use Rattle.alma_tree.specs.View.{view_decl};
ghost use Rattle.alma_tree.specs.Numbers.{numbers_of_consts, numbers_of_types, numbers_of_vars, number_formal, numbers_of_formals, number_formals};
ghost use Rattle.alma_tree.specs.Numbers.{numbers_of_params, numbers_of_result, numbers_of_body, number_decl};
ghost use Rattle.alma_grammar.specs.Parts.{const_tail, type_tail, var_tail, formal_tail, params_part, params_inside, result_part, body_part};
ghost use Rattle.alma_grammar.specs.Parts.{formal_parts};
ghost use Rattle.alma_grammar.specs.Filling.{spell_inside_params};
ghost use Rattle.alma_parse_cursor.specs.Forms.{const_entry_parts, type_entry_parts, var_entry_parts, const_decl_parts, type_decl_parts, var_decl_parts};
ghost use Rattle.alma_parse_cursor.specs.Forms.{formals_parts};
ghost use Rattle.alma_parse.specs.Entries.{inside_params_of, spell_const_entry, spell_type_entry, spell_var_entry, number_const_entry, number_type_entry};
ghost use Rattle.alma_parse.specs.Entries.{number_var_entry, number_inside_params};
ghost use Rattle.alma_parse_cursor.specs.Parsing.{position_of, Reads, Fails};

use crate::list::names;
use crate::types::type_node;
use alma_parse_cursor::{Cursor, Fault};
use alma_parse_stmt::{expr, stmts};
use alma_tree::{
    ConstEntry, Decl, Formal, Formals, Kind, Name, Params, Stmts, TypeEntry, VarEntry,
};
use std::alloc::Global;

/// CONST and its entries.
pub fn const_decl<'t, 's>(
    alloc: Global,
    at: Cursor<'t, 's>,
    depth: u32,
) -> Result<(Decl, Cursor<'t, 's>), Fault<'t, 's>>
    ensures read { MatchResult result (λ t. Reads (spell_decl (view_decl t.0))
        (number_decl t.0) const_decl_parts depth depth (position_of at.entry) (position_of t.1))
        (λ e. Fails e const_decl_parts depth (position_of at.entry)) }
    ensures shorter { IfOk result (λ t. length (position_of t.1).kinds < length
        (position_of at.entry).kinds) }
{
    let at = at.expect(Kind::Const)?;
    let (entries, at) = const_entries(alloc, at, depth)?;
    let (node, at) = at.count()?;
    Ok((Decl::Const { node, entries }, at))
}

fn const_entries<'t, 's>(
    alloc: Global,
    mut at: Cursor<'t, 's>,
    depth: u32,
) -> Result<(Vec<ConstEntry>, Cursor<'t, 's>), Fault<'t, 's>>
    ensures read { MatchResult result
        (λ t. Reads (spell_const_tail (consts_of t.0.items)) (numbers_of_consts t.0.items)
        (λ o. const_tail ∷ o) depth depth (position_of at.entry) (position_of t.1))
        (λ e. Fails e (λ o. const_tail ∷ o) depth (position_of at.entry)) }
{
    let mut more = Vec::new(alloc);
    while at.is_at(Kind::Name) {
        let (next, after) = const_entry(alloc, at, depth)?;
        more.push(next)?;
        at = after;
    }
    Ok((more, at))
}

fn const_entry<'t, 's>(
    alloc: Global,
    at: Cursor<'t, 's>,
    depth: u32,
) -> Result<(ConstEntry, Cursor<'t, 's>), Fault<'t, 's>>
    ensures read { MatchResult result (λ t. Reads (spell_const_entry t.0)
        (number_const_entry t.0) const_entry_parts depth depth (position_of at.entry)
        (position_of t.1))
        (λ e. Fails e const_entry_parts depth (position_of at.entry)) }
    ensures shorter { IfOk result (λ t. length (position_of t.1).kinds < length
        (position_of at.entry).kinds) }
{
    let (name, at) = at.name()?;
    let at = at.expect(Kind::Equal)?;
    let (value, at) = expr(alloc, at, depth)?;
    let at = at.expect(Kind::Semicolon)?;
    Ok((ConstEntry { name, value }, at))
}

/// TYPE and its entries.
pub fn type_decl<'t, 's>(
    alloc: Global,
    at: Cursor<'t, 's>,
    depth: u32,
) -> Result<(Decl, Cursor<'t, 's>), Fault<'t, 's>>
    ensures read { MatchResult result (λ t. Reads (spell_decl (view_decl t.0))
        (number_decl t.0) type_decl_parts depth depth (position_of at.entry) (position_of t.1))
        (λ e. Fails e type_decl_parts depth (position_of at.entry)) }
    ensures shorter { IfOk result (λ t. length (position_of t.1).kinds < length
        (position_of at.entry).kinds) }
{
    let at = at.expect(Kind::Type)?;
    let (entries, at) = type_entries(alloc, at, depth)?;
    let (node, at) = at.count()?;
    Ok((Decl::Type { node, entries }, at))
}

fn type_entries<'t, 's>(
    alloc: Global,
    mut at: Cursor<'t, 's>,
    depth: u32,
) -> Result<(Vec<TypeEntry>, Cursor<'t, 's>), Fault<'t, 's>>
    ensures read { MatchResult result
        (λ t. Reads (spell_type_tail (types_of t.0.items)) (numbers_of_types t.0.items)
        (λ o. type_tail ∷ o) depth depth (position_of at.entry) (position_of t.1))
        (λ e. Fails e (λ o. type_tail ∷ o) depth (position_of at.entry)) }
{
    let mut more = Vec::new(alloc);
    while at.is_at(Kind::Name) {
        let (next, after) = type_entry(alloc, at, depth)?;
        more.push(next)?;
        at = after;
    }
    Ok((more, at))
}

fn type_entry<'t, 's>(
    alloc: Global,
    at: Cursor<'t, 's>,
    depth: u32,
) -> Result<(TypeEntry, Cursor<'t, 's>), Fault<'t, 's>>
    ensures read { MatchResult result (λ t. Reads (spell_type_entry t.0)
        (number_type_entry t.0) type_entry_parts depth depth (position_of at.entry)
        (position_of t.1))
        (λ e. Fails e type_entry_parts depth (position_of at.entry)) }
    ensures shorter { IfOk result (λ t. length (position_of t.1).kinds < length
        (position_of at.entry).kinds) }
{
    let (name, at) = at.name()?;
    let at = at.expect(Kind::Equal)?;
    let (type_node, at) = type_node(alloc, at, depth)?;
    let at = at.expect(Kind::Semicolon)?;
    Ok((TypeEntry { name, type_node }, at))
}

/// VAR and its entries.
pub fn var_decl<'t, 's>(
    alloc: Global,
    at: Cursor<'t, 's>,
    depth: u32,
) -> Result<(Decl, Cursor<'t, 's>), Fault<'t, 's>>
    ensures read { MatchResult result (λ t. Reads (spell_decl (view_decl t.0))
        (number_decl t.0) var_decl_parts depth depth (position_of at.entry) (position_of t.1))
        (λ e. Fails e var_decl_parts depth (position_of at.entry)) }
    ensures shorter { IfOk result (λ t. length (position_of t.1).kinds < length
        (position_of at.entry).kinds) }
{
    let at = at.expect(Kind::Var)?;
    let (entries, at) = var_entries(alloc, at, depth)?;
    let (node, at) = at.count()?;
    Ok((Decl::Var { node, entries }, at))
}

fn var_entries<'t, 's>(
    alloc: Global,
    mut at: Cursor<'t, 's>,
    depth: u32,
) -> Result<(Vec<VarEntry>, Cursor<'t, 's>), Fault<'t, 's>>
    ensures read { MatchResult result
        (λ t. Reads (spell_var_tail (vars_of t.0.items)) (numbers_of_vars t.0.items)
        (λ o. var_tail ∷ o) depth depth (position_of at.entry) (position_of t.1))
        (λ e. Fails e (λ o. var_tail ∷ o) depth (position_of at.entry)) }
{
    let mut more = Vec::new(alloc);
    while at.is_at(Kind::Name) {
        let (next, after) = var_entry(alloc, at, depth)?;
        more.push(next)?;
        at = after;
    }
    Ok((more, at))
}

fn var_entry<'t, 's>(
    alloc: Global,
    at: Cursor<'t, 's>,
    depth: u32,
) -> Result<(VarEntry, Cursor<'t, 's>), Fault<'t, 's>>
    ensures read { MatchResult result (λ t. Reads (spell_var_entry t.0)
        (number_var_entry t.0) var_entry_parts depth depth (position_of at.entry) (position_of t.1))
        (λ e. Fails e var_entry_parts depth (position_of at.entry)) }
    ensures shorter { IfOk result (λ t. length (position_of t.1).kinds < length
        (position_of at.entry).kinds) }
{
    let (names, at) = names(alloc, at)?;
    let at = at.expect(Kind::Colon)?;
    let (type_node, at) = type_node(alloc, at, depth)?;
    let at = at.expect(Kind::Semicolon)?;
    Ok((VarEntry { names, type_node }, at))
}

/// The parameters of a procedure with their parentheses, which may be empty; None where no `(`
/// stands here. `depth` is that before the parenthesis.
pub fn params<'t, 's>(
    alloc: Global,
    at: Cursor<'t, 's>,
    depth: u32,
) -> Result<(Option<Params>, Cursor<'t, 's>), Fault<'t, 's>>
    ensures read { MatchResult result
        (λ t. Reads (spell_params (params_of t.0)) (numbers_of_params t.0)
        (λ o. params_part ∷ o) depth depth (position_of at.entry) (position_of t.1))
        (λ e. Fails e (λ o. params_part ∷ o) depth (position_of at.entry)) }
{
    if !at.is_at(Kind::OpenParen) {
        return Ok((None, at));
    }
    let (at, inner) = at.open(Kind::OpenParen, depth)?;
    let (formals, at) = params_values(alloc, at, inner)?;
    Ok((Some(Params { formals }), at))
}

/// What stands behind the opening parenthesis of parameters, up to the closing one. The depth is
/// that inside.
fn params_values<'t, 's>(
    alloc: Global,
    at: Cursor<'t, 's>,
    depth: u32,
) -> Result<(Option<Formals>, Cursor<'t, 's>), Fault<'t, 's>>
    ensures read { MatchResult result
        (λ t. Reads (spell_inside_params (inside_params_of t.0)) (number_inside_params t.0)
        (λ o. params_inside ∷ o)
        depth (pred depth) (position_of at.entry) (position_of t.1))
        (λ e. Fails e (λ o. params_inside ∷ o) depth (position_of at.entry)) }
{
    if let Some(after) = at.skip(Kind::CloseParen) {
        return Ok((None, after));
    }
    let (formals, at) = formals(alloc, at, depth)?;
    let at = at.expect(Kind::CloseParen)?;
    Ok((Some(formals), at))
}

fn formals<'t, 's>(
    alloc: Global,
    at: Cursor<'t, 's>,
    depth: u32,
) -> Result<(Formals, Cursor<'t, 's>), Fault<'t, 's>>
    ensures read { MatchResult result (λ t. Reads (spell_formals (view_formals t.0))
        (number_formals t.0) formals_parts depth depth (position_of at.entry) (position_of t.1))
        (λ e. Fails e formals_parts depth (position_of at.entry)) }
{
    let (first, at) = formal(alloc, at, depth)?;
    let (more, at) = formal_list(alloc, at, depth)?;
    let (node, at) = at.count()?;
    Ok((Formals { node, first, more }, at))
}

fn formal_list<'t, 's>(
    alloc: Global,
    mut at: Cursor<'t, 's>,
    depth: u32,
) -> Result<(Vec<Formal>, Cursor<'t, 's>), Fault<'t, 's>>
    ensures read { MatchResult result
        (λ t. Reads (spell_formal_tail (formal_tail_of t.0.items)) (numbers_of_formals t.0.items)
        (λ o. formal_tail ∷ o) depth depth (position_of at.entry) (position_of t.1))
        (λ e. Fails e (λ o. formal_tail ∷ o) depth (position_of at.entry)) }
{
    let mut more = Vec::new(alloc);
    while let Some(after) = at.skip(Kind::Semicolon) {
        let (next, after) = formal(alloc, after, depth)?;
        more.push(next)?;
        at = after;
    }
    Ok((more, at))
}

fn formal<'t, 's>(
    alloc: Global,
    at: Cursor<'t, 's>,
    depth: u32,
) -> Result<(Formal, Cursor<'t, 's>), Fault<'t, 's>>
    ensures read { MatchResult result (λ t. Reads (spell_formal (view_formal t.0))
        (number_formal t.0) formal_parts depth depth (position_of at.entry) (position_of t.1))
        (λ e. Fails e formal_parts depth (position_of at.entry)) }
{
    let (mode, at) = at.mode();
    let (names, at) = names(alloc, at)?;
    let at = at.expect(Kind::Colon)?;
    let (type_name, at) = at.name()?;
    let (node, at) = at.count()?;
    Ok((
        Formal {
            node,
            mode,
            names,
            type_name,
        },
        at,
    ))
}

/// The name of a result's type, or none.
pub fn result_name<'t, 's>(
    at: Cursor<'t, 's>,
) -> Result<(Option<Name>, Cursor<'t, 's>), Fault<'t, 's>>
    ensures read { MatchResult result
        (λ t. (d : ℕ) → Reads (spell_result_name (result_of t.0)) (numbers_of_result t.0)
        (λ o. result_part ∷ o) d d (position_of at.entry) (position_of t.1))
        (λ e. (d : ℕ) → Fails e (λ o. result_part ∷ o) d (position_of at.entry)) }
{
    let Some(at) = at.skip(Kind::Colon) else {
        return Ok((None, at));
    };
    let (name, at) = at.name()?;
    Ok((Some(name), at))
}

/// BEGIN and the statements, or none.
pub fn body<'t, 's>(
    alloc: Global,
    at: Cursor<'t, 's>,
    depth: u32,
) -> Result<(Option<Stmts>, Cursor<'t, 's>), Fault<'t, 's>>
    ensures read { MatchResult result (λ t. Reads (spell_body (body_of t.0)) (numbers_of_body t.0)
        (λ o. body_part ∷ o) depth depth (position_of at.entry) (position_of t.1))
        (λ e. Fails e (λ o. body_part ∷ o) depth (position_of at.entry)) }
{
    let Some(at) = at.skip(Kind::Begin) else {
        return Ok((None, at));
    };
    let (value, at) = stmts(alloc, at, depth)?;
    Ok((Some(value), at))
}
