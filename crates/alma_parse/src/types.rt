// Types.
ghost use Rattle.std.specs.Prelude.{◌∷◌, ◌<◌, ℕ, length, MatchResult, IfOk};
ghost use Rattle.alma_tree.specs.Spelling.{spell_type_node, spell_array_tail, spell_dimensions, spell_plain_type, spell_plain_tail, spell_field_list};
ghost use Rattle.alma_tree.specs.Spelling.{spell_field_list_tail};
ghost use Rattle.alma_tree.specs.View.{view_type_node, arrays_of, view_dimension, dimensions_of, view_plain_type, plains_of, view_field_list};
ghost use Rattle.alma_tree.specs.View.{field_lists_of};
ghost use Rattle.alma_tree.specs.Numbers.{number_type, numbers_of_arrays, numbers_of_dimensions, number_plain, numbers_of_plains};
ghost use Rattle.alma_tree.specs.Numbers.{number_field_list, numbers_of_field_lists};
ghost use Rattle.alma_grammar.specs.Parts.{array_tail, plain_part, plain_tail, field_list_part, field_list_tail, type_parts};
ghost use Rattle.alma_parse_cursor.specs.Forms.{dimensions_parts, named_type_parts, listed_parts, subrange_parts, record_parts, fields_parts};
ghost use Rattle.alma_parse.specs.Dimensions.{number_dimension};
ghost use Rattle.alma_parse_cursor.specs.Parsing.{position_of, Reads, Fails};

use crate::list::names;
use alma_parse_cursor::{Cursor, Fault, PlainForm};
use alma_parse_stmt::expr;
use alma_tree::{Arrays, Dimensions, FieldList, Kind, PlainType, TypeNode};
use std::alloc::Global;

/// A type: any number of ARRAY parts, each to its OF, and a type of another form. `depth` counts
/// the brackets that are open here.
#[cycle(types)]
pub fn type_node<'t, 's>(
    alloc: Global,
    at: Cursor<'t, 's>,
    depth: u32,
) -> Result<(TypeNode, Cursor<'t, 's>), Fault<'t, 's>>
    ensures read { MatchResult result
        (λ t. Reads (spell_type_node (view_type_node t.0)) (number_type t.0) type_parts depth depth
        (position_of at.entry) (position_of t.1))
        (λ e. Fails e type_parts depth (position_of at.entry)) }
{
    let (arrays, at) = arrays(alloc, at, depth)?;
    let (element, at) = plain_type(alloc, at, depth)?;
    let (node, at) = at.count()?;
    Ok((
        TypeNode {
            node,
            arrays,
            element,
        },
        at,
    ))
}

#[cycle(types)]
fn arrays<'t, 's>(
    alloc: Global,
    at: Cursor<'t, 's>,
    depth: u32,
) -> Result<(Option<Arrays>, Cursor<'t, 's>), Fault<'t, 's>>
    ensures read { MatchResult result
        (λ t. Reads (spell_array_tail (arrays_of t.0)) (numbers_of_arrays t.0)
        (λ o. array_tail ∷ o) depth depth (position_of at.entry) (position_of t.1))
        (λ e. Fails e (λ o. array_tail ∷ o) depth (position_of at.entry)) }
{
    if !at.is_at(Kind::Array) {
        return Ok((None, at));
    }
    let (first, at) = dimensions(alloc, at, depth)?;
    let (more, at) = dimensions_list(alloc, at, depth)?;
    let (node, at) = at.count()?;
    Ok((Some(Arrays { node, first, more }), at))
}

#[cycle(types)]
fn dimensions<'t, 's>(
    alloc: Global,
    at: Cursor<'t, 's>,
    depth: u32,
) -> Result<(Dimensions, Cursor<'t, 's>), Fault<'t, 's>>
    ensures read { MatchResult result
        (λ t. Reads (spell_dimensions (view_dimension t.0))
        (number_dimension t.0) dimensions_parts depth depth (position_of at.entry)
        (position_of t.1))
        (λ e. Fails e dimensions_parts depth (position_of at.entry)) }
    ensures shorter { IfOk result (λ t. length (position_of t.1).kinds < length
        (position_of at.entry).kinds) }
{
    let at = at.expect(Kind::Array)?;
    let (first, at) = plain_type(alloc, at, depth)?;
    let (more, at) = plain_list(alloc, at, depth)?;
    let at = at.expect(Kind::Of)?;
    Ok((Dimensions { first, more }, at))
}

#[cycle(types)]
fn dimensions_list<'t, 's>(
    alloc: Global,
    mut at: Cursor<'t, 's>,
    depth: u32,
) -> Result<(Vec<Dimensions>, Cursor<'t, 's>), Fault<'t, 's>>
    ensures read { MatchResult result
        (λ t. Reads (spell_array_tail (dimensions_of t.0.items)) (numbers_of_dimensions t.0.items)
        (λ o. array_tail ∷ o) depth depth (position_of at.entry) (position_of t.1))
        (λ e. Fails e (λ o. array_tail ∷ o) depth (position_of at.entry)) }
{
    let mut more = Vec::new(alloc);
    while at.is_at(Kind::Array) {
        let (next, after) = dimensions(alloc, at, depth)?;
        more.push(next)?;
        at = after;
    }
    Ok((more, at))
}

#[cycle(types)]
fn plain_type<'t, 's>(
    alloc: Global,
    at: Cursor<'t, 's>,
    depth: u32,
) -> Result<(PlainType, Cursor<'t, 's>), Fault<'t, 's>>
    ensures read { MatchResult result
        (λ t. Reads (spell_plain_type (view_plain_type t.0)) (number_plain t.0)
        (λ o. plain_part ∷ o) depth depth (position_of at.entry) (position_of t.1))
        (λ e. Fails e (λ o. plain_part ∷ o) depth (position_of at.entry)) }
{
    match at.plain_form()? {
        PlainForm::Named => named_type(at),
        PlainForm::Listed => listed(alloc, at, depth),
        PlainForm::Subrange => subrange(alloc, at, depth),
        PlainForm::Record => record_type(alloc, at, depth),
    }
}

fn named_type<'t, 's>(at: Cursor<'t, 's>) -> Result<(PlainType, Cursor<'t, 's>), Fault<'t, 's>>
    ensures read { MatchResult result
        (λ t. (d : ℕ) → Reads (spell_plain_type (view_plain_type t.0))
        (number_plain t.0) named_type_parts d d (position_of at.entry) (position_of t.1))
        (λ e. (d : ℕ) → Fails e named_type_parts d (position_of at.entry)) }
{
    let (name, at) = at.name()?;
    let (node, at) = at.count()?;
    Ok((PlainType::Named { node, name }, at))
}

fn listed<'t, 's>(
    alloc: Global,
    at: Cursor<'t, 's>,
    depth: u32,
) -> Result<(PlainType, Cursor<'t, 's>), Fault<'t, 's>>
    ensures read { MatchResult result
        (λ t. Reads (spell_plain_type (view_plain_type t.0))
        (number_plain t.0) listed_parts depth depth (position_of at.entry) (position_of t.1))
        (λ e. Fails e listed_parts depth (position_of at.entry)) }
{
    let (at, _) = at.open(Kind::OpenParen, depth)?;
    let (names, at) = names(alloc, at)?;
    let at = at.expect(Kind::CloseParen)?;
    let (node, at) = at.count()?;
    Ok((PlainType::Listed { node, names }, at))
}

fn subrange<'t, 's>(
    alloc: Global,
    at: Cursor<'t, 's>,
    depth: u32,
) -> Result<(PlainType, Cursor<'t, 's>), Fault<'t, 's>>
    ensures read { MatchResult result
        (λ t. Reads (spell_plain_type (view_plain_type t.0))
        (number_plain t.0) subrange_parts depth depth (position_of at.entry) (position_of t.1))
        (λ e. Fails e subrange_parts depth (position_of at.entry)) }
{
    let (at, inner) = at.open(Kind::OpenBracket, depth)?;
    let (low, at) = expr(alloc, at, inner)?;
    let at = at.expect(Kind::DotDot)?;
    let (high, at) = expr(alloc, at, inner)?;
    let at = at.expect(Kind::CloseBracket)?;
    let (node, at) = at.count()?;
    Ok((PlainType::Subrange { node, low, high }, at))
}

#[cycle(types)]
fn record_type<'t, 's>(
    alloc: Global,
    at: Cursor<'t, 's>,
    depth: u32,
) -> Result<(PlainType, Cursor<'t, 's>), Fault<'t, 's>>
    ensures read { MatchResult result
        (λ t. Reads (spell_plain_type (view_plain_type t.0))
        (number_plain t.0) record_parts depth depth (position_of at.entry) (position_of t.1))
        (λ e. Fails e record_parts depth (position_of at.entry)) }
{
    let (at, inner) = at.open(Kind::Record, depth)?;
    let (first, at) = field_list(alloc, at, inner)?;
    let (more, at) = field_lists(alloc, at, inner)?;
    let at = at.expect(Kind::End)?;
    let first = Box::new(alloc, first)?;
    let (node, at) = at.count()?;
    Ok((PlainType::Record { node, first, more }, at))
}

#[cycle(types)]
fn plain_list<'t, 's>(
    alloc: Global,
    mut at: Cursor<'t, 's>,
    depth: u32,
) -> Result<(Vec<PlainType>, Cursor<'t, 's>), Fault<'t, 's>>
    ensures read { MatchResult result
        (λ t. Reads (spell_plain_tail (plains_of t.0.items)) (numbers_of_plains t.0.items)
        (λ o. plain_tail ∷ o) depth depth (position_of at.entry) (position_of t.1))
        (λ e. Fails e (λ o. plain_tail ∷ o) depth (position_of at.entry)) }
{
    let mut more = Vec::new(alloc);
    while let Some(after) = at.skip(Kind::Comma) {
        let (next, after) = plain_type(alloc, after, depth)?;
        more.push(next)?;
        at = after;
    }
    Ok((more, at))
}

#[cycle(types)]
fn field_list<'t, 's>(
    alloc: Global,
    at: Cursor<'t, 's>,
    depth: u32,
) -> Result<(FieldList, Cursor<'t, 's>), Fault<'t, 's>>
    ensures read { MatchResult result
        (λ t. Reads (spell_field_list (view_field_list t.0)) (number_field_list t.0)
        (λ o. field_list_part ∷ o) depth depth (position_of at.entry) (position_of t.1))
        (λ e. Fails e (λ o. field_list_part ∷ o) depth (position_of at.entry)) }
{
    if at.is_at(Kind::Name) {
        return fields(alloc, at, depth);
    }
    let (node, at) = at.count()?;
    Ok((FieldList::Empty { node }, at))
}

#[cycle(types)]
fn fields<'t, 's>(
    alloc: Global,
    at: Cursor<'t, 's>,
    depth: u32,
) -> Result<(FieldList, Cursor<'t, 's>), Fault<'t, 's>>
    ensures read { MatchResult result
        (λ t. Reads (spell_field_list (view_field_list t.0))
        (number_field_list t.0) fields_parts depth depth (position_of at.entry) (position_of t.1))
        (λ e. Fails e fields_parts depth (position_of at.entry)) }
{
    let (names, at) = names(alloc, at)?;
    let at = at.expect(Kind::Colon)?;
    let (type_node, at) = type_node(alloc, at, depth)?;
    let (node, at) = at.count()?;
    Ok((
        FieldList::Fields {
            node,
            names,
            type_node,
        },
        at,
    ))
}

#[cycle(types)]
fn field_lists<'t, 's>(
    alloc: Global,
    mut at: Cursor<'t, 's>,
    depth: u32,
) -> Result<(Vec<FieldList>, Cursor<'t, 's>), Fault<'t, 's>>
    ensures read { MatchResult result
        (λ t. Reads (spell_field_list_tail (field_lists_of t.0.items))
        (numbers_of_field_lists t.0.items) (λ o. field_list_tail ∷ o)
        depth depth (position_of at.entry) (position_of t.1))
        (λ e. Fails e (λ o. field_list_tail ∷ o) depth (position_of at.entry)) }
{
    let mut more = Vec::new(alloc);
    while let Some(after) = at.skip(Kind::Semicolon) {
        let (next, after) = field_list(alloc, after, depth)?;
        more.push(next)?;
        at = after;
    }
    Ok((more, at))
}
