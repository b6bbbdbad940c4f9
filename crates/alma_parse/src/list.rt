// Lists of names.
ghost use Rattle.std.specs.Prelude.{◌∷◌, ℕ, MatchResult};
ghost use Rattle.alma_tree.specs.Spelling.{spell_names, spell_name_tail};
ghost use Rattle.alma_tree.specs.View.{view_names, name_tail_of};
ghost use Rattle.alma_tree.specs.Numbers.{number_names, numbers_of_names};
ghost use Rattle.alma_grammar.specs.Parts.{name_tail, names_parts};
ghost use Rattle.alma_parse_cursor.specs.Parsing.{position_of, Reads, Fails};

use alma_parse_cursor::{Cursor, Fault};
use alma_tree::{Kind, Name, Names};
use std::alloc::Global;

/// One name or more with commas between them: of variables, fields, formals or values of an
/// enumeration. They open no bracket, so that no depth is asked for.
pub fn names<'t, 's>(
    alloc: Global,
    at: Cursor<'t, 's>,
) -> Result<(Names, Cursor<'t, 's>), Fault<'t, 's>>
    ensures read { MatchResult result
        (λ t. (d : ℕ) → Reads (spell_names (view_names t.0)) (number_names t.0) names_parts d d
        (position_of at.entry) (position_of t.1))
        (λ e. (d : ℕ) → Fails e names_parts d (position_of at.entry)) }
{
    let (first, at) = at.name()?;
    let (more, at) = name_list(alloc, at)?;
    let (node, at) = at.count()?;
    Ok((Names { node, first, more }, at))
}

fn name_list<'t, 's>(
    alloc: Global,
    mut at: Cursor<'t, 's>,
) -> Result<(Vec<Name>, Cursor<'t, 's>), Fault<'t, 's>>
    ensures read { MatchResult result
        (λ t. (d : ℕ) → Reads (spell_name_tail (name_tail_of t.0.items))
        (numbers_of_names t.0.items) (λ o. name_tail ∷ o) d d (position_of at.entry)
        (position_of t.1))
        (λ e. (d : ℕ) → Fails e (λ o. name_tail ∷ o) d (position_of at.entry)) }
{
    let mut more = Vec::new(alloc);
    while let Some(after) = at.skip(Kind::Comma) {
        let (next, after) = after.name()?;
        more.push(next)?;
        at = after;
    }
    Ok((more, at))
}
