// Numbers, literals and fields, which hold no other phrase.
ghost use Rattle.std.specs.Prelude.{◌∷◌, ◌<◌, ℕ, length, MatchResult, IfOk};
ghost use Rattle.alma_tree.specs.declared.kind.Kind.TheVariants as kinds;
ghost use Rattle.alma_tree.specs.Spelling.{spell_primary, spell_selector};
ghost use Rattle.alma_tree.specs.View.{view_primary, view_selector};
ghost use Rattle.alma_tree.specs.Numbers.{number_primary, number_selector};
ghost use Rattle.alma_grammar.specs.Parts.{one};
ghost use Rattle.alma_parse_cursor.specs.Forms.{field_parts};
ghost use Rattle.alma_parse_cursor.specs.Parsing.{position_of, Reads, Fails};

use alma_parse_cursor::{Cursor, Fault};
use alma_tree::{Kind, Leaf, Primary, Selector};

/// A number.
pub fn number<'t, 's>(at: Cursor<'t, 's>) -> Result<(Primary, Cursor<'t, 's>), Fault<'t, 's>>
    ensures read { MatchResult result
        (λ t. (d : ℕ) → Reads (spell_primary (view_primary t.0)) (number_primary t.0)
        (λ o. one kinds.Number ∷ o) d d (position_of at.entry) (position_of t.1))
        (λ e. (d : ℕ) → Fails e (λ o. one kinds.Number ∷ o) d (position_of at.entry)) }
{
    let after = at.expect(Kind::Number)?;
    let (node, after) = after.count()?;
    Ok((
        Primary::Number {
            node,
            number: Leaf { token: at.token },
        },
        after,
    ))
}

/// A literal.
pub fn literal<'t, 's>(at: Cursor<'t, 's>) -> Result<(Primary, Cursor<'t, 's>), Fault<'t, 's>>
    ensures read { MatchResult result
        (λ t. (d : ℕ) → Reads (spell_primary (view_primary t.0)) (number_primary t.0)
        (λ o. one kinds.Literal ∷ o) d d (position_of at.entry) (position_of t.1))
        (λ e. (d : ℕ) → Fails e (λ o. one kinds.Literal ∷ o) d (position_of at.entry)) }
{
    let after = at.expect(Kind::Literal)?;
    let (node, after) = after.count()?;
    Ok((
        Primary::Literal {
            node,
            literal: Leaf { token: at.token },
        },
        after,
    ))
}

/// The field of a selector.
pub fn field<'t, 's>(at: Cursor<'t, 's>) -> Result<(Selector, Cursor<'t, 's>), Fault<'t, 's>>
    ensures read { MatchResult result
        (λ t. (d : ℕ) → Reads (spell_selector (view_selector t.0))
        (number_selector t.0) field_parts d d (position_of at.entry) (position_of t.1))
        (λ e. (d : ℕ) → Fails e field_parts d (position_of at.entry)) }
    ensures shorter { IfOk result (λ t. length (position_of t.1).kinds
        < length (position_of at.entry).kinds) }
{
    let at = at.expect(Kind::Dot)?;
    let (name, at) = at.name()?;
    let (node, at) = at.count()?;
    Ok((Selector::Field { node, name }, at))
}
