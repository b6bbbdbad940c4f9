// The end of a module.
ghost use Rattle.std.specs.Prelude.{◌≡◌, [], true, MatchResult};
ghost use Rattle.alma_grammar.specs.Reading.{reading};
ghost use Rattle.alma_parse_cursor.specs.Parsing.{position_of, Reads, EndsIn};
ghost use Rattle.alma_parse.specs.End.{spell_end, number_end, end_parts};

use alma_parse_cursor::{Cursor, Fault};
use alma_tree::{Kind, Name};

/// What stands behind the END of a module: the name there, with the number of the module's node,
/// where no token is left behind the point.
pub fn end_of_module<'t, 's>(
    at: Cursor<'t, 's>,
) -> Result<((Name, u32), Cursor<'t, 's>), Fault<'t, 's>>
    ensures read { MatchResult result
        (λ t. Reads spell_end (number_end t.0.0 t.0.1) end_parts 0 0 (position_of at.entry)
        (position_of t.1) × ((position_of t.1).kinds ≡ []))
        (λ e. EndsIn e (reading true (position_of at.entry).kinds 0 (end_parts []))) }
{
    let (end_name, at) = at.name()?;
    let at = at.expect(Kind::Dot)?;
    let (node, at) = at.count()?;
    nothing_left(at)?;
    Ok(((end_name, node), at))
}

fn nothing_left<'t, 's>(at: Cursor<'t, 's>) -> Result<(), Fault<'t, 's>>
    ensures left { MatchResult result (λ _. (position_of at.entry).kinds ≡ [])
        (λ e. EndsIn e (reading true (position_of at.entry).kinds 0 [])) }
{
    match at.next() {
        None => Ok(()),
        Some(_) => Err(Fault::Unexpected(at.rest)),
    }
}
