// The head of a loop.
ghost use Rattle.std.specs.Prelude.{◌≡◌, ◌∷◌, true, MatchResult};
ghost use Rattle.alma_tree.specs.declared.kind.Kind.TheVariants as kinds;
ghost use Rattle.alma_tree.specs.Depth.{opens};
ghost use Rattle.alma_grammar.specs.Parts.{one};
ghost use Rattle.alma_parse_cursor.specs.Parsing.{position_of, Fails};
ghost use Rattle.alma_parse_stmt.specs.Heads.{BeginsLoop};

use alma_parse_cursor::{Cursor, Fault};
use alma_tree::{Kind, Name};

/// The variable of FOR or SOME, behind that word and before the sign of assignment, and the depth
/// there.
pub fn loop_head<'t, 's>(
    at: Cursor<'t, 's>,
    word: Kind,
    depth: u32,
) -> Result<((Name, u32), Cursor<'t, 's>), Fault<'t, 's>>
    requires opening { opens word ≡ true }
    ensures begins { MatchResult result (λ t. BeginsLoop word t.0.0 depth t.0.1
        (position_of at.entry) (position_of t.1)) (λ e. Fails e
        (λ o. one word ∷ one kinds.Name ∷ one kinds.Assign ∷ o) depth (position_of at.entry)) }
{
    let (at, inner) = at.open(word, depth)?;
    let (variable, at) = at.name()?;
    let at = at.expect(Kind::Assign)?;
    Ok(((variable, inner), at))
}
