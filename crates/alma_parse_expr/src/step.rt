// Two steps in one.
ghost use Rattle.std.specs.Prelude.{◌≡◌, ◌∷◌, true, false, MatchResult};
ghost use Rattle.alma_tree.specs.Depth.{opens, closes};
ghost use Rattle.alma_grammar.specs.Parts.{one};
ghost use Rattle.alma_parse_cursor.specs.Parsing.{position_of, Fails};
ghost use Rattle.alma_parse_expr.specs.Joins.{OpensAfter};

use alma_parse_cursor::{Cursor, Fault};
use alma_tree::Kind;

/// Behind a word and the bracket that it opens, which have to stand here, and the depth there.
pub fn open_after<'t, 's>(
    at: Cursor<'t, 's>,
    word: Kind,
    bracket: Kind,
    depth: u32,
) -> Result<(Cursor<'t, 's>, u32), Fault<'t, 's>>
    requires plain { opens word ≡ false }
    requires still { closes word ≡ false }
    requires opening { opens bracket ≡ true }
    ensures opened { MatchResult result (λ t. OpensAfter word bracket depth t.1
        (position_of at.entry) (position_of t.0)) (λ e. Fails e (λ o. one word ∷ one bracket ∷ o)
        depth (position_of at.entry)) }
{
    let at = at.expect(word)?;
    at.open(bracket, depth)
}
