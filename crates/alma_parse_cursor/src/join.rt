// What stands behind a part that another function has read.
ghost use Rattle.alma_parse_cursor.specs.Joins.{Followed, Numbered};

use crate::cursor::Cursor;
use crate::fault::Fault;
use alma_tree::Kind;

/// The part, where a token of this kind stands behind it.
pub fn followed_by<'t, 's, T: Drop>(
    part: Result<(T, Cursor<'t, 's>), Fault<'t, 's>>,
    kind: Kind,
) -> Result<(T, Cursor<'t, 's>), Fault<'t, 's>>
    ensures followed { Followed kind part.entry result }
{
    let (value, at) = part?;
    let at = at.expect(kind)?;
    Ok((value, at))
}

/// The part, with the number of the node that ends behind it.
pub fn numbered<'t, 's, T: Drop>(
    part: Result<(T, Cursor<'t, 's>), Fault<'t, 's>>,
) -> Result<((T, u32), Cursor<'t, 's>), Fault<'t, 's>>
    ensures numbered { Numbered part.entry result }
{
    let (value, at) = part?;
    let (node, at) = at.count()?;
    Ok(((value, node), at))
}
