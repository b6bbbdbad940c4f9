// A part that another function has read: in a box, at the end of a list, or one that may be absent.
ghost use Rattle.std.specs.Prelude.{◌≡◌, Some};
ghost use Rattle.alma_parse_expr.specs.Joins.{Boxed, Pushed};
ghost use Rattle.alma_parse_expr.specs.Made.{made};

use alma_parse_cursor::{Cursor, Fault};
use std::alloc::Global;

/// The part, in a box.
pub fn boxed<'t, 's, T: Drop>(
    alloc: Global,
    part: Result<(T, Cursor<'t, 's>), Fault<'t, 's>>,
) -> Result<(Box<T>, Cursor<'t, 's>), Fault<'t, 's>>
    ensures boxed { Boxed part.entry result }
{
    let (value, at) = part?;
    let value = Box::new(alloc, value)?;
    Ok((value, at))
}

/// The part, put at the end of the list; what stands behind it.
pub fn pushed<'t, 's, T: Drop>(
    list: &mut Vec<T>,
    part: Result<(T, Cursor<'t, 's>), Fault<'t, 's>>,
) -> Result<Cursor<'t, 's>, Fault<'t, 's>>
    ensures pushed { Pushed part.entry list.old.items list.new.items result }
{
    let (value, at) = part?;
    list.push(value)?;
    Ok(at)
}

/// The part, which may be absent elsewhere.
pub fn present<'t, 's, T: Drop>(
    part: Result<(T, Cursor<'t, 's>), Fault<'t, 's>>,
) -> Result<(Option<T>, Cursor<'t, 's>), Fault<'t, 's>>
    ensures made { result ≡ made (λ v. Some v) part.entry }
{
    let (value, at) = part?;
    Ok((Some(value), at))
}
