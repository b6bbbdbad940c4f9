// Lists of parts. A list is None where one of its parts is Bad.
ghost use Rattle.std.specs.Prelude.{◌≡◌, ◌∷◌, ◌++◌, [], option_map, IfOk};
ghost use Rattle.alma_rules.specs.Judgement.{both_of};
ghost use Rattle.alma_check_build_expr.specs.Lists.{items_in, push};

use std::alloc::{AllocError, Global};

/// An item alone, whatever it is: a type of many variants costs nothing here.
pub(crate) fn one<T: Drop>(alloc: Global, item: T) -> Result<Vec<T>, AllocError>
    ensures { IfOk result (λ v. v.items ≡ item ∷ []) }
{
    let mut items: Vec<T> = Vec::with_capacity(alloc, 1)?;
    items.push(item)?;
    Ok(items)
}

/// One more part.
pub fn with_part<T: Drop>(
    parts: Option<Vec<T>>,
    part: Option<T>,
) -> Result<Option<Vec<T>>, AllocError>
    ensures { IfOk result (λ k. items_in k ≡ push (items_in parts) part) }
{
    match parts {
        None => Ok(None),
        Some(parts) => match part {
            None => Ok(None),
            Some(part) => {
                let mut parts = parts;
                parts.push(part)?;
                Ok(Some(parts))
            }
        },
    }
}

/// Parts behind others.
pub fn joined<T: Drop>(
    first: Option<Vec<T>>,
    second: Option<Vec<T>>,
) -> Result<Option<Vec<T>>, AllocError>
    ensures { IfOk result (λ v. items_in v ≡ option_map (λ p. p.0 ++ p.1)
        (both_of (items_in first) (items_in second))) }
{
    let (Some(mut first), Some(mut second)) = (first, second) else {
        return Ok(None);
    };
    first.append(&mut second)?;
    Ok(Some(first))
}
