// Parts of a copy, which are there or for which memory ran out.
ghost use Rattle.std.specs.Prelude.{◌≡◌, ◌++◌, [], ◌∷◌, Ok, IfOk, IsOkAnd};

use alma_base::{NoMemory, Range};
use std::alloc::Global;

/// Two parts, where both are there.
pub(crate) fn both<A: Drop, B: Drop>(
    first: Result<A, NoMemory>,
    second: Result<B, NoMemory>,
) -> Result<(A, B), NoMemory>
    ensures { IfOk result (λ parts. (first ≡ Ok parts.0) × (second ≡ Ok parts.1)) }
{
    let first = first?;
    let second = second?;
    Ok((first, second))
}

/// The part in a box.
pub(crate) fn boxed<T: Drop>(alloc: Global, part: Result<T, NoMemory>) -> Result<Box<T>, NoMemory>
    ensures { IfOk result (λ b. part ≡ Ok b.value) }
{
    Ok(Box::new(alloc, part?)?)
}

/// Puts the part at the end of the list.
pub(crate) fn push_part<T: Drop>(
    list: &mut Vec<T>,
    part: Result<T, NoMemory>,
) -> Result<(), NoMemory>
    ensures { IfOk result (λ _. IsOkAnd part (λ x. list.new.items ≡ list.old.items ++ (x ∷ []))) }
{
    list.push(part?)?;
    Ok(())
}

/// The labels of an arm.
pub(crate) fn copy_ranges(alloc: Global, ranges: &[Range]) -> Result<Vec<Range>, NoMemory>
    ensures { IfOk result (λ v. v.items ≡ ranges.now) }
{
    Ok(ranges.to_vec(alloc)?)
}
