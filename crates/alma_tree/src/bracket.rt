// How deep brackets nest.
ghost use Rattle.std.specs.Prelude.{◌≡◌, ◌<◌, ◌^◌, length};
ghost use Rattle.alma_tree.specs.Depth as brackets;

use crate::Kind;

/// The greatest number of brackets that are open behind any front of the list: those opened less
/// those closed.
pub fn depth(kinds: &[Kind]) -> u32
    requires bounded { length kinds.now < 2 ^ 32 }
    ensures greatest { result ≡ brackets.depth kinds.now }
{
    let mut opened: u32 = 0;
    let mut closed: u32 = 0;
    let mut greatest: u32 = 0;
    for kind in kinds {
        opened += u32::from(kind.opens());
        closed += u32::from(kind.closes());
        greatest = greatest.max(opened.saturating_sub(closed));
    }
    greatest
}
