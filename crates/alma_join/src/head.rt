// Whether two heads are alike.
ghost use Rattle.std.specs.Prelude.{◌≡◌, [], ◌∷◌};
ghost use Rattle.alma_ir.specs.View.{routine_of};
ghost use Rattle.alma_join.specs.Joined as joined;

use alma_base::Range;
use alma_ir::{ArgKind, Param, Routine};

// Whether two parameters are handed over in the same way.
fn same_kind(a: ArgKind, b: ArgKind) -> bool
    ensures { result ≡ joined.same_kind a b }
{
    match a {
        ArgKind::Value => matches!(b, ArgKind::Value),
        ArgKind::Place => matches!(b, ArgKind::Place),
        ArgKind::Mix => matches!(b, ArgKind::Mix),
        ArgKind::Cells => matches!(b, ArgKind::Cells),
    }
}

// Whether two ranges have the same ends.
fn same_range(a: Range, b: Range) -> bool
    ensures { result ≡ joined.same_range a b }
{
    a.low == b.low && a.high == b.high
}

// Whether two parameters are alike in kind, cells and range; the slots follow from them.
fn same_param(a: &Param, b: &Param) -> bool
    ensures { result ≡ joined.same_params (a.now ∷ []) (b.now ∷ []) }
{
    same_kind(a.kind, b.kind) && a.cells == b.cells && same_range(a.range, b.range)
}

// Whether there are as many parameters, alike one by one.
fn same_params(a: &[Param], b: &[Param]) -> bool
    ensures { result ≡ joined.same_params a.now b.now }
{
    if a.len() != b.len() {
        return false;
    }
    for (i, param) in a.iter().enumerate() {
        if !same_param(param, &b[i]) {
            return false;
        }
    }
    true
}

// Whether both give a result of the same range, or neither gives one.
fn same_result(a: Option<Range>, b: Option<Range>) -> bool
    ensures { result ≡ joined.same_result a b }
{
    match (a, b) {
        (None, None) => true,
        (Some(a), Some(b)) => same_range(a, b),
        (None, Some(_)) | (Some(_), None) => false,
    }
}

/// Whether two routines take the same parameters, but for their slots, and give the same result.
pub fn same_head(a: &Routine, b: &Routine) -> bool
    ensures { result ≡ joined.same_head (routine_of a.now) (routine_of b.now) }
{
    same_params(&a.params, &b.params) && same_result(a.result, b.result)
}
