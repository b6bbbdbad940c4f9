// Constants, and the subranges between two of them.
ghost use Rattle.std.specs.Prelude.{◌≡◌, IfOk, option_map};
ghost use Rattle.alma_rules.specs.Types as types;
ghost use Rattle.alma_rules.specs.View.{view_expr};
ghost use Rattle.alma_check_rules.specs.Views.{typing_in};
ghost use Rattle.alma_check_type.specs.Told.{told, tells, tells_of, bound_of, formed_of};

use alma_base::NoMemory;
use alma_check_phrases::check_expr;
use alma_check_rules::{Place, TypedExpr};
use alma_check_type::{Bound, BrokenRule, Reader, Reading, ShapeOrLimit, join_subrange};
use alma_rules::Stop;
use alma_tree::Expr;
use std::alloc::Global;

fn bound(typed: &Option<TypedExpr>) -> Option<Bound>
    ensures { result ≡ option_map bound_of (typing_in typed.now) }
{
    match typed {
        None => None,
        Some(typed) => Some(Bound {
            shape: typed.shape,
            constant: typed.constant,
        }),
    }
}

/// An expression in a constant place.
#[tactic(auto, using(crate::proofs::Constants::constants, std::proofs::lemmas::Grind::common_steps))]
pub fn read_constant(
    alloc: Global,
    reader: &Reader,
    expr: &Expr,
) -> Result<Reading<Bound>, NoMemory>
    ensures { IfOk result (λ r.
        told (types.reading_with bound_of (types.read_constant reader.now (view_expr expr.now)))
        ≡ tells r reader.now) }
{
    let place = Place {
        constant: true,
        inside: false,
    };
    let mut slot: u32 = 0;
    match check_expr(alloc, reader.env(), place, &mut slot, expr) {
        Ok(typed) => Ok(Reading {
            fault: None,
            value: bound(&typed),
        }),
        Err(Stop::Fault(fault, node)) => Ok(Reading {
            fault: Some(BrokenRule { node, fault }),
            value: None,
        }),
        Err(Stop::Memory) => Err(NoMemory),
    }
}

/// A subrange of its bounds.
pub fn read_subrange(
    alloc: Global,
    reader: &mut Reader,
    node: u32,
    low: &Expr,
    high: &Expr,
) -> Result<Reading<ShapeOrLimit>, NoMemory>
    ensures { IfOk result (λ r.
        told (types.reading_change types.subrange_of
        (types.reading_at node (types.subrange_rules reader.old)
        (types.reading_then (types.read_constant reader.old (view_expr low.now))
        (λ i. types.read_constant i (view_expr high.now)))))
        ≡ tells_of formed_of r reader.new) }
{
    let low = read_constant(alloc, reader, low)?;
    let high = read_constant(alloc, reader, high)?;
    join_subrange(alloc, reader, node, low, high)
}
