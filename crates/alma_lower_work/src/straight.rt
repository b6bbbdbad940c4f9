// Values that go straight into the slot that they are meant for.
ghost use Rattle.std.specs.Prelude.{◌≡◌, option_map, IfOk};
ghost use Rattle.alma_ir.specs.View.{desig_of, expr_of};
ghost use Rattle.alma_lower_templates.specs.Slots.{goes_straight};
ghost use Rattle.alma_lower_templates.specs.Slots as slots;
ghost use Rattle.alma_lower_templates.specs.Templates.{own_slot};
ghost use Rattle.alma_lower_work.specs.Front.{around};

use crate::first_operand::is_own;
use crate::scene::Scene;
use crate::stand::own_stand;
use alma_base::{NoMemory, Range};
use alma_ir::{Desig, Expr};
use alma_lower_tables::is_whole;

/// Whether an expression that has code puts its value in place by its last instruction alone.
pub fn ends_alone(expr: &Expr) -> bool
    ensures { result ≡ slots.ends_alone (expr_of expr.now) }
{
    match expr {
        Expr::Const(_) => true,
        Expr::Load(desig) => !is_own(desig),
        Expr::Chain(_, _, links) => !links.is_empty(),
        Expr::Compare(_, _, _) | Expr::Truth(_) | Expr::Known(_) | Expr::Chr(_) | Expr::Call(_) => {
            false
        }
    }
}

/// Whether a value of a range may go straight to a slot: all numbers are in the range, and the last
/// instruction of the value alone puts it.
pub fn is_straight(expr: &Expr, range: Range) -> bool
    ensures { result ≡ slots.is_straight (expr_of expr.now) range }
{
    is_whole(range) && ends_alone(expr)
}

/// The slot of a variable into which the value that is assigned to it goes straight.
pub fn straight_slot(
    scene: &Scene<'_>,
    desig: &Desig,
    value: &Expr,
    range: Range,
) -> Result<Option<u32>, NoMemory>
    ensures { IfOk result (λ o. o ≡ option_map (own_slot (around scene.now).program
        (around scene.now).tables (around scene.now).routine)
        (goes_straight (desig_of desig.now) (expr_of value.now) range)) }
{
    if !is_straight(value, range) {
        return Ok(None);
    }
    own_stand(scene, desig)
}

/// The number of a first count that is a constant.
#[tactic(auto, using(alma_ir::proofs::Views::viewed))]
pub fn constant(expr: &Expr) -> Option<i64>
    ensures { result ≡ slots.constant (expr_of expr.now) }
{
    match expr {
        Expr::Const(value) => Some(*value),
        Expr::Load(_)
        | Expr::Chain(_, _, _)
        | Expr::Compare(_, _, _)
        | Expr::Truth(_)
        | Expr::Known(_)
        | Expr::Chr(_)
        | Expr::Call(_) => None,
    }
}
