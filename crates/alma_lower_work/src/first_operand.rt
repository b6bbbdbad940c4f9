// First operands, which stay in their own slots or are put into others.
ghost use Rattle.std.specs.Prelude.{◌≡◌, option_map, IfOk, IsOk, OnOk};
ghost use Rattle.alma_code.specs.declared.cell.SlotKind.TheVariants as slot;
ghost use Rattle.alma_ir.specs.Tree as tree;
ghost use Rattle.alma_ir.specs.View.{desig_of, expr_of, links_list};
ghost use Rattle.alma_lower_templates.specs.Slots.{bare_desig, taken_from};
ghost use Rattle.alma_lower_templates.specs.Slots as slots;
ghost use Rattle.alma_lower_templates.specs.Templates.{own_slot};
ghost use Rattle.alma_lower_work.specs.Front.{around, front, Takes};
ghost use Rattle.alma_lower_work.specs.Puts.{stays_until};

use crate::field::are_fields;
use crate::scene::Scene;
use crate::stand::own_value;
use crate::work::Work;
use alma_base::NoMemory;
use alma_code::SlotKind;
use alma_ir::{Desig, Expr, Link, Root};

/// Where a first operand stands, and the slot for the value of the phrase round it.
#[derive(Clone, Copy)]
pub struct FirstOperand {
    pub from: u32,
    pub to: u32,
}

/// How a first operand is taken: at once, as by a sign; behind the next operand; or by no
/// instruction, so that it stands in the slot of the value.
#[derive(Clone, Copy)]
pub enum Taken<'e> {
    AtOnce,
    Behind(&'e Expr),
    Never,
}

// Whether a designator names a variable of the routine, or a field of one.
pub(crate) fn is_own(desig: &Desig) -> bool
    ensures { result ≡ slots.is_given (bare_desig (desig_of desig.now)) }
{
    match desig.root {
        Root::Local(_) => are_fields(&desig.sels),
        Root::Global(_) | Root::Param(_) | Root::Outer(_, _) | Root::OuterParam(_, _) => false,
    }
}

// Whether an operand is a variable of the routine or a constant.
pub(crate) fn is_ready(expr: &Expr) -> bool
    ensures { result ≡ slots.is_ready (expr_of expr.now) }
{
    match expr {
        Expr::Const(_) => true,
        Expr::Load(desig) => is_own(desig),
        Expr::Chain(_, _, _)
        | Expr::Compare(_, _, _)
        | Expr::Truth(_)
        | Expr::Known(_)
        | Expr::Chr(_)
        | Expr::Call(_) => false,
    }
}

/// The slot in which a first operand stays until it is taken.
pub fn own_first(scene: &Scene<'_>, first: &Expr, taken: Taken<'_>) -> Result<Option<u32>, NoMemory>
    ensures { IfOk result (λ o. o ≡ option_map (own_slot (around scene.now).program
        (around scene.now).tables (around scene.now).routine)
        (stays_until (expr_of first.now) taken.entry)) }
{
    match taken {
        Taken::AtOnce => own_value(scene, first),
        Taken::Behind(next) => {
            if is_ready(next) {
                own_value(scene, first)
            } else {
                Ok(None)
            }
        }
        Taken::Never => Ok(None),
    }
}

/// How the first operand of operators is taken: by its sign, or by the first of them.
pub fn taken_by(negated: bool, links: &[Link]) -> Taken<'_>
    ensures { (first : tree.Expr) → stays_until first result
        ≡ taken_from negated first (links_list links.now) }
{
    if negated {
        return Taken::AtOnce;
    }
    match links.first() {
        Some(link) => Taken::Behind(&link.operand),
        None => Taken::Never,
    }
}

/// A first operand that stays, before which the slot for the value is taken.
pub fn stay_at(work: &mut Work, from: u32) -> Result<FirstOperand, NoMemory>
    ensures from { IfOk result (λ first. first.from ≡ from) }
    ensures to { IfOk result (λ first. first.to ≡ (front work.old).next) }
    ensures takes { OnOk result (Takes (front work.old) (front work.new) slot.Number) }
{
    let to = work.slot(SlotKind::Number)?;
    Ok(FirstOperand { from, to })
}

/// A first operand that was put into a slot.
pub fn put_at(slot: Result<u32, NoMemory>) -> Result<FirstOperand, NoMemory>
    ensures done { OnOk result (IsOk slot) }
    ensures from { IfOk result (λ first. IfOk slot (λ slot. first.from ≡ slot)) }
    ensures to { IfOk result (λ first. IfOk slot (λ slot. first.to ≡ slot)) }
{
    let slot = slot?;
    Ok(FirstOperand {
        from: slot,
        to: slot,
    })
}
