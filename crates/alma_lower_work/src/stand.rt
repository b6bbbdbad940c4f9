// Variables that are read and written in their own slots, and others.
ghost use Rattle.std.specs.Prelude.{◌≡◌, option_map, IfOk};
ghost use Rattle.alma_ir.specs.View.{desig_of, expr_of};
ghost use Rattle.alma_lower_templates.specs.Slots.{bare, bare_desig};
ghost use Rattle.alma_lower_templates.specs.Templates.{own_slot};
ghost use Rattle.alma_lower_work.specs.Front.{around};
ghost use Rattle.alma_lower_work.specs.Puts.{set_instr};

use crate::field::field_slot;
use crate::scene::Scene;
use alma_base::NoMemory;
use alma_code::Instr;
use alma_ir::{Desig, Expr, Root};

/// Where a variable stands that is read or written: in a slot of its own, or where the place in a
/// slot says.
#[derive(Clone, Copy)]
pub enum Stand {
    Own(u32),
    Placed(u32),
}

impl Stand {
    /// The number in a slot goes to the variable.
    pub fn set(self, value: u32) -> Instr
        ensures { result ≡ set_instr self value }
    {
        match self {
            Stand::Own(to) => Instr::Move { to, from: value },
            Stand::Placed(place) => Instr::Store {
                to: place,
                from: value,
            },
        }
    }
}

/// The slot of a variable of the routine, or of a field of one.
pub fn own_stand(scene: &Scene<'_>, desig: &Desig) -> Result<Option<u32>, NoMemory>
    ensures { IfOk result (λ o. o ≡ option_map (own_slot (around scene.now).program
        (around scene.now).tables (around scene.now).routine) (bare_desig (desig_of desig.now))) }
{
    match desig.root {
        Root::Local(from) => match field_slot(from, &desig.sels)? {
            Some(slot) => Ok(Some(scene.own_slot(slot)?)),
            None => Ok(None),
        },
        Root::Global(_) | Root::Param(_) | Root::Outer(_, _) | Root::OuterParam(_, _) => Ok(None),
    }
}

/// The slot in which an expression's value stands already.
pub fn own_value(scene: &Scene<'_>, expr: &Expr) -> Result<Option<u32>, NoMemory>
    ensures { IfOk result (λ o. o ≡ option_map (own_slot (around scene.now).program
        (around scene.now).tables (around scene.now).routine) (bare (expr_of expr.now))) }
{
    match expr {
        Expr::Load(desig) => own_stand(scene, desig),
        Expr::Const(_)
        | Expr::Chain(_, _, _)
        | Expr::Compare(_, _, _)
        | Expr::Truth(_)
        | Expr::Known(_)
        | Expr::Chr(_)
        | Expr::Call(_) => Ok(None),
    }
}
