// Places of parameters that are used in the parameter's own slot.
ghost use Rattle.std.specs.Prelude.{◌≡◌, option_map, IfOk, OnOk};
ghost use Rattle.alma_code.specs.declared.cell.SlotKind.TheVariants as slot;
ghost use Rattle.alma_ir.specs.View.{desig_of, sels_list};
ghost use Rattle.alma_lower_templates.specs.Slots as slots;
ghost use Rattle.alma_lower_templates.specs.Templates.{own_slot};
ghost use Rattle.alma_lower_work.specs.Front.{around, front, Takes};
ghost use Rattle.alma_lower_work.specs.Puts.{param_of};

use crate::scene::Scene;
use crate::work::Work;
use alma_base::NoMemory;
use alma_code::SlotKind;
use alma_ir::{Desig, Root, Sel};

/// The slot of a parameter that holds the place of the whole designator.
pub fn own_place(scene: &Scene<'_>, desig: &Desig) -> Result<Option<u32>, NoMemory>
    ensures { IfOk result (λ o. o ≡ option_map (own_slot (around scene.now).program
        (around scene.now).tables (around scene.now).routine)
        (slots.own_place (desig_of desig.now))) }
{
    if !desig.sels.is_empty() {
        return Ok(None);
    }
    param_slot(scene, desig.root)
}

/// The slot of a parameter of whose place the first selector takes a part.
pub fn own_root(scene: &Scene<'_>, root: Root, sels: &[Sel]) -> Result<Option<u32>, NoMemory>
    ensures { IfOk result (λ o. o ≡ option_map (own_slot (around scene.now).program
        (around scene.now).tables (around scene.now).routine)
        (slots.own_root root (sels_list sels.now))) }
{
    if sels.is_empty() {
        return Ok(None);
    }
    param_slot(scene, root)
}

/// A place that stands in its own slot, for which a slot is taken; where it stands.
pub fn hold_at(work: &mut Work, cells: u32, from: u32) -> Result<u32, NoMemory>
    ensures place { IfOk result (λ place. place ≡ from) }
    ensures takes { OnOk result (Takes (front work.old) (front work.new) (slot.Place cells)) }
{
    work.slot(SlotKind::Place(cells))?;
    Ok(from)
}

// The slot of a root that is a parameter with a place.
fn param_slot(scene: &Scene<'_>, root: Root) -> Result<Option<u32>, NoMemory>
    ensures { IfOk result (λ o. o ≡ option_map (own_slot (around scene.now).program
        (around scene.now).tables (around scene.now).routine) (param_of root)) }
{
    match root {
        Root::Param(from) => Ok(Some(scene.own_slot(from)?)),
        Root::Local(_) | Root::Global(_) | Root::Outer(_, _) | Root::OuterParam(_, _) => Ok(None),
    }
}
