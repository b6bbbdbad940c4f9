// Fields of variables, which stand in slots of their own.
ghost use Rattle.std.specs.Prelude.{◌≡◌, ℕ, IfOk};
ghost use Rattle.alma_ir.specs.View.{sels_list};
ghost use Rattle.alma_lower_templates.specs.Slots.{fields_from, is_given};

use alma_base::NoMemory;
use alma_ir::Sel;

// The first slot of the part that selectors name in what stands from a slot on, where each of them
// is a field. Past 32 bits this is NoMemory.
pub(crate) fn field_slot(from: u32, sels: &[Sel]) -> Result<Option<u32>, NoMemory>
    ensures { IfOk result (λ o. o ≡ fields_from from (sels_list sels.now)) }
{
    let mut slot = from;
    for sel in sels {
        match sel {
            Sel::Field(offset, _) => slot = slot.checked_add(*offset).ok_or(NoMemory)?,
            Sel::Index(_, _, _) => return Ok(None),
        }
    }
    Ok(Some(slot))
}

// Whether each selector is a field.
pub(crate) fn are_fields(sels: &[Sel]) -> bool
    ensures { (from : ℕ) → result ≡ is_given (fields_from from (sels_list sels.now)) }
{
    for sel in sels {
        match sel {
            Sel::Field(_, _) => {}
            Sel::Index(_, _, _) => return false,
        }
    }
    true
}
