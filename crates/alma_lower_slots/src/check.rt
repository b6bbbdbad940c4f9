// Whether the slots of a routine may be renamed as stretches say.
ghost use Rattle.std.specs.Prelude.{◌≡◌, ◌<◌, ◌+◌, IfOk, true, get_or, nat_le};
ghost use Rattle.std.specs.List.{list_all};
ghost use Rattle.alma_code.specs.Plain.{code_of, kinds_at};
ghost use Rattle.alma_lower_slots.specs.Stretches.{FitsRoutine};

use crate::apart::are_apart;
use crate::close::fit_slots;
use crate::head::{keeps_own, params_are_own};
use crate::instrs::fit_instrs;
use crate::marks::fit_bodies;
use crate::names::{are_within, own_of};
use crate::sources::sources_of;
use crate::stretch::{KEPT, Stretch};
use alma_base::NoMemory;
use alma_code::{Code, SlotKind};
use std::alloc::Global;

/// Whether the slots of a routine may be renamed as the stretches say. Linear in the code and in
/// the sum of the stretches.
pub fn may_share(
    alloc: Global,
    code: &Code,
    routine: usize,
    own: &[u32],
    kinds: &[SlotKind],
    stretches: &[Stretch],
) -> Result<bool, NoMemory>
    requires kinds { kinds.now ≡ kinds_at (code_of code.now) routine }
    ensures fits { IfOk result (λ may. may ≡ true
        → FitsRoutine (code_of code.now) own.now stretches.now routine) }
{
    if stretches.len() != kinds.len() || stretches.len() > KEPT as usize {
        return Ok(false);
    }
    let count = own_of(own, routine);
    if count == 0 || !params_are_own(code, routine, count) || !keeps_own(count, stretches) {
        return Ok(false);
    }
    let apart = are_apart(alloc, stretches)?;
    if !apart {
        return Ok(false);
    }
    let bodies = fit_bodies(alloc, code, routine, stretches.len())?;
    if !bodies {
        return Ok(false);
    }
    let sources = sources_of(alloc, code, routine)?;
    if !fit_slots(code, routine, &sources, kinds, stretches) {
        return Ok(false);
    }
    Ok(fit_instrs(code, routine, own, kinds, stretches))
}

/// Whether the cells of all globals are own slots of routine 0.
pub fn globals_are_own(code: &Code, own: &[u32]) -> bool
    ensures { result ≡ true → list_all (λ g. nat_le (g.slot + g.cells) (get_or own.now 0 1))
        (code_of code.now).globals ≡ true }
{
    let count = own_of(own, 0);
    for global in &code.globals {
        if !are_within(global.slot, global.cells, count) {
            return false;
        }
    }
    true
}
