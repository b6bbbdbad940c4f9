// Whether the first slots of a routine are own ones.
ghost use Rattle.std.specs.Prelude.{◌≡◌, ◌<◌, ◌≤◌, ◌^◌, true, length, sum_by};
ghost use Rattle.alma_code.specs.Layout.{param_slots};
ghost use Rattle.alma_code.specs.Plain.{code_of};
ghost use Rattle.alma_lower_slots.specs.Inner.Checks.{KeepsNumber, KeepsOwn};
ghost use Rattle.alma_lower_slots.specs.Sharing.{params_slots};

use crate::matters::{is_kept, stretch_of};
use crate::stretch::Stretch;
use alma_code::{Code, CodeParam};

// Whether the slots of parameters are not more than the own ones.
fn are_own(params: &[CodeParam], own: u32) -> bool
    ensures { result ≡ true → sum_by (λ p. param_slots p.kind p.cells) params.now ≤ own }
{
    let mut slots: u64 = 0;
    for param in params {
        slots += u64::from(param.slots());
        if slots > u64::from(own) {
            return false;
        }
    }
    true
}

/// Whether the slots of the parameters of a routine are own ones.
pub fn params_are_own(code: &Code, routine: usize, own: u32) -> bool
    ensures { result ≡ true → params_slots (code_of code.now) routine ≤ own }
{
    match code.routines.get(routine) {
        None => true,
        Some(found) => are_own(&found.params, own),
    }
}

// Whether a slot keeps its number if it is an own one, and has one behind those if not.
fn keeps_number(own: u32, slot: u32, stretch: Stretch) -> bool
    ensures { result ≡ true → KeepsNumber own slot stretch }
{
    if slot < own {
        is_kept(stretch) && stretch.slot == slot
    } else {
        own <= stretch.slot
    }
}

/// Whether the own slots are kept and keep their numbers, and the others come behind them.
pub fn keeps_own(own: u32, stretches: &[Stretch]) -> bool
    requires { length stretches.now < 2 ^ 32 }
    ensures { result ≡ true → KeepsOwn own stretches.now }
{
    for slot in 0..stretches.len() as u32 {
        if !keeps_number(own, slot, stretch_of(stretches, slot)) {
            return false;
        }
    }
    true
}
