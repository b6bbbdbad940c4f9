// Whether a Finish is reached from a Forall alone.
ghost use Rattle.std.specs.Prelude.{◌≡◌, ℕ, suc, true, get_or, Some};
ghost use Rattle.alma_code.specs.Plain.{code_of};
ghost use Rattle.alma_code.specs.Rules.{ends_routine};
ghost use Rattle.alma_code.specs.declared.instr.Instr.TheVariants as I;
ghost use Rattle.alma_lower_slots.specs.Inner.Checks.{FitsFlow};
ghost use Rattle.alma_lower_slots.specs.Slots.{away, is_finish as is_finish_spec, is_forall as is_forall_spec};

use crate::lookups::instr_at;
use crate::uses::{away_of, is_finish, is_forall};
use alma_code::{Code, Instr};

// Whether an instruction ends the flow where a Finish stands at the next address.
fn ends_before(code: &Code, at: u32, instr: Instr) -> bool
    ensures { result ≡ true → is_finish_spec (get_or (code_of code.now).instrs (suc at) I.Fail)
        ≡ true → ends_routine instr ≡ true }
{
    match at.checked_add(1) {
        None => false,
        Some(next) => instr.ends_routine() || !is_finish(instr_at(code, next)),
    }
}

// Whether it leads to a Finish away if it is a Forall, and to none if not.
fn leads_well(code: &Code, instr: Instr) -> bool
    ensures { result ≡ true → (t : ℕ) → away instr ≡ Some t
        → is_finish_spec (get_or (code_of code.now).instrs t I.Fail) ≡ is_forall_spec instr }
{
    match away_of(instr) {
        None => true,
        Some(to) => is_finish(instr_at(code, to)) == is_forall(instr),
    }
}

/// Whether a Finish is not reached from the instruction at an address, or it is a Forall.
pub fn fits_flow(code: &Code, at: u32, instr: Instr) -> bool
    ensures { result ≡ true → FitsFlow (code_of code.now) at instr }
{
    ends_before(code, at, instr) && leads_well(code, instr)
}
