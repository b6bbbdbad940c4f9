// Whether slots can be the arguments of a routine.
ghost use Rattle.std.specs.Prelude.{◌≡◌, ◌+◌, ◌&&◌, nat_lt};
ghost use Rattle.alma_code.specs.Layout.{kinds_of};
ghost use Rattle.alma_verify.specs.Runs.{HasRisingRuns, Passes, fit_slots, takes as takes_spec};

use crate::halving::{kind_behind, next_passed, passed_runs};
use crate::kinds::{is_link_of, is_number, is_place_of};
use alma_code::{CodeParam, Head, ParamKind, SlotKind};

// Whether a slot of a kind can be the argument of a parameter.
fn takes(param: CodeParam, kind: Option<SlotKind>) -> bool
    ensures { result ≡ takes_spec param.kind param.cells kind }
{
    match param.kind {
        ParamKind::Value => is_number(kind),
        ParamKind::Place | ParamKind::Cells => is_place_of(param.cells, kind),
        ParamKind::Mix => is_number(kind) || is_place_of(1, kind),
        ParamKind::Link => is_link_of(param.cells, kind),
    }
}

/// Whether a slot of a routine is not the input position.
pub fn is_free(routine: u32, first: u32, k: u32) -> bool
    ensures { result ≡ nat_lt 0 (routine + (first + k)) }
{
    routine > 0 || first > 0 || k > 0
}

// Whether a slot of a routine, of this kind, can be the argument of a parameter.
fn fits_one(routine: u32, first: u32, k: u32, param: CodeParam, kind: Option<SlotKind>) -> bool
    ensures { result ≡ (nat_lt 0 (routine + (first + k))
        && takes_spec param.kind param.cells kind) }
{
    is_free(routine, first, k) && takes(param, kind)
}

// How many runs end at or before the first argument.
fn passed_first<H: Head>(caller: &H, first: u32) -> u32
    requires rise { HasRisingRuns (H.head caller.now) }
    ensures { Passes (H.head caller.now).runs (first + 0) result }
{
    passed_runs(caller, u64::from(first))
}

/// Whether the slots of a caller from first on can be the arguments of a routine. The runs of the
/// caller are gone through beside the parameters, so that each parameter takes the same time.
#[tactic(auto, using(crate::proofs::SlotRuns::slots_none))]
pub fn fit_all<H: Head, K: Head>(caller: &H, called: &K, routine: u32, first: u32) -> bool
    requires rise { HasRisingRuns (H.head caller.now) }
    ensures { result ≡ fit_slots routine (kinds_of 0 (H.head caller.now).runs)
        (K.head called.now).params first }
{
    let mut passed = passed_first(caller, first);
    for k in 0..called.param_count() {
        let kind = kind_behind(caller, passed);
        if !fits_one(routine, first, k, called.param(k), kind) {
            return false;
        }
        passed = next_passed(caller, first, k, passed);
    }
    true
}
