// The code of an object, which is verified.
ghost use Rattle.std.specs.Prelude.{◌≡◌, ℕ, List, None, Some, IfOk, IfErr};
ghost use Rattle.alma_code.specs.Rules.{code_fault};
ghost use Rattle.alma_object.specs.View.{code_of_view};
ghost use Rattle.alma_verify.specs.Bytes.{object_code};
ghost use Rattle.alma_verify.specs.Verified.{code_of_verified};
ghost use Rattle.alma_plan.specs.Objects.{object_refusal, rule_refusal};
ghost use Rattle.alma_plan.specs.Refusals.{refusal_end};

use crate::refusal::Refusal;
use alma_object::ObjectView;
use alma_verify::{Verified, open_object, verify};

// The verified code of a view, or why it is refused.
fn verify_view(view: ObjectView<'_>) -> Result<Verified<'_>, Refusal>
    ensures sound { IfOk result (λ code. (program : List ℕ)
        → rule_refusal program (code_fault (code_of_view view.entry)) ≡ None) }
    ensures code { IfOk result (λ code. code_of_verified code ≡ code_of_view view.entry) }
    ensures refused { IfErr result (λ refusal. (program : List ℕ)
        → rule_refusal program (code_fault (code_of_view view.entry))
        ≡ Some (refusal_end program refusal)) }
{
    match verify(view) {
        Ok(code) => Ok(code),
        Err(fault) => Err(Refusal::BadCode(fault)),
    }
}

/// The verified code of an object, or why it is refused.
pub fn open_code(bytes: &[u8]) -> Result<Verified<'_>, Refusal>
    ensures sound { IfOk result (λ code. (program : List ℕ)
        → object_refusal program bytes.now ≡ None) }
    ensures code { IfOk result (λ code. code_of_verified code ≡ object_code bytes.now) }
    ensures refused { IfErr result (λ refusal. (program : List ℕ)
        → object_refusal program bytes.now ≡ Some (refusal_end program refusal)) }
{
    match open_object(bytes) {
        Ok(view) => verify_view(view),
        Err(fault) => Err(Refusal::BadObject(fault)),
    }
}
