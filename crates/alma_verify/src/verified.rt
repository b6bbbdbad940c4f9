// Views whose code is sound.
ghost use Rattle.std.specs.Prelude.{◌≡◌, None, Some, MatchResult, IfOk, IsOk};
ghost use Rattle.alma_code.specs.Plain.{head_at};
ghost use Rattle.alma_code.specs.Rules.{IsSound, code_fault as code_fault_of};
ghost use Rattle.alma_object.specs.View.{code_of_view, head_of_view};

use crate::verifier::code_fault;
use alma_code::VerifyFault;
use alma_object::{ObjectView, RoutineView};

/// A view of an object whose code is sound.
#[derive(Clone, Copy)]
pub struct Verified<'b> {
    view: ObjectView<'b>,
    ghost clean: { code_fault_of (code_of_view view) ≡ None },
}

/// The view, exactly where its code is sound, and else the first rule that it breaks. It takes no
/// memory.
pub fn verify<'b>(view: ObjectView<'b>) -> Result<Verified<'b>, VerifyFault>
    ensures fault { MatchResult result (λ verified. code_fault_of (code_of_view view.entry) ≡ None)
        (λ fault. code_fault_of (code_of_view view.entry) ≡ Some fault) }
    ensures view { IfOk result (λ verified. verified.view ≡ view.entry) }
    ensures sound { IfOk result (λ verified. IsSound (code_of_view view.entry)) }
    ensures complete { IsSound (code_of_view view.entry) → IsOk result }
{
    view.keeps_object();
    code_fault(&view)?;
    Ok(Verified { view })
}

impl<'b> Verified<'b> {
    /// What each verified view keeps: its code is sound.
    pub fn keeps_sound(&self)
        ensures { IsSound (code_of_view self.now.view) }
    {
        self.view.keeps_object();
    }

    /// The view. Its code is sound.
    #[inline(always)]
    pub fn view(&self) -> &ObjectView<'b>
        ensures view { result.now ≡ self.now.view }
        ensures sound { IsSound (code_of_view result.now) }
    {
        self.view.keeps_object();
        &self.view
    }

    /// The head of the module body, routine 0.
    pub fn main_head(&self) -> RoutineView<'b>
        ensures { head_of_view result ≡ head_at (code_of_view self.now.view) 0 }
    {
        self.keeps_sound();
        match self.view.routine(0) {
            Some(head) => head,
            None => unreachable!(),
        }
    }
}
