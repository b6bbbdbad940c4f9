// The command `list`.
ghost use Rattle.std.specs.Prelude.{◌≡◌, None};
ghost use Rattle.alma_code.specs.ListText.{list_text as list_text_of};
ghost use Rattle.alma_code.specs.Plain.{code_of};
ghost use Rattle.alma_object.specs.View.{code_of_view};
ghost use Rattle.alma_driver_outcome.specs.declared.end.End.TheVariants.{Succeeded};
ghost use Rattle.alma_driver_outcome.specs.Outcome.{due_of, ListOutcome};
ghost use Rattle.alma_driver_outcome.specs.Parts.{Goes};

use alma_base::NoMemory;
use alma_code::Code;
use alma_code_list::list_text;
use alma_driver_outcome::End;
use alma_io::{Sink, write_all};
use alma_object::ObjectView;
use alma_plan::{Refusal, Stop};
use alma_verify::open_object;
use std::alloc::Global;

// Writes a text to out: a success, or a write fault.
fn show_text<O: Sink>(text: &[u8], out: &mut O) -> End
    ensures { Goes (λ due. due ≡ due_of (Succeeded None) text.now)
        (O.side out.old) (O.side out.new) result }
{
    match write_all(out, text) {
        Ok(()) => End::Succeeded(None),
        Err(_) => End::Refused(Refusal::Stopped(Stop::Write)),
    }
}

// Writes the text that lists a code.
fn list_code<O: Sink>(alloc: Global, code: &Code, out: &mut O) -> End
    ensures { Goes (λ due. due ≡ due_of (Succeeded None) (list_text_of (code_of code.now)))
        (O.side out.old) (O.side out.new) result }
{
    match list_text(alloc, code) {
        Ok(text) => show_text(&text, out),
        Err(NoMemory) => End::Refused(Refusal::Stopped(Stop::Memory)),
    }
}

// Writes the text that lists the code of a view.
fn list_view<O: Sink>(alloc: Global, view: &ObjectView<'_>, out: &mut O) -> End
    ensures { Goes (λ due. due ≡ due_of (Succeeded None) (list_text_of (code_of_view view.now)))
        (O.side out.old) (O.side out.new) result }
{
    match view.to_code(alloc) {
        Ok(code) => list_code(alloc, &code, out),
        Err(NoMemory) => End::Refused(Refusal::Stopped(Stop::Memory)),
    }
}

/// Writes the text that lists the code of an object, which is not verified.
pub fn list_object<O: Sink>(alloc: Global, bytes: &[u8], out: &mut O) -> End
    ensures { Goes (ListOutcome bytes.now)
        (O.side out.old) (O.side out.new) result }
{
    match open_object(bytes) {
        Ok(view) => list_view(alloc, &view, out),
        Err(fault) => End::Refused(Refusal::BadObject(fault)),
    }
}
