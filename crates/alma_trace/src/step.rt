// The line of a step.
ghost use Rattle.std.specs.Prelude.{◌≡◌, ◌∷◌, [], true, flat_map, codes, decimal, OnOk};
ghost use Rattle.alma_code.specs.ListText.{text_line};
ghost use Rattle.alma_code.specs.Plain.{routine_at};
ghost use Rattle.alma_code.specs.TraceText.{end_words};
ghost use Rattle.alma_machine.specs.View.{goes_on};
ghost use Rattle.alma_object.specs.View.{code_of_view};
ghost use Rattle.alma_trace.specs.Places.{AreOfModule};
ghost use Rattle.alma_trace.specs.Traced.{step_text, steps_end};

use crate::line::{put_number, put_three, put_two};
use crate::watch::{Watch, put_watched};
use alma_base::NoMemory;
use alma_machine::{End, Machine, Step};
use alma_object::ObjectView;
use itoa::Buffer;

// The line of an end.
fn put_end(line: &mut Vec<u8>, end: End) -> Result<(), NoMemory>
    ensures { OnOk result (line.new.items ≡ text_line (codes "end" ∷ end_words end)) }
{
    match end {
        End::Succeeded => put_two(line, b"end", b"succeeded"),
        End::Failed => put_two(line, b"end", b"failed"),
        End::Fault(fault) => put_three(line, b"end", b"fault", fault.text().as_bytes()),
    }
}

// The name of a routine.
fn name_of<'b>(view: &ObjectView<'b>, routine: u32) -> &'b [u8]
    ensures { result.now ≡ (routine_at (code_of_view view.now) routine).name }
{
    match view.routine(routine) {
        Some(head) => head.name(),
        None => b"",
    }
}

// The line of a call.
fn put_call(
    line: &mut Vec<u8>,
    view: &ObjectView<'_>,
    routine: u32,
    frames: u32,
) -> Result<(), NoMemory>
    ensures { OnOk result (line.new.items ≡ text_line (codes "call"
        ∷ (routine_at (code_of_view view.now) routine).name ∷ decimal frames ∷ [])) }
{
    let mut digits = Buffer::new();
    put_three(
        line,
        b"call",
        name_of(view, routine),
        digits.format(frames).as_bytes(),
    )
}

/// The line of the machine's last step, and nothing where it has none.
pub fn put_step(
    line: &mut Vec<u8>,
    machine: &Machine<'_, '_>,
    step: Step,
    watches: &[Watch<'_>],
) -> Result<(), NoMemory>
    requires running { goes_on step ≡ true → machine.now.running ≡ true }
    requires watched { AreOfModule machine.now.code watches.now }
    ensures { OnOk result (line.new.items
        ≡ step_text machine.now.code watches.now step machine.now.printed machine.now.state) }
{
    machine.keeps_standing();
    match step {
        Step::Went => {
            line.clear();
            Ok(())
        }
        Step::Chose(height) => put_watched(line, b"choice", height, machine.memory(), watches),
        Step::Popped(height) => put_watched(line, b"fail", height, machine.memory(), watches),
        Step::Cut(height) => put_number(line, b"cut", height as u64),
        Step::Called(routine, frames) => put_call(line, machine.view(), routine, frames),
        Step::Returned(frames) => put_number(line, b"return", u64::from(frames)),
        Step::Printed => put_number(line, b"print", machine.printed().len() as u64),
        Step::Done(end) => put_end(line, end),
    }
}

/// The line that tells that the steps ran out.
pub fn put_steps_end(line: &mut Vec<u8>) -> Result<(), NoMemory>
    ensures { OnOk result (line.new.items ≡ flat_map text_line steps_end) }
{
    put_two(line, b"end", b"steps")
}
