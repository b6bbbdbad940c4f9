// The run of verified code that is traced.
ghost use Rattle.std.specs.Prelude.{◌≡◌, ◌≤◌, length, map, All, IfOk};
ghost use Rattle.alma_base.specs.Limits.{input_limit};
ghost use Rattle.alma_verify.specs.Verified.{code_of_verified};
ghost use Rattle.alma_driver_words.specs.Words.{greatest_steps};
ghost use Rattle.alma_driver_outcome.specs.Outcome.{code_due};
ghost use Rattle.alma_driver_outcome.specs.Showing.{Traces};
ghost use Rattle.alma_driver_outcome.specs.Parts.{Goes};
ghost use Rattle.alma_trace.specs.Resolved.{IsResolved};

use alma_base::NoMemory;
use alma_driver_outcome::{End, end_of};
use alma_io::Sink;
use alma_machine::Machine;
use alma_plan::{Refusal, Stop};
use alma_trace::{Watch, trace, watches};
use alma_verify::Verified;
use std::alloc::Global;

// The bytes of names.
fn bytes_of<'n>(alloc: Global, names: &[&'n str]) -> Result<Vec<&'n [u8]>, NoMemory>
    ensures { IfOk result (λ all. map (λ name. name.now) all.items
        ≡ map (λ name. name.now) names.now) }
{
    let mut all = Vec::new(alloc);
    for name in names {
        all.push(name.as_bytes())?;
    }
    Ok(all)
}

// Runs verified code for at most so many steps, and traces the run, with the values of watched
// globals.
fn trace_watched<O: Sink>(
    alloc: Global,
    code: Verified<'_>,
    input: &[u8],
    steps: u64,
    watched: &[Watch<'_>],
    out: &mut O,
) -> End
    requires few { steps ≤ greatest_steps }
    requires lawful { length input.now ≤ input_limit }
    requires resolved { All (IsResolved (code_of_verified code)) watched.now }
    ensures { Goes (λ due. due ≡ code_due (code_of_verified code.entry) input.now steps
        (Traces (map (λ watch. watch.name.now) watched.now)))
        (O.side out.old) (O.side out.new) result }
{
    code.keeps_sound();
    match Machine::new(alloc, code, input) {
        Ok(mut machine) => {
            let end = trace(alloc, &mut machine, steps, watched, out);
            let line = machine.view().line_at(machine.at());
            end_of(end, line, None)
        }
        Err(NoMemory) => End::Refused(Refusal::Stopped(Stop::Memory)),
    }
}

// The same with the values of watched names, in bytes.
fn trace_named<O: Sink>(
    alloc: Global,
    code: Verified<'_>,
    input: &[u8],
    steps: u64,
    names: &[&[u8]],
    out: &mut O,
) -> End
    requires few { steps ≤ greatest_steps }
    requires lawful { length input.now ≤ input_limit }
    ensures { Goes (λ due. due ≡ code_due (code_of_verified code.entry) input.now steps
        (Traces (map (λ name. name.now) names.now)))
        (O.side out.old) (O.side out.new) result }
{
    match watches(alloc, code.view(), names) {
        Ok(watched) => trace_watched(alloc, code, input, steps, &watched, out),
        Err(NoMemory) => End::Refused(Refusal::Stopped(Stop::Memory)),
    }
}

/// Runs verified code for at most so many steps, and traces the run, with the values of watched
/// names.
pub fn trace_on<O: Sink>(
    alloc: Global,
    code: Verified<'_>,
    input: &[u8],
    steps: u64,
    names: &[&str],
    out: &mut O,
) -> End
    requires few { steps ≤ greatest_steps }
    requires lawful { length input.now ≤ input_limit }
    ensures { Goes (λ due. due ≡ code_due (code_of_verified code.entry) input.now steps
        (Traces (map (λ name. name.now) names.now)))
        (O.side out.old) (O.side out.new) result }
{
    match bytes_of(alloc, names) {
        Ok(bytes) => trace_named(alloc, code, input, steps, &bytes, out),
        Err(NoMemory) => End::Refused(Refusal::Stopped(Stop::Memory)),
    }
}
