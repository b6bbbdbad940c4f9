// The tracer.
ghost use Rattle.std.specs.Prelude.{◌≡◌, ◌⊎◌, ◌+◌, ◌^◌, ◌<◌, ◌≤◌, true, false, flat_map, OnOk, OnErr, IfErr, IsTrue};
ghost use Rattle.std.specs.Io.KnownBytes.{Appends};
ghost use Rattle.alma_code.specs.ListText.{text_line};
ghost use Rattle.alma_code.specs.Machine.{after};
ghost use Rattle.alma_machine.specs.Runs.{run_end_of, is_steps_out, all_written, made, OnWhole, OnStepsOut, OnWriteFault, OnMemory};
ghost use Rattle.alma_machine.specs.View.{goes_on};
ghost use Rattle.alma_io.specs.Causes.{HasCause};
ghost use Rattle.alma_io.specs.Fronts.{AppendsFront};
ghost use Rattle.alma_trace.specs.Cuts.{IsCut, OnCut, can_go, cut_of};
ghost use Rattle.alma_trace.specs.Places.{AreOfModule};
ghost use Rattle.alma_trace.specs.Traced.{step_text, steps_end, text_of_run, traced_within};

use crate::step::{put_step, put_steps_end};
use crate::watch::Watch;
use alma_io::{Sink, write_all};
use alma_machine::{Machine, RunEnd, Step};
use std::alloc::Global;

// Writes the line of the machine's last step, in one call. An error is how the run is cut short.
fn write_step<K: Sink>(
    line: &mut Vec<u8>,
    machine: &Machine<'_, '_>,
    step: Step,
    watches: &[Watch<'_>],
    out: &mut K,
) -> Result<(), RunEnd>
    requires running { goes_on step ≡ true → machine.now.running ≡ true }
    requires watched { AreOfModule machine.now.code watches.now }
    ensures ok { OnOk result (Appends (K.side out.old).written (K.side out.new).written
        (step_text machine.now.code watches.now step machine.now.printed machine.now.state)) }
    ensures front { OnErr result (AppendsFront (K.side out.old).written (K.side out.new).written
        (step_text machine.now.code watches.now step machine.now.printed machine.now.state)) }
    ensures cut { IfErr result IsCut }
    ensures cause { HasCause (K.side out.old).faults (K.side out.new).faults
        (all_written (cut_of result)) }
{
    if put_step(line, machine, step, watches).is_err() {
        return Err(RunEnd::Memory);
    }
    if write_all(out, line).is_err() {
        return Err(RunEnd::WriteFault);
    }
    Ok(())
}

// Writes that the steps ran out. An error is how the run is cut short.
fn write_steps_end<K: Sink>(line: &mut Vec<u8>, out: &mut K) -> Result<(), RunEnd>
    ensures ok { OnOk result
        (Appends (K.side out.old).written (K.side out.new).written (flat_map text_line steps_end)) }
    ensures front { OnErr result
        (AppendsFront (K.side out.old).written (K.side out.new).written
        (flat_map text_line steps_end)) }
    ensures cut { IfErr result IsCut }
    ensures cause { HasCause (K.side out.old).faults (K.side out.new).faults
        (all_written (cut_of result)) }
{
    if put_steps_end(line).is_err() {
        return Err(RunEnd::Memory);
    }
    if write_all(out, line).is_err() {
        return Err(RunEnd::WriteFault);
    }
    Ok(())
}

/// Steps until the run ends, and at most `budget` of them. In place of the prints it writes a line
/// for each step that has one, with the watched values after it, and how the run ended, or that the
/// steps ran out. Each line is written as it comes, in one call. After a fault of the sink the
/// machine is as its last step left it.
pub fn trace<K: Sink>(
    alloc: Global,
    machine: &mut Machine<'_, '_>,
    budget: u64,
    watches: &[Watch<'_>],
    out: &mut K,
) -> RunEnd
    requires running { IsTrue machine.old.running }
    requires few { machine.old.state.steps + budget < 2 ^ 63 }
    requires watched { AreOfModule machine.old.code watches.now }

    // Without a fault of the sink and a want of memory: what the copying code machine does in so
    // many steps.
    ensures answer { OnWhole result (result
        ≡ run_end_of (after machine.old.code machine.old.input budget machine.old.state).mode) }
    ensures state { OnWhole result (machine.new.state
        ≡ after machine.old.code machine.old.input budget machine.old.state) }
    ensures out { OnWhole result (Appends (K.side out.old).written (K.side out.new).written
        (text_of_run machine.old.code machine.old.input watches.now budget machine.old.state)) }
    ensures running { OnWhole result (machine.new.running ≡ is_steps_out result) }

    // In each case: what it does in the steps that were made.
    ensures few { machine.new.state.steps ≤ machine.old.state.steps + budget }
    ensures made { machine.new.state
        ≡ after machine.old.code machine.old.input (made machine.old machine.new)
        machine.old.state }
    ensures steps_out { OnStepsOut result (made machine.old machine.new ≡ budget) }
    ensures front { OnCut result (AppendsFront (K.side out.old).written (K.side out.new).written
        (traced_within machine.old.code machine.old.input watches.now (made machine.old machine.new)
        budget machine.old.state)) }
    ensures stopped { OnWriteFault result (machine.new.running ≡ can_go machine.new.state.mode) }
    // Memory was wanted for a step, and the machine runs no more; or for a line, and it is as its
    // last step left it.
    ensures starved { OnMemory result ((machine.new.running ≡ false)
        ⊎ (machine.new.running ≡ can_go machine.new.state.mode)) }
    ensures cause { HasCause (K.side out.old).faults (K.side out.new).faults (all_written result) }
    ensures same { (machine.new.code ≡ machine.old.code)
        × (machine.new.input ≡ machine.old.input) }
{
    let mut line = Vec::new(alloc);
    let mut made = 0;
    while made < budget {
        let Ok(step) = machine.step() else {
            return RunEnd::Memory;
        };
        if let Err(cut) = write_step(&mut line, machine, step, watches, out) {
            return cut;
        }
        if let Step::Done(end) = step {
            return RunEnd::from(end);
        }
        made += 1;
    }
    machine.keeps_standing();
    if let Err(cut) = write_steps_end(&mut line, out) {
        return cut;
    }
    RunEnd::StepsOut
}
