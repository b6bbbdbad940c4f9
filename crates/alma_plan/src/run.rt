// The run of a program.
ghost use Rattle.std.specs.Prelude.{◌≡◌, ◌≤◌, ℕ, List, length};
ghost use Rattle.alma_base.specs.Limits.{input_limit};
ghost use Rattle.alma_code.specs.Plain.{code_of};
ghost use Rattle.alma_code.specs.Records.{KeepsCounts, KeepsRecords, KeepsVersion};
ghost use Rattle.alma_code.specs.Rules.{IsSound};
ghost use Rattle.alma_driver_words.specs.Words.{greatest_steps};
ghost use Rattle.alma_io.specs.Sides.{FilesSide};
ghost use Rattle.alma_ir.specs.Checked.{IsChecked};
ghost use Rattle.alma_ir.specs.Tree as tree;
ghost use Rattle.alma_ir.specs.View.{program_of};
ghost use Rattle.alma_lower_sound.specs.Reads.{program_reads};
ghost use Rattle.alma_plan.specs.Course.{Follows, Goes};
ghost use Rattle.alma_plan.specs.Plan.{Ending};
ghost use Rattle.alma_plan.specs.Ends.{program_end, run_end};
ghost use Rattle.alma_lower.specs.CodeFor.{IsCodeFor};
ghost use Rattle.alma_plan.specs.Programs.{IsRun, run_on as run_on_input, run_plan, sense};
ghost use Rattle.alma_verify.specs.Verified.{code_of_verified};

use crate::end::ProgramEnd;
use crate::stop::Stop;
use alma_base::{INPUT_LIMIT, NoMemory};
use alma_code::{Code, End};
use alma_io::{Sink, Source, read_all};
use alma_ir::Program;
use alma_lower::{LowerError, lower};
use alma_machine::{Machine, RunEnd};
use alma_object::encode;
use alma_verify::{Verified, open_encoded};
use std::alloc::Global;

// The end of a program by the answer of its run, and the line of the last instruction.
fn end_of(run: RunEnd, line: u32) -> ProgramEnd
    ensures { result ≡ run_end run line }
{
    match run {
        RunEnd::Succeeded => ProgramEnd::Ended(End::Succeeded, line),
        RunEnd::Failed => ProgramEnd::Ended(End::Failed, line),
        RunEnd::Fault(fault) => ProgramEnd::Ended(End::Fault(fault), line),
        RunEnd::StepsOut => ProgramEnd::StepsOut,
        RunEnd::WriteFault => ProgramEnd::Stopped(Stop::Write),
        RunEnd::Memory => ProgramEnd::Stopped(Stop::Memory),
    }
}

// Runs verified code on an input, and writes what it prints.
fn run_on<O: Sink>(
    alloc: Global,
    code: Verified<'_>,
    input: &[u8],
    steps: u64,
    out: &mut O,
) -> ProgramEnd
    requires few { steps ≤ greatest_steps }
    requires lawful { length input.now ≤ input_limit }
    ensures { (program : List ℕ) (failed : Ending) → Goes program
        (IsRun program failed (code_of_verified code.entry) input.now steps)
        (O.side out.old) (O.side out.new) (program_end program failed result) }
{
    match Machine::new(alloc, code, input) {
        Ok(mut machine) => {
            let end = machine.run(steps, out);
            let line = machine.view().line_at(machine.at());
            end_of(end, line)
        }
        Err(NoMemory) => ProgramEnd::Stopped(Stop::Memory),
    }
}

// Runs verified code of a program. Where it reads, the whole input is read before; else it is left.
fn run_verified<I: Source, O: Sink>(
    alloc: Global,
    code: Verified<'_>,
    input: &mut I,
    steps: u64,
    out: &mut O,
) -> ProgramEnd
    requires few { steps ≤ greatest_steps }
    ensures { (p : tree.Program) → IsCodeFor p (code_of_verified code.entry)
        → (program : List ℕ) (failed : Ending) (files : FilesSide)
        → Follows (sense program failed) program (run_on_input (program_reads p) p steps)
        files files (I.side input.old) (I.side input.new) (O.side out.old) (O.side out.new)
        (program_end program failed result) }
{
    if !code.view().has_read() {
        return run_on(alloc, code, b"", steps, out);
    }
    match read_all(alloc, input, INPUT_LIMIT) {
        Ok(bytes) => run_on(alloc, code, &bytes, steps, out),
        Err(error) => ProgramEnd::Stopped(Stop::from(error)),
    }
}

// Encodes the code of a program, and runs its object.
fn run_code<I: Source, O: Sink>(
    alloc: Global,
    code: &Code,
    input: &mut I,
    steps: u64,
    out: &mut O,
) -> ProgramEnd
    requires sound { IsSound (code_of code.now) }
    requires version { KeepsVersion (code_of code.now) }
    requires counts { KeepsCounts (code_of code.now) }
    requires records { KeepsRecords (code_of code.now) }
    requires few { steps ≤ greatest_steps }
    ensures { (p : tree.Program) → IsCodeFor p (code_of code.now)
        → (program : List ℕ) (failed : Ending) (files : FilesSide)
        → Follows (sense program failed) program (run_on_input (program_reads p) p steps)
        files files (I.side input.old) (I.side input.new) (O.side out.old) (O.side out.new)
        (program_end program failed result) }
{
    match encode(alloc, code) {
        Ok(object) => {
            let verified = open_encoded(code, &object);
            run_verified(alloc, verified, input, steps, out)
        }
        Err(NoMemory) => ProgramEnd::Stopped(Stop::Memory),
    }
}

/// Compiles a program and runs its object for at most so many steps. Where it reads, the whole
/// input is read before the first step; else the input is left.
pub fn run_program<I: Source, O: Sink>(
    alloc: Global,
    program: &Program,
    input: &mut I,
    steps: u64,
    out: &mut O,
) -> ProgramEnd
    requires checked { IsChecked (program_of program.now) }
    requires few { steps ≤ greatest_steps }
    ensures { (name : List ℕ) (failed : Ending) (files : FilesSide)
        → Follows (sense name failed) name (run_plan name (program_of program.now) steps)
        files files (I.side input.old) (I.side input.new) (O.side out.old) (O.side out.new)
        (program_end name failed result) }
{
    match lower(alloc, program) {
        Ok(code) => run_code(alloc, &code, input, steps, out),
        Err(LowerError::TooMuchCode(size)) => ProgramEnd::TooMuchCode(size),
        Err(LowerError::Memory) => ProgramEnd::Stopped(Stop::Memory),
    }
}
