// The machine.
ghost use Rattle.std.specs.Prelude.{◌≡◌, ◌+◌, ◌++◌, ◌^◌, ◌<◌, ◌≤◌, [], ◌∷◌, true, false, length, IfOk, OnOk, OnErr, IsTrue};
ghost use Rattle.alma_base.specs.Limits.{input_limit};
ghost use Rattle.alma_code.specs.Layout.{start_frame};
ghost use Rattle.alma_code.specs.Plain.{head_at};
ghost use Rattle.alma_object.specs.View.{code_of_view, head_of_view};
ghost use Rattle.alma_verify.specs.Verified.{code_of_verified};
ghost use Rattle.alma_code.specs.Machine.{Going, step, start, after, prints};
ghost use Rattle.alma_machine_acts.specs.Acts.{KeepsPast};
ghost use Rattle.alma_machine_acts.specs.Rows.{state_of};
ghost use Rattle.alma_machine_acts.specs.Steps.{step_result, ModeAfter, PrintsOnly};
ghost use Rattle.alma_machine.specs.View.{runs_after};
ghost use Rattle.alma_machine.specs.Stands.{Stands};
ghost use Rattle.alma_io.specs.Buffer.{Buffers};
ghost use Rattle.alma_io.specs.Causes.{HasCause};
ghost use Rattle.alma_io.specs.Fronts.{AppendsFront};
ghost use Rattle.alma_machine.specs.Within.{RunsWithin};
ghost use Rattle.alma_machine.specs.Runs.{ShowsLast, last_print, end_of, run_end_of, is_steps_out, all_written, made, OnWhole, OnStepsOut, OnWriteFault, OnMemory};
ghost use Rattle.std.specs.Io.KnownBytes.{Appends};

use crate::dispatch::act;
use crate::quick::dash;
use alma_base::{NoMemory, RunFault};
use alma_code::{End, Step};
use alma_io::{Failed, Sink, SinkBuffer};
use alma_machine_acts::choices::pop;
use alma_machine_acts::{CodeView, Mode, Registers};
use alma_memory::{MachineMemory, Memory};
use alma_object::{ObjectView, RoutineView};
use alma_verify::Verified;
use std::alloc::Global;
use std::marker::Model;

/// Behind each so many steps of a run, all that was printed goes out.
const FLUSH_STEPS: u64 = 4096;

/// How a run with a budget ends.
#[derive(Clone, Copy, Debug, PartialEq, Eq)]
pub enum RunEnd {
    Succeeded,
    Failed,
    Fault(RunFault),
    StepsOut,
    WriteFault,
    /// Memory ran out.
    Memory,
}

impl From<End> for RunEnd {
    ghost from_gives = { λ end result. result ≡ end_of end };

    fn from(end: End) -> RunEnd {
        match end {
            End::Succeeded => RunEnd::Succeeded,
            End::Failed => RunEnd::Failed,
            End::Fault(fault) => RunEnd::Fault(fault),
        }
    }
}

// The next instruction of the code. Where memory is wanted, nothing has happened.
#[tactic(auto, using(crate::proofs::Stepping::taken))]
fn take<M: MachineMemory, V: CodeView>(
    view: &V,
    input: &[u8],
    registers: &mut Registers<M>,
    printed: &mut Vec<u8>,
) -> Result<Step, NoMemory>
    requires keeps { Stands (V.code view.now) (state_of M.picture registers.old) }
    requires going { (state_of M.picture registers.old).mode ≡ Going }
    requires few { registers.old.steps + 1 < 2 ^ 63 }
    requires lawful { length input.now ≤ input_limit }
    requires empty { printed.old.items ≡ [] }
    ensures step { IfOk result
        (λ answer. step_result answer printed.new.items (state_of M.picture registers.new)
        ≡ step (V.code view.now) input.now (state_of M.picture registers.old)) }
    ensures quiet { IfOk result (λ answer. PrintsOnly answer printed.new.items) }
    ensures counted { OnOk result (registers.new.steps ≡ registers.old.steps + 1) }
    ensures mode { IfOk result
        (λ answer. ModeAfter answer (state_of M.picture registers.new).mode) }
    ensures choices { OnOk result (registers.new.choices ≤ registers.old.choices + 1) }
    ensures fails { OnOk result (registers.new.fails ≤ registers.old.fails + 1) }
    ensures refused { OnErr result
        ((state_of M.picture registers.new ≡ state_of M.picture registers.old)
        × (printed.new.items ≡ [])) }
    ensures past { KeepsPast M.picture registers.old registers.new }
{
    // The count bounds `at + 1`: it is a u32, and `at` is below it.
    let _count = view.code_count();
    let instr = view.instr(registers.at);
    let (at, last, steps) = (registers.at, registers.last, registers.steps);
    registers.last = at;
    registers.at = at + 1;
    registers.steps = steps + 1;
    let step = act(registers, view, instr, input, printed);
    if step.is_err() {
        registers.at = at;
        registers.last = last;
        registers.steps = steps;
    }
    step
}

/// One step of a machine over any memory; `printed` is what it printed. Where memory is wanted,
/// nothing has happened.
#[tactic(auto, using(crate::proofs::Stepping::steps))]
pub fn advance<M: MachineMemory, V: CodeView>(
    view: &V,
    input: &[u8],
    registers: &mut Registers<M>,
    printed: &mut Vec<u8>,
) -> Result<Step, NoMemory>
    requires keeps { Stands (V.code view.now) (state_of M.picture registers.old) }
    requires few { registers.old.steps + 1 < 2 ^ 63 }
    requires lawful { length input.now ≤ input_limit }
    ensures step { IfOk result
        (λ answer. step_result answer printed.new.items (state_of M.picture registers.new)
        ≡ step (V.code view.now) input.now (state_of M.picture registers.old)) }
    ensures quiet { IfOk result (λ answer. PrintsOnly answer printed.new.items) }
    ensures counted { OnOk result (registers.new.steps ≡ registers.old.steps + 1) }
    ensures mode { IfOk result
        (λ answer. ModeAfter answer (state_of M.picture registers.new).mode) }
    ensures choices { OnOk result (registers.new.choices ≤ registers.old.choices + 1) }
    ensures fails { OnOk result (registers.new.fails ≤ registers.old.fails + 1) }
    ensures refused { OnErr result
        ((state_of M.picture registers.new ≡ state_of M.picture registers.old)
        × (printed.new.items ≡ [])) }
    ensures past { KeepsPast M.picture registers.old registers.new }
{
    printed.clear();
    match registers.mode {
        Mode::Going => take(view, input, registers, printed),
        Mode::Failing => {
            registers.steps += 1;
            Ok(pop(registers))
        }
        Mode::Ended(_) => unreachable!(),
    }
}

// Hands what a step printed to the buffer, which is called only where it printed.
fn write_printed<K: Sink>(
    step: Step,
    printed: &[u8],
    buffer: &mut SinkBuffer,
    out: &mut K,
) -> Result<(), Failed>
    requires quiet { PrintsOnly step printed.now }
    ensures { Buffers (K.side out.old) (K.side out.new) (buffer.old ++ printed.now) buffer.new
        result }
{
    match step {
        Step::Printed => buffer.write(printed, out),
        _ => Ok(()),
    }
}

// Hands what a step printed to the buffer, and empties that behind each `FLUSH_STEPS` steps; this
// step is the last of so many.
fn write_buffered<K: Sink>(
    step: Step,
    printed: &[u8],
    made: u64,
    buffer: &mut SinkBuffer,
    out: &mut K,
) -> Result<(), Failed>
    requires quiet { PrintsOnly step printed.now }
    ensures { Buffers (K.side out.old) (K.side out.new) (buffer.old ++ printed.now) buffer.new
        result }
{
    write_printed(step, printed, buffer, out)?;
    if made % FLUSH_STEPS > 0 {
        return Ok(());
    }
    buffer.flush(out)
}

// How many steps come before the next one that empties the buffer, or is the last of the budget.
fn steps_until_flush(made: u64, budget: u64) -> u64
    requires { made < budget }
    ensures { made + result < budget }
{
    let left = FLUSH_STEPS - 1 - made % FLUSH_STEPS;
    left.min(budget - made - 1)
}

// The machine goes on after a step that was not the last, and where memory was there.
fn runs_after(step: &Result<Step, NoMemory>) -> bool
    ensures { result ≡ runs_after step.now }
{
    match step {
        Ok(Step::Done(_)) | Err(NoMemory) => false,
        Ok(_) => true,
    }
}

/// A run of the code of a verified object on an input. It lends both.
#[derive(Drop)]
pub struct Machine<'b, 'i> {
    code: Verified<'b>,
    input: &'i [u8],
    registers: Registers<Memory>,
    running: bool,
    printed: Vec<u8>,
}

impl<'b, 'i> Model for Machine<'b, 'i> {
    ghost use Rattle.std.specs.Prelude.{◌≡◌, ◌≤◌, true, length};
    ghost use Rattle.alma_machine.specs.View.{MachineView};

    ghost Value = { MachineView };

    ghost use Rattle.alma_base.specs.Limits.{input_limit};
    ghost use Rattle.alma_machine.specs.View.{run_state};
    ghost use Rattle.alma_machine.specs.Stands.{Stands};
    ghost use Rattle.alma_verify.specs.Verified.{code_of_verified};

    ghost view = { λ m. record {
      code = code_of_verified m.code;
      input = m.input.now;
      state = run_state m.registers;
      running = m.running;
      printed = m.printed.items;
    } };

    ghost invariant = { λ m. (length m.input.now ≤ input_limit)
        × (m.running ≡ true → Stands (code_of_verified m.code) (run_state m.registers)) };
}

// A memory with the frame of the module body alone.
fn first_memory<'b>(
    alloc: Global,
    code: &Verified<'b>,
    head: &RoutineView<'b>,
) -> Result<Memory, NoMemory>
    requires { head_of_view head.now ≡ head_at (code_of_verified code.now) 0 }
    ensures now { IfOk result (λ memory.
        memory.now ≡ start_frame (head_at (code_of_verified code.now) 0) ∷ []) }
    ensures held { IfOk result (λ memory. memory.held ≡ []) }
{
    code.keeps_sound();
    Memory::new(alloc, head)
}

impl<'b, 'i> Machine<'b, 'i> {
    /// A machine at the start of a code. The input has at most 16,777,216 bytes.
    pub fn new(
        alloc: Global,
        code: Verified<'b>,
        input: &'i [u8],
    ) -> Result<Machine<'b, 'i>, NoMemory>
        requires lawful { length input.now ≤ input_limit }
        ensures { IfOk result (λ machine. machine ≡ record {
          code = code_of_verified code.entry;
          input = input.now;
          state = start (code_of_verified code.entry);
          running = true;
          printed = [];
        }) }
    {
        let head = code.main_head();
        let memory = first_memory(alloc, &code, &head)?;
        Ok(Machine::over(alloc, code, input, memory))
    }

    /// A machine at the start of a code, over a memory with the frame of its module body alone.
    /// The input has at most 16,777,216 bytes.
    #[tactic(auto, using(crate::proofs::Stepping::firsts))]
    pub fn over(
        alloc: Global,
        code: Verified<'b>,
        input: &'i [u8],
        memory: Memory,
    ) -> Machine<'b, 'i>
        requires now { memory.now ≡ start_frame (head_at (code_of_verified code) 0) ∷ [] }
        requires held { memory.held ≡ [] }
        requires lawful { length input.now ≤ input_limit }
        ensures { result ≡ record {
          code = code_of_verified code.entry;
          input = input.now;
          state = start (code_of_verified code.entry);
          running = true;
          printed = [];
        } }
    {
        code.keeps_sound();
        let registers = Registers {
            alloc,
            at: 0,
            last: 0,
            mode: Mode::Going,
            memory,
            args: Vec::new(alloc),
            steps: 0,
            choices: 0,
            fails: 0,
        };
        Machine {
            code,
            input,
            registers,
            running: true,
            printed: Vec::new(alloc),
        }
    }

    /// While it is running, its code is sound and its state fits it.
    pub fn keeps_standing(&self)
        ensures { self.now.running ≡ true → Stands self.now.code self.now.state }
    {
        // Opens the machine: its invariant is what the contract says.
        let _ = &self.running;
    }

    /// Whether the machine can make a step.
    pub fn is_running(&self) -> bool
        ensures { result ≡ self.now.running }
    {
        self.running
    }

    /// One step.
    #[tactic(auto, using(crate::proofs::Stepping::stands_after))]
    pub fn step(&mut self) -> Result<Step, NoMemory>
        requires running { IsTrue self.old.running }
        requires few { self.old.state.steps + 1 < 2 ^ 63 }
        ensures step { IfOk result (λ answer. step_result answer self.new.printed self.new.state
            ≡ step self.old.code self.old.input self.old.state) }
        ensures quiet { IfOk result (λ answer. PrintsOnly answer self.new.printed) }
        ensures mode { IfOk result (λ answer. ModeAfter answer self.new.state.mode) }
        ensures counted { OnOk result (self.new.state.steps ≡ self.old.state.steps + 1) }
        ensures refused { OnErr result ((self.new.state ≡ self.old.state) × (self.new.printed
            ≡ [])) }
        ensures running { self.new.running ≡ runs_after result }
        ensures same { (self.new.code ≡ self.old.code) × (self.new.input ≡ self.old.input) }
    {
        let step = advance(
            &self.code,
            self.input,
            &mut self.registers,
            &mut self.printed,
        );
        self.running = runs_after(&step);
        step
    }

    // As many steps as can be made at once, and no more than so many. It answers how many.
    fn dash(&mut self, most: u64) -> u64
        requires running { IsTrue self.old.running }
        requires few { self.old.state.steps + most < 2 ^ 63 }
        ensures few { result ≤ most }
        ensures state { self.new.state
            ≡ after self.old.code self.old.input result self.old.state }
        ensures silent { prints self.old.code self.old.input result self.old.state ≡ [] }
        ensures shown { self.new.printed ≡ last_print self.old.code self.old.input result
            self.old.state self.old.printed }
        ensures counted { self.new.state.steps ≡ self.old.state.steps + result }
        ensures running { self.new.running ≡ true }
        ensures same { (self.new.code ≡ self.old.code) × (self.new.input ≡ self.old.input) }
    {
        let made = dash(&mut self.registers, self.code, self.input, most);
        if made > 0 {
            self.printed.clear();
        }
        made
    }

    /// The bytes that the last step printed; none where it printed nothing, or the run was cut
    /// short.
    pub fn printed(&self) -> &[u8]
        ensures { result.now ≡ self.now.printed }
    {
        &self.printed
    }

    /// The memory: the live frames and the choice entries.
    pub fn memory(&self) -> &Memory
        ensures now { result.now.now ≡ self.now.state.now }
        ensures held { result.now.held ≡ self.now.state.held }
    {
        &self.registers.memory
    }

    /// The object whose code runs.
    pub fn view(&self) -> &ObjectView<'b>
        ensures { code_of_view result.now ≡ self.now.code }
    {
        self.code.view()
    }

    /// The address of the last instruction taken.
    pub fn at(&self) -> u32
        ensures { result ≡ self.now.state.last }
    {
        self.registers.last
    }

    /// How many steps were made.
    pub fn steps(&self) -> u64
        ensures { result ≡ self.now.state.steps }
    {
        self.registers.steps
    }

    /// How many choice entries were pushed.
    pub fn choices(&self) -> u64
        ensures { result ≡ self.now.state.choices }
    {
        self.registers.choices
    }

    /// How many choice entries were popped.
    pub fn fails(&self) -> u64
        ensures { result ≡ self.now.state.fails }
    {
        self.registers.fails
    }

    // Ends a run that was cut short: the machine runs no more, and shows no print.
    fn stop(&mut self)
        ensures state { self.new.state ≡ self.old.state }
        ensures stopped { (self.new.running ≡ false) × (self.new.printed ≡ []) }
        ensures same { (self.new.code ≡ self.old.code) × (self.new.input ≡ self.old.input) }
    {
        self.running = false;
        self.printed.clear();
    }

    // The run, through a buffer.
    fn run_buffered<K: Sink>(&mut self, budget: u64, buffer: &mut SinkBuffer, out: &mut K) -> RunEnd
        requires running { IsTrue self.old.running }
        requires few { self.old.state.steps + budget < 2 ^ 63 }
        ensures far { RunsWithin self.old self.new budget result }
        ensures out { Buffers (K.side out.old) (K.side out.new) (buffer.old ++ prints self.old.code
            self.old.input (made self.old self.new) self.old.state) buffer.new
            (all_written result) }
    {
        let mut made = 0;
        while made < budget {
            let quick = self.dash(steps_until_flush(made, budget));
            made += quick;
            let Ok(step) = self.step() else {
                return RunEnd::Memory;
            };
            if let Step::Done(end) = step {
                return RunEnd::from(end);
            }
            made += 1;
            if write_buffered(step, self.printed(), made, buffer, out).is_err() {
                self.stop();
                return RunEnd::WriteFault;
            }
        }
        // Opens the machine: its invariant says where it stands while it is running.
        let _ = &self.running;
        RunEnd::StepsOut
    }

    /// Steps until the run ends, and at most `budget` of them. Prints wait for others, 4,096 steps
    /// at most, and go out together; a write that fails may stop the run some steps behind them.
    pub fn run<K: Sink>(&mut self, budget: u64, out: &mut K) -> RunEnd
        requires running { IsTrue self.old.running }
        requires few { self.old.state.steps + budget < 2 ^ 63 }

        // Without a fault of the sink and a want of memory: what the copying code machine does in
        // so many steps.
        ensures answer { OnWhole result (result
            ≡ run_end_of (after self.old.code self.old.input budget self.old.state).mode) }
        ensures state { OnWhole result (self.new.state
            ≡ after self.old.code self.old.input budget self.old.state) }
        ensures out { OnWhole result
            (Appends (K.side out.old).written (K.side out.new).written
            (prints self.old.code self.old.input budget self.old.state)) }

        // In each case: what it does in the steps that were made.
        ensures few { self.new.state.steps ≤ self.old.state.steps + budget }
        ensures made { self.new.state
            ≡ after self.old.code self.old.input (made self.old self.new) self.old.state }
        ensures steps_out { OnStepsOut result (made self.old self.new ≡ budget) }
        ensures memory { OnMemory result
            (Appends (K.side out.old).written (K.side out.new).written
            (prints self.old.code self.old.input (made self.old self.new) self.old.state)) }
        ensures write_fault { OnWriteFault result
            (AppendsFront (K.side out.old).written (K.side out.new).written (prints self.old.code
            self.old.input (made self.old self.new) self.old.state)) }
        ensures printed { ShowsLast result self.new.printed (last_print self.old.code self.old.input
            (made self.old self.new) self.old.state self.old.printed) }
        ensures cause { HasCause (K.side out.old).faults (K.side out.new).faults
            (all_written result) }
        ensures running { self.new.running ≡ is_steps_out result }
        ensures same { (self.new.code ≡ self.old.code) × (self.new.input ≡ self.old.input) }
    {
        let mut buffer = SinkBuffer::new();
        let end = self.run_buffered(budget, &mut buffer, out);
        if let RunEnd::WriteFault = end {
            return end;
        }
        if buffer.flush(out).is_err() {
            self.stop();
            return RunEnd::WriteFault;
        }
        end
    }
}
