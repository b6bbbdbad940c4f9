// A run that goes both ways.
ghost use Rattle.std.specs.Prelude.{◌≡◌, ◌+◌, ◌-◌, ◌^◌, ◌<◌, ◌≤◌, ◌++◌, ◌∷◌, ◌↔◌, List, [], length, is_ok, cond, IfOk, OnOk, OnErr, IsTrue};
ghost use Rattle.alma_base.specs.Limits.{input_limit};
ghost use Rattle.alma_code.specs.Layout.{start_frame};
ghost use Rattle.alma_code.specs.Machine.{step};
ghost use Rattle.alma_code.specs.Picture.{cell_at};
ghost use Rattle.alma_code.specs.Plain.{head_at, kinds_at};
ghost use Rattle.alma_code.specs.TraceText.{value_of_name};
ghost use Rattle.alma_code.specs.declared.cell.Cell.TheVariants as cell;
ghost use Rattle.alma_verify.specs.Verified.{code_of_verified};
ghost use Rattle.alma_memory.specs.Machine.{Scene};
ghost use Rattle.alma_machine_acts.specs.Steps.{step_result};
ghost use Rattle.alma_machine.specs.Stands.{Stands};
ghost use Rattle.alma_back.specs.Kept.{state_in, scene_of, mode_by, old_of as old_of_state};
ghost use Rattle.alma_back.specs.Standing.{standing_at_start, state_of, output_of, runs, step_limit, stepped_back};

use alma_back_tape::Tape;
use alma_base::NoMemory;
use alma_code::{Cell, Step};
use alma_machine::advance;
use alma_machine_acts::{Mode, Registers};
use alma_memory::MachineMemory;
use alma_trace::push_named;
use alma_verify::Verified;
use std::alloc::Global;
use std::marker::Model;

/// A number of printed bytes behind which those of any one step can still be counted.
const GREATEST_PRINTED: u64 = u64::MAX / 2;

/// What a step back gives again that the memory does not hold: the registers before a step, and how
/// many bytes were printed before it.
#[derive(Clone, Copy)]
struct Old {
    at: u32,
    last: u32,
    failing: bool,
    choices: u64,
    fails: u64,
    printed: u64,
}

// What is kept of registers.
fn old_of(registers: &Registers<Tape>, printed: u64) -> Old
    ensures { result ≡ old_of_state (state_in registers.now) printed }
{
    Old {
        at: registers.at,
        last: registers.last,
        failing: matches!(registers.mode, Mode::Failing),
        choices: registers.choices,
        fails: registers.fails,
        printed,
    }
}

// One step, which the memory can take back. Where memory is wanted, nothing has happened.
fn step_on(
    code: &Verified<'_>,
    input: &[u8],
    registers: &mut Registers<Tape>,
    text: &mut Vec<u8>,
) -> Result<Step, NoMemory>
    requires stands { Stands (code_of_verified code.now) (state_in registers.old) }
    requires few { registers.old.steps + 1 < 2 ^ 63 }
    requires lawful { length input.now ≤ input_limit }
    ensures step { IfOk result (λ answer. step_result answer text.new.items (state_in registers.new)
        ≡ step (code_of_verified code.now) input.now (state_in registers.old)) }
    ensures counted { OnOk result (registers.new.steps ≡ registers.old.steps + 1) }
    ensures choices { OnOk result (registers.new.choices ≤ registers.old.choices + 1) }
    ensures fails { OnOk result (registers.new.fails ≤ registers.old.fails + 1) }
    ensures past { OnOk result (registers.new.memory.past
        ≡ scene_of (state_in registers.old) ∷ registers.old.memory.past) }
    ensures refused { OnErr result ((state_in registers.new ≡ state_in registers.old)
        × (registers.new.memory.past ≡ registers.old.memory.past)) }
{
    registers.memory.begin()?;
    let step = advance(code, input, registers, text);
    if step.is_err() {
        registers.memory.back();
    }
    step
}

// Goes back to the last scene of the memory, with what was kept of the registers there.
fn step_back(registers: &mut Registers<Tape>, old: Old)
    requires { 1 ≤ registers.old.steps }
    ensures scene { (scene : Scene) (rest : List Scene)
        → registers.old.memory.past ≡ scene ∷ rest
        → scene_of (state_in registers.new) ∷ registers.new.memory.past ≡ scene ∷ rest }
    ensures state { state_in registers.new ≡ record (state_in registers.new) {
      at = old.at;
      last = old.last;
      mode = mode_by old.failing;
      steps = registers.old.steps - 1;
      choices = old.choices;
      fails = old.fails;
    } }
{
    registers.memory.back();
    registers.at = old.at;
    registers.last = old.last;
    registers.mode = if old.failing {
        Mode::Failing
    } else {
        Mode::Going
    };
    registers.steps -= 1;
    registers.choices = old.choices;
    registers.fails = old.fails;
}

// A memory with the frame of the module body alone.
fn first_memory(alloc: Global, code: &Verified<'_>) -> Result<Tape, NoMemory>
    ensures now { IfOk result (λ memory.
        memory.now ≡ start_frame (head_at (code_of_verified code.now) 0) ∷ []) }
    ensures held { IfOk result (λ memory. memory.held ≡ []) }
    ensures past { IfOk result (λ memory. memory.past ≡ []) }
{
    let head = code.main_head();
    code.keeps_sound();
    Tape::new(alloc, &head)
}

/// A run of the code of a verified object on an input, which goes forward and back. It lends both.
#[derive(Drop)]
pub struct Back<'b, 'i> {
    code: Verified<'b>,
    input: &'i [u8],
    registers: Registers<Tape>,
    olds: Vec<Old>,
    printed: u64,
    // What the last step printed.
    text: Vec<u8>,
}

impl<'b, 'i> Model for Back<'b, 'i> {
    ghost use Rattle.std.specs.Prelude.{◌≤◌, length};
    ghost use Rattle.alma_back.specs.Standing.{Standing};

    ghost Value = { Standing };

    ghost use Rattle.alma_base.specs.Limits.{input_limit};
    ghost use Rattle.alma_back.specs.Kept.{Keeps};
    ghost use Rattle.alma_verify.specs.Verified.{code_of_verified};

    ghost view = { λ b. record {
      code = code_of_verified b.code;
      input = b.input.now;
      steps = length b.olds.items;
    } };

    ghost invariant = { λ b. (length b.input.now ≤ input_limit)
        × Keeps (code_of_verified b.code) b.input.now (length b.olds.items) b.registers
        b.olds.items b.printed };
}

impl<'b, 'i> Back<'b, 'i> {
    /// A run at its start. The input has at most 16,777,216 bytes.
    pub fn new(alloc: Global, code: Verified<'b>, input: &'i [u8]) -> Result<Back<'b, 'i>, NoMemory>
        requires { length input.now ≤ input_limit }
        ensures { IfOk result
            (λ back. back ≡ standing_at_start (code_of_verified code.entry) input.now) }
    {
        let memory = first_memory(alloc, &code)?;
        let registers = Registers {
            alloc,
            at: 0,
            last: 0,
            mode: Mode::Going,
            memory,
            args: Vec::new(alloc),
            steps: 0,
            choices: 0,
            fails: 0,
        };
        code.keeps_sound();
        Ok(Back {
            code,
            input,
            registers,
            olds: Vec::new(alloc),
            printed: 0,
            text: Vec::new(alloc),
        })
    }

    /// Whether the run has not ended.
    pub fn is_running(&self) -> bool
        ensures { result ≡ runs self.now }
    {
        match self.registers.mode {
            Mode::Going | Mode::Failing => true,
            Mode::Ended(_) => false,
        }
    }

    /// One step of a run that has not ended. Where memory is wanted, or so much was printed that more
    /// might not be counted, nothing has happened, and the run still goes on.
    pub fn step(&mut self) -> Result<Step, NoMemory>
        requires running { IsTrue (runs self.old) }
        requires few { self.old.steps < step_limit }
        ensures answer { IfOk result
            (λ answer. answer ≡ (step self.old.code self.old.input (state_of self.old)).answer) }
        ensures stands { self.new ≡ cond (is_ok result)
            (record self.old { steps = self.old.steps + 1 }) self.old }
    {
        if self.printed > GREATEST_PRINTED {
            return Err(NoMemory);
        }
        let old = old_of(&self.registers, self.printed);
        self.olds.reserve(1)?;
        let step = step_on(&self.code, self.input, &mut self.registers, &mut self.text)?;
        self.olds.push_reserved(old);
        self.printed += self.text.len() as u64;
        Ok(step)
    }

    /// One step back, also from an end. False where no step was made. It takes no memory.
    pub fn back(&mut self) -> bool
        ensures back { IsTrue result ↔ (0 < self.old.steps) }
        ensures stands { self.new ≡ stepped_back self.old }
    {
        let Some(old) = self.olds.pop() else {
            return false;
        };
        step_back(&mut self.registers, old);
        self.printed = old.printed;
        true
    }

    /// How many steps were made that were not taken back, by the machine's own count too.
    pub fn steps(&self) -> u64
        ensures steps { result ≡ self.now.steps }
        ensures counted { result ≡ (state_of self.now).steps }
    {
        self.registers.steps
    }

    /// How many bytes these steps have printed.
    pub fn printed(&self) -> u64
        ensures { result ≡ length (output_of self.now) }
    {
        self.printed
    }

    /// What a slot of the module body holds.
    pub fn cell(&self, slot: u32) -> Cell
        requires { slot < length (kinds_at self.now.code 0) }
        ensures { result ≡ cell_at (state_of self.now).now 0 slot cell.Unknown }
    {
        self.registers.memory.read(0, slot)
    }

    /// Appends the value of the first global of a name, as the tracer shows it, and - where there
    /// is none.
    pub fn push_value(&self, line: &mut Vec<u8>, name: &[u8]) -> Result<(), NoMemory>
        ensures { OnOk result (line.new.items ≡ line.old.items
            ++ value_of_name (state_of self.now).now self.now.code.globals name.now) }
    {
        self.code.keeps_sound();
        push_named(line, &self.registers.memory, self.code.view(), name)
    }
}
