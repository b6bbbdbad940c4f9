// The state of the machine, and what ends or turns it.
ghost use Rattle.std.specs.Prelude.{◌≡◌};
ghost use Rattle.alma_code.specs.Machine.{ends_run, goes_to, fails_now, quiet_step, with_slot};
ghost use Rattle.alma_machine_acts.specs.Acts.{Acts, Makes};
ghost use Rattle.alma_machine_acts.specs.Rows.{state_of, HasSlot, HasNumber, put_or_fault};

use alma_base::{NoMemory, RunFault};
use alma_code::{Cell, End, Step};
use alma_memory::MachineMemory;
use std::alloc::Global;

/// Whether the next step is an instruction or a pop, or the run has ended.
#[derive(Clone, Copy)]
pub enum Mode {
    Going,
    Failing,
    Ended(End),
}

/// The state of a run: the next address, that of the last instruction taken, the mode, the memory
/// and the counts; and the arguments of the last call, so that no call asks for room that an
/// earlier one had.
#[derive(Drop)]
pub struct Registers<M: MachineMemory> {
    pub alloc: Global,
    pub at: u32,
    pub last: u32,
    pub mode: Mode,
    pub memory: M,
    pub args: Vec<Cell>,
    pub steps: u64,
    pub choices: u64,
    pub fails: u64,
}

impl<M: MachineMemory> Registers<M> {
    /// Ends the run.
    pub fn end(&mut self, end: End) -> Step
        ensures made { Makes M.picture self.old self.new result
            (ends_run end (state_of M.picture self.old)) }
        ensures memory { self.new.memory ≡ self.old.memory }
    {
        self.mode = Mode::Ended(end);
        Step::Done(end)
    }

    /// Goes to an address.
    pub fn jump(&mut self, to: u32) -> Step
        ensures made { Makes M.picture self.old self.new result
            (goes_to to (state_of M.picture self.old)) }
        ensures memory { self.new.memory ≡ self.old.memory }
    {
        self.at = to;
        Step::Went
    }

    /// Fails.
    pub fn fail(&mut self) -> Step
        ensures made { Makes M.picture self.old self.new result
            (fails_now (state_of M.picture self.old)) }
        ensures memory { self.new.memory ≡ self.old.memory }
    {
        self.mode = Mode::Failing;
        Step::Went
    }

    /// Puts a cell into a slot of the top frame.
    #[inline(always)]
    pub fn write(&mut self, to: u32, cell: Cell) -> Result<Step, NoMemory>
        requires { HasSlot (M.picture self.old.memory).now to }
        ensures { Acts M.picture self.old self.new result
            (quiet_step (with_slot (state_of M.picture self.old) to cell)) }
    {
        self.memory.put(to, cell)?;
        Ok(Step::Went)
    }

    /// Puts a number into a slot, or ends the run in its fault.
    #[tactic(auto, using(crate::proofs::Words::puts))]
    pub fn put(&mut self, to: u32, number: Result<i64, RunFault>) -> Result<Step, NoMemory>
        requires { HasNumber (M.picture self.old.memory).now to }
        ensures { Acts M.picture self.old self.new result
            (put_or_fault (state_of M.picture self.old) to number) }
    {
        match number {
            Ok(number) => self.write(to, Cell::Int(number)),
            Err(fault) => Ok(self.end(End::Fault(fault))),
        }
    }
}
