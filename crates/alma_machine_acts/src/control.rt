// Jumps, tests, and loops that count.
ghost use Rattle.alma_base.specs.Choice.{if_true};
ghost use Rattle.alma_base.specs.declared.fault.RunFault.TheVariants as fault;
ghost use Rattle.alma_base.specs.Numbers.{is_zero};
ghost use Rattle.alma_code.specs.Machine.{number, put_number, range_check, quiet_step, goes_to, fails_now};
ghost use Rattle.alma_machine_acts.specs.Acts.{Acts, Makes};
ghost use Rattle.alma_machine_acts.specs.Rows.{state_of, HasNumber, count_on};

use crate::registers::{Mode, Registers};
use alma_base::{NoMemory, Range, RunFault};
use alma_code::{End, Step};
use alma_memory::MachineMemory;

impl<M: MachineMemory> Registers<M> {
    /// Goes to an address where the number in a slot is 0.
    #[tactic(auto, using(crate::proofs::Words::tests, std::proofs::lemmas::Int::ints, std::proofs::lemmas::Grind::common_steps))]
    pub fn jump_zero(&mut self, value: u32, to: u32) -> Step
        requires { HasNumber (M.picture self.old.memory).now value }
        ensures { let s = state_of M.picture self.old in
            Makes M.picture self.old self.new result
            (number s value (λ v. if_true (is_zero v) (λ _. goes_to to s) (λ _. quiet_step s))) }
    {
        match self.number(value) {
            Ok(number) => {
                if number == 0 {
                    self.at = to;
                }
                Step::Went
            }
            Err(fault) => self.end(End::Fault(fault)),
        }
    }

    /// Fails where the number in a slot is 0.
    #[tactic(auto, using(crate::proofs::Words::tests, std::proofs::lemmas::Int::ints, std::proofs::lemmas::Grind::common_steps))]
    pub fn check(&mut self, value: u32) -> Step
        requires { HasNumber (M.picture self.old.memory).now value }
        ensures { let s = state_of M.picture self.old in
            Makes M.picture self.old self.new result
            (number s value (λ v. if_true (is_zero v) (λ _. fails_now s) (λ _. quiet_step s))) }
    {
        match self.number(value) {
            Ok(number) => {
                if number == 0 {
                    self.mode = Mode::Failing;
                }
                Step::Went
            }
            Err(fault) => self.end(End::Fault(fault)),
        }
    }

    /// Ends the run where the number in a slot is not in a range.
    #[tactic(auto, using(std::proofs::lemmas::Int::ints, std::proofs::lemmas::Grind::common_steps))]
    pub fn in_range(&mut self, value: u32, range: &Range) -> Step
        requires { HasNumber (M.picture self.old.memory).now value }
        ensures { let s = state_of M.picture self.old in
            Makes M.picture self.old self.new result
            (number s value (λ v. range_check range.now fault.Range s v (λ _. quiet_step s))) }
    {
        match self.number_within(value, range, RunFault::Range) {
            Ok(_) => Step::Went,
            Err(fault) => self.end(End::Fault(fault)),
        }
    }

    /// Counts a counter on, or goes to an address where the next number is beyond the limit.
    #[tactic(auto, using(std::proofs::lemmas::Int::ints, std::proofs::lemmas::Grind::common_steps))]
    pub fn count(&mut self, counter: u32, limit: u32, by: u32, out: u32) -> Result<Step, NoMemory>
        requires counter { HasNumber (M.picture self.old.memory).now counter }
        requires limit { HasNumber (M.picture self.old.memory).now limit }
        requires by { HasNumber (M.picture self.old.memory).now by }
        ensures { let s = state_of M.picture self.old in
            Acts M.picture self.old self.new result
            (count_on s counter limit by (goes_to out s) (put_number s counter)) }
    {
        match self.next(counter, limit, by) {
            Ok(Some(next)) => self.put(counter, Ok(next)),
            Ok(None) => Ok(self.jump(out)),
            Err(fault) => Ok(self.end(End::Fault(fault))),
        }
    }
}
