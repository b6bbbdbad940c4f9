// The cells at places: read, stored and bound.
ghost use Rattle.alma_code.specs.Machine.{number, place, content, store, binds_content, is_known, quiet_step};
ghost use Rattle.alma_base.specs.Numbers.{bit};
ghost use Rattle.alma_machine_acts.specs.Acts.{Acts};
ghost use Rattle.alma_machine_acts.specs.Rows.{state_of, HasNumber, HasNumberIn, HasOneCell, Gives};

use crate::registers::{Mode, Registers};
use alma_base::{NoMemory, Range, RunFault};
use alma_code::{Cell, CellPlace, End, Step};
use alma_memory::MachineMemory;

impl<M: MachineMemory> Registers<M> {
    /// Puts a number into a number slot of a frame.
    #[inline(always)]
    #[tactic(auto, using(crate::proofs::Words::store_is))]
    pub fn set(&mut self, frame: u32, slot: u32, number: i64) -> Result<Step, NoMemory>
        requires { HasNumberIn (M.picture self.old.memory).now frame slot }
        ensures { Acts M.picture self.old self.new result
            (store (state_of M.picture self.old) frame slot number quiet_step) }
    {
        self.memory.write(frame, slot, Cell::Int(number))?;
        Ok(Step::Went)
    }

    /// Puts the number in a slot into the cell at a place.
    #[tactic(auto, using(crate::proofs::Words::one_slot, std::proofs::lemmas::Grind::common_steps))]
    pub fn store(&mut self, to: u32, from: u32) -> Result<Step, NoMemory>
        requires to { HasOneCell (M.picture self.old.memory).now to }
        requires from { HasNumber (M.picture self.old.memory).now from }
        ensures { let s = state_of M.picture self.old in
            Acts M.picture self.old self.new result
            (place s to (λ p. number s from (λ v. store s p.frame p.slot v quiet_step))) }
    {
        let place = match self.place(to) {
            Ok(place) => place,
            Err(fault) => return Ok(self.end(End::Fault(fault))),
        };
        match self.number(from) {
            Ok(number) => self.set(place.frame, place.slot, number),
            Err(fault) => Ok(self.end(End::Fault(fault))),
        }
    }

    /// 1 where the cell at the place in a slot is known, and else 0.
    #[inline]
    #[tactic(auto, using(crate::proofs::Words::one_slot, std::proofs::lemmas::Grind::common_steps))]
    pub fn knows(&self, of: u32) -> Result<i64, RunFault>
        requires { HasOneCell (M.picture self.now.memory).now of }
        ensures { Gives (M.picture self.now.memory).now
            (λ s k. place s of (λ p. content s p.frame p.slot
            (λ c. k (bit (is_known c))))) result }
    {
        let place = self.place(of)?;
        Ok(if self.content(place.frame, place.slot).is_some() {
            1
        } else {
            0
        })
    }

    /// The equation of the cell at a place and a number.
    #[tactic(auto, using(crate::proofs::Words::one_slot, crate::proofs::Words::tests, crate::proofs::Words::ranges, std::proofs::lemmas::Int::ints, std::proofs::lemmas::Grind::common_steps))]
    pub(crate) fn bind_to(
        &mut self,
        place: CellPlace,
        range: &Range,
        number: i64,
    ) -> Result<Step, NoMemory>
        requires { HasNumberIn (M.picture self.old.memory).now place.frame place.slot }
        ensures { let s = state_of M.picture self.old in
            Acts M.picture self.old self.new result
            (content s place.frame place.slot (λ u. binds_content s place range.now number u)) }
    {
        match self.content(place.frame, place.slot) {
            Some(known) => {
                if known != number {
                    self.mode = Mode::Failing;
                }
                Ok(Step::Went)
            }
            None => {
                if number < range.low || range.high < number {
                    return Ok(self.end(End::Fault(RunFault::Range)));
                }
                self.set(place.frame, place.slot, number)
            }
        }
    }

    /// The equation of the cell at the place in a slot and the number in another.
    #[tactic(auto, using(crate::proofs::Words::one_slot, std::proofs::lemmas::Grind::common_steps))]
    pub fn bind(&mut self, to: u32, value: u32, range: &Range) -> Result<Step, NoMemory>
        requires to { HasOneCell (M.picture self.old.memory).now to }
        requires value { HasNumber (M.picture self.old.memory).now value }
        ensures { let s = state_of M.picture self.old in
            Acts M.picture self.old self.new result
            (place s to (λ p. number s value
            (λ v. content s p.frame p.slot (λ u. binds_content s p range.now v u)))) }
    {
        let place = match self.place(to) {
            Ok(place) => place,
            Err(fault) => return Ok(self.end(End::Fault(fault))),
        };
        match self.number(value) {
            Ok(number) => self.bind_to(place, range, number),
            Err(fault) => Ok(self.end(End::Fault(fault))),
        }
    }
}
