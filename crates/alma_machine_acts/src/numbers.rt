// What instructions compute from the slots of the top frame.
ghost use Rattle.std.specs.Prelude.{◌≡◌, true, false, ◌+ℤ◌, ◌-ℤ◌, ◌*ℤ◌, neg_ℤ, int_lt, int_le, IfOk, MatchOption};
ghost use Rattle.alma_base.specs.Choice.{if_true};
ghost use Rattle.alma_base.specs.declared.fault.RunFault.TheVariants as fault;
ghost use Rattle.alma_base.specs.Numbers.{within, is_zero, int_eq, bit, div_down_of, mod_down_of, is_beyond};
ghost use Rattle.alma_code.specs.Machine.{number, place, content, with_known_content, integer_result, range_check, ends_in_fault};
ghost use Rattle.alma_machine_acts.specs.Rows.{HasNumber, HasCells, HasOneCell, Gives, GivesPlace, GivesNext, GivesContent, HasNumberIn};

use crate::registers::Registers;
use alma_base::{Range, RunFault, div_down, mod_down};
use alma_code::{Cell, CellPlace};
use alma_memory::MachineMemory;

// The sum of a counter and its step, or none where that is beyond the limit.
#[inline(always)]
#[tactic(auto, using(crate::proofs::Words::limits, std::proofs::lemmas::Int::ints, std::proofs::lemmas::Grind::common_steps))]
fn next_within(counter: i64, limit: i64, by: i64) -> Option<i64>
    ensures { MatchOption result (is_beyond (counter +ℤ by) limit by ≡ true) (λ next. (next
        ≡ counter +ℤ by) × (is_beyond (counter +ℤ by) limit by ≡ false)) }
{
    let next = counter.checked_add(by)?;
    let is_beyond = if by < 0 { next < limit } else { limit < next };
    if is_beyond { None } else { Some(next) }
}

impl<M: MachineMemory> Registers<M> {
    /// The number in a slot.
    #[inline(always)]
    #[tactic(auto, using(crate::proofs::Words::numbers))]
    pub fn number(&self, slot: u32) -> Result<i64, RunFault>
        requires { HasNumber (M.picture self.now.memory).now slot }
        ensures { Gives (M.picture self.now.memory).now (λ s k. number s slot k) result }
    {
        match self.memory.top(slot) {
            Cell::Int(number) => Ok(number),
            Cell::Unknown => Err(RunFault::Unknown),
            Cell::Unset | Cell::Place(_) | Cell::Mark(_) => unreachable!(),
        }
    }

    /// The place in a slot.
    #[inline(always)]
    #[tactic(auto, using(crate::proofs::Words::places))]
    pub fn place(&self, slot: u32) -> Result<CellPlace, RunFault>
        requires { HasCells (M.picture self.now.memory).now slot }
        ensures { GivesPlace (M.picture self.now.memory).now slot result }
    {
        match self.memory.top(slot) {
            Cell::Place(place) => Ok(place),
            Cell::Unset => Err(RunFault::Unknown),
            Cell::Unknown | Cell::Int(_) | Cell::Mark(_) => unreachable!(),
        }
    }

    /// The sum of two numbers.
    #[inline(always)]
    #[tactic(auto, using(std::proofs::lemmas::Int::ints, std::proofs::lemmas::Grind::common_steps))]
    pub fn sum(&self, left: u32, right: u32) -> Result<i64, RunFault>
        requires left { HasNumber (M.picture self.now.memory).now left }
        requires right { HasNumber (M.picture self.now.memory).now right }
        ensures { Gives (M.picture self.now.memory).now (λ s k. number s left (λ x. number s right
            (λ y. integer_result s (x +ℤ y) k))) result }
    {
        let x = self.number(left)?;
        let y = self.number(right)?;
        x.checked_add(y).ok_or(RunFault::Overflow)
    }

    /// The difference of two numbers.
    #[inline(always)]
    #[tactic(auto, using(std::proofs::lemmas::Int::ints, std::proofs::lemmas::Grind::common_steps))]
    pub fn difference(&self, left: u32, right: u32) -> Result<i64, RunFault>
        requires left { HasNumber (M.picture self.now.memory).now left }
        requires right { HasNumber (M.picture self.now.memory).now right }
        ensures { Gives (M.picture self.now.memory).now (λ s k. number s left (λ x. number s right
            (λ y. integer_result s (x -ℤ y) k))) result }
    {
        let x = self.number(left)?;
        let y = self.number(right)?;
        x.checked_sub(y).ok_or(RunFault::Overflow)
    }

    /// The product of two numbers.
    #[inline(always)]
    #[tactic(auto, using(std::proofs::lemmas::Int::ints, std::proofs::lemmas::Grind::common_steps))]
    pub fn product(&self, left: u32, right: u32) -> Result<i64, RunFault>
        requires left { HasNumber (M.picture self.now.memory).now left }
        requires right { HasNumber (M.picture self.now.memory).now right }
        ensures { Gives (M.picture self.now.memory).now (λ s k. number s left (λ x. number s right
            (λ y. integer_result s (x *ℤ y) k))) result }
    {
        let x = self.number(left)?;
        let y = self.number(right)?;
        x.checked_mul(y).ok_or(RunFault::Overflow)
    }

    /// The quotient of two numbers, rounded down.
    #[inline(always)]
    #[tactic(auto, using(crate::proofs::Words::tests, std::proofs::lemmas::Int::ints, std::proofs::lemmas::Grind::common_steps))]
    pub fn quotient(&self, left: u32, right: u32) -> Result<i64, RunFault>
        requires left { HasNumber (M.picture self.now.memory).now left }
        requires right { HasNumber (M.picture self.now.memory).now right }
        ensures { Gives (M.picture self.now.memory).now (λ s k. number s left (λ x. number s right
            (λ y. if_true (is_zero y) (λ _. ends_in_fault fault.ZeroDivide s)
            (λ _. integer_result s (div_down_of x y) k)))) result }
    {
        let x = self.number(left)?;
        let y = self.number(right)?;
        if y == 0 {
            return Err(RunFault::ZeroDivide);
        }
        div_down(x, y).ok_or(RunFault::Overflow)
    }

    /// The remainder of two numbers, where the quotient is rounded down.
    #[inline(always)]
    #[tactic(auto, using(crate::proofs::Words::tests, std::proofs::lemmas::Int::ints, std::proofs::lemmas::Grind::common_steps))]
    pub fn remainder(&self, left: u32, right: u32) -> Result<i64, RunFault>
        requires left { HasNumber (M.picture self.now.memory).now left }
        requires right { HasNumber (M.picture self.now.memory).now right }
        ensures { Gives (M.picture self.now.memory).now (λ s k. number s left (λ x. number s right
            (λ y. if_true (is_zero y) (λ _. ends_in_fault fault.ZeroDivide s)
            (λ _. integer_result s (mod_down_of x y) k)))) result }
    {
        let x = self.number(left)?;
        let y = self.number(right)?;
        if y == 0 {
            return Err(RunFault::ZeroDivide);
        }
        Ok(mod_down(x, y))
    }

    /// The number with the other sign.
    #[inline(always)]
    #[tactic(auto, using(std::proofs::lemmas::Int::ints, std::proofs::lemmas::Grind::common_steps))]
    pub fn negated(&self, from: u32) -> Result<i64, RunFault>
        requires { HasNumber (M.picture self.now.memory).now from }
        ensures { Gives (M.picture self.now.memory).now (λ s k. number s from
            (λ x. integer_result s (neg_ℤ x) k)) result }
    {
        let x = self.number(from)?;
        x.checked_neg().ok_or(RunFault::Overflow)
    }

    /// 1 for 0, and else 0.
    #[inline(always)]
    #[tactic(auto, using(crate::proofs::Words::tests, std::proofs::lemmas::Int::ints, std::proofs::lemmas::Grind::common_steps))]
    pub fn flipped(&self, from: u32) -> Result<i64, RunFault>
        requires { HasNumber (M.picture self.now.memory).now from }
        ensures { Gives (M.picture self.now.memory).now (λ s k. number s from
            (λ x. k (bit (is_zero x)))) result }
    {
        let x = self.number(from)?;
        Ok(if x == 0 { 1 } else { 0 })
    }

    /// 1 where two numbers are equal, and else 0.
    #[inline(always)]
    #[tactic(auto, using(crate::proofs::Words::tests, std::proofs::lemmas::Int::ints, std::proofs::lemmas::Grind::common_steps))]
    pub fn equal(&self, left: u32, right: u32) -> Result<i64, RunFault>
        requires left { HasNumber (M.picture self.now.memory).now left }
        requires right { HasNumber (M.picture self.now.memory).now right }
        ensures { Gives (M.picture self.now.memory).now (λ s k. number s left (λ x. number s right
            (λ y. k (bit (int_eq x y))))) result }
    {
        let x = self.number(left)?;
        let y = self.number(right)?;
        Ok(if x == y { 1 } else { 0 })
    }

    /// 1 where the first number is below the second, and else 0.
    #[inline(always)]
    #[tactic(auto, using(crate::proofs::Words::tests, std::proofs::lemmas::Int::ints, std::proofs::lemmas::Grind::common_steps))]
    pub fn less(&self, left: u32, right: u32) -> Result<i64, RunFault>
        requires left { HasNumber (M.picture self.now.memory).now left }
        requires right { HasNumber (M.picture self.now.memory).now right }
        ensures { Gives (M.picture self.now.memory).now (λ s k. number s left (λ x. number s right
            (λ y. k (bit (int_lt x y))))) result }
    {
        let x = self.number(left)?;
        let y = self.number(right)?;
        Ok(if x < y { 1 } else { 0 })
    }

    /// 1 where the first number is at most the second, and else 0.
    #[inline(always)]
    #[tactic(auto, using(crate::proofs::Words::tests, std::proofs::lemmas::Int::ints, std::proofs::lemmas::Grind::common_steps))]
    pub fn at_most(&self, left: u32, right: u32) -> Result<i64, RunFault>
        requires left { HasNumber (M.picture self.now.memory).now left }
        requires right { HasNumber (M.picture self.now.memory).now right }
        ensures { Gives (M.picture self.now.memory).now (λ s k. number s left (λ x. number s right
            (λ y. k (bit (int_le x y))))) result }
    {
        let x = self.number(left)?;
        let y = self.number(right)?;
        Ok(if x <= y { 1 } else { 0 })
    }

    /// What the number slot at a place knows.
    #[inline(always)]
    #[tactic(auto, using(crate::proofs::Words::contents))]
    pub fn content(&self, frame: u32, slot: u32) -> Option<i64>
        requires { HasNumberIn (M.picture self.now.memory).now frame slot }
        ensures { GivesContent (M.picture self.now.memory).now frame slot result }
    {
        match self.memory.read(frame, slot) {
            Cell::Int(number) => Some(number),
            Cell::Unknown => None,
            Cell::Unset | Cell::Place(_) | Cell::Mark(_) => unreachable!(),
        }
    }

    /// The number at the place in a slot.
    #[inline(always)]
    #[tactic(auto, using(crate::proofs::Words::one_slot, std::proofs::lemmas::Grind::common_steps))]
    pub fn number_at(&self, from: u32) -> Result<i64, RunFault>
        requires { HasOneCell (M.picture self.now.memory).now from }
        ensures { Gives (M.picture self.now.memory).now
            (λ s k. place s from (λ p. content s p.frame p.slot
            (λ c. with_known_content s c k))) result }
    {
        let place = self.place(from)?;
        self.content(place.frame, place.slot)
            .ok_or(RunFault::Unknown)
    }

    /// The number in a slot, which must be in a range.
    #[inline(always)]
    #[tactic(auto, using(crate::proofs::Words::ranges, std::proofs::lemmas::Int::ints, std::proofs::lemmas::Grind::common_steps))]
    pub fn number_within(&self, slot: u32, range: &Range, fault: RunFault) -> Result<i64, RunFault>
        requires { HasNumber (M.picture self.now.memory).now slot }
        ensures number { Gives (M.picture self.now.memory).now (λ s k. number s slot
            (λ v. range_check range.now fault s v (λ _. k v))) result }
        ensures within { IfOk result (λ v. within range.now v ≡ true) }
    {
        let number = self.number(slot)?;
        if number < range.low || range.high < number {
            return Err(fault);
        }
        Ok(number)
    }

    /// The next number of a counter, or none where that is beyond the limit.
    #[inline(always)]
    #[tactic(auto, using(std::proofs::lemmas::Int::ints, std::proofs::lemmas::Grind::common_steps))]
    pub fn next(&self, counter: u32, limit: u32, by: u32) -> Result<Option<i64>, RunFault>
        requires counter { HasNumber (M.picture self.now.memory).now counter }
        requires limit { HasNumber (M.picture self.now.memory).now limit }
        requires by { HasNumber (M.picture self.now.memory).now by }
        ensures { GivesNext (M.picture self.now.memory).now counter limit by result }
    {
        let counter = self.number(counter)?;
        let limit = self.number(limit)?;
        let by = self.number(by)?;
        Ok(next_within(counter, limit, by))
    }
}
