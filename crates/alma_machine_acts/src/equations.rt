// Equations of two cells, and of the cells of two places, one after another.
ghost use Rattle.std.specs.Prelude.{◌≡◌, ◌+◌, ◌<◌, ◌≤◌, Some, None};
ghost use Rattle.alma_code.specs.Machine.{place, equation_of_contents, equation, equations, quiet_step};
ghost use Rattle.alma_machine_acts.specs.Acts.{Acts, Makes};
ghost use Rattle.alma_machine_acts.specs.Rows.{state_of, HasCells, HasOneCell, HasNumberIn, width, AreNumbers};
ghost use Rattle.alma_machine_acts.specs.Meets.{Equates, WritesOne, give_number};

use crate::places::Spot;
use crate::registers::Registers;
use alma_base::{NoMemory, Range, RunFault};
use alma_code::{Cell, End, Step};
use alma_memory::MachineMemory;

/// How an equation ends.
#[derive(Clone, Copy)]
pub(crate) enum Met {
    Holds,
    Ends(Step),
}

impl<M: MachineMemory> Registers<M> {
    // A number slot gets a number that is known, where it is in the range.
    #[tactic(auto, using(crate::proofs::Words::store_is, crate::proofs::Words::ranges, crate::proofs::Stays::number_stays, std::proofs::lemmas::Int::ints, std::proofs::lemmas::Grind::common_steps))]
    fn give(&mut self, to: Spot, range: Option<Range>, known: Option<i64>) -> Result<Met, NoMemory>
        requires { HasNumberIn (M.picture self.old.memory).now to.frame to.slot }
        ensures equates { let s = state_of M.picture self.old in
            Equates M.picture self.old self.new result
            (λ k. give_number s to.frame to.slot range known k) }
        ensures writes { WritesOne M.picture self.old self.new result }
    {
        let Some(number) = known else {
            return Ok(Met::Ends(self.end(End::Fault(RunFault::Unknown))));
        };
        if let Some(range) = range {
            if number < range.low || range.high < number {
                return Ok(Met::Ends(self.end(End::Fault(RunFault::Range))));
            }
        }
        self.memory.write(to.frame, to.slot, Cell::Int(number))?;
        Ok(Met::Holds)
    }

    // The equation of two cells, by what they know.
    #[tactic(auto, using(crate::proofs::Words::tests, std::proofs::lemmas::Int::ints, std::proofs::lemmas::Grind::common_steps))]
    fn settle(
        &mut self,
        left: Spot,
        left_range: Option<Range>,
        left_known: Option<i64>,
        right: Spot,
        right_range: Option<Range>,
        right_known: Option<i64>,
    ) -> Result<Met, NoMemory>
        requires left { HasNumberIn (M.picture self.old.memory).now left.frame left.slot }
        requires right { HasNumberIn (M.picture self.old.memory).now right.frame right.slot }
        ensures equates { let s = state_of M.picture self.old in
            Equates M.picture self.old self.new result
            (λ k. equation_of_contents s left.frame left.slot left_range left_known
            right.frame right.slot right_range right_known k) }
        ensures writes { WritesOne M.picture self.old self.new result }
    {
        match (left_known, right_known) {
            (Some(x), Some(y)) => {
                if x == y {
                    Ok(Met::Holds)
                } else {
                    Ok(Met::Ends(self.fail()))
                }
            }
            (Some(_), None) => self.give(right, right_range, left_known),
            (None, _) => self.give(left, left_range, right_known),
        }
    }

    // The equation of two cells.
    fn equate(
        &mut self,
        left: Spot,
        left_range: Option<Range>,
        right: Spot,
        right_range: Option<Range>,
    ) -> Result<Met, NoMemory>
        requires left { HasNumberIn (M.picture self.old.memory).now left.frame left.slot }
        requires right { HasNumberIn (M.picture self.old.memory).now right.frame right.slot }
        ensures equates { let s = state_of M.picture self.old in
            Equates M.picture self.old self.new result
            (λ k. equation s left.frame left.slot left_range
            right.frame right.slot right_range k) }
        ensures writes { WritesOne M.picture self.old self.new result }
    {
        let left_known = self.content(left.frame, left.slot);
        let right_known = self.content(right.frame, right.slot);
        self.settle(
            left,
            left_range,
            left_known,
            right,
            right_range,
            right_known,
        )
    }

    /// The equation of the cells at the places in two slots.
    #[tactic(auto, using(crate::proofs::Words::one_slot, std::proofs::lemmas::Grind::common_steps))]
    pub fn unify(
        &mut self,
        left: u32,
        left_range: Range,
        right: u32,
        right_range: Range,
    ) -> Result<Step, NoMemory>
        requires left { HasOneCell (M.picture self.old.memory).now left }
        requires right { HasOneCell (M.picture self.old.memory).now right }
        ensures { let s = state_of M.picture self.old in
            Acts M.picture self.old self.new result
            (place s left (λ p. place s right
            (λ q. equation s p.frame p.slot (Some left_range)
            q.frame q.slot (Some right_range) quiet_step))) }
    {
        let left = match self.place(left) {
            Ok(place) => place,
            Err(fault) => return Ok(self.end(End::Fault(fault))),
        };
        let right = match self.place(right) {
            Ok(place) => place,
            Err(fault) => return Ok(self.end(End::Fault(fault))),
        };
        let first = Spot {
            frame: left.frame,
            slot: left.slot,
        };
        let second = Spot {
            frame: right.frame,
            slot: right.slot,
        };
        match self.equate(first, Some(left_range), second, Some(right_range))? {
            Met::Holds => Ok(Step::Went),
            Met::Ends(step) => Ok(step),
        }
    }

    // The equations of so many cells, one after another.
    #[tactic(auto, using(crate::proofs::Meetings::cell_of))]
    fn equate_all(&mut self, count: u32, left: Spot, right: Spot) -> Step
        requires left { AreNumbers (M.picture self.old.memory).now left.frame left.slot count }
        requires right { AreNumbers (M.picture self.old.memory).now right.frame right.slot count }
        requires room { count ≤ (M.picture self.old.memory).trail_room }
        ensures { Makes M.picture self.old self.new result
            (equations count (state_of M.picture self.old)
            left.frame left.slot right.frame right.slot) }
    {
        for k in 0..count {
            let first = Spot {
                frame: left.frame,
                slot: left.slot + k,
            };
            let second = Spot {
                frame: right.frame,
                slot: right.slot + k,
            };
            match self.equate(first, None, second, None) {
                Ok(Met::Holds) => (),
                Ok(Met::Ends(step)) => return step,
                Err(_) => unreachable!(),
            }
        }
        Step::Went
    }

    /// The equations of all cells at the places in two slots.
    #[tactic(auto, using(crate::proofs::Meetings::numbers_of))]
    pub fn same_cells(&mut self, left: u32, right: u32) -> Result<Step, NoMemory>
        requires left { HasCells (M.picture self.old.memory).now left }
        requires right { HasCells (M.picture self.old.memory).now right }
        requires alike { width (M.picture self.old.memory).now left
            ≡ width (M.picture self.old.memory).now right }
        ensures { let s = state_of M.picture self.old in
            Acts M.picture self.old self.new result
            (place s left (λ p. place s right
            (λ q. equations p.len s p.frame p.slot q.frame q.slot))) }
    {
        let left = match self.place(left) {
            Ok(place) => place,
            Err(fault) => return Ok(self.end(End::Fault(fault))),
        };
        let right = match self.place(right) {
            Ok(place) => place,
            Err(fault) => return Ok(self.end(End::Fault(fault))),
        };
        self.memory.reserve(0, left.len as usize)?;
        let first = Spot {
            frame: left.frame,
            slot: left.slot,
        };
        let second = Spot {
            frame: right.frame,
            slot: right.slot,
        };
        Ok(self.equate_all(left.len, first, second))
    }
}
