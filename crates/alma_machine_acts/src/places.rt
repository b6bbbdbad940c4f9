// The places that slots name, and their parts.
ghost use Rattle.std.specs.Prelude.{◌≡◌, ◌+◌, ◌*◌, ◌^◌, ◌<◌, ◌≤◌, ◌-ℤ◌, ℕ, true, nat_abs, slice_get, Some};
ghost use Rattle.alma_base.specs.declared.fault.RunFault.TheVariants as fault;
ghost use Rattle.alma_base.specs.Numbers.{within, range_size};
ghost use Rattle.alma_code.specs.Machine.{State, number, place, range_check, put_place};
ghost use Rattle.alma_code.specs.Picture.{last_frame};
ghost use Rattle.alma_machine_acts.specs.Acts.{Acts};
ghost use Rattle.alma_machine_acts.specs.Rows.{state_of, HasNumber, HasPlace, HasCells, width, point_or_fault};

use crate::registers::Registers;
use alma_base::{NoMemory, Range, RunFault};
use alma_code::{Cell, CellPlace, End, SlotKind, Step};
use alma_memory::MachineMemory;

/// Where a place begins.
#[derive(Clone, Copy)]
pub struct Spot {
    pub frame: u32,
    pub slot: u32,
}

// How many cells stand before the part of a number of a range, each part of so many.
#[inline(always)]
#[tactic(auto, using(crate::proofs::Parts::part_inside))]
fn cells_before(number: i64, range: &Range, part: u32) -> u32
    requires within { within range.now number ≡ true }
    requires room { range_size range.now * part < 2 ^ 32 }
    ensures value { result ≡ nat_abs (number -ℤ range.now.low) * part }
    ensures inside { result ≤ range_size range.now * part }
{
    (number.abs_diff(range.low) * part as u64) as u32
}

impl<M: MachineMemory> Registers<M> {
    // How many cells the places of a place slot have.
    #[inline(always)]
    #[tactic(auto, using(crate::proofs::Parts::place_there))]
    fn place_length(&self, slot: u32) -> u32
        requires { HasPlace (M.picture self.now.memory).now slot }
        ensures { slice_get (last_frame (M.picture self.now.memory).now).kinds slot
            ≡ Some (SlotKind.Place result) }
    {
        match self.memory.top_kind(slot) {
            SlotKind::Place(length) => length,
            SlotKind::Number | SlotKind::Mark | SlotKind::Link(_) => unreachable!(),
        }
    }

    /// Puts the place of the slots of a frame from the first on into a place slot.
    #[inline(always)]
    #[tactic(auto, using(crate::proofs::Parts::put_place_is, crate::proofs::Parts::place_is_slot))]
    pub fn put_place(&mut self, to: u32, frame: u32, first: u32) -> Result<Step, NoMemory>
        requires { HasPlace (M.picture self.old.memory).now to }
        ensures { Acts M.picture self.old self.new result
            (put_place (state_of M.picture self.old) to frame (λ _. first)) }
    {
        let len = self.place_length(to);
        let place = CellPlace {
            frame,
            slot: first,
            len,
        };
        self.write(to, Cell::Place(place))
    }

    /// Puts the place that begins at a spot into a place slot, or ends the run in its fault.
    pub fn point(&mut self, to: u32, spot: Result<Spot, RunFault>) -> Result<Step, NoMemory>
        requires { HasPlace (M.picture self.old.memory).now to }
        ensures { Acts M.picture self.old self.new result
            (point_or_fault (state_of M.picture self.old) to spot) }
    {
        match spot {
            Ok(spot) => self.put_place(to, spot.frame, spot.slot),
            Err(fault) => Ok(self.end(End::Fault(fault))),
        }
    }

    /// Where the place in a slot begins.
    #[inline(always)]
    pub fn whole(&self, from: u32) -> Result<Spot, RunFault>
        requires { HasCells (M.picture self.now.memory).now from }
        ensures { (to : ℕ) (s : State) → s.now ≡ (M.picture self.now.memory).now
            → place s from (λ p. put_place s to p.frame (λ _. p.slot))
            ≡ point_or_fault s to result }
    {
        let place = self.place(from)?;
        Ok(Spot {
            frame: place.frame,
            slot: place.slot,
        })
    }

    /// Where the part of a place from one of its cells on begins.
    #[inline(always)]
    #[tactic(auto, using(crate::proofs::Parts::fits_word))]
    pub fn field(&self, from: u32, offset: u32) -> Result<Spot, RunFault>
        requires from { HasCells (M.picture self.now.memory).now from }
        requires inside { offset ≤ width (M.picture self.now.memory).now from }
        ensures { (to : ℕ) (s : State) → s.now ≡ (M.picture self.now.memory).now
            → place s from (λ p. put_place s to p.frame (λ _. p.slot + offset))
            ≡ point_or_fault s to result }
    {
        let place = self.place(from)?;
        Ok(Spot {
            frame: place.frame,
            slot: place.slot + offset,
        })
    }

    /// Where the part of a place begins that the number in a slot names, where the parts are those
    /// of a range.
    #[inline(always)]
    #[tactic(auto, using(crate::proofs::Parts::fits_word, crate::proofs::Parts::width_is))]
    pub fn part(&self, to: u32, from: u32, index: u32, range: &Range) -> Result<Spot, RunFault>
        requires to { HasPlace (M.picture self.now.memory).now to }
        requires from { HasCells (M.picture self.now.memory).now from }
        requires index { HasNumber (M.picture self.now.memory).now index }
        requires room { range_size range.now * width (M.picture self.now.memory).now to ≤ width
            (M.picture self.now.memory).now from }
        ensures { (s : State) → s.now ≡ (M.picture self.now.memory).now
            → place s from (λ p. number s index (λ v. range_check range.now fault.Index s v
            (λ _. put_place s to p.frame (λ l. p.slot + nat_abs (v -ℤ range.now.low) * l))))
            ≡ point_or_fault s to result }
    {
        let place = self.place(from)?;
        let number = self.number_within(index, range, RunFault::Index)?;
        let part = self.place_length(to);
        let before = cells_before(number, range, part);
        Ok(Spot {
            frame: place.frame,
            slot: place.slot + before,
        })
    }
}
