// What was written since the top copy: the number slots that differ.
ghost use Rattle.std.specs.Prelude.{◌≡◌, ℕ, ◌+◌, ◌-◌, ◌<◌, ◌≤◌, ◌++◌, length, take, Some, IfOk};
ghost use Rattle.std.specs.BTreeMap.{get};
ghost use Rattle.std.specs.Ordering.{nat_cmp};
ghost use Rattle.alma_code.specs.Carries.{diffs, diff_at, slot_diffs, same_cell};
ghost use Rattle.alma_memory_rewind.specs.PlainRewind.{first_or, top_copy};
ghost use Rattle.alma_memory_store.specs.Carries.{carry_of_entries};
ghost use Rattle.alma_memory_store.specs.Numbers.{number_of};
ghost use Rattle.alma_memory_store.specs.Past.{Gains, IsAt, IsKept, IsNone, IsReplaced, SameGain, change_between};
ghost use Rattle.alma_memory_store.specs.Regions.{AreLaid, frames_of};
ghost use Rattle.alma_memory_store.specs.PlainStore.{IsState};

use crate::carry::SlotPlace;
use crate::store::{Region, Slot, live_number, number_in, place_of};
use alma_base::NoMemory;
use alma_code::Cell;
use alma_memory_rewind::Rewind;
use std::alloc::Global;
use std::collections::BTreeMap;
use std::marker::Model;

/// The frames of now and those of the top copy, known by what stood where something was written
/// since.
#[derive(Drop)]
pub struct Past<'a> {
    slots: &'a Rewind<Slot>,
    regions: &'a Rewind<Region>,
    // How many regions are live now.
    live: usize,
    // Where something was written since, what stood there in the top copy.
    old_slots: BTreeMap<usize, Slot>,
    old_regions: BTreeMap<usize, Region>,
    // How many regions were live in the top copy.
    old_live: usize,
}

impl<'a> Model for Past<'a> {
    ghost use Rattle.std.specs.Prelude.{take};
    ghost use Rattle.alma_memory_rewind.specs.PlainRewind.{top_copy};
    ghost use Rattle.alma_memory_store.specs.Regions.{frames_of};
    ghost use Rattle.alma_memory_store.specs.Past.{PlainPast, IsPast};

    ghost Value = { PlainPast };

    ghost view = { λ p. record {
      now = frames_of p.slots.now.now (take p.live p.regions.now.now);
      regions = take p.live p.regions.now.now;
      before = frames_of (top_copy p.slots.now.held)
          (take p.old_live (top_copy p.regions.now.held));
      old_slots = p.old_slots.entries;
      old_regions = p.old_regions.entries;
    } };

    ghost invariant = { IsPast };
}

// The last live region that begins at or below a place, by halving. The contract alone needs the
// `limit` below which all live regions stand.
fn find(regions: &Rewind<Region>, live: usize, at: usize, limit: usize) -> usize
    requires some { 1 ≤ live }
    requires live { live ≤ length regions.now.now }
    requires laid { AreLaid 0 (take live regions.now.now) limit }
    ensures inside { result < live }
    ensures is { (f s : ℕ) → IsAt (take live regions.now.now) at f s → result ≡ f }
{
    let mut low = 0;
    let mut high = live;
    while high - low > 1 {
        let middle = low + (high - low) / 2;
        if regions.get(middle).base <= at {
            low = middle;
        } else {
            high = middle;
        }
    }
    low
}

// The item that stood there, or else the one of now.
fn old_or<T: Copy>(olds: &BTreeMap<usize, T>, at: usize, now: T) -> T
    ensures { Some result ≡ first_or (get nat_cmp olds.now at) (Some now) }
{
    match olds.get(&at) {
        Some(old) => *old,
        None => now,
    }
}

impl<'a> Past<'a> {
    /// What was written since the top copy.
    pub fn of(
        alloc: Global,
        slots: &'a Rewind<Slot>,
        regions: &'a Rewind<Region>,
        live: usize,
        old_live: usize,
    ) -> Result<Past<'a>, NoMemory>
        requires slots { 1 ≤ length slots.now.held }
        requires regions { 1 ≤ length regions.now.held }
        requires now { IsState slots.now.now regions.now.now live }
        requires before { IsState (top_copy slots.now.held) (top_copy regions.now.held) old_live }
        ensures now { IfOk result (λ past. past.now ≡ frames_of slots.now.now
            (take live regions.now.now)) }
        ensures before { IfOk result (λ past. past.before ≡ frames_of (top_copy slots.now.held)
            (take old_live (top_copy regions.now.held))) }
    {
        Ok(Past {
            slots,
            regions,
            live,
            old_slots: slots.olds(alloc)?,
            old_regions: regions.olds(alloc)?,
            old_live,
        })
    }

    // The cell of a place that is a live number slot.
    fn number(&self, place: SlotPlace) -> Option<Cell>
        ensures { result ≡ number_of self.now.now place.frame place.slot }
    {
        live_number(self.slots, self.regions, self.live, place)
    }

    // The cell of a place that was a live number slot in the top copy.
    fn old_number(&self, place: SlotPlace) -> Option<Cell>
        ensures { result ≡ number_of self.now.before place.frame place.slot }
    {
        let frame = place.frame as usize;
        if frame >= self.old_live {
            return None;
        }
        let region = old_or(&self.old_regions, frame, self.regions.get(frame));
        if place.slot >= region.slots {
            return None;
        }
        let at = place_of(region, place.slot as usize, self.slots.len());
        number_in(old_or(&self.old_slots, at, self.slots.get(at)))
    }

    // Adds the change at a place, where there is one.
    fn push_change(
        &self,
        found: &mut Vec<(SlotPlace, Cell)>,
        place: SlotPlace,
    ) -> Result<(), NoMemory>
        ensures { IfOk result (λ _. carry_of_entries found.new.items
            ≡ carry_of_entries found.old.items
            ++ diff_at self.now.before self.now.now place.frame place.slot) }
    {
        if let Some(cell) = changed_to(self.old_number(place), self.number(place)) {
            found.push((place, cell))?;
        }
        Ok(())
    }

    // Adds the changes in the first slots of a frame.
    fn push_slots(
        &self,
        found: &mut Vec<(SlotPlace, Cell)>,
        frame: u32,
        slots: u32,
    ) -> Result<(), NoMemory>
        ensures { IfOk result (λ _. carry_of_entries found.new.items
            ≡ carry_of_entries found.old.items
            ++ slot_diffs self.now.before self.now.now frame slots) }
    {
        for slot in 0..slots {
            self.push_change(found, SlotPlace { frame, slot })?;
        }
        Ok(())
    }

    // Adds the change at the slot that stands at a place, where there is one.
    fn push_at(&self, found: &mut Vec<(SlotPlace, Cell)>, at: usize) -> Result<(), NoMemory>
        ensures { IfOk result (λ _. Gains self.now.before self.now.now
            (IsAt self.now.regions at) IsNone
            (carry_of_entries found.old.items) (carry_of_entries found.new.items)) }
    {
        let frame = find(self.regions, self.live, at, self.slots.len());
        let region = self.regions.get(frame);
        if at < region.base {
            return Ok(());
        }
        let slot = at - region.base;
        if slot >= region.slots as usize {
            return Ok(());
        }
        self.push_change(
            found,
            SlotPlace {
                frame: frame as u32,
                slot: slot as u32,
            },
        )
    }

    // Adds the changes in a frame, where it is live.
    fn push_frame(&self, found: &mut Vec<(SlotPlace, Cell)>, frame: usize) -> Result<(), NoMemory>
        ensures { IfOk result (λ _. Gains self.now.before self.now.now
            (λ f s. f ≡ frame) IsNone
            (carry_of_entries found.old.items) (carry_of_entries found.new.items)) }
    {
        if frame >= self.live {
            return Ok(());
        }
        let region = self.regions.get(frame);
        self.push_slots(found, frame as u32, region.slots)
    }

    // Adds the changes at the slots that were written.
    fn push_written(&self, found: &mut Vec<(SlotPlace, Cell)>) -> Result<(), NoMemory>
        ensures { IfOk result (λ _. Gains self.now.before self.now.now
            (IsKept self.now.regions self.now.old_slots) IsNone
            (carry_of_entries found.old.items) (carry_of_entries found.new.items)) }
    {
        for (at, _) in &self.old_slots {
            self.push_at(found, *at)?;
        }
        Ok(())
    }

    // Adds the changes in the frames whose regions were replaced.
    fn push_replaced(&self, found: &mut Vec<(SlotPlace, Cell)>) -> Result<(), NoMemory>
        ensures { IfOk result (λ _. Gains self.now.before self.now.now
            (IsReplaced self.now.old_regions) IsNone
            (carry_of_entries found.old.items) (carry_of_entries found.new.items)) }
    {
        for (frame, _) in &self.old_regions {
            self.push_frame(found, *frame)?;
        }
        Ok(())
    }

    /// The number slots that are live in both and differ, with their cells of now. It looks only at
    /// what was written.
    pub fn changes(&self, alloc: Global) -> Result<Vec<(SlotPlace, Cell)>, NoMemory>
        ensures { IfOk result (λ found. SameGain (carry_of_entries found.items)
            (diffs self.now.before self.now.now)) }
    {
        // Opens the value: its invariant says that the fields speak of the top copy.
        let _ = &self.live;
        let mut found = Vec::new(alloc);
        self.push_written(&mut found)?;
        self.push_replaced(&mut found)?;
        Ok(found)
    }
}

// Whether two cells are equal.
fn is_same_cell(a: Cell, b: Cell) -> bool
    ensures { result ≡ same_cell a b }
{
    a == b
}

/// What a number slot changed to.
pub fn changed_to(before: Option<Cell>, now: Option<Cell>) -> Option<Cell>
    ensures { result ≡ change_between before now }
{
    match (before, now) {
        (Some(old), Some(new)) if !is_same_cell(old, new) => Some(new),
        _ => None,
    }
}
