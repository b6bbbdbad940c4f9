// The carry of a FORALL: a finite map from slots to cells.
ghost use Rattle.std.specs.Prelude.{◌≡◌, ◌≤◌, [], length, take, is_ok, IsOk, IfOk, OnOk, if◌then◌else◌, vec_len, vec_capacity};
ghost use Rattle.alma_base.specs.Carry.{carried_at, with_change, with_changes};
ghost use Rattle.alma_memory_store.specs.Carries.{IsRising, change_of, cells_before_setting, carry_of_entries, put_back, all_put_back};

use alma_base::NoMemory;
use alma_code::Cell;
use std::alloc::Global;
use std::collections::BTreeMap;
use std::marker::Model;

/// A slot of a frame. Slots are in order by their frames, and in a frame by their numbers.
#[derive(Clone, Copy, PartialEq, Eq, PartialOrd, Ord)]
pub struct SlotPlace {
    pub frame: u32,
    pub slot: u32,
}

/// Cells for slots, one for each, in the order of the slots.
#[derive(Drop)]
pub struct Carry {
    pub cells: BTreeMap<SlotPlace, Cell>,
}

impl Model for Carry {
    ghost use Rattle.alma_base.specs.Carry.{Carry as CarryOf};
    ghost use Rattle.alma_code.specs.declared.cell.Cell.{Cell};
    ghost use Rattle.alma_memory_store.specs.Carries.{carry_of_entries};

    ghost Value = { CarryOf Cell };

    ghost use Rattle.alma_memory_store.specs.Carries.{IsRising};

    ghost view = { λ c. carry_of_entries c.cells.entries };

    ghost invariant = { λ c. IsRising (carry_of_entries c.cells.entries) };
}

impl Carry {
    /// The empty carry, which takes no memory.
    pub fn new(alloc: Global) -> Carry
        ensures { result ≡ [] }
    {
        Carry {
            cells: BTreeMap::new(alloc),
        }
    }

    /// How many slots have a cell in the carry.
    pub fn len(&self) -> usize
        ensures { result ≡ length self.now }
    {
        self.cells.len()
    }

    /// The cell that the carry has for a slot. None where it has none, which is not an unknown
    /// cell.
    pub fn get(&self, place: SlotPlace) -> Option<Cell>
        ensures { result ≡ carried_at place.frame place.slot self.now }
    {
        self.cells.get(&place).copied()
    }

    /// Sets the cell of a slot, and answers what the carry had for it.
    pub fn set(&mut self, place: SlotPlace, cell: Cell) -> Result<Option<Cell>, NoMemory>
        ensures carry { self.new ≡ (if is_ok result then with_change
            (change_of place cell) self.old else self.old) }
        ensures had { IfOk result (λ had. had ≡ carried_at place.frame place.slot self.old) }
    {
        Ok(self.cells.insert(place, cell)?)
    }

    // Gives a slot back what the carry had for it.
    fn put_back(&mut self, place: SlotPlace, had: Option<Cell>)
        ensures { self.new ≡ put_back place had self.old }
    {
        match had {
            Some(old) => {
                if let Some(cell) = self.cells.get_mut(&place) {
                    *cell = old;
                }
            }
            None => {
                let _ = self.cells.remove(&place);
            }
        }
    }

    /// Gives each of the first slots back what the carry had for it, the last of them first.
    pub fn put_all_back(&mut self, changes: &[(SlotPlace, Cell)], mut had: Vec<Option<Cell>>)
        requires { vec_len had ≤ length changes.now }
        ensures { self.new ≡ all_put_back changes.now had.items self.old }
    {
        while let Some(cell) = had.pop() {
            let place = changes[had.len()].0;
            self.put_back(place, cell);
        }
    }

    // Sets the cells one after another, as long as there is memory, and notes what the carry had
    // for them.
    fn set_each(
        &mut self,
        changes: &[(SlotPlace, Cell)],
        had: &mut Vec<Option<Cell>>,
    ) -> Result<(), NoMemory>
        requires empty { had.old.items ≡ [] }
        requires room { length changes.now ≤ vec_capacity had.old }
        ensures carry { self.new ≡ with_changes
            (carry_of_entries (take (vec_len had.new) changes.now))
            self.old }
        ensures had { had.new.items ≡ cells_before_setting
            (take (vec_len had.new) changes.now) self.old }
        ensures some { vec_len had.new ≤ length changes.now }
        ensures all { IsOk result → vec_len had.new ≡ length changes.now }
        ensures rising { IsRising self.old }
    {
        // Opens the carry: its invariant is that its slots rise.
        let _ = &self.cells;
        for (place, cell) in changes {
            let old = self.set(*place, *cell)?;
            match had.push(old) {
                Ok(()) => (),
                Err(_) => unreachable!(),
            }
        }
        Ok(())
    }

    /// Sets the cells one after another, or none of them, and answers what the carry had for each
    /// before.
    pub fn set_all(
        &mut self,
        alloc: Global,
        changes: &[(SlotPlace, Cell)],
    ) -> Result<Vec<Option<Cell>>, NoMemory>
        ensures carry { self.new ≡ (if is_ok result then with_changes
            (carry_of_entries changes.now) self.old else self.old) }
        ensures had { IfOk result (λ had. had.items
            ≡ cells_before_setting changes.now self.old) }
        ensures rising { OnOk result (IsRising self.old) }
    {
        let mut had = Vec::with_capacity(alloc, changes.len())?;
        match self.set_each(changes, &mut had) {
            Ok(()) => Ok(had),
            Err(error) => {
                self.put_all_back(changes, had);
                Err(error)
            }
        }
    }

    /// The cells with their places, in order.
    pub fn listed(&self, alloc: Global) -> Result<Vec<(SlotPlace, Cell)>, NoMemory>
        ensures { IfOk result (λ found. carry_of_entries found.items ≡ self.now) }
    {
        let mut found = Vec::with_capacity(alloc, self.cells.len())?;
        for (place, cell) in &self.cells {
            found.push((*place, *cell))?;
        }
        Ok(found)
    }
}
