// The carry of an entry, which takes memory only once it gains something.
ghost use Rattle.std.specs.Prelude.{◌≡◌, [], length, is_ok, IfSome, IfNone, OnOk, if◌then◌else◌};
ghost use Rattle.alma_base.specs.Carry.{with_changes};
ghost use Rattle.alma_memory_store.specs.Carries.{IsRising, carry_of_entries};

use alma_base::NoMemory;
use alma_code::Cell;
use alma_memory_store::{Carry, SlotPlace};
use std::alloc::Global;
use std::marker::Model;

/// A carry that is made at its first gain.
#[derive(Drop)]
pub struct LateCarry {
    carry: Option<Box<Carry>>,
}

impl Model for LateCarry {
    ghost use Rattle.alma_base.specs.Carry.{Carry as CarryOf};
    ghost use Rattle.alma_code.specs.declared.cell.Cell.{Cell};
    ghost use Rattle.alma_memory.specs.Inner.Late.{carry_in};

    ghost Value = { CarryOf Cell };

    ghost view = { λ c. carry_in c.carry };
}

impl LateCarry {
    /// The empty carry.
    pub fn new() -> LateCarry
        ensures { result ≡ [] }
    {
        LateCarry { carry: None }
    }

    /// The carry, where it is made; else it is empty.
    pub fn get(&self) -> Option<&Carry>
        ensures carry { IfSome result (λ carry. carry.now ≡ self.now) }
        ensures empty { IfNone result (self.now ≡ []) }
    {
        match &self.carry {
            Some(carry) => Some(&**carry),
            None => None,
        }
    }

    /// How many slots have a cell in the carry; 0 where it is not made.
    pub fn len(&self) -> usize
        ensures { result ≡ length self.now }
    {
        match &self.carry {
            Some(carry) => carry.len(),
            None => 0,
        }
    }

    /// Sets the cells one after another, or none of them.
    pub fn set_all(&mut self, alloc: Global, changes: &[(SlotPlace, Cell)]) -> Result<(), NoMemory>
        ensures carry { self.new ≡ (if is_ok result then with_changes
            (carry_of_entries changes.now) self.old else self.old) }
        ensures rising { OnOk result (IsRising self.old) }
    {
        if let Some(carry) = &mut self.carry {
            let _ = carry.set_all(alloc, changes)?;
            return Ok(());
        }
        let mut carry = Carry::new(alloc);
        let _ = carry.set_all(alloc, changes)?;
        self.carry = Some(Box::new(alloc, carry)?);
        Ok(())
    }
}
