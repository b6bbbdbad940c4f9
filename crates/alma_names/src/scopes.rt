// A stack of blocks.
#![tactic(auto, using(crate::proofs::Stacks::entries_push, std::proofs::lemmas::Grind::common_steps))]

ghost use Rattle.std.specs.Prelude.{◌≡◌, ◌+◌, ◌-◌, ◌^◌, ◌<◌, ◌≤◌, Option, None, Some, length, option_map, IfSome, IfOk, OnErr, OnOk};
ghost use Rattle.alma_names.specs.Scopes.{Blocks, first_blocks, entries_of, entry_count, visible, entry_at, with_new_block, without_top_block, with_declared, number_in_top_block, level_of, RefusesTwice};

use crate::block::{Block, Entry};
use alma_base::NoMemory;
use std::alloc::Global;
use std::marker::Model;

/// The number of an entry, counted over all blocks that stand, the lowest first.
#[derive(Clone, Copy, Debug, PartialEq, Eq)]
pub struct Id(pub u32);

/// Why a name was not declared.
#[derive(Clone, Copy, Debug, PartialEq, Eq)]
pub enum DeclareError {
    /// The top block has the name, with this entry.
    Twice(Id),
    Memory,
}

/// A stack of blocks. The lowest has the names that are declared outside each module.
#[derive(Drop)]
pub struct Scopes {
    below: Vec<Block>,
    top: Block,
    // The number of entries of the blocks below the top.
    count: usize,
}

impl Model for Scopes {
    ghost Value = { Blocks };

    ghost view = { λ s. record { below = s.below.items; top = s.top } };

    ghost invariant = { λ s. (s.count ≡ entries_of s.below.items)
        × (s.count + length s.top ≤ 2 ^ 32) };
}

impl Scopes {
    /// The lowest block alone.
    pub fn new(alloc: Global) -> Result<Scopes, NoMemory>
        ensures { IfOk result (λ scopes. scopes ≡ first_blocks) }
    {
        let top = Block::predeclared(alloc)?;
        Ok(Scopes {
            below: Vec::new(alloc),
            top,
            count: 0,
        })
    }

    /// Opens a block.
    pub fn push_block(&mut self, alloc: Global) -> Result<(), NoMemory>
        ensures ok { OnOk result (self.new ≡ with_new_block self.old) }
        ensures err { OnErr result (self.new ≡ self.old) }
    {
        self.below.reserve(1)?;
        let top = std::mem::replace(&mut self.top, Block::new(alloc));
        self.count += top.len();
        self.below.push(top)?;
        Ok(())
    }

    /// Closes the top block.
    pub fn pop_block(&mut self)
        requires { 0 < length self.old.below }
        ensures { self.new ≡ without_top_block self.old }
    {
        if let Some(block) = self.below.pop() {
            self.count -= block.len();
            self.top = block;
        }
    }

    /// Declares a name in the top block, visible from the token `from` on.
    pub fn declare(
        &mut self,
        alloc: Global,
        name: &[u8],
        from: u32,
        entry: Entry,
    ) -> Result<Id, DeclareError>
        requires { entry_count self.old < 2 ^ 32 }

        ensures id { IfOk result (λ id. id.0 ≡ entry_count self.old) }
        ensures ok { OnOk result (self.new ≡ with_declared self.old
            (record { name = name.now; from = from; entry = entry })) }

        ensures twice { RefusesTwice (number_in_top_block name.now self.old) result }
        ensures err { OnErr result (self.new ≡ self.old) }
    {
        if let Some(i) = self.top.place(name) {
            return Err(DeclareError::Twice(Id((self.count + i) as u32)));
        }
        let id = Id((self.count + self.top.len()) as u32);
        match self.top.add(alloc, name, from, entry) {
            Ok(()) => Ok(id),
            Err(_error) => Err(DeclareError::Memory),
        }
    }

    /// The entry of the highest block in which the name is visible at the token `at`.
    pub fn find(&self, name: &[u8], at: u32) -> Option<Id>
        ensures found { option_map (λ id. id.0) result ≡ visible name.now at self.now }
        ensures within { IfSome result (λ id. id.0 < entry_count self.now) }
    {
        if let Some(i) = self.top.seen(name, at) {
            return Some(Id((self.count + i) as u32));
        }
        let mut found: Option<Id> = None;
        let mut start: usize = 0;
        for block in &self.below {
            if let Some(i) = block.seen(name, at) {
                found = Some(Id((start + i) as u32));
            }
            start += block.len();
        }
        found
    }

    /// The number of blocks below the top one.
    pub fn depth(&self) -> usize
        ensures { result ≡ length self.now.below }
    {
        self.below.len()
    }

    /// The number of the block in which an entry stands, 0 for the lowest.
    pub fn level(&self, id: Id) -> usize
        ensures { result ≡ level_of id.0 self.now }
    {
        let mut left = id.0 as usize;
        let mut level: usize = 0;
        for block in &self.below {
            if left < block.len() {
                return level;
            }
            left -= block.len();
            level += 1;
        }
        level
    }

    /// What an entry of a block that still stands is.
    pub fn entry(&self, id: Id) -> Entry
        requires { id.0 < entry_count self.now }
        ensures { result ≡ entry_at id.0 self.now }
    {
        let mut left = id.0 as usize;
        if left >= self.count {
            return self.top.entry(left - self.count);
        }
        for block in &self.below {
            if left < block.len() {
                return block.entry(left);
            }
            left -= block.len();
        }
        Entry::Bad
    }
}
