// The names of one block, and what each stands for.
ghost use Rattle.std.specs.Prelude.{◌≡◌, ◌^◌, ◌<◌, List, [], ◌∷◌, ◌++◌, Option, None, Some, length, slice_get, IfSome, IfOk, OnErr, OnOk};
ghost use Rattle.alma_names.specs.Blocks.{DeclaredName, block_of, predeclared, place, seen, entry_in};

use crate::shapes::{BOOLEAN, CHAR, INTEGER, ShapeId};
use alma_base::NoMemory;
use indexmap::IndexMap;
use std::alloc::Global;
use std::marker::Model;

/// How a variable is reached, by the number of its slot.
#[derive(Clone, Copy, Debug, PartialEq, Eq)]
pub enum Access {
    Local(u32),
    Global(u32),
    Param(u32),
}

/// What a name stands for.
#[derive(Clone, Copy, Debug, PartialEq, Eq)]
pub enum Entry {
    /// A constant: its shape and its value.
    Constant(ShapeId, i64),
    /// A type.
    Named(ShapeId),
    /// A variable: its shape, and how it is reached.
    Variable(ShapeId, Access),
    /// A procedure, by its number.
    Routine(u32),
    /// A name whose declaration breaks a rule, or uses a name that stands for `Bad`.
    Bad,
}

/// What a name stands for, and the token from which on it is visible.
#[derive(Clone, Copy)]
pub struct Declaration {
    pub from: u32,
    pub entry: Entry,
}

/// The names of one block, in order of declaration.
#[derive(Drop)]
pub struct Block {
    names: IndexMap<Vec<u8>, Declaration>,
}

impl Model for Block {
    ghost Value = { List DeclaredName };

    ghost view = { λ b. block_of b.names };
}

impl Block {
    /// A block with no names.
    pub fn new(alloc: Global) -> Block
        ensures { result ≡ [] }
    {
        Block {
            names: IndexMap::new(alloc),
        }
    }

    /// The block of the names that are declared outside each module.
    pub fn predeclared(alloc: Global) -> Result<Block, NoMemory>
        ensures { IfOk result (λ block. block ≡ predeclared) }
    {
        let mut block = Block::new(alloc);
        block.add(alloc, b"INTEGER", 0, Entry::Named(ShapeId(INTEGER)))?;
        block.add(alloc, b"CHAR", 0, Entry::Named(ShapeId(CHAR)))?;
        block.add(alloc, b"BOOLEAN", 0, Entry::Named(ShapeId(BOOLEAN)))?;
        block.add(alloc, b"TRUE", 0, Entry::Constant(ShapeId(BOOLEAN), 1))?;
        block.add(alloc, b"FALSE", 0, Entry::Constant(ShapeId(BOOLEAN), 0))?;
        Ok(block)
    }

    /// The number of names.
    pub fn len(&self) -> usize
        ensures len { result ≡ length self.now }
        ensures small { result < 2 ^ 63 }
    {
        self.names.len()
    }

    /// The place of a name.
    pub fn place(&self, name: &[u8]) -> Option<usize>
        ensures place { result ≡ place name.now self.now }
        ensures within { IfSome result (λ i. i < length self.now) }
    {
        self.names.get_index_of(name)
    }

    /// The place of a name, where it is visible at the token.
    pub fn seen(&self, name: &[u8], at: u32) -> Option<usize>
        ensures seen { result ≡ seen name.now at self.now }
        ensures within { IfSome result (λ i. i < length self.now) }
    {
        match self.names.get_full(name) {
            Some((i, _name, declaration)) => {
                if declaration.from <= at {
                    Some(i)
                } else {
                    None
                }
            }
            None => None,
        }
    }

    /// What the name at a place stands for.
    pub fn entry(&self, place: usize) -> Entry
        requires { place < length self.now }
        ensures { result ≡ entry_in (slice_get self.now place) }
    {
        self.names[place].entry
    }

    /// Declares a name that the block does not have.
    pub fn add(
        &mut self,
        alloc: Global,
        name: &[u8],
        from: u32,
        entry: Entry,
    ) -> Result<(), NoMemory>
        requires { place name.now self.old ≡ None }
        ensures ok { OnOk result (self.new ≡ self.old ++ record
            { name = name.now; from = from; entry = entry } ∷ []) }
        ensures err { OnErr result (self.new ≡ self.old) }
    {
        let key = name.to_vec(alloc)?;
        self.names.insert(key, Declaration { from, entry })?;
        Ok(())
    }
}
