// Names in use.
ghost use Rattle.std.specs.Prelude.{◌≡◌, option_map, IfOk};
ghost use Rattle.alma_rules.specs.View.{view_name};
ghost use Rattle.alma_rules.specs.Scene.{root_from, found_as, found};
ghost use Rattle.alma_rules.specs.Parts.{denotation};
ghost use Rattle.alma_check_rules.specs.Views.{scene_of, found_view, headings_in, denoted_of, somewhere};

use crate::env::{Env, Found};
use crate::part::{Denotation, Location};
use alma_ir::Root;
use alma_names::{Access, Entry};
use alma_tree::Name;
use std::alloc::{AllocError, Global};

// A number in 32 bits. No source that has been scanned nests deeper.
fn narrow(number: usize) -> Result<u32, AllocError>
    ensures { IfOk result (λ n. n ≡ number) }
{
    match u32::try_from(number) {
        Ok(number) => Ok(number),
        Err(_error) => Err(AllocError),
    }
}

// Where a variable of level `block` stands, seen from level `level`.
fn root(level: usize, block: usize, access: Access) -> Result<Root, AllocError>
    ensures { IfOk result (λ r. r ≡ root_from level block access) }
{
    match access {
        Access::Local(slot) => {
            if block == level {
                return Ok(Root::Local(slot));
            }
            Ok(Root::Outer(narrow(level.saturating_sub(block))?, slot))
        }
        Access::Global(slot) => {
            if level == 0 {
                return Ok(Root::Local(slot));
            }
            Ok(Root::Global(slot))
        }
        Access::Param(slot) => {
            if block == level {
                return Ok(Root::Param(slot));
            }
            Ok(Root::OuterParam(narrow(level.saturating_sub(block))?, slot))
        }
    }
}

impl<'e, 's> Env<'e, 's> {
    // What an entry is, whose block has this number.
    fn found_as(&self, block: usize, entry: Entry) -> Result<Found, AllocError>
        ensures { IfOk result (λ f. found_view (headings_in self.now) f ≡ found_as
            (scene_of self.now somewhere) block entry) }
    {
        let level = self.scopes.depth().saturating_sub(1);
        match entry {
            Entry::Constant(shape, value) => Ok(Found::Constant(shape.0, value)),
            Entry::Named(shape) => Ok(Found::Named(shape.0)),
            Entry::Variable(shape, access) => Ok(Found::Variable(
                shape.0,
                root(level, block.saturating_sub(1), access)?,
            )),
            Entry::Routine(routine) => Ok(Found::Routine(
                routine,
                narrow((level + 1).saturating_sub(block))?,
            )),
            Entry::Bad => Ok(Found::Bad),
        }
    }

    /// What a name in use stands for: the declaration that is visible at its token.
    pub fn found(&self, name: &Name) -> Result<Found, AllocError>
        ensures { IfOk result (λ f. found_view (headings_in self.now) f ≡ found
            (scene_of self.now somewhere) (view_name name.now)) }
    {
        match self.scopes.find(self.text(name.token), name.token) {
            None => Ok(Found::Absent),
            Some(id) => self.found_as(self.scopes.level(id), self.scopes.entry(id)),
        }
    }

    /// What a designator of a bare name denotes.
    pub fn denoted(&self, alloc: Global, found: Found) -> Option<Denotation>
        ensures { option_map (denoted_of (headings_in self.now)) result
            ≡ denotation (scene_of self.now somewhere) (found_view (headings_in self.now) found) }
    {
        match found {
            Found::Absent | Found::Bad | Found::Named(_) => None,
            Found::Constant(shape, value) => Some(Denotation::Constant(shape, value)),
            Found::Variable(shape, root) => Some(Denotation::Variable(Location {
                shape,
                root,
                cells: self.cells(shape),
                sels: Vec::new(alloc),
            })),
            Found::Routine(routine, up) => match self.heading(routine) {
                None => None,
                Some(_heading) => Some(Denotation::Routine(routine, up)),
            },
        }
    }
}
