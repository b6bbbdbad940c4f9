// Blocks that begin and end.
ghost use Rattle.std.specs.Prelude.{◌≡◌, ◌-◌, ◌<◌, IfOk, OnOk, length, option_map, set, None};
ghost use Rattle.alma_names.specs.Scopes.{without_top_block};
ghost use Rattle.alma_rules.specs.Decls.{with_text};
ghost use Rattle.alma_check_rules.specs.Views.{declares_view, heading_view, headings_view, returns_view};
ghost use Rattle.alma_check_type.specs.Around.{Outer, outer_of, enter_block, leave_block, clear};

use crate::reader::Reader;
use alma_base::NoMemory;
use alma_check_rules::{Heading, Returns};
use indexmap::IndexMap;
use std::alloc::Global;
use std::marker::Model;

/// What the block round a new one has, to be given back at the end of that: the names that it
/// declares, its routine, and what RETURN gives there.
#[derive(Drop)]
pub struct Around {
    declares: IndexMap<Vec<u8>, u32>,
    routine: u32,
    returns: Returns,
}

impl Model for Around {
    ghost Value = { Outer };

    ghost view = { λ a. record {
      declares = declares_view a.declares;
      routine = a.routine;
      returns = returns_view a.returns;
    } };
}

// A heading in the place of that of a routine, where there is a routine of this number.
fn put_heading(headings: &mut Vec<Option<Heading>>, routine: u32, heading: Option<Heading>)
    ensures { headings_view headings.new.items ≡ set (headings_view headings.old.items)
        routine (option_map heading_view heading) }
{
    if (routine as usize) < headings.len() {
        headings[routine as usize] = heading;
    }
}

impl<'e, 's> Reader<'e, 's> {
    /// Begins a block of a routine, with the names that it declares.
    pub fn enter(
        &mut self,
        alloc: Global,
        declares: IndexMap<Vec<u8>, u32>,
        routine: u32,
    ) -> Result<Around, NoMemory>
        ensures scene { OnOk result (self.new ≡ enter_block
            self.old (declares_view declares) routine) }
        ensures around { IfOk result (λ around. around ≡ outer_of self.old) }
    {
        self.below.reserve(1)?;
        self.env.scopes.push_block(alloc)?;
        self.below.push(self.top)?;
        self.top = 0;
        Ok(Around {
            declares: std::mem::replace(&mut self.env.declares, declares),
            routine: std::mem::replace(&mut self.env.routine, routine),
            returns: std::mem::replace(&mut self.env.returns, Returns::Nothing),
        })
    }

    // Forgets the names of the top block.
    fn close(&mut self)
        requires { 0 < length self.old.blocks.below }
        ensures { self.new ≡ record self.old { blocks = without_top_block self.old.blocks } }
    {
        let Some(count) = self.below.pop() else {
            return;
        };
        self.env.scopes.pop_block();
        self.all -= self.top;
        self.top = count;
    }

    /// Ends a block, behind which that round it goes on.
    pub fn leave(&mut self, around: Around)
        requires { 0 < length self.old.blocks.below }
        ensures { self.new ≡ leave_block self.old around }
    {
        self.close();
        self.env.declares = around.declares;
        self.env.routine = around.routine;
        self.env.returns = around.returns;
    }

    /// Says what RETURN gives.
    pub fn set_returns(&mut self, returns: Returns)
        ensures { self.new ≡ record self.old { returns = returns_view returns } }
    {
        self.env.returns = returns;
    }

    /// Notes the heading of a routine, where there is a routine of this number.
    pub fn set_heading(&mut self, routine: u32, heading: Option<Heading>)
        ensures { self.new ≡ record self.old {
          headings = set
              self.old.headings routine (option_map heading_view heading);
        } }
    {
        put_heading(&mut self.env.headings, routine, heading);
    }

    /// Forgets the headings of the routines from one number up to another.
    pub fn clear_headings(&mut self, first: u32, end: u32)
        ensures { self.new ≡ record self.old {
          headings = clear first (end - first)
              self.old.headings;
        } }
    {
        for routine in first..end {
            self.set_heading(routine, None);
        }
    }
}

/// Adds a name to those of a block with the token of its declaration, where none of them has its
/// text.
pub fn with_name(
    alloc: Global,
    names: &mut IndexMap<Vec<u8>, u32>,
    text: &[u8],
    token: u32,
) -> Result<(), NoMemory>
    ensures { OnOk result (declares_view names.new ≡ with_text (declares_view names.old)
        text.now token) }
{
    if names.contains_key(text) {
        return Ok(());
    }
    let name = text.to_vec(alloc)?;
    names.insert(name, token)?;
    Ok(())
}
