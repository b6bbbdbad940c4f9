// Where a phrase stands.
ghost use Rattle.std.specs.Prelude.{◌≡◌, ◌+◌, ◌≤◌, IfOk};
ghost use Rattle.alma_ir.specs.Tree.{routine_at};
ghost use Rattle.alma_ir.specs.Checked.{outer_at};
ghost use Rattle.alma_lower_templates.specs.Slots.{shift_of};
ghost use Rattle.alma_lower_templates.specs.Templates.{own_slot};
ghost use Rattle.alma_lower_templates.specs.Tables.{range_number, text_number};
ghost use Rattle.alma_lower_work.specs.Front.{around};

use alma_base::{NoMemory, Range};
use alma_ir::Program;
use alma_lower_tables::{LINK_LEVEL, Numbers};

/// The program, the numbers of its ranges and texts, and the routine that a phrase is of.
#[derive(Clone, Copy)]
pub struct Scene<'p> {
    pub program: &'p Program,
    pub numbers: &'p Numbers,
    pub routine: u32,
}

impl<'p> Scene<'p> {
    /// How many slots stand before the own slots of a routine: 1 for its link, where it has one.
    #[tactic(auto, unfolding(crate::specs::Front::around))]
    pub fn shift(&self, routine: u32) -> u32
        ensures shift { result ≡ shift_of (around self.now).program routine }
        ensures small { result ≤ 1 }
    {
        if self.level(routine) >= LINK_LEVEL {
            1
        } else {
            0
        }
    }

    // The level of a routine, and 0 where there is none.
    #[tactic(auto, unfolding(crate::specs::Front::around))]
    fn level(&self, routine: u32) -> u32
        ensures { result ≡ (routine_at (around self.now).program routine).level }
    {
        match self.program.routines.get(routine as usize) {
            Some(routine) => routine.level,
            None => 0,
        }
    }

    /// The routine round a routine, and 0 where there is none.
    #[tactic(auto, unfolding(crate::specs::Front::around))]
    pub fn outer(&self, routine: u32) -> u32
        ensures { result ≡ (routine_at (around self.now).program routine).outer }
    {
        match self.program.routines.get(routine as usize) {
            Some(routine) => routine.outer,
            None => 0,
        }
    }

    /// The routine to which so many links lead.
    pub fn outermost(&self, links: u32) -> u32
        ensures { result ≡ outer_at (around self.now).program (around self.now).routine links }
    {
        let mut routine = self.routine;
        for _ in 0..links {
            routine = self.outer(routine);
        }
        routine
    }

    /// The range of the routine's result.
    #[tactic(auto, unfolding(crate::specs::Front::around))]
    pub fn result(&self) -> Option<Range>
        ensures { result ≡ (routine_at (around self.now).program (around self.now).routine).result }
    {
        match self.program.routines.get(self.routine as usize) {
            Some(routine) => routine.result,
            None => None,
        }
    }

    /// The slot of the code for a slot of a routine. Past 32 bits this is NoMemory.
    #[tactic(auto, unfolding(crate::specs::Front::around))]
    pub fn slot_in(&self, routine: u32, from: u32) -> Result<u32, NoMemory>
        ensures { IfOk result (λ slot. slot ≡ shift_of (around self.now).program routine + from) }
    {
        self.shift(routine).checked_add(from).ok_or(NoMemory)
    }

    /// The slot of the code for a slot of this routine.
    #[tactic(auto, unfolding(crate::specs::Front::around))]
    pub fn own_slot(&self, from: u32) -> Result<u32, NoMemory>
        ensures { IfOk result (λ slot. slot ≡ own_slot (around self.now).program
            (around self.now).tables (around self.now).routine from) }
    {
        self.slot_in(self.routine, from)
    }

    /// The number of a range.
    #[tactic(auto, unfolding(crate::specs::Front::around))]
    pub fn range_number(&self, range: Range) -> Result<u32, NoMemory>
        ensures { IfOk result (λ n. n ≡ range_number (around self.now).tables range) }
    {
        self.numbers.range_number(range)
    }

    /// The number of a text.
    #[tactic(auto, unfolding(crate::specs::Front::around))]
    pub fn text_number(&self, text: &[u8]) -> Result<u32, NoMemory>
        ensures { IfOk result (λ n. n ≡ text_number (around self.now).tables text.now) }
    {
        self.numbers.text_number(text)
    }
}
