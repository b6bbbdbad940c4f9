// The frame of a routine, as far as its declarations are read.
ghost use Rattle.std.specs.Prelude.{◌≡◌, ◌+◌, List, nat_le};
ghost use Rattle.alma_base.specs.Limits.{cell_limit};
ghost use Rattle.alma_rules.specs.Judgement.{BrokenRule as RuleBroken};
ghost use Rattle.alma_rules.specs.Scene.{Scene};
ghost use Rattle.alma_rules.specs.Answers.{first};
ghost use Rattle.alma_rules.specs.Decls as rules;
ghost use Rattle.alma_rules.specs.View.{view_name};
ghost use Rattle.alma_check_type.specs.Told.{fault_of};
ghost use Rattle.alma_check_block.specs.Shown.{frame_with_scene, told_frame};

use alma_base::{CELL_LIMIT, CheckFault};
use alma_check_rules::Formal;
use alma_check_type::{BrokenRule, earlier};
use alma_ir::Param;
use alma_tree::Name;
use std::alloc::Global;

/// What the declarations of a block leave beside its scene.
#[derive(Drop)]
pub struct Frame {
    /// The first broken rule.
    pub fault: Option<BrokenRule>,
    /// The next free slot.
    pub slots: u32,
    /// The declared cells so far.
    pub declared: u32,
    pub params: Vec<Param>,
    /// The formals, each None where its type is Bad.
    pub formals: Vec<Option<Formal>>,
    pub variables: Vec<alma_ir::Global>,
}

/// The frame before any declaration, whose first free slot is this.
pub fn new_frame(alloc: Global, slots: u32) -> Frame
    ensures { (s : Scene) → frame_with_scene s result ≡ told_frame (rules.new_frame s slots) }
{
    Frame {
        fault: None,
        slots,
        declared: 0,
        params: Vec::new(alloc),
        formals: Vec::new(alloc),
        variables: Vec::new(alloc),
    }
}

impl Frame {
    /// Notes a broken rule behind those so far.
    pub fn add_fault(&mut self, fault: Option<BrokenRule>)
        ensures { (s : Scene) (f : rules.Frame) (faults : List RuleBroken)
            → frame_with_scene s self.old ≡ told_frame f → fault_of fault ≡ first faults
            → frame_with_scene s self.new ≡ told_frame (rules.with_faults f faults) }
    {
        self.fault = earlier(self.fault, fault);
    }

    /// Whether the declared cells are within the limit with so many more.
    pub fn fits(&self, cells: u32) -> bool
        ensures { result ≡ nat_le (self.now.declared + cells) cell_limit }
    {
        self.declared.saturating_add(cells) <= CELL_LIMIT
    }

    /// Notes that a name does not fit; the scene is the one behind it.
    pub fn refuse(&mut self, name: &Name)
        ensures { (s t : Scene) (f : rules.Frame) → frame_with_scene s self.old ≡ told_frame f
            → frame_with_scene t self.new ≡ told_frame (rules.too_large f (view_name name.now) t) }
    {
        self.add_fault(Some(BrokenRule {
            node: name.node,
            fault: CheckFault::TooLarge,
        }));
    }
}
