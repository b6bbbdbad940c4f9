// How far a module is checked.
ghost use Rattle.std.specs.Prelude.{◌≡◌, [], Some, None, OnOk};
ghost use Rattle.alma_rules.specs.Judgement as judged;
ghost use Rattle.alma_rules.specs.Scene.{Scene};
ghost use Rattle.alma_check_type.specs.Told.{broken_of, fault_of};
ghost use Rattle.alma_check_stmt.specs.Inner.Gathered.{stage, with_fault, next_routine};
ghost use Rattle.alma_check_stmt.specs.Inner.Shown.{stand};

use alma_base::{CheckFault, NoMemory};
use alma_check_type::BrokenRule;
use alma_ir::Routine;
use std::alloc::Global;

/// The least broken rule so far, the routines, whether one of them is Bad, and the number of the
/// next one.
#[derive(Drop)]
pub struct Checked {
    pub fault: Option<BrokenRule>,
    pub routines: Vec<Routine>,
    pub is_bad: bool,
    pub next: u32,
}

// The place of a fault in the order of CheckFault.
fn rank(fault: CheckFault) -> u32
    ensures { result ≡ judged.rank fault }
{
    match fault {
        CheckFault::Undeclared => 0,
        CheckFault::Redeclared => 1,
        CheckFault::NameMismatch => 2,
        CheckFault::NotType => 3,
        CheckFault::NotConst => 4,
        CheckFault::NotVariable => 5,
        CheckFault::NotProcedure => 6,
        CheckFault::NotTest => 7,
        CheckFault::TypeMismatch => 8,
        CheckFault::ArgCount => 9,
        CheckFault::NotDesignator => 10,
        CheckFault::ModeType => 11,
        CheckFault::IndexType => 12,
        CheckFault::NotArray => 13,
        CheckFault::NotRecord => 14,
        CheckFault::NoField => 15,
        CheckFault::ConstRange => 16,
        CheckFault::LabelTwice => 17,
        CheckFault::ReturnForm => 18,
        CheckFault::JumpOut => 19,
        CheckFault::NestedProcedure => 20,
        CheckFault::BadWrite => 21,
        CheckFault::BadRead => 22,
        CheckFault::TooLarge => 23,
    }
}

// Whether a broken rule stands before another.
fn is_before(first: BrokenRule, second: BrokenRule) -> bool
    ensures { result ≡ judged.is_before (broken_of first) (broken_of second) }
{
    first.node < second.node || first.node == second.node && rank(first.fault) < rank(second.fault)
}

// The lesser of two broken rules.
fn better(first: Option<BrokenRule>, second: Option<BrokenRule>) -> Option<BrokenRule>
    ensures { fault_of result ≡ judged.better (fault_of first) (fault_of second) }
{
    match first {
        None => second,
        Some(first) => match second {
            None => Some(first),
            Some(second) => {
                if is_before(second, first) {
                    Some(second)
                } else {
                    Some(first)
                }
            }
        },
    }
}

/// Where no routine is checked yet, and no rule is broken.
pub fn nothing_checked(alloc: Global) -> Checked
    ensures { (s : Scene) → stand result s ≡ stage None (Some []) 1 s }
{
    Checked {
        fault: None,
        routines: Vec::new(alloc),
        is_bad: false,
        next: 1,
    }
}

impl Checked {
    /// Notes a rule that may be broken.
    pub fn add_fault(&mut self, fault: Option<BrokenRule>)
        ensures { (s : Scene) → stand self.new s ≡ with_fault (stand self.old s) (fault_of fault) }
    {
        self.fault = better(self.fault, fault);
    }

    /// Begins the next routine.
    pub fn count(&mut self) -> Result<(), NoMemory>
        ensures { OnOk result ((s : Scene) → stand self.new s ≡ next_routine (stand self.old s)) }
    {
        match self.next.checked_add(1) {
            None => Err(NoMemory),
            Some(next) => {
                self.next = next;
                Ok(())
            }
        }
    }
}
