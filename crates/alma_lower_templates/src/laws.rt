// Laws of the templates, each as the contract of a function that does nothing.
ghost use Rattle.std.specs.Prelude.{◌*◌, ◌≤◌, length};
ghost use Rattle.alma_code.specs.Plain.{PlainCode};
ghost use Rattle.alma_ir.specs.Checked.{IsChecked};
ghost use Rattle.alma_ir.specs.Count.{nodes};
ghost use Rattle.alma_ir.specs.Tree.{Program};
ghost use Rattle.alma_lower_implements.specs.Implements.{Implements};
ghost use Rattle.alma_lower_implements.specs.Values.{KeepsValues};
ghost use Rattle.alma_lower_templates.specs.CodeOf.{IsCodeOf, IsOfIntegers};
ghost use Rattle.alma_lower_templates.specs.Stands.{HoldsAll};

/// Code that is made of instructions with lines has each instruction, and its line, at its address.
#[tactic(auto, using(crate::proofs::Stands::stands_whole))]
pub fn code_has_its_lines()
    ensures { HoldsAll }
{}

/// The code that the templates give for a checked program implements it: a machine on it does what
/// the program means, each fault with the line of its statement.
#[tactic(auto, using(crate::proofs::Law::code_implements))]
pub fn code_of_a_checked_program_implements_it()
    ensures { (p : Program) (code : PlainCode) → IsChecked p → IsOfIntegers p → IsCodeOf p code
        → Implements code p }
{}

/// Where a run of this code has come to success, the variables of the module hold what the meaning
/// of the program gives them.
#[tactic(auto, using(crate::proofs::Law::code_keeps_values))]
pub fn code_of_a_checked_program_keeps_its_values()
    ensures { (p : Program) (code : PlainCode) → IsChecked p → IsOfIntegers p → IsCodeOf p code
        → KeepsValues code p }
{}

/// Each program has such a code.
#[tactic(auto, using(crate::proofs::Exists::has_code))]
pub fn each_program_has_a_code()
    ensures { (p : Program) → (code : PlainCode) × IsCodeOf p code }
{}

/// The code that the templates give for a checked program has at most 16 instructions for each node
/// of the program.
#[tactic(auto, using(crate::proofs::Sizes::code_is_short))]
pub fn code_of_a_checked_program_is_short()
    ensures { (p : Program) (code : PlainCode) → IsChecked p → IsCodeOf p code → length code.instrs
        ≤ 16 * nodes p }
{}
