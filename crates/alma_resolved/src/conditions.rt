// Laws of resolved programs as a whole, each as the contract of a function that does nothing.
ghost use Rattle.std.specs.Prelude.{◌≡◌, ℕ, List, Some};
ghost use Rattle.alma_tree.specs.declared.module.Module.{Module};
ghost use Rattle.alma_tree.specs.Numbers.{IsNumbered};
ghost use Rattle.alma_scan.specs.Tokens.{Lexeme};
ghost use Rattle.alma_ir.specs.Tree.{Program};
ghost use Rattle.alma_rules.specs.Numbered as tree;
ghost use Rattle.alma_rules.specs.View.{view_module};
ghost use Rattle.alma_rules.specs.Modules.{resolution};
ghost use Rattle.alma_resolved.specs.Stand.{BlockStands};
ghost use Rattle.alma_ir.specs.Checked.{EachRoutine, HasLines, NamesSpelled, KeepsLimits, IsChecked};
ghost use Rattle.alma_resolved.specs.Whole.{ProgramFits, IsTreeOf, KeepsSlots};

/// In a tree as the parser numbers it each heading stands before what is declared behind it.
pub fn trees_of_the_parser_stand_so()
    ensures { (m : Module) (tokens : ℕ) → IsNumbered m tokens → BlockStands (view_module m).block }
{}

/// Each routine of a resolved program fits: its phrases fit its place, its loops have hidden slots
/// of their own behind its frame, and the ranges of its heading are in order.
pub fn resolved_programs_fit()
    ensures { (source : List ℕ) (tokens : List Lexeme) (m : tree.Module) (p : Program)
        → BlockStands m.block →
        resolution source tokens m ≡ Some p → ProgramFits p }
{}

/// Each routine of a resolved program has as many lines as its body has statements, at any depth.
pub fn resolved_programs_have_their_lines()
    ensures { (source : List ℕ) (tokens : List Lexeme) (m : tree.Module) (p : Program)
        → BlockStands m.block →
        resolution source tokens m ≡ Some p → EachRoutine p (λ r routine. HasLines routine) }
{}

/// The names of the resolved program of a source's tree are spelled as names.
pub fn resolved_programs_have_their_names()
    ensures { (source : List ℕ) (tokens : List Lexeme) (m : Module) (p : Program)
        → IsTreeOf source tokens m →
        resolution source tokens (view_module m) ≡ Some p → NamesSpelled p }
{}

/// The resolved program of a source's tree is checked, where it keeps the limits on the whole and
/// on slots.
pub fn a_resolved_program_is_checked()
    ensures { (source : List ℕ) (tokens : List Lexeme) (m : Module) (p : Program)
        → IsTreeOf source tokens m →
        resolution source tokens (view_module m) ≡ Some p → KeepsLimits p
        → EachRoutine p (λ r routine. KeepsSlots routine) →
        IsChecked p }
{}
