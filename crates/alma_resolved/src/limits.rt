// Laws of resolved programs and their limits, each as the contract of a function that does nothing.
ghost use Rattle.std.specs.Prelude.{◌≡◌, ◌≤◌, ℕ, List, length, Some};
ghost use Rattle.alma_base.specs.Limits.{source_limit};
ghost use Rattle.alma_tree.specs.declared.module.Module.{Module};
ghost use Rattle.alma_scan.specs.Tokens.{Lexeme};
ghost use Rattle.alma_ir.specs.Tree.{Program};
ghost use Rattle.alma_ir.specs.Checked.{EachRoutine, KeepsLimits, IsChecked};
ghost use Rattle.alma_rules.specs.View.{view_module};
ghost use Rattle.alma_rules.specs.Modules.{resolution};
ghost use Rattle.alma_resolved.specs.Room.{HasRoom};
ghost use Rattle.alma_resolved.specs.Whole.{IsTreeOf, KeepsSlots};

/// The resolved program of a short source's tree keeps the limits on globals, parameters, bytes of
/// names and bytes of texts.
pub fn resolved_programs_keep_their_limits()
    ensures { (source : List ℕ) (tokens : List Lexeme) (m : Module) (p : Program)
        → length source ≤ source_limit → IsTreeOf source tokens m →
        resolution source tokens (view_module m) ≡ Some p → KeepsLimits p }
{}

/// The names and the texts of the resolved program of a short source's tree have room in a program
/// with a few texts more.
pub fn a_resolved_program_of_a_short_source_has_room()
    ensures { (source : List ℕ) (tokens : List Lexeme) (m : Module) (p : Program)
        → length source ≤ source_limit → IsTreeOf source tokens m →
        resolution source tokens (view_module m) ≡ Some p → HasRoom p }
{}

/// Each routine of the resolved program of a short source's tree keeps the limit on its slots.
pub fn resolved_programs_keep_their_slots()
    ensures { (source : List ℕ) (tokens : List Lexeme) (m : Module) (p : Program)
        → length source ≤ source_limit → IsTreeOf source tokens m →
        resolution source tokens (view_module m) ≡ Some p
        → EachRoutine p (λ r routine. KeepsSlots routine) }
{}

/// The resolved program of a short source's tree is checked.
pub fn a_resolved_program_of_a_short_source_is_checked()
    ensures { (source : List ℕ) (tokens : List Lexeme) (m : Module) (p : Program)
        → length source ≤ source_limit → IsTreeOf source tokens m →
        resolution source tokens (view_module m) ≡ Some p → IsChecked p }
{}
