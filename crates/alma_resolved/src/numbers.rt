// Laws of numbered trees, each as the contract of a function that does nothing.
ghost use Rattle.std.specs.Prelude.{◌≡◌, ℕ};
ghost use Rattle.alma_tree.specs.declared.module.Module.{Module};
ghost use Rattle.alma_tree.specs.Numbers.{IsNumbered};
ghost use Rattle.alma_tree.specs.Spelling.{spelling};
ghost use Rattle.alma_tree.specs.View as plain;
ghost use Rattle.alma_rules.specs.View as view;

/// Of two trees that are alike but for their numbers, and numbered as the parser numbers them, the
/// rules see one numbered tree.
pub fn one_numbered_tree()
    ensures one { (m n : Module) (tokens : ℕ)
        → plain.view_module m ≡ plain.view_module n → IsNumbered m tokens → IsNumbered n tokens
        → view.view_module m ≡ view.view_module n }
{}

/// Of two trees with one spelling, numbered as the parser numbers them, the rules see one numbered
/// tree.
pub fn one_tree_of_a_spelling()
    ensures one { (m n : Module) (tokens : ℕ)
        → spelling (plain.view_module m) ≡ spelling (plain.view_module n)
        → IsNumbered m tokens → IsNumbered n tokens
        → view.view_module m ≡ view.view_module n }
{}
