// Laws of the rules and of resolved programs, each as the contract of a function that does nothing.
ghost use Rattle.std.specs.Prelude.{◌≡◌, ℕ, ◌≤◌, List, [], Some};
ghost use Rattle.std.specs.List.{AllByRecursion};
ghost use Rattle.alma_scan.specs.Tokens.{Lexeme};
ghost use Rattle.alma_ir.specs.Tree.{Program, Stmts, routine_at};
ghost use Rattle.alma_ir.specs.Phrases.{stmts_phrases};
ghost use Rattle.alma_ir.specs.Checked.{IsGlobal};
ghost use Rattle.alma_rules.specs.Numbered as tree;
ghost use Rattle.alma_rules.specs.Scene.{Scene};
ghost use Rattle.alma_rules.specs.Modules.{broken_rules, resolution};
ghost use Rattle.alma_rules.specs.Walk.{judge_stmts};
ghost use Rattle.alma_resolved.specs.Fits.{Place, PhrasesFit};
ghost use Rattle.alma_resolved.specs.Scenes.{SceneFits};
ghost use Rattle.alma_resolved.specs.Keeps.{KeepsPhrase};
ghost use Rattle.alma_resolved.specs.Stand.{BlockStands};
ghost use Rattle.alma_resolved.specs.Frames.{KeepsFrames};

/// A body with a resolved part, judged in a scene that fits its place in a program, fits that
/// place: each of its phrases does, and its loops have the hidden slots from the given one on,
/// those of a loop inside another apart from that other's.
pub fn body_fits_its_place()
    ensures { (k : Place) (s : Scene) → SceneFits k s → (n : ℕ) (x : tree.Stmts) (y : Stmts)
        → (judge_stmts s n x).value ≡ Some y →
        PhrasesFit k s.inside n (judge_stmts s n x).next (stmts_phrases y) }
{}

/// Each phrase of such a body keeps the conditions on phrases of a checked program, where each
/// frame ends inside its routine's slots.
pub fn phrases_of_a_body_are_checked()
    ensures { (k : Place) (s : Scene) → ((q : ℕ) → k.ends q ≤ (routine_at k.program q).slots)
        → SceneFits k s →
        (n : ℕ) (x : tree.Stmts) (y : Stmts) → (judge_stmts s n x).value ≡ Some y →
        AllByRecursion (KeepsPhrase k.program k.number) (stmts_phrases y) }
{}

/// Where no rule is broken there is a resolved program. The tree's names stand as they do in a
/// text: each heading before what is declared behind it.
pub fn unbroken_trees_have_a_program()
    ensures { (source : List ℕ) (tokens : List Lexeme) (m : tree.Module) → BlockStands m.block
        → broken_rules source tokens m ≡ [] →
        (p : Program) × (resolution source tokens m ≡ Some p) }
{}

/// Where there is a resolved program, no rule is broken.
pub fn trees_with_a_program_are_unbroken()
    ensures { (source : List ℕ) (tokens : List Lexeme) (m : tree.Module) (p : Program)
        → resolution source tokens m ≡ Some p →
        broken_rules source tokens m ≡ [] }
{}

/// A tree has one resolved program.
pub fn trees_have_one_program()
    ensures { (source : List ℕ) (tokens : List Lexeme) (m : tree.Module) (p q : Program)
        → resolution source tokens m ≡ Some p →
        resolution source tokens m ≡ Some q → p ≡ q }
{}

/// In a resolved program routine 0 takes nothing and gives nothing and has a slot; each routine has
/// its parameters first and has at least as many slots as declared cells; the routines stand inside
/// one another as their levels say, eight deep at most; and their lines are lines.
pub fn resolved_program_keeps_its_frames()
    ensures { (source : List ℕ) (tokens : List Lexeme) (m : tree.Module) (p : Program)
        → BlockStands m.block →
        resolution source tokens m ≡ Some p → KeepsFrames p }
{}

/// The variables of the module are number slots of routine 0 of the resolved program, and leave out
/// the input position.
pub fn resolved_program_has_its_globals()
    ensures { (source : List ℕ) (tokens : List Lexeme) (m : tree.Module) (p : Program)
        → BlockStands m.block →
        resolution source tokens m ≡ Some p → AllByRecursion (IsGlobal p) p.globals }
{}
