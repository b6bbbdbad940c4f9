//! Laws of sources: functions without work, whose contracts are the laws.
ghost use Rattle.std.specs.Prelude.{◌≡◌, ◌≤◌, List, length, ℕ};
ghost use Rattle.alma_base.specs.Limits.{source_limit};
ghost use Rattle.alma_grammar.specs.Laws.{IsProgram};
ghost use Rattle.alma_ir.specs.Tree.{Program};
ghost use Rattle.alma_resolved.specs.Whole.{kinds_in};
ghost use Rattle.alma_scan.specs.Tokens.{Lexeme, Tokens};
ghost use Rattle.alma_source.specs.Refusal.{IsOfGrammar, IsParsed, IsRefused, IsProgramOf};
ghost use Rattle.alma_source.specs.declared.fault.SourceFault.{SourceFault};
ghost use Rattle.alma_source.specs.Verdict.{Verdict, IsVerdict};
ghost use Rattle.alma_tree.specs.declared.module.Module.{Module};

/// What is refused is no program. What is refused for a fault of tokens or of syntax has no tokens
/// that are a program of the grammar.
pub fn a_refused_source_is_no_program()
    ensures apart { (source : List ℕ) (fault : SourceFault) (offset : ℕ) (p : Program)
        → IsRefused source fault offset → IsProgramOf source p → ⊥ }
    ensures grammar { (source : List ℕ) (fault : SourceFault) (offset : ℕ) (tokens : List Lexeme)
        → IsOfGrammar fault → IsRefused source fault offset → Tokens source tokens
        → IsProgram (kinds_in tokens) → ⊥ }
{}

/// What is refused for a fault of tokens or of syntax has no tree.
pub fn a_source_outside_the_grammar_has_no_tree()
    ensures apart { (source : List ℕ) (fault : SourceFault) (offset : ℕ) (tokens : List Lexeme)
        (tree : Module) → IsOfGrammar fault → IsRefused source fault offset
        → IsParsed source tokens tree → ⊥ }
{}

/// A source is one program at most.
pub fn a_source_is_one_program()
    ensures same { (source : List ℕ) (p q : Program) → IsProgramOf source p
        → IsProgramOf source q → p ≡ q }
{}

/// A source is refused for one fault at most, and at one place.
pub fn a_source_has_one_refusal()
    ensures same { (source : List ℕ) (fault other : SourceFault) (offset place : ℕ) →
        IsRefused source fault offset → IsRefused source other place → (fault ≡ other) ×
        (offset ≡ place) }
{}

/// A source comes to one verdict at most.
pub fn a_source_has_one_verdict()
    ensures same { (source : List ℕ) (one other : Verdict) → IsVerdict source one
        → IsVerdict source other → one ≡ other }
{}

/// A source within its length has a verdict: it is a program, or it is refused for a fault.
pub fn each_source_has_a_verdict()
    ensures some { (source : List ℕ) → length source ≤ source_limit
        → (verdict : Verdict) × IsVerdict source verdict }
{}
