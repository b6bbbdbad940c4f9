//! Laws of the definition: a source is read in one way.
ghost use Rattle.std.specs.Prelude.{◌≡◌, ◌≤◌, ◌⊎◌, ℕ, List, [], length, All};
ghost use Rattle.alma_base.specs.declared.fault.LexFault.{LexFault};
ghost use Rattle.alma_scan.specs.Comments.{Gap};
ghost use Rattle.alma_scan.specs.Tokens.{Lexeme, HasToken, Tokens, IsSlice};
ghost use Rattle.alma_scan.specs.Faults.{HasFault, FaultAt};

/// A source has one list of tokens or one fault, and never both.
pub fn one_reading()
    ensures tokens { (source : List ℕ) (tokens others : List Lexeme) →
        Tokens source tokens → Tokens source others → tokens ≡ others }
    ensures fault { (source : List ℕ) (fault other : LexFault) (at place : ℕ) →
        FaultAt source fault at → FaultAt source other place → (fault ≡ other) × (at ≡ place) }
    ensures never_both { (source : List ℕ) (tokens : List Lexeme) (fault : LexFault) (at : ℕ) →
        Tokens source tokens → FaultAt source fault at → ⊥ }
    ensures always { (source : List ℕ) →
        ((tokens : List Lexeme) × Tokens source tokens) ⊎
        ((fault : LexFault) × (at : ℕ) × FaultAt source fault at) }
{}

/// What is left of a source goes on with one token, or to its end, or to one fault.
pub fn one_step()
    ensures token { (size : ℕ) (bytes : List ℕ) (token other : Lexeme) (rest after : List ℕ) →
        HasToken size bytes token rest → HasToken size bytes other after → (token ≡ other) ×
        (rest ≡ after) }
    ensures fault { (size : ℕ) (bytes : List ℕ) (fault other : LexFault) (at place : ℕ) →
        HasFault size bytes [] fault at → HasFault size bytes [] other place → (fault ≡ other) ×
        (at ≡ place) }
    ensures token_or_end { (size : ℕ) (bytes : List ℕ) (token : Lexeme) (rest : List ℕ) →
        HasToken size bytes token rest → Gap bytes [] → ⊥ }
    ensures token_or_fault { (size : ℕ) (bytes : List ℕ) (token : Lexeme) (rest : List ℕ)
        (fault : LexFault) (at : ℕ) →
        HasToken size bytes token rest → HasFault size bytes [] fault at → ⊥ }
    ensures end_or_fault { (size : ℕ) (bytes : List ℕ) (fault : LexFault) (at : ℕ) →
        Gap bytes [] → HasFault size bytes [] fault at → ⊥ }
{}

/// The tokens of a source are slices of it, and no more than its bytes.
pub fn tokens_are_slices()
    ensures slices { (source : List ℕ) (tokens : List Lexeme) → Tokens source tokens → All
        (IsSlice source) tokens }
    ensures count { (source : List ℕ) (tokens : List Lexeme) → Tokens source tokens → length tokens
        ≤ length source }
{}
