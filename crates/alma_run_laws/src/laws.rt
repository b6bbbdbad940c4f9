//! What a run shows of its program, each law as the contract of a function that does nothing.
ghost use Rattle.std.specs.Prelude.{◌≡◌, ◌≤◌, ◌*◌, ◌+◌, false, List, ℕ, length};
ghost use Rattle.alma_base.specs.Limits.{input_limit};
ghost use Rattle.alma_code.specs.declared.step.End.TheVariants as end;
ghost use Rattle.alma_code.specs.Machine.{Ended};
ghost use Rattle.alma_code.specs.Plain.{PlainCode};
ghost use Rattle.alma_code.specs.Reads.{code_reads};
ghost use Rattle.alma_ir.specs.Tree.{Program};
ghost use Rattle.alma_lower_implements.specs.Implements.{Implements, state_after, printed_by, line_in, visit_steps};
ghost use Rattle.alma_lower_implements.specs.Values.{KeepsValues};
ghost use Rattle.alma_mean.specs.Events.{End, first, end_of, visit_count, CutOff};
ghost use Rattle.alma_mean.specs.Meaning.{ev_program, result as meant_at};
ghost use Rattle.alma_run_laws.specs.Shown.{Shows, shown_end};
ghost use Rattle.alma_run_laws.specs.Variables.{IsMeantWord, variable_word};

/// What so many steps of code print that implements a program, and where they come to, is what the
/// program means: its result, or a front of its prints that covers one visit for each 32 steps.
pub fn a_run_is_what_its_program_means()
    ensures shows { (code : PlainCode) (p : Program) (input : List ℕ) (steps : ℕ)
        → Implements code p → length input ≤ input_limit
        → Shows p input steps (printed_by code input steps)
        (shown_end (state_after code input steps).mode
        (line_in code (state_after code input steps))) }
{}

/// Where the meaning comes to its end at some level, 32 steps for each of its visits, and 32 more,
/// are enough for its result.
pub fn enough_steps_show_the_result()
    ensures result { (p : Program) (input : List ℕ) (steps : ℕ) (printed : List ℕ) (end : End)
        (level : ℕ) → Shows p input steps printed end
        → (end_of (first (ev_program level p input)) ≡ CutOff → ⊥)
        → visit_steps * (visit_count (first (ev_program level p input)) + 1) ≤ steps
        → meant_at level p input ≡ (printed, end) }
{}

/// Code without a reading instruction runs alike on each input.
pub fn code_that_reads_nothing_runs_alike()
    ensures state { (code : PlainCode) (one other : List ℕ) (steps : ℕ) → code_reads code ≡ false
        → state_after code one steps ≡ state_after code other steps }
    ensures prints { (code : PlainCode) (one other : List ℕ) (steps : ℕ) → code_reads code ≡ false
        → printed_by code one steps ≡ printed_by code other steps }
{}

/// Where a run has come to success, a variable of the module shows what it holds in the store of
/// the first alternative of the meaning.
pub fn variables_hold_what_is_meant()
    ensures word { (code : PlainCode) (p : Program) (input : List ℕ) (steps : ℕ) (name : List ℕ)
        → KeepsValues code p → length input ≤ input_limit
        → (state_after code input steps).mode ≡ Ended end.Succeeded
        → IsMeantWord p input steps name
        (variable_word (state_after code input steps).now p.globals name) }
{}
