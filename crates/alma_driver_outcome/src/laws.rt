//! Laws of the definitions that the contracts cite: functions without work, whose contracts are the
//! laws.
ghost use Rattle.std.specs.Prelude.{◌≡◌, ◌<◌, ◌≤◌, ◌+◌, ◌*◌, Bool, true, List, ℕ, [], length, None, Option, Some, map};
ghost use Rattle.alma_base.specs.Limits.{input_limit, size_limit};
ghost use Rattle.alma_code.specs.Reads.{code_reads};
ghost use Rattle.alma_code.specs.Rules.{code_fault};
ghost use Rattle.alma_object.specs.Walk.{object_fault};
ghost use Rattle.alma_verify.specs.Bytes.{object_code};
ghost use Rattle.alma_source.specs.Refusal.{IsProgramOf};
ghost use Rattle.alma_io.specs.Outside.{StoredFile, IsUndisturbed, Outside};
ghost use Rattle.alma_driver_outcome.specs.Outcome.{Due, ProgramOutcome, CompileOutcome, SourceOutcome, Lacks, Meant, TraceMeant, ListOutcome, ExecOutcome};
ghost use Rattle.alma_driver_outcome.specs.Scope.{Causes};
ghost use Rattle.alma_driver_outcome.specs.Commands.{AsksOf, CheckEnds, CompileEnds, GivesInput, ListingEnds, ObjectEnds, PassesInput, ProgramEnds, ShowsMissing, ShowsSample, TraceEnds};
ghost use Rattle.alma_driver_words.specs.Words.{Asks, Request, Run, Check, Compile, Exec, IsBadWord, Listing, Sample, Trace};
ghost use Rattle.alma_driver_outcome.specs.Ends.{end_of_stop};
ghost use Rattle.alma_driver_outcome.specs.Words.{limit_of, IsReadBy};
ghost use Rattle.alma_io.specs.Files.{Has};
ghost use Rattle.alma_plan.specs.declared.stop.Stop.TheVariants.{TooLong};
ghost use Rattle.alma_driver_outcome.specs.declared.end.End.TheVariants.{Refused};
ghost use Rattle.alma_plan.specs.declared.refusal.Refusal.TheVariants.{BadWord};
ghost use Rattle.alma_driver_outcome.specs.Headline.{AsksToRun, IsInputLeft, RunEnds, ShowsEnd, ShowsResult};
ghost use Rattle.alma_lower_implements.specs.Implements.{visit_steps};
ghost use Rattle.alma_run_laws.specs.Stored.{SpellsCodeOf};
ghost use Rattle.alma_run_laws.specs.Variables.{variable_word};
ghost use Rattle.alma_lower.specs.Names.{KeepsNames};
ghost use Rattle.alma_code.specs.Plain.{PlainCode};
ghost use Rattle.alma_code.specs.Plain as plain;
ghost use Rattle.alma_code.specs.Machine.{State};
ghost use Rattle.alma_code.specs.TraceText.{watched_words};
ghost use Rattle.alma_ir.specs.Tree as tree;
ghost use Rattle.alma_lower_sound.specs.Reads.{program_reads};
ghost use Rattle.alma_run_laws.specs.Shown.{size_of};
ghost use Rattle.alma_driver_outcome.specs.Showing.{Prints, ShowsValuesBack, Traces};
ghost use Rattle.alma_ir.specs.Tree.{Program};
ghost use Rattle.alma_mean.specs.Events.{first, end_of, visit_count, CutOff};
ghost use Rattle.alma_mean.specs.Meaning.{ev_program, result as meant_at};

/// What a run of a program comes to is its meaning on the input that is read: with one more
/// unfolding than steps its result, each fault at its line; or, where the steps ran out, a front of
/// its prints that covers one visit for each 32 steps.
pub fn a_run_is_what_its_program_means()
    ensures means { (left : Option (List ℕ)) (p : Program) (steps : ℕ) (stats : Bool) (due : Due)
        → ProgramOutcome left p steps (Prints stats) due → Meant left p steps stats due }
{}

/// What a trace of a program comes to ends as the meaning does on the input that is read; or its
/// steps ran out.
pub fn a_trace_ends_as_its_program_means()
    ensures ends { (left : Option (List ℕ)) (p : Program) (steps : ℕ)
        (names : List (List ℕ)) (due : Due)
        → ProgramOutcome left p steps (Traces names) due → TraceMeant left p steps due }
{}

/// Listing bytes comes to one end and one text.
pub fn a_listing_has_one_outcome()
    ensures same { (bytes : List ℕ) (first second : Due) → ListOutcome bytes first
        → ListOutcome bytes second → first ≡ second }
{}

/// Running an object on an input that is told comes to one end and one output.
pub fn an_execution_has_one_outcome()
    ensures same { (input bytes : List ℕ) (steps : ℕ) (stats : Bool) (first second : Due)
        → ExecOutcome (Some input) bytes steps stats first → ExecOutcome (Some input) bytes steps
        stats second → first ≡ second }
{}

/// The bytes that compiling a program stores are read back as a sound code that implements it.
pub fn what_is_stored_implements_its_program()
    ensures object { (p : Program) (object : List ℕ) (due : Due) (stored : StoredFile)
        → CompileOutcome p object due → due.stored ≡ Some stored
        → SpellsCodeOf p stored.bytes }
{}

/// What `exec` comes to of the bytes that compiling a source stores is what `run` of that source
/// comes to.
pub fn a_stored_object_runs_as_its_source()
    ensures runs { (source object : List ℕ) (left : Option (List ℕ)) (steps : ℕ) (stats : Bool)
        (compiling running : Due) (stored : StoredFile)
        → SourceOutcome source (λ p. CompileOutcome p object) compiling
        → compiling.stored ≡ Some stored → ExecOutcome left stored.bytes steps stats running
        → SourceOutcome source (λ p. ProgramOutcome left p steps (Prints stats)) running }
{}

/// The values that a trace shows of watched names are those of the variables of the source: of each
/// the cells from its slot on. The routines that a trace and a listing name have the names of the
/// source's.
pub fn a_trace_shows_the_variables_of_its_source()
    ensures variables { (code : PlainCode) (p : Program) (names : List (List ℕ)) (s : State)
        → KeepsNames code p
        → watched_words code names s ≡ map (variable_word s.now p.globals) names }
    ensures routines { (code : PlainCode) (p : Program) (r : ℕ) → KeepsNames code p
        → (plain.routine_at code r).name ≡ (tree.routine_at p r).name }
{}

/// What a trace shows of watched names where a branch fails is what they were at its choice point,
/// which is before the step that makes the entry, and of a body of FORALL behind it: over any
/// number of steps between the line `choice` of an entry and its line `fail`, on any code.
pub fn a_failure_shows_the_values_at_its_choice()
    ensures values { (code : PlainCode) (input : List ℕ) (names : List (List ℕ))
        → ShowsValuesBack code input names }
{}

/// A run of a source on an input, which is told where its program has a READ, and any other one
/// elsewhere, where memory is found and nothing fails outside, refuses the source for its one
/// stated fault, or for its size; or prints what its program means and ends in its success, failure
/// or fault; or its steps ran out, and it printed a front of that, which covers one visit for each
/// 32 steps.
pub fn a_run_shows_what_its_source_means()
    ensures shown { (words : List (List ℕ)) (source input : List ℕ) (steps : ℕ) (stats : Bool)
        (before after : Outside) (status : ℕ) → AsksToRun words before source input steps stats
        → Causes words before after status → IsUndisturbed before after status
        → RunEnds words source input steps stats before after status }
{}

/// A check of a source, where memory is found and nothing fails outside, refuses it for its one
/// stated fault; or it is a program, and the check succeeds without a word.
pub fn a_check_tells_its_source()
    ensures shown { (words : List (List ℕ)) (name source : List ℕ) (before after : Outside)
        (status : ℕ) → AsksOf words (Check name) before source
        → Causes words before after status → IsUndisturbed before after status
        → CheckEnds words before after status source }
{}

/// Compiling a source, where memory is found and nothing fails outside, refuses it for its one
/// stated fault, or for its size; or stores an object that is read back as sound code that
/// implements its program.
pub fn a_compile_stores_code_of_its_source()
    ensures shown { (words : List (List ℕ)) (name object source : List ℕ) (before after : Outside)
        (status : ℕ) → AsksOf words (Compile name object) before source
        → Causes words before after status → IsUndisturbed before after status
        → CompileEnds words before after status source object }
{}

/// A trace of a source on an input, which is told where its program has a READ and within its
/// length, where memory is found and nothing fails outside, refuses the source for its one stated
/// fault, or for its size; or out gains the text of a run of sound code that implements its
/// program, and the call ends as the meaning does, or its steps ran out.
pub fn a_trace_tells_a_run_of_its_source()
    ensures shown { (words : List (List ℕ)) (name source input : List ℕ) (steps : ℕ)
        (watch : List (List ℕ)) (before after : Outside) (status : ℕ)
        → AsksOf words (Trace name steps watch) before source
        → ((p : Program) → IsProgramOf source p → GivesInput before p input)
        → Causes words before after status → IsUndisturbed before after status
        → TraceEnds words before after status source input steps watch }
{}

/// A run of an object that spells code of a program, on an input, which is told where that has a
/// READ and within its length, where memory is found and nothing fails outside, prints what the
/// program means, and ends in its success, failure or fault; or its steps ran out, and it printed a
/// front of that, which covers one visit for each 32 steps.
pub fn an_exec_shows_what_its_program_means()
    ensures shown { (words : List (List ℕ)) (object bytes input : List ℕ) (steps : ℕ)
        (stats : Bool) (p : Program) (before after : Outside) (status : ℕ)
        → AsksOf words (Exec object steps stats) before bytes → SpellsCodeOf p bytes
        → GivesInput before p input
        → Causes words before after status → IsUndisturbed before after status
        → ProgramEnds words before after status p input steps stats }
{}

/// A run of bytes, whoever made them, on an input, which is told where their code reads and within
/// its length, where memory is found and nothing fails outside, tells the first fault of their
/// format, or the first rule of sound code that they break; or makes a run of the code that is read
/// from them.
pub fn an_exec_runs_the_code_of_its_object()
    ensures shown { (words : List (List ℕ)) (object bytes input : List ℕ) (steps : ℕ)
        (stats : Bool) (before after : Outside) (status : ℕ)
        → AsksOf words (Exec object steps stats) before bytes
        → (code_reads (object_code bytes) ≡ true → before.input.left ≡ Some input)
        → length input ≤ input_limit
        → Causes words before after status → IsUndisturbed before after status
        → ObjectEnds words before after status bytes input steps stats }
{}

/// A listing of bytes, where memory is found and nothing fails outside, shows the text of the code
/// whose object they are, or tells the first fault of their format.
pub fn a_list_shows_the_code_of_its_object()
    ensures shown { (words : List (List ℕ)) (object bytes : List ℕ) (before after : Outside)
        (status : ℕ) → AsksOf words (Listing object) before bytes
        → Causes words before after status → IsUndisturbed before after status
        → ListingEnds words before after status bytes }
{}

/// Words that ask for nothing are told by their first bad one, and those that ask for a sample show
/// the line that sums up the run of its source, where memory is found and nothing fails outside.
pub fn calls_without_a_file_tell_their_words()
    ensures bad_word { (words : List (List ℕ)) (before after : Outside) (status k : ℕ)
        → IsBadWord words k → Causes words before after status → IsUndisturbed before after status
        → ShowsEnd words before after status (Refused (BadWord k)) [] }
    ensures sample { (words : List (List ℕ)) (before after : Outside) (status lines : ℕ)
        → Asks words (Sample lines) → Causes words before after status
        → IsUndisturbed before after status → ShowsSample words before after status lines }
{}

/// A file that is missing is a read fault, and one past its length is told as too long, where
/// memory is found and nothing fails outside: in whatever call reads it.
pub fn files_that_do_not_serve_are_told()
    ensures missing { (words : List (List ℕ)) (before after : Outside) (status : ℕ)
        → Lacks words before.files.told → Causes words before after status
        → IsUndisturbed before after status → ShowsMissing words before after status }
    ensures long { (words : List (List ℕ)) (before after : Outside) (status : ℕ)
        (request : Request) (name bytes : List ℕ) → Asks words request → IsReadBy request name
        → before.files.told name ≡ Has bytes → limit_of request < length bytes
        → Causes words before after status → IsUndisturbed before after status
        → ShowsEnd words before after status (end_of_stop TooLong) [] }
{}

/// An input past its length is told as too long where it is read, and nothing runs: in a run or a
/// trace of a source, and in a run of bytes, where memory is found and nothing fails outside.
pub fn an_input_past_its_length_is_told()
    ensures run { (words : List (List ℕ)) (before after : Outside) (status : ℕ)
        (name source input : List ℕ) (steps : ℕ) (stats : Bool) (p : Program)
        → AsksOf words (Run name steps stats) before source → IsProgramOf source p
        → size_of p ≤ size_limit → program_reads p ≡ true → PassesInput before input
        → Causes words before after status → IsUndisturbed before after status
        → ShowsEnd words before after status (end_of_stop TooLong) [] }
    ensures trace { (words : List (List ℕ)) (before after : Outside) (status : ℕ)
        (name source input : List ℕ) (steps : ℕ) (watch : List (List ℕ)) (p : Program)
        → AsksOf words (Trace name steps watch) before source → IsProgramOf source p
        → size_of p ≤ size_limit → program_reads p ≡ true → PassesInput before input
        → Causes words before after status → IsUndisturbed before after status
        → ShowsEnd words before after status (end_of_stop TooLong) [] }
    ensures exec { (words : List (List ℕ)) (before after : Outside) (status : ℕ)
        (object bytes input : List ℕ) (steps : ℕ) (stats : Bool)
        → AsksOf words (Exec object steps stats) before bytes → object_fault bytes ≡ None
        → code_fault (object_code bytes) ≡ None → code_reads (object_code bytes) ≡ true
        → PassesInput before input
        → Causes words before after status → IsUndisturbed before after status
        → ShowsEnd words before after status (end_of_stop TooLong) [] }
{}

/// A run of a source, where memory is found and nothing fails outside, reads the input whole where
/// its program has a READ, and leaves it elsewhere.
pub fn the_input_is_read_whole_where_the_program_reads()
    ensures left { (words : List (List ℕ)) (source input : List ℕ) (steps : ℕ) (stats : Bool)
        (before after : Outside) (status : ℕ) (p : Program)
        → AsksToRun words before source input steps stats
        → Causes words before after status → IsUndisturbed before after status
        → IsProgramOf source p → size_of p ≤ size_limit
        → IsInputLeft (program_reads p) before.input after.input }
{}

/// Where the meaning comes to its end at some level, 32 steps for each of its visits, and 32 more,
/// are enough for its result.
pub fn enough_steps_show_the_result()
    ensures shown { (words : List (List ℕ)) (source input : List ℕ) (steps : ℕ) (stats : Bool)
        (before after : Outside) (status : ℕ) (p : Program) (level : ℕ)
        → AsksToRun words before source input steps stats
        → Causes words before after status → IsUndisturbed before after status
        → IsProgramOf source p → size_of p ≤ size_limit
        → (end_of (first (ev_program level p input)) ≡ CutOff → ⊥)
        → visit_steps * (visit_count (first (ev_program level p input)) + 1) ≤ steps
        → ShowsResult words stats (meant_at level p input) before after status }
{}
