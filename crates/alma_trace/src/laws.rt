// The laws, each as the contract of a function that does nothing.
ghost use Rattle.std.specs.Prelude.{List, ℕ};
ghost use Rattle.alma_code.specs.Plain.{PlainCode};
ghost use Rattle.alma_trace.specs.Resolved.{ResolvedAreOfModule, TracesAreTheTraceText};

/// Where each watch has the place that the code's globals say of its name, the text of a run from
/// the start is the one that traces the code with their names.
#[tactic(auto, using(crate::proofs::Naming::traces_are_the_trace_text))]
pub fn traces_are_the_trace_text()
    ensures { (code : PlainCode) (input : List ℕ) → TracesAreTheTraceText code input }
{}

/// In a sound code such watches are of slots of the frame of the module, as a trace requires.
#[tactic(auto, using(crate::proofs::Resolving::resolved_are_of_module))]
pub fn resolved_watches_are_of_the_module()
    ensures { (code : PlainCode) → ResolvedAreOfModule code }
{}
