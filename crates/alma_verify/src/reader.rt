// What the verifier reads of a code.
ghost use Rattle.std.specs.Prelude.{◌≡◌, ◌<◌, MatchOption, None, nat_lt, length, get_or, slice_get, slice_index_or};
ghost use Rattle.alma_code.specs.Plain.{PlainCode, head_at, end_at, kinds_at};
ghost use Rattle.alma_code.specs.Rules.{IsTable, kind_in, fit_arguments};
ghost use Rattle.alma_verify.specs.Routines.{HasRoutine};
ghost use Rattle.alma_verify.specs.Runs.{no_global, Covers};

use alma_base::Range;
use alma_code::{CodeParam, Instr, Run};

/// What the verifier reads of a code. Each reader but the last two of a routine takes the same
/// time, whatever the size of the code; those halve the runs of a routine once, and the second goes
/// through the parameters.
pub trait CodeReader {
    ghost code: { Self → PlainCode };

    fn routine_count(&self) -> u32
        ensures { result ≡ length (code self.now).routines };

    fn slots(&self, routine: u32) -> u32
        requires { routine < length (code self.now).routines }
        ensures { result ≡ (head_at (code self.now) routine).slots };

    fn declared(&self, routine: u32) -> u32
        requires { routine < length (code self.now).routines }
        ensures { result ≡ (head_at (code self.now) routine).declared };

    fn has_result(&self, routine: u32) -> bool
        requires { routine < length (code self.now).routines }
        ensures { result ≡ (head_at (code self.now) routine).has_result };

    fn code_end(&self, routine: u32) -> u32
        requires { routine < length (code self.now).routines }
        ensures { result ≡ end_at (code self.now) routine };

    fn param_count(&self, routine: u32) -> u32
        requires { routine < length (code self.now).routines }
        ensures { result ≡ length (head_at (code self.now) routine).params };

    fn param(&self, routine: u32, i: u32) -> CodeParam
        requires routine { routine < length (code self.now).routines }
        requires param { i < length (head_at (code self.now) routine).params }
        ensures { result ≡ slice_index_or (head_at (code self.now) routine).params i result };

    fn run_count(&self, routine: u32) -> u32
        requires { routine < length (code self.now).routines }
        ensures { result ≡ length (head_at (code self.now) routine).runs };

    fn run(&self, routine: u32, i: u32) -> Run
        requires routine { routine < length (code self.now).routines }
        requires run { i < length (head_at (code self.now) routine).runs }
        ensures { result ≡ slice_index_or (head_at (code self.now) routine).runs i result };

    /// The run over a slot.
    fn run_over(&self, routine: u32, slot: u64) -> Option<Run>
        requires { HasRoutine (code self.now) routine }
        ensures { MatchOption result (kind_in (code self.now) routine slot ≡ None)
            (λ run. Covers (kinds_at (code self.now) routine) slot run) };

    /// Whether the slots of a routine from first on can be the arguments of another.
    fn fit_all(&self, routine: u32, callee: u32, first: u32) -> bool
        requires routine { routine < length (code self.now).routines }
        requires callee { callee < length (code self.now).routines }
        requires table { IsTable (code self.now) }
        ensures { result ≡ fit_arguments (code self.now) routine
            (head_at (code self.now) callee).params first };

    fn global_count(&self) -> u32
        ensures { result ≡ length (code self.now).globals };

    fn global_slot(&self, i: u32) -> u32
        requires { i < length (code self.now).globals }
        ensures { result ≡ (get_or (code self.now).globals i no_global).slot };

    fn global_cells(&self, i: u32) -> u32
        requires { i < length (code self.now).globals }
        ensures { result ≡ (get_or (code self.now).globals i no_global).cells };

    fn range(&self, i: u32) -> Option<Range>
        ensures { result ≡ slice_get (code self.now).ranges i };

    fn has_text(&self, i: u32) -> bool
        ensures { result ≡ nat_lt i (length (code self.now).texts) };

    fn instr(&self, at: u32) -> Instr
        requires { at < length (code self.now).instrs }
        ensures { result ≡ slice_index_or (code self.now).instrs at result };
}
