// What the verifier reads of the view of an object.
ghost use Rattle.std.specs.Prelude.{◌≡◌, ◌<◌, MatchOption, None, length, get_or};
ghost use Rattle.alma_code.specs.Plain.{routine_at, head_at, kinds_at};
ghost use Rattle.alma_code.specs.Rules.{IsTable, kind_in, fit_arguments as fit_arguments_spec};
ghost use Rattle.alma_object.specs.View.{code_of_view, routine_of_view, global_of_view};
ghost use Rattle.alma_verify.specs.Routines.{HasRoutine};
ghost use Rattle.alma_verify.specs.Runs.{Covers, no_global};

use crate::arguments::fit_all;
use crate::halving::run_at;
use crate::reader::CodeReader;
use alma_base::Range;
use alma_code::{CodeParam, Head, Instr, Run};
use alma_object::{GlobalView, ObjectView, RoutineView};

// A routine below their count.
fn routine_of<'b>(view: &ObjectView<'b>, routine: u32) -> RoutineView<'b>
    requires { routine < length (code_of_view view.now).routines }
    ensures { routine_of_view result ≡ routine_at (code_of_view view.now) routine }
{
    match view.routine(routine) {
        Some(found) => found,
        None => unreachable!(),
    }
}

// A global below their count.
fn global_of<'b>(view: &ObjectView<'b>, i: u32) -> GlobalView<'b>
    requires { i < length (code_of_view view.now).globals }
    ensures { global_of_view result ≡ get_or (code_of_view view.now).globals i no_global }
{
    match view.global(i) {
        Some(found) => found,
        None => unreachable!(),
    }
}

// The run over a slot of a routine.
fn run_over(view: &ObjectView<'_>, routine: u32, slot: u64) -> Option<Run>
    requires { HasRoutine (code_of_view view.now) routine }
    ensures { MatchOption result (kind_in (code_of_view view.now) routine slot ≡ None)
        (λ run. Covers (kinds_at (code_of_view view.now) routine) slot run) }
{
    run_at(&routine_of(view, routine), slot)
}

// Whether the slots of a routine from first on can be the arguments of another.
fn fit_arguments(view: &ObjectView<'_>, routine: u32, callee: u32, first: u32) -> bool
    requires routine { routine < length (code_of_view view.now).routines }
    requires callee { callee < length (code_of_view view.now).routines }
    requires table { IsTable (code_of_view view.now) }
    ensures { result ≡ fit_arguments_spec (code_of_view view.now) routine
        (head_at (code_of_view view.now) callee).params first }
{
    let caller = routine_of(view, routine);
    let called = routine_of(view, callee);
    fit_all(&caller, &called, routine, first)
}

impl<'b> CodeReader for ObjectView<'b> {
    ghost code = { code_of_view };

    fn routine_count(&self) -> u32 {
        self.routine_count()
    }

    fn slots(&self, routine: u32) -> u32 {
        routine_of(self, routine).slots()
    }

    fn declared(&self, routine: u32) -> u32 {
        routine_of(self, routine).declared()
    }

    fn has_result(&self, routine: u32) -> bool {
        routine_of(self, routine).has_result()
    }

    fn code_end(&self, routine: u32) -> u32 {
        routine_of(self, routine).code_end()
    }

    fn param_count(&self, routine: u32) -> u32 {
        routine_of(self, routine).param_count()
    }

    fn param(&self, routine: u32, i: u32) -> CodeParam {
        routine_of(self, routine).param(i)
    }

    fn run_count(&self, routine: u32) -> u32 {
        routine_of(self, routine).run_count()
    }

    fn run(&self, routine: u32, i: u32) -> Run {
        routine_of(self, routine).run(i)
    }

    fn run_over(&self, routine: u32, slot: u64) -> Option<Run> {
        run_over(self, routine, slot)
    }

    fn fit_all(&self, routine: u32, callee: u32, first: u32) -> bool {
        fit_arguments(self, routine, callee, first)
    }

    fn global_count(&self) -> u32 {
        self.global_count()
    }

    fn global_slot(&self, i: u32) -> u32 {
        global_of(self, i).slot
    }

    fn global_cells(&self, i: u32) -> u32 {
        global_of(self, i).cells
    }

    fn range(&self, i: u32) -> Option<Range> {
        self.range(i)
    }

    fn has_text(&self, i: u32) -> bool {
        self.text(i).is_some()
    }

    fn instr(&self, at: u32) -> Instr {
        self.instr(at)
    }
}
