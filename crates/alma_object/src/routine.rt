// A view of one routine of an object.
ghost use Rattle.std.specs.Prelude.{◌≡◌, ◌+◌, ◌*◌, ◌≤◌, length};
ghost use Rattle.alma_object_format.specs.Lengths.{param_len, run_len};

use alma_code::{CodeParam, Head, Run};
use alma_object_format::{PARAM_LEN, RUN_LEN, param_in, run_in};

/// A routine of an object. It lends the bytes of the object.
#[derive(Clone, Copy)]
pub struct RoutineView<'b> {
    pub(crate) bytes: &'b [u8],
    pub(crate) name: &'b [u8],
    pub(crate) params_at: usize,
    pub(crate) param_count: u32,
    pub(crate) runs_at: usize,
    pub(crate) run_count: u32,
    pub(crate) slots: u32,
    pub(crate) declared: u32,
    pub(crate) result: bool,
    pub(crate) code_start: u32,
    pub(crate) code_end: u32,
    ghost params: { params_at + param_len * param_count ≤ length bytes.now },
    ghost runs: { runs_at + run_len * run_count ≤ length bytes.now },
}

impl<'b> RoutineView<'b> {
    /// Its name: a letter or `_`, then letters, digits and `_`. It may be a reserved word.
    pub fn name(&self) -> &'b [u8]
        ensures { result.now ≡ self.now.name.now }
    {
        self.name
    }

    /// The address of its first instruction.
    pub fn code_start(&self) -> u32
        ensures { result ≡ self.now.code_start }
    {
        self.code_start
    }

    /// The address behind its last instruction.
    pub fn code_end(&self) -> u32
        ensures { result ≡ self.now.code_end }
    {
        self.code_end
    }
}

impl<'b> Head for RoutineView<'b> {
    ghost use Rattle.alma_object.specs.View.{head_of_view};

    ghost head = { head_of_view };

    fn slots(&self) -> u32 {
        self.slots
    }

    fn declared(&self) -> u32 {
        self.declared
    }

    #[tactic(auto, using(crate::proofs::Items::item_steps))]
    fn param_count(&self) -> u32 {
        self.param_count
    }

    #[tactic(auto, using(crate::proofs::Items::item_steps))]
    fn param(&self, i: u32) -> CodeParam {
        param_in(self.bytes, self.params_at + PARAM_LEN * i as usize)
    }

    #[tactic(auto, using(crate::proofs::Items::item_steps))]
    fn run_count(&self) -> u32 {
        self.run_count
    }

    #[tactic(auto, using(crate::proofs::Items::item_steps))]
    fn run(&self, i: u32) -> Run {
        run_in(self.bytes, self.runs_at + RUN_LEN * i as usize)
    }

    fn has_result(&self) -> bool {
        self.result
    }
}
