// A code: its routines, its tables and its instructions.
ghost use Rattle.std.specs.Prelude.{◌<◌, ◌^◌, length};

use crate::head::{CodeParam, Head, Run};
use crate::instr::Instr;
use alma_base::Range;

/// A routine of a code. Its instructions begin where those of the routine before end, or at 0, and
/// end before `code_end`.
#[derive(Drop)]
pub struct RoutineHead {
    pub name: Vec<u8>,
    /// How many slots a frame of it has.
    pub slots: u32,
    /// How many cells of a frame count for the limit of live cells.
    pub declared: u32,
    /// The kinds of its slots, in runs.
    pub kinds: Vec<Run>,
    pub params: Vec<CodeParam>,
    /// Whether it gives a number.
    pub result: bool,
    pub code_end: u32,
    ghost few_runs: { length kinds.items < 2 ^ 32 },
    ghost few_params: { length params.items < 2 ^ 32 },
}

impl Head for RoutineHead {
    ghost use Rattle.alma_code.specs.Plain.{head_of};

    ghost head = { head_of };

    fn slots(&self) -> u32 {
        self.slots
    }

    fn declared(&self) -> u32 {
        self.declared
    }

    fn param_count(&self) -> u32 {
        self.params.len() as u32
    }

    fn param(&self, i: u32) -> CodeParam {
        self.params[i as usize]
    }

    fn run_count(&self) -> u32 {
        self.kinds.len() as u32
    }

    fn run(&self, i: u32) -> Run {
        self.kinds[i as usize]
    }

    fn has_result(&self) -> bool {
        self.result
    }
}

/// A variable of the module, as a tool shows it.
#[derive(Drop)]
pub struct CodeGlobal {
    pub name: Vec<u8>,
    pub slot: u32,
    pub cells: u32,
}

/// From this address on up to that of the next record, the line of the source; 0 where none is
/// known.
#[derive(Clone, Copy)]
pub struct Line {
    pub at: u32,
    pub line: u32,
}

/// The version of a code without links and lines.
pub const FIRST_VERSION: u16 = 1;

/// The version of a code that may have links and lines.
pub const LATEST_VERSION: u16 = 2;

/// A code. Instructions name routines, ranges and texts by their places here, and one another by
/// address.
#[derive(Drop)]
pub struct Code {
    /// Of the format: the first, or the latest.
    pub version: u16,
    pub routines: Vec<RoutineHead>,
    pub globals: Vec<CodeGlobal>,
    pub ranges: Vec<Range>,
    pub texts: Vec<Vec<u8>>,
    pub code: Vec<Instr>,
    /// In the order of their addresses.
    pub lines: Vec<Line>,
}
