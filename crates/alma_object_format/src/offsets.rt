//! Offsets of the parts of the header in an object, and of fields in their records. The first field
//! of a record stands at 0 and has no name here.

/// The version, behind the magic.
pub const VERSION: usize = 8;

/// The count of routines, which is the first count.
pub const ROUTINE_COUNT: usize = 10;

/// The count of globals.
pub const GLOBAL_COUNT: usize = 14;

/// The count of params.
pub const PARAM_COUNT: usize = 18;

/// The count of runs of slots.
pub const RUN_COUNT: usize = 22;

/// The count of ranges.
pub const RANGE_COUNT: usize = 26;

/// The count of texts.
pub const TEXT_COUNT: usize = 30;

/// The count of name bytes.
pub const NAME_BYTE_COUNT: usize = 34;

/// The count of text bytes.
pub const TEXT_BYTE_COUNT: usize = 38;

/// The count of instructions.
pub const INSTR_COUNT: usize = 42;

/// The count of lines, which the first version does not have.
pub const LINE_COUNT: usize = 46;

/// The end of the params, in the record of a routine.
pub const ROUTINE_PARAMS_END: usize = 4;

/// The end of the runs, in the record of a routine.
pub const ROUTINE_RUNS_END: usize = 8;

/// The end of the code, in the record of a routine.
pub const ROUTINE_CODE_END: usize = 12;

/// The number of slots, in the record of a routine.
pub const ROUTINE_SLOTS: usize = 16;

/// The number of declared cells, in the record of a routine.
pub const ROUTINE_DECLARED: usize = 20;

/// 1 where there is a result, else 0, in the record of a routine.
pub const ROUTINE_RESULT: usize = 24;

/// The first slot, in the record of a global.
pub const GLOBAL_SLOT: usize = 4;

/// The number of cells, in the record of a global.
pub const GLOBAL_CELLS: usize = 8;

/// The number of cells or the routine of a link, in the record of a param.
pub const PARAM_CELLS: usize = 4;

/// The length of a place or the routine of a link, in the record of a run.
pub const RUN_SIZE: usize = 4;

/// The end, in the record of a run.
pub const RUN_END: usize = 8;

/// How far in front of the record of a run the length of the run before stands.
pub const RUN_SIZE_BEFORE: usize = 8;

/// How far in front of the record of a run the end of the run before stands.
pub const RUN_END_BEFORE: usize = 4;

/// The greatest number, in the record of a range.
pub const RANGE_HIGH: usize = 8;

/// The first word, in the record of an instruction.
pub const WORD_A: usize = 1;

/// The second word, in the record of an instruction; the value of a Const begins here.
pub const WORD_B: usize = 5;

/// The third word, in the record of an instruction.
pub const WORD_C: usize = 9;

/// The fourth word, in the record of an instruction.
pub const WORD_D: usize = 13;

/// The number of the line, in the record of a line.
pub const LINE_NUMBER: usize = 4;
