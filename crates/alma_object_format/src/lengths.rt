// How many bytes the header has, and each record behind it.

/// The bytes of the header of the latest version: the magic, the version and ten counts.
pub const HEADER_LEN: usize = 50;

/// The bytes of the header of the first version, which has no count of lines.
pub const FIRST_HEADER_LEN: usize = 46;

/// The bytes of each count of the header.
pub const COUNT_LEN: usize = 4;

/// The bytes of the record of a routine: the ends of its name, params, runs and code, its slots and
/// declared cells, and whether it has a result.
pub const ROUTINE_LEN: usize = 28;

/// The bytes of the record of a global: the end of its name, its slot and its cells.
pub const GLOBAL_LEN: usize = 12;

/// The bytes of the record of a param: its kind and its cells.
pub const PARAM_LEN: usize = 8;

/// The bytes of the record of a run of slots: its kind, its length or routine, and its end.
pub const RUN_LEN: usize = 12;

/// The bytes of the record of a range: low and high.
pub const RANGE_LEN: usize = 16;

/// The bytes of the record of a text, which is its end.
pub const TEXT_END_LEN: usize = 4;

/// The bytes of the record of an instruction: its opcode and four words.
pub const INSTR_LEN: usize = 17;

/// The bytes of the record of a line: an address and the number of the line.
pub const LINE_LEN: usize = 8;
