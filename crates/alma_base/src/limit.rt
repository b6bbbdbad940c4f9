// The limits of the language, its programs and its objects, each named once.

/// The greatest number of bytes of a source.
pub const SOURCE_LIMIT: usize = 1_048_576;

/// The greatest number of brackets that are open at once in a source.
pub const DEPTH_LIMIT: u32 = 100;

/// The greatest number of cells of a type, of elements of an array, and of declared cells of a
/// frame and of all live frames.
pub const CELL_LIMIT: u32 = 1_048_576;

/// The greatest number of live frames, that of the globals included.
pub const FRAME_LIMIT: u32 = 10_000;

/// The greatest size of a program, which is 16 for each of its nodes.
pub const SIZE_LIMIT: u64 = 4_194_304;

/// The greatest number of bytes of an input.
pub const INPUT_LIMIT: usize = 16_777_216;

/// The greatest number of routines of a code.
pub const ROUTINE_LIMIT: u32 = 262_144;

/// The greatest number of instructions of a code.
pub const INSTR_LIMIT: u32 = 4_194_304;

/// The greatest number of slots of a routine of a checked program.
pub const ROUTINE_SLOT_LIMIT: u64 = 4_194_304;

/// The greatest number of slots of a routine of a code, and of runs of slots in all.
pub const SLOT_LIMIT: u32 = 8_388_608;

/// The greatest number of globals, of parameters in all, of ranges, of texts and of line records of
/// a code.
pub const RECORD_LIMIT: u32 = 1_048_576;

/// The greatest number of bytes of all names of a code, and of all its texts.
pub const POOL_LIMIT: u32 = 16_777_216;

/// The greatest number of bytes of an object.
pub const OBJECT_LIMIT: usize = 268_435_456;
