//! The opcodes, each by the name of its form. The forms behind `STEP` are of the latest version
//! alone.

pub const CONST: u8 = 1;

pub const MOVE: u8 = 2;

pub const ADD: u8 = 3;

pub const SUB: u8 = 4;

pub const MUL: u8 = 5;

pub const DIV: u8 = 6;

pub const MOD: u8 = 7;

pub const NEG: u8 = 8;

pub const EQUAL: u8 = 9;

pub const LESS: u8 = 10;

pub const LESS_EQ: u8 = 11;

pub const FLIP: u8 = 12;

pub const IN_RANGE: u8 = 13;

pub const LOCAL: u8 = 14;

pub const GLOBAL: u8 = 15;

pub const SAME: u8 = 16;

pub const FIELD: u8 = 17;

pub const INDEX: u8 = 18;

pub const LOAD: u8 = 19;

pub const STORE: u8 = 20;

pub const KNOWN: u8 = 21;

pub const BIND: u8 = 22;

pub const UNIFY: u8 = 23;

pub const COPY_CELLS: u8 = 24;

pub const SAME_CELLS: u8 = 25;

pub const JUMP: u8 = 26;

pub const JUMP_ZERO: u8 = 27;

pub const CHECK: u8 = 28;

pub const FAIL: u8 = 29;

pub const MARK: u8 = 30;

pub const CUT: u8 = 31;

pub const CHOOSE: u8 = 32;

pub const FORALL: u8 = 33;

pub const OVERLAY: u8 = 34;

pub const KEEP: u8 = 35;

pub const FINISH: u8 = 36;

pub const CALL: u8 = 37;

pub const RETURN: u8 = 38;

pub const RETURN_VALUE: u8 = 39;

pub const READ_INT: u8 = 40;

pub const READ_CHAR: u8 = 41;

pub const WRITE_INT: u8 = 42;

pub const WRITE_CHAR: u8 = 43;

pub const WRITE_BOOL: u8 = 44;

pub const WRITE_TEXT: u8 = 45;

pub const WRITE_LINE: u8 = 46;

pub const FAULT: u8 = 47;

pub const STEP: u8 = 48;

pub const OWN: u8 = 49;

pub const CHAIN: u8 = 50;

pub const OUTER: u8 = 51;

pub const OUTER_SAME: u8 = 52;
