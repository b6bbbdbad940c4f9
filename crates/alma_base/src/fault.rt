// The named refusals, and want of memory.
ghost use Rattle.std.specs.Prelude.{◌≡◌};
ghost use Rattle.alma_base.specs.Fault.{lex_fault_text, syntax_fault_text, check_fault_text, run_fault_text};

use std::alloc::{AllocError, AllocFailed};

/// Memory ran out.
#[derive(Clone, Copy, Debug)]
pub struct NoMemory;

impl From<AllocError> for NoMemory {
    fn from(_: AllocError) -> Self {
        NoMemory
    }
}

impl<T: Drop> From<AllocFailed<T>> for NoMemory {
    fn from(_: AllocFailed<T>) -> Self {
        NoMemory
    }
}

/// Why the bytes of a source are no tokens.
#[derive(Clone, Copy, Debug, PartialEq, Eq)]
pub enum LexFault {
    BadByte,
    OpenComment,
    OpenString,
    NumberTooLarge,
}

impl LexFault {
    /// The name of the variant.
    pub fn text(self) -> &'static str
        ensures { result.now ≡ lex_fault_text self }
    {
        match self {
            LexFault::BadByte => "BadByte",
            LexFault::OpenComment => "OpenComment",
            LexFault::OpenString => "OpenString",
            LexFault::NumberTooLarge => "NumberTooLarge",
        }
    }
}

/// Why tokens are no program.
#[derive(Clone, Copy, Debug, PartialEq, Eq)]
pub enum SyntaxFault {
    Unexpected,
    TooDeep,
}

impl SyntaxFault {
    /// The name of the variant.
    pub fn text(self) -> &'static str
        ensures { result.now ≡ syntax_fault_text self }
    {
        match self {
            SyntaxFault::Unexpected => "Unexpected",
            SyntaxFault::TooDeep => "TooDeep",
        }
    }
}

/// Why a program breaks a rule, in the order in which two faults of one node are named.
#[derive(Clone, Copy, Debug, PartialEq, Eq)]
pub enum CheckFault {
    Undeclared,
    Redeclared,
    NameMismatch,
    NotType,
    NotConst,
    NotVariable,
    NotProcedure,
    NotTest,
    TypeMismatch,
    ArgCount,
    NotDesignator,
    ModeType,
    IndexType,
    NotArray,
    NotRecord,
    NoField,
    ConstRange,
    LabelTwice,
    ReturnForm,
    JumpOut,
    NestedProcedure,
    BadWrite,
    BadRead,
    TooLarge,
}

impl CheckFault {
    /// The name of the variant.
    pub fn text(self) -> &'static str
        ensures { result.now ≡ check_fault_text self }
    {
        match self {
            CheckFault::Undeclared => "Undeclared",
            CheckFault::Redeclared => "Redeclared",
            CheckFault::NameMismatch => "NameMismatch",
            CheckFault::NotType => "NotType",
            CheckFault::NotConst => "NotConst",
            CheckFault::NotVariable => "NotVariable",
            CheckFault::NotProcedure => "NotProcedure",
            CheckFault::NotTest => "NotTest",
            CheckFault::TypeMismatch => "TypeMismatch",
            CheckFault::ArgCount => "ArgCount",
            CheckFault::NotDesignator => "NotDesignator",
            CheckFault::ModeType => "ModeType",
            CheckFault::IndexType => "IndexType",
            CheckFault::NotArray => "NotArray",
            CheckFault::NotRecord => "NotRecord",
            CheckFault::NoField => "NoField",
            CheckFault::ConstRange => "ConstRange",
            CheckFault::LabelTwice => "LabelTwice",
            CheckFault::ReturnForm => "ReturnForm",
            CheckFault::JumpOut => "JumpOut",
            CheckFault::NestedProcedure => "NestedProcedure",
            CheckFault::BadWrite => "BadWrite",
            CheckFault::BadRead => "BadRead",
            CheckFault::TooLarge => "TooLarge",
        }
    }
}

/// Why a run stopped, in the order of their numbers in compiled code.
#[derive(Clone, Copy, Debug, PartialEq, Eq)]
pub enum RunFault {
    Unknown,
    Range,
    Index,
    Overflow,
    ZeroDivide,
    NoCase,
    NoReturn,
    ReadRange,
    DepthFull,
    CellsFull,
}

impl RunFault {
    /// The name of the variant.
    pub fn text(self) -> &'static str
        ensures { result.now ≡ run_fault_text self }
    {
        match self {
            RunFault::Unknown => "Unknown",
            RunFault::Range => "Range",
            RunFault::Index => "Index",
            RunFault::Overflow => "Overflow",
            RunFault::ZeroDivide => "ZeroDivide",
            RunFault::NoCase => "NoCase",
            RunFault::NoReturn => "NoReturn",
            RunFault::ReadRange => "ReadRange",
            RunFault::DepthFull => "DepthFull",
            RunFault::CellsFull => "CellsFull",
        }
    }
}
