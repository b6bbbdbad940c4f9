// A whole program and its routines.
use crate::Stmt;
use alma_base::Range;

/// A resolved program. Routine 0 is the body of the module.
#[derive(Drop)]
pub struct Program {
    pub name: Vec<u8>,
    /// The variables of the module, in order of declaration.
    pub globals: Vec<Global>,
    pub routines: Vec<Routine>,
}

/// A variable of the module: `cells` slots of routine 0 from `slot` on.
#[derive(Drop)]
pub struct Global {
    pub name: Vec<u8>,
    pub slot: u32,
    pub cells: u32,
}

/// The body of the module, or a procedure.
///
/// Its slots are those of its parameters, then its variables, then the hidden counters and limits
/// of its loops. Slot 0 of routine 0 is the input position.
#[derive(Drop)]
pub struct Routine {
    pub name: Vec<u8>,
    pub params: Vec<Param>,
    /// The range of a function's result.
    pub result: Option<Range>,
    /// The cells of its variables and value parameters, and one for each parameter that is a place.
    pub declared: u32,
    pub slots: u32,
    pub body: Vec<Stmt>,
    /// 0 for the body of the module, and else one more than that of the routine round it.
    pub level: u32,
    /// The routine round it; 0 for the body of the module.
    pub outer: u32,
    /// The line of its MODULE or PROCEDURE.
    pub line: u32,
    /// The line of each statement of the body, a statement before those inside it.
    pub lines: Vec<u32>,
}

/// A parameter. One of kind Mix has a slot for a place and, behind it, one for a number.
#[derive(Clone, Copy)]
pub struct Param {
    pub kind: ArgKind,
    /// Its first slot.
    pub slot: u32,
    pub cells: u32,
    /// The range of its type, or that of INTEGER where the type is structured.
    pub range: Range,
}

/// How an argument is handed over.
#[derive(Clone, Copy)]
pub enum ArgKind {
    /// As a number.
    Value,
    /// As the place of a variable.
    Place,
    /// As a place where it is a variable, and else as a number.
    Mix,
    /// As a copy of all its cells.
    Cells,
}
