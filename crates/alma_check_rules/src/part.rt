// What the phrases of a source stand for, as the check builds it.
ghost use Rattle.std.specs.Prelude.{◌≡◌};
ghost use Rattle.alma_rules.specs.Parts as parts;
ghost use Rattle.alma_check_rules.specs.Views.{operator_view};

use alma_base::Range;
use alma_ir::{Desig, Expr, Op, Root, Sel, Test};

/// What an expression stands for: exactly the designator of a variable, another plain expression,
/// or one that is not plain.
#[derive(Drop)]
pub enum Meaning {
    Place(Desig),
    Plain(Expr),
    Test(Test),
}

/// An expression: the number of its shape, its value in a constant place, and what it stands for.
#[derive(Drop)]
pub struct TypedExpr {
    pub shape: u32,
    pub constant: Option<i64>,
    pub meaning: Meaning,
}

/// A variable or a part of one: its shape, where the variable stands, its cells, and the selectors.
#[derive(Drop)]
pub struct Location {
    pub shape: u32,
    pub root: Root,
    pub cells: u32,
    pub sels: Vec<Sel>,
}

/// What a designator names: a constant, a variable, a routine by its number with the links up to
/// the one round it, or nothing, since an index stands on a type that is no array.
#[derive(Drop)]
pub enum Denotation {
    Constant(u32, i64),
    Variable(Location),
    Routine(u32, u32),
    NoArray,
}

/// AND and OR are of one sort, all others of the other.
#[derive(Clone, Copy)]
pub enum Operator {
    Arithmetic(Op),
    Logical,
}

impl Operator {
    /// Whether it is AND or OR.
    pub fn is_logical(self) -> bool
        ensures { result ≡ parts.is_logical (operator_view self) }
    {
        matches!(self, Operator::Logical)
    }
}

/// Where an operand stands: behind a sign, under a first operator that is logical or not, and
/// behind which operator.
#[derive(Clone, Copy)]
pub struct Operand {
    pub signed: bool,
    pub sort: bool,
    pub operator: Option<Operator>,
}

/// What a phrase asks of a designator.
#[derive(Clone, Copy)]
pub enum Use {
    Variable,
    Value,
    Procedure,
}

/// What an argument is: no designator, one whose name is Bad or undeclared, or one of a variable.
#[derive(Clone, Copy)]
pub enum Argument {
    Other,
    OfBad,
    OfVariable,
}

/// A routine that is called: its number, and the links up to the one round it.
#[derive(Clone, Copy)]
pub struct Callee {
    pub number: u32,
    pub up: u32,
}

/// An operator with the operand behind it.
#[derive(Drop)]
pub struct Behind {
    pub operator: Operator,
    pub operand: TypedExpr,
}

/// What joins the operands of a logical chain.
#[derive(Clone, Copy)]
pub enum Join {
    And,
    Or,
}

/// A label of CASE: the base of its type, and its values.
#[derive(Clone, Copy)]
pub struct Span {
    pub base: u32,
    pub range: Range,
}
