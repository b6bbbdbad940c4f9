// Statements, tests, expressions and designators.
use alma_base::Range;

/// A statement.
#[cycle(ir)]
#[derive(Drop)]
pub enum Stmt {
    Test(Test),
    /// A number for a designator, with the range of its type.
    Assign(Desig, Expr, Range),
    /// All cells of the second for the first.
    CopyCells(Desig, Desig),
    /// The arms, and the ELSE part.
    If(Vec<Arm>, Vec<Stmt>),
    While(Test, Vec<Stmt>),
    Repeat(Vec<Stmt>, Test),
    ForTo(Loop),
    SomeOf(Loop),
    /// The value, the arms, and the ELSE part where there is one.
    Case(Expr, Vec<CaseArm>, Option<Vec<Stmt>>),
    Either(Vec<Branch>),
    Forall(Vec<Stmt>, Vec<Stmt>),
    Commit(Vec<Stmt>),
    Return(Option<Expr>),
    Read(Desig, ReadAs, Range),
    WriteExpr(Expr, WriteAs),
    WriteText(Vec<u8>),
    WriteLine,
}

/// An arm of IF.
#[cycle(ir)]
#[derive(Drop)]
pub struct Arm {
    pub cond: Test,
    pub body: Vec<Stmt>,
}

/// An arm of CASE.
#[cycle(ir)]
#[derive(Drop)]
pub struct CaseArm {
    pub labels: Vec<Range>,
    pub body: Vec<Stmt>,
}

/// A branch of EITHER.
#[cycle(ir)]
#[derive(Drop)]
pub struct Branch {
    pub body: Vec<Stmt>,
}

/// What FOR and SOME share.
#[cycle(ir)]
#[derive(Drop)]
pub struct Loop {
    pub var: Desig,
    /// The range of the variable's type.
    pub range: Range,
    /// The hidden slots of the count and of the value that it does not pass.
    pub counter: u32,
    pub limit: u32,
    pub from: Expr,
    pub to: Expr,
    /// The step, which is not 0. SOME does not look at it: its step is 1.
    pub by: i64,
    pub body: Vec<Stmt>,
}

/// What succeeds or fails.
#[cycle(ir)]
#[derive(Drop)]
pub enum Test {
    /// An expression, which is true where it is not 0.
    Value(Expr),
    /// An equation of a variable and an expression. The flag says that the variable stands on the
    /// left.
    Bind(Desig, Expr, Range, bool),
    /// An equation of two variables, each with the range of its type.
    Unify(Desig, Range, Desig, Range),
    /// An equation of two structured variables.
    SameCells(Desig, Desig),
    Seq(Vec<Stmt>),
    And(Vec<Test>),
    Or(Vec<Test>),
    Not(Box<Test>),
    Call(Call),
}

/// What has a number.
#[cycle(ir)]
#[derive(Drop)]
pub enum Expr {
    Const(i64),
    Load(Desig),
    /// A first operand, and operators with their operands, from left to right. The flag negates the
    /// first operand.
    Chain(bool, Box<Expr>, Vec<Link>),
    Compare(Cmp, Box<Expr>, Box<Expr>),
    /// 1 where the test has an alternative, and else 0.
    Truth(Box<Test>),
    Known(Desig),
    Chr(Box<Expr>),
    Call(Call),
}

/// An operator and the operand behind it.
#[cycle(ir)]
#[derive(Drop)]
pub struct Link {
    pub op: Op,
    pub operand: Expr,
}

/// A call of a routine.
#[cycle(ir)]
#[derive(Drop)]
pub struct Call {
    pub routine: u32,
    pub args: Vec<Arg>,
    /// How many links lead from the frame of the call to that of the routine round the called one.
    pub up: u32,
}

/// An argument. The range is that of the parameter's type.
#[cycle(ir)]
#[derive(Drop)]
pub enum Arg {
    Value(Expr, Range),
    Cells(Desig),
    Place(Desig),
    MixValue(Expr, Range),
    MixPlace(Desig),
}

/// A variable, or a part of one.
#[cycle(ir)]
#[derive(Drop)]
pub struct Desig {
    pub root: Root,
    /// The cells of the root.
    pub cells: u32,
    pub sels: Vec<Sel>,
}

/// A selector, which narrows a place to a part of it.
#[cycle(ir)]
#[derive(Drop)]
pub enum Sel {
    /// The offset of the field, and its cells.
    Field(u32, u32),
    /// The index, the range of the array's index, and the cells of one element.
    Index(Expr, Range, u32),
}

/// Where a variable stands.
#[derive(Clone, Copy)]
pub enum Root {
    /// In the slots of the routine itself, from this one on.
    Local(u32),
    /// In the slots of the module's body, from this one on.
    Global(u32),
    /// Where the place in this slot says: the first slot of a parameter.
    Param(u32),
    /// So many links up, in the slots of the frame there, from this one on.
    Outer(u32, u32),
    /// So many links up, where the place in this slot of the frame there says.
    OuterParam(u32, u32),
}

/// An operator on two numbers.
#[derive(Clone, Copy)]
pub enum Op {
    Add,
    Sub,
    Mul,
    Div,
    Mod,
}

/// A comparison of two numbers.
#[derive(Clone, Copy)]
pub enum Cmp {
    Equal,
    Unequal,
    Less,
    LessEq,
    Greater,
    GreaterEq,
}

/// What READ takes: a number, or one byte.
#[derive(Clone, Copy)]
pub enum ReadAs {
    Int,
    Char,
}

/// How WRITE prints a number.
#[derive(Clone, Copy)]
pub enum WriteAs {
    Int,
    Char,
    Bool,
}
