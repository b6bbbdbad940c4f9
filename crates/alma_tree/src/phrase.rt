// Statements, expressions and designators. `node` is a number in post-order, `token` the index of a
// token.
use crate::leaf::{AddOperator, Leaf, MulOperator, Name, Relation, Sign};

/// `Stmt { ";" Stmt }`
#[cycle(phrase)]
#[derive(Drop)]
pub struct Stmts {
    pub node: u32,
    pub first: Box<Stmt>,
    pub more: Vec<Stmt>,
}

/// A statement, which may be empty.
#[cycle(phrase)]
#[derive(Drop)]
pub enum Stmt {
    Nothing {
        node: u32,
    },
    /// `Desig ":=" Expr`
    Assign {
        node: u32,
        target: Desig,
        value: Expr,
    },
    /// `Expr`
    Value {
        node: u32,
        value: Expr,
    },
    /// `IF Expr THEN Stmts { ELSIF Expr THEN Stmts } [ ELSE Stmts ] END`
    If {
        node: u32,
        test: Expr,
        then: Stmts,
        elsifs: Vec<Elsif>,
        otherwise: Option<Stmts>,
    },
    /// `WHILE Expr DO Stmts END`
    While {
        node: u32,
        test: Expr,
        body: Stmts,
    },
    /// `REPEAT Stmts UNTIL Expr`
    Repeat {
        node: u32,
        body: Stmts,
        test: Expr,
    },
    /// `FOR Name ":=" Expr TO Expr [ BY Expr ] DO Stmts END`
    For {
        node: u32,
        variable: Name,
        from: Expr,
        to: Expr,
        by: Option<Expr>,
        body: Stmts,
    },
    /// `SOME Name ":=" Expr TO Expr DO Stmts END`
    Some {
        node: u32,
        variable: Name,
        from: Expr,
        to: Expr,
        body: Stmts,
    },
    /// `CASE Expr OF Arm { "|" Arm } [ ELSE Stmts ] END`
    Case {
        node: u32,
        value: Expr,
        first: Box<Arm>,
        more: Vec<Arm>,
        otherwise: Option<Stmts>,
    },
    /// `EITHER Stmts { ORELSE Stmts } END`
    Either {
        node: u32,
        first: Stmts,
        more: Vec<Stmts>,
    },
    /// `FORALL Stmts DO Stmts END`
    Forall {
        node: u32,
        choice: Stmts,
        body: Stmts,
    },
    /// `COMMIT Stmts END`
    Commit {
        node: u32,
        body: Stmts,
    },
    /// `RETURN [ Expr ]`
    Return {
        node: u32,
        value: Option<Expr>,
    },
    /// `READ "(" Desig { "," Desig } ")"`
    Read {
        node: u32,
        first: Desig,
        more: Vec<Desig>,
    },
    /// `WRITE "(" Expr { "," Expr } ")"`
    Write {
        node: u32,
        items: Exprs,
    },
    /// `WRITELN [ "(" [ Expr { "," Expr } ] ")" ]`
    Writeln {
        node: u32,
        items: Option<Args>,
    },
}

/// `ELSIF Expr THEN Stmts`, no node of its own.
#[cycle(phrase)]
#[derive(Drop)]
pub struct Elsif {
    pub test: Expr,
    pub then: Stmts,
}

/// An arm of CASE.
#[cycle(phrase)]
#[derive(Drop)]
pub enum Arm {
    Empty {
        node: u32,
    },
    /// `Label { "," Label } ":" Stmts`
    Labelled {
        node: u32,
        first: Label,
        more: Vec<Label>,
        body: Stmts,
    },
}

/// `Expr [ ".." Expr ]`
#[cycle(phrase)]
#[derive(Drop)]
pub struct Label {
    pub node: u32,
    pub low: Expr,
    pub high: Option<Expr>,
}

/// `Simple [ Relation Simple ]`
#[cycle(phrase)]
#[derive(Drop)]
pub struct Expr {
    pub node: u32,
    pub left: Simple,
    pub right: Option<Box<Compared>>,
}

/// `Relation Simple`, no node of its own.
#[cycle(phrase)]
#[derive(Drop)]
pub struct Compared {
    pub relation: Relation,
    pub right: Simple,
}

/// `[ Sign ] Term { AddOperator Term }`
#[cycle(phrase)]
#[derive(Drop)]
pub struct Simple {
    pub node: u32,
    pub sign: Option<Sign>,
    pub first: Box<Term>,
    pub more: Vec<AddLink>,
}

/// `AddOperator Term`, no node of its own.
#[cycle(phrase)]
#[derive(Drop)]
pub struct AddLink {
    pub operator: AddOperator,
    pub operand: Term,
}

/// `Factor { MulOperator Factor }`
#[cycle(phrase)]
#[derive(Drop)]
pub struct Term {
    pub node: u32,
    pub first: Factor,
    pub more: Vec<MulLink>,
}

/// `MulOperator Factor`, no node of its own.
#[cycle(phrase)]
#[derive(Drop)]
pub struct MulLink {
    pub operator: MulOperator,
    pub operand: Factor,
}

/// A primary, behind NOT or without it.
#[cycle(phrase)]
#[derive(Drop)]
pub enum Factor {
    /// `NOT Primary`
    Not { node: u32, primary: Primary },
    Plain { node: u32, primary: Primary },
}

/// What operators stand between.
#[cycle(phrase)]
#[derive(Drop)]
pub enum Primary {
    Number {
        node: u32,
        number: Leaf,
    },
    Literal {
        node: u32,
        literal: Leaf,
    },
    /// `Desig [ "(" [ Expr { "," Expr } ] ")" ]`
    Desig {
        node: u32,
        desig: Desig,
        args: Option<Args>,
    },
    /// `"(" Stmts ")"`
    Paren {
        node: u32,
        body: Box<Stmts>,
    },
    /// `KNOWN "(" Desig ")"`
    Known {
        node: u32,
        desig: Desig,
    },
    /// `ORD "(" Expr ")"`
    Ord {
        node: u32,
        value: Box<Expr>,
    },
    /// `CHR "(" Expr ")"`
    Chr {
        node: u32,
        value: Box<Expr>,
    },
}

/// `"(" [ Expr { "," Expr } ] ")"`, no node of its own.
#[cycle(phrase)]
#[derive(Drop)]
pub struct Args {
    pub values: Option<Exprs>,
}

/// `Expr { "," Expr }`, no node of its own.
#[cycle(phrase)]
#[derive(Drop)]
pub struct Exprs {
    pub first: Box<Expr>,
    pub more: Vec<Expr>,
}

/// `Name { Selector }`
#[cycle(phrase)]
#[derive(Drop)]
pub struct Desig {
    pub node: u32,
    pub name: Name,
    pub more: Vec<Selector>,
}

/// What goes from a structured variable to a part of it.
#[cycle(phrase)]
#[derive(Drop)]
pub enum Selector {
    /// `"." Name`
    Field { node: u32, name: Name },
    /// `"[" Expr { "," Expr } "]"`
    Index { node: u32, indices: Exprs },
}
