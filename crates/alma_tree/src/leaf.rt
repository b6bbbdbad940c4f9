// Leaves of the tree, and operators.

/// A number or a literal, by the index of its token. It is no node.
#[derive(Drop)]
pub struct Leaf {
    pub token: u32,
}

/// A name: its number in post-order and the index of its token.
#[derive(Drop)]
pub struct Name {
    pub node: u32,
    pub token: u32,
}

/// `Name { "," Name }`
#[derive(Drop)]
pub struct Names {
    pub node: u32,
    pub first: Name,
    pub more: Vec<Name>,
}

/// What stands between the two sides of a comparison.
#[derive(Clone, Copy)]
pub enum Relation {
    Equal,
    Unequal,
    Less,
    LessEq,
    Greater,
    GreaterEq,
}

/// A sign before the first term of a sum.
#[derive(Clone, Copy)]
pub enum Sign {
    Plus,
    Minus,
}

/// What stands between two terms.
#[derive(Clone, Copy)]
pub enum AddOperator {
    Plus,
    Minus,
    Or,
}

/// What stands between two factors.
#[derive(Clone, Copy)]
pub enum MulOperator {
    Star,
    Div,
    Mod,
    And,
}

/// How a parameter is passed where it is not by value.
#[derive(Clone, Copy)]
pub enum Mode {
    Var,
    Mix,
}
