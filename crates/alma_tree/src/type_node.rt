// Types as the source writes them.
use crate::leaf::{Name, Names};
use crate::phrase::Expr;

/// `[ Arrays ] PlainType`
#[cycle(types)]
#[derive(Drop)]
pub struct TypeNode {
    pub node: u32,
    pub arrays: Option<Arrays>,
    pub element: PlainType,
}

/// `Dimensions { Dimensions }`
#[cycle(types)]
#[derive(Drop)]
pub struct Arrays {
    pub node: u32,
    pub first: Dimensions,
    pub more: Vec<Dimensions>,
}

/// `ARRAY PlainType { "," PlainType } OF`, no node of its own.
#[cycle(types)]
#[derive(Drop)]
pub struct Dimensions {
    pub first: PlainType,
    pub more: Vec<PlainType>,
}

/// A type that is no array.
#[cycle(types)]
#[derive(Drop)]
pub enum PlainType {
    Named {
        node: u32,
        name: Name,
    },
    /// `"(" Names ")"`
    Listed {
        node: u32,
        names: Names,
    },
    /// `"[" Expr ".." Expr "]"`
    Subrange {
        node: u32,
        low: Expr,
        high: Expr,
    },
    /// `RECORD FieldList { ";" FieldList } END`
    Record {
        node: u32,
        first: Box<FieldList>,
        more: Vec<FieldList>,
    },
}

/// Fields of one type, or nothing.
#[cycle(types)]
#[derive(Drop)]
pub enum FieldList {
    Empty {
        node: u32,
    },
    /// `Names ":" TypeNode`
    Fields {
        node: u32,
        names: Names,
        type_node: TypeNode,
    },
}
