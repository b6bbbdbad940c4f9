// The module, its blocks and their declarations.
use crate::leaf::{Mode, Name, Names};
use crate::phrase::{Expr, Stmts};
use crate::type_node::TypeNode;

/// `MODULE Name ";" Block END Name "."`
#[derive(Drop)]
pub struct Module {
    pub node: u32,
    pub name: Name,
    pub block: Block,
    pub end_name: Name,
}

/// `{ Decl } [ BEGIN Stmts ]`
#[cycle(block)]
#[derive(Drop)]
pub struct Block {
    pub node: u32,
    pub decls: Vec<Decl>,
    pub body: Option<Stmts>,
}

/// Declarations of one sort, or one procedure.
#[cycle(block)]
#[derive(Drop)]
pub enum Decl {
    /// `CONST { Name "=" Expr ";" }`
    Const {
        node: u32,
        entries: Vec<ConstEntry>,
    },
    /// `TYPE { Name "=" TypeNode ";" }`
    Type {
        node: u32,
        entries: Vec<TypeEntry>,
    },
    /// `VAR { Names ":" TypeNode ";" }`
    Var {
        node: u32,
        entries: Vec<VarEntry>,
    },
    /// `PROCEDURE Name [ Params ] [ ":" Name ] ";" Block END Name ";"`
    Procedure {
        node: u32,
        name: Name,
        params: Option<Params>,
        result: Option<Name>,
        block: Block,
        end_name: Name,
    },
}

/// `Name "=" Expr ";"`, no node of its own.
#[derive(Drop)]
pub struct ConstEntry {
    pub name: Name,
    pub value: Expr,
}

/// `Name "=" TypeNode ";"`, no node of its own.
#[derive(Drop)]
pub struct TypeEntry {
    pub name: Name,
    pub type_node: TypeNode,
}

/// `Names ":" TypeNode ";"`, no node of its own.
#[derive(Drop)]
pub struct VarEntry {
    pub names: Names,
    pub type_node: TypeNode,
}

/// `"(" [ Formals ] ")"`, no node of its own.
#[derive(Drop)]
pub struct Params {
    pub formals: Option<Formals>,
}

/// `Formal { ";" Formal }`
#[derive(Drop)]
pub struct Formals {
    pub node: u32,
    pub first: Formal,
    pub more: Vec<Formal>,
}

/// `[ Mode ] Names ":" Name`
#[derive(Drop)]
pub struct Formal {
    pub node: u32,
    pub mode: Option<Mode>,
    pub names: Names,
    pub type_name: Name,
}
