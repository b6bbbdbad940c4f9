// Declarations, blocks and the module.
ghost use Rattle.std.specs.Prelude.{◌≡◌, IfOk};
ghost use Rattle.alma_rules.specs.Places as places;
ghost use Rattle.alma_rules.specs.Modules as modules;
ghost use Rattle.alma_rules.specs.View as view;
ghost use Rattle.alma_check_marks.specs.Marking.{marks_of, Walks};

use crate::expression::mark_expr;
use crate::mark::{Marks, first_token, marks_from};
use crate::statement::mark_stmts;
use crate::type_node::{mark_names, mark_type};
use alma_base::NoMemory;
use alma_tree::{
    Block, ConstEntry, Decl, Formal, Formals, Mode, Module, Name, Params, Stmts, TypeEntry,
    VarEntry,
};
use std::alloc::Global;

fn mark_consts(marks: &mut Marks, entries: &[ConstEntry]) -> Result<(), NoMemory>
    ensures { Walks result marks.old marks.new (places.mark_consts (view.consts_of entries.now)) }
{
    for entry in entries {
        marks.leaf(entry.name.node)?;
        marks.token()?;
        mark_expr(marks, &entry.value)?;
        marks.token()?;
    }
    Ok(())
}

fn mark_type_entries(marks: &mut Marks, entries: &[TypeEntry]) -> Result<(), NoMemory>
    ensures { Walks result marks.old marks.new
        (places.mark_type_entries (view.types_of entries.now)) }
{
    for entry in entries {
        marks.leaf(entry.name.node)?;
        marks.token()?;
        mark_type(marks, &entry.type_node)?;
        marks.token()?;
    }
    Ok(())
}

fn mark_vars(marks: &mut Marks, entries: &[VarEntry]) -> Result<(), NoMemory>
    ensures { Walks result marks.old marks.new (places.mark_vars (view.vars_of entries.now)) }
{
    for entry in entries {
        mark_names(marks, &entry.names)?;
        marks.token()?;
        mark_type(marks, &entry.type_node)?;
        marks.token()?;
    }
    Ok(())
}

fn mark_mode(marks: &mut Marks, mode: Option<Mode>) -> Result<(), NoMemory>
    ensures { Walks result marks.old marks.new (places.mark_mode mode) }
{
    match mode {
        None => Ok(()),
        Some(_) => marks.token(),
    }
}

fn mark_formal(marks: &mut Marks, formal: &Formal) -> Result<(), NoMemory>
    ensures { Walks result marks.old marks.new (places.mark_formal (view.view_formal formal.now)) }
{
    let at = marks.end;
    mark_mode(marks, formal.mode)?;
    mark_names(marks, &formal.names)?;
    marks.token()?;
    marks.leaf(formal.type_name.node)?;
    marks.node(formal.node, at)
}

fn mark_more_formals(marks: &mut Marks, more: &[Formal]) -> Result<(), NoMemory>
    ensures { Walks result marks.old marks.new
        (places.mark_more_formals (view.more_formals_of more.now)) }
{
    for formal in more {
        marks.token()?;
        mark_formal(marks, formal)?;
    }
    Ok(())
}

fn mark_formals(marks: &mut Marks, formals: &Option<Formals>) -> Result<(), NoMemory>
    ensures { Walks result marks.old marks.new
        (places.mark_formals (view.formals_in formals.now)) }
{
    let at = marks.end;
    match formals {
        None => Ok(()),
        Some(formals) => {
            mark_formal(marks, &formals.first)?;
            mark_more_formals(marks, &formals.more)?;
            marks.node(formals.node, at)
        }
    }
}

fn mark_params(marks: &mut Marks, params: &Option<Params>) -> Result<(), NoMemory>
    ensures { Walks result marks.old marks.new (places.mark_params (view.params_of params.now)) }
{
    match params {
        None => Ok(()),
        Some(params) => {
            marks.token()?;
            mark_formals(marks, &params.formals)?;
            marks.token()
        }
    }
}

fn mark_result(marks: &mut Marks, returns: &Option<Name>) -> Result<(), NoMemory>
    ensures { Walks result marks.old marks.new (places.mark_result (view.result_of returns.now)) }
{
    match returns {
        None => Ok(()),
        Some(name) => {
            marks.token()?;
            marks.leaf(name.node)
        }
    }
}

fn mark_body(marks: &mut Marks, body: &Option<Stmts>) -> Result<(), NoMemory>
    ensures { Walks result marks.old marks.new (places.mark_body (view.body_of body.now)) }
{
    match body {
        None => Ok(()),
        Some(body) => {
            marks.token()?;
            mark_stmts(marks, body)
        }
    }
}

#[cycle(blocks)]
fn mark_block(marks: &mut Marks, block: &Block) -> Result<(), NoMemory>
    ensures { Walks result marks.old marks.new (places.mark_block (view.view_block block.now)) }
{
    let at = marks.end;
    mark_decls(marks, &block.decls)?;
    mark_body(marks, &block.body)?;
    marks.node(block.node, at)
}

#[cycle(blocks)]
fn mark_decls(marks: &mut Marks, decls: &[Decl]) -> Result<(), NoMemory>
    ensures { Walks result marks.old marks.new (places.mark_decls (view.decls_of decls.now)) }
{
    for decl in decls {
        mark_decl(marks, decl)?;
    }
    Ok(())
}

#[cycle(blocks)]
fn mark_decl(marks: &mut Marks, decl: &Decl) -> Result<(), NoMemory>
    ensures { Walks result marks.old marks.new (places.mark_decl (view.view_decl decl.now)) }
{
    let at = marks.end;
    marks.token()?;
    match decl {
        Decl::Const { node, entries } => {
            mark_consts(marks, entries)?;
            marks.node(*node, at)
        }
        Decl::Type { node, entries } => {
            mark_type_entries(marks, entries)?;
            marks.node(*node, at)
        }
        Decl::Var { node, entries } => {
            mark_vars(marks, entries)?;
            marks.node(*node, at)
        }
        Decl::Procedure {
            node,
            name,
            params,
            result: returns,
            block,
            end_name,
        } => {
            marks.leaf(name.node)?;
            mark_params(marks, params)?;
            mark_result(marks, returns)?;
            marks.token()?;
            mark_block(marks, block)?;
            marks.token()?;
            marks.leaf(end_name.node)?;
            marks.token()?;
            marks.node(*node, at)
        }
    }
}

/// The marks of a module, from its first token.
pub fn mark_module(alloc: Global, whole: &Module) -> Result<Marks, NoMemory>
    ensures { IfOk result (λ m. marks_of m ≡ places.mark_module (view.view_module whole.now) 0) }
{
    let mut marks = marks_from(alloc, 0);
    marks.token()?;
    marks.leaf(whole.name.node)?;
    marks.token()?;
    mark_block(&mut marks, &whole.block)?;
    marks.token()?;
    marks.leaf(whole.end_name.node)?;
    marks.token()?;
    marks.node(whole.node, 0)?;
    Ok(marks)
}

/// The first token of a node of a module.
pub fn first_token_of(alloc: Global, whole: &Module, node: u32) -> Result<u32, NoMemory>
    ensures { IfOk result (λ t. t ≡ modules.first_token_of (view.view_module whole.now) node) }
{
    let marks = mark_module(alloc, whole)?;
    Ok(first_token(&marks, node))
}
