// The kinds of declarations and of the whole module.
ghost use Rattle.std.specs.Prelude.{◌≡◌, IfOk, OnOk};
ghost use Rattle.alma_spell.specs.Pushed.{Pushes};
ghost use Rattle.alma_tree.specs.Spelling.{spelling, spell_block, spell_body, spell_const_tail, spell_decl, spell_decl_tail, spell_formal, spell_formal_tail, spell_formals, spell_mode, spell_params, spell_result_name, spell_type_tail, spell_var_tail};
ghost use Rattle.alma_tree.specs.View.{body_of, consts_of, decls_of, formal_tail_of, params_of, result_of, types_of, vars_of, view_block, view_decl, view_formal, view_formals, view_module};

use crate::phrase::{push_expr, push_stmts};
use crate::type_node::{push_names, push_type_node};
use crate::word::push;
use alma_base::NoMemory;
use alma_tree::{
    Block, ConstEntry, Decl, Formal, Formals, Kind, Mode, Module, Name, Params, Stmts, TypeEntry,
    VarEntry,
};
use std::alloc::Global;

fn push_const_tail(trees: &[ConstEntry], out: &mut Vec<Kind>) -> Result<(), NoMemory>
    ensures pushed { OnOk result (Pushes out.old.items out.new.items
        (spell_const_tail (consts_of trees.now))) }
{
    for tree in trees {
        push(Kind::Name, out)?;
        push(Kind::Equal, out)?;
        push_expr(&tree.value, out)?;
        push(Kind::Semicolon, out)?;
    }
    Ok(())
}

fn push_type_tail(trees: &[TypeEntry], out: &mut Vec<Kind>) -> Result<(), NoMemory>
    ensures pushed { OnOk result (Pushes out.old.items out.new.items
        (spell_type_tail (types_of trees.now))) }
{
    for tree in trees {
        push(Kind::Name, out)?;
        push(Kind::Equal, out)?;
        push_type_node(&tree.type_node, out)?;
        push(Kind::Semicolon, out)?;
    }
    Ok(())
}

fn push_var_tail(trees: &[VarEntry], out: &mut Vec<Kind>) -> Result<(), NoMemory>
    ensures pushed { OnOk result (Pushes out.old.items out.new.items
        (spell_var_tail (vars_of trees.now))) }
{
    for tree in trees {
        push_names(&tree.names, out)?;
        push(Kind::Colon, out)?;
        push_type_node(&tree.type_node, out)?;
        push(Kind::Semicolon, out)?;
    }
    Ok(())
}

fn push_mode(mode: Option<Mode>, out: &mut Vec<Kind>) -> Result<(), NoMemory>
    ensures pushed { OnOk result (Pushes out.old.items out.new.items (spell_mode mode)) }
{
    match mode {
        None => Ok(()),
        Some(Mode::Var) => push(Kind::Var, out),
        Some(Mode::Mix) => push(Kind::Mix, out),
    }
}

fn push_formal(tree: &Formal, out: &mut Vec<Kind>) -> Result<(), NoMemory>
    ensures pushed { OnOk result (Pushes out.old.items out.new.items
        (spell_formal (view_formal tree.now))) }
{
    push_mode(tree.mode, out)?;
    push_names(&tree.names, out)?;
    push(Kind::Colon, out)?;
    push(Kind::Name, out)
}

fn push_formal_tail(trees: &[Formal], out: &mut Vec<Kind>) -> Result<(), NoMemory>
    ensures pushed { OnOk result (Pushes out.old.items out.new.items
        (spell_formal_tail (formal_tail_of trees.now))) }
{
    for tree in trees {
        push(Kind::Semicolon, out)?;
        push_formal(tree, out)?;
    }
    Ok(())
}

fn push_formals(tree: &Formals, out: &mut Vec<Kind>) -> Result<(), NoMemory>
    ensures pushed { OnOk result (Pushes out.old.items out.new.items
        (spell_formals (view_formals tree.now))) }
{
    push_formal(&tree.first, out)?;
    push_formal_tail(&tree.more, out)
}

fn push_params(tree: &Option<Params>, out: &mut Vec<Kind>) -> Result<(), NoMemory>
    ensures pushed { OnOk result (Pushes out.old.items out.new.items
        (spell_params (params_of tree.now))) }
{
    let Some(params) = tree else {
        return Ok(());
    };
    push(Kind::OpenParen, out)?;
    match &params.formals {
        None => push(Kind::CloseParen, out),
        Some(formals) => {
            push_formals(formals, out)?;
            push(Kind::CloseParen, out)
        }
    }
}

fn push_result(tree: &Option<Name>, out: &mut Vec<Kind>) -> Result<(), NoMemory>
    ensures pushed { OnOk result (Pushes out.old.items out.new.items
        (spell_result_name (result_of tree.now))) }
{
    match tree {
        None => Ok(()),
        Some(_name) => {
            push(Kind::Colon, out)?;
            push(Kind::Name, out)
        }
    }
}

fn push_body(tree: &Option<Stmts>, out: &mut Vec<Kind>) -> Result<(), NoMemory>
    ensures pushed { OnOk result (Pushes out.old.items out.new.items
        (spell_body (body_of tree.now))) }
{
    match tree {
        None => Ok(()),
        Some(body) => {
            push(Kind::Begin, out)?;
            push_stmts(body, out)
        }
    }
}

#[cycle(spell_blocks)]
fn push_block(tree: &Block, out: &mut Vec<Kind>) -> Result<(), NoMemory>
    ensures pushed { OnOk result (Pushes out.old.items out.new.items
        (spell_block (view_block tree.now))) }
{
    push_decl_tail(&tree.decls, out)?;
    push_body(&tree.body, out)
}

#[cycle(spell_blocks)]
fn push_decl_tail(trees: &[Decl], out: &mut Vec<Kind>) -> Result<(), NoMemory>
    ensures pushed { OnOk result (Pushes out.old.items out.new.items
        (spell_decl_tail (decls_of trees.now))) }
{
    for tree in trees {
        push_decl(tree, out)?;
    }
    Ok(())
}

#[cycle(spell_blocks)]
fn push_decl(tree: &Decl, out: &mut Vec<Kind>) -> Result<(), NoMemory>
    ensures pushed { OnOk result (Pushes out.old.items out.new.items
        (spell_decl (view_decl tree.now))) }
{
    match tree {
        Decl::Const { entries, .. } => {
            push(Kind::Const, out)?;
            push_const_tail(entries, out)
        }
        Decl::Type { entries, .. } => {
            push(Kind::Type, out)?;
            push_type_tail(entries, out)
        }
        Decl::Var { entries, .. } => {
            push(Kind::Var, out)?;
            push_var_tail(entries, out)
        }
        Decl::Procedure {
            params,
            result,
            block,
            ..
        } => {
            push(Kind::Procedure, out)?;
            push(Kind::Name, out)?;
            push_params(params, out)?;
            push_result(result, out)?;
            push(Kind::Semicolon, out)?;
            push_block(block, out)?;
            push(Kind::End, out)?;
            push(Kind::Name, out)?;
            push(Kind::Semicolon, out)
        }
    }
}

/// The kinds of the tokens that the tree stands for, from MODULE to the point behind its END.
pub fn spell(alloc: Global, tree: &Module) -> Result<Vec<Kind>, NoMemory>
    ensures spelled { IfOk result (λ kinds. kinds.items ≡ spelling (view_module tree.now)) }
{
    let mut out = Vec::new(alloc);
    push(Kind::Module, &mut out)?;
    push(Kind::Name, &mut out)?;
    push(Kind::Semicolon, &mut out)?;
    push_block(&tree.block, &mut out)?;
    push(Kind::End, &mut out)?;
    push(Kind::Name, &mut out)?;
    push(Kind::Dot, &mut out)?;
    Ok(out)
}
