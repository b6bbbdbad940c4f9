// Sequences of statements, and the statements that have no parts or one.
ghost use Rattle.alma_rules.specs.Numbered as tree;
ghost use Rattle.alma_rules.specs.Places as places;
ghost use Rattle.alma_rules.specs.View as view;
ghost use Rattle.alma_check_marks.specs.Marking.{Walks};

use crate::expression::{mark_desig, mark_expr};
use crate::form::{
    mark_case, mark_commit, mark_either, mark_for, mark_forall, mark_if, mark_repeat, mark_some,
    mark_while,
};
use crate::mark::{Marks, closed, node_behind, token_behind};
use alma_base::NoMemory;
use alma_tree::{Args, Desig, Expr, Exprs, Stmt, Stmts};

/// Statements in order.
#[cycle(marks)]
pub fn mark_stmts(marks: &mut Marks, stmts: &Stmts) -> Result<(), NoMemory>
    ensures { Walks result marks.old marks.new (places.mark_stmts (view.view_stmts stmts.now)) }
{
    let at = marks.end;
    mark_stmt(marks, &stmts.first)?;
    node_behind(mark_stmt_tail(marks, &stmts.more), marks, stmts.node, at)
}

#[cycle(marks)]
fn mark_stmt_tail(marks: &mut Marks, more: &[Stmt]) -> Result<(), NoMemory>
    ensures { Walks result marks.old marks.new (places.mark_stmt_tail (view.stmts_of more.now)) }
{
    for stmt in more {
        marks.token()?;
        mark_stmt(marks, stmt)?;
    }
    Ok(())
}

#[cycle(marks)]
fn mark_stmt(marks: &mut Marks, stmt: &Stmt) -> Result<(), NoMemory>
    ensures { Walks result marks.old marks.new (places.mark_stmt (view.view_stmt stmt.now)) }
{
    match stmt {
        Stmt::Nothing { node } => marks.empty(*node),
        Stmt::Assign {
            node,
            target,
            value,
        } => mark_assign(marks, *node, target, value),
        Stmt::Value { node, value } => mark_value(marks, *node, value),
        Stmt::If {
            node,
            test,
            then,
            elsifs,
            otherwise,
        } => mark_if(marks, *node, test, then, elsifs, otherwise),
        Stmt::While { node, test, body } => mark_while(marks, *node, test, body),
        Stmt::Repeat { node, body, test } => mark_repeat(marks, *node, body, test),
        Stmt::For {
            node,
            variable,
            from,
            to,
            by,
            body,
        } => mark_for(marks, *node, variable, from, to, by, body),
        Stmt::Some {
            node,
            variable,
            from,
            to,
            body,
        } => mark_some(marks, *node, variable, from, to, body),
        Stmt::Case {
            node,
            value,
            first,
            more,
            otherwise,
        } => mark_case(marks, *node, value, first, more, otherwise),
        Stmt::Either { node, first, more } => mark_either(marks, *node, first, more),
        Stmt::Forall { node, choice, body } => mark_forall(marks, *node, choice, body),
        Stmt::Commit { node, body } => mark_commit(marks, *node, body),
        Stmt::Return { node, value } => mark_return(marks, *node, value),
        Stmt::Read { node, first, more } => mark_read(marks, *node, first, more),
        Stmt::Write { node, items } => mark_write(marks, *node, items),
        Stmt::Writeln { node, items } => mark_writeln(marks, *node, items),
    }
}

#[cycle(marks)]
fn mark_assign(marks: &mut Marks, node: u32, target: &Desig, value: &Expr) -> Result<(), NoMemory>
    ensures { Walks result marks.old marks.new (places.mark_stmt
        (tree.assign node (view.view_desig target.now) (view.view_expr value.now))) }
{
    let at = marks.end;
    marks.statement(at)?;
    token_behind(mark_desig(marks, target), marks)?;
    node_behind(mark_expr(marks, value), marks, node, at)
}

#[cycle(marks)]
fn mark_value(marks: &mut Marks, node: u32, value: &Expr) -> Result<(), NoMemory>
    ensures { Walks result marks.old marks.new
        (places.mark_stmt (tree.value node (view.view_expr value.now))) }
{
    let at = marks.end;
    marks.statement(at)?;
    node_behind(mark_expr(marks, value), marks, node, at)
}

#[cycle(marks)]
fn mark_return(marks: &mut Marks, node: u32, value: &Option<Expr>) -> Result<(), NoMemory>
    ensures { Walks result marks.old marks.new
        (places.mark_stmt (tree.return_stmt node (view.returned_of value.now))) }
{
    let at = marks.end;
    marks.begin()?;
    node_behind(mark_returned(marks, value), marks, node, at)
}

#[cycle(marks)]
fn mark_returned(marks: &mut Marks, value: &Option<Expr>) -> Result<(), NoMemory>
    ensures { Walks result marks.old marks.new
        (places.mark_returned (view.returned_of value.now)) }
{
    match value {
        None => Ok(()),
        Some(value) => mark_expr(marks, value),
    }
}

#[cycle(marks)]
fn mark_read(marks: &mut Marks, node: u32, first: &Desig, more: &[Desig]) -> Result<(), NoMemory>
    ensures { Walks result marks.old marks.new (places.mark_stmt
        (tree.read_stmt node (view.view_desig first.now) (view.desigs_of more.now))) }
{
    let at = marks.end;
    marks.tokens()?;
    marks.statement(at)?;
    mark_desig(marks, first)?;
    closed(mark_desigs(marks, at, more), marks, node, at)
}

#[cycle(marks)]
fn mark_desigs(marks: &mut Marks, at: u32, more: &[Desig]) -> Result<(), NoMemory>
    ensures { Walks result marks.old marks.new
        (places.mark_desigs at (view.desigs_of more.now)) }
{
    for desig in more {
        marks.item(at)?;
        mark_desig(marks, desig)?;
    }
    Ok(())
}

#[cycle(marks)]
fn mark_write(marks: &mut Marks, node: u32, items: &Exprs) -> Result<(), NoMemory>
    ensures { Walks result marks.old marks.new
        (places.mark_stmt (tree.write_stmt node (view.view_exprs items.now))) }
{
    let at = marks.end;
    marks.tokens()?;
    closed(mark_items(marks, at, items), marks, node, at)
}

#[cycle(marks)]
fn mark_writeln(marks: &mut Marks, node: u32, items: &Option<Args>) -> Result<(), NoMemory>
    ensures { Walks result marks.old marks.new
        (places.mark_stmt (tree.writeln_stmt node (view.args_of items.now))) }
{
    let at = marks.end;
    marks.token()?;
    mark_line_items(marks, at, items)?;
    node_behind(marks.statement(at), marks, node, at)
}

#[cycle(marks)]
fn mark_line_items(marks: &mut Marks, at: u32, items: &Option<Args>) -> Result<(), NoMemory>
    ensures { Walks result marks.old marks.new
        (places.mark_line_items at (view.args_of items.now)) }
{
    match items {
        None => Ok(()),
        Some(items) => mark_line_values(marks, at, &items.values),
    }
}

// The items of a WRITELN between parentheses.
#[cycle(marks)]
fn mark_line_values(marks: &mut Marks, at: u32, values: &Option<Exprs>) -> Result<(), NoMemory>
    ensures { Walks result marks.old marks.new
        (places.mark_line_items at (view.args_values values.now)) }
{
    marks.token()?;
    match values {
        None => marks.token(),
        Some(values) => token_behind(mark_items(marks, at, values), marks),
    }
}

#[cycle(marks)]
fn mark_items(marks: &mut Marks, at: u32, items: &Exprs) -> Result<(), NoMemory>
    ensures { Walks result marks.old marks.new
        (places.mark_items at (view.view_exprs items.now)) }
{
    marks.statement(at)?;
    mark_expr(marks, &items.first)?;
    mark_item_tail(marks, at, &items.more)
}

#[cycle(marks)]
fn mark_item_tail(marks: &mut Marks, at: u32, more: &[Expr]) -> Result<(), NoMemory>
    ensures { Walks result marks.old marks.new
        (places.mark_item_tail at (view.exprs_of more.now)) }
{
    for item in more {
        marks.item(at)?;
        mark_expr(marks, item)?;
    }
    Ok(())
}
