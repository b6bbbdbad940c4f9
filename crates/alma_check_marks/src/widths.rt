// How many tokens a phrase has, and where the statements of a body begin.
ghost use Rattle.std.specs.Prelude.{◌≡◌, ◌-◌, IfOk};
ghost use Rattle.alma_rules.specs.Places as places;
ghost use Rattle.alma_rules.specs.View as view;
ghost use Rattle.alma_check_marks.specs.Marking.{marks_of};

use crate::expression::mark_expr;
use crate::mark::{Mark, Marks, first_token, marks_from};
use crate::statement::mark_stmts;
use crate::type_node::mark_type;
use alma_base::NoMemory;
use alma_tree::{Expr, Stmts, TypeNode};
use std::alloc::Global;

/// The number of tokens of an expression.
pub fn width_of_expr(alloc: Global, expr: &Expr) -> Result<u32, NoMemory>
    ensures { IfOk result (λ w. w ≡ places.width (places.mark_expr (view.view_expr expr.now))) }
{
    let mut marks = marks_from(alloc, 0);
    mark_expr(&mut marks, expr)?;
    Ok(marks.end)
}

/// The number of tokens of a type expression.
pub fn width_of_type(alloc: Global, tree: &TypeNode) -> Result<u32, NoMemory>
    ensures { IfOk result
        (λ w. w ≡ places.width (places.mark_type (view.view_type_node tree.now))) }
{
    let mut marks = marks_from(alloc, 0);
    mark_type(&mut marks, tree)?;
    Ok(marks.end)
}

// The marks of a body from a token on.
fn mark_body_at(alloc: Global, body: &Stmts, at: u32) -> Result<Marks, NoMemory>
    ensures { IfOk result (λ m. marks_of m ≡ places.mark_stmts (view.view_stmts body.now) at) }
{
    let mut marks = marks_from(alloc, at);
    mark_stmts(&mut marks, body)?;
    Ok(marks)
}

// The first tokens of the statements that are marked.
fn tokens_in(alloc: Global, marks: &Marks) -> Result<Vec<u32>, NoMemory>
    ensures { IfOk result (λ v. v.items ≡ places.stmt_tokens (marks_of marks.now).marks) }
{
    let mut tokens = Vec::new(alloc);
    for mark in &marks.marks {
        if let Mark::Statement { token } = mark {
            tokens.push(*token)?;
        }
    }
    Ok(tokens)
}

/// The first tokens of the statements of a body in front of a token.
pub fn statement_tokens(alloc: Global, body: &Stmts, end: u32) -> Result<Vec<u32>, NoMemory>
    ensures { IfOk result (λ v. v.items ≡ places.stmt_tokens (places.mark_stmts
        (view.view_stmts body.now)
        (end - places.width (places.mark_stmts (view.view_stmts body.now)))).marks) }
{
    let width = mark_body_at(alloc, body, 0)?.end;
    let marks = mark_body_at(alloc, body, end.saturating_sub(width))?;
    tokens_in(alloc, &marks)
}

/// The first token of a node of an expression that begins at a token.
pub fn first_token_in_expr(alloc: Global, expr: &Expr, at: u32, node: u32) -> Result<u32, NoMemory>
    ensures { IfOk result (λ t. t ≡ places.node_token node
        (places.mark_expr (view.view_expr expr.now) at).marks) }
{
    let mut marks = marks_from(alloc, at);
    mark_expr(&mut marks, expr)?;
    Ok(first_token(&marks, node))
}

/// The first token of a node of a type expression that begins at a token.
pub fn first_token_in_type(
    alloc: Global,
    tree: &TypeNode,
    at: u32,
    node: u32,
) -> Result<u32, NoMemory>
    ensures { IfOk result (λ t. t ≡ places.node_token node
        (places.mark_type (view.view_type_node tree.now) at).marks) }
{
    let mut marks = marks_from(alloc, at);
    mark_type(&mut marks, tree)?;
    Ok(first_token(&marks, node))
}
