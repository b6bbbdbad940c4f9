// The statements with statements inside.
ghost use Rattle.alma_rules.specs.Numbered as tree;
ghost use Rattle.alma_rules.specs.Places as places;
ghost use Rattle.alma_rules.specs.View as view;
ghost use Rattle.alma_check_marks.specs.Marking.{Walks};

use crate::expression::mark_expr;
use crate::mark::{Marks, closed, node_behind, token_behind};
use crate::statement::mark_stmts;
use alma_base::NoMemory;
use alma_tree::{Arm, Elsif, Expr, Label, Name, Stmts};

/// IF.
#[cycle(marks)]
pub(crate) fn mark_if(
    marks: &mut Marks,
    node: u32,
    test: &Expr,
    then: &Stmts,
    elsifs: &[Elsif],
    otherwise: &Option<Stmts>,
) -> Result<(), NoMemory>
    ensures { Walks result marks.old marks.new (places.mark_stmt (tree.if_stmt node
        (view.view_expr test.now) (view.view_stmts then.now) (view.elsifs_of elsifs.now)
        (view.else_of otherwise.now))) }
{
    let at = marks.end;
    marks.begin()?;
    token_behind(mark_expr(marks, test), marks)?;
    mark_stmts(marks, then)?;
    mark_elsifs(marks, elsifs)?;
    closed(mark_else(marks, otherwise), marks, node, at)
}

#[cycle(marks)]
fn mark_elsifs(marks: &mut Marks, elsifs: &[Elsif]) -> Result<(), NoMemory>
    ensures { Walks result marks.old marks.new (places.mark_elsifs (view.elsifs_of elsifs.now)) }
{
    for elsif in elsifs {
        marks.token()?;
        token_behind(mark_expr(marks, &elsif.test), marks)?;
        mark_stmts(marks, &elsif.then)?;
    }
    Ok(())
}

#[cycle(marks)]
fn mark_else(marks: &mut Marks, otherwise: &Option<Stmts>) -> Result<(), NoMemory>
    ensures { Walks result marks.old marks.new (places.mark_else (view.else_of otherwise.now)) }
{
    match otherwise {
        None => Ok(()),
        Some(body) => {
            marks.token()?;
            mark_stmts(marks, body)
        }
    }
}

/// WHILE.
#[cycle(marks)]
pub(crate) fn mark_while(
    marks: &mut Marks,
    node: u32,
    test: &Expr,
    body: &Stmts,
) -> Result<(), NoMemory>
    ensures { Walks result marks.old marks.new (places.mark_stmt
        (tree.while_stmt node (view.view_expr test.now) (view.view_stmts body.now))) }
{
    let at = marks.end;
    marks.begin()?;
    token_behind(mark_expr(marks, test), marks)?;
    closed(mark_stmts(marks, body), marks, node, at)
}

/// REPEAT.
#[cycle(marks)]
pub(crate) fn mark_repeat(
    marks: &mut Marks,
    node: u32,
    body: &Stmts,
    test: &Expr,
) -> Result<(), NoMemory>
    ensures { Walks result marks.old marks.new (places.mark_stmt
        (tree.repeat_stmt node (view.view_stmts body.now) (view.view_expr test.now))) }
{
    let at = marks.end;
    marks.begin()?;
    token_behind(mark_stmts(marks, body), marks)?;
    node_behind(mark_expr(marks, test), marks, node, at)
}

/// FOR.
#[cycle(marks)]
pub(crate) fn mark_for(
    marks: &mut Marks,
    node: u32,
    variable: &Name,
    from: &Expr,
    to: &Expr,
    by: &Option<Expr>,
    body: &Stmts,
) -> Result<(), NoMemory>
    ensures { Walks result marks.old marks.new (places.mark_stmt (tree.for_stmt node
        (view.view_name variable.now) (view.view_expr from.now) (view.view_expr to.now)
        (view.by_of by.now) (view.view_stmts body.now))) }
{
    let at = marks.end;
    marks.opening(variable.node)?;
    token_behind(mark_expr(marks, from), marks)?;
    mark_expr(marks, to)?;
    token_behind(mark_by(marks, by), marks)?;
    closed(mark_stmts(marks, body), marks, node, at)
}

#[cycle(marks)]
fn mark_by(marks: &mut Marks, by: &Option<Expr>) -> Result<(), NoMemory>
    ensures { Walks result marks.old marks.new (places.mark_by (view.by_of by.now)) }
{
    match by {
        None => Ok(()),
        Some(by) => {
            marks.token()?;
            mark_expr(marks, by)
        }
    }
}

/// SOME.
#[cycle(marks)]
pub(crate) fn mark_some(
    marks: &mut Marks,
    node: u32,
    variable: &Name,
    from: &Expr,
    to: &Expr,
    body: &Stmts,
) -> Result<(), NoMemory>
    ensures { Walks result marks.old marks.new (places.mark_stmt (tree.some_stmt node
        (view.view_name variable.now) (view.view_expr from.now) (view.view_expr to.now)
        (view.view_stmts body.now))) }
{
    let at = marks.end;
    marks.opening(variable.node)?;
    token_behind(mark_expr(marks, from), marks)?;
    token_behind(mark_expr(marks, to), marks)?;
    closed(mark_stmts(marks, body), marks, node, at)
}

/// CASE.
#[cycle(marks)]
pub(crate) fn mark_case(
    marks: &mut Marks,
    node: u32,
    value: &Expr,
    first: &Arm,
    more: &[Arm],
    otherwise: &Option<Stmts>,
) -> Result<(), NoMemory>
    ensures { Walks result marks.old marks.new (places.mark_stmt (tree.case_stmt node
        (view.view_expr value.now) (view.view_arm first.now) (view.arms_of more.now)
        (view.else_of otherwise.now))) }
{
    let at = marks.end;
    marks.begin()?;
    token_behind(mark_expr(marks, value), marks)?;
    mark_arm(marks, first)?;
    mark_arms(marks, more)?;
    closed(mark_else(marks, otherwise), marks, node, at)
}

#[cycle(marks)]
fn mark_arms(marks: &mut Marks, more: &[Arm]) -> Result<(), NoMemory>
    ensures { Walks result marks.old marks.new (places.mark_arms (view.arms_of more.now)) }
{
    for arm in more {
        marks.token()?;
        mark_arm(marks, arm)?;
    }
    Ok(())
}

#[cycle(marks)]
fn mark_arm(marks: &mut Marks, arm: &Arm) -> Result<(), NoMemory>
    ensures { Walks result marks.old marks.new (places.mark_arm (view.view_arm arm.now)) }
{
    match arm {
        Arm::Empty { node } => marks.empty(*node),
        Arm::Labelled {
            node,
            first,
            more,
            body,
        } => mark_labelled(marks, *node, first, more, body),
    }
}

#[cycle(marks)]
fn mark_labelled(
    marks: &mut Marks,
    node: u32,
    first: &Label,
    more: &[Label],
    body: &Stmts,
) -> Result<(), NoMemory>
    ensures { Walks result marks.old marks.new (places.mark_arm (tree.arm node
        (view.view_label first.now) (view.labels_of more.now) (view.view_stmts body.now))) }
{
    let at = marks.end;
    mark_label(marks, first)?;
    token_behind(mark_labels(marks, more), marks)?;
    node_behind(mark_stmts(marks, body), marks, node, at)
}

#[cycle(marks)]
fn mark_labels(marks: &mut Marks, more: &[Label]) -> Result<(), NoMemory>
    ensures { Walks result marks.old marks.new (places.mark_labels (view.labels_of more.now)) }
{
    for label in more {
        marks.token()?;
        mark_label(marks, label)?;
    }
    Ok(())
}

#[cycle(marks)]
fn mark_label(marks: &mut Marks, label: &Label) -> Result<(), NoMemory>
    ensures { Walks result marks.old marks.new (places.mark_label (view.view_label label.now)) }
{
    let at = marks.end;
    mark_expr(marks, &label.low)?;
    node_behind(mark_high(marks, &label.high), marks, label.node, at)
}

#[cycle(marks)]
fn mark_high(marks: &mut Marks, high: &Option<Expr>) -> Result<(), NoMemory>
    ensures { Walks result marks.old marks.new (places.mark_high (view.high_of high.now)) }
{
    match high {
        None => Ok(()),
        Some(high) => {
            marks.token()?;
            mark_expr(marks, high)
        }
    }
}

/// EITHER.
#[cycle(marks)]
pub(crate) fn mark_either(
    marks: &mut Marks,
    node: u32,
    first: &Stmts,
    more: &[Stmts],
) -> Result<(), NoMemory>
    ensures { Walks result marks.old marks.new (places.mark_stmt
        (tree.either_stmt node (view.view_stmts first.now) (view.orelses_of more.now))) }
{
    let at = marks.end;
    marks.begin()?;
    mark_stmts(marks, first)?;
    closed(mark_orelses(marks, more), marks, node, at)
}

#[cycle(marks)]
fn mark_orelses(marks: &mut Marks, more: &[Stmts]) -> Result<(), NoMemory>
    ensures { Walks result marks.old marks.new (places.mark_orelses (view.orelses_of more.now)) }
{
    for body in more {
        marks.token()?;
        mark_stmts(marks, body)?;
    }
    Ok(())
}

/// FORALL.
#[cycle(marks)]
pub(crate) fn mark_forall(
    marks: &mut Marks,
    node: u32,
    choice: &Stmts,
    body: &Stmts,
) -> Result<(), NoMemory>
    ensures { Walks result marks.old marks.new (places.mark_stmt
        (tree.forall_stmt node (view.view_stmts choice.now) (view.view_stmts body.now))) }
{
    let at = marks.end;
    marks.begin()?;
    token_behind(mark_stmts(marks, choice), marks)?;
    closed(mark_stmts(marks, body), marks, node, at)
}

/// COMMIT.
#[cycle(marks)]
pub(crate) fn mark_commit(marks: &mut Marks, node: u32, body: &Stmts) -> Result<(), NoMemory>
    ensures { Walks result marks.old marks.new
        (places.mark_stmt (tree.commit_stmt node (view.view_stmts body.now))) }
{
    let at = marks.end;
    marks.begin()?;
    closed(mark_stmts(marks, body), marks, node, at)
}
