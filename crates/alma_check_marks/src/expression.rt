// Expressions and designators.
ghost use Rattle.alma_rules.specs.Numbered as tree;
ghost use Rattle.alma_rules.specs.Places as places;
ghost use Rattle.alma_rules.specs.View as view;
ghost use Rattle.alma_check_marks.specs.Marking.{Walks};

use crate::mark::{Marks, closed, node_behind, token_behind};
use crate::statement::mark_stmts;
use alma_base::NoMemory;
use alma_tree::{
    AddLink, Args, Compared, Desig, Expr, Exprs, Factor, MulLink, Primary, Selector, Sign, Simple,
    Stmt, Stmts, Term,
};

/// An expression.
#[cycle(marks)]
pub fn mark_expr(marks: &mut Marks, expr: &Expr) -> Result<(), NoMemory>
    ensures { Walks result marks.old marks.new (places.mark_expr (view.view_expr expr.now)) }
{
    let at = marks.end;
    mark_simple(marks, &expr.left)?;
    node_behind(mark_compared(marks, &expr.right), marks, expr.node, at)
}

#[cycle(marks)]
fn mark_compared(marks: &mut Marks, right: &Option<Box<Compared>>) -> Result<(), NoMemory>
    ensures { Walks result marks.old marks.new
        (places.mark_compared (view.compared_of right.now)) }
{
    match right {
        None => Ok(()),
        Some(compared) => {
            marks.token()?;
            mark_simple(marks, &compared.right)
        }
    }
}

#[cycle(marks)]
fn mark_simple(marks: &mut Marks, simple: &Simple) -> Result<(), NoMemory>
    ensures { Walks result marks.old marks.new (places.mark_simple (view.view_simple simple.now)) }
{
    let at = marks.end;
    mark_sign(marks, simple.sign)?;
    mark_term(marks, &simple.first)?;
    node_behind(mark_terms(marks, &simple.more), marks, simple.node, at)
}

fn mark_sign(marks: &mut Marks, sign: Option<Sign>) -> Result<(), NoMemory>
    ensures { Walks result marks.old marks.new (places.mark_sign sign) }
{
    match sign {
        None => Ok(()),
        Some(_) => marks.token(),
    }
}

#[cycle(marks)]
fn mark_terms(marks: &mut Marks, more: &[AddLink]) -> Result<(), NoMemory>
    ensures { Walks result marks.old marks.new (places.mark_terms (view.terms_of more.now)) }
{
    for link in more {
        marks.token()?;
        mark_term(marks, &link.operand)?;
    }
    Ok(())
}

#[cycle(marks)]
fn mark_term(marks: &mut Marks, term: &Term) -> Result<(), NoMemory>
    ensures { Walks result marks.old marks.new (places.mark_term (view.view_term term.now)) }
{
    let at = marks.end;
    mark_factor(marks, &term.first)?;
    node_behind(mark_factors(marks, &term.more), marks, term.node, at)
}

#[cycle(marks)]
fn mark_factors(marks: &mut Marks, more: &[MulLink]) -> Result<(), NoMemory>
    ensures { Walks result marks.old marks.new (places.mark_factors (view.factors_of more.now)) }
{
    for link in more {
        marks.token()?;
        mark_factor(marks, &link.operand)?;
    }
    Ok(())
}

#[cycle(marks)]
fn mark_factor(marks: &mut Marks, factor: &Factor) -> Result<(), NoMemory>
    ensures { Walks result marks.old marks.new (places.mark_factor (view.view_factor factor.now)) }
{
    let at = marks.end;
    match factor {
        Factor::Not { node, primary } => {
            marks.token()?;
            node_behind(mark_primary(marks, primary), marks, *node, at)
        }
        Factor::Plain { node, primary } => {
            node_behind(mark_primary(marks, primary), marks, *node, at)
        }
    }
}

#[cycle(marks)]
fn mark_primary(marks: &mut Marks, primary: &Primary) -> Result<(), NoMemory>
    ensures { Walks result marks.old marks.new
        (places.mark_primary (view.view_primary primary.now)) }
{
    match primary {
        Primary::Number { node, .. } => marks.leaf(*node),
        Primary::Literal { node, .. } => marks.leaf(*node),
        Primary::Desig { node, desig, args } => mark_named(marks, *node, desig, args),
        Primary::Paren { node, body } => mark_paren(marks, *node, body),
        Primary::Known { node, desig } => mark_known(marks, *node, desig),
        Primary::Ord { node, value } => mark_converted(marks, *node, value),
        Primary::Chr { node, value } => mark_converted(marks, *node, value),
    }
}

#[cycle(marks)]
fn mark_named(
    marks: &mut Marks,
    node: u32,
    desig: &Desig,
    args: &Option<Args>,
) -> Result<(), NoMemory>
    ensures { Walks result marks.old marks.new (places.mark_primary
        (tree.named node (view.view_desig desig.now) (view.args_of args.now))) }
{
    let at = marks.end;
    mark_desig(marks, desig)?;
    node_behind(mark_args(marks, args), marks, node, at)
}

#[cycle(marks)]
fn mark_paren(marks: &mut Marks, node: u32, body: &Stmts) -> Result<(), NoMemory>
    ensures { Walks result marks.old marks.new
        (places.mark_primary (tree.paren node (view.view_stmts body.now))) }
{
    let at = marks.end;
    marks.token()?;
    closed(mark_inside(marks, body), marks, node, at)
}

// What stands in parentheses: one expression, or statements.
#[cycle(marks)]
fn mark_inside(marks: &mut Marks, body: &Stmts) -> Result<(), NoMemory>
    ensures { Walks result marks.old marks.new (places.first_step
        (places.mark_only (view.view_stmts body.now))
        (places.mark_stmts (view.view_stmts body.now))) }
{
    if !body.more.is_empty() {
        return mark_stmts(marks, body);
    }
    match &*body.first {
        Stmt::Value { node, value } => mark_only(marks, body.node, *node, value),
        _ => mark_stmts(marks, body),
    }
}

// The one statement of a sequence, which is an expression.
#[cycle(marks)]
fn mark_only(marks: &mut Marks, outer: u32, node: u32, value: &Expr) -> Result<(), NoMemory>
    ensures { Walks result marks.old marks.new (places.whole outer
        (places.whole node (places.mark_expr (view.view_expr value.now)))) }
{
    let at = marks.end;
    let inner = node_behind(mark_expr(marks, value), marks, node, at);
    node_behind(inner, marks, outer, at)
}

#[cycle(marks)]
fn mark_known(marks: &mut Marks, node: u32, desig: &Desig) -> Result<(), NoMemory>
    ensures { Walks result marks.old marks.new
        (places.mark_primary (tree.known node (view.view_desig desig.now))) }
{
    let at = marks.end;
    marks.tokens()?;
    closed(mark_desig(marks, desig), marks, node, at)
}

// ORD or CHR of an expression.
#[cycle(marks)]
fn mark_converted(marks: &mut Marks, node: u32, value: &Expr) -> Result<(), NoMemory>
    ensures { Walks result marks.old marks.new
        (places.mark_primary (tree.ord node (view.view_expr value.now))) }
{
    let at = marks.end;
    marks.tokens()?;
    closed(mark_expr(marks, value), marks, node, at)
}

#[cycle(marks)]
fn mark_args(marks: &mut Marks, args: &Option<Args>) -> Result<(), NoMemory>
    ensures { Walks result marks.old marks.new (places.mark_args (view.args_of args.now)) }
{
    match args {
        None => Ok(()),
        Some(args) => mark_values(marks, &args.values),
    }
}

// Arguments between parentheses.
#[cycle(marks)]
fn mark_values(marks: &mut Marks, values: &Option<Exprs>) -> Result<(), NoMemory>
    ensures { Walks result marks.old marks.new (places.mark_args (view.args_values values.now)) }
{
    marks.token()?;
    match values {
        None => marks.token(),
        Some(values) => token_behind(mark_exprs(marks, values), marks),
    }
}

#[cycle(marks)]
fn mark_exprs(marks: &mut Marks, exprs: &Exprs) -> Result<(), NoMemory>
    ensures { Walks result marks.old marks.new (places.mark_exprs (view.view_exprs exprs.now)) }
{
    mark_expr(marks, &exprs.first)?;
    mark_expr_tail(marks, &exprs.more)
}

#[cycle(marks)]
fn mark_expr_tail(marks: &mut Marks, more: &[Expr]) -> Result<(), NoMemory>
    ensures { Walks result marks.old marks.new (places.mark_expr_tail (view.exprs_of more.now)) }
{
    for expr in more {
        marks.token()?;
        mark_expr(marks, expr)?;
    }
    Ok(())
}

/// A designator.
#[cycle(marks)]
pub(crate) fn mark_desig(marks: &mut Marks, desig: &Desig) -> Result<(), NoMemory>
    ensures { Walks result marks.old marks.new (places.mark_desig (view.view_desig desig.now)) }
{
    let at = marks.end;
    marks.leaf(desig.name.node)?;
    node_behind(mark_selectors(marks, &desig.more), marks, desig.node, at)
}

#[cycle(marks)]
fn mark_selectors(marks: &mut Marks, more: &[Selector]) -> Result<(), NoMemory>
    ensures { Walks result marks.old marks.new
        (places.mark_selectors (view.selectors_of more.now)) }
{
    for selector in more {
        mark_selector(marks, selector)?;
    }
    Ok(())
}

#[cycle(marks)]
fn mark_selector(marks: &mut Marks, selector: &Selector) -> Result<(), NoMemory>
    ensures { Walks result marks.old marks.new
        (places.mark_selector (view.view_selector selector.now)) }
{
    let at = marks.end;
    marks.token()?;
    match selector {
        Selector::Field { node, name } => node_behind(marks.leaf(name.node), marks, *node, at),
        Selector::Index { node, indices } => closed(mark_exprs(marks, indices), marks, *node, at),
    }
}
