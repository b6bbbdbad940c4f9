// Conditions that are tested by a jump: the value of an expression without a call and without a
// truth.
ghost use Rattle.std.specs.Prelude.{◌≡◌};
ghost use Rattle.alma_ir.specs.View.{expr_of, links_list, sel_of, sels_list};
ghost use Rattle.alma_lower_templates.specs.Slots.{is_simple_expr, are_simple_links, are_simple_sels, is_simple_sel};

use alma_ir::{Expr, Link, Sel};

/// Whether an expression has no call and no truth in it.
#[cycle(simple)]
pub fn is_simple(expr: &Expr) -> bool
    ensures { result ≡ is_simple_expr (expr_of expr.now) }
{
    match expr {
        Expr::Const(_) => true,
        Expr::Load(desig) => are_simple_sels(&desig.sels),
        Expr::Known(desig) => are_simple_sels(&desig.sels),
        Expr::Chain(_, first, links) => is_simple(first) && are_simple_links(links),
        Expr::Compare(_, left, right) => is_simple(left) && is_simple(right),
        Expr::Truth(_) => false,
        Expr::Call(_) => false,
        Expr::Chr(inner) => is_simple(inner),
    }
}

// Whether no operand has a call or a truth in it.
#[cycle(simple)]
fn are_simple_links(links: &[Link]) -> bool
    ensures { result ≡ are_simple_links (links_list links.now) }
{
    for link in links {
        if !is_simple(&link.operand) {
            return false;
        }
    }
    true
}

// Whether no index has a call or a truth in it.
#[cycle(simple)]
fn are_simple_sels(sels: &[Sel]) -> bool
    ensures { result ≡ are_simple_sels (sels_list sels.now) }
{
    for sel in sels {
        if !is_simple_sel(sel) {
            return false;
        }
    }
    true
}

// Whether the index of a selector, if it has one, has no call and no truth in it.
#[cycle(simple)]
fn is_simple_sel(sel: &Sel) -> bool
    ensures { result ≡ is_simple_sel (sel_of sel.now) }
{
    match sel {
        Sel::Field(_, _) => true,
        Sel::Index(index, _, _) => is_simple(index),
    }
}
