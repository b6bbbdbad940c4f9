// What an expression exactly is, and the formal of an argument.
ghost use Rattle.std.specs.Prelude.{◌≡◌, Option, None, Some, option_map, option_and_then, slice_get, IfOk};
ghost use Rattle.alma_rules.specs.Numbered as tree;
ghost use Rattle.alma_rules.specs.View.{view_expr, view_simple, view_term, view_primary, view_desig, args_of};
ghost use Rattle.alma_rules.specs.ExprRules as rules;
ghost use Rattle.alma_rules.specs.Nodes as nodes;
ghost use Rattle.alma_check_rules.specs.Views.{scene_of, headings_in, argument_view, callee_in, formal_view, found_view, somewhere};
ghost use Rattle.alma_check_join_expr.specs.Alone.{simple_alone, term_alone};
ghost use Rattle.alma_check_join_expr.specs.Exactly.{only_primary, named_by, literal_of, text_of};

use crate::chain::{is_one_factor, is_one_term};
use alma_check_rules::{Argument, Callee, Env, Formal, Found};
use alma_tree::{Args, Desig, Expr, Factor, Primary, Simple, Term};
use std::alloc::AllocError;

// The primary that a product is, without operators.
fn primary_of_term(term: &Term) -> Option<&Primary>
    ensures { option_map (λ p. view_primary p.now) result ≡ term_alone (view_term term.now) }
{
    if !is_one_factor(&term.more) {
        return None;
    }
    match &term.first {
        Factor::Plain { node: _, primary } => Some(primary),
        Factor::Not { .. } => None,
    }
}

// The primary that a sum is, without sign and operators.
fn primary_of_sum(sum: &Simple) -> Option<&Primary>
    ensures { option_map (λ p. view_primary p.now) result ≡ simple_alone (view_simple sum.now) }
{
    if is_one_term(sum.sign, &sum.more) {
        primary_of_term(&sum.first)
    } else {
        None
    }
}

// The primary that an expression is, without sign, operator or relation.
fn primary_of(expr: &Expr) -> Option<&Primary>
    ensures { option_map (λ p. view_primary p.now) result ≡ only_primary (view_expr expr.now) }
{
    match &expr.right {
        Some(_compared) => None,
        None => primary_of_sum(&expr.left),
    }
}

// The designator of a name that is not called.
#[tactic(auto, unfolding(crate::specs::Exactly::named_by))]
fn uncalled<'d>(desig: &'d Desig, args: &Option<Args>) -> Option<&'d Desig>
    ensures { option_map (λ d. view_desig d.now) result ≡ named_by (tree.named 0
        (view_desig desig.now) (args_of args.now)) }
{
    match args {
        None => Some(desig),
        Some(_) => None,
    }
}

#[tactic(auto, unfolding(crate::specs::Exactly::named_by))]
fn named_in(primary: &Primary) -> Option<&Desig>
    ensures { option_map (λ d. view_desig d.now) result ≡ named_by (view_primary primary.now) }
{
    match primary {
        Primary::Desig {
            node: _,
            desig,
            args,
        } => uncalled(desig, args),
        Primary::Number { .. } | Primary::Literal { .. } => None,
        Primary::Paren { .. } | Primary::Known { .. } => None,
        Primary::Ord { .. } | Primary::Chr { .. } => None,
    }
}

fn named_of(expr: &Expr) -> Option<&Desig>
    ensures { option_map (λ d. view_desig d.now) result ≡ rules.exactly (view_expr expr.now) }
{
    match primary_of(expr) {
        None => None,
        Some(primary) => named_in(primary),
    }
}

fn found_kind(env: &Env, found: Found) -> Argument
    ensures { argument_view result ≡ rules.argument_found (scene_of env.now somewhere)
        (found_view (headings_in env.now) found) }
{
    match found {
        Found::Absent | Found::Bad => Argument::OfBad,
        Found::Constant(_, _) | Found::Named(_) => Argument::Other,
        Found::Variable(_, _) => Argument::OfVariable,
        Found::Routine(routine, _) => match env.heading(routine) {
            None => Argument::OfBad,
            Some(_heading) => Argument::Other,
        },
    }
}

/// Whether an argument is exactly a designator, and whether of a variable.
pub fn argument_kind(env: &Env, expr: &Expr) -> Result<Argument, AllocError>
    ensures { IfOk result (λ k. argument_view k
        ≡ rules.argument_kind (scene_of env.now somewhere) (view_expr expr.now)) }
{
    match named_of(expr) {
        None => Ok(Argument::Other),
        Some(desig) => {
            let found = env.found(&desig.name)?;
            Ok(found_kind(env, found))
        }
    }
}

#[tactic(auto, unfolding(crate::specs::Exactly::literal_of))]
fn literal_in(primary: &Primary) -> Option<(u32, u32)>
    ensures { result ≡ literal_of (view_primary primary.now) }
{
    match primary {
        Primary::Literal { node, literal } => Some((*node, literal.token)),
        Primary::Number { .. } | Primary::Desig { .. } => None,
        Primary::Paren { .. } | Primary::Known { .. } => None,
        Primary::Ord { .. } | Primary::Chr { .. } => None,
    }
}

// The number and the token of a literal that is a whole item of WRITE.
fn item_literal(expr: &Expr) -> Option<(u32, u32)>
    ensures { result ≡ nodes.item_literal (view_expr expr.now) }
{
    match primary_of(expr) {
        None => None,
        Some(primary) => literal_in(primary),
    }
}

/// The number and the bytes of a literal that is a whole item of WRITE and no CHAR.
pub fn item_text<'s>(env: &Env<'_, 's>, expr: &Expr) -> Option<(u32, &'s [u8])>
    ensures { option_map (λ t. (t.0, t.1.now)) result
        ≡ option_and_then (text_of (scene_of env.now somewhere))
        (nodes.item_literal (view_expr expr.now)) }
{
    match item_literal(expr) {
        None => None,
        Some((node, token)) => {
            let bytes = env.literal(token);
            if bytes.len() == 1 {
                None
            } else {
                Some((node, bytes))
            }
        }
    }
}

/// The formal of an argument by its place, where the routine has one there.
pub fn formal_of(env: &Env, callee: Option<Callee>, index: usize) -> Option<Formal>
    ensures { option_map formal_view result
        ≡ slice_get (nodes.formals_of (callee_in (headings_in env.now) callee)) index }
{
    match callee {
        None => None,
        Some(callee) => match env.heading(callee.number) {
            None => None,
            Some(heading) => heading.formals.get(index).copied(),
        },
    }
}
