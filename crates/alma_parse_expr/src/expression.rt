// Expressions and designators.
ghost use Rattle.std.specs.Prelude.{◌∷◌, ◌<◌, pred, length, MatchResult, IfOk};
ghost use Rattle.alma_tree.specs.Spelling.{spell_expr, spell_compared, spell_simple, spell_term_tail, spell_term, spell_factor_tail};
ghost use Rattle.alma_tree.specs.Spelling.{spell_factor, spell_primary, spell_args, spell_exprs, spell_expr_tail, spell_desig, spell_selector_tail};
ghost use Rattle.alma_tree.specs.Spelling.{spell_selector};
ghost use Rattle.alma_tree.specs.View.{view_expr, compared_of, view_simple, terms_of, view_term, factors_of, view_factor, view_primary, args_of};
ghost use Rattle.alma_tree.specs.View.{view_exprs, exprs_of, view_desig, selectors_of, view_selector};
ghost use Rattle.alma_tree.specs.Numbers.{number_expr, numbers_of_compared, number_simple, numbers_of_terms, number_term, numbers_of_factors};
ghost use Rattle.alma_tree.specs.Numbers.{number_factor, number_primary, numbers_of_args, number_exprs, numbers_of_exprs, number_desig, numbers_of_selectors};
ghost use Rattle.alma_tree.specs.Numbers.{number_selector};
ghost use Rattle.alma_grammar.specs.Filling.{spell_inside_args};
ghost use Rattle.alma_grammar.specs.Parts.{factor_part, primary_part, factor_tail, term_tail, compared_part, args_part, args_inside, expr_tail};
ghost use Rattle.alma_grammar.specs.Parts.{selector_tail, term_parts, simple_parts, expr_parts, exprs_parts, desig_parts};
ghost use Rattle.alma_parse_cursor.specs.Forms.{paren_parts, known_parts, ord_parts, chr_parts, index_parts, selector_form_parts};
ghost use Rattle.alma_parse_expr.specs.Pieces.{inside_of, number_inside_args, spell_signed, number_signed};
ghost use Rattle.alma_parse_expr.specs.Inside.{ReadsStmts};
ghost use Rattle.alma_parse_cursor.specs.Parsing.{position_of, Reads, Extends, Fails};

use crate::leaf::{field, literal, number};
use crate::list::{boxed, present, pushed};
use crate::node::{
    add_link, arguments_of, chr_of, desig_of, expr_of, expressions_of, index_of, known_of,
    mul_link, named_of, not_of, ord_of, paren_of, plain_of, relation_of, simple_of, term_of,
};
use crate::step::open_after;
use alma_parse_cursor::{Cursor, Fault, PrimaryForm, SelectorForm, followed_by, numbered};
use alma_tree::{
    AddLink, Args, Compared, Desig, Expr, Exprs, Factor, Kind, MulLink, Primary, Selector, Sign,
    Simple, Stmts, Term,
};
use std::alloc::Global;

/// What reading the statements inside a parenthesis gives.
pub type StmtsRead<'t, 's> = Result<(Stmts, Cursor<'t, 's>), Fault<'t, 's>>;

/// An expression; what stands behind it is left to the caller. `depth` counts the brackets that are
/// open here, and `inside` reads the statements that stand in a parenthesis.
#[cycle(values)]
pub fn expr<'t, 's, S>(
    alloc: Global,
    at: Cursor<'t, 's>,
    depth: u32,
    inside: &S,
) -> Result<(Expr, Cursor<'t, 's>), Fault<'t, 's>>
where
    S: for<'a, 'b> Fn(Global, Cursor<'a, 'b>, u32) -> StmtsRead<'a, 'b>,
    requires reads { ReadsStmts (S.IsAlwaysCallable inside.now) (S.post inside.now) }
    ensures read { MatchResult result (λ t. Reads (spell_expr (view_expr t.0))
        (number_expr t.0) expr_parts depth depth (position_of at.entry) (position_of t.1))
        (λ e. Fails e expr_parts depth (position_of at.entry)) }
{
    let (left, at) = simple(alloc, at, depth, inside)?;
    expr_from(alloc, left, at, depth, inside)
}

/// The expression whose left side has been read.
#[cycle(values)]
fn expr_from<'t, 's, S>(
    alloc: Global,
    left: Simple,
    at: Cursor<'t, 's>,
    depth: u32,
    inside: &S,
) -> Result<(Expr, Cursor<'t, 's>), Fault<'t, 's>>
where
    S: for<'a, 'b> Fn(Global, Cursor<'a, 'b>, u32) -> StmtsRead<'a, 'b>,
    requires reads { ReadsStmts (S.IsAlwaysCallable inside.now) (S.post inside.now) }
    ensures read { MatchResult result
        (λ t. Extends (spell_simple (view_simple left)) (number_simple left)
        (λ o. compared_part ∷ o)
        (spell_expr (view_expr t.0)) (number_expr t.0) depth (position_of at.entry)
        (position_of t.1))
        (λ e. Fails e (λ o. compared_part ∷ o) depth (position_of at.entry)) }
{
    expr_of(left, numbered(compared(alloc, at, depth, inside)))
}

#[cycle(values)]
fn compared<'t, 's, S>(
    alloc: Global,
    at: Cursor<'t, 's>,
    depth: u32,
    inside: &S,
) -> Result<(Option<Box<Compared>>, Cursor<'t, 's>), Fault<'t, 's>>
where
    S: for<'a, 'b> Fn(Global, Cursor<'a, 'b>, u32) -> StmtsRead<'a, 'b>,
    requires reads { ReadsStmts (S.IsAlwaysCallable inside.now) (S.post inside.now) }
    ensures read { MatchResult result
        (λ t. Reads (spell_compared (compared_of t.0)) (numbers_of_compared t.0)
        (λ o. compared_part ∷ o) depth depth (position_of at.entry) (position_of t.1))
        (λ e. Fails e (λ o. compared_part ∷ o) depth (position_of at.entry)) }
{
    let Some((relation, at)) = at.relation() else {
        return Ok((None, at));
    };
    relation_of(alloc, relation, simple(alloc, at, depth, inside))
}

#[cycle(values)]
fn simple<'t, 's, S>(
    alloc: Global,
    at: Cursor<'t, 's>,
    depth: u32,
    inside: &S,
) -> Result<(Simple, Cursor<'t, 's>), Fault<'t, 's>>
where
    S: for<'a, 'b> Fn(Global, Cursor<'a, 'b>, u32) -> StmtsRead<'a, 'b>,
    requires reads { ReadsStmts (S.IsAlwaysCallable inside.now) (S.post inside.now) }
    ensures read { MatchResult result (λ t. Reads (spell_simple (view_simple t.0))
        (number_simple t.0) simple_parts depth depth (position_of at.entry) (position_of t.1))
        (λ e. Fails e simple_parts depth (position_of at.entry)) }
{
    let (sign, at) = at.sign();
    let (first, at) = term(alloc, at, depth, inside)?;
    simple_from(alloc, sign, first, at, depth, inside)
}

/// The sum whose sign and first term have been read.
#[cycle(values)]
fn simple_from<'t, 's, S>(
    alloc: Global,
    sign: Option<Sign>,
    first: Term,
    at: Cursor<'t, 's>,
    depth: u32,
    inside: &S,
) -> Result<(Simple, Cursor<'t, 's>), Fault<'t, 's>>
where
    S: for<'a, 'b> Fn(Global, Cursor<'a, 'b>, u32) -> StmtsRead<'a, 'b>,
    requires reads { ReadsStmts (S.IsAlwaysCallable inside.now) (S.post inside.now) }
    ensures read { MatchResult result
        (λ t. Extends (spell_signed sign first) (number_signed sign first) (λ o. term_tail ∷ o)
        (spell_simple (view_simple t.0)) (number_simple t.0) depth (position_of at.entry)
        (position_of t.1))
        (λ e. Fails e (λ o. term_tail ∷ o) depth (position_of at.entry)) }
{
    simple_of(
        alloc,
        sign,
        first,
        numbered(terms(alloc, at, depth, inside)),
    )
}

#[cycle(values)]
fn terms<'t, 's, S>(
    alloc: Global,
    mut at: Cursor<'t, 's>,
    depth: u32,
    inside: &S,
) -> Result<(Vec<AddLink>, Cursor<'t, 's>), Fault<'t, 's>>
where
    S: for<'a, 'b> Fn(Global, Cursor<'a, 'b>, u32) -> StmtsRead<'a, 'b>,
    requires reads { ReadsStmts (S.IsAlwaysCallable inside.now) (S.post inside.now) }
    ensures read { MatchResult result
        (λ t. Reads (spell_term_tail (terms_of t.0.items)) (numbers_of_terms t.0.items)
        (λ o. term_tail ∷ o) depth depth (position_of at.entry) (position_of t.1))
        (λ e. Fails e (λ o. term_tail ∷ o) depth (position_of at.entry)) }
{
    let mut more = Vec::new(alloc);
    while let Some((operator, after)) = at.add_operator() {
        at = pushed(
            &mut more,
            add_link(operator, term(alloc, after, depth, inside)),
        )?;
    }
    Ok((more, at))
}

#[cycle(values)]
fn term<'t, 's, S>(
    alloc: Global,
    at: Cursor<'t, 's>,
    depth: u32,
    inside: &S,
) -> Result<(Term, Cursor<'t, 's>), Fault<'t, 's>>
where
    S: for<'a, 'b> Fn(Global, Cursor<'a, 'b>, u32) -> StmtsRead<'a, 'b>,
    requires reads { ReadsStmts (S.IsAlwaysCallable inside.now) (S.post inside.now) }
    ensures read { MatchResult result (λ t. Reads (spell_term (view_term t.0))
        (number_term t.0) term_parts depth depth (position_of at.entry) (position_of t.1))
        (λ e. Fails e term_parts depth (position_of at.entry)) }
{
    let (first, at) = factor(alloc, at, depth, inside)?;
    term_from(alloc, first, at, depth, inside)
}

/// The product whose first factor has been read.
#[cycle(values)]
fn term_from<'t, 's, S>(
    alloc: Global,
    first: Factor,
    at: Cursor<'t, 's>,
    depth: u32,
    inside: &S,
) -> Result<(Term, Cursor<'t, 's>), Fault<'t, 's>>
where
    S: for<'a, 'b> Fn(Global, Cursor<'a, 'b>, u32) -> StmtsRead<'a, 'b>,
    requires reads { ReadsStmts (S.IsAlwaysCallable inside.now) (S.post inside.now) }
    ensures read { MatchResult result
        (λ t. Extends (spell_factor (view_factor first)) (number_factor first)
        (λ o. factor_tail ∷ o)
        (spell_term (view_term t.0)) (number_term t.0) depth (position_of at.entry)
        (position_of t.1))
        (λ e. Fails e (λ o. factor_tail ∷ o) depth (position_of at.entry)) }
{
    term_of(first, numbered(factors(alloc, at, depth, inside)))
}

#[cycle(values)]
fn factors<'t, 's, S>(
    alloc: Global,
    mut at: Cursor<'t, 's>,
    depth: u32,
    inside: &S,
) -> Result<(Vec<MulLink>, Cursor<'t, 's>), Fault<'t, 's>>
where
    S: for<'a, 'b> Fn(Global, Cursor<'a, 'b>, u32) -> StmtsRead<'a, 'b>,
    requires reads { ReadsStmts (S.IsAlwaysCallable inside.now) (S.post inside.now) }
    ensures read { MatchResult result
        (λ t. Reads (spell_factor_tail (factors_of t.0.items)) (numbers_of_factors t.0.items)
        (λ o. factor_tail ∷ o) depth depth (position_of at.entry) (position_of t.1))
        (λ e. Fails e (λ o. factor_tail ∷ o) depth (position_of at.entry)) }
{
    let mut more = Vec::new(alloc);
    while let Some((operator, after)) = at.mul_operator() {
        at = pushed(
            &mut more,
            mul_link(operator, factor(alloc, after, depth, inside)),
        )?;
    }
    Ok((more, at))
}

#[cycle(values)]
fn factor<'t, 's, S>(
    alloc: Global,
    at: Cursor<'t, 's>,
    depth: u32,
    inside: &S,
) -> Result<(Factor, Cursor<'t, 's>), Fault<'t, 's>>
where
    S: for<'a, 'b> Fn(Global, Cursor<'a, 'b>, u32) -> StmtsRead<'a, 'b>,
    requires reads { ReadsStmts (S.IsAlwaysCallable inside.now) (S.post inside.now) }
    ensures read { MatchResult result
        (λ t. Reads (spell_factor (view_factor t.0)) (number_factor t.0)
        (λ o. factor_part ∷ o) depth depth (position_of at.entry) (position_of t.1))
        (λ e. Fails e (λ o. factor_part ∷ o) depth (position_of at.entry)) }
{
    if let Some(after) = at.skip(Kind::Not) {
        return not_of(numbered(primary(alloc, after, depth, inside)));
    }
    plain_of(numbered(primary(alloc, at, depth, inside)))
}

#[cycle(values)]
fn primary<'t, 's, S>(
    alloc: Global,
    at: Cursor<'t, 's>,
    depth: u32,
    inside: &S,
) -> Result<(Primary, Cursor<'t, 's>), Fault<'t, 's>>
where
    S: for<'a, 'b> Fn(Global, Cursor<'a, 'b>, u32) -> StmtsRead<'a, 'b>,
    requires reads { ReadsStmts (S.IsAlwaysCallable inside.now) (S.post inside.now) }
    ensures read { MatchResult result
        (λ t. Reads (spell_primary (view_primary t.0)) (number_primary t.0)
        (λ o. primary_part ∷ o) depth depth (position_of at.entry) (position_of t.1))
        (λ e. Fails e (λ o. primary_part ∷ o) depth (position_of at.entry)) }
{
    match at.primary_form()? {
        PrimaryForm::Number => number(at),
        PrimaryForm::Literal => literal(at),
        PrimaryForm::Desig => {
            let (desig, at) = desig(alloc, at, depth, inside)?;
            named(alloc, desig, at, depth, inside)
        }
        PrimaryForm::Paren => paren(alloc, at, depth, inside),
        PrimaryForm::Known => known(alloc, at, depth, inside),
        PrimaryForm::Ord => ord(alloc, at, depth, inside),
        PrimaryForm::Chr => chr(alloc, at, depth, inside),
    }
}

/// The primary whose designator has been read.
#[cycle(values)]
fn named<'t, 's, S>(
    alloc: Global,
    desig: Desig,
    at: Cursor<'t, 's>,
    depth: u32,
    inside: &S,
) -> Result<(Primary, Cursor<'t, 's>), Fault<'t, 's>>
where
    S: for<'a, 'b> Fn(Global, Cursor<'a, 'b>, u32) -> StmtsRead<'a, 'b>,
    requires reads { ReadsStmts (S.IsAlwaysCallable inside.now) (S.post inside.now) }
    ensures read { MatchResult result
        (λ t. Extends (spell_desig (view_desig desig)) (number_desig desig) (λ o. args_part ∷ o)
        (spell_primary (view_primary t.0)) (number_primary t.0) depth (position_of at.entry)
        (position_of t.1))
        (λ e. Fails e (λ o. args_part ∷ o) depth (position_of at.entry)) }
{
    let args = args(alloc, at, depth, inside);
    named_of(desig, numbered(args))
}

fn paren<'t, 's, S>(
    alloc: Global,
    at: Cursor<'t, 's>,
    depth: u32,
    inside: &S,
) -> Result<(Primary, Cursor<'t, 's>), Fault<'t, 's>>
where
    S: for<'a, 'b> Fn(Global, Cursor<'a, 'b>, u32) -> StmtsRead<'a, 'b>,
    requires reads { ReadsStmts (S.IsAlwaysCallable inside.now) (S.post inside.now) }
    ensures read { MatchResult result (λ t. Reads (spell_primary (view_primary t.0))
        (number_primary t.0) paren_parts depth depth (position_of at.entry) (position_of t.1))
        (λ e. Fails e paren_parts depth (position_of at.entry)) }
{
    let (at, inner) = at.open(Kind::OpenParen, depth)?;
    let body = boxed(alloc, inside(alloc, at, inner));
    paren_of(numbered(followed_by(body, Kind::CloseParen)))
}

#[cycle(values)]
fn known<'t, 's, S>(
    alloc: Global,
    at: Cursor<'t, 's>,
    depth: u32,
    inside: &S,
) -> Result<(Primary, Cursor<'t, 's>), Fault<'t, 's>>
where
    S: for<'a, 'b> Fn(Global, Cursor<'a, 'b>, u32) -> StmtsRead<'a, 'b>,
    requires reads { ReadsStmts (S.IsAlwaysCallable inside.now) (S.post inside.now) }
    ensures read { MatchResult result (λ t. Reads (spell_primary (view_primary t.0))
        (number_primary t.0) known_parts depth depth (position_of at.entry) (position_of t.1))
        (λ e. Fails e known_parts depth (position_of at.entry)) }
{
    let (at, inner) = open_after(at, Kind::Known, Kind::OpenParen, depth)?;
    known_of(numbered(followed_by(desig(alloc, at, inner, inside), Kind::CloseParen)))
}

#[cycle(values)]
fn ord<'t, 's, S>(
    alloc: Global,
    at: Cursor<'t, 's>,
    depth: u32,
    inside: &S,
) -> Result<(Primary, Cursor<'t, 's>), Fault<'t, 's>>
where
    S: for<'a, 'b> Fn(Global, Cursor<'a, 'b>, u32) -> StmtsRead<'a, 'b>,
    requires reads { ReadsStmts (S.IsAlwaysCallable inside.now) (S.post inside.now) }
    ensures read { MatchResult result (λ t. Reads (spell_primary (view_primary t.0))
        (number_primary t.0) ord_parts depth depth (position_of at.entry) (position_of t.1))
        (λ e. Fails e ord_parts depth (position_of at.entry)) }
{
    let (at, inner) = open_after(at, Kind::Ord, Kind::OpenParen, depth)?;
    let value = boxed(alloc, expr(alloc, at, inner, inside));
    ord_of(numbered(followed_by(value, Kind::CloseParen)))
}

#[cycle(values)]
fn chr<'t, 's, S>(
    alloc: Global,
    at: Cursor<'t, 's>,
    depth: u32,
    inside: &S,
) -> Result<(Primary, Cursor<'t, 's>), Fault<'t, 's>>
where
    S: for<'a, 'b> Fn(Global, Cursor<'a, 'b>, u32) -> StmtsRead<'a, 'b>,
    requires reads { ReadsStmts (S.IsAlwaysCallable inside.now) (S.post inside.now) }
    ensures read { MatchResult result (λ t. Reads (spell_primary (view_primary t.0))
        (number_primary t.0) chr_parts depth depth (position_of at.entry) (position_of t.1))
        (λ e. Fails e chr_parts depth (position_of at.entry)) }
{
    let (at, inner) = open_after(at, Kind::Chr, Kind::OpenParen, depth)?;
    let value = boxed(alloc, expr(alloc, at, inner, inside));
    chr_of(numbered(followed_by(value, Kind::CloseParen)))
}

/// The arguments of a call with their parentheses, which may be empty; None where no `(` stands
/// here. `depth` is that before the parenthesis.
#[cycle(values)]
pub fn args<'t, 's, S>(
    alloc: Global,
    at: Cursor<'t, 's>,
    depth: u32,
    inside: &S,
) -> Result<(Option<Args>, Cursor<'t, 's>), Fault<'t, 's>>
where
    S: for<'a, 'b> Fn(Global, Cursor<'a, 'b>, u32) -> StmtsRead<'a, 'b>,
    requires reads { ReadsStmts (S.IsAlwaysCallable inside.now) (S.post inside.now) }
    ensures read { MatchResult result (λ t. Reads (spell_args (args_of t.0)) (numbers_of_args t.0)
        (λ o. args_part ∷ o) depth depth (position_of at.entry) (position_of t.1))
        (λ e. Fails e (λ o. args_part ∷ o) depth (position_of at.entry)) }
{
    if at.is_at(Kind::OpenParen) {
        let (at, inner) = at.open(Kind::OpenParen, depth)?;
        return arguments_of(args_values(alloc, at, inner, inside));
    }
    Ok((None, at))
}

/// Arguments behind the opening parenthesis, the closing one included. The depth is that inside.
#[cycle(values)]
fn args_values<'t, 's, S>(
    alloc: Global,
    at: Cursor<'t, 's>,
    depth: u32,
    inside: &S,
) -> Result<(Option<Exprs>, Cursor<'t, 's>), Fault<'t, 's>>
where
    S: for<'a, 'b> Fn(Global, Cursor<'a, 'b>, u32) -> StmtsRead<'a, 'b>,
    requires reads { ReadsStmts (S.IsAlwaysCallable inside.now) (S.post inside.now) }
    ensures read { MatchResult result
        (λ t. Reads (spell_inside_args (inside_of t.0)) (number_inside_args t.0)
        (λ o. args_inside ∷ o) depth (pred depth) (position_of at.entry) (position_of t.1))
        (λ e. Fails e (λ o. args_inside ∷ o) depth (position_of at.entry)) }
{
    if let Some(after) = at.skip(Kind::CloseParen) {
        return Ok((None, after));
    }
    present(followed_by(exprs(alloc, at, depth, inside), Kind::CloseParen))
}

/// One expression or more with commas between them.
#[cycle(values)]
pub fn exprs<'t, 's, S>(
    alloc: Global,
    at: Cursor<'t, 's>,
    depth: u32,
    inside: &S,
) -> Result<(Exprs, Cursor<'t, 's>), Fault<'t, 's>>
where
    S: for<'a, 'b> Fn(Global, Cursor<'a, 'b>, u32) -> StmtsRead<'a, 'b>,
    requires reads { ReadsStmts (S.IsAlwaysCallable inside.now) (S.post inside.now) }
    ensures read { MatchResult result (λ t. Reads (spell_exprs (view_exprs t.0))
        (number_exprs t.0) exprs_parts depth depth (position_of at.entry) (position_of t.1))
        (λ e. Fails e exprs_parts depth (position_of at.entry)) }
{
    let (first, at) = boxed(alloc, expr(alloc, at, depth, inside))?;
    expressions_of(first, expr_list(alloc, at, depth, inside))
}

#[cycle(values)]
fn expr_list<'t, 's, S>(
    alloc: Global,
    mut at: Cursor<'t, 's>,
    depth: u32,
    inside: &S,
) -> Result<(Vec<Expr>, Cursor<'t, 's>), Fault<'t, 's>>
where
    S: for<'a, 'b> Fn(Global, Cursor<'a, 'b>, u32) -> StmtsRead<'a, 'b>,
    requires reads { ReadsStmts (S.IsAlwaysCallable inside.now) (S.post inside.now) }
    ensures read { MatchResult result
        (λ t. Reads (spell_expr_tail (exprs_of t.0.items)) (numbers_of_exprs t.0.items)
        (λ o. expr_tail ∷ o) depth depth (position_of at.entry) (position_of t.1))
        (λ e. Fails e (λ o. expr_tail ∷ o) depth (position_of at.entry)) }
{
    let mut more = Vec::new(alloc);
    while let Some(after) = at.skip(Kind::Comma) {
        at = pushed(&mut more, expr(alloc, after, depth, inside))?;
    }
    Ok((more, at))
}

/// A designator: a name, and any number of indices and fields behind it.
#[cycle(values)]
pub fn desig<'t, 's, S>(
    alloc: Global,
    at: Cursor<'t, 's>,
    depth: u32,
    inside: &S,
) -> Result<(Desig, Cursor<'t, 's>), Fault<'t, 's>>
where
    S: for<'a, 'b> Fn(Global, Cursor<'a, 'b>, u32) -> StmtsRead<'a, 'b>,
    requires reads { ReadsStmts (S.IsAlwaysCallable inside.now) (S.post inside.now) }
    ensures read { MatchResult result (λ t. Reads (spell_desig (view_desig t.0))
        (number_desig t.0) desig_parts depth depth (position_of at.entry) (position_of t.1))
        (λ e. Fails e desig_parts depth (position_of at.entry)) }
{
    let (name, at) = at.name()?;
    desig_of(name, numbered(selectors(alloc, at, depth, inside)))
}

#[cycle(values)]
fn selectors<'t, 's, S>(
    alloc: Global,
    mut at: Cursor<'t, 's>,
    depth: u32,
    inside: &S,
) -> Result<(Vec<Selector>, Cursor<'t, 's>), Fault<'t, 's>>
where
    S: for<'a, 'b> Fn(Global, Cursor<'a, 'b>, u32) -> StmtsRead<'a, 'b>,
    requires reads { ReadsStmts (S.IsAlwaysCallable inside.now) (S.post inside.now) }
    ensures read { MatchResult result
        (λ t. Reads (spell_selector_tail (selectors_of t.0.items)) (numbers_of_selectors t.0.items)
        (λ o. selector_tail ∷ o) depth depth (position_of at.entry) (position_of t.1))
        (λ e. Fails e (λ o. selector_tail ∷ o) depth (position_of at.entry)) }
{
    let mut more = Vec::new(alloc);
    while let Some(form) = at.selector_form() {
        at = pushed(&mut more, selector(alloc, form, at, depth, inside))?;
    }
    Ok((more, at))
}

#[cycle(values)]
fn selector<'t, 's, S>(
    alloc: Global,
    form: SelectorForm,
    at: Cursor<'t, 's>,
    depth: u32,
    inside: &S,
) -> Result<(Selector, Cursor<'t, 's>), Fault<'t, 's>>
where
    S: for<'a, 'b> Fn(Global, Cursor<'a, 'b>, u32) -> StmtsRead<'a, 'b>,
    requires reads { ReadsStmts (S.IsAlwaysCallable inside.now) (S.post inside.now) }
    ensures read { MatchResult result
        (λ t. Reads (spell_selector (view_selector t.0)) (number_selector t.0)
        (selector_form_parts form) depth depth (position_of at.entry) (position_of t.1))
        (λ e. Fails e (selector_form_parts form) depth (position_of at.entry)) }
    ensures shorter { IfOk result (λ t. length (position_of t.1).kinds
        < length (position_of at.entry).kinds) }
{
    match form {
        SelectorForm::Field => field(at),
        SelectorForm::Index => index(alloc, at, depth, inside),
    }
}

#[cycle(values)]
fn index<'t, 's, S>(
    alloc: Global,
    at: Cursor<'t, 's>,
    depth: u32,
    inside: &S,
) -> Result<(Selector, Cursor<'t, 's>), Fault<'t, 's>>
where
    S: for<'a, 'b> Fn(Global, Cursor<'a, 'b>, u32) -> StmtsRead<'a, 'b>,
    requires reads { ReadsStmts (S.IsAlwaysCallable inside.now) (S.post inside.now) }
    ensures read { MatchResult result (λ t. Reads (spell_selector (view_selector t.0))
        (number_selector t.0) index_parts depth depth (position_of at.entry) (position_of t.1))
        (λ e. Fails e index_parts depth (position_of at.entry)) }
    ensures shorter { IfOk result (λ t. length (position_of t.1).kinds
        < length (position_of at.entry).kinds) }
{
    let (at, inner) = at.open(Kind::OpenBracket, depth)?;
    index_of(numbered(followed_by(exprs(alloc, at, inner, inside), Kind::CloseBracket)))
}

/// The expression that begins with a designator, which has been read.
pub fn desig_value<'t, 's, S>(
    alloc: Global,
    desig: Desig,
    at: Cursor<'t, 's>,
    depth: u32,
    inside: &S,
) -> Result<(Expr, Cursor<'t, 's>), Fault<'t, 's>>
where
    S: for<'a, 'b> Fn(Global, Cursor<'a, 'b>, u32) -> StmtsRead<'a, 'b>,
    requires reads { ReadsStmts (S.IsAlwaysCallable inside.now) (S.post inside.now) }
    ensures read { MatchResult result
        (λ t. Extends (spell_desig (view_desig desig)) (number_desig desig)
        (λ o. args_part ∷ factor_tail ∷ term_tail ∷ compared_part ∷ o)
        (spell_expr (view_expr t.0)) (number_expr t.0) depth (position_of at.entry)
        (position_of t.1))
        (λ e. Fails e (λ o. args_part ∷ factor_tail ∷ term_tail ∷ compared_part ∷ o) depth
        (position_of at.entry)) }
{
    let ((primary, node), at) = numbered(named(alloc, desig, at, depth, inside))?;
    let (first, at) = term_from(alloc, Factor::Plain { node, primary }, at, depth, inside)?;
    let (left, at) = simple_from(alloc, None, first, at, depth, inside)?;
    expr_from(alloc, left, at, depth, inside)
}
