// Nodes of expressions and designators, of the last part that was read.
ghost use Rattle.std.specs.Prelude.{◌≡◌, Some};
ghost use Rattle.alma_tree.specs.declared.phrase.Expr as expressions;
ghost use Rattle.alma_tree.specs.declared.phrase.AddLink as add_links;
ghost use Rattle.alma_tree.specs.declared.phrase.Term as terms;
ghost use Rattle.alma_tree.specs.declared.phrase.Factor as factors;
ghost use Rattle.alma_tree.specs.declared.phrase.Primary as primaries;
ghost use Rattle.alma_tree.specs.declared.phrase.Args as arguments;
ghost use Rattle.alma_tree.specs.declared.phrase.Exprs as expression_lists;
ghost use Rattle.alma_tree.specs.declared.phrase.Selector as selectors;
ghost use Rattle.alma_parse_expr.specs.Made.{made, Made};
ghost use Rattle.alma_parse_expr.specs.Nodes.{ComparedWith, SumOf};

use alma_parse_cursor::{Cursor, Fault};
use alma_tree::{
    AddLink, AddOperator, Args, Compared, Desig, Expr, Exprs, Factor, MulLink, MulOperator, Name,
    Primary, Relation, Selector, Sign, Simple, Stmts, Term,
};
use std::alloc::Global;

/// An expression, of its left side and of what that is compared with.
pub fn expr_of<'t, 's>(
    left: Simple,
    right: Result<((Option<Box<Compared>>, u32), Cursor<'t, 's>), Fault<'t, 's>>,
) -> Result<(Expr, Cursor<'t, 's>), Fault<'t, 's>>
    ensures made { result ≡ made (λ v. expressions.roll-Expr
        (record { node = v.1; left = left; right = v.0 })) right.entry }
{
    let ((right, node), at) = right?;
    Ok((Expr { node, left, right }, at))
}

/// What an expression is compared with, of its relation and its right side.
#[tactic(auto, using(crate::proofs::Nodes::compared_made))]
pub fn relation_of<'t, 's>(
    alloc: Global,
    relation: Relation,
    right: Result<(Simple, Cursor<'t, 's>), Fault<'t, 's>>,
) -> Result<(Option<Box<Compared>>, Cursor<'t, 's>), Fault<'t, 's>>
    ensures made { Made (ComparedWith relation) right.entry result }
{
    let (right, at) = right?;
    let compared = Box::new(alloc, Compared { relation, right })?;
    Ok((Some(compared), at))
}

/// A sum, of its sign, its first term and the others.
#[tactic(auto, using(crate::proofs::Nodes::sum_made))]
pub fn simple_of<'t, 's>(
    alloc: Global,
    sign: Option<Sign>,
    first: Term,
    more: Result<((Vec<AddLink>, u32), Cursor<'t, 's>), Fault<'t, 's>>,
) -> Result<(Simple, Cursor<'t, 's>), Fault<'t, 's>>
    ensures made { Made (SumOf sign first) more.entry result }
{
    let ((more, node), at) = more?;
    let first = Box::new(alloc, first)?;
    Ok((
        Simple {
            node,
            sign,
            first,
            more,
        },
        at,
    ))
}

/// A term with the operator before it.
pub fn add_link<'t, 's>(
    operator: AddOperator,
    operand: Result<(Term, Cursor<'t, 's>), Fault<'t, 's>>,
) -> Result<(AddLink, Cursor<'t, 's>), Fault<'t, 's>>
    ensures made { result ≡ made (λ v. add_links.roll-AddLink
        (record { operator = operator; operand = v })) operand.entry }
{
    let (operand, at) = operand?;
    Ok((AddLink { operator, operand }, at))
}

/// A product, of its first factor and the others.
pub fn term_of<'t, 's>(
    first: Factor,
    more: Result<((Vec<MulLink>, u32), Cursor<'t, 's>), Fault<'t, 's>>,
) -> Result<(Term, Cursor<'t, 's>), Fault<'t, 's>>
    ensures made { result ≡ made (λ v. terms.roll-Term
        (record { node = v.1; first = first; more = v.0 })) more.entry }
{
    let ((more, node), at) = more?;
    Ok((Term { node, first, more }, at))
}

/// A factor with the operator before it.
pub fn mul_link<'t, 's>(
    operator: MulOperator,
    operand: Result<(Factor, Cursor<'t, 's>), Fault<'t, 's>>,
) -> Result<(MulLink, Cursor<'t, 's>), Fault<'t, 's>>
    ensures made { result ≡ made (λ v. record { operator = operator; operand = v }) operand.entry }
{
    let (operand, at) = operand?;
    Ok((MulLink { operator, operand }, at))
}

/// A factor with NOT, of its primary.
pub fn not_of<'t, 's>(
    primary: Result<((Primary, u32), Cursor<'t, 's>), Fault<'t, 's>>,
) -> Result<(Factor, Cursor<'t, 's>), Fault<'t, 's>>
    ensures made { result ≡ made (λ v. factors.Not v.1 v.0) primary.entry }
{
    let ((primary, node), at) = primary?;
    Ok((Factor::Not { node, primary }, at))
}

/// A factor without NOT, of its primary.
pub fn plain_of<'t, 's>(
    primary: Result<((Primary, u32), Cursor<'t, 's>), Fault<'t, 's>>,
) -> Result<(Factor, Cursor<'t, 's>), Fault<'t, 's>>
    ensures made { result ≡ made (λ v. factors.Plain v.1 v.0) primary.entry }
{
    let ((primary, node), at) = primary?;
    Ok((Factor::Plain { node, primary }, at))
}

/// Statements in parentheses.
pub fn paren_of<'t, 's>(
    body: Result<((Box<Stmts>, u32), Cursor<'t, 's>), Fault<'t, 's>>,
) -> Result<(Primary, Cursor<'t, 's>), Fault<'t, 's>>
    ensures made { result ≡ made (λ v. primaries.Paren v.1 v.0) body.entry }
{
    let ((body, node), at) = body?;
    Ok((Primary::Paren { node, body }, at))
}

/// KNOWN, of its designator.
pub fn known_of<'t, 's>(
    desig: Result<((Desig, u32), Cursor<'t, 's>), Fault<'t, 's>>,
) -> Result<(Primary, Cursor<'t, 's>), Fault<'t, 's>>
    ensures made { result ≡ made (λ v. primaries.Known v.1 v.0) desig.entry }
{
    let ((desig, node), at) = desig?;
    Ok((Primary::Known { node, desig }, at))
}

/// ORD, of its operand.
pub fn ord_of<'t, 's>(
    value: Result<((Box<Expr>, u32), Cursor<'t, 's>), Fault<'t, 's>>,
) -> Result<(Primary, Cursor<'t, 's>), Fault<'t, 's>>
    ensures made { result ≡ made (λ v. primaries.Ord v.1 v.0) value.entry }
{
    let ((value, node), at) = value?;
    Ok((Primary::Ord { node, value }, at))
}

/// CHR, of its operand.
pub fn chr_of<'t, 's>(
    value: Result<((Box<Expr>, u32), Cursor<'t, 's>), Fault<'t, 's>>,
) -> Result<(Primary, Cursor<'t, 's>), Fault<'t, 's>>
    ensures made { result ≡ made (λ v. primaries.Chr v.1 v.0) value.entry }
{
    let ((value, node), at) = value?;
    Ok((Primary::Chr { node, value }, at))
}

/// The indices of a selector.
pub fn index_of<'t, 's>(
    indices: Result<((Exprs, u32), Cursor<'t, 's>), Fault<'t, 's>>,
) -> Result<(Selector, Cursor<'t, 's>), Fault<'t, 's>>
    ensures made { result ≡ made (λ v. selectors.Index v.1 v.0) indices.entry }
{
    let ((indices, node), at) = indices?;
    Ok((Selector::Index { node, indices }, at))
}

/// A designator as a primary, with its arguments.
pub fn named_of<'t, 's>(
    desig: Desig,
    args: Result<((Option<Args>, u32), Cursor<'t, 's>), Fault<'t, 's>>,
) -> Result<(Primary, Cursor<'t, 's>), Fault<'t, 's>>
    ensures made { result ≡ made (λ v. primaries.Desig v.1 desig v.0) args.entry }
{
    let ((args, node), at) = args?;
    Ok((Primary::Desig { node, desig, args }, at))
}

/// The arguments, of what stands between the parentheses.
pub fn arguments_of<'t, 's>(
    values: Result<(Option<Exprs>, Cursor<'t, 's>), Fault<'t, 's>>,
) -> Result<(Option<Args>, Cursor<'t, 's>), Fault<'t, 's>>
    ensures made { result
        ≡ made (λ v. Some (arguments.roll-Args (record { values = v }))) values.entry }
{
    let (values, at) = values?;
    Ok((Some(Args { values }), at))
}

/// Expressions, of the first and the others.
pub fn expressions_of<'t, 's>(
    first: Box<Expr>,
    more: Result<(Vec<Expr>, Cursor<'t, 's>), Fault<'t, 's>>,
) -> Result<(Exprs, Cursor<'t, 's>), Fault<'t, 's>>
    ensures made { result ≡ made (λ v. expression_lists.roll-Exprs
        (record { first = first; more = v })) more.entry }
{
    let (more, at) = more?;
    Ok((Exprs { first, more }, at))
}

/// A designator, of its name and its selectors.
pub fn desig_of<'t, 's>(
    name: Name,
    more: Result<((Vec<Selector>, u32), Cursor<'t, 's>), Fault<'t, 's>>,
) -> Result<(Desig, Cursor<'t, 's>), Fault<'t, 's>>
    ensures made { result ≡ made (λ v. record { node = v.1; name = name; more = v.0 }) more.entry }
{
    let ((more, node), at) = more?;
    Ok((Desig { node, name, more }, at))
}
