// Statements, of the last part that was read.
ghost use Rattle.std.specs.Prelude.{◌≡◌, ℕ, MatchResult};
ghost use Rattle.alma_tree.specs.declared.phrase.Stmt as statements;
ghost use Rattle.alma_tree.specs.declared.phrase.Elsif as elsif_parts;
ghost use Rattle.alma_tree.specs.declared.phrase.Arm as arms;
ghost use Rattle.alma_tree.specs.declared.phrase.Label as labels;
ghost use Rattle.alma_tree.specs.Spelling.{spell_stmt, spell_arm};
ghost use Rattle.alma_tree.specs.View.{view_stmt, view_arm};
ghost use Rattle.alma_tree.specs.Numbers.{number_stmt, number_arm};
ghost use Rattle.alma_parse_cursor.specs.Parsing.{position_of, Reads, Fails};
ghost use Rattle.alma_parse_expr.specs.Made.{made};

use alma_parse_cursor::{Cursor, Fault};
use alma_tree::{Args, Arm, Desig, Elsif, Expr, Exprs, Label, Name, Stmt, Stmts};

/// A statement that is empty.
pub fn nothing<'t, 's>(at: Cursor<'t, 's>) -> Result<(Stmt, Cursor<'t, 's>), Fault<'t, 's>>
    ensures read { MatchResult result
        (λ t. (d : ℕ) → Reads (spell_stmt (view_stmt t.0)) (number_stmt t.0) (λ o. o) d d
        (position_of at.entry) (position_of t.1))
        (λ e. (d : ℕ) → Fails e (λ o. o) d (position_of at.entry)) }
{
    let (node, at) = at.count()?;
    Ok((Stmt::Nothing { node }, at))
}

/// An arm of CASE that is empty.
pub fn empty_arm<'t, 's>(at: Cursor<'t, 's>) -> Result<(Arm, Cursor<'t, 's>), Fault<'t, 's>>
    ensures read { MatchResult result
        (λ t. (d : ℕ) → Reads (spell_arm (view_arm t.0)) (number_arm t.0) (λ o. o) d d
        (position_of at.entry) (position_of t.1))
        (λ e. (d : ℕ) → Fails e (λ o. o) d (position_of at.entry)) }
{
    let (node, at) = at.count()?;
    Ok((Arm::Empty { node }, at))
}

/// Statements, of the first and the others.
pub fn stmts_of<'t, 's>(
    first: Box<Stmt>,
    more: Result<((Vec<Stmt>, u32), Cursor<'t, 's>), Fault<'t, 's>>,
) -> Result<(Stmts, Cursor<'t, 's>), Fault<'t, 's>>
    ensures made { result
        ≡ made (λ v. record { node = v.1; first = first; more = v.0 }) more.entry }
{
    let ((more, node), at) = more?;
    Ok((Stmts { node, first, more }, at))
}

/// An assignment, of its target and its value.
pub fn assign_of<'t, 's>(
    target: Desig,
    value: Result<((Expr, u32), Cursor<'t, 's>), Fault<'t, 's>>,
) -> Result<(Stmt, Cursor<'t, 's>), Fault<'t, 's>>
    ensures made { result ≡ made (λ v. statements.Assign v.1 target v.0) value.entry }
{
    let ((value, node), at) = value?;
    Ok((
        Stmt::Assign {
            node,
            target,
            value,
        },
        at,
    ))
}

/// An expression as a statement.
pub fn value_of<'t, 's>(
    value: Result<((Expr, u32), Cursor<'t, 's>), Fault<'t, 's>>,
) -> Result<(Stmt, Cursor<'t, 's>), Fault<'t, 's>>
    ensures made { result ≡ made (λ v. statements.Value v.1 v.0) value.entry }
{
    let ((value, node), at) = value?;
    Ok((Stmt::Value { node, value }, at))
}

/// IF, of all its parts.
pub fn if_of<'t, 's>(
    test: Expr,
    then: Stmts,
    elsifs: Vec<Elsif>,
    otherwise: Result<((Option<Stmts>, u32), Cursor<'t, 's>), Fault<'t, 's>>,
) -> Result<(Stmt, Cursor<'t, 's>), Fault<'t, 's>>
    ensures made { result ≡ made (λ v. statements.If v.1 test then elsifs v.0) otherwise.entry }
{
    let ((otherwise, node), at) = otherwise?;
    Ok((
        Stmt::If {
            node,
            test,
            then,
            elsifs,
            otherwise,
        },
        at,
    ))
}

/// ELSIF, of its test and its statements.
pub fn elsif_of<'t, 's>(
    test: Expr,
    then: Result<(Stmts, Cursor<'t, 's>), Fault<'t, 's>>,
) -> Result<(Elsif, Cursor<'t, 's>), Fault<'t, 's>>
    ensures made { result
        ≡ made (λ v. elsif_parts.roll-Elsif (record { test = test; then = v })) then.entry }
{
    let (then, at) = then?;
    Ok((Elsif { test, then }, at))
}

/// WHILE, of its test and its body.
pub fn while_of<'t, 's>(
    test: Expr,
    body: Result<((Stmts, u32), Cursor<'t, 's>), Fault<'t, 's>>,
) -> Result<(Stmt, Cursor<'t, 's>), Fault<'t, 's>>
    ensures made { result ≡ made (λ v. statements.While v.1 test v.0) body.entry }
{
    let ((body, node), at) = body?;
    Ok((Stmt::While { node, test, body }, at))
}

/// REPEAT, of its body and its test.
pub fn repeat_of<'t, 's>(
    body: Stmts,
    test: Result<((Expr, u32), Cursor<'t, 's>), Fault<'t, 's>>,
) -> Result<(Stmt, Cursor<'t, 's>), Fault<'t, 's>>
    ensures made { result ≡ made (λ v. statements.Repeat v.1 body v.0) test.entry }
{
    let ((test, node), at) = test?;
    Ok((Stmt::Repeat { node, body, test }, at))
}

/// FOR, of all its parts.
pub fn for_of<'t, 's>(
    variable: Name,
    from: Expr,
    to: Expr,
    by: Option<Expr>,
    body: Result<((Stmts, u32), Cursor<'t, 's>), Fault<'t, 's>>,
) -> Result<(Stmt, Cursor<'t, 's>), Fault<'t, 's>>
    ensures made { result ≡ made (λ v. statements.For v.1 variable from to by v.0) body.entry }
{
    let ((body, node), at) = body?;
    Ok((
        Stmt::For {
            node,
            variable,
            from,
            to,
            by,
            body,
        },
        at,
    ))
}

/// SOME, of all its parts.
pub fn some_of<'t, 's>(
    variable: Name,
    from: Expr,
    to: Expr,
    body: Result<((Stmts, u32), Cursor<'t, 's>), Fault<'t, 's>>,
) -> Result<(Stmt, Cursor<'t, 's>), Fault<'t, 's>>
    ensures made { result ≡ made (λ v. statements.Some v.1 variable from to v.0) body.entry }
{
    let ((body, node), at) = body?;
    Ok((
        Stmt::Some {
            node,
            variable,
            from,
            to,
            body,
        },
        at,
    ))
}

/// CASE, of all its parts.
pub fn case_of<'t, 's>(
    value: Expr,
    first: Box<Arm>,
    more: Vec<Arm>,
    otherwise: Result<((Option<Stmts>, u32), Cursor<'t, 's>), Fault<'t, 's>>,
) -> Result<(Stmt, Cursor<'t, 's>), Fault<'t, 's>>
    ensures made { result ≡ made (λ v. statements.Case v.1 value first more v.0) otherwise.entry }
{
    let ((otherwise, node), at) = otherwise?;
    Ok((
        Stmt::Case {
            node,
            value,
            first,
            more,
            otherwise,
        },
        at,
    ))
}

/// An arm of CASE, of its labels and its body.
pub fn labelled_of<'t, 's>(
    first: Label,
    more: Vec<Label>,
    body: Result<((Stmts, u32), Cursor<'t, 's>), Fault<'t, 's>>,
) -> Result<(Arm, Cursor<'t, 's>), Fault<'t, 's>>
    ensures made { result ≡ made (λ v. arms.Labelled v.1 first more v.0) body.entry }
{
    let ((body, node), at) = body?;
    Ok((
        Arm::Labelled {
            node,
            first,
            more,
            body,
        },
        at,
    ))
}

/// A label, of its lower and its upper end.
pub fn label_of<'t, 's>(
    low: Expr,
    high: Result<((Option<Expr>, u32), Cursor<'t, 's>), Fault<'t, 's>>,
) -> Result<(Label, Cursor<'t, 's>), Fault<'t, 's>>
    ensures made { result
        ≡ made (λ v. labels.roll-Label (record { node = v.1; low = low; high = v.0 })) high.entry }
{
    let ((high, node), at) = high?;
    Ok((Label { node, low, high }, at))
}

/// EITHER, of its first statements and the others.
pub fn either_of<'t, 's>(
    first: Stmts,
    more: Result<((Vec<Stmts>, u32), Cursor<'t, 's>), Fault<'t, 's>>,
) -> Result<(Stmt, Cursor<'t, 's>), Fault<'t, 's>>
    ensures made { result ≡ made (λ v. statements.Either v.1 first v.0) more.entry }
{
    let ((more, node), at) = more?;
    Ok((Stmt::Either { node, first, more }, at))
}

/// FORALL, of its choice and its body.
pub fn forall_of<'t, 's>(
    choice: Stmts,
    body: Result<((Stmts, u32), Cursor<'t, 's>), Fault<'t, 's>>,
) -> Result<(Stmt, Cursor<'t, 's>), Fault<'t, 's>>
    ensures made { result ≡ made (λ v. statements.Forall v.1 choice v.0) body.entry }
{
    let ((body, node), at) = body?;
    Ok((Stmt::Forall { node, choice, body }, at))
}

/// COMMIT, of its body.
pub fn commit_of<'t, 's>(
    body: Result<((Stmts, u32), Cursor<'t, 's>), Fault<'t, 's>>,
) -> Result<(Stmt, Cursor<'t, 's>), Fault<'t, 's>>
    ensures made { result ≡ made (λ v. statements.Commit v.1 v.0) body.entry }
{
    let ((body, node), at) = body?;
    Ok((Stmt::Commit { node, body }, at))
}

/// RETURN, of its value, if it has one.
pub fn return_of<'t, 's>(
    value: Result<((Option<Expr>, u32), Cursor<'t, 's>), Fault<'t, 's>>,
) -> Result<(Stmt, Cursor<'t, 's>), Fault<'t, 's>>
    ensures made { result ≡ made (λ v. statements.Return v.1 v.0) value.entry }
{
    let ((value, node), at) = value?;
    Ok((Stmt::Return { node, value }, at))
}

/// READ, of its first designator and the others.
pub fn read_of<'t, 's>(
    first: Desig,
    more: Result<((Vec<Desig>, u32), Cursor<'t, 's>), Fault<'t, 's>>,
) -> Result<(Stmt, Cursor<'t, 's>), Fault<'t, 's>>
    ensures made { result ≡ made (λ v. statements.Read v.1 first v.0) more.entry }
{
    let ((more, node), at) = more?;
    Ok((Stmt::Read { node, first, more }, at))
}

/// WRITE, of what is written.
pub fn write_of<'t, 's>(
    items: Result<((Exprs, u32), Cursor<'t, 's>), Fault<'t, 's>>,
) -> Result<(Stmt, Cursor<'t, 's>), Fault<'t, 's>>
    ensures made { result ≡ made (λ v. statements.Write v.1 v.0) items.entry }
{
    let ((items, node), at) = items?;
    Ok((Stmt::Write { node, items }, at))
}

/// WRITELN, of what is written, if anything is.
pub fn writeln_of<'t, 's>(
    items: Result<((Option<Args>, u32), Cursor<'t, 's>), Fault<'t, 's>>,
) -> Result<(Stmt, Cursor<'t, 's>), Fault<'t, 's>>
    ensures made { result ≡ made (λ v. statements.Writeln v.1 v.0) items.entry }
{
    let ((items, node), at) = items?;
    Ok((Stmt::Writeln { node, items }, at))
}
