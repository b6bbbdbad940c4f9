// Statements that hold no statements, other than in a parenthesis.
ghost use Rattle.std.specs.Prelude.{◌∷◌, MatchResult};
ghost use Rattle.alma_tree.specs.declared.kind.Kind.TheVariants as kinds;
ghost use Rattle.alma_tree.specs.Spelling.{spell_desig, spell_stmt, spell_returned, spell_desig_tail};
ghost use Rattle.alma_tree.specs.View.{view_stmt, returned_of, desigs_of, view_desig};
ghost use Rattle.alma_tree.specs.Numbers.{number_stmt, numbers_of_returned, numbers_of_desigs, number_desig};
ghost use Rattle.alma_grammar.specs.Parts.{one, returned_part, desig_tail, expr_parts};
ghost use Rattle.alma_parse_cursor.specs.Forms.{return_parts, read_parts, write_parts, writeln_parts, desig_stmt_parts, stmt_form_parts};
ghost use Rattle.alma_parse_expr.specs.Inside.{ReadsStmts};
ghost use Rattle.alma_parse_cursor.specs.Parsing.{position_of, Reads, Extends, Fails};

use crate::node::{assign_of, nothing, read_of, return_of, value_of, write_of, writeln_of};
use alma_parse_cursor::{Cursor, Fault, StmtForm, followed_by, numbered};
use alma_parse_expr::{
    StmtsRead, args, desig, desig_value, expr, exprs, open_after, present, pushed,
};
use alma_tree::{Desig, Expr, Kind, Stmt};
use std::alloc::Global;

/// The statement of this form, where it holds no statements.
pub fn simple_stmt<'t, 's, S>(
    alloc: Global,
    form: StmtForm,
    at: Cursor<'t, 's>,
    depth: u32,
    inside: &S,
) -> Result<(Stmt, Cursor<'t, 's>), Fault<'t, 's>>
where
    S: for<'a, 'b> Fn(Global, Cursor<'a, 'b>, u32) -> StmtsRead<'a, 'b>,
    requires reads { ReadsStmts (S.IsAlwaysCallable inside.now) (S.post inside.now) }
    ensures read { MatchResult result (λ t. Reads (spell_stmt (view_stmt t.0)) (number_stmt t.0)
        (stmt_form_parts form) depth depth (position_of at.entry) (position_of t.1))
        (λ e. Fails e (stmt_form_parts form) depth (position_of at.entry)) }
{
    match form {
        StmtForm::Nothing => nothing(at),
        StmtForm::Desig => desig_stmt(alloc, at, depth, inside),
        StmtForm::Value => value_stmt(alloc, at, depth, inside),
        StmtForm::Return => return_stmt(alloc, at, depth, inside),
        StmtForm::Read => read_stmt(alloc, at, depth, inside),
        StmtForm::Write => write_stmt(alloc, at, depth, inside),
        StmtForm::Writeln => writeln_stmt(alloc, at, depth, inside),
        _ => Err(Fault::Memory),
    }
}

/// An assignment, or an expression that begins with a designator.
fn desig_stmt<'t, 's, S>(
    alloc: Global,
    at: Cursor<'t, 's>,
    depth: u32,
    inside: &S,
) -> Result<(Stmt, Cursor<'t, 's>), Fault<'t, 's>>
where
    S: for<'a, 'b> Fn(Global, Cursor<'a, 'b>, u32) -> StmtsRead<'a, 'b>,
    requires reads { ReadsStmts (S.IsAlwaysCallable inside.now) (S.post inside.now) }
    ensures read { MatchResult result (λ t. Reads (spell_stmt (view_stmt t.0))
        (number_stmt t.0) desig_stmt_parts depth depth (position_of at.entry) (position_of t.1))
        (λ e. Fails e desig_stmt_parts depth (position_of at.entry)) }
{
    let (desig, at) = desig(alloc, at, depth, inside)?;
    if at.is_at(Kind::Assign) {
        return assign(alloc, desig, at, depth, inside);
    }
    value_of(numbered(desig_value(alloc, desig, at, depth, inside)))
}

/// The assignment whose target has been read.
fn assign<'t, 's, S>(
    alloc: Global,
    target: Desig,
    at: Cursor<'t, 's>,
    depth: u32,
    inside: &S,
) -> Result<(Stmt, Cursor<'t, 's>), Fault<'t, 's>>
where
    S: for<'a, 'b> Fn(Global, Cursor<'a, 'b>, u32) -> StmtsRead<'a, 'b>,
    requires reads { ReadsStmts (S.IsAlwaysCallable inside.now) (S.post inside.now) }
    ensures read { MatchResult result
        (λ t. Extends (spell_desig (view_desig target)) (number_desig target)
        (λ o. one kinds.Assign ∷ expr_parts o)
        (spell_stmt (view_stmt t.0)) (number_stmt t.0) depth (position_of at.entry)
        (position_of t.1))
        (λ e. Fails e (λ o. one kinds.Assign ∷ expr_parts o) depth (position_of at.entry)) }
{
    let at = at.expect(Kind::Assign)?;
    assign_of(target, numbered(expr(alloc, at, depth, inside)))
}

fn value_stmt<'t, 's, S>(
    alloc: Global,
    at: Cursor<'t, 's>,
    depth: u32,
    inside: &S,
) -> Result<(Stmt, Cursor<'t, 's>), Fault<'t, 's>>
where
    S: for<'a, 'b> Fn(Global, Cursor<'a, 'b>, u32) -> StmtsRead<'a, 'b>,
    requires reads { ReadsStmts (S.IsAlwaysCallable inside.now) (S.post inside.now) }
    ensures read { MatchResult result (λ t. Reads (spell_stmt (view_stmt t.0))
        (number_stmt t.0) expr_parts depth depth (position_of at.entry) (position_of t.1))
        (λ e. Fails e expr_parts depth (position_of at.entry)) }
{
    value_of(numbered(expr(alloc, at, depth, inside)))
}

fn return_stmt<'t, 's, S>(
    alloc: Global,
    at: Cursor<'t, 's>,
    depth: u32,
    inside: &S,
) -> Result<(Stmt, Cursor<'t, 's>), Fault<'t, 's>>
where
    S: for<'a, 'b> Fn(Global, Cursor<'a, 'b>, u32) -> StmtsRead<'a, 'b>,
    requires reads { ReadsStmts (S.IsAlwaysCallable inside.now) (S.post inside.now) }
    ensures read { MatchResult result (λ t. Reads (spell_stmt (view_stmt t.0))
        (number_stmt t.0) return_parts depth depth (position_of at.entry) (position_of t.1))
        (λ e. Fails e return_parts depth (position_of at.entry)) }
{
    let at = at.expect(Kind::Return)?;
    return_of(numbered(returned(alloc, at, depth, inside)))
}

fn returned<'t, 's, S>(
    alloc: Global,
    at: Cursor<'t, 's>,
    depth: u32,
    inside: &S,
) -> Result<(Option<Expr>, Cursor<'t, 's>), Fault<'t, 's>>
where
    S: for<'a, 'b> Fn(Global, Cursor<'a, 'b>, u32) -> StmtsRead<'a, 'b>,
    requires reads { ReadsStmts (S.IsAlwaysCallable inside.now) (S.post inside.now) }
    ensures read { MatchResult result
        (λ t. Reads (spell_returned (returned_of t.0)) (numbers_of_returned t.0)
        (λ o. returned_part ∷ o) depth depth (position_of at.entry) (position_of t.1))
        (λ e. Fails e (λ o. returned_part ∷ o) depth (position_of at.entry)) }
{
    if at.begins_expr() {
        return present(expr(alloc, at, depth, inside));
    }
    Ok((None, at))
}

fn read_stmt<'t, 's, S>(
    alloc: Global,
    at: Cursor<'t, 's>,
    depth: u32,
    inside: &S,
) -> Result<(Stmt, Cursor<'t, 's>), Fault<'t, 's>>
where
    S: for<'a, 'b> Fn(Global, Cursor<'a, 'b>, u32) -> StmtsRead<'a, 'b>,
    requires reads { ReadsStmts (S.IsAlwaysCallable inside.now) (S.post inside.now) }
    ensures read { MatchResult result (λ t. Reads (spell_stmt (view_stmt t.0))
        (number_stmt t.0) read_parts depth depth (position_of at.entry) (position_of t.1))
        (λ e. Fails e read_parts depth (position_of at.entry)) }
{
    let (at, inner) = open_after(at, Kind::Read, Kind::OpenParen, depth)?;
    let (first, at) = desig(alloc, at, inner, inside)?;
    let more = followed_by(desig_list(alloc, at, inner, inside), Kind::CloseParen);
    read_of(first, numbered(more))
}

fn desig_list<'t, 's, S>(
    alloc: Global,
    mut at: Cursor<'t, 's>,
    depth: u32,
    inside: &S,
) -> Result<(Vec<Desig>, Cursor<'t, 's>), Fault<'t, 's>>
where
    S: for<'a, 'b> Fn(Global, Cursor<'a, 'b>, u32) -> StmtsRead<'a, 'b>,
    requires reads { ReadsStmts (S.IsAlwaysCallable inside.now) (S.post inside.now) }
    ensures read { MatchResult result
        (λ t. Reads (spell_desig_tail (desigs_of t.0.items)) (numbers_of_desigs t.0.items)
        (λ o. desig_tail ∷ o) depth depth (position_of at.entry) (position_of t.1))
        (λ e. Fails e (λ o. desig_tail ∷ o) depth (position_of at.entry)) }
{
    let mut more = Vec::new(alloc);
    while let Some(after) = at.skip(Kind::Comma) {
        at = pushed(&mut more, desig(alloc, after, depth, inside))?;
    }
    Ok((more, at))
}

fn write_stmt<'t, 's, S>(
    alloc: Global,
    at: Cursor<'t, 's>,
    depth: u32,
    inside: &S,
) -> Result<(Stmt, Cursor<'t, 's>), Fault<'t, 's>>
where
    S: for<'a, 'b> Fn(Global, Cursor<'a, 'b>, u32) -> StmtsRead<'a, 'b>,
    requires reads { ReadsStmts (S.IsAlwaysCallable inside.now) (S.post inside.now) }
    ensures read { MatchResult result (λ t. Reads (spell_stmt (view_stmt t.0))
        (number_stmt t.0) write_parts depth depth (position_of at.entry) (position_of t.1))
        (λ e. Fails e write_parts depth (position_of at.entry)) }
{
    let (at, inner) = open_after(at, Kind::Write, Kind::OpenParen, depth)?;
    let items = followed_by(exprs(alloc, at, inner, inside), Kind::CloseParen);
    write_of(numbered(items))
}

fn writeln_stmt<'t, 's, S>(
    alloc: Global,
    at: Cursor<'t, 's>,
    depth: u32,
    inside: &S,
) -> Result<(Stmt, Cursor<'t, 's>), Fault<'t, 's>>
where
    S: for<'a, 'b> Fn(Global, Cursor<'a, 'b>, u32) -> StmtsRead<'a, 'b>,
    requires reads { ReadsStmts (S.IsAlwaysCallable inside.now) (S.post inside.now) }
    ensures read { MatchResult result (λ t. Reads (spell_stmt (view_stmt t.0))
        (number_stmt t.0) writeln_parts depth depth (position_of at.entry) (position_of t.1))
        (λ e. Fails e writeln_parts depth (position_of at.entry)) }
{
    let at = at.expect(Kind::Writeln)?;
    writeln_of(numbered(args(alloc, at, depth, inside)))
}
