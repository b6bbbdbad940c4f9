// Statements.
ghost use Rattle.std.specs.Prelude.{◌∷◌, MatchResult};
ghost use Rattle.alma_tree.specs.Spelling.{spell_stmts, spell_stmt_tail, spell_stmt, spell_orelse_tail};
ghost use Rattle.alma_tree.specs.View.{view_stmts, stmts_of, view_stmt, orelses_of};
ghost use Rattle.alma_tree.specs.Numbers.{number_stmts, numbers_of_stmts, number_stmt, numbers_of_orelses};
ghost use Rattle.alma_grammar.specs.Parts.{stmt_part, stmt_tail, orelse_tail, stmts_parts};
ghost use Rattle.alma_parse_cursor.specs.Forms.{some_parts, either_parts, forall_parts, commit_parts};
ghost use Rattle.alma_parse_expr.specs.Inside.{ReadsStmts};
ghost use Rattle.alma_parse_cursor.specs.Parsing.{position_of, Reads, Fails};

use crate::control::{case_stmt, for_stmt, if_stmt, nested, repeat_stmt, while_stmt};
use crate::head::loop_head;
use crate::node::{commit_of, either_of, forall_of, some_of, stmts_of};
use crate::simple::simple_stmt;
use alma_parse_cursor::{Cursor, Fault, StmtForm, followed_by, numbered};
use alma_parse_expr::{StmtsRead, boxed, expr, pushed};
use alma_tree::{Kind, Stmt, Stmts};
use std::alloc::Global;

/// One statement or more with semicolons between them, any of which may be empty. `depth` counts
/// the brackets that are open here, and `inside` reads the statements that stand in them.
pub(crate) fn statements<'t, 's, S>(
    alloc: Global,
    at: Cursor<'t, 's>,
    depth: u32,
    inside: &S,
) -> Result<(Stmts, Cursor<'t, 's>), Fault<'t, 's>>
where
    S: for<'a, 'b> Fn(Global, Cursor<'a, 'b>, u32) -> StmtsRead<'a, 'b>,
    requires reads { ReadsStmts (S.IsAlwaysCallable inside.now) (S.post inside.now) }
    ensures read { MatchResult result (λ t. Reads (spell_stmts (view_stmts t.0))
        (number_stmts t.0) stmts_parts depth depth (position_of at.entry) (position_of t.1))
        (λ e. Fails e stmts_parts depth (position_of at.entry)) }
{
    let (first, at) = boxed(alloc, stmt(alloc, at, depth, inside))?;
    stmts_of(first, numbered(stmt_list(alloc, at, depth, inside)))
}

fn stmt_list<'t, 's, S>(
    alloc: Global,
    mut at: Cursor<'t, 's>,
    depth: u32,
    inside: &S,
) -> Result<(Vec<Stmt>, Cursor<'t, 's>), Fault<'t, 's>>
where
    S: for<'a, 'b> Fn(Global, Cursor<'a, 'b>, u32) -> StmtsRead<'a, 'b>,
    requires reads { ReadsStmts (S.IsAlwaysCallable inside.now) (S.post inside.now) }
    ensures read { MatchResult result
        (λ t. Reads (spell_stmt_tail (stmts_of t.0.items)) (numbers_of_stmts t.0.items)
        (λ o. stmt_tail ∷ o) depth depth (position_of at.entry) (position_of t.1))
        (λ e. Fails e (λ o. stmt_tail ∷ o) depth (position_of at.entry)) }
{
    let mut more = Vec::new(alloc);
    while let Some(after) = at.skip(Kind::Semicolon) {
        at = pushed(&mut more, stmt(alloc, after, depth, inside))?;
    }
    Ok((more, at))
}

fn stmt<'t, 's, S>(
    alloc: Global,
    at: Cursor<'t, 's>,
    depth: u32,
    inside: &S,
) -> Result<(Stmt, Cursor<'t, 's>), Fault<'t, 's>>
where
    S: for<'a, 'b> Fn(Global, Cursor<'a, 'b>, u32) -> StmtsRead<'a, 'b>,
    requires reads { ReadsStmts (S.IsAlwaysCallable inside.now) (S.post inside.now) }
    ensures read { MatchResult result (λ t. Reads (spell_stmt (view_stmt t.0)) (number_stmt t.0)
        (λ o. stmt_part ∷ o) depth depth (position_of at.entry) (position_of t.1))
        (λ e. Fails e (λ o. stmt_part ∷ o) depth (position_of at.entry)) }
{
    match at.stmt_form() {
        StmtForm::If => if_stmt(alloc, at, depth, inside),
        StmtForm::While => while_stmt(alloc, at, depth, inside),
        StmtForm::Repeat => repeat_stmt(alloc, at, depth, inside),
        StmtForm::For => for_stmt(alloc, at, depth, inside),
        StmtForm::Some => some_stmt(alloc, at, depth, inside),
        StmtForm::Case => case_stmt(alloc, at, depth, inside),
        StmtForm::Either => either_stmt(alloc, at, depth, inside),
        StmtForm::Forall => forall_stmt(alloc, at, depth, inside),
        StmtForm::Commit => commit_stmt(alloc, at, depth, inside),
        form => simple_stmt(alloc, form, at, depth, inside),
    }
}

fn some_stmt<'t, 's, S>(
    alloc: Global,
    at: Cursor<'t, 's>,
    depth: u32,
    inside: &S,
) -> Result<(Stmt, Cursor<'t, 's>), Fault<'t, 's>>
where
    S: for<'a, 'b> Fn(Global, Cursor<'a, 'b>, u32) -> StmtsRead<'a, 'b>,
    requires reads { ReadsStmts (S.IsAlwaysCallable inside.now) (S.post inside.now) }
    ensures read { MatchResult result (λ t. Reads (spell_stmt (view_stmt t.0))
        (number_stmt t.0) some_parts depth depth (position_of at.entry) (position_of t.1))
        (λ e. Fails e some_parts depth (position_of at.entry)) }
{
    let ((variable, inner), at) = loop_head(at, Kind::Some, depth)?;
    let (from, at) = followed_by(expr(alloc, at, inner, inside), Kind::To)?;
    let (to, at) = followed_by(expr(alloc, at, inner, inside), Kind::Do)?;
    let body = followed_by(nested(alloc, at, inner, inside), Kind::End);
    some_of(variable, from, to, numbered(body))
}

fn either_stmt<'t, 's, S>(
    alloc: Global,
    at: Cursor<'t, 's>,
    depth: u32,
    inside: &S,
) -> Result<(Stmt, Cursor<'t, 's>), Fault<'t, 's>>
where
    S: for<'a, 'b> Fn(Global, Cursor<'a, 'b>, u32) -> StmtsRead<'a, 'b>,
    requires reads { ReadsStmts (S.IsAlwaysCallable inside.now) (S.post inside.now) }
    ensures read { MatchResult result (λ t. Reads (spell_stmt (view_stmt t.0))
        (number_stmt t.0) either_parts depth depth (position_of at.entry) (position_of t.1))
        (λ e. Fails e either_parts depth (position_of at.entry)) }
{
    let (at, inner) = at.open(Kind::Either, depth)?;
    let (first, at) = nested(alloc, at, inner, inside)?;
    let more = followed_by(orelse_list(alloc, at, inner, inside), Kind::End);
    either_of(first, numbered(more))
}

fn orelse_list<'t, 's, S>(
    alloc: Global,
    mut at: Cursor<'t, 's>,
    depth: u32,
    inside: &S,
) -> Result<(Vec<Stmts>, Cursor<'t, 's>), Fault<'t, 's>>
where
    S: for<'a, 'b> Fn(Global, Cursor<'a, 'b>, u32) -> StmtsRead<'a, 'b>,
    requires reads { ReadsStmts (S.IsAlwaysCallable inside.now) (S.post inside.now) }
    ensures read { MatchResult result
        (λ t. Reads (spell_orelse_tail (orelses_of t.0.items)) (numbers_of_orelses t.0.items)
        (λ o. orelse_tail ∷ o) depth depth (position_of at.entry) (position_of t.1))
        (λ e. Fails e (λ o. orelse_tail ∷ o) depth (position_of at.entry)) }
{
    let mut more = Vec::new(alloc);
    while let Some(after) = at.skip(Kind::Orelse) {
        at = pushed(&mut more, nested(alloc, after, depth, inside))?;
    }
    Ok((more, at))
}

fn forall_stmt<'t, 's, S>(
    alloc: Global,
    at: Cursor<'t, 's>,
    depth: u32,
    inside: &S,
) -> Result<(Stmt, Cursor<'t, 's>), Fault<'t, 's>>
where
    S: for<'a, 'b> Fn(Global, Cursor<'a, 'b>, u32) -> StmtsRead<'a, 'b>,
    requires reads { ReadsStmts (S.IsAlwaysCallable inside.now) (S.post inside.now) }
    ensures read { MatchResult result (λ t. Reads (spell_stmt (view_stmt t.0))
        (number_stmt t.0) forall_parts depth depth (position_of at.entry) (position_of t.1))
        (λ e. Fails e forall_parts depth (position_of at.entry)) }
{
    let (at, inner) = at.open(Kind::Forall, depth)?;
    let (choice, at) = followed_by(nested(alloc, at, inner, inside), Kind::Do)?;
    let body = followed_by(nested(alloc, at, inner, inside), Kind::End);
    forall_of(choice, numbered(body))
}

fn commit_stmt<'t, 's, S>(
    alloc: Global,
    at: Cursor<'t, 's>,
    depth: u32,
    inside: &S,
) -> Result<(Stmt, Cursor<'t, 's>), Fault<'t, 's>>
where
    S: for<'a, 'b> Fn(Global, Cursor<'a, 'b>, u32) -> StmtsRead<'a, 'b>,
    requires reads { ReadsStmts (S.IsAlwaysCallable inside.now) (S.post inside.now) }
    ensures read { MatchResult result (λ t. Reads (spell_stmt (view_stmt t.0))
        (number_stmt t.0) commit_parts depth depth (position_of at.entry) (position_of t.1))
        (λ e. Fails e commit_parts depth (position_of at.entry)) }
{
    let (at, inner) = at.open(Kind::Commit, depth)?;
    commit_of(numbered(followed_by(nested(alloc, at, inner, inside), Kind::End)))
}
