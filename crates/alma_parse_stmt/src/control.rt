// Control statements.
ghost use Rattle.std.specs.Prelude.{◌∷◌, MatchResult};
ghost use Rattle.alma_tree.specs.Spelling.{spell_stmt, spell_elsif_tail, spell_else, spell_by};
ghost use Rattle.alma_tree.specs.Spelling.{spell_arm, spell_arm_tail, spell_label, spell_high, spell_label_tail};
ghost use Rattle.alma_tree.specs.View.{view_stmt, elsifs_of, else_of, by_of, view_arm, arms_of};
ghost use Rattle.alma_tree.specs.View.{view_label, high_of, labels_of};
ghost use Rattle.alma_tree.specs.Numbers.{number_stmt, numbers_of_elsifs, numbers_of_else, numbers_of_by, numbers_of_high};
ghost use Rattle.alma_tree.specs.Numbers.{number_arm, numbers_of_arms, number_label, numbers_of_labels};
ghost use Rattle.alma_grammar.specs.Parts.{elsif_tail, else_part, by_part, arm_part, arm_tail, high_part, label_tail, label_parts};
ghost use Rattle.alma_parse_cursor.specs.Forms.{if_parts, while_parts, repeat_parts, for_parts, case_parts, labelled_parts};
ghost use Rattle.alma_parse_expr.specs.Inside.{ReadsAt, ReadsStmts};
ghost use Rattle.alma_parse_cursor.specs.Parsing.{position_of, Reads, Fails};

use crate::head::loop_head;
use crate::node::{
    case_of, elsif_of, empty_arm, for_of, if_of, label_of, labelled_of, repeat_of, while_of,
};
use alma_parse_cursor::{Cursor, Fault, followed_by, numbered};
use alma_parse_expr::{StmtsRead, boxed, expr, present, pushed};
use alma_tree::{Arm, Elsif, Expr, Kind, Label, Stmt, Stmts};
use std::alloc::Global;

/// IF to its END, with any ELSIF parts and an ELSE part, if there is one. `depth` is that before
/// IF, and `inside` reads the statements in it.
pub fn if_stmt<'t, 's, S>(
    alloc: Global,
    at: Cursor<'t, 's>,
    depth: u32,
    inside: &S,
) -> Result<(Stmt, Cursor<'t, 's>), Fault<'t, 's>>
where
    S: for<'a, 'b> Fn(Global, Cursor<'a, 'b>, u32) -> StmtsRead<'a, 'b>,
    requires reads { ReadsStmts (S.IsAlwaysCallable inside.now) (S.post inside.now) }
    ensures read { MatchResult result (λ t. Reads (spell_stmt (view_stmt t.0))
        (number_stmt t.0) if_parts depth depth (position_of at.entry) (position_of t.1))
        (λ e. Fails e if_parts depth (position_of at.entry)) }
{
    let (at, inner) = at.open(Kind::If, depth)?;
    let (test, at) = followed_by(expr(alloc, at, inner, inside), Kind::Then)?;
    let (then, at) = nested(alloc, at, inner, inside)?;
    let (elsifs, at) = elsif_list(alloc, at, inner, inside)?;
    let otherwise = followed_by(otherwise(alloc, at, inner, inside), Kind::End);
    if_of(test, then, elsifs, numbered(otherwise))
}

fn elsif_list<'t, 's, S>(
    alloc: Global,
    mut at: Cursor<'t, 's>,
    depth: u32,
    inside: &S,
) -> Result<(Vec<Elsif>, Cursor<'t, 's>), Fault<'t, 's>>
where
    S: for<'a, 'b> Fn(Global, Cursor<'a, 'b>, u32) -> StmtsRead<'a, 'b>,
    requires reads { ReadsStmts (S.IsAlwaysCallable inside.now) (S.post inside.now) }
    ensures read { MatchResult result
        (λ t. Reads (spell_elsif_tail (elsifs_of t.0.items)) (numbers_of_elsifs t.0.items)
        (λ o. elsif_tail ∷ o) depth depth (position_of at.entry) (position_of t.1))
        (λ e. Fails e (λ o. elsif_tail ∷ o) depth (position_of at.entry)) }
{
    let mut more = Vec::new(alloc);
    while let Some(after) = at.skip(Kind::Elsif) {
        let (test, after) = followed_by(expr(alloc, after, depth, inside), Kind::Then)?;
        at = pushed(
            &mut more,
            elsif_of(test, nested(alloc, after, depth, inside)),
        )?;
    }
    Ok((more, at))
}

fn otherwise<'t, 's, S>(
    alloc: Global,
    at: Cursor<'t, 's>,
    depth: u32,
    inside: &S,
) -> Result<(Option<Stmts>, Cursor<'t, 's>), Fault<'t, 's>>
where
    S: for<'a, 'b> Fn(Global, Cursor<'a, 'b>, u32) -> StmtsRead<'a, 'b>,
    requires reads { ReadsStmts (S.IsAlwaysCallable inside.now) (S.post inside.now) }
    ensures read { MatchResult result (λ t. Reads (spell_else (else_of t.0)) (numbers_of_else t.0)
        (λ o. else_part ∷ o) depth depth (position_of at.entry) (position_of t.1))
        (λ e. Fails e (λ o. else_part ∷ o) depth (position_of at.entry)) }
{
    let Some(at) = at.skip(Kind::Else) else {
        return Ok((None, at));
    };
    present(nested(alloc, at, depth, inside))
}

/// WHILE to its END. `depth` is that before WHILE, and `inside` reads the statements in it.
pub fn while_stmt<'t, 's, S>(
    alloc: Global,
    at: Cursor<'t, 's>,
    depth: u32,
    inside: &S,
) -> Result<(Stmt, Cursor<'t, 's>), Fault<'t, 's>>
where
    S: for<'a, 'b> Fn(Global, Cursor<'a, 'b>, u32) -> StmtsRead<'a, 'b>,
    requires reads { ReadsStmts (S.IsAlwaysCallable inside.now) (S.post inside.now) }
    ensures read { MatchResult result (λ t. Reads (spell_stmt (view_stmt t.0))
        (number_stmt t.0) while_parts depth depth (position_of at.entry) (position_of t.1))
        (λ e. Fails e while_parts depth (position_of at.entry)) }
{
    let (at, inner) = at.open(Kind::While, depth)?;
    let (test, at) = followed_by(expr(alloc, at, inner, inside), Kind::Do)?;
    while_of(
        test,
        numbered(followed_by(nested(alloc, at, inner, inside), Kind::End)),
    )
}

/// REPEAT, its body and the test behind UNTIL. UNTIL closes the bracket, so that the test is read
/// at `depth`, which is that before REPEAT. `inside` reads the statements in it.
pub fn repeat_stmt<'t, 's, S>(
    alloc: Global,
    at: Cursor<'t, 's>,
    depth: u32,
    inside: &S,
) -> Result<(Stmt, Cursor<'t, 's>), Fault<'t, 's>>
where
    S: for<'a, 'b> Fn(Global, Cursor<'a, 'b>, u32) -> StmtsRead<'a, 'b>,
    requires reads { ReadsStmts (S.IsAlwaysCallable inside.now) (S.post inside.now) }
    ensures read { MatchResult result (λ t. Reads (spell_stmt (view_stmt t.0))
        (number_stmt t.0) repeat_parts depth depth (position_of at.entry) (position_of t.1))
        (λ e. Fails e repeat_parts depth (position_of at.entry)) }
{
    let (at, inner) = at.open(Kind::Repeat, depth)?;
    let (body, at) = followed_by(nested(alloc, at, inner, inside), Kind::Until)?;
    repeat_of(body, numbered(expr(alloc, at, depth, inside)))
}

/// FOR to its END, with the step, if BY gives one. `depth` is that before FOR, and `inside` reads
/// the statements in it.
pub fn for_stmt<'t, 's, S>(
    alloc: Global,
    at: Cursor<'t, 's>,
    depth: u32,
    inside: &S,
) -> Result<(Stmt, Cursor<'t, 's>), Fault<'t, 's>>
where
    S: for<'a, 'b> Fn(Global, Cursor<'a, 'b>, u32) -> StmtsRead<'a, 'b>,
    requires reads { ReadsStmts (S.IsAlwaysCallable inside.now) (S.post inside.now) }
    ensures read { MatchResult result (λ t. Reads (spell_stmt (view_stmt t.0))
        (number_stmt t.0) for_parts depth depth (position_of at.entry) (position_of t.1))
        (λ e. Fails e for_parts depth (position_of at.entry)) }
{
    let ((variable, inner), at) = loop_head(at, Kind::For, depth)?;
    let (from, at) = followed_by(expr(alloc, at, inner, inside), Kind::To)?;
    let (to, at) = expr(alloc, at, inner, inside)?;
    let (by, at) = followed_by(step(alloc, at, inner, inside), Kind::Do)?;
    let body = followed_by(nested(alloc, at, inner, inside), Kind::End);
    for_of(variable, from, to, by, numbered(body))
}

/// The step of a FOR loop.
fn step<'t, 's, S>(
    alloc: Global,
    at: Cursor<'t, 's>,
    depth: u32,
    inside: &S,
) -> Result<(Option<Expr>, Cursor<'t, 's>), Fault<'t, 's>>
where
    S: for<'a, 'b> Fn(Global, Cursor<'a, 'b>, u32) -> StmtsRead<'a, 'b>,
    requires reads { ReadsStmts (S.IsAlwaysCallable inside.now) (S.post inside.now) }
    ensures read { MatchResult result (λ t. Reads (spell_by (by_of t.0)) (numbers_of_by t.0)
        (λ o. by_part ∷ o) depth depth (position_of at.entry) (position_of t.1))
        (λ e. Fails e (λ o. by_part ∷ o) depth (position_of at.entry)) }
{
    let Some(at) = at.skip(Kind::By) else {
        return Ok((None, at));
    };
    present(expr(alloc, at, depth, inside))
}

/// CASE to its END: one arm or more, any of which may be empty, and an ELSE part, if there is one.
/// `depth` is that before CASE, and `inside` reads the statements in it.
pub fn case_stmt<'t, 's, S>(
    alloc: Global,
    at: Cursor<'t, 's>,
    depth: u32,
    inside: &S,
) -> Result<(Stmt, Cursor<'t, 's>), Fault<'t, 's>>
where
    S: for<'a, 'b> Fn(Global, Cursor<'a, 'b>, u32) -> StmtsRead<'a, 'b>,
    requires reads { ReadsStmts (S.IsAlwaysCallable inside.now) (S.post inside.now) }
    ensures read { MatchResult result (λ t. Reads (spell_stmt (view_stmt t.0))
        (number_stmt t.0) case_parts depth depth (position_of at.entry) (position_of t.1))
        (λ e. Fails e case_parts depth (position_of at.entry)) }
{
    let (at, inner) = at.open(Kind::Case, depth)?;
    let (value, at) = followed_by(expr(alloc, at, inner, inside), Kind::Of)?;
    let (first, at) = boxed(alloc, arm(alloc, at, inner, inside))?;
    let (more, at) = arm_list(alloc, at, inner, inside)?;
    let otherwise = followed_by(otherwise(alloc, at, inner, inside), Kind::End);
    case_of(value, first, more, numbered(otherwise))
}

fn arm<'t, 's, S>(
    alloc: Global,
    at: Cursor<'t, 's>,
    depth: u32,
    inside: &S,
) -> Result<(Arm, Cursor<'t, 's>), Fault<'t, 's>>
where
    S: for<'a, 'b> Fn(Global, Cursor<'a, 'b>, u32) -> StmtsRead<'a, 'b>,
    requires reads { ReadsStmts (S.IsAlwaysCallable inside.now) (S.post inside.now) }
    ensures read { MatchResult result (λ t. Reads (spell_arm (view_arm t.0)) (number_arm t.0)
        (λ o. arm_part ∷ o) depth depth (position_of at.entry) (position_of t.1))
        (λ e. Fails e (λ o. arm_part ∷ o) depth (position_of at.entry)) }
{
    if at.begins_expr() {
        return labelled_arm(alloc, at, depth, inside);
    }
    empty_arm(at)
}

fn labelled_arm<'t, 's, S>(
    alloc: Global,
    at: Cursor<'t, 's>,
    depth: u32,
    inside: &S,
) -> Result<(Arm, Cursor<'t, 's>), Fault<'t, 's>>
where
    S: for<'a, 'b> Fn(Global, Cursor<'a, 'b>, u32) -> StmtsRead<'a, 'b>,
    requires reads { ReadsStmts (S.IsAlwaysCallable inside.now) (S.post inside.now) }
    ensures read { MatchResult result (λ t. Reads (spell_arm (view_arm t.0))
        (number_arm t.0) labelled_parts depth depth (position_of at.entry) (position_of t.1))
        (λ e. Fails e labelled_parts depth (position_of at.entry)) }
{
    let (first, at) = label(alloc, at, depth, inside)?;
    let (more, at) = followed_by(label_list(alloc, at, depth, inside), Kind::Colon)?;
    labelled_of(first, more, numbered(nested(alloc, at, depth, inside)))
}

fn arm_list<'t, 's, S>(
    alloc: Global,
    mut at: Cursor<'t, 's>,
    depth: u32,
    inside: &S,
) -> Result<(Vec<Arm>, Cursor<'t, 's>), Fault<'t, 's>>
where
    S: for<'a, 'b> Fn(Global, Cursor<'a, 'b>, u32) -> StmtsRead<'a, 'b>,
    requires reads { ReadsStmts (S.IsAlwaysCallable inside.now) (S.post inside.now) }
    ensures read { MatchResult result (λ t. Reads (spell_arm_tail (arms_of t.0.items))
        (numbers_of_arms t.0.items)
        (λ o. arm_tail ∷ o) depth depth (position_of at.entry) (position_of t.1))
        (λ e. Fails e (λ o. arm_tail ∷ o) depth (position_of at.entry)) }
{
    let mut more = Vec::new(alloc);
    while let Some(after) = at.skip(Kind::Bar) {
        at = pushed(&mut more, arm(alloc, after, depth, inside))?;
    }
    Ok((more, at))
}

fn label<'t, 's, S>(
    alloc: Global,
    at: Cursor<'t, 's>,
    depth: u32,
    inside: &S,
) -> Result<(Label, Cursor<'t, 's>), Fault<'t, 's>>
where
    S: for<'a, 'b> Fn(Global, Cursor<'a, 'b>, u32) -> StmtsRead<'a, 'b>,
    requires reads { ReadsStmts (S.IsAlwaysCallable inside.now) (S.post inside.now) }
    ensures read { MatchResult result (λ t. Reads (spell_label (view_label t.0))
        (number_label t.0) label_parts depth depth (position_of at.entry) (position_of t.1))
        (λ e. Fails e label_parts depth (position_of at.entry)) }
{
    let (low, at) = expr(alloc, at, depth, inside)?;
    label_of(low, numbered(high(alloc, at, depth, inside)))
}

fn high<'t, 's, S>(
    alloc: Global,
    at: Cursor<'t, 's>,
    depth: u32,
    inside: &S,
) -> Result<(Option<Expr>, Cursor<'t, 's>), Fault<'t, 's>>
where
    S: for<'a, 'b> Fn(Global, Cursor<'a, 'b>, u32) -> StmtsRead<'a, 'b>,
    requires reads { ReadsStmts (S.IsAlwaysCallable inside.now) (S.post inside.now) }
    ensures read { MatchResult result (λ t. Reads (spell_high (high_of t.0)) (numbers_of_high t.0)
        (λ o. high_part ∷ o) depth depth (position_of at.entry) (position_of t.1))
        (λ e. Fails e (λ o. high_part ∷ o) depth (position_of at.entry)) }
{
    let Some(at) = at.skip(Kind::DotDot) else {
        return Ok((None, at));
    };
    present(expr(alloc, at, depth, inside))
}

fn label_list<'t, 's, S>(
    alloc: Global,
    mut at: Cursor<'t, 's>,
    depth: u32,
    inside: &S,
) -> Result<(Vec<Label>, Cursor<'t, 's>), Fault<'t, 's>>
where
    S: for<'a, 'b> Fn(Global, Cursor<'a, 'b>, u32) -> StmtsRead<'a, 'b>,
    requires reads { ReadsStmts (S.IsAlwaysCallable inside.now) (S.post inside.now) }
    ensures read { MatchResult result
        (λ t. Reads (spell_label_tail (labels_of t.0.items)) (numbers_of_labels t.0.items)
        (λ o. label_tail ∷ o) depth depth (position_of at.entry) (position_of t.1))
        (λ e. Fails e (λ o. label_tail ∷ o) depth (position_of at.entry)) }
{
    let mut more = Vec::new(alloc);
    while let Some(after) = at.skip(Kind::Comma) {
        at = pushed(&mut more, label(alloc, after, depth, inside))?;
    }
    Ok((more, at))
}

/// The statements that stand in a statement.
pub fn nested<'t, 's, S>(
    alloc: Global,
    at: Cursor<'t, 's>,
    depth: u32,
    inside: &S,
) -> StmtsRead<'t, 's>
where
    S: for<'a, 'b> Fn(Global, Cursor<'a, 'b>, u32) -> StmtsRead<'a, 'b>,
    requires reads { ReadsStmts (S.IsAlwaysCallable inside.now) (S.post inside.now) }
    ensures read { ReadsAt at.entry depth result }
{
    inside(alloc, at, depth)
}
