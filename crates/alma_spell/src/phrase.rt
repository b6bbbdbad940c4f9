// The kinds of statements, expressions and designators.
ghost use Rattle.std.specs.Prelude.{OnOk};
ghost use Rattle.alma_spell.specs.Pushed.{Pushes, Puts};
ghost use Rattle.alma_tree.specs.Spelling.{spell_args, spell_arm, spell_arm_tail, spell_by, spell_compared, spell_desig, spell_desig_tail, spell_else, spell_elsif_tail, spell_expr, spell_expr_tail, spell_exprs, spell_factor, spell_factor_tail, spell_high, spell_label, spell_label_tail, spell_orelse_tail, spell_primary, spell_returned, spell_selector, spell_selector_tail, spell_simple, spell_stmt, spell_stmt_tail, spell_stmts, spell_term, spell_term_tail};
ghost use Rattle.alma_tree.specs.Tree.{assign, case_stmt, commit_stmt, either_stmt, for_stmt, forall_stmt, if_stmt, read_stmt, repeat_stmt, return_stmt, some_stmt, while_stmt, write_stmt, writeln_stmt};
ghost use Rattle.alma_tree.specs.View.{args_of, arms_of, by_of, compared_of, desigs_of, else_of, elsifs_of, exprs_of, factors_of, high_of, labels_of, orelses_of, returned_of, selectors_of, stmts_of, terms_of, view_arm, view_desig, view_expr, view_exprs, view_factor, view_label, view_primary, view_selector, view_simple, view_stmt, view_stmts, view_term};

use crate::word::{Spelled, add_kind, mul_kind, put_sign, relation_kind};
use alma_base::NoMemory;
use alma_tree::{
    AddLink, Args, Arm, Compared, Desig, Elsif, Expr, Exprs, Factor, Kind, Label, MulLink, Primary,
    Selector, Simple, Stmt, Stmts, Term,
};

/// Appends the kinds of the tokens that a list of statements stands for.
pub fn push_stmts(tree: &Stmts, out: &mut Vec<Kind>) -> Result<(), NoMemory>
    ensures pushed { OnOk result (Pushes out.old.items out.new.items
        (spell_stmts (view_stmts tree.now))) }
{
    let mut spelled = Spelled::behind(out);
    put_stmts(tree, &mut spelled);
    spelled.finish(out)
}

/// Appends the kinds of the tokens that an expression stands for.
pub fn push_expr(tree: &Expr, out: &mut Vec<Kind>) -> Result<(), NoMemory>
    ensures pushed { OnOk result (Pushes out.old.items out.new.items
        (spell_expr (view_expr tree.now))) }
{
    let mut spelled = Spelled::behind(out);
    put_expr(tree, &mut spelled);
    spelled.finish(out)
}

#[cycle(spell)]
fn put_stmts(tree: &Stmts, out: &mut Spelled)
    ensures { Puts out.old out.new (spell_stmts (view_stmts tree.now)) }
{
    put_stmt(&tree.first, out);
    put_stmt_tail(&tree.more, out);
}

#[cycle(spell)]
fn put_stmt_tail(trees: &[Stmt], out: &mut Spelled)
    ensures { Puts out.old out.new (spell_stmt_tail (stmts_of trees.now)) }
{
    for tree in trees {
        out.put(Kind::Semicolon);
        put_stmt(tree, out);
    }
}

#[cycle(spell)]
fn put_stmt(tree: &Stmt, out: &mut Spelled)
    ensures { Puts out.old out.new (spell_stmt (view_stmt tree.now)) }
{
    match tree {
        Stmt::Nothing { .. } => {}
        Stmt::Assign { target, value, .. } => put_assign(target, value, out),
        Stmt::Value { value, .. } => put_expr(value, out),
        Stmt::If {
            test,
            then,
            elsifs,
            otherwise,
            ..
        } => put_if(test, then, elsifs, otherwise, out),
        Stmt::While { test, body, .. } => put_while(test, body, out),
        Stmt::Repeat { body, test, .. } => put_repeat(body, test, out),
        Stmt::For {
            from,
            to,
            by,
            body,
            ..
        } => put_for(from, to, by, body, out),
        Stmt::Some { from, to, body, .. } => put_some(from, to, body, out),
        Stmt::Case {
            value,
            first,
            more,
            otherwise,
            ..
        } => put_case(value, first, more, otherwise, out),
        Stmt::Either { first, more, .. } => put_either(first, more, out),
        Stmt::Forall { choice, body, .. } => put_forall(choice, body, out),
        Stmt::Commit { body, .. } => put_commit(body, out),
        Stmt::Return { value, .. } => put_return(value, out),
        Stmt::Read { first, more, .. } => put_read(first, more, out),
        Stmt::Write { items, .. } => put_write(items, out),
        Stmt::Writeln { items, .. } => put_writeln(items, out),
    }
}

#[cycle(spell)]
fn put_assign(target: &Desig, value: &Expr, out: &mut Spelled)
    ensures { Puts out.old out.new
        (spell_stmt (assign (view_desig target.now) (view_expr value.now))) }
{
    put_desig(target, out);
    out.put(Kind::Assign);
    put_expr(value, out);
}

#[cycle(spell)]
fn put_if(test: &Expr, then: &Stmts, elsifs: &[Elsif], otherwise: &Option<Stmts>, out: &mut Spelled)
    ensures { Puts out.old out.new
        (spell_stmt (if_stmt (view_expr test.now) (view_stmts then.now) (elsifs_of elsifs.now)
        (else_of otherwise.now))) }
{
    out.put(Kind::If);
    put_expr(test, out);
    out.put(Kind::Then);
    put_stmts(then, out);
    put_elsif_tail(elsifs, out);
    put_else(otherwise, out);
    out.put(Kind::End);
}

#[cycle(spell)]
fn put_while(test: &Expr, body: &Stmts, out: &mut Spelled)
    ensures { Puts out.old out.new
        (spell_stmt (while_stmt (view_expr test.now) (view_stmts body.now))) }
{
    out.put(Kind::While);
    put_expr(test, out);
    out.put(Kind::Do);
    put_stmts(body, out);
    out.put(Kind::End);
}

#[cycle(spell)]
fn put_repeat(body: &Stmts, test: &Expr, out: &mut Spelled)
    ensures { Puts out.old out.new
        (spell_stmt (repeat_stmt (view_stmts body.now) (view_expr test.now))) }
{
    out.put(Kind::Repeat);
    put_stmts(body, out);
    out.put(Kind::Until);
    put_expr(test, out);
}

#[cycle(spell)]
fn put_for(from: &Expr, to: &Expr, by: &Option<Expr>, body: &Stmts, out: &mut Spelled)
    ensures { Puts out.old out.new
        (spell_stmt (for_stmt (view_expr from.now) (view_expr to.now) (by_of by.now) (view_stmts
        body.now))) }
{
    out.put(Kind::For);
    out.put(Kind::Name);
    out.put(Kind::Assign);
    put_expr(from, out);
    out.put(Kind::To);
    put_expr(to, out);
    put_by(by, out);
    out.put(Kind::Do);
    put_stmts(body, out);
    out.put(Kind::End);
}

#[cycle(spell)]
fn put_some(from: &Expr, to: &Expr, body: &Stmts, out: &mut Spelled)
    ensures { Puts out.old out.new
        (spell_stmt (some_stmt (view_expr from.now) (view_expr to.now) (view_stmts body.now))) }
{
    out.put(Kind::Some);
    out.put(Kind::Name);
    out.put(Kind::Assign);
    put_expr(from, out);
    out.put(Kind::To);
    put_expr(to, out);
    out.put(Kind::Do);
    put_stmts(body, out);
    out.put(Kind::End);
}

#[cycle(spell)]
fn put_case(value: &Expr, first: &Arm, more: &[Arm], otherwise: &Option<Stmts>, out: &mut Spelled)
    ensures { Puts out.old out.new
        (spell_stmt (case_stmt (view_expr value.now) (view_arm first.now) (arms_of more.now)
        (else_of otherwise.now))) }
{
    out.put(Kind::Case);
    put_expr(value, out);
    out.put(Kind::Of);
    put_arm(first, out);
    put_arm_tail(more, out);
    put_else(otherwise, out);
    out.put(Kind::End);
}

#[cycle(spell)]
fn put_either(first: &Stmts, more: &[Stmts], out: &mut Spelled)
    ensures { Puts out.old out.new
        (spell_stmt (either_stmt (view_stmts first.now) (orelses_of more.now))) }
{
    out.put(Kind::Either);
    put_stmts(first, out);
    put_orelse_tail(more, out);
    out.put(Kind::End);
}

#[cycle(spell)]
fn put_forall(choice: &Stmts, body: &Stmts, out: &mut Spelled)
    ensures { Puts out.old out.new
        (spell_stmt (forall_stmt (view_stmts choice.now) (view_stmts body.now))) }
{
    out.put(Kind::Forall);
    put_stmts(choice, out);
    out.put(Kind::Do);
    put_stmts(body, out);
    out.put(Kind::End);
}

#[cycle(spell)]
fn put_commit(body: &Stmts, out: &mut Spelled)
    ensures { Puts out.old out.new (spell_stmt (commit_stmt (view_stmts body.now))) }
{
    out.put(Kind::Commit);
    put_stmts(body, out);
    out.put(Kind::End);
}

#[cycle(spell)]
fn put_return(value: &Option<Expr>, out: &mut Spelled)
    ensures { Puts out.old out.new (spell_stmt (return_stmt (returned_of value.now))) }
{
    out.put(Kind::Return);
    put_returned(value, out);
}

#[cycle(spell)]
fn put_read(first: &Desig, more: &[Desig], out: &mut Spelled)
    ensures { Puts out.old out.new
        (spell_stmt (read_stmt (view_desig first.now) (desigs_of more.now))) }
{
    out.put(Kind::Read);
    out.put(Kind::OpenParen);
    put_desig(first, out);
    put_desig_tail(more, out);
    out.put(Kind::CloseParen);
}

#[cycle(spell)]
fn put_write(items: &Exprs, out: &mut Spelled)
    ensures { Puts out.old out.new (spell_stmt (write_stmt (view_exprs items.now))) }
{
    out.put(Kind::Write);
    out.put(Kind::OpenParen);
    put_exprs(items, out);
    out.put(Kind::CloseParen);
}

#[cycle(spell)]
fn put_writeln(items: &Option<Args>, out: &mut Spelled)
    ensures { Puts out.old out.new (spell_stmt (writeln_stmt (args_of items.now))) }
{
    out.put(Kind::Writeln);
    put_args(items, out);
}

#[cycle(spell)]
fn put_elsif_tail(trees: &[Elsif], out: &mut Spelled)
    ensures { Puts out.old out.new (spell_elsif_tail (elsifs_of trees.now)) }
{
    for tree in trees {
        out.put(Kind::Elsif);
        put_expr(&tree.test, out);
        out.put(Kind::Then);
        put_stmts(&tree.then, out);
    }
}

#[cycle(spell)]
fn put_else(tree: &Option<Stmts>, out: &mut Spelled)
    ensures { Puts out.old out.new (spell_else (else_of tree.now)) }
{
    if let Some(body) = tree {
        out.put(Kind::Else);
        put_stmts(body, out);
    }
}

#[cycle(spell)]
fn put_by(tree: &Option<Expr>, out: &mut Spelled)
    ensures { Puts out.old out.new (spell_by (by_of tree.now)) }
{
    if let Some(step) = tree {
        out.put(Kind::By);
        put_expr(step, out);
    }
}

#[cycle(spell)]
fn put_orelse_tail(trees: &[Stmts], out: &mut Spelled)
    ensures { Puts out.old out.new (spell_orelse_tail (orelses_of trees.now)) }
{
    for tree in trees {
        out.put(Kind::Orelse);
        put_stmts(tree, out);
    }
}

#[cycle(spell)]
fn put_returned(tree: &Option<Expr>, out: &mut Spelled)
    ensures { Puts out.old out.new (spell_returned (returned_of tree.now)) }
{
    if let Some(value) = tree {
        put_expr(value, out);
    }
}

#[cycle(spell)]
fn put_desig_tail(trees: &[Desig], out: &mut Spelled)
    ensures { Puts out.old out.new (spell_desig_tail (desigs_of trees.now)) }
{
    for tree in trees {
        out.put(Kind::Comma);
        put_desig(tree, out);
    }
}

#[cycle(spell)]
fn put_arm(tree: &Arm, out: &mut Spelled)
    ensures { Puts out.old out.new (spell_arm (view_arm tree.now)) }
{
    match tree {
        Arm::Empty { .. } => {}
        Arm::Labelled {
            first,
            more,
            body,
            ..
        } => {
            put_label(first, out);
            put_label_tail(more, out);
            out.put(Kind::Colon);
            put_stmts(body, out);
        }
    }
}

#[cycle(spell)]
fn put_arm_tail(trees: &[Arm], out: &mut Spelled)
    ensures { Puts out.old out.new (spell_arm_tail (arms_of trees.now)) }
{
    for tree in trees {
        out.put(Kind::Bar);
        put_arm(tree, out);
    }
}

#[cycle(spell)]
fn put_label(tree: &Label, out: &mut Spelled)
    ensures { Puts out.old out.new (spell_label (view_label tree.now)) }
{
    put_expr(&tree.low, out);
    put_high(&tree.high, out);
}

#[cycle(spell)]
fn put_high(tree: &Option<Expr>, out: &mut Spelled)
    ensures { Puts out.old out.new (spell_high (high_of tree.now)) }
{
    if let Some(high) = tree {
        out.put(Kind::DotDot);
        put_expr(high, out);
    }
}

#[cycle(spell)]
fn put_label_tail(trees: &[Label], out: &mut Spelled)
    ensures { Puts out.old out.new (spell_label_tail (labels_of trees.now)) }
{
    for tree in trees {
        out.put(Kind::Comma);
        put_label(tree, out);
    }
}

#[cycle(spell)]
fn put_expr(tree: &Expr, out: &mut Spelled)
    ensures { Puts out.old out.new (spell_expr (view_expr tree.now)) }
{
    put_simple(&tree.left, out);
    put_compared(&tree.right, out);
}

#[cycle(spell)]
fn put_compared(tree: &Option<Box<Compared>>, out: &mut Spelled)
    ensures { Puts out.old out.new (spell_compared (compared_of tree.now)) }
{
    if let Some(compared) = tree {
        out.put(relation_kind(compared.relation));
        put_simple(&compared.right, out);
    }
}

#[cycle(spell)]
fn put_simple(tree: &Simple, out: &mut Spelled)
    ensures { Puts out.old out.new (spell_simple (view_simple tree.now)) }
{
    put_sign(tree.sign, out);
    put_term(&tree.first, out);
    put_term_tail(&tree.more, out);
}

#[cycle(spell)]
fn put_term_tail(trees: &[AddLink], out: &mut Spelled)
    ensures { Puts out.old out.new (spell_term_tail (terms_of trees.now)) }
{
    for tree in trees {
        out.put(add_kind(tree.operator));
        put_term(&tree.operand, out);
    }
}

#[cycle(spell)]
fn put_term(tree: &Term, out: &mut Spelled)
    ensures { Puts out.old out.new (spell_term (view_term tree.now)) }
{
    put_factor(&tree.first, out);
    put_factor_tail(&tree.more, out);
}

#[cycle(spell)]
fn put_factor_tail(trees: &[MulLink], out: &mut Spelled)
    ensures { Puts out.old out.new (spell_factor_tail (factors_of trees.now)) }
{
    for tree in trees {
        out.put(mul_kind(tree.operator));
        put_factor(&tree.operand, out);
    }
}

#[cycle(spell)]
fn put_factor(tree: &Factor, out: &mut Spelled)
    ensures { Puts out.old out.new (spell_factor (view_factor tree.now)) }
{
    match tree {
        Factor::Not { primary, .. } => {
            out.put(Kind::Not);
            put_primary(primary, out);
        }
        Factor::Plain { primary, .. } => put_primary(primary, out),
    }
}

#[cycle(spell)]
fn put_primary(tree: &Primary, out: &mut Spelled)
    ensures { Puts out.old out.new (spell_primary (view_primary tree.now)) }
{
    match tree {
        Primary::Number { .. } => out.put(Kind::Number),
        Primary::Literal { .. } => out.put(Kind::Literal),
        Primary::Desig { desig, args, .. } => {
            put_desig(desig, out);
            put_args(args, out);
        }
        Primary::Paren { body, .. } => {
            out.put(Kind::OpenParen);
            put_stmts(body, out);
            out.put(Kind::CloseParen);
        }
        Primary::Known { desig, .. } => {
            out.put(Kind::Known);
            out.put(Kind::OpenParen);
            put_desig(desig, out);
            out.put(Kind::CloseParen);
        }
        Primary::Ord { value, .. } => {
            out.put(Kind::Ord);
            out.put(Kind::OpenParen);
            put_expr(value, out);
            out.put(Kind::CloseParen);
        }
        Primary::Chr { value, .. } => {
            out.put(Kind::Chr);
            out.put(Kind::OpenParen);
            put_expr(value, out);
            out.put(Kind::CloseParen);
        }
    }
}

#[cycle(spell)]
fn put_args(tree: &Option<Args>, out: &mut Spelled)
    ensures { Puts out.old out.new (spell_args (args_of tree.now)) }
{
    let Some(args) = tree else {
        return;
    };
    out.put(Kind::OpenParen);
    match &args.values {
        None => out.put(Kind::CloseParen),
        Some(values) => {
            put_exprs(values, out);
            out.put(Kind::CloseParen);
        }
    }
}

#[cycle(spell)]
fn put_exprs(tree: &Exprs, out: &mut Spelled)
    ensures { Puts out.old out.new (spell_exprs (view_exprs tree.now)) }
{
    put_expr(&tree.first, out);
    put_expr_tail(&tree.more, out);
}

#[cycle(spell)]
fn put_expr_tail(trees: &[Expr], out: &mut Spelled)
    ensures { Puts out.old out.new (spell_expr_tail (exprs_of trees.now)) }
{
    for tree in trees {
        out.put(Kind::Comma);
        put_expr(tree, out);
    }
}

#[cycle(spell)]
fn put_desig(tree: &Desig, out: &mut Spelled)
    ensures { Puts out.old out.new (spell_desig (view_desig tree.now)) }
{
    out.put(Kind::Name);
    put_selector_tail(&tree.more, out);
}

#[cycle(spell)]
fn put_selector_tail(trees: &[Selector], out: &mut Spelled)
    ensures { Puts out.old out.new (spell_selector_tail (selectors_of trees.now)) }
{
    for tree in trees {
        put_selector(tree, out);
    }
}

#[cycle(spell)]
fn put_selector(tree: &Selector, out: &mut Spelled)
    ensures { Puts out.old out.new (spell_selector (view_selector tree.now)) }
{
    match tree {
        Selector::Field { .. } => {
            out.put(Kind::Dot);
            out.put(Kind::Name);
        }
        Selector::Index { indices, .. } => {
            out.put(Kind::OpenBracket);
            put_exprs(indices, out);
            out.put(Kind::CloseBracket);
        }
    }
}
