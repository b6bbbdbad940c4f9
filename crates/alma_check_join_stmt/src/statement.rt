// A node of a statement whose last part has been judged: its rules, and what it stands for.
#![tactic(auto, using(alma_rules::proofs::Judging::judging, std::proofs::lemmas::Grind::common_steps))]

ghost use Rattle.std.specs.Prelude.{ℕ};
ghost use Rattle.alma_ir.specs.Tree as ir;
ghost use Rattle.alma_ir.specs.View.{test_of};
ghost use Rattle.alma_rules.specs.Judgement.{Judgement, fine, of_value, both, with, with_some, at_node};
ghost use Rattle.alma_rules.specs.Answers.{Answers};
ghost use Rattle.alma_rules.specs.Parts as parts;
ghost use Rattle.alma_rules.specs.ExprRules as rules;
ghost use Rattle.alma_rules.specs.StmtRules as stmt_rules;
ghost use Rattle.alma_rules.specs.Nodes as nodes;
ghost use Rattle.alma_check_rules.specs.Views.{scene_of, typing_of, denoted_of, located_of, located_in, headings_in, stmts_of, stmts_in, somewhere};
ghost use Rattle.alma_check_build_expr.specs.Lists.{test_in, arms_in, branches_of, guarded_of};

use alma_check_build_expr::as_located;
use alma_check_build_stmt::{
    assign_stmt, bare_return, commit_stmt, condition, either_stmt, forall_stmt, guarded_arm,
    if_stmt, read_stmt, repeat_stmt, return_stmt, test_stmt, text_stmt, while_stmt, write_stmt,
    writeln_stmt,
};
use alma_check_rules::{
    Denotation, Env, Location, Place, TypedExpr, pass_assign, pass_bare_return, pass_constant,
    pass_read, pass_return, pass_test, pass_write,
};
use alma_ir::{Arm, Branch, Stmt, Test};
use alma_rules::Stop;
use std::alloc::Global;

/// The variable that a designator names.
pub fn join_place(
    env: &Env,
    desig: Result<Option<Denotation>, Stop>,
) -> Result<Option<Location>, Stop>
    ensures { (j : Judgement parts.Denotation) (m : ℕ)
        → Answers j (denoted_of (headings_in env.now)) m
        desig → Answers (with_some parts.located_in j) located_of m result }
{
    let found = desig?;
    Ok(as_located(env, found))
}

/// An expression as a condition, whose number is `node`.
pub fn join_condition(
    env: &Env,
    node: u32,
    typed: Result<Option<TypedExpr>, Stop>,
) -> Result<Option<Test>, Stop>
    ensures { (j : Judgement parts.Typing) (m : ℕ) → Answers j typing_of m typed
        → Answers (nodes.as_test (at_node node (rules.test_rules (scene_of env.now somewhere)) j))
        test_of m result }
{
    let typed = typed?;
    pass_test(env, node, &typed)?;
    Ok(condition(typed))
}

/// An expression as a statement.
pub fn join_test(alloc: Global, test: Result<Option<Test>, Stop>) -> Result<Option<Vec<Stmt>>, Stop>
    ensures { (j : Judgement ir.Test) (m : ℕ) → Answers j test_of m test
        → Answers (nodes.one (with ir.TestStmt j)) stmts_of m result }
{
    let test = test?;
    let whole = test_stmt(alloc, test)?;
    Ok(whole)
}

/// `:=`, behind its expression.
pub fn join_assign(
    alloc: Global,
    env: &Env,
    node: u32,
    located: Option<Location>,
    typed: Result<Option<TypedExpr>, Stop>,
) -> Result<Option<Vec<Stmt>>, Stop>
    ensures { (j : Judgement parts.Typing) (n m : ℕ) → Answers j typing_of m typed
        → Answers (with (parts.assignment_stmts (scene_of env.now somewhere)) (at_node node
        (stmt_rules.assign_rules (scene_of env.now somewhere)) (both (of_value n (located_in
        located)) j))) stmts_of m result }
{
    let typed = typed?;
    pass_assign(env, node, &located, &typed)?;
    let whole = assign_stmt(alloc, env, located, typed)?;
    Ok(whole)
}

// ---- IF, WHILE and REPEAT

/// A condition, behind the statements that it guards.
pub fn join_guarded(
    test: Option<Test>,
    body: Result<Option<Vec<Stmt>>, Stop>,
) -> Result<Option<Arm>, Stop>
    ensures { (j : Judgement ir.Stmts) (n m : ℕ) → Answers j stmts_of m body
        → Answers (both (of_value n (test_in test)) j) guarded_of m result }
{
    let body = body?;
    Ok(guarded_arm(test, body))
}

/// IF, behind its ELSE part.
pub fn join_if(
    alloc: Global,
    arms: Option<Vec<Arm>>,
    other: Result<Option<Vec<Stmt>>, Stop>,
) -> Result<Option<Vec<Stmt>>, Stop>
    ensures { (j : Judgement ir.Stmts) (n m : ℕ) → Answers j stmts_of m other
        → Answers (nodes.one (with (λ p. ir.If p.0 p.1) (both (of_value n (arms_in arms)) j)))
        stmts_of m result }
{
    let other = other?;
    let whole = if_stmt(alloc, arms, other)?;
    Ok(whole)
}

/// WHILE, behind its body.
pub fn join_while(
    alloc: Global,
    test: Option<Test>,
    body: Result<Option<Vec<Stmt>>, Stop>,
) -> Result<Option<Vec<Stmt>>, Stop>
    ensures { (j : Judgement ir.Stmts) (n m : ℕ) → Answers j stmts_of m body
        → Answers (nodes.one (with (λ p. ir.While p.0 p.1) (both (of_value n (test_in test)) j)))
        stmts_of m result }
{
    let body = body?;
    let whole = while_stmt(alloc, test, body)?;
    Ok(whole)
}

/// REPEAT, behind its condition.
pub fn join_repeat(
    alloc: Global,
    body: Option<Vec<Stmt>>,
    test: Result<Option<Test>, Stop>,
) -> Result<Option<Vec<Stmt>>, Stop>
    ensures { (j : Judgement ir.Test) (n m : ℕ) → Answers j test_of m test
        → Answers (nodes.one (with (λ p. ir.Repeat p.0 p.1) (both (of_value n (stmts_in body)) j)))
        stmts_of m result }
{
    let test = test?;
    let whole = repeat_stmt(alloc, body, test)?;
    Ok(whole)
}

// ---- EITHER, FORALL and COMMIT

/// EITHER, behind its branches.
pub fn join_either(
    alloc: Global,
    branches: Result<Option<Vec<Branch>>, Stop>,
) -> Result<Option<Vec<Stmt>>, Stop>
    ensures { (j : Judgement ir.Branches) (m : ℕ) → Answers j branches_of m branches
        → Answers (nodes.one (with ir.Either j)) stmts_of m result }
{
    let branches = branches?;
    let whole = either_stmt(alloc, branches)?;
    Ok(whole)
}

/// FORALL, behind its body.
pub fn join_forall(
    alloc: Global,
    choice: Option<Vec<Stmt>>,
    body: Result<Option<Vec<Stmt>>, Stop>,
) -> Result<Option<Vec<Stmt>>, Stop>
    ensures { (j : Judgement ir.Stmts) (n m : ℕ) → Answers j stmts_of m body
        → Answers (nodes.one (with (λ p. ir.Forall p.0 p.1) (both (of_value n (stmts_in choice))
        j))) stmts_of m result }
{
    let body = body?;
    let whole = forall_stmt(alloc, choice, body)?;
    Ok(whole)
}

/// COMMIT, behind its body.
pub fn join_commit(
    alloc: Global,
    body: Result<Option<Vec<Stmt>>, Stop>,
) -> Result<Option<Vec<Stmt>>, Stop>
    ensures { (j : Judgement ir.Stmts) (m : ℕ) → Answers j stmts_of m body
        → Answers (nodes.one (with ir.Commit j)) stmts_of m result }
{
    let body = body?;
    let whole = commit_stmt(alloc, body)?;
    Ok(whole)
}

// ---- RETURN, READ and WRITE

/// RETURN alone.
pub fn check_bare_return(
    alloc: Global,
    env: &Env,
    place: Place,
    node: u32,
) -> Result<Option<Vec<Stmt>>, Stop>
    ensures { (n : ℕ) → Answers (nodes.one (nodes.bare_return_at (scene_of env.now place) n node))
        stmts_of n result }
{
    pass_bare_return(env, place, node)?;
    let whole = bare_return(alloc)?;
    Ok(whole)
}

/// RETURN, behind its expression.
pub fn join_return(
    alloc: Global,
    env: &Env,
    place: Place,
    node: u32,
    typed: Result<Option<TypedExpr>, Stop>,
) -> Result<Option<Vec<Stmt>>, Stop>
    ensures { (j : Judgement parts.Typing) (m : ℕ) → Answers j typing_of m typed
        → Answers (nodes.one (nodes.return_at (scene_of env.now place) node j)) stmts_of m result }
{
    let typed = typed?;
    pass_return(env, place, node, &typed)?;
    let whole = return_stmt(alloc, typed)?;
    Ok(whole)
}

/// READ of one designator, whose number is `node`.
pub fn join_read(
    alloc: Global,
    env: &Env,
    node: u32,
    located: Result<Option<Location>, Stop>,
) -> Result<Option<Vec<Stmt>>, Stop>
    ensures { (j : Judgement parts.Location) (m : ℕ) → Answers j located_of m located
        → Answers (with (parts.read_stmts (scene_of env.now somewhere)) (at_node node
        (stmt_rules.read_rules (scene_of env.now somewhere)) j)) stmts_of m result }
{
    let located = located?;
    pass_read(env, node, &located)?;
    let whole = read_stmt(alloc, env, located)?;
    Ok(whole)
}

/// WRITE of one expression, whose number is `node`.
pub fn join_item(
    alloc: Global,
    env: &Env,
    node: u32,
    typed: Result<Option<TypedExpr>, Stop>,
) -> Result<Option<Vec<Stmt>>, Stop>
    ensures { (j : Judgement parts.Typing) (m : ℕ) → Answers j typing_of m typed
        → Answers (with (parts.write_stmts (scene_of env.now somewhere)) (at_node node
        (stmt_rules.write_rules (scene_of env.now somewhere)) j)) stmts_of m result }
{
    let typed = typed?;
    pass_write(env, node, &typed)?;
    let whole = write_stmt(alloc, env, typed)?;
    Ok(whole)
}

/// WRITE of a literal that is no CHAR; `node` is the literal's number.
pub fn check_text(
    alloc: Global,
    env: &Env,
    place: Place,
    node: u32,
    bytes: &[u8],
) -> Result<Option<Vec<Stmt>>, Stop>
    ensures { (n : ℕ) → Answers (at_node node (nodes.text_rules (scene_of env.now place)) (fine n
        (parts.one_stmt (ir.WriteText bytes.now)))) stmts_of n result }
{
    pass_constant(env, place, node)?;
    let whole = text_stmt(alloc, bytes)?;
    Ok(whole)
}

/// WRITELN, behind its items.
pub fn join_line(items: Result<Option<Vec<Stmt>>, Stop>) -> Result<Option<Vec<Stmt>>, Stop>
    ensures { (j : Judgement ir.Stmts) (m : ℕ) → Answers j stmts_of m items
        → Answers (with nodes.with_line j) stmts_of m result }
{
    let items = items?;
    let whole = writeln_stmt(items)?;
    Ok(whole)
}
