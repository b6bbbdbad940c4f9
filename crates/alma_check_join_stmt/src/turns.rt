// FOR and SOME, whose last part has been judged.
#![tactic(auto, using(alma_rules::proofs::Judging::judging, std::proofs::lemmas::Grind::common_steps))]

ghost use Rattle.std.specs.Prelude.{◌≡◌, ℤ, ◌+◌, ◌<◌, ◌^◌, ℕ, pos, None, option_and_then, IfOk};
ghost use Rattle.alma_ir.specs.Tree as ir;
ghost use Rattle.alma_rules.specs.Judgement.{Judgement, fine, of_value, with, with_some, at_node};
ghost use Rattle.alma_rules.specs.View.{view_name};
ghost use Rattle.alma_rules.specs.Scene.{found};
ghost use Rattle.alma_rules.specs.Answers.{Answers};
ghost use Rattle.alma_rules.specs.Parts as parts;
ghost use Rattle.alma_rules.specs.StmtRules as stmt_rules;
ghost use Rattle.alma_rules.specs.Nodes as nodes;
ghost use Rattle.alma_check_rules.specs.Views.{scene_of, typing_in, typing_of, headings_in, found_view, stmts_of, somewhere};
ghost use Rattle.alma_check_join_stmt.specs.Bounded.{Finds, TakesLoop, Starts, HeadOf, JudgesTurns};

use alma_check_build_expr::as_located;
use alma_check_build_stmt::{for_stmt, loop_of, some_stmt};
use alma_check_rules::{Env, Found, Place, TypedExpr, pass_by, pass_loop, pass_loop_name};
use alma_ir::Stmt;
use alma_rules::Stop;
use alma_tree::Name;
use std::alloc::Global;

// The name of a loop's variable.
fn check_loop_name(env: &Env, place: Place, name: &Name) -> Result<Found, Stop>
    ensures { Finds (headings_in env.now) name.now.node (λ f. stmt_rules.loop_name_rules (scene_of
        env.now place) f None) (found (scene_of env.now somewhere) (view_name name.now)) result }
{
    let found = env.found(name)?;
    pass_loop_name(env, place, name.node, found)?;
    Ok(found)
}

// The two hidden slots of a loop: the first free one, and the one behind it.
fn take_loop(slot: &mut u32) -> Result<u32, Stop>
    ensures { TakesLoop slot.old slot.new result }
{
    let counter = *slot;
    match counter.checked_add(2) {
        Some(next) => {
            *slot = next;
            Ok(counter)
        }
        None => Err(Stop::Memory),
    }
}

// The first of a loop's two hidden slots. That the second has a number too is known since the slot
// behind them, which is read here, has one.
fn take_slots(slot: &mut u32) -> Result<u32, Stop>
    ensures taken { TakesLoop slot.old slot.new result }
    ensures limit { IfOk result (λ n. n + 1 < 2 ^ 32) }
{
    let counter = take_loop(slot)?;
    let _next = *slot;
    Ok(counter)
}

/// What a loop starts with: the first of its two hidden slots, and what the name of its variable
/// stands for.
#[derive(Clone, Copy)]
pub struct Start {
    pub counter: u32,
    pub found: Found,
}

/// The start of a loop over the variable of this name.
pub fn start_loop(env: &Env, place: Place, slot: &mut u32, name: &Name) -> Result<Start, Stop>
    ensures started { Starts (headings_in env.now) name.now.node
        (λ f. stmt_rules.loop_name_rules (scene_of env.now place) f None)
        (found (scene_of env.now somewhere) (view_name name.now)) slot.old slot.new result }
    ensures limit { IfOk result (λ s. s.counter + 1 < 2 ^ 32) }
{
    let counter = take_slots(slot)?;
    let found = check_loop_name(env, place, name)?;
    Ok(Start { counter, found })
}

/// The bounds of a loop.
#[derive(Drop)]
pub struct Bounds {
    pub low: Option<TypedExpr>,
    pub high: Option<TypedExpr>,
}

/// What stands in front of a loop's body, or of its step: what it starts with, and its bounds.
#[derive(Drop)]
pub struct Head {
    pub counter: u32,
    pub found: Found,
    pub bounds: Bounds,
}

/// The bounds and the step of a loop.
#[derive(Drop)]
pub struct Turns {
    pub low: Option<TypedExpr>,
    pub high: Option<TypedExpr>,
    pub by: Option<i64>,
}

/// The head of a loop, behind the second bound.
pub fn join_head(
    start: Start,
    low: Option<TypedExpr>,
    high: Result<Option<TypedExpr>, Stop>,
) -> Result<Head, Stop>
    ensures { (j : Judgement parts.Typing) (m : ℕ) → Answers j typing_of m high
        → HeadOf start (typing_in low) j m result }
{
    let high = high?;
    Ok(Head {
        counter: start.counter,
        found: start.found,
        bounds: Bounds { low, high },
    })
}

/// The bounds and the step of a loop, behind the step.
pub fn join_by(bounds: Bounds, by: Result<Option<i64>, Stop>) -> Result<Turns, Stop>
    ensures { (j : Judgement ℤ) (m : ℕ) → Answers j (λ v. v) m by → JudgesTurns bounds j m result }
{
    let by = by?;
    Ok(Turns {
        low: bounds.low,
        high: bounds.high,
        by,
    })
}

/// The step behind BY, whose number is `node`.
pub fn join_step(
    env: &Env,
    node: u32,
    typed: Result<Option<TypedExpr>, Stop>,
) -> Result<Option<i64>, Stop>
    ensures { (j : Judgement parts.Typing) (m : ℕ) → Answers j typing_of m typed
        → Answers (with_some nodes.constant_in (at_node node (stmt_rules.by_rules (scene_of env.now
        somewhere)) j)) (λ v. v) m result }
{
    let typed = typed?;
    pass_by(env, node, &typed)?;
    Ok(constant(typed))
}

fn constant(typed: Option<TypedExpr>) -> Option<i64>
    ensures { result ≡ option_and_then nodes.constant_in (typing_in typed) }
{
    match typed {
        None => None,
        Some(typed) => typed.constant,
    }
}

/// FOR, behind its body.
pub fn join_for(
    alloc: Global,
    env: &Env,
    counter: u32,
    node: u32,
    found: Found,
    turns: Turns,
    body: Result<Option<Vec<Stmt>>, Stop>,
) -> Result<Option<Vec<Stmt>>, Stop>
    requires limit { counter + 1 < 2 ^ 32 }
    ensures { (j : Judgement ir.Stmts) (n a b c m : ℕ) → Answers j stmts_of m body
        → Answers (nodes.one (with ir.ForTo (nodes.loop_at (scene_of env.now somewhere) counter node
        (of_value n (option_and_then parts.located_in (parts.denotation (scene_of env.now somewhere)
        (found_view (headings_in env.now) found)))) (of_value a (typing_in turns.low)) (of_value b
        (typing_in turns.high)) (of_value c turns.by) j))) stmts_of m result }
{
    let body = body?;
    let variable = as_located(env, env.denoted(alloc, found));
    pass_loop(env, node, &variable, &turns.low, &turns.high)?;
    let looped = loop_of(
        alloc, env, counter, variable, turns.low, turns.high, turns.by, body,
    )?;
    let whole = for_stmt(alloc, looped)?;
    Ok(whole)
}

/// SOME, behind its body.
pub fn join_some(
    alloc: Global,
    env: &Env,
    counter: u32,
    node: u32,
    found: Found,
    bounds: Bounds,
    body: Result<Option<Vec<Stmt>>, Stop>,
) -> Result<Option<Vec<Stmt>>, Stop>
    requires limit { counter + 1 < 2 ^ 32 }
    ensures { (j : Judgement ir.Stmts) (n a b m : ℕ) → Answers j stmts_of m body
        → Answers (nodes.one (with ir.SomeOf (nodes.loop_at (scene_of env.now somewhere) counter
        node (of_value n (option_and_then parts.located_in (parts.denotation (scene_of env.now
        somewhere) (found_view (headings_in env.now) found)))) (of_value a (typing_in bounds.low))
        (of_value b (typing_in bounds.high)) (fine b (pos 1)) j))) stmts_of m result }
{
    let body = body?;
    let variable = as_located(env, env.denoted(alloc, found));
    pass_loop(env, node, &variable, &bounds.low, &bounds.high)?;
    let looped = loop_of(
        alloc,
        env,
        counter,
        variable,
        bounds.low,
        bounds.high,
        Some(1),
        body,
    )?;
    let whole = some_stmt(alloc, looped)?;
    Ok(whole)
}
