// Designators and their selectors.
ghost use Rattle.alma_rules.specs.Numbered as tree;
ghost use Rattle.alma_rules.specs.View.{view_desig, view_selector, view_expr, view_exprs, selectors_of};
ghost use Rattle.alma_rules.specs.Judgement.{of_value};
ghost use Rattle.alma_rules.specs.Answers.{Answers};
ghost use Rattle.alma_rules.specs.Nodes as nodes;
ghost use Rattle.alma_rules.specs.Walk.{judge_expr, judge_desig, judge_selectors, judge_selector, judge_indices};
ghost use Rattle.alma_check_rules.specs.Views.{scene_of, headings_in, denoted_in, denoted_of, use_view};
ghost use Rattle.alma_check_phrases.specs.Inside.{JudgesStmts};

use crate::expression::{StmtsJudged, check_expr};
use alma_check_join_expr::{check_found, join_array, join_desig, join_field, join_index};
use alma_check_rules::{Denotation, Env, Place, Use};
use alma_rules::Stop;
use alma_tree::{Desig, Expr, Exprs, Selector, Stmts};
use std::alloc::Global;

/// A designator used as `wanted`: the rule of its name first, then its selectors from left to
/// right, and last the rules of the whole.
#[cycle(values)]
pub fn check_desig<S>(
    alloc: Global,
    env: &Env,
    place: Place,
    slot: &mut u32,
    wanted: Use,
    desig: &Desig,
    inside: &S,
) -> Result<Option<Denotation>, Stop>
where
    S: Fn(Global, &Env, Place, &mut u32, &Stmts) -> StmtsJudged,
    requires judges { JudgesStmts (S.IsAlwaysCallable inside.now) (S.post inside.now) }
    ensures { Answers (judge_desig (scene_of env.now place) slot.old (use_view wanted)
        (view_desig desig.now)) (denoted_of (headings_in env.now)) slot.new result }
{
    let found = env.found(&desig.name)?;
    let start = check_found(alloc, env, desig.name.node, found)?;
    let part = check_selectors(alloc, env, place, slot, start, &desig.more, inside);
    join_desig(
        env,
        place,
        desig.node,
        wanted,
        !desig.more.is_empty(),
        found,
        part,
    )
}

#[cycle(values)]
fn check_selectors<S>(
    alloc: Global,
    env: &Env,
    place: Place,
    slot: &mut u32,
    start: Option<Denotation>,
    more: &[Selector],
    inside: &S,
) -> Result<Option<Denotation>, Stop>
where
    S: Fn(Global, &Env, Place, &mut u32, &Stmts) -> StmtsJudged,
    requires judges { JudgesStmts (S.IsAlwaysCallable inside.now) (S.post inside.now) }
    ensures { Answers (judge_selectors (scene_of env.now place)
        (of_value slot.old (denoted_in (headings_in env.now) start)) (selectors_of more.now))
        (denoted_of (headings_in env.now)) slot.new result }
{
    let mut found = start;
    for selector in more {
        found = check_selector(alloc, env, place, slot, found, selector, inside)?;
    }
    Ok(found)
}

#[cycle(values)]
fn check_selector<S>(
    alloc: Global,
    env: &Env,
    place: Place,
    slot: &mut u32,
    found: Option<Denotation>,
    selector: &Selector,
    inside: &S,
) -> Result<Option<Denotation>, Stop>
where
    S: Fn(Global, &Env, Place, &mut u32, &Stmts) -> StmtsJudged,
    requires judges { JudgesStmts (S.IsAlwaysCallable inside.now) (S.post inside.now) }
    ensures { Answers (judge_selector (scene_of env.now place)
        (of_value slot.old (denoted_in (headings_in env.now) found)) (view_selector selector.now))
        (denoted_of (headings_in env.now)) slot.new result }
{
    match selector {
        Selector::Field { node, name } => join_field(env, *node, env.text(name.token), found),
        Selector::Index { node, indices } => {
            let part = check_indices(alloc, env, place, slot, found, indices, inside);
            join_array(env, *node, part)
        }
    }
}

#[cycle(values)]
fn check_indices<S>(
    alloc: Global,
    env: &Env,
    place: Place,
    slot: &mut u32,
    found: Option<Denotation>,
    indices: &Exprs,
    inside: &S,
) -> Result<Option<Denotation>, Stop>
where
    S: Fn(Global, &Env, Place, &mut u32, &Stmts) -> StmtsJudged,
    requires judges { JudgesStmts (S.IsAlwaysCallable inside.now) (S.post inside.now) }
    ensures { Answers (judge_indices (scene_of env.now place)
        (of_value slot.old (denoted_in (headings_in env.now) found)) (view_exprs indices.now))
        (denoted_of (headings_in env.now)) slot.new result }
{
    let mut part = check_index(alloc, env, place, slot, found, &indices.first, inside)?;
    for index in &indices.more {
        part = check_index(alloc, env, place, slot, part, index, inside)?;
    }
    Ok(part)
}

#[cycle(values)]
fn check_index<S>(
    alloc: Global,
    env: &Env,
    place: Place,
    slot: &mut u32,
    found: Option<Denotation>,
    index: &Expr,
    inside: &S,
) -> Result<Option<Denotation>, Stop>
where
    S: Fn(Global, &Env, Place, &mut u32, &Stmts) -> StmtsJudged,
    requires judges { JudgesStmts (S.IsAlwaysCallable inside.now) (S.post inside.now) }
    ensures { Answers (nodes.index_at (scene_of env.now place)
        (of_value slot.old (denoted_in (headings_in env.now) found))
        (tree.expr_node (view_expr index.now))
        (judge_expr (scene_of env.now place) slot.old (view_expr index.now)))
        (denoted_of (headings_in env.now)) slot.new result }
{
    let typed = check_expr(alloc, env, place, slot, index, inside);
    join_index(alloc, env, index.node, found, typed)
}
