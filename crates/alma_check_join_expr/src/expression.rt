// A node whose last part has been judged: its rules, and what it stands for.
#![tactic(auto, using(alma_rules::proofs::Judging::judging, std::proofs::lemmas::Grind::common_steps))]

ghost use Rattle.std.specs.Prelude.{◌≡◌, ℕ, Option, None, Some, option_map};
ghost use Rattle.alma_ir.specs.Tree as ir;
ghost use Rattle.alma_ir.specs.View.{arg_of};
ghost use Rattle.alma_rules.specs.Judgement.{Judgement, fine, of_value, both, with, with_some, at_node};
ghost use Rattle.alma_rules.specs.Scene.{literal_at, number_at};
ghost use Rattle.alma_rules.specs.Answers.{Answers};
ghost use Rattle.alma_rules.specs.Parts as parts;
ghost use Rattle.alma_rules.specs.ExprRules as rules;
ghost use Rattle.alma_rules.specs.Nodes as nodes;
ghost use Rattle.alma_check_rules.specs.Views.{scene_of, typing_in, typing_of, denoted_in, denoted_of, headings_in, found_view, use_view, operand_view, callee_in, callee_of, argument_view, formal_view, args_of, stmts_of, somewhere};

use alma_check_build_expr::{
    argument, as_callee, as_located, as_typed, call, character, chr, integer, known, negate, ord,
    relate, select_field, select_index, sequence, without_place,
};
use alma_check_rules::{
    Argument, Callee, Denotation, Env, Formal, Found, Operand, Place, TypedExpr, Use,
    pass_argument, pass_array, pass_call, pass_chr, pass_constant, pass_desig, pass_field,
    pass_index, pass_known, pass_literal, pass_name, pass_not, pass_operand, pass_relation,
    pass_simple, pass_test,
};
use alma_ir::{Arg, Stmt};
use alma_rules::Stop;
use alma_tree::Relation;
use std::alloc::Global;

/// A relation, behind its right side.
pub fn join_relation(
    alloc: Global,
    env: &Env,
    place: Place,
    node: u32,
    relation: Relation,
    left: Option<TypedExpr>,
    right: Result<Option<TypedExpr>, Stop>,
) -> Result<Option<TypedExpr>, Stop>
    ensures { (j : Judgement parts.Typing) (n m : ℕ) → Answers j typing_of m right
        → Answers (nodes.relation_at (scene_of env.now place) node relation (both (of_value n
        (typing_in left)) j)) typing_of m result }
{
    let right = right?;
    pass_relation(env, place, node, relation, &left, &right)?;
    let whole = relate(alloc, env, relation, left, right)?;
    Ok(whole)
}

/// A factor without NOT.
pub fn join_factor(
    env: &Env,
    node: u32,
    operand: Operand,
    typed: Result<Option<TypedExpr>, Stop>,
) -> Result<Option<TypedExpr>, Stop>
    ensures { (j : Judgement parts.Typing) (m : ℕ) → Answers j typing_of m typed
        → Answers (at_node node (rules.operand_rules (scene_of env.now somewhere) (operand_view
        operand)) j) typing_of m result }
{
    let typed = typed?;
    pass_operand(env, node, operand, &typed)?;
    Ok(typed)
}

/// A factor with NOT, behind the primary of the number `inner`.
pub fn join_not(
    alloc: Global,
    env: &Env,
    place: Place,
    node: u32,
    inner: u32,
    operand: Operand,
    typed: Result<Option<TypedExpr>, Stop>,
) -> Result<Option<TypedExpr>, Stop>
    ensures { (j : Judgement parts.Typing) (m : ℕ) → Answers j typing_of m typed
        → Answers (at_node node (rules.not_rules (scene_of env.now place) (operand_view operand))
        (with nodes.not_typing (at_node inner (rules.test_rules (scene_of env.now somewhere)) j)))
        typing_of m result }
{
    let typed = typed?;
    pass_test(env, inner, &typed)?;
    let whole = negate(alloc, typed)?;
    pass_not(env, place, node, operand, &whole)?;
    Ok(whole)
}

/// ORD, behind its operand.
pub fn join_ord(
    alloc: Global,
    env: &Env,
    node: u32,
    operand: Result<Option<TypedExpr>, Stop>,
) -> Result<Option<TypedExpr>, Stop>
    ensures { (j : Judgement parts.Typing) (m : ℕ) → Answers j typing_of m operand
        → Answers (with nodes.ord_typing (at_node node (rules.simple_rules (scene_of env.now
        somewhere)) j)) typing_of m result }
{
    let typed = operand?;
    pass_simple(env, node, &typed)?;
    let whole = ord(alloc, typed)?;
    Ok(whole)
}

/// CHR, behind its operand.
pub fn join_chr(
    alloc: Global,
    env: &Env,
    place: Place,
    node: u32,
    operand: Result<Option<TypedExpr>, Stop>,
) -> Result<Option<TypedExpr>, Stop>
    ensures { (j : Judgement parts.Typing) (m : ℕ) → Answers j typing_of m operand
        → Answers (with nodes.chr_typing (at_node node (rules.chr_rules (scene_of env.now place))
        j)) typing_of m result }
{
    let typed = operand?;
    pass_chr(env, place, node, &typed)?;
    let whole = chr(alloc, typed)?;
    Ok(whole)
}

/// KNOWN, behind its designator.
pub fn join_known(
    env: &Env,
    place: Place,
    node: u32,
    desig: Result<Option<Denotation>, Stop>,
) -> Result<Option<TypedExpr>, Stop>
    ensures { (j : Judgement parts.Denotation) (m : ℕ)
        → Answers j (denoted_of (headings_in env.now)) m desig
        → Answers (with nodes.known_typing
        (at_node node (rules.known_rules (scene_of env.now place))
        (with_some parts.located_in j))) typing_of m result }
{
    let found = desig?;
    let located = as_located(env, found);
    pass_known(env, place, node, &located)?;
    Ok(known(located))
}

/// A designator as an expression.
pub fn join_value(
    alloc: Global,
    env: &Env,
    desig: Result<Option<Denotation>, Stop>,
) -> Result<Option<TypedExpr>, Stop>
    ensures { (j : Judgement parts.Denotation) (m : ℕ)
        → Answers j (denoted_of (headings_in env.now)) m desig
        → Answers (with_some parts.typing_in j) typing_of m result }
{
    let found = desig?;
    Ok(as_typed(alloc, env, found))
}

/// A field of a designator.
pub fn join_field(
    env: &Env,
    node: u32,
    name: &[u8],
    found: Option<Denotation>,
) -> Result<Option<Denotation>, Stop>
    ensures { (n : ℕ) → Answers (with_some (parts.select_field (scene_of env.now somewhere)
        name.now) (at_node node (rules.field_rules (scene_of env.now somewhere) name.now) (of_value
        n (denoted_in (headings_in env.now) found)))) (denoted_of (headings_in env.now)) n result }
{
    pass_field(env, node, name, &found)?;
    let part = select_field(env, name, found)?;
    Ok(part)
}

/// One index of a designator, whose expression has the number `node`.
pub fn join_index(
    alloc: Global,
    env: &Env,
    node: u32,
    found: Option<Denotation>,
    index: Result<Option<TypedExpr>, Stop>,
) -> Result<Option<Denotation>, Stop>
    ensures { (j : Judgement parts.Typing) (n m : ℕ) → Answers j typing_of m index
        → Answers (nodes.index_at (scene_of env.now somewhere) (of_value n (denoted_in (headings_in
        env.now) found)) node j) (denoted_of (headings_in env.now)) m result }
{
    let typed = index?;
    pass_index(env, node, &found, &typed)?;
    let part = select_index(alloc, env, found, typed)?;
    Ok(part)
}

/// A designator behind all indices of a selector.
pub fn join_array(
    env: &Env,
    node: u32,
    part: Result<Option<Denotation>, Stop>,
) -> Result<Option<Denotation>, Stop>
    ensures { (j : Judgement parts.Denotation) (m : ℕ)
        → Answers j (denoted_of (headings_in env.now)) m part
        → Answers (at_node node rules.array_rules j) (denoted_of (headings_in env.now)) m result }
{
    let part = part?;
    pass_array(env, node, &part)?;
    Ok(part)
}

/// A designator behind all its selectors.
pub fn join_desig(
    env: &Env,
    place: Place,
    node: u32,
    wanted: Use,
    selected: bool,
    found: Found,
    part: Result<Option<Denotation>, Stop>,
) -> Result<Option<Denotation>, Stop>
    ensures { (j : Judgement parts.Denotation) (m : ℕ)
        → Answers j (denoted_of (headings_in env.now)) m part
        → Answers (at_node node
        (rules.desig_rules (scene_of env.now place) (use_view wanted) selected
        (found_view (headings_in env.now) found)) j) (denoted_of (headings_in env.now)) m result }
{
    let part = part?;
    pass_desig(env, place, node, wanted, selected, found)?;
    Ok(part)
}

// ---- names, numbers and literals

/// A name in use of the number `node`, and what it denotes.
pub fn check_found(
    alloc: Global,
    env: &Env,
    node: u32,
    found: Found,
) -> Result<Option<Denotation>, Stop>
    ensures { (n : ℕ) → Answers (at_node node (rules.name_rules (found_view (headings_in env.now)
        found)) (of_value n (parts.denotation (scene_of env.now somewhere) (found_view (headings_in
        env.now) found)))) (denoted_of (headings_in env.now)) n result }
{
    pass_name(env, node, found)?;
    Ok(env.denoted(alloc, found))
}

/// A number.
pub fn check_number(env: &Env, token: u32) -> Result<Option<TypedExpr>, Stop>
    ensures { (n : ℕ) → Answers (fine n (parts.integer_typing (number_at (scene_of env.now
        somewhere) token))) typing_of n result }
{
    match env.number(token) {
        Some(value) => Ok(Some(integer(value))),
        None => Err(Stop::Memory),
    }
}

fn first_byte(text: &[u8]) -> i64
    ensures { result ≡ nodes.byte_of text.now }
{
    match text.first() {
        Some(byte) => i64::from(*byte),
        None => 0,
    }
}

/// A literal as an expression.
pub fn check_literal(
    env: &Env,
    place: Place,
    node: u32,
    token: u32,
) -> Result<Option<TypedExpr>, Stop>
    ensures { (n : ℕ) → Answers (at_node node (rules.literal_rules (scene_of env.now place)
        (literal_at (scene_of env.now somewhere) token)) (fine n (nodes.literal_typing (scene_of
        env.now somewhere) token))) typing_of n result }
{
    let text = env.literal(token);
    pass_literal(env, place, node, text)?;
    Ok(Some(character(first_byte(text))))
}

// ---- calls and arguments

/// A call, behind its arguments.
pub fn join_call(
    env: &Env,
    place: Place,
    node: u32,
    callee: Option<Callee>,
    count: usize,
    args: Result<Option<Vec<Arg>>, Stop>,
) -> Result<Option<TypedExpr>, Stop>
    ensures { (j : Judgement ir.Args) (n m : ℕ) → Answers j args_of m args
        → Answers (nodes.called_at (scene_of env.now place) node (of_value n (callee_in (headings_in
        env.now) callee)) count j) typing_of m result }
{
    let args = args?;
    pass_call(env, place, node, callee, count)?;
    Ok(call(env, callee, args))
}

/// The routine that a designator names.
pub fn join_callee(
    env: &Env,
    desig: Result<Option<Denotation>, Stop>,
) -> Result<Option<Callee>, Stop>
    ensures { (j : Judgement parts.Denotation) (m : ℕ)
        → Answers j (denoted_of (headings_in env.now)) m desig
        → Answers (with_some parts.callee_in j) (callee_of (headings_in env.now)) m result }
{
    let found = desig?;
    Ok(as_callee(env, found))
}

/// An argument with its formal, where there is one.
pub fn join_argument(
    alloc: Global,
    env: &Env,
    node: u32,
    formal: Option<Formal>,
    kind: Argument,
    typed: Result<Option<TypedExpr>, Stop>,
) -> Result<Option<Arg>, Stop>
    ensures { (j : Judgement parts.Typing) (m : ℕ) → Answers j typing_of m typed
        → Answers (with (parts.argument_of (scene_of env.now somewhere) (option_map formal_view
        formal)) (at_node node (rules.argument_rules (scene_of env.now somewhere) (option_map
        formal_view formal) (argument_view kind)) j)) arg_of m result }
{
    let typed = typed?;
    pass_argument(env, node, formal, kind, &typed)?;
    let whole = argument(alloc, env, formal, typed)?;
    Ok(whole)
}

// ---- parentheses

/// A single expression in parentheses.
pub fn join_parens(
    env: &Env,
    node: u32,
    typed: Result<Option<TypedExpr>, Stop>,
) -> Result<Option<TypedExpr>, Stop>
    ensures { (j : Judgement parts.Typing) (m : ℕ) → Answers j typing_of m typed
        → Answers (nodes.in_parens (scene_of env.now somewhere) node j) typing_of m result }
{
    let typed = typed?;
    pass_simple(env, node, &typed)?;
    Ok(without_place(typed))
}

/// A sequence of statements in parentheses.
pub fn join_sequence(
    env: &Env,
    place: Place,
    node: u32,
    body: Result<Option<Vec<Stmt>>, Stop>,
) -> Result<Option<TypedExpr>, Stop>
    ensures { (j : Judgement ir.Stmts) (m : ℕ) → Answers j stmts_of m body
        → Answers (nodes.as_sequence (scene_of env.now place) node j) typing_of m result }
{
    let body = body?;
    pass_constant(env, place, node)?;
    Ok(sequence(body))
}
