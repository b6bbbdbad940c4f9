// A list of phrases, one more of which has been judged.
#![tactic(auto, using(crate::proofs::Steps::lists, std::proofs::lemmas::Grind::common_steps))]

ghost use Rattle.std.specs.Prelude.{◌≡◌, ℕ, ◌++◌, List, Option, None, Some, option_map, option_to_list, OnOk, IfOk, IsOk, is_some};
ghost use Rattle.alma_ir.specs.Tree as ir;
ghost use Rattle.alma_ir.specs.View.{arg_of, stmts_list};
ghost use Rattle.alma_rules.specs.Judgement.{Judgement, and_then, with};
ghost use Rattle.alma_rules.specs.Answers.{Answers};
ghost use Rattle.alma_rules.specs.Parts as parts;
ghost use Rattle.alma_rules.specs.Nodes as nodes;
ghost use Rattle.alma_check_rules.specs.Views.{typing_of, operator_view, operands_in, args_in, stmts_of, stmts_in, span_view, spans_in, spans_view};
ghost use Rattle.alma_check_build_expr.specs.Lists.{arms_in, guarded_of, cases_of, cases_in, branches_in};
ghost use Rattle.alma_rules.specs.Onward.{Continues};
ghost use Rattle.alma_check_join_stmt.specs.Onward.{onward_operands, onward_args, onward_stmts, onward_arms, onward_cases, onward_branches, onward_spans};
ghost use Rattle.alma_check_join_stmt.specs.Noted.{GrowsBy, trail_for_entries};

use alma_check_build_expr::with_operand;
use alma_check_build_stmt::{joined, with_part};
use alma_check_rules::{Behind, Labels, Operator, Span, TypedExpr};
use alma_ir::{Arg, Arm, Branch, CaseArm, Stmt};
use alma_rules::Stop;
use std::alloc::AllocError;

/// One more operand of a sum or a product.
pub fn add_operand(
    kept: Option<Vec<Behind>>,
    operator: Operator,
    typed: Result<Option<TypedExpr>, Stop>,
) -> Result<Option<Vec<Behind>>, Stop>
    ensures { (j : Judgement parts.Typing) (m : ℕ) (rest : ℕ → Judgement parts.Operands)
        → Answers j typing_of m typed → Continues (onward_operands (operands_in kept) (with
        (nodes.cons_operand (operator_view operator)) (and_then j rest))) (λ k. onward_operands
        (operands_in k) (rest m)) result }
{
    let typed = typed?;
    let whole = with_operand(kept, operator, typed)?;
    Ok(whole)
}

/// One more argument of a call.
pub fn add_argument(
    kept: Option<Vec<Arg>>,
    arg: Result<Option<Arg>, Stop>,
) -> Result<Option<Vec<Arg>>, Stop>
    ensures { (j : Judgement ir.Arg) (m : ℕ) (rest : ℕ → Judgement ir.Args)
        → Answers j arg_of m arg → Continues (onward_args (args_in kept) (with nodes.cons_arg
        (and_then j rest))) (λ k. onward_args (args_in k) (rest m)) result }
{
    let arg = arg?;
    let whole = with_part(kept, arg)?;
    Ok(whole)
}

/// More statements.
pub fn add_stmts(
    kept: Option<Vec<Stmt>>,
    more: Result<Option<Vec<Stmt>>, Stop>,
) -> Result<Option<Vec<Stmt>>, Stop>
    ensures { (j : Judgement ir.Stmts) (m : ℕ) (rest : ℕ → Judgement ir.Stmts)
        → Answers j stmts_of m more → Continues (onward_stmts (stmts_in kept) (with
        parts.joined_stmts (and_then j rest))) (λ k. onward_stmts (stmts_in k) (rest m)) result }
{
    let more = more?;
    let whole = joined(kept, more)?;
    Ok(whole)
}

/// One more arm of IF.
pub fn add_guarded(
    kept: Option<Vec<Arm>>,
    arm: Result<Option<Arm>, Stop>,
) -> Result<Option<Vec<Arm>>, Stop>
    ensures { (j : Judgement (ir.Test × ir.Stmts)) (m : ℕ) (rest : ℕ → Judgement ir.Arms)
        → Answers j guarded_of m arm → Continues (onward_arms (arms_in kept) (with (λ p.
        ir.more_arms p.0.0 p.0.1 p.1) (and_then j rest))) (λ k. onward_arms (arms_in k) (rest m))
        result }
{
    let arm = arm?;
    let whole = with_part(kept, arm)?;
    Ok(whole)
}

/// More arms of CASE.
pub fn add_cases(
    kept: Option<Vec<CaseArm>>,
    more: Result<Option<Vec<CaseArm>>, Stop>,
) -> Result<Option<Vec<CaseArm>>, Stop>
    ensures judged { (j : Judgement ir.CaseArms) (m : ℕ) (rest : ℕ → Judgement ir.CaseArms)
        → Answers j cases_of m more → Continues (onward_cases (cases_in kept) (with
        nodes.joined_cases (and_then j rest))) (λ k. onward_cases (cases_in k) (rest m)) result }
    ensures all_judged { OnOk result (IsOk more) }
{
    let more = more?;
    let whole = joined(kept, more)?;
    Ok(whole)
}

/// One more branch of EITHER.
pub fn add_branch(
    kept: Option<Vec<Branch>>,
    body: Result<Option<Vec<Stmt>>, Stop>,
) -> Result<Option<Vec<Branch>>, Stop>
    ensures { (j : Judgement ir.Stmts) (m : ℕ) (rest : ℕ → Judgement ir.Branches)
        → Answers j stmts_of m body → Continues (onward_branches (branches_in kept) (with (λ p.
        ir.more_branches p.0 p.1) (and_then j rest))) (λ k. onward_branches (branches_in k) (rest
        m)) result }
{
    let body = body?;
    let whole = with_part(kept, branch(body))?;
    Ok(whole)
}

/// One more label of an arm of CASE, which the labels behind it must not share a value with.
pub fn add_label(
    kept: Option<Vec<Span>>,
    earlier: &mut Labels,
    span: Result<Option<Span>, Stop>,
) -> Result<Option<Vec<Span>>, Stop>
    ensures judged { (j : Judgement parts.Span) (m : ℕ) (rest : ℕ → Judgement (List parts.Span))
        → Answers j span_view m span → Continues (onward_spans (spans_in kept) (with nodes.cons_span
        (and_then j rest))) (λ k. onward_spans (spans_in k) (rest m)) result }
    ensures earlier { (j : Judgement parts.Span) (m : ℕ) → Answers j span_view m span
        → OnOk result (spans_view earlier.new ≡ spans_view earlier.old ++ option_to_list
        j.value) }
    ensures grown { (old : List parts.Span) → GrowsBy old (spans_in kept) (spans_view earlier.old)
        → IfOk result (λ k. GrowsBy old (spans_in k) (spans_view earlier.new)) }
{
    let span = span?;
    note(earlier, span)?;
    let whole = with_part(kept, span)?;
    Ok(whole)
}

fn branch(body: Option<Vec<Stmt>>) -> Option<Branch>
    ensures { option_map (λ b. stmts_list b.body.items) result ≡ stmts_in body }
{
    match body {
        None => None,
        Some(body) => Some(Branch { body }),
    }
}

#[tactic(auto, using(crate::proofs::Steps::spans_push, std::proofs::lemmas::Grind::common_steps))]
fn note(earlier: &mut Labels, span: Option<Span>) -> Result<(), AllocError>
    ensures { OnOk result (spans_view earlier.new ≡ spans_view earlier.old ++
        option_to_list (option_map span_view span)) }
{
    match span {
        None => Ok(()),
        Some(span) => {
            earlier.note(span)?;
            Ok(())
        }
    }
}

/// The labels of an arm stay noted where none of them is Bad.
#[tactic(auto, using(crate::proofs::Settled::settling, std::proofs::lemmas::Grind::common_steps))]
pub fn settle(spans: &mut Labels, before: usize, labels: &Option<Vec<Span>>)
    ensures { spans_view spans.new ≡ trail_for_entries before (is_some labels.now) (spans_view
        spans.old) }
{
    if labels.is_none() {
        spans.forget(before);
    } else {
        spans.settle();
    }
}
