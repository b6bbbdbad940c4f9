// CASE. A part is None where a name in use there is Bad, and then so is the whole.
ghost use Rattle.std.specs.Prelude.{◌≡◌, option_map, IfOk};
ghost use Rattle.alma_ir.specs.Tree as ir;
ghost use Rattle.alma_rules.specs.Judgement.{both_of};
ghost use Rattle.alma_rules.specs.Parts as parts;
ghost use Rattle.alma_rules.specs.Nodes as nodes;
ghost use Rattle.alma_check_rules.specs.Views.{typing_in, spans_in, spans_view, stmts_in};
ghost use Rattle.alma_check_build_expr.specs.Lists.{cases_in, else_in};

use crate::statement::single;
use alma_base::Range;
use alma_check_build_expr::as_value;
use alma_check_rules::{Span, TypedExpr};
use alma_ir::{CaseArm, Stmt};
use std::alloc::{AllocError, Global};

fn ranges(alloc: Global, labels: &[Span]) -> Result<Vec<Range>, AllocError>
    ensures { IfOk result (λ v. v.items ≡ parts.ranges_of (spans_view labels.now)) }
{
    let mut ranges: Vec<Range> = Vec::new(alloc);
    for label in labels {
        ranges.push(label.range)?;
    }
    Ok(ranges)
}

/// An arm of CASE.
pub fn case_arm(
    alloc: Global,
    labels: Option<Vec<Span>>,
    body: Option<Vec<Stmt>>,
) -> Result<Option<Vec<CaseArm>>, AllocError>
    ensures { IfOk result (λ v. cases_in v ≡ option_map nodes.arm_of
        (both_of (spans_in labels) (stmts_in body))) }
{
    match labels {
        None => Ok(None),
        Some(labels) => match body {
            None => Ok(None),
            Some(body) => {
                let labels = ranges(alloc, &labels)?;
                let mut arms: Vec<CaseArm> = Vec::new(alloc);
                arms.push(CaseArm { labels, body })?;
                Ok(Some(arms))
            }
        },
    }
}

/// CASE, with all its arms and the ELSE part.
pub fn case_stmt(
    alloc: Global,
    typed: Option<TypedExpr>,
    arms: Option<Vec<CaseArm>>,
    other: Option<Option<Vec<Stmt>>>,
) -> Result<Option<Vec<Stmt>>, AllocError>
    ensures { IfOk result (λ v. stmts_in v ≡ option_map parts.one_stmt
        (option_map (λ p. ir.Case (parts.value_of p.0.meaning) p.1.0 p.1.1)
        (both_of (typing_in typed) (both_of (cases_in arms) (else_in other))))) }
{
    match typed {
        None => Ok(None),
        Some(typed) => match arms {
            None => Ok(None),
            Some(arms) => match other {
                None => Ok(None),
                Some(other) => {
                    let value = as_value(alloc, typed.meaning)?;
                    Ok(Some(single(alloc, Stmt::Case(value, arms, other))?))
                }
            },
        },
    }
}
