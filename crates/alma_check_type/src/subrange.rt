// Subranges.
ghost use Rattle.std.specs.Prelude.{◌≡◌, Some, IfOk};
ghost use Rattle.alma_check_rules.specs.Views.{scene_of, somewhere};
ghost use Rattle.alma_check_type.specs.Told.{tells, tells_of, a_told, fault_of, formed_of, told_both, told_sub, sub_of, pair_rules, first_rule};

use crate::reader::Reader;
use crate::reading::{Bound, BrokenRule, Reading, ShapeOrLimit, earlier};
use crate::shape::add_sub;
use alma_base::{CheckFault, NoMemory, Range};
use alma_check_rules::{Env, is_above};
use std::alloc::Global;

// The first rule that two bounds break.
fn bounds_fault(env: &Env, low: Bound, high: Bound) -> Option<CheckFault>
    ensures { result ≡ first_rule (pair_rules (scene_of env.now somewhere) (low, high)) }
{
    if env.base(low.shape) != env.base(high.shape) {
        return Some(CheckFault::TypeMismatch);
    }
    if is_above(low.constant, high.constant) {
        return Some(CheckFault::ConstRange);
    }
    None
}

// The subrange from one bound to the other, which break no rule.
fn form_subrange(
    alloc: Global,
    reader: &mut Reader,
    low: Bound,
    high: Bound,
) -> Result<ShapeOrLimit, NoMemory>
    ensures { IfOk result (λ f. (reader.new, formed_of f) ≡ sub_of reader.old (low, high)) }
{
    let base = reader.env().base(low.shape);
    match low.constant {
        None => Ok(ShapeOrLimit::TooLarge),
        Some(low) => match high.constant {
            None => Ok(ShapeOrLimit::TooLarge),
            Some(high) => add_sub(alloc, reader, base, Range { low, high }),
        },
    }
}

// The subrange from one bound to the other, behind a broken rule.
fn read_between(
    alloc: Global,
    reader: &mut Reader,
    node: u32,
    fault: Option<BrokenRule>,
    low: Bound,
    high: Bound,
) -> Result<Reading<ShapeOrLimit>, NoMemory>
    ensures { IfOk result (λ r. told_sub node (a_told (fault_of fault) reader.old
        (Some (low, high))) ≡ tells_of formed_of r reader.new) }
{
    match bounds_fault(reader.env(), low, high) {
        Some(rule) => {
            let broken = BrokenRule { node, fault: rule };
            Ok(Reading {
                fault: earlier(fault, Some(broken)),
                value: None,
            })
        }
        None => Ok(Reading {
            fault,
            value: Some(form_subrange(alloc, reader, low, high)?),
        }),
    }
}

/// A subrange of its bounds.
pub fn join_subrange(
    alloc: Global,
    reader: &mut Reader,
    node: u32,
    low: Reading<Bound>,
    high: Reading<Bound>,
) -> Result<Reading<ShapeOrLimit>, NoMemory>
    ensures { IfOk result (λ r. told_sub node (told_both (tells low reader.old)
        (tells high reader.old)) ≡ tells_of formed_of r reader.new) }
{
    let fault = earlier(low.fault, high.fault);
    match low.value {
        None => Ok(Reading { fault, value: None }),
        Some(low) => match high.value {
            None => Ok(Reading { fault, value: None }),
            Some(high) => read_between(alloc, reader, node, fault, low, high),
        },
    }
}
