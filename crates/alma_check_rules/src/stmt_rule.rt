// The rules of one node of a statement, in the order of the faults.
ghost use Rattle.std.specs.Prelude.{◌≡◌, ◌&&◌, true, false, Option, None, Some, option_map};
ghost use Rattle.alma_base.specs.Numbers as numbers;
ghost use Rattle.alma_rules.specs.Judgement.{holds, both_of};
ghost use Rattle.alma_rules.specs.Answers.{Passes};
ghost use Rattle.alma_rules.specs.Parts as parts;
ghost use Rattle.alma_rules.specs.StmtRules as rules;
ghost use Rattle.alma_check_rules.specs.Views.{scene_of, found_view, headings_in, typing_in, typing_of, located_in, returns_view, somewhere, span_view, spans_view};

use crate::env::{Env, Found, Place, Returns};
use crate::labels::Labels;
use crate::part::{Location, Span, TypedExpr};
use crate::rule::{no_integer, pass_simple};
use alma_base::{CheckFault, Range};
use alma_names::{BOOLEAN, CHAR, INTEGER};
use alma_rules::Stop;

/// `:=`, behind both sides: TypeMismatch where their base types differ.
pub fn pass_assign(
    env: &Env,
    node: u32,
    located: &Option<Location>,
    typed: &Option<TypedExpr>,
) -> Result<(), Stop>
    ensures { Passes node (rules.assign_rules (scene_of env.now somewhere)
        (both_of (located_in located.now) (typing_in typed.now))) result }
{
    match located {
        None => Ok(()),
        Some(located) => match typed {
            None => Ok(()),
            Some(typed) => {
                if env.base(located.shape) != env.base(typed.shape) {
                    return Err(Stop::Fault(CheckFault::TypeMismatch, node));
                }
                Ok(())
            }
        },
    }
}

// ---- loops

fn no_loop_variable(env: &Env, place: Place, found: Found) -> bool
    ensures { result ≡ rules.no_loop_variable (scene_of env.now place)
        (found_view (headings_in env.now) found) }
{
    match found {
        Found::Absent | Found::Bad | Found::Variable(_, _) => false,
        Found::Constant(_, _) | Found::Named(_) => true,
        Found::Routine(routine, _) => match env.heading(routine) {
            None => place.constant,
            Some(_heading) => true,
        },
    }
}

/// The name of a loop's variable: Undeclared where no declaration of it is visible, NotVariable
/// where it names something else. A routine whose heading is Bad is refused in a constant place
/// alone, and a Bad name nowhere.
pub fn pass_loop_name(env: &Env, place: Place, node: u32, found: Found) -> Result<(), Stop>
    ensures { Passes node (rules.loop_name_rules (scene_of env.now place)
        (found_view (headings_in env.now) found) None) result }
{
    match found {
        Found::Absent => return Err(Stop::Fault(CheckFault::Undeclared, node)),
        Found::Bad | Found::Constant(_, _) | Found::Named(_) => {}
        Found::Variable(_, _) | Found::Routine(_, _) => {}
    }
    if no_loop_variable(env, place, found) {
        return Err(Stop::Fault(CheckFault::NotVariable, node));
    }
    Ok(())
}

// Whether a bound, or the end of a label, has another base than this shape.
fn other_base(env: &Env, shape: u32, typed: &Option<TypedExpr>) -> bool
    ensures { result ≡ holds (rules.other_base (scene_of env.now somewhere) shape)
        (typing_in typed.now) }
{
    match typed {
        None => false,
        Some(typed) => env.base(shape) != env.base(typed.shape),
    }
}

/// FOR and SOME, behind the variable and the bounds: TypeMismatch where the variable is an array or
/// a record, or a bound has another base type.
pub fn pass_loop(
    env: &Env,
    node: u32,
    variable: &Option<Location>,
    low: &Option<TypedExpr>,
    high: &Option<TypedExpr>,
) -> Result<(), Stop>
    ensures { Passes node (rules.loop_rules {A = parts.Typing} (scene_of env.now somewhere)
        (located_in variable.now) (typing_in low.now) (typing_in high.now) None) result }
{
    match variable {
        None => Ok(()),
        Some(variable) => {
            let shape = variable.shape;
            let other = other_base(env, shape, low) || other_base(env, shape, high);
            if env.is_structured(shape) || other {
                return Err(Stop::Fault(CheckFault::TypeMismatch, node));
            }
            Ok(())
        }
    }
}

// Whether the constant is zero.
fn is_zero(constant: Option<i64>) -> bool
    ensures { result ≡ holds numbers.is_zero constant }
{
    match constant {
        None => false,
        Some(value) => value == 0,
    }
}

fn zero_step(env: &Env, typed: &Option<TypedExpr>) -> bool
    ensures { result ≡ holds (rules.zero_step (scene_of env.now somewhere)) (typing_in typed.now) }
{
    match typed {
        None => false,
        Some(typed) => env.has_base(typed.shape, INTEGER) && is_zero(typed.constant),
    }
}

/// The step behind BY: TypeMismatch where its base is not INTEGER, ConstRange where it is zero.
pub fn pass_by(env: &Env, node: u32, typed: &Option<TypedExpr>) -> Result<(), Stop>
    ensures { Passes node (rules.by_rules (scene_of env.now somewhere)
        (typing_in typed.now)) result }
{
    if no_integer(env, typed) {
        return Err(Stop::Fault(CheckFault::TypeMismatch, node));
    }
    if zero_step(env, typed) {
        return Err(Stop::Fault(CheckFault::ConstRange, node));
    }
    Ok(())
}

// ---- CASE

/// CASE, behind its value: TypeMismatch where that is an array or a record.
pub fn pass_case(env: &Env, node: u32, typed: &Option<TypedExpr>) -> Result<(), Stop>
    ensures { Passes node (rules.case_rules {A = parts.Typing} (scene_of env.now somewhere)
        (typing_in typed.now) None) result }
{
    pass_simple(env, node, typed)
}

// Whether a label has another base than the value of its CASE.
fn other_label(
    env: &Env,
    case: &Option<TypedExpr>,
    low: &Option<TypedExpr>,
    high: &Option<TypedExpr>,
) -> bool
    ensures { result ≡ holds (rules.other_label (scene_of env.now somewhere) (typing_in low.now)
        (typing_in high.now)) (typing_in case.now) }
{
    match case {
        None => false,
        Some(case) => {
            let shape = case.shape;
            let other = other_base(env, shape, low) || other_base(env, shape, high);
            !env.is_structured(shape) && other
        }
    }
}

/// Whether both ends of a range are known, and the low one is greater.
pub fn is_above(low: Option<i64>, high: Option<i64>) -> bool
    ensures { result ≡ rules.is_above low high }
{
    match (low, high) {
        (Some(low), Some(high)) => high < low,
        (None, _) | (_, None) => false,
    }
}

/// The values of a label, where both its ends have one.
pub fn span_of(env: &Env, low: &TypedExpr, high: &TypedExpr) -> Option<Span>
    ensures { option_map span_view result ≡ parts.span_of (scene_of env.now somewhere)
        (typing_of low.now, typing_of high.now) }
{
    match low.constant {
        None => None,
        Some(first) => match high.constant {
            None => None,
            Some(last) => Some(Span {
                base: env.base(low.shape),
                range: Range {
                    low: first,
                    high: last,
                },
            }),
        },
    }
}

fn shares_with(earlier: &Labels, span: Option<Span>) -> bool
    ensures { result ≡ rules.shares_with (spans_view earlier.now) (option_map span_view span) }
{
    match span {
        None => false,
        Some(span) => earlier.shares(span),
    }
}

// Whether the two ends are of one base, and the first is above the second.
fn low_above_high(env: &Env, low: &TypedExpr, high: &TypedExpr) -> bool
    ensures { result ≡ rules.low_above_high (scene_of env.now somewhere)
        (typing_of low.now, typing_of high.now) }
{
    env.base(low.shape) == env.base(high.shape) && is_above(low.constant, high.constant)
}

fn label_twice(env: &Env, earlier: &Labels, low: &TypedExpr, high: &TypedExpr) -> bool
    ensures { result ≡ rules.label_twice (scene_of env.now somewhere) (spans_view earlier.now)
        (parts.span_of (scene_of env.now somewhere)) (typing_of low.now, typing_of high.now) }
{
    env.base(low.shape) == env.base(high.shape)
        && !is_above(low.constant, high.constant)
        && shares_with(earlier, span_of(env, low, high))
}

/// A label of CASE with the labels before it: TypeMismatch where an end has another base type than
/// the value of the CASE, which is simple, then ConstRange where the low end is greater, then
/// LabelTwice where it shares a value with one before it. A label of one value is handed over as
/// both ends.
pub fn pass_label(
    env: &Env,
    node: u32,
    case: &Option<TypedExpr>,
    earlier: &Labels,
    low: &Option<TypedExpr>,
    high: &Option<TypedExpr>,
) -> Result<(), Stop>
    ensures { Passes node (rules.label_rules {A = parts.Typing} (scene_of env.now somewhere)
        (typing_in case.now) (spans_view earlier.now) (parts.span_of (scene_of env.now somewhere))
        (typing_in low.now) (typing_in high.now) None) result }
{
    if other_label(env, case, low, high) {
        return Err(Stop::Fault(CheckFault::TypeMismatch, node));
    }
    match low {
        None => Ok(()),
        Some(low) => match high {
            None => Ok(()),
            Some(high) => {
                if low_above_high(env, low, high) {
                    return Err(Stop::Fault(CheckFault::ConstRange, node));
                }
                if label_twice(env, earlier, low, high) {
                    return Err(Stop::Fault(CheckFault::LabelTwice, node));
                }
                Ok(())
            }
        },
    }
}

// ---- RETURN, READ and WRITE

fn other_result(env: &Env, typed: &Option<TypedExpr>) -> bool
    ensures { result ≡ holds (rules.other_result (scene_of env.now somewhere)
        (returns_view env.now.returns)) (typing_in typed.now) }
{
    match env.returns {
        Returns::Nothing => false,
        Returns::Value(None) => false,
        Returns::Value(Some(shape)) => other_base(env, shape, typed),
    }
}

// Whether RETURN has a value where the routine gives none, or the other way round.
fn other_form(with_value: bool, returns: Returns) -> bool
    ensures { result ≡ rules.other_form with_value (returns_view returns) }
{
    match returns {
        Returns::Nothing => with_value,
        Returns::Value(_) => !with_value,
    }
}

/// RETURN with an expression: TypeMismatch where its base type is not that of the result, then
/// ReturnForm outside a function, then JumpOut inside FORALL, COMMIT, NOT or a parenthesised
/// sequence.
pub fn pass_return(
    env: &Env,
    place: Place,
    node: u32,
    typed: &Option<TypedExpr>,
) -> Result<(), Stop>
    ensures { Passes node (rules.return_rules (scene_of env.now place) true (typing_in typed.now))
        result }
{
    if other_result(env, typed) {
        return Err(Stop::Fault(CheckFault::TypeMismatch, node));
    }
    if other_form(true, env.returns) {
        return Err(Stop::Fault(CheckFault::ReturnForm, node));
    }
    if place.inside {
        return Err(Stop::Fault(CheckFault::JumpOut, node));
    }
    Ok(())
}

/// RETURN alone: ReturnForm in a function, then JumpOut as with an expression.
pub fn pass_bare_return(env: &Env, place: Place, node: u32) -> Result<(), Stop>
    ensures { Passes node (rules.return_rules (scene_of env.now place) false None) result }
{
    if other_form(false, env.returns) {
        return Err(Stop::Fault(CheckFault::ReturnForm, node));
    }
    if place.inside {
        return Err(Stop::Fault(CheckFault::JumpOut, node));
    }
    Ok(())
}

/// A designator that READ fills: BadRead where its base is neither INTEGER nor CHAR.
pub fn pass_read(env: &Env, node: u32, located: &Option<Location>) -> Result<(), Stop>
    ensures { Passes node (rules.read_rules (scene_of env.now somewhere) (located_in located.now))
        result }
{
    match located {
        None => Ok(()),
        Some(located) => {
            if !env.has_base(located.shape, INTEGER) && !env.has_base(located.shape, CHAR) {
                return Err(Stop::Fault(CheckFault::BadRead, node));
            }
            Ok(())
        }
    }
}

/// An item of WRITE: BadWrite where its base is neither INTEGER, CHAR nor BOOLEAN. A literal that
/// is no CHAR does not come here.
pub fn pass_write(env: &Env, node: u32, typed: &Option<TypedExpr>) -> Result<(), Stop>
    ensures { Passes node (rules.write_rules (scene_of env.now somewhere) (typing_in typed.now))
        result }
{
    match typed {
        None => Ok(()),
        Some(typed) => {
            let shape = typed.shape;
            if !env.has_base(shape, INTEGER)
                && !env.has_base(shape, CHAR)
                && !env.has_base(shape, BOOLEAN)
            {
                return Err(Stop::Fault(CheckFault::BadWrite, node));
            }
            Ok(())
        }
    }
}
