// The rules of one node, in the order of the faults.
ghost use Rattle.std.specs.Prelude.{◌≡◌, ◌&&◌, Option, None, Some, option_map};
ghost use Rattle.alma_rules.specs.Judgement.{holds, both_of};
ghost use Rattle.alma_rules.specs.Answers.{Passes};
ghost use Rattle.alma_rules.specs.Parts as parts;
ghost use Rattle.alma_rules.specs.ExprRules as rules;
ghost use Rattle.alma_check_rules.specs.Views.{scene_of, found_view, headings_in, denoted_in, typing_in, located_in, operand_view, use_view, argument_view, formal_view, somewhere, callee_in};

use crate::env::{Env, Formal, Found, Place};
use crate::part::{Argument, Callee, Denotation, Location, Operand, TypedExpr, Use};
use alma_base::CheckFault;
use alma_names::{BOOLEAN, INTEGER};
use alma_rules::Stop;
use alma_tree::{Mode, Relation};

// ---- names and designators

/// A name in use: Undeclared where no declaration of it is visible. A Bad name breaks no rule.
pub fn pass_name(env: &Env, node: u32, found: Found) -> Result<(), Stop>
    ensures { Passes node (rules.name_rules {A = parts.Denotation}
        (found_view (headings_in env.now) found) None) result }
{
    match found {
        Found::Absent => Err(Stop::Fault(CheckFault::Undeclared, node)),
        Found::Bad | Found::Constant(_, _) | Found::Named(_) => Ok(()),
        Found::Variable(_, _) | Found::Routine(_, _) => Ok(()),
    }
}

// Whether a designator stands in a constant place, and has selectors or names no constant.
fn no_constant(place: Place, selected: bool, found: Found, env: &Env) -> bool
    ensures { result ≡ rules.no_constant (scene_of env.now place) selected
        (found_view (headings_in env.now) found) }
{
    match found {
        Found::Absent | Found::Bad => false,
        Found::Constant(_, _) => place.constant && selected,
        Found::Named(_) | Found::Variable(_, _) | Found::Routine(_, _) => place.constant,
    }
}

fn is_variable(wanted: Use) -> bool
    ensures { result ≡ rules.is_variable_use (use_view wanted) }
{
    matches!(wanted, Use::Variable)
}

fn is_value(wanted: Use) -> bool
    ensures { result ≡ rules.is_value_use (use_view wanted) }
{
    matches!(wanted, Use::Value)
}

fn is_procedure(wanted: Use) -> bool
    ensures { result ≡ rules.is_procedure_use (use_view wanted) }
{
    matches!(wanted, Use::Procedure)
}

fn not_variable(env: &Env, wanted: Use, selected: bool, found: Found) -> bool
    ensures { result ≡ rules.not_variable (use_view wanted) selected
        (found_view (headings_in env.now) found) }
{
    match found {
        Found::Absent | Found::Bad | Found::Variable(_, _) => false,
        Found::Constant(_, _) => selected || is_variable(wanted),
        Found::Named(_) => selected || is_variable(wanted) || is_value(wanted),
        Found::Routine(routine, _) => match env.heading(routine) {
            None => false,
            Some(heading) => {
                let wants = heading.result.is_some() || !heading.formals.is_empty();
                selected || is_variable(wanted) || (is_value(wanted) && wants)
            }
        },
    }
}

fn not_procedure(env: &Env, wanted: Use, selected: bool, found: Found) -> bool
    ensures { result ≡ rules.not_procedure (use_view wanted) selected
        (found_view (headings_in env.now) found) }
{
    match found {
        Found::Absent | Found::Bad => false,
        Found::Constant(_, _) | Found::Named(_) | Found::Variable(_, _) => is_procedure(wanted),
        Found::Routine(routine, _) => match env.heading(routine) {
            None => false,
            Some(_heading) => is_procedure(wanted) && selected,
        },
    }
}

/// A designator, behind its selectors: NotConst in a constant place where it is not the bare name
/// of a constant, then NotVariable and NotProcedure by its use. `selected`: it has selectors.
pub fn pass_desig(
    env: &Env,
    place: Place,
    node: u32,
    wanted: Use,
    selected: bool,
    found: Found,
) -> Result<(), Stop>
    ensures { Passes node (rules.desig_rules (scene_of env.now place) (use_view wanted) selected
        (found_view (headings_in env.now) found) None) result }
{
    if no_constant(place, selected, found, env) {
        return Err(Stop::Fault(CheckFault::NotConst, node));
    }
    if not_variable(env, wanted, selected, found) {
        return Err(Stop::Fault(CheckFault::NotVariable, node));
    }
    if not_procedure(env, wanted, selected, found) {
        return Err(Stop::Fault(CheckFault::NotProcedure, node));
    }
    Ok(())
}

fn not_record(env: &Env, found: &Option<Denotation>) -> bool
    ensures { result ≡ holds (rules.not_record (scene_of env.now somewhere))
        (denoted_in (headings_in env.now) found.now) }
{
    match found {
        Some(Denotation::Variable(located)) => !env.is_record(located.shape),
        Some(Denotation::Constant(_, _)) | Some(Denotation::Routine(_, _)) => false,
        Some(Denotation::NoArray) | None => false,
    }
}

fn no_field(env: &Env, name: &[u8], found: &Option<Denotation>) -> bool
    ensures { result ≡ holds (rules.no_field (scene_of env.now somewhere) name.now)
        (denoted_in (headings_in env.now) found.now) }
{
    match found {
        Some(Denotation::Variable(located)) => {
            env.is_record(located.shape) && env.field(located.shape, name).is_none()
        }
        Some(Denotation::Constant(_, _)) | Some(Denotation::Routine(_, _)) => false,
        Some(Denotation::NoArray) | None => false,
    }
}

/// A field selector: NotRecord behind a variable of another type, NoField where the record has no
/// such field. Behind what is no variable it breaks no rule of its own.
pub fn pass_field(env: &Env, node: u32, name: &[u8], found: &Option<Denotation>) -> Result<(), Stop>
    ensures { Passes node (rules.field_rules (scene_of env.now somewhere) name.now
        (denoted_in (headings_in env.now) found.now)) result }
{
    if not_record(env, found) {
        return Err(Stop::Fault(CheckFault::NotRecord, node));
    }
    if no_field(env, name, found) {
        return Err(Stop::Fault(CheckFault::NoField, node));
    }
    Ok(())
}

/// An index selector, behind all its indices: NotArray where one of them stood behind a variable
/// that is no array.
pub fn pass_array(env: &Env, node: u32, found: &Option<Denotation>) -> Result<(), Stop>
    ensures { Passes node (rules.array_rules (denoted_in (headings_in env.now) found.now)) result }
{
    match found {
        Some(Denotation::NoArray) => Err(Stop::Fault(CheckFault::NotArray, node)),
        Some(Denotation::Constant(_, _)) | Some(Denotation::Routine(_, _)) => Ok(()),
        Some(Denotation::Variable(_)) | None => Ok(()),
    }
}

// Whether an index has another base than the index type.
fn other_index(env: &Env, found: &Option<Denotation>, typed: &Option<TypedExpr>) -> bool
    ensures { result ≡ holds (rules.other_index_of (scene_of env.now somewhere)
        (denoted_in (headings_in env.now) found.now)) (typing_in typed.now) }
{
    match typed {
        None => false,
        Some(typed) => match found {
            Some(Denotation::Variable(located)) => match env.row(located.shape) {
                None => false,
                Some((index, _)) => env.base(index) != env.base(typed.shape),
            },
            Some(Denotation::Constant(_, _)) | Some(Denotation::Routine(_, _)) => false,
            Some(Denotation::NoArray) | None => false,
        },
    }
}

/// One index: TypeMismatch where its base type is not that of the array's index type. Behind what
/// is no array it breaks no rule: that is left to `pass_array`.
pub fn pass_index(
    env: &Env,
    node: u32,
    found: &Option<Denotation>,
    typed: &Option<TypedExpr>,
) -> Result<(), Stop>
    ensures { Passes node (rules.index_rules (scene_of env.now somewhere)
        (denoted_in (headings_in env.now) found.now) (typing_in typed.now)) result }
{
    if other_index(env, found, typed) {
        return Err(Stop::Fault(CheckFault::TypeMismatch, node));
    }
    Ok(())
}

// ---- types of expressions

fn not_test(env: &Env, typed: &Option<TypedExpr>) -> bool
    ensures { result ≡ holds (rules.not_test (scene_of env.now somewhere)) (typing_in typed.now) }
{
    match typed {
        None => false,
        Some(typed) => !env.has_base(typed.shape, BOOLEAN),
    }
}

/// Whether a value that is known to have a type is no integer.
pub fn no_integer(env: &Env, typed: &Option<TypedExpr>) -> bool
    ensures { result ≡ holds (rules.no_integer (scene_of env.now somewhere)) (typing_in typed.now) }
{
    match typed {
        None => false,
        Some(typed) => !env.has_base(typed.shape, INTEGER),
    }
}

// Whether a value that is known to have a type is an array or a record.
fn structured(env: &Env, typed: &Option<TypedExpr>) -> bool
    ensures { result ≡ holds (rules.structured (scene_of env.now somewhere)) (typing_in typed.now) }
{
    match typed {
        None => false,
        Some(typed) => env.is_structured(typed.shape),
    }
}

fn logical_operand(operand: Operand) -> bool
    ensures { result ≡ rules.logical_operand (operand_view operand).operator }
{
    match operand.operator {
        None => false,
        Some(operator) => operator.is_logical(),
    }
}

fn arithmetic_operand(operand: Operand) -> bool
    ensures { result ≡ rules.arithmetic_operand (operand_view operand).operator }
{
    match operand.operator {
        None => false,
        Some(operator) => !operator.is_logical(),
    }
}

fn no_operand(env: &Env, operand: Operand, typed: &Option<TypedExpr>) -> bool
    ensures { result ≡ holds (rules.no_operand (scene_of env.now somewhere) (operand_view operand))
        (typing_in typed.now) }
{
    match typed {
        None => false,
        Some(typed) => {
            let numbers = arithmetic_operand(operand) || operand.signed;
            (numbers && !env.has_base(typed.shape, INTEGER))
                || (operand.operator.is_some() && env.is_structured(typed.shape))
        }
    }
}

fn other_sort(operand: Operand) -> bool
    ensures { result ≡ rules.other_sort (operand_view operand) }
{
    (operand.sort && arithmetic_operand(operand)) || (!operand.sort && logical_operand(operand))
}

/// An operand: NotTest under AND or OR where it is not BOOLEAN; TypeMismatch under another operator
/// or a sign where its base is not INTEGER, and where the first operator is of another sort.
pub fn pass_operand(
    env: &Env,
    node: u32,
    operand: Operand,
    typed: &Option<TypedExpr>,
) -> Result<(), Stop>
    ensures { Passes node (rules.operand_rules (scene_of env.now somewhere) (operand_view operand)
        (typing_in typed.now)) result }
{
    if logical_operand(operand) && not_test(env, typed) {
        return Err(Stop::Fault(CheckFault::NotTest, node));
    }
    if other_sort(operand) || no_operand(env, operand, typed) {
        return Err(Stop::Fault(CheckFault::TypeMismatch, node));
    }
    Ok(())
}

/// NotConst in a constant place, for what is never constant: a sequence of statements in
/// parentheses, and a text that WRITE puts out.
pub fn pass_constant(env: &Env, place: Place, node: u32) -> Result<(), Stop>
    ensures { Passes node (rules.constant_rules (scene_of env.now place)) result }
{
    if place.constant {
        return Err(Stop::Fault(CheckFault::NotConst, node));
    }
    Ok(())
}

/// A factor with NOT: NotConst in a constant place, then the rules of an operand on the whole
/// factor. What stands behind NOT goes through `pass_test` first.
pub fn pass_not(
    env: &Env,
    place: Place,
    node: u32,
    operand: Operand,
    typed: &Option<TypedExpr>,
) -> Result<(), Stop>
    ensures { Passes node (rules.not_rules (scene_of env.now place) (operand_view operand)
        (typing_in typed.now)) result }
{
    if place.constant {
        return Err(Stop::Fault(CheckFault::NotConst, node));
    }
    pass_operand(env, node, operand, typed)
}

/// NotTest where an expression as a statement, as a condition or behind NOT is not BOOLEAN.
pub fn pass_test(env: &Env, node: u32, typed: &Option<TypedExpr>) -> Result<(), Stop>
    ensures { Passes node (rules.test_rules (scene_of env.now somewhere) (typing_in typed.now))
        result }
{
    if not_test(env, typed) {
        return Err(Stop::Fault(CheckFault::NotTest, node));
    }
    Ok(())
}

/// TypeMismatch where the operand of ORD, or a single expression in parentheses, is an array or a
/// record.
pub fn pass_simple(env: &Env, node: u32, typed: &Option<TypedExpr>) -> Result<(), Stop>
    ensures { Passes node (rules.simple_rules (scene_of env.now somewhere) (typing_in typed.now))
        result }
{
    if structured(env, typed) {
        return Err(Stop::Fault(CheckFault::TypeMismatch, node));
    }
    Ok(())
}

// ---- primaries

/// A literal, by the text between its quotes: where that is not one byte, NotConst in a constant
/// place and TypeMismatch in any other.
pub fn pass_literal(env: &Env, place: Place, node: u32, text: &[u8]) -> Result<(), Stop>
    ensures { Passes node (rules.literal_rules (scene_of env.now place) text.now None) result }
{
    if text.len() != 1 {
        if place.constant {
            return Err(Stop::Fault(CheckFault::NotConst, node));
        }
        return Err(Stop::Fault(CheckFault::TypeMismatch, node));
    }
    Ok(())
}

fn other_count(env: &Env, count: usize, callee: Option<Callee>) -> bool
    ensures { result ≡ holds (rules.other_count count) (callee_in (headings_in env.now) callee) }
{
    match callee {
        None => false,
        Some(callee) => match env.heading(callee.number) {
            None => count != 0,
            Some(heading) => count != heading.formals.len(),
        },
    }
}

/// A call: NotConst in a constant place, then ArgCount where the count of arguments is not that of
/// the formals. A callee that is Bad (None) may have any count.
pub fn pass_call(
    env: &Env,
    place: Place,
    node: u32,
    callee: Option<Callee>,
    count: usize,
) -> Result<(), Stop>
    ensures { Passes node (rules.call_rules (scene_of env.now place)
        (callee_in (headings_in env.now) callee) count None) result }
{
    if place.constant {
        return Err(Stop::Fault(CheckFault::NotConst, node));
    }
    if other_count(env, count, callee) {
        return Err(Stop::Fault(CheckFault::ArgCount, node));
    }
    Ok(())
}

fn structured_place(env: &Env, located: &Option<Location>) -> bool
    ensures { result ≡ holds (rules.structured_place (scene_of env.now somewhere))
        (located_in located.now) }
{
    match located {
        None => false,
        Some(located) => env.is_structured(located.shape),
    }
}

/// KNOWN: NotConst in a constant place, then TypeMismatch where its variable is an array or a
/// record.
pub fn pass_known(
    env: &Env,
    place: Place,
    node: u32,
    located: &Option<Location>,
) -> Result<(), Stop>
    ensures { Passes node (rules.known_rules (scene_of env.now place) (located_in located.now))
        result }
{
    if place.constant {
        return Err(Stop::Fault(CheckFault::NotConst, node));
    }
    if structured_place(env, located) {
        return Err(Stop::Fault(CheckFault::TypeMismatch, node));
    }
    Ok(())
}

// Whether there is a constant value, and it is the number of a CHAR.
fn is_char(constant: Option<i64>) -> bool
    ensures { result ≡ holds rules.is_char constant }
{
    match constant {
        None => false,
        Some(value) => 0 <= value && value <= 255,
    }
}

fn no_char(env: &Env, place: Place, typed: &Option<TypedExpr>) -> bool
    ensures { result ≡ holds (rules.no_char (scene_of env.now place)) (typing_in typed.now) }
{
    match typed {
        None => false,
        Some(typed) => place.constant
            && env.has_base(typed.shape, INTEGER)
            && !is_char(typed.constant),
    }
}

/// CHR: TypeMismatch where the base of its operand is not INTEGER, then ConstRange in a constant
/// place where the value is not in 0 to 255.
pub fn pass_chr(env: &Env, place: Place, node: u32, typed: &Option<TypedExpr>) -> Result<(), Stop>
    ensures { Passes node (rules.chr_rules (scene_of env.now place) (typing_in typed.now)) result }
{
    if no_integer(env, typed) {
        return Err(Stop::Fault(CheckFault::TypeMismatch, node));
    }
    if no_char(env, place, typed) {
        return Err(Stop::Fault(CheckFault::ConstRange, node));
    }
    Ok(())
}

// ---- relations

fn is_equation(relation: Relation) -> bool
    ensures { result ≡ rules.is_equation relation }
{
    matches!(relation, Relation::Equal)
}

/// A relation: NotConst in a constant place, then TypeMismatch where the sides differ in base type,
/// or where arrays or records stand in another relation than `=`.
pub fn pass_relation(
    env: &Env,
    place: Place,
    node: u32,
    relation: Relation,
    left: &Option<TypedExpr>,
    right: &Option<TypedExpr>,
) -> Result<(), Stop>
    ensures { Passes node (rules.relation_rules (scene_of env.now place) relation
        (both_of (typing_in left.now) (typing_in right.now))) result }
{
    if place.constant {
        return Err(Stop::Fault(CheckFault::NotConst, node));
    }
    match left {
        None => Ok(()),
        Some(left) => match right {
            None => Ok(()),
            Some(right) => {
                let compatible = env.base(left.shape) == env.base(right.shape);
                if !compatible || (env.is_structured(left.shape) && !is_equation(relation)) {
                    return Err(Stop::Fault(CheckFault::TypeMismatch, node));
                }
                Ok(())
            }
        },
    }
}

// ---- arguments

fn not_fitting(env: &Env, formal: Formal, typed: &Option<TypedExpr>) -> bool
    ensures { result ≡ holds (rules.not_fitting (scene_of env.now somewhere) (formal_view formal))
        (typing_in typed.now) }
{
    match typed {
        None => false,
        Some(typed) => env.base(typed.shape) != env.base(formal.shape),
    }
}

fn is_var(mode: Option<Mode>) -> bool
    ensures { result ≡ rules.is_var mode }
{
    match mode {
        Some(Mode::Var) => true,
        Some(Mode::Mix) | None => false,
    }
}

fn other_type(formal: Formal, typed: &Option<TypedExpr>) -> bool
    ensures { result ≡ holds (rules.other_type (formal_view formal)) (typing_in typed.now) }
{
    match typed {
        None => false,
        Some(typed) => typed.shape != formal.shape,
    }
}

/// An argument: to VAR, NotDesignator where it is no variable; to VAR or MIX, ModeType for a
/// variable of another type; TypeMismatch for a value of another base type.
pub fn pass_argument(
    env: &Env,
    node: u32,
    formal: Option<Formal>,
    kind: Argument,
    typed: &Option<TypedExpr>,
) -> Result<(), Stop>
    ensures { Passes node (rules.argument_rules (scene_of env.now somewhere)
        (option_map formal_view formal) (argument_view kind) (typing_in typed.now)) result }
{
    match formal {
        None => Ok(()),
        Some(formal) => match kind {
            Argument::OfBad => Ok(()),
            Argument::OfVariable => {
                if formal.mode.is_none() && not_fitting(env, formal, typed) {
                    return Err(Stop::Fault(CheckFault::TypeMismatch, node));
                }
                if formal.mode.is_some() && other_type(formal, typed) {
                    return Err(Stop::Fault(CheckFault::ModeType, node));
                }
                Ok(())
            }
            Argument::Other => {
                if is_var(formal.mode) {
                    return Err(Stop::Fault(CheckFault::NotDesignator, node));
                }
                if not_fitting(env, formal, typed) {
                    return Err(Stop::Fault(CheckFault::TypeMismatch, node));
                }
                Ok(())
            }
        },
    }
}
