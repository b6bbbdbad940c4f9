// What the check makes of the parts of a node.
ghost use Rattle.std.specs.Prelude.{◌≡◌, Option, None, Some, option_map, option_and_then, IfOk};
ghost use Rattle.alma_ir.specs.View.{expr_of, test_of, arg_of, desig_of, sels_list, sel_of};
ghost use Rattle.alma_ir.specs.Tree as ir;
ghost use Rattle.alma_rules.specs.Judgement.{both_of};
ghost use Rattle.alma_rules.specs.Parts as parts;
ghost use Rattle.alma_rules.specs.Nodes as nodes;
ghost use Rattle.alma_check_rules.specs.Views.{argument_in, located_of, scene_of, headings_in, denoted_in, typing_in, typing_of, located_in, callee_in, formal_view, meaning_view, args_of, args_in, stmts_in, somewhere};

use alma_base::Range;
use alma_check_rules::{Callee, Denotation, Env, Formal, Location, Meaning, TypedExpr};
use alma_ir::{Arg, Call, Desig, Expr, Sel, Stmt, Test};
use alma_names::{BOOLEAN, CHAR, INTEGER};
use alma_tree::Mode;
use std::alloc::{AllocError, Global};

// ---- expressions

/// An expression as a value: a plain one is itself, and any other the truth of its test.
pub fn as_value(alloc: Global, meaning: Meaning) -> Result<Expr, AllocError>
    ensures { IfOk result (λ e. expr_of e ≡ parts.value_of (meaning_view meaning)) }
{
    match meaning {
        Meaning::Place(desig) => Ok(Expr::Load(desig)),
        Meaning::Plain(expr) => Ok(expr),
        Meaning::Test(test) => Ok(Expr::Truth(Box::new(alloc, test)?)),
    }
}

/// An expression as a test: a plain one is its value.
pub fn as_test(meaning: Meaning) -> Test
    ensures { test_of result ≡ parts.test_of (meaning_view meaning) }
{
    match meaning {
        Meaning::Place(desig) => Test::Value(Expr::Load(desig)),
        Meaning::Plain(expr) => Test::Value(expr),
        Meaning::Test(test) => test,
    }
}

/// In parentheses or behind a sign it is no longer exactly a designator.
pub fn no_place(meaning: Meaning) -> Meaning
    ensures { meaning_view result ≡ parts.no_place (meaning_view meaning) }
{
    match meaning {
        Meaning::Place(desig) => Meaning::Plain(Expr::Load(desig)),
        Meaning::Plain(expr) => Meaning::Plain(expr),
        Meaning::Test(test) => Meaning::Test(test),
    }
}

/// A single expression in parentheses: its type and constant value stay, and a variable is now a
/// value that is loaded.
pub fn without_place(typed: Option<TypedExpr>) -> Option<TypedExpr>
    ensures { typing_in result ≡ option_map parts.without_place (typing_in typed) }
{
    match typed {
        None => None,
        Some(
            TypedExpr {
                shape,
                constant,
                meaning,
            },
        ) => Some(TypedExpr {
            shape,
            constant,
            meaning: no_place(meaning),
        }),
    }
}

/// A test, as a part of type BOOLEAN.
pub fn boolean(meaning: Meaning) -> TypedExpr
    ensures { typing_of result ≡ parts.boolean_typing (meaning_view meaning) }
{
    TypedExpr {
        shape: BOOLEAN,
        constant: None,
        meaning,
    }
}

/// A number, as a constant of type INTEGER.
pub fn integer(value: i64) -> TypedExpr
    ensures { typing_of result ≡ parts.integer_typing value }
{
    TypedExpr {
        shape: INTEGER,
        constant: Some(value),
        meaning: Meaning::Plain(Expr::Const(value)),
    }
}

/// The byte of a literal, as a constant of type CHAR. Its range is not looked at.
pub fn character(value: i64) -> TypedExpr
    ensures { typing_of result ≡ parts.char_typing value }
{
    TypedExpr {
        shape: CHAR,
        constant: Some(value),
        meaning: Meaning::Plain(Expr::Const(value)),
    }
}

/// ORD of an operand: its value and its constant value stay, and the type is INTEGER.
pub fn ord(alloc: Global, typed: Option<TypedExpr>) -> Result<Option<TypedExpr>, AllocError>
    ensures { IfOk result (λ t. typing_in t ≡ option_map nodes.ord_typing (typing_in typed)) }
{
    match typed {
        None => Ok(None),
        Some(
            TypedExpr {
                shape: _,
                constant,
                meaning,
            },
        ) => Ok(Some(TypedExpr {
            shape: INTEGER,
            constant,
            meaning: Meaning::Plain(as_value(alloc, meaning)?),
        })),
    }
}

/// CHR of an operand, of type CHAR. The constant value stays as it is, in any range:
/// `pass_chr` comes first.
pub fn chr(alloc: Global, typed: Option<TypedExpr>) -> Result<Option<TypedExpr>, AllocError>
    ensures { IfOk result (λ t. typing_in t ≡ option_map nodes.chr_typing (typing_in typed)) }
{
    match typed {
        None => Ok(None),
        Some(
            TypedExpr {
                shape: _,
                constant,
                meaning,
            },
        ) => {
            let value = Box::new(alloc, as_value(alloc, meaning)?)?;
            Ok(Some(TypedExpr {
                shape: CHAR,
                constant,
                meaning: Meaning::Plain(Expr::Chr(value)),
            }))
        }
    }
}

/// NOT of an operand, as a test of type BOOLEAN that has no constant value.
pub fn negate(alloc: Global, typed: Option<TypedExpr>) -> Result<Option<TypedExpr>, AllocError>
    ensures { IfOk result (λ t. typing_in t ≡ option_map nodes.not_typing (typing_in typed)) }
{
    match typed {
        None => Ok(None),
        Some(
            TypedExpr {
                shape: _,
                constant: _,
                meaning,
            },
        ) => {
            let test = Box::new(alloc, as_test(meaning))?;
            Ok(Some(boolean(Meaning::Test(Test::Not(test)))))
        }
    }
}

/// A sequence of statements in parentheses, as a test of type BOOLEAN that has no constant value.
pub fn sequence(body: Option<Vec<Stmt>>) -> Option<TypedExpr>
    ensures { typing_in result ≡ option_map (λ b. parts.boolean_typing (parts.a_test (ir.Seq b)))
        (stmts_in body) }
{
    match body {
        None => None,
        Some(body) => Some(boolean(Meaning::Test(Test::Seq(body)))),
    }
}

// ---- calls without their types

fn call_test(routine: u32, args: Vec<Arg>, up: u32) -> Meaning
    ensures { meaning_view result ≡ parts.a_test (ir.CallTest routine (args_of args) up) }
{
    Meaning::Test(Test::Call(Call { routine, args, up }))
}

fn call_value(routine: u32, args: Vec<Arg>, up: u32) -> Meaning
    ensures { meaning_view result ≡ parts.plain (ir.CallExpr routine (args_of args) up) }
{
    Meaning::Plain(Expr::Call(Call { routine, args, up }))
}

// ---- designators

/// The designator alone, without the type of its cells.
pub fn desig(located: Location) -> Desig
    ensures { desig_of result ≡ parts.desig_of (located_of located) }
{
    let Location {
        shape: _,
        root,
        cells,
        sels,
    } = located;
    Desig { root, cells, sels }
}

/// KNOWN of a variable, as a plain expression of type BOOLEAN that has no constant value.
pub fn known(located: Option<Location>) -> Option<TypedExpr>
    ensures { typing_in result ≡ option_map nodes.known_typing (located_in located) }
{
    match located {
        None => None,
        Some(located) => Some(boolean(Meaning::Plain(Expr::Known(desig(located))))),
    }
}

/// The variable that a designator names; None where it names something else or is Bad.
pub fn as_located(env: &Env, found: Option<Denotation>) -> Option<Location>
    ensures { located_in result ≡ option_and_then parts.located_in
        (denoted_in (headings_in env.now) found) }
{
    match found {
        Some(Denotation::Variable(located)) => Some(located),
        Some(Denotation::Constant(_, _)) | Some(Denotation::Routine(_, _)) => None,
        Some(Denotation::NoArray) | None => None,
    }
}

/// The routine that a designator names, before its arguments; None where it names something else or
/// is Bad.
pub fn as_callee(env: &Env, found: Option<Denotation>) -> Option<Callee>
    ensures { callee_in (headings_in env.now) result ≡ option_and_then parts.callee_in
        (denoted_in (headings_in env.now) found) }
{
    match found {
        Some(Denotation::Routine(number, up)) => Some(Callee { number, up }),
        Some(Denotation::Constant(_, _)) | Some(Denotation::Variable(_)) => None,
        Some(Denotation::NoArray) | None => None,
    }
}

fn variable(located: Location) -> TypedExpr
    ensures { typing_of result ≡ record {
      shape = located.shape;
      constant = None;
      meaning =
          parts.a_place (parts.desig_of (located_of located));
    } }
{
    let shape = located.shape;
    TypedExpr {
        shape,
        constant: None,
        meaning: Meaning::Place(desig(located)),
    }
}

/// A designator as an expression.
pub fn as_typed(alloc: Global, env: &Env, found: Option<Denotation>) -> Option<TypedExpr>
    ensures { typing_in result ≡ option_and_then parts.typing_in
        (denoted_in (headings_in env.now) found) }
{
    match found {
        Some(Denotation::Constant(shape, value)) => Some(TypedExpr {
            shape,
            constant: Some(value),
            meaning: Meaning::Plain(Expr::Const(value)),
        }),
        Some(Denotation::Variable(located)) => Some(variable(located)),
        Some(Denotation::Routine(routine, up)) => {
            let args = Vec::new(alloc);
            Some(boolean(call_test(routine, args, up)))
        }
        Some(Denotation::NoArray) | None => None,
    }
}

fn narrowed(located: Location, shape: u32, sel: Sel) -> Result<Location, AllocError>
    ensures { IfOk result (λ l. located_of l ≡ record {
      shape = shape;
      root = located.root;
      cells =
          located.cells;
      sels = parts.with_sel (sels_list located.sels.items) (sel_of sel);
    }) }
{
    let Location {
        shape: _,
        root,
        cells,
        sels,
    } = located;
    let mut sels = sels;
    sels.push(sel)?;
    Ok(Location {
        shape,
        root,
        cells,
        sels,
    })
}

/// A variable narrowed to its field of this name, by the field's offset and cells; None where there
/// is no such field. What is no variable stays as it is.
pub fn select_field(
    env: &Env,
    name: &[u8],
    found: Option<Denotation>,
) -> Result<Option<Denotation>, AllocError>
    ensures { IfOk result (λ d. denoted_in (headings_in env.now) d ≡ option_and_then
        (parts.select_field (scene_of env.now somewhere) name.now)
        (denoted_in (headings_in env.now) found)) }
{
    match found {
        Some(Denotation::Variable(located)) => match env.field(located.shape, name) {
            None => Ok(None),
            Some((offset, shape)) => {
                let sel = Sel::Field(offset, env.cells(shape));
                Ok(Some(Denotation::Variable(narrowed(located, shape, sel)?)))
            }
        },
        Some(Denotation::Constant(shape, value)) => Ok(Some(Denotation::Constant(shape, value))),
        Some(Denotation::Routine(routine, up)) => Ok(Some(Denotation::Routine(routine, up))),
        Some(Denotation::NoArray) => Ok(Some(Denotation::NoArray)),
        None => Ok(None),
    }
}

// An element of a variable, where it is an array and the index has a value.
fn select_element(
    alloc: Global,
    env: &Env,
    located: Location,
    typed: Option<TypedExpr>,
) -> Result<Option<Denotation>, AllocError>
    ensures { IfOk result (λ d. denoted_in (headings_in env.now) d ≡ parts.select_index
        (scene_of env.now somewhere) (Some (parts.a_variable (located_of located)))
        (typing_in typed)) }
{
    match env.row(located.shape) {
        None => Ok(Some(Denotation::NoArray)),
        Some((index, element)) => match typed {
            None => Ok(None),
            Some(typed) => {
                let value = as_value(alloc, typed.meaning)?;
                let sel = Sel::Index(value, env.range(index), env.cells(element));
                Ok(Some(Denotation::Variable(narrowed(located, element, sel)?)))
            }
        },
    }
}

/// A variable narrowed to an element, by the index's value, the range of the index type and the
/// cells of an element; NoArray where it is no array. Else a Bad index (None) makes the whole Bad.
pub fn select_index(
    alloc: Global,
    env: &Env,
    found: Option<Denotation>,
    typed: Option<TypedExpr>,
) -> Result<Option<Denotation>, AllocError>
    ensures { IfOk result (λ d. denoted_in (headings_in env.now) d ≡ parts.select_index
        (scene_of env.now somewhere) (denoted_in (headings_in env.now) found) (typing_in typed)) }
{
    match found {
        None => Ok(None),
        Some(Denotation::NoArray) => Ok(Some(Denotation::NoArray)),
        Some(Denotation::Variable(located)) => select_element(alloc, env, located, typed),
        Some(Denotation::Constant(shape, value)) => match typed {
            None => Ok(None),
            Some(_typed) => Ok(Some(Denotation::Constant(shape, value))),
        },
        Some(Denotation::Routine(routine, up)) => match typed {
            None => Ok(None),
            Some(_typed) => Ok(Some(Denotation::Routine(routine, up))),
        },
    }
}

// ---- calls

fn simple_argument(
    alloc: Global,
    mode: Option<Mode>,
    range: Range,
    meaning: Meaning,
) -> Result<Arg, AllocError>
    ensures { IfOk result (λ a. arg_of a ≡ argument_in mode range (meaning_view meaning)) }
{
    match mode {
        None => Ok(Arg::Value(as_value(alloc, meaning)?, range)),
        Some(Mode::Var) => match meaning {
            Meaning::Place(desig) => Ok(Arg::Place(desig)),
            Meaning::Plain(expr) => Ok(Arg::Value(expr, range)),
            Meaning::Test(test) => Ok(Arg::Value(Expr::Truth(Box::new(alloc, test)?), range)),
        },
        Some(Mode::Mix) => match meaning {
            Meaning::Place(desig) => Ok(Arg::MixPlace(desig)),
            Meaning::Plain(expr) => Ok(Arg::MixValue(expr, range)),
            Meaning::Test(test) => Ok(Arg::MixValue(Expr::Truth(Box::new(alloc, test)?), range)),
        },
    }
}

fn structured_argument(
    alloc: Global,
    mode: Option<Mode>,
    meaning: Meaning,
) -> Result<Arg, AllocError>
    ensures { IfOk result (λ a. arg_of a ≡ parts.structured_argument mode (meaning_view meaning)) }
{
    match meaning {
        Meaning::Place(desig) => match mode {
            None => Ok(Arg::Cells(desig)),
            Some(_mode) => Ok(Arg::Place(desig)),
        },
        Meaning::Plain(expr) => Ok(Arg::Value(expr, Range::integer())),
        Meaning::Test(test) => Ok(Arg::Value(
            Expr::Truth(Box::new(alloc, test)?),
            Range::integer(),
        )),
    }
}

/// An argument as the call passes it, by its formal's mode and shape: a place, the cells of an
/// array or a record, or a value with the formal's range. Without a formal the range is INTEGER's.
pub fn argument(
    alloc: Global,
    env: &Env,
    formal: Option<Formal>,
    typed: Option<TypedExpr>,
) -> Result<Option<Arg>, AllocError>
    ensures { IfOk result (λ a. option_map arg_of a ≡ option_map
        (parts.argument_of (scene_of env.now somewhere) (option_map formal_view formal))
        (typing_in typed)) }
{
    match typed {
        None => Ok(None),
        Some(typed) => match formal {
            None => Ok(Some(Arg::Value(as_value(alloc, typed.meaning)?, Range::integer()))),
            Some(formal) => {
                if env.is_structured(formal.shape) {
                    return Ok(Some(structured_argument(alloc, formal.mode, typed.meaning)?));
                }
                let range = env.range(formal.shape);
                Ok(Some(simple_argument(alloc, formal.mode, range, typed.meaning)?))
            }
        },
    }
}

/// A call of a function is plain, and one of a procedure without result is a test.
pub fn call(env: &Env, callee: Option<Callee>, args: Option<Vec<Arg>>) -> Option<TypedExpr>
    ensures { typing_in result ≡ option_map parts.typing_of_call
        (both_of (callee_in (headings_in env.now) callee) (args_in args)) }
{
    match callee {
        None => None,
        Some(callee) => match args {
            None => None,
            Some(args) => match env.result(callee.number) {
                None => Some(boolean(call_test(callee.number, args, callee.up))),
                Some(shape) => Some(TypedExpr {
                    shape,
                    constant: None,
                    meaning: call_value(callee.number, args, callee.up),
                }),
            },
        },
    }
}
