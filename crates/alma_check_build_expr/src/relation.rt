// Relations of two values, built of their sides.
ghost use Rattle.std.specs.Prelude.{◌≡◌, Some, option_map, IfOk};
ghost use Rattle.alma_ir.specs.View.{desig_of, expr_of};
ghost use Rattle.alma_ir.specs.Tree as ir;
ghost use Rattle.alma_rules.specs.Judgement.{both_of};
ghost use Rattle.alma_rules.specs.Parts as parts;
ghost use Rattle.alma_check_rules.specs.Views.{scene_of, typing_in, typing_of, meaning_view, somewhere};

use crate::expression::{as_value, boolean};
use alma_check_rules::{Env, Meaning, TypedExpr};
use alma_ir::{Cmp, Desig, Expr, Test};
use alma_tree::Relation;
use std::alloc::{AllocError, Global};

fn comparison(relation: Relation) -> Cmp
    ensures { result ≡ parts.compare_of relation }
{
    match relation {
        Relation::Equal => Cmp::Equal,
        Relation::Unequal => Cmp::Unequal,
        Relation::Less => Cmp::Less,
        Relation::LessEq => Cmp::LessEq,
        Relation::Greater => Cmp::Greater,
        Relation::GreaterEq => Cmp::GreaterEq,
    }
}

// An expression as a value, in a box.
fn boxed_value(alloc: Global, meaning: Meaning) -> Result<Box<Expr>, AllocError>
    ensures { IfOk result (λ e. expr_of e.value ≡ parts.value_of (meaning_view meaning)) }
{
    Ok(Box::new(alloc, as_value(alloc, meaning)?)?)
}

fn compare(alloc: Global, cmp: Cmp, left: Meaning, right: Meaning) -> Result<Meaning, AllocError>
    ensures { IfOk result (λ m. meaning_view m ≡ parts.plain
        (ir.Compare cmp (parts.value_of (meaning_view left))
        (parts.value_of (meaning_view right)))) }
{
    let first = boxed_value(alloc, left)?;
    let second = boxed_value(alloc, right)?;
    Ok(Meaning::Plain(Expr::Compare(cmp, first, second)))
}

// An equation whose left side is a place: it is unified with another place, or their cells are, and
// else bound to the value.
fn equate_place(
    alloc: Global,
    env: &Env,
    place: Desig,
    shape: u32,
    right: TypedExpr,
) -> Result<Meaning, AllocError>
    ensures { IfOk result (λ m. meaning_view m ≡ parts.place_equation (scene_of env.now somewhere)
        shape right.shape (desig_of place) (meaning_view right.meaning)) }
{
    let second = right.shape;
    match right.meaning {
        Meaning::Place(other) => {
            if env.is_structured(shape) {
                return Ok(Meaning::Test(Test::SameCells(place, other)));
            }
            Ok(Meaning::Test(Test::Unify(place, env.range(shape), other, env.range(second))))
        }
        Meaning::Plain(expr) => Ok(Meaning::Test(Test::Bind(place, expr, env.range(shape), true))),
        Meaning::Test(test) => {
            let truth = Expr::Truth(Box::new(alloc, test)?);
            Ok(Meaning::Test(Test::Bind(place, truth, env.range(shape), true)))
        }
    }
}

// An equation whose left side is a value: it is bound to a place, and else compared.
fn equate_value(
    alloc: Global,
    env: &Env,
    value: Expr,
    right: TypedExpr,
) -> Result<Meaning, AllocError>
    ensures { IfOk result (λ m. meaning_view m ≡ parts.value_equation (scene_of env.now somewhere)
        right.shape (expr_of value) (meaning_view right.meaning)) }
{
    let shape = right.shape;
    match right.meaning {
        Meaning::Place(place) => Ok(Meaning::Test(Test::Bind(
            place,
            value,
            env.range(shape),
            false,
        ))),
        Meaning::Plain(expr) => compare(
            alloc,
            Cmp::Equal,
            Meaning::Plain(value),
            Meaning::Plain(expr),
        ),
        Meaning::Test(test) => compare(
            alloc,
            Cmp::Equal,
            Meaning::Plain(value),
            Meaning::Test(test),
        ),
    }
}

// An equation with exactly one designator binds it; one of two unifies them, or their cells.
fn equation(
    alloc: Global,
    env: &Env,
    left: TypedExpr,
    right: TypedExpr,
) -> Result<Meaning, AllocError>
    ensures { IfOk result (λ m. meaning_view m ≡ parts.equation_of (scene_of env.now somewhere)
        left.shape right.shape (meaning_view left.meaning) (meaning_view right.meaning)) }
{
    let shape = left.shape;
    match left.meaning {
        Meaning::Place(place) => equate_place(alloc, env, place, shape, right),
        Meaning::Plain(expr) => equate_value(alloc, env, expr, right),
        Meaning::Test(test) => {
            let truth = Expr::Truth(Box::new(alloc, test)?);
            equate_value(alloc, env, truth, right)
        }
    }
}

fn relation_of(
    alloc: Global,
    env: &Env,
    relation: Relation,
    left: TypedExpr,
    right: TypedExpr,
) -> Result<Meaning, AllocError>
    ensures { IfOk result (λ m. meaning_view m ≡ parts.relation_of
        (scene_of env.now somewhere) relation (typing_of left, typing_of right)) }
{
    match relation {
        Relation::Equal => equation(alloc, env, left, right),
        Relation::Unequal
        | Relation::Less
        | Relation::LessEq
        | Relation::Greater
        | Relation::GreaterEq => {
            compare(alloc, comparison(relation), left.meaning, right.meaning)
        }
    }
}

// A relation whose left side has a value.
fn relate_to(
    alloc: Global,
    env: &Env,
    relation: Relation,
    left: TypedExpr,
    right: Option<TypedExpr>,
) -> Result<Option<TypedExpr>, AllocError>
    ensures { IfOk result (λ t. typing_in t ≡ option_map
        (parts.relation_typing (scene_of env.now somewhere) relation)
        (both_of (Some (typing_of left)) (typing_in right))) }
{
    match right {
        None => Ok(None),
        Some(right) => Ok(Some(boolean(relation_of(alloc, env, relation, left, right)?))),
    }
}

/// A relation of two values, where both have one: an equation may bind, and any other compares.
pub fn relate(
    alloc: Global,
    env: &Env,
    relation: Relation,
    left: Option<TypedExpr>,
    right: Option<TypedExpr>,
) -> Result<Option<TypedExpr>, AllocError>
    ensures { IfOk result (λ t. typing_in t ≡ option_map
        (parts.relation_typing (scene_of env.now somewhere) relation)
        (both_of (typing_in left) (typing_in right))) }
{
    match left {
        None => Ok(None),
        Some(left) => relate_to(alloc, env, relation, left, right),
    }
}
