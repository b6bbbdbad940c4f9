// A constant or a type expression alone.
ghost use Rattle.std.specs.Prelude.{◌≡◌, option_and_then, option_map};
ghost use Rattle.alma_rules.specs.Answers.{IsConstValue, IsShapeOf};
ghost use Rattle.alma_rules.specs.View.{view_expr, view_type_node};
ghost use Rattle.alma_check_expr.specs.Shapes as shapes;

use alma_check_block::{read_constant, read_type};
use alma_check_marks::{first_token_in_expr, first_token_in_type};
use alma_check_type::{Bound, Reader};
use alma_names::ShapeId;
use alma_rules::CheckError;
use alma_tree::{Expr, TypeNode};
use std::alloc::Global;

// The shape and the value of a constant.
fn pair(bound: Option<Bound>) -> Option<(ShapeId, i64)>
    ensures { option_map shapes.pair_of result ≡ option_and_then shapes.pair_in bound }
{
    match bound {
        None => None,
        Some(bound) => match bound.constant {
            None => None,
            Some(value) => Some((ShapeId(bound.shape), value)),
        },
    }
}

/// The shape and the value of a constant that begins at a token, None where a name in use is Bad,
/// or the first broken rule.
pub fn const_value(
    alloc: Global,
    reader: &Reader,
    expr: &Expr,
    at: u32,
) -> Result<Option<(ShapeId, i64)>, CheckError>
    ensures { IsConstValue reader.now (view_expr expr.now) at (shapes.constant_in result) }
{
    let Ok(reading) = read_constant(alloc, reader, expr) else {
        return Err(CheckError::Memory);
    };
    match reading.fault {
        None => Ok(pair(reading.value)),
        Some(broken) => match first_token_in_expr(alloc, expr, at, broken.node) {
            Ok(token) => Err(CheckError::Fault(broken.fault, broken.node, token as usize)),
            Err(_error) => Err(CheckError::Memory),
        },
    }
}

/// The shape of a type expression that begins at a token, None where a name in use is Bad, or the
/// first broken rule. The names of enumerations in it are declared in any case.
pub fn shape_of(
    alloc: Global,
    reader: &mut Reader,
    tree: &TypeNode,
    at: u32,
) -> Result<Option<ShapeId>, CheckError>
    ensures { IsShapeOf reader.old reader.new (view_type_node tree.now) at
        (shapes.shape_in result) }
{
    let Ok(reading) = read_type(alloc, reader, tree) else {
        return Err(CheckError::Memory);
    };
    match reading.fault {
        None => Ok(reading.value.map(ShapeId)),
        Some(broken) => match first_token_in_type(alloc, tree, at, broken.node) {
            Ok(token) => Err(CheckError::Fault(broken.fault, broken.node, token as usize)),
            Err(_error) => Err(CheckError::Memory),
        },
    }
}
