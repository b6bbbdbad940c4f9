// Types, put together of their parts.
ghost use Rattle.std.specs.Prelude.{◌≡◌, Some, IfOk};
ghost use Rattle.alma_rules.specs.Numbered as tree;
ghost use Rattle.alma_rules.specs.Judgement.{both_of};
ghost use Rattle.alma_rules.specs.Scene.{Scene};
ghost use Rattle.alma_rules.specs.Types as types;
ghost use Rattle.alma_rules.specs.View.{view_plain_type};
ghost use Rattle.alma_check_rules.specs.Views.{scene_of, somewhere};
ghost use Rattle.alma_check_type.specs.Told.{Told, tells, tells_of, a_told, fault_of, earlier, formed_of, items_of, items_in, onward, told_at, told_with, told_number, told_index, told_type};

use crate::reader::Reader;
use crate::reading::{BrokenRule, Reading, ShapeOrLimit, earlier};
use crate::shape::add_rows;
use alma_base::{CheckFault, NoMemory};
use alma_check_build_stmt::with_part;
use alma_check_rules::Env;
use alma_names::INTEGER;
use alma_tree::PlainType;
use std::alloc::Global;

/// The number of the node of a type.
pub fn plain_node(plain: &PlainType) -> u32
    ensures { result ≡ tree.plain_node (view_plain_type plain.now) }
{
    match plain {
        PlainType::Named { node, .. } => *node,
        PlainType::Listed { node, .. } => *node,
        PlainType::Subrange { node, .. } => *node,
        PlainType::Record { node, .. } => *node,
    }
}

// Whether a type is no index type.
fn is_bad_index(env: &Env, index: ShapeOrLimit) -> bool
    ensures { result ≡ types.bad_index (scene_of env.now somewhere) (formed_of index) }
{
    match index {
        ShapeOrLimit::Shape(shape) => shape == INTEGER || env.is_structured(shape),
        ShapeOrLimit::TooLarge => true,
    }
}

fn number(formed: ShapeOrLimit) -> u32
    ensures { result ≡ types.number_in (formed_of formed) }
{
    match formed {
        ShapeOrLimit::Shape(shape) => shape,
        ShapeOrLimit::TooLarge => 0,
    }
}

// The number of an index type.
fn index_number(reader: &Reader, node: u32, index: Reading<ShapeOrLimit>) -> Reading<u32>
    ensures { told_number node (tells_of formed_of index reader.now) ≡ tells result reader.now }
{
    match index.value {
        None => Reading {
            fault: index.fault,
            value: None,
        },
        Some(formed) => {
            if is_bad_index(reader.env(), formed) {
                let broken = BrokenRule {
                    node,
                    fault: CheckFault::IndexType,
                };
                return Reading {
                    fault: earlier(index.fault, Some(broken)),
                    value: None,
                };
            }
            Reading {
                fault: index.fault,
                value: Some(number(formed)),
            }
        }
    }
}

/// An index type behind others.
pub fn join_index(
    reader: &Reader,
    rows: Reading<Vec<u32>>,
    node: u32,
    index: Result<Reading<ShapeOrLimit>, NoMemory>,
) -> Result<Reading<Vec<u32>>, NoMemory>
    ensures { (t : Told types.ShapeOrLimit) → IfOk index (λ x. t ≡ tells_of formed_of x reader.now)
        → IfOk result (λ r. onward (fault_of rows.fault) (items_in rows.value) (told_index node t)
        ≡ tells_of items_of r reader.now) }
{
    let index = index_number(reader, node, index?);
    Ok(Reading {
        fault: earlier(rows.fault, index.fault),
        value: with_part(rows.value, index.value)?,
    })
}

// A type that is past a limit or not.
fn sized(node: u32, fault: Option<BrokenRule>, formed: ShapeOrLimit) -> Reading<u32>
    ensures { (s : Scene) → told_with types.number_in (told_at node types.size_rules
        (a_told (fault_of fault) s (Some (formed_of formed)))) ≡ tells result s }
{
    match formed {
        ShapeOrLimit::Shape(shape) => Reading {
            fault,
            value: Some(shape),
        },
        ShapeOrLimit::TooLarge => {
            let broken = BrokenRule {
                node,
                fault: CheckFault::TooLarge,
            };
            Reading {
                fault: earlier(fault, Some(broken)),
                value: None,
            }
        }
    }
}

// A type of its indices and its element, which are not Bad.
fn form_type(
    alloc: Global,
    reader: &mut Reader,
    node: u32,
    fault: Option<BrokenRule>,
    indices: &[u32],
    element: ShapeOrLimit,
) -> Result<Reading<u32>, NoMemory>
    ensures { IfOk result (λ r. told_type node (a_told (fault_of fault) reader.old
        (Some (indices.now, formed_of element))) ≡ tells r reader.new) }
{
    let formed = add_rows(alloc, reader, indices, element)?;
    Ok(sized(node, fault, formed))
}

/// A type of its indices and its element.
pub fn join_type(
    alloc: Global,
    reader: &mut Reader,
    node: u32,
    rows: Reading<Vec<u32>>,
    element: Result<Reading<ShapeOrLimit>, NoMemory>,
) -> Result<Reading<u32>, NoMemory>
    ensures { (t : Told types.ShapeOrLimit) → IfOk element (λ x. t ≡ tells_of formed_of x
        reader.old) → IfOk result (λ r. told_type node
        (a_told (earlier (fault_of rows.fault) t.fault) t.scene
        (both_of (items_in rows.value) t.value)) ≡ tells r reader.new) }
{
    let element = element?;
    let fault = earlier(rows.fault, element.fault);
    match rows.value {
        None => Ok(Reading { fault, value: None }),
        Some(indices) => match element.value {
            None => Ok(Reading { fault, value: None }),
            Some(formed) => form_type(alloc, reader, node, fault, &indices, formed),
        },
    }
}
