// Types: what a type expression declares, the rules that are broken in it, and its shape.
ghost use Rattle.std.specs.Prelude.{◌≡◌, ◌++◌, List, IfOk};
ghost use Rattle.alma_rules.specs.Numbered as tree;
ghost use Rattle.alma_rules.specs.Types as types;
ghost use Rattle.alma_rules.specs.View.{view_type_node, view_plain_type, view_field_list, view_dimension, arrays_of, dimensions_of, plains_of, field_lists_of};
ghost use Rattle.alma_check_type.specs.Told.{told, tells, tells_of, fault_of, formed_of, items_of, items_in, onward};
ghost use Rattle.alma_check_type.specs.Inner.Fields as spec;

use crate::constant::read_subrange;
use alma_base::NoMemory;
use alma_check_type::{
    Fields, Reader, Reading, ShapeOrLimit, join_fields, join_index, join_record, join_type,
    no_fields, plain_node, read_listed, read_named,
};
use alma_tree::{Arrays, Dimensions, FieldList, PlainType, TypeNode};
use std::alloc::Global;

/// What a type expression declares, the first rule that is broken in it, and its shape.
#[cycle(types)]
pub fn read_type(
    alloc: Global,
    reader: &mut Reader,
    tree: &TypeNode,
) -> Result<Reading<u32>, NoMemory>
    ensures { IfOk result (λ r.
        told (types.read_type reader.old (view_type_node tree.now)) ≡ tells r reader.new) }
{
    let rows = read_arrays(alloc, reader, &tree.arrays)?;
    let element = read_plain(alloc, reader, &tree.element);
    join_type(alloc, reader, tree.node, rows, element)
}

#[cycle(types)]
fn read_arrays(
    alloc: Global,
    reader: &mut Reader,
    arrays: &Option<Arrays>,
) -> Result<Reading<Vec<u32>>, NoMemory>
    ensures { IfOk result (λ r.
        told (types.read_arrays reader.old (arrays_of arrays.now))
        ≡ tells_of items_of r reader.new) }
{
    let rows = Reading {
        fault: None,
        value: Some(Vec::new(alloc)),
    };
    match arrays {
        None => Ok(rows),
        Some(arrays) => {
            let rows = read_dimensions(alloc, reader, rows, &arrays.first)?;
            read_dimension_tail(alloc, reader, rows, &arrays.more)
        }
    }
}

// Index types behind others.
#[cycle(types)]
fn read_dimension_tail(
    alloc: Global,
    reader: &mut Reader,
    before: Reading<Vec<u32>>,
    more: &[Dimensions],
) -> Result<Reading<Vec<u32>>, NoMemory>
    ensures { IfOk result (λ r. onward (fault_of before.fault) (items_in before.value)
        (told (types.read_dimension_tail reader.old (dimensions_of more.now)))
        ≡ tells_of items_of r reader.new) }
{
    let mut rows = before;
    for dimensions in more {
        rows = read_dimensions(alloc, reader, rows, dimensions)?;
    }
    Ok(rows)
}

#[cycle(types)]
fn read_dimensions(
    alloc: Global,
    reader: &mut Reader,
    rows: Reading<Vec<u32>>,
    dimensions: &Dimensions,
) -> Result<Reading<Vec<u32>>, NoMemory>
    ensures { IfOk result (λ r. onward (fault_of rows.fault) (items_in rows.value)
        (told (types.read_dimensions reader.old (view_dimension dimensions.now)))
        ≡ tells_of items_of r reader.new) }
{
    let index = read_plain(alloc, reader, &dimensions.first);
    let rows = join_index(reader, rows, plain_node(&dimensions.first), index)?;
    read_plains(alloc, reader, rows, &dimensions.more)
}

#[cycle(types)]
fn read_plains(
    alloc: Global,
    reader: &mut Reader,
    before: Reading<Vec<u32>>,
    more: &[PlainType],
) -> Result<Reading<Vec<u32>>, NoMemory>
    ensures { IfOk result (λ r. onward (fault_of before.fault) (items_in before.value)
        (told (types.read_plains reader.old (plains_of more.now)))
        ≡ tells_of items_of r reader.new) }
{
    let mut rows = before;
    for plain in more {
        let index = read_plain(alloc, reader, plain);
        rows = join_index(reader, rows, plain_node(plain), index)?;
    }
    Ok(rows)
}

#[cycle(types)]
fn read_plain(
    alloc: Global,
    reader: &mut Reader,
    plain: &PlainType,
) -> Result<Reading<ShapeOrLimit>, NoMemory>
    ensures { IfOk result (λ r.
        told (types.read_plain reader.old (view_plain_type plain.now))
        ≡ tells_of formed_of r reader.new) }
{
    match plain {
        PlainType::Named { node: _, name } => read_named(reader.env(), name),
        PlainType::Listed { node: _, names } => read_listed(alloc, reader, names),
        PlainType::Subrange { node, low, high } => read_subrange(alloc, reader, *node, low, high),
        PlainType::Record {
            node: _,
            first,
            more,
        } => {
            let fields = read_fields(alloc, reader, no_fields(alloc), first)?;
            let fields = read_field_tail(alloc, reader, fields, more);
            join_record(alloc, reader, fields)
        }
    }
}

// Fields behind those with these names.
#[cycle(types)]
fn read_fields(
    alloc: Global,
    reader: &mut Reader,
    fields: Fields,
    list: &FieldList,
) -> Result<Fields, NoMemory>
    ensures { (before : List tree.Name)
        → spec.Knows reader.old.tokens fields.names.entries before
        → IfOk result (λ r.
        (spec.told_on (spec.told_fields fields)
        (told (types.read_fields reader.old before (view_field_list list.now)))
        ≡ spec.told_list (spec.told_fields r) reader.new)
        × spec.Knows reader.new.tokens r.names.entries
        (before ++ types.field_names (view_field_list list.now))) }
{
    match list {
        FieldList::Empty { node: _ } => Ok(fields),
        FieldList::Fields {
            node: _,
            names,
            type_node,
        } => {
            let shape = read_type(alloc, reader, type_node);
            join_fields(alloc, reader, fields, names, shape)
        }
    }
}

#[cycle(types)]
fn read_field_tail(
    alloc: Global,
    reader: &mut Reader,
    begun: Fields,
    more: &[FieldList],
) -> Result<Fields, NoMemory>
    ensures { (before : List tree.Name)
        → spec.Knows reader.old.tokens begun.names.entries before
        → IfOk result (λ r. spec.told_on (spec.told_fields begun)
        (told (types.read_field_tail reader.old before (field_lists_of more.now)))
        ≡ spec.told_list (spec.told_fields r) reader.new) }
{
    let mut fields = begun;
    for list in more {
        fields = read_fields(alloc, reader, fields, list)?;
    }
    Ok(fields)
}
