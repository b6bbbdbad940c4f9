// Shapes of types, put into the table. A shape that the table could not take, which no source
// shows, answers that memory ran out.
ghost use Rattle.std.specs.Prelude.{◌≡◌, ◌<◌, Some, IfOk, length, option_map, slice_get};
ghost use Rattle.alma_names.specs.Shapes as shapes;
ghost use Rattle.alma_rules.specs.Types as types;
ghost use Rattle.alma_check_type.specs.Told.{formed_of};
ghost use Rattle.alma_check_type.specs.Inner.Tables.{Shows, may_index, field_view, fields_view};

use crate::reader::Reader;
use crate::reading::ShapeOrLimit;
use alma_base::{NoMemory, Range};
use alma_check_rules::Env;
use alma_names::{FieldOf, Shape, ShapeId};
use indexmap::IndexMap;
use std::alloc::Global;

// Whether a shape of the table may index an array.
fn may_index(env: &Env, index: u32) -> bool
    ensures { result ≡ may_index env.now.shapes index }
{
    if index as usize >= env.shapes.len() {
        return false;
    }
    match env.shapes.get(ShapeId(index)) {
        Shape::Char | Shape::Boolean | Shape::Listed { .. } | Shape::Sub { .. } => true,
        Shape::Integer | Shape::Row { .. } | Shape::Fields { .. } => false,
    }
}

// Whether a shape of the table may be the base of a subrange with this range.
fn may_base(env: &Env, base: u32, range: Range) -> bool
    ensures within { Shows result (base < length env.now.shapes) }
    ensures base { Shows result (shapes.IsBaseFor env.now.shapes base range) }
{
    if base as usize >= env.shapes.len() || env.shapes.base(ShapeId(base)).0 != base {
        return false;
    }
    match env.shapes.range(ShapeId(base)) {
        None => false,
        Some(whole) => {
            range.low <= range.high && whole.low <= range.low && range.high <= whole.high
        }
    }
}

/// An enumeration of so many names.
pub fn add_listed(alloc: Global, reader: &mut Reader, count: u32) -> Result<ShapeOrLimit, NoMemory>
    requires { 0 < count }
    ensures { IfOk result (λ f. (reader.new, formed_of f) ≡ types.add_shape
        reader.old (shapes.listed count)) }
{
    reader.add(alloc, Shape::Listed { count })
}

/// A subrange of a base type.
pub fn add_sub(
    alloc: Global,
    reader: &mut Reader,
    base: u32,
    range: Range,
) -> Result<ShapeOrLimit, NoMemory>
    ensures { IfOk result (λ f. (reader.new, formed_of f) ≡ types.add_shape
        reader.old (shapes.sub base range)) }
{
    if !may_base(reader.env(), base, range) {
        return Err(NoMemory);
    }
    let base = ShapeId(base);
    reader.add(alloc, Shape::Sub { base, range })
}

// An array with this index.
fn add_row(
    alloc: Global,
    reader: &mut Reader,
    index: u32,
    element: u32,
) -> Result<ShapeOrLimit, NoMemory>
    ensures { IfOk result (λ f. (reader.new, formed_of f) ≡ types.add_shape
        reader.old (shapes.row index element)) }
{
    let len = reader.env().shapes.len();
    if index as usize >= len || element as usize >= len {
        return Err(NoMemory);
    }
    if !may_index(reader.env(), index) {
        return Err(NoMemory);
    }
    let index = ShapeId(index);
    let element = ShapeId(element);
    reader.add(alloc, Shape::Row { index, element })
}

// An array with this index, where its element is not past a limit.
fn add_row_on(
    alloc: Global,
    reader: &mut Reader,
    index: u32,
    element: ShapeOrLimit,
) -> Result<ShapeOrLimit, NoMemory>
    ensures { IfOk result (λ f. (reader.new, formed_of f) ≡ types.row_on index
        (reader.old, formed_of element)) }
{
    match element {
        ShapeOrLimit::Shape(element) => add_row(alloc, reader, index, element),
        ShapeOrLimit::TooLarge => Ok(ShapeOrLimit::TooLarge),
    }
}

/// The arrays with these indices, from the inside outwards.
pub fn add_rows(
    alloc: Global,
    reader: &mut Reader,
    indices: &[u32],
    element: ShapeOrLimit,
) -> Result<ShapeOrLimit, NoMemory>
    ensures { IfOk result (λ f. (reader.new, formed_of f) ≡ types.rows_on
        reader.old indices.now (formed_of element)) }
{
    let mut formed = element;
    let count = indices.len();
    for done in 0..count {
        formed = add_row_on(alloc, reader, indices[count - 1 - done], formed)?;
    }
    Ok(formed)
}

// The field at a place.
fn field_of(
    alloc: Global,
    env: &Env,
    fields: &IndexMap<Vec<u8>, u32>,
    place: usize,
) -> Result<FieldOf, NoMemory>
    ensures field { IfOk result (λ f. Some (shapes.field_of f) ≡ option_map field_view
        (slice_get fields.now.entries place)) }
    ensures below { IfOk result (λ f. f.shape.0 < length env.now.shapes) }
{
    match fields.get_index(place) {
        None => Err(NoMemory),
        Some((name, shape)) => {
            if *shape as usize >= env.shapes.len() {
                return Err(NoMemory);
            }
            Ok(FieldOf {
                name: name.as_slice().to_vec(alloc)?,
                offset: 0,
                shape: ShapeId(*shape),
            })
        }
    }
}

// The fields of these names with these shapes.
fn field_list(
    alloc: Global,
    env: &Env,
    fields: &IndexMap<Vec<u8>, u32>,
) -> Result<Vec<FieldOf>, NoMemory>
    ensures list { IfOk result (λ v. shapes.fields_of v.items ≡ fields_view fields.now.entries) }
    ensures below { IfOk result (λ v. shapes.AllBelow (length env.now.shapes)
        (shapes.fields_of v.items)) }
    ensures distinct { IfOk result (λ v. shapes.HasDistinctNames
        (shapes.fields (shapes.fields_of v.items))) }
{
    let count = fields.len();
    let mut list: Vec<FieldOf> = Vec::new(alloc);
    for place in 0..count {
        let field = field_of(alloc, env, fields, place)?;
        list.push(field)?;
    }
    Ok(list)
}

/// A record with these fields.
pub fn add_record(
    alloc: Global,
    reader: &mut Reader,
    fields: &IndexMap<Vec<u8>, u32>,
) -> Result<ShapeOrLimit, NoMemory>
    ensures { IfOk result (λ f. (reader.new, formed_of f) ≡ types.add_shape
        reader.old (shapes.fields (fields_view fields.now.entries))) }
{
    let fields = field_list(alloc, reader.env(), fields)?;
    reader.add(alloc, Shape::Fields { fields })
}
