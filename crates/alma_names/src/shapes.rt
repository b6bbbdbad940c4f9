// The shapes of types, and the cells, ranges and fields of each.
#![tactic(auto, using(crate::proofs::Tables::tables, crate::proofs::Placing::placing, std::proofs::lemmas::Grind::common_steps))]

ghost use Rattle.std.specs.Prelude.{◌≡◌, ◌+◌, ◌*◌, ◌^◌, ◌<◌, ◌≤◌, ◌⊎◌, ◌≤ℤ◌, List, [], ◌∷◌, ◌++◌, Option, None, Some, IsTrue, IsFalse, length, slice_get, option_map, MatchOption, IfSome, IfOk, OnOk, OnErr};
ghost use Rattle.alma_base.specs.Numbers.{range_size};
ghost use Rattle.alma_base.specs.Limits.{cell_limit};
ghost use Rattle.alma_names.specs.Shapes.{PlainShape, plain_of, fields_of, table_of, first_shapes, range_at, base_at, IsBaseFor, values_at, cells_in, cell_counts, cells_at, is_too_large, sum_of_cells, NamesOnlyBelow, HasIndex, HasCount, HasBase, HasDistinctNames, AllBelow, IsShapeAt, place_fields, placed_shape, field_at, Refuses};
ghost use Rattle.alma_names.specs.Table.{IsIndexedTable, CountsUpToLimit};

use crate::index::FieldIndex;
use alma_base::{CELL_LIMIT, NoMemory, Range};
use std::alloc::Global;
use std::marker::Model;

/// The number of INTEGER in each table of shapes.
pub const INTEGER: u32 = 0;

/// The number of CHAR in each table of shapes.
pub const CHAR: u32 = 1;

/// The number of BOOLEAN in each table of shapes.
pub const BOOLEAN: u32 = 2;

/// The number of a shape in its table.
#[derive(Clone, Copy, Debug, PartialEq, Eq)]
pub struct ShapeId(pub u32);

/// A field of a record. Its offset, in cells, is set by the table to which its record is added.
#[derive(Drop)]
pub struct FieldOf {
    pub name: Vec<u8>,
    pub offset: u32,
    pub shape: ShapeId,
}

/// The shape of a type.
#[derive(Drop)]
pub enum Shape {
    Integer,
    Char,
    Boolean,
    /// An enumeration of so many names.
    Listed { count: u32 },
    /// A subrange.
    Sub { base: ShapeId, range: Range },
    /// An array.
    Row { index: ShapeId, element: ShapeId },
    /// A record.
    Fields { fields: Vec<FieldOf> },
}

/// Why a shape was not added.
#[derive(Clone, Copy, Debug, PartialEq, Eq)]
pub enum ShapeError {
    /// It has more than 1,048,576 cells, or is a row of more than 1,048,576 elements.
    TooLarge,
    Memory,
}

/// A table of shapes. Each is known by its number, and is made of shapes before it.
#[derive(Drop)]
pub struct Shapes {
    shapes: Vec<Shape>,
    // The number of cells of each shape.
    cells: Vec<u32>,
    // The fields of each shape.
    indexes: Vec<FieldIndex>,
}

impl Model for Shapes {
    ghost Value = { List PlainShape };

    ghost view = { λ s. table_of s.shapes.items };

    ghost invariant = { λ s. IsIndexedTable (table_of s.shapes.items) s.cells.items
        s.indexes.items };
}

impl Shapes {
    /// The table of INTEGER, CHAR and BOOLEAN, in the order of their numbers.
    pub fn new(alloc: Global) -> Result<Shapes, NoMemory>
        ensures { IfOk result (λ shapes. shapes ≡ first_shapes) }
    {
        let mut shapes = Vec::new(alloc);
        shapes.push(Shape::Integer)?;
        shapes.push(Shape::Char)?;
        shapes.push(Shape::Boolean)?;
        let mut cells = Vec::new(alloc);
        cells.push(1)?;
        cells.push(1)?;
        cells.push(1)?;
        let mut indexes = Vec::new(alloc);
        indexes.push(FieldIndex::new(alloc))?;
        indexes.push(FieldIndex::new(alloc))?;
        indexes.push(FieldIndex::new(alloc))?;
        Ok(Shapes {
            shapes,
            cells,
            indexes,
        })
    }

    /// Adds a shape behind the others. The offsets of its fields are set here, whatever they were.
    pub fn add(&mut self, alloc: Global, shape: Shape) -> Result<ShapeId, ShapeError>
        requires room { length self.old < 2 ^ 32 }
        requires names { NamesOnlyBelow (length self.old) (plain_of shape) }
        requires index { HasIndex self.old (plain_of shape) }
        requires count { HasCount (plain_of shape) }
        requires base { HasBase self.old (plain_of shape) }
        requires fields { HasDistinctNames (plain_of shape) }

        ensures id { IfOk result (λ id. id.0 ≡ length self.old) }
        ensures ok { OnOk result (self.new ≡ self.old ++ placed_shape (cell_counts self.old)
            (plain_of shape) ∷ []) }

        ensures too_large { Refuses (is_too_large self.old (plain_of shape)) result }
        ensures err { OnErr result (self.new ≡ self.old) }
    {
        match self.size(&shape) {
            None => Err(ShapeError::TooLarge),
            Some(cells) => {
                let id = ShapeId(self.shapes.len() as u32);
                let placed = self.placed(shape);
                let Ok(index) = FieldIndex::of(alloc, &placed) else {
                    return Err(ShapeError::Memory);
                };
                if self.shapes.reserve(1).is_err() {
                    return Err(ShapeError::Memory);
                }
                if self.cells.reserve(1).is_err() {
                    return Err(ShapeError::Memory);
                }
                if self.indexes.reserve(1).is_err() {
                    return Err(ShapeError::Memory);
                }
                self.shapes.push(placed).unwrap();
                self.cells.push(cells).unwrap();
                self.indexes.push(index).unwrap();
                Ok(id)
            }
        }
    }

    /// The number of shapes.
    pub fn len(&self) -> usize
        ensures { result ≡ length self.now }
    {
        self.shapes.len()
    }

    /// The shape of a number.
    pub fn get(&self, id: ShapeId) -> &Shape
        requires { id.0 < length self.now }
        ensures shape { slice_get self.now id.0 ≡ Some (plain_of result.now) }
        ensures sound { IsShapeAt self.now id.0 (plain_of result.now) }
    {
        &self.shapes[id.0 as usize]
    }

    /// The number of cells of a shape.
    pub fn cells(&self, id: ShapeId) -> u32
        requires { id.0 < length self.now }
        ensures cells { result ≡ cells_at self.now id.0 }
        ensures small { result ≤ cell_limit }
    {
        self.cells[id.0 as usize]
    }

    /// The base type of a subrange, and any other shape itself.
    pub fn base(&self, id: ShapeId) -> ShapeId
        requires { id.0 < length self.now }
        ensures base { result.0 ≡ base_at self.now id.0 }
        ensures within { result.0 < length self.now }
        ensures simple { IfSome (range_at self.now id.0)
            (λ range. IsBaseFor self.now result.0 range) }
    {
        match self.get(id) {
            Shape::Sub { base, .. } => *base,
            Shape::Integer | Shape::Char | Shape::Boolean | Shape::Listed { .. } => id,
            Shape::Row { .. } | Shape::Fields { .. } => id,
        }
    }

    /// The numbers of the values of a simple shape.
    pub fn range(&self, id: ShapeId) -> Option<Range>
        requires { id.0 < length self.now }
        ensures range { result ≡ range_at self.now id.0 }
        ensures ordered { IfSome result (λ range. range.low ≤ℤ range.high) }
    {
        match self.get(id) {
            Shape::Integer => Some(Range::integer()),
            Shape::Char => Some(Range::character()),
            Shape::Boolean => Some(Range { low: 0, high: 1 }),
            Shape::Listed { count } => Some(Range {
                low: 0,
                high: i64::from(*count) - 1,
            }),
            Shape::Sub { range, .. } => Some(*range),
            Shape::Row { .. } | Shape::Fields { .. } => None,
        }
    }

    /// The offset and the shape of a field of a record.
    pub fn field(&self, id: ShapeId, name: &[u8]) -> Option<(u32, ShapeId)>
        requires { id.0 < length self.now }
        ensures field { option_map (λ f. (f.0, f.1.0)) result ≡ field_at name.now
            (slice_get self.now id.0) }
        ensures within { IfSome result (λ f. f.1.0 < id.0) }
    {
        self.indexes[id.0 as usize].find(name)
    }

    // The number of values of an index shape, where there are not too many.
    fn values(&self, index: ShapeId) -> Option<u32>
        requires { index.0 < length self.now }
        ensures { CountsUpToLimit result (values_at self.now index.0) }
    {
        match self.range(index) {
            Some(range) => count_values(range),
            None => Some(0),
        }
    }

    // The number of cells of a shape, where it is not too large.
    fn size(&self, shape: &Shape) -> Option<u32>
        requires { NamesOnlyBelow (length self.now) (plain_of shape.now) }
        ensures { MatchOption result
            (IsTrue (is_too_large self.now (plain_of shape.now)))
            (λ n. (n ≡ cells_in self.now (cell_counts self.now) (plain_of shape.now)) ×
            (n ≤ cell_limit) × IsFalse (is_too_large self.now (plain_of shape.now))) }
    {
        match shape {
            Shape::Row { index, element } => self.row_size(*index, *element),
            Shape::Fields { fields } => self.sum(fields),
            Shape::Integer | Shape::Char | Shape::Boolean => Some(1),
            Shape::Listed { .. } | Shape::Sub { .. } => Some(1),
        }
    }

    // The number of cells of a row, where it has not too many, nor too many elements.
    fn row_size(&self, index: ShapeId, element: ShapeId) -> Option<u32>
        requires index { index.0 < length self.now }
        requires element { element.0 < length self.now }
        ensures { MatchOption result
            ((cell_limit < values_at self.now index.0) ⊎
            (cell_limit < values_at self.now index.0 * cells_at self.now element.0))
            (λ n. (n ≡ values_at self.now index.0 * cells_at self.now element.0)
            × (n ≤ cell_limit) × (values_at self.now index.0 ≤ cell_limit)) }
    {
        match self.values(index) {
            None => None,
            Some(count) => {
                let all = u64::from(count) * u64::from(self.cells(element));
                if all > u64::from(CELL_LIMIT) {
                    return None;
                }
                Some(all as u32)
            }
        }
    }

    // The number of cells of all fields, where there are not too many.
    fn sum(&self, fields: &[FieldOf]) -> Option<u32>
        requires { AllBelow (length self.now) (fields_of fields.now) }
        ensures { CountsUpToLimit result (sum_of_cells (cell_counts self.now)
            (fields_of fields.now)) }
    {
        let mut total: u32 = 0;
        for field in fields {
            total += self.cells(field.shape);
            if total > CELL_LIMIT {
                return None;
            }
        }
        Some(total)
    }

    // Puts each field behind the cells of those before it.
    fn place(&self, fields: &mut [FieldOf])
        requires below { AllBelow (length self.now) (fields_of fields.old) }
        requires small { sum_of_cells (cell_counts self.now) (fields_of fields.old) ≤ cell_limit }
        ensures { fields_of fields.new
            ≡ place_fields (cell_counts self.now) 0 (fields_of fields.old) }
    {
        let mut offset: u32 = 0;
        for field in fields.iter_mut() {
            let cells = self.cells(field.shape);
            field.offset = offset;
            offset += cells;
        }
    }

    // The shape, with the offsets of its fields.
    fn placed(&self, shape: Shape) -> Shape
        requires names { NamesOnlyBelow (length self.now) (plain_of shape) }
        requires small { cells_in self.now (cell_counts self.now) (plain_of shape) ≤ cell_limit }
        ensures { plain_of result ≡ placed_shape (cell_counts self.now) (plain_of shape) }
    {
        match shape {
            Shape::Fields { fields } => {
                let mut fields = fields;
                self.place(&mut fields);
                Shape::Fields { fields }
            }
            Shape::Integer => Shape::Integer,
            Shape::Char => Shape::Char,
            Shape::Boolean => Shape::Boolean,
            Shape::Listed { count } => Shape::Listed { count },
            Shape::Sub { base, range } => Shape::Sub { base, range },
            Shape::Row { index, element } => Shape::Row { index, element },
        }
    }
}

// The number of values of a range, where there are not too many.
fn count_values(range: Range) -> Option<u32>
    requires { range.low ≤ℤ range.high }
    ensures { CountsUpToLimit result (range_size range) }
{
    match range.high.checked_sub(range.low) {
        None => None,
        Some(above) => {
            if above >= i64::from(CELL_LIMIT) {
                return None;
            }
            Some(above as u32 + 1)
        }
    }
}
