// Where a phrase stands, and what the names there stand for.
ghost use Rattle.std.specs.Prelude.{◌≡◌, Option, None, Some, slice_get, option_map, option_and_then, not, is_some, nat_eq, pos, IfSome};
ghost use Rattle.alma_names.specs.Shapes.{base_at, cells_at, range_at, field_at};
ghost use Rattle.std.specs.Str.Parse.{digits_value};
ghost use Rattle.alma_rules.specs.Scene.{text_at, literal_at, number_at, range, heading_of, row_of, is_record_in};
ghost use Rattle.alma_check_rules.specs.Views.{scene_of, heading_view, headings_in, known_heading, somewhere};

use alma_base::Range;
use alma_ir::{Param, Root};
use alma_names::{Scopes, Shape, ShapeId, Shapes};
use alma_scan::Token;
use alma_tree::Mode;
use indexmap::IndexMap;

/// A parameter: how it is passed, where not by value, and the shape of its type.
#[derive(Clone, Copy)]
pub struct Formal {
    pub mode: Option<Mode>,
    pub shape: u32,
}

/// A heading in which no rule is broken.
#[derive(Drop)]
pub struct Heading {
    pub formals: Vec<Formal>,
    pub result: Option<u32>,
    pub params: Vec<Param>,
}

/// What RETURN may give in a routine: nothing, or a value of a shape, which is None where the
/// heading is Bad.
#[derive(Clone, Copy)]
pub enum Returns {
    Nothing,
    Value(Option<u32>),
}

/// What is round a phrase: the source and its tokens, the shapes of all types so far, the blocks,
/// the heading of each routine by its number, the names that the innermost block declares with
/// their tokens, and the routine with what RETURN gives there.
#[derive(Drop)]
pub struct Env<'e, 's> {
    pub source: &'e [u8],
    pub tokens: &'e [Token<'s>],
    pub shapes: Shapes,
    pub scopes: Scopes,
    pub headings: Vec<Option<Heading>>,
    pub declares: IndexMap<Vec<u8>, u32>,
    pub routine: u32,
    pub returns: Returns,
}

/// Whether a phrase stands in a constant place, and whether inside FORALL, COMMIT, NOT or a
/// parenthesised sequence.
#[derive(Clone, Copy)]
pub struct Place {
    pub constant: bool,
    pub inside: bool,
}

/// What a name in use stands for: no declaration of it is visible, its entry is Bad, or it stands
/// for something.
#[derive(Clone, Copy)]
pub enum Found {
    Absent,
    Bad,
    Constant(u32, i64),
    Named(u32),
    Variable(u32, Root),
    Routine(u32, u32),
}

impl<'e, 's> Env<'e, 's> {
    /// The base type of a subrange, and any other shape itself.
    pub fn base(&self, shape: u32) -> u32
        ensures { result ≡ base_at self.now.shapes shape }
    {
        if (shape as usize) < self.shapes.len() {
            self.shapes.base(ShapeId(shape)).0
        } else {
            shape
        }
    }

    /// The count of cells that a value of the shape takes, and 0 for a number that no shape has.
    pub fn cells(&self, shape: u32) -> u32
        ensures { result ≡ cells_at self.now.shapes shape }
    {
        if (shape as usize) < self.shapes.len() {
            self.shapes.cells(ShapeId(shape))
        } else {
            0
        }
    }

    /// The range of a simple shape.
    pub fn simple(&self, shape: u32) -> Option<Range>
        ensures { result ≡ range_at self.now.shapes shape }
    {
        if (shape as usize) < self.shapes.len() {
            self.shapes.range(ShapeId(shape))
        } else {
            None
        }
    }

    /// The range of a simple shape, and that of INTEGER for a structured one.
    pub fn range(&self, shape: u32) -> Range
        ensures { result ≡ range (scene_of self.now somewhere) shape }
    {
        match self.simple(shape) {
            Some(range) => range,
            None => Range::integer(),
        }
    }

    /// Whether it is an array or a record; a number that no shape has counts as one.
    pub fn is_structured(&self, shape: u32) -> bool
        ensures { result ≡ not (is_some (range_at self.now.shapes shape)) }
    {
        self.simple(shape).is_none()
    }

    /// Whether this is its base type. Any shape but a subrange is its own.
    pub fn has_base(&self, shape: u32, base: u32) -> bool
        ensures { result ≡ nat_eq (base_at self.now.shapes shape) base }
    {
        self.base(shape) == base
    }

    /// The index and the element of an array.
    pub fn row(&self, shape: u32) -> Option<(u32, u32)>
        ensures { result ≡ option_and_then row_of (slice_get self.now.shapes shape) }
    {
        if (shape as usize) < self.shapes.len() {
            match self.shapes.get(ShapeId(shape)) {
                Shape::Row { index, element } => Some((index.0, element.0)),
                Shape::Integer | Shape::Char | Shape::Boolean | Shape::Listed { .. } => None,
                Shape::Sub { .. } | Shape::Fields { .. } => None,
            }
        } else {
            None
        }
    }

    /// Whether it is a record; a number that no shape has counts as none.
    pub fn is_record(&self, shape: u32) -> bool
        ensures { result ≡ is_record_in (slice_get self.now.shapes shape) }
    {
        if (shape as usize) < self.shapes.len() {
            match self.shapes.get(ShapeId(shape)) {
                Shape::Fields { .. } => true,
                Shape::Integer | Shape::Char | Shape::Boolean | Shape::Listed { .. } => false,
                Shape::Sub { .. } | Shape::Row { .. } => false,
            }
        } else {
            false
        }
    }

    /// The offset and the shape of the field of a name.
    pub fn field(&self, shape: u32, name: &[u8]) -> Option<(u32, u32)>
        ensures { result ≡ field_at name.now (slice_get self.now.shapes shape) }
    {
        if (shape as usize) < self.shapes.len() {
            match self.shapes.field(ShapeId(shape), name) {
                Some((offset, field)) => Some((offset, field.0)),
                None => None,
            }
        } else {
            None
        }
    }

    /// The bytes of a token.
    pub fn text(&self, token: u32) -> &'s [u8]
        ensures { result.now ≡ text_at (scene_of self.now somewhere) token }
    {
        match self.tokens.get(token as usize) {
            Some(token) => token.text,
            None => &[],
        }
    }

    /// The bytes between the quotes of a literal.
    pub fn literal(&self, token: u32) -> &'s [u8]
        ensures { result.now ≡ literal_at (scene_of self.now somewhere) token }
    {
        let text = self.text(token);
        if text.len() < 2 {
            return &[];
        }
        &text[1..text.len() - 1]
    }

    /// The value of a number.
    pub fn number(&self, token: u32) -> Option<i64>
        ensures { IfSome result (λ v. v ≡ number_at (scene_of self.now somewhere) token) }
    {
        value_of(self.text(token))
    }

    /// The heading of a routine.
    pub fn heading(&self, routine: u32) -> Option<&Heading>
        ensures { option_map (λ h. heading_view h.now) result ≡ heading_of
            (scene_of self.now somewhere) routine }
    {
        match self.headings.get(routine as usize) {
            Some(Some(heading)) => Some(heading),
            Some(None) => None,
            None => None,
        }
    }

    /// The shape of a function's result.
    pub fn result(&self, routine: u32) -> Option<u32>
        ensures { result ≡ (known_heading (headings_in self.now) routine).result }
    {
        match self.heading(routine) {
            Some(heading) => heading.result,
            None => None,
        }
    }
}

// The number that digits write.
fn value_of(digits: &[u8]) -> Option<i64>
    ensures { IfSome result (λ v. v ≡ pos (digits_value 10 digits.now)) }
{
    let mut value: u64 = 0;
    for byte in digits {
        if *byte < b'0' || *byte > b'9' {
            return None;
        }
        value = value.checked_mul(10)?.checked_add(u64::from(*byte - b'0'))?;
    }
    if value > i64::MAX as u64 {
        return None;
    }
    Some(value as i64)
}
