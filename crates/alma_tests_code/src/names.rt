// What each table answers on its happy path and at its limits.
ghost use Rattle.std.specs.Prelude.{◌≡◌, ◌+◌, ◌^◌, ◌<◌, ◌≤◌, ◌≤ℤ◌, pos, [], ◌∷◌, Some, slice_get, length, codes, IfOk, OnOk};
ghost use Rattle.alma_names.specs.Scopes.{first_blocks, with_new_block, entry_count};
ghost use Rattle.alma_names.specs.Shapes.{integer, first_shapes, field_of, fields_of};

use alma_base::Range;
use alma_names::{
    Access, DeclareError, Entry, FieldOf, Id, Scopes, Shape, ShapeError, ShapeId, Shapes,
};
use std::alloc::{AllocError, Global};

const INTEGER: ShapeId = ShapeId(0);

const CHAR: ShapeId = ShapeId(1);

const BOOLEAN: ShapeId = ShapeId(2);

// ARRAY [1..count] OF element
fn add_row(
    alloc: Global,
    shapes: &mut Shapes,
    count: i64,
    element: ShapeId,
) -> Result<ShapeId, ShapeError>
    requires integer { slice_get shapes.old 0 ≡ Some integer }
    requires element { element.0 < length shapes.old }
    requires room { length shapes.old + 2 < 2 ^ 32 }
    requires count { pos 1 ≤ℤ count }
    ensures integer { slice_get shapes.new 0 ≡ Some integer }
    ensures len { length shapes.new ≤ length shapes.old + 2 }
    ensures kept { length shapes.old ≤ length shapes.new }
    ensures within { IfOk result (λ id. id.0 < length shapes.new) }
{
    let range = Range {
        low: 1,
        high: count,
    };
    let index = shapes.add(
        alloc,
        Shape::Sub {
            base: INTEGER,
            range,
        },
    )?;
    shapes.add(alloc, Shape::Row { index, element })
}

// What stands in a row: characters, records with no fields, or ARRAY [1..n] OF CHAR.
#[derive(Clone, Copy)]
enum Element {
    Char,
    Nothing,
    Row(i64),
}

// The cells of ARRAY [1..count] OF element, in a new table.
fn add_cells(
    alloc: Global,
    shapes: &mut Shapes,
    count: i64,
    element: Element,
) -> Result<u32, ShapeError>
    requires new { shapes.old ≡ first_shapes }
    requires count { pos 1 ≤ℤ count }
{
    let element = match element {
        Element::Char => CHAR,
        Element::Nothing => shapes.add(
            alloc,
            Shape::Fields {
                fields: Vec::new(alloc),
            },
        )?,
        Element::Row(n) => add_row(alloc, shapes, n.max(1), CHAR)?,
    };
    let id = add_row(alloc, shapes, count, element)?;
    Ok(shapes.cells(id))
}

// The same in a table of its own.
fn row_cells(alloc: Global, count: i64, element: Element) -> Result<u32, ShapeError> {
    match Shapes::new(alloc) {
        Ok(mut shapes) => add_cells(alloc, &mut shapes, count.max(1), element),
        Err(_error) => Err(ShapeError::Memory),
    }
}

const LARGE: Result<u32, ShapeError> = Err(ShapeError::TooLarge);

const CELLS: [(i64, Element, Result<u32, ShapeError>); 10] = [
    (1_048_576, Element::Char, Ok(1_048_576)),
    (1_048_577, Element::Char, LARGE),
    (i64::MAX, Element::Char, LARGE),
    (1_048_576, Element::Nothing, Ok(0)),
    (1_048_577, Element::Nothing, LARGE),
    (1_024, Element::Row(1_024), Ok(1_048_576)),
    (1_025, Element::Row(1_024), LARGE),
    (1, Element::Row(1_048_576), Ok(1_048_576)),
    (2, Element::Row(1_048_576), LARGE),
    (1, Element::Row(1_048_577), LARGE),
];

// The first row whose cells are others, and those.
fn other_cells(alloc: Global) -> Option<(usize, Result<u32, ShapeError>)> {
    for (number, (count, element, want)) in CELLS.iter().enumerate() {
        let found = row_cells(alloc, *count, *element);
        if found != *want {
            return Some((number, found));
        }
    }
    None
}

#[test]
fn a_row_has_up_to_1048576_cells_and_elements(rt: HostRuntime) {
    assert_eq!(rt; other_cells(rt.alloc()), None);
}

fn named(alloc: Global, name: &[u8], shape: ShapeId) -> Result<FieldOf, AllocError>
    ensures { IfOk result (λ field. field_of field
        ≡ record { name = name.now; offset = 9; shape = shape.0 }) }
{
    Ok(FieldOf {
        name: name.to_vec(alloc)?,
        offset: 9,
        shape,
    })
}

// a: `nothing`; b: `row`; A: INTEGER
fn put_fields(
    alloc: Global,
    fields: &mut Vec<FieldOf>,
    nothing: ShapeId,
    row: ShapeId,
) -> Result<(), AllocError>
    requires { fields.old.items ≡ [] }
    ensures { OnOk result (fields_of fields.new.items
        ≡ record { name = codes "a"; offset = 9; shape = nothing.0 }
        ∷ record { name = codes "b"; offset = 9; shape = row.0 }
        ∷ record { name = codes "A"; offset = 9; shape = 0 } ∷ []) }
{
    fields.push(named(alloc, b"a", nothing)?)?;
    fields.push(named(alloc, b"b", row)?)?;
    fields.push(named(alloc, b"A", INTEGER)?)?;
    Ok(())
}

// RECORD a: RECORD END; b: row; A: INTEGER END, where `nothing` is a record with no fields
fn add_record(
    alloc: Global,
    shapes: &mut Shapes,
    nothing: ShapeId,
    row: ShapeId,
) -> Result<ShapeId, ShapeError>
    requires nothing { nothing.0 < length shapes.old }
    requires row { row.0 < length shapes.old }
    requires integer { 0 < length shapes.old }
    requires room { length shapes.old < 2 ^ 32 }
    ensures within { IfOk result (λ id. id.0 < length shapes.new) }
    ensures kept { length shapes.old ≤ length shapes.new }
{
    let mut fields = Vec::new(alloc);
    match put_fields(alloc, &mut fields, nothing, row) {
        Ok(()) => shapes.add(alloc, Shape::Fields { fields }),
        Err(_error) => Err(ShapeError::Memory),
    }
}

// A field's offset and shape.
type Found = Option<(u32, ShapeId)>;

// The fields of that record, one that it has not, and one of the row.
fn find_fields(shapes: &Shapes, row: ShapeId, both: ShapeId) -> [Found; 5]
    requires row { row.0 < length shapes.now }
    requires both { both.0 < length shapes.now }
{
    [
        shapes.field(both, b"a"),
        shapes.field(both, b"b"),
        shapes.field(both, b"A"),
        shapes.field(both, b"B"),
        shapes.field(row, b"a"),
    ]
}

// The cells of a record, and fields.
type Fields = (u32, [Found; 5]);

// Adds a record with no fields, ARRAY [1..3] OF CHAR, and the record of both to a new table.
fn add_fields(alloc: Global, shapes: &mut Shapes) -> Result<Fields, ShapeError>
    requires { shapes.old ≡ first_shapes }
{
    let nothing = shapes.add(
        alloc,
        Shape::Fields {
            fields: Vec::new(alloc),
        },
    )?;
    let row = add_row(alloc, shapes, 3, CHAR)?;
    let both = add_record(alloc, shapes, nothing, row)?;
    Ok((shapes.cells(both), find_fields(shapes, row, both)))
}

// The same in a table of its own.
fn show_fields(alloc: Global) -> Result<Fields, ShapeError> {
    match Shapes::new(alloc) {
        Ok(mut shapes) => add_fields(alloc, &mut shapes),
        Err(_error) => Err(ShapeError::Memory),
    }
}

// The record with no fields is shape 3, and the row shape 5.
const FIELDS: [Found; 5] = [
    Some((0, ShapeId(3))),
    Some((0, ShapeId(5))),
    Some((3, INTEGER)),
    None,
    None,
];

#[test]
fn fields_stand_behind_each_other(rt: HostRuntime) {
    assert_eq!(rt; show_fields(rt.alloc()), Ok((4, FIELDS)));
}

// The least and the greatest value of a shape, and its base.
type Bounds = (Option<(i64, i64)>, ShapeId);

// Those of a shape.
fn bounds(shapes: &Shapes, id: ShapeId) -> Bounds
    requires { id.0 < length shapes.now }
{
    match shapes.range(id) {
        Some(range) => (Some((range.low, range.high)), shapes.base(id)),
        None => (None, shapes.base(id)),
    }
}

// Those of the six shapes of a table.
fn all_bounds(shapes: &Shapes) -> [Bounds; 6]
    requires { 6 ≤ length shapes.now }
{
    [
        bounds(shapes, ShapeId(0)),
        bounds(shapes, ShapeId(1)),
        bounds(shapes, ShapeId(2)),
        bounds(shapes, ShapeId(3)),
        bounds(shapes, ShapeId(4)),
        bounds(shapes, ShapeId(5)),
    ]
}

// Those, how many cells the array has, and whether it is one.
type Colours = ([Bounds; 6], u32, bool);

// Adds (red, green, blue), [1..2] of it, and ARRAY of BOOLEAN over that to a new table.
fn add_colours(alloc: Global, shapes: &mut Shapes) -> Result<Colours, ShapeError>
    requires { shapes.old ≡ first_shapes }
{
    let base = shapes.add(alloc, Shape::Listed { count: 3 })?;
    let range = Range { low: 1, high: 2 };
    let index = shapes.add(alloc, Shape::Sub { base, range })?;
    let element = BOOLEAN;
    let row = shapes.add(alloc, Shape::Row { index, element })?;
    let is_row = matches!(shapes.get(row), Shape::Row { .. });
    Ok((all_bounds(shapes), shapes.cells(row), is_row))
}

// The same in a table of its own.
fn show_colours(alloc: Global) -> Result<Colours, ShapeError> {
    match Shapes::new(alloc) {
        Ok(mut shapes) => add_colours(alloc, &mut shapes),
        Err(_error) => Err(ShapeError::Memory),
    }
}

const BOUNDS: [Bounds; 6] = [
    (Some((i64::MIN, i64::MAX)), INTEGER),
    (Some((0, 255)), CHAR),
    (Some((0, 1)), BOOLEAN),
    (Some((0, 2)), ShapeId(3)),
    (Some((1, 2)), ShapeId(3)),
    (None, ShapeId(5)),
];

#[test]
fn ranges_and_bases(rt: HostRuntime) {
    assert_eq!(rt; show_colours(rt.alloc()), Ok((BOUNDS, 2, true)));
}

// What a name stands for at a token.
fn meaning(scopes: &Scopes, name: &[u8], at: u32) -> Option<Entry> {
    match scopes.find(name, at) {
        Some(id) => Some(scopes.entry(id)),
        None => None,
    }
}

const OUTER: Entry = Entry::Routine(1);

const INNER: Entry = Entry::Variable(CHAR, Access::Local(2));

// Opens a block.
fn open(alloc: Global, scopes: &mut Scopes) -> Result<(), DeclareError>
    ensures { OnOk result (scopes.new ≡ with_new_block scopes.old) }
{
    match scopes.push_block(alloc) {
        Ok(()) => Ok(()),
        Err(_error) => Err(DeclareError::Memory),
    }
}

// What a name stands for at two places.
type Meanings = (Option<Entry>, Option<Entry>);

// Declares `x` from `outer` on, and in a block on that from `inner` on.
fn declare_in_two(
    alloc: Global,
    scopes: &mut Scopes,
    outer: u32,
    inner: u32,
) -> Result<(), DeclareError>
    requires { scopes.old ≡ first_blocks }
    ensures { OnOk result (0 < length scopes.new.below) }
{
    open(alloc, scopes)?;
    scopes.declare(alloc, b"x", outer, OUTER)?;
    open(alloc, scopes)?;
    scopes.declare(alloc, b"x", inner, INNER)?;
    Ok(())
}

// What `x` stands for at a token in both blocks, and at the token 9 where the higher one is closed.
fn mean_in_two(
    alloc: Global,
    scopes: &mut Scopes,
    outer: u32,
    inner: u32,
    at: u32,
) -> Result<Meanings, DeclareError>
    requires { scopes.old ≡ first_blocks }
{
    declare_in_two(alloc, scopes, outer, inner)?;
    let both = meaning(scopes, b"x", at);
    scopes.pop_block();
    Ok((both, meaning(scopes, b"x", 9)))
}

// What `x` and `X` stand for in one block, where each is found as it was declared, and `X` is
// refused once more.
fn declare_cases(alloc: Global, scopes: &mut Scopes) -> Result<Meanings, DeclareError>
    requires { scopes.old ≡ first_blocks }
{
    let (small, large) = declare_both(alloc, scopes)?;
    let found = (scopes.find(b"x", 0), scopes.find(b"X", 0));
    let again = scopes.declare(alloc, b"X", 0, Entry::Bad);
    if found != (Some(small), Some(large)) || again != Err(DeclareError::Twice(large)) {
        return Ok((None, None));
    }
    Ok((meaning(scopes, b"x", 0), meaning(scopes, b"X", 0)))
}

// Declares both.
fn declare_both(alloc: Global, scopes: &mut Scopes) -> Result<(Id, Id), DeclareError>
    requires { scopes.old ≡ first_blocks }
    ensures { OnOk result (entry_count scopes.new < 2 ^ 32) }
{
    open(alloc, scopes)?;
    let small = scopes.declare(alloc, b"x", 0, OUTER)?;
    let large = scopes.declare(alloc, b"X", 0, INNER)?;
    Ok((small, large))
}

// What TRUE stands for before and behind its declaration at the token 4.
fn redeclare(alloc: Global, scopes: &mut Scopes) -> Result<Meanings, DeclareError>
    requires { scopes.old ≡ first_blocks }
{
    open(alloc, scopes)?;
    scopes.declare(alloc, b"TRUE", 4, OUTER)?;
    Ok((meaning(scopes, b"TRUE", 3), meaning(scopes, b"TRUE", 4)))
}

// What is done with new scopes.
#[derive(Clone, Copy)]
enum Act {
    // Finds this name, at the tokens 0 and 9.
    Find(&'static str),
    // Declares TRUE from the token 4 on, and finds it at 3 and 4.
    Redeclare,
    // Declares `x` and `X`, and finds both.
    Both,
    // Declares `x` from each token on in a block of its own. Finds it at the last, and at 9 in the
    // lower block.
    Two(u32, u32, u32),
}

// What is found.
fn act_in(alloc: Global, scopes: &mut Scopes, act: Act) -> Result<Meanings, DeclareError>
    requires { scopes.old ≡ first_blocks }
{
    match act {
        Act::Find(name) => {
            let name = name.as_bytes();
            Ok((meaning(scopes, name, 0), meaning(scopes, name, 9)))
        }
        Act::Redeclare => redeclare(alloc, scopes),
        Act::Both => declare_cases(alloc, scopes),
        Act::Two(outer, inner, at) => mean_in_two(alloc, scopes, outer, inner, at),
    }
}

// The same in new scopes.
fn meanings(alloc: Global, act: Act) -> Result<Meanings, DeclareError> {
    match Scopes::new(alloc) {
        Ok(mut scopes) => act_in(alloc, &mut scopes, act),
        Err(_error) => Err(DeclareError::Memory),
    }
}

const INTEGERS: Option<Entry> = Some(Entry::Named(INTEGER));

const CHARS: Option<Entry> = Some(Entry::Named(CHAR));

const BOOLEANS: Option<Entry> = Some(Entry::Named(BOOLEAN));

const YES: Option<Entry> = Some(Entry::Constant(BOOLEAN, 1));

const NO: Option<Entry> = Some(Entry::Constant(BOOLEAN, 0));

const MEANINGS: [(Act, Meanings); 17] = [
    (Act::Find("INTEGER"), (INTEGERS, INTEGERS)),
    (Act::Find("CHAR"), (CHARS, CHARS)),
    (Act::Find("BOOLEAN"), (BOOLEANS, BOOLEANS)),
    (Act::Find("TRUE"), (YES, YES)),
    (Act::Find("FALSE"), (NO, NO)),
    (Act::Find("true"), (None, None)),
    (Act::Redeclare, (YES, Some(OUTER))),
    (Act::Both, (Some(OUTER), Some(INNER))),
    (Act::Two(3, 7, 2), (None, Some(OUTER))),
    (Act::Two(3, 7, 3), (Some(OUTER), Some(OUTER))),
    (Act::Two(3, 7, 6), (Some(OUTER), Some(OUTER))),
    (Act::Two(3, 7, 7), (Some(INNER), Some(OUTER))),
    (Act::Two(7, 3, 2), (None, Some(OUTER))),
    (Act::Two(7, 3, 3), (Some(INNER), Some(OUTER))),
    (Act::Two(7, 3, 9), (Some(INNER), Some(OUTER))),
    (Act::Two(5, 5, 4), (None, Some(OUTER))),
    (Act::Two(5, 5, 5), (Some(INNER), Some(OUTER))),
];

// The first row whose meanings are others, and those.
fn other_meanings(alloc: Global) -> Option<(usize, Result<Meanings, DeclareError>)> {
    for (number, (act, want)) in MEANINGS.iter().enumerate() {
        let found = meanings(alloc, *act);
        if found != Ok(*want) {
            return Some((number, found));
        }
    }
    None
}

#[test]
fn the_highest_block_in_which_a_name_is_visible_counts(rt: HostRuntime) {
    assert_eq!(rt; other_meanings(rt.alloc()), None);
}
