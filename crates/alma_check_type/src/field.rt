// Fields of records.
ghost use Rattle.std.specs.Prelude.{◌≡◌, ◌∷◌, ◌++◌, [], ℕ, List, true, false, IfOk};
ghost use Rattle.alma_scan.specs.Tokens.{Lexeme};
ghost use Rattle.alma_names.specs.Shapes.{PlainField};
ghost use Rattle.alma_rules.specs.Numbered as tree;
ghost use Rattle.alma_rules.specs.Types as types;
ghost use Rattle.alma_rules.specs.View.{view_name, view_names, names_of};
ghost use Rattle.alma_check_type.specs.Told.{Told, tells, tells_of, fault_of, formed_of};
ghost use Rattle.alma_check_type.specs.Inner.Fields as spec;

use crate::reader::Reader;
use crate::reading::{BrokenRule, Reading, ShapeOrLimit, earlier};
use crate::shape::add_record;
use alma_base::{CheckFault, NoMemory};
use alma_tree::{Name, Names};
use indexmap::IndexMap;
use std::alloc::Global;

/// The fields of a record so far: the first rule that is broken in them, whether they are Bad, and
/// the names with their shapes. Where the fields are Bad, the shapes say nothing.
#[derive(Drop)]
pub struct Fields {
    pub fault: Option<BrokenRule>,
    pub is_bad: bool,
    pub names: IndexMap<Vec<u8>, u32>,
}

/// No fields.
pub fn no_fields(alloc: Global) -> Fields
    ensures told { spec.told_fields result ≡ spec.nothing_told }
    ensures names { (tokens : List Lexeme) → spec.Knows tokens result.names.entries [] }
{
    Fields {
        fault: None,
        is_bad: false,
        names: IndexMap::new(alloc),
    }
}

// Whether an earlier field has this name.
fn is_field(reader: &Reader, fields: &Fields, name: &Name) -> bool
    ensures { (before : List tree.Name)
        → spec.Knows reader.now.tokens fields.now.names.entries before
        → result ≡ spec.among reader.now.tokens
        (spec.text_in reader.now.tokens name.now.token) before }
{
    match fields.names.get(reader.env().text(name.token)) {
        Some(_shape) => true,
        None => false,
    }
}

// A field whose name an earlier one has.
fn twice(fields: Fields, name: &Name) -> Fields
    ensures told { (tokens : List Lexeme) (shape : ℕ) → spec.told_fields result
        ≡ spec.field_as true tokens shape (view_name name.now) (spec.told_fields fields) }
    ensures names { result.names.entries ≡ fields.names.entries }
{
    let broken = BrokenRule {
        node: name.node,
        fault: CheckFault::Redeclared,
    };
    Fields {
        fault: earlier(fields.fault, Some(broken)),
        is_bad: true,
        names: fields.names,
    }
}

// A field whose name no earlier one has.
fn once(
    alloc: Global,
    reader: &Reader,
    fields: Fields,
    name: &Name,
    shape: u32,
) -> Result<Fields, NoMemory>
    ensures { (before : List tree.Name)
        → spec.Knows reader.now.tokens fields.names.entries before
        → spec.among reader.now.tokens (spec.text_in reader.now.tokens name.now.token) before
        ≡ false → IfOk result (λ r. (spec.told_fields r ≡ spec.field_as false reader.now.tokens
        shape (view_name name.now) (spec.told_fields fields))
        × spec.Knows reader.now.tokens r.names.entries (before ++ view_name name.now ∷ [])) }
{
    let fault = fields.fault;
    let is_bad = fields.is_bad;
    let mut names = fields.names;
    let text = reader.env().text(name.token).to_vec(alloc)?;
    names.insert(text, shape)?;
    Ok(Fields {
        fault,
        is_bad,
        names,
    })
}

// One more field.
fn add_field(
    alloc: Global,
    reader: &Reader,
    fields: Fields,
    name: &Name,
    shape: u32,
) -> Result<Fields, NoMemory>
    ensures { (before : List tree.Name)
        → spec.Knows reader.now.tokens fields.names.entries before
        → IfOk result (λ r. (spec.told_fields r ≡ spec.with_field reader.now.tokens
        before shape (view_name name.now) (spec.told_fields fields))
        × spec.Knows reader.now.tokens r.names.entries (before ++ view_name name.now ∷ [])) }
{
    if is_field(reader, &fields, name) {
        return Ok(twice(fields, name));
    }
    once(alloc, reader, fields, name, shape)
}

// More fields of one shape.
fn add_fields(
    alloc: Global,
    reader: &Reader,
    begun: Fields,
    names: &[Name],
    shape: u32,
) -> Result<Fields, NoMemory>
    ensures { (before : List tree.Name)
        → spec.Knows reader.now.tokens begun.names.entries before
        → IfOk result (λ r. (spec.told_fields r ≡ spec.with_fields reader.now.tokens
        before shape (names_of names.now) (spec.told_fields begun))
        × spec.Knows reader.now.tokens r.names.entries
        (before ++ names_of names.now)) }
{
    let mut fields = begun;
    for name in names {
        fields = add_field(alloc, reader, fields, name, shape)?;
    }
    Ok(fields)
}

// Fields of one type begin, which are Bad where it is.
fn begin(fields: Fields, shape: Option<u32>) -> Fields
    ensures told { spec.told_fields result ≡ spec.begun shape (spec.told_fields fields) }
    ensures names { result.names.entries ≡ fields.names.entries }
{
    match shape {
        None => Fields {
            fault: fields.fault,
            is_bad: true,
            names: fields.names,
        },
        Some(_shape) => fields,
    }
}

// Fields with a rule that is broken behind them.
fn behind(fields: Fields, fault: Option<BrokenRule>) -> Fields
    ensures told { spec.told_fields result ≡ spec.behind (spec.told_fields fields)
        (fault_of fault) }
    ensures names { result.names.entries ≡ fields.names.entries }
{
    Fields {
        fault: earlier(fields.fault, fault),
        is_bad: fields.is_bad,
        names: fields.names,
    }
}

fn shape_or_zero(shape: Option<u32>) -> u32
    ensures { result ≡ spec.shape_or_zero shape }
{
    match shape {
        None => 0,
        Some(shape) => shape,
    }
}

/// Fields of one type behind others. They are Bad where the type is.
pub fn join_fields(
    alloc: Global,
    reader: &Reader,
    fields: Fields,
    names: &Names,
    shape: Result<Reading<u32>, NoMemory>,
) -> Result<Fields, NoMemory>
    ensures { (before : List tree.Name) (t : Told ℕ)
        → spec.Knows t.scene.tokens fields.names.entries before
        → IfOk shape (λ x. t ≡ tells x reader.now)
        → IfOk result (λ r. (spec.told_list
        (spec.join_fields (spec.shape_fields t.scene.tokens before
        t.value (types.all_names (view_names names.now)) (spec.told_fields fields)) t) t.scene
        ≡ spec.told_list (spec.told_fields r) reader.now)
        × spec.Knows reader.now.tokens r.names.entries
        (before ++ types.all_names (view_names names.now))) }
{
    let shape = shape?;
    let number = shape_or_zero(shape.value);
    let begun = begin(fields, shape.value);
    let first = add_field(alloc, reader, begun, &names.first, number)?;
    let all = add_fields(alloc, reader, first, &names.more, number)?;
    Ok(behind(all, shape.fault))
}

/// A record of its fields.
pub fn join_record(
    alloc: Global,
    reader: &mut Reader,
    fields: Result<Fields, NoMemory>,
) -> Result<Reading<ShapeOrLimit>, NoMemory>
    ensures { (t : Told (List PlainField)) → IfOk fields (λ x. t
        ≡ spec.told_list (spec.told_fields x) reader.old)
        → IfOk result (λ r. spec.told_record t ≡ tells_of formed_of r
        reader.new) }
{
    let fields = fields?;
    if fields.is_bad {
        return Ok(Reading {
            fault: fields.fault,
            value: None,
        });
    }
    let formed = add_record(alloc, reader, &fields.names)?;
    Ok(Reading {
        fault: fields.fault,
        value: Some(formed),
    })
}
