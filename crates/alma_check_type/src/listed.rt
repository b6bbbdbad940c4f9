// Enumerations.
#![tactic(auto, using(crate::proofs::ListedSteps::lists, crate::proofs::Tells::steps, std::proofs::lemmas::Grind::common_steps))]

ghost use Rattle.std.specs.Prelude.{◌≡◌, ◌+◌, ◌<◌, Some, None, length, OnOk, IfOk};
ghost use Rattle.alma_rules.specs.Judgement.{broken_at};
ghost use Rattle.alma_rules.specs.Answers.{first};
ghost use Rattle.alma_rules.specs.Types as types;
ghost use Rattle.alma_rules.specs.View.{view_name, view_names, names_of};
ghost use Rattle.alma_check_type.specs.Inner.Tables.{shape_of_formed};
ghost use Rattle.alma_check_type.specs.Told.{told, tells_of, broken_of, fault_of, formed_of};

use crate::reader::Reader;
use crate::reading::{BrokenRule, Reading, ShapeOrLimit};
use crate::shape::add_listed;
use alma_base::{CheckFault, NoMemory};
use alma_names::{Entry, ShapeId};
use alma_tree::{Name, Names};
use std::alloc::Global;

/// The broken rule of a name that its block declares earlier in the text.
pub fn redeclared(reader: &Reader, name: &Name) -> Option<BrokenRule>
    ensures { fault_of result ≡ first (broken_at name.now.node
        (types.redeclaration_rules reader.now (view_name name.now))) }
{
    if reader.is_first(name) {
        return None;
    }
    Some(BrokenRule {
        node: name.node,
        fault: CheckFault::Redeclared,
    })
}

// The broken rule of the first of some names that their block declares earlier in the text.
fn redeclared_in(reader: &Reader, names: &[Name]) -> Option<BrokenRule>
    ensures { fault_of result ≡ first (types.redeclared_all reader.now
        (names_of names.now)) }
{
    for name in names {
        if !reader.is_first(name) {
            return redeclared(reader, name);
        }
    }
    None
}

fn redeclared_all(reader: &Reader, names: &Names) -> Option<BrokenRule>
    ensures { fault_of result ≡ first (types.redeclared_all reader.now
        (types.all_names (view_names names.now))) }
{
    if !reader.is_first(&names.first) {
        return redeclared(reader, &names.first);
    }
    redeclared_in(reader, &names.more)
}

/// The token of the last of some names.
pub fn last_token(names: &Names) -> u32
    ensures { result ≡ types.last_token (view_name names.now.first)
        (names_of names.now.more.items) }
{
    let mut token = names.first.token;
    for name in &names.more {
        token = name.token;
    }
    token
}

// The entry of a value of an enumeration, or Bad.
fn value_entry(shape: Option<u32>, number: u32) -> Entry
    ensures { result ≡ types.value_entry shape number }
{
    match shape {
        None => Entry::Bad,
        Some(shape) => Entry::Constant(ShapeId(shape), i64::from(number)),
    }
}

// The names stand for the values of a shape from a number on, or are Bad.
fn declare_from(
    alloc: Global,
    reader: &mut Reader,
    from: u32,
    shape: Option<u32>,
    number: u32,
    names: &[Name],
) -> Result<(), NoMemory>
    ensures { OnOk result (reader.new ≡ types.declare_values
        reader.old from shape number (names_of names.now)) }
{
    let mut next = number;
    for name in names {
        reader.declare(alloc, name, from, value_entry(shape, next))?;
        next = next.checked_add(1).ok_or(NoMemory)?;
    }
    Ok(())
}

fn declare_values(
    alloc: Global,
    reader: &mut Reader,
    from: u32,
    shape: Option<u32>,
    names: &Names,
) -> Result<(), NoMemory>
    ensures { OnOk result (reader.new ≡ types.declare_values
        reader.old from shape 0 (types.all_names (view_names names.now))) }
{
    reader.declare(alloc, &names.first, from, value_entry(shape, 0))?;
    declare_from(alloc, reader, from, shape, 1, &names.more)
}

// The number of names.
fn count(names: &Names) -> Result<u32, NoMemory>
    ensures count { IfOk result (λ n. n ≡ length
        (types.all_names (view_names names.now))) }
    ensures some { IfOk result (λ n. 0 < n) }
{
    match u32::try_from(names.more.len()) {
        Ok(count) => count.checked_add(1).ok_or(NoMemory),
        Err(_error) => Err(NoMemory),
    }
}

// The shape, where it is not past a limit.
fn shape_of(formed: ShapeOrLimit) -> Option<u32>
    ensures { result ≡ shape_of_formed (formed_of formed) }
{
    match formed {
        ShapeOrLimit::Shape(shape) => Some(shape),
        ShapeOrLimit::TooLarge => None,
    }
}

// The token behind the closing parenthesis of some names.
fn token_behind(names: &Names) -> Result<u32, NoMemory>
    ensures { IfOk result (λ t. t ≡ types.last_token (view_name names.now.first)
        (names_of names.now.more.items) + 2) }
{
    last_token(names).checked_add(2).ok_or(NoMemory)
}

// An enumeration of which a name is declared earlier.
fn read_twice(
    alloc: Global,
    reader: &mut Reader,
    names: &Names,
    from: u32,
    broken: BrokenRule,
) -> Result<Reading<ShapeOrLimit>, NoMemory>
    ensures { Some (broken_of broken) ≡ first (types.redeclared_all reader.old
        (types.all_names (view_names names.now))) → IfOk result (λ r. told (types.read_listed
        reader.old (types.all_names (view_names names.now)) from)
        ≡ tells_of formed_of r reader.new) }
{
    declare_values(alloc, reader, from, None, names)?;
    Ok(Reading {
        fault: Some(broken),
        value: None,
    })
}

// An enumeration of which no name is declared earlier.
fn read_once(
    alloc: Global,
    reader: &mut Reader,
    names: &Names,
    from: u32,
) -> Result<Reading<ShapeOrLimit>, NoMemory>
    ensures { None ≡ first (types.redeclared_all reader.old
        (types.all_names (view_names names.now))) → IfOk result (λ r. told (types.read_listed
        reader.old (types.all_names (view_names names.now)) from)
        ≡ tells_of formed_of r reader.new) }
{
    let count = count(names)?;
    let formed = add_listed(alloc, reader, count)?;
    declare_values(alloc, reader, from, shape_of(formed), names)?;
    Ok(Reading {
        fault: None,
        value: Some(formed),
    })
}

/// An enumeration, whose names are visible behind the closing parenthesis.
pub fn read_listed(
    alloc: Global,
    reader: &mut Reader,
    names: &Names,
) -> Result<Reading<ShapeOrLimit>, NoMemory>
    ensures { IfOk result (λ r. told (types.read_listed reader.old
        (types.all_names (view_names names.now)) (types.last_token (view_name names.now.first)
        (names_of names.now.more.items) + 2)) ≡ tells_of formed_of r reader.new) }
{
    let from = token_behind(names)?;
    match redeclared_all(reader, names) {
        Some(broken) => read_twice(alloc, reader, names, from, broken),
        None => read_once(alloc, reader, names, from),
    }
}
