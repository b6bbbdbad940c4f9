// Constants and types.
ghost use Rattle.std.specs.Prelude.{◌≡◌, ◌+◌, List, Option, option_map, OnOk, IfOk};
ghost use Rattle.alma_rules.specs.Judgement.{BrokenRule as RuleBroken};
ghost use Rattle.alma_rules.specs.Answers.{first};
ghost use Rattle.alma_rules.specs.Parts.{Typing};
ghost use Rattle.alma_rules.specs.Places.{width, mark_expr, mark_type};
ghost use Rattle.alma_rules.specs.Types as types;
ghost use Rattle.alma_rules.specs.Decls as rules;
ghost use Rattle.alma_rules.specs.View as view;
ghost use Rattle.alma_check_type.specs.Told.{fault_of, bound_of};
ghost use Rattle.alma_check_block.specs.Shown.{Follows, frame_with_scene, told_frame};

use crate::constant::read_constant;
use crate::frame::Frame;
use crate::type_node::read_type;
use alma_base::NoMemory;
use alma_check_marks::{width_of_expr, width_of_type};
use alma_check_type::{Bound, BrokenRule, Reader, redeclared};
use alma_names::{Entry, ShapeId};
use alma_tree::{ConstEntry, Expr, Name, TypeEntry, TypeNode};
use std::alloc::Global;

/// Declares a name in front of what it stands for, in which this rule is broken first.
pub fn enter_name(
    alloc: Global,
    reader: &mut Reader,
    frame: &mut Frame,
    name: &Name,
    from: u32,
    fault: Option<BrokenRule>,
    entry: Entry,
) -> Result<(), NoMemory>
    ensures { (f : rules.Frame) (faults : List RuleBroken)
        → frame_with_scene f.scene frame.old ≡ told_frame f → fault_of fault ≡ first faults
        → OnOk result (frame_with_scene reader.new frame.new
        ≡ told_frame (rules.enter f (view.view_name name.now) from faults reader.old entry)) }
{
    let twice = redeclared(reader, name);
    reader.declare(alloc, name, from, entry)?;
    frame.add_fault(twice);
    frame.add_fault(fault);
    Ok(())
}

// What a constant is declared as; Bad where its value is.
fn constant_entry(bound: Option<Bound>) -> Entry
    ensures { (t : Option Typing) → option_map bound_of t ≡ bound
        → result ≡ rules.constant_entry t }
{
    match bound {
        None => Entry::Bad,
        Some(bound) => match bound.constant {
            None => Entry::Bad,
            Some(value) => Entry::Constant(ShapeId(bound.shape), value),
        },
    }
}

fn type_entry(shape: Option<u32>) -> Entry
    ensures { result ≡ rules.type_entry shape }
{
    match shape {
        None => Entry::Bad,
        Some(shape) => Entry::Named(ShapeId(shape)),
    }
}

// The token behind so many tokens that begin two tokens behind this one, and the semicolon there.
fn behind_tokens(token: u32, count: u32) -> Result<u32, NoMemory>
    ensures { IfOk result (λ n. n ≡ token + 3 + count) }
{
    let start = token.checked_add(3).ok_or(NoMemory)?;
    start.checked_add(count).ok_or(NoMemory)
}

// The token behind an expression that begins two tokens behind this one, and the semicolon there.
fn behind_expr(alloc: Global, token: u32, expr: &Expr) -> Result<u32, NoMemory>
    ensures { IfOk result (λ n. n ≡ token + 3 + width (mark_expr (view.view_expr expr.now))) }
{
    let width = width_of_expr(alloc, expr)?;
    behind_tokens(token, width)
}

/// The token behind a type that begins two tokens behind this one, and the semicolon there.
pub fn behind_type(alloc: Global, token: u32, tree: &TypeNode) -> Result<u32, NoMemory>
    ensures { IfOk result (λ n.
        n ≡ token + 3 + width (mark_type (view.view_type_node tree.now))) }
{
    let width = width_of_type(alloc, tree)?;
    behind_tokens(token, width)
}

fn read_const(
    alloc: Global,
    reader: &mut Reader,
    frame: &mut Frame,
    entry: &ConstEntry,
) -> Result<(), NoMemory>
    ensures { Follows reader.old frame.old reader.new frame.new result
        (λ f. rules.constant_in f (view.view_const entry.now)
        (types.read_constant f.scene (view.view_expr entry.now.value))) }
{
    let from = behind_expr(alloc, entry.name.token, &entry.value)?;
    let reading = read_constant(alloc, reader, &entry.value)?;
    let value = constant_entry(reading.value);
    enter_name(
        alloc,
        reader,
        frame,
        &entry.name,
        from,
        reading.fault,
        value,
    )
}

/// Constants of a block.
pub fn read_consts(
    alloc: Global,
    reader: &mut Reader,
    frame: &mut Frame,
    entries: &[ConstEntry],
) -> Result<(), NoMemory>
    ensures { Follows reader.old frame.old reader.new frame.new result
        (λ f. rules.read_consts f (view.consts_of entries.now)) }
{
    for entry in entries {
        read_const(alloc, reader, frame, entry)?;
    }
    Ok(())
}

fn read_type_entry(
    alloc: Global,
    reader: &mut Reader,
    frame: &mut Frame,
    entry: &TypeEntry,
) -> Result<(), NoMemory>
    ensures { Follows reader.old frame.old reader.new frame.new result
        (λ f. rules.type_in f (view.view_type_entry entry.now)
        (types.read_type f.scene (view.view_type_node entry.now.type_node))) }
{
    let from = behind_type(alloc, entry.name.token, &entry.type_node)?;
    let reading = read_type(alloc, reader, &entry.type_node)?;
    let value = type_entry(reading.value);
    enter_name(
        alloc,
        reader,
        frame,
        &entry.name,
        from,
        reading.fault,
        value,
    )
}

/// Types of a block.
pub fn read_types(
    alloc: Global,
    reader: &mut Reader,
    frame: &mut Frame,
    entries: &[TypeEntry],
) -> Result<(), NoMemory>
    ensures { Follows reader.old frame.old reader.new frame.new result
        (λ f. rules.read_types f (view.types_of entries.now)) }
{
    for entry in entries {
        read_type_entry(alloc, reader, frame, entry)?;
    }
    Ok(())
}
