// Variables.
ghost use Rattle.std.specs.Prelude.{◌≡◌, ◌+◌, ◌≤◌, Some};
ghost use Rattle.alma_base.specs.Limits.{cell_limit};
ghost use Rattle.alma_rules.specs.Scene.{cells};
ghost use Rattle.alma_rules.specs.Types as types;
ghost use Rattle.alma_rules.specs.Decls as rules;
ghost use Rattle.alma_rules.specs.View as view;
ghost use Rattle.alma_check_block.specs.Shown.{Follows};

use crate::entry::{behind_type, enter_name};
use crate::frame::Frame;
use crate::type_node::read_type;
use alma_base::NoMemory;
use alma_check_type::{Reader, last_token, redeclared};
use alma_names::{Access, Entry, ShapeId};
use alma_tree::{Name, VarEntry};
use std::alloc::Global;

// How a variable is reached: one of the module is global.
fn variable_access(reader: &Reader, slot: u32) -> Access
    ensures { result ≡ rules.variable_access reader.now slot }
{
    if reader.env().scopes.depth() <= 1 {
        return Access::Global(slot);
    }
    Access::Local(slot)
}

// One more variable in the frame, which it fits.
fn push_variable(
    alloc: Global,
    reader: &mut Reader,
    frame: &mut Frame,
    name: &Name,
    from: u32,
    shape: u32,
) -> Result<(), NoMemory>
    requires fits { frame.old.declared + cells reader.old shape ≤ cell_limit }
    ensures { Follows reader.old frame.old reader.new frame.new result
        (λ f. rules.with_variable f (view.view_name name.now) from shape) }
{
    let slot = frame.slots;
    let cells = reader.env().cells(shape);
    let access = variable_access(reader, slot);
    let text = reader.env().text(name.token).to_vec(alloc)?;
    frame.slots = slot.checked_add(cells).ok_or(NoMemory)?;
    frame.declared += cells;
    frame.variables.push(alma_ir::Global {
        name: text,
        slot,
        cells,
    })?;
    reader.declare(alloc, name, from, Entry::Variable(ShapeId(shape), access))
}

// A variable that is the first of its name, and whose type is not Bad.
fn place_variable(
    alloc: Global,
    reader: &mut Reader,
    frame: &mut Frame,
    name: &Name,
    from: u32,
    shape: u32,
) -> Result<(), NoMemory>
    ensures { Follows reader.old frame.old reader.new frame.new result
        (λ f. rules.within_limit (view.view_name name.now) f
        (rules.with_variable f (view.view_name name.now) from shape)) }
{
    if frame.fits(reader.env().cells(shape)) {
        return push_variable(alloc, reader, frame, name, from, shape);
    }
    let access = variable_access(reader, frame.slots);
    frame.refuse(name);
    reader.declare(alloc, name, from, Entry::Variable(ShapeId(shape), access))
}

// A variable whose type is not Bad.
fn declare_shaped(
    alloc: Global,
    reader: &mut Reader,
    frame: &mut Frame,
    name: &Name,
    from: u32,
    shape: u32,
) -> Result<(), NoMemory>
    ensures { Follows reader.old frame.old reader.new frame.new result
        (λ f. rules.variable_in f from (Some shape) (view.view_name name.now)) }
{
    if reader.is_first(name) {
        return place_variable(alloc, reader, frame, name, from, shape);
    }
    frame.add_fault(redeclared(reader, name));
    Ok(())
}

fn declare_variable(
    alloc: Global,
    reader: &mut Reader,
    frame: &mut Frame,
    name: &Name,
    from: u32,
    shape: Option<u32>,
) -> Result<(), NoMemory>
    ensures { Follows reader.old frame.old reader.new frame.new result
        (λ f. rules.variable_in f from shape (view.view_name name.now)) }
{
    match shape {
        None => enter_name(alloc, reader, frame, name, from, None, Entry::Bad),
        Some(shape) => declare_shaped(alloc, reader, frame, name, from, shape),
    }
}

fn declare_variables(
    alloc: Global,
    reader: &mut Reader,
    frame: &mut Frame,
    names: &[Name],
    from: u32,
    shape: Option<u32>,
) -> Result<(), NoMemory>
    ensures { Follows reader.old frame.old reader.new frame.new result
        (λ f. rules.variables_in f from shape (view.names_of names.now)) }
{
    for name in names {
        declare_variable(alloc, reader, frame, name, from, shape)?;
    }
    Ok(())
}

// Variables of one type.
fn read_var(
    alloc: Global,
    reader: &mut Reader,
    frame: &mut Frame,
    entry: &VarEntry,
) -> Result<(), NoMemory>
    ensures { Follows reader.old frame.old reader.new frame.new result
        (λ f. rules.variables_of f (view.view_var entry.now)
        (types.read_type f.scene (view.view_type_node entry.now.type_node))) }
{
    let last = last_token(&entry.names);
    let from = behind_type(alloc, last, &entry.type_node)?;
    let reading = read_type(alloc, reader, &entry.type_node)?;
    let shape = reading.value;
    declare_variable(alloc, reader, frame, &entry.names.first, from, shape)?;
    declare_variables(alloc, reader, frame, &entry.names.more, from, shape)?;
    frame.add_fault(reading.fault);
    Ok(())
}

/// Variables of a block.
pub fn read_vars(
    alloc: Global,
    reader: &mut Reader,
    frame: &mut Frame,
    entries: &[VarEntry],
) -> Result<(), NoMemory>
    ensures { Follows reader.old frame.old reader.new frame.new result
        (λ f. rules.read_vars f (view.vars_of entries.now)) }
{
    for entry in entries {
        read_var(alloc, reader, frame, entry)?;
    }
    Ok(())
}
