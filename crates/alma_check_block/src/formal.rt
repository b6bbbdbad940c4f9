// Parameters.
ghost use Rattle.std.specs.Prelude.{◌≡◌, ◌+◌, ◌≤◌, Some, None};
ghost use Rattle.alma_base.specs.Limits.{cell_limit};
ghost use Rattle.alma_rules.specs.Scene.{is_structured, cells};
ghost use Rattle.alma_rules.specs.Types as types;
ghost use Rattle.alma_rules.specs.Decls as rules;
ghost use Rattle.alma_rules.specs.View as view;
ghost use Rattle.alma_check_block.specs.Shown.{Follows, param_shaped};

use crate::entry::enter_name;
use crate::frame::Frame;
use crate::open::next_number;
use alma_base::NoMemory;
use alma_check_type::{Reader, read_type_name, redeclared};
use alma_ir::{ArgKind, Param};
use alma_names::{Access, Entry, ShapeId};
use alma_tree::{Formal, Mode, Name, Params};
use std::alloc::Global;

fn param_kind(structured: bool, mode: Option<Mode>) -> ArgKind
    ensures { result ≡ rules.param_kind structured mode }
{
    match mode {
        None => {
            if structured {
                ArgKind::Cells
            } else {
                ArgKind::Value
            }
        }
        Some(Mode::Var) => ArgKind::Place,
        Some(Mode::Mix) => {
            if structured {
                ArgKind::Place
            } else {
                ArgKind::Mix
            }
        }
    }
}

// The declared cells of a parameter.
fn declared_cells(mode: Option<Mode>, cells: u32) -> u32
    ensures { result ≡ rules.declared_cells mode cells }
{
    match mode {
        None => cells,
        Some(_mode) => 1,
    }
}

fn param_slots(kind: ArgKind, cells: u32) -> u32
    ensures { result ≡ rules.param_slots kind cells }
{
    match kind {
        ArgKind::Value => 1,
        ArgKind::Place => 1,
        ArgKind::Mix => 2,
        ArgKind::Cells => cells,
    }
}

fn param_access(mode: Option<Mode>, slot: u32) -> Access
    ensures { result ≡ rules.param_access mode slot }
{
    match mode {
        None => Access::Local(slot),
        Some(_mode) => Access::Param(slot),
    }
}

// One more parameter in the frame, which it fits.
fn push_param(
    alloc: Global,
    reader: &mut Reader,
    frame: &mut Frame,
    name: &Name,
    from: u32,
    mode: Option<Mode>,
    shape: u32,
) -> Result<(), NoMemory>
    requires fits { frame.old.declared + rules.declared_cells mode (cells reader.old shape)
        ≤ cell_limit }
    ensures { Follows reader.old frame.old reader.new frame.new result
        (λ f. rules.with_param f (view.view_name name.now) from mode shape
        (rules.param_kind (is_structured f.scene shape) mode)) }
{
    let slot = frame.slots;
    let cells = reader.env().cells(shape);
    let range = reader.env().range(shape);
    let kind = param_kind(reader.env().is_structured(shape), mode);
    frame.slots = slot.checked_add(param_slots(kind, cells)).ok_or(NoMemory)?;
    frame.declared += declared_cells(mode, cells);
    frame.params.push(Param {
        kind,
        slot,
        cells,
        range,
    })?;
    let access = param_access(mode, slot);
    reader.declare(alloc, name, from, Entry::Variable(ShapeId(shape), access))
}

// A parameter that is the first of its name, and whose type is not Bad.
fn take_param(
    alloc: Global,
    reader: &mut Reader,
    frame: &mut Frame,
    name: &Name,
    from: u32,
    mode: Option<Mode>,
    shape: u32,
) -> Result<(), NoMemory>
    ensures { Follows reader.old frame.old reader.new frame.new result
        (λ f. rules.within_limit (view.view_name name.now) f
        (rules.with_param f (view.view_name name.now) from mode shape
        (rules.param_kind (is_structured f.scene shape) mode))) }
{
    if frame.fits(declared_cells(mode, reader.env().cells(shape))) {
        return push_param(alloc, reader, frame, name, from, mode, shape);
    }
    let access = param_access(mode, frame.slots);
    frame.refuse(name);
    reader.declare(alloc, name, from, Entry::Variable(ShapeId(shape), access))
}

// A parameter whose type is not Bad, apart from its formal.
fn place_param(
    alloc: Global,
    reader: &mut Reader,
    frame: &mut Frame,
    name: &Name,
    from: u32,
    mode: Option<Mode>,
    shape: u32,
) -> Result<(), NoMemory>
    ensures { Follows reader.old frame.old reader.new frame.new result
        (λ f. param_shaped f from mode shape (view.view_name name.now)) }
{
    if reader.is_first(name) {
        return take_param(alloc, reader, frame, name, from, mode, shape);
    }
    frame.add_fault(redeclared(reader, name));
    Ok(())
}

// A parameter whose type is not Bad.
fn declare_shaped(
    alloc: Global,
    reader: &mut Reader,
    frame: &mut Frame,
    name: &Name,
    from: u32,
    mode: Option<Mode>,
    shape: u32,
) -> Result<(), NoMemory>
    ensures { Follows reader.old frame.old reader.new frame.new result
        (λ f. rules.param_in f from mode (Some shape) (view.view_name name.now)) }
{
    place_param(alloc, reader, frame, name, from, mode, shape)?;
    frame
        .formals
        .push(Some(alma_check_rules::Formal { mode, shape }))?;
    Ok(())
}

// A parameter whose type is Bad.
fn declare_bad(
    alloc: Global,
    reader: &mut Reader,
    frame: &mut Frame,
    name: &Name,
    from: u32,
    mode: Option<Mode>,
) -> Result<(), NoMemory>
    ensures { Follows reader.old frame.old reader.new frame.new result
        (λ f. rules.param_in f from mode None (view.view_name name.now)) }
{
    enter_name(alloc, reader, frame, name, from, None, Entry::Bad)?;
    frame.formals.push(None)?;
    Ok(())
}

fn declare_param(
    alloc: Global,
    reader: &mut Reader,
    frame: &mut Frame,
    name: &Name,
    from: u32,
    mode: Option<Mode>,
    shape: Option<u32>,
) -> Result<(), NoMemory>
    ensures { Follows reader.old frame.old reader.new frame.new result
        (λ f. rules.param_in f from mode shape (view.view_name name.now)) }
{
    match shape {
        None => declare_bad(alloc, reader, frame, name, from, mode),
        Some(shape) => declare_shaped(alloc, reader, frame, name, from, mode, shape),
    }
}

fn declare_params(
    alloc: Global,
    reader: &mut Reader,
    frame: &mut Frame,
    names: &[Name],
    from: u32,
    mode: Option<Mode>,
    shape: Option<u32>,
) -> Result<(), NoMemory>
    ensures { Follows reader.old frame.old reader.new frame.new result
        (λ f. rules.params_in f from mode shape (view.names_of names.now)) }
{
    for name in names {
        declare_param(alloc, reader, frame, name, from, mode, shape)?;
    }
    Ok(())
}

// Parameters of one type, visible behind it.
fn read_formal(
    alloc: Global,
    reader: &mut Reader,
    frame: &mut Frame,
    formal: &Formal,
) -> Result<(), NoMemory>
    ensures { Follows reader.old frame.old reader.new frame.new result
        (λ f. rules.formal_in f (view.view_formal formal.now)
        (types.read_type_name f.scene (view.view_name formal.now.type_name))) }
{
    let from = next_number(formal.type_name.token)?;
    let mode = formal.mode;
    let reading = read_type_name(reader.env(), &formal.type_name)?;
    let shape = reading.value;
    declare_param(alloc, reader, frame, &formal.names.first, from, mode, shape)?;
    declare_params(alloc, reader, frame, &formal.names.more, from, mode, shape)?;
    frame.add_fault(reading.fault);
    Ok(())
}

fn read_formals(
    alloc: Global,
    reader: &mut Reader,
    frame: &mut Frame,
    formals: &[Formal],
) -> Result<(), NoMemory>
    ensures { Follows reader.old frame.old reader.new frame.new result
        (λ f. rules.read_formals f (view.more_formals_of formals.now)) }
{
    for formal in formals {
        read_formal(alloc, reader, frame, formal)?;
    }
    Ok(())
}

/// The parameters of a heading.
pub fn read_params(
    alloc: Global,
    reader: &mut Reader,
    frame: &mut Frame,
    params: &Option<Params>,
) -> Result<(), NoMemory>
    ensures { Follows reader.old frame.old reader.new frame.new result
        (λ f. rules.read_formals f (rules.formals_of (view.params_of params.now))) }
{
    match params {
        None => Ok(()),
        Some(params) => match &params.formals {
            None => Ok(()),
            Some(formals) => {
                read_formal(alloc, reader, frame, &formals.first)?;
                read_formals(alloc, reader, frame, &formals.more)
            }
        },
    }
}
