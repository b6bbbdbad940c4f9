// Headings.
ghost use Rattle.std.specs.Prelude.{◌≡◌, ℕ, List, Some, option_map, IfOk};
ghost use Rattle.alma_base.specs.declared.fault.CheckFault.{CheckFault as Rule};
ghost use Rattle.alma_rules.specs.Judgement.{broken_at, if_unbroken};
ghost use Rattle.alma_rules.specs.Scene.{Scene};
ghost use Rattle.alma_rules.specs.Answers.{first};
ghost use Rattle.alma_rules.specs.Decls as rules;
ghost use Rattle.alma_rules.specs.View as view;
ghost use Rattle.alma_check_rules.specs.Views.{heading_view};
ghost use Rattle.alma_check_type.specs.Told.{fault_of};
ghost use Rattle.alma_check_type.specs.Around.{outer_of};
ghost use Rattle.alma_check_block.specs.Shown.{Follows, formals_in, formals_view, frame_with_scene, told_frame};

use crate::formal::read_params;
use crate::frame::{Frame, new_frame};
use crate::open::open_block;
use alma_base::{CheckFault, NoMemory};
use alma_check_rules::{Formal, Heading, Returns};
use alma_check_type::{Around, BrokenRule, Reader, read_type_name};
use alma_ir::Param;
use alma_tree::{Block, Name, Params};
use std::alloc::Global;

/// Where so many blocks are open, the module's and those of eight procedures, a procedure stands too
/// deep.
const FULL_DEPTH: usize = 9;

/// What a heading leaves: its frame with the parameters, the heading, None where it is Bad, and the
/// block round it.
#[derive(Drop)]
pub struct Headed {
    pub frame: Frame,
    pub heading: Option<Heading>,
    pub around: Around,
}

// The formals, where none is Bad.
fn all_formals(alloc: Global, formals: &[Option<Formal>]) -> Result<Option<Vec<Formal>>, NoMemory>
    ensures { IfOk result (λ v. formals_in v ≡ rules.all_formals (formals_view formals.now)) }
{
    let mut all: Vec<Formal> = Vec::new(alloc);
    for formal in formals {
        match formal {
            None => return Ok(None),
            Some(formal) => all.push(*formal)?,
        }
    }
    Ok(Some(all))
}

fn copy_params(alloc: Global, params: &[Param]) -> Result<Vec<Param>, NoMemory>
    ensures { IfOk result (λ v. v.items ≡ params.now) }
{
    Ok(params.to_vec(alloc)?)
}

// The heading of a frame in which no rule is broken.
fn form_heading(
    alloc: Global,
    frame: &Frame,
    returns: Option<u32>,
) -> Result<Option<Heading>, NoMemory>
    ensures { (s : Scene) (f : rules.Frame) → frame_with_scene s frame.now ≡ told_frame f
        → IfOk result (λ h. option_map heading_view h ≡ if_unbroken f.faults
        (option_map (rules.heading_with f returns) (rules.all_formals f.formals))) }
{
    if frame.fault.is_some() {
        return Ok(None);
    }
    match all_formals(alloc, &frame.formals)? {
        None => Ok(None),
        Some(formals) => Ok(Some(Heading {
            formals,
            result: returns,
            params: copy_params(alloc, &frame.params)?,
        })),
    }
}

// The fault of a result type that is structured.
fn structured_result(reader: &Reader, name: &Name, shape: Option<u32>) -> Option<BrokenRule>
    ensures { fault_of result
        ≡ first (broken_at name.now.node (rules.result_rules reader.now shape)) }
{
    match shape {
        None => None,
        Some(shape) => {
            if !reader.env().is_structured(shape) {
                return None;
            }
            Some(BrokenRule {
                node: name.node,
                fault: CheckFault::TypeMismatch,
            })
        }
    }
}

// The result type of a function.
fn read_function(
    alloc: Global,
    reader: &mut Reader,
    frame: &mut Frame,
    name: &Name,
) -> Result<Option<Heading>, NoMemory>
    ensures frame { Follows reader.old frame.old reader.new frame.new result
        (λ f. (rules.heading_at f (Some (view.view_name name.now))).frame) }
    ensures heading { (f : rules.Frame) → frame_with_scene reader.old frame.old ≡ told_frame f
        → IfOk result (λ h.
        option_map heading_view h ≡ (rules.heading_at f (Some (view.view_name name.now))).heading) }
{
    let reading = read_type_name(reader.env(), name)?;
    let structured = structured_result(reader, name, reading.value);
    frame.add_fault(reading.fault);
    frame.add_fault(structured);
    reader.set_returns(Returns::Value(reading.value));
    match reading.value {
        None => Ok(None),
        Some(shape) => form_heading(alloc, frame, Some(shape)),
    }
}

// What a heading gives behind its parameters.
fn read_result(
    alloc: Global,
    reader: &mut Reader,
    frame: &mut Frame,
    returns: &Option<Name>,
) -> Result<Option<Heading>, NoMemory>
    ensures frame { Follows reader.old frame.old reader.new frame.new result
        (λ f. (rules.heading_at f (view.result_of returns.now)).frame) }
    ensures heading { (f : rules.Frame) → frame_with_scene reader.old frame.old ≡ told_frame f
        → IfOk result (λ h.
        option_map heading_view h ≡ (rules.heading_at f (view.result_of returns.now)).heading) }
{
    match returns {
        None => {
            reader.set_returns(Returns::Nothing);
            form_heading(alloc, frame, None)
        }
        Some(name) => read_function(alloc, reader, frame, name),
    }
}

// The fault of a procedure that stands inside eight others.
fn too_deep(reader: &Reader, node: u32) -> Option<BrokenRule>
    ensures { fault_of result ≡ first (broken_at node (rules.too_deep reader.now)) }
{
    if reader.env().scopes.depth() < FULL_DEPTH {
        return None;
    }
    Some(BrokenRule {
        node,
        fault: CheckFault::NestedProcedure,
    })
}

// The heading of a procedure that stands too deep is Bad.
fn at_depth(
    frame: &mut Frame,
    deep: Option<BrokenRule>,
    heading: Option<Heading>,
) -> Option<Heading>
    ensures frame { (s : Scene) (h : rules.FramedHeading) (faults : List Rule) (node : ℕ)
        → frame_with_scene s frame.old ≡ told_frame h.frame
        → fault_of deep ≡ first (broken_at node faults)
        → frame_with_scene s frame.new ≡ told_frame (rules.with_depth faults node h).frame }
    ensures heading { (h : rules.FramedHeading) (faults : List Rule) (node : ℕ)
        → option_map heading_view heading ≡ h.heading
        → fault_of deep ≡ first (broken_at node faults)
        → option_map heading_view result ≡ (rules.with_depth faults node h).heading }
{
    match deep {
        None => heading,
        Some(broken) => {
            frame.add_fault(Some(broken));
            None
        }
    }
}

/// Opens the block of a procedure and reads its heading; the reader is left inside, with the
/// parameters declared and what RETURN gives there.
pub fn read_heading(
    alloc: Global,
    reader: &mut Reader,
    routine: u32,
    node: u32,
    params: &Option<Params>,
    returns: &Option<Name>,
    block: &Block,
) -> Result<Headed, NoMemory>
    ensures frame { IfOk result (λ x. frame_with_scene reader.new x.frame
        ≡ told_frame (rules.read_heading reader.old routine node (view.params_of params.now)
        (view.result_of returns.now) (view.view_block block.now)).frame) }
    ensures heading { IfOk result (λ x. option_map heading_view x.heading
        ≡ (rules.read_heading reader.old routine node (view.params_of params.now)
        (view.result_of returns.now) (view.view_block block.now)).heading) }
    ensures around { IfOk result (λ x. x.around ≡ outer_of reader.old) }
{
    let deep = too_deep(reader, node);
    let around = open_block(alloc, reader, routine, params, block)?;
    let mut frame = new_frame(alloc, 0);
    read_params(alloc, reader, &mut frame, params)?;
    let read = read_result(alloc, reader, &mut frame, returns)?;
    let heading = at_depth(&mut frame, deep, read);
    Ok(Headed {
        frame,
        heading,
        around,
    })
}
