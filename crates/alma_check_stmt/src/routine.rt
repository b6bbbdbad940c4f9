// The routines of a module, one inside another.
ghost use Rattle.std.specs.Prelude.{◌≡◌, None, map, IfOk, OnOk};
ghost use Rattle.alma_ir.specs.View.{global_of};
ghost use Rattle.alma_rules.specs.Numbered as tree;
ghost use Rattle.alma_rules.specs.Judgement.{broken_at, least};
ghost use Rattle.alma_rules.specs.Decls as rules;
ghost use Rattle.alma_rules.specs.Modules as modules;
ghost use Rattle.alma_rules.specs.View as view;
ghost use Rattle.alma_check_type.specs.Told.{fault_of};
ghost use Rattle.alma_check_type.specs.Around.{outer_of};
ghost use Rattle.alma_check_stmt.specs.Inner.Gathered.{through_decls, through_decl, through_block, through_read, with_least, AreReady, IsReady, IsReadyInside, IsRisingBody};
ghost use Rattle.alma_check_stmt.specs.Inner.Shown.{stand};
ghost use Rattle.alma_check_stmt.specs.Inner.Framed.{frame_in};

use crate::body::{Site, check_own};
use crate::checked::Checked;
use crate::line::Lines;
use alma_base::{CheckFault, NoMemory};
use alma_check_block::{Frame, read_decls, read_heading};
use alma_check_type::{Around, BrokenRule, Reader};
use alma_tree::{Block, Decl, Name, Params};
use std::alloc::Global;

// The frame of a procedure, and the block round it.
#[derive(Drop)]
struct Opened {
    frame: Frame,
    around: Around,
}

// Opens a procedure. The rules that are broken in its heading are those of the block round it.
fn open_procedure(
    alloc: Global,
    reader: &mut Reader,
    number: u32,
    node: u32,
    params: &Option<Params>,
    returns: &Option<Name>,
    block: &Block,
) -> Result<Opened, NoMemory>
    ensures frame { IfOk result (λ x. frame_in reader.new x.frame ≡ modules.frame_of
        (rules.read_heading reader.old number node (view.params_of params.now)
        (view.result_of returns.now) (view.view_block block.now))) }
    ensures quiet { IfOk result (λ x. x.frame.fault ≡ None) }
    ensures around { IfOk result (λ x. x.around ≡ outer_of reader.old) }
{
    let headed = read_heading(alloc, reader, number, node, params, returns, block)?;
    let mut frame = headed.frame;
    frame.fault = None;
    Ok(Opened {
        frame,
        around: headed.around,
    })
}

// The name behind the END of a block, where it is not that of its heading.
fn end_fault(reader: &Reader, name: &Name, end_name: &Name) -> Option<BrokenRule>
    ensures { fault_of result ≡ least (broken_at end_name.now.node (modules.end_rules reader.now
        (view.view_name name.now) (view.view_name end_name.now))) }
{
    if reader.env().text(name.token) == reader.env().text(end_name.token) {
        return None;
    }
    Some(BrokenRule {
        node: end_name.node,
        fault: CheckFault::NameMismatch,
    })
}

/// Notes where the name behind the END of a block is not that of its heading.
pub fn check_end(reader: &Reader, checked: &mut Checked, name: &Name, end_name: &Name)
    ensures { stand checked.new reader.now ≡ with_least (stand checked.old reader.now)
        (broken_at end_name.now.node (modules.end_rules reader.now (view.view_name name.now)
        (view.view_name end_name.now))) }
{
    checked.add_fault(end_fault(reader, name, end_name));
}

// The routine of a block whose declarations are read, and those inside it.
#[cycle(routines)]
fn check_declared(
    alloc: Global,
    reader: &mut Reader,
    checked: &mut Checked,
    lines: &Lines,
    frame: &mut Frame,
    site: Site,
    block: &Block,
) -> Result<(), NoMemory>
    requires ready { AreReady lines.now reader.old checked.old.next
        (view.decls_of block.now.decls.items) }
    requires body { IsRisingBody (view.body_of block.now.body) }
    ensures stands { OnOk result (through_block (stand checked.old reader.old)
        (frame_in reader.old frame.old) (view.view_name site.entry.name.now) site.entry.outer
        site.entry.end (view.decls_of block.now.decls.items) (view.body_of block.now.body)
        ≡ stand checked.new reader.new) }
    ensures variables { OnOk result (frame.new.variables ≡ frame.old.variables) }
{
    let fault = check_own(alloc, reader, checked, lines, frame, site, &block.body)?;
    check_decls(alloc, reader, checked, lines, &block.decls)?;
    checked.add_fault(fault);
    Ok(())
}

/// The routine of a block, and those inside it, in the frame with its parameters.
#[cycle(routines)]
pub fn check_block(
    alloc: Global,
    reader: &mut Reader,
    checked: &mut Checked,
    lines: &Lines,
    frame: &mut Frame,
    site: Site,
    block: &Block,
) -> Result<(), NoMemory>
    requires ready { IsReady lines.now reader.old checked.old.next
        (view.decls_of block.now.decls.items) (view.body_of block.now.body) }
    requires quiet { frame.old.fault ≡ None }
    ensures stands { OnOk result (through_read (stand checked.old reader.old) (rules.read_decls
        (frame_in reader.old frame.old) checked.old.next (view.decls_of block.now.decls.items))
        (view.view_name site.entry.name.now) site.entry.outer site.entry.end
        (view.decls_of block.now.decls.items) (view.body_of block.now.body)
        ≡ stand checked.new reader.new) }
    ensures variables { OnOk result (map global_of frame.new.variables.items ≡ (rules.read_decls
        (frame_in reader.old frame.old) checked.old.next
        (view.decls_of block.now.decls.items)).variables) }
{
    read_decls(alloc, reader, frame, checked.next, &block.decls)?;
    checked.add_fault(frame.fault);
    check_declared(alloc, reader, checked, lines, frame, site, block)
}

// The routines of a procedure.
#[cycle(routines)]
fn check_procedure(
    alloc: Global,
    reader: &mut Reader,
    checked: &mut Checked,
    lines: &Lines,
    node: u32,
    name: &Name,
    params: &Option<Params>,
    returns: &Option<Name>,
    block: &Block,
    end_name: &Name,
) -> Result<(), NoMemory>
    requires ready { IsReadyInside lines.now reader.old checked.old.next
        (view.decls_of block.now.decls.items) (view.body_of block.now.body) }
    ensures { OnOk result (through_decl (stand checked.old reader.old) (tree.procedure node
        (view.view_name name.now) (view.params_of params.now) (view.result_of returns.now)
        (view.view_block block.now) (view.view_name end_name.now))
        ≡ stand checked.new reader.new) }
{
    let site = Site {
        name,
        outer: reader.env().routine,
        end: end_name.token.saturating_sub(1),
    };
    let opened = open_procedure(alloc, reader, checked.next, node, params, returns, block)?;
    let mut frame = opened.frame;
    checked.count()?;
    let first = checked.next;
    check_block(alloc, reader, checked, lines, &mut frame, site, block)?;
    reader.leave(opened.around);
    reader.clear_headings(first, checked.next);
    check_end(reader, checked, name, end_name);
    Ok(())
}

// The routines of a declaration.
#[cycle(routines)]
fn check_decl(
    alloc: Global,
    reader: &mut Reader,
    checked: &mut Checked,
    lines: &Lines,
    decl: &Decl,
) -> Result<(), NoMemory>
    requires ready { AreReady lines.now reader.old checked.old.next
        (tree.more_decl (view.view_decl decl.now) tree.no_decl) }
    ensures { OnOk result (through_decl (stand checked.old reader.old) (view.view_decl decl.now)
        ≡ stand checked.new reader.new) }
{
    match decl {
        Decl::Const { .. } => Ok(()),
        Decl::Type { .. } => Ok(()),
        Decl::Var { .. } => Ok(()),
        Decl::Procedure {
            node,
            name,
            params,
            result,
            block,
            end_name,
        } => check_procedure(
            alloc, reader, checked, lines, *node, name, params, result, block, end_name,
        ),
    }
}

// The routines of declarations.
#[cycle(routines)]
fn check_decls(
    alloc: Global,
    reader: &mut Reader,
    checked: &mut Checked,
    lines: &Lines,
    decls: &[Decl],
) -> Result<(), NoMemory>
    requires ready { AreReady lines.now reader.old checked.old.next (view.decls_of decls.now) }
    ensures { OnOk result (through_decls (stand checked.old reader.old) (view.decls_of decls.now)
        ≡ stand checked.new reader.new) }
{
    for decl in decls {
        check_decl(alloc, reader, checked, lines, decl)?;
    }
    Ok(())
}
