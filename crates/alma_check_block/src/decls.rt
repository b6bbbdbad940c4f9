// All declarations of a block, in order; of procedures only the headings.
ghost use Rattle.alma_rules.specs.Decls as rules;
ghost use Rattle.alma_rules.specs.View as view;
ghost use Rattle.alma_check_block.specs.Shown.{Follows};

use crate::entry::{read_consts, read_types};
use crate::frame::Frame;
use crate::heading::read_heading;
use crate::open::number_behind;
use crate::variable::read_vars;
use alma_base::NoMemory;
use alma_check_type::{Reader, redeclared};
use alma_tree::Decl;
use std::alloc::Global;

fn read_decl(
    alloc: Global,
    reader: &mut Reader,
    frame: &mut Frame,
    number: u32,
    decl: &Decl,
) -> Result<(), NoMemory>
    ensures { Follows reader.old frame.old reader.new frame.new result
        (λ f. rules.read_decl f number (view.view_decl decl.now)) }
{
    match decl {
        Decl::Const { node: _, entries } => read_consts(alloc, reader, frame, entries),
        Decl::Type { node: _, entries } => read_types(alloc, reader, frame, entries),
        Decl::Var { node: _, entries } => read_vars(alloc, reader, frame, entries),
        Decl::Procedure {
            node,
            name,
            params,
            result,
            block,
            end_name: _,
        } => {
            let twice = redeclared(reader, name);
            let headed = read_heading(alloc, reader, number, *node, params, result, block)?;
            frame.add_fault(twice);
            frame.add_fault(headed.frame.fault);
            reader.leave(headed.around);
            reader.set_heading(number, headed.heading);
            Ok(())
        }
    }
}

/// Reads the declarations of a block, and of its procedures the headings; the first of its routines
/// has number `first`.
pub fn read_decls(
    alloc: Global,
    reader: &mut Reader,
    frame: &mut Frame,
    first: u32,
    decls: &[Decl],
) -> Result<(), NoMemory>
    ensures { Follows reader.old frame.old reader.new frame.new result
        (λ f. rules.read_decls f first (view.decls_of decls.now)) }
{
    let mut next = first;
    for decl in decls {
        read_decl(alloc, reader, frame, next, decl)?;
        next = number_behind(next, decl)?;
    }
    Ok(())
}
