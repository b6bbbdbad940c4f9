// Routines that a block declares, and the block itself as it begins.
ghost use Rattle.std.specs.Prelude.{◌≡◌, ◌+◌, IfSome, OnOk, IfOk};
ghost use Rattle.alma_rules.specs.Scene.{nothing};
ghost use Rattle.alma_rules.specs.Decls as rules;
ghost use Rattle.alma_rules.specs.View as view;
ghost use Rattle.alma_check_type.specs.Around.{outer_of};

use crate::names::names_of_block;
use alma_base::NoMemory;
use alma_check_type::{Around, Reader};
use alma_names::Entry;
use alma_tree::{Block, Decl, Params};
use std::alloc::Global;

fn sum(count: u32, more: u32) -> Option<u32>
    ensures { IfSome result (λ n. n ≡ count + more) }
{
    count.checked_add(more)
}

/// The number behind this one.
pub fn next_number(number: u32) -> Result<u32, NoMemory>
    ensures { IfOk result (λ n. n ≡ number + 1) }
{
    number.checked_add(1).ok_or(NoMemory)
}

/// The number of routines that a block declares, at any depth; None where 32 bits do not hold it.
#[cycle(routines)]
pub fn count_routines(block: &Block) -> Option<u32>
    ensures { IfSome result (λ n. n ≡ rules.block_routines (view.view_block block.now)) }
{
    let mut count: u32 = 0;
    for decl in &block.decls {
        count = sum(count, count_in(decl)?)?;
    }
    Some(count)
}

/// The number of routines of a declaration: those of a procedure, with itself.
#[cycle(routines)]
pub fn count_in(decl: &Decl) -> Option<u32>
    ensures { IfSome result (λ n. n ≡ rules.decl_routines (view.view_decl decl.now)) }
{
    match decl {
        Decl::Const { .. } => Some(0),
        Decl::Type { .. } => Some(0),
        Decl::Var { .. } => Some(0),
        Decl::Procedure { block, .. } => sum(1, count_routines(block)?),
    }
}

// A procedure's name is visible in its whole block.
fn declare_routine(
    alloc: Global,
    reader: &mut Reader,
    number: u32,
    decl: &Decl,
) -> Result<(), NoMemory>
    ensures { OnOk result (reader.new ≡ rules.with_routine reader.old number
        (view.view_decl decl.now)) }
{
    match decl {
        Decl::Const { .. } => Ok(()),
        Decl::Type { .. } => Ok(()),
        Decl::Var { .. } => Ok(()),
        Decl::Procedure { name, .. } => { reader.declare(alloc, name, 0, Entry::Routine(number)) }
    }
}

/// The number behind those of the routines of a declaration.
pub fn number_behind(number: u32, decl: &Decl) -> Result<u32, NoMemory>
    ensures { IfOk result (λ n. n ≡ number + rules.decl_routines (view.view_decl decl.now)) }
{
    let count = count_in(decl).ok_or(NoMemory)?;
    number.checked_add(count).ok_or(NoMemory)
}

// The procedures of a block, of which the first has this number.
fn declare_routines(
    alloc: Global,
    reader: &mut Reader,
    first: u32,
    decls: &[Decl],
) -> Result<(), NoMemory>
    ensures { OnOk result (reader.new ≡ rules.with_routines reader.old first
        (view.decls_of decls.now)) }
{
    let mut next = first;
    for decl in decls {
        declare_routine(alloc, reader, next, decl)?;
        next = number_behind(next, decl)?;
    }
    Ok(())
}

/// Opens the block of a routine: the names that it declares are known, and its procedures are
/// declared.
pub fn open_block(
    alloc: Global,
    reader: &mut Reader,
    routine: u32,
    params: &Option<Params>,
    block: &Block,
) -> Result<Around, NoMemory>
    ensures opened { OnOk result (reader.new ≡ rules.with_block reader.old routine nothing
        (rules.formal_names (rules.formals_of (view.params_of params.now)))
        (view.view_block block.now)) }
    ensures around { IfOk result (λ around. around ≡ outer_of reader.old) }
{
    let first = next_number(routine)?;
    let declares = names_of_block(alloc, reader, params, block)?;
    let around = reader.enter(alloc, declares, routine)?;
    declare_routines(alloc, reader, first, &block.decls)?;
    Ok(around)
}
