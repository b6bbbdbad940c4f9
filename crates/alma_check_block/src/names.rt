// The names that a block declares, each once, with the token of its first declaration.
ghost use Rattle.std.specs.Prelude.{◌≡◌, ◌++◌, OnOk, IfOk};
ghost use Rattle.alma_rules.specs.Scene.{text_at};
ghost use Rattle.alma_rules.specs.Types as types;
ghost use Rattle.alma_rules.specs.Decls as rules;
ghost use Rattle.alma_rules.specs.View as view;
ghost use Rattle.alma_check_rules.specs.Views.{declares_view};
ghost use Rattle.alma_check_block.specs.Shown.{Collects};

use alma_base::NoMemory;
use alma_check_type::{Reader, with_name};
use alma_tree::{
    Arrays, Block, ConstEntry, Decl, Dimensions, FieldList, Formal, Name, Names, Params, PlainType,
    TypeEntry, TypeNode, VarEntry,
};
use indexmap::IndexMap;
use std::alloc::Global;

fn add_name(
    alloc: Global,
    reader: &Reader,
    names: &mut IndexMap<Vec<u8>, u32>,
    name: &Name,
) -> Result<(), NoMemory>
    ensures { OnOk result (declares_view names.new
        ≡ rules.with_text (declares_view names.old) (text_at reader.now name.now.token)
        name.now.token) }
{
    let text = reader.env().text(name.token);
    with_name(alloc, names, text, name.token)
}

fn add_more(
    alloc: Global,
    reader: &Reader,
    names: &mut IndexMap<Vec<u8>, u32>,
    more: &[Name],
) -> Result<(), NoMemory>
    ensures { Collects result reader.now names.old names.new (view.names_of more.now) }
{
    for name in more {
        add_name(alloc, reader, names, name)?;
    }
    Ok(())
}

fn add_names(
    alloc: Global,
    reader: &Reader,
    names: &mut IndexMap<Vec<u8>, u32>,
    all: &Names,
) -> Result<(), NoMemory>
    ensures { Collects result reader.now names.old names.new
        (types.all_names (view.view_names all.now)) }
{
    add_name(alloc, reader, names, &all.first)?;
    add_more(alloc, reader, names, &all.more)
}

// ---- the names of the enumerations in a type

#[cycle(types)]
fn add_type(
    alloc: Global,
    reader: &Reader,
    names: &mut IndexMap<Vec<u8>, u32>,
    tree: &TypeNode,
) -> Result<(), NoMemory>
    ensures { Collects result reader.now names.old names.new
        (types.type_names (view.view_type_node tree.now)) }
{
    add_arrays(alloc, reader, names, &tree.arrays)?;
    add_plain(alloc, reader, names, &tree.element)
}

#[cycle(types)]
fn add_arrays(
    alloc: Global,
    reader: &Reader,
    names: &mut IndexMap<Vec<u8>, u32>,
    arrays: &Option<Arrays>,
) -> Result<(), NoMemory>
    ensures { Collects result reader.now names.old names.new
        (types.arrays_names (view.arrays_of arrays.now)) }
{
    match arrays {
        None => Ok(()),
        Some(arrays) => {
            add_dimensions(alloc, reader, names, &arrays.first)?;
            add_dimension_tail(alloc, reader, names, &arrays.more)
        }
    }
}

#[cycle(types)]
fn add_dimension_tail(
    alloc: Global,
    reader: &Reader,
    names: &mut IndexMap<Vec<u8>, u32>,
    more: &[Dimensions],
) -> Result<(), NoMemory>
    ensures { Collects result reader.now names.old names.new
        (types.dimension_tail_names (view.dimensions_of more.now)) }
{
    for dimensions in more {
        add_dimensions(alloc, reader, names, dimensions)?;
    }
    Ok(())
}

#[cycle(types)]
fn add_dimensions(
    alloc: Global,
    reader: &Reader,
    names: &mut IndexMap<Vec<u8>, u32>,
    dimensions: &Dimensions,
) -> Result<(), NoMemory>
    ensures { Collects result reader.now names.old names.new
        (types.dimensions_names (view.view_dimension dimensions.now)) }
{
    add_plain(alloc, reader, names, &dimensions.first)?;
    add_plains(alloc, reader, names, &dimensions.more)
}

#[cycle(types)]
fn add_plains(
    alloc: Global,
    reader: &Reader,
    names: &mut IndexMap<Vec<u8>, u32>,
    more: &[PlainType],
) -> Result<(), NoMemory>
    ensures { Collects result reader.now names.old names.new
        (types.plains_names (view.plains_of more.now)) }
{
    for plain in more {
        add_plain(alloc, reader, names, plain)?;
    }
    Ok(())
}

#[cycle(types)]
fn add_plain(
    alloc: Global,
    reader: &Reader,
    names: &mut IndexMap<Vec<u8>, u32>,
    plain: &PlainType,
) -> Result<(), NoMemory>
    ensures { Collects result reader.now names.old names.new
        (types.plain_names (view.view_plain_type plain.now)) }
{
    match plain {
        PlainType::Named { .. } => Ok(()),
        PlainType::Listed {
            node: _,
            names: all,
        } => add_names(alloc, reader, names, all),
        PlainType::Subrange { .. } => Ok(()),
        PlainType::Record {
            node: _,
            first,
            more,
        } => {
            add_fields(alloc, reader, names, first)?;
            add_field_tail(alloc, reader, names, more)
        }
    }
}

#[cycle(types)]
fn add_fields(
    alloc: Global,
    reader: &Reader,
    names: &mut IndexMap<Vec<u8>, u32>,
    list: &FieldList,
) -> Result<(), NoMemory>
    ensures { Collects result reader.now names.old names.new
        (types.fields_names (view.view_field_list list.now)) }
{
    match list {
        FieldList::Empty { node: _ } => Ok(()),
        FieldList::Fields {
            node: _,
            names: _,
            type_node,
        } => add_type(alloc, reader, names, type_node),
    }
}

#[cycle(types)]
fn add_field_tail(
    alloc: Global,
    reader: &Reader,
    names: &mut IndexMap<Vec<u8>, u32>,
    more: &[FieldList],
) -> Result<(), NoMemory>
    ensures { Collects result reader.now names.old names.new
        (types.field_tail_names (view.field_lists_of more.now)) }
{
    for list in more {
        add_fields(alloc, reader, names, list)?;
    }
    Ok(())
}

// ---- the names of declarations

fn add_consts(
    alloc: Global,
    reader: &Reader,
    names: &mut IndexMap<Vec<u8>, u32>,
    entries: &[ConstEntry],
) -> Result<(), NoMemory>
    ensures { Collects result reader.now names.old names.new
        (rules.const_names (view.consts_of entries.now)) }
{
    for entry in entries {
        add_name(alloc, reader, names, &entry.name)?;
    }
    Ok(())
}

fn add_types(
    alloc: Global,
    reader: &Reader,
    names: &mut IndexMap<Vec<u8>, u32>,
    entries: &[TypeEntry],
) -> Result<(), NoMemory>
    ensures { Collects result reader.now names.old names.new
        (rules.type_entry_names (view.types_of entries.now)) }
{
    for entry in entries {
        add_name(alloc, reader, names, &entry.name)?;
        add_type(alloc, reader, names, &entry.type_node)?;
    }
    Ok(())
}

fn add_vars(
    alloc: Global,
    reader: &Reader,
    names: &mut IndexMap<Vec<u8>, u32>,
    entries: &[VarEntry],
) -> Result<(), NoMemory>
    ensures { Collects result reader.now names.old names.new
        (rules.var_names (view.vars_of entries.now)) }
{
    for entry in entries {
        add_names(alloc, reader, names, &entry.names)?;
        add_type(alloc, reader, names, &entry.type_node)?;
    }
    Ok(())
}

fn add_decl(
    alloc: Global,
    reader: &Reader,
    names: &mut IndexMap<Vec<u8>, u32>,
    decl: &Decl,
) -> Result<(), NoMemory>
    ensures { Collects result reader.now names.old names.new
        (rules.decl_names (view.view_decl decl.now)) }
{
    match decl {
        Decl::Const { node: _, entries } => add_consts(alloc, reader, names, entries),
        Decl::Type { node: _, entries } => add_types(alloc, reader, names, entries),
        Decl::Var { node: _, entries } => add_vars(alloc, reader, names, entries),
        Decl::Procedure { name, .. } => add_name(alloc, reader, names, name),
    }
}

fn add_decls(
    alloc: Global,
    reader: &Reader,
    names: &mut IndexMap<Vec<u8>, u32>,
    decls: &[Decl],
) -> Result<(), NoMemory>
    ensures { Collects result reader.now names.old names.new
        (rules.decls_names (view.decls_of decls.now)) }
{
    for decl in decls {
        add_decl(alloc, reader, names, decl)?;
    }
    Ok(())
}

fn add_formals(
    alloc: Global,
    reader: &Reader,
    names: &mut IndexMap<Vec<u8>, u32>,
    more: &[Formal],
) -> Result<(), NoMemory>
    ensures { Collects result reader.now names.old names.new
        (rules.formal_names (view.more_formals_of more.now)) }
{
    for formal in more {
        add_names(alloc, reader, names, &formal.names)?;
    }
    Ok(())
}

fn add_params(
    alloc: Global,
    reader: &Reader,
    names: &mut IndexMap<Vec<u8>, u32>,
    params: &Option<Params>,
) -> Result<(), NoMemory>
    ensures { Collects result reader.now names.old names.new
        (rules.formal_names (rules.formals_of (view.params_of params.now))) }
{
    match params {
        None => Ok(()),
        Some(params) => match &params.formals {
            None => Ok(()),
            Some(formals) => {
                add_names(alloc, reader, names, &formals.first.names)?;
                add_formals(alloc, reader, names, &formals.more)
            }
        },
    }
}

/// The names of parameters and of a block, each once, with the token of its first declaration.
pub fn names_of_block(
    alloc: Global,
    reader: &Reader,
    params: &Option<Params>,
    block: &Block,
) -> Result<IndexMap<Vec<u8>, u32>, NoMemory>
    ensures { IfOk result (λ names. declares_view names ≡ rules.with_texts reader.now
        (rules.formal_names (rules.formals_of (view.params_of params.now))
        ++ rules.block_names (view.view_block block.now))) }
{
    let mut names: IndexMap<Vec<u8>, u32> = IndexMap::new(alloc);
    add_params(alloc, reader, &mut names, params)?;
    add_decls(alloc, reader, &mut names, &block.decls)?;
    Ok(names)
}
