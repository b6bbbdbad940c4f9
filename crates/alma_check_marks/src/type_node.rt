// Names and types.
ghost use Rattle.alma_rules.specs.Numbered as tree;
ghost use Rattle.alma_rules.specs.Places as places;
ghost use Rattle.alma_rules.specs.View as view;
ghost use Rattle.alma_check_marks.specs.Marking.{Walks};

use crate::expression::mark_expr;
use crate::mark::Marks;
use alma_base::NoMemory;
use alma_tree::{Arrays, Dimensions, Expr, FieldList, Name, Names, PlainType, TypeNode};

/// Names.
pub(crate) fn mark_names(marks: &mut Marks, names: &Names) -> Result<(), NoMemory>
    ensures { Walks result marks.old marks.new (places.mark_names (view.view_names names.now)) }
{
    let at = marks.end;
    marks.leaf(names.first.node)?;
    mark_more_names(marks, &names.more)?;
    marks.node(names.node, at)
}

fn mark_more_names(marks: &mut Marks, more: &[Name]) -> Result<(), NoMemory>
    ensures { Walks result marks.old marks.new (places.mark_more_names (view.names_of more.now)) }
{
    for name in more {
        marks.token()?;
        marks.leaf(name.node)?;
    }
    Ok(())
}

/// A type expression.
#[cycle(types)]
pub(crate) fn mark_type(marks: &mut Marks, tree: &TypeNode) -> Result<(), NoMemory>
    ensures { Walks result marks.old marks.new (places.mark_type (view.view_type_node tree.now)) }
{
    let at = marks.end;
    mark_arrays(marks, &tree.arrays)?;
    mark_plain(marks, &tree.element)?;
    marks.node(tree.node, at)
}

#[cycle(types)]
fn mark_arrays(marks: &mut Marks, arrays: &Option<Arrays>) -> Result<(), NoMemory>
    ensures { Walks result marks.old marks.new (places.mark_arrays (view.arrays_of arrays.now)) }
{
    let at = marks.end;
    match arrays {
        None => Ok(()),
        Some(arrays) => {
            mark_dimensions(marks, &arrays.first)?;
            mark_dimension_tail(marks, &arrays.more)?;
            marks.node(arrays.node, at)
        }
    }
}

#[cycle(types)]
fn mark_dimension_tail(marks: &mut Marks, more: &[Dimensions]) -> Result<(), NoMemory>
    ensures { Walks result marks.old marks.new
        (places.mark_dimension_tail (view.dimensions_of more.now)) }
{
    for dimensions in more {
        mark_dimensions(marks, dimensions)?;
    }
    Ok(())
}

#[cycle(types)]
fn mark_dimensions(marks: &mut Marks, dimensions: &Dimensions) -> Result<(), NoMemory>
    ensures { Walks result marks.old marks.new
        (places.mark_dimensions (view.view_dimension dimensions.now)) }
{
    marks.token()?;
    mark_plain(marks, &dimensions.first)?;
    mark_plains(marks, &dimensions.more)?;
    marks.token()
}

#[cycle(types)]
fn mark_plains(marks: &mut Marks, more: &[PlainType]) -> Result<(), NoMemory>
    ensures { Walks result marks.old marks.new (places.mark_plains (view.plains_of more.now)) }
{
    for plain in more {
        marks.token()?;
        mark_plain(marks, plain)?;
    }
    Ok(())
}

#[cycle(types)]
fn mark_plain(marks: &mut Marks, plain: &PlainType) -> Result<(), NoMemory>
    ensures { Walks result marks.old marks.new
        (places.mark_plain (view.view_plain_type plain.now)) }
{
    let at = marks.end;
    match plain {
        PlainType::Named { node, name } => mark_type_name(marks, *node, name),
        PlainType::Listed { node, names } => mark_listed(marks, *node, names),
        PlainType::Subrange { node, low, high } => mark_subrange(marks, *node, low, high),
        PlainType::Record { node, first, more } => {
            marks.token()?;
            mark_fields(marks, first)?;
            mark_field_tail(marks, more)?;
            marks.token()?;
            marks.node(*node, at)
        }
    }
}

fn mark_type_name(marks: &mut Marks, node: u32, name: &Name) -> Result<(), NoMemory>
    ensures { Walks result marks.old marks.new
        (places.mark_plain (tree.type_name node (view.view_name name.now))) }
{
    let at = marks.end;
    marks.leaf(name.node)?;
    marks.node(node, at)
}

fn mark_listed(marks: &mut Marks, node: u32, names: &Names) -> Result<(), NoMemory>
    ensures { Walks result marks.old marks.new
        (places.mark_plain (tree.listed node (view.view_names names.now))) }
{
    let at = marks.end;
    marks.token()?;
    mark_names(marks, names)?;
    marks.token()?;
    marks.node(node, at)
}

fn mark_subrange(marks: &mut Marks, node: u32, low: &Expr, high: &Expr) -> Result<(), NoMemory>
    ensures { Walks result marks.old marks.new (places.mark_plain
        (tree.subrange node (view.view_expr low.now) (view.view_expr high.now))) }
{
    let at = marks.end;
    marks.token()?;
    mark_expr(marks, low)?;
    marks.token()?;
    mark_expr(marks, high)?;
    marks.token()?;
    marks.node(node, at)
}

#[cycle(types)]
fn mark_fields(marks: &mut Marks, list: &FieldList) -> Result<(), NoMemory>
    ensures { Walks result marks.old marks.new
        (places.mark_fields (view.view_field_list list.now)) }
{
    let at = marks.end;
    match list {
        FieldList::Empty { node } => marks.empty(*node),
        FieldList::Fields {
            node,
            names,
            type_node,
        } => {
            mark_names(marks, names)?;
            marks.token()?;
            mark_type(marks, type_node)?;
            marks.node(*node, at)
        }
    }
}

#[cycle(types)]
fn mark_field_tail(marks: &mut Marks, more: &[FieldList]) -> Result<(), NoMemory>
    ensures { Walks result marks.old marks.new
        (places.mark_field_tail (view.field_lists_of more.now)) }
{
    for list in more {
        marks.token()?;
        mark_fields(marks, list)?;
    }
    Ok(())
}
