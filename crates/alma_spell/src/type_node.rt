// The kinds of types.
ghost use Rattle.std.specs.Prelude.{OnOk};
ghost use Rattle.alma_spell.specs.Pushed.{Pushes};
ghost use Rattle.alma_tree.specs.Spelling.{spell_array_tail, spell_dimensions, spell_field_list, spell_field_list_tail, spell_name_tail, spell_names, spell_plain_tail, spell_plain_type, spell_type_node};
ghost use Rattle.alma_tree.specs.View.{arrays_of, dimensions_of, field_lists_of, name_tail_of, plains_of, view_dimension, view_field_list, view_names, view_plain_type, view_type_node};

use crate::phrase::push_expr;
use crate::word::push;
use alma_base::NoMemory;
use alma_tree::{Arrays, Dimensions, FieldList, Kind, Name, Names, PlainType, TypeNode};

fn push_name_tail(trees: &[Name], out: &mut Vec<Kind>) -> Result<(), NoMemory>
    ensures pushed { OnOk result (Pushes out.old.items out.new.items
        (spell_name_tail (name_tail_of trees.now))) }
{
    for _name in trees {
        push(Kind::Comma, out)?;
        push(Kind::Name, out)?;
    }
    Ok(())
}

// Appends the kinds of the tokens that a list of names stands for.
pub(crate) fn push_names(tree: &Names, out: &mut Vec<Kind>) -> Result<(), NoMemory>
    ensures pushed { OnOk result (Pushes out.old.items out.new.items
        (spell_names (view_names tree.now))) }
{
    push(Kind::Name, out)?;
    push_name_tail(&tree.more, out)
}

// Appends the kinds of the tokens that a type stands for.
#[cycle(spell_types)]
pub(crate) fn push_type_node(tree: &TypeNode, out: &mut Vec<Kind>) -> Result<(), NoMemory>
    ensures pushed { OnOk result (Pushes out.old.items out.new.items
        (spell_type_node (view_type_node tree.now))) }
{
    push_arrays(&tree.arrays, out)?;
    push_plain_type(&tree.element, out)
}

#[cycle(spell_types)]
fn push_arrays(tree: &Option<Arrays>, out: &mut Vec<Kind>) -> Result<(), NoMemory>
    ensures pushed { OnOk result (Pushes out.old.items out.new.items
        (spell_array_tail (arrays_of tree.now))) }
{
    match tree {
        None => Ok(()),
        Some(arrays) => {
            push_dimension(&arrays.first, out)?;
            push_dimension_tail(&arrays.more, out)
        }
    }
}

#[cycle(spell_types)]
fn push_dimension_tail(trees: &[Dimensions], out: &mut Vec<Kind>) -> Result<(), NoMemory>
    ensures pushed { OnOk result (Pushes out.old.items out.new.items
        (spell_array_tail (dimensions_of trees.now))) }
{
    for tree in trees {
        push_dimension(tree, out)?;
    }
    Ok(())
}

#[cycle(spell_types)]
fn push_dimension(tree: &Dimensions, out: &mut Vec<Kind>) -> Result<(), NoMemory>
    ensures pushed { OnOk result (Pushes out.old.items out.new.items
        (spell_dimensions (view_dimension tree.now))) }
{
    push(Kind::Array, out)?;
    push_plain_type(&tree.first, out)?;
    push_plain_tail(&tree.more, out)?;
    push(Kind::Of, out)
}

#[cycle(spell_types)]
fn push_plain_tail(trees: &[PlainType], out: &mut Vec<Kind>) -> Result<(), NoMemory>
    ensures pushed { OnOk result (Pushes out.old.items out.new.items
        (spell_plain_tail (plains_of trees.now))) }
{
    for tree in trees {
        push(Kind::Comma, out)?;
        push_plain_type(tree, out)?;
    }
    Ok(())
}

#[cycle(spell_types)]
fn push_plain_type(tree: &PlainType, out: &mut Vec<Kind>) -> Result<(), NoMemory>
    ensures pushed { OnOk result (Pushes out.old.items out.new.items
        (spell_plain_type (view_plain_type tree.now))) }
{
    match tree {
        PlainType::Named { .. } => push(Kind::Name, out),
        PlainType::Listed { names, .. } => {
            push(Kind::OpenParen, out)?;
            push_names(names, out)?;
            push(Kind::CloseParen, out)
        }
        PlainType::Subrange { low, high, .. } => {
            push(Kind::OpenBracket, out)?;
            push_expr(low, out)?;
            push(Kind::DotDot, out)?;
            push_expr(high, out)?;
            push(Kind::CloseBracket, out)
        }
        PlainType::Record { first, more, .. } => {
            push(Kind::Record, out)?;
            push_field_list(first, out)?;
            push_field_list_tail(more, out)?;
            push(Kind::End, out)
        }
    }
}

#[cycle(spell_types)]
fn push_field_list(tree: &FieldList, out: &mut Vec<Kind>) -> Result<(), NoMemory>
    ensures pushed { OnOk result (Pushes out.old.items out.new.items
        (spell_field_list (view_field_list tree.now))) }
{
    match tree {
        FieldList::Empty { .. } => Ok(()),
        FieldList::Fields {
            names,
            type_node,
            ..
        } => {
            push_names(names, out)?;
            push(Kind::Colon, out)?;
            push_type_node(type_node, out)
        }
    }
}

#[cycle(spell_types)]
fn push_field_list_tail(trees: &[FieldList], out: &mut Vec<Kind>) -> Result<(), NoMemory>
    ensures pushed { OnOk result (Pushes out.old.items out.new.items
        (spell_field_list_tail (field_lists_of trees.now))) }
{
    for tree in trees {
        push(Kind::Semicolon, out)?;
        push_field_list(tree, out)?;
    }
    Ok(())
}
