// The fields of one shape, by name.
#![tactic(auto, using(crate::proofs::Placing::fields_push, std::proofs::lemmas::List::take_more, std::proofs::lemmas::Grind::common_steps))]

ghost use Rattle.std.specs.Prelude.{◌≡◌, ◌≢◌, List, [], ◌∷◌, ◌++◌, AllPairs, Option, None, option_map, IfOk, OnOk, OnErr};
ghost use Rattle.alma_names.specs.Shapes.{PlainField, plain_of, field_of, fields_of, names_of, field_named, HasDistinctNames};
ghost use Rattle.alma_names.specs.Table.{indexed_fields, fields_in};

use crate::shapes::{FieldOf, Shape, ShapeId};
use alma_base::NoMemory;
use indexmap::IndexMap;
use std::alloc::Global;
use std::marker::Model;

/// The fields of one shape, by name and in their order. Only a record has any.
#[derive(Drop)]
pub struct FieldIndex {
    fields: IndexMap<Vec<u8>, (u32, ShapeId)>,
}

impl Model for FieldIndex {
    ghost Value = { List PlainField };

    ghost view = { λ index. indexed_fields index.fields };
}

impl FieldIndex {
    /// The index of no fields, which allocates nothing.
    pub fn new(alloc: Global) -> FieldIndex
        ensures { result ≡ [] }
    {
        FieldIndex {
            fields: IndexMap::new(alloc),
        }
    }

    /// The index of the fields of a shape, with copies of their names.
    pub fn of(alloc: Global, shape: &Shape) -> Result<FieldIndex, NoMemory>
        requires { HasDistinctNames (plain_of shape.now) }
        ensures { IfOk result (λ index. index ≡ fields_in (plain_of shape.now)) }
    {
        match shape {
            Shape::Fields { fields } => index_of_fields(alloc, fields),
            Shape::Integer | Shape::Char | Shape::Boolean => Ok(FieldIndex::new(alloc)),
            Shape::Listed { .. } | Shape::Sub { .. } | Shape::Row { .. } => {
                Ok(FieldIndex::new(alloc))
            }
        }
    }

    /// The offset and the shape of the field of a name.
    pub fn find(&self, name: &[u8]) -> Option<(u32, ShapeId)>
        ensures { option_map (λ f. (f.0, f.1.0)) result ≡ field_named name.now self.now }
    {
        match self.fields.get(name) {
            Some((offset, shape)) => Some((*offset, *shape)),
            None => None,
        }
    }

    // Puts a field of a new name behind the others.
    fn push(&mut self, alloc: Global, field: &FieldOf) -> Result<(), NoMemory>
        requires { field_named (field_of field.now).name self.old ≡ None }
        ensures ok { OnOk result (self.new ≡ self.old ++ field_of field.now ∷ []) }
        ensures err { OnErr result (self.new ≡ self.old) }
    {
        let name = field.name.as_slice().to_vec(alloc)?;
        self.fields.insert(name, (field.offset, field.shape))?;
        Ok(())
    }
}

// The index of fields with different names.
fn index_of_fields(alloc: Global, fields: &[FieldOf]) -> Result<FieldIndex, NoMemory>
    requires { AllPairs (λ a b. a ≢ b) (names_of (fields_of fields.now)) }
    ensures { IfOk result (λ index. index ≡ fields_of fields.now) }
{
    let mut index = FieldIndex::new(alloc);
    for field in fields {
        index.push(alloc, field)?;
    }
    Ok(index)
}
