// The names of types.
ghost use Rattle.std.specs.Prelude.{◌≡◌, IfOk};
ghost use Rattle.alma_rules.specs.Types as types;
ghost use Rattle.alma_rules.specs.View.{view_name};
ghost use Rattle.alma_check_rules.specs.Views.{scene_of, somewhere};
ghost use Rattle.alma_check_type.specs.Told.{told, tells, tells_of, formed_of};

use crate::reading::{BrokenRule, Reading, ShapeOrLimit};
use alma_base::{CheckFault, NoMemory};
use alma_check_rules::{Env, Found};
use alma_tree::Name;

/// The name of a type.
pub fn read_type_name(env: &Env, name: &Name) -> Result<Reading<u32>, NoMemory>
    ensures { IfOk result (λ r. told (types.read_type_name (scene_of env.now somewhere)
        (view_name name.now)) ≡ tells r (scene_of env.now somewhere)) }
{
    let node = name.node;
    match env.found(name)? {
        Found::Absent => Ok(Reading {
            fault: Some(BrokenRule {
                node,
                fault: CheckFault::Undeclared,
            }),
            value: None,
        }),
        Found::Bad => Ok(Reading {
            fault: None,
            value: None,
        }),
        Found::Named(shape) => Ok(Reading {
            fault: None,
            value: Some(shape),
        }),
        Found::Constant(_, _) | Found::Variable(_, _) | Found::Routine(_, _) => Ok(Reading {
            fault: Some(BrokenRule {
                node,
                fault: CheckFault::NotType,
            }),
            value: None,
        }),
    }
}

/// The name of a type in place of a type.
pub fn read_named(env: &Env, name: &Name) -> Result<Reading<ShapeOrLimit>, NoMemory>
    ensures { IfOk result (λ r. told (types.reading_with types.formed (types.read_type_name
        (scene_of env.now somewhere) (view_name name.now)))
        ≡ tells_of formed_of r (scene_of env.now somewhere)) }
{
    let shape = read_type_name(env, name)?;
    Ok(Reading {
        fault: shape.fault,
        value: shape.value.map(ShapeOrLimit::Shape),
    })
}
