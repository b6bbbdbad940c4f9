// Whether two types are compatible.
ghost use Rattle.std.specs.Prelude.{◌≡◌};
ghost use Rattle.alma_names.specs.Shapes.{base_at};
ghost use Rattle.alma_rules.specs.Answers as answers;

use alma_names::{ShapeId, Shapes};

// The base type of a subrange, and any other shape itself.
fn base(shapes: &Shapes, shape: ShapeId) -> u32
    ensures { result ≡ base_at shapes.now shape.0 }
{
    if (shape.0 as usize) < shapes.len() {
        shapes.base(shape).0
    } else {
        shape.0
    }
}

/// Whether the two are compatible: simple types of one base, or one structured type.
pub fn fits(shapes: &Shapes, from: ShapeId, to: ShapeId) -> bool
    ensures { result ≡ answers.fits shapes.now from.0 to.0 }
{
    base(shapes, from) == base(shapes, to)
}
