// A view of the bytes of an object.
ghost use Rattle.std.specs.Prelude.{◌≡◌, ◌<◌, ℕ, length, get_or, None};
ghost use Rattle.alma_object_format.specs.Header.{IsWithin, header_of, header_fault, routines_at as routines_offset, instrs_at as instrs_offset, end_at};
ghost use Rattle.alma_object_format.specs.Walk.{sections_fault};

mod copy;
mod readers;

use alma_object_format::Header;
pub use readers::GlobalView;

/// A view of the bytes of an object. It lends them, and each reader takes what it gives straight
/// from them.
#[derive(Clone, Copy)]
pub struct ObjectView<'b> {
    bytes: &'b [u8],
    header: Header,
    routines_at: usize,
    instrs_at: usize,
    ghost cells: { (i : ℕ) → get_or bytes.now i 0 < 256 },
    ghost read: { header ≡ header_of bytes.now },
    ghost clean: { header_fault bytes.now ≡ None },
    ghost within: { IsWithin header },
    ghost none: { sections_fault bytes.now header ≡ None },
    ghost whole: { length bytes.now ≡ end_at header },
    ghost routines: { routines_at ≡ routines_offset header },
    ghost instrs: { instrs_at ≡ instrs_offset header },
}
