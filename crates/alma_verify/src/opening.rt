// Views of objects, with the code that their bytes spell.
ghost use Rattle.std.specs.Prelude.{◌≡◌, IfOk};
ghost use Rattle.alma_code.specs.Plain.{code_of};
ghost use Rattle.alma_code.specs.Rules.{IsSound};
ghost use Rattle.alma_base.specs.FirstFault.{TellsFault};
ghost use Rattle.alma_object.specs.Object.{IsObject};
ghost use Rattle.alma_object.specs.View.{code_of_view};
ghost use Rattle.alma_object.specs.Walk.{object_fault};
ghost use Rattle.alma_verify.specs.Verified.{code_of_verified};
ghost use Rattle.alma_verify.specs.Bytes.{object_code};

use crate::fields::fits_fields;
use crate::verified::{Verified, verify};
use alma_code::Code;
use alma_object::{ObjectFault, ObjectView};

/// The view of the bytes of an object, whose code is the one that they spell; or the first fault of
/// bytes that are none.
pub fn open_object<'b>(bytes: &'b [u8]) -> Result<ObjectView<'b>, ObjectFault>
    ensures fault { TellsFault (object_fault bytes.now) result }
    ensures object { IfOk result (λ view. IsObject (code_of_view view) bytes.now) }
    ensures code { IfOk result (λ view. code_of_view view ≡ object_code bytes.now) }
{
    let view = ObjectView::new(bytes)?;
    view.keeps_object();
    Ok(view)
}

/// The verified view of the object of a sound code. Its code is that code.
pub fn open_encoded<'b>(code: &Code, bytes: &'b [u8]) -> Verified<'b>
    requires object { IsObject (code_of code.now) bytes.now }
    requires sound { IsSound (code_of code.now) }
    ensures { code_of_verified result ≡ code_of code.now }
{
    fits_fields(code);
    let Ok(view) = open_object(bytes) else {
        unreachable!()
    };
    match verify(view) {
        Ok(verified) => verified,
        Err(_) => unreachable!(),
    }
}
