//! The laws of objects, each as the contract of a function that does nothing.
ghost use Rattle.std.specs.Prelude.{◌≡◌, List, ℕ, None};
ghost use Rattle.alma_code.specs.Plain.{PlainCode};
ghost use Rattle.alma_object.specs.Fields.{FitsFields, KeepsFormat};
ghost use Rattle.alma_object_format.specs.Header.{header_of};
ghost use Rattle.alma_object_format.specs.Object.{IsObject, object_bytes};
ghost use Rattle.alma_object_format.specs.Reading.{code_in};
ghost use Rattle.alma_object_format.specs.Walk.{object_fault};

/// The walk finds no fault in the object of a code whose numbers fit their fields.
#[tactic(auto, using(crate::proofs::Clean::object_clean))]
pub fn object_has_no_fault()
    ensures { (code : PlainCode) (bytes : List ℕ) → IsObject code bytes → FitsFields code
        → object_fault bytes ≡ None }
{}

/// The code that is read from the object of a code whose numbers fit their fields is that code.
#[tactic(auto, using(crate::proofs::Again::code_again))]
pub fn object_reads_back()
    ensures { (code : PlainCode) (bytes : List ℕ) → IsObject code bytes → FitsFields code
        → code_in bytes (header_of bytes) ≡ code }
{}

/// Bytes spell at most one code whose numbers fit their fields.
#[tactic(auto, using(crate::proofs::Again::one_code))]
pub fn object_spells_one_code()
    ensures { (first second : PlainCode) (bytes : List ℕ) → IsObject first bytes
        → IsObject second bytes → FitsFields first → FitsFields second → first ≡ second }
{}

/// The object of a code that the format allows has no fault, and is read as that code.
#[tactic(auto, using(crate::proofs::Again::encoded_clean, crate::proofs::Again::encoded_again))]
pub fn encoded_code_reads_back()
    ensures fault { (code : PlainCode) → KeepsFormat code → object_fault (object_bytes code)
        ≡ None }
    ensures code { (code : PlainCode) → KeepsFormat code → code_in (object_bytes code)
        (header_of (object_bytes code)) ≡ code }
{}
