// The codes of objects.
ghost use Rattle.std.specs.Prelude.{◌≡◌, [], Ok, IfOk, IfErr};
ghost use Rattle.std.specs.List.{list_any};
ghost use Rattle.alma_code.specs.Reads.{code_reads};
ghost use Rattle.alma_pool.specs.Due.{open_objects};
ghost use Rattle.alma_pool.specs.Inner.{all_bytes, codes_of, IsRefused};

use crate::stop::PoolStop;
use alma_plan::open_code;
use alma_verify::Verified;
use std::alloc::Global;

/// The verified codes of objects, or why the first of them that is refused is so.
pub fn open_all(alloc: Global, objects: &[Vec<u8>]) -> Result<Vec<Verified<'_>>, PoolStop>
    ensures codes { IfOk result (λ verified. open_objects [] (all_bytes objects.now)
        ≡ Ok (codes_of verified.items)) }
    ensures refused { IfErr result (λ stop. IsRefused (all_bytes objects.now) stop) }
{
    let mut verified = Vec::new(alloc);
    for bytes in objects {
        let code = open_code(bytes)?;
        verified.push(code)?;
    }
    Ok(verified)
}

/// Whether one of these codes reads the input.
pub fn any_reads(verified: &[Verified<'_>]) -> bool
    ensures { result ≡ list_any code_reads (codes_of verified.now) }
{
    for code in verified {
        if code.view().has_read() {
            return true;
        }
    }
    false
}
