// The pass: a code with fewer slots.
ghost use Rattle.std.specs.Prelude.{◌≡◌, map, IfOk, IfSome};
ghost use Rattle.alma_code.specs.Plain.{code_of, routine_of};
ghost use Rattle.alma_code.specs.Reads.{code_reads};
ghost use Rattle.alma_code.specs.Records.{KeepsCounts, KeepsRecords, KeepsVersion};
ghost use Rattle.alma_code.specs.Rules.{IsSound};
ghost use Rattle.alma_lower_slots.specs.Same.{DoesTheSame, KeepsTables};
ghost use Rattle.alma_lower_slots.specs.Inner.Shared.{IsSharedOf, code_with};

use crate::check::globals_are_own;
use crate::find::own_slots;
use crate::routines::{Parts, all_kinds, runs_fit, share_routines};
use alma_base::NoMemory;
use alma_code::Code;
use std::alloc::Global;

// The heads and the instructions of a code whose slots are shared, or none where they may not be.
fn shared_parts(alloc: Global, code: &Code) -> Result<Option<Parts>, NoMemory>
    requires sound { IsSound (code_of code.now) }
    ensures { IfOk result (λ found. IfSome found (λ parts. IsSharedOf (code_of code.now)
        (code_with (code_of code.now) (map routine_of parts.heads.items) parts.instrs.items))) }
{
    let kinds = all_kinds(alloc, &code.routines)?;
    let own = own_slots(alloc, code, &kinds)?;
    if !globals_are_own(code, &own) {
        return Ok(None);
    }
    match share_routines(alloc, code, &own, &kinds)? {
        Some(parts) => {
            if !runs_fit(&parts.heads) {
                return Ok(None);
            }
            Ok(Some(parts))
        }
        None => Ok(None),
    }
}

// A code with other heads and instructions.
fn with_parts(code: Code, parts: Parts) -> Code
    ensures { code_of result ≡ code_with (code_of code) (map routine_of parts.heads.items)
        parts.instrs.items }
{
    Code {
        version: code.version,
        routines: parts.heads,
        globals: code.globals,
        ranges: code.ranges,
        texts: code.texts,
        code: parts.instrs,
        lines: code.lines,
    }
}

/// The code with fewer slots, on which the machine does the same, or the code as it is where its
/// slots may not be shared.
pub fn share_slots(alloc: Global, code: Code) -> Result<Code, NoMemory>
    requires sound { IsSound (code_of code) }
    requires counts { KeepsCounts (code_of code) }
    requires records { KeepsRecords (code_of code) }
    requires version { KeepsVersion (code_of code) }
    ensures same { IfOk result (λ new. DoesTheSame (code_of code) (code_of new)) }
    ensures sound { IfOk result (λ new. IsSound (code_of new)) }
    ensures counts { IfOk result (λ new. KeepsCounts (code_of new)) }
    ensures records { IfOk result (λ new. KeepsRecords (code_of new)) }
    ensures version { IfOk result (λ new. KeepsVersion (code_of new)) }
    ensures tables { IfOk result (λ new. KeepsTables (code_of code) (code_of new)) }
    ensures reads { IfOk result (λ new. code_reads (code_of new) ≡ code_reads (code_of code)) }
{
    match shared_parts(alloc, &code)? {
        Some(parts) => Ok(with_parts(code, parts)),
        None => Ok(code),
    }
}
