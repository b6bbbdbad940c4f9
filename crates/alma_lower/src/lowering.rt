// The code of a whole program.
ghost use Rattle.std.specs.Prelude.{◌≡◌, ◌*◌, ◌<◌, ◌≤◌, ℕ, length, IfOk};
ghost use Rattle.alma_base.specs.Limits.{size_limit};
ghost use Rattle.alma_code.specs.Plain.{code_of};
ghost use Rattle.alma_code.specs.Records.{KeepsCounts, KeepsRecords, KeepsVersion};
ghost use Rattle.alma_ir.specs.Checked.{IsChecked};
ghost use Rattle.alma_ir.specs.Count.{saturate, nodes};
ghost use Rattle.alma_ir.specs.View.{program_of};
ghost use Rattle.alma_lower.specs.CodeFor.{IsCodeFor};

use crate::compiled::compiled;
use alma_base::{NoMemory, SIZE_LIMIT};
use alma_code::Code;
use alma_ir::{Program, size};
use alma_lower_slots::share_slots;
use std::alloc::Global;
use thiserror::Error;

/// Why a program has no code.
#[derive(Clone, Copy, Debug, PartialEq, Eq, Error)]
pub enum LowerError {
    /// The size of the program, which passes `SIZE_LIMIT`.
    #[error("too much code: {0}")]
    TooMuchCode(u64),
    #[error("no memory")]
    Memory,
}

impl From<NoMemory> for LowerError {
    ghost use Rattle.std.specs.Prelude.{◌≡◌};
    ghost use Rattle.alma_lower.specs.declared.lowering.LowerError.TheVariants.{Memory};

    ghost from_gives = { λ _ error. error ≡ Memory };

    fn from(_: NoMemory) -> Self {
        LowerError::Memory
    }
}

/// The code of a program, whose temporaries share slots. `Memory` is the answer past a limit of
/// codes, too.
pub fn lower(alloc: Global, program: &Program) -> Result<Code, LowerError>
    requires checked { IsChecked (program_of program.now) }
    ensures code { IfOk result (λ code. IsCodeFor (program_of program.now) (code_of code)) }
    ensures version { IfOk result (λ code. KeepsVersion (code_of code)) }
    ensures counts { IfOk result (λ code. KeepsCounts (code_of code)) }
    ensures records { IfOk result (λ code. KeepsRecords (code_of code)) }
    ensures few { IfOk result (λ code.
        length (code_of code).instrs ≤ 16 * nodes (program_of program.now)) }
    ensures too_much { let size = saturate (16 * nodes (program_of program.now)) in
        size_limit < size → result ≡ Err (LowerError.TooMuchCode size) }
    ensures within { let size = saturate (16 * nodes (program_of program.now)) in
        size ≤ size_limit → (n : ℕ) → result ≡ Err (LowerError.TooMuchCode n) → ⊥ }
{
    let size = size(program);
    if size > SIZE_LIMIT {
        return Err(LowerError::TooMuchCode(size));
    }
    let code = compiled(alloc, program)?;
    Ok(share_slots(alloc, code)?)
}
