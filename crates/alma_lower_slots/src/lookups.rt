// What the checker and the analysis ask of the routines of a code.
ghost use Rattle.std.specs.Prelude.{◌≡◌, length, get_or};
ghost use Rattle.alma_code.specs.Plain.{code_of, head_at, start_at, end_at};
ghost use Rattle.alma_code.specs.declared.instr.Instr.TheVariants as I;

use alma_code::{Code, Head, Instr};

/// Whether a routine has a result.
pub fn has_result(code: &Code, routine: u32) -> bool
    ensures { result ≡ (head_at (code_of code.now) routine).has_result }
{
    match code.routines.get(routine as usize) {
        None => false,
        Some(found) => found.result,
    }
}

/// How many parameters a routine has.
pub fn param_count(code: &Code, routine: u32) -> u32
    ensures { result ≡ length (head_at (code_of code.now) routine).params }
{
    match code.routines.get(routine as usize) {
        None => 0,
        Some(found) => found.param_count(),
    }
}

/// The address behind the last instruction of a routine.
pub fn end_of(code: &Code, routine: usize) -> u32
    ensures { result ≡ end_at (code_of code.now) routine }
{
    match code.routines.get(routine) {
        None => 0,
        Some(found) => found.code_end,
    }
}

/// The address of the first instruction of a routine.
pub fn start_of(code: &Code, routine: usize) -> u32
    ensures { result ≡ start_at (code_of code.now) routine }
{
    if routine == 0 {
        return 0;
    }
    end_of(code, routine - 1)
}

/// The instruction at an address.
pub fn instr_at(code: &Code, at: u32) -> Instr
    ensures { result ≡ get_or (code_of code.now).instrs at I.Fail }
{
    match code.code.get(at as usize) {
        None => Instr::Fail,
        Some(found) => *found,
    }
}
