// The listing: the version, the globals, the routines with their instructions, and the lines.
ghost use Rattle.std.specs.Prelude.{◌≡◌, ◌∷◌, ◌++◌, [], codes, ◌+◌, ◌<◌, ◌-◌, drop, take, flat_map, OnOk, IfOk};
ghost use Rattle.alma_code.specs.ListText.{bit_text, global_words, instr_lines, line_words, list_text, routine_lines, routine_words, text_line};
ghost use Rattle.alma_code.specs.Plain.{code_of, global_of, routine_of};

use crate::form::push_instr;
use crate::line::{push_line, push_line_of_words, push_next, push_numbers, push_word};
use alma_base::NoMemory;
use alma_code::{Code, CodeGlobal, Instr, Line, RoutineHead};
use itoa::Buffer;
use std::alloc::Global;

// The line of a variable of the module.
fn push_global(text: &mut Vec<u8>, global: &CodeGlobal) -> Result<(), NoMemory>
    ensures { OnOk result
        (text.new.items ≡ text.old.items ++ text_line (global_words (global_of global.now))) }
{
    push_word(text, b"global")?;
    push_next(text, &global.name)?;
    push_numbers(text, &[global.slot, global.cells])?;
    text.push(b'\n')?;
    Ok(())
}

// 0 or 1.
fn bit_text(bit: bool) -> &'static [u8]
    ensures { result.now ≡ bit_text bit }
{
    if bit { b"1" } else { b"0" }
}

// The line of a routine, by the texts in it.
fn push_routine_words(
    text: &mut Vec<u8>,
    number: &[u8],
    name: &[u8],
    slots: &[u8],
    declared: &[u8],
    params: &[u8],
    has_result: &[u8],
) -> Result<(), NoMemory>
    ensures { OnOk result (text.new.items ≡ text.old.items ++ text_line (codes "routine"
        ∷ number.now ∷ name.now ∷ codes "slots" ∷ slots.now ∷ codes "declared" ∷ declared.now
        ∷ codes "params" ∷ params.now ∷ codes "result" ∷ has_result.now ∷ [])) }
{
    let (of_slots, of_declared) = (b"slots".as_slice(), b"declared".as_slice());
    let (of_params, of_result) = (b"params".as_slice(), b"result".as_slice());
    push_line_of_words(
        text,
        b"routine",
        &[
            number,
            name,
            of_slots,
            slots,
            of_declared,
            declared,
            of_params,
            params,
            of_result,
            has_result,
        ],
    )
}

// The line of a routine with its number.
fn push_routine(text: &mut Vec<u8>, number: u64, routine: &RoutineHead) -> Result<(), NoMemory>
    ensures { OnOk result (text.new.items
        ≡ text.old.items ++ text_line (routine_words number (routine_of routine.now))) }
{
    let mut number_digits = Buffer::new();
    let mut slots_digits = Buffer::new();
    let mut declared_digits = Buffer::new();
    let mut params_digits = Buffer::new();
    push_routine_words(
        text,
        number_digits.format(number).as_bytes(),
        &routine.name,
        slots_digits.format(routine.slots).as_bytes(),
        declared_digits.format(routine.declared).as_bytes(),
        params_digits.format(routine.params.len()).as_bytes(),
        bit_text(routine.result),
    )
}

// The lines of instructions, the first at an address.
fn push_instrs(text: &mut Vec<u8>, at: u32, instrs: &[Instr]) -> Result<(), NoMemory>
    ensures { OnOk result
        (text.new.items ≡ text.old.items ++ flat_map text_line (instr_lines at instrs.now)) }
{
    for (index, instr) in instrs.iter().enumerate() {
        push_instr(text, u64::from(at) + index as u64, *instr)?;
    }
    Ok(())
}

// The instructions from an address up to another.
fn instrs_between(instrs: &[Instr], at: u32, end: u32) -> &[Instr]
    ensures { result.now ≡ take (end - at) (drop at instrs.now) }
{
    let start = (at as usize).min(instrs.len());
    let behind = &instrs[start..];
    let count = (end.saturating_sub(at) as usize).min(behind.len());
    &behind[..count]
}

// The routines, each with its instructions.
fn push_routines(text: &mut Vec<u8>, code: &Code) -> Result<(), NoMemory>
    ensures { OnOk result (text.new.items ≡ text.old.items
        ++ flat_map text_line (routine_lines (code_of code.now) 0 0 (code_of code.now).routines)) }
{
    let mut at = 0;
    for (number, routine) in code.routines.iter().enumerate() {
        push_routine(text, number as u64, routine)?;
        push_instrs(text, at, instrs_between(&code.code, at, routine.code_end))?;
        at = routine.code_end;
    }
    Ok(())
}

// The variables of the module.
fn push_globals(text: &mut Vec<u8>, globals: &[CodeGlobal]) -> Result<(), NoMemory>
    ensures { OnOk result (text.new.items ≡ text.old.items
        ++ flat_map (λ global. text_line (global_words (global_of global))) globals.now) }
{
    for global in globals {
        push_global(text, global)?;
    }
    Ok(())
}

// The records of the lines.
fn push_records(text: &mut Vec<u8>, lines: &[Line]) -> Result<(), NoMemory>
    ensures { OnOk result
        (text.new.items ≡ text.old.items ++ flat_map (λ line. text_line (line_words line))
        lines.now) }
{
    for line in lines {
        push_line(text, "line", &[line.at, line.line])?;
    }
    Ok(())
}

/// The text that lists a code: its version, the variables of the module, each routine with its
/// instructions, and the lines of addresses.
pub fn list_text(alloc: Global, code: &Code) -> Result<Vec<u8>, NoMemory>
    ensures { IfOk result (λ listing. listing.items ≡ list_text (code_of code.now)) }
{
    let mut text = Vec::new(alloc);
    push_line(&mut text, "object", &[u32::from(code.version)])?;
    push_globals(&mut text, &code.globals)?;
    push_routines(&mut text, code)?;
    push_records(&mut text, &code.lines)?;
    Ok(text)
}
