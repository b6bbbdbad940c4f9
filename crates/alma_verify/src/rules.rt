// The rules of one instruction, one function each.
ghost use Rattle.std.specs.Prelude.{slice_get, ◌≡◌, ◌<◌, length};
ghost use Rattle.alma_code.specs.Rules.{names_slot as names_slot_spec, rule_4 as rule_4_spec, rule_7 as rule_7_spec, names_entry as names_entry_spec, rule_8 as rule_8_spec, rule_12 as rule_12_spec, rule_5 as rule_5_spec, rule_6 as rule_6_spec, has_room as has_room_spec, is_address as is_address_spec, names_address as names_address_spec, rule_9 as rule_9_spec, rule_10 as rule_10_spec, rule_11 as rule_11_spec, holds_result as holds_result_spec};
ghost use Rattle.alma_verify.specs.Routines.{HasRoutine};
ghost use Rattle.alma_verify.specs.Seen.{AreFit};

use crate::kinds::{is_link, is_link_of, is_mark, is_number, is_place, is_place_of};
use crate::reader::CodeReader;
use crate::seen::SeenCalls;
use crate::slots::{
    are_cells, are_numbers_of_any, is_slot, kind_of, kind_of_any, length_of, link_of, start_of,
};
use crate::words::words_of;
use alma_code::{Instr, NO_CASE, NO_RETURN, Word};

// Rule 4 for one word: a slot word names a slot of the kind that the form states, and not the
// input position. All other words pass.
fn names_slot<R: CodeReader>(reader: &R, routine: u32, word: Word) -> bool
    requires { HasRoutine (R.code reader.now) routine }
    ensures { result ≡ names_slot_spec (R.code reader.now) routine word }
{
    match word {
        Word::Number(slot) => {
            is_slot(reader, routine, slot) && is_number(kind_of(reader, routine, u64::from(slot)))
        }
        Word::Place(slot) => {
            is_slot(reader, routine, slot) && is_place(kind_of(reader, routine, u64::from(slot)))
        }
        Word::Mark(slot) => {
            is_slot(reader, routine, slot) && is_mark(kind_of(reader, routine, u64::from(slot)))
        }
        Word::Link(slot) => {
            is_slot(reader, routine, slot) && is_link(kind_of(reader, routine, u64::from(slot)))
        }
        Word::Slot(slot) => is_slot(reader, routine, slot),
        Word::Range(_) | Word::Text(_) | Word::Address(_) | Word::Free => true,
    }
}

/// Rule 4: each slot word is below the routine's slots, of the kind that the form states, and not
/// slot 0 of routine 0.
pub fn rule_4<R: CodeReader>(reader: &R, routine: u32, instr: Instr) -> bool
    requires { HasRoutine (R.code reader.now) routine }
    ensures { result ≡ rule_4_spec (R.code reader.now) routine instr }
{
    let [a, b, c, d] = words_of(instr);
    names_slot(reader, routine, a)
        && names_slot(reader, routine, b)
        && names_slot(reader, routine, c)
        && names_slot(reader, routine, d)
}

/// Rule 7: an instruction on single cells has places of length 1; CopyCells and SameCells have two
/// places of equal length.
#[tactic(auto, unfolding(alma_code::specs::Rules::rule_7))]
pub fn rule_7<R: CodeReader>(reader: &R, routine: u32, instr: Instr) -> bool
    requires { HasRoutine (R.code reader.now) routine }
    ensures { result ≡ rule_7_spec (R.code reader.now) routine instr }
{
    match instr {
        Instr::Load { to: _, from } => length_of(reader, routine, from) == 1,
        Instr::Store { to, from: _ } => length_of(reader, routine, to) == 1,
        Instr::Known { to: _, of } => length_of(reader, routine, of) == 1,
        Instr::Bind {
            place,
            value: _,
            range: _,
        } => length_of(reader, routine, place) == 1,
        Instr::Unify {
            left,
            left_range: _,
            right,
            right_range: _,
        } => { length_of(reader, routine, left) == 1 && length_of(reader, routine, right) == 1 }
        Instr::CopyCells { to, from } => {
            length_of(reader, routine, to) == length_of(reader, routine, from)
        }
        Instr::SameCells { left, right } => {
            length_of(reader, routine, left) == length_of(reader, routine, right)
        }
        Instr::ReadInt { place, range: _ } => length_of(reader, routine, place) == 1,
        Instr::ReadChar { place, range: _ } => length_of(reader, routine, place) == 1,
        _ => true,
    }
}

// Rule 8 for one word: a range word or a text word is below its count. All other words pass.
fn names_entry<R: CodeReader>(reader: &R, word: Word) -> bool
    ensures { result ≡ names_entry_spec (R.code reader.now) word }
{
    match word {
        Word::Range(range) => reader.range(range).is_some(),
        Word::Text(text) => reader.has_text(text),
        Word::Number(_)
        | Word::Place(_)
        | Word::Mark(_)
        | Word::Link(_)
        | Word::Slot(_)
        | Word::Address(_)
        | Word::Free => true,
    }
}

/// Rule 8: each range word and each text word is below its count.
pub fn rule_8<R: CodeReader>(reader: &R, instr: Instr) -> bool
    ensures { result ≡ rule_8_spec (R.code reader.now) instr }
{
    let [a, b, c, d] = words_of(instr);
    names_entry(reader, a)
        && names_entry(reader, b)
        && names_entry(reader, c)
        && names_entry(reader, d)
}

/// Rule 12: ReturnValue stands only in a routine with a result, Return only in one without, and the
/// word of Fault is 5 (NoCase) or 6 (NoReturn).
#[tactic(auto, unfolding(alma_code::specs::Rules::rule_12))]
pub fn rule_12<R: CodeReader>(reader: &R, routine: u32, instr: Instr) -> bool
    requires { routine < length (R.code reader.now).routines }
    ensures { result ≡ rule_12_spec (R.code reader.now) routine instr }
{
    match instr {
        Instr::ReturnValue { value: _ } => reader.has_result(routine),
        Instr::Return => !reader.has_result(routine),
        Instr::Fault { number } => number == NO_CASE || number == NO_RETURN,
        _ => true,
    }
}

/// Rule 5: Local, Global, Same and Field make places of cells that are there, and Own, Chain, Outer
/// and OuterSame agree with the routine that a link leads to.
#[tactic(auto, unfolding(alma_code::specs::Rules::rule_5))]
pub fn rule_5<R: CodeReader>(reader: &R, routine: u32, instr: Instr) -> bool
    requires { HasRoutine (R.code reader.now) routine }
    ensures { result ≡ rule_5_spec (R.code reader.now) routine instr }
{
    match instr {
        Instr::Local { to, first } => {
            are_cells(reader, routine, first, length_of(reader, routine, to))
        }
        Instr::Global { to, first } => are_cells(reader, 0, first, length_of(reader, routine, to)),
        Instr::Same { to, from } => {
            length_of(reader, routine, to) == length_of(reader, routine, from)
        }
        Instr::Field { to, from, offset } => {
            u64::from(offset) + u64::from(length_of(reader, routine, to))
                <= u64::from(length_of(reader, routine, from))
        }
        Instr::Own { to } => is_link_of(routine, kind_of(reader, routine, u64::from(to))),
        Instr::Chain { to, link, slot } => is_link_of(
            link_of(reader, routine, to),
            kind_of_any(reader, link_of(reader, routine, link), slot),
        ),
        Instr::Outer { to, link, first } => are_numbers_of_any(
            reader,
            link_of(reader, routine, link),
            first,
            length_of(reader, routine, to),
        ),
        Instr::OuterSame { to, link, slot } => is_place_of(
            length_of(reader, routine, to),
            kind_of_any(reader, link_of(reader, routine, link), slot),
        ),
        _ => true,
    }
}

// Whether the address is that of an instruction of this routine.
fn is_address<R: CodeReader>(reader: &R, routine: u32, at: u32) -> bool
    requires { routine < length (R.code reader.now).routines }
    ensures { result ≡ is_address_spec (R.code reader.now) routine at }
{
    start_of(reader, routine) <= at && at < reader.code_end(routine)
}

// Rule 9 for one word: an address word is an address of this routine. All other words pass.
fn names_address<R: CodeReader>(reader: &R, routine: u32, word: Word) -> bool
    requires { routine < length (R.code reader.now).routines }
    ensures { result ≡ names_address_spec (R.code reader.now) routine word }
{
    match word {
        Word::Address(at) => is_address(reader, routine, at),
        Word::Number(_)
        | Word::Place(_)
        | Word::Mark(_)
        | Word::Link(_)
        | Word::Slot(_)
        | Word::Range(_)
        | Word::Text(_)
        | Word::Free => true,
    }
}

/// Rule 9: each address word is an address of the same routine.
pub fn rule_9<R: CodeReader>(reader: &R, routine: u32, instr: Instr) -> bool
    requires { routine < length (R.code reader.now).routines }
    ensures { result ≡ rule_9_spec (R.code reader.now) routine instr }
{
    let [a, b, c, d] = words_of(instr);
    names_address(reader, routine, a)
        && names_address(reader, routine, b)
        && names_address(reader, routine, c)
        && names_address(reader, routine, d)
}

/// Rule 11: the instruction is not the last of its routine, or is Jump, Fail, Return, ReturnValue
/// or Fault.
#[tactic(auto, unfolding(alma_code::specs::Rules::rule_11))]
pub fn rule_11<R: CodeReader>(reader: &R, routine: u32, at: u32, instr: Instr) -> bool
    requires routine { routine < length (R.code reader.now).routines }
    requires at { at < length (R.code reader.now).instrs }
    ensures { result ≡ rule_11_spec (R.code reader.now) routine at instr }
{
    u64::from(at) + 1 < u64::from(reader.code_end(routine)) || instr.ends_routine()
}

// The part of rule 10 on the result of a call: where the callee `gives` one, `to` is a number slot
// that is not the input position; else `to` is 0.
fn has_place_for_result<R: CodeReader>(reader: &R, routine: u32, gives: bool, to: u32) -> bool
    requires { HasRoutine (R.code reader.now) routine }
    ensures { result ≡ holds_result_spec (R.code reader.now) routine gives to }
{
    if gives {
        (routine > 0 || to > 0) && is_number(kind_of(reader, routine, u64::from(to)))
    } else {
        to == 0
    }
}

/// Rule 10: Call names a routine from 1 on, slots that match its parameters and a slot for its
/// result, and is not the last instruction. A call whose arguments fit is remembered in `seen`.
#[tactic(auto, unfolding(alma_code::specs::Rules::rule_10), using(crate::proofs::RuleStarts::firsts))]
pub fn rule_10<R: CodeReader>(
    reader: &R,
    routine: u32,
    at: u32,
    instr: Instr,
    seen: &mut SeenCalls,
) -> bool
    requires routine { HasRoutine (R.code reader.now) routine }
    requires at { at < length (R.code reader.now).instrs }
    requires seen { AreFit (R.code reader.now) seen.old }
    ensures rule { result ≡ rule_10_spec (R.code reader.now) routine at instr }
    ensures seen { AreFit (R.code reader.now) seen.new }
{
    match instr {
        Instr::Call {
            routine: callee,
            first,
            to,
        } => {
            callee > 0
                && callee < reader.routine_count()
                && seen.fit_all(reader, routine, callee, first)
                && (reader.param_count(callee) > 0 || first == 0)
                && has_place_for_result(reader, routine, reader.has_result(callee), to)
                && u64::from(at) + 1 < u64::from(reader.code_end(routine))
        }
        _ => true,
    }
}

// Whether as many elements as a range has numbers fit into an array.
fn has_room<R: CodeReader>(reader: &R, range: u32, each: u32, all: u32) -> bool
    ensures { result ≡ has_room_spec (slice_get (R.code reader.now).ranges range) each all }
{
    match reader.range(range) {
        None => true,
        Some(range) => {
            let size = (i128::from(range.high) - i128::from(range.low)).unsigned_abs() + 1;
            size * u128::from(each) <= u128::from(all)
        }
    }
}

/// Rule 6: the count of numbers in the range of Index, times the length of its part, is at most the
/// length of the whole.
#[tactic(auto, unfolding(alma_code::specs::Rules::rule_6))]
pub fn rule_6<R: CodeReader>(reader: &R, routine: u32, instr: Instr) -> bool
    requires { HasRoutine (R.code reader.now) routine }
    ensures { result ≡ rule_6_spec (R.code reader.now) routine instr }
{
    match instr {
        Instr::Index {
            to,
            from,
            index: _,
            range,
        } => has_room(
            reader,
            range,
            length_of(reader, routine, to),
            length_of(reader, routine, from),
        ),
        _ => true,
    }
}
