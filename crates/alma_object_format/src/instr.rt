// The record of an instruction: its opcode and four words.
ghost use Rattle.std.specs.Prelude.{◌≡◌, ◌+◌, ◌≤◌, ◌++◌, ◌∷◌, length, slice_index, OnOk};
ghost use Rattle.alma_object_format.specs.Bytes.{words_bytes};
ghost use Rattle.alma_object_format.specs.Instrs.{const_bytes, instr_bytes, is_instr as is_instr_there, instr_at as instr_there, last_opcode, record_bytes};
ghost use Rattle.alma_object_format.specs.Lengths.{instr_len};

use crate::bytes::{i64_at, push_i64, push_words, u32_at};
use crate::{offsets, opcode};
use alma_base::NoMemory;
use alma_code::{Instr, LATEST_VERSION};

// How many words the forms use, in the order of their opcodes from 1 on.
const USED_WORDS: [u8; 52] = [
    3, 2, 3, 3, 3, 3, 3, 2, 3, 3, 3, 2, 2, 2, 2, 2, 3, 4, 2, 2, 2, 3, 4, 2, 2, 1, 2, 1, 0, 1, 1, 1,
    2, 2, 1, 0, 3, 0, 1, 2, 2, 1, 1, 1, 1, 0, 1, 4, 1, 3, 3, 3,
];

// An opcode and its words.
fn push_record(out: &mut Vec<u8>, opcode: u8, words: &[u32]) -> Result<(), NoMemory>
    ensures { OnOk result (out.new.items ≡ out.old.items ++ (opcode ∷ words_bytes words.now)) }
{
    out.push(opcode)?;
    push_words(out, words)?;
    Ok(())
}

// A record of no word.
fn push_none(out: &mut Vec<u8>, opcode: u8) -> Result<(), NoMemory>
    ensures { OnOk result (out.new.items ≡ out.old.items ++ record_bytes opcode 0 0 0 0) }
{
    push_record(out, opcode, &[0, 0, 0, 0])
}

// A record of one word.
fn push_one(out: &mut Vec<u8>, opcode: u8, a: u32) -> Result<(), NoMemory>
    ensures { OnOk result (out.new.items ≡ out.old.items ++ record_bytes opcode a 0 0 0) }
{
    push_record(out, opcode, &[a, 0, 0, 0])
}

// A record of two words.
fn push_two(out: &mut Vec<u8>, opcode: u8, a: u32, b: u32) -> Result<(), NoMemory>
    ensures { OnOk result (out.new.items ≡ out.old.items ++ record_bytes opcode a b 0 0) }
{
    push_record(out, opcode, &[a, b, 0, 0])
}

// A record of three words.
fn push_three(out: &mut Vec<u8>, opcode: u8, a: u32, b: u32, c: u32) -> Result<(), NoMemory>
    ensures { OnOk result (out.new.items ≡ out.old.items ++ record_bytes opcode a b c 0) }
{
    push_record(out, opcode, &[a, b, c, 0])
}

// A Const and its value, which takes two words.
fn push_const(out: &mut Vec<u8>, to: u32, value: i64) -> Result<(), NoMemory>
    ensures { OnOk result (out.new.items ≡ out.old.items ++ const_bytes to value) }
{
    out.push(opcode::CONST)?;
    push_words(out, &[to])?;
    push_i64(out, value)?;
    push_words(out, &[0])?;
    Ok(())
}

/// Appends the record of an instruction.
#[tactic(auto, unfolding(crate::specs::Instrs::instr_bytes))]
pub fn push_instr(out: &mut Vec<u8>, instr: Instr) -> Result<(), NoMemory>
    ensures { OnOk result (out.new.items ≡ out.old.items ++ instr_bytes instr) }
{
    match instr {
        Instr::Const { to, value } => push_const(out, to, value),
        Instr::Move { to, from } => push_two(out, opcode::MOVE, to, from),
        Instr::Add { to, left, right } => push_three(out, opcode::ADD, to, left, right),
        Instr::Sub { to, left, right } => push_three(out, opcode::SUB, to, left, right),
        Instr::Mul { to, left, right } => push_three(out, opcode::MUL, to, left, right),
        Instr::Div { to, left, right } => push_three(out, opcode::DIV, to, left, right),
        Instr::Mod { to, left, right } => push_three(out, opcode::MOD, to, left, right),
        Instr::Neg { to, from } => push_two(out, opcode::NEG, to, from),
        Instr::Equal { to, left, right } => push_three(out, opcode::EQUAL, to, left, right),
        Instr::Less { to, left, right } => push_three(out, opcode::LESS, to, left, right),
        Instr::LessEq { to, left, right } => push_three(out, opcode::LESS_EQ, to, left, right),
        Instr::Flip { to, from } => push_two(out, opcode::FLIP, to, from),
        Instr::InRange { value, range } => push_two(out, opcode::IN_RANGE, value, range),
        Instr::Local { to, first } => push_two(out, opcode::LOCAL, to, first),
        Instr::Global { to, first } => push_two(out, opcode::GLOBAL, to, first),
        Instr::Same { to, from } => push_two(out, opcode::SAME, to, from),
        Instr::Field { to, from, offset } => push_three(out, opcode::FIELD, to, from, offset),
        Instr::Index {
            to,
            from,
            index,
            range,
        } => push_record(out, opcode::INDEX, &[to, from, index, range]),
        Instr::Load { to, from } => push_two(out, opcode::LOAD, to, from),
        Instr::Store { to, from } => push_two(out, opcode::STORE, to, from),
        Instr::Known { to, of } => push_two(out, opcode::KNOWN, to, of),
        Instr::Bind {
            place,
            value,
            range,
        } => push_three(out, opcode::BIND, place, value, range),
        Instr::Unify {
            left,
            left_range,
            right,
            right_range,
        } => push_record(out, opcode::UNIFY, &[left, left_range, right, right_range]),
        Instr::CopyCells { to, from } => push_two(out, opcode::COPY_CELLS, to, from),
        Instr::SameCells { left, right } => push_two(out, opcode::SAME_CELLS, left, right),
        Instr::Jump { to } => push_one(out, opcode::JUMP, to),
        Instr::JumpZero { value, to } => push_two(out, opcode::JUMP_ZERO, value, to),
        Instr::Check { value } => push_one(out, opcode::CHECK, value),
        Instr::Fail => push_none(out, opcode::FAIL),
        Instr::Mark { to } => push_one(out, opcode::MARK, to),
        Instr::Cut { mark } => push_one(out, opcode::CUT, mark),
        Instr::Choose { resume } => push_one(out, opcode::CHOOSE, resume),
        Instr::Forall { mark, resume } => push_two(out, opcode::FORALL, mark, resume),
        Instr::Overlay { mark, resume } => push_two(out, opcode::OVERLAY, mark, resume),
        Instr::Keep { mark } => push_one(out, opcode::KEEP, mark),
        Instr::Finish => push_none(out, opcode::FINISH),
        Instr::Call { routine, first, to } => push_three(out, opcode::CALL, routine, first, to),
        Instr::Return => push_none(out, opcode::RETURN),
        Instr::ReturnValue { value } => push_one(out, opcode::RETURN_VALUE, value),
        Instr::ReadInt { place, range } => push_two(out, opcode::READ_INT, place, range),
        Instr::ReadChar { place, range } => push_two(out, opcode::READ_CHAR, place, range),
        Instr::WriteInt { value } => push_one(out, opcode::WRITE_INT, value),
        Instr::WriteChar { value } => push_one(out, opcode::WRITE_CHAR, value),
        Instr::WriteBool { value } => push_one(out, opcode::WRITE_BOOL, value),
        Instr::WriteText { text } => push_one(out, opcode::WRITE_TEXT, text),
        Instr::WriteLine => push_none(out, opcode::WRITE_LINE),
        Instr::Fault { number } => push_one(out, opcode::FAULT, number),
        Instr::Step {
            counter,
            limit,
            by,
            out: past,
        } => push_record(out, opcode::STEP, &[counter, limit, by, past]),
        Instr::Own { to } => push_one(out, opcode::OWN, to),
        Instr::Chain { to, link, slot } => push_three(out, opcode::CHAIN, to, link, slot),
        Instr::Outer { to, link, first } => push_three(out, opcode::OUTER, to, link, first),
        Instr::OuterSame { to, link, slot } => push_three(out, opcode::OUTER_SAME, to, link, slot),
    }
}

// The last opcode of a version.
fn last_opcode(version: u16) -> u8
    ensures { result ≡ last_opcode version }
{
    if version == LATEST_VERSION {
        opcode::OUTER_SAME
    } else {
        opcode::STEP
    }
}

/// Whether the record at an offset is that of an instruction of the version.
#[tactic(auto, unfolding(crate::specs::Instrs::is_instr))]
pub fn is_instr(version: u16, bytes: &[u8], at: usize) -> bool
    requires { at + instr_len ≤ length bytes.now }
    ensures { result ≡ is_instr_there version bytes.now at }
{
    let opcode = bytes[at];
    if opcode < 1 || opcode > last_opcode(version) {
        return false;
    }
    let a = u32_at(bytes, at + offsets::WORD_A);
    let b = u32_at(bytes, at + offsets::WORD_B);
    let c = u32_at(bytes, at + offsets::WORD_C);
    let d = u32_at(bytes, at + offsets::WORD_D);
    match USED_WORDS[usize::from(opcode) - 1] {
        0 => a == 0 && b == 0 && c == 0 && d == 0,
        1 => b == 0 && c == 0 && d == 0,
        2 => c == 0 && d == 0,
        3 => d == 0,
        _ => true,
    }
}

/// The instruction whose record stands at an offset, or Fail where it has no opcode of a form. The
/// forms stand in five groups, by their opcodes, each with a reader of its own.
#[inline(always)]
#[tactic(auto, unfolding(crate::specs::Instrs::instr_at))]
pub fn instr_at(bytes: &[u8], at: usize) -> Instr
    requires { at + instr_len ≤ length bytes.now }
    ensures { result ≡ instr_there bytes.now at }
{
    match bytes[at] {
        1..=13 => number_instr(bytes, at),
        14..=25 => place_instr(bytes, at),
        26..=36 => control_instr(bytes, at),
        37..=48 => call_instr(bytes, at),
        49..=52 => link_instr(bytes, at),
        _ => Instr::Fail,
    }
}

// The instruction at an offset, of a form on numbers: `CONST` to `IN_RANGE`.
#[inline(always)]
#[tactic(auto, unfolding(crate::specs::Instrs::instr_at))]
fn number_instr(bytes: &[u8], at: usize) -> Instr
    requires whole { at + instr_len ≤ length bytes.now }
    requires first { 1 ≤ slice_index bytes.now at }
    requires last { slice_index bytes.now at ≤ 13 }
    ensures { result ≡ instr_there bytes.now at }
{
    let to = u32_at(bytes, at + offsets::WORD_A);
    let left = u32_at(bytes, at + offsets::WORD_B);
    let right = u32_at(bytes, at + offsets::WORD_C);
    match bytes[at] {
        opcode::CONST => Instr::Const {
            to,
            value: i64_at(bytes, at + offsets::WORD_B),
        },
        opcode::MOVE => Instr::Move { to, from: left },
        opcode::ADD => Instr::Add { to, left, right },
        opcode::SUB => Instr::Sub { to, left, right },
        opcode::MUL => Instr::Mul { to, left, right },
        opcode::DIV => Instr::Div { to, left, right },
        opcode::MOD => Instr::Mod { to, left, right },
        opcode::NEG => Instr::Neg { to, from: left },
        opcode::EQUAL => Instr::Equal { to, left, right },
        opcode::LESS => Instr::Less { to, left, right },
        opcode::LESS_EQ => Instr::LessEq { to, left, right },
        opcode::FLIP => Instr::Flip { to, from: left },
        opcode::IN_RANGE => Instr::InRange {
            value: to,
            range: left,
        },
        _ => Instr::Fail,
    }
}

// The instruction at an offset, of a form on places: `LOCAL` to `SAME_CELLS`.
#[inline(always)]
#[tactic(auto, unfolding(crate::specs::Instrs::instr_at))]
fn place_instr(bytes: &[u8], at: usize) -> Instr
    requires whole { at + instr_len ≤ length bytes.now }
    requires first { 14 ≤ slice_index bytes.now at }
    requires last { slice_index bytes.now at ≤ 25 }
    ensures { result ≡ instr_there bytes.now at }
{
    let a = u32_at(bytes, at + offsets::WORD_A);
    let b = u32_at(bytes, at + offsets::WORD_B);
    let c = u32_at(bytes, at + offsets::WORD_C);
    let d = u32_at(bytes, at + offsets::WORD_D);
    match bytes[at] {
        opcode::LOCAL => Instr::Local { to: a, first: b },
        opcode::GLOBAL => Instr::Global { to: a, first: b },
        opcode::SAME => Instr::Same { to: a, from: b },
        opcode::FIELD => Instr::Field {
            to: a,
            from: b,
            offset: c,
        },
        opcode::INDEX => Instr::Index {
            to: a,
            from: b,
            index: c,
            range: d,
        },
        opcode::LOAD => Instr::Load { to: a, from: b },
        opcode::STORE => Instr::Store { to: a, from: b },
        opcode::KNOWN => Instr::Known { to: a, of: b },
        opcode::BIND => Instr::Bind {
            place: a,
            value: b,
            range: c,
        },
        opcode::UNIFY => Instr::Unify {
            left: a,
            left_range: b,
            right: c,
            right_range: d,
        },
        opcode::COPY_CELLS => Instr::CopyCells { to: a, from: b },
        opcode::SAME_CELLS => Instr::SameCells { left: a, right: b },
        _ => Instr::Fail,
    }
}

// The instruction at an offset, of a form of control and choices: `JUMP` to `FINISH`.
#[inline(always)]
#[tactic(auto, unfolding(crate::specs::Instrs::instr_at))]
fn control_instr(bytes: &[u8], at: usize) -> Instr
    requires whole { at + instr_len ≤ length bytes.now }
    requires first { 26 ≤ slice_index bytes.now at }
    requires last { slice_index bytes.now at ≤ 36 }
    ensures { result ≡ instr_there bytes.now at }
{
    let a = u32_at(bytes, at + offsets::WORD_A);
    let b = u32_at(bytes, at + offsets::WORD_B);
    match bytes[at] {
        opcode::JUMP => Instr::Jump { to: a },
        opcode::JUMP_ZERO => Instr::JumpZero { value: a, to: b },
        opcode::CHECK => Instr::Check { value: a },
        opcode::FAIL => Instr::Fail,
        opcode::MARK => Instr::Mark { to: a },
        opcode::CUT => Instr::Cut { mark: a },
        opcode::CHOOSE => Instr::Choose { resume: a },
        opcode::FORALL => Instr::Forall { mark: a, resume: b },
        opcode::OVERLAY => Instr::Overlay { mark: a, resume: b },
        opcode::KEEP => Instr::Keep { mark: a },
        opcode::FINISH => Instr::Finish,
        _ => Instr::Fail,
    }
}

// The instruction at an offset, of a form of calls, input, output and loops: `CALL` to `STEP`.
#[inline(always)]
#[tactic(auto, unfolding(crate::specs::Instrs::instr_at))]
fn call_instr(bytes: &[u8], at: usize) -> Instr
    requires whole { at + instr_len ≤ length bytes.now }
    requires first { 37 ≤ slice_index bytes.now at }
    requires last { slice_index bytes.now at ≤ 48 }
    ensures { result ≡ instr_there bytes.now at }
{
    let a = u32_at(bytes, at + offsets::WORD_A);
    let b = u32_at(bytes, at + offsets::WORD_B);
    let c = u32_at(bytes, at + offsets::WORD_C);
    let d = u32_at(bytes, at + offsets::WORD_D);
    match bytes[at] {
        opcode::CALL => Instr::Call {
            routine: a,
            first: b,
            to: c,
        },
        opcode::RETURN => Instr::Return,
        opcode::RETURN_VALUE => Instr::ReturnValue { value: a },
        opcode::READ_INT => Instr::ReadInt { place: a, range: b },
        opcode::READ_CHAR => Instr::ReadChar { place: a, range: b },
        opcode::WRITE_INT => Instr::WriteInt { value: a },
        opcode::WRITE_CHAR => Instr::WriteChar { value: a },
        opcode::WRITE_BOOL => Instr::WriteBool { value: a },
        opcode::WRITE_TEXT => Instr::WriteText { text: a },
        opcode::WRITE_LINE => Instr::WriteLine,
        opcode::FAULT => Instr::Fault { number: a },
        opcode::STEP => Instr::Step {
            counter: a,
            limit: b,
            by: c,
            out: d,
        },
        _ => Instr::Fail,
    }
}

// The instruction at an offset, of a form on links: `OWN` to `OUTER_SAME`.
#[inline(always)]
#[tactic(auto, unfolding(crate::specs::Instrs::instr_at))]
fn link_instr(bytes: &[u8], at: usize) -> Instr
    requires whole { at + instr_len ≤ length bytes.now }
    requires first { 49 ≤ slice_index bytes.now at }
    requires last { slice_index bytes.now at ≤ 52 }
    ensures { result ≡ instr_there bytes.now at }
{
    let a = u32_at(bytes, at + offsets::WORD_A);
    let b = u32_at(bytes, at + offsets::WORD_B);
    let c = u32_at(bytes, at + offsets::WORD_C);
    match bytes[at] {
        opcode::OWN => Instr::Own { to: a },
        opcode::CHAIN => Instr::Chain {
            to: a,
            link: b,
            slot: c,
        },
        opcode::OUTER => Instr::Outer {
            to: a,
            link: b,
            first: c,
        },
        opcode::OUTER_SAME => Instr::OuterSame {
            to: a,
            link: b,
            slot: c,
        },
        _ => Instr::Fail,
    }
}
