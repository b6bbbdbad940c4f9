// Instructions as lines.
ghost use Rattle.std.specs.Prelude.{◌≡◌, ◌∷◌, ◌++◌, [], codes, decimal, OnOk};
ghost use Rattle.std.specs.Fmt.{signed_decimal};
ghost use Rattle.alma_code.specs.ListText.{form_words, text_line};

use crate::line::{push_form, push_next, push_number, push_word};
use alma_base::NoMemory;
use alma_code::Instr;
use itoa::Buffer;

// The line of a constant, whose second word has a sign.
fn push_const(text: &mut Vec<u8>, address: u64, to: u32, value: i64) -> Result<(), NoMemory>
    ensures { OnOk result (text.new.items ≡ text.old.items
        ++ text_line (decimal address ∷ codes "Const" ∷ decimal to ∷ signed_decimal value ∷ [])) }
{
    let mut address_digits = Buffer::new();
    push_word(text, address_digits.format(address).as_bytes())?;
    push_next(text, b"Const")?;
    push_number(text, u64::from(to))?;
    let mut digits = Buffer::new();
    push_next(text, digits.format(value).as_bytes())?;
    text.push(b'\n')?;
    Ok(())
}

/// Appends the line of an instruction: its form and its words.
#[tactic(auto, unfolding(alma_code::specs::ListText::form_words))]
pub fn push_instr(text: &mut Vec<u8>, address: u64, instr: Instr) -> Result<(), NoMemory>
    ensures { OnOk result (text.new.items ≡ text.old.items ++ text_line
        (decimal address ∷ form_words instr)) }
{
    match instr {
        Instr::Const { to, value } => push_const(text, address, to, value),
        Instr::Move { to, from } => push_form(text, address, "Move", &[to, from]),
        Instr::Add { to, left, right } => push_form(text, address, "Add", &[to, left, right]),
        Instr::Sub { to, left, right } => push_form(text, address, "Sub", &[to, left, right]),
        Instr::Mul { to, left, right } => push_form(text, address, "Mul", &[to, left, right]),
        Instr::Div { to, left, right } => push_form(text, address, "Div", &[to, left, right]),
        Instr::Mod { to, left, right } => push_form(text, address, "Mod", &[to, left, right]),
        Instr::Neg { to, from } => push_form(text, address, "Neg", &[to, from]),
        Instr::Equal { to, left, right } => push_form(text, address, "Equal", &[to, left, right]),
        Instr::Less { to, left, right } => push_form(text, address, "Less", &[to, left, right]),
        Instr::LessEq { to, left, right } => push_form(text, address, "LessEq", &[to, left, right]),
        Instr::Flip { to, from } => push_form(text, address, "Flip", &[to, from]),
        Instr::InRange { value, range } => push_form(text, address, "InRange", &[value, range]),
        Instr::Local { to, first } => push_form(text, address, "Local", &[to, first]),
        Instr::Global { to, first } => push_form(text, address, "Global", &[to, first]),
        Instr::Same { to, from } => push_form(text, address, "Same", &[to, from]),
        Instr::Field { to, from, offset } => push_form(text, address, "Field", &[to, from, offset]),
        Instr::Index {
            to,
            from,
            index,
            range,
        } => push_form(text, address, "Index", &[to, from, index, range]),
        Instr::Load { to, from } => push_form(text, address, "Load", &[to, from]),
        Instr::Store { to, from } => push_form(text, address, "Store", &[to, from]),
        Instr::Known { to, of } => push_form(text, address, "Known", &[to, of]),
        Instr::Bind {
            place,
            value,
            range,
        } => push_form(text, address, "Bind", &[place, value, range]),
        Instr::Unify {
            left,
            left_range,
            right,
            right_range,
        } => push_form(
            text,
            address,
            "Unify",
            &[left, left_range, right, right_range],
        ),
        Instr::CopyCells { to, from } => push_form(text, address, "CopyCells", &[to, from]),
        Instr::SameCells { left, right } => push_form(text, address, "SameCells", &[left, right]),
        Instr::Jump { to } => push_form(text, address, "Jump", &[to]),
        Instr::JumpZero { value, to } => push_form(text, address, "JumpZero", &[value, to]),
        Instr::Check { value } => push_form(text, address, "Check", &[value]),
        Instr::Fail => push_form(text, address, "Fail", &[]),
        Instr::Mark { to } => push_form(text, address, "Mark", &[to]),
        Instr::Cut { mark } => push_form(text, address, "Cut", &[mark]),
        Instr::Choose { resume } => push_form(text, address, "Choose", &[resume]),
        Instr::Forall { mark, resume } => push_form(text, address, "Forall", &[mark, resume]),
        Instr::Overlay { mark, resume } => push_form(text, address, "Overlay", &[mark, resume]),
        Instr::Keep { mark } => push_form(text, address, "Keep", &[mark]),
        Instr::Finish => push_form(text, address, "Finish", &[]),
        Instr::Call { routine, first, to } => push_form(
            text,
            address,
            "Call",
            &[routine, first, to],
        ),
        Instr::Return => push_form(text, address, "Return", &[]),
        Instr::ReturnValue { value } => push_form(text, address, "ReturnValue", &[value]),
        Instr::ReadInt { place, range } => push_form(text, address, "ReadInt", &[place, range]),
        Instr::ReadChar { place, range } => push_form(text, address, "ReadChar", &[place, range]),
        Instr::WriteInt { value } => push_form(text, address, "WriteInt", &[value]),
        Instr::WriteChar { value } => push_form(text, address, "WriteChar", &[value]),
        Instr::WriteBool { value } => push_form(text, address, "WriteBool", &[value]),
        Instr::WriteText { text: number } => push_form(text, address, "WriteText", &[number]),
        Instr::WriteLine => push_form(text, address, "WriteLine", &[]),
        Instr::Fault { number } => push_form(text, address, "Fault", &[number]),
        Instr::Step {
            counter,
            limit,
            by,
            out,
        } => push_form(text, address, "Step", &[counter, limit, by, out]),
        Instr::Own { to } => push_form(text, address, "Own", &[to]),
        Instr::Chain { to, link, slot } => push_form(text, address, "Chain", &[to, link, slot]),
        Instr::Outer { to, link, first } => push_form(text, address, "Outer", &[to, link, first]),
        Instr::OuterSame { to, link, slot } => push_form(
            text,
            address,
            "OuterSame",
            &[to, link, slot],
        ),
    }
}
