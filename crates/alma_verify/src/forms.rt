// The words of an instruction in memory fit the fields of its record.
ghost use Rattle.std.specs.Prelude.{◌<◌, ◌^◌, All, FitsSigned};
ghost use Rattle.std.specs.Int.{w64};
ghost use Rattle.alma_object.specs.Fields.{fields, FitsValue};

use alma_code::Instr;

// Words fit four bytes.
fn fits_words(words: &[u32])
    ensures { All (λ word. word < 2 ^ 32) words.now }
{}

// A word fits four bytes, and a number fits eight.
fn fits_const(to: u32, value: i64)
    ensures to { to < 2 ^ 32 }
    ensures value { FitsSigned w64 value }
{}

/// Each word of an instruction fits four bytes, and the value of a Const eight.
#[tactic(auto, unfolding(alma_object::specs::Fields::fields, alma_object::specs::Fields::FitsValue))]
pub fn fits_form(instr: Instr)
    ensures words { All (λ word. word < 2 ^ 32) (fields instr) }
    ensures value { FitsValue instr }
{
    match instr {
        Instr::Const { to, value } => fits_const(to, value),
        Instr::Move { to, from } => fits_words(&[to, from]),
        Instr::Add { to, left, right } => fits_words(&[to, left, right]),
        Instr::Sub { to, left, right } => fits_words(&[to, left, right]),
        Instr::Mul { to, left, right } => fits_words(&[to, left, right]),
        Instr::Div { to, left, right } => fits_words(&[to, left, right]),
        Instr::Mod { to, left, right } => fits_words(&[to, left, right]),
        Instr::Neg { to, from } => fits_words(&[to, from]),
        Instr::Equal { to, left, right } => fits_words(&[to, left, right]),
        Instr::Less { to, left, right } => fits_words(&[to, left, right]),
        Instr::LessEq { to, left, right } => fits_words(&[to, left, right]),
        Instr::Flip { to, from } => fits_words(&[to, from]),
        Instr::InRange { value, range } => fits_words(&[value, range]),
        Instr::Local { to, first } => fits_words(&[to, first]),
        Instr::Global { to, first } => fits_words(&[to, first]),
        Instr::Same { to, from } => fits_words(&[to, from]),
        Instr::Field { to, from, offset } => fits_words(&[to, from, offset]),
        Instr::Index {
            to,
            from,
            index,
            range,
        } => fits_words(&[to, from, index, range]),
        Instr::Load { to, from } => fits_words(&[to, from]),
        Instr::Store { to, from } => fits_words(&[to, from]),
        Instr::Known { to, of } => fits_words(&[to, of]),
        Instr::Bind {
            place,
            value,
            range,
        } => fits_words(&[place, value, range]),
        Instr::Unify {
            left,
            left_range,
            right,
            right_range,
        } => fits_words(&[left, left_range, right, right_range]),
        Instr::CopyCells { to, from } => fits_words(&[to, from]),
        Instr::SameCells { left, right } => fits_words(&[left, right]),
        Instr::Jump { to } => fits_words(&[to]),
        Instr::JumpZero { value, to } => fits_words(&[value, to]),
        Instr::Check { value } => fits_words(&[value]),
        Instr::Fail => fits_words(&[]),
        Instr::Mark { to } => fits_words(&[to]),
        Instr::Cut { mark } => fits_words(&[mark]),
        Instr::Choose { resume } => fits_words(&[resume]),
        Instr::Forall { mark, resume } => fits_words(&[mark, resume]),
        Instr::Overlay { mark, resume } => fits_words(&[mark, resume]),
        Instr::Keep { mark } => fits_words(&[mark]),
        Instr::Finish => fits_words(&[]),
        Instr::Call { routine, first, to } => fits_words(&[routine, first, to]),
        Instr::Return => fits_words(&[]),
        Instr::ReturnValue { value } => fits_words(&[value]),
        Instr::ReadInt { place, range } => fits_words(&[place, range]),
        Instr::ReadChar { place, range } => fits_words(&[place, range]),
        Instr::WriteInt { value } => fits_words(&[value]),
        Instr::WriteChar { value } => fits_words(&[value]),
        Instr::WriteBool { value } => fits_words(&[value]),
        Instr::WriteText { text } => fits_words(&[text]),
        Instr::WriteLine => fits_words(&[]),
        Instr::Fault { number } => fits_words(&[number]),
        Instr::Step {
            counter,
            limit,
            by,
            out,
        } => fits_words(&[counter, limit, by, out]),
        Instr::Own { to } => fits_words(&[to]),
        Instr::Chain { to, link, slot } => fits_words(&[to, link, slot]),
        Instr::Outer { to, link, first } => fits_words(&[to, link, first]),
        Instr::OuterSame { to, link, slot } => fits_words(&[to, link, slot]),
    }
}
