// The words of an instruction.
ghost use Rattle.std.specs.Prelude.{◌≡◌};
ghost use Rattle.alma_code.specs.Words.{four, words};
ghost use Rattle.alma_code.specs.declared.instr.Word.TheVariants as W;

use alma_code::{Instr, Word};

// A word, and no other.
fn one(a: Word) -> [Word; 4]
    ensures { result ≡ four a W.Free W.Free W.Free }
{
    [a, Word::Free, Word::Free, Word::Free]
}

fn two(a: Word, b: Word) -> [Word; 4]
    ensures { result ≡ four a b W.Free W.Free }
{
    [a, b, Word::Free, Word::Free]
}

fn three(a: Word, b: Word, c: Word) -> [Word; 4]
    ensures { result ≡ four a b c W.Free }
{
    [a, b, c, Word::Free]
}

// Three number slots.
fn numbers(a: u32, b: u32, c: u32) -> [Word; 4]
    ensures { result ≡ four (W.Number a) (W.Number b) (W.Number c) W.Free }
{
    three(Word::Number(a), Word::Number(b), Word::Number(c))
}

/// The words of an instruction with what each names, for rules 4, 8 and 9. Free stands for a word
/// of which they ask nothing, as for all those of Call.
#[tactic(auto, unfolding(alma_code::specs::Words::words))]
pub fn words_of(instr: Instr) -> [Word; 4]
    ensures { result ≡ words instr }
{
    match instr {
        Instr::Const { to, value: _ } => one(Word::Number(to)),
        Instr::Move { to, from } | Instr::Neg { to, from } | Instr::Flip { to, from } => two(
            Word::Number(to),
            Word::Number(from),
        ),
        Instr::Add { to, left, right }
        | Instr::Sub { to, left, right }
        | Instr::Mul { to, left, right }
        | Instr::Div { to, left, right }
        | Instr::Mod { to, left, right }
        | Instr::Equal { to, left, right }
        | Instr::Less { to, left, right }
        | Instr::LessEq { to, left, right } => numbers(to, left, right),
        Instr::InRange { value, range } => two(Word::Number(value), Word::Range(range)),
        Instr::Local { to, first } => two(Word::Place(to), Word::Slot(first)),
        Instr::Global { to, first: _ } => one(Word::Place(to)),
        Instr::Same { to, from }
        | Instr::CopyCells { to, from }
        | Instr::SameCells {
            left: to,
            right: from,
        } => two(Word::Place(to), Word::Place(from)),
        Instr::Field {
            to,
            from,
            offset: _,
        } => two(Word::Place(to), Word::Place(from)),
        Instr::Index {
            to,
            from,
            index,
            range,
        } => [
            Word::Place(to),
            Word::Place(from),
            Word::Number(index),
            Word::Range(range),
        ],
        Instr::Load { to, from } | Instr::Known { to, of: from } => two(
            Word::Number(to),
            Word::Place(from),
        ),
        Instr::Store { to, from } => two(Word::Place(to), Word::Number(from)),
        Instr::Bind {
            place,
            value,
            range,
        } => three(Word::Place(place), Word::Number(value), Word::Range(range)),
        Instr::Unify {
            left,
            left_range,
            right,
            right_range,
        } => [
            Word::Place(left),
            Word::Range(left_range),
            Word::Place(right),
            Word::Range(right_range),
        ],
        Instr::Jump { to } | Instr::Choose { resume: to } => one(Word::Address(to)),
        Instr::JumpZero { value, to } => two(Word::Number(value), Word::Address(to)),
        Instr::Check { value }
        | Instr::ReturnValue { value }
        | Instr::WriteInt { value }
        | Instr::WriteChar { value }
        | Instr::WriteBool { value } => one(Word::Number(value)),
        Instr::Mark { to: mark } | Instr::Cut { mark } | Instr::Keep { mark } => one(Word::Mark(
            mark,
        )),
        Instr::Forall { mark, resume } | Instr::Overlay { mark, resume } => two(
            Word::Mark(mark),
            Word::Address(resume),
        ),
        Instr::ReadInt { place, range } | Instr::ReadChar { place, range } => two(
            Word::Place(place),
            Word::Range(range),
        ),
        Instr::WriteText { text } => one(Word::Text(text)),
        Instr::Step {
            counter,
            limit,
            by,
            out,
        } => [
            Word::Number(counter),
            Word::Number(limit),
            Word::Number(by),
            Word::Address(out),
        ],
        Instr::Own { to } => one(Word::Link(to)),
        Instr::Chain { to, link, slot: _ } => two(Word::Link(to), Word::Link(link)),
        Instr::Outer { to, link, first: _ } | Instr::OuterSame { to, link, slot: _ } => two(
            Word::Place(to),
            Word::Link(link),
        ),
        Instr::Fail
        | Instr::Finish
        | Instr::Call { .. }
        | Instr::Return
        | Instr::WriteLine
        | Instr::Fault { .. } => [Word::Free, Word::Free, Word::Free, Word::Free],
    }
}
