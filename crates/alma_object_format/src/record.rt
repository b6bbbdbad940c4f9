// Records of params, runs, ranges and lines in bytes.
ghost use Rattle.std.specs.Prelude.{◌≡◌, ◌+◌, ◌≤◌, length};
ghost use Rattle.alma_object_format.specs.Lengths.{param_len, run_len, range_len, line_len};
ghost use Rattle.alma_object_format.specs.Reading.{param_kind as param_kind_of, slot_kind as slot_kind_of, param_in as param_there, run_in as run_there, range_in as range_there, line_in as line_there};

use crate::bytes::{i64_at, u32_at};
use crate::{kinds, offsets};
use alma_base::Range;
use alma_code::{CodeParam, Line, ParamKind, Run, SlotKind};

// The kind of a param by its number.
#[tactic(auto, using(std::proofs::lemmas::List::get_or_past))]
fn param_kind(number: u32) -> ParamKind
    ensures { result ≡ param_kind_of number }
{
    match number {
        kinds::PARAM_VALUE => ParamKind::Value,
        kinds::PARAM_PLACE => ParamKind::Place,
        kinds::PARAM_MIX => ParamKind::Mix,
        kinds::PARAM_CELLS => ParamKind::Cells,
        _ => ParamKind::Link,
    }
}

// The kind of a run by its number, with its length or routine.
#[tactic(auto, using(std::proofs::lemmas::List::get_or_past))]
fn slot_kind(number: u32, size: u32) -> SlotKind
    ensures { result ≡ slot_kind_of number size }
{
    match number {
        kinds::RUN_NUMBER => SlotKind::Number,
        kinds::RUN_PLACE => SlotKind::Place(size),
        kinds::RUN_MARK => SlotKind::Mark,
        _ => SlotKind::Link(size),
    }
}

/// The param whose record stands at an offset.
#[tactic(auto, unfolding(crate::specs::Reading::param_in))]
pub fn param_in(bytes: &[u8], at: usize) -> CodeParam
    requires { at + param_len ≤ length bytes.now }
    ensures { result ≡ param_there bytes.now at }
{
    CodeParam {
        kind: param_kind(u32_at(bytes, at)),
        cells: u32_at(bytes, at + offsets::PARAM_CELLS),
    }
}

/// The run whose record stands at an offset.
#[tactic(auto, unfolding(crate::specs::Reading::run_in))]
pub fn run_in(bytes: &[u8], at: usize) -> Run
    requires { at + run_len ≤ length bytes.now }
    ensures { result ≡ run_there bytes.now at }
{
    Run {
        kind: slot_kind(u32_at(bytes, at), u32_at(bytes, at + offsets::RUN_SIZE)),
        end: u32_at(bytes, at + offsets::RUN_END),
    }
}

/// The range whose record stands at an offset.
#[tactic(auto, unfolding(crate::specs::Reading::range_in))]
pub fn range_in(bytes: &[u8], at: usize) -> Range
    requires { at + range_len ≤ length bytes.now }
    ensures { result ≡ range_there bytes.now at }
{
    Range {
        low: i64_at(bytes, at),
        high: i64_at(bytes, at + offsets::RANGE_HIGH),
    }
}

/// The line whose record stands at an offset.
#[tactic(auto, unfolding(crate::specs::Reading::line_in))]
pub fn line_in(bytes: &[u8], at: usize) -> Line
    requires { at + line_len ≤ length bytes.now }
    ensures { result ≡ line_there bytes.now at }
{
    Line {
        at: u32_at(bytes, at),
        line: u32_at(bytes, at + offsets::LINE_NUMBER),
    }
}
