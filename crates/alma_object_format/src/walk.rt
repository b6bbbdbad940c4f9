// The walk over the sections of an object, and the first fault that it meets.
ghost use Rattle.std.specs.Prelude.{◌≡◌, ◌+◌, ◌-◌, ◌*◌, ◌≤◌, ◌<◌, ℕ, length, IfNone};
ghost use Rattle.alma_object_format.specs.Fault.{first_fault};
ghost use Rattle.alma_object_format.specs.Header.{IsWithin, routines_at, globals_at, params_at, runs_at, ranges_at, texts_at, name_pool_at, text_pool_at, instrs_at, lines_at, end_at};
ghost use Rattle.alma_object_format.specs.Lengths.{routine_len, global_len, param_len, run_len, range_len, text_end_len, instr_len, line_len};
ghost use Rattle.alma_object_format.specs.Walk.{start_of, params_end as params_end_of, runs_end as runs_end_of, code_end as code_end_of, text_end as text_end_of, name_count as name_count_of, name_end as name_end_of, is_end as is_end_of, is_name_end as is_name_end_of, has_one_cell as has_one_cell_of, has_length as has_length_of, last_param_kind, last_run_kind, routine_fault as routine_fault_of, routines_fault as routines_fault_of, global_fault as global_fault_of, globals_fault as globals_fault_of, param_fault as param_fault_of, params_fault as params_fault_of, run_fault as run_fault_of, routine_runs_fault as routine_runs_fault_of, runs_fault as runs_fault_of, range_fault as range_fault_of, ranges_fault as ranges_fault_of, text_fault as text_fault_of, texts_fault as texts_fault_of, can_stand as can_stand_of, name_fault as name_fault_of, pools_fault as pools_fault_of, instr_fault as instr_fault_of, instrs_fault as instrs_fault_of, line_fault as line_fault_of, lines_fault as lines_fault_of, sections_fault as sections_fault_of};

use crate::bytes::{i64_at, u32_at};
use crate::fault::ObjectFault;
use crate::header::Header;
use crate::instr::is_instr;
use crate::lengths::{
    GLOBAL_LEN, INSTR_LEN, LINE_LEN, PARAM_LEN, RANGE_LEN, ROUTINE_LEN, RUN_LEN, TEXT_END_LEN,
};
use crate::{kinds, offsets};
use alma_code::LATEST_VERSION;

// ---- ends

/// Where the params of a routine end.
#[tactic(auto, unfolding(crate::specs::Walk::params_end))]
pub fn params_end(bytes: &[u8], header: &Header, routine: u32) -> u32
    requires { routines_at header.now + routine_len * routine + routine_len ≤ length bytes.now }
    ensures { result ≡ params_end_of bytes.now header.now routine }
{
    u32_at(
        bytes,
        header.routines_at() + ROUTINE_LEN * routine as usize + offsets::ROUTINE_PARAMS_END,
    )
}

/// Where the runs of a routine end.
#[tactic(auto, unfolding(crate::specs::Walk::runs_end))]
pub fn runs_end(bytes: &[u8], header: &Header, routine: u32) -> u32
    requires { routines_at header.now + routine_len * routine + routine_len ≤ length bytes.now }
    ensures { result ≡ runs_end_of bytes.now header.now routine }
{
    u32_at(
        bytes,
        header.routines_at() + ROUTINE_LEN * routine as usize + offsets::ROUTINE_RUNS_END,
    )
}

/// Where the code of a routine ends.
#[tactic(auto, unfolding(crate::specs::Walk::code_end))]
pub fn code_end(bytes: &[u8], header: &Header, routine: u32) -> u32
    requires { routines_at header.now + routine_len * routine + routine_len ≤ length bytes.now }
    ensures { result ≡ code_end_of bytes.now header.now routine }
{
    u32_at(
        bytes,
        header.routines_at() + ROUTINE_LEN * routine as usize + offsets::ROUTINE_CODE_END,
    )
}

/// Where a text ends.
#[tactic(auto, unfolding(crate::specs::Walk::text_end))]
pub fn text_end(bytes: &[u8], header: &Header, text: u32) -> u32
    requires { texts_at header.now + text_end_len * text + text_end_len ≤ length bytes.now }
    ensures { result ≡ text_end_of bytes.now header.now text }
{
    u32_at(bytes, header.texts_at() + TEXT_END_LEN * text as usize)
}

/// Where a name ends. The names of the routines come first, then those of the globals.
#[tactic(auto, unfolding(crate::specs::Walk::name_end))]
pub fn name_end(bytes: &[u8], header: &Header, name: u32) -> u32
    requires routine { name < header.now.routines → routines_at header.now + routine_len * name
        + routine_len ≤ length bytes.now }
    requires global { header.now.routines ≤ name → globals_at header.now + global_len *
        (name - header.now.routines) + global_len ≤ length bytes.now }
    ensures { result ≡ name_end_of bytes.now header.now name }
{
    if name < header.routines {
        u32_at(bytes, header.routines_at() + ROUTINE_LEN * name as usize)
    } else {
        u32_at(
            bytes,
            header.globals_at() + GLOBAL_LEN * (name - header.routines) as usize,
        )
    }
}

/// Where the params of a routine begin.
#[tactic(auto, using(crate::proofs::Starts::starts))]
pub fn params_start(bytes: &[u8], header: &Header, routine: u32) -> u32
    requires { routines_at header.now + routine_len * routine ≤ length bytes.now }
    ensures { result ≡ start_of (params_end_of bytes.now header.now) routine }
{
    if routine == 0 {
        0
    } else {
        params_end(bytes, header, routine - 1)
    }
}

/// Where the runs of a routine begin.
#[tactic(auto, using(crate::proofs::Starts::starts))]
pub fn runs_start(bytes: &[u8], header: &Header, routine: u32) -> u32
    requires { routines_at header.now + routine_len * routine ≤ length bytes.now }
    ensures { result ≡ start_of (runs_end_of bytes.now header.now) routine }
{
    if routine == 0 {
        0
    } else {
        runs_end(bytes, header, routine - 1)
    }
}

/// Where the code of a routine begins.
#[tactic(auto, using(crate::proofs::Starts::starts))]
pub fn code_start(bytes: &[u8], header: &Header, routine: u32) -> u32
    requires { routines_at header.now + routine_len * routine ≤ length bytes.now }
    ensures { result ≡ start_of (code_end_of bytes.now header.now) routine }
{
    if routine == 0 {
        0
    } else {
        code_end(bytes, header, routine - 1)
    }
}

/// Where a text begins.
#[tactic(auto, using(crate::proofs::Starts::starts))]
pub fn text_start(bytes: &[u8], header: &Header, text: u32) -> u32
    requires { texts_at header.now + text_end_len * text ≤ length bytes.now }
    ensures { result ≡ start_of (text_end_of bytes.now header.now) text }
{
    if text == 0 {
        0
    } else {
        text_end(bytes, header, text - 1)
    }
}

/// Where a name begins.
#[tactic(auto, using(crate::proofs::Starts::starts))]
pub fn name_start(bytes: &[u8], header: &Header, name: u32) -> u32
    requires routine { name ≤ header.now.routines → routines_at header.now + routine_len * name
        ≤ length bytes.now }
    requires global { header.now.routines ≤ name → globals_at header.now + global_len *
        (name - header.now.routines) ≤ length bytes.now }
    ensures { result ≡ start_of (name_end_of bytes.now header.now) name }
{
    if name == 0 {
        0
    } else {
        name_end(bytes, header, name - 1)
    }
}

// Whether an end is not below its start nor above the count; the last one is the count.
fn is_end(start: u32, end: u32, count: u32, last: bool) -> bool
    ensures { result ≡ is_end_of start end count last }
{
    start <= end && end <= count && (!last || end == count)
}

// The same of the end of a name, which has at least one byte.
fn is_name_end(start: u32, end: u32, count: u32, last: bool) -> bool
    ensures { result ≡ is_name_end_of start end count last }
{
    start < end && end <= count && (!last || end == count)
}

// ---- routines

// The first fault of the record of a routine.
#[tactic(auto, unfolding(crate::specs::Walk::routine_fault))]
fn routine_fault(bytes: &[u8], header: &Header, routine: u32) -> Option<ObjectFault>
    requires routine { routine < header.now.routines }
    requires before { routines_at header.now + routine_len * routine ≤ length bytes.now }
    ensures fault { result ≡ routine_fault_of bytes.now header.now routine }
    ensures whole { IfNone result (routines_at header.now + routine_len * routine + routine_len
        ≤ length bytes.now) }
{
    let at = header.routines_at() + ROUTINE_LEN * routine as usize;
    if bytes.len() < at + ROUTINE_LEN {
        return Some(ObjectFault::Cut(bytes.len()));
    }
    let last = routine + 1 == header.routines;
    let last_name = u64::from(routine) + 1
        == u64::from(header.routines) + u64::from(header.globals);
    if !is_name_end(
        name_start(bytes, header, routine),
        name_end(bytes, header, routine),
        header.name_bytes,
        last_name,
    ) {
        return Some(ObjectFault::BadName(at));
    }
    if !is_end(
        params_start(bytes, header, routine),
        params_end(bytes, header, routine),
        header.params,
        last,
    ) {
        return Some(ObjectFault::BadCount(at + offsets::ROUTINE_PARAMS_END));
    }
    if !is_end(
        runs_start(bytes, header, routine),
        runs_end(bytes, header, routine),
        header.runs,
        last,
    ) {
        return Some(ObjectFault::BadCount(at + offsets::ROUTINE_RUNS_END));
    }
    if !is_end(
        code_start(bytes, header, routine),
        code_end(bytes, header, routine),
        header.instrs,
        last,
    ) {
        return Some(ObjectFault::BadCount(at + offsets::ROUTINE_CODE_END));
    }
    if u32_at(bytes, at + offsets::ROUTINE_RESULT) > 1 {
        return Some(ObjectFault::BadCount(at + offsets::ROUTINE_RESULT));
    }
    None
}

// The first fault of the routines.
#[tactic(auto, using(crate::proofs::Faults::fault_steps))]
fn routines_fault(bytes: &[u8], header: &Header) -> Option<ObjectFault>
    requires { routines_at header.now ≤ length bytes.now }
    ensures fault { result ≡ routines_fault_of bytes.now header.now }
    ensures whole { IfNone result (globals_at header.now ≤ length bytes.now) }
{
    for routine in 0..header.routines {
        if let Some(fault) = routine_fault(bytes, header, routine) {
            return Some(fault);
        }
    }
    None
}

// ---- globals

// The first fault of the record of a global.
#[tactic(auto, unfolding(crate::specs::Walk::global_fault))]
fn global_fault(bytes: &[u8], header: &Header, global: u32) -> Option<ObjectFault>
    requires within { IsWithin header.now }
    requires global { global < header.now.globals }
    requires before { globals_at header.now + global_len * global ≤ length bytes.now }
    ensures fault { result ≡ global_fault_of bytes.now header.now global }
    ensures whole { IfNone result (globals_at header.now + global_len * global + global_len
        ≤ length bytes.now) }
{
    let at = header.globals_at() + GLOBAL_LEN * global as usize;
    if bytes.len() < at + GLOBAL_LEN {
        return Some(ObjectFault::Cut(bytes.len()));
    }
    let name = header.routines + global;
    let last = name + 1 == header.routines + header.globals;
    if !is_name_end(
        name_start(bytes, header, name),
        name_end(bytes, header, name),
        header.name_bytes,
        last,
    ) {
        return Some(ObjectFault::BadName(at));
    }
    None
}

// The first fault of the globals.
#[tactic(auto, using(crate::proofs::Faults::fault_steps))]
fn globals_fault(bytes: &[u8], header: &Header) -> Option<ObjectFault>
    requires within { IsWithin header.now }
    requires before { globals_at header.now ≤ length bytes.now }
    ensures fault { result ≡ globals_fault_of bytes.now header.now }
    ensures whole { IfNone result (params_at header.now ≤ length bytes.now) }
{
    for global in 0..header.globals {
        if let Some(fault) = global_fault(bytes, header, global) {
            return Some(fault);
        }
    }
    None
}

// ---- params

// Whether a param of the kind with a number has one cell.
fn has_one_cell(kind: u32) -> bool
    ensures { result ≡ has_one_cell_of kind }
{
    kind == kinds::PARAM_VALUE || kind == kinds::PARAM_MIX
}

// The last kind of a param, of a version.
fn last_param_kind(version: u16) -> u32
    ensures { result ≡ last_param_kind version }
{
    if version == LATEST_VERSION {
        kinds::PARAM_LINK
    } else {
        kinds::PARAM_CELLS
    }
}

// The first fault of the record of a param.
#[tactic(auto, unfolding(crate::specs::Walk::param_fault))]
fn param_fault(bytes: &[u8], header: &Header, param: u32) -> Option<ObjectFault>
    ensures fault { result ≡ param_fault_of bytes.now header.now param }
    ensures whole { IfNone result (params_at header.now + param_len * param + param_len
        ≤ length bytes.now) }
{
    let at = header.params_at() + PARAM_LEN * param as usize;
    if bytes.len() < at + PARAM_LEN {
        return Some(ObjectFault::Cut(bytes.len()));
    }
    let kind = u32_at(bytes, at);
    if kind > last_param_kind(header.version) {
        return Some(ObjectFault::BadCount(at));
    }
    if has_one_cell(kind) && u32_at(bytes, at + offsets::PARAM_CELLS) != 1 {
        return Some(ObjectFault::BadCount(at + offsets::PARAM_CELLS));
    }
    None
}

// The first fault of the params.
#[tactic(auto, using(crate::proofs::Faults::fault_steps))]
fn params_fault(bytes: &[u8], header: &Header) -> Option<ObjectFault>
    requires { params_at header.now ≤ length bytes.now }
    ensures fault { result ≡ params_fault_of bytes.now header.now }
    ensures whole { IfNone result (runs_at header.now ≤ length bytes.now) }
{
    for param in 0..header.params {
        if let Some(fault) = param_fault(bytes, header, param) {
            return Some(fault);
        }
    }
    None
}

// ---- runs

// Whether a run of the kind with a number has a length.
fn has_length(kind: u32) -> bool
    ensures { result ≡ has_length_of kind }
{
    kind == kinds::RUN_PLACE || kind == kinds::RUN_LINK
}

// The last kind of a run, of a version.
fn last_run_kind(version: u16) -> u32
    ensures { result ≡ last_run_kind version }
{
    if version == LATEST_VERSION {
        kinds::RUN_LINK
    } else {
        kinds::RUN_MARK
    }
}

// The first fault of the record of a run.
#[tactic(auto, unfolding(crate::specs::Walk::run_fault))]
fn run_fault(bytes: &[u8], header: &Header, first: bool, run: u32) -> Option<ObjectFault>
    ensures fault { result ≡ run_fault_of bytes.now header.now first run }
    ensures whole { IfNone result (runs_at header.now + run_len * run + run_len
        ≤ length bytes.now) }
{
    let at = header.runs_at() + RUN_LEN * run as usize;
    if bytes.len() < at + RUN_LEN {
        return Some(ObjectFault::Cut(bytes.len()));
    }
    let kind = u32_at(bytes, at);
    if kind > last_run_kind(header.version) {
        return Some(ObjectFault::BadCount(at));
    }
    let len = u32_at(bytes, at + offsets::RUN_SIZE);
    if !has_length(kind) && len != 0 {
        return Some(ObjectFault::BadCount(at + offsets::RUN_SIZE));
    }
    if !first
        && u32_at(bytes, at - RUN_LEN) == kind
        && u32_at(bytes, at - offsets::RUN_SIZE_BEFORE) == len
    {
        return Some(ObjectFault::BadCount(at + offsets::RUN_SIZE));
    }
    let begin = if first {
        0
    } else {
        u32_at(bytes, at - offsets::RUN_END_BEFORE)
    };
    if u32_at(bytes, at + offsets::RUN_END) <= begin {
        return Some(ObjectFault::BadCount(at + offsets::RUN_END));
    }
    None
}

// The first fault of the runs of a routine.
#[tactic(auto, unfolding(crate::specs::Walk::routine_runs_fault), using(crate::proofs::Faults::fault_steps))]
fn routine_runs_fault(bytes: &[u8], header: &Header, routine: u32) -> Option<ObjectFault>
    requires table { routines_at header.now + routine_len * routine + routine_len
        ≤ length bytes.now }
    requires before { runs_at header.now + run_len * start_of
        (runs_end_of bytes.now header.now) routine ≤ length bytes.now }
    ensures fault { result ≡ routine_runs_fault_of bytes.now header.now routine }
    ensures whole { IfNone result (runs_at header.now + run_len * runs_end_of bytes.now header.now
        routine ≤ length bytes.now) }
{
    let start = runs_start(bytes, header, routine);
    let end = runs_end(bytes, header, routine);
    for run in start..end {
        if let Some(fault) = run_fault(bytes, header, run == start, run) {
            return Some(fault);
        }
    }
    None
}

// The first fault of the runs.
#[tactic(auto, using(crate::proofs::Faults::fault_steps, crate::proofs::Starts::next_starts))]
fn runs_fault(bytes: &[u8], header: &Header) -> Option<ObjectFault>
    requires table { globals_at header.now ≤ length bytes.now }
    requires before { runs_at header.now ≤ length bytes.now }
    ensures fault { result ≡ runs_fault_of bytes.now header.now }
    ensures whole { IfNone result (runs_at header.now + run_len * start_of
        (runs_end_of bytes.now header.now) header.now.routines ≤ length bytes.now) }
{
    for routine in 0..header.routines {
        if let Some(fault) = routine_runs_fault(bytes, header, routine) {
            return Some(fault);
        }
    }
    None
}

// ---- ranges

// The first fault of the record of a range.
#[tactic(auto, unfolding(crate::specs::Walk::range_fault))]
fn range_fault(bytes: &[u8], header: &Header, range: u32) -> Option<ObjectFault>
    ensures fault { result ≡ range_fault_of bytes.now header.now range }
    ensures whole { IfNone result (ranges_at header.now + range_len * range + range_len
        ≤ length bytes.now) }
{
    let at = header.ranges_at() + RANGE_LEN * range as usize;
    if bytes.len() < at + RANGE_LEN {
        return Some(ObjectFault::Cut(bytes.len()));
    }
    if i64_at(bytes, at) > i64_at(bytes, at + offsets::RANGE_HIGH) {
        return Some(ObjectFault::BadCount(at + offsets::RANGE_HIGH));
    }
    None
}

// The first fault of the ranges.
#[tactic(auto, using(crate::proofs::Faults::fault_steps))]
fn ranges_fault(bytes: &[u8], header: &Header) -> Option<ObjectFault>
    requires { ranges_at header.now ≤ length bytes.now }
    ensures fault { result ≡ ranges_fault_of bytes.now header.now }
    ensures whole { IfNone result (texts_at header.now ≤ length bytes.now) }
{
    for range in 0..header.ranges {
        if let Some(fault) = range_fault(bytes, header, range) {
            return Some(fault);
        }
    }
    None
}

// ---- texts

// The first fault of the record of a text.
#[tactic(auto, unfolding(crate::specs::Walk::text_fault))]
fn text_fault(bytes: &[u8], header: &Header, text: u32) -> Option<ObjectFault>
    requires text { text < header.now.texts }
    requires before { texts_at header.now + text_end_len * text ≤ length bytes.now }
    ensures fault { result ≡ text_fault_of bytes.now header.now text }
    ensures whole { IfNone result (texts_at header.now + text_end_len * text + text_end_len
        ≤ length bytes.now) }
{
    let at = header.texts_at() + TEXT_END_LEN * text as usize;
    if bytes.len() < at + TEXT_END_LEN {
        return Some(ObjectFault::Cut(bytes.len()));
    }
    let last = text + 1 == header.texts;
    if !is_end(
        text_start(bytes, header, text),
        text_end(bytes, header, text),
        header.text_bytes,
        last,
    ) {
        return Some(ObjectFault::BadCount(at));
    }
    None
}

// The first fault of the texts.
#[tactic(auto, using(crate::proofs::Faults::fault_steps))]
fn texts_fault(bytes: &[u8], header: &Header) -> Option<ObjectFault>
    requires { texts_at header.now ≤ length bytes.now }
    ensures fault { result ≡ texts_fault_of bytes.now header.now }
    ensures whole { IfNone result (name_pool_at header.now ≤ length bytes.now) }
{
    for text in 0..header.texts {
        if let Some(fault) = text_fault(bytes, header, text) {
            return Some(fault);
        }
    }
    None
}

// ---- the pools

// Whether a byte can stand in a name: a letter or `_`, and a digit where it is not the first one.
fn can_stand(first: bool, byte: u8) -> bool
    ensures { result ≡ can_stand_of first byte }
{
    byte.is_ascii_alphabetic() || byte == b'_' || (!first && byte.is_ascii_digit())
}

// The first fault of the bytes of a name.
#[tactic(auto, unfolding(crate::specs::Walk::name_fault), using(crate::proofs::Faults::fault_steps))]
fn name_fault(bytes: &[u8], header: &Header, name: u32) -> Option<ObjectFault>
    requires routine { name < header.now.routines → routines_at header.now + routine_len * name
        + routine_len ≤ length bytes.now }
    requires global { header.now.routines ≤ name → globals_at header.now + global_len *
        (name - header.now.routines) + global_len ≤ length bytes.now }
    requires end { name_end_of bytes.now header.now name ≤ header.now.name_bytes }
    requires pool { text_pool_at header.now ≤ length bytes.now }
    ensures { result ≡ name_fault_of bytes.now header.now name }
{
    let start = name_start(bytes, header, name);
    for i in start..name_end(bytes, header, name) {
        let at = header.name_pool_at() + i as usize;
        if !can_stand(i == start, bytes[at]) {
            return Some(ObjectFault::BadName(at));
        }
    }
    None
}

// The first fault of the bytes of the names.
#[tactic(auto, using(crate::proofs::Faults::fault_steps))]
fn names_fault(bytes: &[u8], header: &Header) -> Option<ObjectFault>
    requires within { IsWithin header.now }
    requires ends { (name : ℕ) → name < name_count_of bytes.now header.now
        → name_end_of bytes.now header.now name ≤ header.now.name_bytes }
    requires pool { text_pool_at header.now ≤ length bytes.now }
    ensures { result ≡ first_fault (name_fault_of bytes.now header.now) 0
        (name_count_of bytes.now header.now) }
{
    for name in 0..header.routines + header.globals {
        if let Some(fault) = name_fault(bytes, header, name) {
            return Some(fault);
        }
    }
    None
}

// The first fault of the name bytes and of the text bytes.
fn pools_fault(bytes: &[u8], header: &Header) -> Option<ObjectFault>
    requires within { IsWithin header.now }
    requires ends { (name : ℕ) → name < name_count_of bytes.now header.now
        → name_end_of bytes.now header.now name ≤ header.now.name_bytes }
    ensures fault { result ≡ pools_fault_of bytes.now header.now }
    ensures whole { IfNone result (instrs_at header.now ≤ length bytes.now) }
{
    if bytes.len() < header.text_pool_at() {
        return Some(ObjectFault::Cut(bytes.len()));
    }
    if let Some(fault) = names_fault(bytes, header) {
        return Some(fault);
    }
    if bytes.len() < header.instrs_at() {
        return Some(ObjectFault::Cut(bytes.len()));
    }
    None
}

// ---- the code

// The first fault of the record of an instruction.
#[tactic(auto, unfolding(crate::specs::Walk::instr_fault))]
fn instr_fault(bytes: &[u8], header: &Header, instr: u32) -> Option<ObjectFault>
    ensures fault { result ≡ instr_fault_of bytes.now header.now instr }
    ensures whole { IfNone result (instrs_at header.now + instr_len * instr + instr_len
        ≤ length bytes.now) }
{
    let at = header.instrs_at() + INSTR_LEN * instr as usize;
    if bytes.len() < at + INSTR_LEN {
        return Some(ObjectFault::Cut(bytes.len()));
    }
    if !is_instr(header.version, bytes, at) {
        return Some(ObjectFault::BadOpcode(at));
    }
    None
}

// The first fault of the code.
#[tactic(auto, using(crate::proofs::Faults::fault_steps))]
fn instrs_fault(bytes: &[u8], header: &Header) -> Option<ObjectFault>
    requires { instrs_at header.now ≤ length bytes.now }
    ensures fault { result ≡ instrs_fault_of bytes.now header.now }
    ensures whole { IfNone result (lines_at header.now ≤ length bytes.now) }
{
    for instr in 0..header.instrs {
        if let Some(fault) = instr_fault(bytes, header, instr) {
            return Some(fault);
        }
    }
    None
}

// ---- lines

// The first fault of the record of a line.
#[tactic(auto, unfolding(crate::specs::Walk::line_fault))]
fn line_fault(bytes: &[u8], header: &Header, line: u32) -> Option<ObjectFault>
    ensures fault { result ≡ line_fault_of bytes.now header.now line }
    ensures whole { IfNone result (lines_at header.now + line_len * line + line_len
        ≤ length bytes.now) }
{
    let at = header.lines_at() + LINE_LEN * line as usize;
    if bytes.len() < at + LINE_LEN {
        return Some(ObjectFault::Cut(bytes.len()));
    }
    let address = u32_at(bytes, at);
    let rises = line == 0 || u32_at(bytes, at - LINE_LEN) < address;
    if !rises || address >= header.instrs {
        return Some(ObjectFault::BadCount(at));
    }
    None
}

// The first fault of the lines.
#[tactic(auto, using(crate::proofs::Faults::fault_steps))]
fn lines_fault(bytes: &[u8], header: &Header) -> Option<ObjectFault>
    requires { lines_at header.now ≤ length bytes.now }
    ensures fault { result ≡ lines_fault_of bytes.now header.now }
    ensures whole { IfNone result (end_at header.now ≤ length bytes.now) }
{
    for line in 0..header.lines {
        if let Some(fault) = line_fault(bytes, header, line) {
            return Some(fault);
        }
    }
    None
}

// ---- the sections in order

/// The first fault of the sections behind the header.
#[tactic(auto, unfolding(crate::specs::Walk::sections_fault))]
pub fn sections_fault(bytes: &[u8], header: &Header) -> Option<ObjectFault>
    requires within { IsWithin header.now }
    requires before { routines_at header.now ≤ length bytes.now }
    ensures fault { result ≡ sections_fault_of bytes.now header.now }
    ensures whole { IfNone result (length bytes.now ≡ end_at header.now) }
{
    if let Some(fault) = routines_fault(bytes, header) {
        return Some(fault);
    }
    if let Some(fault) = globals_fault(bytes, header) {
        return Some(fault);
    }
    if let Some(fault) = params_fault(bytes, header) {
        return Some(fault);
    }
    if let Some(fault) = runs_fault(bytes, header) {
        return Some(fault);
    }
    if let Some(fault) = ranges_fault(bytes, header) {
        return Some(fault);
    }
    if let Some(fault) = texts_fault(bytes, header) {
        return Some(fault);
    }
    if let Some(fault) = pools_fault(bytes, header) {
        return Some(fault);
    }
    if let Some(fault) = instrs_fault(bytes, header) {
        return Some(fault);
    }
    if let Some(fault) = lines_fault(bytes, header) {
        return Some(fault);
    }
    if bytes.len() > header.end_at() {
        return Some(ObjectFault::Trailing(header.end_at()));
    }
    None
}
