// A code as the bytes of an object.
ghost use Rattle.std.specs.Prelude.{◌≡◌, ◌+◌, ◌<◌, [], ◌∷◌, if◌then◌else◌, ◌++◌, length, sum_by, OnOk, IfOk};
ghost use Rattle.std.specs.List.{flat_map};
ghost use Rattle.alma_code.specs.Plain.{code_of};
ghost use Rattle.alma_code.specs.Records.{KeepsCounts, param_count as param_count_of, run_count as run_count_of, name_byte_count as name_byte_count_of, text_byte_count as text_byte_count_of};
ghost use Rattle.alma_object_format.specs.Object.{section, header_bytes, pool_bytes, object_bytes, routine_bytes, global_bytes, param_bytes, run_bytes, range_bytes, text_end_bytes, line_bytes, param_number as param_number_of, slot_number as slot_number_of, slot_size as slot_size_of};
ghost use Rattle.alma_object_format.specs.Bytes.{words_bytes};
ghost use Rattle.alma_object_format.specs.Instrs.{instr_bytes};

use alma_base::{NoMemory, Range};
use alma_code::{
    Code, CodeParam, Instr, LATEST_VERSION, Line, ParamKind, RoutineHead, Run, SlotKind,
};
use alma_object_format::{MAGIC, kinds, push_i64, push_instr, push_words};
use std::alloc::Global;

// The number of a kind of params, in its record.
fn param_number(kind: ParamKind) -> u32
    ensures { result ≡ param_number_of kind }
{
    match kind {
        ParamKind::Value => kinds::PARAM_VALUE,
        ParamKind::Place => kinds::PARAM_PLACE,
        ParamKind::Mix => kinds::PARAM_MIX,
        ParamKind::Cells => kinds::PARAM_CELLS,
        ParamKind::Link => kinds::PARAM_LINK,
    }
}

// The number of a kind of slots, in the record of a run.
fn slot_number(kind: SlotKind) -> u32
    ensures { result ≡ slot_number_of kind }
{
    match kind {
        SlotKind::Number => kinds::RUN_NUMBER,
        SlotKind::Place(_) => kinds::RUN_PLACE,
        SlotKind::Mark => kinds::RUN_MARK,
        SlotKind::Link(_) => kinds::RUN_LINK,
    }
}

// The length of the places of a kind, or the routine of its links; else 0.
fn slot_size(kind: SlotKind) -> u32
    ensures { result ≡ slot_size_of kind }
{
    match kind {
        SlotKind::Number | SlotKind::Mark => 0,
        SlotKind::Place(size) | SlotKind::Link(size) => size,
    }
}

// The record of a routine, with the ends of its name, its params and its runs.
fn push_routine(
    out: &mut Vec<u8>,
    routine: &RoutineHead,
    name_end: u32,
    params_end: u32,
    runs_end: u32,
) -> Result<(), NoMemory>
    ensures { OnOk result (out.new.items ≡ out.old.items ++ words_bytes
        (name_end ∷ params_end ∷ runs_end ∷ routine.now.code_end ∷ routine.now.slots
        ∷ routine.now.declared ∷ (if routine.now.result then 1 else 0) ∷ [])) }
{
    let result = if routine.result { 1 } else { 0 };
    push_words(
        out,
        &[
            name_end,
            params_end,
            runs_end,
            routine.code_end,
            routine.slots,
            routine.declared,
            result,
        ],
    )?;
    Ok(())
}

// The records of the routines.
fn push_routines(out: &mut Vec<u8>, code: &Code) -> Result<(), NoMemory>
    requires { KeepsCounts (code_of code.now) }
    ensures { OnOk result (out.new.items ≡ out.old.items ++ section
        (routine_bytes (code_of code.now)) (length (code_of code.now).routines)) }
{
    let mut name_end: u32 = 0;
    let mut params_end: u32 = 0;
    let mut runs_end: u32 = 0;
    for routine in &code.routines {
        name_end += routine.name.len() as u32;
        params_end += routine.params.len() as u32;
        runs_end += routine.kinds.len() as u32;
        push_routine(out, routine, name_end, params_end, runs_end)?;
    }
    Ok(())
}

// The records of the globals.
fn push_globals(out: &mut Vec<u8>, code: &Code, name_start: u32) -> Result<(), NoMemory>
    requires counts { KeepsCounts (code_of code.now) }
    requires start { name_start ≡ sum_by (λ r. length r.name) (code_of code.now).routines }
    ensures { OnOk result (out.new.items ≡ out.old.items ++ section
        (global_bytes (code_of code.now)) (length (code_of code.now).globals)) }
{
    let mut name_end = name_start;
    for global in &code.globals {
        name_end += global.name.len() as u32;
        push_words(out, &[name_end, global.slot, global.cells])?;
    }
    Ok(())
}

// The record of a param.
#[tactic(auto, unfolding(alma_object_format::specs::Object::param_bytes))]
fn push_param(out: &mut Vec<u8>, param: CodeParam) -> Result<(), NoMemory>
    ensures { OnOk result (out.new.items ≡ out.old.items ++ param_bytes param) }
{
    push_words(out, &[param_number(param.kind), param.cells])?;
    Ok(())
}

// The records of params.
fn push_params(out: &mut Vec<u8>, params: &[CodeParam]) -> Result<(), NoMemory>
    ensures { OnOk result (out.new.items ≡ out.old.items ++ flat_map param_bytes params.now) }
{
    for param in params {
        push_param(out, *param)?;
    }
    Ok(())
}

// The records of the params of all routines.
fn push_all_params(out: &mut Vec<u8>, code: &Code) -> Result<(), NoMemory>
    ensures { OnOk result (out.new.items ≡ out.old.items ++ flat_map param_bytes
        (flat_map (λ r. r.head.params) (code_of code.now).routines)) }
{
    for routine in &code.routines {
        push_params(out, &routine.params)?;
    }
    Ok(())
}

// The record of a run.
#[tactic(auto, unfolding(alma_object_format::specs::Object::run_bytes))]
fn push_run(out: &mut Vec<u8>, run: Run) -> Result<(), NoMemory>
    ensures { OnOk result (out.new.items ≡ out.old.items ++ run_bytes run) }
{
    push_words(out, &[slot_number(run.kind), slot_size(run.kind), run.end])?;
    Ok(())
}

// The records of runs.
fn push_runs(out: &mut Vec<u8>, runs: &[Run]) -> Result<(), NoMemory>
    ensures { OnOk result (out.new.items ≡ out.old.items ++ flat_map run_bytes runs.now) }
{
    for run in runs {
        push_run(out, *run)?;
    }
    Ok(())
}

// The records of the runs of all routines.
fn push_all_runs(out: &mut Vec<u8>, code: &Code) -> Result<(), NoMemory>
    ensures { OnOk result (out.new.items ≡ out.old.items ++ flat_map run_bytes
        (flat_map (λ r. r.head.runs) (code_of code.now).routines)) }
{
    for routine in &code.routines {
        push_runs(out, &routine.kinds)?;
    }
    Ok(())
}

// The record of a range.
#[tactic(auto, unfolding(alma_object_format::specs::Object::range_bytes))]
fn push_range(out: &mut Vec<u8>, range: Range) -> Result<(), NoMemory>
    ensures { OnOk result (out.new.items ≡ out.old.items ++ range_bytes range) }
{
    push_i64(out, range.low)?;
    push_i64(out, range.high)?;
    Ok(())
}

// The records of ranges.
fn push_ranges(out: &mut Vec<u8>, ranges: &[Range]) -> Result<(), NoMemory>
    ensures { OnOk result (out.new.items ≡ out.old.items ++ flat_map range_bytes ranges.now) }
{
    for range in ranges {
        push_range(out, *range)?;
    }
    Ok(())
}

// The records of the texts, which are their ends.
fn push_text_ends(out: &mut Vec<u8>, code: &Code) -> Result<(), NoMemory>
    requires { KeepsCounts (code_of code.now) }
    ensures { OnOk result (out.new.items ≡ out.old.items ++ section
        (text_end_bytes (code_of code.now)) (length (code_of code.now).texts)) }
{
    let mut end: u32 = 0;
    for text in &code.texts {
        end += text.len() as u32;
        push_words(out, &[end])?;
    }
    Ok(())
}

// The bytes of the names and of the texts.
fn push_pools(out: &mut Vec<u8>, code: &Code) -> Result<(), NoMemory>
    ensures { OnOk result (out.new.items ≡ out.old.items ++ pool_bytes (code_of code.now)) }
{
    for routine in &code.routines {
        out.extend_from_slice(&routine.name)?;
    }
    for global in &code.globals {
        out.extend_from_slice(&global.name)?;
    }
    for text in &code.texts {
        out.extend_from_slice(text)?;
    }
    Ok(())
}

// The records of instructions.
fn push_instrs(out: &mut Vec<u8>, instrs: &[Instr]) -> Result<(), NoMemory>
    ensures { OnOk result (out.new.items ≡ out.old.items ++ flat_map instr_bytes instrs.now) }
{
    for instr in instrs {
        push_instr(out, *instr)?;
    }
    Ok(())
}

// The record of a line.
#[tactic(auto, unfolding(alma_object_format::specs::Object::line_bytes))]
fn push_line(out: &mut Vec<u8>, line: Line) -> Result<(), NoMemory>
    ensures { OnOk result (out.new.items ≡ out.old.items ++ line_bytes line) }
{
    push_words(out, &[line.at, line.line])?;
    Ok(())
}

// The records of lines.
fn push_lines(out: &mut Vec<u8>, lines: &[Line]) -> Result<(), NoMemory>
    ensures { OnOk result (out.new.items ≡ out.old.items ++ flat_map line_bytes lines.now) }
{
    for line in lines {
        push_line(out, *line)?;
    }
    Ok(())
}

// The magic, the version and the counts.
#[tactic(auto, unfolding(alma_object_format::specs::Object::header_bytes, alma_object_format::specs::Bytes::u16_bytes))]
fn push_header(
    out: &mut Vec<u8>,
    code: &Code,
    params: u32,
    runs: u32,
    name_bytes: u32,
    text_bytes: u32,
) -> Result<(), NoMemory>
    requires counts { KeepsCounts (code_of code.now) }
    requires params { params ≡ param_count_of (code_of code.now) }
    requires runs { runs ≡ run_count_of (code_of code.now) }
    requires name_bytes { name_bytes ≡ name_byte_count_of (code_of code.now) }
    requires text_bytes { text_bytes ≡ text_byte_count_of (code_of code.now) }
    ensures { OnOk result (out.new.items ≡ out.old.items ++ header_bytes (code_of code.now)) }
{
    out.extend_from_slice(MAGIC)?;
    out.extend_from_slice(&code.version.to_le_bytes())?;
    push_words(
        out,
        &[
            code.routines.len() as u32,
            code.globals.len() as u32,
            params,
            runs,
            code.ranges.len() as u32,
            code.texts.len() as u32,
            name_bytes,
            text_bytes,
            code.code.len() as u32,
        ],
    )?;
    if code.version == LATEST_VERSION {
        push_words(out, &[code.lines.len() as u32])?;
    }
    Ok(())
}

// How many bytes of names, how many params and how many runs the routines have together.
#[derive(Clone, Copy)]
struct Totals {
    names: u32,
    params: u32,
    runs: u32,
}

// The totals, in one walk over the routines.
fn count_totals(code: &Code) -> Totals
    requires { KeepsCounts (code_of code.now) }
    ensures names { result.names ≡ sum_by (λ r. length r.name) (code_of code.now).routines }
    ensures params { result.params ≡ param_count_of (code_of code.now) }
    ensures runs { result.runs ≡ run_count_of (code_of code.now) }
{
    let mut names: u32 = 0;
    let mut params: u32 = 0;
    let mut runs: u32 = 0;
    for routine in &code.routines {
        names += routine.name.len() as u32;
        params += routine.params.len() as u32;
        runs += routine.kinds.len() as u32;
    }
    Totals {
        names,
        params,
        runs,
    }
}

// How many bytes all names have together, where those of the routines have so many.
fn total_names(code: &Code, routine_names: u32) -> u32
    requires counts { KeepsCounts (code_of code.now) }
    requires routine_names { routine_names ≡ sum_by (λ r. length r.name)
        (code_of code.now).routines }
    ensures { result ≡ name_byte_count_of (code_of code.now) }
{
    let mut names = routine_names;
    for global in &code.globals {
        names += global.name.len() as u32;
    }
    names
}

// How many bytes the texts have together.
fn total_texts(code: &Code) -> u32
    requires { KeepsCounts (code_of code.now) }
    ensures { result ≡ text_byte_count_of (code_of code.now) }
{
    let mut bytes: u32 = 0;
    for text in &code.texts {
        bytes += text.len() as u32;
    }
    bytes
}

/// The bytes of the object of a code: the header, and behind it the sections in their order.
pub fn encode(alloc: Global, code: &Code) -> Result<Vec<u8>, NoMemory>
    requires { KeepsCounts (code_of code.now) }
    ensures { IfOk result (λ bytes. bytes.items ≡ object_bytes (code_of code.now)) }
{
    let totals = count_totals(code);
    let mut out = Vec::new(alloc);
    push_header(
        &mut out,
        code,
        totals.params,
        totals.runs,
        total_names(code, totals.names),
        total_texts(code),
    )?;
    push_routines(&mut out, code)?;
    push_globals(&mut out, code, totals.names)?;
    push_all_params(&mut out, code)?;
    push_all_runs(&mut out, code)?;
    push_ranges(&mut out, &code.ranges)?;
    push_text_ends(&mut out, code)?;
    push_pools(&mut out, code)?;
    push_instrs(&mut out, &code.code)?;
    push_lines(&mut out, &code.lines)?;
    Ok(out)
}
