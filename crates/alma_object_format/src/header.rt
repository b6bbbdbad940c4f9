// The header of an object: its version and its counts.
ghost use Rattle.std.specs.Prelude.{◌≡◌, ◌+◌, ◌≤◌, ◌<◌, ◌*◌, ◌^◌, length, IfOk, true};
ghost use Rattle.alma_object_format.specs.Bytes.{u16_at as u16_there, u32_at as u32_there};
ghost use Rattle.alma_base.specs.FirstFault.{TellsFault, or_else};
ghost use Rattle.alma_object_format.specs.Header.{IsWithin, header_of, is_version, magic_fault, version_fault, count_fault, counts_fault, header_fault, routines_at, globals_at, params_at, runs_at, ranges_at, texts_at, name_pool_at, text_pool_at, instrs_at, lines_at, end_at};

use crate::bytes::{u16_at, u32_at};
use crate::fault::ObjectFault;
use crate::lengths::{
    COUNT_LEN, FIRST_HEADER_LEN, GLOBAL_LEN, HEADER_LEN, INSTR_LEN, LINE_LEN, PARAM_LEN, RANGE_LEN,
    ROUTINE_LEN, RUN_LEN, TEXT_END_LEN,
};
use crate::offsets;
use alma_base::{INSTR_LIMIT, POOL_LIMIT, RECORD_LIMIT, ROUTINE_LIMIT, SLOT_LIMIT};
use alma_code::{FIRST_VERSION, LATEST_VERSION};

/// The bytes that each object begins with.
pub const MAGIC: &[u8] = b"ALMA0OBJ";

/// The version, and how many records or bytes each section has.
#[derive(Clone, Copy)]
pub struct Header {
    pub version: u16,
    pub routines: u32,
    pub globals: u32,
    pub params: u32,
    pub runs: u32,
    pub ranges: u32,
    pub texts: u32,
    pub name_bytes: u32,
    pub text_bytes: u32,
    pub instrs: u32,
    pub lines: u32,
}

impl Header {
    /// The offset of the first record.
    pub fn routines_at(&self) -> usize
        ensures within { result < 2 ^ 6 }
        ensures offset { result ≡ routines_at self.now }
    {
        if self.version == LATEST_VERSION {
            HEADER_LEN
        } else {
            FIRST_HEADER_LEN
        }
    }

    /// The offset of the records of globals. Those of routines end there.
    pub fn globals_at(&self) -> usize
        ensures within { result < 2 ^ 38 }
        ensures offset { result ≡ globals_at self.now }
    {
        self.routines_at() + ROUTINE_LEN * self.routines as usize
    }

    /// The offset of the records of params: a kind and a number of cells.
    pub fn params_at(&self) -> usize
        ensures within { result < 2 ^ 39 }
        ensures offset { result ≡ params_at self.now }
    {
        self.globals_at() + GLOBAL_LEN * self.globals as usize
    }

    /// The offset of the records of runs of slots.
    pub fn runs_at(&self) -> usize
        ensures within { result < 2 ^ 40 }
        ensures offset { result ≡ runs_at self.now }
    {
        self.params_at() + PARAM_LEN * self.params as usize
    }

    /// The offset of the records of ranges: low and high.
    pub fn ranges_at(&self) -> usize
        ensures within { result < 2 ^ 41 }
        ensures offset { result ≡ ranges_at self.now }
    {
        self.runs_at() + RUN_LEN * self.runs as usize
    }

    /// The offset of the records of texts; a record has the end of its text alone.
    pub fn texts_at(&self) -> usize
        ensures within { result < 2 ^ 42 }
        ensures offset { result ≡ texts_at self.now }
    {
        self.ranges_at() + RANGE_LEN * self.ranges as usize
    }

    /// The offset of the bytes of all names, those of routines before those of globals.
    pub fn name_pool_at(&self) -> usize
        ensures within { result < 2 ^ 43 }
        ensures offset { result ≡ name_pool_at self.now }
    {
        self.texts_at() + TEXT_END_LEN * self.texts as usize
    }

    /// The offset of the bytes of all texts, one behind another.
    pub fn text_pool_at(&self) -> usize
        ensures within { result < 2 ^ 44 }
        ensures offset { result ≡ text_pool_at self.now }
    {
        self.name_pool_at() + self.name_bytes as usize
    }

    /// The offset of the records of instructions: the opcode and four words.
    pub fn instrs_at(&self) -> usize
        ensures within { result < 2 ^ 45 }
        ensures offset { result ≡ instrs_at self.now }
    {
        self.text_pool_at() + self.text_bytes as usize
    }

    /// The offset of the records of lines. In version 1 the object ends there.
    pub fn lines_at(&self) -> usize
        ensures within { result < 2 ^ 46 }
        ensures offset { result ≡ lines_at self.now }
    {
        self.instrs_at() + INSTR_LEN * self.instrs as usize
    }

    /// The offset behind the last section; an object that has bytes from there on is refused as
    /// Trailing.
    pub fn end_at(&self) -> usize
        ensures within { result < 2 ^ 47 }
        ensures offset { result ≡ end_at self.now }
    {
        self.lines_at() + LINE_LEN * self.lines as usize
    }
}

// The count at an offset, with its greatest value.
#[tactic(auto, unfolding(crate::specs::Header::count_fault))]
fn read_count(bytes: &[u8], at: usize, greatest: u32) -> Result<u32, ObjectFault>
    requires { at < 2 ^ 32 }
    ensures count { IfOk result (λ n.
        (n ≡ u32_there bytes.now at) × (n ≤ greatest) × (at + 4 ≤ length bytes.now)) }
    ensures fault { TellsFault (count_fault bytes.now at greatest) result }
{
    if bytes.len() < at + COUNT_LEN {
        return Err(ObjectFault::Cut(bytes.len()));
    }
    let count = u32_at(bytes, at);
    if count > greatest {
        return Err(ObjectFault::BadCount(at));
    }
    Ok(count)
}

// The version, or the first fault of it and of the magic, which ends where the version begins.
fn read_version(bytes: &[u8]) -> Result<u16, ObjectFault>
    ensures version { IfOk result (λ v. (v ≡ u16_there bytes.now 8) × (is_version v ≡ true)) }
    ensures fault { TellsFault (or_else (magic_fault bytes.now) (version_fault bytes.now)) result }
{
    if bytes.len() < offsets::VERSION {
        return Err(ObjectFault::Cut(bytes.len()));
    }
    if !bytes.starts_with(MAGIC) {
        return Err(ObjectFault::Magic);
    }
    if bytes.len() < offsets::ROUTINE_COUNT {
        return Err(ObjectFault::Cut(bytes.len()));
    }
    let version = u16_at(bytes, offsets::VERSION);
    if version != FIRST_VERSION && version != LATEST_VERSION {
        return Err(ObjectFault::Version(version));
    }
    Ok(version)
}

// The header of a version, with its counts; the version was read before.
#[tactic(auto, unfolding(crate::specs::Header::counts_fault))]
fn read_counts(bytes: &[u8], version: u16) -> Result<Header, ObjectFault>
    requires version { version ≡ u16_there bytes.now 8 }
    requires known { is_version version ≡ true }
    ensures header { IfOk result (λ h.
        (h ≡ header_of bytes.now) × IsWithin h × (routines_at h ≤ length bytes.now)) }
    ensures fault { TellsFault (counts_fault bytes.now) result }
{
    let routines = read_count(bytes, offsets::ROUTINE_COUNT, ROUTINE_LIMIT)?;
    if routines == 0 {
        return Err(ObjectFault::BadCount(offsets::ROUTINE_COUNT));
    }
    let globals = read_count(bytes, offsets::GLOBAL_COUNT, RECORD_LIMIT)?;
    let params = read_count(bytes, offsets::PARAM_COUNT, RECORD_LIMIT)?;
    let runs = read_count(bytes, offsets::RUN_COUNT, SLOT_LIMIT)?;
    let ranges = read_count(bytes, offsets::RANGE_COUNT, RECORD_LIMIT)?;
    let texts = read_count(bytes, offsets::TEXT_COUNT, RECORD_LIMIT)?;
    let name_bytes = read_count(bytes, offsets::NAME_BYTE_COUNT, POOL_LIMIT)?;
    let text_bytes = read_count(bytes, offsets::TEXT_BYTE_COUNT, POOL_LIMIT)?;
    if texts == 0 && text_bytes > 0 {
        return Err(ObjectFault::BadCount(offsets::TEXT_BYTE_COUNT));
    }
    let instrs = read_count(bytes, offsets::INSTR_COUNT, INSTR_LIMIT)?;
    let lines = if version == LATEST_VERSION {
        read_count(bytes, offsets::LINE_COUNT, RECORD_LIMIT)?
    } else {
        0
    };
    Ok(Header {
        version,
        routines,
        globals,
        params,
        runs,
        ranges,
        texts,
        name_bytes,
        text_bytes,
        instrs,
        lines,
    })
}

/// The header of an object, or its first fault.
#[tactic(auto, unfolding(crate::specs::Header::header_fault))]
pub fn read_header(bytes: &[u8]) -> Result<Header, ObjectFault>
    ensures header { IfOk result (λ h.
        (h ≡ header_of bytes.now) × IsWithin h × (routines_at h ≤ length bytes.now)) }
    ensures fault { TellsFault (header_fault bytes.now) result }
{
    let version = read_version(bytes)?;
    read_counts(bytes, version)
}
