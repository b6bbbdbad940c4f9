// What a view reads.
ghost use Rattle.std.specs.Prelude.{◌≡◌, ◌+◌, ◌<◌, ◌≤◌, length, slice_get, slice_range, option_map, Some, None, IfOk, IfSome};
ghost use Rattle.alma_code.specs.Lines.{line_at as line_at_code};
ghost use Rattle.alma_code.specs.Plain.{start_at};
ghost use Rattle.alma_code.specs.Reads.{is_read as is_read_of, code_reads};
ghost use Rattle.alma_base.specs.FirstFault.{TellsFault};
ghost use Rattle.alma_object_format.specs.Object.{IsObject};
ghost use Rattle.alma_object_format.specs.Reading.{name_in, text_in, routine_in, global_in};
ghost use Rattle.alma_object_format.specs.Walk.{object_fault};
ghost use Rattle.alma_object.specs.View.{code_of_view, instr_of_record, routine_of_view, global_of_view, IsSplit};

use crate::record::InstrRecord;
use crate::routine::RoutineView;
use crate::view::ObjectView;
use alma_base::Range;
use alma_code::{Instr, Line};
use alma_object_format::{
    GLOBAL_LEN, INSTR_LEN, LINE_LEN, ObjectFault, PARAM_LEN, RANGE_LEN, ROUTINE_LEN, RUN_LEN,
    code_end, code_start, instr_at, line_in, name_end, name_start, offsets, params_end,
    params_start, range_in, read_header, runs_end, runs_start, sections_fault, text_end,
    text_start, u32_at,
};

/// A global of an object. It lends its name.
#[derive(Clone, Copy)]
pub struct GlobalView<'b> {
    pub name: &'b [u8],
    pub slot: u32,
    pub cells: u32,
}

// Whether an instruction is a ReadInt or a ReadChar.
fn is_read(instr: Instr) -> bool
    ensures { result ≡ is_read_of instr }
{
    matches!(instr, Instr::ReadInt { .. } | Instr::ReadChar { .. })
}

impl<'b> ObjectView<'b> {
    /// The view of the bytes of an object, or the first fault of bytes that are none.
    #[tactic(auto, unfolding(alma_object_format::specs::Walk::object_fault))]
    pub fn new(bytes: &'b [u8]) -> Result<ObjectView<'b>, ObjectFault>
        ensures fault { TellsFault (object_fault bytes.now) result }
        ensures object { IfOk result (λ view. IsObject (code_of_view view) bytes.now) }
    {
        let header = read_header(bytes)?;
        if let Some(fault) = sections_fault(bytes, &header) {
            return Err(fault);
        }
        Ok(ObjectView {
            bytes,
            header,
            routines_at: header.routines_at(),
            instrs_at: header.instrs_at(),
        })
    }

    /// What each view keeps: its bytes are the object of its code.
    pub fn keeps_object(&self)
        ensures { IsObject (code_of_view self.now) self.now.bytes.now }
    {}

    /// The version of the object, 1 or 2. Links, lines and the forms from 49 on are of version 2
    /// alone.
    pub fn version(&self) -> u16
        ensures { result ≡ (code_of_view self.now).version }
    {
        self.header.version
    }

    /// How many routines there are, at least 1: routine 0 is the module body.
    #[tactic(auto, using(crate::proofs::Items::item_steps))]
    pub fn routine_count(&self) -> u32
        ensures { result ≡ length (code_of_view self.now).routines }
    {
        self.header.routines
    }

    /// How many instructions all routines have together. Addresses count from 0 and are below it.
    #[tactic(auto, using(crate::proofs::Items::item_steps))]
    pub fn code_count(&self) -> u32
        ensures { result ≡ length (code_of_view self.now).instrs }
    {
        self.header.instrs
    }

    /// How many globals there are, each a name for cells of the frame of routine 0.
    #[tactic(auto, using(crate::proofs::Items::item_steps))]
    pub fn global_count(&self) -> u32
        ensures { result ≡ length (code_of_view self.now).globals }
    {
        self.header.globals
    }

    /// The instruction at an address, straight from its record.
    #[inline(always)]
    #[tactic(auto, using(crate::proofs::Items::item_steps))]
    pub fn instr(&self, at: u32) -> Instr
        requires { at < length (code_of_view self.now).instrs }
        ensures { slice_get (code_of_view self.now).instrs at ≡ Some result }
    {
        instr_at(self.bytes, self.instrs_at + INSTR_LEN * at as usize)
    }

    /// The record of the instruction at an address.
    #[inline(always)]
    #[tactic(auto, using(crate::proofs::Items::item_steps))]
    pub fn record(&self, at: u32) -> InstrRecord<'b>
        requires { at < length (code_of_view self.now).instrs }
        ensures { slice_get (code_of_view self.now).instrs at ≡ Some (instr_of_record result) }
    {
        InstrRecord::new(self.bytes, self.instrs_at + INSTR_LEN * at as usize)
    }

    /// The range that a range word names, low and high in it, straight from its record; None past
    /// the last.
    #[inline(always)]
    #[tactic(auto, using(crate::proofs::Items::item_steps))]
    pub fn range(&self, i: u32) -> Option<Range>
        ensures { result ≡ slice_get (code_of_view self.now).ranges i }
    {
        if i < self.header.ranges {
            Some(range_in(self.bytes, self.header.ranges_at() + RANGE_LEN * i as usize))
        } else {
            None
        }
    }

    // The bytes from one offset to another.
    fn part(&self, start: usize, end: usize) -> &'b [u8]
        requires order { start ≤ end }
        requires end { end ≤ length self.now.bytes.now }
        ensures { result.now ≡ slice_range self.now.bytes.now start end }
    {
        &self.bytes[start..end]
    }

    // The name with a number, counted through the routines and then the globals.
    #[tactic(auto, unfolding(alma_object_format::specs::Reading::name_in))]
    fn name(&self, name: u32) -> &'b [u8]
        requires { name < self.now.header.routines + self.now.header.globals }
        ensures { result.now ≡ name_in self.now.bytes.now self.now.header name }
    {
        let at = self.header.name_pool_at();
        let start = name_start(self.bytes, &self.header, name);
        let end = name_end(self.bytes, &self.header, name);
        self.part(at + start as usize, at + end as usize)
    }

    // The routine with a number below their count.
    #[tactic(auto, unfolding(alma_object_format::specs::Reading::routine_in), using(crate::proofs::Items::item_steps))]
    pub(crate) fn routine_view(&self, i: u32) -> RoutineView<'b>
        requires { i < self.now.header.routines }
        ensures routine { routine_of_view result ≡ routine_in self.now.bytes.now self.now.header i }
        ensures start { result.code_start ≡ start_at (code_of_view self.now) i }
    {
        let at = self.routines_at + ROUTINE_LEN * i as usize;
        let params = params_start(self.bytes, &self.header, i);
        let runs = runs_start(self.bytes, &self.header, i);
        RoutineView {
            bytes: self.bytes,
            name: self.name(i),
            params_at: self.header.params_at() + PARAM_LEN * params as usize,
            param_count: params_end(self.bytes, &self.header, i) - params,
            runs_at: self.header.runs_at() + RUN_LEN * runs as usize,
            run_count: runs_end(self.bytes, &self.header, i) - runs,
            slots: u32_at(self.bytes, at + offsets::ROUTINE_SLOTS),
            declared: u32_at(self.bytes, at + offsets::ROUTINE_DECLARED),
            result: u32_at(self.bytes, at + offsets::ROUTINE_RESULT) == 1,
            code_start: code_start(self.bytes, &self.header, i),
            code_end: code_end(self.bytes, &self.header, i),
        }
    }

    /// The routine with a number, which lends its name and its records; None past the last.
    #[tactic(auto, using(crate::proofs::Items::item_steps))]
    pub fn routine(&self, i: u32) -> Option<RoutineView<'b>>
        ensures routine { option_map routine_of_view result ≡ slice_get
            (code_of_view self.now).routines i }
        ensures start { IfSome result (λ routine. routine.code_start ≡ start_at
            (code_of_view self.now) i) }
    {
        if i < self.header.routines {
            Some(self.routine_view(i))
        } else {
            None
        }
    }

    // The global with a number below their count.
    #[tactic(auto, unfolding(alma_object_format::specs::Reading::global_in))]
    pub(crate) fn global_view(&self, i: u32) -> GlobalView<'b>
        requires { i < self.now.header.globals }
        ensures { global_of_view result ≡ global_in self.now.bytes.now self.now.header i }
    {
        let at = self.header.globals_at() + GLOBAL_LEN * i as usize;
        GlobalView {
            name: self.name(self.header.routines + i),
            slot: u32_at(self.bytes, at + offsets::GLOBAL_SLOT),
            cells: u32_at(self.bytes, at + offsets::GLOBAL_CELLS),
        }
    }

    /// The global with a number, which lends its name; None past the last.
    #[tactic(auto, using(crate::proofs::Items::item_steps))]
    pub fn global(&self, i: u32) -> Option<GlobalView<'b>>
        ensures { option_map global_of_view result ≡ slice_get (code_of_view self.now).globals i }
    {
        if i < self.header.globals {
            Some(self.global_view(i))
        } else {
            None
        }
    }

    // The bytes of the text with a number below their count.
    #[tactic(auto, unfolding(alma_object_format::specs::Reading::text_in))]
    pub(crate) fn text_view(&self, i: u32) -> &'b [u8]
        requires { i < self.now.header.texts }
        ensures { result.now ≡ text_in self.now.bytes.now self.now.header i }
    {
        let at = self.header.text_pool_at();
        let start = text_start(self.bytes, &self.header, i);
        let end = text_end(self.bytes, &self.header, i);
        self.part(at + start as usize, at + end as usize)
    }

    /// The bytes of the text with a number; None past the last.
    #[tactic(auto, using(crate::proofs::Items::item_steps))]
    pub fn text(&self, i: u32) -> Option<&'b [u8]>
        ensures { option_map (λ text. text.now) result ≡ slice_get (code_of_view self.now).texts i }
    {
        if i < self.header.texts {
            Some(self.text_view(i))
        } else {
            None
        }
    }

    /// Whether a ReadInt or a ReadChar stands in the code.
    #[tactic(auto, using(std::proofs::lemmas::List::Folds::list_any_more, std::proofs::lemmas::List::Folds::list_any_at, crate::proofs::Items::item_steps))]
    pub fn has_read(&self) -> bool
        ensures { result ≡ code_reads (code_of_view self.now) }
    {
        for at in 0..self.header.instrs {
            if is_read(self.instr(at)) {
                return true;
            }
        }
        false
    }

    // The record of a line.
    #[tactic(auto, using(crate::proofs::Items::item_steps))]
    fn line(&self, k: u32) -> Line
        requires { k < length (code_of_view self.now).lines }
        ensures { slice_get (code_of_view self.now).lines k ≡ Some result }
    {
        line_in(self.bytes, self.header.lines_at() + LINE_LEN * k as usize)
    }

    // How many lines begin at or before an address, by halving.
    #[tactic(auto, using(crate::proofs::Items::item_steps))]
    fn lines_until(&self, at: u32) -> u32
        ensures { IsSplit at (code_of_view self.now).lines result }
    {
        let mut low = 0;
        let mut high = self.header.lines;
        'halve: while low < high {
            let middle = low + (high - low) / 2;
            if self.line(middle).at <= at {
                low = middle + 1;
            } else {
                high = middle;
            }
        }
        low
    }

    /// The line of the last record at or before an address; 0 where there is none.
    pub fn line_at(&self, at: u32) -> u32
        ensures { result ≡ line_at_code (code_of_view self.now) at }
    {
        self.keeps_object();
        let count = self.lines_until(at);
        if count == 0 {
            0
        } else {
            self.line(count - 1).line
        }
    }
}
