// The words of the record of an instruction.
ghost use Rattle.std.specs.Prelude.{◌≡◌, ◌+◌, ◌≤◌, length};
ghost use Rattle.alma_object_format.specs.Lengths.{instr_len};
ghost use Rattle.alma_object.specs.View.{opcode_of_record, word_of_record, value_of_record};

use crate::record::InstrRecord;
use alma_object_format::{i64_at, offsets, u32_at};

impl<'b> InstrRecord<'b> {
    /// The record in the bytes at an offset.
    #[inline(always)]
    pub(crate) fn new(bytes: &'b [u8], at: usize) -> InstrRecord<'b>
        requires { at + instr_len ≤ length bytes.now }
        ensures bytes { result.bytes.now ≡ bytes.now }
        ensures at { result.at ≡ at }
    {
        InstrRecord { bytes, at }
    }

    /// The opcode, which tells the form.
    #[inline(always)]
    pub fn opcode(&self) -> u8
        ensures { result ≡ opcode_of_record self.now }
    {
        self.bytes[self.at]
    }

    /// The first word.
    #[inline(always)]
    pub fn first(&self) -> u32
        ensures { result ≡ word_of_record self.now 1 }
    {
        u32_at(self.bytes, self.at + offsets::WORD_A)
    }

    /// The second word.
    #[inline(always)]
    pub fn second(&self) -> u32
        ensures { result ≡ word_of_record self.now 5 }
    {
        u32_at(self.bytes, self.at + offsets::WORD_B)
    }

    /// The third word.
    #[inline(always)]
    pub fn third(&self) -> u32
        ensures { result ≡ word_of_record self.now 9 }
    {
        u32_at(self.bytes, self.at + offsets::WORD_C)
    }

    /// The fourth word.
    #[inline(always)]
    pub fn fourth(&self) -> u32
        ensures { result ≡ word_of_record self.now 13 }
    {
        u32_at(self.bytes, self.at + offsets::WORD_D)
    }

    /// The value of a Const, which stands in the second and third word.
    #[inline(always)]
    pub fn value(&self) -> i64
        ensures { result ≡ value_of_record self.now }
    {
        i64_at(self.bytes, self.at + offsets::WORD_B)
    }
}
