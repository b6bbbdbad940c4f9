// The record of an instruction.
ghost use Rattle.std.specs.Prelude.{◌+◌, ◌≤◌, length};
ghost use Rattle.alma_object_format.specs.Lengths.{instr_len};

mod words;

/// The record of an instruction: its opcode and four words. Only what is asked for is read.
#[derive(Clone, Copy)]
pub struct InstrRecord<'b> {
    bytes: &'b [u8],
    at: usize,
    ghost whole: { at + instr_len ≤ length bytes.now },
}
