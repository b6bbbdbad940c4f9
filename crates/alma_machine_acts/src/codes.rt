// The readers of a code, as a verified object gives them where it lies.
ghost use Rattle.std.specs.Prelude.{◌≡◌, ◌<◌, length, map, slice_get, option_map, Some};
ghost use Rattle.alma_code.specs.Plain.{PlainCode, start_at};
ghost use Rattle.alma_object.specs.View.{instr_of_record};

use alma_base::Range;
use alma_code::{Head, Instr};
use alma_object::{InstrRecord, RoutineView};
use alma_verify::Verified;

/// A code that is read in parts.
pub trait CodeView {
    ghost code: { Self → PlainCode };

    /// The head of a routine, as it is read.
    type Routine: Head + Copy;

    /// How many instructions it has.
    fn code_count(&self) -> u32
        ensures { result ≡ length (code self.now).instrs };

    /// The instruction at an address.
    fn instr(&self, at: u32) -> Instr
        requires { at < length (code self.now).instrs }
        ensures { slice_get (code self.now).instrs at ≡ Some result };

    /// The record of the instruction at an address.
    fn record(&self, at: u32) -> InstrRecord<'_>
        requires { at < length (code self.now).instrs }
        ensures { slice_get (code self.now).instrs at ≡ Some (instr_of_record result) };

    /// A range of its table, or none past the last.
    fn range(&self, i: u32) -> Option<Range>
        ensures { result ≡ slice_get (code self.now).ranges i };

    /// The bytes of a text, or none past the last.
    fn text(&self, i: u32) -> Option<&[u8]>
        ensures { option_map (λ text. text.now) result ≡ slice_get (code self.now).texts i };

    /// The head of a routine, or none past the last.
    fn routine(&self, i: u32) -> Option<Self::Routine>
        ensures { option_map Self.Routine.head result ≡ slice_get (map
            (λ r. r.head) (code self.now).routines) i };

    /// The address of the first instruction of a routine.
    fn start(&self, i: u32) -> u32
        requires { i < length (code self.now).routines }
        ensures { result ≡ start_at (code self.now) i };
}

impl<'b> CodeView for Verified<'b> {
    ghost use Rattle.alma_verify.specs.Verified.{code_of_verified};

    ghost code = { code_of_verified };

    type Routine = RoutineView<'b>;

    #[inline(always)]
    fn code_count(&self) -> u32 {
        self.view().code_count()
    }

    fn instr(&self, at: u32) -> Instr {
        self.view().instr(at)
    }

    #[inline(always)]
    fn record(&self, at: u32) -> InstrRecord<'_> {
        self.view().record(at)
    }

    #[inline(always)]
    fn range(&self, i: u32) -> Option<Range> {
        self.view().range(i)
    }

    fn text(&self, i: u32) -> Option<&[u8]> {
        self.view().text(i)
    }

    // The machine's loop keeps its view in registers of the processor, as long as nothing that is
    // called knows where it is: so a copy is looked at.
    #[inline(always)]
    fn routine(&self, i: u32) -> Option<RoutineView<'b>> {
        let view = *self.view();
        view.routine(i)
    }

    #[inline(always)]
    fn start(&self, i: u32) -> u32 {
        let view = *self.view();
        match view.routine(i) {
            Some(routine) => routine.code_start(),
            None => unreachable!(),
        }
    }
}
