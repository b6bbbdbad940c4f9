// Texts in parts, and what a call says on err at its end.
ghost use Rattle.std.specs.Prelude.{◌≡◌, ◌++◌, flat_map, decimal, IfSome};
ghost use Rattle.alma_io.specs.Outside.{Writes};
ghost use Rattle.alma_plan.specs.Plan.{ending_of, tells};
ghost use Rattle.alma_plan.specs.Course.{Reports};

use alma_base::Status;
use alma_driver_words::exit;
use alma_io::{Failed, Sink, write_all, write_parts};
use arrayvec::ArrayVec;
use itoa::Buffer;

/// The greatest length of a text that goes out in one piece.
const LINE_ROOM: usize = 512;

// The parts of a text as one, if it is short enough.
fn gather(parts: &[&[u8]]) -> Option<ArrayVec<u8, LINE_ROOM>>
    ensures { IfSome result (λ line. line.items ≡ flat_map (λ part. part.now) parts.now) }
{
    let mut line = ArrayVec::new();
    for part in parts {
        if line.try_extend_from_slice(part).is_err() {
            return None;
        }
    }
    Some(line)
}

/// Writes a text to err: in one piece where it is short, so that what other programs say does not
/// stand within it, and else in its parts.
pub fn write_text<E: Sink>(err: &mut E, text: &[&[u8]]) -> Result<(), Failed>
    ensures { Writes (E.side err.old) (E.side err.new) (flat_map (λ part. part.now) text.now)
        result }
{
    match gather(text) {
        Some(line) => Ok(write_all(err, line.as_slice())?),
        None => write_parts(err, text),
    }
}

/// The status of a call with this end, where its text, in parts, was written to err, or that of a
/// write fault.
pub fn report<E: Sink>(err: &mut E, status: u8, text: &[&[u8]]) -> Status
    ensures { Reports (ending_of status (flat_map (λ part. part.now) text.now)) (E.side err.old)
        (E.side err.new) result.0 }
{
    match write_text(err, text) {
        Ok(()) => Status(status),
        Err(_) => Status(exit::WRITE_FAULT),
    }
}

/// Says a line on err in the name of a program: this status, or that of a write fault where err
/// fails.
pub fn tell_line<'t, E: Sink>(err: &mut E, program: &'t [u8], status: u8, text: &'t [u8]) -> Status
    ensures { Reports (tells program.now status text.now) (E.side err.old) (E.side err.new)
        result.0 }
{
    let front = b": ".as_slice();
    let end = b"\n".as_slice();
    report(err, status, &[program, front, text, end])
}

/// Says a line on err, in the name of a program, that ends in a number: this status, or that of a
/// write fault where err fails.
pub fn tell_number<'t, E: Sink>(
    err: &mut E,
    program: &'t [u8],
    status: u8,
    text: &'t [u8],
    number: u64,
) -> Status
    ensures { Reports (tells program.now status (text.now ++ decimal number)) (E.side err.old)
        (E.side err.new) result.0 }
{
    let mut digits = Buffer::new();
    let front = b": ".as_slice();
    let digits = digits.format(number).as_bytes();
    let end = b"\n".as_slice();
    report(err, status, &[program, front, text, digits, end])
}
