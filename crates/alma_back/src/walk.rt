// A walk, when both files are there.
ghost use Rattle.std.specs.Prelude.{◌≤◌, ◌<◌, length};
ghost use Rattle.alma_base.specs.Limits.{input_limit};
ghost use Rattle.alma_code.specs.Reads.{code_reads};
ghost use Rattle.alma_io.specs.Sides.{FilesSide};
ghost use Rattle.alma_verify.specs.Bytes.{object_code};
ghost use Rattle.alma_verify.specs.Verified.{code_of_verified};
ghost use Rattle.alma_plan.specs.Course.{Follows, Goes};
ghost use Rattle.alma_plan.specs.Objects.{object_refusal};
ghost use Rattle.alma_plan.specs.Plan.{Reads, prints, IsDue, plain};
ghost use Rattle.alma_plan.specs.Refusals.{end_by, refusal_end, stop_end};
ghost use Rattle.alma_back.specs.Due.{program, walk_files_plan, walk_plan, walk_on_plan, script_limit};
ghost use Rattle.alma_back.specs.Ends.{back_end};
ghost use Rattle.alma_back.specs.Inner.{AreWalkable, lines_of};
ghost use Rattle.alma_back.specs.Session.{session};

use crate::back::Back;
use crate::script::{Line, read_lines};
use crate::show::show_lines;
use crate::stop::BackStop;
use alma_base::INPUT_LIMIT;
use alma_io::{Sink, Source, read_all};
use alma_plan::{Refusal, Stop, open_code};
use alma_verify::Verified;
use std::alloc::Global;

// Walks a code on an input, and writes what the lines show.
fn walk_on<O: Sink>(
    alloc: Global,
    code: Verified<'_>,
    lines: &[Line<'_>],
    input: &[u8],
    out: &mut O,
) -> Result<(), Stop>
    requires walkable { AreWalkable lines.now }
    requires lawful { length input.now ≤ input_limit }
    ensures { Goes program
        (IsDue (prints (session (code_of_verified code.entry) input.now (lines_of lines.now))))
        (O.side out.old) (O.side out.new) (end_by (stop_end program) result) }
{
    let mut back = Back::new(alloc, code, input)?;
    show_lines(alloc, &mut back, lines, out)
}

// Reads the whole input, and walks a code on it.
fn walk_reading<I: Source, O: Sink>(
    alloc: Global,
    code: Verified<'_>,
    lines: &[Line<'_>],
    input: &mut I,
    out: &mut O,
) -> Result<(), Stop>
    requires { AreWalkable lines.now }
    ensures { (files : FilesSide) → Follows plain program
        (Reads (λ bytes. prints (session (code_of_verified code.entry) bytes (lines_of lines.now))))
        files files (I.side input.old) (I.side input.new) (O.side out.old) (O.side out.new)
        (end_by (stop_end program) result) }
{
    let bytes = read_all(alloc, input, INPUT_LIMIT)?;
    walk_on(alloc, code, lines, &bytes, out)
}

// Walks a code. The input is read where the code reads.
fn walk<I: Source, O: Sink>(
    alloc: Global,
    code: Verified<'_>,
    lines: &[Line<'_>],
    input: &mut I,
    out: &mut O,
) -> Result<(), Stop>
    requires { AreWalkable lines.now }
    ensures { (files : FilesSide) → Follows plain program
        (walk_on_plan (code_reads (code_of_verified code.entry)) (code_of_verified code.entry)
        (lines_of lines.now)) files files (I.side input.old) (I.side input.new) (O.side out.old)
        (O.side out.new) (end_by (stop_end program) result) }
{
    if code.view().has_read() {
        walk_reading(alloc, code, lines, input, out)
    } else {
        walk_on(alloc, code, lines, b"", out)
    }
}

// Opens the object, and walks its code.
fn walk_object<I: Source, O: Sink>(
    alloc: Global,
    object: &[u8],
    lines: &[Line<'_>],
    input: &mut I,
    out: &mut O,
) -> Result<(), Refusal>
    requires { AreWalkable lines.now }
    ensures { (files : FilesSide) → Follows plain program
        (walk_plan (object_refusal program object.now)
        (object_code object.now) (lines_of lines.now))
        files files (I.side input.old) (I.side input.new) (O.side out.old) (O.side out.new)
        (end_by (refusal_end program) result) }
{
    let code = open_code(object)?;
    walk(alloc, code, lines, input, out)?;
    Ok(())
}

/// Both files are there: the script is walked, unless one of its lines is bad, or the object is
/// refused.
pub fn walk_files<I: Source, O: Sink>(
    alloc: Global,
    object: &[u8],
    script: &[u8],
    input: &mut I,
    out: &mut O,
) -> Result<(), BackStop>
    requires { length script.now ≤ script_limit }
    ensures { (files : FilesSide)
        → Follows plain program (walk_files_plan object.now script.now) files files
        (I.side input.old) (I.side input.new) (O.side out.old) (O.side out.new)
        (end_by back_end result) }
{
    let lines = read_lines(alloc, script)?;
    walk_object(alloc, object, &lines, input, out)?;
    Ok(())
}
