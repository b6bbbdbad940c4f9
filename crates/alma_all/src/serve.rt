// From the words to an end.
ghost use Rattle.std.specs.Prelude.{◌≤◌};
ghost use Rattle.alma_io.specs.Sides.{FilesSide};
ghost use Rattle.alma_ir.specs.Checked.{IsChecked};
ghost use Rattle.alma_ir.specs.View.{program_of};
ghost use Rattle.alma_plan.specs.Course.{Follows};
ghost use Rattle.alma_driver_words.specs.Words.{greatest_steps, texts};
ghost use Rattle.alma_resolved.specs.Room.{HasRoom};
ghost use Rattle.alma_all.specs.All.{program as program_name, all_sense, all_plan, file_plan, list_plan};
ghost use Rattle.alma_all.specs.Ends.{all_end};

use crate::stop::AllStop;
use crate::words::request_of;
use alma_io::{Files, Sink, Source};
use alma_ir::Program;
use alma_listing::listing_program;
use alma_plan::{FileStop, ProgramEnd, run_program};
use alma_unit::read_unit;
use std::alloc::Global;

// Lists the alternatives of a program.
fn list<'w, I: Source, O: Sink>(
    alloc: Global,
    program: &Program,
    input: &mut I,
    steps: u64,
    out: &mut O,
) -> Result<ProgramEnd, AllStop<'w>>
    requires checked { IsChecked (program_of program.now) }
    requires room { HasRoom (program_of program.now) }
    requires few { steps ≤ greatest_steps }
    ensures { (files : FilesSide)
        → Follows all_sense program_name (list_plan (program_of program.now) steps) files files
        (I.side input.old) (I.side input.new) (O.side out.old) (O.side out.new) (all_end result) }
{
    let lister = listing_program(alloc, program)?;
    Ok(run_program(alloc, &lister, input, steps, out))
}

// Lists the alternatives of the program of a file.
fn list_file<'w, F: Files, I: Source, O: Sink>(
    alloc: Global,
    file: &'w str,
    files: &mut F,
    input: &mut I,
    steps: u64,
    out: &mut O,
) -> Result<ProgramEnd, AllStop<'w>>
    requires few { steps ≤ greatest_steps }
    ensures { Follows all_sense program_name (file_plan file.now steps)
        (F.side files.old) (F.side files.new) (I.side input.old) (I.side input.new)
        (O.side out.old) (O.side out.new) (all_end result) }
{
    match read_unit(alloc, files, file) {
        Ok(program) => list(alloc, &program, input, steps, out),
        Err(error) => Err(AllStop::Unread(file, FileStop::from(error))),
    }
}

/// Does what the words ask: the end that it comes to, with all its bytes on `out` where none
/// failed.
pub fn perform<'w, F: Files, I: Source, O: Sink>(
    alloc: Global,
    words: &'w [String],
    files: &mut F,
    input: &mut I,
    out: &mut O,
) -> Result<ProgramEnd, AllStop<'w>>
    ensures { Follows all_sense program_name (all_plan (texts words.now)) (F.side files.old)
        (F.side files.new) (I.side input.old) (I.side input.new) (O.side out.old)
        (O.side out.new) (all_end result) }
{
    let (file, steps) = request_of(words)?;
    list_file(alloc, file, files, input, steps, out)
}
