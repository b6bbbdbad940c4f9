// From the words to an end.
ghost use Rattle.std.specs.Prelude.{◌≡◌, ◌≤◌, ◌<◌, ◌+◌, [], length, map};
ghost use Rattle.std.specs.List.{AllByRecursion};
ghost use Rattle.alma_ir.specs.Checked.{IsChecked};
ghost use Rattle.alma_ir.specs.View.{program_of};
ghost use Rattle.alma_join.specs.Joined.{AreUnits};
ghost use Rattle.alma_plan.specs.Course.{Follows};
ghost use Rattle.alma_driver_words.specs.Words.{texts};
ghost use Rattle.alma_plan.specs.Ends.{program_end};
ghost use Rattle.alma_plan.specs.Programs.{sense};
ghost use Rattle.alma_link.specs.Ends.{link_end, task_of};
ghost use Rattle.alma_link.specs.Link.{failure, join_plan, link_plan, task_plan, program, files_plan};
ghost use Rattle.alma_plan.specs.Words.{greatest_files};

use crate::stop::LinkStop;
use crate::words::{Task, request_of};
use alma_driver_words::{DEFAULT_STEPS, split_word};
use alma_io::{Files, Sink, Source};
use alma_ir::Program;
use alma_join::join;
use alma_plan::{FileStop, ProgramEnd, Refusal, run_program, store_program};
use alma_unit::read_unit;
use std::alloc::Global;

// Does with the joined program what is asked for.
fn perform_task<F: Files, I: Source, O: Sink>(
    alloc: Global,
    task: Task<'_>,
    joined: &Program,
    files: &mut F,
    input: &mut I,
    out: &mut O,
) -> ProgramEnd
    requires checked { IsChecked (program_of joined.now) }
    ensures { Follows (sense program failure) program
        (task_plan (task_of task.entry) (program_of joined.now)) (F.side files.old)
        (F.side files.new) (I.side input.old) (I.side input.new) (O.side out.old) (O.side out.new)
        (program_end program failure result) }
{
    match task {
        Task::Run => run_program(alloc, joined, input, DEFAULT_STEPS, out),
        Task::Compile(object) => store_program(alloc, joined, object, files),
    }
}

// Joins the modules, and does with the program what is asked for.
fn serve_units<'w, F: Files, I: Source, O: Sink>(
    alloc: Global,
    task: Task<'w>,
    units: &[Program],
    files: &mut F,
    input: &mut I,
    out: &mut O,
) -> Result<ProgramEnd, LinkStop<'w>>
    requires units { AreUnits (map program_of units.now) }
    ensures { Follows (sense program failure) program
        (join_plan (task_of task.entry) (map program_of units.now)) (F.side files.old)
        (F.side files.new) (I.side input.old) (I.side input.new) (O.side out.old) (O.side out.new)
        (link_end (map program_of units.now) result) }
{
    let joined = join(alloc, units)?;
    Ok(perform_task(alloc, task, &joined, files, input, out))
}

// Reads the modules of these names, each before the next is fetched, behind those that were, and
// then joins them.
fn serve_files<'w, F: Files, I: Source, O: Sink>(
    alloc: Global,
    task: Task<'w>,
    units: &mut Vec<Program>,
    names: &'w [String],
    files: &mut F,
    input: &mut I,
    out: &mut O,
) -> Result<ProgramEnd, LinkStop<'w>>
    requires checked { AllByRecursion IsChecked (map program_of units.old.items) }
    requires some { 0 < length units.old.items + length names.now }
    requires few { length units.old.items + length names.now ≤ greatest_files }
    ensures { Follows (sense program failure) program
        (files_plan (task_of task.entry) (map program_of units.old.items) (texts names.now))
        (F.side files.old) (F.side files.new) (I.side input.old) (I.side input.new)
        (O.side out.old) (O.side out.new)
        (link_end (map program_of units.new.items) result) }
{
    let Some((name, rest)) = split_word(names) else {
        return serve_units(alloc, task, units.as_slice(), files, input, out);
    };
    match read_unit(alloc, files, name) {
        Ok(unit) => {
            units.push(unit)?;
            serve_files(alloc, task, units, rest, files, input, out)
        }
        Err(error) => Err(LinkStop::Unread(name, FileStop::from(error))),
    }
}

/// Does what the words ask: the end that it comes to, by the modules that were read, with all its
/// bytes on `out` where none failed.
pub fn perform<'w, F: Files, I: Source, O: Sink>(
    alloc: Global,
    words: &'w [String],
    units: &mut Vec<Program>,
    files: &mut F,
    input: &mut I,
    out: &mut O,
) -> Result<ProgramEnd, LinkStop<'w>>
    requires none { units.old.items ≡ [] }
    ensures { Follows (sense program failure) program (link_plan (texts words.now))
        (F.side files.old) (F.side files.new) (I.side input.old) (I.side input.new)
        (O.side out.old) (O.side out.new)
        (link_end (map program_of units.new.items) result) }
{
    let request = request_of(words).map_err(Refusal::BadWord)?;
    serve_files(alloc, request.task, units, request.files, files, input, out)
}
