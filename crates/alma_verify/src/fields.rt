// The numbers of a code in memory fit the fields of an object: its words are of 32 bits, its
// numbers of 64.
ghost use Rattle.std.specs.Prelude.{◌<◌, ◌^◌, All};
ghost use Rattle.alma_code.specs.Plain.{code_of, global_of};
ghost use Rattle.alma_object.specs.Fields.{FitsFields, FitsGlobal, FitsInstr, FitsRange, FitsRun};
ghost use Rattle.alma_verify.specs.Heads.{FitsHead};

use crate::forms::fits_form;
use alma_base::Range;
use alma_code::{Code, CodeGlobal, CodeParam, Instr, Line, RoutineHead, Run, SlotKind};

fn fits_run(run: Run)
    ensures { FitsRun run }
{
    match run.kind {
        SlotKind::Number | SlotKind::Mark => {}
        SlotKind::Place(_size) => {}
        SlotKind::Link(_routine) => {}
    }
}

fn fits_runs(runs: &[Run])
    ensures { All FitsRun runs.now }
{
    for run in runs {
        fits_run(*run);
    }
}

fn fits_param(param: CodeParam)
    ensures { param.cells < 2 ^ 32 }
{}

fn fits_params(params: &[CodeParam])
    ensures { All (λ param. param.cells < 2 ^ 32) params.now }
{
    for param in params {
        fits_param(*param);
    }
}

fn fits_head(routine: &RoutineHead)
    ensures { FitsHead routine.now }
{
    let _slots: u32 = routine.slots;
    let _declared: u32 = routine.declared;
    fits_params(&routine.params);
    fits_runs(&routine.kinds);
}

fn fits_heads(routines: &[RoutineHead])
    ensures { All FitsHead routines.now }
{
    for routine in routines {
        fits_head(routine);
    }
}

fn fits_global(global: &CodeGlobal)
    ensures { FitsGlobal (global_of global.now) }
{
    let _slot: u32 = global.slot;
    let _cells: u32 = global.cells;
}

fn fits_globals(globals: &[CodeGlobal])
    ensures { All (λ global. FitsGlobal (global_of global)) globals.now }
{
    for global in globals {
        fits_global(global);
    }
}

fn fits_range(range: Range)
    ensures { FitsRange range }
{}

fn fits_ranges(ranges: &[Range])
    ensures { All FitsRange ranges.now }
{
    for range in ranges {
        fits_range(*range);
    }
}

fn fits_instrs(instrs: &[Instr])
    ensures { All FitsInstr instrs.now }
{
    for instr in instrs {
        fits_form(*instr);
    }
}

fn fits_line(line: Line)
    ensures { line.line < 2 ^ 32 }
{}

fn fits_lines(lines: &[Line])
    ensures { All (λ line. line.line < 2 ^ 32) lines.now }
{
    for line in lines {
        fits_line(*line);
    }
}

/// The numbers of a code in memory fit the fields of an object. It does nothing that anyone sees.
pub fn fits_fields(code: &Code)
    ensures { FitsFields (code_of code.now) }
{
    fits_heads(&code.routines);
    fits_globals(&code.globals);
    fits_ranges(&code.ranges);
    fits_instrs(&code.code);
    fits_lines(&code.lines);
}
