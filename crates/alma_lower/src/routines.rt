// The code of all routines.
ghost use Rattle.std.specs.Prelude.{◌≡◌, length, map, IfOk};
ghost use Rattle.alma_code.specs.Plain as code;
ghost use Rattle.alma_ir.specs.View.{program_of};
ghost use Rattle.alma_choice.specs.Emitted.{line_instr};
ghost use Rattle.alma_lower_tables.specs.Numbers.{tables_of};
ghost use Rattle.alma_lower_work.specs.Front.{around};
ghost use Rattle.alma_lower_templates.specs.Compiled.{routines_code};
ghost use Rattle.alma_lower.specs.Routines.{AreHeads, around_at};

use crate::routine::lower_routine;
use alma_base::NoMemory;
use alma_choice::Emit;
use alma_code::{Instr, RoutineHead};
use alma_ir::Program;
use alma_lower_parts::{Scene, Work};
use alma_lower_tables::Numbers;
use std::alloc::Global;

/// The heads of all routines, and their instructions, each with its line.
#[derive(Drop)]
pub struct Routines {
    pub heads: Vec<RoutineHead>,
    pub code: Vec<(Instr, u32)>,
}

/// The routines of a program, given the numbers of its ranges and texts.
pub fn lower_routines(
    alloc: Global,
    program: &Program,
    numbers: &Numbers,
) -> Result<Routines, NoMemory>
    ensures code { IfOk result (λ made. map line_instr made.code.items ≡ routines_code
        (program_of program.now) (tables_of numbers.now) 0
        (length (program_of program.now).routines) 0) }
    ensures heads { IfOk result (λ made. AreHeads (program_of program.now) (tables_of numbers.now)
        (length (program_of program.now).routines) (map code.routine_of made.heads.items)) }
{
    let mut work = Work {
        emit: Emit::new(alloc),
        lines: Vec::new(alloc),
        handed: 0,
    };
    let mut heads = Vec::new(alloc);
    for i in 0..program.routines.len() {
        let scene = scene_at(program, numbers, i)?;
        heads.push(lower_routine(alloc, &mut work, &scene)?)?;
    }
    Ok(Routines {
        heads,
        code: work.emit.code,
    })
}

// The scene of a routine. Past 32 bits this is NoMemory.
fn scene_at<'p>(
    program: &'p Program,
    numbers: &'p Numbers,
    routine: usize,
) -> Result<Scene<'p>, NoMemory>
    ensures { IfOk result (λ scene. around scene
        ≡ around_at (program_of program.now) (tables_of numbers.now) routine) }
{
    if routine > u32::MAX as usize {
        return Err(NoMemory);
    }
    Ok(Scene {
        program,
        numbers,
        routine: routine as u32,
    })
}
