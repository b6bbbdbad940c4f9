// The code of a view, copied.
ghost use Rattle.std.specs.Prelude.{◌≡◌, ◌<◌, ◌^◌, map, length, IfOk};
ghost use Rattle.alma_code.specs.Plain.{code_of, routine_of, global_of};
ghost use Rattle.alma_code.specs.Records.{KeepsCounts};
ghost use Rattle.alma_object.specs.View.{code_of_view, head_of_view, routine_of_view, global_of_view};

use crate::routine::RoutineView;
use crate::view::{GlobalView, ObjectView};
use alma_base::{NoMemory, Range};
use alma_code::{Code, CodeGlobal, CodeParam, Head, Instr, Line, RoutineHead, Run};
use alma_object_format::{LINE_LEN, RANGE_LEN, line_in, range_in};
use std::alloc::Global;

// The params of a routine.
#[tactic(auto, using(crate::proofs::Items::take_steps))]
fn copy_params(alloc: Global, routine: &RoutineView<'_>) -> Result<Vec<CodeParam>, NoMemory>
    ensures params { IfOk result (λ params. params.items ≡ (head_of_view routine.now).params) }
    ensures few { IfOk result (λ params. length params.items < 2 ^ 32) }
{
    let mut params = Vec::new(alloc);
    for i in 0..routine.param_count() {
        params.push(routine.param(i))?;
    }
    Ok(params)
}

// The runs of a routine.
#[tactic(auto, using(crate::proofs::Items::take_steps))]
fn copy_runs(alloc: Global, routine: &RoutineView<'_>) -> Result<Vec<Run>, NoMemory>
    ensures runs { IfOk result (λ runs. runs.items ≡ (head_of_view routine.now).runs) }
    ensures few { IfOk result (λ runs. length runs.items < 2 ^ 32) }
{
    let mut runs = Vec::new(alloc);
    for i in 0..routine.run_count() {
        runs.push(routine.run(i))?;
    }
    Ok(runs)
}

// A routine, with its name, params and runs.
fn copy_routine(alloc: Global, routine: &RoutineView<'_>) -> Result<RoutineHead, NoMemory>
    ensures { IfOk result (λ head. routine_of head ≡ routine_of_view routine.now) }
{
    let name = Vec::from_slice(alloc, routine.name())?;
    let params = copy_params(alloc, routine)?;
    let kinds = copy_runs(alloc, routine)?;
    Ok(RoutineHead {
        name,
        slots: routine.slots(),
        declared: routine.declared(),
        kinds,
        params,
        result: routine.has_result(),
        code_end: routine.code_end(),
    })
}

// A global, with its name.
fn copy_global(alloc: Global, global: &GlobalView<'_>) -> Result<CodeGlobal, NoMemory>
    ensures { IfOk result (λ copy. global_of copy ≡ global_of_view global.now) }
{
    Ok(CodeGlobal {
        name: Vec::from_slice(alloc, global.name)?,
        slot: global.slot,
        cells: global.cells,
    })
}

impl<'b> ObjectView<'b> {
    #[tactic(auto, using(crate::proofs::Items::copy_steps))]
    fn copy_routines(&self, alloc: Global) -> Result<Vec<RoutineHead>, NoMemory>
        ensures { IfOk result (λ routines. map routine_of routines.items ≡
            (code_of_view self.now).routines) }
    {
        let mut routines = Vec::new(alloc);
        for i in 0..self.header.routines {
            let routine = copy_routine(alloc, &self.routine_view(i))?;
            routines.push(routine)?;
        }
        Ok(routines)
    }

    #[tactic(auto, using(crate::proofs::Items::copy_steps))]
    fn copy_globals(&self, alloc: Global) -> Result<Vec<CodeGlobal>, NoMemory>
        ensures { IfOk result (λ globals. map global_of globals.items ≡
            (code_of_view self.now).globals) }
    {
        let mut globals = Vec::new(alloc);
        for i in 0..self.header.globals {
            let global = copy_global(alloc, &self.global_view(i))?;
            globals.push(global)?;
        }
        Ok(globals)
    }

    #[tactic(auto, using(crate::proofs::Items::copy_steps))]
    fn copy_texts(&self, alloc: Global) -> Result<Vec<Vec<u8>>, NoMemory>
        ensures { IfOk result (λ texts. map (λ t. t.items) texts.items ≡
            (code_of_view self.now).texts) }
    {
        let mut texts = Vec::new(alloc);
        for i in 0..self.header.texts {
            let text = Vec::from_slice(alloc, self.text_view(i))?;
            texts.push(text)?;
        }
        Ok(texts)
    }

    #[tactic(auto, using(crate::proofs::Items::copy_steps))]
    fn copy_ranges(&self, alloc: Global) -> Result<Vec<Range>, NoMemory>
        ensures { IfOk result (λ ranges. ranges.items ≡ (code_of_view self.now).ranges) }
    {
        let ranges_at = self.header.ranges_at();
        let mut ranges = Vec::new(alloc);
        for i in 0..self.header.ranges {
            ranges.push(range_in(self.bytes, ranges_at + RANGE_LEN * i as usize))?;
        }
        Ok(ranges)
    }

    #[tactic(auto, using(crate::proofs::Items::take_steps, crate::proofs::Items::copy_steps))]
    fn copy_instrs(&self, alloc: Global) -> Result<Vec<Instr>, NoMemory>
        ensures { IfOk result (λ instrs. instrs.items ≡ (code_of_view self.now).instrs) }
    {
        let mut instrs = Vec::new(alloc);
        for at in 0..self.header.instrs {
            instrs.push(self.instr(at))?;
        }
        Ok(instrs)
    }

    #[tactic(auto, using(crate::proofs::Items::copy_steps))]
    fn copy_lines(&self, alloc: Global) -> Result<Vec<Line>, NoMemory>
        ensures { IfOk result (λ lines. lines.items ≡ (code_of_view self.now).lines) }
    {
        let lines_at = self.header.lines_at();
        let mut lines = Vec::new(alloc);
        for i in 0..self.header.lines {
            lines.push(line_in(self.bytes, lines_at + LINE_LEN * i as usize))?;
        }
        Ok(lines)
    }

    /// A copy of the code.
    pub fn to_code(&self, alloc: Global) -> Result<Code, NoMemory>
        ensures code { IfOk result (λ code. code_of code ≡ code_of_view self.now) }
        ensures counts { IfOk result (λ code. KeepsCounts (code_of code)) }
    {
        Ok(Code {
            version: self.header.version,
            routines: self.copy_routines(alloc)?,
            globals: self.copy_globals(alloc)?,
            ranges: self.copy_ranges(alloc)?,
            texts: self.copy_texts(alloc)?,
            code: self.copy_instrs(alloc)?,
            lines: self.copy_lines(alloc)?,
        })
    }
}
