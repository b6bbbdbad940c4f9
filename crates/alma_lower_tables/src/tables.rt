// Parameters, variables, instructions and lines.
ghost use Rattle.std.specs.Prelude.{◌≡◌, ◌≤◌, ◌++◌, length, map, IfOk};
ghost use Rattle.alma_base.specs.Limits.{instr_limit};
ghost use Rattle.alma_choice.specs.Emitted.{line_instr};
ghost use Rattle.alma_code.specs.Plain as code;
ghost use Rattle.alma_ir.specs.View as view;
ghost use Rattle.alma_lower_templates.specs.Compiled as compiled;
ghost use Rattle.alma_lower_templates.specs.LineInstr as lines;

use crate::kinds::LINK_LEVEL;
use alma_base::NoMemory;
use alma_code::{CodeGlobal, CodeParam, Instr, Line, ParamKind};
use alma_ir::{ArgKind, Param, Routine};
use std::alloc::Global;

// How a parameter is named in a code.
fn kind_named(kind: ArgKind) -> ParamKind
    ensures { result ≡ compiled.param_kind kind }
{
    match kind {
        ArgKind::Value => ParamKind::Value,
        ArgKind::Place => ParamKind::Place,
        ArgKind::Mix => ParamKind::Mix,
        ArgKind::Cells => ParamKind::Cells,
    }
}

// The parameters of a routine itself.
fn named_params(alloc: Global, params: &[Param]) -> Result<Vec<CodeParam>, NoMemory>
    ensures { IfOk result (λ named. named.items ≡ map compiled.param_named params.now) }
{
    let mut named = Vec::new(alloc);
    for param in params {
        named.push(CodeParam {
            kind: kind_named(param.kind),
            cells: param.cells,
        })?;
    }
    Ok(named)
}

/// The parameters of a routine, its link before the others.
pub fn params_of(alloc: Global, routine: &Routine) -> Result<Vec<CodeParam>, NoMemory>
    ensures { IfOk result (λ params. params.items ≡ compiled.link_params routine.now.level
        routine.now.outer ++ map compiled.param_named routine.now.params.items) }
{
    let named = named_params(alloc, &routine.params)?;
    let mut params = Vec::new(alloc);
    if routine.level >= LINK_LEVEL {
        params.push(CodeParam {
            kind: ParamKind::Link,
            cells: routine.outer,
        })?;
    }
    params.extend_from_slice(&named)?;
    Ok(params)
}

/// The variables of the module, as a code names them.
pub fn globals_of(alloc: Global, globals: &[alma_ir::Global]) -> Result<Vec<CodeGlobal>, NoMemory>
    ensures { IfOk result (λ named. map code.global_of named.items ≡ map compiled.global_named
        (map view.global_of globals.now)) }
{
    let mut named = Vec::new(alloc);
    for global in globals {
        named.push(CodeGlobal {
            name: Vec::from_slice(alloc, &global.name)?,
            slot: global.slot,
            cells: global.cells,
        })?;
    }
    Ok(named)
}

/// The instructions without their lines.
pub fn instrs_of(alloc: Global, placed: &[(Instr, u32)]) -> Result<Vec<Instr>, NoMemory>
    ensures { IfOk result (λ instrs. instrs.items ≡ lines.instrs_of (map line_instr placed.now)) }
{
    let mut instrs = Vec::new(alloc);
    for one in placed {
        instrs.push(one.0)?;
    }
    Ok(instrs)
}

/// A record for each address from which on the line is another than before.
pub fn lines_of(alloc: Global, placed: &[(Instr, u32)]) -> Result<Vec<Line>, NoMemory>
    requires room { length placed.now ≤ instr_limit }
    ensures { IfOk result (λ table. table.items ≡ lines.lines_of (map line_instr placed.now)) }
{
    let mut lines = Vec::new(alloc);
    let mut before = 0;
    let mut at = 0;
    for one in placed {
        let line = one.1;
        if line != before {
            lines.push(Line { at, line })?;
            before = line;
        }
        at += 1;
    }
    Ok(lines)
}
