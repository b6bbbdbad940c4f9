// The body of one routine.
ghost use Rattle.std.specs.Prelude.{◌≡◌, ℕ, List, IfOk, OnOk};
ghost use Rattle.alma_ir.specs.Tree as ir;
ghost use Rattle.alma_ir.specs.View.{routine_of};
ghost use Rattle.alma_rules.specs.Numbered as tree;
ghost use Rattle.alma_rules.specs.Judgement.{Judgement};
ghost use Rattle.alma_rules.specs.Answers.{Answers};
ghost use Rattle.alma_rules.specs.Scene as scenes;
ghost use Rattle.alma_rules.specs.Decls as rules;
ghost use Rattle.alma_rules.specs.Modules as modules;
ghost use Rattle.alma_rules.specs.View as view;
ghost use Rattle.alma_check_rules.specs.Views.{stmts_of};
ghost use Rattle.alma_check_type.specs.Told.{fault_of};
ghost use Rattle.alma_check_stmt.specs.Inner.Gathered.{Adds};
ghost use Rattle.alma_check_stmt.specs.Inner.Shown.{routines_in};
ghost use Rattle.alma_check_stmt.specs.Inner.Framed.{frame_in, IsOutline};

use crate::checked::Checked;
use crate::line::{Lines, body_lines, line_of};
use alma_base::{NoMemory, Range};
use alma_check_block::Frame;
use alma_check_phrases::check_stmts;
use alma_check_rules::{Place, Returns};
use alma_check_type::{BrokenRule, Reader};
use alma_ir::{Param, Routine, Stmt};
use alma_rules::Stop;
use alma_tree::{Name, Stmts};
use std::alloc::Global;

/// A routine: its name, the number of the routine round it, and the token behind its body.
#[derive(Clone, Copy)]
pub struct Site<'t> {
    pub name: &'t Name,
    pub outer: u32,
    pub end: u32,
}

// What a routine is but for its body.
#[derive(Drop)]
struct Outline {
    name: Vec<u8>,
    params: Vec<Param>,
    result: Option<Range>,
    declared: u32,
    level: u32,
    outer: u32,
    line: u32,
    lines: Vec<u32>,
}

// The range of a function's result.
fn result_range(reader: &Reader) -> Option<Range>
    ensures { result ≡ modules.result_in reader.now reader.now.returns }
{
    match reader.env().returns {
        Returns::Nothing => None,
        Returns::Value(None) => None,
        Returns::Value(Some(shape)) => Some(reader.env().range(shape)),
    }
}

// The level of the routine round a phrase.
fn level(reader: &Reader) -> Result<u32, NoMemory>
    ensures { IfOk result (λ n. n ≡ scenes.level reader.now) }
{
    match u32::try_from(reader.env().scopes.depth().saturating_sub(1)) {
        Ok(level) => Ok(level),
        Err(_) => Err(NoMemory),
    }
}

// What a routine is but for its body. The parameters are taken out of the frame.
fn read_outline(
    alloc: Global,
    reader: &Reader,
    lines: &Lines,
    frame: &mut Frame,
    site: Site,
    body: &Option<Stmts>,
) -> Result<Outline, NoMemory>
    requires { lines.now ≡ reader.now.source }
    ensures shape { IfOk result (λ o. IsOutline o (frame_in reader.now frame.old)
        (view.view_name site.entry.name.now) site.entry.outer
        (modules.body_lines reader.now site.entry.end (view.body_of body.now))) }
    ensures slots { frame.new.slots ≡ frame.old.slots }
    ensures variables { frame.new.variables ≡ frame.old.variables }
{
    let name = reader.env().text(site.name.token).to_vec(alloc)?;
    let found = body_lines(alloc, reader, lines, site.end, body)?;
    Ok(Outline {
        name,
        params: std::mem::replace(&mut frame.params, Vec::new(alloc)),
        result: result_range(reader),
        declared: frame.declared,
        level: level(reader)?,
        outer: site.outer,
        line: line_of(reader, lines, site.name.token.saturating_sub(1)),
        lines: found,
    })
}

// The statements of a block.
fn judge_body(
    alloc: Global,
    reader: &Reader,
    slot: &mut u32,
    body: &Option<Stmts>,
) -> Result<Option<Vec<Stmt>>, Stop>
    ensures { Answers (modules.judge_body (rules.new_frame reader.now slot.old)
        (view.body_of body.now)) stmts_of slot.new result }
{
    let place = Place {
        constant: false,
        inside: false,
    };
    match body {
        None => Ok(Some(Vec::new(alloc))),
        Some(body) => check_stmts(alloc, reader.env(), place, slot, body),
    }
}

// A routine with its body.
fn with_body(outline: Outline, slots: u32, body: Vec<Stmt>) -> Routine
    ensures { (f : rules.Frame) (name : tree.Name) (outer : ℕ) (lines : List ℕ)
        → IsOutline outline f name outer lines
        → routine_of result ≡ modules.routine_of f name outer slots lines (stmts_of body) }
{
    Routine {
        name: outline.name,
        params: outline.params,
        result: outline.result,
        declared: outline.declared,
        slots,
        body,
        level: outline.level,
        outer: outline.outer,
        line: outline.line,
        lines: outline.lines,
    }
}

// Adds a routine, where its body is not Bad.
fn add_routine(
    checked: &mut Checked,
    outline: Outline,
    slots: u32,
    body: Result<Option<Vec<Stmt>>, Stop>,
) -> Result<Option<BrokenRule>, NoMemory>
    ensures added { (j : Judgement ir.Stmts) (f : rules.Frame) (name : tree.Name) (outer : ℕ)
        (lines : List ℕ) → Answers j stmts_of slots body → IsOutline outline f name outer lines
        → IfOk result (λ o. Adds j (λ n b. modules.routine_of f name outer n lines b) (fault_of o)
        (routines_in checked.old) (routines_in checked.new)) }
    ensures fault { checked.new.fault ≡ checked.old.fault }
    ensures next { checked.new.next ≡ checked.old.next }
{
    match body {
        Err(Stop::Memory) => Err(NoMemory),
        Err(Stop::Fault(fault, node)) => Ok(Some(BrokenRule { node, fault })),
        Ok(None) => {
            checked.is_bad = true;
            Ok(None)
        }
        Ok(Some(body)) => {
            checked.routines.push(with_body(outline, slots, body))?;
            Ok(None)
        }
    }
}

/// Adds the routine of a frame, and gives the first rule that is broken in its body.
pub fn check_own(
    alloc: Global,
    reader: &Reader,
    checked: &mut Checked,
    lines: &Lines,
    frame: &mut Frame,
    site: Site,
    body: &Option<Stmts>,
) -> Result<Option<BrokenRule>, NoMemory>
    requires { lines.now ≡ reader.now.source }
    ensures added { IfOk result (λ o. Adds (modules.judge_body (frame_in reader.now frame.old)
        (view.body_of body.now)) (λ n b. modules.routine_of (frame_in reader.now frame.old)
        (view.view_name site.entry.name.now) site.entry.outer n
        (modules.body_lines reader.now site.entry.end
        (view.body_of body.now)) b) (fault_of o) (routines_in checked.old)
        (routines_in checked.new)) }
    ensures fault { OnOk result (checked.new.fault ≡ checked.old.fault) }
    ensures next { OnOk result (checked.new.next ≡ checked.old.next) }
    ensures variables { OnOk result (frame.new.variables ≡ frame.old.variables) }
{
    let outline = read_outline(alloc, reader, lines, frame, site, body)?;
    let mut slot = frame.slots;
    let judged = judge_body(alloc, reader, &mut slot, body);
    add_routine(checked, outline, slot, judged)
}
