// The whole check.
ghost use Rattle.std.specs.Prelude.{◌≡◌, ◌≤◌, ℕ, List, [], length, map, false, None, IfOk};
ghost use Rattle.alma_base.specs.Limits.{source_limit};
ghost use Rattle.alma_scan.specs.Tokens.{Lexeme};
ghost use Rattle.alma_scan.specs.Scanned.{lexemes};
ghost use Rattle.alma_ir.specs.View.{program_of, global_of};
ghost use Rattle.alma_ir.specs.Checked.{IsChecked};
ghost use Rattle.alma_rules.specs.View.{view_module, view_block};
ghost use Rattle.alma_rules.specs.Scene.{nothing};
ghost use Rattle.alma_rules.specs.Decls.{with_block};
ghost use Rattle.alma_rules.specs.Answers.{Resolves};
ghost use Rattle.alma_rules.specs.Modules as modules;
ghost use Rattle.alma_rules.specs.Rising.{IsRising};
ghost use Rattle.alma_resolved.specs.Whole.{IsTreeOf};
ghost use Rattle.alma_check_type.specs.Told.{fault_of};
ghost use Rattle.alma_check_stmt.specs.Inner.Shown.{routines_in};
ghost use Rattle.alma_check_stmt.specs.Whole.{IsJudged};

use crate::body::Site;
use crate::checked::{Checked, nothing_checked};
use crate::line::Lines;
use crate::routine::{check_block, check_end};
use alma_base::NoMemory;
use alma_check_block::{count_routines, new_frame, open_block};
use alma_check_marks::first_token_of;
use alma_check_type::{BrokenRule, Reader};
use alma_ir::Program;
use alma_resolved::conditions::trees_of_the_parser_stand_so;
use alma_resolved::laws::unbroken_trees_have_a_program;
use alma_resolved::limits::a_resolved_program_of_a_short_source_is_checked;
use alma_rules::CheckError;
use alma_scan::Token;
use alma_tree::Module;
use std::alloc::Global;

// What is found of a module: its name, its variables, and how it is checked.
#[derive(Drop)]
struct Whole {
    name: Vec<u8>,
    globals: Vec<alma_ir::Global>,
    checked: Checked,
}

// The outermost reader, with room for the headings of all routines.
fn outermost<'e, 's>(
    alloc: Global,
    module: &Module,
    tokens: &'e [Token<'s>],
    source: &'e [u8],
) -> Result<Reader<'e, 's>, NoMemory>
    ensures { IfOk result (λ reader. reader ≡ modules.first_scene source.now
        (lexemes tokens.now) (view_module module.now)) }
{
    let Some(inside) = count_routines(&module.block) else {
        return Err(NoMemory);
    };
    let Some(all) = inside.checked_add(1) else {
        return Err(NoMemory);
    };
    Reader::new(alloc, source, tokens, all)
}

// The reader where the block of a module begins.
fn open_module<'e, 's>(
    alloc: Global,
    module: &Module,
    tokens: &'e [Token<'s>],
    source: &'e [u8],
) -> Result<Reader<'e, 's>, NoMemory>
    ensures { IfOk result (λ reader. reader ≡ with_block (modules.first_scene source.now
        (lexemes tokens.now) (view_module module.now)) 0 nothing []
        (view_block module.now.block)) }
{
    let mut reader = outermost(alloc, module, tokens, source)?;
    open_block(alloc, &mut reader, 0, &None, &module.block)?;
    Ok(reader)
}

// What was found of a module of this name.
fn whole_of(
    alloc: Global,
    name: &[u8],
    globals: Vec<alma_ir::Global>,
    checked: Checked,
) -> Result<Whole, NoMemory>
    ensures name { IfOk result (λ w. w.name.items ≡ name.now) }
    ensures globals { IfOk result (λ w. w.globals ≡ globals) }
    ensures checked { IfOk result (λ w. w.checked ≡ checked) }
{
    Ok(Whole {
        name: name.to_vec(alloc)?,
        globals,
        checked,
    })
}

// Judges a module.
fn judge_whole(
    alloc: Global,
    module: &Module,
    tokens: &[Token<'_>],
    source: &[u8],
) -> Result<Whole, NoMemory>
    requires rising { IsRising (view_module module.now) }
    requires short { length source.now ≤ source_limit }
    ensures { IfOk result (λ w. IsJudged source.now (lexemes tokens.now) (view_module module.now)
        (fault_of w.checked.fault) (routines_in w.checked) w.name.items
        (map global_of w.globals.items)) }
{
    let lines = Lines::new(alloc, source)?;
    let mut reader = open_module(alloc, module, tokens, source)?;
    let mut frame = new_frame(alloc, 1);
    let mut checked = nothing_checked(alloc);
    let site = Site {
        name: &module.name,
        outer: 0,
        end: module.end_name.token.saturating_sub(1),
    };
    check_block(
        alloc,
        &mut reader,
        &mut checked,
        &lines,
        &mut frame,
        site,
        &module.block,
    )?;
    check_end(&reader, &mut checked, &module.name, &module.end_name);
    let name = reader.env().text(module.name.token);
    whole_of(alloc, name, frame.variables, checked)
}

// The least of the broken rules, with the first token of its node.
fn broken_rule(alloc: Global, module: &Module, broken: BrokenRule) -> CheckError
    ensures { (source : List ℕ) (tokens : List Lexeme)
        → modules.check_fault source tokens (view_module module.now) ≡ fault_of (Some broken)
        → Resolves source tokens (view_module module.now) program_of (Err result) }
{
    match first_token_of(alloc, module, broken.node) {
        Ok(token) => CheckError::Fault(broken.fault, broken.node, token as usize),
        Err(NoMemory) => CheckError::Memory,
    }
}

// The resolved program, or the least of the broken rules. Where no rule is broken no routine is
// Bad.
fn finish(alloc: Global, module: &Module, whole: Whole) -> Result<Program, CheckError>
    requires fine { whole.checked.fault ≡ None → whole.checked.is_bad ≡ false }
    ensures { (source : List ℕ) (tokens : List Lexeme) → IsJudged source tokens
        (view_module module.now) (fault_of whole.checked.fault) (routines_in whole.checked)
        whole.name.items (map global_of whole.globals.items)
        → Resolves source tokens (view_module module.now) program_of result }
{
    if let Some(broken) = whole.checked.fault {
        return Err(broken_rule(alloc, module, broken));
    }
    Ok(Program {
        name: whole.name,
        globals: whole.globals,
        routines: whole.checked.routines,
    })
}

/// Checks the tree of a source: gives the resolved program where no rule is broken, and else the
/// least of the broken rules with the first token of its node.
pub fn check(
    alloc: Global,
    module: &Module,
    tokens: &[Token<'_>],
    source: &[u8],
) -> Result<Program, CheckError>
    requires tree { IsTreeOf source.now (lexemes tokens.now) module.now }
    requires short { length source.now ≤ source_limit }
    ensures resolves { Resolves source.now (lexemes tokens.now) (view_module module.now) program_of
        result }
    ensures checked { IfOk result (λ p. IsChecked (program_of p)) }
{
    a_resolved_program_of_a_short_source_is_checked();
    trees_of_the_parser_stand_so();
    unbroken_trees_have_a_program();
    match judge_whole(alloc, module, tokens, source) {
        Err(NoMemory) => Err(CheckError::Memory),
        Ok(whole) => finish(alloc, module, whole),
    }
}
