// The program that lists.
ghost use Rattle.std.specs.Prelude.{◌≡◌, ◌<◌, Err, IfOk, length, map, [], ◌∷◌};
ghost use Rattle.alma_ir.specs.Tree.{routine_at};
ghost use Rattle.alma_ir.specs.View.{program_of, routine_of, global_of};
ghost use Rattle.alma_ir.specs.Checked.{IsChecked, HaveNoReturn};
ghost use Rattle.alma_resolved.specs.Room.{HasRoom};
ghost use Rattle.alma_lower_sound.specs.Reads.{program_reads};
ghost use Rattle.alma_listing.specs.Lister as spec;
ghost use Rattle.alma_listing.specs.Lister.{listing_of};
ghost use Rattle.alma_listing.specs.Listing.{Lists, CostsFew};

use crate::procedure::list_procedure;
use crate::returns::has_return;
use alma_base::NoMemory;
use alma_copy::{Moves, copy_global, copy_routine};
use alma_ir::{Call, Expr, Global as Variable, Program, Routine, Stmt, Test};
use std::alloc::Global;

/// Why there is no program that lists another.
#[derive(Clone, Copy, Debug, PartialEq, Eq)]
pub enum ListingError {
    /// A RETURN stands in the body of the module.
    ModuleReturn,
    /// Memory ran out.
    Memory,
}

impl From<NoMemory> for ListingError {
    ghost use Rattle.alma_listing.specs.declared.program.ListingError.{ListingError};

    ghost from_gives = { λ _ error. error ≡ ListingError.Memory };

    fn from(_: NoMemory) -> Self {
        ListingError::Memory
    }
}

/// The program that lists another: behind the statements of the module it calls a procedure more,
/// which writes the line of the store, and then fails, so that the next alternative is asked for.
pub fn listing_program(alloc: Global, program: &Program) -> Result<Program, ListingError>
    requires checked { IsChecked (program_of program.now) }
    requires room { HasRoom (program_of program.now) }
    ensures program { IfOk result (λ q. program_of q ≡ listing_of (program_of program.now)) }
    ensures checked { IfOk result (λ q. IsChecked (program_of q)) }
    ensures lists { IfOk result (λ q. Lists (program_of q) (program_of program.now)) }
    ensures cost { IfOk result (λ q. CostsFew (program_of q) (program_of program.now)) }
    ensures reads { IfOk result (λ q. program_reads (program_of q)
        ≡ program_reads (program_of program.now)) }
    ensures taken { IfOk result (λ q. HaveNoReturn (routine_at (program_of program.now) 0).body) }
    ensures refused { result ≡ Err ListingError.ModuleReturn
        → HaveNoReturn (routine_at (program_of program.now) 0).body → ⊥ }
{
    if has_return(&program.routines[0].body) {
        return Err(ListingError::ModuleReturn);
    }
    Ok(copy_program(alloc, program)?)
}

// Every slot and routine keeps its number.
fn same_numbers() -> Moves<'static>
    ensures own { result.own ≡ 0 }
    ensures global { result.global ≡ 0 }
    ensures routines { result.routines.now ≡ [] }
{
    Moves {
        own: 0,
        global: 0,
        routines: &[],
    }
}

// The program that lists another in whose body no RETURN stands.
fn copy_program(alloc: Global, program: &Program) -> Result<Program, NoMemory>
    requires body { 0 < length program.now.routines.items }
    requires few { length program.now.routines.items < 4294967295 }
    ensures { IfOk result (λ q. program_of q ≡ listing_of (program_of program.now)) }
{
    let routines = &program.routines;
    Ok(Program {
        name: program.name.to_vec(alloc)?,
        globals: copy_globals(alloc, &program.globals)?,
        routines: copy_routines(alloc, &routines[0], &routines[1..], &program.globals)?,
    })
}

// The routines, the procedure last: its number is theirs.
fn copy_routines(
    alloc: Global,
    body: &Routine,
    rest: &[Routine],
    globals: &[Variable],
) -> Result<Vec<Routine>, NoMemory>
    requires few { length rest.now < 4294967295 }
    ensures { IfOk result (λ v. map routine_of v.items
        ≡ spec.listing_routines (routine_of body.now ∷ map routine_of rest.now)
        (map global_of globals.now)) }
{
    let number = rest.len() as u32 + 1;
    let mut copies = Vec::with_capacity(alloc, rest.len())?;
    copies.push(listing_body(alloc, body, number)?)?;
    for routine in rest {
        copies.push(copy_routine(alloc, routine, &same_numbers())?)?;
    }
    copies.push(list_procedure(alloc, globals, body.line)?)?;
    Ok(copies)
}

// The variables of the module, at their slots.
fn copy_globals(alloc: Global, globals: &[Variable]) -> Result<Vec<Variable>, NoMemory>
    ensures { IfOk result (λ v. map global_of v.items ≡ map global_of globals.now) }
{
    let mut copies = Vec::with_capacity(alloc, globals.len())?;
    for global in globals {
        copies.push(copy_global(alloc, global, &same_numbers())?)?;
    }
    Ok(copies)
}

// The body of the module, with the call and the test behind its statements.
fn listing_body(alloc: Global, body: &Routine, number: u32) -> Result<Routine, NoMemory>
    ensures { IfOk result (λ r. routine_of r ≡ spec.listing_body (routine_of body.now) number) }
{
    let mut copy = copy_routine(alloc, body, &same_numbers())?;
    copy.body.push(Stmt::Test(Test::Call(Call {
        routine: number,
        args: Vec::new(alloc),
        up: 0,
    })))?;
    copy.body.push(Stmt::Test(Test::Value(Expr::Const(0))))?;
    copy.lines.push(body.line)?;
    copy.lines.push(body.line)?;
    Ok(copy)
}
