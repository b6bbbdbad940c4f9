// Whether modules are too large together.
ghost use Rattle.std.specs.Prelude.{◌≡◌, ◌≤◌, ◌+◌, length, map, sum_by, option_map};
ghost use Rattle.alma_ir.specs.Checked.{link_slots, text_bytes};
ghost use Rattle.alma_ir.specs.Count.{saturate};
ghost use Rattle.alma_ir.specs.Phrases.{stmts_phrases};
ghost use Rattle.alma_ir.specs.Tree.{routine_at};
ghost use Rattle.alma_ir.specs.View.{program_of, routine_of, global_of};
ghost use Rattle.alma_join.specs.Joined as joined;
ghost use Rattle.alma_join.specs.Totals.{AreTotals};

use alma_base::{CELL_LIMIT, POOL_LIMIT, RECORD_LIMIT, ROUTINE_SLOT_LIMIT};
use alma_ir::{Global, Program, Routine, text_bytes_inside};

/// Six quantities that a program bounds, each stopped at 2^64-1.
#[derive(Clone, Copy)]
pub struct Totals {
    pub declared: u64,
    pub slots: u64,
    pub globals: u64,
    pub params: u64,
    pub names: u64,
    pub texts: u64,
}

// The parameters of a routine, with one more for its link.
fn params_of(routine: &Routine) -> u64
    ensures { result ≡ saturate (length routine.now.params.items + link_slots routine.now.level) }
{
    let params = routine.params.len() as u64;
    if routine.level < 2 {
        return params;
    }
    params.saturating_add(1)
}

// The parameters of routines, with one more for each link.
fn count_params(routines: &[Routine]) -> u64
    ensures { result ≡ saturate (sum_by (λ r. length r.params + link_slots r.level)
        (map routine_of routines.now)) }
{
    let mut total: u64 = 0;
    for routine in routines {
        total = total.saturating_add(params_of(routine));
    }
    total
}

// The bytes of the names of routines.
fn count_names(routines: &[Routine]) -> u64
    ensures { result ≡ saturate (sum_by (λ r. length r.name) (map routine_of routines.now)) }
{
    let mut total: u64 = 0;
    for routine in routines {
        total = total.saturating_add(routine.name.len() as u64);
    }
    total
}

// The bytes of the names of variables.
fn count_global_names(globals: &[Global]) -> u64
    ensures { result ≡ saturate (sum_by (λ g. length g.name) (map global_of globals.now)) }
{
    let mut total: u64 = 0;
    for global in globals {
        total = total.saturating_add(global.name.len() as u64);
    }
    total
}

// The bytes of the texts in routines.
fn count_texts(routines: &[Routine]) -> u64
    ensures { result ≡ saturate (sum_by (λ r. sum_by text_bytes (stmts_phrases r.body))
        (map routine_of routines.now)) }
{
    let mut total: u64 = 0;
    for routine in routines {
        total = total.saturating_add(text_bytes_inside(&routine.body));
    }
    total
}

// The cells that the body of a module declares, and its slots.
fn body_size(program: &Program) -> (u64, u64)
    ensures declared { result.0 ≡ (routine_at (program_of program.now) 0).declared }
    ensures slots { result.1 ≡ (routine_at (program_of program.now) 0).slots }
{
    match program.routines.first() {
        Some(body) => (u64::from(body.declared), u64::from(body.slots)),
        None => (0, 0),
    }
}

// The sums with those of a module, as it stands.
fn with_unit(totals: Totals, program: &Program) -> Totals
    ensures { (all : joined.Totals) → AreTotals totals all
        → AreTotals result (joined.with_unit all (program_of program.now)) }
{
    let (declared, slots) = body_size(program);
    let names = count_names(&program.routines).saturating_add(count_global_names(&program.globals));
    Totals {
        declared: totals.declared.saturating_add(declared),
        slots: totals.slots.saturating_add(slots),
        globals: totals.globals.saturating_add(program.globals.len() as u64),
        params: totals
            .params
            .saturating_add(count_params(&program.routines)),
        names: totals.names.saturating_add(names),
        texts: totals.texts.saturating_add(count_texts(&program.routines)),
    }
}

// Whether one of them passes its bound.
fn passes(totals: Totals) -> bool
    ensures { (all : joined.Totals) → AreTotals totals all → result ≡ joined.passes all }
{
    totals.declared > CELL_LIMIT as u64
        || totals.slots > ROUTINE_SLOT_LIMIT
        || totals.globals > RECORD_LIMIT as u64
        || totals.params > RECORD_LIMIT as u64
        || totals.names > POOL_LIMIT as u64
        || totals.texts > POOL_LIMIT as u64
}

/// The first module with which a bound is passed, where one is.
pub fn first_too_large(units: &[Program]) -> Option<u32>
    requires few { length units.now ≤ joined.greatest_units }
    ensures { joined.size_fault joined.no_totals 1 (map program_of units.now)
        ≡ option_map joined.TooLarge result }
{
    let mut totals = Totals {
        declared: 0,
        slots: 0,
        globals: 0,
        params: 0,
        names: 0,
        texts: 0,
    };
    for (i, program) in units.iter().enumerate() {
        totals = with_unit(totals, program);
        if passes(totals) {
            return Some(i as u32 + 1);
        }
    }
    None
}
