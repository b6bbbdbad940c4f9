// The procedures of level 1 that stay, by name.
ghost use Rattle.std.specs.Prelude.{◌≡◌, ℕ, ◌+◌, ◌≤◌, List, [], ◌∷◌, ◌++◌, length, map, None, Some, Vec, IfOk, OnOk};
ghost use Rattle.std.specs.Global as heap;
ghost use Rattle.indexmap.specs.IndexMap.{get};
ghost use Rattle.alma_ir.specs.View.{program_of, routine_of};
ghost use Rattle.alma_join.specs.Joined.{Kept, kept_of, kept_in, matches, greatest_units};
ghost use Rattle.alma_join.specs.Directory.{entries_in, plain_export, alike, others, Holds, Enters, EntersOne, IsAnswer};

use crate::bare::mark_bare;
use alma_base::NoMemory;
use alma_ir::{Program, Routine};
use indexmap::IndexMap;
use std::alloc::Global;

/// A procedure of level 1 that stays: its unit, its new number and itself.
#[derive(Clone, Copy)]
pub struct Export<'p> {
    pub unit: u32,
    pub number: u32,
    pub routine: &'p Routine,
}

/// What an import may stand for.
#[derive(Clone, Copy)]
pub enum Matches<'p> {
    None,
    One(Export<'p>),
    Many,
}

/// The procedures of level 1 that stay, those with one name in their order; and the new number of
/// the next routine.
#[derive(Drop)]
pub struct Directory<'p> {
    pub entries: IndexMap<Vec<u8>, Vec<Export<'p>>>,
    pub next: u32,
}

// Puts an export behind those of its name.
fn add_entry<'p>(
    alloc: Global,
    entries: &mut IndexMap<Vec<u8>, Vec<Export<'p>>>,
    export: Export<'p>,
) -> Result<(), NoMemory>
    ensures own { OnOk result ((q : Vec ℕ heap.Global)
        → q.items ≡ export.entry.routine.now.name.items
        → entries_in (get alike entries.new q)
        ≡ entries_in (get alike entries.old q) ++ plain_export export.entry ∷ []) }
    ensures others { OnOk result ((q : Vec ℕ heap.Global)
        → (q.items ≡ export.entry.routine.now.name.items → ⊥)
        → entries_in (get alike entries.new q) ≡ entries_in (get alike entries.old q)) }
{
    let mut list = match entries.swap_remove(&export.routine.name) {
        Some(list) => list,
        None => Vec::new(alloc),
    };
    list.push(export)?;
    entries.insert(export.routine.name.to_vec(alloc)?, list)?;
    Ok(())
}

/// The number behind this one.
pub fn successor(number: u32) -> Result<u32, NoMemory>
    ensures { IfOk result (λ n. n ≡ number + 1) }
{
    number.checked_add(1).ok_or(NoMemory)
}

// Gives a routine that stays its number, and its name an entry where it is of level 1.
fn add_routine<'p>(
    alloc: Global,
    directory: &mut Directory<'p>,
    unit: u32,
    routine: &'p Routine,
) -> Result<(), NoMemory>
    ensures { OnOk result (EntersOne directory.old directory.new unit (routine_of routine.now)) }
{
    let number = directory.next;
    directory.next = successor(number)?;
    if routine.level == 1 {
        let export = Export {
            unit,
            number,
            routine,
        };
        add_entry(alloc, &mut directory.entries, export)?;
    }
    Ok(())
}

// The routines of a module that stay.
fn add_unit<'p>(
    alloc: Global,
    directory: &mut Directory<'p>,
    unit: u32,
    program: &'p Program,
) -> Result<(), NoMemory>
    ensures { OnOk result (Enters directory.old directory.new
        (kept_of unit (program_of program.now))) }
{
    let bare = mark_bare(alloc, program)?;
    for r in 1..program.routines.len() {
        if !bare[r] {
            add_routine(alloc, directory, unit, &program.routines[r])?;
        }
    }
    Ok(())
}

/// The directory of all modules.
pub fn directory_of<'p>(alloc: Global, units: &'p [Program]) -> Result<Directory<'p>, NoMemory>
    requires few { length units.now ≤ greatest_units }
    ensures { IfOk result (λ d. Holds d (kept_in 1 (map program_of units.now))) }
{
    let mut directory = Directory {
        entries: IndexMap::new(alloc),
        next: 1,
    };
    for (i, program) in units.iter().enumerate() {
        add_unit(alloc, &mut directory, i as u32 + 1, program)?;
    }
    Ok(directory)
}

// Matches, and one more.
fn with_match<'p>(matches: Matches<'p>, export: Export<'p>) -> Matches<'p>
    ensures { (all : List _) → IsAnswer matches.entry all → IsAnswer result
        (all ++ ((export.entry.number, routine_of export.entry.routine.now)) ∷ []) }
{
    match matches {
        Matches::None => Matches::One(export),
        Matches::One(_) | Matches::Many => Matches::Many,
    }
}

// Those of other units.
fn matches_among<'p>(exports: &[Export<'p>], unit: u32) -> Matches<'p>
    ensures { IsAnswer result (others unit (map plain_export exports.now)) }
{
    let mut matches = Matches::None;
    for export in exports {
        if export.unit != unit {
            matches = with_match(matches, *export);
        }
    }
    matches
}

/// What an import of a unit may stand for.
pub fn matches_of<'p>(directory: &Directory<'p>, unit: u32, routine: &Routine) -> Matches<'p>
    ensures { (all : List Kept) → Holds directory.now all → IsAnswer result
        (matches all 1 unit routine.now.name.items) }
{
    match directory.entries.get(&routine.name) {
        Some(exports) => matches_among(exports, unit),
        None => Matches::None,
    }
}
