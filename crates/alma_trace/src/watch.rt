// Watched places and their values.
ghost use Rattle.std.specs.Prelude.{◌≡◌, ◌+◌, ◌^◌, ◌<◌, ◌≤◌, ◌∷◌, ◌++◌, length, flat_map, decimal, All, OnOk, MatchOption};
ghost use Rattle.alma_code.specs.ListText.{text_line};
ghost use Rattle.alma_code.specs.TraceText.{cell_text, cells_text};
ghost use Rattle.alma_trace.specs.Places.{value_at, watch_word, watch_words, comma, main_slots, IsWithin};

use alma_base::NoMemory;
use alma_code::Cell;
use alma_code_list::{push_number, push_word};
use alma_memory::{MachineMemory, Memory};
use itoa::Buffer;

/// A watched name, and the slot and the number of cells of the global that it names.
#[derive(Clone, Copy)]
pub struct Watch<'w> {
    pub name: &'w [u8],
    pub at: Option<(u32, u32)>,
}

// Appends what is shown of a cell.
fn push_cell(line: &mut Vec<u8>, cell: Cell) -> Result<(), NoMemory>
    ensures { OnOk result (line.new.items ≡ line.old.items ++ cell_text cell) }
{
    match cell {
        Cell::Int(number) => {
            let mut digits = Buffer::new();
            push_word(line, digits.format(number).as_bytes())
        }
        Cell::Unknown | Cell::Unset | Cell::Place(_) | Cell::Mark(_) => push_word(line, b"?"),
    }
}

// Appends the comma before a cell that is not the first.
#[tactic(auto, using(crate::proofs::Lines::comma_none, crate::proofs::Lines::comma_some))]
fn push_comma(line: &mut Vec<u8>, index: u32) -> Result<(), NoMemory>
    ensures { OnOk result (line.new.items ≡ line.old.items ++ comma index) }
{
    if index > 0 {
        line.push(b',')?;
    }
    Ok(())
}

// Appends the cells of a place of frame 0.
fn push_cells<M: MachineMemory>(
    line: &mut Vec<u8>,
    memory: &M,
    slot: u32,
    cells: u32,
) -> Result<(), NoMemory>
    requires live { 0 < length (M.picture memory.now).now }
    requires within { 0 < cells → slot + cells ≤ main_slots (M.picture memory.now).now }
    requires few { main_slots (M.picture memory.now).now < 2 ^ 32 }
    ensures { OnOk result
        (line.new.items ≡ line.old.items ++ cells_text (M.picture memory.now).now slot cells) }
{
    for k in 0..cells {
        push_comma(line, k)?;
        push_cell(line, memory.read(0, slot + k))?;
    }
    Ok(())
}

/// Appends the value of a watched place.
pub fn push_value<M: MachineMemory>(
    line: &mut Vec<u8>,
    memory: &M,
    at: Option<(u32, u32)>,
) -> Result<(), NoMemory>
    requires live { 0 < length (M.picture memory.now).now }
    requires within { MatchOption at (Unit {0})
        (λ place. 0 < place.1 → place.0 + place.1 ≤ main_slots (M.picture memory.now).now) }
    requires few { main_slots (M.picture memory.now).now < 2 ^ 32 }
    ensures { OnOk result (line.new.items ≡ line.old.items
        ++ value_at (M.picture memory.now).now at) }
{
    match at {
        Some((slot, cells)) => push_cells(line, memory, slot, cells),
        None => push_word(line, b"-"),
    }
}

// Appends a watched name with its value, behind a space.
fn push_watch(line: &mut Vec<u8>, memory: &Memory, watch: &Watch<'_>) -> Result<(), NoMemory>
    requires live { 0 < length memory.now.now }
    requires within { IsWithin (main_slots memory.now.now) watch.now }
    requires few { main_slots memory.now.now < 2 ^ 32 }
    ensures { OnOk result
        (line.new.items ≡ line.old.items ++ 32 ∷ watch_word memory.now.now watch.now) }
{
    line.push(b' ')?;
    push_word(line, watch.name)?;
    line.push(b'=')?;
    push_value(line, memory, watch.at)
}

// Appends each watched name with its value, behind a space.
fn push_watches(line: &mut Vec<u8>, memory: &Memory, watches: &[Watch<'_>]) -> Result<(), NoMemory>
    requires live { 0 < length memory.now.now }
    requires within { All (IsWithin (main_slots memory.now.now)) watches.now }
    requires few { main_slots memory.now.now < 2 ^ 32 }
    ensures { OnOk result (line.new.items ≡ line.old.items
        ++ flat_map (λ watch. 32 ∷ watch_word memory.now.now watch) watches.now) }
{
    for watch in watches {
        push_watch(line, memory, watch)?;
    }
    Ok(())
}

/// A line of a word, a height and the watched values.
#[tactic(auto, using(crate::proofs::Lines::watched_line))]
pub fn put_watched(
    line: &mut Vec<u8>,
    word: &[u8],
    height: usize,
    memory: &Memory,
    watches: &[Watch<'_>],
) -> Result<(), NoMemory>
    requires live { 0 < length memory.now.now }
    requires within { All (IsWithin (main_slots memory.now.now)) watches.now }
    requires few { main_slots memory.now.now < 2 ^ 32 }
    ensures { OnOk result (line.new.items
        ≡ text_line (word.now ∷ decimal height ∷ watch_words memory.now.now watches.now)) }
{
    line.clear();
    push_word(line, word)?;
    push_number(line, height as u64)?;
    push_watches(line, memory, watches)?;
    line.push(b'\n')?;
    Ok(())
}
