// The stack of choice entries, beside the store of their copies.
ghost use Rattle.std.specs.Prelude.{◌≡◌, ◌≢◌, true, false, ◌+◌, ◌-◌, ◌<◌, ◌≤◌, [], ◌∷◌, ◌++◌, min, length, take, set, is_ok, IsOk, OnOk, slice_index_or, if◌then◌else◌, vec_len, vec_capacity};
ghost use Rattle.alma_code.specs.Picture.{stack_after_pop, top_of};
ghost use Rattle.alma_code.specs.Carries.{frames_with_change, frames_with_carry, held_after_keep};
ghost use Rattle.alma_memory_store.specs.Carries.{IsRising, carry_of_entries, change_of};
ghost use Rattle.alma_memory.specs.Inner.Gain.{no_stack_entry, entry_with_changes};
ghost use Rattle.alma_memory.specs.Inner.Stack.{stack_of};

use crate::late_carry::LateCarry;
use alma_base::NoMemory;
use alma_code::{Cell, ChoiceKind};
use alma_memory_store::{Carry, SlotPlace, Store};
use std::alloc::Global;

/// A choice entry, whose copy stands in the store.
#[derive(Drop)]
pub struct Entry {
    pub kind: ChoiceKind,
    pub resume: u32,
    pub carry: LateCarry,
}

/// Pushes an entry with an empty carry, and makes its copy.
pub fn push_entry(
    entries: &mut Vec<Entry>,
    store: &mut Store,
    kind: ChoiceKind,
    resume: u32,
) -> Result<(), NoMemory>
    requires { length entries.old.items ≡ length store.old.held }
    ensures now { store.new.now ≡ store.old.now }
    ensures held { stack_of entries.new.items store.new.held ≡ (if is_ok result
        then stack_of entries.old.items store.old.held ++ (record {
          kind = kind;
          resume = resume;
          frames = store.old.now;
          carry = [];
        }) ∷ []
        else stack_of entries.old.items store.old.held) }
    ensures same { length entries.new.items ≡ length store.new.held }
    ensures succeeds { vec_len entries.old + 1 ≤ vec_capacity entries.old
        → 1 ≤ store.old.choice_room → IsOk result }
    ensures room { min (vec_capacity entries.old - vec_len entries.old) store.old.choice_room
        ≤ min (vec_capacity entries.new - vec_len entries.new) store.new.choice_room
        + (if is_ok result then 1 else 0) }
    ensures trail_room { store.old.trail_room ≤ store.new.trail_room }
{
    entries.reserve(1)?;
    store.choose()?;
    entries.push_reserved(Entry {
        kind,
        resume,
        carry: LateCarry::new(),
    });
    Ok(())
}

/// Drops the entries above a height, and their copies.
pub fn cut_to(entries: &mut Vec<Entry>, store: &mut Store, height: usize)
    requires { length entries.old.items ≡ length store.old.held }
    ensures now { store.new.now ≡ store.old.now }
    ensures held { stack_of entries.new.items store.new.held
        ≡ take height (stack_of entries.old.items store.old.held) }
    ensures same { length entries.new.items ≡ length store.new.held }
    ensures capacity { vec_capacity entries.new ≡ vec_capacity entries.old }
    ensures len { vec_len entries.new ≤ vec_len entries.old }
    ensures choice_room { store.old.choice_room ≤ store.new.choice_room }
    ensures trail_room { store.old.trail_room ≤ store.new.trail_room }
{
    entries.truncate(height);
    store.cut(height);
}

// The kind of the top entry.
fn top_kind(entries: &[Entry]) -> ChoiceKind
    requires { 1 ≤ length entries.now }
    ensures { result ≡ (slice_index_or entries.now (length entries.now - 1) no_stack_entry).kind }
{
    entries[entries.len() - 1].kind
}

// Whether a kind is that of a Forall.
fn is_forall(kind: ChoiceKind) -> bool
    ensures yes { result ≡ true → kind ≡ ChoiceKind.Forall }
    ensures not { result ≡ false → kind ≢ ChoiceKind.Forall }
{
    matches!(kind, ChoiceKind::Forall)
}

// Makes the top entry a Done.
fn finish_top(entries: &mut Vec<Entry>)
    requires { 1 ≤ length entries.old.items }
    ensures items { entries.new.items ≡ set entries.old.items (length entries.old.items - 1)
        (record (slice_index_or entries.old.items (length entries.old.items - 1) no_stack_entry) {
          kind = ChoiceKind.Done;
        }) }
    ensures capacity { vec_capacity entries.new ≡ vec_capacity entries.old }
    ensures len { vec_len entries.new ≡ vec_len entries.old }
{
    let top = entries.len() - 1;
    let entry = &mut entries[top];
    entry.kind = ChoiceKind::Done;
}

/// Goes back to the top copy, and leaves of the top entry what a pop leaves.
pub fn pop_entry(entries: &mut Vec<Entry>, store: &mut Store)
    requires same { length entries.old.items ≡ length store.old.held }
    requires some { 1 ≤ length entries.old.items }
    ensures now { store.new.now ≡ (top_of (stack_of entries.old.items store.old.held)).frames }
    ensures held { stack_of entries.new.items store.new.held
        ≡ stack_after_pop (stack_of entries.old.items store.old.held) }
    ensures same { length entries.new.items ≡ length store.new.held }
    ensures capacity { vec_capacity entries.new ≡ vec_capacity entries.old }
    ensures len { vec_len entries.new ≤ vec_len entries.old }
    ensures choice_room { store.old.choice_room ≤ store.new.choice_room }
    ensures trail_room { store.old.trail_room ≤ store.new.trail_room }
{
    store.back();
    if is_forall(top_kind(entries.as_slice())) {
        finish_top(entries);
        return;
    }
    let top = entries.len() - 1;
    cut_to(entries, store, top);
}

// Lays one cell over the frames, where its place is a live number slot.
fn lay_one(store: &mut Store, place: SlotPlace, cell: Cell)
    requires { 1 ≤ store.old.trail_room }
    ensures now { store.new.now ≡ frames_with_change store.old.now (change_of place cell) }
    ensures held { store.new.held ≡ store.old.held }
    ensures choice_room { store.old.choice_room ≤ store.new.choice_room }
    ensures trail_room { store.old.trail_room ≤ store.new.trail_room + 1 }
{
    if store.has_number(place) {
        match store.write(place.frame as usize, place.slot as usize, cell) {
            Ok(()) => (),
            Err(_) => unreachable!(),
        }
    }
}

// Lays cells over the frames.
fn lay_cells(store: &mut Store, carry: &Carry)
    requires { length carry.now ≤ store.old.trail_room }
    ensures now { store.new.now ≡ frames_with_carry store.old.now carry.now }
    ensures held { store.new.held ≡ store.old.held }
    ensures choice_room { store.old.choice_room ≤ store.new.choice_room }
    ensures trail_room { store.old.trail_room ≤ store.new.trail_room + length carry.now }
{
    for (place, cell) in &carry.cells {
        lay_one(store, *place, *cell);
    }
}

/// Lays a carry over the frames.
pub fn lay(store: &mut Store, carry: &LateCarry)
    requires { length carry.now ≤ store.old.trail_room }
    ensures now { store.new.now ≡ frames_with_carry store.old.now carry.now }
    ensures held { store.new.held ≡ store.old.held }
    ensures choice_room { store.old.choice_room ≤ store.new.choice_room }
    ensures trail_room { store.old.trail_room ≤ store.new.trail_room + length carry.now }
{
    if let Some(made) = carry.get() {
        lay_cells(store, made);
    }
}

/// Drops the top entry, and lays its carry over the frames.
pub fn lay_top(entries: &mut Vec<Entry>, store: &mut Store)
    requires same { length entries.old.items ≡ length store.old.held }
    requires some { 1 ≤ length entries.old.items }
    requires room { length (top_of (stack_of entries.old.items store.old.held)).carry
        ≤ store.old.trail_room }
    ensures now { store.new.now ≡ frames_with_carry store.old.now
        (top_of (stack_of entries.old.items store.old.held)).carry }
    ensures held { stack_of entries.new.items store.new.held ≡ take
        (length (stack_of entries.old.items store.old.held) - 1)
        (stack_of entries.old.items store.old.held) }
    ensures same { length entries.new.items ≡ length store.new.held }
    ensures capacity { vec_capacity entries.new ≡ vec_capacity entries.old }
    ensures len { vec_len entries.new ≤ vec_len entries.old }
    ensures choice_room { store.old.choice_room ≤ store.new.choice_room }
    ensures trail_room { store.old.trail_room ≤ store.new.trail_room
        + length (top_of (stack_of entries.old.items store.old.held)).carry }
{
    let Some(entry) = entries.pop() else {
        unreachable!()
    };
    store.cut(entries.len());
    lay(store, &entry.carry);
}

// Sets the cells in the carry of an entry, or none of them.
fn gain(
    alloc: Global,
    entries: &mut Vec<Entry>,
    at: usize,
    changes: &[(SlotPlace, Cell)],
) -> Result<(), NoMemory>
    requires { at < length entries.old.items }
    ensures items { entries.new.items ≡ (if is_ok result then set entries.old.items at
        (entry_with_changes (slice_index_or entries.old.items at no_stack_entry)
        (carry_of_entries changes.now))
        else entries.old.items) }
    ensures rising { OnOk result
        (IsRising (slice_index_or entries.old.items at no_stack_entry).carry) }
    ensures len { vec_len entries.new ≡ vec_len entries.old }
    ensures capacity { vec_capacity entries.new ≡ vec_capacity entries.old }
{
    let entry = &mut entries[at];
    entry.carry.set_all(alloc, changes)
}

/// Drops the top entry; what differs from its copy enters the carry of the entry at the height.
pub fn keep_top(
    alloc: Global,
    entries: &mut Vec<Entry>,
    store: &mut Store,
    height: usize,
) -> Result<(), NoMemory>
    requires same { length entries.old.items ≡ length store.old.held }
    requires low { 1 ≤ height }
    requires below { height < length entries.old.items }
    ensures now { store.new.now ≡ store.old.now }
    ensures held { stack_of entries.new.items store.new.held ≡ (if is_ok result
        then held_after_keep (stack_of entries.old.items store.old.held) height store.old.now
        else stack_of entries.old.items store.old.held) }
    ensures same { length entries.new.items ≡ length store.new.held }
    ensures capacity { vec_capacity entries.new ≡ vec_capacity entries.old }
    ensures len { vec_len entries.new ≤ vec_len entries.old }
    ensures choice_room { store.old.choice_room ≤ store.new.choice_room }
    ensures trail_room { store.old.trail_room ≤ store.new.trail_room }
{
    let found = store.changes(alloc)?;
    gain(alloc, entries, height - 1, found.as_slice())?;
    let top = entries.len() - 1;
    cut_to(entries, store, top);
    Ok(())
}
