// A list, its copies as marks, and the trail.
ghost use Rattle.std.specs.Prelude.{◌≡◌, ℕ, ◌+◌, ◌-◌, ◌<◌, ◌≤◌, [], ◌∷◌, ◌++◌, length, take, drop};
ghost use Rattle.std.specs.Prelude.{set, replicate, slice_get, slice_index_or, Some, true, false};
ghost use Rattle.std.specs.Prelude.{is_ok, IsOk, OnOk, OnErr, IfOk, if◌then◌else◌};
ghost use Rattle.std.specs.Prelude.{vec_len, vec_capacity};
ghost use Rattle.std.specs.BTreeMap.{get};
ghost use Rattle.std.specs.Ordering.{nat_cmp};
ghost use Rattle.alma_memory_rewind.specs.Limits.{item_limit, serial_limit};
ghost use Rattle.alma_memory_rewind.specs.PlainRewind.{IsOlds, needed, top_copy};
ghost use Rattle.alma_memory_rewind.specs.Trail.{before, first_of, is_free, last_mark};
ghost use Rattle.alma_memory_rewind.specs.Trail.{trail_for};
ghost use Rattle.alma_memory_rewind.specs.Sound.{AddsNoted, AreOld, AreStamps, IsSound, Keeps};
ghost use Rattle.alma_memory_rewind.specs.Sound.{Sweeps, SweepsOn};
ghost use Rattle.alma_memory_rewind.specs.Restart.{with_zero_stamps, with_serials, Renews};

use alma_base::NoMemory;
use std::alloc::Global;
use std::collections::BTreeMap;
use std::marker::Model;

// So many notes may stand in the trail before the first cut that looks at them.
const UNSWEPT_NOTES: usize = 256;

// The greatest number of items, so that a note has room for the place of each.
const ITEM_LIMIT: usize = 4_294_967_296;

// The greatest serial, and the greatest number of copies.
const SERIAL_LIMIT: usize = 4_294_967_295;

/// The place of a write, with the stamp and the item from before.
#[derive(Clone, Copy)]
pub struct Note<T> {
    pub at: u32,
    pub stamp: u32,
    pub old: T,
}

// What a note puts back, and where.
#[derive(Clone, Copy)]
struct Undo<T> {
    at: usize,
    stamp: u32,
    old: T,
}

/// A copy: the length of the trail when it was made, how many items it has, and its number among
/// the copies since serials began.
#[derive(Clone, Copy)]
pub struct Mark {
    pub mark: usize,
    pub top: usize,
    pub serial: u32,
}

/// A list that goes back.
#[derive(Drop)]
pub struct Rewind<T> {
    items: Vec<T>,
    // One for each item at least: where items go, their stamps stay.
    stamps: Vec<u32>,
    trail: Vec<Note<T>>,
    marks: Vec<Mark>,
    // The greatest serial since serials began.
    counter: u32,
    // So many notes may stand in the trail before a cut looks for those that no copy needs.
    limit: usize,
}

impl<T> Model for Rewind<T> {
    ghost use Rattle.std.specs.Prelude.{◌-◌, ◌≤◌, length, min};
    ghost use Rattle.std.specs.Vec.{vec_len, vec_capacity};
    ghost use Rattle.alma_memory_rewind.specs.Limits.{item_limit, serial_limit};
    ghost use Rattle.alma_memory_rewind.specs.PlainRewind.{PlainRewind, rewind_code};

    ghost Value = { PlainRewind T };

    ghost coded = { rewind_code T.code };

    ghost use Rattle.alma_memory_rewind.specs.Trail.{held_of, noted_to};
    ghost use Rattle.alma_memory_rewind.specs.Sound.{IsSound};

    ghost view = { λ r. record {
      now = r.items.items;
      held = held_of r.trail.items r.items.items r.marks.items;
      noted = noted_to r.marks.items (length r.items.items) r.stamps.items;
      choice_room = min (vec_capacity r.marks - vec_len r.marks) (serial_limit - vec_len r.marks);
      trail_room = vec_capacity r.trail - vec_len r.trail;
    } };

    ghost invariant = { λ r.
        IsSound r.marks.items r.trail.items r.items.items r.stamps.items r.counter
        × (length r.items.items ≤ item_limit) };
}

// The place of a note, as an index.
#[inline(always)]
fn place_of<T: Copy>(note: Note<T>) -> usize
    ensures { result ≡ note.at }
{
    note.at as usize
}

// Whether a write at a place with this stamp needs no note.
#[inline(always)]
fn needs_no_note(marks: &[Mark], at: usize, stamp: u32) -> bool
    ensures { result ≡ is_free marks.now at stamp }
{
    if marks.is_empty() {
        return true;
    }
    let last = marks[marks.len() - 1];
    last.top <= at || last.serial <= stamp
}

// How many items from the bottom the copies need.
fn top_of(marks: &[Mark]) -> usize
    ensures { result ≡ (last_mark marks.now).top }
{
    if marks.is_empty() {
        return 0;
    }
    marks[marks.len() - 1].top
}

// Room for one item more. A vector that is not full is not touched.
#[inline(always)]
fn room_for_one<T>(items: &mut Vec<T>) -> Result<(), NoMemory>
    ensures items { items.new.items ≡ items.old.items }
    ensures len { vec_len items.new ≡ vec_len items.old }
    ensures room { OnOk result (vec_len items.new < vec_capacity items.new) }
    ensures capacity { vec_capacity items.old ≤ vec_capacity items.new }
    ensures succeeds { vec_len items.old < vec_capacity items.old → IsOk result }
{
    if items.len() == items.capacity() {
        items.reserve(1)?;
    }
    Ok(())
}

// The serial of the top copy, or 0.
fn top_serial(marks: &[Mark]) -> u32
    ensures { result ≡ (last_mark marks.now).serial }
{
    if marks.is_empty() {
        return 0;
    }
    marks[marks.len() - 1].serial
}

// Room for a note, where one is needed.
#[inline(always)]
fn room_for_note<T>(free: bool, trail: &mut Vec<Note<T>>) -> Result<(), NoMemory>
    ensures trail { trail.new.items ≡ trail.old.items }
    ensures len { vec_len trail.new ≡ vec_len trail.old }
    ensures room { OnOk result (free ≡ false → vec_len trail.new < vec_capacity trail.new) }
    ensures free { free ≡ true → IsOk result × (vec_capacity trail.new ≡ vec_capacity trail.old) }
    ensures capacity { vec_capacity trail.old ≤ vec_capacity trail.new }
    ensures succeeds { vec_len trail.old < vec_capacity trail.old → IsOk result }
{
    if free {
        return Ok(());
    }
    room_for_one(trail)
}

// Notes what stood at a place, and stamps the place.
#[inline(always)]
fn add_note<T: Copy>(
    stamps: &mut Vec<u32>,
    trail: &mut Vec<Note<T>>,
    at: usize,
    old: T,
    serial: u32,
)
    requires wide { at < length stamps.old.items }
    requires few { at < item_limit }
    requires room { vec_len trail.old < vec_capacity trail.old }
    ensures stamps { stamps.new.items ≡ set stamps.old.items at serial }
    ensures trail { trail.new.items ≡ trail.old.items
        ++ (record { at = at; stamp = slice_index_or stamps.old.items at 0; old = old }) ∷ [] }
    ensures len { vec_len trail.new ≡ vec_len trail.old + 1 }
    ensures capacity { vec_capacity trail.new ≡ vec_capacity trail.old }
{
    let stamp = stamps[at];
    trail.push_reserved(Note {
        at: at as u32,
        stamp,
        old,
    });
    stamps[at] = serial;
}

// Notes what stands at a place, where a note is needed.
#[inline(always)]
fn note_old<T: Copy>(
    free: bool,
    marks: &[Mark],
    items: &[T],
    stamps: &mut Vec<u32>,
    trail: &mut Vec<Note<T>>,
    at: usize,
)
    requires inside { at < length items.now }
    requires few { length items.now ≤ item_limit }
    requires wide { at < length stamps.old.items }
    requires free { free ≡ is_free marks.now at (slice_index_or stamps.old.items at 0) }
    requires room { free ≡ false → vec_len trail.old < vec_capacity trail.old }
    ensures keeps { (counter : ℕ)
        → IsSound marks.now trail.old.items items.now stamps.old.items counter
        → Keeps marks.now trail.old.items trail.new.items items.now items.now stamps.new.items
        counter }
    ensures noted { AddsNoted marks.now (length items.now) stamps.old.items stamps.new.items at }
    ensures len { vec_len trail.new ≡ vec_len trail.old + (if free then 0 else 1) }
    ensures capacity { vec_capacity trail.new ≡ vec_capacity trail.old }
{
    if !free {
        let old = items[at];
        add_note(stamps, trail, at, old, top_serial(marks));
    }
}

// Sets a stamp, where there is one.
fn set_stamp(stamps: &mut Vec<u32>, at: usize, stamp: u32)
    ensures { stamps.new.items ≡ set stamps.old.items at stamp }
{
    if at < stamps.len() {
        stamps[at] = stamp;
    }
}

// Puts back what a note holds. Where its item went, the stamp alone is there.
#[inline(always)]
fn put_back<T: Copy>(items: &mut Vec<T>, stamps: &mut Vec<u32>, note: Undo<T>)
    requires { length items.old.items ≤ length stamps.old.items }
    ensures items { items.new.items ≡ set items.old.items note.at note.old }
    ensures stamps { stamps.new.items ≡ set stamps.old.items note.at note.stamp }
{
    if note.at < items.len() {
        items[note.at] = note.old;
        stamps[note.at] = note.stamp;
    } else {
        set_stamp(stamps, note.at, note.stamp);
    }
}

// Undoes the notes above a mark, the last one first.
fn unwind_to<T: Copy>(
    marks: &[Mark],
    items: &mut Vec<T>,
    stamps: &mut Vec<u32>,
    trail: &mut Vec<Note<T>>,
    mark: usize,
    counter: u32,
)
    requires stamped { AreStamps marks.now trail.old.items stamps.old.items }
    requires old { AreOld marks.now trail.old.items stamps.old.items counter }
    requires wide { length items.old.items ≤ length stamps.old.items }
    requires mark { mark ≤ length trail.old.items }
    ensures items { items.new.items ≡ before (drop mark trail.old.items) items.old.items }
    ensures trail { trail.new.items ≡ take mark trail.old.items }
    ensures stamped { AreStamps marks.now trail.new.items stamps.new.items }
    ensures old { AreOld marks.now trail.new.items stamps.new.items counter }
    ensures wide { length items.new.items ≤ length stamps.new.items }
    ensures capacity { vec_capacity trail.new ≡ vec_capacity trail.old }
{
    while trail.len() > mark {
        if let Some(note) = trail.pop() {
            let undo = Undo {
                at: place_of(note),
                stamp: note.stamp,
                old: note.old,
            };
            put_back(items, stamps, undo);
        }
    }
}

// For each place of a note above a mark, what the first of them holds.
fn olds_of<T: Copy>(
    alloc: Global,
    trail: &[Note<T>],
    mark: usize,
) -> Result<BTreeMap<usize, T>, NoMemory>
    requires { mark ≤ length trail.now }
    ensures { IfOk result (λ olds. (at : ℕ) → get nat_cmp olds at
        ≡ first_of (drop mark trail.now) at) }
{
    let mut olds = BTreeMap::new(alloc);
    let mut left = trail.len();
    while left > mark {
        left -= 1;
        let note = trail[left];
        let _ = olds.insert(place_of(note), note.old)?;
    }
    Ok(olds)
}

// Drops all notes where no copy is left that needs them.
fn settle<T: Copy>(marks: &[Mark], trail: &mut Vec<Note<T>>)
    ensures trail { trail.new.items ≡ trail_for marks.now trail.old.items }
    ensures capacity { vec_capacity trail.new ≡ vec_capacity trail.old }
    ensures len { vec_len trail.new ≤ vec_len trail.old }
{
    if marks.is_empty() {
        trail.clear();
    }
}

// Moves a note down, where a copy needs it, and answers where the next one goes.
fn move_note<T: Copy>(marks: &[Mark], trail: &mut Vec<Note<T>>, at: usize, to: usize) -> usize
    requires some { 1 ≤ length marks.now }
    requires from { (last_mark marks.now).mark ≤ to }
    requires low { to ≤ at }
    requires within { at < length trail.old.items }
    ensures keeps { SweepsOn marks.now (take to trail.old.items ++ drop at trail.old.items)
        (take result trail.new.items ++ drop (at + 1) trail.new.items) }
    ensures low { to ≤ result }
    ensures high { result ≤ at + 1 }
    ensures same { length trail.new.items ≡ length trail.old.items }
    ensures capacity { vec_capacity trail.new ≡ vec_capacity trail.old }
{
    let note = trail[at];
    if needs_no_note(marks, place_of(note), note.stamp) {
        return to;
    }
    trail[to] = note;
    to + 1
}

// Drops the notes from a place on that no copy needs. The place is not below the last mark.
fn sweep<T: Copy>(marks: &[Mark], trail: &mut Vec<Note<T>>, from: usize)
    requires some { 1 ≤ length marks.now }
    requires from { (last_mark marks.now).mark ≤ from }
    requires within { from ≤ length trail.old.items }
    ensures keeps { Sweeps marks.now trail.old.items trail.new.items }
    ensures capacity { vec_capacity trail.new ≡ vec_capacity trail.old }
    ensures len { vec_len trail.new ≤ vec_len trail.old }
{
    let mut to = from;
    for at in from..trail.len() {
        to = move_note(marks, trail, at, to);
    }
    trail.truncate(to);
}

// Drops the notes above the last mark that no copy needs.
fn sweep_top<T: Copy>(marks: &[Mark], trail: &mut Vec<Note<T>>)
    ensures keeps { Sweeps marks.now trail.old.items trail.new.items }
    ensures capacity { vec_capacity trail.new ≡ vec_capacity trail.old }
    ensures len { vec_len trail.new ≤ vec_len trail.old }
{
    if marks.is_empty() {
        return;
    }
    let from = marks[marks.len() - 1].mark;
    if from < trail.len() {
        sweep(marks, trail, from);
    }
}

// How many notes may stand before they are looked at again.
fn limit_for(len: usize) -> usize {
    UNSWEPT_NOTES.max(len.saturating_mul(2))
}

// Sweeps where more notes stand than the limit, and answers the next limit.
fn sweep_full<T: Copy>(marks: &[Mark], trail: &mut Vec<Note<T>>, limit: usize) -> usize
    ensures keeps { Sweeps marks.now trail.old.items trail.new.items }
    ensures capacity { vec_capacity trail.new ≡ vec_capacity trail.old }
    ensures len { vec_len trail.new ≤ vec_len trail.old }
{
    if trail.len() <= limit {
        return limit;
    }
    sweep_top(marks, trail);
    limit_for(trail.len())
}

// Makes stamps for so many items, where there are fewer.
#[inline(always)]
fn widen(stamps: &mut Vec<u32>, wide: usize) -> Result<(), NoMemory>
    ensures ok { OnOk result (stamps.new.items
        ≡ stamps.old.items ++ replicate (wide - length stamps.old.items) 0) }
    ensures err { OnErr result (stamps.new.items ≡ stamps.old.items) }
{
    if stamps.len() < wide {
        stamps.resize(wide, 0)?;
    }
    Ok(())
}

// Pushes items, for which there is room.
#[inline(always)]
fn push_all<T: Copy>(items: &mut Vec<T>, more: &[T])
    requires { vec_len items.old + length more.now ≤ vec_capacity items.old }
    ensures { items.new.items ≡ items.old.items ++ more.now }
{
    match items.extend_from_slice(more) {
        Ok(()) => (),
        Err(_) => unreachable!(),
    }
}

// Numbers the copies from the bottom.
fn number(marks: &mut Vec<Mark>)
    requires { length marks.old.items ≤ serial_limit }
    ensures marks { marks.new.items ≡ with_serials (length marks.old.items) 1 marks.old.items }
    ensures len { vec_len marks.new ≡ vec_len marks.old }
    ensures capacity { vec_capacity marks.new ≡ vec_capacity marks.old }
{
    for at in 0..marks.len() {
        let mark = marks[at];
        marks[at] = Mark {
            mark: mark.mark,
            top: mark.top,
            serial: at as u32 + 1,
        };
    }
}

// Sets the stamp of each note to 0.
fn clear_notes<T: Copy>(trail: &mut Vec<Note<T>>)
    ensures trail { trail.new.items ≡ with_zero_stamps (length trail.old.items) trail.old.items }
    ensures len { vec_len trail.new ≡ vec_len trail.old }
    ensures capacity { vec_capacity trail.new ≡ vec_capacity trail.old }
{
    for at in 0..trail.len() {
        let note = trail[at];
        trail[at] = Note {
            at: note.at,
            stamp: 0,
            old: note.old,
        };
    }
}

// Sets each stamp to 0.
fn clear_stamps(stamps: &mut Vec<u32>)
    ensures { stamps.new.items ≡ replicate (length stamps.old.items) 0 }
{
    let wide = stamps.len();
    stamps.clear();
    match stamps.resize(wide, 0) {
        Ok(()) => (),
        Err(_) => unreachable!(),
    }
}

// Starts serials anew: the copies have 1, 2, .. from the bottom, and no place counts as noted.
// Answers the greatest serial.
#[cold]
fn restart<T: Copy>(marks: &mut Vec<Mark>, stamps: &mut Vec<u32>, trail: &mut Vec<Note<T>>) -> u32
    requires few { length marks.old.items < serial_limit }
    ensures keeps { (counter : ℕ) → Renews marks.old.items marks.new.items trail.old.items
        trail.new.items stamps.old.items stamps.new.items counter result }
    ensures below { result < serial_limit }
    ensures marks { vec_len marks.new ≡ vec_len marks.old }
    ensures capacity { vec_capacity marks.new ≡ vec_capacity marks.old }
    ensures len { vec_len trail.new ≡ vec_len trail.old }
    ensures room { vec_capacity trail.new ≡ vec_capacity trail.old }
{
    number(marks);
    clear_stamps(stamps);
    clear_notes(trail);
    marks.len() as u32
}

// The greatest serial, below the end of the numbers: where it stands there, serials start anew.
fn room_for_serial<T: Copy>(
    marks: &mut Vec<Mark>,
    stamps: &mut Vec<u32>,
    trail: &mut Vec<Note<T>>,
    counter: u32,
) -> u32
    requires few { length marks.old.items < serial_limit }
    ensures keeps { Renews marks.old.items marks.new.items trail.old.items trail.new.items
        stamps.old.items stamps.new.items counter result }
    ensures below { result < serial_limit }
    ensures marks { vec_len marks.new ≡ vec_len marks.old }
    ensures capacity { vec_capacity marks.new ≡ vec_capacity marks.old }
    ensures len { vec_len trail.new ≡ vec_len trail.old }
    ensures room { vec_capacity trail.new ≡ vec_capacity trail.old }
{
    if counter < u32::MAX {
        return counter;
    }
    restart(marks, stamps, trail)
}

impl<T: Copy> Rewind<T> {
    /// No item and no copy.
    pub fn new(alloc: Global) -> Rewind<T>
        ensures now { result.now ≡ [] }
        ensures held { result.held ≡ [] }
    {
        Rewind {
            items: Vec::new(alloc),
            stamps: Vec::new(alloc),
            trail: Vec::new(alloc),
            marks: Vec::new(alloc),
            counter: 0,
            limit: UNSWEPT_NOTES,
        }
    }

    /// These items and no copy. The vector is taken over, and none of it is copied. More items than
    /// the limit, 2^32, are refused.
    pub fn of(alloc: Global, items: Vec<T>) -> Result<Rewind<T>, NoMemory>
        ensures now { IfOk result (λ list. list.now ≡ items.items) }
        ensures held { IfOk result (λ list. list.held ≡ []) }
    {
        if items.len() > ITEM_LIMIT {
            return Err(NoMemory);
        }
        let mut stamps = Vec::new(alloc);
        stamps.resize(items.len(), 0)?;
        Ok(Rewind {
            items,
            stamps,
            trail: Vec::new(alloc),
            marks: Vec::new(alloc),
            counter: 0,
            limit: UNSWEPT_NOTES,
        })
    }

    /// How many items the list has now; a copy may have fewer, but not more.
    #[inline(always)]
    pub fn len(&self) -> usize
        ensures { result ≡ length self.now.now }
    {
        self.items.len()
    }

    /// How many copies there are.
    pub fn height(&self) -> usize
        ensures { result ≡ length self.now.held }
    {
        self.marks.len()
    }

    /// How many items from the bottom the copies need.
    pub fn needed(&self) -> usize
        ensures value { result ≡ needed self.now.held }
        ensures within { result ≤ length self.now.now }
    {
        top_of(self.marks.as_slice())
    }

    /// The item that stands now at a place, counted from 0.
    #[inline(always)]
    pub fn get(&self, at: usize) -> T
        requires { at < length self.now.now }
        ensures { slice_get self.now.now at ≡ Some result }
    {
        self.items[at]
    }

    /// The items as they stand now, lent and not copied.
    pub fn as_slice(&self) -> &[T]
        ensures { result.now ≡ self.now.now }
    {
        self.items.as_slice()
    }

    /// How many more copies can be made without taking memory.
    pub fn choice_room(&self) -> usize
        ensures { result ≡ self.now.choice_room }
    {
        let left = SERIAL_LIMIT.saturating_sub(self.marks.len());
        (self.marks.capacity() - self.marks.len()).min(left)
    }

    /// How many more notes can be made without taking memory.
    pub fn trail_room(&self) -> usize
        ensures { result ≡ self.now.trail_room }
    {
        self.trail.capacity() - self.trail.len()
    }

    /// Makes room for so many more copies and notes.
    pub fn reserve(&mut self, choices: usize, trail: usize) -> Result<(), NoMemory>
        ensures now { self.new.now ≡ self.old.now }
        ensures held { self.new.held ≡ self.old.held }
        ensures noted { self.new.noted ≡ self.old.noted }
        ensures succeeds { choices ≤ self.old.choice_room → trail ≤ self.old.trail_room
            → IsOk result }
        ensures choice_room { OnOk result (choices ≤ self.new.choice_room) }
        ensures trail_room { OnOk result (trail ≤ self.new.trail_room) }
        ensures no_less { (self.old.choice_room ≤ self.new.choice_room)
            × (self.old.trail_room ≤ self.new.trail_room) }
    {
        if SERIAL_LIMIT.saturating_sub(self.marks.len()) < choices {
            return Err(NoMemory);
        }
        self.marks.reserve(choices)?;
        self.trail.reserve(trail)?;
        Ok(())
    }

    /// Notes what stands at a place, where it is not noted yet.
    #[inline(always)]
    pub fn note(&mut self, at: usize) -> Result<(), NoMemory>
        requires { at < length self.old.now }
        ensures now { self.new.now ≡ self.old.now }
        ensures held { self.new.held ≡ self.old.held }
        ensures succeeds { 1 ≤ self.old.trail_room → IsOk result }
        ensures free { slice_index_or self.old.noted at false ≡ true
            → IsOk result × (self.new.trail_room ≡ self.old.trail_room) }
        ensures noted { OnOk result (slice_index_or self.new.noted at false ≡ true) }
        ensures kept { (p : ℕ) → slice_index_or self.old.noted p false ≡ true
            → slice_index_or self.new.noted p false ≡ true }
        ensures choice_room { self.new.choice_room ≡ self.old.choice_room }
        ensures trail_room { self.old.trail_room ≤ self.new.trail_room
            + (if is_ok result then 1 else 0) }
    {
        let free = needs_no_note(self.marks.as_slice(), at, self.stamps[at]);
        room_for_note(free, &mut self.trail)?;
        note_old(
            free,
            self.marks.as_slice(),
            self.items.as_slice(),
            &mut self.stamps,
            &mut self.trail,
            at,
        );
        Ok(())
    }

    /// Writes an item at a place that is noted.
    #[inline(always)]
    pub fn put(&mut self, at: usize, value: T)
        requires { slice_index_or self.old.noted at false ≡ true }
        ensures now { self.new.now ≡ set self.old.now at value }
        ensures held { self.new.held ≡ self.old.held }
        ensures noted { self.new.noted ≡ self.old.noted }
        ensures choice_room { self.new.choice_room ≡ self.old.choice_room }
        ensures trail_room { self.new.trail_room ≡ self.old.trail_room }
    {
        self.items[at] = value;
    }

    /// Writes an item. It takes a note where the place is not noted yet.
    #[inline(always)]
    pub fn write(&mut self, at: usize, value: T) -> Result<(), NoMemory>
        requires { at < length self.old.now }
        ensures now { self.new.now
            ≡ (if is_ok result then set self.old.now at value else self.old.now) }
        ensures held { self.new.held ≡ self.old.held }
        ensures succeeds { 1 ≤ self.old.trail_room → IsOk result }
        ensures free { slice_index_or self.old.noted at false ≡ true
            → IsOk result × (self.new.trail_room ≡ self.old.trail_room) }
        ensures noted { OnOk result (slice_index_or self.new.noted at false ≡ true) }
        ensures kept { (p : ℕ) → slice_index_or self.old.noted p false ≡ true
            → slice_index_or self.new.noted p false ≡ true }
        ensures choice_room { self.new.choice_room ≡ self.old.choice_room }
        ensures trail_room { self.old.trail_room ≤ self.new.trail_room
            + (if is_ok result then 1 else 0) }
    {
        self.note(at)?;
        self.put(at, value);
        Ok(())
    }

    /// Drops the items from `len` on, of which no copy needs one.
    pub fn truncate(&mut self, len: usize)
        requires { needed self.old.held ≤ len }
        ensures now { self.new.now ≡ take len self.old.now }
        ensures held { self.new.held ≡ self.old.held }
        ensures noted { self.new.noted ≡ take len self.old.noted }
        ensures choice_room { self.new.choice_room ≡ self.old.choice_room }
        ensures trail_room { self.new.trail_room ≡ self.old.trail_room }
    {
        self.items.truncate(len);
    }

    /// Pushes an item, which needs no note until a copy is made. A list of 2^32 items refuses it.
    pub fn push(&mut self, value: T) -> Result<(), NoMemory>
        ensures now { self.new.now
            ≡ (if is_ok result then self.old.now ++ value ∷ [] else self.old.now) }
        ensures held { self.new.held ≡ self.old.held }
        ensures noted { self.new.noted
            ≡ (if is_ok result then self.old.noted ++ true ∷ [] else self.old.noted) }
        ensures choice_room { self.new.choice_room ≡ self.old.choice_room }
        ensures trail_room { self.new.trail_room ≡ self.old.trail_room }
    {
        let len = self.items.len();
        if len >= ITEM_LIMIT {
            return Err(NoMemory);
        }
        room_for_one(&mut self.items)?;
        widen(&mut self.stamps, len + 1)?;
        self.items.push_reserved(value);
        Ok(())
    }

    /// Pushes items, which need no note until a copy is made. Where they would be more than 2^32,
    /// none is pushed.
    pub fn extend(&mut self, more: &[T]) -> Result<(), NoMemory>
        ensures now { self.new.now
            ≡ (if is_ok result then self.old.now ++ more.now else self.old.now) }
        ensures held { self.new.held ≡ self.old.held }
        ensures noted { self.new.noted ≡ (if is_ok result
            then self.old.noted ++ replicate (length more.now) true else self.old.noted) }
        ensures choice_room { self.new.choice_room ≡ self.old.choice_room }
        ensures trail_room { self.new.trail_room ≡ self.old.trail_room }
    {
        let len = self.items.len();
        if ITEM_LIMIT.saturating_sub(len) < more.len() {
            return Err(NoMemory);
        }
        self.items.reserve(more.len())?;
        widen(&mut self.stamps, len + more.len())?;
        push_all(&mut self.items, more);
        Ok(())
    }

    /// Makes a copy of the first `top` items.
    pub fn choose(&mut self, top: usize) -> Result<(), NoMemory>
        requires low { needed self.old.held ≤ top }
        requires high { top ≤ length self.old.now }
        ensures now { self.new.now ≡ self.old.now }
        ensures held { self.new.held ≡ (if is_ok result
            then self.old.held ++ take top self.old.now ∷ [] else self.old.held) }
        ensures succeeds { 1 ≤ self.old.choice_room → IsOk result }
        ensures choice_room { self.old.choice_room ≤ self.new.choice_room
            + (if is_ok result then 1 else 0) }
        ensures trail_room { self.new.trail_room ≡ self.old.trail_room }
    {
        if self.marks.len() >= SERIAL_LIMIT {
            return Err(NoMemory);
        }
        self.counter = room_for_serial(
            &mut self.marks,
            &mut self.stamps,
            &mut self.trail,
            self.counter,
        );
        let mark = Mark {
            mark: self.trail.len(),
            top,
            serial: self.counter + 1,
        };
        self.marks.push(mark)?;
        self.counter += 1;
        Ok(())
    }

    /// Goes back to the top copy, which stays. What stands above the copy is left as it comes.
    pub fn back(&mut self)
        requires { 1 ≤ length self.old.held }
        ensures now { take (needed self.old.held) self.new.now ≡ top_copy self.old.held }
        ensures held { self.new.held ≡ self.old.held }
        ensures choice_room { self.new.choice_room ≡ self.old.choice_room }
        ensures trail_room { self.old.trail_room ≤ self.new.trail_room }
    {
        let mark = self.marks[self.marks.len() - 1];
        unwind_to(
            self.marks.as_slice(),
            &mut self.items,
            &mut self.stamps,
            &mut self.trail,
            mark.mark,
            self.counter,
        );
    }

    /// For each place that was written since the top copy, the item that stood there in it.
    pub fn olds(&self, alloc: Global) -> Result<BTreeMap<usize, T>, NoMemory>
        requires { 1 ≤ length self.now.held }
        ensures { IfOk result (λ olds. IsOlds self.now.now self.now.held (get nat_cmp olds)) }
    {
        let mark = self.marks[self.marks.len() - 1];
        olds_of(alloc, self.trail.as_slice(), mark.mark)
    }

    /// Drops the copies above a height.
    pub fn cut(&mut self, height: usize)
        ensures now { self.new.now ≡ self.old.now }
        ensures held { self.new.held ≡ take height self.old.held }
        ensures rooms { (self.old.choice_room ≤ self.new.choice_room)
            × (self.old.trail_room ≤ self.new.trail_room) }
    {
        self.marks.truncate(height);
        settle(self.marks.as_slice(), &mut self.trail);
        self.limit = sweep_full(self.marks.as_slice(), &mut self.trail, self.limit);
    }
}
