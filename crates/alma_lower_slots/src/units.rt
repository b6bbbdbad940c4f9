// New numbers of slots: those of one kind whose stretches do not meet share one. What is given here
// the checker looks over.

use crate::stretch::{NOWHERE, Stretch};
use alma_base::{NoMemory, SLOT_LIMIT};
use alma_code::SlotKind;
use std::alloc::Global;

// So many seats, those that were made last, are looked at for a unit.
const MOST_SEATS: usize = 256;

/// Slots that stay together: the arguments of a call, or one slot by itself.
#[derive(Clone, Copy)]
pub struct Unit {
    pub first: u32,
    pub len: u32,
}

// New slots that stay together: of what old ones they have the kinds, and the end of the last
// stretch that they were given to.
#[derive(Clone, Copy)]
struct Seat {
    first: u32,
    len: u32,
    free: u32,
}

/// Gives each slot behind the own ones its new number. `units` has for each slot the unit that it
/// is of.
pub fn give_numbers(
    alloc: Global,
    kinds: &[SlotKind],
    own: u32,
    units: &[Unit],
    stretches: &mut [Stretch],
) -> Result<(), NoMemory> {
    let mut seats: Vec<Seat> = Vec::new(alloc);
    // The seat of the unit that begins at each slot, and 0 of a slot where none does.
    let mut seat_numbers: Vec<u32> = Vec::new(alloc);
    for unit in units {
        let n = seat_numbers.len();
        let seat = if n < own as usize || unit.first as usize != n {
            0
        } else {
            let stretch = hull(stretches, *unit);
            take_seat(&mut seats, kinds, *unit, stretch)?
        };
        seat_numbers.push(seat)?;
    }
    let firsts = numbers_of(alloc, &seats, kinds, own)?;
    rename(&firsts, &seat_numbers, own, units, stretches);
    Ok(())
}

// Each slot behind the own ones gets its number in its seat.
fn rename(
    firsts: &[u32],
    seat_numbers: &[u32],
    own: u32,
    units: &[Unit],
    stretches: &mut [Stretch],
) {
    let mut n = 0u32;
    for unit in units {
        if n >= own && (n as usize) < stretches.len() {
            stretches[n as usize].slot = number_in(firsts, seat_numbers, *unit, n);
        }
        n = n.saturating_add(1);
    }
}

// The new number of a slot of a unit.
fn number_in(firsts: &[u32], seat_numbers: &[u32], unit: Unit, slot: u32) -> u32 {
    let first = entry(firsts, entry(seat_numbers, unit.first));
    first.saturating_add(slot.saturating_sub(unit.first))
}

// An entry of a list, or 0 where there is none.
fn entry(list: &[u32], place: u32) -> u32 {
    match list.get(place as usize) {
        Some(n) => *n,
        None => 0,
    }
}

// The stretch of all slots of a unit: it is kept where one is, and dead where all are.
fn hull(stretches: &[Stretch], unit: Unit) -> Stretch {
    let mut all = NOWHERE;
    let first = (unit.first as usize).min(stretches.len());
    let end = first.saturating_add(unit.len as usize).min(stretches.len());
    for stretch in &stretches[first..end] {
        if stretch.low < stretch.high {
            all.low = all.low.min(stretch.low);
            all.high = all.high.max(stretch.high);
        }
    }
    all
}

// A seat for a unit with this stretch: one that is free by then, or a new one.
fn take_seat(
    seats: &mut Vec<Seat>,
    kinds: &[SlotKind],
    unit: Unit,
    stretch: Stretch,
) -> Result<u32, NoMemory> {
    let dead = stretch.high <= stretch.low;
    let found = seats.len();
    if found > SLOT_LIMIT as usize {
        return Err(NoMemory);
    }
    for back in 1..found.min(MOST_SEATS) + 1 {
        let i = found - back;
        if (dead || seats[i].free <= stretch.low) && alike(kinds, seats[i], unit) {
            seats[i].free = seats[i].free.max(stretch.high);
            return Ok(i as u32);
        }
    }
    seats.push(Seat {
        first: unit.first,
        len: unit.len,
        free: stretch.high,
    })?;
    Ok(found as u32)
}

// Whether the slots of a unit are of the kinds of a seat.
fn alike(kinds: &[SlotKind], seat: Seat, unit: Unit) -> bool {
    if seat.len != unit.len {
        return false;
    }
    for k in 0..unit.len {
        let old = kinds.get(seat.first.saturating_add(k) as usize);
        if old != kinds.get(unit.first.saturating_add(k) as usize) {
            return false;
        }
    }
    true
}

// The first slots of seats, kind by kind, so that a frame has few runs.
fn numbers_of(
    alloc: Global,
    seats: &[Seat],
    kinds: &[SlotKind],
    own: u32,
) -> Result<Vec<u32>, NoMemory> {
    let mut firsts: Vec<u32> = Vec::new(alloc);
    for _ in 0..seats.len() {
        firsts.push(0)?;
    }
    let mut next = own;
    for class in &CLASSES {
        next = number_class(&mut firsts, seats, kinds, *class, next);
    }
    Ok(firsts)
}

// The seats of a class get the numbers from `next` on.
fn number_class(
    firsts: &mut [u32],
    seats: &[Seat],
    kinds: &[SlotKind],
    class: SeatClass,
    next: u32,
) -> u32 {
    let mut next = next;
    for i in 0..seats.len().min(firsts.len()) {
        if class_of(seats[i], kinds) == class {
            firsts[i] = next;
            next = next.saturating_add(seats[i].len);
        }
    }
    next
}

// What a seat is for. Seats of one class are numbered one after another.
#[derive(Clone, Copy, PartialEq)]
enum SeatClass {
    Number,
    // A place of one cell.
    OneCell,
    // A place of any other length.
    Cells,
    Mark,
    Link,
    // Slots that stay together.
    Several,
}

// The classes in the order of their numbers.
const CLASSES: [SeatClass; 6] = [
    SeatClass::Number,
    SeatClass::OneCell,
    SeatClass::Cells,
    SeatClass::Mark,
    SeatClass::Link,
    SeatClass::Several,
];

// The class of a seat.
fn class_of(seat: Seat, kinds: &[SlotKind]) -> SeatClass {
    if seat.len > 1 {
        return SeatClass::Several;
    }
    match kinds.get(seat.first as usize) {
        Some(SlotKind::Number) | None => SeatClass::Number,
        Some(SlotKind::Place(1)) => SeatClass::OneCell,
        Some(SlotKind::Place(_)) => SeatClass::Cells,
        Some(SlotKind::Mark) => SeatClass::Mark,
        Some(SlotKind::Link(_)) => SeatClass::Link,
    }
}
