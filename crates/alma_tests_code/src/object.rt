// The bytes of two small objects: what is read of them, and what is refused.
ghost use Rattle.std.specs.Prelude.{◌<◌};

use crate::code::{Shown, show};
use alma_base::NoMemory;
use alma_code::{Instr, Run, SlotKind};
use alma_object::{ObjectFault, ObjectView, encode};
use std::alloc::Global;

// An object of version 1 with one routine, `A`, whose code is Return.
pub(crate) const FIRST: [u8; 104] = [
    0x41, 0x4c, 0x4d, 0x41, 0x30, 0x4f, 0x42, 0x4a, 1, 0, 1, 0, 0, 0, 0, 0, 0, 0, 0, 0, 0, 0, 1, 0,
    0, 0, 0, 0, 0, 0, 0, 0, 0, 0, 1, 0, 0, 0, 0, 0, 0, 0, 1, 0, 0, 0, 1, 0, 0, 0, 0, 0, 0, 0, 1, 0,
    0, 0, 1, 0, 0, 0, 1, 0, 0, 0, 0, 0, 0, 0, 0, 0, 0, 0, 0, 0, 0, 0, 0, 0, 0, 0, 1, 0, 0, 0, 0x41,
    0x26, 0, 0, 0, 0, 0, 0, 0, 0, 0, 0, 0, 0, 0, 0, 0, 0,
];

// The same of version 2: the tenth count stands at 46.
pub(crate) const SECOND: [u8; 108] = [
    0x41, 0x4c, 0x4d, 0x41, 0x30, 0x4f, 0x42, 0x4a, 2, 0, 1, 0, 0, 0, 0, 0, 0, 0, 0, 0, 0, 0, 1, 0,
    0, 0, 0, 0, 0, 0, 0, 0, 0, 0, 1, 0, 0, 0, 0, 0, 0, 0, 1, 0, 0, 0, 0, 0, 0, 0, 1, 0, 0, 0, 0, 0,
    0, 0, 1, 0, 0, 0, 1, 0, 0, 0, 1, 0, 0, 0, 0, 0, 0, 0, 0, 0, 0, 0, 0, 0, 0, 0, 0, 0, 0, 0, 1, 0,
    0, 0, 0x41, 0x26, 0, 0, 0, 0, 0, 0, 0, 0, 0, 0, 0, 0, 0, 0, 0, 0,
];

pub(crate) fn with_byte(at: usize, byte: u8) -> [u8; 104]
    requires { at < 104 }
{
    let mut bytes = FIRST;
    bytes[at] = byte;
    bytes
}

// The version of an object; how many routines, instructions and globals it has; whether the first
// instruction is Return; whether there is a second routine, a global, a range, a text or a read.
type ObjectShown = (u16, [u32; 3], bool, [bool; 5]);

const NO_MORE: [bool; 5] = [false; 5];

// What an object shows.
fn show_object(view: &ObjectView<'_>) -> ObjectShown {
    let counts = [view.routine_count(), view.code_count(), view.global_count()];
    let returns_first = view.code_count() > 0 && matches!(view.instr(0), Instr::Return);
    let has_more = [
        view.routine(1).is_some(),
        view.global(0).is_some(),
        view.range(0).is_some(),
        view.text(0).is_some(),
        view.has_read(),
    ];
    (view.version(), counts, returns_first, has_more)
}

// The same of bytes, where they are an object.
fn read_object(bytes: &[u8]) -> Option<ObjectShown> {
    let view = ObjectView::new(bytes).ok()?;
    Some(show_object(&view))
}

#[test]
fn an_object_of_either_version_is_read(rt: HostRuntime) {
    let found = [read_object(&FIRST), read_object(&SECOND)];
    let (first, second) = ((1, [1, 1, 0], true, NO_MORE), (2, [1, 1, 0], true, NO_MORE));
    assert_eq!(rt; found, [Some(first), Some(second)]);
}

// The name of a routine, the ends of its code, and what its head shows.
type RoutineShown<'b> = (&'b [u8], [u32; 2], Shown);

// What the first routine shows.
fn read_routine(bytes: &[u8]) -> Option<RoutineShown<'_>> {
    let view = ObjectView::new(bytes).ok()?;
    let routine = view.routine(0)?;
    let ends = [routine.code_start(), routine.code_end()];
    Some((routine.name(), ends, show(&routine)))
}

const ROUTINE: Shown = (
    [1, 0, 0, 1],
    Some(Run {
        kind: SlotKind::Number,
        end: 1,
    }),
    None,
    false,
);

#[test]
fn a_routine_of_an_object_is_read(rt: HostRuntime) {
    assert_eq!(rt;
        read_routine(&FIRST),
        Some((b"A".as_slice(), [0, 1], ROUTINE))
    );
}

// The first front of bytes, of those from a length on, that is not cut.
fn whole_front(bytes: &[u8], from: usize) -> Option<usize> {
    for n in from..bytes.len() {
        if ObjectView::new(&bytes[..n]).err() != Some(ObjectFault::Cut(n)) {
            return Some(n);
        }
    }
    None
}

#[test]
fn each_front_is_cut(rt: HostRuntime) {
    let found = [whole_front(&FIRST, 0), whole_front(&SECOND, 107)];
    assert_eq!(rt; found, [None; 2]);
}

const FAULTS: [(usize, u8, ObjectFault); 10] = [
    (0, 0, ObjectFault::Magic),
    (8, 3, ObjectFault::Version(3)),
    (10, 0, ObjectFault::BadCount(10)),
    (42, 2, ObjectFault::BadCount(58)),
    (46, 2, ObjectFault::BadName(46)),
    (50, 1, ObjectFault::BadCount(50)),
    (86, 0x31, ObjectFault::BadName(86)),
    (88, 1, ObjectFault::BadOpcode(87)),
    (87, 0, ObjectFault::BadOpcode(87)),
    (87, 0x31, ObjectFault::BadOpcode(87)),
];

// The fault of the object with one byte altered.
fn fault_with(at: usize, byte: u8) -> Option<ObjectFault> {
    if at >= 104 {
        return None;
    }
    ObjectView::new(&with_byte(at, byte)).err()
}

// The first row whose fault is another.
fn other_fault() -> Option<usize> {
    for (number, (at, byte, want)) in FAULTS.iter().enumerate() {
        if fault_with(*at, *byte) != Some(*want) {
            return Some(number);
        }
    }
    None
}

// The fault of a byte behind the object.
fn fault_behind() -> Option<ObjectFault> {
    let mut bytes = [0; 105];
    bytes[..104].copy_from_slice(&FIRST);
    ObjectView::new(&bytes).err()
}

#[test]
fn a_byte_altered_or_behind(rt: HostRuntime) {
    let found = (other_fault(), fault_behind());
    assert_eq!(rt; found, (None, Some(ObjectFault::Trailing(104))));
}

// Whether the code of an object is one instruction, which puts an own link into slot 0.
fn has_own_link(bytes: &[u8]) -> bool {
    match ObjectView::new(bytes) {
        Ok(view) => view.code_count() == 1 && matches!(view.instr(0), Instr::Own { to: 0 }),
        Err(_fault) => false,
    }
}

// The second object with an own link in place of its Return.
pub(crate) fn second_with_own() -> [u8; 108] {
    let mut own = SECOND;
    own[91] = 0x31;
    own
}

#[test]
fn version_two_has_own_links(rt: HostRuntime) {
    assert!(rt; has_own_link(&second_with_own()));
}

// The object of the code that is read of an object.
fn spelled_again(alloc: Global, view: ObjectView<'_>) -> Result<Vec<u8>, NoMemory> {
    let code = view.to_code(alloc)?;
    encode(alloc, &code)
}

// Whether an object is that of the code that is read of it; none where the bytes are no object.
fn is_one_spelling(alloc: Global, bytes: &[u8]) -> Option<bool> {
    let view = ObjectView::new(bytes).ok()?;
    match spelled_again(alloc, view) {
        Ok(object) => Some(object.as_slice() == bytes),
        Err(_error) => Some(false),
    }
}

// Whether a byte has a value that gives another object's spelling.
fn has_other_spelling(alloc: Global, at: usize) -> bool
    requires { at < 104 }
{
    for byte in 0..=255 {
        if is_one_spelling(alloc, &with_byte(at, byte)) == Some(false) {
            return true;
        }
    }
    false
}

// The first such byte.
fn other_spelling(alloc: Global) -> Option<usize> {
    for at in 0..104 {
        if has_other_spelling(alloc, at) {
            return Some(at);
        }
    }
    None
}

#[test]
fn an_object_is_the_one_spelling_of_its_code(rt: HostRuntime) {
    let found = (
        is_one_spelling(rt.alloc(), &SECOND),
        other_spelling(rt.alloc()),
    );
    assert_eq!(rt; found, (Some(true), None));
}
