// The same objects, and which rule they break with one byte altered.
use crate::object::{FIRST, SECOND, second_with_own, with_byte};
use alma_object::ObjectView;
use alma_verify::{VerifyFault, verify};

// What the verifier says of an object, where the bytes are one.
fn verdict(bytes: &[u8]) -> Option<Result<(), VerifyFault>> {
    let view = ObjectView::new(bytes).ok()?;
    match verify(view) {
        Ok(_) => Some(Ok(())),
        Err(fault) => Some(Err(fault)),
    }
}

// That an object breaks this rule first, in the routine or at the instruction 0, or none.
fn broken(rule: Option<u8>) -> Option<Result<(), VerifyFault>> {
    match rule {
        Some(rule) => Some(Err(VerifyFault { rule, at: 0 })),
        None => Some(Ok(())),
    }
}

// The version of an object that is verified, and how many instructions its view has.
fn verified_counts(bytes: &[u8]) -> Option<(u16, u32)> {
    let view = ObjectView::new(bytes).ok()?;
    let verified = verify(view).ok()?;
    let view = verified.view();
    Some((view.version(), view.code_count()))
}

#[test]
fn a_verified_object_has_its_own_view(rt: HostRuntime) {
    let found = [verified_counts(&FIRST), verified_counts(&SECOND)];
    assert_eq!(rt; found, [Some((1, 1)), Some((2, 1))]);
}

// A byte, the value that it is altered to, and the rule that the object breaks then.
const ROWS: [(usize, u8, Option<u8>); 9] = [
    (66, 2, Some(2)),
    (70, 1, Some(1)),
    (74, 2, Some(3)),
    (82, 2, Some(2)),
    (87, 0x25, Some(10)),
    (87, 0x27, Some(4)),
    (87, 0x2e, Some(11)),
    (87, 0x2f, Some(12)),
    // A jump to itself.
    (87, 0x1a, None),
];

// The first row of which the verifier says otherwise.
fn other_verdict() -> Option<usize> {
    for (number, (at, byte, rule)) in ROWS.iter().enumerate() {
        if *at >= 104 || verdict(&with_byte(*at, *byte)) != broken(*rule) {
            return Some(number);
        }
    }
    None
}

#[test]
fn one_byte_altered(rt: HostRuntime) {
    let found = (other_verdict(), verdict(&second_with_own()));
    assert_eq!(rt; found, (None, broken(Some(4))));
}
