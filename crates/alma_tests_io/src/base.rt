// Division, what READ finds, and what WRITE prints.
use alma_base::{NoMemory, ReadInt, Value, div_down, mod_down, read_int, write_value};
use std::alloc::Global;
use std::test::Fail;

// Two numbers, and their DIV and MOD.
const QUOTIENTS: [(i64, i64, Option<i64>, i64); 11] = [
    (7, 2, Some(3), 1),
    (-7, 2, Some(-4), 1),
    (7, -2, Some(-4), -1),
    (-7, -2, Some(3), -1),
    (6, -2, Some(-3), 0),
    (-6, 2, Some(-3), 0),
    (0, -5, Some(0), 0),
    (i64::MIN, 1, Some(i64::MIN), 0),
    (i64::MIN, 3, Some(-3074457345618258603), 1),
    (i64::MAX, -1, Some(-9223372036854775807), 0),
    (i64::MIN, -1, None, 0),
];

#[test]
fn division_rounds_down(rt: HostRuntime) {
    for (a, b, quotient, rest) in QUOTIENTS {
        if b != 0 {
            let found = (div_down(a, b), mod_down(a, b));
            assert_eq!(rt; found, (quotient, rest), "{a} and {b}");
        }
    }
}

const READINGS: [(&[u8], usize, ReadInt); 17] = [
    (b"7", 0, ReadInt::Number(7, 1)),
    (b" \t\r\n42x", 0, ReadInt::Number(42, 6)),
    (b"12 34", 2, ReadInt::Number(34, 5)),
    (b"12 34", 1, ReadInt::Number(2, 2)),
    (b"+5-6", 0, ReadInt::Number(5, 2)),
    (b"+5-6", 2, ReadInt::Number(-6, 4)),
    (b"-0", 0, ReadInt::Number(0, 2)),
    (b"007", 0, ReadInt::Number(7, 3)),
    (b"", 0, ReadInt::NoNumber),
    (b"1 ", 1, ReadInt::NoNumber),
    (b"- 1", 0, ReadInt::NoNumber),
    (b"--1", 0, ReadInt::NoNumber),
    (b"x1", 0, ReadInt::NoNumber),
    (b"9223372036854775807", 0, ReadInt::Number(i64::MAX, 19)),
    (b"9223372036854775808", 0, ReadInt::TooLarge),
    (b"-9223372036854775808", 0, ReadInt::Number(i64::MIN, 20)),
    (b"-99999999999999999999999", 0, ReadInt::TooLarge),
];

#[test]
fn a_number_is_read_behind_blanks_and_a_sign(rt: HostRuntime) {
    for (input, from, want) in READINGS {
        assert!(rt; from <= input.len());
        assert_eq!(rt; read_int(input, from), want);
    }
}

// The values, printed one behind another.
fn printed(alloc: Global, values: &[Value]) -> Result<Vec<u8>, NoMemory> {
    let mut out = Vec::new(alloc);
    for value in values {
        write_value(&mut out, value)?;
    }
    Ok(out)
}

#[test]
fn values_print(rt: HostRuntime) -> Result<(), Fail> {
    let values = [
        Value::Int(i64::MIN),
        Value::Char(b' '),
        Value::Bool(true),
        Value::Bool(false),
    ];
    let out = printed(rt.alloc(), &values)?;
    assert_eq!(rt;
        out.as_slice(),
        b"-9223372036854775808 TRUEFALSE".as_slice()
    );
    Ok(())
}
