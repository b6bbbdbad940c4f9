// The first sources of a sample.
ghost use Rattle.std.specs.Prelude.{◌≤◌};

use alma_driver_words::sample_source;
use std::alloc::Global;

const HEAD: &[u8] = b"MODULE S;\nVAR v: ARRAY [0..99] OF INTEGER; n: INTEGER;\nBEGIN\n";

const TAIL: &[u8] = b"FOR n := 0 TO 99 DO IF KNOWN(v[n]) THEN WRITE(v[n]) END END\nEND S.\n";

const SIX: &[u8] =
    b"v[48] := 6;\nv[30] := 2;\nv[67] := 5;\nEITHER v[80] = 4 ORELSE v[80] := 4 END;\nFORALL SOME n := 0 TO 0 DO TRUE END DO v[38] := n END;\nCOMMIT SOME n := 0 TO 4 DO v[40] := n END END;\n";

/// Whether bytes are a sample with these lines between its head and its tail.
fn has_lines(sample: &[u8], lines: &[u8]) -> bool {
    let Some(rest) = sample.strip_prefix(HEAD) else {
        return false;
    };
    match rest.strip_prefix(lines) {
        Some(tail) => tail == TAIL,
        None => false,
    }
}

/// Whether a sample of so many lines has these lines, and this length.
fn is_sample(alloc: Global, count: u32, lines: &[u8], len: usize) -> bool
    requires { count ≤ 5000 }
{
    match sample_source(alloc, count) {
        Ok(sample) => has_lines(&sample, lines) && sample.len() == len,
        Err(_error) => false,
    }
}

#[test]
fn samples_have_the_lines_of_their_numbers(rt: HostRuntime) {
    let found = [
        is_sample(rt.alloc(), 0, b"", 128),
        is_sample(rt.alloc(), 6, SIX, 306),
    ];
    assert_eq!(rt; found, [true; 2]);
}
