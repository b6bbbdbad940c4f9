// What the scanner makes of sources: tokens with their offsets, faults, places.
use alma_base::{LexFault, NoMemory};
use alma_scan::{ScanError, Scanner, Token, place, scan};
use alma_tree::Kind;
use std::alloc::Global;

/// A source, the kinds and the offsets of its tokens, and the fault behind them.
struct Row {
    source: &'static [u8],
    tokens: &'static [(Kind, usize)],
    stop: Option<(LexFault, usize)>,
}

const ROWS: [Row; 28] = [
    Row {
        source: b" \t\r\n",
        tokens: &[],
        stop: None,
    },
    Row {
        source: b"12ab",
        tokens: &[(Kind::Number, 0), (Kind::Name, 2)],
        stop: None,
    },
    Row {
        source: b"1..2",
        tokens: &[(Kind::Number, 0), (Kind::DotDot, 1), (Kind::Number, 3)],
        stop: None,
    },
    Row {
        source: b"a...b",
        tokens: &[
            (Kind::Name, 0),
            (Kind::DotDot, 1),
            (Kind::Dot, 3),
            (Kind::Name, 4),
        ],
        stop: None,
    },
    Row {
        source: b"x:=-y1_<>#",
        tokens: &[
            (Kind::Name, 0),
            (Kind::Assign, 1),
            (Kind::Minus, 3),
            (Kind::Name, 4),
            (Kind::Unequal, 7),
            (Kind::Unequal, 9),
        ],
        stop: None,
    },
    Row {
        source: b"ENDED End END.",
        tokens: &[
            (Kind::Name, 0),
            (Kind::Name, 6),
            (Kind::End, 10),
            (Kind::Dot, 13),
        ],
        stop: None,
    },
    Row {
        source: b"(**)1",
        tokens: &[(Kind::Number, 4)],
        stop: None,
    },
    Row {
        source: b"(***)1(*(**)*)",
        tokens: &[(Kind::Number, 5)],
        stop: None,
    },
    Row {
        source: b"1(*)*)2",
        tokens: &[(Kind::Number, 0), (Kind::Number, 6)],
        stop: None,
    },
    Row {
        source: b"(* (*)*) *)a*)",
        tokens: &[(Kind::Name, 11), (Kind::Star, 12), (Kind::CloseParen, 13)],
        stop: None,
    },
    Row {
        source: b"(*)",
        tokens: &[],
        stop: Some((LexFault::OpenComment, 0)),
    },
    Row {
        source: b" a (* b (* c *)",
        tokens: &[(Kind::Name, 1)],
        stop: Some((LexFault::OpenComment, 3)),
    },
    Row {
        source: b"( *)",
        tokens: &[(Kind::OpenParen, 0), (Kind::Star, 2), (Kind::CloseParen, 3)],
        stop: None,
    },
    Row {
        source: b"(",
        tokens: &[(Kind::OpenParen, 0)],
        stop: None,
    },
    Row {
        source: b"\"'\"'\"'",
        tokens: &[(Kind::Literal, 0), (Kind::Literal, 3)],
        stop: None,
    },
    Row {
        source: b"'' 'it' \"(*\"",
        tokens: &[(Kind::Literal, 0), (Kind::Literal, 3), (Kind::Literal, 8)],
        stop: None,
    },
    Row {
        source: b"a'",
        tokens: &[(Kind::Name, 0)],
        stop: Some((LexFault::OpenString, 1)),
    },
    Row {
        source: b"'ab\n'",
        tokens: &[],
        stop: Some((LexFault::OpenString, 0)),
    },
    Row {
        source: b" \"ab\r\"",
        tokens: &[],
        stop: Some((LexFault::OpenString, 1)),
    },
    Row {
        source: b"'\xff\x0c'",
        tokens: &[(Kind::Literal, 0)],
        stop: None,
    },
    Row {
        source: b"9223372036854775807",
        tokens: &[(Kind::Number, 0)],
        stop: None,
    },
    Row {
        source: b"a 9223372036854775808x",
        tokens: &[(Kind::Name, 0)],
        stop: Some((LexFault::NumberTooLarge, 2)),
    },
    Row {
        source: b"\x80",
        tokens: &[],
        stop: Some((LexFault::BadByte, 0)),
    },
    Row {
        source: b"a\xc3\xa9",
        tokens: &[(Kind::Name, 0)],
        stop: Some((LexFault::BadByte, 1)),
    },
    Row {
        source: b" \x0c",
        tokens: &[],
        stop: Some((LexFault::BadByte, 1)),
    },
    Row {
        source: b"ab ? (*",
        tokens: &[(Kind::Name, 0)],
        stop: Some((LexFault::BadByte, 3)),
    },
    Row {
        source: b"; '",
        tokens: &[(Kind::Semicolon, 0)],
        stop: Some((LexFault::OpenString, 2)),
    },
    Row {
        source: b"; ",
        tokens: &[(Kind::Semicolon, 0)],
        stop: None,
    },
];

const SYMBOLS: &[u8] = b"; , . .. : := ( ) [ ] = # <> < <= > >= + - * |";

const SYMBOL_KINDS: [Kind; 21] = [
    Kind::Semicolon,
    Kind::Comma,
    Kind::Dot,
    Kind::DotDot,
    Kind::Colon,
    Kind::Assign,
    Kind::OpenParen,
    Kind::CloseParen,
    Kind::OpenBracket,
    Kind::CloseBracket,
    Kind::Equal,
    Kind::Unequal,
    Kind::Unequal,
    Kind::Less,
    Kind::LessEq,
    Kind::Greater,
    Kind::GreaterEq,
    Kind::Plus,
    Kind::Minus,
    Kind::Star,
    Kind::Bar,
];

const WORDS: &[u8] =
    b"AND ARRAY BEGIN BY CASE CHR COMMIT CONST DIV DO EITHER ELSE ELSIF END FOR FORALL IF KNOWN MIX MOD MODULE NOT OF OR ORD ORELSE PROCEDURE READ RECORD REPEAT RETURN SOME THEN TO TYPE UNTIL VAR WHILE WRITE WRITELN";

const WORD_KINDS: [Kind; 40] = [
    Kind::And,
    Kind::Array,
    Kind::Begin,
    Kind::By,
    Kind::Case,
    Kind::Chr,
    Kind::Commit,
    Kind::Const,
    Kind::Div,
    Kind::Do,
    Kind::Either,
    Kind::Else,
    Kind::Elsif,
    Kind::End,
    Kind::For,
    Kind::Forall,
    Kind::If,
    Kind::Known,
    Kind::Mix,
    Kind::Mod,
    Kind::Module,
    Kind::Not,
    Kind::Of,
    Kind::Or,
    Kind::Ord,
    Kind::Orelse,
    Kind::Procedure,
    Kind::Read,
    Kind::Record,
    Kind::Repeat,
    Kind::Return,
    Kind::Some,
    Kind::Then,
    Kind::To,
    Kind::Type,
    Kind::Until,
    Kind::Var,
    Kind::While,
    Kind::Write,
    Kind::Writeln,
];

/// Whether a scanner gives these tokens next.
fn gives(scanner: &mut Scanner<'_>, tokens: &[(Kind, usize)]) -> bool {
    for want in tokens {
        match scanner.next() {
            Ok(Some(token)) if (token.kind, token.start) == *want => {}
            _ => return false,
        }
    }
    true
}

/// Whether a scanner is at the end, or at this fault.
fn ends(scanner: &mut Scanner<'_>, stop: Option<(LexFault, usize)>) -> bool {
    match scanner.next() {
        Ok(Some(_)) => false,
        Ok(None) => stop.is_none(),
        Err(found) => stop == Some((found.fault, found.at)),
    }
}

/// Whether the tokens of a source are those expected, and it ends, or stops at its fault, twice.
fn is_expected(row: &Row) -> bool {
    let mut scanner = Scanner::new(row.source);
    gives(&mut scanner, row.tokens) && ends(&mut scanner, row.stop) && ends(&mut scanner, row.stop)
}

/// The first row that is not as expected.
fn other_row() -> Option<usize> {
    for (number, row) in ROWS.iter().enumerate() {
        if !is_expected(row) {
            return Some(number);
        }
    }
    None
}

#[test]
fn sources(rt: HostRuntime) {
    assert_eq!(rt; other_row(), None);
}

/// Whether tokens are of these kinds.
fn are_of_kinds(tokens: &[Token<'_>], want: &[Kind]) -> bool {
    for (place, token) in tokens.iter().enumerate() {
        if want.get(place) != Some(&token.kind) {
            return false;
        }
    }
    tokens.len() == want.len()
}

/// Whether a source has tokens of these kinds, and no other.
fn has_kinds(alloc: Global, source: &[u8], want: &[Kind]) -> Result<bool, ScanError> {
    let tokens = scan(alloc, source)?;
    Ok(are_of_kinds(&tokens, want))
}

#[test]
fn spellings(rt: HostRuntime) {
    let found = [
        has_kinds(rt.alloc(), SYMBOLS, &SYMBOL_KINDS),
        has_kinds(rt.alloc(), WORDS, &WORD_KINDS),
    ];
    assert_eq!(rt; found, [Ok(true); 2]);
}

/// Puts so many copies of a pattern behind bytes.
pub(crate) fn put_copies(
    bytes: &mut Vec<u8>,
    pattern: &[u8],
    count: usize,
) -> Result<(), NoMemory> {
    for _ in 0..count {
        bytes.extend_from_slice(pattern)?;
    }
    Ok(())
}

/// A source of so many copies of a front and so many of a back, with an end, and the number of its
/// tokens or the fault.
struct Long {
    front: &'static [u8],
    back: &'static [u8],
    count: usize,
    end: &'static [u8],
    outcome: Result<usize, ScanError>,
}

const LONG: [Long; 4] = [
    Long {
        front: b"9",
        back: b"",
        count: 1_000_000,
        end: b"",
        outcome: Err(ScanError::Lex(LexFault::NumberTooLarge, 0)),
    },
    Long {
        front: b"0",
        back: b"",
        count: 1_000_000,
        end: b"7;",
        outcome: Ok(2),
    },
    Long {
        front: b"(*",
        back: b"",
        count: 524_288,
        end: b"",
        outcome: Err(ScanError::Lex(LexFault::OpenComment, 0)),
    },
    Long {
        front: b"(*",
        back: b"*)",
        count: 262_143,
        end: b" END",
        outcome: Ok(1),
    },
];

/// Puts such a source into bytes.
fn put_long(bytes: &mut Vec<u8>, row: &Long) -> Result<(), NoMemory> {
    put_copies(bytes, row.front, row.count)?;
    put_copies(bytes, row.back, row.count)?;
    put_copies(bytes, row.end, 1)
}

/// The number of tokens, or the fault.
fn outcome(alloc: Global, source: &[u8]) -> Result<usize, ScanError> {
    Ok(scan(alloc, source)?.len())
}

/// The same of such a source.
fn long_outcome(alloc: Global, row: &Long) -> Result<usize, ScanError> {
    let mut bytes = Vec::new(alloc);
    match put_long(&mut bytes, row) {
        Ok(()) => outcome(alloc, &bytes),
        Err(_error) => Err(ScanError::Memory),
    }
}

/// The first long source that is not as expected.
fn other_long(alloc: Global) -> Option<usize> {
    for (number, row) in LONG.iter().enumerate() {
        if long_outcome(alloc, row) != row.outcome {
            return Some(number);
        }
    }
    None
}

#[test]
fn long_sources(rt: HostRuntime) {
    assert_eq!(rt; other_long(rt.alloc()), None);
}

/// The text of the second of three tokens. The list of them ends here.
fn second_text(alloc: Global, source: &[u8]) -> Result<Option<&[u8]>, ScanError> {
    let tokens = scan(alloc, source)?;
    match tokens.as_slice() {
        [_, second, _] => Ok(Some(second.text)),
        _ => Ok(None),
    }
}

#[test]
fn text_outlives_the_list(rt: HostRuntime) {
    let text = second_text(rt.alloc(), b"MODULE Kept;");
    assert_eq!(rt; text, Ok(Some(b"Kept".as_slice())));
}

/// The lines and the columns of the places in a source of five bytes.
const PLACES: [(u32, u32); 6] = [(1, 1), (1, 2), (2, 1), (2, 2), (3, 1), (3, 2)];

/// The first of these places that is another.
fn other_place() -> Option<usize> {
    for (offset, want) in PLACES.iter().enumerate() {
        let found = place(b"a\n\r\nc", offset);
        if (found.line, found.column) != *want {
            return Some(offset);
        }
    }
    None
}

#[test]
fn places(rt: HostRuntime) {
    assert_eq!(rt; other_place(), None);
}
