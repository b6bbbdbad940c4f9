// What the parser makes of sources: a tree, or the first token at which no program goes on.
ghost use Rattle.std.specs.Prelude.{◌<◌, length};

use crate::scan::put_copies;
use alma_base::{NoMemory, SOURCE_LIMIT, SyntaxFault};
use alma_parse::{ParseError, parse};
use alma_scan::{ScanError, Token, scan};
use std::alloc::Global;

/// A program with every form of the grammar.
const EVERY: &[u8] = b"MODULE Every;
CONST low = 1; letter = 'x';
TYPE Day = (mon, tue); Span = [low .. 9]; Grid = ARRAY Span, Day OF ARRAY Day OF INTEGER;
  Both = RECORD a, b : INTEGER; ; c : RECORD d : Day END END;
VAR x, y : INTEGER; g : Grid;
PROCEDURE Empty; END Empty;
PROCEDURE Sum (VAR a, b : INTEGER; MIX c : INTEGER; d : Day) : INTEGER;
  CONST TYPE VAR one : INTEGER;
BEGIN RETURN -a + b * c DIV 2 MOD 3 - d END Sum;
PROCEDURE None (); BEGIN RETURN END None;
BEGIN
  x := +1; g[1, mon].a := x; Sum(x, y, 3, mon); ;
  x = y; x AND NOT (x; y) OR TRUE; -x # y;
  IF x < 1 THEN y := 2 ELSIF x <= 2 THEN ELSIF x # 3 THEN x := 3 ELSE y := 3 END;
  WHILE x > 0 DO x := x - 1 END; REPEAT x := x + 1 UNTIL x >= 9;
  FOR x := 1 TO 9 BY 2 DO y := x END; FOR x := 1 TO 9 DO END; SOME x := 1 TO 9 DO END;
  CASE x OF 1, 2 .. 3 : y := 1; x := 2 | 'a' : | ELSE END; CASE x OF END;
  EITHER x = 1 ORELSE x = 2 ORELSE END; FORALL x = 1 DO y = 1 END; COMMIT x = 1 END;
  READ(x, g[1, 2].a); WRITE(1, 'a', x); WRITELN; WRITELN(); WRITELN(1, x);
  KNOWN(x); ORD(letter) = 1; CHR(65); f()
END Every.";

/// A source, and what the parser answers: its fault and the token, or nothing where it is a
/// program.
struct Row {
    source: &'static [u8],
    answer: Result<(), ParseError>,
}

const ROWS: [Row; 12] = [
    Row {
        source: EVERY,
        answer: Ok(()),
    },
    Row {
        source: b"MODULE A; END A.",
        answer: Ok(()),
    },
    Row {
        source: b"",
        answer: Err(ParseError::Syntax(SyntaxFault::Unexpected, 0)),
    },
    Row {
        source: b"MODULE A; BEGIN WRITE(",
        answer: Err(ParseError::Syntax(SyntaxFault::Unexpected, 6)),
    },
    Row {
        source: b"MODULE A; BEGIN x := END A.",
        answer: Err(ParseError::Syntax(SyntaxFault::Unexpected, 6)),
    },
    Row {
        source: b"MODULE A; BEGIN x = y = z END A.",
        answer: Err(ParseError::Syntax(SyntaxFault::Unexpected, 7)),
    },
    Row {
        source: b"MODULE A; BEGIN NOT NOT TRUE END A.",
        answer: Err(ParseError::Syntax(SyntaxFault::Unexpected, 5)),
    },
    Row {
        source: b"MODULE A; END A. B",
        answer: Err(ParseError::Syntax(SyntaxFault::Unexpected, 6)),
    },
    Row {
        source: b"MODULE A; END .",
        answer: Err(ParseError::Syntax(SyntaxFault::Unexpected, 4)),
    },
    Row {
        source: b"MODULE A; PROCEDURE P; END; END A.",
        answer: Err(ParseError::Syntax(SyntaxFault::Unexpected, 7)),
    },
    Row {
        source: b"MODULE A; END A..",
        answer: Err(ParseError::Syntax(SyntaxFault::Unexpected, 5)),
    },
    Row {
        source: b"MODULE A; END A",
        answer: Err(ParseError::Syntax(SyntaxFault::Unexpected, 5)),
    },
];

/// What the parser answers, but for the tree.
fn answer(alloc: Global, tokens: &[Token<'_>]) -> Result<(), ParseError> {
    if tokens.len() > SOURCE_LIMIT {
        return Err(ParseError::Memory);
    }
    match parse(alloc, tokens) {
        Ok(_module) => Ok(()),
        Err(error) => Err(error),
    }
}

/// The same of a source, where it has tokens.
fn answer_to(alloc: Global, source: &[u8]) -> Option<Result<(), ParseError>> {
    match scan(alloc, source) {
        Ok(tokens) => Some(answer(alloc, &tokens)),
        Err(_error) => None,
    }
}

/// The first row that is answered otherwise.
fn other_row(alloc: Global) -> Option<usize> {
    for (number, row) in ROWS.iter().enumerate() {
        if answer_to(alloc, row.source) != Some(row.answer) {
            return Some(number);
        }
    }
    None
}

#[test]
fn sources(rt: HostRuntime) {
    assert_eq!(rt; other_row(rt.alloc()), None);
}

/// Puts a module whose body is a number in so many parentheses into bytes.
fn put_nested(source: &mut Vec<u8>, depth: usize) -> Result<(), NoMemory> {
    put_copies(source, b"MODULE A; BEGIN ", 1)?;
    put_copies(source, b"(", depth)?;
    put_copies(source, b"1", 1)?;
    put_copies(source, b")", depth)?;
    put_copies(source, b" END A.", 1)
}

/// What the parser answers to such a module.
fn answer_to_nested(alloc: Global, depth: usize) -> Option<Result<(), ParseError>> {
    let mut source = Vec::new(alloc);
    match put_nested(&mut source, depth) {
        Ok(()) => answer_to(alloc, &source),
        Err(_error) => None,
    }
}

#[test]
fn depths(rt: HostRuntime) {
    let found = [
        answer_to_nested(rt.alloc(), 99),
        answer_to_nested(rt.alloc(), 100),
    ];
    let too_deep = Err(ParseError::Syntax(SyntaxFault::TooDeep, 103));
    assert_eq!(rt; found, [Some(Ok(())), Some(too_deep)]);
}

/// Tokens, and others behind them.
fn joined<'s>(
    alloc: Global,
    front: &[Token<'s>],
    back: &[Token<'s>],
) -> Result<Vec<Token<'s>>, NoMemory> {
    let mut tokens = Vec::from_slice(alloc, front)?;
    tokens.extend_from_slice(back)?;
    Ok(tokens)
}

/// Whether so many tokens are a program, or are refused no earlier than here.
fn is_no_earlier(answer: Result<(), ParseError>, place: usize, count: usize) -> bool {
    match answer {
        Ok(()) => true,
        Err(ParseError::Syntax(_, refused)) => place <= refused && refused <= count,
        Err(_memory) => false,
    }
}

/// Whether tokens with others behind them are a program, or are refused no earlier than here.
fn is_refused_behind(alloc: Global, front: &[Token<'_>], back: &[Token<'_>], place: usize) -> bool {
    match joined(alloc, front, back) {
        Ok(tokens) => is_no_earlier(answer(alloc, &tokens), place, tokens.len()),
        Err(_error) => false,
    }
}

/// The same of tokens without the one at this place, and with two of it.
fn are_refused_behind(alloc: Global, tokens: &[Token<'_>], place: usize) -> bool
    requires { place < length tokens.now }
{
    is_refused_behind(alloc, &tokens[..place], &tokens[place + 1..], place)
        && is_refused_behind(alloc, &tokens[..place + 1], &tokens[place..], place)
}

/// The first place where one token less, or one more, is refused earlier.
fn early_refusal(alloc: Global, tokens: &[Token<'_>]) -> Option<usize> {
    for place in 0..tokens.len() {
        if !are_refused_behind(alloc, tokens, place) {
            return Some(place);
        }
    }
    None
}

/// The same of the tokens of a source.
fn early_refusal_in(alloc: Global, source: &[u8]) -> Result<Option<usize>, ScanError> {
    let tokens = scan(alloc, source)?;
    Ok(early_refusal(alloc, &tokens))
}

#[test]
fn changed_tokens(rt: HostRuntime) {
    assert_eq!(rt; early_refusal_in(rt.alloc(), EVERY), Ok(None));
}
