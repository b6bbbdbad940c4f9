// What one constant or type expression alone is, where memory is ample.
use alma_base::{CheckFault, SOURCE_LIMIT};
use alma_check_expr::{const_value, shape_of};
use alma_check_type::Reader;
use alma_parse::parse;
use alma_rules::CheckError;
use alma_scan::{ScanError, Token, scan};
use alma_tree::{Block, ConstEntry, Decl, TypeEntry};
use std::alloc::Global;

/// The shape and the value of a constant, the shape of a type, or the broken rule and its token.
#[derive(Clone, Copy, PartialEq, Eq)]
enum Answer {
    Constant(u32, i64),
    Type(u32),
    BrokenRule(CheckFault, usize),
    Nothing,
    Memory,
}

/// A module, and what its first declaration is where nothing but the names outside each module is
/// declared.
struct Row {
    source: &'static [u8],
    answer: Answer,
}

const ROWS: [Row; 9] = [
    Row {
        source: b"MODULE A; CONST c = 1 + 2 * 3; END A.",
        answer: Answer::Constant(0, 7),
    },
    Row {
        source: b"MODULE A; CONST c = 'a'; END A.",
        answer: Answer::Constant(1, 97),
    },
    Row {
        source: b"MODULE A; CONST c = TRUE; END A.",
        answer: Answer::Constant(2, 1),
    },
    Row {
        source: b"MODULE A; CONST c = 1 + d; END A.",
        answer: Answer::BrokenRule(CheckFault::Undeclared, 8),
    },
    Row {
        source: b"MODULE A; CONST c = 7 DIV 0; END A.",
        answer: Answer::BrokenRule(CheckFault::ConstRange, 6),
    },
    Row {
        source: b"MODULE A; TYPE T = CHAR; END A.",
        answer: Answer::Type(1),
    },
    Row {
        source: b"MODULE A; TYPE T = ARRAY [1 .. 9] OF CHAR; END A.",
        answer: Answer::Type(4),
    },
    Row {
        source: b"MODULE A; TYPE T = RECORD a : INTEGER; b : U END; END A.",
        answer: Answer::BrokenRule(CheckFault::Undeclared, 13),
    },
    Row {
        source: b"MODULE A; TYPE T = [9 .. 1]; END A.",
        answer: Answer::BrokenRule(CheckFault::ConstRange, 6),
    },
];

fn broken(error: CheckError) -> Answer {
    match error {
        CheckError::Fault(fault, _, token) => Answer::BrokenRule(fault, token),
        CheckError::Memory => Answer::Memory,
    }
}

/// What a constant is; its expression begins two tokens behind its name.
fn constant(alloc: Global, reader: &Reader<'_, '_>, entry: &ConstEntry) -> Answer {
    let at = entry.name.token.saturating_add(2);
    match const_value(alloc, reader, &entry.value, at) {
        Ok(Some((shape, value))) => Answer::Constant(shape.0, value),
        Ok(None) => Answer::Nothing,
        Err(error) => broken(error),
    }
}

/// What a type is; its expression begins two tokens behind its name.
fn named_type(alloc: Global, reader: &mut Reader<'_, '_>, entry: &TypeEntry) -> Answer {
    let at = entry.name.token.saturating_add(2);
    match shape_of(alloc, reader, &entry.type_node, at) {
        Ok(Some(shape)) => Answer::Type(shape.0),
        Ok(None) => Answer::Nothing,
        Err(error) => broken(error),
    }
}

/// What a declaration declares first.
fn declared(alloc: Global, reader: &mut Reader<'_, '_>, decl: &Decl) -> Answer {
    match decl {
        Decl::Const { entries, .. } => match entries.first() {
            Some(entry) => constant(alloc, reader, entry),
            None => Answer::Nothing,
        },
        Decl::Type { entries, .. } => match entries.first() {
            Some(entry) => named_type(alloc, reader, entry),
            None => Answer::Nothing,
        },
        _ => Answer::Nothing,
    }
}

/// What the first declaration of a block is.
fn first_of(alloc: Global, reader: &mut Reader<'_, '_>, block: &Block) -> Answer {
    match block.decls.first() {
        Some(decl) => declared(alloc, reader, decl),
        None => Answer::Nothing,
    }
}

/// What stands first in a block of these tokens.
fn read_first(alloc: Global, source: &[u8], tokens: &[Token<'_>], block: &Block) -> Answer {
    match Reader::new(alloc, source, tokens, 0) {
        Ok(mut reader) => first_of(alloc, &mut reader, block),
        Err(_) => Answer::Memory,
    }
}

/// What stands first in a module of these tokens.
fn parse_first(alloc: Global, source: &[u8], tokens: &[Token<'_>]) -> Answer {
    if tokens.len() > SOURCE_LIMIT {
        return Answer::Memory;
    }
    match parse(alloc, tokens) {
        Ok(module) => read_first(alloc, source, tokens, &module.block),
        Err(_) => Answer::Nothing,
    }
}

fn what_stands_in(alloc: Global, source: &[u8]) -> Result<Answer, ScanError> {
    let tokens = scan(alloc, source)?;
    Ok(parse_first(alloc, source, &tokens))
}

/// The first row that is answered otherwise.
fn other_row(alloc: Global) -> Option<usize> {
    for (number, row) in ROWS.iter().enumerate() {
        if what_stands_in(alloc, row.source) != Ok(row.answer) {
            return Some(number);
        }
    }
    None
}

#[test]
fn phrases_alone(rt: HostRuntime) {
    assert_eq!(rt; other_row(rt.alloc()), None);
}
