// The texts that are spelled in one way.
ghost use Rattle.std.specs.Prelude.{◌≡◌};
ghost use Rattle.alma_scan.specs.Spellings.{look_up, symbols, reserved_words};
ghost use Rattle.alma_scan.specs.Inner.Tables.{entries};

use alma_tree::Kind;

/// A text that is spelled in one way, and its kind.
type Spelling = (&'static [u8], Kind);

// Each symbol.
const SYMBOLS: [Spelling; 21] = [
    (b";", Kind::Semicolon),
    (b",", Kind::Comma),
    (b".", Kind::Dot),
    (b"..", Kind::DotDot),
    (b":", Kind::Colon),
    (b":=", Kind::Assign),
    (b"(", Kind::OpenParen),
    (b")", Kind::CloseParen),
    (b"[", Kind::OpenBracket),
    (b"]", Kind::CloseBracket),
    (b"=", Kind::Equal),
    (b"#", Kind::Unequal),
    (b"<>", Kind::Unequal),
    (b"<", Kind::Less),
    (b"<=", Kind::LessEq),
    (b">", Kind::Greater),
    (b">=", Kind::GreaterEq),
    (b"+", Kind::Plus),
    (b"-", Kind::Minus),
    (b"*", Kind::Star),
    (b"|", Kind::Bar),
];

// Each reserved word.
const RESERVED_WORDS: [Spelling; 40] = [
    (b"AND", Kind::And),
    (b"ARRAY", Kind::Array),
    (b"BEGIN", Kind::Begin),
    (b"BY", Kind::By),
    (b"CASE", Kind::Case),
    (b"CHR", Kind::Chr),
    (b"COMMIT", Kind::Commit),
    (b"CONST", Kind::Const),
    (b"DIV", Kind::Div),
    (b"DO", Kind::Do),
    (b"EITHER", Kind::Either),
    (b"ELSE", Kind::Else),
    (b"ELSIF", Kind::Elsif),
    (b"END", Kind::End),
    (b"FOR", Kind::For),
    (b"FORALL", Kind::Forall),
    (b"IF", Kind::If),
    (b"KNOWN", Kind::Known),
    (b"MIX", Kind::Mix),
    (b"MOD", Kind::Mod),
    (b"MODULE", Kind::Module),
    (b"NOT", Kind::Not),
    (b"OF", Kind::Of),
    (b"OR", Kind::Or),
    (b"ORD", Kind::Ord),
    (b"ORELSE", Kind::Orelse),
    (b"PROCEDURE", Kind::Procedure),
    (b"READ", Kind::Read),
    (b"RECORD", Kind::Record),
    (b"REPEAT", Kind::Repeat),
    (b"RETURN", Kind::Return),
    (b"SOME", Kind::Some),
    (b"THEN", Kind::Then),
    (b"TO", Kind::To),
    (b"TYPE", Kind::Type),
    (b"UNTIL", Kind::Until),
    (b"VAR", Kind::Var),
    (b"WHILE", Kind::While),
    (b"WRITE", Kind::Write),
    (b"WRITELN", Kind::Writeln),
];

fn find(table: &[Spelling], text: &[u8]) -> Option<Kind>
    ensures { result ≡ look_up (entries table.now) text.now }
{
    for (spelling, kind) in table {
        if *spelling == text {
            return Some(*kind);
        }
    }
    None
}

/// The kind of a symbol; None for any other text.
pub fn symbol_kind(text: &[u8]) -> Option<Kind>
    ensures { result ≡ look_up symbols text.now }
{
    find(&SYMBOLS, text)
}

/// The kind of a reserved word, which is in capitals; None for any other text.
pub fn reserved_kind(text: &[u8]) -> Option<Kind>
    ensures { result ≡ look_up reserved_words text.now }
{
    find(&RESERVED_WORDS, text)
}
