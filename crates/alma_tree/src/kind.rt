// The kinds of tokens.
ghost use Rattle.std.specs.Prelude.{◌≡◌, nat_eq};
ghost use Rattle.alma_tree.specs.Kinds.{code};
ghost use Rattle.alma_tree.specs.Depth as brackets;

/// The kind of a token: a name, a number, a literal, a symbol or a reserved word.
#[derive(Clone, Copy, Debug, PartialEq, Eq)]
pub enum Kind {
    /// A letter or `_`, then letters, digits and `_`, and no reserved word.
    Name,
    /// One or more digits.
    Number,
    /// Bytes between two quotes of one sort.
    Literal,
    /// `;`
    Semicolon,
    /// `,`
    Comma,
    /// `.`
    Dot,
    /// `..`
    DotDot,
    /// `:`
    Colon,
    /// `:=`
    Assign,
    /// `(`
    OpenParen,
    /// `)`
    CloseParen,
    /// `[`
    OpenBracket,
    /// `]`
    CloseBracket,
    /// `=`
    Equal,
    /// `#` or `<>`
    Unequal,
    /// `<`
    Less,
    /// `<=`
    LessEq,
    /// `>`
    Greater,
    /// `>=`
    GreaterEq,
    /// `+`
    Plus,
    /// `-`
    Minus,
    /// `*`
    Star,
    /// `|`
    Bar,
    And,
    Array,
    Begin,
    By,
    Case,
    Chr,
    Commit,
    Const,
    Div,
    Do,
    Either,
    Else,
    Elsif,
    End,
    For,
    Forall,
    If,
    Known,
    Mix,
    Mod,
    Module,
    Not,
    Of,
    Or,
    Ord,
    Orelse,
    Procedure,
    Read,
    Record,
    Repeat,
    Return,
    Some,
    Then,
    To,
    Type,
    Until,
    Var,
    While,
    Write,
    Writeln,
}

impl Kind {
    /// Whether the two are one kind.
    pub fn is(self, other: Kind) -> bool
        ensures same_code { result ≡ nat_eq (code self) (code other) }
    {
        self as u8 == other as u8
    }

    /// Whether the token opens a bracket.
    pub fn opens(self) -> bool
        ensures same { result ≡ brackets.opens self }
    {
        matches!(
            self,
            Kind::OpenParen
                | Kind::OpenBracket
                | Kind::Module
                | Kind::Procedure
                | Kind::Record
                | Kind::If
                | Kind::While
                | Kind::Repeat
                | Kind::For
                | Kind::Case
                | Kind::Either
                | Kind::Some
                | Kind::Forall
                | Kind::Commit
        )
    }

    /// Whether the token closes one.
    pub fn closes(self) -> bool
        ensures same { result ≡ brackets.closes self }
    {
        matches!(
            self,
            Kind::CloseParen | Kind::CloseBracket | Kind::End | Kind::Until
        )
    }
}
