// Which form of a part the next token begins.
ghost use Rattle.std.specs.Prelude.{◌≡◌, ◌∷◌, if◌then◌else◌, ℕ, MatchOption, MatchResult, Some, None};
ghost use Rattle.alma_tree.specs.Spelling.{add_kind, mul_kind, relation_kind, spell_sign, spell_mode};
ghost use Rattle.alma_tree.specs.Numbers.{number_sign, number_mode};
ghost use Rattle.alma_grammar.specs.Parts.{begins, sign_part, factor_tail, term_tail, compared_part, stmt_part, primary_part, selector_tail};
ghost use Rattle.alma_grammar.specs.Parts.{arm_part, returned_part};
ghost use Rattle.alma_grammar.specs.Parts.{mode_part, plain_part, decl_tail, expr_parts};
ghost use Rattle.alma_parse_cursor.specs.Forms.{stmt_form_parts, primary_form_parts, selector_form_parts, labelled_parts};
ghost use Rattle.alma_parse_cursor.specs.Forms.{plain_form_parts, decl_form_parts};
ghost use Rattle.alma_parse_cursor.specs.Parsing.{position_of, Passes, Becomes, Reads, Fails};

use crate::cursor::Cursor;
use crate::fault::Fault;
use alma_tree::{AddOperator, Kind, Mode, MulOperator, Relation, Sign};

/// The form of a statement.
#[derive(Clone, Copy)]
pub enum StmtForm {
    Nothing,
    /// A designator, and an assignment or the rest of an expression.
    Desig,
    /// An expression that begins with no designator.
    Value,
    If,
    While,
    Repeat,
    For,
    Some,
    Case,
    Either,
    Forall,
    Commit,
    Return,
    Read,
    Write,
    Writeln,
}

/// The form of a primary.
#[derive(Clone, Copy)]
pub enum PrimaryForm {
    Number,
    Literal,
    Desig,
    Paren,
    Known,
    Ord,
    Chr,
}

/// The form of a selector.
#[derive(Clone, Copy)]
pub enum SelectorForm {
    Field,
    Index,
}

/// The form of a type that is no array.
#[derive(Clone, Copy)]
pub enum PlainForm {
    Named,
    Listed,
    Subrange,
    Record,
}

/// The form of a declaration.
#[derive(Clone, Copy)]
pub enum DeclForm {
    Const,
    Type,
    Var,
    Procedure,
}

/// The operator between two terms.
pub fn add_operator(kind: Kind) -> Option<AddOperator>
    ensures begins { MatchOption result (begins term_tail kind ≡ None)
        (λ operator. kind ≡ add_kind operator) }
{
    match kind {
        Kind::Plus => Some(AddOperator::Plus),
        Kind::Minus => Some(AddOperator::Minus),
        Kind::Or => Some(AddOperator::Or),
        _ => None,
    }
}

/// The operator between two factors.
pub fn mul_operator(kind: Kind) -> Option<MulOperator>
    ensures begins { MatchOption result (begins factor_tail kind ≡ None)
        (λ operator. kind ≡ mul_kind operator) }
{
    match kind {
        Kind::Star => Some(MulOperator::Star),
        Kind::Div => Some(MulOperator::Div),
        Kind::Mod => Some(MulOperator::Mod),
        Kind::And => Some(MulOperator::And),
        _ => None,
    }
}

/// The relation between the two sides of an expression.
pub fn relation(kind: Kind) -> Option<Relation>
    ensures begins { MatchOption result (begins compared_part kind ≡ None)
        (λ relation. kind ≡ relation_kind relation) }
{
    match kind {
        Kind::Equal => Some(Relation::Equal),
        Kind::Unequal => Some(Relation::Unequal),
        Kind::Less => Some(Relation::Less),
        Kind::LessEq => Some(Relation::LessEq),
        Kind::Greater => Some(Relation::Greater),
        Kind::GreaterEq => Some(Relation::GreaterEq),
        _ => None,
    }
}

/// Whether an expression begins with this kind.
pub fn begins_expr(kind: Kind) -> bool
    ensures value { (ks : _) → Becomes (λ o. returned_part ∷ o)
        (λ o. if result then expr_parts o else o) (kind ∷ ks) }
    ensures arm { (ks : _) → Becomes (λ o. arm_part ∷ o)
        (λ o. if result then labelled_parts o else o) (kind ∷ ks) }
{
    match kind {
        Kind::Plus
        | Kind::Minus
        | Kind::Not
        | Kind::Number
        | Kind::Literal
        | Kind::Name
        | Kind::OpenParen
        | Kind::Known
        | Kind::Ord
        | Kind::Chr => true,
        _ => false,
    }
}

/// The form of a statement that begins with this kind.
pub fn stmt_form(kind: Kind) -> StmtForm
    ensures begins { (ks : _) → Becomes (λ o. stmt_part ∷ o) (stmt_form_parts result) (kind ∷ ks) }
{
    match kind {
        Kind::Name => StmtForm::Desig,
        Kind::If => StmtForm::If,
        Kind::While => StmtForm::While,
        Kind::Repeat => StmtForm::Repeat,
        Kind::For => StmtForm::For,
        Kind::Some => StmtForm::Some,
        Kind::Case => StmtForm::Case,
        Kind::Either => StmtForm::Either,
        Kind::Forall => StmtForm::Forall,
        Kind::Commit => StmtForm::Commit,
        Kind::Return => StmtForm::Return,
        Kind::Read => StmtForm::Read,
        Kind::Write => StmtForm::Write,
        Kind::Writeln => StmtForm::Writeln,
        Kind::Plus
        | Kind::Minus
        | Kind::Not
        | Kind::Number
        | Kind::Literal
        | Kind::OpenParen
        | Kind::Known
        | Kind::Ord
        | Kind::Chr => StmtForm::Value,
        _ => StmtForm::Nothing,
    }
}

/// The form of a primary that begins with this kind.
pub fn primary_form(kind: Kind) -> Option<PrimaryForm>
    ensures begins { MatchOption result (begins primary_part kind ≡ None)
        (λ form. (ks : _) → Becomes
        (λ o. primary_part ∷ o) (primary_form_parts form) (kind ∷ ks)) }
{
    match kind {
        Kind::Number => Some(PrimaryForm::Number),
        Kind::Literal => Some(PrimaryForm::Literal),
        Kind::Name => Some(PrimaryForm::Desig),
        Kind::OpenParen => Some(PrimaryForm::Paren),
        Kind::Known => Some(PrimaryForm::Known),
        Kind::Ord => Some(PrimaryForm::Ord),
        Kind::Chr => Some(PrimaryForm::Chr),
        _ => None,
    }
}

/// The form of a selector that begins with this kind.
pub fn selector_form(kind: Kind) -> Option<SelectorForm>
    ensures begins { MatchOption result (begins selector_tail kind ≡ None)
        (λ form. (ks : _) → Becomes (λ o. selector_tail ∷ o)
        (λ o. selector_form_parts form (selector_tail ∷ o)) (kind ∷ ks)) }
{
    match kind {
        Kind::Dot => Some(SelectorForm::Field),
        Kind::OpenBracket => Some(SelectorForm::Index),
        _ => None,
    }
}

/// The form of a type that begins with this kind and is no array.
pub fn plain_form(kind: Kind) -> Option<PlainForm>
    ensures begins { MatchOption result (begins plain_part kind ≡ None)
        (λ form. (ks : _) → Becomes (λ o. plain_part ∷ o) (plain_form_parts form) (kind ∷ ks)) }
{
    match kind {
        Kind::Name => Some(PlainForm::Named),
        Kind::OpenParen => Some(PlainForm::Listed),
        Kind::OpenBracket => Some(PlainForm::Subrange),
        Kind::Record => Some(PlainForm::Record),
        _ => None,
    }
}

/// The form of a declaration that begins with this kind.
pub fn decl_form(kind: Kind) -> Option<DeclForm>
    ensures begins { MatchOption result (begins decl_tail kind ≡ None)
        (λ form. (ks : _) → Becomes (λ o. decl_tail ∷ o) (λ o. decl_form_parts form (decl_tail ∷ o))
        (kind ∷ ks)) }
{
    match kind {
        Kind::Const => Some(DeclForm::Const),
        Kind::Type => Some(DeclForm::Type),
        Kind::Var => Some(DeclForm::Var),
        Kind::Procedure => Some(DeclForm::Procedure),
        _ => None,
    }
}

/// The sign that this kind is.
pub fn sign(kind: Kind) -> Option<Sign>
    ensures begins { MatchOption result (begins sign_part kind ≡ None)
        (λ sign. (ks : _) → spell_sign (Some sign) ks ≡ kind ∷ ks) }
{
    match kind {
        Kind::Plus => Some(Sign::Plus),
        Kind::Minus => Some(Sign::Minus),
        _ => None,
    }
}

/// The mode that this kind is.
pub fn mode(kind: Kind) -> Option<Mode>
    ensures begins { MatchOption result (begins mode_part kind ≡ None)
        (λ mode. (ks : _) → spell_mode (Some mode) ks ≡ kind ∷ ks) }
{
    match kind {
        Kind::Var => Some(Mode::Var),
        Kind::Mix => Some(Mode::Mix),
        _ => None,
    }
}

impl<'t, 's> Cursor<'t, 's> {
    /// The form of the statement that begins here.
    pub fn stmt_form(self) -> StmtForm
        ensures becomes { Becomes (λ o. stmt_part ∷ o) (stmt_form_parts result)
            (position_of self.entry).kinds }
    {
        match self.next() {
            Some((kind, _)) => stmt_form(kind),
            None => StmtForm::Nothing,
        }
    }

    /// The form of the primary that has to begin here.
    pub fn primary_form(self) -> Result<PrimaryForm, Fault<'t, 's>>
        ensures becomes { MatchResult result (λ form. Becomes (λ o. primary_part ∷ o)
            (primary_form_parts form) (position_of self.entry).kinds)
            (λ e. (d : ℕ) → Fails e (λ o. primary_part ∷ o) d (position_of self.entry)) }
    {
        match self.next() {
            Some((kind, _)) => match primary_form(kind) {
                Some(form) => Ok(form),
                None => Err(Fault::Unexpected(self.rest)),
            },
            None => Err(Fault::Unexpected(self.rest)),
        }
    }

    /// The form of the selector that begins here.
    pub fn selector_form(self) -> Option<SelectorForm>
        ensures becomes { MatchOption result (Becomes (λ o. selector_tail ∷ o) (λ o. o)
            (position_of self.entry).kinds)
            (λ form. Becomes (λ o. selector_tail ∷ o) (λ o. selector_form_parts form
            (selector_tail ∷ o)) (position_of self.entry).kinds) }
    {
        match self.next() {
            Some((kind, _)) => selector_form(kind),
            None => None,
        }
    }

    /// The form of the type that has to begin here and is no array.
    pub fn plain_form(self) -> Result<PlainForm, Fault<'t, 's>>
        ensures becomes { MatchResult result (λ form. Becomes (λ o. plain_part ∷ o)
            (plain_form_parts form) (position_of self.entry).kinds)
            (λ e. (d : ℕ) → Fails e (λ o. plain_part ∷ o) d (position_of self.entry)) }
    {
        match self.next() {
            Some((kind, _)) => match plain_form(kind) {
                Some(form) => Ok(form),
                None => Err(Fault::Unexpected(self.rest)),
            },
            None => Err(Fault::Unexpected(self.rest)),
        }
    }

    /// The form of the declaration that begins here.
    pub fn decl_form(self) -> Option<DeclForm>
        ensures becomes { MatchOption result (Becomes (λ o. decl_tail ∷ o) (λ o. o)
            (position_of self.entry).kinds)
            (λ form. Becomes (λ o. decl_tail ∷ o) (λ o. decl_form_parts form (decl_tail ∷ o))
            (position_of self.entry).kinds) }
    {
        match self.next() {
            Some((kind, _)) => decl_form(kind),
            None => None,
        }
    }

    /// Whether an expression begins here.
    pub fn begins_expr(self) -> bool
        ensures value { Becomes (λ o. returned_part ∷ o) (λ o. if result then expr_parts o else o)
            (position_of self.entry).kinds }
        ensures arm { Becomes (λ o. arm_part ∷ o) (λ o. if result then labelled_parts o else o)
            (position_of self.entry).kinds }
    {
        match self.next() {
            Some((kind, _)) => begins_expr(kind),
            None => false,
        }
    }

    /// The operator between two terms, and what stands behind it.
    pub fn add_operator(self) -> Option<(AddOperator, Self)>
        ensures passes { MatchOption result (Becomes (λ o. term_tail ∷ o) (λ o. o)
            (position_of self.entry).kinds)
            (λ t. Passes (add_kind t.0) (position_of self.entry) (position_of t.1)) }
    {
        let (kind, after) = self.next()?;
        let operator = add_operator(kind)?;
        Some((operator, after))
    }

    /// The operator between two factors, and what stands behind it.
    pub fn mul_operator(self) -> Option<(MulOperator, Self)>
        ensures passes { MatchOption result (Becomes (λ o. factor_tail ∷ o) (λ o. o)
            (position_of self.entry).kinds)
            (λ t. Passes (mul_kind t.0) (position_of self.entry) (position_of t.1)) }
    {
        let (kind, after) = self.next()?;
        let operator = mul_operator(kind)?;
        Some((operator, after))
    }

    /// The relation between the two sides of an expression, and what stands behind it.
    pub fn relation(self) -> Option<(Relation, Self)>
        ensures passes { MatchOption result (Becomes (λ o. compared_part ∷ o) (λ o. o)
            (position_of self.entry).kinds)
            (λ t. Passes (relation_kind t.0) (position_of self.entry) (position_of t.1)) }
    {
        let (kind, after) = self.next()?;
        let relation = relation(kind)?;
        Some((relation, after))
    }

    /// The sign that stands here, or none, and what stands behind it.
    pub fn sign(self) -> (Option<Sign>, Self)
        ensures read { (d : ℕ) → Reads (spell_sign result.0) (number_sign result.0)
            (λ o. sign_part ∷ o) d d (position_of self.entry) (position_of result.1) }
    {
        if let Some((kind, after)) = self.next() {
            if let Some(sign) = sign(kind) {
                return (Some(sign), after);
            }
        }
        (None, self)
    }

    /// The mode that stands here, or none, and what stands behind it.
    pub fn mode(self) -> (Option<Mode>, Self)
        ensures read { (d : ℕ) → Reads (spell_mode result.0) (number_mode result.0)
            (λ o. mode_part ∷ o) d d (position_of self.entry) (position_of result.1) }
    {
        if let Some((kind, after)) = self.next() {
            if let Some(mode) = mode(kind) {
                return (Some(mode), after);
            }
        }
        (None, self)
    }
}
