// Where the parser stands, and its single steps.
use crate::fault::Fault;
use alma_base::DEPTH_LIMIT;
use alma_scan::Token;
use alma_tree::{Kind, Name};

/// Where the parser stands: the tokens that are left, and the next numbers.
#[derive(Clone, Copy)]
pub struct Cursor<'t, 's> {
    pub rest: &'t [Token<'s>],
    /// The index of the next token.
    pub token: u32,
    /// The number of the next node.
    pub node: u32,
}

impl<'t, 's> Cursor<'t, 's> {
    ghost use Rattle.std.specs.Prelude.{◌≡◌, ℕ, ◌∷◌, [], MatchOption, MatchResult, true, false};
    ghost use Rattle.alma_tree.specs.declared.kind.Kind.TheVariants as kinds;
    ghost use Rattle.alma_tree.specs.Depth.{opens};
    ghost use Rattle.alma_tree.specs.Numbers.{number_name};
    ghost use Rattle.alma_grammar.specs.Parts.{one};
    ghost use Rattle.alma_parse_cursor.specs.declared.fault.Fault.TheVariants as faults;
    ghost use Rattle.alma_parse_cursor.specs.Parsing.{position_of, kinds_of, starts_with, Passes, Opens, Counts, Reads, Fails};

    /// At the first of the tokens.
    pub fn start(tokens: &'t [Token<'s>]) -> Self
        ensures start { position_of result ≡ record {
          kinds = kinds_of tokens.now;
          place = record
              { token = 0; node = 0 };
        } }
    {
        Cursor {
            rest: tokens,
            token: 0,
            node: 0,
        }
    }

    /// The kind of the next token, and what stands behind it.
    pub fn next(self) -> Option<(Kind, Self)>
        ensures passes { MatchOption result ((position_of self.entry).kinds ≡ [])
            (λ t. Passes t.0 (position_of self.entry) (position_of t.1)) }
    {
        let (first, rest) = self.rest.split_first()?;
        Some((
            first.kind,
            Cursor {
                rest,
                token: self.token.saturating_add(1),
                node: self.node,
            },
        ))
    }

    /// Whether the next token is of this kind.
    pub fn is_at(self, kind: Kind) -> bool
        ensures starts { result ≡ starts_with kind (position_of self.entry).kinds }
    {
        match self.next() {
            Some((next, _)) => next.is(kind),
            None => false,
        }
    }

    /// Behind the next token, where it is of this kind.
    pub fn skip(self, kind: Kind) -> Option<Self>
        ensures passes { MatchOption result (starts_with kind (position_of self.entry).kinds
            ≡ false) (λ after. Passes kind (position_of self.entry) (position_of after)) }
    {
        let (next, after) = self.next()?;
        if next.is(kind) { Some(after) } else { None }
    }

    /// Behind the next token, which has to be of this kind.
    pub fn expect(self, kind: Kind) -> Result<Self, Fault<'t, 's>>
        ensures passes { MatchResult result (λ after. Passes kind (position_of self.entry)
            (position_of after)) (λ e. (d : ℕ) → Fails e
            (λ o. one kind ∷ o) d (position_of self.entry)) }
    {
        match self.skip(kind) {
            Some(after) => Ok(after),
            None => Err(Fault::Unexpected(self.rest)),
        }
    }

    /// Behind the next token, which has to be this opening one, and the depth there.
    pub fn open(self, kind: Kind, depth: u32) -> Result<(Self, u32), Fault<'t, 's>>
        requires opening { opens kind ≡ true }
        ensures opened { MatchResult result (λ t. Opens kind depth t.1 (position_of self.entry)
            (position_of t.0)) (λ e. Fails e
            (λ o. one kind ∷ o) depth (position_of self.entry)) }
    {
        let after = self.expect(kind)?;
        if depth < DEPTH_LIMIT {
            Ok((after, depth + 1))
        } else {
            Err(Fault::TooDeep(self.rest))
        }
    }

    /// The number of a node that ends here.
    pub fn count(self) -> Result<(u32, Self), Fault<'t, 's>>
        ensures counted { MatchResult result (λ t. Counts t.0 (position_of self.entry)
            (position_of t.1)) (λ e. e ≡ faults.Memory) }
    {
        match self.node.checked_add(1) {
            Some(node) => Ok((
                self.node,
                Cursor {
                    rest: self.rest,
                    token: self.token,
                    node,
                },
            )),
            None => Err(Fault::Memory),
        }
    }

    /// The name that has to stand here.
    pub fn name(self) -> Result<(Name, Self), Fault<'t, 's>>
        ensures read { MatchResult result
            (λ t. (d : ℕ) → Reads (λ r. kinds.Name ∷ r) (number_name t.0)
            (λ o. one kinds.Name ∷ o) d d (position_of self.entry) (position_of t.1))
            (λ e. (d : ℕ) → Fails e (λ o. one kinds.Name ∷ o) d (position_of self.entry)) }
    {
        let after = self.expect(Kind::Name)?;
        let (node, after) = after.count()?;
        Ok((
            Name {
                node,
                token: self.token,
            },
            after,
        ))
    }
}
