// One kind after another, what is spelled so far, and the kinds of operators.
ghost use Rattle.std.specs.Prelude.{◌≡◌, ◌∷◌, false, OnOk};
ghost use Rattle.alma_spell.specs.Pushed.{Pushes, Puts};
ghost use Rattle.alma_tree.specs.Spelling as spells;

use alma_base::NoMemory;
use alma_tree::{AddOperator, Kind, MulOperator, Relation, Sign};

/// Appends one kind.
pub fn push(kind: Kind, out: &mut Vec<Kind>) -> Result<(), NoMemory>
    ensures pushed { OnOk result (Pushes out.old.items out.new.items (λ rest. kind ∷ rest)) }
{
    out.push(kind)?;
    Ok(())
}

// What is spelled so far. Where memory ran out nothing more is put behind it, so that the walk need
// not look.
#[derive(Drop)]
pub(crate) struct Spelled {
    kinds: Vec<Kind>,
    full: bool,
}

impl Spelled {
    // Goes on behind what a list holds, which is taken out of it until `finish`.
    pub(crate) fn behind(out: &mut Vec<Kind>) -> Spelled
        ensures kinds { result.kinds.items ≡ out.old.items }
        ensures room { result.full ≡ false }
    {
        let alloc = *out.allocator();
        Spelled {
            kinds: std::mem::replace(out, Vec::new(alloc)),
            full: false,
        }
    }

    // One kind behind the others.
    pub(crate) fn put(&mut self, kind: Kind)
        ensures { Puts self.old self.new (λ rest. kind ∷ rest) }
    {
        if !self.full {
            self.full = push(kind, &mut self.kinds).is_err();
        }
    }

    // Gives all kinds to the list, and says whether memory ran out.
    pub(crate) fn finish(self, out: &mut Vec<Kind>) -> Result<(), NoMemory>
        ensures kinds { out.new.items ≡ self.kinds.items }
        ensures room { OnOk result (self.full ≡ false) }
    {
        *out = self.kinds;
        if self.full {
            return Err(NoMemory);
        }
        Ok(())
    }
}

// The kind of the token of a relation.
pub(crate) fn relation_kind(relation: Relation) -> Kind
    ensures same { result ≡ spells.relation_kind relation }
{
    match relation {
        Relation::Equal => Kind::Equal,
        Relation::Unequal => Kind::Unequal,
        Relation::Less => Kind::Less,
        Relation::LessEq => Kind::LessEq,
        Relation::Greater => Kind::Greater,
        Relation::GreaterEq => Kind::GreaterEq,
    }
}

// The kind of the token of an operator between terms.
pub(crate) fn add_kind(operator: AddOperator) -> Kind
    ensures same { result ≡ spells.add_kind operator }
{
    match operator {
        AddOperator::Plus => Kind::Plus,
        AddOperator::Minus => Kind::Minus,
        AddOperator::Or => Kind::Or,
    }
}

// The kind of the token of an operator between factors.
pub(crate) fn mul_kind(operator: MulOperator) -> Kind
    ensures same { result ≡ spells.mul_kind operator }
{
    match operator {
        MulOperator::Star => Kind::Star,
        MulOperator::Div => Kind::Div,
        MulOperator::Mod => Kind::Mod,
        MulOperator::And => Kind::And,
    }
}

// Puts the kind of a sign, if there is one.
pub(crate) fn put_sign(sign: Option<Sign>, out: &mut Spelled)
    ensures { Puts out.old out.new (spells.spell_sign sign) }
{
    match sign {
        None => {}
        Some(Sign::Plus) => out.put(Kind::Plus),
        Some(Sign::Minus) => out.put(Kind::Minus),
    }
}
