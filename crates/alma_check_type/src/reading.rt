// What is read of a phrase.
ghost use Rattle.std.specs.Prelude.{◌≡◌};
ghost use Rattle.alma_check_type.specs.Told.{earlier, fault_of};

use alma_base::CheckFault;

/// A rule that is broken at a node.
#[derive(Clone, Copy)]
pub struct BrokenRule {
    pub node: u32,
    pub fault: CheckFault,
}

/// The first broken rule of a phrase, and its value, which is None where it is Bad.
#[derive(Drop)]
pub struct Reading<T> {
    pub fault: Option<BrokenRule>,
    pub value: Option<T>,
}

/// A shape of the table by its number, or one past a limit, which is in no table.
#[derive(Clone, Copy)]
pub enum ShapeOrLimit {
    Shape(u32),
    TooLarge,
}

/// A constant: the number of its shape, and its value.
#[derive(Clone, Copy)]
pub struct Bound {
    pub shape: u32,
    pub constant: Option<i64>,
}

/// Of two broken rules the earlier one.
pub fn earlier(first: Option<BrokenRule>, second: Option<BrokenRule>) -> Option<BrokenRule>
    ensures { fault_of result ≡ earlier (fault_of first) (fault_of second) }
{
    match first {
        Some(broken) => Some(broken),
        None => second,
    }
}
