// What holds of the definitions: each law is the contract of a function that does nothing.
ghost use Rattle.alma_base.specs.Finding.{ReadFinds};
ghost use Rattle.alma_base.specs.Numbers.{RoundsDown};

/// The quotient is the one rounded down: what it leaves has the divisor's sign, and is nearer to 0.
#[tactic(auto, using(crate::proofs::Rests::rounds_down))]
pub fn division_rounds_down()
    ensures { RoundsDown }
{}

/// READ on an INTEGER type passes all blanks, takes a sign, if one stands there, and all digits,
/// and finds their decimal value with that sign and the place behind them, where there is a digit
/// and the value is an INTEGER.
#[tactic(auto, using(crate::proofs::Finds::read_finds))]
pub fn read_finds()
    ensures { ReadFinds }
{}
