//! Laws of the values: each function has an empty body, and its contract is the law.
ghost use Rattle.rx_meaning.specs.Laws.{NumberLaws, SignLaws};

/// A value stands for a number that its kind can hold, and each such number is that of its residue.
pub fn number_laws()
    ensures { NumberLaws }
{}

/// Sums, differences, opposites, products and shifts to the left do not depend on the sign: they are those of the
/// numbers that the arguments stand for.
pub fn sign_laws()
    ensures { SignLaws }
{}
