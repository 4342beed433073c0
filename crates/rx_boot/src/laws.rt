//! The budget of noise and the law of the bootstrap (docs/NOISE.md), as a contract can name them.
ghost use Rattle.rx_boot.specs.NoiseLaws.{BudgetLaws, LookupLaws};

/// What the acceptance of a set says of its powers of two, and that its sums are the bounds of each step of
/// a bootstrap.
pub fn budget_laws()
    ensures { BudgetLaws }
{}

/// Under every accepted set, for every secret and every server key of it, a bootstrap of a number that is held
/// within the greatest noise of an input gives the table's entry, within the noise of a bootstrap.
pub fn lookup_laws()
    ensures { LookupLaws }
{}
