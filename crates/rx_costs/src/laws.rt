//! Laws of the definitions: each function has an empty body, and its contract is the law.
ghost use Rattle.rx_costs.specs.Laws.{LogLaws, RoundLaws};

/// A logarithm rounded up is the one least exponent whose power of the base is the number or more.
pub fn log_laws()
    ensures { LogLaws }
{}

/// How many groups hold some terms, and the rounds that bring them down to two.
pub fn round_laws()
    ensures { RoundLaws }
{}
