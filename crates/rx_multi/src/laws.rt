//! The laws of pair keys and of the bootstrap by pairs (docs/NOISE.md), as a contract can name them.
ghost use Rattle.rx_multi.specs.Laws.{PairKeyLaws, PairLookupLaws};

/// The pair key of a client's seed is one of the secret that the seed makes, and has the sizes of its set.
pub fn pair_key_laws()
    ensures { PairKeyLaws }
{}

/// Under every set that is accepted for pairs, for every secret and every pair key of it, a bootstrap by pairs
/// of a number that is held within the greatest noise of an input gives the table's entry, within the noise of
/// such a bootstrap.
pub fn pair_lookup_laws()
    ensures { PairLookupLaws }
{}
