//! Pair keys, and the bootstrap that turns by two bits of the small key at a time: half the turns of the plain
//! one, by a key with three encrypted products for each pair of bits. Sources are named as in
//! docs/DEFINITIONS.md.
#![tactic(auto)]

mod bits;
mod bootstrap;
mod laws;
mod pair_key;
mod polynomials;
mod scratch;
mod turns;
mod word_counts;

pub use bootstrap::pair_bootstrap_into;
pub use laws::{pair_key_laws, pair_lookup_laws};
pub use pair_key::PairKey;
pub use scratch::PairScratch;
pub use word_counts::{pair_row_words, pair_switch_words};

#[cfg(test)]
mod tests;
