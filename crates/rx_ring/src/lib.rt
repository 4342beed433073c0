//! Polynomials modulo `X^n + 1`, ciphertexts over them and the blind rotation, over whole numbers. The
//! definitions stand in `specs/`. The code here only states their laws, which are the steps of
//! docs/NOISE.md, The proof: each function has an empty body, and its contract is the law.
#![tactic(auto)]

ghost use Rattle.rx_ring.specs.Laws.{ProductLaws, LinearLaws, GlweLaws, ExtractionLaws, ExternalProductLaws, TurnLaws};
ghost use Rattle.rx_ring.specs.BootstrapLaws.{CombinationLaws, KeySwitchLaws, ModulusSwitchLaws, AccumulatorLaws, BootstrapLaws};
ghost use Rattle.rx_ring.specs.PairLaws.{PairTurnLaws, PairBootstrapLaws};
ghost use Rattle.rx_ring.specs.BlockLaws.{BlockLaws, PointLaws, RecoveryLaws};

/// The product of polynomials of n coefficients is linear in each argument, commutative and associative,
/// and a turn passes through it. A turn by t is the product by `X^t`, for every t. Turns add, a turn by 2n is
/// nothing, and the greatest distance of the coefficients is the same after a turn.
pub fn product_laws()
    ensures { ProductLaws }
{}

/// The plain product of two polynomials of 2h coefficients comes from three of h, and the product modulo
/// `X^n + 1` is a plain one folded. Modulo 2^64 both depend on the words alone.
pub fn linear_laws()
    ensures { LinearLaws }
{}

/// A ciphertext that hides a polynomial has that polynomial, and its noise, as its phase, coefficient by
/// coefficient, and rows of such ciphertexts encrypt a bit, within a bound of all their noises.
pub fn glwe_laws()
    ensures { GlweLaws }
{}

/// Coefficient 0 keeps its phase when it is extracted as a ciphertext over words.
pub fn extraction_laws()
    ensures { ExtractionLaws }
{}

/// The external product with an encrypted bit has a phase within `external_bound` of the bit times the
/// phase. The digits of a word are at most `2^(base_log - 1)` in size, and what they stand for is within
/// `2^(63 - base_log * levels)` of the word.
pub fn external_product_laws()
    ensures { ExternalProductLaws }
{}

/// A turn by an encrypted bit turns the phase by its amount where the bit is 1, within `turn_bound`, and all
/// d turns together turn it by what the bits have chosen, within d times that.
pub fn turn_laws()
    ensures { TurnLaws }
{}

/// A weighted sum of ciphertexts is near the weighted sum of what they stand for: each noise counts as often
/// as the size of its weight says.
pub fn combination_laws()
    ensures { CombinationLaws }
{}

/// A ciphertext that is switched to another key has the same phase there, within `switch_bound`.
pub fn key_switch_laws()
    ensures { KeySwitchLaws }
{}

/// A mark is at most half the distance of two marks from its word, and the phase of the marks of d + 1 words
/// at most d + 1 times as far from the phase of the words.
pub fn modulus_switch_laws()
    ensures { ModulusSwitchLaws }
{}

/// An accumulator that is turned back by a step of one of its boxes begins with the entry of that box, the
/// half box below step 0 included.
pub fn accumulator_laws()
    ensures { AccumulatorLaws }
{}

/// The bootstrap of a ciphertext whose phase is near a number gives one whose phase is near that number's
/// entry in the table, with a noise that does not depend on the first: `turn_bound` for each bit of the
/// small key.
pub fn bootstrap_laws()
    ensures { BootstrapLaws }
{}

/// For the two bits of a pair, 1 and what three products of the bits change is one turn by what the bits have
/// chosen. So the external product by the rows of a pair turns the phase by that, within `turn_bound` of rows of
/// six times the noise, and the turns by all pairs together turn it by what all bits have chosen.
pub fn pair_turn_laws()
    ensures { PairTurnLaws }
{}

/// The bootstrap by pairs looks its number up as `bootstrap_laws` says, with `turn_bound` of rows of six times
/// the noise for each pair of bits.
pub fn pair_bootstrap_laws()
    ensures { PairBootstrapLaws }
{}

/// A level down takes a product modulo `Z^2h - Y^2s` to the products modulo `Z^h - Y^s` and `Z^h + Y^s`, and
/// a level up after it doubles. So products at the points of both start nodes, and all levels up, give
/// `2^(d + 1)` times the product of polynomials of `2^d r` coefficients.
pub fn block_laws()
    ensures { BlockLaws }
{}

/// Each level down or up at most doubles the coefficients, the last step up makes them at most four times as
/// great, and all of it is linear.
pub fn point_laws()
    ensures { PointLaws }
{}

/// Products at the points that are right modulo `2^69`, in a low part that is exact and a high part, give
/// the sum of the products of polynomials modulo `2^64`, and the low part stays below `2^63`.
pub fn recovery_laws()
    ensures { RecoveryLaws }
{}
