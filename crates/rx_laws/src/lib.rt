//! The definitions that the library stands on, over whole numbers: finite sums, words of the torus and
//! their distance, signed digits, phases of ciphertexts and what a phase decodes to. They stand in
//! `specs/`. The code here only states their laws: each function has an empty body, and its contract is
//! the law. Sources are named as in docs/DEFINITIONS.md.
#![tactic(auto)]

ghost use Rattle.rx_laws.specs.Laws.{DistanceLaws, DigitLaws, LweLaws, DecodeLaws};

/// The distance of a number on the torus (CJP, torus) is its least size over all whole turns of 2^64.
pub fn distance_laws()
    ensures { DistanceLaws }
{}

/// A word has exactly one list of signed digits (CJP, gadget decomposition), the one that `digit` computes. A
/// digit has at least one bit, and all digits together at most 63.
pub fn digit_laws()
    ensures { DigitLaws }
{}

/// A ciphertext that hides a number (CJP, LWE) has that number, and its noise, as its phase; the phase of its
/// words, modulo 2^64, is no farther from the number than the size of the noise.
pub fn lwe_laws()
    ensures { LweLaws }
{}

/// A phase nearer than half a unit, which the TFHE-rs handbook calls delta (shortint), to that of a number
/// decodes to it. There are 2 or 3 message bits, and the number is below twice `4^message_bits`.
pub fn decode_laws()
    ensures { DecodeLaws }
{}
