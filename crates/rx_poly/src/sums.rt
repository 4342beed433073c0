//! Sums of polynomials, and of their multiples.
ghost use Rattle.std.specs.Prelude.{◌≡◌, pos, neg_ℤ, ◌+ℤ◌, ◌-ℤ◌, ◌*ℤ◌, ◌+◌, ◌<◌, length};
ghost use Rattle.rx_laws.specs.Words.{AreWords, of_words, of_numbers};
ghost use Rattle.rx_poly.specs.Turns.{convolved};

use crate::lanes::{LANES, add_vectors, negate_vectors, subtract_vectors};

/// Adds `other` to `acc`, of the same length, coefficient by coefficient, modulo 2^64.
pub fn add_assign(acc: &mut [u64], other: &[u64])
    requires { length other.now ≡ length acc.old }
    ensures { AreWords (length acc.old) (λ i. of_words acc.old i +ℤ of_words other.now i) acc.new }
{
    add_vectors(acc, other);
    for i in LANES * (acc.len() / LANES)..acc.len() {
        acc[i] = acc[i].wrapping_add(other[i]);
    }
}

/// Takes `other` from `acc`, of the same length, coefficient by coefficient, modulo 2^64.
pub(crate) fn subtract_assign(acc: &mut [u64], other: &[u64])
    requires { length other.now ≡ length acc.old }
    ensures { AreWords (length acc.old) (λ i. of_words acc.old i -ℤ of_words other.now i) acc.new }
{
    subtract_vectors(acc, other);
    for i in LANES * (acc.len() / LANES)..acc.len() {
        acc[i] = acc[i].wrapping_sub(other[i]);
    }
}

/// Writes `words` with their signs turned into `out`, which has the same length, modulo 2^64.
pub(crate) fn negate_into(out: &mut [u64], words: &[u64])
    requires { length words.now ≡ length out.old }
    ensures { AreWords (length out.old) (λ i. neg_ℤ (of_words words.now i)) out.new }
{
    negate_vectors(out, words);
    for i in LANES * (out.len() / LANES)..out.len() {
        out[i] = words[i].wrapping_neg();
    }
}

/// Adds the convolution of the digits with `words` to `acc`, modulo 2^64: the last digit meets the first
/// words, and each earlier one begins one place later. So there is one word fewer than coefficients and digits.
pub(crate) fn add_terms(acc: &mut [u64], digits: &[i64], words: &[u64])
    requires some { 0 < length digits.now }
    requires all { length words.now + 1 ≡ length acc.old + length digits.now }
    ensures { AreWords
        (length acc.old)
        (λ i. of_words acc.old i +ℤ convolved (length digits.now) (of_numbers digits.now)
        (of_words words.now) i)
        acc.new }
{
    let n = acc.len();
    let count = digits.len();
    if count == 4 {
        add_four_terms(acc, digits, words);
    } else {
        for k in 0..count {
            let start = count - 1 - k;
            add_multiple(acc, digits[k].cast_unsigned(), &words[start..start + n]);
        }
    }
}

/// The same for four digits, in one pass that reads each word once. Its loop keeps every number in a register
/// as long as it is not inlined.
#[inline(never)]
fn add_four_terms(acc: &mut [u64], digits: &[i64], words: &[u64])
    requires four { length digits.now ≡ 4 }
    requires all { length words.now ≡ length acc.old + 3 }
    ensures { AreWords
        (length acc.old)
        (λ i. of_words acc.old i +ℤ convolved 4 (of_numbers digits.now) (of_words words.now) i)
        acc.new }
{
    let first = digits[0].cast_unsigned();
    let second = digits[1].cast_unsigned();
    let third = digits[2].cast_unsigned();
    let fourth = digits[3].cast_unsigned();
    let mut low = words[0];
    let mut middle = words[1];
    let mut high = words[2];
    for i in 0..acc.len() {
        let next = words[i + 3];
        acc[i] = acc[i]
            .wrapping_add(first.wrapping_mul(next))
            .wrapping_add(second.wrapping_mul(high))
            .wrapping_add(third.wrapping_mul(middle))
            .wrapping_add(fourth.wrapping_mul(low));
        low = middle;
        middle = high;
        high = next;
    }
}

/// Adds `factor` times `other` to `acc`, coefficient by coefficient, modulo 2^64.
pub(crate) fn add_multiple(acc: &mut [u64], factor: u64, other: &[u64])
    requires { length other.now ≡ length acc.old }
    ensures { AreWords
        (length acc.old)
        (λ i. of_words acc.old i +ℤ pos factor *ℤ of_words other.now i)
        acc.new }
{
    for i in 0..acc.len() {
        acc[i] = acc[i].wrapping_add(factor.wrapping_mul(other[i]));
    }
}
