//! Sums and differences of words by whole vectors. The words that no vector has, fewer than four at the end,
//! are the caller's.
ghost use Rattle.std.specs.Prelude.{◌≡◌, neg_ℤ, ◌+ℤ◌, ◌-ℤ◌, ◌+◌, ◌*◌, ◌/◌, length};
ghost use Rattle.rx_laws.specs.Words.{of_words};
ghost use Rattle.rx_poly.specs.Writes.{WrittenTo};

use std::simd::prelude::*;

/// A vector has so many words.
pub(crate) const LANES: usize = 4;

/// Adds `other` to `acc`.
pub(crate) fn add_vectors(acc: &mut [u64], other: &[u64])
    requires { length other.now ≡ length acc.old }
    ensures { WrittenTo
        (4 * (length acc.old / 4))
        (λ i. of_words acc.old i +ℤ of_words other.now i)
        acc.old
        acc.new }
{
    for vector in 0..acc.len() / LANES {
        let place = LANES * vector;
        let sum = u64x4::from_slice(&acc[place..]) + u64x4::from_slice(&other[place..]);
        sum.copy_to_slice(&mut acc[place..]);
    }
}

/// Takes `other` from `acc`.
pub(crate) fn subtract_vectors(acc: &mut [u64], other: &[u64])
    requires { length other.now ≡ length acc.old }
    ensures { WrittenTo
        (4 * (length acc.old / 4))
        (λ i. of_words acc.old i -ℤ of_words other.now i)
        acc.old
        acc.new }
{
    for vector in 0..acc.len() / LANES {
        let place = LANES * vector;
        let rest = u64x4::from_slice(&acc[place..]) - u64x4::from_slice(&other[place..]);
        rest.copy_to_slice(&mut acc[place..]);
    }
}

/// Writes `words` with their signs turned.
pub(crate) fn negate_vectors(out: &mut [u64], words: &[u64])
    requires { length words.now ≡ length out.old }
    ensures { WrittenTo
        (4 * (length out.old / 4))
        (λ i. neg_ℤ (of_words words.now i))
        out.old
        out.new }
{
    let zero = u64x4::splat(0);
    for vector in 0..out.len() / LANES {
        let place = LANES * vector;
        let turned = zero - u64x4::from_slice(&words[place..]);
        turned.copy_to_slice(&mut out[place..]);
    }
}

/// Writes the sums of two lists.
pub(crate) fn sum_vectors(out: &mut [u64], first: &[u64], second: &[u64])
    requires same_first { length first.now ≡ length out.old }
    requires same_second { length second.now ≡ length out.old }
    ensures { WrittenTo
        (4 * (length out.old / 4))
        (λ i. of_words first.now i +ℤ of_words second.now i)
        out.old
        out.new }
{
    for vector in 0..out.len() / LANES {
        let place = LANES * vector;
        let sum = u64x4::from_slice(&first[place..]) + u64x4::from_slice(&second[place..]);
        sum.copy_to_slice(&mut out[place..]);
    }
}
