//! Plain products of polynomials, with no turn, modulo 2^64. A long one is made of three products of halves
//! (Karatsuba): that of the low halves, that of the high ones, and that of their sums, less the first two.
ghost use Rattle.std.specs.Prelude.{◌≡◌, ◌+ℤ◌, ◌-ℤ◌, ◌+◌, ◌*◌, ◌/◌, ◌%◌, ◌≤◌, length, take, drop};
ghost use Rattle.rx_laws.specs.Words.{AreWords, of_words, of_numbers};
ghost use Rattle.rx_ring.specs.Linear.{linear as linear_of, half_sum};

use crate::lanes::{LANES, sum_vectors};
use crate::leaf::{LEAF, linear_leaf};
use crate::sums::add_multiple;
use std::simd::prelude::*;

/// Adds the plain product of `small` and `big`, both of one length n, to the 2n places of `out`, modulo
/// 2^64: place i gets the sum of `small[j] * big[i - j]` over all j for which both are there.
pub fn linear_add(out: &mut [u64], small: &[i64], big: &[u64])
    requires same { length big.now ≡ length small.now }
    requires twice { length out.old ≡ 2 * length small.now }
    ensures { AreWords
        (length out.old)
        (λ i. of_words out.old i
        +ℤ linear_of (length small.now) (of_numbers small.now) (of_words big.now) i)
        out.new }
{
    let n = small.len();
    for j in 0..n {
        add_multiple(&mut out[j..j + n], small[j].cast_unsigned(), big);
    }
}

/// Writes the plain product of `a` and `b`, both of one length n, into the 2n places of `out`. `scratch` has
/// at least 2n words; what it holds is not read, and what it holds afterwards is not told. It is fast where n
/// is 8 times a power of two.
pub(crate) fn linear(out: &mut [u64], a: &[u64], b: &[u64], scratch: &mut [u64])
    requires same { length b.now ≡ length a.now }
    requires twice { length out.old ≡ 2 * length a.now }
    requires room { 2 * length a.now ≤ length scratch.old }
    ensures { AreWords
        (length out.old)
        (linear_of (length a.now) (of_words a.now) (of_words b.now))
        out.new }
{
    let n = a.len();
    if n == LEAF {
        linear_leaf(out, a, b);
    } else if n > LEAF && n % (2 * LANES) == 0 {
        let half = n / 2;
        let (mixed, rest) = scratch.split_at_mut(n);
        let (low, high) = out.split_at_mut(n);
        write_sums(low, a, b);
        let sums = &low[..];
        linear(mixed, &sums[..half], &sums[half..], rest);
        linear(low, &a[..half], &b[..half], rest);
        linear(high, &a[half..], &b[half..], rest);
        join(low, high, mixed);
    } else {
        linear_by_terms(out, a, b);
    }
}

/// Writes the sum of both halves of `a` into the first half of `room`, and that of `b` into the second.
pub(crate) fn write_sums(room: &mut [u64], a: &[u64], b: &[u64])
    requires same { length b.now ≡ length a.now }
    requires vectors { length a.now % 8 ≡ 0 }
    requires fits { length room.old ≡ length a.now }
    ensures first { AreWords
        (length a.now / 2)
        (half_sum (length a.now / 2) (of_words a.now))
        (take (length a.now / 2) room.new) }
    ensures second { AreWords
        (length a.now / 2)
        (half_sum (length a.now / 2) (of_words b.now))
        (drop (length a.now / 2) room.new) }
{
    let (sum_a, sum_b) = room.split_at_mut(a.len() / 2);
    sum_halves(sum_a, a);
    sum_halves(sum_b, b);
}

/// Writes the plain product term by term.
fn linear_by_terms(out: &mut [u64], a: &[u64], b: &[u64])
    requires same { length b.now ≡ length a.now }
    requires twice { length out.old ≡ 2 * length a.now }
    ensures { AreWords
        (length out.old)
        (linear_of (length a.now) (of_words a.now) (of_words b.now))
        out.new }
{
    out.fill(0);
    let n = a.len();
    for j in 0..n {
        add_multiple(&mut out[j..j + n], a[j], b);
    }
}

/// Writes the sum of both halves of `a`, of whole vectors each, into `out`.
fn sum_halves(out: &mut [u64], a: &[u64])
    requires twice { length a.now ≡ 2 * length out.old }
    requires vectors { length out.old % 4 ≡ 0 }
    ensures { AreWords (length out.old) (half_sum (length out.old) (of_words a.now)) out.new }
{
    let half = out.len();
    sum_vectors(out, &a[..half], &a[half..]);
}

/// Adds what the product of the sums has beyond the other two in the middle: the second half of `low` and
/// the first of `high` change. All halves are of whole vectors.
fn join(low: &mut [u64], high: &mut [u64], mixed: &[u64])
    requires vectors { length mixed.now % 8 ≡ 0 }
    requires same_low { length low.old ≡ length mixed.now }
    requires same_high { length high.old ≡ length mixed.now }
    ensures low_stays { take (length mixed.now / 2) low.new ≡ take (length mixed.now / 2) low.old }
    ensures high_stays { drop (length mixed.now / 2) high.new
        ≡ drop (length mixed.now / 2) high.old }
    ensures low_added { AreWords
        (length mixed.now / 2)
        (λ i. of_words low.old (length mixed.now / 2 + i)
        +ℤ ((of_words mixed.now i -ℤ of_words low.old i) -ℤ of_words high.old i))
        (drop (length mixed.now / 2) low.new) }
    ensures high_added { AreWords
        (length mixed.now / 2)
        (λ i. of_words high.old i
        +ℤ ((of_words mixed.now (length mixed.now / 2 + i)
        -ℤ of_words low.old (length mixed.now / 2 + i))
        -ℤ of_words high.old (length mixed.now / 2 + i)))
        (take (length mixed.now / 2) high.new) }
{
    let half = mixed.len() / 2;
    let (low_0, low_1) = low.split_at_mut(half);
    let (high_0, high_1) = high.split_at_mut(half);
    join_quarters(low_0, low_1, high_0, high_1, mixed);
}

/// The same on the quarters, vector by vector.
fn join_quarters(
    low_0: &[u64],
    low_1: &mut [u64],
    high_0: &mut [u64],
    high_1: &[u64],
    mixed: &[u64],
)
    requires vectors { length low_1.old % 4 ≡ 0 }
    requires first { length low_0.now ≡ length low_1.old }
    requires third { length high_0.old ≡ length low_1.old }
    requires fourth { length high_1.now ≡ length low_1.old }
    requires both { length mixed.now ≡ 2 * length low_1.old }
    ensures low_added { AreWords
        (length low_1.old)
        (λ i. of_words low_1.old i
        +ℤ ((of_words mixed.now i -ℤ of_words low_0.now i) -ℤ of_words high_0.old i))
        low_1.new }
    ensures high_added { AreWords
        (length low_1.old)
        (λ i. of_words high_0.old i
        +ℤ ((of_words mixed.now (length low_1.old + i) -ℤ of_words low_1.old i)
        -ℤ of_words high_1.now i))
        high_0.new }
{
    let half = low_1.len();
    for vector in 0..half / LANES {
        let place = LANES * vector;
        let second = u64x4::from_slice(&low_1[place..]);
        let third = u64x4::from_slice(&high_0[place..]);
        let first_middle = u64x4::from_slice(&mixed[place..]);
        let second_middle = u64x4::from_slice(&mixed[half + place..]);
        let front = first_middle - u64x4::from_slice(&low_0[place..]) - third;
        let back = second_middle - second - u64x4::from_slice(&high_1[place..]);
        (second + front).copy_to_slice(&mut low_1[place..]);
        (third + back).copy_to_slice(&mut high_0[place..]);
    }
}
