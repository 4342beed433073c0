//! The product modulo `X^N + 1` from three plain products of halves: each is added to both halves of the sum,
//! with the sign that `X^N = -1` gives it.
ghost use Rattle.std.specs.Prelude.{◌≡◌, ◌+ℤ◌, ◌-ℤ◌, ◌+◌, ◌*◌, ◌%◌, ◌≤◌, length};
ghost use Rattle.rx_laws.specs.Words.{AreWords, of_words};
ghost use Rattle.rx_ring.specs.Polynomial.{product};

use crate::lanes::LANES;
use crate::plain::{linear, write_sums};
use std::simd::prelude::*;

/// Adds the product of `a` and `b` to `acc`, all of one length N, a multiple of 8, modulo 2^64. `scratch` has
/// at least 3N words; what it holds is not read, and what it holds afterwards is not told.
pub(crate) fn product_by_halves(acc: &mut [u64], a: &[u64], b: &[u64], scratch: &mut [u64])
    requires same_a { length a.now ≡ length acc.old }
    requires same_b { length b.now ≡ length acc.old }
    requires vectors { length acc.old % 8 ≡ 0 }
    requires room { 3 * length acc.old ≤ length scratch.old }
    ensures added { AreWords
        (length acc.old)
        (λ i. of_words acc.old i +ℤ product (length acc.old) (of_words a.now) (of_words b.now) i)
        acc.new }
    ensures scratch_stays { length scratch.new ≡ length scratch.old }
{
    let n = acc.len();
    let half = n / 2;
    let (product, rest) = scratch.split_at_mut(n);
    let (sums, rest) = rest.split_at_mut(n);
    let (front, back) = acc.split_at_mut(half);
    linear(product, &a[..half], &b[..half], rest);
    add_low(front, back, product);
    linear(product, &a[half..], &b[half..], rest);
    add_high(front, back, product);
    write_sums(sums, a, b);
    let sums = &sums[..];
    linear(product, &sums[..half], &sums[half..], rest);
    add_mixed(front, back, product);
}

/// Adds the product of the low halves, and takes what it has at `X^(N/2)` away.
fn add_low(front: &mut [u64], back: &mut [u64], product: &[u64])
    requires vectors { length front.old % 4 ≡ 0 }
    requires same { length back.old ≡ length front.old }
    requires both { length product.now ≡ 2 * length front.old }
    ensures front_added { AreWords
        (length front.old)
        (λ i. of_words front.old i
        +ℤ (of_words product.now i +ℤ of_words product.now (length front.old + i)))
        front.new }
    ensures back_added { AreWords
        (length front.old)
        (λ i. of_words back.old i
        +ℤ (of_words product.now (length front.old + i) -ℤ of_words product.now i))
        back.new }
{
    let half = front.len();
    for vector in 0..half / LANES {
        let place = LANES * vector;
        let low = u64x4::from_slice(&product[place..]);
        let high = u64x4::from_slice(&product[half + place..]);
        let first = u64x4::from_slice(&front[place..]);
        let second = u64x4::from_slice(&back[place..]);
        (first + (low + high)).copy_to_slice(&mut front[place..]);
        (second + (high - low)).copy_to_slice(&mut back[place..]);
    }
}

/// Adds the product of the high halves, which begins at `X^N`.
fn add_high(front: &mut [u64], back: &mut [u64], product: &[u64])
    requires vectors { length front.old % 4 ≡ 0 }
    requires same { length back.old ≡ length front.old }
    requires both { length product.now ≡ 2 * length front.old }
    ensures front_added { AreWords
        (length front.old)
        (λ i. of_words front.old i
        +ℤ (of_words product.now (length front.old + i) -ℤ of_words product.now i))
        front.new }
    ensures back_added { AreWords
        (length front.old)
        (λ i. of_words back.old i
        -ℤ (of_words product.now i +ℤ of_words product.now (length front.old + i)))
        back.new }
{
    let half = front.len();
    for vector in 0..half / LANES {
        let place = LANES * vector;
        let low = u64x4::from_slice(&product[place..]);
        let high = u64x4::from_slice(&product[half + place..]);
        let first = u64x4::from_slice(&front[place..]);
        let second = u64x4::from_slice(&back[place..]);
        (first + (high - low)).copy_to_slice(&mut front[place..]);
        (second - (low + high)).copy_to_slice(&mut back[place..]);
    }
}

/// Adds the product of the sums at `X^(N/2)`.
fn add_mixed(front: &mut [u64], back: &mut [u64], product: &[u64])
    requires vectors { length front.old % 4 ≡ 0 }
    requires same { length back.old ≡ length front.old }
    requires both { length product.now ≡ 2 * length front.old }
    ensures front_added { AreWords
        (length front.old)
        (λ i. of_words front.old i -ℤ of_words product.now (length front.old + i))
        front.new }
    ensures back_added { AreWords
        (length front.old)
        (λ i. of_words back.old i +ℤ of_words product.now i)
        back.new }
{
    let half = front.len();
    for vector in 0..half / LANES {
        let place = LANES * vector;
        let low = u64x4::from_slice(&product[place..]);
        let high = u64x4::from_slice(&product[half + place..]);
        let first = u64x4::from_slice(&front[place..]);
        let second = u64x4::from_slice(&back[place..]);
        (first - high).copy_to_slice(&mut front[place..]);
        (second + low).copy_to_slice(&mut back[place..]);
    }
}
