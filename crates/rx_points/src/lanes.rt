//! Steps on blocks of 16-bit numbers by whole vectors, modulo 2^16.
ghost use Rattle.std.specs.Prelude.{◌≡◌, ◌+ℤ◌, ◌-ℤ◌, ◌+◌, ◌*◌, ◌/◌, ◌%◌, ◌^◌, ◌≤◌, length};
ghost use Rattle.rx_ring.specs.Polynomial.{turned};
ghost use Rattle.rx_ring.specs.Blocks.{points};
ghost use Rattle.rx_laws.specs.Words.{of_numbers};
ghost use Rattle.rx_points.specs.Numbers.{AllFit, AreNumbers, AreBlocks, HoldsTurns, part};

use std::simd::prelude::*;

/// A vector has so many numbers.
pub(crate) const LANES: usize = 8;

/// Writes `block` with its sign turned, and then `block`: the coefficients of `Y^t` times `block` begin t
/// places before its own.
pub(crate) fn lay_out_turns(turns: &mut [i16], block: &[i16])
    requires twice { length turns.old ≡ 2 * length block.now }
    requires vectors { length block.now % 8 ≡ 0 }
    requires fits { AllFit block.now }
    ensures turns { HoldsTurns (length block.now) (of_numbers block.now) turns.new }
    ensures stays { length turns.new ≡ length turns.old }
{
    let (turned, same) = turns.split_at_mut(block.len());
    for vector in 0..block.len() / LANES {
        let place = LANES * vector;
        let numbers = i16x8::from_slice(&block[place..]);
        (i16x8::splat(0) - numbers).copy_to_slice(&mut turned[place..]);
        numbers.copy_to_slice(&mut same[place..]);
    }
}

/// Replaces `near` and `away` by their sum and their difference, where `turned` stands for `away`.
pub(crate) fn add_and_subtract(near: &mut [i16], away: &mut [i16], turned: &[i16])
    requires same_away { length away.old ≡ length near.old }
    requires same_turned { length turned.now ≡ length near.old }
    requires vectors { length near.old % 8 ≡ 0 }
    requires fits { AllFit near.old }
    requires fits_turned { AllFit turned.now }
    ensures sum { AreNumbers
        (length near.old)
        (λ i. of_numbers near.old i +ℤ of_numbers turned.now i)
        near.new }
    ensures difference { AreNumbers
        (length near.old)
        (λ i. of_numbers near.old i -ℤ of_numbers turned.now i)
        away.new }
{
    for vector in 0..near.len() / LANES {
        let place = LANES * vector;
        let first = i16x8::from_slice(&near[place..]);
        let second = i16x8::from_slice(&turned[place..]);
        (first + second).copy_to_slice(&mut near[place..]);
        (first - second).copy_to_slice(&mut away[place..]);
    }
}

/// Replaces `near` and `away` by `near + Y^s away` and `near - Y^s away`. `turns` has twice as many places;
/// what it holds is not read, and what it holds afterwards is not told.
pub(crate) fn turn_and_add(near: &mut [i16], away: &mut [i16], turns: &mut [i16], s: usize)
    requires same { length away.old ≡ length near.old }
    requires twice { length turns.old ≡ 2 * length near.old }
    requires vectors { length near.old % 8 ≡ 0 }
    requires fits { AllFit near.old }
    requires fits_away { AllFit away.old }
    requires turn { s ≤ length near.old }
    ensures sum { AreNumbers
        (length near.old)
        (λ i. of_numbers near.old i
        +ℤ turned (length near.old) (of_numbers away.old) s i)
        near.new }
    ensures difference { AreNumbers
        (length near.old)
        (λ i. of_numbers near.old i
        -ℤ turned (length near.old) (of_numbers away.old) s i)
        away.new }
    ensures stays { length turns.new ≡ length turns.old }
{
    let n = near.len();
    lay_out_turns(turns, away);
    add_and_subtract(near, away, &turns[n - s..n - s + n]);
}

/// The same for `count` blocks of n numbers each in `near` and in `away`.
pub(crate) fn level(
    near: &mut [i16],
    away: &mut [i16],
    turns: &mut [i16],
    count: usize,
    n: usize,
    s: usize,
)
    requires blocks { length near.old ≡ count * n }
    requires blocks_away { length away.old ≡ count * n }
    requires twice { length turns.old ≡ 2 * n }
    requires vectors { n % 8 ≡ 0 }
    requires fits { AllFit near.old }
    requires fits_away { AllFit away.old }
    requires turn { s ≤ n }
    ensures sum { AreBlocks n count
        (λ j i. part n near.old j i +ℤ turned n (part n away.old j) s i) near.new }
    ensures difference { AreBlocks n count
        (λ j i. part n near.old j i -ℤ turned n (part n away.old j) s i) away.new }
    ensures stays { length turns.new ≡ length turns.old }
{
    if count > 0 {
        let (first, near_rest) = near.split_at_mut(n);
        let (second, away_rest) = away.split_at_mut(n);
        turn_and_add(first, second, turns, s);
        level(near_rest, away_rest, turns, count - 1, n, s);
    }
}

/// Replaces the `count = 2^d` blocks of n numbers of an element modulo `Z^count - Y^e` by its points,
/// modulo 2^16.
pub(crate) fn to_points(
    blocks: &mut [i16],
    turns: &mut [i16],
    count: usize,
    n: usize,
    d: usize,
    e: usize,
)
    requires power { count ≡ 2 ^ d }
    requires blocks { length blocks.old ≡ count * n }
    requires twice { length turns.old ≡ 2 * n }
    requires vectors { n % 8 ≡ 0 }
    requires fits { AllFit blocks.old }
    requires turn { e ≤ 2 * n }
    ensures points { AreBlocks n count (points n d e (part n blocks.old)) blocks.new }
    ensures stays { length turns.new ≡ length turns.old }
{
    if d > 0 {
        let half = count / 2;
        let (near, away) = blocks.split_at_mut(half * n);
        level(near, away, turns, half, n, e / 2);
        to_points(near, turns, half, n, d - 1, e / 2);
        to_points(away, turns, half, n, d - 1, e / 2 + n);
    }
}
