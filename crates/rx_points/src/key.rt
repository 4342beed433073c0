//! The 32 points of the polynomials of a key, once, as limbs.
ghost use Rattle.std.specs.Prelude.{ℕ, pos, ◌≡◌, ◌+ℤ◌, ◌-ℤ◌, ◌+◌, ◌-◌, ◌*◌, ◌/◌, ◌%◌, ◌^◌, ◌<◌, ◌≤◌, length, get_or, FitsSigned};
ghost use Rattle.std.specs.Int.{w16};
ghost use Rattle.rx_laws.specs.Words.{of_words};
ghost use Rattle.rx_ring.specs.Parts.{of_parts};
ghost use Rattle.rx_ring.specs.Polynomial.{turned};
ghost use Rattle.rx_ring.specs.Blocks.{points as points_of};
ghost use Rattle.rx_points.specs.Residues.{residue, AreSums, AreResidues};
ghost use Rattle.rx_points.specs.Rows.{AreLimbs};

use crate::limbs::limbs_of;

/// Coefficient i of `Y^s` times a block.
fn turned_at(block: &[u128], s: usize, i: usize) -> u128
    requires turn { s ≤ length block.now }
    requires place { i < length block.now }
    ensures { residue (pos result) ≡ residue (turned (length block.now) (of_words block.now) s i) }
{
    if i < s {
        0u128.wrapping_sub(block[i + block.len() - s])
    } else {
        block[i - s]
    }
}

/// Writes `Y^s` times a block.
fn turn_into(room: &mut [u128], block: &[u128], s: usize)
    requires room { length room.old ≡ length block.now }
    requires turn { s ≤ length block.now }
    ensures { AreSums (length block.now) (turned (length block.now) (of_words block.now) s) room.new }
{
    for i in 0..block.len() {
        room[i] = turned_at(block, s, i);
    }
}

/// Replaces `near` and `away` by `near + turned` and `near - turned`.
fn add_and_subtract(near: &mut [u128], away: &mut [u128], turned: &[u128])
    requires same { length away.old ≡ length near.old }
    requires same_turned { length turned.now ≡ length near.old }
    ensures sum { AreSums (length near.old)
        (λ i. of_words near.old i +ℤ of_words turned.now i) near.new }
    ensures difference { AreSums (length near.old)
        (λ i. of_words near.old i -ℤ of_words turned.now i) away.new }
{
    for i in 0..near.len() {
        let first = near[i];
        let second = turned[i];
        near[i] = first.wrapping_add(second);
        away[i] = first.wrapping_sub(second);
    }
}

/// Replaces `near` and `away` by `near + Y^s away` and `near - Y^s away`. `room` has as many places; what it
/// holds is not read, and what it holds afterwards is not told.
fn part_blocks(near: &mut [u128], away: &mut [u128], room: &mut [u128], s: usize)
    requires same { length away.old ≡ length near.old }
    requires room { length room.old ≡ length near.old }
    requires turn { s ≤ length near.old }
    ensures sum { AreSums (length near.old) (λ i. of_words near.old i
        +ℤ turned (length near.old) (of_words away.old) s i) near.new }
    ensures difference { AreSums (length near.old) (λ i. of_words near.old i
        -ℤ turned (length near.old) (of_words away.old) s i) away.new }
    ensures stays { length room.new ≡ length room.old }
{
    turn_into(room, away, s);
    add_and_subtract(near, away, room);
}

/// The same for `count` blocks of n numbers each in `near` and in `away`.
fn level_down(
    near: &mut [u128],
    away: &mut [u128],
    room: &mut [u128],
    count: usize,
    n: usize,
    s: usize,
)
    requires blocks { length near.old ≡ count * n }
    requires blocks_away { length away.old ≡ count * n }
    requires room { length room.old ≡ n }
    requires turn { s ≤ n }
    ensures sum { AreResidues n count
        (λ j i. of_parts n near.old j i +ℤ turned n (of_parts n away.old j) s i) near.new }
    ensures difference { AreResidues n count
        (λ j i. of_parts n near.old j i -ℤ turned n (of_parts n away.old j) s i) away.new }
    ensures stays { length room.new ≡ length room.old }
{
    if count > 0 {
        let (first, near_rest) = near.split_at_mut(n);
        let (second, away_rest) = away.split_at_mut(n);
        part_blocks(first, second, room, s);
        level_down(near_rest, away_rest, room, count - 1, n, s);
    }
}

/// Replaces the `count = 2^d` blocks of n numbers of an element modulo `Z^count - Y^e` by its points.
pub(crate) fn word_points(
    blocks: &mut [u128],
    room: &mut [u128],
    count: usize,
    n: usize,
    d: usize,
    e: usize,
)
    requires power { count ≡ 2 ^ d }
    requires blocks { length blocks.old ≡ count * n }
    requires room { length room.old ≡ n }
    requires turn { e ≤ 2 * n }
    ensures points { AreResidues n count (points_of n d e (of_parts n blocks.old)) blocks.new }
    ensures stays { length room.new ≡ length room.old }
{
    if d > 0 {
        let half = count / 2;
        let (near, away) = blocks.split_at_mut(half * n);
        level_down(near, away, room, half, n, e / 2);
        word_points(near, room, half, n, d - 1, e / 2);
        word_points(away, room, half, n, d - 1, e / 2 + n);
    }
}

/// Writes the six limbs of one number, each at `place` of its part of n numbers.
fn put_limbs(limbs: &mut [i16], six: [i16; 6], n: usize, place: usize)
    requires size { length limbs.old ≡ 6 * n }
    requires place { place < n }
    requires fits { (l : ℕ) → l < 6 → FitsSigned w16 (get_or six l (pos 0)) }
    ensures written { (l : ℕ) → l < 6 →
        get_or limbs.new (l * n + place) (pos 0) ≡ get_or six l (pos 0) }
    ensures left { (l u : ℕ) → u < n → u < place →
        get_or limbs.new (l * n + u) (pos 0) ≡ get_or limbs.old (l * n + u) (pos 0) }
{
    for limb in 0..6 {
        limbs[limb * n + place] = six[limb];
    }
}

/// Writes the six limbs of the numbers modulo 2^69, of each limb the last number first.
pub(crate) fn limbs_into(limbs: &mut [i16], values: &[u128])
    requires size { length limbs.old ≡ 6 * length values.now }
    ensures { AreLimbs (length values.now) (λ u. get_or values.now u 0 % 2 ^ 69) limbs.new }
{
    let n = values.len();
    for place in 0..n {
        let six = limbs_of(values[n - 1 - place] % (1 << 69));
        put_limbs(limbs, six, n, place);
    }
}
