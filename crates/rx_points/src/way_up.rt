//! The way up from products at the points, modulo 2^69.
ghost use Rattle.std.specs.Prelude.{ℕ, ℤ, pos, ◌≡◌, ◌+ℤ◌, ◌-ℤ◌, ◌*ℤ◌, ◌+◌, ◌-◌, ◌*◌, ◌/◌, ◌%◌, ◌^◌, ◌<◌, ◌≤◌, length, get_or};
ghost use Rattle.rx_laws.specs.Torus.{word};
ghost use Rattle.rx_laws.specs.Words.{of_words};
ghost use Rattle.rx_ring.specs.Parts.{of_parts};
ghost use Rattle.rx_ring.specs.Polynomial.{turns};
ghost use Rattle.rx_ring.specs.Blocks.{closed, from_points as product_of};
ghost use Rattle.rx_points.specs.Residues.{residue, AreSums, AreResidues, turned_back};

use crate::limbs::divided;

/// Coefficient i of `Y^-s (near - away)`.
fn difference_at(near: &[u128], away: &[u128], s: usize, i: usize) -> u128
    requires same { length away.now ≡ length near.now }
    requires turn { s ≤ length near.now }
    requires place { i < length near.now }
    ensures { residue (pos result) ≡ residue (turned_back (length near.now) s
        (of_words near.now) (of_words away.now) i) }
{
    let n = near.len();
    if i + s < n {
        near[i + s].wrapping_sub(away[i + s])
    } else {
        away[i + s - n].wrapping_sub(near[i + s - n])
    }
}

/// Writes `Y^-s (near - away)`.
fn difference_into(room: &mut [u128], near: &[u128], away: &[u128], s: usize)
    requires same { length away.now ≡ length near.now }
    requires room { length room.old ≡ length near.now }
    requires turn { s ≤ length near.now }
    ensures { AreSums (length near.now) (turned_back (length near.now) s (of_words near.now)
        (of_words away.now)) room.new }
{
    for i in 0..near.len() {
        room[i] = difference_at(near, away, s, i);
    }
}

/// Adds `away` to `near`.
fn add_into(near: &mut [u128], away: &[u128])
    requires same { length away.now ≡ length near.old }
    ensures { AreSums (length near.old) (λ i. of_words near.old i +ℤ of_words away.now i) near.new }
{
    for i in 0..near.len() {
        near[i] = near[i].wrapping_add(away[i]);
    }
}

/// Replaces `near` and `away` by `near + away` and `Y^-s (near - away)`. `room` has as many places; what it
/// holds is not read, and what it holds afterwards is not told.
fn join_blocks(near: &mut [u128], away: &mut [u128], room: &mut [u128], s: usize)
    requires same { length away.old ≡ length near.old }
    requires room { length room.old ≡ length near.old }
    requires turn { s ≤ length near.old }
    ensures sum { AreSums (length near.old)
        (λ i. of_words near.old i +ℤ of_words away.old i) near.new }
    ensures difference { AreSums (length near.old)
        (turned_back (length near.old) s (of_words near.old) (of_words away.old)) away.new }
    ensures stays { length room.new ≡ length room.old }
{
    difference_into(room, near, away, s);
    add_into(near, away);
    away.copy_from_slice(room);
}

/// The same for `count` blocks of n numbers each in `near` and in `away`.
fn level_up(
    near: &mut [u128],
    away: &mut [u128],
    room: &mut [u128],
    count: usize,
    n: usize,
    s: usize,
)
    requires blocks { length near.old ≡ count * n }
    requires blocks_away { length away.old ≡ count * n }
    requires room { length room.old ≡ n }
    requires turn { s ≤ n }
    ensures sum { AreResidues n count
        (λ j i. of_parts n near.old j i +ℤ of_parts n away.old j i) near.new }
    ensures difference { AreResidues n count
        (λ j. turned_back n s (of_parts n near.old j) (of_parts n away.old j)) away.new }
    ensures stays { length room.new ≡ length room.old }
{
    if count > 0 {
        let (first, near_rest) = near.split_at_mut(n);
        let (second, away_rest) = away.split_at_mut(n);
        join_blocks(first, second, room, s);
        level_up(near_rest, away_rest, room, count - 1, n, s);
    }
}

/// Replaces the `count = 2^d` points of n numbers each of an element modulo `Z^count - Y^e` by `2^d` times its
/// blocks.
pub(crate) fn from_points(
    points: &mut [u128],
    room: &mut [u128],
    count: usize,
    n: usize,
    d: usize,
    e: usize,
)
    requires power { count ≡ 2 ^ d }
    requires blocks { length points.old ≡ count * n }
    requires room { length room.old ≡ n }
    requires turn { e ≤ 2 * n }
    ensures blocks { AreResidues n count (product_of n d e (of_parts n points.old)) points.new }
    ensures stays { length room.new ≡ length room.old }
{
    if d > 0 {
        let half = count / 2;
        let (near, away) = points.split_at_mut(half * n);
        from_points(near, room, half, n, d - 1, e / 2);
        from_points(away, room, half, n, d - 1, e / 2 + n);
        level_up(near, away, room, half, n, e / 2);
    }
}

/// Coefficient t of block j of twice the element that is known modulo `Z^16 - 1` by its first 16 blocks, and
/// modulo `Z^16 + 1` by its last 16.
pub(crate) fn closed_at(blocks: &[u128], n: usize, j: usize, t: usize) -> u128
    requires size { length blocks.now ≡ 32 * n }
    requires block { j < 16 }
    requires place { t < n }
    ensures { residue (pos result) ≡ residue (closed n (of_parts n blocks.now)
        (λ k. of_parts n blocks.now (16 + k)) j t) }
{
    let sum = blocks[j * n + t].wrapping_add(blocks[(16 + j) * n + t]);
    if t > 0 {
        let before = blocks[j * n + t - 1].wrapping_sub(blocks[(16 + j) * n + t - 1]);
        sum.wrapping_add(before)
    } else {
        let last = blocks[j * n + n - 1].wrapping_sub(blocks[(16 + j) * n + n - 1]);
        sum.wrapping_sub(last)
    }
}

/// The word of a number of which 32 times is known modulo 2^69.
pub(crate) fn word_of(total: u128) -> u64
    ensures { (c : ℤ) → residue (pos total) ≡ residue (pos 32 *ℤ c) → result ≡ word c }
{
    let known = total % (1 << 69);
    let low = (known % (1 << 30)) as i64;
    divided(low, (known >> 30) as u64)
}
