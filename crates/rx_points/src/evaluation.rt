//! The evaluation of key polynomials: rows that lie side by side, the last one first, and their 32 points.
ghost use Rattle.std.specs.Prelude.{ℕ, pos, ◌≡◌, ◌+◌, ◌-◌, ◌*◌, ◌/◌, ◌%◌, ◌^◌, ◌<◌, ◌≤◌, length, get_or};
ghost use Rattle.rx_ring.specs.Parts.{of_parts};
ghost use Rattle.rx_ring.specs.Blocks.{points as points_of};
ghost use Rattle.rx_points.specs.Numbers.{AllFit};
ghost use Rattle.rx_points.specs.Residues.{residue};
ghost use Rattle.rx_points.specs.Rows.{AreKeyLimbs, IsEvaluated, key_word};

use crate::key::{limbs_into, word_points};

/// Writes the words of all rows at one offset, the last row first. Row w begins `stride * w` words on.
fn row_words(part: &mut [u128], words: &[u64], stride: usize, offset: usize)
    requires some { 0 < length part.old }
    requires inside { (length part.old - 1) * stride + offset < length words.now }
    ensures { (w : ℕ) → w < length part.old → get_or part.new w 0
        ≡ get_or words.now ((length part.old - 1 - w) * stride + offset) 0 }
{
    let rows = part.len();
    for w in 0..rows {
        part[w] = words[(rows - 1 - w) * stride + offset] as u128;
    }
}

/// Writes one block of each row, place after place.
fn block_words(
    part: &mut [u128],
    words: &[u64],
    rows: usize,
    stride: usize,
    places: usize,
    block: usize,
)
    requires some { 0 < rows }
    requires size { length part.old ≡ rows * places }
    requires block { block < 16 }
    requires inside { (rows - 1) * stride + 16 * places ≤ length words.now }
    ensures { (i : ℕ) → i < rows * places →
        get_or part.new i 0 ≡ key_word rows stride words.now block i }
{
    for t in 0..places {
        row_words(
            &mut part[t * rows..t * rows + rows],
            words,
            stride,
            t * 16 + block,
        );
    }
}

/// Writes all 16 blocks of each row, the first half of `values`.
fn key_words(values: &mut [u128], words: &[u64], rows: usize, stride: usize, places: usize)
    requires some { 0 < rows }
    requires size { length values.old ≡ 32 * (rows * places) }
    requires inside { (rows - 1) * stride + 16 * places ≤ length words.now }
    ensures { (j i : ℕ) → j < 16 → i < rows * places →
        get_or values.new (j * (rows * places) + i) 0 ≡ key_word rows stride words.now j i }
{
    let n = rows * places;
    for block in 0..16 {
        let part = &mut values[block * n..block * n + n];
        block_words(part, words, rows, stride, places, block);
    }
}

/// Replaces 16 blocks of n numbers each, the first half of `points`, by their 32 points. `room` has n numbers;
/// what it holds is not read.
fn all_points(points: &mut [u128], room: &mut [u128], n: usize)
    requires size { length points.old ≡ 32 * n }
    requires room { length room.old ≡ n }
    ensures near { (p i : ℕ) → p < 16 → i < n →
        residue (of_parts n points.new p i) ≡ residue (points_of n 4 0 (of_parts n points.old) p i) }
    ensures away { (p i : ℕ) → p < 16 → i < n → residue (of_parts n points.new (16 + p) i)
        ≡ residue (points_of n 4 n (of_parts n points.old) p i) }
{
    let (near, away) = points.split_at_mut(16 * n);
    away.copy_from_slice(near);
    word_points(near, room, 16, n, 4, 0);
    word_points(away, room, 16, n, 4, n);
}

/// Writes the six limbs of all points.
fn all_limbs(limbs: &mut [i16], points: &[u128], n: usize)
    requires size { length limbs.old ≡ 192 * n }
    requires points { length points.now ≡ 32 * n }
    ensures { AreKeyLimbs n (λ p u. get_or points.now (p * n + u) 0 % 2 ^ 69) limbs.new }
{
    for point in 0..32 {
        let six = &mut limbs[point * (6 * n)..point * (6 * n) + 6 * n];
        limbs_into(six, &points[point * n..point * n + n]);
    }
}

/// Writes the limbs of the 32 points of W key polynomials of N coefficients, where `places` is a sixteenth of N.
/// The words of row w begin at `stride * w`. `values` has 33 times W * `places` numbers; what it holds is not
/// read, and what it holds afterwards is not told.
pub fn evaluate(
    limbs: &mut [i16],
    words: &[u64],
    values: &mut [u128],
    rows: usize,
    stride: usize,
    places: usize,
)
    requires some { 0 < rows }
    requires sixteen { places % 16 ≡ 0 }
    requires inside { (rows - 1) * stride + 16 * places ≤ length words.now }
    requires size { length limbs.old ≡ 192 * (rows * places) }
    requires values { length values.old ≡ 33 * (rows * places) }
    ensures evaluated { IsEvaluated rows places
        (λ w i. pos (get_or words.now (w * stride + i) 0)) limbs.new }
    ensures fits { AllFit limbs.new }
    ensures values_stay { length values.new ≡ length values.old }
{
    let n = rows * places;
    let (points, room) = values.split_at_mut(32 * n);
    key_words(points, words, rows, stride, places);
    all_points(points, room, n);
    all_limbs(limbs, points, n);
}
