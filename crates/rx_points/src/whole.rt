//! The sum of products of polynomials by their points, over rows that lie side by side.
ghost use Rattle.std.specs.Prelude.{ℕ, ℤ, pos, ◌≡◌, ◌+ℤ◌, ◌*ℤ◌, ◌+◌, ◌*◌, ◌/◌, ◌%◌, ◌^◌, ◌<◌, ◌≤◌, length, get_or};
ghost use Rattle.rx_laws.specs.Sum.{sum_to};
ghost use Rattle.rx_laws.specs.Torus.{word};
ghost use Rattle.rx_laws.specs.Words.{of_words};
ghost use Rattle.rx_ring.specs.Parts.{of_parts};
ghost use Rattle.rx_ring.specs.Polynomial.{product};
ghost use Rattle.rx_ring.specs.Blocks.{Within, closed, from_points as product_of};
ghost use Rattle.rx_points.specs.Numbers.{AllFit, part};
ghost use Rattle.rx_points.specs.Residues.{residue};
ghost use Rattle.rx_points.specs.Rows.{AreKeyLimbs, AddsPoints, AreRowPoints, IsEvaluated, row_digit};

use crate::points::row_points;
use crate::products::point_product;
use crate::way_up::{closed_at, from_points, word_of};

/// Adds to each sum the product of the digits with the key at its point, at the end of its row.
fn all_products(
    sums: &mut [u128],
    points: &[i16],
    limbs: &[i16],
    turns: &mut [i16],
    rows: usize,
    places: usize,
)
    requires some { 0 < rows }
    requires fours { places % 4 ≡ 0 }
    requires size { length sums.old ≡ 32 * places }
    requires points { length points.now ≡ 32 * (rows * places) }
    requires limbs { length limbs.now ≡ 192 * (rows * places) }
    requires twice { length turns.old ≡ 2 * (rows * places) }
    requires vectors { rows * places % 8 ≡ 0 }
    requires few { rows * places ≤ 2 ^ 31 }
    requires fits { AllFit points.now }
    requires fits_limbs { AllFit limbs.now }
    ensures products { (v : ℕ → ℕ → ℕ) → AreKeyLimbs (rows * places) v limbs.now →
        AddsPoints rows places 32 (part (rows * places) points.now) v sums.old sums.new }
    ensures stays { length turns.new ≡ length turns.old }
{
    let n = rows * places;
    for point in 0..32 {
        let part = &mut sums[point * places..point * places + places];
        let digits = &points[point * n..point * n + n];
        let six = &limbs[point * (6 * n)..point * (6 * n) + 6 * n];
        point_product(part, digits, six, turns, rows);
    }
}

/// Replaces the products at the points of both start nodes by 16 times their elements. `room` has `places`
/// numbers; what it holds is not read.
fn all_up(sums: &mut [u128], room: &mut [u128], places: usize)
    requires size { length sums.old ≡ 32 * places }
    requires room { length room.old ≡ places }
    ensures near { (j t : ℕ) → j < 16 → t < places → residue (of_parts places sums.new j t)
        ≡ residue (product_of places 4 0 (of_parts places sums.old) j t) }
    ensures away { (j t : ℕ) → j < 16 → t < places → residue (of_parts places sums.new (16 + j) t)
        ≡ residue (product_of places 4 places (λ p. of_parts places sums.old (16 + p)) j t) }
{
    let (near, away) = sums.split_at_mut(16 * places);
    from_points(near, room, 16, places, 4, 0);
    from_points(away, room, 16, places, 4, places);
}

/// Adds to each word the coefficient of which 32 times is known, by both start nodes, modulo 2^69.
fn add_elements(acc: &mut [u64], elements: &[u128], places: usize)
    requires words { length acc.old ≡ 16 * places }
    requires size { length elements.now ≡ 32 * places }
    ensures { (c : ℕ → ℤ) → ((i : ℕ) → i < 16 * places →
        residue (closed places (of_parts places elements.now)
        (λ k. of_parts places elements.now (16 + k)) (i % 16) (i / 16)) ≡ residue (pos 32 *ℤ c i)) →
        (i : ℕ) → i < 16 * places → get_or acc.new i 0 ≡ word (of_words acc.old i +ℤ c i) }
{
    for i in 0..acc.len() {
        let total = closed_at(elements, places, i % 16, i / 16);
        acc[i] = acc[i].wrapping_add(word_of(total));
    }
}

/// Adds the sum of the products of W rows of digit polynomials with W key polynomials, modulo `X^N + 1` and
/// 2^64, where `acc` has N words, a multiple of 256. `points` are the 32 points of the digits, whose rows lie
/// side by side, and `limbs` those of the key. `turns` has twice as many numbers as a point, and `sums` 33
/// sixteenths of N; what they hold is not read, and what they hold afterwards is not told.
pub fn add_products(
    acc: &mut [u64],
    points: &[i16],
    limbs: &[i16],
    turns: &mut [i16],
    sums: &mut [u128],
    rows: usize,
)
    requires some { 0 < rows }
    requires words { length acc.old % 256 ≡ 0 }
    requires points { length points.now ≡ 32 * (rows * (length acc.old / 16)) }
    requires limbs { length limbs.now ≡ 192 * (rows * (length acc.old / 16)) }
    requires turns { length turns.old ≡ 2 * (rows * (length acc.old / 16)) }
    requires sums { length sums.old ≡ 33 * (length acc.old / 16) }
    requires few { rows * (length acc.old / 16) ≤ 2 ^ 31 }
    requires fits { AllFit points.now }
    requires fits_limbs { AllFit limbs.now }
    ensures sum { (a b : ℕ → ℕ → ℤ) → AreRowPoints rows (length acc.old / 16) a points.now →
        IsEvaluated rows (length acc.old / 16) b limbs.now → (i : ℕ) → i < length acc.old →
        get_or acc.new i 0 ≡ word (of_words acc.old i
        +ℤ sum_to rows (λ w. product (length acc.old) (a w) (b w) i)) }
    ensures stays { length turns.new ≡ length turns.old }
    ensures sums_stay { length sums.new ≡ length sums.old }
{
    let places = acc.len() / 16;
    let (values, room) = sums.split_at_mut(32 * places);
    values.fill(0);
    all_products(values, points, limbs, turns, rows, places);
    all_up(values, room, places);
    add_elements(acc, values, places);
}

/// The same from the digits themselves, in `[-2^11, 2^11)`, which are replaced by their points: place
/// `t * W + w` of block j of the first half of `points` is digit `16 * t + j` of row w.
pub fn add_digit_products(
    acc: &mut [u64],
    points: &mut [i16],
    limbs: &[i16],
    turns: &mut [i16],
    sums: &mut [u128],
    rows: usize,
)
    requires some { 0 < rows }
    requires words { length acc.old % 256 ≡ 0 }
    requires points { length points.old ≡ 32 * (rows * (length acc.old / 16)) }
    requires limbs { length limbs.now ≡ 192 * (rows * (length acc.old / 16)) }
    requires turns { length turns.old ≡ 2 * (rows * (length acc.old / 16)) }
    requires sums { length sums.old ≡ 33 * (length acc.old / 16) }
    requires few { rows * (length acc.old / 16) ≤ 2 ^ 31 }
    requires digits { (w i : ℕ) → w < rows → i < length acc.old →
        Within (2 ^ 11) (row_digit rows (length acc.old / 16) points.old w i) }
    requires fits_limbs { AllFit limbs.now }
    ensures sum { (b : ℕ → ℕ → ℤ) → IsEvaluated rows (length acc.old / 16) b limbs.now →
        (i : ℕ) → i < length acc.old → get_or acc.new i 0 ≡ word (of_words acc.old i
        +ℤ sum_to rows (λ w. product (length acc.old)
        (row_digit rows (length acc.old / 16) points.old w) (b w) i)) }
    ensures turns_stay { length turns.new ≡ length turns.old }
    ensures sums_stay { length sums.new ≡ length sums.old }
    ensures points_stay { length points.new ≡ length points.old }
{
    row_points(points, turns, rows, acc.len() / 16);
    add_products(acc, points, limbs, turns, sums, rows);
}
