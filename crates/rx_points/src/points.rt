//! The 32 points of a polynomial of digits.
ghost use Rattle.std.specs.Prelude.{ℕ, ◌≡◌, ◌+◌, ◌*◌, ◌%◌, ◌^◌, ◌<◌, length};
ghost use Rattle.rx_ring.specs.Blocks.{Within, points as points_of};
ghost use Rattle.rx_points.specs.Numbers.{AllFit, part};
ghost use Rattle.rx_points.specs.Rows.{AreRowPoints, row_digit};

use crate::lanes::to_points;

/// Replaces 16 blocks of n digits each, the first half of `points`, by their 32 points of n numbers each:
/// first the 16 points of the element modulo `Z^16 - 1` that the blocks are, then those of the one modulo
/// `Z^16 + 1`, over polynomials modulo `Y^n + 1`. Digits lie in `[-2^11, 2^11)`, and n is a multiple of 8.
/// `turns` has 2n places; what it holds is not read, and what it holds afterwards is not told.
pub fn digit_points(points: &mut [i16], turns: &mut [i16], n: usize)
    requires size { length points.old ≡ 32 * n }
    requires room { length turns.old ≡ 2 * n }
    requires vectors { n % 8 ≡ 0 }
    requires digits { (j i : ℕ) → j < 16 → i < n → Within (2 ^ 11) (part n points.old j i) }
    ensures near { (p i : ℕ) → p < 16 → i < n →
        part n points.new p i ≡ points_of n 4 0 (part n points.old) p i }
    ensures away { (p i : ℕ) → p < 16 → i < n →
        part n points.new (16 + p) i ≡ points_of n 4 n (part n points.old) p i }
    ensures fits { AllFit points.new }
    ensures size_stays { length points.new ≡ length points.old }
    ensures room_stays { length turns.new ≡ length turns.old }
{
    let (near, away) = points.split_at_mut(16 * n);
    away.copy_from_slice(near);
    to_points(near, turns, 16, n, 4, 0);
    to_points(away, turns, 16, n, 4, n);
}

/// The same for W rows of N digits that lie side by side, where `places` is a sixteenth of N and n is W times
/// that: place `t * W + w` of block j is digit `16 * t + j` of row w.
pub fn row_points(points: &mut [i16], turns: &mut [i16], rows: usize, places: usize)
    requires some { 0 < rows }
    requires sixteen { places % 16 ≡ 0 }
    requires size { length points.old ≡ 32 * (rows * places) }
    requires room { length turns.old ≡ 2 * (rows * places) }
    requires digits { (w i : ℕ) → w < rows → i < 16 * places →
        Within (2 ^ 11) (row_digit rows places points.old w i) }
    ensures points { AreRowPoints rows places (row_digit rows places points.old) points.new }
    ensures fits { AllFit points.new }
    ensures size_stays { length points.new ≡ length points.old }
    ensures room_stays { length turns.new ≡ length turns.old }
{
    digit_points(points, turns, rows * places);
}
