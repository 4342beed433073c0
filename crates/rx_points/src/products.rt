//! Products at the points: of digits with the limbs of a key, for rows that lie side by side.
ghost use Rattle.std.specs.Prelude.{ℕ, ℤ, pos, ◌≡◌, ◌+ℤ◌, ◌-ℤ◌, ◌*ℤ◌, ◌+◌, ◌-◌, ◌*◌, ◌%◌, ◌^◌, ◌<◌, ◌≤◌, length, get_or, FitsSigned};
ghost use Rattle.std.specs.Int.{w64};
ghost use Rattle.std.specs.Int.RustNames.{unsigned_abs};
ghost use Rattle.rx_laws.specs.Words.{of_numbers};
ghost use Rattle.rx_points.specs.Numbers.{AllFit};
ghost use Rattle.rx_points.specs.Residues.{residue};
ghost use Rattle.rx_points.specs.Rows.{TakesWindows, AddsProduct, AddsPoint, AreLimbs};

use crate::lanes::lay_out_turns;
use crate::windows::window_totals;

/// Takes `2^shift` times each of four totals, the last first, from four sums, modulo 2^69.
fn subtract_four(sums: &mut [u128], totals: [i64; 4], shift: u32)
    requires four { length sums.old ≡ 4 }
    requires fits { (k : ℕ) → k < 4 → FitsSigned w64 (get_or totals k (pos 0)) }
    requires shift { shift < 128 }
    ensures { (t : ℕ) → t < 4 → residue (pos (get_or sums.new t 0))
        ≡ residue (pos (get_or sums.old t 0)
        -ℤ pos (2 ^ shift) *ℤ get_or totals (3 - t) (pos 0)) }
{
    for place in 0..4 {
        let total = (totals[3 - place] as i128).cast_unsigned();
        sums[place] = sums[place].wrapping_sub(total << shift);
    }
}

/// Takes from the sum of place t `2^shift` times the sum of products over a window, modulo 2^69. The last
/// place has the first window, and each place before it one that begins `rows` numbers later. That no number
/// is greater than `2^9`, or that `shift` is at least 37, makes it exact.
fn subtract_windows(sums: &mut [u128], digits: &[i16], turns: &[i16], rows: usize, shift: u32)
    requires places { rows * length sums.old ≤ length digits.now }
    requires fours { length sums.old % 4 ≡ 0 }
    requires twice { length turns.now ≡ 2 * length digits.now }
    requires few { length digits.now ≤ 2 ^ 31 }
    requires fits { AllFit digits.now }
    requires fits_turns { AllFit turns.now }
    requires shift { shift < 64 }
    ensures exact { ((i : ℕ) → unsigned_abs (of_numbers turns.now i) ≤ 2 ^ 9) →
        TakesWindows (length digits.now) rows shift (of_numbers digits.now) (of_numbers turns.now)
        sums.old sums.new }
    ensures high { 37 ≤ shift →
        TakesWindows (length digits.now) rows shift (of_numbers digits.now) (of_numbers turns.now)
        sums.old sums.new }
{
    if sums.len() > 0 {
        let first = rows * (sums.len() - 4);
        let windows = &turns[first..first + digits.len() + 3 * rows];
        let totals = window_totals(digits, windows, rows);
        let (four, rest) = sums.split_at_mut(4);
        subtract_four(four, totals, shift);
        subtract_windows(rest, digits, turns, rows, shift);
    }
}

/// Adds to the sum of place t `2^shift` times the product of the digits with a limb, at the end of row t,
/// modulo 2^69. The limb has its last number first. `turns` has twice as many places; what it holds is not
/// read, and what it holds afterwards is not told.
fn limb_product(
    sums: &mut [u128],
    digits: &[i16],
    limb: &[i16],
    turns: &mut [i16],
    rows: usize,
    shift: u32,
)
    requires some { 0 < rows }
    requires places { rows * length sums.old ≡ length digits.now }
    requires fours { length sums.old % 4 ≡ 0 }
    requires same { length limb.now ≡ length digits.now }
    requires twice { length turns.old ≡ 2 * length digits.now }
    requires vectors { length digits.now % 8 ≡ 0 }
    requires few { length digits.now ≤ 2 ^ 31 }
    requires fits { AllFit digits.now }
    requires fits_limb { AllFit limb.now }
    requires shift { shift < 64 }
    ensures small { ((i : ℕ) → unsigned_abs (of_numbers limb.now i) ≤ 2 ^ 9) →
        AddsProduct (length digits.now) rows shift (of_numbers digits.now) (of_numbers limb.now)
        sums.old sums.new }
    ensures wide { 37 ≤ shift → ((i : ℕ) → unsigned_abs (of_numbers limb.now i) < 2 ^ 15) →
        AddsProduct (length digits.now) rows shift (of_numbers digits.now) (of_numbers limb.now)
        sums.old sums.new }
    ensures high { 53 ≤ shift →
        AddsProduct (length digits.now) rows shift (of_numbers digits.now) (of_numbers limb.now)
        sums.old sums.new }
    ensures stays { length turns.new ≡ length turns.old }
{
    lay_out_turns(turns, limb);
    subtract_windows(sums, digits, turns, rows, shift);
}

/// Adds to the sum of place t the product of the digits with what the six limbs of a key stand for, at the
/// end of row t, modulo 2^69.
pub(crate) fn point_product(
    sums: &mut [u128],
    digits: &[i16],
    limbs: &[i16],
    turns: &mut [i16],
    rows: usize,
)
    requires some { 0 < rows }
    requires places { rows * length sums.old ≡ length digits.now }
    requires fours { length sums.old % 4 ≡ 0 }
    requires six { length limbs.now ≡ 6 * length digits.now }
    requires twice { length turns.old ≡ 2 * length digits.now }
    requires vectors { length digits.now % 8 ≡ 0 }
    requires few { length digits.now ≤ 2 ^ 31 }
    requires fits { AllFit digits.now }
    requires fits_limbs { AllFit limbs.now }
    ensures product { (v : ℕ → ℕ) → AreLimbs (length digits.now) v limbs.now →
        AddsPoint (length digits.now) rows (of_numbers digits.now) v sums.old sums.new }
    ensures stays { length turns.new ≡ length turns.old }
{
    let n = digits.len();
    limb_product(sums, digits, &limbs[..n], turns, rows, 0);
    limb_product(sums, digits, &limbs[n..2 * n], turns, rows, 10);
    limb_product(sums, digits, &limbs[2 * n..3 * n], turns, rows, 20);
    limb_product(sums, digits, &limbs[3 * n..4 * n], turns, rows, 30);
    limb_product(sums, digits, &limbs[4 * n..5 * n], turns, rows, 38);
    limb_product(sums, digits, &limbs[5 * n..6 * n], turns, rows, 53);
}
