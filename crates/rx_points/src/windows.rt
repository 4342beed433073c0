//! Sums of products of digits with what stands in a window over a list.
ghost use Rattle.std.specs.Prelude.{ℕ, pos, ◌≡◌, ◌+◌, ◌-◌, ◌*◌, ◌%◌, ◌^◌, ◌<◌, ◌≤◌, length, get_or, FitsSigned};
ghost use Rattle.std.specs.Int.{int_wrap, w32, w64};
ghost use Rattle.std.specs.Int.RustNames.{unsigned_abs};
ghost use Rattle.rx_laws.specs.Words.{of_numbers};
ghost use Rattle.rx_points.specs.Numbers.{AllFit};
ghost use Rattle.rx_points.specs.Windows.{window_sum};

/// So many products of digits with numbers of at most `2^9` have a sum of 32 bits.
const CHUNK: usize = 112;

/// Four sums of products of digits, modulo 2^32: with what stands in the window that begins at the first
/// number, and in those that begin `stride`, `2 * stride` and `3 * stride` places later. The compiler makes
/// vectors of the loop, four products to an instruction.
pub fn window_sums(digits: &[i16], numbers: &[i16], stride: usize) -> [i32; 4]
    requires room { length numbers.now ≡ length digits.now + 3 * stride }
    requires fits { AllFit digits.now }
    requires fits_numbers { AllFit numbers.now }
    ensures { (k : ℕ) → k < 4 → get_or result k (pos 0)
        ≡ int_wrap w32 (window_sum (length digits.now) (of_numbers digits.now)
        (of_numbers numbers.now) (k * stride)) }
{
    let n = digits.len();
    let first_window = &numbers[..n];
    let second_window = &numbers[stride..stride + n];
    let third_window = &numbers[2 * stride..2 * stride + n];
    let fourth_window = &numbers[3 * stride..3 * stride + n];
    let mut first = 0i32;
    let mut second = 0i32;
    let mut third = 0i32;
    let mut fourth = 0i32;
    for i in 0..n {
        let digit = digits[i] as i32;
        first = first.wrapping_add(digit.wrapping_mul(first_window[i] as i32));
        second = second.wrapping_add(digit.wrapping_mul(second_window[i] as i32));
        third = third.wrapping_add(digit.wrapping_mul(third_window[i] as i32));
        fourth = fourth.wrapping_add(digit.wrapping_mul(fourth_window[i] as i32));
    }
    [first, second, third, fourth]
}

/// The same sums over any number of digits, in chunks: as they are where no number is greater than `2^9`,
/// and else modulo 2^32.
pub fn window_totals(digits: &[i16], numbers: &[i16], stride: usize) -> [i64; 4]
    requires room { length numbers.now ≡ length digits.now + 3 * stride }
    requires few { length digits.now ≤ 2 ^ 31 }
    requires fits { AllFit digits.now }
    requires fits_numbers { AllFit numbers.now }
    ensures exact { (k : ℕ) → k < 4 →
        ((i : ℕ) → unsigned_abs (of_numbers numbers.now i) ≤ 2 ^ 9) →
        get_or result k (pos 0) ≡ window_sum (length digits.now) (of_numbers digits.now)
        (of_numbers numbers.now) (k * stride) }
    ensures wrapped { (k : ℕ) → k < 4 → int_wrap w32 (get_or result k (pos 0))
        ≡ int_wrap w32 (window_sum (length digits.now) (of_numbers digits.now)
        (of_numbers numbers.now) (k * stride)) }
    ensures fits_64 { (k : ℕ) → k < 4 → FitsSigned w64 (get_or result k (pos 0)) }
{
    let n = digits.len();
    let mut first = 0i64;
    let mut second = 0i64;
    let mut third = 0i64;
    let mut fourth = 0i64;
    for chunk in 0..n.div_ceil(CHUNK) {
        let start = CHUNK * chunk;
        let end = n.min(start + CHUNK);
        let part = &digits[start..end];
        let sums = window_sums(part, &numbers[start..end + 3 * stride], stride);
        first += sums[0] as i64;
        second += sums[1] as i64;
        third += sums[2] as i64;
        fourth += sums[3] as i64;
    }
    [first, second, third, fourth]
}
