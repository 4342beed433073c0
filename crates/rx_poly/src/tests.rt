//! Worked values of the kernels, and long products beside the double sum.
ghost use Rattle.std.specs.Prelude.{◌≡◌, ◌<◌, length};

use crate::{
    accumulator, add_assign, binary_product_add, linear_add, product_add, rotate_into,
    turn_away_into,
};
use std::alloc::{AllocError, Global};

#[test]
fn a_last_power_times_x_comes_back_with_its_sign_turned(rt: HostRuntime) {
    let mut acc = [0; 16];
    let mut last = [0; 16];
    last[15] = 1;
    let mut x = [0; 16];
    x[1] = 1;
    product_add(&mut acc, &last, &x, &mut [0; 32]);
    let mut want = [0; 16];
    want[0] = 18446744073709551615;
    assert_eq!(rt; acc, want);
}

#[test]
fn a_product_with_negative_digits(rt: HostRuntime) {
    let mut two = [7, 11];
    product_add(&mut two, &[-1, 2], &[3, 4], &mut [0; 4]);
    // (-1 + 2 X) (3 + 4 X) is -11 + 2 X
    assert_eq!(rt; two, [18446744073709551612, 13]);
    let mut four = [0; 4];
    product_add(&mut four, &[1, -2, 0, 3], &[5, 0, 1, 2], &mut [0; 8]);
    // (1 - 2 X + 3 X^3) (5 + X^2 + 2 X^3) is 9 - 13 X - 5 X^2 + 15 X^3
    let back = u64::MAX;
    assert_eq!(rt; four, [9, back - 12, back - 4, 15]);
}

#[test]
fn five_coefficients_are_multiplied_too(rt: HostRuntime) {
    let mut acc = [0; 5];
    product_add(&mut acc, &[0, 0, 0, 0, 1], &[1, 2, 3, 4, 5], &mut [0; 10]);
    let back = u64::MAX;
    assert_eq!(rt; acc, [back - 1, back - 2, back - 3, back - 4, 1]);
}

#[test]
fn a_product_with_bits(rt: HostRuntime) {
    let mut acc = [100; 4];
    binary_product_add(&mut acc, &[1, 0, 0, 1], &[5, 0, 1, 2], &mut [9; 9]);
    // (1 + X^3) (5 + X^2 + 2 X^3) is 5 - X - X^2 + 7 X^3
    assert_eq!(rt; acc, [105, 99, 99, 107]);
}

#[test]
fn sums_wrap(rt: HostRuntime) {
    let mut acc = [u64::MAX, 1, 2, 3, 4, u64::MAX];
    add_assign(&mut acc, &[2, 3, 4, 5, 6, 3]);
    assert_eq!(rt; acc, [1, 4, 6, 8, 10, 2]);
}

#[test]
fn rotations_by_none_one_half_and_all_but_one(rt: HostRuntime) {
    let back = u64::MAX;
    let rows = [
        (0, [1, 2, 3, 4]),
        (1, [back - 3, 1, 2, 3]),
        (4, [back, back - 1, back - 2, back - 3]),
        (7, [2, 3, 4, back]),
    ];
    for (amount, want) in rows {
        let mut out = [0; 4];
        rotate_into(&mut out, &[1, 2, 3, 4], amount);
        assert_eq!(rt; out, want, "at {amount}");
    }
    let mut away = [0; 4];
    turn_away_into(&mut away, &[1, 2, 3, 4], 1);
    assert_eq!(rt; away, [back - 4, back, back, back]);
}

#[test]
fn boxes_of_two_begin_half_a_box_early(rt: HostRuntime) {
    let table = [3, 1, 0, 0, 0, 0, 0, 0, 0, 0, 0, 0, 0, 0, 0, 2];
    let unit: u64 = 576460752303423488;
    let mut out = [9; 32];
    accumulator(&table, 2, &mut out);
    let mut want = [0; 32];
    want[0] = 3 * unit;
    want[1] = unit;
    want[2] = unit;
    want[29] = 2 * unit;
    want[30] = 2 * unit;
    want[31] = (3 * unit).wrapping_neg();
    assert_eq!(rt; out, want);
}

#[test]
fn a_plain_product_is_added(rt: HostRuntime) {
    let mut out = [0; 4];
    linear_add(&mut out, &[1, 2], &[3, 4]);
    // (1 + 2 X) (3 + 4 X) is 3 + 10 X + 8 X^2
    assert_eq!(rt; out, [3, 10, 8, 0]);
    let mut again = [100; 4];
    linear_add(&mut again, &[-1, 2], &[3, 4]);
    // (-1 + 2 X) (3 + 4 X) is -3 + 2 X + 8 X^2
    assert_eq!(rt; again, [97, 102, 108, 100]);
}

#[test]
fn products_of_all_lengths_are_the_double_sum(rt: HostRuntime) -> Result<(), AllocError> {
    assert!(rt; are_double_sums(rt.alloc(), &[2, 64, 128, 136, 512, 4096])?);
    Ok(())
}

/// Whether products of such lengths are the double sum, in exactly four times as much room.
fn are_double_sums(alloc: Global, lengths: &[usize]) -> Result<bool, AllocError> {
    for n in lengths {
        if !is_double_sum(alloc, *n)? {
            return Ok(false);
        }
    }
    Ok(true)
}

/// Whether the product of the greatest small numbers and of words at the edges is the double sum.
fn is_double_sum(alloc: Global, n: usize) -> Result<bool, AllocError> {
    if n > 4096 {
        return Ok(false);
    }
    let mut small = vec![in alloc; 0i64; n]?;
    let mut big = vec![in alloc; 0u64; n]?;
    let mut acc = vec![in alloc; 1u64; n]?;
    let mut scratch = vec![in alloc; 9u64; 4 * n]?;
    fill(small.as_mut_slice(), big.as_mut_slice());
    product_add(
        acc.as_mut_slice(),
        small.as_slice(),
        big.as_slice(),
        scratch.as_mut_slice(),
    );
    Ok(all_agree(acc.as_slice(), small.as_slice(), big.as_slice()))
}

/// Numbers 2^23 and -2^23 and words 0, 2^63 and 2^64 - 1, in an order without a period of a power of two.
fn fill(small: &mut [i64], big: &mut [u64])
    requires { length big.old ≡ length small.old }
{
    for i in 0..small.len() {
        small[i] = if i % 5 < 2 { 8_388_608 } else { -8_388_608 };
        big[i] = match i % 3 {
            0 => 0,
            1 => 0x8000_0000_0000_0000,
            _ => u64::MAX,
        };
    }
}

/// Whether each word is 1 and the double sum at its place.
fn all_agree(words: &[u64], small: &[i64], big: &[u64]) -> bool
    requires same { length small.now ≡ length words.now }
    requires also { length big.now ≡ length words.now }
{
    for i in 0..words.len() {
        if words[i] != double_sum(small, big, i).wrapping_add(1) {
            return false;
        }
    }
    true
}

/// Coefficient i of the product, each term by itself.
fn double_sum(small: &[i64], big: &[u64], i: usize) -> u64
    requires same { length big.now ≡ length small.now }
    requires place { i < length small.now }
{
    let mut sum = 0u64;
    for j in 0..small.len() {
        let factor = small[j].cast_unsigned();
        sum = if j <= i {
            sum.wrapping_add(factor.wrapping_mul(big[i - j]))
        } else {
            sum.wrapping_sub(factor.wrapping_mul(big[i + (big.len() - j)]))
        };
    }
    sum
}
