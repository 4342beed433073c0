//! Worked values.
use crate::{add_digit_products, digit_points, divided, evaluate, limbs_of, window_sums};

/// A limb that is half of its range or more is negative, and one more is left above it. The number `2^69 -
/// 1` counts as -1.
#[test]
fn limbs_with_a_carry(rt: HostRuntime) {
    assert_eq!(rt; limbs_of(511), [511, 0, 0, 0, 0, 0]);
    assert_eq!(rt; limbs_of(512), [-512, 1, 0, 0, 0, 0]);
    assert_eq!(rt; limbs_of(0x7f_c000_0000), [0, 0, 0, -1, 2, 0]);
    assert_eq!(rt; limbs_of((1 << 69) - 1), [-1, 0, 0, 0, 0, 0]);
}

/// 32 times 5, -1, `2^25` and `2^25 - 1` in two parts.
#[test]
fn words_from_two_parts(rt: HostRuntime) {
    assert_eq!(rt; divided(160, 0), 5);
    assert_eq!(rt; divided(-32, 0), 0xffff_ffff_ffff_ffff);
    assert_eq!(rt; divided(0, 1), 0x200_0000);
    assert_eq!(rt; divided(-32, 1), 0x1ff_ffff);
}

/// The digits 1 and -2 with each two neighbours of 3, 4, 5, 6, 7.
#[test]
fn four_windows(rt: HostRuntime) {
    assert_eq!(rt;
        window_sums(&[1, -2], &[3, 4, 5, 6, 7], 1),
        [-5, -6, -7, -8]
    );
}

/// The lowest digit in all places of 16 blocks of 8: where no block is turned, the sum of all is the lowest
/// number of 16 bits, and where each is taken away from another it is 0.
#[test]
fn points_of_the_lowest_digits(rt: HostRuntime) {
    let mut points = [-2048i16; 256];
    let mut turns = [0i16; 16];
    digit_points(&mut points, &mut turns, 8);
    assert_eq!(rt; points[0], -32_768);
    assert_eq!(rt; points[7], -32_768);
    assert_eq!(rt; points[8], 0);
}

/// Two rows of the lowest digits times two key polynomials of one word each: -4096 times the word, as often as
/// coefficients below the place are added less those above it are taken away.
#[test]
fn products_of_constant_rows(rt: HostRuntime) {
    let words = [0xfedc_ba98_7654_3210u64; 512];
    let mut limbs = [0i16; 6144];
    let mut values = [0u128; 1056];
    evaluate(&mut limbs, &words, &mut values, 2, 256, 16);
    let mut acc = [5u64; 256];
    let mut points = [-2048i16; 1024];
    let mut turns = [0i16; 64];
    let mut sums = [0u128; 528];
    add_digit_products(&mut acc, &mut points, &limbs, &mut turns, &mut sums, 2);
    assert_eq!(rt; acc[0], 0x1234_5678_9abe_0005);
    assert_eq!(rt; acc[127], 5);
    assert_eq!(rt; acc[255], 0x5678_9abc_df00_0005);
}
