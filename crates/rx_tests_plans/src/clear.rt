//! Operations on whole numbers, and numbers as digits.
use std::alloc::{AllocError, Global};

/// The planners that are tried.
#[derive(Clone, Copy, Debug, PartialEq, Eq)]
pub(crate) enum Planner {
    Add,
    Sub,
    Neg,
    CarryOut,
    BorrowOut,
    Mul,
}

/// The greatest number of so many bits, at most 64.
pub(crate) fn greatest(bits: u32) -> u64 {
    u64::MAX
        .checked_shr(64u32.saturating_sub(bits))
        .unwrap_or(0)
}

/// What an operation makes of two numbers of so many bits.
pub(crate) fn in_the_clear(planner: Planner, bits: u32, a: u64, b: u64) -> u64 {
    let most = greatest(bits);
    match planner {
        Planner::Add => a.wrapping_add(b) & most,
        Planner::Sub => a.wrapping_sub(b) & most,
        Planner::Neg => a.wrapping_neg() & most,
        Planner::CarryOut => u64::from(most.wrapping_sub(a) < b),
        Planner::BorrowOut => u64::from(a < b),
        Planner::Mul => a.wrapping_mul(b) & most,
    }
}

/// So many digits of each of two numbers, the least first.
pub(crate) fn digits(
    alloc: Global,
    space: u32,
    blocks: u32,
    a: u64,
    b: u64,
) -> Result<Vec<u8>, AllocError> {
    let mut digits = Vec::new(alloc);
    push_digits(&mut digits, space, blocks, a)?;
    push_digits(&mut digits, space, blocks, b)?;
    Ok(digits)
}

fn push_digits(
    digits: &mut Vec<u8>,
    space: u32,
    blocks: u32,
    number: u64,
) -> Result<(), AllocError> {
    let mut rest = number;
    for _i in 0..blocks {
        digits.push((rest & greatest(space) & 7) as u8)?;
        rest = rest.checked_shr(space).unwrap_or(0);
    }
    Ok(())
}

/// The number that some cells hold.
pub(crate) fn number_in(space: u32, values: &[u8], cells: &[u32]) -> u64 {
    let mut number = 0u64;
    for cell in cells.iter().rev() {
        let digit = values.get(*cell as usize).copied().unwrap_or(0);
        number = number.checked_shl(space).unwrap_or(0) | u64::from(digit);
    }
    number
}

/// The pairs of numbers that are tried: 25 of the edges, and then drawn ones (the steps of splitmix64).
pub(crate) fn pair(number: u64, bits: u32) -> (u64, u64) {
    let most = greatest(bits);
    if number < 25 {
        (edge(number / 5, most), edge(number % 5, most))
    } else {
        (
            drawn(number) & most,
            drawn(number.wrapping_add(1_000)) & most,
        )
    }
}

fn edge(number: u64, most: u64) -> u64 {
    match number {
        0 => 0,
        1 => 1 & most,
        2 => most,
        3 => most.wrapping_sub(1) & most,
        _ => most / 2,
    }
}

fn drawn(number: u64) -> u64 {
    let seed = number.wrapping_mul(0x9e37_79b9_7f4a_7c15);
    let mixed = (seed ^ (seed >> 30)).wrapping_mul(0xbf58_476d_1ce4_e5b9);
    let mixed = (mixed ^ (mixed >> 27)).wrapping_mul(0x94d0_49bb_1331_11eb);
    mixed ^ (mixed >> 31)
}
