//! The cost table, row by row. A number has 1 to 64 blocks; a block has 2 or 3 message bits, which are its `space`.
ghost use Rattle.std.specs.Prelude.{◌≡◌, ◌≤◌, ◌⊎◌, ◌^◌, ◌+◌, ◌*◌};
ghost use Rattle.rx_costs.specs.Table.{row, add_depth, add_jobs, amount_shift_depth, amount_shift_jobs, bitwise_depth, bitwise_jobs, cast_depth, cast_jobs, compare_depth, compare_jobs, constant_depth, constant_jobs, div_depth, div_jobs, div_step_depth, div_step_jobs, equal_depth, equal_jobs, extreme_depth, extreme_jobs, mul_depth, mul_jobs, select_depth, select_jobs, shift_depth, shift_jobs, signed_shift_depth, signed_shift_jobs};

use crate::counts::{log_up, round_jobs, rounds};
use rx_params::noise_limit;

/// The cost of an operation: its bootstraps, and the depth of their longest chain.
#[derive(Clone, Copy, Debug, PartialEq, Eq, Drop)]
pub struct Cost {
    pub jobs: u64,
    pub depth: u32,
}

impl Cost {
    /// What takes no bootstrap.
    pub fn none() -> Cost
        ensures { result ≡ row 0 0 }
    {
        Cost { jobs: 0, depth: 0 }
    }

    /// A constant.
    pub fn constant(blocks: u32) -> Cost
        ensures value { result ≡ row (constant_jobs blocks) constant_depth }
        ensures few { result.jobs ≤ 2 ^ 32 }
        ensures shallow { result.depth ≤ 1 }
    {
        Cost {
            jobs: u64::from(blocks),
            depth: 1,
        }
    }

    /// A sum, a difference, or a number with its sign turned.
    pub fn add(blocks: u32) -> Cost
        requires some { 1 ≤ blocks }
        requires few { blocks ≤ 64 }
        ensures value { result ≡ row (add_jobs blocks) (add_depth blocks) }
        ensures few { result.jobs ≤ 2 ^ 13 }
        ensures shallow { result.depth ≤ 2 ^ 6 }
    {
        let levels = log_up(2, blocks);
        let blocks = u64::from(blocks);
        Cost {
            jobs: 2 * blocks - 1 + (blocks - 1) * u64::from(levels),
            depth: 2 + levels,
        }
    }

    /// A product.
    pub fn mul(space: u32, blocks: u32) -> Cost
        requires space { (space ≡ 2) ⊎ (space ≡ 3) }
        requires some { 1 ≤ blocks }
        requires few { blocks ≤ 64 }
        ensures value { result ≡ row (mul_jobs space blocks) (mul_depth space blocks) }
        ensures few { result.jobs ≤ 2 ^ 21 }
        ensures shallow { result.depth ≤ 2 ^ 8 }
    {
        let most = u32::from(noise_limit(space));
        let terms = 2 * blocks - 1;
        let sum = Cost::add(blocks);
        let pairs = u64::from(blocks) * u64::from(blocks);
        let levels = log_up(2, blocks);
        Cost {
            jobs: pairs + round_jobs(blocks, most, terms) + sum.jobs,
            depth: 3 + rounds(most, terms) + levels,
        }
    }

    /// A quotient with its remainder.
    pub fn div(space: u32, blocks: u32) -> Cost
        requires space { (space ≡ 2) ⊎ (space ≡ 3) }
        requires some { 1 ≤ blocks }
        requires few { blocks ≤ 64 }
        ensures value { result ≡ row (div_jobs space blocks) (div_depth space blocks) }
        ensures few { result.jobs ≤ 2 ^ 19 }
        ensures shallow { result.depth ≤ 2 ^ 13 }
    {
        let step = Cost::div_step(blocks);
        let bits = space * blocks;
        Cost {
            jobs: u64::from(bits) * step.jobs + u64::from(bits) + 2 * u64::from(blocks) + 2,
            depth: bits * step.depth + 2,
        }
    }

    /// A step of it, for one bit of the numerator.
    fn div_step(blocks: u32) -> Cost
        requires some { 1 ≤ blocks }
        requires few { blocks ≤ 64 }
        ensures value { result ≡ row (div_step_jobs blocks) (div_step_depth blocks) }
        ensures few { result.jobs ≤ 2566 }
        ensures shallow { result.depth ≤ 37 }
    {
        let levels = log_up(2, blocks + 1);
        let blocks = u64::from(blocks);
        Cost {
            jobs: 8 * (blocks + 1) - 2 + blocks * u64::from(levels),
            depth: 5 + levels,
        }
    }

    /// Bit by bit.
    pub fn bitwise(blocks: u32) -> Cost
        ensures value { result ≡ row (bitwise_jobs blocks) bitwise_depth }
        ensures few { result.jobs ≤ 2 ^ 32 }
        ensures shallow { result.depth ≤ 1 }
    {
        Cost {
            jobs: u64::from(blocks),
            depth: 1,
        }
    }

    /// A shift by a told amount.
    pub fn shift(blocks: u32) -> Cost
        ensures value { result ≡ row (shift_jobs blocks) shift_depth }
        ensures few { result.jobs ≤ 2 ^ 32 }
        ensures shallow { result.depth ≤ 1 }
    {
        Cost {
            jobs: u64::from(blocks),
            depth: 1,
        }
    }

    /// A shift by an encrypted amount, of which so many low bits are looked at one by one.
    pub fn amount_shift(bits: u32, blocks: u32) -> Cost
        requires few_bits { bits ≤ 32 }
        requires few { blocks ≤ 64 }
        ensures value { result ≡ row (amount_shift_jobs bits blocks) (amount_shift_depth bits) }
        ensures few { result.jobs ≤ 2 ^ 14 }
        ensures shallow { result.depth ≤ 2 ^ 7 }
    {
        let stages = stage_jobs(bits, blocks);
        Cost {
            jobs: stages + 2 * u64::from(blocks) + 1,
            depth: 2 * bits + 2,
        }
    }

    /// The same to the right, of a signed number.
    pub fn signed_shift(bits: u32, blocks: u32) -> Cost
        requires few_bits { bits ≤ 32 }
        requires few { blocks ≤ 64 }
        ensures value { result ≡ row (signed_shift_jobs bits blocks) (signed_shift_depth bits) }
        ensures few { result.jobs ≤ 2 ^ 14 }
        ensures shallow { result.depth ≤ 2 ^ 7 }
    {
        let stages = stage_jobs(bits, blocks);
        Cost {
            jobs: stages + 4 * u64::from(blocks) + 2,
            depth: 2 * bits + 4,
        }
    }

    /// Whether two numbers are equal.
    pub fn equal(space: u32, blocks: u32) -> Cost
        requires space { (space ≡ 2) ⊎ (space ≡ 3) }
        requires some { 1 ≤ blocks }
        requires few { blocks ≤ 64 }
        ensures value { result ≡ row (equal_jobs blocks) (equal_depth space blocks) }
        ensures few { result.jobs ≤ 2 ^ 7 }
        ensures shallow { result.depth ≤ 2 ^ 6 }
    {
        let most = u32::from(noise_limit(space));
        let levels = log_up(most, blocks);
        Cost {
            jobs: 2 * u64::from(blocks) - 1,
            depth: 1 + levels,
        }
    }

    /// Which of two numbers is less.
    pub fn compare(blocks: u32) -> Cost
        requires some { 1 ≤ blocks }
        requires few { blocks ≤ 64 }
        ensures value { result ≡ row (compare_jobs blocks) (compare_depth blocks) }
        ensures few { result.jobs ≤ 2 ^ 7 }
        ensures shallow { result.depth ≤ 2 ^ 6 }
    {
        let levels = log_up(2, blocks);
        Cost {
            jobs: 2 * u64::from(blocks) - 1,
            depth: 1 + levels,
        }
    }

    /// One of two numbers, by a bit.
    pub fn select(blocks: u32) -> Cost
        ensures value { result ≡ row (select_jobs blocks) select_depth }
        ensures few { result.jobs ≤ 2 ^ 34 }
        ensures shallow { result.depth ≤ 2 }
    {
        Cost {
            jobs: 3 * u64::from(blocks),
            depth: 2,
        }
    }

    /// The lesser or the greater of two numbers.
    pub fn extreme(blocks: u32) -> Cost
        requires some { 1 ≤ blocks }
        requires few { blocks ≤ 64 }
        ensures value { result ≡ row (extreme_jobs blocks) (extreme_depth blocks) }
        ensures few { result.jobs ≤ 2 ^ 9 }
        ensures shallow { result.depth ≤ 2 ^ 6 }
    {
        let levels = log_up(2, blocks);
        Cost {
            jobs: 5 * u64::from(blocks) - 1,
            depth: 3 + levels,
        }
    }

    /// A number of `given` blocks in `wanted` blocks.
    pub fn cast(given: u32, wanted: u32) -> Cost
        ensures value { result ≡ row (cast_jobs given wanted) cast_depth }
        ensures few { result.jobs ≤ 2 ^ 32 }
        ensures shallow { result.depth ≤ 1 }
    {
        Cost {
            jobs: u64::from(wanted.saturating_sub(given)),
            depth: 1,
        }
    }
}

/// The jobs of the stages of a shift by an encrypted amount, one for each bit, with those of the bits.
fn stage_jobs(low_bits: u32, blocks: u32) -> u64
    requires few_bits { low_bits ≤ 32 }
    requires few { blocks ≤ 64 }
    ensures value { result ≡ low_bits + 4 * blocks * low_bits }
    ensures few { result ≤ 2 ^ 13 + 32 }
{
    let low_bits = u64::from(low_bits);
    low_bits + 4 * u64::from(blocks) * low_bits
}
