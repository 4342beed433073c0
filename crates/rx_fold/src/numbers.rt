//! The cells that are kept, and their new numbers.
ghost use Rattle.std.specs.Prelude.{◌≡◌, ◌+◌, ◌<◌, ◌==◌, if◌then◌else◌, ◌&&◌, ◌||◌, nat_lt, false, length, IfOk};
ghost use Rattle.rx_fold.specs.Folded.{numbered};
ghost use Rattle.rx_fold.specs.Passes.{Tells, AreWithin, cell_in, is_marked};

use std::alloc::{AllocError, Global};

/// For each cell whether it is kept: the cell of an input is, and one of a job that stands for itself and is
/// live.
pub(crate) fn find_kept(
    alloc: Global,
    inputs: u32,
    reps: &[u32],
    live: &[bool],
) -> Result<Vec<bool>, AllocError>
    requires { length live.now ≡ length reps.now }
    ensures { IfOk result (λ kept. Tells false (λ c. nat_lt c inputs
        || ((cell_in reps.now c == c) && is_marked live.now c)) (length reps.now) kept.items) }
{
    let mut kept = Vec::with_capacity(alloc, reps.len())?;
    for (cell, rep) in reps.iter().enumerate() {
        kept.push(cell < inputs as usize || (*rep as usize == cell && live[cell]))?;
    }
    Ok(kept)
}

/// For each cell the new number of the one that stands for it: how many cells before that one are kept.
pub(crate) fn renumber(alloc: Global, kept: &[bool], reps: &[u32]) -> Result<Vec<u32>, AllocError>
    requires few { length kept.now < 4294967296 }
    requires within { AreWithin reps.now }
    requires count { length kept.now ≡ length reps.now }
    ensures { IfOk result (λ cells. Tells 0 (λ c.
        numbered (is_marked kept.now) (cell_in reps.now c)) (length reps.now) cells.items) }
{
    let numbers = count_before(alloc, kept)?;
    let mut cells = Vec::with_capacity(alloc, reps.len())?;
    for rep in reps {
        cells.push(numbers[*rep as usize])?;
    }
    Ok(cells)
}

/// For each cell how many cells before it are kept.
fn count_before(alloc: Global, kept: &[bool]) -> Result<Vec<u32>, AllocError>
    requires { length kept.now < 4294967296 }
    ensures { IfOk result (λ numbers. Tells 0 (numbered (is_marked kept.now)) (length kept.now)
        numbers.items) }
{
    let mut numbers = Vec::with_capacity(alloc, kept.len())?;
    let mut count = 0;
    for is_kept in kept {
        numbers.push(count)?;
        count = count_on(count, *is_kept);
    }
    Ok(numbers)
}

fn count_on(count: u32, is_kept: bool) -> u32
    requires { count < 4294967295 }
    ensures { result ≡ (if is_kept then count + 1 else count) }
{
    if is_kept { count + 1 } else { count }
}
