//! Tables, made of functions.
ghost use Rattle.std.specs.Prelude.{◌≡◌, ◌⊎◌, ℕ, ◌<◌, ◌≤◌, ◌*◌, ◌/◌, ◌%◌, ◌^◌, IfOk, length, get_or};
ghost use Rattle.rx_plan.specs.Tables.{entries, HasEntries};

use std::alloc::{AllocError, Global};

/// How many values a block has, 2 to the power of the space: 4 or 8.
pub fn unit_of(space: u32) -> u8
    requires { (space ≡ 2) ⊎ (space ≡ 3) }
    ensures value { result ≡ 2 ^ space }
    ensures low { 4 ≤ result }
    ensures high { result ≤ 8 }
{
    if space == 2 { 4 } else { 8 }
}

/// The table of what a function gives at each index, from 0 to `4^space - 1`.
pub fn table_of<F: Fn(u8) -> u8>(alloc: Global, space: u32, f: F) -> Result<Vec<u8>, AllocError>
    requires space { (space ≡ 2) ⊎ (space ≡ 3) }
    requires callable { F.IsAlwaysCallable f }
    ensures { IfOk result (λ table. (length table.items ≡ entries space)
        × ((i : ℕ) → i < entries space → F.post f i (get_or table.items i 0))) }
{
    let unit = unit_of(space);
    let mut table = Vec::new(alloc);
    for i in 0..unit * unit {
        let entry = f(i);
        table.push(entry)?;
    }
    Ok(table)
}

/// The table that is 0 everywhere.
pub fn zero_table(alloc: Global, space: u32) -> Result<Vec<u8>, AllocError>
    requires { (space ≡ 2) ⊎ (space ≡ 3) }
    ensures { IfOk result (λ table. HasEntries space (λ _. 0) table.items) }
{
    table_of(
        alloc,
        space,
        |_i: u8| -> u8
            ensures { result ≡ 0 }
        { 0 },
    )
}

/// The table of the low digit of each index.
pub fn digit_table(alloc: Global, space: u32) -> Result<Vec<u8>, AllocError>
    requires { (space ≡ 2) ⊎ (space ≡ 3) }
    ensures { IfOk result (λ table. HasEntries space (λ i. i % 2 ^ space) table.items) }
{
    let unit = unit_of(space);
    table_of(
        alloc,
        space,
        |i: u8| -> u8
            requires { 0 < unit }
            ensures { result ≡ i % unit }
        { i % unit },
    )
}

/// The table of the high digit of each index.
pub fn carry_table(alloc: Global, space: u32) -> Result<Vec<u8>, AllocError>
    requires { (space ≡ 2) ⊎ (space ≡ 3) }
    ensures { IfOk result (λ table. HasEntries space (λ i. i / 2 ^ space) table.items) }
{
    let unit = unit_of(space);
    table_of(
        alloc,
        space,
        |i: u8| -> u8
            requires { 0 < unit }
            ensures { result ≡ i / unit }
        { i / unit },
    )
}
