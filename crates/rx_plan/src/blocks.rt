//! One job for each block.
ghost use Rattle.std.specs.Prelude.{◌≡◌, ◌≤◌, ◌+◌, ◌-◌, ◌*◌, ◌^◌, IfOk, length, get_or};
ghost use Rattle.rx_net.specs.Tags.{greatest_of};
ghost use Rattle.rx_net.specs.Cells.{value};
ghost use Rattle.rx_net.specs.Growth.{Extends};
ghost use Rattle.rx_plan.specs.Tables.{IsTable};
ghost use Rattle.rx_plan.specs.Values.{cell_value};
ghost use Rattle.rx_plan.specs.Planned.{Each, EachOf, IsCell, AreBlocks, HasRoom, Planned};

use crate::jobs::{pair, single};
use rx_net::NetPen;
use std::alloc::AllocError;

/// For each block, a job that looks it up.
pub fn each(pen: &mut NetPen, a: &[u32], table: &[u8]) -> Result<Vec<u32>, AllocError>
    requires blocks { AreBlocks pen.old a.now }
    requires table { IsTable pen.old.space table.now }
    requires room { HasRoom pen.old (length a.now) }
    ensures kept { Extends pen.old pen.new }
    ensures planned { IfOk result (λ cells. Planned pen.old pen.new cells.items
        (λ _. greatest_of table.now) (length a.now) (length a.now) 1 (Each a.now)
        (λ xs i. get_or table.now (cell_value pen.old a.now xs i) 0)) }
{
    let _space = pen.space();
    let mut cells = Vec::new(pen.allocator());
    for i in 0..a.len() {
        let cell = single(pen, a[i], table)?;
        cells.push(cell)?;
    }
    Ok(cells)
}

/// For each place, a job that looks up `factor` times the block of `a` and the block of `b`.
pub fn blockwise(
    pen: &mut NetPen,
    factor: u8,
    a: &[u32],
    b: &[u32],
    table: &[u8],
) -> Result<Vec<u32>, AllocError>
    requires factor { factor ≤ 2 ^ pen.old.space }
    requires same { length b.now ≡ length a.now }
    requires first { AreBlocks pen.old a.now }
    requires second { AreBlocks pen.old b.now }
    requires table { IsTable pen.old.space table.now }
    requires room { HasRoom pen.old (length a.now) }
    ensures kept { Extends pen.old pen.new }
    ensures planned { IfOk result (λ cells. Planned pen.old pen.new cells.items
        (λ _. greatest_of table.now) (length a.now) (length a.now) 1 (EachOf a.now b.now)
        (λ xs i. get_or table.now
        (factor * cell_value pen.old a.now xs i + cell_value pen.old b.now xs i) 0)) }
{
    let _space = pen.space();
    let mut cells = Vec::new(pen.allocator());
    for i in 0..a.len() {
        let cell = pair(pen, factor, a[i], b[i], table)?;
        cells.push(cell)?;
    }
    Ok(cells)
}

/// For each block, a job that looks up `factor` times the one cell `high` and the block.
pub fn against(
    pen: &mut NetPen,
    factor: u8,
    high: u32,
    a: &[u32],
    table: &[u8],
) -> Result<Vec<u32>, AllocError>
    requires factor { factor ≤ 2 ^ pen.old.space }
    requires one { IsCell pen.old (2 ^ pen.old.space - 1) high }
    requires blocks { AreBlocks pen.old a.now }
    requires table { IsTable pen.old.space table.now }
    requires room { HasRoom pen.old (length a.now) }
    ensures kept { Extends pen.old pen.new }
    ensures planned { IfOk result (λ cells. Planned pen.old pen.new cells.items
        (λ _. greatest_of table.now) (length a.now) (length a.now) 1
        (λ P. P high × Each a.now P)
        (λ xs i. get_or table.now
        (factor * value pen.old xs high + cell_value pen.old a.now xs i) 0)) }
{
    let _space = pen.space();
    let mut cells = Vec::new(pen.allocator());
    for i in 0..a.len() {
        let cell = pair(pen, factor, high, a[i], table)?;
        cells.push(cell)?;
    }
    Ok(cells)
}
