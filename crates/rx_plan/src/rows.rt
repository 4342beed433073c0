//! Rows of blocks, each of which holds a number: products of a row by one block, and sums of rows. Places
//! that are known to be 0 share one cell, and cost no job.
ghost use Rattle.std.specs.Prelude.{◌≡◌, ◌==◌, if◌then◌else◌, ◌∷◌, [], ◌++◌, OnOk, ◌<◌, ◌≤◌, ◌+◌, ◌-◌, ◌*◌, ◌/◌, ◌%◌, ◌^◌, ℕ, List, IfOk, OnErr, length, get_or};
ghost use Rattle.rx_net.specs.Tags.{greatest_of};
ghost use Rattle.rx_net.specs.Cells.{value, depth};
ghost use Rattle.rx_net.specs.Growth.{Extends};
ghost use Rattle.rx_plan.specs.Tables.{IsTable, HasEntries};
ghost use Rattle.rx_plan.specs.Values.{AreInputs, cell_value, total};
ghost use Rattle.rx_plan.specs.Planned.{Each, IsCell, AreBlocks, HasRoom, Gives, Planned};
ghost use Rattle.rx_plan.specs.Rows.{IsNought, IsColumn, shifted, jobs_at_place, column_sum, product_at};

use crate::jobs::{fixed, pair};
use crate::sums::sum;
use crate::tables::{unit_of, zero_table};
use rx_net::NetPen;
use std::alloc::{AllocError, Global};

/// A cell that is 0, in one job.
pub fn nought(pen: &mut NetPen) -> Result<u32, AllocError>
    requires { HasRoom pen.old 1 }
    ensures kept { Extends pen.old pen.new }
    ensures unchanged { OnErr result (pen.new ≡ pen.old) }
    ensures gives { IfOk result (λ cell. Gives pen.old pen.new cell 0 1) }
    ensures nought { IfOk result (λ cell. IsNought pen.new cell) }
{
    let space = pen.space();
    let zeros = zero_table(pen.allocator(), space)?;
    fixed(pen, &zeros)
}

/// A row that is made of the block `x` and each block of `b` by the table, and is moved up.
pub fn product_row(
    pen: &mut NetPen,
    x: u32,
    b: &[u32],
    shift: usize,
    nought: u32,
    table: &[u8],
) -> Result<Vec<u32>, AllocError>
    requires first { IsCell pen.old (2 ^ pen.old.space - 1) x }
    requires second { AreBlocks pen.old b.now }
    requires nought { IsNought pen.old nought }
    requires table { IsTable pen.old.space table.now }
    requires small { greatest_of table.now ≤ 2 ^ pen.old.space - 1 }
    requires room { HasRoom pen.old (length b.now - shift) }
    ensures kept { Extends pen.old pen.new }
    ensures planned { IfOk result (λ cells. Planned pen.old pen.new cells.items
        (λ _. 2 ^ pen.old.space - 1) (length b.now) (length b.now - shift) 1
        (λ P. P x × Each b.now P)
        (λ xs k. shifted shift
        (product_at (2 ^ pen.old.space) pen.old table.now x b.now xs) k)) }
{
    let _space = pen.space();
    let mut cells = Vec::new(pen.allocator());
    for k in 0..b.len() {
        let cell = product_cell(pen, x, b, k, shift, nought, table)?;
        cells.push(cell)?;
    }
    Ok(cells)
}

/// Place `k` of a row that is made by `product_row`.
fn product_cell(
    pen: &mut NetPen,
    x: u32,
    b: &[u32],
    k: usize,
    shift: usize,
    nought: u32,
    table: &[u8],
) -> Result<u32, AllocError>
    requires place { k < length b.now }
    requires first { IsCell pen.old (2 ^ pen.old.space - 1) x }
    requires second { AreBlocks pen.old b.now }
    requires nought { IsNought pen.old nought }
    requires table { IsTable pen.old.space table.now }
    requires small { greatest_of table.now ≤ 2 ^ pen.old.space - 1 }
    requires room { HasRoom pen.old (jobs_at_place shift k) }
    ensures kept { Extends pen.old pen.new }
    ensures gives { IfOk result (λ cell. Gives pen.old pen.new cell
        (2 ^ pen.old.space - 1) (jobs_at_place shift k)) }
    ensures deep { IfOk result (λ cell. (d : ℕ) → depth pen.old x ≤ d
        → Each b.now (λ o. depth pen.old o ≤ d) → depth pen.new cell ≤ d + 1) }
    ensures value { IfOk result (λ cell. (xs : List ℕ) → AreInputs pen.old xs
        → value pen.new xs cell ≡ shifted shift
        (product_at (2 ^ pen.old.space) pen.old table.now x b.now xs) k) }
{
    let space = pen.space();
    if k < shift {
        Ok(nought)
    } else {
        pair(pen, unit_of(space), x, b[k - shift], table)
    }
}

/// The digits of a sum of rows, before carries, by the table of digits. A place with one cell that may be
/// other than 0 is that cell.
pub fn digit_row(
    pen: &mut NetPen,
    rows: &[u32],
    width: usize,
    count: usize,
    nought: u32,
    digits: &[u8],
) -> Result<Vec<u32>, AllocError>
    requires size { length rows.now ≡ count * width }
    requires few { count ≤ 2 ^ pen.old.space + 1 }
    requires rows { AreBlocks pen.old rows.now }
    requires nought { IsNought pen.old nought }
    requires digits { HasEntries pen.old.space (λ i. i % 2 ^ pen.old.space) digits.now }
    requires room { HasRoom pen.old width }
    ensures kept { Extends pen.old pen.new }
    ensures planned { IfOk result (λ cells. Planned pen.old pen.new cells.items
        (λ _. 2 ^ pen.old.space - 1) width width 1 (Each rows.now)
        (λ xs k. column_sum pen.old rows.now width count xs k % 2 ^ pen.old.space)) }
{
    let _space = pen.space();
    let mut cells = Vec::new(pen.allocator());
    for k in 0..width {
        let column = column(pen.allocator(), rows, width, count, k, nought)?;
        let cell = digit_cell(pen, &column, nought, digits)?;
        cells.push(cell)?;
    }
    Ok(cells)
}

/// The carries of a sum of rows, moved up by one place, by the table of carries. A place with one cell that
/// may be other than 0 has no carry.
pub fn carry_row(
    pen: &mut NetPen,
    rows: &[u32],
    width: usize,
    count: usize,
    nought: u32,
    carries: &[u8],
) -> Result<Vec<u32>, AllocError>
    requires wide { 1 ≤ width }
    requires size { length rows.now ≡ count * width }
    requires few { count ≤ 2 ^ pen.old.space + 1 }
    requires rows { AreBlocks pen.old rows.now }
    requires nought { IsNought pen.old nought }
    requires carries { HasEntries pen.old.space (λ i. i / 2 ^ pen.old.space) carries.now }
    requires room { HasRoom pen.old (width - 1) }
    ensures kept { Extends pen.old pen.new }
    ensures planned { IfOk result (λ cells. Planned pen.old pen.new cells.items
        (λ _. 2 ^ pen.old.space - 1) width (width - 1) 1 (Each rows.now)
        (λ xs k. shifted 1
        (λ k. column_sum pen.old rows.now width count xs k / 2 ^ pen.old.space) k)) }
{
    let _space = pen.space();
    let mut cells = Vec::new(pen.allocator());
    cells.push(nought)?;
    for k in 0..width - 1 {
        let column = column(pen.allocator(), rows, width, count, k, nought)?;
        let cell = carry_cell(pen, &column, nought, carries)?;
        cells.push(cell)?;
    }
    Ok(cells)
}

/// The cells at place `k` of the rows, but the cell that is 0.
fn column(
    alloc: Global,
    rows: &[u32],
    width: usize,
    count: usize,
    k: usize,
    nought: u32,
) -> Result<Vec<u32>, AllocError>
    requires place { k < width }
    requires size { length rows.now ≡ count * width }
    ensures { IfOk result (λ cells. IsColumn rows.now width count k nought cells.items) }
{
    let mut cells = Vec::new(alloc);
    for r in 0..count {
        push_unless(&mut cells, rows[r * width + k], nought)?;
    }
    Ok(cells)
}

/// Appends a cell, unless it is the cell that is 0.
fn push_unless(cells: &mut Vec<u32>, cell: u32, nought: u32) -> Result<(), AllocError>
    ensures { OnOk result (cells.new.items
        ≡ if cell == nought then cells.old.items else cells.old.items ++ cell ∷ []) }
{
    if cell != nought {
        cells.push(cell)?;
    }
    Ok(())
}

/// The low digit of a sum of blocks.
fn digit_cell(
    pen: &mut NetPen,
    blocks: &[u32],
    nought: u32,
    digits: &[u8],
) -> Result<u32, AllocError>
    requires few { length blocks.now ≤ 2 ^ pen.old.space + 1 }
    requires blocks { AreBlocks pen.old blocks.now }
    requires nought { IsNought pen.old nought }
    requires digits { HasEntries pen.old.space (λ i. i % 2 ^ pen.old.space) digits.now }
    requires room { HasRoom pen.old 1 }
    ensures kept { Extends pen.old pen.new }
    ensures gives { IfOk result (λ cell. Gives pen.old pen.new cell
        (2 ^ pen.old.space - 1) 1) }
    ensures deep { IfOk result (λ cell. (d : ℕ) → Each blocks.now (λ o. depth pen.old o ≤ d)
        → depth pen.new cell ≤ d + 1) }
    ensures value { IfOk result (λ cell. (xs : List ℕ) → AreInputs pen.old xs
        → value pen.new xs cell
        ≡ total (length blocks.now) (cell_value pen.old blocks.now xs) % 2 ^ pen.old.space) }
{
    let _space = pen.space();
    if blocks.is_empty() {
        Ok(nought)
    } else if blocks.len() == 1 {
        Ok(blocks[0])
    } else {
        sum(pen, blocks, digits)
    }
}

/// The high digit of a sum of blocks.
fn carry_cell(
    pen: &mut NetPen,
    blocks: &[u32],
    nought: u32,
    carries: &[u8],
) -> Result<u32, AllocError>
    requires few { length blocks.now ≤ 2 ^ pen.old.space + 1 }
    requires blocks { AreBlocks pen.old blocks.now }
    requires nought { IsNought pen.old nought }
    requires carries { HasEntries pen.old.space (λ i. i / 2 ^ pen.old.space) carries.now }
    requires room { HasRoom pen.old 1 }
    ensures kept { Extends pen.old pen.new }
    ensures gives { IfOk result (λ cell. Gives pen.old pen.new cell
        (2 ^ pen.old.space - 1) 1) }
    ensures deep { IfOk result (λ cell. (d : ℕ) → Each blocks.now (λ o. depth pen.old o ≤ d)
        → depth pen.new cell ≤ d + 1) }
    ensures value { IfOk result (λ cell. (xs : List ℕ) → AreInputs pen.old xs
        → value pen.new xs cell
        ≡ total (length blocks.now) (cell_value pen.old blocks.now xs) / 2 ^ pen.old.space) }
{
    let _space = pen.space();
    if blocks.len() < 2 {
        Ok(nought)
    } else {
        sum(pen, blocks, carries)
    }
}
