//! The rows of a product: the low digits of the products of each block with all, and the high digits, each row moved up.
ghost use Rattle.std.specs.Prelude.{◌≡◌, ◌⊎◌, ◌<◌, ◌≤◌, ◌-◌, ◌*◌, ◌/◌, ◌%◌, ◌^◌, ℕ, List, IfOk, length};
ghost use Rattle.rx_net.specs.Growth.{Extends};
ghost use Rattle.rx_plan.specs.Tables.{HasEntries};
ghost use Rattle.rx_plan.specs.Values.{AreInputs, number_held};
ghost use Rattle.rx_plan.specs.Planned.{EachOf, AreBlocks, HasRoom, Lays};
ghost use Rattle.rx_plan.specs.Rows.{IsNought, rows_number};

use rx_net::NetPen;
use rx_plan::{product_row, table_of, unit_of};
use std::alloc::{AllocError, Global};

/// The product of the two digits of an index.
fn product_of(i: u8, unit: u8) -> u8
    requires { 0 < unit }
    ensures { result ≡ (i / unit) * (i % unit) }
{
    (i / unit) * (i % unit)
}

fn low_table(alloc: Global, space: u32) -> Result<Vec<u8>, AllocError>
    requires { (space ≡ 2) ⊎ (space ≡ 3) }
    ensures { IfOk result (λ table. HasEntries space
        (λ i. (i / 2 ^ space) * (i % 2 ^ space) % 2 ^ space) table.items) }
{
    let unit = unit_of(space);
    table_of(
        alloc,
        space,
        |i: u8| -> u8
            requires { 0 < unit }
            ensures { result ≡ (i / unit) * (i % unit) % unit }
        { product_of(i, unit) % unit },
    )
}

fn high_table(alloc: Global, space: u32) -> Result<Vec<u8>, AllocError>
    requires { (space ≡ 2) ⊎ (space ≡ 3) }
    ensures { IfOk result (λ table. HasEntries space
        (λ i. (i / 2 ^ space) * (i % 2 ^ space) / 2 ^ space) table.items) }
{
    let unit = unit_of(space);
    table_of(
        alloc,
        space,
        |i: u8| -> u8
            requires { 0 < unit }
            ensures { result ≡ (i / unit) * (i % unit) / unit }
        { product_of(i, unit) / unit },
    )
}

/// All rows of a product, one less than twice the blocks: their sum is the product.
pub(crate) fn products(
    pen: &mut NetPen,
    a: &[u32],
    b: &[u32],
    nought: u32,
) -> Result<Vec<u32>, AllocError>
    requires some { 1 ≤ length a.now }
    requires same { length b.now ≡ length a.now }
    requires first { AreBlocks pen.old a.now }
    requires second { AreBlocks pen.old b.now }
    requires nought { IsNought pen.old nought }
    requires room { HasRoom pen.old (length a.now * length a.now) }
    ensures kept { Extends pen.old pen.new }
    ensures planned { IfOk result (λ rows. Lays pen.old pen.new rows.items
        ((2 * length a.now - 1) * length a.now) (length a.now * length a.now) 1
        (EachOf a.now b.now)) }
    ensures value { IfOk result (λ rows. (xs : List ℕ) → AreInputs pen.old xs
        → rows_number (2 ^ pen.old.space) pen.new rows.items (length a.now)
        (2 * length a.now - 1) xs % (2 ^ pen.old.space) ^ length a.now
        ≡ (number_held pen.old a.now xs * number_held pen.old b.now xs)
        % (2 ^ pen.old.space) ^ length a.now) }
{
    let space = pen.space();
    let low = low_table(pen.allocator(), space)?;
    let high = high_table(pen.allocator(), space)?;
    pair_rows(pen, a, b, nought, &low, &high)
}

/// The rows of `a` with `b`, those moved up by as much side by side: so the rounds that sum them find a nought most often.
fn pair_rows(
    pen: &mut NetPen,
    a: &[u32],
    b: &[u32],
    nought: u32,
    low: &[u8],
    high: &[u8],
) -> Result<Vec<u32>, AllocError>
    requires some { 1 ≤ length a.now }
    requires same { length b.now ≡ length a.now }
    requires first { AreBlocks pen.old a.now }
    requires second { AreBlocks pen.old b.now }
    requires nought { IsNought pen.old nought }
    requires low { HasEntries pen.old.space
        (λ i. (i / 2 ^ pen.old.space) * (i % 2 ^ pen.old.space) % 2 ^ pen.old.space) low.now }
    requires high { HasEntries pen.old.space
        (λ i. (i / 2 ^ pen.old.space) * (i % 2 ^ pen.old.space) / 2 ^ pen.old.space) high.now }
    requires room { HasRoom pen.old (length a.now * length a.now) }
    ensures kept { Extends pen.old pen.new }
    ensures planned { IfOk result (λ rows. Lays pen.old pen.new rows.items
        ((2 * length a.now - 1) * length a.now) (length a.now * length a.now) 1
        (EachOf a.now b.now)) }
    ensures value { IfOk result (λ rows. (xs : List ℕ) → AreInputs pen.old xs
        → rows_number (2 ^ pen.old.space) pen.new rows.items (length a.now)
        (2 * length a.now - 1) xs % (2 ^ pen.old.space) ^ length a.now
        ≡ (number_held pen.old a.now xs * number_held pen.old b.now xs)
        % (2 ^ pen.old.space) ^ length a.now) }
{
    let _space = pen.space();
    let mut rows = product_row(pen, a[0], b, 0, nought, low)?;
    for i in 1..a.len() {
        let above = product_row(pen, a[i - 1], b, i, nought, high)?;
        rows.extend_from_slice(&above)?;
        let row = product_row(pen, a[i], b, i, nought, low)?;
        rows.extend_from_slice(&row)?;
    }
    Ok(rows)
}
