//! The planner of products.
ghost use Rattle.std.specs.Prelude.{◌≡◌, ◌≤◌, ◌+◌, ◌-◌, ◌*◌, ◌%◌, ◌^◌, ℕ, List, IfOk, OnErr, OnOk, length};
ghost use Rattle.rx_params.specs.Derived.{noise_limit};
ghost use Rattle.rx_params.specs.Kinds.{digit_at};
ghost use Rattle.rx_net.specs.Growth.{Extends};
ghost use Rattle.rx_costs.specs.Rounds.{rounds, round_jobs};
ghost use Rattle.rx_costs.specs.Table.{add_depth, add_jobs, mul_depth, mul_jobs};
ghost use Rattle.rx_plan.specs.Values.{AreInputs, cell_value, number, number_held};
ghost use Rattle.rx_plan.specs.Planned.{Each, EachOf, AreBlocks, HasRoom, Lays, Planned};
ghost use Rattle.rx_plan.specs.Results.{GivesNumber};
ghost use Rattle.rx_plan.specs.Rows.{rows_number};
ghost use Rattle.rx_mul.specs.Rows.{IsShared};

use crate::products::products;
use crate::rounds::{Shared, reduce};
use rx_carry::add;
use rx_net::NetPen;
use rx_plan::{carry_table, digit_table, nought};
use std::alloc::AllocError;

/// Appends the blocks of `a · b`, modulo 2 to the power of the bits of so many blocks. The only error is want
/// of memory, after which `out` and the cells that were there are as before.
pub fn mul(pen: &mut NetPen, a: &[u32], b: &[u32], out: &mut Vec<u32>) -> Result<(), AllocError>
    requires some { 1 ≤ length a.now }
    requires same { length b.now ≡ length a.now }
    requires first { AreBlocks pen.old a.now }
    requires second { AreBlocks pen.old b.now }
    requires room { HasRoom pen.old (mul_jobs pen.old.space (length a.now)) }
    ensures kept { Extends pen.old pen.new }
    ensures unchanged { OnErr result (out.new.items ≡ out.old.items) }
    ensures gives { OnOk result (GivesNumber pen.old pen.new out.old.items out.new.items
        (length a.now) (mul_jobs pen.old.space (length a.now))
        (mul_depth pen.old.space (length a.now)) (EachOf a.now b.now)
        (λ xs. number_held pen.old a.now xs * number_held pen.old b.now xs)) }
{
    let _space = pen.space();
    let cells = mul_cells(pen, a, b)?;
    out.extend_from_slice(&cells)?;
    Ok(())
}

/// The blocks of a product: the rows of the products of blocks, rounds, and a sum.
fn mul_cells(pen: &mut NetPen, a: &[u32], b: &[u32]) -> Result<Vec<u32>, AllocError>
    requires some { 1 ≤ length a.now }
    requires same { length b.now ≡ length a.now }
    requires first { AreBlocks pen.old a.now }
    requires second { AreBlocks pen.old b.now }
    requires room { HasRoom pen.old (mul_jobs pen.old.space (length a.now)) }
    ensures kept { Extends pen.old pen.new }
    ensures planned { IfOk result (λ cells. Planned pen.old pen.new cells.items
        (λ _. 2 ^ pen.old.space - 1) (length a.now) (mul_jobs pen.old.space (length a.now))
        (mul_depth pen.old.space (length a.now)) (EachOf a.now b.now)
        (λ xs i. digit_at pen.old.space
        (number_held pen.old a.now xs * number_held pen.old b.now xs) i)) }
{
    let space = pen.space();
    let digits = digit_table(pen.allocator(), space)?;
    let carries = carry_table(pen.allocator(), space)?;
    let nought = nought(pen)?;
    let rows = products(pen, a, b, nought)?;
    let shared = Shared {
        width: a.len(),
        nought,
        digits,
        carries,
    };
    settle(pen, &shared, rows)
}

/// The sum of all rows of a product.
fn settle(pen: &mut NetPen, shared: &Shared, rows: Vec<u32>) -> Result<Vec<u32>, AllocError>
    requires shared { IsShared pen.old shared.now }
    requires few { shared.now.width ≤ 2 ^ 16 }
    requires size { length rows.items ≡ (2 * shared.now.width - 1) * shared.now.width }
    requires rows { AreBlocks pen.old rows.items }
    requires room { HasRoom pen.old
        (round_jobs shared.now.width (noise_limit pen.old.space) (2 * shared.now.width - 1)
        + add_jobs shared.now.width - 1) }
    ensures kept { Extends pen.old pen.new }
    ensures planned { IfOk result (λ cells. Lays pen.old pen.new cells.items shared.now.width
        (round_jobs shared.now.width (noise_limit pen.old.space) (2 * shared.now.width - 1)
        + add_jobs shared.now.width - 1)
        (rounds (noise_limit pen.old.space) (2 * shared.now.width - 1)
        + add_depth shared.now.width)
        (Each rows.items)) }
    ensures value { IfOk result (λ cells. (xs : List ℕ) → AreInputs pen.old xs
        → number (2 ^ pen.old.space) shared.now.width (cell_value pen.new cells.items xs)
        ≡ rows_number (2 ^ pen.old.space) pen.old rows.items shared.now.width
        (2 * shared.now.width - 1) xs % (2 ^ pen.old.space) ^ shared.now.width) }
{
    let _space = pen.space();
    if shared.width < 2 {
        Ok(rows)
    } else {
        sum_rows(pen, shared, rows)
    }
}

/// The same of three rows or more: rounds, and then a sum.
fn sum_rows(pen: &mut NetPen, shared: &Shared, rows: Vec<u32>) -> Result<Vec<u32>, AllocError>
    requires shared { IsShared pen.old shared.now }
    requires wide { 2 ≤ shared.now.width }
    requires few { shared.now.width ≤ 2 ^ 16 }
    requires size { length rows.items ≡ (2 * shared.now.width - 1) * shared.now.width }
    requires rows { AreBlocks pen.old rows.items }
    requires room { HasRoom pen.old
        (round_jobs shared.now.width (noise_limit pen.old.space) (2 * shared.now.width - 1)
        + add_jobs shared.now.width - 1) }
    ensures kept { Extends pen.old pen.new }
    ensures planned { IfOk result (λ cells. Lays pen.old pen.new cells.items shared.now.width
        (round_jobs shared.now.width (noise_limit pen.old.space) (2 * shared.now.width - 1)
        + add_jobs shared.now.width - 1)
        (rounds (noise_limit pen.old.space) (2 * shared.now.width - 1)
        + add_depth shared.now.width)
        (Each rows.items)) }
    ensures value { IfOk result (λ cells. (xs : List ℕ) → AreInputs pen.old xs
        → number (2 ^ pen.old.space) shared.now.width (cell_value pen.new cells.items xs)
        ≡ rows_number (2 ^ pen.old.space) pen.old rows.items shared.now.width
        (2 * shared.now.width - 1) xs % (2 ^ pen.old.space) ^ shared.now.width) }
{
    let _space = pen.space();
    let width = shared.width;
    let two = reduce(pen, shared, rows, 2 * width - 1)?;
    let mut cells = Vec::new(pen.allocator());
    add(pen, &two[..width], &two[width..], &mut cells)?;
    Ok(cells)
}
