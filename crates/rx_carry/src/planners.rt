//! The planners of sums and differences.
ghost use Rattle.std.specs.Prelude.{◌≡◌, ◌≤◌, ◌+◌, ◌-◌, ◌*◌, ◌/◌, ◌^◌, [], ◌∷◌, IfOk, OnErr, OnOk, length};
ghost use Rattle.rx_params.specs.Kinds.{digit_at};
ghost use Rattle.rx_net.specs.Cells.{cell_count};
ghost use Rattle.rx_net.specs.Growth.{Extends};
ghost use Rattle.rx_costs.specs.Table.{add_jobs, add_depth, compare_jobs, compare_depth};
ghost use Rattle.rx_plan.specs.Values.{number_held};
ghost use Rattle.rx_plan.specs.Planned.{Each, EachOf, AreBlocks, HasRoom, Planned};
ghost use Rattle.rx_plan.specs.Results.{GivesNumber, GivesBit};
ghost use Rattle.rx_carry.specs.Carries.{flipped, is_less, joint, passed, whole};
ghost use Rattle.rx_carry.specs.Prefix.{sum_jobs};

use crate::lookups::look_up;
use crate::operation::Operation;
use crate::prefix::prefix;
use crate::states::{blocks, states};
use crate::tables::{combine_table, first_table, left_table, state_tables};
use crate::tree::top;
use rx_net::NetPen;
use std::alloc::AllocError;

/// Appends the blocks of `a + b`, modulo 2 to the power of the bits of so many blocks. The only error is want
/// of memory, after which `out` and the cells that were there are as before.
pub fn add(pen: &mut NetPen, a: &[u32], b: &[u32], out: &mut Vec<u32>) -> Result<(), AllocError>
    requires some { 1 ≤ length a.now }
    requires same { length b.now ≡ length a.now }
    requires first { AreBlocks pen.old a.now }
    requires second { AreBlocks pen.old b.now }
    requires room { HasRoom pen.old (add_jobs (length a.now)) }
    ensures kept { Extends pen.old pen.new }
    ensures unchanged { OnErr result (out.new.items ≡ out.old.items) }
    ensures gives { OnOk result (GivesNumber pen.old pen.new out.old.items out.new.items
        (length a.now) (add_jobs (length a.now)) (add_depth (length a.now)) (EachOf a.now b.now)
        (λ xs. number_held pen.old a.now xs + number_held pen.old b.now xs)) }
    ensures few { OnOk result (cell_count pen.new
        ≤ cell_count pen.old + sum_jobs (length a.now)) }
{
    append(pen, Operation::Sum, a, b, out)
}

/// Appends the blocks of `a - b`, modulo 2 to the power of the bits of so many blocks. The only error is want
/// of memory, after which `out` and the cells that were there are as before.
pub fn sub(pen: &mut NetPen, a: &[u32], b: &[u32], out: &mut Vec<u32>) -> Result<(), AllocError>
    requires some { 1 ≤ length a.now }
    requires same { length b.now ≡ length a.now }
    requires first { AreBlocks pen.old a.now }
    requires second { AreBlocks pen.old b.now }
    requires room { HasRoom pen.old (add_jobs (length a.now)) }
    ensures kept { Extends pen.old pen.new }
    ensures unchanged { OnErr result (out.new.items ≡ out.old.items) }
    ensures gives { OnOk result (GivesNumber pen.old pen.new out.old.items out.new.items
        (length a.now) (add_jobs (length a.now)) (add_depth (length a.now)) (EachOf a.now b.now)
        (λ xs. number_held pen.old a.now xs + 2 ^ (pen.old.space * length a.now)
        - number_held pen.old b.now xs)) }
    ensures few { OnOk result (cell_count pen.new
        ≤ cell_count pen.old + sum_jobs (length a.now)) }
{
    append(pen, Operation::Difference, a, b, out)
}

/// Appends the blocks of `-a`, modulo 2 to the power of the bits of so many blocks. The only error is want of
/// memory, after which `out` and the cells that were there are as before.
pub fn neg(pen: &mut NetPen, a: &[u32], out: &mut Vec<u32>) -> Result<(), AllocError>
    requires some { 1 ≤ length a.now }
    requires blocks { AreBlocks pen.old a.now }
    requires room { HasRoom pen.old (add_jobs (length a.now)) }
    ensures kept { Extends pen.old pen.new }
    ensures unchanged { OnErr result (out.new.items ≡ out.old.items) }
    ensures gives { OnOk result (GivesNumber pen.old pen.new out.old.items out.new.items
        (length a.now) (add_jobs (length a.now)) (add_depth (length a.now)) (Each a.now)
        (λ xs. 2 ^ (pen.old.space * length a.now) - number_held pen.old a.now xs)) }
    ensures few { OnOk result (cell_count pen.new
        ≤ cell_count pen.old + sum_jobs (length a.now)) }
{
    append(pen, Operation::Negation, a, a, out)
}

/// Appends a bit, the carry out of `a + b`: 1 where the sum has more bits than so many blocks hold. The only
/// error is want of memory, after which `out` and the cells that were there are as before.
pub fn carry_out(
    pen: &mut NetPen,
    a: &[u32],
    b: &[u32],
    out: &mut Vec<u32>,
) -> Result<(), AllocError>
    requires some { 1 ≤ length a.now }
    requires same { length b.now ≡ length a.now }
    requires first { AreBlocks pen.old a.now }
    requires second { AreBlocks pen.old b.now }
    requires room { HasRoom pen.old (compare_jobs (length a.now)) }
    ensures kept { Extends pen.old pen.new }
    ensures unchanged { OnErr result (out.new.items ≡ out.old.items) }
    ensures gives { OnOk result (GivesBit pen.old pen.new out.old.items out.new.items
        (compare_jobs (length a.now)) (compare_depth (length a.now)) (EachOf a.now b.now)
        (λ xs. (number_held pen.old a.now xs + number_held pen.old b.now xs)
        / 2 ^ (pen.old.space * length a.now))) }
{
    let _space = pen.space();
    let cell = passed_out(pen, Operation::Sum, a, b, false)?;
    out.push(cell)?;
    Ok(())
}

/// Appends a bit, the borrow out of `a - b`: 1 where `a` is less than `b`. The only error is want of memory,
/// after which `out` and the cells that were there are as before.
pub fn borrow_out(
    pen: &mut NetPen,
    a: &[u32],
    b: &[u32],
    out: &mut Vec<u32>,
) -> Result<(), AllocError>
    requires some { 1 ≤ length a.now }
    requires same { length b.now ≡ length a.now }
    requires first { AreBlocks pen.old a.now }
    requires second { AreBlocks pen.old b.now }
    requires room { HasRoom pen.old (compare_jobs (length a.now)) }
    ensures kept { Extends pen.old pen.new }
    ensures unchanged { OnErr result (out.new.items ≡ out.old.items) }
    ensures gives { OnOk result (GivesBit pen.old pen.new out.old.items out.new.items
        (compare_jobs (length a.now)) (compare_depth (length a.now)) (EachOf a.now b.now)
        (λ xs. is_less (number_held pen.old a.now xs) (number_held pen.old b.now xs))) }
{
    let _space = pen.space();
    let cell = passed_out(pen, Operation::Difference, a, b, false)?;
    out.push(cell)?;
    Ok(())
}

/// What goes out of the last block, a carry or a borrow, or the opposite: one cell, a bit.
pub fn passed_out(
    pen: &mut NetPen,
    operation: Operation,
    a: &[u32],
    b: &[u32],
    invert: bool,
) -> Result<u32, AllocError>
    requires some { 1 ≤ length a.now }
    requires same { length b.now ≡ length a.now }
    requires first { AreBlocks pen.old a.now }
    requires second { AreBlocks pen.old b.now }
    requires room { HasRoom pen.old (compare_jobs (length a.now)) }
    ensures kept { Extends pen.old pen.new }
    ensures planned { IfOk result (λ cell. Planned pen.old pen.new (cell ∷ []) (λ _. 1) 1
        (compare_jobs (length a.now)) (compare_depth (length a.now)) (EachOf a.now b.now)
        (λ xs _. flipped invert (passed operation (2 ^ (pen.old.space * length a.now))
        (joint operation (2 ^ (pen.old.space * length a.now))
        (number_held pen.old a.now xs) (number_held pen.old b.now xs) 0)))) }
{
    let _space = pen.space();
    if a.len() == 1 {
        passed_one(pen, operation, a, b, invert)
    } else {
        passed_many(pen, operation, a, b, invert)
    }
}

/// The same of one block.
fn passed_one(
    pen: &mut NetPen,
    operation: Operation,
    a: &[u32],
    b: &[u32],
    invert: bool,
) -> Result<u32, AllocError>
    requires one { length a.now ≡ 1 }
    requires same { length b.now ≡ length a.now }
    requires first { AreBlocks pen.old a.now }
    requires second { AreBlocks pen.old b.now }
    requires room { HasRoom pen.old 1 }
    ensures kept { Extends pen.old pen.new }
    ensures planned { IfOk result (λ cell. Planned pen.old pen.new (cell ∷ []) (λ _. 1) 1
        1 1 (EachOf a.now b.now)
        (λ xs _. flipped invert (passed operation (2 ^ (pen.old.space * length a.now))
        (joint operation (2 ^ (pen.old.space * length a.now))
        (number_held pen.old a.now xs) (number_held pen.old b.now xs) 0)))) }
{
    let space = pen.space();
    let table = first_table(pen.allocator(), space, operation, invert)?;
    look_up(pen, operation, a[0], b[0], &table)
}

/// The same of several blocks.
fn passed_many(
    pen: &mut NetPen,
    operation: Operation,
    a: &[u32],
    b: &[u32],
    invert: bool,
) -> Result<u32, AllocError>
    requires many { 2 ≤ length a.now }
    requires same { length b.now ≡ length a.now }
    requires first { AreBlocks pen.old a.now }
    requires second { AreBlocks pen.old b.now }
    requires room { HasRoom pen.old (compare_jobs (length a.now)) }
    ensures kept { Extends pen.old pen.new }
    ensures planned { IfOk result (λ cell. Planned pen.old pen.new (cell ∷ []) (λ _. 1) 1
        (compare_jobs (length a.now)) (compare_depth (length a.now)) (EachOf a.now b.now)
        (λ xs _. flipped invert (passed operation (2 ^ (pen.old.space * length a.now))
        (joint operation (2 ^ (pen.old.space * length a.now))
        (number_held pen.old a.now xs) (number_held pen.old b.now xs) 0)))) }
{
    let space = pen.space();
    let tables = state_tables(pen.allocator(), space, operation)?;
    let states = states(pen, operation, a, b, a.len(), &tables)?;
    top(pen, states, invert)
}

/// Appends the blocks that the operation leaves.
fn append(
    pen: &mut NetPen,
    operation: Operation,
    a: &[u32],
    b: &[u32],
    out: &mut Vec<u32>,
) -> Result<(), AllocError>
    requires some { 1 ≤ length a.now }
    requires same { length b.now ≡ length a.now }
    requires first { AreBlocks pen.old a.now }
    requires second { AreBlocks pen.old b.now }
    requires room { HasRoom pen.old (add_jobs (length a.now)) }
    ensures kept { Extends pen.old pen.new }
    ensures unchanged { OnErr result (out.new.items ≡ out.old.items) }
    ensures gives { OnOk result (GivesNumber pen.old pen.new out.old.items out.new.items
        (length a.now) (add_jobs (length a.now)) (add_depth (length a.now)) (EachOf a.now b.now)
        (λ xs. whole operation (2 ^ (pen.old.space * length a.now))
        (number_held pen.old a.now xs) (number_held pen.old b.now xs))) }
    ensures few { OnOk result (cell_count pen.new
        ≤ cell_count pen.old + sum_jobs (length a.now)) }
{
    let _space = pen.space();
    let cells = cells_of(pen, operation, a, b)?;
    out.extend_from_slice(&cells)?;
    Ok(())
}

/// The blocks that the operation leaves.
fn cells_of(
    pen: &mut NetPen,
    operation: Operation,
    a: &[u32],
    b: &[u32],
) -> Result<Vec<u32>, AllocError>
    requires some { 1 ≤ length a.now }
    requires same { length b.now ≡ length a.now }
    requires first { AreBlocks pen.old a.now }
    requires second { AreBlocks pen.old b.now }
    requires room { HasRoom pen.old (add_jobs (length a.now)) }
    ensures kept { Extends pen.old pen.new }
    ensures planned { IfOk result (λ cells. Planned pen.old pen.new cells.items
        (λ _. 2 ^ pen.old.space - 1) (length a.now) (sum_jobs (length a.now))
        (add_depth (length a.now)) (EachOf a.now b.now)
        (λ xs i. digit_at pen.old.space (whole operation (2 ^ (pen.old.space * length a.now))
        (number_held pen.old a.now xs) (number_held pen.old b.now xs)) i)) }
{
    let space = pen.space();
    let alloc = pen.allocator();
    let tables = state_tables(alloc, space, operation)?;
    let pairs = combine_table(alloc, space, false)?;
    let left = left_table(alloc, space, operation)?;
    let states = states(pen, operation, a, b, a.len() - 1, &tables)?;
    let carries = prefix(pen, states, &pairs)?;
    blocks(pen, operation, a, b, &carries, &left)
}
