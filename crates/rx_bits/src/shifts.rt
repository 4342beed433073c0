//! Shifts by a told amount: blocks that only move are kept, and a job looks at two blocks that stand
//! beside one another.
ghost use Rattle.std.specs.Prelude.{◌≡◌, ◌⊎◌, pos, ◌<◌, ◌≤◌, ◌+◌, ◌-◌, ◌*◌, ◌/◌, ◌%◌, ◌^◌, IfOk, OnOk, OnErr, length, get_or};
ghost use Rattle.std.specs.Int.{int_div_euclid};
ghost use Rattle.rx_params.specs.Kinds.{digit_at};
ghost use Rattle.rx_net.specs.Growth.{Extends};
ghost use Rattle.rx_plan.specs.Tables.{HasEntries};
ghost use Rattle.rx_plan.specs.Values.{number_held, cell_value};
ghost use Rattle.rx_plan.specs.Planned.{AreBlocks, Each, HasRoom, Planned};
ghost use Rattle.rx_residue.specs.Residues.{residue, signed};
ghost use Rattle.rx_costs.specs.Table.{shift_jobs, shift_depth};
ghost use Rattle.rx_plan.specs.Results.{GivesNumber};
ghost use Rattle.rx_bits.specs.Signs.{shifted_down, fill_digit, between};
ghost use Rattle.rx_bits.specs.Shifts.{raised_digit, lowered_digit};

use crate::fills::{fill_of, filled};
use rx_net::NetPen;
use rx_plan::{blockwise, single, table_of, unit_of};
use std::alloc::{AllocError, Global};

/// Appends `a` times `2^amount`, of which the bits above the width of `a` are lost: at most one job for
/// each block, depth 1. The only error is want of memory, after which `out` is as before.
pub fn shl(pen: &mut NetPen, a: &[u32], amount: u32, out: &mut Vec<u32>) -> Result<(), AllocError>
    requires some { 1 ≤ length a.now }
    requires blocks { AreBlocks pen.old a.now }
    requires room { HasRoom pen.old (shift_jobs (length a.now)) }
    ensures kept { Extends pen.old pen.new }
    ensures unchanged { OnErr result (out.new.items ≡ out.old.items) }
    ensures gives { OnOk result (GivesNumber pen.old pen.new out.old.items out.new.items
        (length a.now) (shift_jobs (length a.now)) shift_depth (Each a.now)
        (λ inputs. number_held pen.old a.now inputs * 2 ^ amount)) }
{
    let _space = pen.space();
    let cells = moved_up(pen, a, amount)?;
    out.extend_from_slice(&cells)?;
    Ok(())
}

/// Appends `a` divided by `2^amount`, rounded down: at most one job for each block, depth 1. The only
/// error is want of memory, after which `out` is as before.
pub fn shr(pen: &mut NetPen, a: &[u32], amount: u32, out: &mut Vec<u32>) -> Result<(), AllocError>
    requires some { 1 ≤ length a.now }
    requires blocks { AreBlocks pen.old a.now }
    requires room { HasRoom pen.old (shift_jobs (length a.now)) }
    ensures kept { Extends pen.old pen.new }
    ensures unchanged { OnErr result (out.new.items ≡ out.old.items) }
    ensures gives { OnOk result (GivesNumber pen.old pen.new out.old.items out.new.items
        (length a.now) (shift_jobs (length a.now)) shift_depth (Each a.now)
        (λ inputs. number_held pen.old a.now inputs / 2 ^ amount)) }
{
    let _space = pen.space();
    let cells = moved_down(pen, a, amount, false)?;
    out.extend_from_slice(&cells)?;
    Ok(())
}

/// Appends the signed number `a` divided by `2^amount`, rounded down: copies of the sign bit come in. At
/// most one job for each block, depth 1. The only error is want of memory, after which `out` is as before.
pub fn sar(pen: &mut NetPen, a: &[u32], amount: u32, out: &mut Vec<u32>) -> Result<(), AllocError>
    requires some { 1 ≤ length a.now }
    requires blocks { AreBlocks pen.old a.now }
    requires room { HasRoom pen.old (shift_jobs (length a.now)) }
    ensures kept { Extends pen.old pen.new }
    ensures unchanged { OnErr result (out.new.items ≡ out.old.items) }
    ensures gives { OnOk result (GivesNumber pen.old pen.new out.old.items out.new.items
        (length a.now) (shift_jobs (length a.now)) shift_depth (Each a.now)
        (λ inputs. residue (pen.old.space * length a.now) (int_div_euclid
        (signed (pen.old.space * length a.now) (number_held pen.old a.now inputs))
        (pos (2 ^ amount))))) }
{
    let _space = pen.space();
    let cells = moved_down(pen, a, amount, true)?;
    out.extend_from_slice(&cells)?;
    Ok(())
}

/// The blocks moved up, with 0 below them.
fn moved_up(pen: &mut NetPen, a: &[u32], amount: u32) -> Result<Vec<u32>, AllocError>
    requires some { 1 ≤ length a.now }
    requires blocks { AreBlocks pen.old a.now }
    requires room { HasRoom pen.old (length a.now) }
    ensures kept { Extends pen.old pen.new }
    ensures planned { IfOk result (λ cells. Planned pen.old pen.new cells.items
        (λ _. 2 ^ pen.old.space - 1) (length a.now) (length a.now) 1 (Each a.now)
        (λ inputs i. digit_at pen.old.space (number_held pen.old a.now inputs * 2 ^ amount) i)) }
{
    let space = pen.space();
    let count = a.len().min((amount / space) as usize);
    let mut cells = filled(pen, a[0], false, count)?;
    let moved = raised(pen, &a[..a.len() - count], amount % space)?;
    cells.extend_from_slice(&moved)?;
    Ok(cells)
}

/// The blocks moved down, with what stands above a number above them.
fn moved_down(
    pen: &mut NetPen,
    a: &[u32],
    amount: u32,
    signed: bool,
) -> Result<Vec<u32>, AllocError>
    requires some { 1 ≤ length a.now }
    requires blocks { AreBlocks pen.old a.now }
    requires room { HasRoom pen.old (length a.now) }
    ensures kept { Extends pen.old pen.new }
    ensures planned { IfOk result (λ cells. Planned pen.old pen.new cells.items
        (λ _. 2 ^ pen.old.space - 1) (length a.now) (length a.now) 1 (Each a.now)
        (λ inputs i. digit_at pen.old.space (shifted_down signed
        (pen.old.space * length a.now) amount (number_held pen.old a.now inputs)) i)) }
{
    let space = pen.space();
    let count = a.len().min((amount / space) as usize);
    let mut cells = lowered(pen, &a[count..], amount % space, signed)?;
    let above = filled(pen, a[a.len() - 1], signed, count)?;
    cells.extend_from_slice(&above)?;
    Ok(cells)
}

/// Blocks moved up by fewer bits than a block has.
fn raised(pen: &mut NetPen, part: &[u32], bits: u32) -> Result<Vec<u32>, AllocError>
    requires bits { bits < pen.old.space }
    requires blocks { AreBlocks pen.old part.now }
    requires room { HasRoom pen.old (length part.now) }
    ensures kept { Extends pen.old pen.new }
    ensures planned { IfOk result (λ cells. Planned pen.old pen.new cells.items
        (λ _. 2 ^ pen.old.space - 1) (length part.now) (length part.now) 1 (Each part.now)
        (λ inputs i. raised_digit pen.old.space bits (cell_value pen.old part.now inputs) i)) }
{
    let _space = pen.space();
    if bits == 0 || part.is_empty() {
        Vec::from_slice(pen.allocator(), part)
    } else {
        raised_blocks(pen, part, bits)
    }
}

/// Blocks moved up by some bits: the lowest by itself, and each other one with the block below it.
fn raised_blocks(pen: &mut NetPen, part: &[u32], bits: u32) -> Result<Vec<u32>, AllocError>
    requires low { 1 ≤ bits }
    requires bits { bits < pen.old.space }
    requires some { 1 ≤ length part.now }
    requires blocks { AreBlocks pen.old part.now }
    requires room { HasRoom pen.old (length part.now) }
    ensures kept { Extends pen.old pen.new }
    ensures planned { IfOk result (λ cells. Planned pen.old pen.new cells.items
        (λ _. 2 ^ pen.old.space - 1) (length part.now) (length part.now) 1 (Each part.now)
        (λ inputs i. raised_digit pen.old.space bits (cell_value pen.old part.now inputs) i)) }
{
    let space = pen.space();
    let table = low_table(pen.allocator(), space, bits)?;
    let low = single(pen, part[0], &table)?;
    let mut cells = vec![in pen.allocator(); low]?;
    let others = between_blocks(pen, part, space - bits)?;
    cells.extend_from_slice(&others)?;
    Ok(cells)
}

/// Blocks moved down by fewer bits than a block has.
fn lowered(pen: &mut NetPen, part: &[u32], bits: u32, signed: bool) -> Result<Vec<u32>, AllocError>
    requires bits { bits < pen.old.space }
    requires blocks { AreBlocks pen.old part.now }
    requires room { HasRoom pen.old (length part.now) }
    ensures kept { Extends pen.old pen.new }
    ensures planned { IfOk result (λ cells. Planned pen.old pen.new cells.items
        (λ _. 2 ^ pen.old.space - 1) (length part.now) (length part.now) 1 (Each part.now)
        (λ inputs i. lowered_digit signed pen.old.space (length part.now) bits
        (cell_value pen.old part.now inputs) i)) }
{
    let _space = pen.space();
    if bits == 0 || part.is_empty() {
        Vec::from_slice(pen.allocator(), part)
    } else {
        lowered_blocks(pen, part, bits, signed)
    }
}

/// Blocks moved down by some bits: each with the block above it, and the top one with what stands above it.
fn lowered_blocks(
    pen: &mut NetPen,
    part: &[u32],
    bits: u32,
    signed: bool,
) -> Result<Vec<u32>, AllocError>
    requires low { 1 ≤ bits }
    requires bits { bits < pen.old.space }
    requires some { 1 ≤ length part.now }
    requires blocks { AreBlocks pen.old part.now }
    requires room { HasRoom pen.old (length part.now) }
    ensures kept { Extends pen.old pen.new }
    ensures planned { IfOk result (λ cells. Planned pen.old pen.new cells.items
        (λ _. 2 ^ pen.old.space - 1) (length part.now) (length part.now) 1 (Each part.now)
        (λ inputs i. lowered_digit signed pen.old.space (length part.now) bits
        (cell_value pen.old part.now inputs) i)) }
{
    let space = pen.space();
    let mut cells = between_blocks(pen, part, bits)?;
    let table = top_table(pen.allocator(), space, bits, signed)?;
    let top = single(pen, part[part.len() - 1], &table)?;
    cells.push(top)?;
    Ok(cells)
}

/// For each block but the last, the digit that stands so many bits above it: a job over it and the block
/// above it.
pub fn between_blocks(pen: &mut NetPen, part: &[u32], bits: u32) -> Result<Vec<u32>, AllocError>
    requires bits { bits < pen.old.space }
    requires some { 1 ≤ length part.now }
    requires blocks { AreBlocks pen.old part.now }
    requires room { HasRoom pen.old (length part.now - 1) }
    ensures kept { Extends pen.old pen.new }
    ensures planned { IfOk result (λ cells. Planned pen.old pen.new cells.items
        (λ _. 2 ^ pen.old.space - 1) (length part.now - 1) (length part.now - 1) 1 (Each part.now)
        (λ inputs i. between pen.old.space bits (cell_value pen.old part.now inputs (i + 1))
        (cell_value pen.old part.now inputs i))) }
{
    let space = pen.space();
    let table = between_table(pen.allocator(), space, bits)?;
    let last = part.len() - 1;
    blockwise(pen, unit_of(space), &part[1..], &part[..last], &table)
}

/// The table of the digit that stands so many bits above the low digit of each index.
fn between_table(alloc: Global, space: u32, bits: u32) -> Result<Vec<u8>, AllocError>
    requires space { (space ≡ 2) ⊎ (space ≡ 3) }
    requires bits { bits < space }
    ensures { IfOk result (λ table. HasEntries space (λ i. i / 2 ^ bits % 2 ^ space) table.items) }
{
    let unit = unit_of(space);
    table_of(
        alloc,
        space,
        |i: u8| -> u8
            requires some { 0 < unit }
            requires bits { bits < 3 }
            ensures { result ≡ i / 2 ^ bits % unit }
        { (i >> bits) % unit },
    )
}

/// The table of a digit that is moved up by so many bits.
fn low_table(alloc: Global, space: u32, bits: u32) -> Result<Vec<u8>, AllocError>
    requires space { (space ≡ 2) ⊎ (space ≡ 3) }
    requires bits { bits < space }
    ensures { IfOk result (λ table. HasEntries space
        (λ i. i % 2 ^ space * 2 ^ bits % 2 ^ space) table.items) }
{
    let unit = unit_of(space);
    table_of(
        alloc,
        space,
        |i: u8| -> u8
            requires some { 0 < unit }
            requires few { unit ≤ 8 }
            requires bits { bits < 3 }
            ensures { result ≡ i % unit * 2 ^ bits % unit }
        { low_entry(i, unit, bits) },
    )
}

fn low_entry(i: u8, unit: u8, bits: u32) -> u8
    requires some { 0 < unit }
    requires few { unit ≤ 8 }
    requires bits { bits < 3 }
    ensures { result ≡ i % unit * 2 ^ bits % unit }
{
    ((i % unit) << bits) % unit
}

/// The table of a top digit that is moved down by so many bits, with what stands above it.
fn top_table(alloc: Global, space: u32, bits: u32, signed: bool) -> Result<Vec<u8>, AllocError>
    requires space { (space ≡ 2) ⊎ (space ≡ 3) }
    requires bits { bits < space }
    ensures { IfOk result (λ table. HasEntries space
        (λ i. between space bits
        (fill_digit signed space (i % 2 ^ space)) (i % 2 ^ space)) table.items) }
{
    table_of(
        alloc,
        space,
        |i: u8| -> u8
            requires space { (space ≡ 2) ⊎ (space ≡ 3) }
            requires bits { bits < space }
            ensures { result ≡ between space bits
                (fill_digit signed space (i % 2 ^ space)) (i % 2 ^ space) }
        { top_entry(i, space, bits, signed) },
    )
}

fn top_entry(i: u8, space: u32, bits: u32, signed: bool) -> u8
    requires space { (space ≡ 2) ⊎ (space ≡ 3) }
    requires bits { bits < space }
    ensures { result ≡ between space bits
        (fill_digit signed space (i % 2 ^ space)) (i % 2 ^ space) }
{
    let unit = unit_of(space);
    let low = i % unit;
    let high = fill_of(space, signed, low);
    ((unit * high + low) >> bits) % unit
}
