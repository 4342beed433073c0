//! A stage moves blocks by so many bits where one bit is 1, and leaves them where it is 0. Each place has up
//! to three sources: the block itself, and parts of two blocks beside one another. At most one of them
//! has a bit at each place, so that their sum is a block.
ghost use Rattle.std.specs.Prelude.{◌≡◌, ◌⊎◌, ℕ, List, ◌<◌, ◌≤◌, ◌+◌, ◌-◌, ◌*◌, ◌/◌, ◌%◌, ◌^◌, IfOk, length};
ghost use Rattle.rx_params.specs.Kinds.{digit_at};
ghost use Rattle.rx_net.specs.Cells.{value};
ghost use Rattle.rx_net.specs.Growth.{Extends};
ghost use Rattle.rx_plan.specs.Tables.{HasEntries};
ghost use Rattle.rx_plan.specs.Values.{AreInputs, cell_value, number, number_held};
ghost use Rattle.rx_plan.specs.Planned.{Each, EachOf, AreBlocks, AreCells, HasRoom, IsCell, Lays, Planned};
ghost use Rattle.rx_plan.specs.Rows.{IsNought, column_sum};
ghost use Rattle.rx_cmp.specs.Selection.{kept_entry};
ghost use Rattle.rx_shift.specs.Shifts.{moved, in_order, place, part, part_entry, stage_jobs, Comes};

use crate::direction::{Direction, in_order};
use rx_net::NetPen;
use rx_plan::{against, digit_row, digit_table, product_row, table_of, unit_of};
use std::alloc::{AllocError, Global};

/// The blocks, moved by two to the number of each bit that is 1: a stage for each bit.
pub(crate) fn stages(
    pen: &mut NetPen,
    direction: Direction,
    a: &[u32],
    bits: &[u32],
    nought: u32,
) -> Result<Vec<u32>, AllocError>
    requires some { 1 ≤ length a.now }
    requires few { length bits.now ≤ 30 }
    requires blocks { AreBlocks pen.old a.now }
    requires bits { AreCells pen.old 1 bits.now }
    requires nought { IsNought pen.old nought }
    requires room { HasRoom pen.old (length bits.now * stage_jobs (length a.now)) }
    ensures kept { Extends pen.old pen.new }
    ensures planned { IfOk result (λ cells. Planned pen.old pen.new cells.items
        (λ _. 2 ^ pen.old.space - 1) (length a.now)
        (length bits.now * stage_jobs (length a.now)) (2 * length bits.now)
        (EachOf a.now bits.now)
        (λ inputs i. digit_at pen.old.space
        (moved direction (number_held pen.old a.now inputs)
        (number 2 (length bits.now) (cell_value pen.old bits.now inputs))) i)) }
{
    let _space = pen.space();
    let mut cells = Vec::from_slice(pen.allocator(), a)?;
    let mut distance = 1;
    for j in 0..bits.len() {
        cells = stage(pen, direction, &cells, bits[j], distance, nought)?;
        distance *= 2;
    }
    Ok(cells)
}

/// The blocks, moved by so many bits where the bit is 1: at most four jobs a block, depth 2.
fn stage(
    pen: &mut NetPen,
    direction: Direction,
    blocks: &[u32],
    bit: u32,
    distance: u32,
    nought: u32,
) -> Result<Vec<u32>, AllocError>
    requires some { 1 ≤ length blocks.now }
    requires blocks { AreBlocks pen.old blocks.now }
    requires bit { IsCell pen.old 1 bit }
    requires nought { IsNought pen.old nought }
    requires room { HasRoom pen.old (stage_jobs (length blocks.now)) }
    ensures kept { Extends pen.old pen.new }
    ensures planned { IfOk result (λ cells. Planned pen.old pen.new cells.items
        (λ _. 2 ^ pen.old.space - 1) (length blocks.now) (stage_jobs (length blocks.now)) 2
        (λ P. P bit × Each blocks.now P)
        (λ inputs i. digit_at pen.old.space
        (moved direction (number_held pen.old blocks.now inputs)
        (value pen.old inputs bit * distance)) i)) }
{
    let space = pen.space();
    let ordered = in_order(pen.allocator(), direction, blocks)?;
    let rows = sources(pen, direction, &ordered, bit, distance, nought)?;
    let digits = digit_table(pen.allocator(), space)?;
    let cells = digit_row(pen, &rows, blocks.len(), 3, nought, &digits)?;
    in_order(pen.allocator(), direction, &cells)
}

/// The three sources of each place, as rows: the block, and the parts of the two blocks that come in.
fn sources(
    pen: &mut NetPen,
    direction: Direction,
    ordered: &[u32],
    bit: u32,
    distance: u32,
    nought: u32,
) -> Result<Vec<u32>, AllocError>
    requires some { 1 ≤ length ordered.now }
    requires blocks { AreBlocks pen.old ordered.now }
    requires bit { IsCell pen.old 1 bit }
    requires nought { IsNought pen.old nought }
    requires room { HasRoom pen.old (3 * length ordered.now - 1) }
    ensures kept { Extends pen.old pen.new }
    ensures planned { IfOk result (λ rows. Lays pen.old pen.new rows.items
        (3 * length ordered.now) (3 * length ordered.now - 1) 1
        (λ P. P bit × Each ordered.now P)) }
    ensures sums { IfOk result (λ rows. (inputs : List ℕ) → AreInputs pen.old inputs
        → (i : ℕ) → i < length ordered.now
        → column_sum pen.new rows.items (length ordered.now) 3 inputs i
        ≡ digit_at pen.old.space
        (moved direction (number_held pen.old (in_order direction ordered.now) inputs)
        (value pen.old inputs bit * distance)) (place direction (length ordered.now) i)) }
{
    let space = pen.space();
    let steps = (distance / space) as usize;
    let bits = distance % space;
    let beyond = beyond_of(ordered.len(), steps, bits);
    let keep = keep_table(pen.allocator(), space)?;
    let near = part_table(pen.allocator(), space, direction, bits)?;
    let far = part_table(pen.allocator(), space, direction.opposite(), space - bits)?;
    let mut rows = product_row(pen, bit, ordered, 0, nought, &keep)?;
    let near_row = product_row(pen, bit, ordered, steps, nought, &near)?;
    rows.extend_from_slice(&near_row)?;
    let far_row = product_row(pen, bit, ordered, beyond, nought, &far)?;
    rows.extend_from_slice(&far_row)?;
    Ok(rows)
}

/// From which place on the parts of the blocks that stand one step further come in: from none where no bits
/// pass a block.
fn beyond_of(count: usize, steps: usize, bits: u32) -> usize
    requires { steps < 2 ^ 32 }
    ensures { Comes count steps bits result }
{
    if bits == 0 { count } else { steps + 1 }
}

/// The blocks where the flag is 0, else 0: one job a block.
pub(crate) fn cleared(pen: &mut NetPen, flag: u32, blocks: &[u32]) -> Result<Vec<u32>, AllocError>
    requires flag { IsCell pen.old 1 flag }
    requires blocks { AreBlocks pen.old blocks.now }
    requires room { HasRoom pen.old (length blocks.now) }
    ensures kept { Extends pen.old pen.new }
    ensures planned { IfOk result (λ cells. Planned pen.old pen.new cells.items
        (λ _. 2 ^ pen.old.space - 1) (length blocks.now) (length blocks.now) 1
        (λ P. P flag × Each blocks.now P)
        (λ inputs i. kept_entry 0 (2 ^ pen.old.space)
        (2 ^ pen.old.space * value pen.old inputs flag
        + cell_value pen.old blocks.now inputs i))) }
{
    let space = pen.space();
    let table = keep_table(pen.allocator(), space)?;
    against(pen, unit_of(space), flag, blocks, &table)
}

/// The table that keeps a block where the bit is 0.
fn keep_table(alloc: Global, space: u32) -> Result<Vec<u8>, AllocError>
    requires { (space ≡ 2) ⊎ (space ≡ 3) }
    ensures { IfOk result (λ table. HasEntries space (kept_entry 0 (2 ^ space)) table.items) }
{
    let unit = unit_of(space);
    table_of(
        alloc,
        space,
        |i: u8| -> u8
            requires { 0 < unit }
            ensures { result ≡ kept_entry 0 unit i }
        { kept_of(i, unit, 0) },
    )
}

/// The table of the part of a block that stays in its place, where the bit is 1.
fn part_table(
    alloc: Global,
    space: u32,
    direction: Direction,
    bits: u32,
) -> Result<Vec<u8>, AllocError>
    requires space { (space ≡ 2) ⊎ (space ≡ 3) }
    requires bits { bits ≤ space }
    ensures { IfOk result (λ table. HasEntries space
        (part_entry direction (2 ^ space) bits) table.items) }
{
    let unit = unit_of(space);
    table_of(
        alloc,
        space,
        |i: u8| -> u8
            requires some { 0 < unit }
            requires few { unit ≤ 8 }
            requires bits { bits ≤ 3 }
            ensures { result ≡ part_entry direction unit bits i }
        { part_of(direction, unit, bits, kept_of(i, unit, 1)) },
    )
}

/// The block of an index where its bit is as it is wanted, else 0.
fn kept_of(i: u8, unit: u8, wanted: u8) -> u8
    requires { 0 < unit }
    ensures entry { result ≡ kept_entry wanted unit i }
    ensures low { result < unit }
{
    if i / unit == wanted { i % unit } else { 0 }
}

/// What stays in a block that is moved by so many bits.
fn part_of(direction: Direction, unit: u8, bits: u32, block: u8) -> u8
    requires some { 0 < unit }
    requires few { unit ≤ 8 }
    requires bits { bits ≤ 3 }
    requires block { block < unit }
    ensures { result ≡ part direction unit bits block }
{
    match direction {
        Direction::Up => (block << bits) % unit,
        Direction::Down => block >> bits,
    }
}
