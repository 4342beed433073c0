//! What a shift asks of its amount: the low bits one by one, and whether there is anything above them.
ghost use Rattle.std.specs.Prelude.{◌≡◌, ◌⊎◌, ◌<◌, ◌≤◌, ◌+◌, ◌-◌, ◌*◌, ◌/◌, ◌%◌, ◌^◌, IfOk, length, [], ◌∷◌};
ghost use Rattle.rx_net.specs.Cells.{value};
ghost use Rattle.rx_net.specs.Growth.{Extends};
ghost use Rattle.rx_plan.specs.Tables.{HasEntries};
ghost use Rattle.rx_plan.specs.Values.{number_held};
ghost use Rattle.rx_plan.specs.Planned.{Each, IsCell, AreBlocks, HasRoom, Planned};
ghost use Rattle.rx_costs.specs.Logs.{log_up};
ghost use Rattle.rx_shift.specs.Amount.{bit_at, is_wide, digit_above};

use rx_cmp::any_set;
use rx_net::NetPen;
use rx_plan::{single, table_of, unit_of};
use std::alloc::{AllocError, Global};

/// The low bits of the amount, the lowest first: one job for each.
pub fn low_bits(pen: &mut NetPen, amount: &[u32], count: u32) -> Result<Vec<u32>, AllocError>
    requires blocks { AreBlocks pen.old amount.now }
    requires few { count ≤ pen.old.space * length amount.now }
    requires room { HasRoom pen.old count }
    ensures kept { Extends pen.old pen.new }
    ensures planned { IfOk result (λ cells. Planned pen.old pen.new cells.items (λ _. 1)
        count count 1 (Each amount.now)
        (λ inputs j. bit_at (number_held pen.old amount.now inputs) j)) }
{
    let space = pen.space();
    let mut cells = Vec::new(pen.allocator());
    for j in 0..count {
        let place = (j / space) as usize;
        let cell = bit_of(pen, amount[place], j % space)?;
        cells.push(cell)?;
    }
    Ok(cells)
}

/// One bit of a block, in one job.
fn bit_of(pen: &mut NetPen, block: u32, place: u32) -> Result<u32, AllocError>
    requires place { place < pen.old.space }
    requires block { IsCell pen.old (2 ^ pen.old.space - 1) block }
    requires room { HasRoom pen.old 1 }
    ensures kept { Extends pen.old pen.new }
    ensures planned { IfOk result (λ cell. Planned pen.old pen.new (cell ∷ []) (λ _. 1) 1 1 1
        (λ P. P block) (λ inputs _. bit_at (value pen.old inputs block) place)) }
{
    let space = pen.space();
    let table = bit_table(pen.allocator(), space, place)?;
    single(pen, block, &table)
}

/// The table of one bit of each index.
fn bit_table(alloc: Global, space: u32, place: u32) -> Result<Vec<u8>, AllocError>
    requires space { (space ≡ 2) ⊎ (space ≡ 3) }
    requires place { place < space }
    ensures { IfOk result (λ table. HasEntries space (λ i. bit_at i place) table.items) }
{
    table_of(
        alloc,
        space,
        |i: u8| -> u8
            requires { place < 3 }
            ensures { result ≡ bit_at i place }
        { (i >> place) % 2 },
    )
}

/// A bit that is 1 where the amount is `2^count` or more: one job for the block that the low bits share,
/// and then groups of blocks.
pub(crate) fn too_great(pen: &mut NetPen, amount: &[u32], count: u32) -> Result<u32, AllocError>
    requires blocks { AreBlocks pen.old amount.now }
    requires some { count < pen.old.space * length amount.now }
    requires room { HasRoom pen.old (length amount.now + 1) }
    ensures kept { Extends pen.old pen.new }
    ensures planned { IfOk result (λ cell. Planned pen.old pen.new (cell ∷ []) (λ _. 1)
        1 (length amount.now + 1) (2 + log_up 2 (length amount.now)) (Each amount.now)
        (λ inputs _. is_wide (number_held pen.old amount.now inputs) count)) }
{
    let space = pen.space();
    let place = (count / space) as usize;
    let shared = above(pen, amount[place], count % space)?;
    let mut nodes = vec![in pen.allocator(); shared]?;
    nodes.extend_from_slice(&amount[place + 1..])?;
    any_set(pen, nodes, false)
}

/// What stands in a block from a bit on: one job, or none where that is the whole block.
fn above(pen: &mut NetPen, block: u32, bits: u32) -> Result<u32, AllocError>
    requires bits { bits < pen.old.space }
    requires block { IsCell pen.old (2 ^ pen.old.space - 1) block }
    requires room { HasRoom pen.old 1 }
    ensures kept { Extends pen.old pen.new }
    ensures planned { IfOk result (λ cell. Planned pen.old pen.new (cell ∷ [])
        (λ _. 2 ^ pen.old.space - 1) 1 1 1 (λ P. P block)
        (λ inputs _. value pen.old inputs block / 2 ^ bits)) }
{
    let space = pen.space();
    if bits == 0 {
        Ok(block)
    } else {
        let table = above_table(pen.allocator(), space, bits)?;
        single(pen, block, &table)
    }
}

/// The table of what stands in the low digit of each index from a bit on.
fn above_table(alloc: Global, space: u32, bits: u32) -> Result<Vec<u8>, AllocError>
    requires space { (space ≡ 2) ⊎ (space ≡ 3) }
    requires bits { bits < space }
    ensures { IfOk result (λ table. HasEntries space (digit_above (2 ^ space) bits) table.items) }
{
    let unit = unit_of(space);
    table_of(
        alloc,
        space,
        |i: u8| -> u8
            requires some { 0 < unit }
            requires bits { bits < 3 }
            ensures { result ≡ digit_above unit bits i }
        { (i % unit) >> bits },
    )
}
