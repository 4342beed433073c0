//! The blocks of a quotient, each of the borrows of as many steps as it has bits.
ghost use Rattle.std.specs.Prelude.{◌≡◌, ◌⊎◌, ◌<◌, ◌≤◌, ◌+◌, ◌-◌, ◌*◌, ◌^◌, [], ◌∷◌, IfOk, length};
ghost use Rattle.rx_net.specs.Growth.{Extends};
ghost use Rattle.rx_plan.specs.Tables.{HasEntries};
ghost use Rattle.rx_plan.specs.Values.{number, cell_value};
ghost use Rattle.rx_plan.specs.Planned.{Each, AreCells, HasRoom, Planned};

use rx_net::NetPen;
use rx_plan::{pair, sum, table_of, unit_of};
use std::alloc::{AllocError, Global};

/// The blocks of the quotient: a bit of it is 1 where its step did not borrow. The borrow of the
/// highest bit is the first. One job for each block.
pub(crate) fn digits(
    pen: &mut NetPen,
    borrows: &[u32],
    count: usize,
) -> Result<Vec<u32>, AllocError>
    requires same { length borrows.now ≡ pen.old.space * count }
    requires bits { AreCells pen.old 1 borrows.now }
    requires room { HasRoom pen.old count }
    ensures kept { Extends pen.old pen.new }
    ensures planned { IfOk result (λ cells. Planned pen.old pen.new cells.items
        (λ _. 2 ^ pen.old.space - 1) count count 1 (Each borrows.now)
        (λ inputs i. 2 ^ pen.old.space - 1 - number 2 pen.old.space (λ k.
        cell_value pen.old borrows.now inputs
        (length borrows.now - 1 - (pen.old.space * i + k))))) }
{
    let space = pen.space();
    let table = opposite_table(pen.allocator(), space)?;
    let mut cells = Vec::new(pen.allocator());
    for i in 0..count {
        let cell = digit(pen, borrows, borrows.len() - 1 - space as usize * i, &table)?;
        cells.push(cell)?;
    }
    Ok(cells)
}

/// The block whose lowest bit is that of the step `low`; the steps before have its other bits.
fn digit(pen: &mut NetPen, borrows: &[u32], low: usize, table: &[u8]) -> Result<u32, AllocError>
    requires inside { low < length borrows.now }
    requires enough { pen.old.space ≤ low + 1 }
    requires bits { AreCells pen.old 1 borrows.now }
    requires table { HasEntries pen.old.space (λ i. 2 ^ pen.old.space - 1 - i) table.now }
    requires room { HasRoom pen.old 1 }
    ensures kept { Extends pen.old pen.new }
    ensures planned { IfOk result (λ cell. Planned pen.old pen.new (cell ∷ [])
        (λ _. 2 ^ pen.old.space - 1) 1 1 1 (Each borrows.now)
        (λ inputs _. 2 ^ pen.old.space - 1 - number 2 pen.old.space (λ k.
        cell_value pen.old borrows.now inputs (low - k)))) }
{
    if pen.space() == 2 {
        two_bits(pen, borrows, low, table)
    } else {
        three_bits(pen, borrows, low, table)
    }
}

/// A block of two bits.
fn two_bits(pen: &mut NetPen, borrows: &[u32], low: usize, table: &[u8]) -> Result<u32, AllocError>
    requires space { pen.old.space ≡ 2 }
    requires inside { low < length borrows.now }
    requires enough { 2 ≤ low + 1 }
    requires bits { AreCells pen.old 1 borrows.now }
    requires table { HasEntries pen.old.space (λ i. 2 ^ pen.old.space - 1 - i) table.now }
    requires room { HasRoom pen.old 1 }
    ensures kept { Extends pen.old pen.new }
    ensures planned { IfOk result (λ cell. Planned pen.old pen.new (cell ∷ [])
        (λ _. 2 ^ pen.old.space - 1) 1 1 1 (Each borrows.now)
        (λ inputs _. 2 ^ pen.old.space - 1 - number 2 pen.old.space (λ k.
        cell_value pen.old borrows.now inputs (low - k)))) }
{
    let _space = pen.space();
    pair(pen, 2, borrows[low - 1], borrows[low], table)
}

/// A block of three bits: a borrow is summed as often as its bit weighs.
fn three_bits(
    pen: &mut NetPen,
    borrows: &[u32],
    low: usize,
    table: &[u8],
) -> Result<u32, AllocError>
    requires space { pen.old.space ≡ 3 }
    requires inside { low < length borrows.now }
    requires enough { 3 ≤ low + 1 }
    requires bits { AreCells pen.old 1 borrows.now }
    requires table { HasEntries pen.old.space (λ i. 2 ^ pen.old.space - 1 - i) table.now }
    requires room { HasRoom pen.old 1 }
    ensures kept { Extends pen.old pen.new }
    ensures planned { IfOk result (λ cell. Planned pen.old pen.new (cell ∷ [])
        (λ _. 2 ^ pen.old.space - 1) 1 1 1 (Each borrows.now)
        (λ inputs _. 2 ^ pen.old.space - 1 - number 2 pen.old.space (λ k.
        cell_value pen.old borrows.now inputs (low - k)))) }
{
    let _space = pen.space();
    let (first, second, third) = (borrows[low], borrows[low - 1], borrows[low - 2]);
    sum(
        pen,
        &[first, second, second, third, third, third, third],
        table,
    )
}

/// The table that turns each bit of an index of one block.
fn opposite_table(alloc: Global, space: u32) -> Result<Vec<u8>, AllocError>
    requires { (space ≡ 2) ⊎ (space ≡ 3) }
    ensures { IfOk result (λ table. HasEntries space (λ i. 2 ^ space - 1 - i) table.items) }
{
    let unit = unit_of(space);
    table_of(
        alloc,
        space,
        |i: u8| -> u8
            requires { 4 ≤ unit }
            ensures { result ≡ unit - 1 - i }
        { (unit - 1).saturating_sub(i) },
    )
}
