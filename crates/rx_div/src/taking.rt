//! The remainder so far takes in the next bit of the numerator.
ghost use Rattle.std.specs.Prelude.{◌≡◌, ◌≤◌, ◌+◌, ◌-◌, ◌*◌, ◌^◌, ◌++◌, IfOk, length, replicate};
ghost use Rattle.rx_params.specs.Kinds.{digit_at};
ghost use Rattle.rx_net.specs.Cells.{value};
ghost use Rattle.rx_net.specs.Growth.{Extends};
ghost use Rattle.rx_plan.specs.Values.{number_held};
ghost use Rattle.rx_plan.specs.Planned.{Each, IsCell, AreBlocks, HasRoom, Planned};

use rx_bits::between_blocks;
use rx_net::NetPen;
use rx_plan::{digit_table, pair};
use std::alloc::{AllocError, Global};

/// The blocks of twice the number, and the bit: each block takes in the top bit of the block below
/// it, and the lowest one the bit. One job for each block; what goes out of the top one is lost.
pub(crate) fn taken(pen: &mut NetPen, rest: &[u32], bit: u32) -> Result<Vec<u32>, AllocError>
    requires some { 1 ≤ length rest.now }
    requires blocks { AreBlocks pen.old rest.now }
    requires bit { IsCell pen.old 1 bit }
    requires room { HasRoom pen.old (length rest.now) }
    ensures kept { Extends pen.old pen.new }
    ensures planned { IfOk result (λ cells. Planned pen.old pen.new cells.items
        (λ _. 2 ^ pen.old.space - 1) (length rest.now) (length rest.now) 1
        (λ P. P bit × Each rest.now P)
        (λ inputs i. digit_at pen.old.space (2 * number_held pen.old rest.now inputs
        + value pen.old inputs bit) i)) }
{
    let space = pen.space();
    let table = digit_table(pen.allocator(), space)?;
    let low = pair(pen, 2, rest[0], bit, &table)?;
    let others = between_blocks(pen, rest, space - 1)?;
    let mut cells = vec![in pen.allocator(); low]?;
    cells.extend_from_slice(&others)?;
    Ok(cells)
}

/// The cells, and above them so many times the cell `nought` that there are `count`.
pub(crate) fn padded(
    alloc: Global,
    cells: &[u32],
    count: usize,
    nought: u32,
) -> Result<Vec<u32>, AllocError>
    requires { length cells.now ≤ count }
    ensures { IfOk result (λ all. all.items
        ≡ cells.now ++ replicate (count - length cells.now) nought) }
{
    let mut all = Vec::from_slice(alloc, cells)?;
    let above = vec![in alloc; nought; count - cells.len()]?;
    all.extend_from_slice(&above)?;
    Ok(all)
}
