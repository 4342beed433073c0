//! Numbers of other widths.
ghost use Rattle.std.specs.Prelude.{◌≡◌, ◌<◌, ◌≤◌, ◌+◌, ◌-◌, ◌*◌, ◌^◌, IfOk, OnOk, OnErr, length};
ghost use Rattle.rx_params.specs.Kinds.{digit_at};
ghost use Rattle.rx_net.specs.Growth.{Extends};
ghost use Rattle.rx_plan.specs.Values.{number_held};
ghost use Rattle.rx_plan.specs.Planned.{AreBlocks, Each, HasRoom, Planned};
ghost use Rattle.rx_plan.specs.Results.{GivesNumber};
ghost use Rattle.rx_residue.specs.Residues.{residue, number_as};
ghost use Rattle.rx_costs.specs.Table.{cast_jobs, cast_depth};
ghost use Rattle.rx_bits.specs.Signs.{cast_to};

use crate::fills::filled;
use rx_net::NetPen;
use std::alloc::AllocError;

/// Appends the number of `a`, which may be signed, in `blocks` blocks: bits above them are lost, and
/// blocks above `a` are 0, or all ones where `a` is signed and negative. The blocks of `a` are kept; at
/// most one job for each other, depth 1. A bit is cast as a number of one block. The only error is want of
/// memory, after which `out` is as before.
pub fn cast(
    pen: &mut NetPen,
    a: &[u32],
    blocks: u32,
    signed: bool,
    out: &mut Vec<u32>,
) -> Result<(), AllocError>
    requires some { 1 ≤ length a.now }
    requires blocks { AreBlocks pen.old a.now }
    requires wanted { 1 ≤ blocks }
    requires room { HasRoom pen.old (cast_jobs (length a.now) blocks) }
    ensures kept { Extends pen.old pen.new }
    ensures unchanged { OnErr result (out.new.items ≡ out.old.items) }
    ensures gives { OnOk result (GivesNumber pen.old pen.new out.old.items out.new.items
        blocks (cast_jobs (length a.now) blocks) cast_depth (Each a.now)
        (λ inputs. residue (pen.old.space * blocks)
        (number_as signed (pen.old.space * length a.now) (number_held pen.old a.now inputs)))) }
{
    let _space = pen.space();
    let cells = cast_cells(pen, a, blocks, signed)?;
    out.extend_from_slice(&cells)?;
    Ok(())
}

/// The lowest blocks, and what stands above a number above them.
fn cast_cells(
    pen: &mut NetPen,
    a: &[u32],
    blocks: u32,
    signed: bool,
) -> Result<Vec<u32>, AllocError>
    requires some { 1 ≤ length a.now }
    requires blocks { AreBlocks pen.old a.now }
    requires room { HasRoom pen.old (blocks - length a.now) }
    ensures kept { Extends pen.old pen.new }
    ensures planned { IfOk result (λ cells. Planned pen.old pen.new cells.items
        (λ _. 2 ^ pen.old.space - 1) blocks (blocks - length a.now) 1 (Each a.now)
        (λ inputs i. digit_at pen.old.space (cast_to signed (pen.old.space * length a.now)
        (pen.old.space * blocks) (number_held pen.old a.now inputs)) i)) }
{
    let _space = pen.space();
    let wanted = blocks as usize;
    let count = a.len().min(wanted);
    let mut cells = Vec::from_slice(pen.allocator(), &a[..count])?;
    let above = filled(pen, a[a.len() - 1], signed, wanted - count)?;
    cells.extend_from_slice(&above)?;
    Ok(cells)
}
