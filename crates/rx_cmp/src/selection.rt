//! One of two numbers, by a bit: two jobs for each block keep the block or put 0 in its place, and a third
//! adds what they leave.
ghost use Rattle.std.specs.Prelude.{◌≡◌, ◌⊎◌, ◌<◌, ◌≤◌, ◌+◌, ◌-◌, ◌*◌, ◌/◌, ◌%◌, ◌^◌, IfOk, OnOk, OnErr, length};
ghost use Rattle.rx_params.specs.Kinds.{digit_at};
ghost use Rattle.rx_net.specs.Cells.{value};
ghost use Rattle.rx_net.specs.Growth.{Extends};
ghost use Rattle.rx_plan.specs.Tables.{HasEntries};
ghost use Rattle.rx_plan.specs.Values.{number_held, cell_value};
ghost use Rattle.rx_plan.specs.Planned.{Each, AreBlocks, HasRoom, IsCell, Planned};
ghost use Rattle.rx_plan.specs.Results.{GivesNumber};
ghost use Rattle.rx_costs.specs.Table.{select_jobs, select_depth};
ghost use Rattle.rx_cmp.specs.Selection.{chosen, kept_entry};

use rx_net::NetPen;
use rx_plan::{against, blockwise, digit_table, table_of, unit_of};
use std::alloc::{AllocError, Global};

/// Appends `a` where the bit is 1, else `b`: three jobs for each block, depth 2. The only error is want of
/// memory, after which `out` is as before.
pub fn select(
    pen: &mut NetPen,
    bit: u32,
    a: &[u32],
    b: &[u32],
    out: &mut Vec<u32>,
) -> Result<(), AllocError>
    requires some { 1 ≤ length a.now }
    requires same { length b.now ≡ length a.now }
    requires bit { IsCell pen.old 1 bit }
    requires first { AreBlocks pen.old a.now }
    requires second { AreBlocks pen.old b.now }
    requires room { HasRoom pen.old (select_jobs (length a.now)) }
    ensures kept { Extends pen.old pen.new }
    ensures unchanged { OnErr result (out.new.items ≡ out.old.items) }
    ensures gives { OnOk result (GivesNumber pen.old pen.new out.old.items out.new.items
        (length a.now) (select_jobs (length a.now)) select_depth
        (λ P. P bit × Each a.now P × Each b.now P)
        (λ inputs. chosen (value pen.old inputs bit)
        (number_held pen.old a.now inputs) (number_held pen.old b.now inputs))) }
{
    let _space = pen.space();
    let cells = selected(pen, bit, a, b)?;
    out.extend_from_slice(&cells)?;
    Ok(())
}

/// The blocks of the one that is chosen.
pub(crate) fn selected(
    pen: &mut NetPen,
    bit: u32,
    a: &[u32],
    b: &[u32],
) -> Result<Vec<u32>, AllocError>
    requires same { length b.now ≡ length a.now }
    requires bit { IsCell pen.old 1 bit }
    requires first { AreBlocks pen.old a.now }
    requires second { AreBlocks pen.old b.now }
    requires room { HasRoom pen.old (3 * length a.now) }
    ensures kept { Extends pen.old pen.new }
    ensures planned { IfOk result (λ cells. Planned pen.old pen.new cells.items
        (λ _. 2 ^ pen.old.space - 1) (length a.now) (3 * length a.now) 2
        (λ P. P bit × Each a.now P × Each b.now P)
        (λ inputs i. digit_at pen.old.space (chosen (value pen.old inputs bit)
        (number_held pen.old a.now inputs) (number_held pen.old b.now inputs)) i)) }
{
    let space = pen.space();
    let first = kept(pen, bit, a, 1)?;
    let second = kept(pen, bit, b, 0)?;
    let table = digit_table(pen.allocator(), space)?;
    blockwise(pen, 1, &first, &second, &table)
}

/// The blocks where the bit is as it is wanted, else 0.
fn kept(pen: &mut NetPen, bit: u32, blocks: &[u32], wanted: u8) -> Result<Vec<u32>, AllocError>
    requires bit { IsCell pen.old 1 bit }
    requires blocks { AreBlocks pen.old blocks.now }
    requires room { HasRoom pen.old (length blocks.now) }
    ensures kept { Extends pen.old pen.new }
    ensures planned { IfOk result (λ cells. Planned pen.old pen.new cells.items
        (λ _. 2 ^ pen.old.space - 1) (length blocks.now) (length blocks.now) 1
        (λ P. P bit × Each blocks.now P)
        (λ inputs i. kept_entry wanted (2 ^ pen.old.space)
        (2 ^ pen.old.space * value pen.old inputs bit + cell_value pen.old blocks.now inputs i))) }
{
    let space = pen.space();
    let table = kept_table(pen.allocator(), space, wanted)?;
    against(pen, unit_of(space), bit, blocks, &table)
}

/// The table that keeps a block where the bit is as it is wanted.
fn kept_table(alloc: Global, space: u32, wanted: u8) -> Result<Vec<u8>, AllocError>
    requires { (space ≡ 2) ⊎ (space ≡ 3) }
    ensures { IfOk result (λ table. HasEntries space (kept_entry wanted (2 ^ space)) table.items) }
{
    let unit = unit_of(space);
    table_of(
        alloc,
        space,
        |i: u8| -> u8
            requires { 0 < unit }
            ensures { result ≡ kept_entry wanted unit i }
        { kept_of(i, unit, wanted) },
    )
}

fn kept_of(i: u8, unit: u8, wanted: u8) -> u8
    requires { 0 < unit }
    ensures { result ≡ kept_entry wanted unit i }
{
    if i / unit == wanted { i % unit } else { 0 }
}
