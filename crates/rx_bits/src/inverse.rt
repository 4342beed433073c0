//! Each bit turned.
ghost use Rattle.std.specs.Prelude.{◌≡◌, ◌⊎◌, ◌<◌, ◌≤◌, ◌+◌, ◌-◌, ◌^◌, IfOk, OnOk, OnErr, length};
ghost use Rattle.rx_params.specs.Kinds.{greatest, digit_at};
ghost use Rattle.rx_net.specs.Growth.{Extends};
ghost use Rattle.rx_plan.specs.Tables.{HasEntries};
ghost use Rattle.rx_plan.specs.Values.{number_held};
ghost use Rattle.rx_plan.specs.Planned.{AreCells, Each, HasRoom, Planned};
ghost use Rattle.rx_costs.specs.Table.{bitwise_jobs, bitwise_depth};
ghost use Rattle.rx_bits.specs.Bits.{IsCount, GivesKind, all_ones};

use rx_net::NetPen;
use rx_params::Kind;
use rx_plan::{each, table_of};
use std::alloc::{AllocError, Global};

/// Appends the number, or the bit, with each bit turned: one job for each block, depth 1. The only error
/// is want of memory, after which `out` is as before.
pub fn not(pen: &mut NetPen, a: &[u32], kind: Kind, out: &mut Vec<u32>) -> Result<(), AllocError>
    requires count { IsCount kind (length a.now) }
    requires cells { AreCells pen.old (greatest kind pen.old.space) a.now }
    requires room { HasRoom pen.old (bitwise_jobs (length a.now)) }
    ensures kept { Extends pen.old pen.new }
    ensures unchanged { OnErr result (out.new.items ≡ out.old.items) }
    ensures gives { OnOk result (GivesKind kind pen.old pen.new out.old.items out.new.items
        (length a.now) (bitwise_jobs (length a.now)) bitwise_depth (Each a.now)
        (λ inputs. all_ones kind pen.old.space (length a.now) - number_held pen.old a.now inputs)) }
{
    let _space = pen.space();
    let cells = turned(pen, a, kind)?;
    out.extend_from_slice(&cells)?;
    Ok(())
}

/// The blocks with each bit turned.
fn turned(pen: &mut NetPen, a: &[u32], kind: Kind) -> Result<Vec<u32>, AllocError>
    requires count { IsCount kind (length a.now) }
    requires cells { AreCells pen.old (greatest kind pen.old.space) a.now }
    requires room { HasRoom pen.old (length a.now) }
    ensures kept { Extends pen.old pen.new }
    ensures planned { IfOk result (λ cells. Planned pen.old pen.new cells.items
        (λ _. greatest kind pen.old.space) (length a.now) (length a.now) 1 (Each a.now)
        (λ inputs i. digit_at pen.old.space
        (all_ones kind pen.old.space (length a.now) - number_held pen.old a.now inputs) i)) }
{
    let space = pen.space();
    let most = kind.greatest(space);
    let table = turned_table(pen.allocator(), space, most)?;
    each(pen, a, &table)
}

/// The table of what a digit lacks to the greatest one.
fn turned_table(alloc: Global, space: u32, most: u8) -> Result<Vec<u8>, AllocError>
    requires { (space ≡ 2) ⊎ (space ≡ 3) }
    ensures { IfOk result (λ table. HasEntries space (λ i. most - i) table.items) }
{
    table_of(
        alloc,
        space,
        |i: u8| -> u8
            ensures { result ≡ most - i }
        { most.saturating_sub(i) },
    )
}
