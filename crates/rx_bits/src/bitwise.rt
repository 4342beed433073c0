//! Operations bit by bit: one job for each block.
ghost use Rattle.std.specs.Prelude.{◌≡◌, ◌≤◌, ◌+◌, ◌-◌, ◌^◌, IfOk, OnOk, OnErr, length, bit_and, bit_or, bit_xor};
ghost use Rattle.rx_params.specs.Kinds.{greatest, digit_at};
ghost use Rattle.rx_net.specs.Growth.{Extends};
ghost use Rattle.rx_plan.specs.Values.{number_held};
ghost use Rattle.rx_plan.specs.Planned.{AreCells, EachOf, HasRoom, Planned};
ghost use Rattle.rx_costs.specs.Table.{bitwise_jobs, bitwise_depth};
ghost use Rattle.rx_bits.specs.Bits.{bitwise, IsCount, GivesKind};

use crate::operation::{Operation, operation_table};
use rx_net::NetPen;
use rx_params::Kind;
use rx_plan::blockwise;
use std::alloc::AllocError;

/// Appends the bits that are set in both numbers, or in both bits: one job for each block, depth 1. The
/// only error is want of memory, after which `out` is as before.
pub fn and(
    pen: &mut NetPen,
    a: &[u32],
    b: &[u32],
    kind: Kind,
    out: &mut Vec<u32>,
) -> Result<(), AllocError>
    requires count { IsCount kind (length a.now) }
    requires same { length b.now ≡ length a.now }
    requires first { AreCells pen.old (greatest kind pen.old.space) a.now }
    requires second { AreCells pen.old (greatest kind pen.old.space) b.now }
    requires room { HasRoom pen.old (bitwise_jobs (length a.now)) }
    ensures kept { Extends pen.old pen.new }
    ensures unchanged { OnErr result (out.new.items ≡ out.old.items) }
    ensures gives { OnOk result (GivesKind kind pen.old pen.new out.old.items out.new.items
        (length a.now) (bitwise_jobs (length a.now)) bitwise_depth (EachOf a.now b.now)
        (λ inputs. bit_and (number_held pen.old a.now inputs) (number_held pen.old b.now inputs))) }
{
    let _space = pen.space();
    let cells = combined(pen, Operation::And, a, b, kind)?;
    out.extend_from_slice(&cells)?;
    Ok(())
}

/// Appends the bits that are set in one of the numbers at least, or in one of the bits: one job for each
/// block, depth 1. The only error is want of memory, after which `out` is as before.
pub fn or(
    pen: &mut NetPen,
    a: &[u32],
    b: &[u32],
    kind: Kind,
    out: &mut Vec<u32>,
) -> Result<(), AllocError>
    requires count { IsCount kind (length a.now) }
    requires same { length b.now ≡ length a.now }
    requires first { AreCells pen.old (greatest kind pen.old.space) a.now }
    requires second { AreCells pen.old (greatest kind pen.old.space) b.now }
    requires room { HasRoom pen.old (bitwise_jobs (length a.now)) }
    ensures kept { Extends pen.old pen.new }
    ensures unchanged { OnErr result (out.new.items ≡ out.old.items) }
    ensures gives { OnOk result (GivesKind kind pen.old pen.new out.old.items out.new.items
        (length a.now) (bitwise_jobs (length a.now)) bitwise_depth (EachOf a.now b.now)
        (λ inputs. bit_or (number_held pen.old a.now inputs) (number_held pen.old b.now inputs))) }
{
    let _space = pen.space();
    let cells = combined(pen, Operation::Or, a, b, kind)?;
    out.extend_from_slice(&cells)?;
    Ok(())
}

/// Appends the bits in which the numbers, or the bits, differ: one job for each block, depth 1. The only
/// error is want of memory, after which `out` is as before.
pub fn xor(
    pen: &mut NetPen,
    a: &[u32],
    b: &[u32],
    kind: Kind,
    out: &mut Vec<u32>,
) -> Result<(), AllocError>
    requires count { IsCount kind (length a.now) }
    requires same { length b.now ≡ length a.now }
    requires first { AreCells pen.old (greatest kind pen.old.space) a.now }
    requires second { AreCells pen.old (greatest kind pen.old.space) b.now }
    requires room { HasRoom pen.old (bitwise_jobs (length a.now)) }
    ensures kept { Extends pen.old pen.new }
    ensures unchanged { OnErr result (out.new.items ≡ out.old.items) }
    ensures gives { OnOk result (GivesKind kind pen.old pen.new out.old.items out.new.items
        (length a.now) (bitwise_jobs (length a.now)) bitwise_depth (EachOf a.now b.now)
        (λ inputs. bit_xor (number_held pen.old a.now inputs) (number_held pen.old b.now inputs))) }
{
    let _space = pen.space();
    let cells = combined(pen, Operation::Xor, a, b, kind)?;
    out.extend_from_slice(&cells)?;
    Ok(())
}

/// The blocks of the result of an operation.
fn combined(
    pen: &mut NetPen,
    operation: Operation,
    a: &[u32],
    b: &[u32],
    kind: Kind,
) -> Result<Vec<u32>, AllocError>
    requires same { length b.now ≡ length a.now }
    requires first { AreCells pen.old (greatest kind pen.old.space) a.now }
    requires second { AreCells pen.old (greatest kind pen.old.space) b.now }
    requires room { HasRoom pen.old (length a.now) }
    ensures kept { Extends pen.old pen.new }
    ensures planned { IfOk result (λ cells. Planned pen.old pen.new cells.items
        (λ _. greatest kind pen.old.space) (length a.now) (length a.now) 1 (EachOf a.now b.now)
        (λ inputs i. digit_at pen.old.space (bitwise operation
        (number_held pen.old a.now inputs) (number_held pen.old b.now inputs)) i)) }
{
    let space = pen.space();
    let base = kind.greatest(space) + 1;
    let table = operation_table(pen.allocator(), space, base, operation)?;
    blockwise(pen, base, a, b, &table)
}
