//! The lesser and the greater of two numbers, with a sign or without: the bit of their order selects.
ghost use Rattle.std.specs.Prelude.{◌≡◌, ◌≤◌, ◌+◌, ◌-◌, ◌*◌, ◌^◌, min, max, IfOk, OnOk, OnErr, length};
ghost use Rattle.std.specs.Int.{int_min, int_max};
ghost use Rattle.rx_params.specs.Kinds.{digit_at};
ghost use Rattle.rx_net.specs.Growth.{Extends};
ghost use Rattle.rx_residue.specs.Residues.{residue, signed};
ghost use Rattle.rx_plan.specs.Values.{number_held};
ghost use Rattle.rx_plan.specs.Planned.{EachOf, AreBlocks, HasRoom, Planned};
ghost use Rattle.rx_plan.specs.Results.{GivesNumber};
ghost use Rattle.rx_costs.specs.Table.{extreme_jobs, extreme_depth};
ghost use Rattle.rx_carry.specs.Carries.{is_less};
ghost use Rattle.rx_cmp.specs.Selection.{chosen};
ghost use Rattle.rx_cmp.specs.Order.{ranked};

use crate::order::below;
use crate::selection::selected;
use rx_net::NetPen;
use std::alloc::AllocError;

/// Appends the lesser of two numbers: fewer than five jobs for each block. The only error is want of
/// memory, after which `out` is as before.
pub fn min(pen: &mut NetPen, a: &[u32], b: &[u32], out: &mut Vec<u32>) -> Result<(), AllocError>
    requires some { 1 ≤ length a.now }
    requires same { length b.now ≡ length a.now }
    requires first { AreBlocks pen.old a.now }
    requires second { AreBlocks pen.old b.now }
    requires room { HasRoom pen.old (extreme_jobs (length a.now)) }
    ensures kept { Extends pen.old pen.new }
    ensures unchanged { OnErr result (out.new.items ≡ out.old.items) }
    ensures gives { OnOk result (GivesNumber pen.old pen.new out.old.items out.new.items
        (length a.now) (extreme_jobs (length a.now)) (extreme_depth (length a.now))
        (EachOf a.now b.now)
        (λ inputs. min (number_held pen.old a.now inputs) (number_held pen.old b.now inputs))) }
{
    let _space = pen.space();
    let cells = lesser(pen, a, b, false)?;
    out.extend_from_slice(&cells)?;
    Ok(())
}

/// Appends the greater of two numbers: fewer than five jobs for each block. The only error is want of
/// memory, after which `out` is as before.
pub fn max(pen: &mut NetPen, a: &[u32], b: &[u32], out: &mut Vec<u32>) -> Result<(), AllocError>
    requires some { 1 ≤ length a.now }
    requires same { length b.now ≡ length a.now }
    requires first { AreBlocks pen.old a.now }
    requires second { AreBlocks pen.old b.now }
    requires room { HasRoom pen.old (extreme_jobs (length a.now)) }
    ensures kept { Extends pen.old pen.new }
    ensures unchanged { OnErr result (out.new.items ≡ out.old.items) }
    ensures gives { OnOk result (GivesNumber pen.old pen.new out.old.items out.new.items
        (length a.now) (extreme_jobs (length a.now)) (extreme_depth (length a.now))
        (EachOf a.now b.now)
        (λ inputs. max (number_held pen.old a.now inputs) (number_held pen.old b.now inputs))) }
{
    let _space = pen.space();
    let cells = greater(pen, a, b, false)?;
    out.extend_from_slice(&cells)?;
    Ok(())
}

/// Appends the lesser of two signed numbers: fewer than five jobs for each block. The only error is want
/// of memory, after which `out` is as before.
pub fn smin(pen: &mut NetPen, a: &[u32], b: &[u32], out: &mut Vec<u32>) -> Result<(), AllocError>
    requires some { 1 ≤ length a.now }
    requires same { length b.now ≡ length a.now }
    requires first { AreBlocks pen.old a.now }
    requires second { AreBlocks pen.old b.now }
    requires room { HasRoom pen.old (extreme_jobs (length a.now)) }
    ensures kept { Extends pen.old pen.new }
    ensures unchanged { OnErr result (out.new.items ≡ out.old.items) }
    ensures gives { OnOk result (GivesNumber pen.old pen.new out.old.items out.new.items
        (length a.now) (extreme_jobs (length a.now)) (extreme_depth (length a.now))
        (EachOf a.now b.now)
        (λ inputs. residue (pen.old.space * length a.now) (int_min
        (signed (pen.old.space * length a.now) (number_held pen.old a.now inputs))
        (signed (pen.old.space * length a.now) (number_held pen.old b.now inputs))))) }
{
    let _space = pen.space();
    let cells = lesser(pen, a, b, true)?;
    out.extend_from_slice(&cells)?;
    Ok(())
}

/// Appends the greater of two signed numbers: fewer than five jobs for each block. The only error is want
/// of memory, after which `out` is as before.
pub fn smax(pen: &mut NetPen, a: &[u32], b: &[u32], out: &mut Vec<u32>) -> Result<(), AllocError>
    requires some { 1 ≤ length a.now }
    requires same { length b.now ≡ length a.now }
    requires first { AreBlocks pen.old a.now }
    requires second { AreBlocks pen.old b.now }
    requires room { HasRoom pen.old (extreme_jobs (length a.now)) }
    ensures kept { Extends pen.old pen.new }
    ensures unchanged { OnErr result (out.new.items ≡ out.old.items) }
    ensures gives { OnOk result (GivesNumber pen.old pen.new out.old.items out.new.items
        (length a.now) (extreme_jobs (length a.now)) (extreme_depth (length a.now))
        (EachOf a.now b.now)
        (λ inputs. residue (pen.old.space * length a.now) (int_max
        (signed (pen.old.space * length a.now) (number_held pen.old a.now inputs))
        (signed (pen.old.space * length a.now) (number_held pen.old b.now inputs))))) }
{
    let _space = pen.space();
    let cells = greater(pen, a, b, true)?;
    out.extend_from_slice(&cells)?;
    Ok(())
}

/// The blocks of the lesser one.
fn lesser(pen: &mut NetPen, a: &[u32], b: &[u32], signed: bool) -> Result<Vec<u32>, AllocError>
    requires some { 1 ≤ length a.now }
    requires same { length b.now ≡ length a.now }
    requires first { AreBlocks pen.old a.now }
    requires second { AreBlocks pen.old b.now }
    requires room { HasRoom pen.old (extreme_jobs (length a.now)) }
    ensures kept { Extends pen.old pen.new }
    ensures planned { IfOk result (λ cells. Planned pen.old pen.new cells.items
        (λ _. 2 ^ pen.old.space - 1) (length a.now)
        (extreme_jobs (length a.now)) (extreme_depth (length a.now)) (EachOf a.now b.now)
        (λ inputs i. digit_at pen.old.space (chosen (is_less
        (ranked signed (pen.old.space * length a.now) (number_held pen.old a.now inputs))
        (ranked signed (pen.old.space * length a.now) (number_held pen.old b.now inputs)))
        (number_held pen.old a.now inputs) (number_held pen.old b.now inputs)) i)) }
{
    let _space = pen.space();
    let bit = below(pen, a, b, signed, false)?;
    selected(pen, bit, a, b)
}

/// The blocks of the greater one.
fn greater(pen: &mut NetPen, a: &[u32], b: &[u32], signed: bool) -> Result<Vec<u32>, AllocError>
    requires some { 1 ≤ length a.now }
    requires same { length b.now ≡ length a.now }
    requires first { AreBlocks pen.old a.now }
    requires second { AreBlocks pen.old b.now }
    requires room { HasRoom pen.old (extreme_jobs (length a.now)) }
    ensures kept { Extends pen.old pen.new }
    ensures planned { IfOk result (λ cells. Planned pen.old pen.new cells.items
        (λ _. 2 ^ pen.old.space - 1) (length a.now)
        (extreme_jobs (length a.now)) (extreme_depth (length a.now)) (EachOf a.now b.now)
        (λ inputs i. digit_at pen.old.space (chosen (is_less
        (ranked signed (pen.old.space * length a.now) (number_held pen.old a.now inputs))
        (ranked signed (pen.old.space * length a.now) (number_held pen.old b.now inputs)))
        (number_held pen.old b.now inputs) (number_held pen.old a.now inputs)) i)) }
{
    let _space = pen.space();
    let bit = below(pen, a, b, signed, false)?;
    selected(pen, bit, b, a)
}
