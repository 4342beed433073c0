//! Whether two numbers are equal: a job for each block tells whether they differ there, and groups of
//! these bits are brought to one.
ghost use Rattle.std.specs.Prelude.{◌≡◌, ◌⊎◌, true, ℕ, ◌<◌, ◌≤◌, ◌+◌, ◌-◌, ◌*◌, ◌/◌, ◌%◌, ◌^◌, IfOk, OnOk, OnErr, length, [], ◌∷◌};
ghost use Rattle.rx_net.specs.Growth.{Extends};
ghost use Rattle.rx_plan.specs.Tables.{HasEntries};
ghost use Rattle.rx_plan.specs.Values.{number_held, cell_value};
ghost use Rattle.rx_plan.specs.Planned.{EachOf, AreBlocks, HasRoom, Planned};
ghost use Rattle.rx_plan.specs.Results.{GivesBit};
ghost use Rattle.rx_costs.specs.Table.{equal_jobs, equal_depth};
ghost use Rattle.rx_carry.specs.Carries.{flipped};
ghost use Rattle.rx_cmp.specs.Equality.{equal, differ, digits_differ};

use crate::any::{any_set, flip};
use rx_net::NetPen;
use rx_plan::{blockwise, table_of, unit_of};
use std::alloc::{AllocError, Global};

/// Appends a bit that is 1 where the numbers are equal: fewer than two jobs for each block. The only error
/// is want of memory, after which `out` is as before.
pub fn eq(pen: &mut NetPen, a: &[u32], b: &[u32], out: &mut Vec<u32>) -> Result<(), AllocError>
    requires some { 1 ≤ length a.now }
    requires same { length b.now ≡ length a.now }
    requires first { AreBlocks pen.old a.now }
    requires second { AreBlocks pen.old b.now }
    requires room { HasRoom pen.old (equal_jobs (length a.now)) }
    ensures kept { Extends pen.old pen.new }
    ensures unchanged { OnErr result (out.new.items ≡ out.old.items) }
    ensures gives { OnOk result (GivesBit pen.old pen.new out.old.items out.new.items
        (equal_jobs (length a.now)) (equal_depth pen.old.space (length a.now)) (EachOf a.now b.now)
        (λ inputs. equal (number_held pen.old a.now inputs) (number_held pen.old b.now inputs))) }
{
    let _space = pen.space();
    let cells = unequal(pen, a, b, true)?;
    out.extend_from_slice(&cells)?;
    Ok(())
}

/// Appends a bit that is 1 where the numbers differ: fewer than two jobs for each block. The only error is
/// want of memory, after which `out` is as before.
pub fn ne(pen: &mut NetPen, a: &[u32], b: &[u32], out: &mut Vec<u32>) -> Result<(), AllocError>
    requires some { 1 ≤ length a.now }
    requires same { length b.now ≡ length a.now }
    requires first { AreBlocks pen.old a.now }
    requires second { AreBlocks pen.old b.now }
    requires room { HasRoom pen.old (equal_jobs (length a.now)) }
    ensures kept { Extends pen.old pen.new }
    ensures unchanged { OnErr result (out.new.items ≡ out.old.items) }
    ensures gives { OnOk result (GivesBit pen.old pen.new out.old.items out.new.items
        (equal_jobs (length a.now)) (equal_depth pen.old.space (length a.now)) (EachOf a.now b.now)
        (λ inputs. differ (number_held pen.old a.now inputs) (number_held pen.old b.now inputs))) }
{
    let _space = pen.space();
    let cells = unequal(pen, a, b, false)?;
    out.extend_from_slice(&cells)?;
    Ok(())
}

/// One cell: whether two numbers differ, or do not.
fn unequal(pen: &mut NetPen, a: &[u32], b: &[u32], invert: bool) -> Result<Vec<u32>, AllocError>
    requires some { 1 ≤ length a.now }
    requires same { length b.now ≡ length a.now }
    requires first { AreBlocks pen.old a.now }
    requires second { AreBlocks pen.old b.now }
    requires room { HasRoom pen.old (equal_jobs (length a.now)) }
    ensures kept { Extends pen.old pen.new }
    ensures planned { IfOk result (λ cells. Planned pen.old pen.new cells.items (λ _. 1) 1
        (equal_jobs (length a.now)) (equal_depth pen.old.space (length a.now)) (EachOf a.now b.now)
        (λ inputs _. flipped invert
        (differ (number_held pen.old a.now inputs) (number_held pen.old b.now inputs)))) }
{
    let _space = pen.space();
    if a.len() == 1 {
        leaves(pen, a, b, invert)
    } else {
        let cell = unequal_more(pen, a, b, invert)?;
        Ok(vec![in pen.allocator(); cell]?)
    }
}

/// The same of two blocks and more.
fn unequal_more(pen: &mut NetPen, a: &[u32], b: &[u32], invert: bool) -> Result<u32, AllocError>
    requires more { 2 ≤ length a.now }
    requires same { length b.now ≡ length a.now }
    requires first { AreBlocks pen.old a.now }
    requires second { AreBlocks pen.old b.now }
    requires room { HasRoom pen.old (equal_jobs (length a.now)) }
    ensures kept { Extends pen.old pen.new }
    ensures planned { IfOk result (λ cell. Planned pen.old pen.new (cell ∷ []) (λ _. 1) 1
        (equal_jobs (length a.now)) (equal_depth pen.old.space (length a.now)) (EachOf a.now b.now)
        (λ inputs _. flipped invert
        (differ (number_held pen.old a.now inputs) (number_held pen.old b.now inputs)))) }
{
    let _space = pen.space();
    let nodes = leaves(pen, a, b, false)?;
    any_set(pen, nodes, invert)
}

/// One bit for each block: whether the two blocks differ, or do not.
fn leaves(pen: &mut NetPen, a: &[u32], b: &[u32], invert: bool) -> Result<Vec<u32>, AllocError>
    requires same { length b.now ≡ length a.now }
    requires first { AreBlocks pen.old a.now }
    requires second { AreBlocks pen.old b.now }
    requires room { HasRoom pen.old (length a.now) }
    ensures kept { Extends pen.old pen.new }
    ensures planned { IfOk result (λ cells. Planned pen.old pen.new cells.items (λ _. 1)
        (length a.now) (length a.now) 1 (EachOf a.now b.now)
        (λ inputs i. flipped invert
        (differ (cell_value pen.old a.now inputs i) (cell_value pen.old b.now inputs i)))) }
{
    let space = pen.space();
    let table = differ_table(pen.allocator(), space, invert)?;
    blockwise(pen, unit_of(space), a, b, &table)
}

/// The table of whether the two digits of each index differ, or do not.
fn differ_table(alloc: Global, space: u32, invert: bool) -> Result<Vec<u8>, AllocError>
    requires { (space ≡ 2) ⊎ (space ≡ 3) }
    ensures { IfOk result (λ table. HasEntries space
        (λ i. flipped invert (digits_differ (2 ^ space) i)) table.items) }
{
    let unit = unit_of(space);
    table_of(
        alloc,
        space,
        |i: u8| -> u8
            requires { 0 < unit }
            ensures { result ≡ flipped invert (digits_differ unit i) }
        { flip(differ_of(i, unit), invert) },
    )
}

fn differ_of(i: u8, unit: u8) -> u8
    requires { 0 < unit }
    ensures { result ≡ digits_differ unit i }
{
    if i / unit == i % unit { 0 } else { 1 }
}
