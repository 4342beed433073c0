//! Shifts of a signed number to the right by an encrypted amount. The complement of a negative number is
//! not negative: it is shifted as a number without a sign, and its complement is the result.
ghost use Rattle.std.specs.Prelude.{◌≡◌, ◌⊎◌, true, pos, ◌<◌, ◌≤◌, ◌+◌, ◌-◌, ◌*◌, ◌/◌, ◌%◌, ◌^◌, IfOk, OnOk, OnErr, length};
ghost use Rattle.std.specs.Int.{int_div_euclid};
ghost use Rattle.rx_params.specs.Kinds.{digit_at};
ghost use Rattle.rx_net.specs.Cells.{value};
ghost use Rattle.rx_net.specs.Growth.{Extends};
ghost use Rattle.rx_plan.specs.Tables.{HasEntries};
ghost use Rattle.rx_plan.specs.Values.{number_held, cell_value};
ghost use Rattle.rx_plan.specs.Planned.{Each, EachOf, IsCell, AreBlocks, HasRoom, Planned};
ghost use Rattle.rx_plan.specs.Results.{GivesNumber};
ghost use Rattle.rx_residue.specs.Residues.{residue, signed};
ghost use Rattle.rx_costs.specs.Logs.{log_up};
ghost use Rattle.rx_costs.specs.Table.{signed_shift_jobs, signed_shift_depth};
ghost use Rattle.rx_bits.specs.Signs.{shifted_down};
ghost use Rattle.rx_shift.specs.Signed.{turned_under, turned_entry};

use crate::shifts::shrv;
use rx_net::NetPen;
use rx_plan::{against, table_of, unit_of};
use std::alloc::{AllocError, Global};

/// Appends the signed number `a` divided by 2 to the power of `amount`, rounded down: copies of the sign
/// bit come in, also where the amount is the width or more. The amount has no sign. Over `shrv` it has
/// two jobs for each block and one more at most, and two levels. The only error is want of memory, after
/// which `out` is as before.
pub fn sarv(
    pen: &mut NetPen,
    a: &[u32],
    amount: &[u32],
    out: &mut Vec<u32>,
) -> Result<(), AllocError>
    requires some { 1 ≤ length a.now }
    requires same { length amount.now ≡ length a.now }
    requires first { AreBlocks pen.old a.now }
    requires second { AreBlocks pen.old amount.now }
    requires room { HasRoom pen.old
        (signed_shift_jobs (log_up 2 (pen.old.space * length a.now)) (length a.now)) }
    ensures kept { Extends pen.old pen.new }
    ensures unchanged { OnErr result (out.new.items ≡ out.old.items) }
    ensures gives { OnOk result (GivesNumber pen.old pen.new out.old.items out.new.items
        (length a.now)
        (signed_shift_jobs (log_up 2 (pen.old.space * length a.now)) (length a.now))
        (signed_shift_depth (log_up 2 (pen.old.space * length a.now))) (EachOf a.now amount.now)
        (λ inputs. residue (pen.old.space * length a.now) (int_div_euclid
        (signed (pen.old.space * length a.now) (number_held pen.old a.now inputs))
        (pos (2 ^ number_held pen.old amount.now inputs))))) }
{
    let _space = pen.space();
    let cells = signed_down(pen, a, amount)?;
    out.extend_from_slice(&cells)?;
    Ok(())
}

/// The blocks of the signed number that is shifted down.
fn signed_down(pen: &mut NetPen, a: &[u32], amount: &[u32]) -> Result<Vec<u32>, AllocError>
    requires some { 1 ≤ length a.now }
    requires same { length amount.now ≡ length a.now }
    requires first { AreBlocks pen.old a.now }
    requires second { AreBlocks pen.old amount.now }
    requires room { HasRoom pen.old
        (signed_shift_jobs (log_up 2 (pen.old.space * length a.now)) (length a.now)) }
    ensures kept { Extends pen.old pen.new }
    ensures planned { IfOk result (λ cells. Planned pen.old pen.new cells.items
        (λ _. 2 ^ pen.old.space - 1) (length a.now)
        (signed_shift_jobs (log_up 2 (pen.old.space * length a.now)) (length a.now))
        (signed_shift_depth (log_up 2 (pen.old.space * length a.now))) (EachOf a.now amount.now)
        (λ inputs i. digit_at pen.old.space (shifted_down true (pen.old.space * length a.now)
        (number_held pen.old amount.now inputs) (number_held pen.old a.now inputs)) i)) }
{
    let _space = pen.space();
    let top = a[a.len() - 1];
    let first = turned(pen, top, a)?;
    let mut moved = Vec::new(pen.allocator());
    shrv(pen, &first, amount, &mut moved)?;
    turned(pen, top, &moved)
}

/// The blocks, each turned into its complement where the top block has its highest bit: one job for each.
fn turned(pen: &mut NetPen, top: u32, blocks: &[u32]) -> Result<Vec<u32>, AllocError>
    requires top { IsCell pen.old (2 ^ pen.old.space - 1) top }
    requires blocks { AreBlocks pen.old blocks.now }
    requires room { HasRoom pen.old (length blocks.now) }
    ensures kept { Extends pen.old pen.new }
    ensures planned { IfOk result (λ cells. Planned pen.old pen.new cells.items
        (λ _. 2 ^ pen.old.space - 1) (length blocks.now) (length blocks.now) 1
        (λ P. P top × Each blocks.now P)
        (λ inputs i. turned_under pen.old.space (value pen.old inputs top)
        (cell_value pen.old blocks.now inputs i))) }
{
    let space = pen.space();
    let table = turned_table(pen.allocator(), space)?;
    against(pen, unit_of(space), top, blocks, &table)
}

/// The table of the low digit of each index, turned where the high digit says so.
fn turned_table(alloc: Global, space: u32) -> Result<Vec<u8>, AllocError>
    requires { (space ≡ 2) ⊎ (space ≡ 3) }
    ensures { IfOk result (λ table. HasEntries space (turned_entry space) table.items) }
{
    table_of(
        alloc,
        space,
        |i: u8| -> u8
            requires { (space ≡ 2) ⊎ (space ≡ 3) }
            ensures { result ≡ turned_entry space i }
        { turned_of(i, space) },
    )
}

fn turned_of(i: u8, space: u32) -> u8
    requires { (space ≡ 2) ⊎ (space ≡ 3) }
    ensures { result ≡ turned_entry space i }
{
    let unit = unit_of(space);
    let low = i % unit;
    if unit / 2 <= i / unit {
        unit - 1 - low
    } else {
        low
    }
}
