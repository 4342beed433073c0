//! Cells that stand above the top of a number, or below its lowest block.
ghost use Rattle.std.specs.Prelude.{◌≡◌, ◌⊎◌, ℕ, List, ◌<◌, ◌≤◌, ◌+◌, ◌-◌, ◌*◌, ◌^◌, IfOk, length};
ghost use Rattle.rx_net.specs.Cells.{value, depth};
ghost use Rattle.rx_net.specs.Growth.{Extends};
ghost use Rattle.rx_plan.specs.Tables.{HasEntries};
ghost use Rattle.rx_plan.specs.Values.{AreInputs};
ghost use Rattle.rx_plan.specs.Planned.{Gives, HasRoom, IsCell, Planned};
ghost use Rattle.rx_bits.specs.Signs.{fill_digit};

use rx_net::NetPen;
use rx_plan::{fixed, single, table_of, unit_of};
use std::alloc::{AllocError, Global};

/// So many times the cell that stands above a number whose top block is `top`: all ones where the number
/// is signed and negative, else 0. It costs one job.
pub(crate) fn filled(
    pen: &mut NetPen,
    top: u32,
    signed: bool,
    count: usize,
) -> Result<Vec<u32>, AllocError>
    requires top { IsCell pen.old (2 ^ pen.old.space - 1) top }
    requires room { HasRoom pen.old count }
    ensures kept { Extends pen.old pen.new }
    ensures planned { IfOk result (λ cells. Planned pen.old pen.new cells.items
        (λ _. 2 ^ pen.old.space - 1) count count 1 (λ P. P top)
        (λ inputs _. fill_digit signed pen.old.space (value pen.old inputs top))) }
{
    let _space = pen.space();
    if count == 0 {
        Ok(Vec::new(pen.allocator()))
    } else {
        let cell = fill(pen, top, signed)?;
        vec![in pen.allocator(); cell; count]
    }
}

/// The cell that stands above a number whose top block is `top`.
fn fill(pen: &mut NetPen, top: u32, signed: bool) -> Result<u32, AllocError>
    requires top { IsCell pen.old (2 ^ pen.old.space - 1) top }
    requires room { HasRoom pen.old 1 }
    ensures kept { Extends pen.old pen.new }
    ensures gives { IfOk result (λ cell. Gives pen.old pen.new cell (2 ^ pen.old.space - 1) 1) }
    ensures deep { IfOk result (λ cell. (d : ℕ) → depth pen.old top ≤ d
        → depth pen.new cell ≤ d + 1) }
    ensures value { IfOk result (λ cell. (inputs : List ℕ) → AreInputs pen.old inputs →
        value pen.new inputs cell ≡ fill_digit signed pen.old.space (value pen.old inputs top)) }
{
    let space = pen.space();
    let table = fill_table(pen.allocator(), space, signed)?;
    if signed {
        single(pen, top, &table)
    } else {
        fixed(pen, &table)
    }
}

/// The table of the digit that stands above each top digit.
fn fill_table(alloc: Global, space: u32, signed: bool) -> Result<Vec<u8>, AllocError>
    requires { (space ≡ 2) ⊎ (space ≡ 3) }
    ensures { IfOk result (λ table. HasEntries space (fill_digit signed space) table.items) }
{
    table_of(
        alloc,
        space,
        |i: u8| -> u8
            requires { (space ≡ 2) ⊎ (space ≡ 3) }
            ensures { result ≡ fill_digit signed space i }
        { fill_of(space, signed, i) },
    )
}

/// The digit that stands above a top digit.
pub(crate) fn fill_of(space: u32, signed: bool, top: u8) -> u8
    requires { (space ≡ 2) ⊎ (space ≡ 3) }
    ensures { result ≡ fill_digit signed space top }
{
    let unit = unit_of(space);
    if signed && unit / 2 <= top {
        unit - 1
    } else {
        0
    }
}
