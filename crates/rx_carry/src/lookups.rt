//! Jobs over two blocks of one place, and what comes into it.
ghost use Rattle.std.specs.Prelude.{◌≡◌, ◌-◌, ◌*◌, ◌^◌, IfOk};
ghost use Rattle.rx_net.specs.Growth.{Extends};
ghost use Rattle.rx_plan.specs.Tables.{IsTable};
ghost use Rattle.rx_plan.specs.Planned.{IsCell, HasRoom, Makes};
ghost use Rattle.rx_carry.specs.Carries.{joint};

use crate::operation::Operation;
use rx_net::NetPen;
use rx_plan::{difference, difference_with_borrow, pair, single, triple, unit_of};
use std::alloc::AllocError;

/// A job that looks up what the operation makes of two blocks into which nothing comes.
pub(crate) fn look_up(
    pen: &mut NetPen,
    operation: Operation,
    x: u32,
    y: u32,
    table: &[u8],
) -> Result<u32, AllocError>
    requires first { IsCell pen.old (2 ^ pen.old.space - 1) x }
    requires second { IsCell pen.old (2 ^ pen.old.space - 1) y }
    requires table { IsTable pen.old.space table.now }
    requires room { HasRoom pen.old 1 }
    ensures kept { Extends pen.old pen.new }
    ensures makes { IfOk result (λ cell. Makes pen.old pen.new cell (λ P. P x × P y)
        (2 * 2 ^ pen.old.space - 1)
        (λ v. joint operation (2 ^ pen.old.space) (v x) (v y) 0) table.now) }
{
    let unit = unit_of(pen.space());
    match operation {
        Operation::Sum => pair(pen, 1, x, y, table),
        Operation::Difference => difference(pen, unit, x, y, table),
        Operation::Negation => single(pen, y, table),
    }
}

/// A job that looks up what the operation makes of two blocks and the carry or borrow that comes in.
pub(crate) fn look_up_with(
    pen: &mut NetPen,
    operation: Operation,
    x: u32,
    y: u32,
    carry: u32,
    table: &[u8],
) -> Result<u32, AllocError>
    requires first { IsCell pen.old (2 ^ pen.old.space - 1) x }
    requires second { IsCell pen.old (2 ^ pen.old.space - 1) y }
    requires third { IsCell pen.old 1 carry }
    requires table { IsTable pen.old.space table.now }
    requires room { HasRoom pen.old 1 }
    ensures kept { Extends pen.old pen.new }
    ensures makes { IfOk result (λ cell. Makes pen.old pen.new cell (λ P. P x × P y × P carry)
        (2 * 2 ^ pen.old.space - 1)
        (λ v. joint operation (2 ^ pen.old.space) (v x) (v y) (v carry)) table.now) }
{
    let unit = unit_of(pen.space());
    match operation {
        Operation::Sum => triple(pen, x, y, carry, table),
        Operation::Difference => difference_with_borrow(pen, unit, x, y, carry, table),
        Operation::Negation => pair(pen, 1, y, carry, table),
    }
}
