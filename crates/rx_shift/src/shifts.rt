//! The planners of shifts by an encrypted amount.
ghost use Rattle.std.specs.Prelude.{◌≡◌, ◌<◌, ◌≤◌, ◌+◌, ◌-◌, ◌*◌, ◌/◌, ◌%◌, ◌^◌, IfOk, OnOk, OnErr, length};
ghost use Rattle.rx_params.specs.Kinds.{digit_at};
ghost use Rattle.rx_net.specs.Growth.{Extends};
ghost use Rattle.rx_costs.specs.Logs.{log_up};
ghost use Rattle.rx_costs.specs.Table.{amount_shift_jobs, amount_shift_depth};
ghost use Rattle.rx_plan.specs.Values.{number_held};
ghost use Rattle.rx_plan.specs.Planned.{EachOf, AreBlocks, HasRoom, Planned};
ghost use Rattle.rx_plan.specs.Results.{GivesNumber};
ghost use Rattle.rx_shift.specs.Shifts.{moved, moving_jobs};

use crate::amount::{low_bits, too_great};
use crate::direction::Direction;
use crate::stages::{cleared, stages};
use rx_costs::log_up;
use rx_net::NetPen;
use rx_plan::nought;
use std::alloc::AllocError;

/// Appends `a` times two to the power of `amount`, of which the bits above the width of `a` are lost: 0 where
/// the amount is the width or more. The only error is want of memory, after which `out` is as before.
pub fn shlv(
    pen: &mut NetPen,
    a: &[u32],
    amount: &[u32],
    out: &mut Vec<u32>,
) -> Result<(), AllocError>
    requires some { 1 ≤ length a.now }
    requires same { length amount.now ≡ length a.now }
    requires first { AreBlocks pen.old a.now }
    requires second { AreBlocks pen.old amount.now }
    requires room { HasRoom pen.old
        (amount_shift_jobs (log_up 2 (pen.old.space * length a.now)) (length a.now)) }
    ensures kept { Extends pen.old pen.new }
    ensures unchanged { OnErr result (out.new.items ≡ out.old.items) }
    ensures gives { OnOk result (GivesNumber pen.old pen.new out.old.items out.new.items
        (length a.now)
        (amount_shift_jobs (log_up 2 (pen.old.space * length a.now)) (length a.now))
        (amount_shift_depth (log_up 2 (pen.old.space * length a.now))) (EachOf a.now amount.now)
        (λ inputs. number_held pen.old a.now inputs * 2 ^ number_held pen.old amount.now inputs)) }
{
    let _space = pen.space();
    let cells = shifted(pen, Direction::Up, a, amount)?;
    out.extend_from_slice(&cells)?;
    Ok(())
}

/// Appends `a` divided by two to the power of `amount`, rounded down: 0 where the amount is the width of `a`
/// or more. The only error is want of memory, after which `out` is as before.
pub fn shrv(
    pen: &mut NetPen,
    a: &[u32],
    amount: &[u32],
    out: &mut Vec<u32>,
) -> Result<(), AllocError>
    requires some { 1 ≤ length a.now }
    requires same { length amount.now ≡ length a.now }
    requires first { AreBlocks pen.old a.now }
    requires second { AreBlocks pen.old amount.now }
    requires room { HasRoom pen.old
        (amount_shift_jobs (log_up 2 (pen.old.space * length a.now)) (length a.now)) }
    ensures kept { Extends pen.old pen.new }
    ensures unchanged { OnErr result (out.new.items ≡ out.old.items) }
    ensures gives { OnOk result (GivesNumber pen.old pen.new out.old.items out.new.items
        (length a.now)
        (amount_shift_jobs (log_up 2 (pen.old.space * length a.now)) (length a.now))
        (amount_shift_depth (log_up 2 (pen.old.space * length a.now))) (EachOf a.now amount.now)
        (λ inputs. number_held pen.old a.now inputs / 2 ^ number_held pen.old amount.now inputs)) }
{
    let _space = pen.space();
    let cells = shifted(pen, Direction::Down, a, amount)?;
    out.extend_from_slice(&cells)?;
    Ok(())
}

/// The blocks of the number that is shifted.
pub(crate) fn shifted(
    pen: &mut NetPen,
    direction: Direction,
    a: &[u32],
    amount: &[u32],
) -> Result<Vec<u32>, AllocError>
    requires some { 1 ≤ length a.now }
    requires same { length amount.now ≡ length a.now }
    requires first { AreBlocks pen.old a.now }
    requires second { AreBlocks pen.old amount.now }
    requires room { HasRoom pen.old
        (amount_shift_jobs (log_up 2 (pen.old.space * length a.now)) (length a.now)) }
    ensures kept { Extends pen.old pen.new }
    ensures planned { IfOk result (λ cells. Planned pen.old pen.new cells.items
        (λ _. 2 ^ pen.old.space - 1) (length a.now)
        (amount_shift_jobs (log_up 2 (pen.old.space * length a.now)) (length a.now))
        (amount_shift_depth (log_up 2 (pen.old.space * length a.now))) (EachOf a.now amount.now)
        (λ inputs i. digit_at pen.old.space
        (moved direction (number_held pen.old a.now inputs)
        (number_held pen.old amount.now inputs)) i)) }
{
    let space = pen.space();
    let count = log_up(2, space * a.len() as u32);
    let cells = moved_low(pen, direction, a, amount, count)?;
    let flag = too_great(pen, amount, count)?;
    cleared(pen, flag, &cells)
}

/// The blocks, moved by the number of the low bits of the amount.
fn moved_low(
    pen: &mut NetPen,
    direction: Direction,
    a: &[u32],
    amount: &[u32],
    count: u32,
) -> Result<Vec<u32>, AllocError>
    requires some { 1 ≤ length a.now }
    requires first { AreBlocks pen.old a.now }
    requires second { AreBlocks pen.old amount.now }
    requires few { count ≤ pen.old.space * length amount.now }
    requires low { count ≤ 30 }
    requires room { HasRoom pen.old (moving_jobs count (length a.now)) }
    ensures kept { Extends pen.old pen.new }
    ensures planned { IfOk result (λ cells. Planned pen.old pen.new cells.items
        (λ _. 2 ^ pen.old.space - 1) (length a.now)
        (moving_jobs count (length a.now)) (1 + 2 * count) (EachOf a.now amount.now)
        (λ inputs i. digit_at pen.old.space
        (moved direction (number_held pen.old a.now inputs)
        (number_held pen.old amount.now inputs % 2 ^ count)) i)) }
{
    let _space = pen.space();
    let bits = low_bits(pen, amount, count)?;
    let nought = nought(pen)?;
    stages(pen, direction, a, &bits, nought)
}
