//! Shifts by an encrypted amount, over both spaces and many widths: each planned net is evaluated in the clear at numbers
//! and amounts from the edges and at drawn ones, and its jobs and its depth are compared with the cost table.
ghost use Rattle.std.specs.Prelude.{◌≡◌, ◌⊎◌, ◌≤◌, ◌*◌, length, IfOk};
ghost use Rattle.rx_net.specs.Legal.{Legal};
ghost use Rattle.rx_costs.specs.Logs.{log_up};
ghost use Rattle.rx_costs.specs.Table.{amount_shift_jobs, signed_shift_jobs};
ghost use Rattle.rx_plan.specs.Planned.{AreBlocks, HasRoom};

use crate::clear::{greatest, pair};
use crate::tests::{given, name};
use crate::{Operands, two_numbers};
use rx_costs::{Cost, log_up};
use rx_net::{Net, NetPen, PenError, depth};
use rx_params::Kind;
use rx_shift::{sarv, shlv, shrv};
use std::alloc::{AllocError, Global};
use std::process::Abort;
use std::test::Fail;

/// The planners that are tried.
#[derive(Clone, Copy, Debug, PartialEq, Eq)]
enum Shift {
    Up,
    Down,
    /// To the lower places of a number with a sign.
    SignedDown,
}

/// A number of so many bits, shifted by the amount.
fn in_the_clear(shift: Shift, bits: u32, a: u64, amount: u64) -> u64 {
    let most = greatest(bits);
    let places = amount.min(64) as u32;
    let ones = if a > most / 2 { most } else { 0 };
    match shift {
        Shift::Up => a.checked_shl(places).unwrap_or(0) & most,
        Shift::Down => a.checked_shr(places).unwrap_or(0),
        Shift::SignedDown => (a ^ ones).checked_shr(places).unwrap_or(0) ^ ones,
    }
}

/// The row of the cost table.
fn cost(shift: Shift, space: u32, blocks: u32) -> Cost
    requires space { (space ≡ 2) ⊎ (space ≡ 3) }
    requires few { blocks ≤ 32 }
{
    let low_bits = log_up(2, space * blocks);
    match shift {
        Shift::Up | Shift::Down => Cost::amount_shift(low_bits, blocks),
        Shift::SignedDown => Cost::signed_shift(low_bits, blocks),
    }
}

fn plan(
    shift: Shift,
    pen: &mut NetPen,
    a: &[u32],
    amount: &[u32],
    out: &mut Vec<u32>,
) -> Result<(), AllocError>
    requires some { 1 ≤ length a.now }
    requires same { length amount.now ≡ length a.now }
    requires first { AreBlocks pen.old a.now }
    requires second { AreBlocks pen.old amount.now }
    requires room { HasRoom pen.old
        (amount_shift_jobs (log_up 2 (pen.old.space * length a.now)) (length a.now)) }
    requires more_room { HasRoom pen.old
        (signed_shift_jobs (log_up 2 (pen.old.space * length a.now)) (length a.now)) }
{
    match shift {
        Shift::Up => shlv(pen, a, amount, out),
        Shift::Down => shrv(pen, a, amount, out),
        Shift::SignedDown => sarv(pen, a, amount, out),
    }
}

/// A net of two numbers, the first shifted by the second.
fn planned(
    rt: &impl Abort,
    alloc: Global,
    shift: Shift,
    space: u32,
    blocks: u32,
) -> Result<Net, PenError>
    requires space { (space ≡ 2) ⊎ (space ≡ 3) }
    requires some { 1 ≤ blocks }
    requires few { blocks ≤ 32 }
    ensures { IfOk result (λ net. Legal net) }
{
    let made = two_numbers(alloc, space, blocks, name(rt, b"a"), name(rt, b"b"))?;
    let Operands { mut pen, a, b } = made;
    let low_bits = log_up(2, space * blocks);
    let plain_bound = Cost::amount_shift(low_bits, blocks);
    let signed_bound = Cost::signed_shift(low_bits, blocks);
    assert!(rt; plain_bound.jobs <= 65_536);
    assert!(rt; signed_bound.jobs <= 65_536);
    let mut out = Vec::new(alloc);
    plan(shift, &mut pen, &a, &b, &mut out)?;
    pen.output(name(rt, b"o"), Kind::Int, space * blocks, &out)?;
    Ok(pen.finish())
}

/// The pairs of a number and an amount that are tried: amounts from 0 to beyond the width, the greatest one, and drawn ones.
fn operands(number: u64, bits: u32) -> (u64, u64) {
    let (a, drawn) = pair(number % 75, bits);
    let most = greatest(bits);
    if number < 25 {
        (a, drawn)
    } else if number < 95 {
        (a, number.wrapping_sub(25) & most)
    } else {
        (a, most)
    }
}

/// Tries a planner at a width, and answers the jobs and the depth of its net.
fn tried(
    rt: &impl Abort,
    alloc: Global,
    shift: Shift,
    space: u32,
    blocks: u32,
) -> Result<Cost, PenError>
    requires space { (space ≡ 2) ⊎ (space ≡ 3) }
    requires some { 1 ≤ blocks }
    requires few { blocks ≤ 32 }
{
    let net = planned(rt, alloc, shift, space, blocks)?;
    let bits = space * blocks;
    for number in 0..100 {
        let (a, amount) = operands(number, bits);
        let given = given(rt, alloc, &net, blocks, a, amount)?;
        assert_eq!(rt;
            given,
            in_the_clear(shift, bits, a, amount),
            "{shift:?} {bits} {a} {amount}"
        );
    }
    let jobs = net.jobs.as_slice().len() as u64;
    Ok(Cost {
        jobs,
        depth: depth(alloc, &net)?,
    })
}

/// Tries a planner at a width, within the cost table.
fn within_the_table(
    rt: &impl Abort,
    alloc: Global,
    shift: Shift,
    space: u32,
    blocks: u32,
) -> Result<(), PenError>
    requires space { (space ≡ 2) ⊎ (space ≡ 3) }
    requires some { 1 ≤ blocks }
    requires few { blocks ≤ 32 }
{
    let made = tried(rt, alloc, shift, space, blocks)?;
    let bound = cost(shift, space, blocks);
    assert!(rt; made.jobs <= bound.jobs, "{shift:?} {space} {blocks}");
    assert!(rt; made.depth <= bound.depth, "{shift:?} {space} {blocks}");
    Ok(())
}

/// Tries a planner at all widths.
fn all_widths(rt: &impl Abort, alloc: Global, shift: Shift) -> Result<(), PenError> {
    for blocks in [1, 2, 3, 4, 5, 8, 16, 21, 32] {
        within_the_table(rt, alloc, shift, 2, blocks)?;
    }
    for blocks in [1, 2, 3, 4, 5, 8, 16, 21] {
        within_the_table(rt, alloc, shift, 3, blocks)?;
    }
    Ok(())
}

#[test]
fn shifts_up(rt: HostRuntime) -> Result<(), Fail> {
    all_widths(&rt, rt.alloc(), Shift::Up)?;
    Ok(())
}

#[test]
fn shifts_down(rt: HostRuntime) -> Result<(), Fail> {
    all_widths(&rt, rt.alloc(), Shift::Down)?;
    Ok(())
}

#[test]
fn signed_shifts_down(rt: HostRuntime) -> Result<(), Fail> {
    all_widths(&rt, rt.alloc(), Shift::SignedDown)?;
    Ok(())
}

/// Shifts of 64 bits with blocks of two bits: at most 600 jobs, where the table allows 839.
#[test]
fn jobs_of_sixty_four_bits(rt: HostRuntime) -> Result<(), Fail> {
    let alloc = rt.alloc();
    let up = tried(&rt, alloc, Shift::Up, 2, 32)?;
    assert!(rt; up.jobs <= 600);
    assert!(rt; up.depth <= 14);
    let down = tried(&rt, alloc, Shift::Down, 2, 32)?;
    assert!(rt; down.jobs <= 600);
    assert!(rt; down.depth <= 14);
    Ok(())
}

/// 200 and 156 of 8 bits, which is -100 with a sign, shifted by less than the width and by more.
#[test]
fn numbers_of_eight_bits(rt: HostRuntime) -> Result<(), Fail> {
    let alloc = rt.alloc();
    let up = planned(&rt, alloc, Shift::Up, 2, 4)?;
    assert_eq!(rt; given(&rt, alloc, &up, 4, 200, 3)?, 64);
    assert_eq!(rt; given(&rt, alloc, &up, 4, 200, 0)?, 200);
    assert_eq!(rt; given(&rt, alloc, &up, 4, 201, 7)?, 128);
    assert_eq!(rt; given(&rt, alloc, &up, 4, 201, 8)?, 0);
    assert_eq!(rt; given(&rt, alloc, &up, 4, 201, 255)?, 0);
    let down = planned(&rt, alloc, Shift::Down, 2, 4)?;
    assert_eq!(rt; given(&rt, alloc, &down, 4, 200, 3)?, 25);
    assert_eq!(rt; given(&rt, alloc, &down, 4, 200, 7)?, 1);
    assert_eq!(rt; given(&rt, alloc, &down, 4, 200, 8)?, 0);
    let signed = planned(&rt, alloc, Shift::SignedDown, 2, 4)?;
    assert_eq!(rt; given(&rt, alloc, &signed, 4, 156, 3)?, 243);
    assert_eq!(rt; given(&rt, alloc, &signed, 4, 156, 7)?, 255);
    assert_eq!(rt; given(&rt, alloc, &signed, 4, 156, 200)?, 255);
    assert_eq!(rt; given(&rt, alloc, &signed, 4, 100, 3)?, 12);
    assert_eq!(rt; given(&rt, alloc, &signed, 4, 100, 8)?, 0);
    Ok(())
}
