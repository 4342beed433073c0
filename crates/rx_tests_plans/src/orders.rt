//! Bits, shifts and casts, orders and choices, over both spaces and many widths: each planned net is evaluated in the clear
//! at numbers from the edges and at drawn ones, and its jobs and its depth are compared with the cost table.
ghost use Rattle.std.specs.Prelude.{◌≡◌, ◌⊎◌, ◌≤◌, length, IfOk};
ghost use Rattle.rx_net.specs.Legal.{Legal};
ghost use Rattle.rx_plan.specs.Planned.{AreBlocks, HasRoom};

use crate::clear::{greatest, pair};
use crate::tests::{given, name};
use crate::{Operands, two_numbers};
use rx_bits::{and, cast, constant, not, or, sar, shl, shr, xor};
use rx_cmp::{eq, ge, gt, le, lt, max, min, ne, select, sge, sgt, sle, slt, smax, smin};
use rx_costs::Cost;
use rx_net::{Net, NetPen, PenError, depth};
use rx_params::Kind;
use std::alloc::{AllocError, Global};
use std::process::Abort;
use std::test::Fail;

/// The planners that are tried: what they do to the bits of a number, and what they make of the order of two.
#[derive(Clone, Copy, Debug, PartialEq, Eq)]
enum Planner {
    Bits(Bits),
    Order(Order),
    Extreme(Extreme),
}

#[derive(Clone, Copy, Debug, PartialEq, Eq)]
enum Bits {
    And,
    Or,
    Xor,
    Not,
    Constant(u64),
    Shl(u32),
    Shr(u32),
    Sar(u32),
    /// To so many blocks, of a number with or without a sign.
    Cast(u32, bool),
}

#[derive(Clone, Copy, Debug, PartialEq, Eq)]
enum Order {
    Eq,
    Ne,
    Lt,
    Le,
    Gt,
    Ge,
    Slt,
    Sle,
    Sgt,
    Sge,
}

#[derive(Clone, Copy, Debug, PartialEq, Eq)]
enum Extreme {
    Min,
    Max,
    Smin,
    Smax,
    /// The first number where it is less than the second, else the second.
    Select,
}

/// The order of numbers with a sign is that of the numbers whose top bits are turned.
fn turned(bits: u32, a: u64) -> u64 {
    let most = greatest(bits);
    a ^ most.wrapping_sub(most / 2)
}

fn is_negative(bits: u32, a: u64) -> bool {
    a > greatest(bits) / 2
}

/// The number divided by a power of two and rounded down, where its bits above are as the top one.
fn divided(bits: u32, amount: u32, a: u64) -> u64 {
    let most = greatest(bits);
    if is_negative(bits, a) {
        !(!a & most).checked_shr(amount).unwrap_or(0) & most
    } else {
        a.checked_shr(amount).unwrap_or(0)
    }
}

fn bits_in_the_clear(planner: Bits, space: u32, blocks: u32, a: u64, b: u64) -> u64
    requires space { (space ≡ 2) ⊎ (space ≡ 3) }
    requires few { blocks ≤ 32 }
{
    let bits = space * blocks;
    let most = greatest(bits);
    match planner {
        Bits::And => a & b,
        Bits::Or => a | b,
        Bits::Xor => a ^ b,
        Bits::Not => !a & most,
        Bits::Constant(number) => number & most,
        Bits::Shl(amount) => a.checked_shl(amount).unwrap_or(0) & most,
        Bits::Shr(amount) => a.checked_shr(amount).unwrap_or(0),
        Bits::Sar(amount) => divided(bits, amount, a),
        Bits::Cast(wanted, signed) => {
            let filled = if signed && is_negative(bits, a) {
                a | !most
            } else {
                a
            };
            filled & greatest(space.wrapping_mul(wanted))
        }
    }
}

fn order_in_the_clear(planner: Order, bits: u32, a: u64, b: u64) -> bool {
    match planner {
        Order::Eq => a == b,
        Order::Ne => a != b,
        Order::Lt => a < b,
        Order::Le => a <= b,
        Order::Gt => a > b,
        Order::Ge => a >= b,
        Order::Slt => turned(bits, a) < turned(bits, b),
        Order::Sle => turned(bits, a) <= turned(bits, b),
        Order::Sgt => turned(bits, a) > turned(bits, b),
        Order::Sge => turned(bits, a) >= turned(bits, b),
    }
}

fn extreme_in_the_clear(planner: Extreme, bits: u32, a: u64, b: u64) -> u64 {
    let first = match planner {
        Extreme::Min | Extreme::Select => a < b,
        Extreme::Max => a > b,
        Extreme::Smin => turned(bits, a) < turned(bits, b),
        Extreme::Smax => turned(bits, a) > turned(bits, b),
    };
    if first { a } else { b }
}

fn in_the_clear(planner: Planner, space: u32, blocks: u32, a: u64, b: u64) -> u64
    requires space { (space ≡ 2) ⊎ (space ≡ 3) }
    requires few { blocks ≤ 32 }
{
    match planner {
        Planner::Bits(bits) => bits_in_the_clear(bits, space, blocks, a, b),
        Planner::Order(order) => u64::from(order_in_the_clear(order, space * blocks, a, b)),
        Planner::Extreme(extreme) => extreme_in_the_clear(extreme, space * blocks, a, b),
    }
}

/// The row of the cost table.
fn cost(planner: Planner, space: u32, blocks: u32) -> Cost
    requires space { (space ≡ 2) ⊎ (space ≡ 3) }
    requires some { 1 ≤ blocks }
    requires few { blocks ≤ 32 }
{
    match planner {
        Planner::Bits(Bits::Constant(_)) => Cost::constant(blocks),
        Planner::Bits(Bits::Shl(_) | Bits::Shr(_) | Bits::Sar(_)) => Cost::shift(blocks),
        Planner::Bits(Bits::Cast(wanted, _)) => Cost::cast(blocks, wanted),
        Planner::Bits(_) => Cost::bitwise(blocks),
        Planner::Order(Order::Eq | Order::Ne) => Cost::equal(space, blocks),
        Planner::Order(_) => Cost::compare(blocks),
        Planner::Extreme(_) => Cost::extreme(blocks),
    }
}

fn plan_bits(
    planner: Bits,
    pen: &mut NetPen,
    a: &[u32],
    b: &[u32],
    out: &mut Vec<u32>,
) -> Result<(), AllocError>
    requires some { 1 ≤ length a.now }
    requires few { length a.now ≤ 32 }
    requires same { length b.now ≡ length a.now }
    requires first { AreBlocks pen.old a.now }
    requires second { AreBlocks pen.old b.now }
    requires room { HasRoom pen.old 256 }
{
    match planner {
        Bits::And => and(pen, a, b, Kind::Int, out),
        Bits::Or => or(pen, a, b, Kind::Int, out),
        Bits::Xor => xor(pen, a, b, Kind::Int, out),
        Bits::Not => not(pen, a, Kind::Int, out),
        Bits::Constant(number) => constant(pen, a.len() as u32, number, out),
        Bits::Shl(amount) => shl(pen, a, amount, out),
        Bits::Shr(amount) => shr(pen, a, amount, out),
        Bits::Sar(amount) => sar(pen, a, amount, out),
        Bits::Cast(wanted, signed) => cast(pen, a, wanted.clamp(1, 32), signed, out),
    }
}

fn plan_order(
    planner: Order,
    pen: &mut NetPen,
    a: &[u32],
    b: &[u32],
    out: &mut Vec<u32>,
) -> Result<(), AllocError>
    requires some { 1 ≤ length a.now }
    requires few { length a.now ≤ 32 }
    requires same { length b.now ≡ length a.now }
    requires first { AreBlocks pen.old a.now }
    requires second { AreBlocks pen.old b.now }
    requires room { HasRoom pen.old 256 }
{
    match planner {
        Order::Eq => eq(pen, a, b, out),
        Order::Ne => ne(pen, a, b, out),
        Order::Lt => lt(pen, a, b, out),
        Order::Le => le(pen, a, b, out),
        Order::Gt => gt(pen, a, b, out),
        Order::Ge => ge(pen, a, b, out),
        Order::Slt => slt(pen, a, b, out),
        Order::Sle => sle(pen, a, b, out),
        Order::Sgt => sgt(pen, a, b, out),
        Order::Sge => sge(pen, a, b, out),
    }
}

fn plan_extreme(
    planner: Extreme,
    pen: &mut NetPen,
    a: &[u32],
    b: &[u32],
    out: &mut Vec<u32>,
) -> Result<(), AllocError>
    requires some { 1 ≤ length a.now }
    requires few { length a.now ≤ 32 }
    requires same { length b.now ≡ length a.now }
    requires first { AreBlocks pen.old a.now }
    requires second { AreBlocks pen.old b.now }
    requires room { HasRoom pen.old 256 }
{
    match planner {
        Extreme::Min => min(pen, a, b, out),
        Extreme::Max => max(pen, a, b, out),
        Extreme::Smin => smin(pen, a, b, out),
        Extreme::Smax => smax(pen, a, b, out),
        Extreme::Select => plan_select(pen, a, b, out),
    }
}

fn plan_select(pen: &mut NetPen, a: &[u32], b: &[u32], out: &mut Vec<u32>) -> Result<(), AllocError>
    requires some { 1 ≤ length a.now }
    requires few { length a.now ≤ 32 }
    requires same { length b.now ≡ length a.now }
    requires first { AreBlocks pen.old a.now }
    requires second { AreBlocks pen.old b.now }
    requires room { HasRoom pen.old 256 }
{
    let mut less = Vec::new(pen.allocator());
    lt(pen, a, b, &mut less)?;
    select(pen, less[0], a, b, out)
}

/// A net of two numbers, and what the planner makes of them.
fn planned(
    rt: &impl Abort,
    alloc: Global,
    planner: Planner,
    space: u32,
    blocks: u32,
) -> Result<Net, PenError>
    requires space { (space ≡ 2) ⊎ (space ≡ 3) }
    requires some { 1 ≤ blocks }
    requires few { blocks ≤ 32 }
    ensures { IfOk result (λ net. Legal net) }
{
    let made = two_numbers(alloc, space, blocks, name(rt, b"a"), name(rt, b"b"))?;
    let Operands { mut pen, a, b } = made;
    let mut out = Vec::new(alloc);
    match planner {
        Planner::Bits(bits) => plan_bits(bits, &mut pen, &a, &b, &mut out)?,
        Planner::Order(order) => plan_order(order, &mut pen, &a, &b, &mut out)?,
        Planner::Extreme(extreme) => plan_extreme(extreme, &mut pen, &a, &b, &mut out)?,
    }
    let width = match planner {
        Planner::Bits(Bits::Cast(wanted, _)) => wanted.clamp(1, 32),
        _ => blocks,
    };
    if let Planner::Order(_) = planner {
        pen.output(name(rt, b"o"), Kind::Bit, 1, &out)?;
    } else {
        pen.output(name(rt, b"o"), Kind::Int, space * width, &out)?;
    }
    Ok(pen.finish())
}

/// Tries a planner at a width, and answers the jobs and the depth of its net.
fn tried(
    rt: &impl Abort,
    alloc: Global,
    planner: Planner,
    space: u32,
    blocks: u32,
) -> Result<Cost, PenError>
    requires space { (space ≡ 2) ⊎ (space ≡ 3) }
    requires some { 1 ≤ blocks }
    requires few { blocks ≤ 32 }
{
    let net = planned(rt, alloc, planner, space, blocks)?;
    for number in 0..75 {
        let (a, b) = pair(number, space * blocks);
        let given = given(rt, alloc, &net, blocks, a, b)?;
        assert_eq!(rt;
            given,
            in_the_clear(planner, space, blocks, a, b),
            "{planner:?} {space} {blocks} {a} {b}"
        );
    }
    let jobs = net.jobs.as_slice().len() as u64;
    Ok(Cost {
        jobs,
        depth: depth(alloc, &net)?,
    })
}

/// Tries a planner at all widths.
fn all_widths(rt: &impl Abort, alloc: Global, planner: Planner) -> Result<(), PenError> {
    for blocks in [1, 2, 3, 4, 5, 8, 16, 21, 32] {
        let made = tried(rt, alloc, planner, 2, blocks)?;
        let bound = cost(planner, 2, blocks);
        assert!(rt; made.jobs <= bound.jobs, "{planner:?} {blocks}");
        assert!(rt; made.depth <= bound.depth, "{planner:?} {blocks}");
    }
    for blocks in [1, 2, 3, 4, 5, 8, 16, 21] {
        let made = tried(rt, alloc, planner, 3, blocks)?;
        let bound = cost(planner, 3, blocks);
        assert!(rt; made.jobs <= bound.jobs, "{planner:?} {blocks}");
        assert!(rt; made.depth <= bound.depth, "{planner:?} {blocks}");
    }
    Ok(())
}

fn all_bits(rt: &impl Abort, alloc: Global, planner: Bits) -> Result<(), PenError> {
    all_widths(rt, alloc, Planner::Bits(planner))
}

#[test]
fn bit_by_bit(rt: HostRuntime) -> Result<(), Fail> {
    for planner in [Bits::And, Bits::Or, Bits::Xor, Bits::Not] {
        all_bits(&rt, rt.alloc(), planner)?;
    }
    Ok(())
}

#[test]
fn constants(rt: HostRuntime) -> Result<(), Fail> {
    for number in [0, 1, u64::MAX, 0x0123_4567_89ab_cdef] {
        all_bits(&rt, rt.alloc(), Bits::Constant(number))?;
    }
    Ok(())
}

#[test]
fn shifts(rt: HostRuntime) -> Result<(), Fail> {
    for amount in [0, 1, 2, 3, 5, 8, 31, 62, 63, 64, 70, u32::MAX] {
        for planner in [Bits::Shl(amount), Bits::Shr(amount), Bits::Sar(amount)] {
            all_bits(&rt, rt.alloc(), planner)?;
        }
    }
    Ok(())
}

#[test]
fn casts(rt: HostRuntime) -> Result<(), Fail> {
    for blocks in [1, 2, 3, 5, 8, 20, 21] {
        for signed in [false, true] {
            all_bits(&rt, rt.alloc(), Bits::Cast(blocks, signed))?;
        }
    }
    Ok(())
}

#[test]
fn orders(rt: HostRuntime) -> Result<(), Fail> {
    let unsigned = [
        Order::Eq,
        Order::Ne,
        Order::Lt,
        Order::Le,
        Order::Gt,
        Order::Ge,
    ];
    for planner in unsigned {
        all_widths(&rt, rt.alloc(), Planner::Order(planner))?;
    }
    for planner in [Order::Slt, Order::Sle, Order::Sgt, Order::Sge] {
        all_widths(&rt, rt.alloc(), Planner::Order(planner))?;
    }
    Ok(())
}

#[test]
fn extremes(rt: HostRuntime) -> Result<(), Fail> {
    let planners = [
        Extreme::Min,
        Extreme::Max,
        Extreme::Smin,
        Extreme::Smax,
        Extreme::Select,
    ];
    for planner in planners {
        all_widths(&rt, rt.alloc(), Planner::Extreme(planner))?;
    }
    Ok(())
}

/// No job is planned for what is known: a move by whole blocks, a cast to fewer blocks, digits of a constant that are alike.
#[test]
fn jobs_of_known_widths(rt: HostRuntime) -> Result<(), Fail> {
    let alloc = rt.alloc();
    let moved = tried(&rt, alloc, Planner::Bits(Bits::Shl(8)), 2, 32)?;
    assert_eq!(rt; (moved.jobs, moved.depth), (1, 1));
    let shorter = tried(&rt, alloc, Planner::Bits(Bits::Cast(4, false)), 2, 32)?;
    assert_eq!(rt; (shorter.jobs, shorter.depth), (0, 0));
    let ones = tried(&rt, alloc, Planner::Bits(Bits::Constant(u64::MAX)), 2, 32)?;
    assert_eq!(rt; (ones.jobs, ones.depth), (1, 1));
    let equal = tried(&rt, alloc, Planner::Order(Order::Eq), 2, 32)?;
    assert!(rt; equal.jobs <= 42);
    assert!(rt; equal.depth <= 4);
    Ok(())
}
