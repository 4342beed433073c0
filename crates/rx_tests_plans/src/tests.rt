//! Sums, differences, what goes out of them and products, over both spaces and many widths: each planned net is evaluated
//! in the clear at numbers from the edges and at drawn ones, and its jobs and its depth are compared with the cost table.
ghost use Rattle.std.specs.Prelude.{◌≡◌, ◌⊎◌, ◌≤◌, length, IfOk};
ghost use Rattle.rx_net.specs.Legal.{Legal};
ghost use Rattle.rx_costs.specs.Table.{add_jobs, mul_jobs};
ghost use Rattle.rx_plan.specs.Planned.{AreBlocks, HasRoom};

use crate::clear::{Planner, digits, in_the_clear, number_in, pair};
use crate::{Operands, two_numbers};
use rx_carry::{add, borrow_out, carry_out, neg, sub};
use rx_costs::Cost;
use rx_mul::mul;
use rx_net::{Net, NetPen, PenError, are_within, depth, plain};
use rx_params::{Kind, Name};
use std::alloc::{AllocError, Global};
use std::process::Abort;
use std::test::Fail;

/// The row of the cost table.
fn cost(planner: Planner, space: u32, blocks: u32) -> Cost
    requires space { (space ≡ 2) ⊎ (space ≡ 3) }
    requires some { 1 ≤ blocks }
    requires few { blocks ≤ 32 }
{
    match planner {
        Planner::Add | Planner::Sub | Planner::Neg => Cost::add(blocks),
        Planner::CarryOut | Planner::BorrowOut => Cost::compare(blocks),
        Planner::Mul => Cost::mul(space, blocks),
    }
}

fn plan(
    planner: Planner,
    pen: &mut NetPen,
    a: &[u32],
    b: &[u32],
    out: &mut Vec<u32>,
) -> Result<(), AllocError>
    requires some { 1 ≤ length a.now }
    requires same { length b.now ≡ length a.now }
    requires first { AreBlocks pen.old a.now }
    requires second { AreBlocks pen.old b.now }
    requires room { HasRoom pen.old (add_jobs (length a.now)) }
    requires more_room { HasRoom pen.old (mul_jobs pen.old.space (length a.now)) }
{
    match planner {
        Planner::Add => add(pen, a, b, out),
        Planner::Sub => sub(pen, a, b, out),
        Planner::Neg => neg(pen, a, out),
        Planner::CarryOut => carry_out(pen, a, b, out),
        Planner::BorrowOut => borrow_out(pen, a, b, out),
        Planner::Mul => mul(pen, a, b, out),
    }
}

pub(crate) fn name(rt: &impl Abort, word: &[u8]) -> Name {
    let Some(name) = Name::of(word) else {
        panic!(rt; "a name");
    };
    name
}

/// A net of two numbers, and what the planner makes of them.
fn planned(
    rt: &impl Abort,
    alloc: Global,
    planner: Planner,
    space: u32,
    blocks: u32,
) -> Result<Net, PenError>
    requires space { (space ≡ 2) ⊎ (space ≡ 3) }
    requires some { 1 ≤ blocks }
    requires few { blocks ≤ 32 }
    ensures { IfOk result (λ net. Legal net) }
{
    let made = two_numbers(alloc, space, blocks, name(rt, b"a"), name(rt, b"b"))?;
    let Operands { mut pen, a, b } = made;
    let sum = Cost::add(blocks);
    let product = Cost::mul(space, blocks);
    assert!(rt; sum.jobs <= 65_536);
    assert!(rt; product.jobs <= 65_536);
    let mut out = Vec::new(alloc);
    plan(planner, &mut pen, &a, &b, &mut out)?;
    if planner == Planner::CarryOut || planner == Planner::BorrowOut {
        pen.output(name(rt, b"o"), Kind::Bit, 1, &out)?;
    } else {
        pen.output(name(rt, b"o"), Kind::Int, space * blocks, &out)?;
    }
    Ok(pen.finish())
}

/// What the net gives for two numbers.
pub(crate) fn given(
    rt: &impl Abort,
    alloc: Global,
    net: &Net,
    blocks: u32,
    a: u64,
    b: u64,
) -> Result<u64, AllocError>
    requires { Legal net.now }
{
    let inputs = digits(alloc, net.space, blocks, a, b)?;
    assert!(rt; are_within(net, &inputs));
    let values = plain(alloc, net, &inputs)?;
    let outputs = net.outputs.as_slice();
    match outputs.first() {
        Some(output) => Ok(number_in(net.space, &values, output.cells.as_slice())),
        None => Ok(0),
    }
}

/// Tries a planner at a width, and answers the jobs and the depth of its net.
fn tried(
    rt: &impl Abort,
    alloc: Global,
    planner: Planner,
    space: u32,
    blocks: u32,
) -> Result<Cost, PenError>
    requires space { (space ≡ 2) ⊎ (space ≡ 3) }
    requires some { 1 ≤ blocks }
    requires few { blocks ≤ 32 }
{
    let net = planned(rt, alloc, planner, space, blocks)?;
    let bits = space * blocks;
    for number in 0..75 {
        let (a, b) = pair(number, bits);
        let given = given(rt, alloc, &net, blocks, a, b)?;
        assert_eq!(rt;
            given,
            in_the_clear(planner, bits, a, b),
            "{planner:?} {bits} {a} {b}"
        );
    }
    let jobs = net.jobs.as_slice().len() as u64;
    Ok(Cost {
        jobs,
        depth: depth(alloc, &net)?,
    })
}

/// Tries a planner at all widths.
fn all_widths(rt: &impl Abort, alloc: Global, planner: Planner) -> Result<(), PenError> {
    for blocks in [1, 2, 3, 4, 5, 8, 16, 21, 32] {
        let made = tried(rt, alloc, planner, 2, blocks)?;
        let bound = cost(planner, 2, blocks);
        assert!(rt; made.jobs <= bound.jobs, "{planner:?} {blocks}");
        assert!(rt; made.depth <= bound.depth, "{planner:?} {blocks}");
    }
    for blocks in [1, 2, 3, 4, 5, 8, 16, 21] {
        let made = tried(rt, alloc, planner, 3, blocks)?;
        let bound = cost(planner, 3, blocks);
        assert!(rt; made.jobs <= bound.jobs, "{planner:?} {blocks}");
        assert!(rt; made.depth <= bound.depth, "{planner:?} {blocks}");
    }
    Ok(())
}

#[test]
fn sums(rt: HostRuntime) -> Result<(), Fail> {
    all_widths(&rt, rt.alloc(), Planner::Add)?;
    Ok(())
}

#[test]
fn differences(rt: HostRuntime) -> Result<(), Fail> {
    all_widths(&rt, rt.alloc(), Planner::Sub)?;
    Ok(())
}

#[test]
fn negations(rt: HostRuntime) -> Result<(), Fail> {
    all_widths(&rt, rt.alloc(), Planner::Neg)?;
    Ok(())
}

#[test]
fn carries_out(rt: HostRuntime) -> Result<(), Fail> {
    all_widths(&rt, rt.alloc(), Planner::CarryOut)?;
    Ok(())
}

#[test]
fn borrows_out(rt: HostRuntime) -> Result<(), Fail> {
    all_widths(&rt, rt.alloc(), Planner::BorrowOut)?;
    Ok(())
}

#[test]
fn products(rt: HostRuntime) -> Result<(), Fail> {
    all_widths(&rt, rt.alloc(), Planner::Mul)?;
    Ok(())
}

/// Sums of 8 and of 64 bits, and a product of 64, with blocks of two bits: the depth is the table's, and the jobs are fewer.
#[test]
fn jobs_of_known_widths(rt: HostRuntime) -> Result<(), Fail> {
    let alloc = rt.alloc();
    let small = tried(&rt, alloc, Planner::Add, 2, 4)?;
    assert_eq!(rt; (small.jobs, small.depth), (9, 4));
    let wide = tried(&rt, alloc, Planner::Add, 2, 32)?;
    assert_eq!(rt; (wide.jobs, wide.depth), (138, 7));
    let product = tried(&rt, alloc, Planner::Mul, 2, 32)?;
    assert!(rt; product.jobs <= 1_950);
    assert!(rt; product.depth <= 13);
    Ok(())
}

/// 200 + 100, 0 - 1 and -0 of 8 bits, and a difference that borrows through all blocks.
#[test]
fn numbers_of_eight_bits(rt: HostRuntime) -> Result<(), Fail> {
    let alloc = rt.alloc();
    let sum = planned(&rt, alloc, Planner::Add, 2, 4)?;
    assert_eq!(rt; given(&rt, alloc, &sum, 4, 200, 100)?, 44);
    let difference = planned(&rt, alloc, Planner::Sub, 2, 4)?;
    assert_eq!(rt; given(&rt, alloc, &difference, 4, 0, 1)?, 255);
    assert_eq!(rt; given(&rt, alloc, &difference, 4, 100, 200)?, 156);
    let negation = planned(&rt, alloc, Planner::Neg, 2, 4)?;
    assert_eq!(rt; given(&rt, alloc, &negation, 4, 0, 0)?, 0);
    assert_eq!(rt; given(&rt, alloc, &negation, 4, 1, 0)?, 255);
    let product = planned(&rt, alloc, Planner::Mul, 2, 4)?;
    assert_eq!(rt; given(&rt, alloc, &product, 4, 200, 100)?, 32);
    Ok(())
}
