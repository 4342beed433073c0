//! Division, over both spaces and many widths: each planned net is evaluated in the clear at all
//! pairs of narrow numbers, at numbers from the edges and at drawn ones, and its jobs and its depth
//! are compared with the cost table.
ghost use Rattle.std.specs.Prelude.{◌≡◌, ◌⊎◌, ◌≤◌, IfOk};
ghost use Rattle.rx_net.specs.Legal.{Legal};

use crate::clear::{digits, greatest, number_in, pair};
use crate::tests::name;
use crate::{Operands, two_numbers};
use rx_costs::Cost;
use rx_div::div_rem;
use rx_net::{Net, PenError, are_within, depth, plain};
use rx_params::Kind;
use std::alloc::{AllocError, Global};
use std::process::Abort;
use std::test::Fail;

/// The quotient and the remainder; of a divisor of 0 the greatest number of so many bits, and the
/// numerator.
fn in_the_clear(bits: u32, a: u64, b: u64) -> (u64, u64) {
    match (a.checked_div(b), a.checked_rem(b)) {
        (Some(quotient), Some(remainder)) => (quotient, remainder),
        _ => (greatest(bits), a),
    }
}

/// A net of two numbers, and of their quotient and remainder.
fn planned(rt: &impl Abort, alloc: Global, space: u32, blocks: u32) -> Result<Net, PenError>
    requires space { (space ≡ 2) ⊎ (space ≡ 3) }
    requires some { 1 ≤ blocks }
    requires few { blocks ≤ 32 }
    ensures { IfOk result (λ net. Legal net) }
{
    let made = two_numbers(alloc, space, blocks, name(rt, b"a"), name(rt, b"b"))?;
    let Operands { mut pen, a, b } = made;
    let bound = Cost::div(space, blocks);
    assert!(rt; bound.jobs <= 65_536);
    let mut quot = Vec::new(alloc);
    let mut rest = Vec::new(alloc);
    div_rem(&mut pen, &a, &b, &mut quot, &mut rest)?;
    pen.output(name(rt, b"q"), Kind::Int, space * blocks, &quot)?;
    pen.output(name(rt, b"r"), Kind::Int, space * blocks, &rest)?;
    Ok(pen.finish())
}

/// What the net gives for two numbers.
fn given(
    rt: &impl Abort,
    alloc: Global,
    net: &Net,
    blocks: u32,
    a: u64,
    b: u64,
) -> Result<(u64, u64), AllocError>
    requires { Legal net.now }
{
    let inputs = digits(alloc, net.space, blocks, a, b)?;
    assert!(rt; are_within(net, &inputs));
    let values = plain(alloc, net, &inputs)?;
    let [quotient, remainder] = net.outputs.as_slice() else {
        return Ok((0, 0));
    };
    let quotient = number_in(net.space, &values, quotient.cells.as_slice());
    let remainder = number_in(net.space, &values, remainder.cells.as_slice());
    Ok((quotient, remainder))
}

/// Tries numbers from the edges and drawn ones at a width, and answers the jobs and the depth.
fn tried(rt: &impl Abort, alloc: Global, space: u32, blocks: u32) -> Result<Cost, PenError>
    requires space { (space ≡ 2) ⊎ (space ≡ 3) }
    requires some { 1 ≤ blocks }
    requires few { blocks ≤ 32 }
{
    let net = planned(rt, alloc, space, blocks)?;
    let bits = space * blocks;
    for number in 0..75 {
        let (a, drawn) = pair(number, bits);
        let b = if number < 50 { drawn } else { drawn / 256 };
        let given = given(rt, alloc, &net, blocks, a, b)?;
        assert_eq!(rt; given, in_the_clear(bits, a, b), "{space} {blocks} {a} {b}");
    }
    let jobs = net.jobs.as_slice().len() as u64;
    Ok(Cost {
        jobs,
        depth: depth(alloc, &net)?,
    })
}

/// Tries all pairs of numbers at a width.
fn all_pairs(rt: &impl Abort, alloc: Global, space: u32, blocks: u32) -> Result<(), PenError>
    requires space { (space ≡ 2) ⊎ (space ≡ 3) }
    requires some { 1 ≤ blocks }
    requires few { blocks ≤ 3 }
{
    let net = planned(rt, alloc, space, blocks)?;
    let bits = space * blocks;
    for a in 0..=greatest(bits) {
        for b in 0..=greatest(bits) {
            let given = given(rt, alloc, &net, blocks, a, b)?;
            assert_eq!(rt; given, in_the_clear(bits, a, b), "{space} {a} {b}");
        }
    }
    Ok(())
}

#[test]
fn all_pairs_of_narrow_numbers(rt: HostRuntime) -> Result<(), Fail> {
    let alloc = rt.alloc();
    all_pairs(&rt, alloc, 2, 1)?;
    all_pairs(&rt, alloc, 2, 2)?;
    all_pairs(&rt, alloc, 2, 3)?;
    all_pairs(&rt, alloc, 3, 1)?;
    all_pairs(&rt, alloc, 3, 2)?;
    Ok(())
}

fn within_the_table(rt: &impl Abort, alloc: Global, space: u32, blocks: u32) -> Result<(), PenError>
    requires space { (space ≡ 2) ⊎ (space ≡ 3) }
    requires some { 1 ≤ blocks }
    requires few { blocks ≤ 32 }
{
    let made = tried(rt, alloc, space, blocks)?;
    let bound = Cost::div(space, blocks);
    assert!(rt; made.jobs <= bound.jobs, "{space} {blocks}");
    assert!(rt; made.depth <= bound.depth, "{space} {blocks}");
    Ok(())
}

#[test]
fn quotients_and_remainders(rt: HostRuntime) -> Result<(), Fail> {
    for blocks in [1, 2, 3, 4, 5, 8, 16] {
        within_the_table(&rt, rt.alloc(), 2, blocks)?;
    }
    for blocks in [1, 2, 3, 5, 8, 21] {
        within_the_table(&rt, rt.alloc(), 3, blocks)?;
    }
    Ok(())
}

/// 64 bits take fewer jobs than the table allows.
#[test]
fn numbers_of_64_bits(rt: HostRuntime) -> Result<(), Fail> {
    let made = tried(&rt, rt.alloc(), 2, 32)?;
    let bound = Cost::div(2, 32);
    assert_eq!(rt; made.jobs, 12_385);
    assert!(rt; made.depth <= bound.depth, "{}", made.depth);
    Ok(())
}

/// 200 and 7, and what a divisor of 0 gives.
#[test]
fn numbers_of_eight_bits(rt: HostRuntime) -> Result<(), Fail> {
    let alloc = rt.alloc();
    let net = planned(&rt, alloc, 2, 4)?;
    assert_eq!(rt; given(&rt, alloc, &net, 4, 200, 7)?, (28, 4));
    assert_eq!(rt; given(&rt, alloc, &net, 4, 5, 0)?, (255, 5));
    assert_eq!(rt; given(&rt, alloc, &net, 4, 0, 3)?, (0, 0));
    assert_eq!(rt; given(&rt, alloc, &net, 4, 255, 255)?, (1, 0));
    Ok(())
}
