//! Small nets that the examples evaluate.
ghost use Rattle.std.specs.Prelude.{◌≡◌, ◌⊎◌, IfOk};
ghost use Rattle.rx_net.specs.Named.{IsNet};

use rx_net::{Net, NetPen};
use rx_params::Kind;
use rx_tests_kit::{name, number, term};
use std::alloc::Global;
use std::test::Fail;

/// The file of the net that gives one number of two bits back: `in a`, `out a`.
pub const GIVEN_BACK: [u8; 27] = [
    0x52, 0x58, 0x4e, 0x31, 2, 1, 0, 1, 0x61, 0, 2, 3, 1, 0, 0, 0, 0, 1, 0, 1, 0x61, 0, 2, 0, 0, 0,
    0,
];

/// The fourth of each number of a block of two bits.
const CARRY: [u8; 16] = [0, 0, 0, 0, 1, 1, 1, 1, 2, 2, 2, 2, 3, 3, 3, 3];

/// What each number of a block of two bits leaves beside its fourth.
const REST: [u8; 16] = [0, 1, 2, 3, 0, 1, 2, 3, 0, 1, 2, 3, 0, 1, 2, 3];

/// The net that gives one number of two bits back.
pub fn given_net(alloc: Global) -> Result<Net, Fail>
    ensures { IfOk result IsNet }
{
    let mut pen = NetPen::new(alloc, 2);
    let a = pen.input(number("a", 2, 2)?)?;
    pen.output(name("a")?, Kind::Int, 2, &[a])?;
    Ok(pen.finish())
}

/// The net that gives two numbers back, `b` of four bits and `c` of eight: `b` first, or turned round.
pub fn both_net(alloc: Global, is_turned: bool) -> Result<Net, Fail>
    ensures { IfOk result IsNet }
{
    let mut pen = NetPen::new(alloc, 2);
    pen.input(number("b", 2, 4)?)?;
    pen.input(number("c", 2, 8)?)?;
    if !is_turned {
        pen.output(name("b")?, Kind::Int, 4, &[0, 1])?;
    }
    pen.output(name("c")?, Kind::Int, 8, &[2, 3, 4, 5])?;
    if is_turned {
        pen.output(name("b")?, Kind::Int, 4, &[0, 1])?;
    }
    Ok(pen.finish())
}

/// The net of the sum `s` of two numbers `a` and `b` of four bits, and of `t`, a fourth of
/// `2 * a1 - b1 + 3` for their upper blocks. The blocks of `a` are the cells 0 and 1, those of `b` 2 and 3.
pub fn sum_net(alloc: Global) -> Result<Net, Fail>
    ensures { IfOk result IsNet }
{
    let mut pen = NetPen::new(alloc, 2);
    pen.input(number("a", 2, 4)?)?;
    pen.input(number("b", 2, 4)?)?;
    let carry = pen.job(&[term(0, 1), term(2, 1)], 0, &CARRY)?;
    let low = pen.job(&[term(0, 1), term(2, 1)], 0, &REST)?;
    let high = pen.job(&[term(1, 1), term(3, 1), term(carry, 1)], 0, &REST)?;
    let fourth = pen.job(&[term(1, 2), term(3, -1)], 3, &CARRY)?;
    pen.output(name("s")?, Kind::Int, 4, &[low, high])?;
    pen.output(name("t")?, Kind::Int, 2, &[fourth])?;
    Ok(pen.finish())
}

/// A net of a space without inputs and outputs, of so many jobs that have no terms.
pub fn bare_net(alloc: Global, space: u32, jobs: u32) -> Result<Net, Fail>
    requires { (space ≡ 2) ⊎ (space ≡ 3) }
    ensures { IfOk result IsNet }
{
    let mut pen = NetPen::new(alloc, space);
    for _ in 0..jobs {
        pen.job(&[], 0, &[0; 16])?;
    }
    Ok(pen.finish())
}
