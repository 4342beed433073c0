//! A net whose sums gather all noise that a lookup may be given.
ghost use Rattle.std.specs.Prelude.{IfOk};
ghost use Rattle.rx_net.specs.Named.{IsNet};

use crate::tables::{Look, table};
use rx_net::{Net, NetPen};
use rx_params::Kind;
use rx_tests_kit::{name, number, term};
use std::alloc::Global;
use std::test::Fail;

/// The net of `s` and of `t`, for two numbers `a` and `b` of two bits: `s` is `2 * a + 3 * b`, and `t` is twice the
/// lower block of `s` and three times its upper one. Each of these sums gathers all noise that a lookup may be given.
/// All cells are given as outputs.
pub fn loud_net(alloc: Global) -> Result<Net, Fail>
    ensures { IfOk result IsNet }
{
    let mut pen = NetPen::new(alloc, 2);
    let a = pen.input(number("a", 2, 2)?)?;
    let b = pen.input(number("b", 2, 2)?)?;
    let rest = table(alloc, 2, Look::Rest)?;
    let carry = table(alloc, 2, Look::Carry)?;
    let low = pen.job(&[term(a, 2), term(b, 3)], 0, &rest)?;
    let high = pen.job(&[term(a, 2), term(b, 3)], 0, &carry)?;
    let lower = pen.job(&[term(low, 2), term(high, 3)], 0, &rest)?;
    let upper = pen.job(&[term(low, 2), term(high, 3)], 0, &carry)?;
    pen.output(name("a")?, Kind::Int, 2, &[a])?;
    pen.output(name("b")?, Kind::Int, 2, &[b])?;
    pen.output(name("s")?, Kind::Int, 4, &[low, high])?;
    pen.output(name("t")?, Kind::Int, 4, &[lower, upper])?;
    Ok(pen.finish())
}
