//! Nets that workers share.
ghost use Rattle.std.specs.Prelude.{◌≡◌, IfOk, length};
ghost use Rattle.rx_net.specs.Named.{IsNet};
ghost use Rattle.rx_net.specs.Cells.{input_cells};
ghost use Rattle.rx_net.specs.Legal.{Legal};

use rx_net::{Net, NetPen, Term};
use rx_params::Kind;
use rx_tests_kit::{name, number, term};
use std::alloc::Global;
use std::test::Fail;

/// The fourth of each number of a block of two bits.
const CARRY: [u8; 16] = [0, 0, 0, 0, 1, 1, 1, 1, 2, 2, 2, 2, 3, 3, 3, 3];

/// What each number of a block of two bits leaves beside its fourth.
const REST: [u8; 16] = [0, 1, 2, 3, 0, 1, 2, 3, 0, 1, 2, 3, 0, 1, 2, 3];

/// How many blocks a number of 64 bits has.
const BLOCKS: u32 = 32;

/// How many jobs `sum_net` has.
pub const SUM_JOBS: usize = 64;

/// The net of the sum `s` of two numbers `a` and `b` of 64 bits, block after block: a job for each block of the sum, and
/// one for each carry.
pub fn sum_net(alloc: Global) -> Result<Net, Fail>
    ensures { IfOk result IsNet }
{
    let mut pen = NetPen::new(alloc, 2);
    let a = pen.input(number("a", 2, 64)?)?;
    let b = pen.input(number("b", 2, 64)?)?;
    let mut cells = Vec::new(alloc);
    let mut terms: Vec<Term> = Vec::new(alloc);
    for block in 0..BLOCKS {
        terms.push(term(a.saturating_add(block), 1))?;
        terms.push(term(b.saturating_add(block), 1))?;
        cells.push(pen.job(&terms, 0, &REST)?)?;
        let carry = pen.job(&terms, 0, &CARRY)?;
        terms.clear();
        terms.push(term(carry, 1))?;
    }
    pen.output(name("s")?, Kind::Int, 64, &cells)?;
    Ok(pen.finish())
}

/// The net of two jobs without terms, of space 2.
#[tactic(auto, unfolding(rx_net::specs::Cells::input_cells))]
pub fn two_jobs(alloc: Global) -> Result<Net, Fail>
    ensures legal { IfOk result Legal }
    ensures net { IfOk result IsNet }
    ensures space { IfOk result (λ net. net.space ≡ 2) }
    ensures inputs { IfOk result (λ net. input_cells net.space net.inputs ≡ 0) }
    ensures jobs { IfOk result (λ net. length net.jobs ≡ 2) }
{
    let mut pen = NetPen::new(alloc, 2);
    pen.job(&[], 0, &[0; 16])?;
    pen.job(&[], 0, &[0; 16])?;
    Ok(pen.finish())
}
