//! Nets whose jobs name two earlier cells.
ghost use Rattle.std.specs.Prelude.{◌≡◌, IfOk};
ghost use Rattle.rx_net.specs.Cells.{input_cells};
ghost use Rattle.rx_net.specs.Legal.{Legal};

use rx_net::{Net, NetPen, PenError, Term};
use std::alloc::Global;

/// Which earlier cells jobs name.
#[derive(Clone, Copy, Debug)]
pub enum Shape {
    /// The two before a job, so that one job is ready at a time.
    Chain,
    /// Two at half its number, so that about as many are ready as were run.
    Wide,
}

impl Shape {
    /// The later of the two cells that a job names; the other is the one before that.
    fn operand(self, job: u32) -> u32 {
        match self {
            Shape::Chain => job.saturating_sub(1),
            Shape::Wide => job / 2,
        }
    }
}

/// The net of so many jobs, of which the first has no operands and each other two.
#[tactic(auto, unfolding(rx_net::specs::Cells::input_cells))]
pub fn net_of(alloc: Global, jobs: u32, shape: Shape) -> Result<Net, PenError>
    ensures legal { IfOk result Legal }
    ensures space { IfOk result (λ net. net.space ≡ 2) }
    ensures inputs { IfOk result (λ net. input_cells net.space net.inputs ≡ 0) }
{
    let mut pen = NetPen::new(alloc, 2);
    for job in 0..jobs {
        let operand = shape.operand(job);
        let terms = [term(operand), term(operand.saturating_sub(1))];
        let named = if job == 0 { 0 } else { 2 };
        pen.job(&terms[..named], 0, &[0; 16])?;
    }
    Ok(pen.finish())
}

fn term(cell: u32) -> Term {
    Term { cell, weight: 1 }
}
