//! Nets whose jobs are equal in pairs, or all unlike.
ghost use Rattle.std.specs.Prelude.{IfOk};
ghost use Rattle.rx_net.specs.Legal.{Legal};

use rx_net::{Net, NetPen, PenError, Term};
use rx_params::{Kind, Name};
use std::alloc::Global;

/// The net of so many jobs in pairs of equal ones: the first two have no operands, and each other job looks
/// up the sum of the two of the pair before. Its output is the last job.
pub fn net_of(alloc: Global, jobs: u32) -> Result<Net, PenError>
    ensures { IfOk result Legal }
{
    let mut pen = NetPen::new(alloc, 2);
    for job in 0..jobs {
        let pair = job / 2 * 2;
        let terms = [
            term(pair.saturating_sub(1), 1),
            term(pair.saturating_sub(2), 1),
        ];
        let named = if job < 2 { 0 } else { 2 };
        pen.job(&terms[..named], 0, &[0; 16])?;
    }
    give_last(&mut pen, jobs)?;
    Ok(pen.finish())
}

/// The net of so many unlike jobs: the first has no operands, and each other one has 16 terms, of which the last names
/// the job before, and the others the first job with weight 0. So two jobs are told apart by their last term
/// alone. Its output is the last job, which needs all others.
pub fn wide_net_of(alloc: Global, jobs: u32) -> Result<Net, PenError>
    ensures { IfOk result Legal }
{
    let mut pen = NetPen::new(alloc, 2);
    for job in 0..jobs {
        let mut terms = [term(0, 0); 16];
        terms[15] = term(job.saturating_sub(1), 1);
        let named = if job == 0 { 0 } else { 16 };
        pen.job(&terms[..named], 0, &[0; 16])?;
    }
    give_last(&mut pen, jobs)?;
    Ok(pen.finish())
}

fn give_last(pen: &mut NetPen, jobs: u32) -> Result<(), PenError> {
    let Some(name) = Name::of(b"last") else {
        return Ok(());
    };
    pen.output(name, Kind::Int, 2, &[jobs.saturating_sub(1)])
}

fn term(cell: u32, weight: i8) -> Term {
    Term { cell, weight }
}
