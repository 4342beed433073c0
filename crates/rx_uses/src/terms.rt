//! The terms of a net, one after another.
ghost use Rattle.std.specs.Prelude.{◌≡◌, ◌<◌, ◌++◌, [], map, replicate, length, IfOk};
ghost use Rattle.rx_uses.specs.Uses.{all_terms, owners_from};
ghost use Rattle.rx_uses.specs.Links.{cell_named};

use rx_net::{Job, Term};
use std::alloc::AllocError;

/// Adds the cell that each term of a job names, and the job once for each.
fn push_terms(
    named: &mut Vec<u32>,
    owners: &mut Vec<u32>,
    terms: &[Term],
    job: u32,
) -> Result<(), AllocError>
    ensures named { IfOk result (λ _.
        named.new.items ≡ named.old.items ++ map cell_named terms.now) }
    ensures owners { IfOk result (λ _.
        owners.new.items ≡ owners.old.items ++ replicate (length terms.now) job) }
{
    for term in terms {
        named.push(term.cell)?;
        owners.push(job)?;
    }
    Ok(())
}

/// The cell that each term names, and whose job it is, in the order of jobs and places. Both lists are empty before.
pub(crate) fn list_terms(
    jobs: &[Job],
    named: &mut Vec<u32>,
    owners: &mut Vec<u32>,
) -> Result<(), AllocError>
    requires jobs { length jobs.now < 4294967296 }
    requires named { named.old.items ≡ [] }
    requires owners { owners.old.items ≡ [] }
    ensures named { IfOk result (λ _. named.new.items ≡ map cell_named (all_terms jobs.now)) }
    ensures owners { IfOk result (λ _. owners.new.items ≡ owners_from 0 jobs.now) }
{
    for (number, job) in jobs.iter().enumerate() {
        push_terms(named, owners, job.terms.as_slice(), number as u32)?;
    }
    Ok(())
}
