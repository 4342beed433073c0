//! What equal jobs have in common.
ghost use Rattle.std.specs.Prelude.{◌≡◌, ◌<◌, length, map, IfOk};
ghost use Rattle.std.specs.List.{AllByRecursion};
ghost use Rattle.rx_fold.specs.Jobs.{moved, moved_term, AreEqual};
ghost use Rattle.rx_fold.specs.Passes.{cell_in, term_of, job_of};

use rx_net::{Job, Term};
use std::alloc::{AllocError, Global};

/// The terms of a job over the cells that stand for theirs, its constant and its table.
#[derive(PartialEq, Eq, PartialOrd, Ord, Drop)]
pub(crate) struct Key {
    /// The cell and the weight of each.
    terms: Vec<(u32, i8)>,
    constant: i16,
    table: Vec<u8>,
}

impl Key {
    /// The key of a job, where `reps` has for each cell the one that stands for it.
    pub(crate) fn of(alloc: Global, reps: &[u32], job: &Job) -> Result<Key, AllocError>
        requires { AllByRecursion (λ t. t.cell < length reps.now) job.now.terms }
        ensures { IfOk result (λ key. AreEqual (job_of key) (moved (cell_in reps.now) job.now)) }
    {
        Ok(Key {
            terms: pairs_of(alloc, reps, job.terms.as_slice())?,
            constant: job.constant,
            table: Vec::from_slice(alloc, job.table.as_slice())?,
        })
    }
}

fn pairs_of(alloc: Global, reps: &[u32], terms: &[Term]) -> Result<Vec<(u32, i8)>, AllocError>
    requires { AllByRecursion (λ t. t.cell < length reps.now) terms.now }
    ensures { IfOk result (λ pairs. map term_of pairs.items
        ≡ map (moved_term (cell_in reps.now)) terms.now) }
{
    let mut pairs = Vec::with_capacity(alloc, terms.len())?;
    for term in terms {
        pairs.push((reps[term.cell as usize], term.weight))?;
    }
    Ok(pairs)
}
