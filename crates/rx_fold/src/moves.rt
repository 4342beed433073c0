//! Jobs and outputs over new cells.
ghost use Rattle.std.specs.Prelude.{◌≡◌, ◌+◌, ◌<◌, ◌++◌, [], ◌∷◌, length, map, if◌then◌else◌, IfOk, OnOk};
ghost use Rattle.std.specs.List.{AllByRecursion};
ghost use Rattle.rx_fold.specs.Jobs.{moved as moved_by, moved_term, moved_output};
ghost use Rattle.rx_fold.specs.Folded.{kept_of, cells_given};
ghost use Rattle.rx_fold.specs.Passes.{AreForward, cell_in, is_marked};

use rx_net::{Cells, Job, NetOutput, Table, Term, Terms};
use std::alloc::{AllocError, Global};

/// The jobs whose cells are kept, where `cells` has the new number of each cell.
pub(crate) fn move_jobs(
    alloc: Global,
    inputs: u32,
    jobs: &[Job],
    kept: &[bool],
    cells: &[u32],
) -> Result<Vec<Job>, AllocError>
    requires forward { AreForward inputs jobs.now }
    requires kept { length kept.now ≡ inputs + length jobs.now }
    requires cells { length cells.now ≡ inputs + length jobs.now }
    ensures { IfOk result (λ new. new.items ≡ map (moved_by (cell_in cells.now))
        (kept_of (is_marked kept.now) inputs jobs.now)) }
{
    let mut moved = Vec::new(alloc);
    for (place, job) in jobs.iter().enumerate() {
        push_kept(alloc, &mut moved, kept[inputs as usize + place], job, cells)?;
    }
    Ok(moved)
}

/// Adds a job, moved, if it is kept.
fn push_kept(
    alloc: Global,
    moved: &mut Vec<Job>,
    is_kept: bool,
    job: &Job,
    cells: &[u32],
) -> Result<(), AllocError>
    requires { AllByRecursion (λ t. t.cell < length cells.now) job.now.terms }
    ensures { OnOk result (moved.new.items ≡ moved.old.items
        ++ (if is_kept then moved_by (cell_in cells.now) job.now ∷ [] else [])) }
{
    if is_kept {
        moved.push(move_job(alloc, job, cells)?)?;
    }
    Ok(())
}

fn move_job(alloc: Global, job: &Job, cells: &[u32]) -> Result<Job, AllocError>
    requires { AllByRecursion (λ t. t.cell < length cells.now) job.now.terms }
    ensures { IfOk result (λ new. new ≡ moved_by (cell_in cells.now) job.now) }
{
    Ok(Job {
        terms: Terms::from_vec(move_terms(alloc, job.terms.as_slice(), cells)?),
        constant: job.constant,
        table: Table::from_vec(Vec::from_slice(alloc, job.table.as_slice())?),
        degree: job.degree,
    })
}

fn move_terms(alloc: Global, terms: &[Term], cells: &[u32]) -> Result<Vec<Term>, AllocError>
    requires { AllByRecursion (λ t. t.cell < length cells.now) terms.now }
    ensures { IfOk result (λ new. new.items ≡ map (moved_term (cell_in cells.now)) terms.now) }
{
    let mut moved = Vec::with_capacity(alloc, terms.len())?;
    for term in terms {
        moved.push(Term {
            cell: cells[term.cell as usize],
            weight: term.weight,
        })?;
    }
    Ok(moved)
}

/// The outputs, where `cells` has the new number of each cell.
pub(crate) fn move_outputs(
    alloc: Global,
    outputs: &[NetOutput],
    cells: &[u32],
) -> Result<Vec<NetOutput>, AllocError>
    requires { AllByRecursion (λ c. c < length cells.now) (cells_given outputs.now) }
    ensures { IfOk result (λ new. new.items ≡ map (moved_output (cell_in cells.now)) outputs.now) }
{
    let mut moved = Vec::with_capacity(alloc, outputs.len())?;
    for output in outputs {
        let cells = move_cells(alloc, output.cells.as_slice(), cells)?;
        moved.push(NetOutput {
            name: output.name,
            kind: output.kind,
            bits: output.bits,
            cells: Cells::from_vec(cells),
        })?;
    }
    Ok(moved)
}

fn move_cells(alloc: Global, old: &[u32], cells: &[u32]) -> Result<Vec<u32>, AllocError>
    requires { AllByRecursion (λ c. c < length cells.now) old.now }
    ensures { IfOk result (λ new. new.items ≡ map (cell_in cells.now) old.now) }
{
    let mut moved = Vec::with_capacity(alloc, old.len())?;
    for cell in old {
        moved.push(cells[*cell as usize])?;
    }
    Ok(moved)
}
