//! The cells that outputs need.
ghost use Rattle.std.specs.Prelude.{◌≡◌, ℕ, ◌+◌, ◌<◌, ◌||◌, ◌&&◌, ◌==◌, List, false, length, map, IfOk};
ghost use Rattle.std.specs.List.{AllByRecursion, list_any};
ghost use Rattle.rx_fold.specs.Jobs.{moved};
ghost use Rattle.rx_fold.specs.Folded.{cells_given, names_any, is_needed};
ghost use Rattle.rx_fold.specs.Passes.{Tells, AreForward, AreWithin, cell_in, is_marked};

use rx_net::{Job, NetOutput, Term};
use std::alloc::{AllocError, Global};

/// For each cell whether it is live: whether it stands for a cell of an output, or for a cell of the terms of
/// a job whose cell is live.
pub(crate) fn find_live(
    alloc: Global,
    inputs: u32,
    jobs: &[Job],
    outputs: &[NetOutput],
    reps: &[u32],
) -> Result<Vec<bool>, AllocError>
    requires count { length reps.now ≡ inputs + length jobs.now }
    requires within { AreWithin reps.now }
    requires forward { AreForward inputs jobs.now }
    requires given { AllByRecursion (λ c. c < length reps.now) (cells_given outputs.now) }
    ensures { IfOk result (λ live. Tells false
        (is_needed (map (cell_in reps.now) (cells_given outputs.now)) inputs
        (map (moved (cell_in reps.now)) jobs.now)) (length reps.now) live.items) }
{
    let mut live = vec![in alloc; false; reps.len()]?;
    mark_live(live.as_mut_slice(), inputs, jobs, outputs, reps);
    Ok(live)
}

/// Marks the live cells, where none is marked.
fn mark_live(live: &mut [bool], inputs: u32, jobs: &[Job], outputs: &[NetOutput], reps: &[u32])
    requires none { (x : ℕ) → x < length live.old → is_marked live.old x ≡ false }
    requires marks { length live.old ≡ length reps.now }
    requires count { length reps.now ≡ inputs + length jobs.now }
    requires within { AreWithin reps.now }
    requires forward { AreForward inputs jobs.now }
    requires given { AllByRecursion (λ c. c < length reps.now) (cells_given outputs.now) }
    ensures { (x : ℕ) → x < length live.old → is_marked live.new x ≡
        is_needed (map (cell_in reps.now) (cells_given outputs.now)) inputs
        (map (moved (cell_in reps.now)) jobs.now) x }
{
    mark_outputs(live, outputs, reps);
    mark_jobs(live, inputs, jobs, reps);
}

/// Marks what stands for the cells of outputs.
fn mark_outputs(live: &mut [bool], outputs: &[NetOutput], reps: &[u32])
    requires marks { length live.old ≡ length reps.now }
    requires within { AreWithin reps.now }
    requires given { AllByRecursion (λ c. c < length reps.now) (cells_given outputs.now) }
    ensures { (x : ℕ) → x < length live.old → is_marked live.new x ≡ (is_marked live.old x
        || list_any (λ c. cell_in reps.now c == x) (cells_given outputs.now)) }
{
    for output in outputs {
        mark_cells(live, output.cells.as_slice(), reps);
    }
}

/// Marks what stands for these cells.
fn mark_cells(live: &mut [bool], cells: &[u32], reps: &[u32])
    requires marks { length live.old ≡ length reps.now }
    requires within { AreWithin reps.now }
    requires cells { AllByRecursion (λ c. c < length reps.now) cells.now }
    ensures { (x : ℕ) → x < length live.old → is_marked live.new x ≡ (is_marked live.old x
        || list_any (λ c. cell_in reps.now c == x) cells.now) }
{
    for cell in cells {
        mark(live, reps[*cell as usize]);
    }
}

/// Marks what stands for the cells of the terms of each job whose cell is marked, from the last job to the
/// first.
fn mark_jobs(live: &mut [bool], inputs: u32, jobs: &[Job], reps: &[u32])
    requires marks { length live.old ≡ length reps.now }
    requires count { length reps.now ≡ inputs + length jobs.now }
    requires within { AreWithin reps.now }
    requires forward { AreForward inputs jobs.now }
    ensures { (cells : List ℕ) → Tells false (names_any cells) (length live.old) live.old
        → Tells false (is_needed cells inputs (map (moved (cell_in reps.now)) jobs.now))
        (length live.old) live.new }
{
    for done in 0..jobs.len() {
        let place = jobs.len() - 1 - done;
        mark_job(
            live,
            inputs as usize + place,
            jobs[place].terms.as_slice(),
            reps,
        );
    }
}

/// Marks what stands for the cells of the terms of a job, if the job's cell is marked.
fn mark_job(live: &mut [bool], cell: usize, terms: &[Term], reps: &[u32])
    requires job { cell < length live.old }
    requires marks { length live.old ≡ length reps.now }
    requires within { AreWithin reps.now }
    requires cells { AllByRecursion (λ t. t.cell < length reps.now) terms.now }
    ensures { (x : ℕ) → x < length live.old → is_marked live.new x ≡ (is_marked live.old x
        || (is_marked live.old cell && list_any (λ t. cell_in reps.now t.cell == x) terms.now)) }
{
    if live[cell] {
        mark_terms(live, terms, reps);
    }
}

/// Marks what stands for the cells of terms.
fn mark_terms(live: &mut [bool], terms: &[Term], reps: &[u32])
    requires marks { length live.old ≡ length reps.now }
    requires within { AreWithin reps.now }
    requires cells { AllByRecursion (λ t. t.cell < length reps.now) terms.now }
    ensures { (x : ℕ) → x < length live.old → is_marked live.new x ≡ (is_marked live.old x
        || list_any (λ t. cell_in reps.now t.cell == x) terms.now) }
{
    for term in terms {
        mark(live, reps[term.cell as usize]);
    }
}

/// Marks a cell.
fn mark(live: &mut [bool], cell: u32)
    requires { cell < length live.old }
    ensures { (x : ℕ) → x < length live.old → is_marked live.new x ≡ (is_marked live.old x || cell == x) }
{
    live[cell as usize] = true;
}
