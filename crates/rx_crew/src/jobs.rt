//! The cells of a net's jobs, from a board that is closed and from runs after it.
ghost use Rattle.std.specs.Prelude.{◌≡◌, ◌==◌, ◌+◌, ◌<◌, ◌≤◌, length, take, set, true, false};
ghost use Rattle.rx_laws.specs.Decode.{plaintexts};
ghost use Rattle.rx_params.specs.Derived.{large_dim};
ghost use Rattle.rx_net.specs.Legal.{Legal};
ghost use Rattle.rx_net.specs.Cells.{input_cells};
ghost use Rattle.rx_block.specs.Combine.{AreCellsOf, AreBlocksOf};
ghost use Rattle.rx_board.specs.Rule.{one_if};
ghost use Rattle.rx_board.specs.Closing.{state_of, cell_of, present_below};
ghost use Rattle.rx_crew.specs.Evaluation.{job_block, evaluated};
ghost use Rattle.rx_crew.specs.Work.{HoldsCells};

use crate::Gate;
use crate::kernel::GatedKernel;
use rx_block::Block;
use rx_board::Closed;
use rx_net::{Job, Net};
use rx_uses::input_cells;

/// Lays a cell for each job of a legal net after those of the inputs, which stand in the first cells: the one of a closed
/// board where the job is present there, and else by a run. It tells how many jobs were run.
pub(crate) fn complete<G: Gate>(
    kernel: &mut GatedKernel<'_, G>,
    net: &Net,
    closed: &Closed,
    cells: &mut [Block],
) -> u32
    requires legal { Legal net.now }
    requires space { net.now.space ≡ kernel.old.kernel.key.params.message_bits }
    requires closed { HoldsCells kernel.old.kernel.key net.now
        (take (input_cells net.now.space net.now.inputs) cells.old) closed.now }
    requires count { length cells.old
        ≡ input_cells net.now.space net.now.inputs + length net.now.jobs }
    requires sizes { AreBlocksOf kernel.old.kernel.key.params cells.old }
    ensures cells { cells.new ≡ evaluated kernel.old.kernel.key net.now
        (take (input_cells net.now.space net.now.inputs) cells.old) }
    ensures sizes { AreBlocksOf kernel.old.kernel.key.params cells.new }
    ensures key { kernel.new.kernel.key ≡ kernel.old.kernel.key }
    ensures runs { result + present_below closed.now (length net.now.jobs)
        ≡ length net.now.jobs }
{
    let inputs = input_cells(net) as usize;
    let mut runs = 0;
    for (number, job) in net.jobs.as_slice().iter().enumerate() {
        let place = inputs + number;
        runs += complete_job(kernel, closed, number as u32, job, place, cells);
    }
    runs
}

/// Writes the cell of a job whose terms name cells before its place: the one of a closed board where the job is present
/// there, and else by a run. It tells how many runs that took, none or one.
fn complete_job<G: Gate>(
    kernel: &mut GatedKernel<'_, G>,
    closed: &Closed,
    number: u32,
    job: &Job,
    place: usize,
    cells: &mut [Block],
) -> u32
    requires table { length job.now.table ≡ plaintexts kernel.old.kernel.key.params.message_bits }
    requires place { place < length cells.old }
    requires forward { AreCellsOf (take place cells.old) job.now.terms }
    requires sizes { AreBlocksOf kernel.old.kernel.key.params cells.old }
    requires number { number < closed.now.jobs }
    requires width { closed.now.width ≡ large_dim kernel.old.kernel.key.params + 1 }
    requires present { state_of closed.now number ≡ 2 → cell_of closed.now number
        ≡ (job_block kernel.old.kernel.key job.now (take place cells.old)).words }
    ensures cells { cells.new ≡ set cells.old place
        (job_block kernel.old.kernel.key job.now (take place cells.old)) }
    ensures sizes { AreBlocksOf kernel.old.kernel.key.params cells.new }
    ensures key { kernel.new.kernel.key ≡ kernel.old.kernel.key }
    ensures runs { result + one_if (state_of closed.now number == 2) ≡ 1 }
{
    let (earlier, later) = cells.split_at_mut(place);
    let cell = &mut later[0];
    if copy_cell(closed, number, job, cell) {
        return 0;
    }
    kernel.evaluate(number, job, earlier, cell);
    1
}

/// Writes the block of a job that is present at a closed board. It is false, and nothing is written, where the job is not.
fn copy_cell(closed: &Closed, number: u32, job: &Job, cell: &mut Block) -> bool
    requires number { number < closed.now.jobs }
    requires width { length cell.old.words ≡ closed.now.width }
    ensures present { result ≡ (state_of closed.now number == 2) }
    ensures written { result ≡ true → cell.new ≡ record {
      words = cell_of closed.now number;
      degree = job.now.degree;
      noise = 1;
    } }
    ensures kept { result ≡ false → cell.new ≡ cell.old }
    ensures size { length cell.new.words ≡ closed.now.width }
{
    if !closed.read(number, cell.words.as_mut_slice()) {
        return false;
    }
    cell.degree = job.degree;
    cell.noise = 1;
    true
}
