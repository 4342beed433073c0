//! The evaluation of a net.
ghost use Rattle.std.specs.Prelude.{◌≡◌, ◌+◌, ◌≤◌, All, IfOk, length, take, Some};
ghost use Rattle.rx_net.specs.Legal.{Legal};
ghost use Rattle.rx_net.specs.Cells.{input_cells};
ghost use Rattle.rx_block.specs.Combine.{AreBlocksOf};
ghost use Rattle.rx_block.specs.Outputs.{numbers_of, output_blocks};
ghost use Rattle.rx_board.specs.Closing.{present_below};
ghost use Rattle.rx_crew.specs.Board.{board_words, board_limit, worker_limit};
ghost use Rattle.rx_crew.specs.Evaluation.{evaluated, AreInputs, AreWordsOf};
ghost use Rattle.rx_crew.specs.Noise.{KeepsCells, KeepsOutputs};
ghost use Rattle.rx_crew.specs.Work.{HasClosed, HasWorked, HoldsCells, run_plan};

use crate::Gate;
use crate::blocks::{copy_numbered, first_cells, input_words, zero_blocks};
use crate::jobs::complete;
use crate::kernel::GatedKernel;
use crate::laws::cells_keep;
use rx_block::Block;
use rx_board::{Board, Closed, Seat};
use rx_boot::ServerKey;
use rx_net::{Net, NetOutput};
use rx_uses::Uses;
use rx_workers::{start, work};
use std::alloc::{AllocError, Global};
use std::thread::Threads;

/// What a run gave. `ran` and `finished` add up to the jobs of the net.
#[derive(Drop)]
pub struct RunReport {
    /// The blocks of all outputs, one output after another.
    pub outputs: Vec<Block>,
    /// Jobs that workers published on the board.
    pub ran: u32,
    /// Jobs that were left when all workers had returned, and were run by the caller.
    pub finished: u32,
    /// The first seat of the run's board, by which the worker 0 worked, and to which the seats of the others were joined.
    pub seat: Seat,
}

/// Evaluates a legal net of the key's message bits over one block for each input cell. Where the inputs keep numbers,
/// each cell keeps the value that the net gives it for them, and so does each output. There are 1 to `MOST_WORKERS`
/// workers, and the board (`board_words`) has at most `MOST_BOARD_WORDS` words. All memory is taken before the first
/// bootstrap.
///
/// The workers claim, run and publish the jobs on one board, each in a thread of its own where one can be made. A worker
/// leaves once each job is present, or after it found no job 2^20 times. What is then not present the caller runs in order.
/// The gate is told of each run by the number of the worker, from 0; that of the caller is `workers`.
pub fn run_net<R: Threads + Sync, G: Gate + Sync>(
    rt: &R,
    alloc: Global,
    net: &Net,
    key: &ServerKey,
    inputs: &[Block],
    workers: u32,
    gate: &G,
) -> Result<RunReport, AllocError>
    requires legal { Legal net.now }
    requires space { net.now.space ≡ key.now.params.message_bits }
    requires inputs { AreInputs key.now.params net.now inputs.now }
    requires workers_low { 1 ≤ workers }
    requires workers_high { workers ≤ worker_limit }
    requires board { board_words key.now.params (length net.now.jobs) ≤ board_limit }
    ensures outputs { IfOk result (λ report.
        report.outputs.items ≡ output_blocks (evaluated key.now net.now inputs.now)
        net.now.outputs) }
    ensures sizes { IfOk result (λ report. AreBlocksOf key.now.params report.outputs.items) }
    ensures words { IfOk result (λ report. AreWordsOf report.outputs.items) }
    ensures counted { IfOk result (λ report. report.ran + report.finished ≡ length net.now.jobs) }
    ensures worked { IfOk result (λ report.
        HasWorked key.now net.now inputs.now report.seat.view report.finished) }
    ensures cells_keep { KeepsCells key.now net.now inputs.now }
    ensures outputs_keep { IfOk result (λ report.
        KeepsOutputs key.now net.now inputs.now report.outputs.items) }
{
    cells_keep(key, net, inputs);
    let p = &key.params;
    let numbers = output_cells(alloc, net.outputs.as_slice())?;
    let mut outputs = zero_blocks(alloc, p, numbers.len())?;
    let mut cells = first_cells(alloc, p, net, inputs)?;
    let mut own = GatedKernel::new(alloc, key, gate, workers)?;
    let (seat, closed) = run_on_board(rt, alloc, net, key, inputs, workers, gate)?;
    let finished = settle(&mut own, net, &closed, &numbers, &mut cells, &mut outputs);
    Ok(RunReport {
        outputs,
        ran: closed.count(),
        finished,
        seat,
    })
}

/// The cells of all outputs, one output after another.
fn output_cells(alloc: Global, outputs: &[NetOutput]) -> Result<Vec<u32>, AllocError>
    ensures { IfOk result (λ numbers. numbers.items ≡ numbers_of outputs.now) }
{
    let mut numbers = Vec::new(alloc);
    for output in outputs {
        numbers.extend_from_slice(output.cells.as_slice())?;
    }
    Ok(numbers)
}

/// Lays the cells of all jobs, as `complete` does, after those of the inputs, and copies those of all outputs, whose cells
/// are numbered. It tells how many jobs were run, and takes no memory.
fn settle<G: Gate>(
    kernel: &mut GatedKernel<'_, G>,
    net: &Net,
    closed: &Closed,
    numbers: &[u32],
    cells: &mut [Block],
    outputs: &mut [Block],
) -> u32
    requires legal { Legal net.now }
    requires space { net.now.space ≡ kernel.old.kernel.key.params.message_bits }
    requires closed { HoldsCells kernel.old.kernel.key net.now
        (take (input_cells net.now.space net.now.inputs) cells.old) closed.now }
    requires cell_count { length cells.old
        ≡ input_cells net.now.space net.now.inputs + length net.now.jobs }
    requires cell_sizes { AreBlocksOf kernel.old.kernel.key.params cells.old }
    requires numbers { numbers.now ≡ numbers_of net.now.outputs }
    requires output_count { length outputs.old ≡ length numbers.now }
    requires output_sizes { AreBlocksOf kernel.old.kernel.key.params outputs.old }
    ensures outputs { outputs.new ≡ output_blocks (evaluated kernel.old.kernel.key net.now
        (take (input_cells net.now.space net.now.inputs) cells.old)) net.now.outputs }
    ensures sizes { AreBlocksOf kernel.old.kernel.key.params outputs.new }
    ensures words { AreWordsOf outputs.new }
    ensures runs { result + present_below closed.now (length net.now.jobs)
        ≡ length net.now.jobs }
{
    let runs = complete(kernel, net, closed, cells);
    copy_numbered(kernel.params(), cells, numbers, outputs);
    runs
}

/// Lets workers drain a board of the net, and closes it. It gives the first seat, and takes all memory before the first
/// claim.
fn run_on_board<R: Threads + Sync, G: Gate + Sync>(
    rt: &R,
    alloc: Global,
    net: &Net,
    key: &ServerKey,
    inputs: &[Block],
    workers: u32,
    gate: &G,
) -> Result<(Seat, Closed), AllocError>
    requires legal { Legal net.now }
    requires space { net.now.space ≡ key.now.params.message_bits }
    requires inputs { AreInputs key.now.params net.now inputs.now }
    requires board { board_words key.now.params (length net.now.jobs) ≤ board_limit }
    ensures plan { IfOk result (λ made. made.0.view.plan
        ≡ Some (run_plan key.now net.now inputs.now)) }
    ensures drained { IfOk result (λ made. HasClosed (length net.now.jobs) made.0.view made.1) }
    ensures cells { IfOk result (λ made. HoldsCells key.now net.now inputs.now made.1) }
{
    let uses = Uses::of(alloc, net)?;
    let words = input_words(alloc, inputs)?;
    let first = GatedKernel::new(alloc, key, gate, 0)?;
    let others = other_kernels(alloc, key, gate, workers)?;
    let (board, seat) = Board::new(alloc, net, &uses, words.as_slice(), &first)?;
    let crew = start(alloc, &board, net, seat, first, others)?;
    let mut seat = work(rt, &board, crew);
    let closing = board.split(&mut seat);
    let closed = board.close(closing);
    Ok((seat, closed))
}

/// The kernels of the workers after the first. The error is want of memory.
fn other_kernels<'a, G: Gate>(
    alloc: Global,
    key: &'a ServerKey,
    gate: &'a G,
    workers: u32,
) -> Result<Vec<GatedKernel<'a, G>>, AllocError>
    ensures { IfOk result (λ kernels. All (λ made.
        made.kernel ≡ record { key = key.now; runs = 0 }) kernels.items) }
{
    let mut kernels = Vec::new(alloc);
    for worker in 1..workers {
        kernels.push(GatedKernel::new(alloc, key, gate, worker)?)?;
    }
    Ok(kernels)
}
