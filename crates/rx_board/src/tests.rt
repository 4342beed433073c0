//! Boards over small nets with kernels that stand in for true ones.
ghost use Rattle.std.specs.Prelude.{◌≡◌, ◌+◌, ℕ, ◌∷◌, [], length, List, IfOk};
ghost use Rattle.std.specs.Thread.{IsSync};
ghost use Rattle.rx_board.specs.Seats.{IsOf};
ghost use Rattle.rx_net.specs.Cells.{input_cells};
ghost use Rattle.rx_net.specs.Legal.{Legal};

use crate::{Board, Desk, Kernel, KernelFault, Seat, Step};
use rx_net::{Job, JobWords, Jobs, Net, NetInputs, NetOutputs, Table, Term, Terms, legal};
use rx_uses::Uses;
use std::alloc::{AllocError, Global};
use std::process::Abort;
use std::sync::Arc;
use std::sync::atomic::{AtomicU64, Ordering};
use std::test::Fail;
use std::thread;
use std::thread::Threads;

/// A job that sums these cells, all of which are 0.
fn job(alloc: Global, cells: &[u32]) -> Result<Job, AllocError> {
    let mut terms = Vec::new(alloc);
    for cell in cells {
        terms.push(Term {
            cell: *cell,
            weight: 1,
        })?;
    }
    Ok(Job {
        terms: Terms::from_vec(terms),
        constant: 0,
        table: Table::from_vec(vec![in alloc; 0; 16]?),
        degree: 0,
    })
}

/// A job for each list of cells.
fn jobs_of(alloc: Global, cells: &[&[u32]]) -> Result<Vec<Job>, AllocError>
    ensures { IfOk result (λ jobs. length jobs.items ≡ length cells.now) }
{
    let mut jobs = Vec::new(alloc);
    for terms in cells {
        jobs.push(job(alloc, terms)?)?;
    }
    Ok(jobs)
}

/// The net without inputs that has these jobs.
#[tactic(auto, unfolding(rx_net::specs::Cells::input_cells))]
fn net_of(alloc: Global, jobs: Vec<Job>) -> Result<Net, Fail>
    ensures legal { IfOk result Legal }
    ensures space { IfOk result (λ net. net.space ≡ 2) }
    ensures inputs { IfOk result (λ net. input_cells net.space net.inputs ≡ 0) }
    ensures jobs { IfOk result (λ net. net.jobs ≡ jobs.items) }
{
    let net = Net {
        space: 2,
        inputs: NetInputs::from_vec(Vec::new(alloc)),
        jobs: Jobs::from_vec(jobs),
        outputs: NetOutputs::from_vec(Vec::new(alloc)),
    };
    legal(&net)?;
    Ok(net)
}

/// The net without inputs whose jobs name these cells.
fn net_naming(alloc: Global, cells: &[&[u32]]) -> Result<Net, Fail>
    ensures legal { IfOk result Legal }
    ensures space { IfOk result (λ net. net.space ≡ 2) }
    ensures inputs { IfOk result (λ net. input_cells net.space net.inputs ≡ 0) }
    ensures jobs { IfOk result (λ net. length net.jobs ≡ length cells.now) }
{
    net_of(alloc, jobs_of(alloc, cells)?)
}

/// Whether a run was begun, and whether it may end.
#[derive(Drop)]
struct Latch {
    started: AtomicU64,
    released: AtomicU64,
}

/// A latch of a run that was not begun and may not end.
fn new_latch(alloc: Global) -> Result<Arc<Latch, Global>, AllocError> {
    let latch = Latch {
        started: AtomicU64::new(0),
        released: AtomicU64::new(0),
    };
    Ok(Arc::new(alloc, latch)?)
}

/// Turns until the flag is raised, 2^24 times at most.
fn wait_for(flag: &AtomicU64) {
    for _ in 0..1 << 24 {
        if flag.load(Ordering::SeqCst) != 0 {
            return;
        }
    }
}

/// A kernel whose cells have one word: how many operand words there were. It refuses some of its calls, and its run of
/// one job lasts until a latch is released.
#[derive(Drop)]
struct Counter {
    runs: u64,
    faults: u64,
    /// The first call that is refused, from 0.
    refuses: u64,
    /// The first call after it that is not.
    until: u64,
    latch: Arc<Latch, Global>,
    /// The job whose run lasts.
    holds: u32,
    /// The job that was claimed last.
    job: u32,
}

impl Counter {
    /// A kernel that refuses no call and holds no run.
    fn new(latch: &Arc<Latch, Global>) -> Result<Counter, AllocError> {
        Ok(Counter {
            runs: 0,
            faults: 0,
            refuses: u64::MAX,
            until: 0,
            latch: Arc::try_clone(latch)?,
            holds: u32::MAX,
            job: u32::MAX,
        })
    }
}

impl JobWords for Counter {
    ghost words_of = { λ basis job operands. length operands ∷ [] };
}

impl Kernel for Counter {
    ghost use Rattle.rx_board.specs.Tells.{counted};

    ghost basis = { λ k. [] };

    ghost width = { λ k. 1 };

    ghost space = { λ k. 2 };

    ghost runs = { λ k. k.runs };

    ghost faults = { λ k. k.faults };

    fn words(&self) -> usize {
        1
    }

    fn claimed(&mut self, job: u32) {
        self.job = job;
    }

    fn run(&mut self, job: &Job, operands: &[u64], out: &mut [u64]) -> Result<(), KernelFault> {
        let _ = job;
        let call = self.runs;
        self.runs = self.runs.saturating_add(1);
        if self.refuses <= call && call < self.until {
            self.faults = self.faults.saturating_add(1);
            return Err(KernelFault);
        }
        if self.job == self.holds {
            self.latch.started.store(1, Ordering::SeqCst);
            wait_for(&self.latch.released);
        }
        out[0] = operands.len() as u64;
        Ok(())
    }
}

/// An answer as a pair of a letter and a job.
fn told(step: &Step) -> (char, u32) {
    match step {
        Step::Ran(job) => ('r', *job),
        Step::NotReady(job) => ('n', *job),
        Step::Refused(job) => ('f', *job),
        Step::Done => ('d', 0),
    }
}

/// A seat with what it works by.
#[derive(Drop)]
struct Worker {
    seat: Seat,
    desk: Desk,
    kernel: Counter,
}

impl Worker {
    /// A worker with this seat.
    fn new(
        alloc: Global,
        net: &Net,
        seat: Seat,
        latch: &Arc<Latch, Global>,
    ) -> Result<Worker, AllocError>
        ensures seat { IfOk result (λ worker. worker.seat ≡ seat) }
        ensures desk { IfOk result (λ worker. worker.desk ≡ 1) }
    {
        Ok(Worker {
            seat,
            desk: Desk::new(alloc, net, 1)?,
            kernel: Counter::new(latch)?,
        })
    }
}

/// A step of this worker at a board whose cells have one word.
fn go(board: &Board<'_, Counter>, worker: &mut Worker) -> (char, u32)
    requires basis { board.now.basis ≡ [] }
    requires width { board.now.plan.width ≡ 1 }
    requires space { board.now.plan.net.space ≡ 2 }
    requires seat { IsOf board.now worker.old.seat }
    requires desk { worker.old.desk ≡ 1 }
    ensures seat { IsOf board.now worker.new.seat }
    ensures desk { worker.new.desk ≡ 1 }
{
    told(&board.step(&mut worker.seat, &mut worker.desk, &mut worker.kernel))
}

/// The worker runs the jobs in order up to the last, and then there is nothing to do.
fn runs_in_order(rt: &impl Abort, board: &Board<'_, Counter>, worker: &mut Worker, last: u32)
    requires basis { board.now.basis ≡ [] }
    requires width { board.now.plan.width ≡ 1 }
    requires space { board.now.plan.net.space ≡ 2 }
    requires seat { IsOf board.now worker.old.seat }
    requires desk { worker.old.desk ≡ 1 }
    ensures { IsOf board.now worker.new.seat }
{
    for job in 0..=last {
        assert_eq!(rt; go(board, worker), ('r', job));
    }
    assert_eq!(rt; go(board, worker), ('d', 0));
}

/// One seat runs all jobs of a net in order, of which the last has two operands.
fn one_seat_runs_all(
    rt: &impl Abort,
    alloc: Global,
    cells: &[&[u32]],
    last: u32,
) -> Result<(), Fail>
    requires { last + 1 ≡ length cells.now }
{
    let latch = new_latch(alloc)?;
    let kernel = Counter::new(&latch)?;
    let net = net_naming(alloc, cells)?;
    let uses = Uses::of(alloc, &net)?;
    let (board, seat) = Board::new(alloc, &net, &uses, &[], &kernel)?;
    let mut one = Worker::new(alloc, &net, seat, &latch)?;
    runs_in_order(rt, &board, &mut one, last);
    let mut out = [9u64];
    assert!(rt; board.read(&mut one.seat, last, &mut out) && out == [2]);
    Ok(())
}

#[test]
fn a_job_waits_for_each_of_its_operands(rt: HostRuntime) -> Result<(), Fail> {
    one_seat_runs_all(&rt, rt.alloc(), &[&[], &[0, 0]], 1)?;
    one_seat_runs_all(&rt, rt.alloc(), &[&[], &[0], &[0], &[1, 2]], 3)
}

#[test]
fn a_refused_job_is_given_back(rt: HostRuntime) -> Result<(), Fail> {
    let alloc = rt.alloc();
    let latch = new_latch(alloc)?;
    let kernel = Counter::new(&latch)?;
    let net = net_naming(alloc, &[&[], &[], &[]])?;
    let uses = Uses::of(alloc, &net)?;
    let (board, seat) = Board::new(alloc, &net, &uses, &[], &kernel)?;
    let mut one = Worker::new(alloc, &net, seat, &latch)?;
    let mut two = Worker::new(alloc, &net, board.split(&mut one.seat), &latch)?;
    two.kernel.refuses = 0;
    two.kernel.until = 1;
    let mut out = [9u64];
    assert_eq!(rt; go(&board, &mut one), ('r', 0));
    assert_eq!(rt; go(&board, &mut two), ('f', 1));
    assert!(rt; !board.read(&mut one.seat, 1, &mut out) && out == [9]);
    assert_eq!(rt; go(&board, &mut two), ('r', 1));
    drop(two);
    assert_eq!(rt; go(&board, &mut one), ('r', 2));
    assert_eq!(rt; go(&board, &mut one), ('d', 0));
    assert!(rt; board.read(&mut one.seat, 1, &mut out) && out == [0]);
    let spare = board.split(&mut one.seat);
    board.join(&mut one.seat, spare);
    let closed = board.close(one.seat);
    assert_eq!(rt; closed.count(), 3);
    assert!(rt; closed.present(1) && closed.read(1, &mut out) && out == [0]);
    Ok(())
}

#[test]
fn a_kernel_that_refuses_every_call(rt: HostRuntime) -> Result<(), Fail> {
    let alloc = rt.alloc();
    let latch = new_latch(alloc)?;
    let kernel = Counter::new(&latch)?;
    let net = net_naming(alloc, &[&[], &[0]])?;
    let uses = Uses::of(alloc, &net)?;
    let (board, seat) = Board::new(alloc, &net, &uses, &[], &kernel)?;
    let mut one = Worker::new(alloc, &net, seat, &latch)?;
    one.kernel.refuses = 0;
    one.kernel.until = u64::MAX;
    assert_eq!(rt; go(&board, &mut one), ('f', 0));
    assert_eq!(rt; go(&board, &mut one), ('f', 0));
    assert_eq!(rt; board.close(one.seat).count(), 0);
    Ok(())
}

/// While one worker runs job 1, another runs job 2, finds job 1 taken, and lets it end.
fn meanwhile(board: &Board<'_, Counter>, worker: Worker) -> (Worker, (char, u32), (char, u32))
    requires basis { board.now.basis ≡ [] }
    requires width { board.now.plan.width ≡ 1 }
    requires space { board.now.plan.net.space ≡ 2 }
    requires seat { IsOf board.now worker.seat }
    requires desk { worker.desk ≡ 1 }
{
    let mut worker = worker;
    wait_for(&worker.kernel.latch.started);
    let run = go(board, &mut worker);
    let stopped = go(board, &mut worker);
    worker.kernel.latch.released.store(1, Ordering::SeqCst);
    (worker, run, stopped)
}

/// A step of a worker that is handed over.
fn gone(board: &Board<'_, Counter>, worker: Worker) -> (Worker, (char, u32))
    requires basis { board.now.basis ≡ [] }
    requires width { board.now.plan.width ≡ 1 }
    requires space { board.now.plan.net.space ≡ 2 }
    requires seat { IsOf board.now worker.seat }
    requires desk { worker.desk ≡ 1 }
{
    let mut worker = worker;
    let step = go(board, &mut worker);
    (worker, step)
}

#[test]
fn a_held_run_is_not_ready(rt: HostRuntime) -> Result<(), Fail> {
    let alloc = rt.alloc();
    let latch = new_latch(alloc)?;
    let kernel = Counter::new(&latch)?;
    let net = net_naming(alloc, &[&[], &[0], &[0], &[1, 2]])?;
    let uses = Uses::of(alloc, &net)?;
    let (board, seat) = Board::new(alloc, &net, &uses, &[], &kernel)?;
    let board = &board;
    let mut one = Worker::new(alloc, &net, seat, &latch)?;
    let two = Worker::new(alloc, &net, board.split(&mut one.seat), &latch)?;
    one.kernel.holds = 1;
    assert_eq!(rt; go(board, &mut one), ('r', 0));
    let ((_, held), (_, run, stopped)) = thread::join(
        &rt,
        || -> (Worker, (char, u32))
            requires { (board.now.basis ≡ []) × (board.now.plan.width ≡ 1)
                × (board.now.plan.net.space ≡ 2) × IsOf board.now one.seat × (one.desk ≡ 1) }
        { gone(board, one) },
        || -> (Worker, (char, u32), (char, u32))
            requires { (board.now.basis ≡ []) × (board.now.plan.width ≡ 1)
                × (board.now.plan.net.space ≡ 2) × IsOf board.now two.seat × (two.desk ≡ 1) }
        { meanwhile(board, two) },
    );
    assert_eq!(rt; (held, run, stopped), (('r', 1), ('r', 2), ('n', 1)));
    Ok(())
}

/// A net of 200 jobs: a hundred without operands, and a hundred of two operands each among those before.
fn wide(alloc: Global) -> Result<Vec<Job>, AllocError> {
    let mut jobs = Vec::new(alloc);
    for _ in 0..100 {
        jobs.push(job(alloc, &[])?)?;
    }
    for number in 0..100u32 {
        jobs.push(job(alloc, &[number, number + 1])?)?;
    }
    Ok(jobs)
}

/// A net of 50 jobs, each of which takes the one before it.
fn chain(alloc: Global) -> Result<Vec<Job>, AllocError> {
    let mut jobs = Vec::new(alloc);
    jobs.push(job(alloc, &[])?)?;
    for number in 0..49u32 {
        jobs.push(job(alloc, &[number])?)?;
    }
    Ok(jobs)
}

/// Steps until all is done, 2^24 times at most. It tells how many runs there were.
fn drain(board: &Board<'_, Counter>, worker: Worker) -> u64
    requires basis { board.now.basis ≡ [] }
    requires width { board.now.plan.width ≡ 1 }
    requires space { board.now.plan.net.space ≡ 2 }
    requires seat { IsOf board.now worker.seat }
    requires desk { worker.desk ≡ 1 }
{
    let mut worker = worker;
    for _ in 0..1 << 24 {
        if go(board, &mut worker) == ('d', 0) {
            break;
        }
    }
    worker.kernel.runs
}

/// Two threads, and how many runs they had.
fn drain_by_two<R: Threads>(rt: &R, board: &Board<'_, Counter>, pair: (Worker, Worker)) -> u64
    requires basis { board.now.basis ≡ [] }
    requires width { board.now.plan.width ≡ 1 }
    requires space { board.now.plan.net.space ≡ 2 }
    requires one { IsOf board.now pair.0.seat × (pair.0.desk ≡ 1) }
    requires two { IsOf board.now pair.1.seat × (pair.1.desk ≡ 1) }
{
    let (one, two) = pair;
    let (first, second) = thread::join(
        rt,
        || -> u64
            requires { (board.now.basis ≡ []) × (board.now.plan.width ≡ 1)
                × (board.now.plan.net.space ≡ 2) × IsOf board.now one.seat × (one.desk ≡ 1) }
        { drain(board, one) },
        || -> u64
            requires { (board.now.basis ≡ []) × (board.now.plan.width ≡ 1)
                × (board.now.plan.net.space ≡ 2) × IsOf board.now two.seat × (two.desk ≡ 1) }
        { drain(board, two) },
    );
    first.wrapping_add(second)
}

/// Four threads, and how many runs they had.
fn drain_by_four<R: Threads + Sync>(
    rt: &R,
    board: &Board<'_, Counter>,
    left: (Worker, Worker),
    right: (Worker, Worker),
) -> u64
    requires basis { board.now.basis ≡ [] }
    requires width { board.now.plan.width ≡ 1 }
    requires space { board.now.plan.net.space ≡ 2 }
    requires left { IsOf board.now left.0.seat × (left.0.desk ≡ 1)
        × IsOf board.now left.1.seat × (left.1.desk ≡ 1) }
    requires right { IsOf board.now right.0.seat × (right.0.desk ≡ 1)
        × IsOf board.now right.1.seat × (right.1.desk ≡ 1) }
{
    let (first, second) = thread::join(
        rt,
        || -> u64
            requires { IsSync R.row × (board.now.basis ≡ []) × (board.now.plan.width ≡ 1)
                × (board.now.plan.net.space ≡ 2)
                × IsOf board.now left.0.seat × (left.0.desk ≡ 1)
                × IsOf board.now left.1.seat × (left.1.desk ≡ 1) }
        { drain_by_two(rt, board, left) },
        || -> u64
            requires { IsSync R.row × (board.now.basis ≡ []) × (board.now.plan.width ≡ 1)
                × (board.now.plan.net.space ≡ 2)
                × IsOf board.now right.0.seat × (right.0.desk ≡ 1)
                × IsOf board.now right.1.seat × (right.1.desk ≡ 1) }
        { drain_by_two(rt, board, right) },
    );
    first.wrapping_add(second)
}

/// Four threads run each job once.
fn four_threads_run_all<R: Abort + Threads + Sync>(
    rt: &R,
    alloc: Global,
    jobs: Vec<Job>,
) -> Result<(), Fail> {
    let latch = new_latch(alloc)?;
    let kernel = Counter::new(&latch)?;
    let net = net_of(alloc, jobs)?;
    let uses = Uses::of(alloc, &net)?;
    let (board, mut first) = Board::new(alloc, &net, &uses, &[], &kernel)?;
    let one = Worker::new(alloc, &net, board.split(&mut first), &latch)?;
    let two = Worker::new(alloc, &net, board.split(&mut first), &latch)?;
    let three = Worker::new(alloc, &net, board.split(&mut first), &latch)?;
    let four = Worker::new(alloc, &net, board.split(&mut first), &latch)?;
    let runs = drain_by_four(rt, &board, (one, two), (three, four));
    let count = net.jobs.as_slice().len() as u64;
    assert_eq!(rt; runs, count);
    assert_eq!(rt; u64::from(board.close(first).count()), count);
    Ok(())
}

#[test]
fn four_threads_run_each_job_once(rt: HostRuntime) -> Result<(), Fail> {
    four_threads_run_all(&rt, rt.alloc(), chain(rt.alloc())?)?;
    four_threads_run_all(&rt, rt.alloc(), wide(rt.alloc())?)
}
