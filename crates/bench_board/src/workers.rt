//! Workers that drain a board.
ghost use Rattle.std.specs.Prelude.{◌≡◌, ◌<◌, IfOk};
ghost use denote.Param.Send.{IsSync};
ghost use Rattle.rx_board.specs.Seats.{IsOf};
ghost use Rattle.bench_board.specs.Workers.{IsFilled, Serves};

use crate::filler::{Filler, WORDS};
use rx_board::{Board, Desk, Seat, Step};
use rx_net::Net;
use std::alloc::{AllocError, Global};
use std::thread;
use std::thread::Threads;

/// A seat with what its jobs are run by.
#[derive(Drop)]
pub struct Worker {
    /// The place at the board.
    pub seat: Seat,
    /// Buffers for the words of a job.
    pub desk: Desk,
    /// What runs the jobs.
    pub kernel: Filler,
}

impl Worker {
    /// A worker with this seat.
    fn new(alloc: Global, net: &Net, seat: Seat) -> Result<Worker, AllocError>
        ensures seat { IfOk result (λ worker. worker.seat ≡ seat) }
        ensures desk { IfOk result (λ worker. worker.desk ≡ 257) }
    {
        Ok(Worker {
            seat,
            desk: Desk::new(alloc, net, WORDS)?,
            kernel: Filler::new(),
        })
    }
}

/// Steps until each job is present.
fn drain_alone(board: &Board<'_, Filler>, worker: Worker)
    requires board { IsFilled board.now }
    requires worker { Serves board.now worker }
{
    let mut worker = worker;
    for _ in 0..u64::MAX {
        if let Step::Done = board.step(&mut worker.seat, &mut worker.desk, &mut worker.kernel) {
            break;
        }
    }
}

/// Lets so many workers drain the board, each in a thread of its own, on seats that are split off this one.
#[cycle(drain)]
pub fn drain<R: Threads + Sync>(
    rt: &R,
    alloc: Global,
    net: &Net,
    board: &Board<'_, Filler>,
    seat: Seat,
    workers: u32,
) -> Result<(), AllocError>
    requires board { IsFilled board.now }
    requires seat { IsOf board.now seat }
{
    if workers == 0 {
        return Ok(());
    }
    let mut seat = seat;
    let worker = Worker::new(alloc, net, board.split(&mut seat))?;
    let own = move ||
        requires { IsFilled board.now × Serves board.now worker }
    { drain_alone(board, worker) };
    let others = move || -> Result<(), AllocError>
        requires { IsSync R.row × (0 < workers) × IsFilled board.now × IsOf board.now seat }
    { drain(rt, alloc, net, board, seat, workers - 1) };
    thread::join(rt, own, others).1
}
