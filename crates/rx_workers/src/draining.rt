//! Workers at work.
ghost use Rattle.std.specs.Prelude.{ℕ, ◌<◌, slice_index_or, All, length};
ghost use Rattle.rx_board.specs.Tells.{Keeps};
ghost use Rattle.rx_workers.specs.declared.worker.Worker.{Worker};
ghost use Rattle.rx_workers.specs.Crew.{IsFit, HasDrained, KnowsAll};

use crate::worker::{SureKernel, Worker};
use rx_board::{Board, Step};
use std::thread::Threads;
use std::{hint, thread};

/// How often a worker finds no job before it leaves: each time it found one taken.
const MOST_MISSES: u32 = 1 << 20;

/// How many turns a worker waits at most before it looks for a job again.
const LONGEST_PAUSE: u32 = 1 << 10;

/// Lets other threads get on, the longer the more often no job was found.
fn pause(misses: u32) {
    thread::yield_now();
    for _ in 0..misses.min(LONGEST_PAUSE) {
        hint::spin_loop();
    }
}

/// Works until each job is known, or until a job was found taken `MOST_MISSES` times.
fn drain<K: SureKernel>(board: &Board<'_, K>, worker: &mut Worker<K>)
    requires { IsFit K.basis K.width K.space K.told board.now worker.old }
    ensures fit { IsFit K.basis K.width K.space K.told board.now worker.new }
    ensures keeps { Keeps worker.old.seat.view worker.new.seat.view }
    ensures knows { KnowsAll worker.old.seat.view worker.new.seat.view }
    ensures drained { HasDrained board.now worker.new.seat.view }
{
    let mut misses = 0;
    while misses < MOST_MISSES {
        match board.step(&mut worker.seat, &mut worker.desk, &mut worker.kernel) {
            Step::Ran(_) => {}
            Step::NotReady(_) => {
                misses += 1;
                pause(misses);
            }
            Step::Done => return,
            // The kernel never refuses.
            Step::Refused(_) => unreachable!(),
        }
    }
}

/// Lets all workers drain the board at once, each in a thread of its own where one can be made.
pub(crate) fn drain_all<R: Threads + Sync, K: SureKernel + Send>(
    rt: &R,
    board: &Board<'_, K>,
    workers: &mut [Worker<K>],
)
    requires some { 0 < length workers.old }
    requires fit { All (IsFit K.basis K.width K.space K.told board.now) workers.old }
    ensures fit { All (IsFit K.basis K.width K.space K.told board.now) workers.new }
    ensures knows { (i : ℕ) (d : Worker K) → i < length workers.new
        → KnowsAll (slice_index_or workers.old i d).seat.view (slice_index_or workers.new i d).seat.view }
    ensures drained { (i : ℕ) (d : Worker K) → i < length workers.new
        → HasDrained board.now (slice_index_or workers.new i d).seat.view }
{
    let count = workers.len();
    let work = |_: usize, worker: &mut Worker<K>|
        requires { IsFit K.basis K.width K.space K.told board.now worker.old }
        ensures { IsFit K.basis K.width K.space K.told board.entry.now worker.new
            × HasDrained board.entry.now worker.new.seat.view
            × KnowsAll worker.old.seat.view worker.new.seat.view }
    { drain(board, worker) };
    thread::for_each_mut(rt, workers, count, &work);
}
