//! The workers of a board, made before it is shared and joined after.
ghost use Rattle.std.specs.Prelude.{◌≡◌, ◌<◌, ◌∷◌, All, IfOk, length, reverse};
ghost use Rattle.rx_board.specs.Seats.{IsOf};
ghost use Rattle.rx_workers.specs.declared.worker.Worker.{Worker};
ghost use Rattle.rx_workers.specs.Crew.{IsFit, Suits, HasDrained, HasJoined, KnowsAll, kernels_of};

use crate::draining::drain_all;
use crate::worker::{SureKernel, Worker};
use rx_board::{Board, Desk, Kernel, Seat};
use rx_net::Net;
use std::alloc::{AllocError, Global};
use std::thread::Threads;

/// A worker for each kernel, from the last kernel to the first. The worker of the first has this seat, and each other one
/// a seat that is split off it. The error is want of memory.
pub fn start<K: Kernel + Drop>(
    alloc: Global,
    board: &Board<'_, K>,
    net: &Net,
    mut seat: Seat,
    first: K,
    mut others: Vec<K>,
) -> Result<Vec<Worker<K>>, AllocError>
    requires seat { IsOf board.now seat }
    requires first { Suits K.basis K.width K.space K.told board.now first }
    requires others { All (Suits K.basis K.width K.space K.told board.now) others.items }
    ensures fit { IfOk result (λ v. All (IsFit K.basis K.width K.space K.told board.now) v.items) }
    ensures some { IfOk result (λ v. 0 < length v.items) }
    ensures kernels { IfOk result (λ v. kernels_of v.items ≡ reverse (first ∷ others.items)) }
{
    let words = first.words();
    let mut workers = Vec::with_capacity(alloc, others.len())?;
    while let Some(kernel) = others.pop() {
        let desk = Desk::new(alloc, net, words)?;
        let seat = board.split(&mut seat);
        workers.push(Worker { seat, desk, kernel })?;
    }
    let desk = Desk::new(alloc, net, words)?;
    workers.push(Worker {
        seat,
        desk,
        kernel: first,
    })?;
    Ok(workers)
}

/// Lets all workers drain the board, and joins the seats of the others to that of the last. It takes no memory.
pub fn work<R: Threads + Sync, K: SureKernel + Send + Drop>(
    rt: &R,
    board: &Board<'_, K>,
    mut workers: Vec<Worker<K>>,
) -> Seat
    requires some { 0 < length workers.items }
    requires fit { All (IsFit K.basis K.width K.space K.told board.now) workers.items }
    ensures seat { IsOf board.now result }
    ensures drained { HasDrained board.now result.view }
    ensures joined { HasJoined workers.items result.view }
{
    drain_all(rt, board, workers.as_mut_slice());
    let Some(last) = workers.pop() else {
        unreachable!()
    };
    let Worker {
        mut seat,
        desk: _,
        kernel: _,
    } = last;
    join_all(board, &mut seat, workers);
    seat
}

/// Joins the seats of all workers to this one.
fn join_all<K: Kernel + Drop>(board: &Board<'_, K>, seat: &mut Seat, mut workers: Vec<Worker<K>>)
    requires seat { IsOf board.now seat.old }
    requires fit { All (IsFit K.basis K.width K.space K.told board.now) workers.items }
    ensures seat { IsOf board.now seat.new }
    ensures knows { KnowsAll seat.old.view seat.new.view }
    ensures joined { HasJoined workers.items seat.new.view }
    ensures met { seat.new.view.met ≡ seat.old.view.met }
{
    while let Some(worker) = workers.pop() {
        let Worker {
            seat: other,
            desk: _,
            kernel: _,
        } = worker;
        board.join(seat, other);
    }
}
