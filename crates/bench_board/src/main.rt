//! Runs a net on a board with a kernel that does almost nothing, for `bench/board` to time: `bench_board WORKERS JOBS
//! SHAPE`, where the shape is `chain` or `wide`. Each worker has a thread of its own; with 0 of them only the net and
//! the board are made. Prints how many jobs are present at the end.
#![tactic(auto)]

use filler::Filler;
use nets::{Shape, net_of};
use rx_board::Board;
use rx_net::PenError;
use rx_uses::Uses;
use std::alloc::Global;
use std::thread::Threads;
use std::{env, io};
use workers::drain;

mod filler;
mod nets;
mod workers;

fn main(rt: HostRuntime) -> io::Result<()> {
    let mut words = env::args(&rt)?.skip(1);
    let workers = number(words.next());
    let jobs = number(words.next());
    let shape = match words.next() {
        Some(word) if word.as_str() == "chain" => Shape::Chain,
        Some(word) if word.as_str() == "wide" => Shape::Wide,
        _ => return println!(rt; "bench_board WORKERS JOBS SHAPE"),
    };
    match present(&rt, rt.alloc(), workers, jobs, shape) {
        Ok(count) => println!(rt; "{count}"),
        Err(error) => println!(rt; "{error}"),
    }
}

/// The number that a word gives, or 0.
fn number(word: Option<String>) -> u32 {
    match word {
        Some(word) => word.parse::<u32>().unwrap_or(0),
        None => 0,
    }
}

/// How many jobs are present once so many workers have drained a board of so many jobs.
fn present<R: Threads + Sync>(
    rt: &R,
    alloc: Global,
    workers: u32,
    jobs: u32,
    shape: Shape,
) -> Result<u32, PenError> {
    let net = net_of(alloc, jobs, shape)?;
    let uses = Uses::of(alloc, &net)?;
    let (board, mut seat) = Board::new(alloc, &net, &uses, &[], &Filler::new())?;
    let first = board.split(&mut seat);
    drain(rt, alloc, &net, &board, first, workers)?;
    Ok(board.close(seat).count())
}
