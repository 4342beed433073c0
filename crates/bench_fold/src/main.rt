//! Folds a net for `bench/fold` to time: `bench_fold SHAPE JOBS FOLDS`. The jobs are equal in pairs where SHAPE is
//! `pairs`, and else unlike and of 16 terms. With 0 for FOLDS only the net is made. Prints the number of jobs that are
//! left.
#![tactic(auto)]

use nets::{net_of, wide_net_of};
use rx_fold::fold;
use rx_net::{Net, PenError};
use std::alloc::Global;
use std::{env, io};

mod nets;

fn main(rt: HostRuntime) -> io::Result<()> {
    let mut words = env::args(&rt)?.skip(1);
    let is_paired = match words.next() {
        Some(word) => word.as_str() == "pairs",
        None => true,
    };
    let jobs = number(words.next());
    let folds = number(words.next());
    match left(rt.alloc(), is_paired, jobs, folds) {
        Ok(count) => println!(rt; "{count}"),
        Err(error) => println!(rt; "{error}"),
    }
}

/// The number that a word gives, or 0.
fn number(word: Option<String>) -> u32 {
    match word {
        Some(word) => word.parse::<u32>().unwrap_or(0),
        None => 0,
    }
}

/// How many jobs are left of a net of so many, folded or, for 0 folds, as it was made.
fn left(alloc: Global, is_paired: bool, jobs: u32, folds: u32) -> Result<usize, PenError> {
    let net = if is_paired {
        net_of(alloc, jobs)?
    } else {
        wide_net_of(alloc, jobs)?
    };
    if folds == 0 {
        return Ok(net.jobs.as_slice().len());
    }
    match fold(alloc, net) {
        Ok(net) => Ok(net.jobs.as_slice().len()),
        Err(_) => Err(PenError::Memory),
    }
}
