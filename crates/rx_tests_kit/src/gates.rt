//! Gates that watch the workers of a run.
use rx_tool::Gate;
use std::alloc::{AllocError, Global};
use std::sync::atomic::{AtomicU64, Ordering};
use std::thread;

/// Holds the worker that enters first until another one has entered, for 2^24 turns at most.
#[derive(Drop)]
pub struct Meeting {
    /// One more than the number of the worker that entered first, 0 before.
    first: AtomicU64,
    /// 1 once another worker has entered.
    met: AtomicU64,
    /// 1 where the last turn came before that.
    late: AtomicU64,
}

impl Meeting {
    /// A gate that no worker has entered.
    pub fn new() -> Meeting {
        Meeting {
            first: AtomicU64::new(0),
            met: AtomicU64::new(0),
            late: AtomicU64::new(0),
        }
    }

    /// Whether another worker entered while the first was held.
    pub fn has_met(&self) -> bool {
        self.met.load(Ordering::SeqCst) == 1 && self.late.load(Ordering::SeqCst) == 0
    }

    /// Turns until another worker has entered.
    fn wait(&self) {
        for _ in 0..1 << 24 {
            if self.met.load(Ordering::SeqCst) == 1 {
                return;
            }
            thread::yield_now();
        }
        self.late.store(1, Ordering::SeqCst);
    }
}

impl Gate for Meeting {
    fn enter(&self, worker: u32, _job: u32) {
        let own = u64::from(worker) + 1;
        match self
            .first
            .compare_exchange(0, own, Ordering::SeqCst, Ordering::SeqCst)
        {
            Ok(_) => self.wait(),
            Err(first) if first != own => self.met.store(1, Ordering::SeqCst),
            Err(_) => {}
        }
    }

    fn leave(&self, _worker: u32, _job: u32) {}
}

/// Counts how often each job was entered and left, and by workers of which numbers.
#[derive(Drop)]
pub struct Tally {
    entered: Vec<AtomicU64>,
    left: Vec<AtomicU64>,
    /// How many workers there are.
    workers: u32,
    /// How often a job was entered by a number that no worker has.
    others: AtomicU64,
}

impl Tally {
    /// A gate that no worker has entered, for so many jobs and workers.
    pub fn new(alloc: Global, jobs: usize, workers: u32) -> Result<Tally, AllocError> {
        Ok(Tally {
            entered: zeros(alloc, jobs)?,
            left: zeros(alloc, jobs)?,
            workers,
            others: AtomicU64::new(0),
        })
    }

    /// Whether each job was entered once and left once, by a worker.
    pub fn has_each_once(&self) -> bool {
        are_one(&self.entered) && are_one(&self.left) && self.others.load(Ordering::SeqCst) == 0
    }
}

impl Gate for Tally {
    fn enter(&self, worker: u32, job: u32) {
        if worker >= self.workers {
            self.others.store(1, Ordering::SeqCst);
        }
        count_one(&self.entered, job);
    }

    fn leave(&self, _worker: u32, job: u32) {
        count_one(&self.left, job);
    }
}

/// So many counts of 0.
fn zeros(alloc: Global, count: usize) -> Result<Vec<AtomicU64>, AllocError> {
    let mut zeros = Vec::new(alloc);
    for _ in 0..count {
        zeros.push(AtomicU64::new(0))?;
    }
    Ok(zeros)
}

/// Adds one to the count of a job, if it has one.
fn count_one(counts: &[AtomicU64], job: u32) {
    if let Some(count) = counts.get(job as usize) {
        count.fetch_add(1, Ordering::SeqCst);
    }
}

/// Whether all counts are 1.
fn are_one(counts: &[AtomicU64]) -> bool {
    for count in counts {
        if count.load(Ordering::SeqCst) != 1 {
            return false;
        }
    }
    true
}
