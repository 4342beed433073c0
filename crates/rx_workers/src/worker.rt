//! A seat with what its jobs are run by.
use rx_board::{Desk, Kernel, Seat};

/// A kernel that never refuses a run.
pub trait SureKernel: Kernel {
    ghost use Rattle.std.specs.Prelude.{◌≡◌};

    /// It counts no fault.
    ghost faultless: { (k : Self) → Self.faults k ≡ 0 };
}

/// A caller of a board.
#[derive(Drop)]
pub struct Worker<K> {
    /// The place at the board.
    pub seat: Seat,
    /// Buffers for the words of a job.
    pub desk: Desk,
    /// What runs the jobs.
    pub kernel: K,
}
