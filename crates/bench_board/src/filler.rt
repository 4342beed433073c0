//! A kernel that does almost nothing.
ghost use Rattle.std.specs.Prelude.{[], replicate, length};

use rx_board::{Kernel, KernelFault};
use rx_net::{Job, JobWords};
use std::alloc::Global;

/// How many words a cell has.
pub const WORDS: usize = 257;

/// Writes how many words the operands have, in each word of the cell.
#[derive(Drop)]
pub struct Filler {
    /// The calls so far.
    runs: u64,
}

impl Filler {
    /// A kernel that ran no job.
    pub fn new() -> Filler {
        Filler { runs: 0 }
    }
}

impl JobWords for Filler {
    ghost words_of = { λ basis job operands. replicate 257 (length operands) };
}

impl Kernel for Filler {
    ghost basis = { λ k. [] };

    ghost width = { λ k. 257 };

    ghost space = { λ k. 2 };

    ghost runs = { λ k. k.runs };

    ghost faults = { λ k. 0 };

    fn words(&self) -> usize {
        WORDS
    }

    fn claimed(&mut self, _job: u32) {}

    fn run(&mut self, _job: &Job, operands: &[u64], out: &mut [u64]) -> Result<(), KernelFault> {
        self.runs = self.runs.saturating_add(1);
        out.fill(operands.len() as u64);
        Ok(())
    }
}
