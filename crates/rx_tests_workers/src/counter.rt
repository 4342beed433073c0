//! A kernel that stands in for a true one.
ghost use Rattle.std.specs.Prelude.{[], ◌∷◌, length};

use rx_board::{Kernel, KernelFault};
use rx_net::{Job, JobWords};

/// Writes how many words the operands have, in cells of one word.
#[derive(Drop)]
pub struct Counter {
    /// The runs so far.
    pub runs: u64,
}

impl JobWords for Counter {
    ghost words_of = { λ basis job operands. length operands ∷ [] };
}

impl Kernel for Counter {
    ghost basis = { λ k. [] };

    ghost width = { λ k. 1 };

    ghost space = { λ k. 2 };

    ghost runs = { λ k. k.runs };

    ghost faults = { λ k. 0 };

    fn words(&self) -> usize {
        1
    }

    fn claimed(&mut self, _job: u32) {}

    fn run(&mut self, _job: &Job, operands: &[u64], out: &mut [u64]) -> Result<(), KernelFault> {
        self.runs = self.runs.saturating_add(1);
        out[0] = operands.len() as u64;
        Ok(())
    }
}
