//! The kernels that evaluate jobs under encryption.
ghost use Rattle.std.specs.Prelude.{◌≡◌, ◌+◌, IfOk, length};
ghost use Rattle.rx_laws.specs.Decode.{plaintexts};
ghost use Rattle.rx_params.specs.Derived.{large_dim};
ghost use Rattle.rx_block.specs.Combine.{AreCellsOf, AreBlocksOf};
ghost use Rattle.rx_crew.specs.Evaluation.{job_block};

use crate::Gate;
use crate::mixing::mix_operands;
use rx_block::{Block, mix_into};
use rx_board::{Kernel, KernelFault};
use rx_boot::{BootScratch, ServerKey, bootstrap_into};
use rx_net::{Job, JobWords};
use rx_params::Params;
use rx_workers::SureKernel;
use std::alloc::{AllocError, Global};
use std::marker::Model;

/// Evaluates jobs under a server key: each is the bootstrap of the weighted sum of its operands. It never refuses one.
/// Contracts see the key, and how many runs there were.
#[derive(Drop)]
pub struct FheKernel<'a> {
    /// What the jobs are evaluated with.
    key: &'a ServerKey,
    /// Room for a bootstrap.
    scratch: BootScratch,
    /// Room for a weighted sum.
    sum: Vec<u64>,
    /// How many runs there were, up to the last value.
    runs: u64,
}

impl<'a> Model for FheKernel<'a> {
    ghost use Rattle.std.specs.Prelude.{◌≡◌, ◌+◌, length};
    ghost use Rattle.rx_params.specs.Derived.{large_dim};
    ghost use Rattle.rx_crew.specs.Kernel.{KernelValue};

    ghost Value = { KernelValue };

    ghost view = { λ k. record { key = k.key.now; runs = k.runs } };

    ghost invariant = { λ k. (k.scratch ≡ k.key.now.params)
        × (length k.sum.items ≡ large_dim k.key.now.params + 1) };
}

impl<'a> FheKernel<'a> {
    /// A kernel that ran no job. The error is want of memory.
    pub fn new(alloc: Global, key: &'a ServerKey) -> Result<FheKernel<'a>, AllocError>
        ensures { IfOk result (λ kernel. kernel ≡ record { key = key.now; runs = 0 }) }
    {
        let p = &key.params;
        let scratch = BootScratch::new(alloc, p)?;
        let sum = vec![in alloc; 0; p.large_dim() as usize + 1]?;
        Ok(FheKernel {
            key,
            scratch,
            sum,
            runs: 0,
        })
    }

    /// The set of the key.
    fn params(&self) -> &Params
        ensures { result.now ≡ self.now.key.params }
    {
        let key = self.key;
        &key.params
    }

    /// Writes the block of a job whose terms name these cells.
    pub(crate) fn evaluate(&mut self, job: &Job, cells: &[Block], out: &mut Block)
        requires table { length job.now.table ≡ plaintexts self.old.key.params.message_bits }
        requires forward { AreCellsOf cells.now job.now.terms }
        requires sizes { AreBlocksOf self.old.key.params cells.now }
        requires room { length out.old.words ≡ large_dim self.old.key.params + 1 }
        ensures block { out.new ≡ job_block self.old.key job.now cells.now }
        ensures size { length out.new.words ≡ large_dim self.old.key.params + 1 }
        ensures key { self.new.key ≡ self.old.key }
    {
        let key = self.key;
        let sum = self.sum.as_mut_slice();
        mix_into(&key.params, cells, job.terms.as_slice(), job.constant, sum);
        let table = job.table.as_slice();
        bootstrap_into(&mut self.scratch, key, table, sum, out.words.as_mut_slice());
        out.degree = job.degree;
        out.noise = 1;
    }
}

impl<'a> JobWords for FheKernel<'a> {
    ghost use Rattle.rx_crew.specs.Kernel.{job_words};

    ghost words_of = { job_words };
}

impl<'a> Kernel for FheKernel<'a> {
    ghost use Rattle.std.specs.Prelude.{◌+◌};
    ghost use Rattle.rx_params.specs.Derived.{large_dim};
    ghost use Rattle.rx_crew.specs.Kernel.{key_basis};

    ghost basis = { λ k. key_basis k.key };

    ghost width = { λ k. large_dim k.key.params + 1 };

    ghost space = { λ k. k.key.params.message_bits };

    ghost runs = { λ k. k.runs };

    ghost faults = { λ k. 0 };

    fn words(&self) -> usize {
        let key = self.key;
        key.params.large_dim() as usize + 1
    }

    fn claimed(&mut self, _job: u32) {}

    fn run(&mut self, job: &Job, operands: &[u64], out: &mut [u64]) -> Result<(), KernelFault> {
        self.runs = self.runs.saturating_add(1);
        let key = self.key;
        let sum = self.sum.as_mut_slice();
        mix_operands(
            &key.params,
            job.terms.as_slice(),
            job.constant,
            operands,
            sum,
        );
        bootstrap_into(&mut self.scratch, key, job.table.as_slice(), sum, out);
        Ok(())
    }
}

/// That kernel at work for a worker with a number, which tells a gate of each run.
#[derive(Drop)]
pub(crate) struct GatedKernel<'a, G> {
    /// What runs the jobs.
    kernel: FheKernel<'a>,
    /// Is told when a run begins and ends.
    gate: &'a G,
    /// The number of the worker.
    worker: u32,
    /// The job that was claimed last.
    job: u32,
}

impl<'a, G: Gate> GatedKernel<'a, G> {
    /// The kernel of a worker. The error is want of memory.
    pub(crate) fn new(
        alloc: Global,
        key: &'a ServerKey,
        gate: &'a G,
        worker: u32,
    ) -> Result<GatedKernel<'a, G>, AllocError>
        ensures { IfOk result (λ made. made.kernel ≡ record { key = key.now; runs = 0 }) }
    {
        Ok(GatedKernel {
            kernel: FheKernel::new(alloc, key)?,
            gate,
            worker,
            job: 0,
        })
    }

    /// The set of the key.
    pub(crate) fn params(&self) -> &Params
        ensures { result.now ≡ self.now.kernel.key.params }
    {
        self.kernel.params()
    }

    /// Writes the block of a job, whose number is told to the gate and whose terms name these cells.
    pub(crate) fn evaluate(&mut self, number: u32, job: &Job, cells: &[Block], out: &mut Block)
        requires table { length job.now.table ≡ plaintexts self.old.kernel.key.params.message_bits }
        requires forward { AreCellsOf cells.now job.now.terms }
        requires sizes { AreBlocksOf self.old.kernel.key.params cells.now }
        requires room { length out.old.words ≡ large_dim self.old.kernel.key.params + 1 }
        ensures block { out.new ≡ job_block self.old.kernel.key job.now cells.now }
        ensures size { length out.new.words ≡ large_dim self.old.kernel.key.params + 1 }
        ensures key { self.new.kernel.key ≡ self.old.kernel.key }
    {
        self.gate.enter(self.worker, number);
        self.kernel.evaluate(job, cells, out);
        self.gate.leave(self.worker, number);
    }
}

impl<'a, G: Gate> JobWords for GatedKernel<'a, G> {
    ghost use Rattle.rx_crew.specs.Kernel.{job_words};

    ghost words_of = { job_words };
}

impl<'a, G: Gate> Kernel for GatedKernel<'a, G> {
    ghost use Rattle.std.specs.Prelude.{◌≡◌, ◌+◌};
    ghost use Rattle.rx_params.specs.Derived.{large_dim};
    ghost use Rattle.rx_crew.specs.Kernel.{key_basis, IsToldOf};

    ghost basis = { λ k. key_basis k.kernel.key };

    ghost width = { λ k. large_dim k.kernel.key.params + 1 };

    ghost space = { λ k. k.kernel.key.params.message_bits };

    ghost runs = { λ k. k.kernel.runs };

    ghost faults = { λ k. 0 };

    ghost told = { λ k job. IsToldOf k.job job };

    ghost last = { λ k job. k.job ≡ job };

    fn words(&self) -> usize {
        self.kernel.words()
    }

    fn claimed(&mut self, job: u32) {
        self.job = job;
    }

    fn run(&mut self, job: &Job, operands: &[u64], out: &mut [u64]) -> Result<(), KernelFault> {
        self.gate.enter(self.worker, self.job);
        let run = self.kernel.run(job, operands, out);
        self.gate.leave(self.worker, self.job);
        run
    }
}

impl<'a, G: Gate> SureKernel for GatedKernel<'a, G> {
    ghost use Rattle.std.specs.Prelude.{refl};

    ghost faultless = { λ k. refl };
}
