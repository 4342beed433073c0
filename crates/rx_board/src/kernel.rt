//! What runs a job.
ghost use Rattle.std.specs.Prelude.{◌≡◌, ℕ, ◌*◌, ◌^◌, ◌≤◌, List, length, Option, Some, None, IfOk, OnErr};
ghost use Rattle.rx_board.specs.Tells.{counted, HasFault};

use rx_net::{Job, JobWords};

/// A run that was refused.
#[derive(Debug, Drop)]
pub struct KernelFault;

/// Runs jobs, one at a time, as its `JobWords` defines them. No call changes its basis, its space or how many words a
/// cell has.
pub trait Kernel: JobWords {
    /// What the words of its jobs are defined from, beside job and operands.
    ghost basis: { Self → List ℕ };

    /// What `words` answers.
    ghost width: { Self → ℕ };

    /// The message bits of the nets whose jobs it runs.
    ghost space: { Self → ℕ };

    /// How many runs there were, up to the last value of a u64.
    ghost runs: { Self → ℕ };

    /// A count of faults, which never falls.
    ghost faults: { Self → ℕ };

    /// That it was told of this job, or of none, since its last run.
    ghost told: { Self → Option ℕ → Type 0 } = { λ _ _. Unit {0} };

    /// That it was told of this job before its last run.
    ghost last: { Self → ℕ → Type 0 } = { λ _ _. Unit {0} };

    /// How many words a cell has.
    fn words(&self) -> usize
        ensures { result ≡ width self.now };

    /// Told once for each run, before it, which job was claimed. The two members above say what it keeps of that; a
    /// kernel that needs no number leaves them as they are.
    fn claimed(&mut self, job: u32)
        requires { told self.old None }
        ensures kept { (basis self.new ≡ basis self.old) × (width self.new ≡ width self.old)
            × (space self.new ≡ space self.old) × (runs self.new ≡ runs self.old) }
        ensures faults { faults self.new ≡ faults self.old }
        ensures told { told self.new (Some job) };

    /// Writes the words of a job, whose operands stand one after another in the order of its terms. It refuses only
    /// where the count of faults rose in this call, or stands at the last value of a u64; `out` may then hold
    /// anything.
    fn run(&mut self, job: &Job, operands: &[u64], out: &mut [u64]) -> Result<(), KernelFault>
        requires told { (j : ℕ) × told self.old (Some j) }
        requires terms { length job.now.terms ≤ 16 }
        requires table { length job.now.table ≡ 4 ^ space self.old }
        requires operands { length operands.now ≡ length job.now.terms * width self.old }
        requires room { length out.old ≡ width self.old }
        ensures kept { (basis self.new ≡ basis self.old) × (width self.new ≡ width self.old)
            × (space self.new ≡ space self.old) }
        ensures told { told self.new None }
        ensures last { (j : ℕ) → told self.old (Some j) → last self.new j }
        ensures runs { runs self.new ≡ counted (runs self.old) }
        ensures faults { faults self.old ≤ faults self.new }
        ensures words { IfOk result (λ _.
            out.new ≡ Self.words_of (basis self.old) job.now operands.now) }
        ensures refused { OnErr result (HasFault (faults self.old) (faults self.new)) };
}
