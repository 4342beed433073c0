//! What a kernel's jobs are defined to give.
ghost use Rattle.std.specs.Prelude.{ℕ, List};

/// Names the definition of a job's words.
pub trait JobWords {
    ghost use Rattle.rx_net.specs.declared.net.Job.{Job};

    /// The words of a job, from basis, job and operand words: the basis is a list of numbers that stands for a key, and
    /// the words of the operands stand one operand after another.
    ghost words_of: { List ℕ → Job → List ℕ → List ℕ };
}
