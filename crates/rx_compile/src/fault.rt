//! Why a circuit is not compiled.
use thiserror::Error;

/// Why a circuit is not compiled.
#[derive(Clone, Copy, Debug, PartialEq, Eq, Error)]
pub enum CompileFault {
    /// The job bound of the circuit, which is above 65,536.
    #[error("up to {0} jobs")]
    Jobs(u64),
    /// Memory ran out.
    #[error("out of memory")]
    Memory,
}
