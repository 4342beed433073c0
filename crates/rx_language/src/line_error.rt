//! Why a line was not taken, while the number of the line is not yet known.
ghost use Rattle.std.specs.Prelude.{◌≡◌};
ghost use Rattle.rx_language.specs.declared.line_error.LineError.TheVariants.{Cause, Memory};

use rx_params::LineCause;
use std::alloc::{AllocError, AllocFailed};

/// Why a line was not taken.
#[derive(Clone, Copy, Debug)]
pub enum LineError {
    /// It is wrong.
    Cause(LineCause),
    /// Memory ran out.
    Memory,
}

impl From<LineCause> for LineError {
    ghost from_gives = { λ cause e. e ≡ Cause cause };

    fn from(cause: LineCause) -> LineError {
        LineError::Cause(cause)
    }
}

impl From<AllocError> for LineError {
    ghost from_gives = { λ _ e. e ≡ Memory };

    fn from(_error: AllocError) -> LineError {
        LineError::Memory
    }
}

impl<T: Drop> From<AllocFailed<T>> for LineError {
    ghost from_gives = { λ _ e. e ≡ Memory };

    fn from(_error: AllocFailed<T>) -> LineError {
        LineError::Memory
    }
}
