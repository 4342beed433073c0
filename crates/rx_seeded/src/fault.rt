//! Why a value has no seeded file of a seed.
ghost use Rattle.std.specs.Prelude.{◌≡◌};
ghost use Rattle.rx_seeded.specs.declared.fault.SeedFault.TheVariants.{Memory};

use std::alloc::{AllocError, AllocFailed};
use thiserror::Error;

/// Why a key or a ciphertext could not be stored by a mask seed.
#[derive(Clone, Copy, Debug, PartialEq, Eq, Error)]
pub enum SeedFault {
    /// A mask word is not the one that the seed draws. The first such word stands at this place of the version 1 file, in
    /// bytes from 0.
    #[error("the mask word at {at} is another one")]
    Mask { at: u64 },
    /// Memory ran out.
    #[error("out of memory")]
    Memory,
}

impl From<AllocError> for SeedFault {
    ghost from_gives = { λ _ fault. fault ≡ Memory };

    fn from(_: AllocError) -> SeedFault {
        SeedFault::Memory
    }
}

impl<T: Drop> From<AllocFailed<T>> for SeedFault {
    ghost from_gives = { λ _ fault. fault ≡ Memory };

    fn from(_: AllocFailed<T>) -> SeedFault {
        SeedFault::Memory
    }
}
