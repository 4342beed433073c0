//! Why a binary file could not be read.
ghost use Rattle.std.specs.Prelude.{◌≡◌};
ghost use Rattle.rx_codec.specs.declared.fault.CodecFault.TheVariants.{Memory};

use rx_net::NetFault;
use rx_params::Refused;
use std::alloc::{AllocError, AllocFailed};
use thiserror::Error;

/// The first fault of a binary file, by the format that is wanted: field after field, then the end, then the net.
/// Places are counted in bytes from 0.
#[derive(Clone, Copy, Debug, PartialEq, Eq, Error)]
pub enum CodecFault {
    /// The first four bytes are not those of the format.
    #[error("another format")]
    Magic,
    /// A field ends at `need`, past the end of the file of `have` bytes.
    #[error("{have} bytes where {need} are needed")]
    Short { need: u64, have: u64 },
    /// So many bytes are left after the last field.
    #[error("{extra} bytes too many")]
    Long { extra: u64 },
    /// The field that begins at this place has a value outside its range.
    #[error("the field at {at} is out of range")]
    Field { at: u64 },
    /// The parameters, all ten of which were read, are not accepted.
    #[error("parameters: {0}")]
    Params(Refused),
    /// The net that the file spells is not legal.
    #[error("net: {0}")]
    Net(NetFault),
    /// Memory ran out. To decode a client file takes none.
    #[error("out of memory")]
    Memory,
}

impl From<AllocError> for CodecFault {
    ghost from_gives = { λ _ fault. fault ≡ Memory };

    fn from(_: AllocError) -> CodecFault {
        CodecFault::Memory
    }
}

impl<T: Drop> From<AllocFailed<T>> for CodecFault {
    ghost from_gives = { λ _ fault. fault ≡ Memory };

    fn from(_: AllocFailed<T>) -> CodecFault {
        CodecFault::Memory
    }
}
