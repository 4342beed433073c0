//! Why the inputs of a net are not gathered.
ghost use Rattle.std.specs.Prelude.{◌≡◌};

use rx_params::Name;
use std::alloc::AllocError;
use thiserror::Error;

/// The first input of a net that the items of some files do not give as the net wants it. Its name is looked for
/// first, then its form is compared, and then block after block, from the least, the degree and the noise tag.
#[derive(Clone, Copy, Debug, Error)]
pub enum InputFault {
    /// No item has the name.
    #[error("an input is missing")]
    Missing(Name),
    /// Two items or more have the name.
    #[error("an input stands twice")]
    Twice(Name),
    /// The item is of another kind, or has other bits.
    #[error("an input has another form")]
    Form(Name),
    /// The degree `value` of a block is above that of the input.
    #[error("an input has degree {value} above {limit}")]
    Degree { name: Name, value: u8, limit: u8 },
    /// The noise tag `value` of a block is above that of the input.
    #[error("an input has noise {value} above {limit}")]
    Noise { name: Name, value: u8, limit: u8 },
}

/// Why the blocks of the inputs are not gathered.
#[derive(Clone, Copy, Debug, Error)]
pub enum GatherError {
    /// The first input of the net that the items do not give as the net wants it.
    #[error("{0}")]
    Input(InputFault),
    /// Memory ran out.
    #[error("out of memory")]
    Memory,
}

impl From<AllocError> for GatherError {
    ghost use Rattle.rx_server.specs.declared.fault.GatherError.TheVariants.{Memory};

    ghost from_gives = { λ _ e. e ≡ Memory };

    fn from(_: AllocError) -> GatherError {
        GatherError::Memory
    }
}

impl From<InputFault> for GatherError {
    ghost use Rattle.rx_server.specs.declared.fault.GatherError.TheVariants.{Input};

    ghost from_gives = { λ fault e. e ≡ Input fault };

    fn from(fault: InputFault) -> GatherError {
        GatherError::Input(fault)
    }
}
