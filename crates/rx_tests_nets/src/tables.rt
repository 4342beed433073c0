//! Tables over the numbers of a block.
use std::alloc::{AllocError, Global};

/// What a table gives for a number of a block, whose lower half are its message bits.
#[derive(Clone, Copy)]
pub enum Look {
    /// The number itself.
    Same,
    /// The message bits.
    Rest,
    /// The bits above them.
    Carry,
    /// The greatest number of the message bits less the message bits.
    Back,
}

/// The table of a space of 2 or 3: `4^space` entries.
pub fn table(alloc: Global, space: u32, look: Look) -> Result<Vec<u8>, AllocError> {
    let base: u8 = if space == 2 { 4 } else { 8 };
    let mut entries = Vec::new(alloc);
    for index in 0..base * base {
        entries.push(match look {
            Look::Same => index,
            Look::Rest => index % base,
            Look::Carry => index / base,
            Look::Back => base - 1 - index % base,
        })?;
    }
    Ok(entries)
}
