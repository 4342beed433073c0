//! Blocks: ciphertexts with the tags that bound what they hold.
use rx_torus::Words;

/// A ciphertext of a number under the large key. Source: handbook, shortint (blocks, degree, noise level).
#[derive(Debug, Drop)]
pub struct Block {
    /// The `glwe_dim * poly_size` mask words, of 64 bits, and then the body.
    pub words: Words,
    /// A bound on the number, itself at most `4^message_bits - 1`.
    pub degree: u8,
    /// The noise is at most this times the base noise of the set: 0 to `2^message_bits + 1`.
    pub noise: u8,
}

/// What a block says of itself beside its words, in the ranges of a `Block`.
#[derive(Clone, Copy, Debug, PartialEq, Eq)]
pub struct Tags {
    /// A bound on the number.
    pub degree: u8,
    /// The noise is at most this times the base noise of the set.
    pub noise: u8,
}

/// A block decodes to a number above its degree.
#[derive(Clone, Copy, Debug, PartialEq, Eq, thiserror::Error)]
#[error("decoded {decoded} above the degree {degree}")]
pub struct Damaged {
    /// The number, below `2 * 4^message_bits`.
    pub decoded: u32,
    /// The degree of the block.
    pub degree: u8,
}

/// Why a weighted sum of blocks is refused; the range is tested first.
#[derive(Clone, Copy, Debug, PartialEq, Eq, thiserror::Error)]
pub enum TagFault {
    /// The numbers that the sum may give, from `low` to `high`, leave those of a block, 0 to
    /// `4^message_bits - 1`.
    #[error("the sum reaches from {low} to {high}")]
    Range { low: i32, high: i32 },
    /// The sum of the noise tags, each times the size of its weight, passes the limit of the set,
    /// `2^message_bits + 1`.
    #[error("the noise tags sum to {sum}")]
    Noise { sum: u32 },
}
