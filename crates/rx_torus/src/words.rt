//! Lists of torus words.
use rx_list::Listed;

/// Words of 64 bits of a ciphertext or of a key, any number of them.
pub type Words = Listed<u64>;
