//! The bytes of a file, which contracts see as a list of bytes.
ghost use Rattle.std.specs.Prelude.{◌≡◌, ◌<◌, ◌^◌, EachIndex, slice_index};

use std::marker::Model;

/// The whole bytes of a file that was read.
#[derive(Drop)]
pub struct Bytes {
    bytes: Vec<u8>,
}

impl Model for Bytes {
    ghost use Rattle.std.specs.Prelude.{List, ℕ};

    ghost Value = { List ℕ };

    ghost view = { λ b. b.bytes.items };
}

impl Bytes {
    /// These bytes, without a copy.
    pub fn new(bytes: Vec<u8>) -> Bytes
        ensures value { result ≡ bytes.items }
        ensures bytes { EachIndex result (λ i. slice_index result i < 2 ^ 8) }
    {
        Bytes { bytes }
    }

    /// The bytes, lent.
    pub fn as_slice(&self) -> &[u8]
        ensures { result.now ≡ self.now }
    {
        self.bytes.as_slice()
    }
}
