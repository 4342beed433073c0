//! A store that tells nothing of its files, and answers one thing.
ghost use Rattle.std.specs.Prelude.{None};

use rx_store::{ReadError, Store, WriteError};
use std::alloc::{AllocError, Global};

/// Every file is one byte longer than the limit, and no write has memory.
#[derive(Drop)]
pub struct TooLongStore;

impl Store for TooLongStore {
    ghost files = { λ _. None };

    ghost read_faults = { λ _. 0 };

    ghost write_faults = { λ _. 0 };

    fn read(&mut self, _alloc: Global, _name: &str, limit: u64) -> Result<Vec<u8>, ReadError> {
        match limit.checked_add(1) {
            Some(length) => Err(ReadError::TooLong(length)),
            None => Err(ReadError::Memory(AllocError)),
        }
    }

    fn write(&mut self, _name: &str, _bytes: &[u8]) -> Result<(), WriteError> {
        Err(WriteError::Memory(AllocError))
    }
}
