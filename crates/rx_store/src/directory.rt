//! A store over the files of the system. It tells nothing of what they hold.
ghost use Rattle.std.specs.Prelude.{◌≡◌, None};
ghost use Rattle.rx_store.specs.Real.{ReadsUpTo, GivesAllLeft};
ghost use Rattle.rx_store.specs.Counts.{counted};
ghost use Rattle.rx_store.specs.Failed.{read_failed, write_failed};
ghost use Rattle.rx_store.specs.StoreCalls.{ReadGives, ReadCounts, WriteCounts};

use crate::whole_writes::write_whole;
use crate::{ReadError, Store, WriteError};
use std::alloc::{AllocError, Global};
use std::fs::{self, OpenFile};
use std::io::Read;
use std::marker::Model;
use std::rt::Files;

/// The most bytes of one read.
const CHUNK: usize = 65536;

/// The files that the runtime opens. It counts each failure; a missing file is one. A file that is too long is
/// read to one byte past the limit (docs/DECISIONS.md).
#[derive(Drop)]
pub struct DirStore<F: Files> {
    runtime: F,
    read_faults: u64,
    write_faults: u64,
}

impl<F: Files> Model for DirStore<F> {
    ghost use Rattle.rx_store.specs.Real.{StoreFaults};

    ghost Value = { StoreFaults };

    ghost view = { λ s. record { read_faults = s.read_faults; write_faults = s.write_faults } };
}

impl<F: Files> DirStore<F> {
    /// Takes the value by which files are opened. Nothing has failed yet.
    pub fn new(files: F) -> DirStore<F>
        ensures { result ≡ record { read_faults = 0; write_faults = 0 } }
    {
        DirStore {
            runtime: files,
            read_faults: 0,
            write_faults: 0,
        }
    }
}

impl<F: Files> Store for DirStore<F> {
    ghost files = { λ _. None };

    ghost read_faults = { λ s. s.read_faults };

    ghost write_faults = { λ s. s.write_faults };

    fn read(&mut self, alloc: Global, name: &str, limit: u64) -> Result<Vec<u8>, ReadError>
        ensures gives { ReadGives None name.now limit result }
        ensures reads { ReadCounts self.old.read_faults self.new.read_faults result }
        ensures writes { self.new.write_faults ≡ self.old.write_faults }
        ensures up_to { ReadsUpTo limit result }
        ensures counted { self.new.read_faults ≡ counted (read_failed result) self.old.read_faults }
    {
        let result = read_file(&self.runtime, alloc, name, limit);
        if let Err(ReadError::Failed) = &result {
            self.read_faults = self.read_faults.saturating_add(1);
        }
        result
    }

    fn write(&mut self, name: &str, bytes: &[u8]) -> Result<(), WriteError>
        ensures reads { self.new.read_faults ≡ self.old.read_faults }
        ensures writes { WriteCounts self.old.write_faults self.new.write_faults result }
        ensures counted { self.new.write_faults
            ≡ counted (write_failed result) self.old.write_faults }
    {
        let result = write_file(&self.runtime, name, bytes);
        if let Err(WriteError::Failed) = &result {
            self.write_faults = self.write_faults.saturating_add(1);
        }
        result
    }
}

fn read_file<F: Files>(
    files: &F,
    alloc: Global,
    name: &str,
    limit: u64,
) -> Result<Vec<u8>, ReadError>
    ensures { ReadsUpTo limit result }
{
    let Ok(mut file) = fs::open(files, name) else {
        return Err(ReadError::Failed);
    };
    let size = told_size(&file);
    read_to_limit(&mut file, alloc, limit, size)
}

/// The bytes of a file that the system tells, or 0.
fn told_size<F: OpenFile>(file: &F) -> u64 {
    match file.metadata() {
        Ok(told) => told.len(),
        Err(_) => 0,
    }
}

/// Reads to the end, or to the first byte past the limit. Memory is taken for `size` bytes at once, and for more where
/// more are read.
fn read_to_limit<R: Read>(
    reader: &mut R,
    alloc: Global,
    limit: u64,
    size: u64,
) -> Result<Vec<u8>, ReadError>
    ensures up_to { ReadsUpTo limit result }
    ensures all { GivesAllLeft (R.remaining reader.old) limit result }
{
    let mut bytes = match Vec::with_capacity(alloc, size.min(limit) as usize) {
        Ok(bytes) => bytes,
        Err(error) => return Err(ReadError::Memory(error)),
    };
    let mut chunk = [0u8; CHUNK];
    while bytes.len() as u64 <= limit {
        let left = (limit - bytes.len() as u64).saturating_add(1);
        let room = left.min(CHUNK as u64) as usize;
        let Ok(count) = reader.read(&mut chunk[..room]) else {
            return Err(ReadError::Failed);
        };
        if count == 0 {
            return Ok(bytes);
        }
        if let Err(error) = bytes.extend_from_slice(&chunk[..count]) {
            return Err(ReadError::Memory(error));
        }
    }
    Err(ReadError::TooLong(bytes.len() as u64))
}

fn write_file<F: Files>(files: &F, name: &str, bytes: &[u8]) -> Result<(), WriteError> {
    let Ok(mut file) = fs::create(files, name) else {
        return Err(WriteError::Failed);
    };
    write_whole(&mut file, bytes)
}
