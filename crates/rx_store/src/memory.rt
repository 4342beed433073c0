//! A store and a sink in memory, which fail at the calls of a list.
ghost use Rattle.std.specs.Prelude.{◌≡◌, ◌++◌, OnOk, OnErr, IsOk, Some, None, Err, false, []};
ghost use Rattle.std.specs.Option.{option_copied};
ghost use Rattle.rx_store.specs.Files.{file_at, with_file};
ghost use Rattle.rx_store.specs.MapFiles.{files_in};
ghost use Rattle.rx_store.specs.Counts.{one_more};
ghost use Rattle.rx_store.specs.Memory.{is_listed, new_store, after_read, after_write, new_sink, after_put};
ghost use Rattle.rx_store.specs.Failed.{read_failed, write_failed};
ghost use Rattle.rx_store.specs.StoreCalls.{ReadGives, ReadCounts, WriteLeaves, WriteCounts};
ghost use Rattle.rx_store.specs.SinkCalls.{PutLeaves};

use crate::{ReadError, Sink, Store, WriteError};
use std::alloc::{AllocError, Global};
use std::collections::BTreeMap;
use std::marker::Model;

/// Counts calls from 0 up to the last value of a u64, and knows which of them fail.
#[derive(Drop)]
struct Calls {
    next: u64,
    failing: Vec<u64>,
}

impl Calls {
    /// Whether the call that is made now is listed. It counts the call.
    fn fails(&mut self) -> bool
        ensures listed { result ≡ is_listed self.old.failing.items self.old.next }
        ensures counted { self.new ≡ record self.old { next = one_more self.old.next } }
    {
        let listed = self.failing.contains(&self.next);
        self.next = self.next.saturating_add(1);
        listed
    }
}

/// Files in an ordered map. Exactly the listed calls of `read` and `write` fail, and change no file. A read that is
/// not listed, of a name that no file has, wants no memory.
#[derive(Drop)]
pub struct MemStore {
    alloc: Global,
    files: BTreeMap<String, Vec<u8>>,
    calls: Calls,
    read_faults: u64,
    write_faults: u64,
}

impl Model for MemStore {
    ghost use Rattle.rx_store.specs.MapFiles.{files_in};
    ghost use Rattle.rx_store.specs.Memory.{StoreInMemory};
    ghost use Rattle.rx_store.specs.Codes.{store_code};

    ghost Value = { StoreInMemory };

    ghost coded = { store_code };

    ghost view = { λ s. record {
      files = files_in s.files.entries;
      read_faults = s.read_faults;
      write_faults = s.write_faults;
      next_call = s.calls.next;
      failing = s.calls.failing.items;
    } };
}

impl MemStore {
    /// No files. The calls with these numbers, reads and writes counted together from 0, will fail.
    pub fn new(alloc: Global, failing: Vec<u64>) -> MemStore
        ensures { result ≡ new_store failing.items }
    {
        MemStore {
            alloc,
            files: BTreeMap::new(alloc),
            calls: Calls { next: 0, failing },
            read_faults: 0,
            write_faults: 0,
        }
    }

    /// Places a file, also over one of the same name. This counts as no call. The error is want of memory,
    /// after which nothing has changed.
    pub fn insert(&mut self, name: &str, bytes: &[u8]) -> Result<(), AllocError>
        ensures placed { OnOk result
            (self.new ≡ record self.old { files = with_file name.now bytes.now self.old.files }) }
        ensures refused { OnErr result (self.new ≡ self.old) }
    {
        place(self.alloc, &mut self.files, name, bytes)
    }

    /// The bytes of a file, None exactly where there is no file of this name.
    pub fn get(&self, name: &str) -> Option<&[u8]>
        ensures { option_copied result ≡ file_at self.now.files name.now }
    {
        find(&self.files, name)
    }
}

fn find<'a>(files: &'a BTreeMap<String, Vec<u8>>, name: &str) -> Option<&'a [u8]>
    ensures { option_copied result ≡ file_at (files_in files.now.entries) name.now }
{
    match files.get(name) {
        Some(bytes) => Some(bytes.as_slice()),
        None => None,
    }
}

fn place(
    alloc: Global,
    files: &mut BTreeMap<String, Vec<u8>>,
    name: &str,
    bytes: &[u8],
) -> Result<(), AllocError>
    ensures placed { OnOk result
        (files_in files.new.entries ≡ with_file name.now bytes.now (files_in files.old.entries)) }
    ensures refused { OnErr result (files_in files.new.entries ≡ files_in files.old.entries) }
{
    let key = String::from_str(alloc, name)?;
    let value = Vec::from_slice(alloc, bytes)?;
    files.insert(key, value)?;
    Ok(())
}

impl Store for MemStore {
    ghost files = { λ s. Some s.files };

    ghost read_faults = { λ s. s.read_faults };

    ghost write_faults = { λ s. s.write_faults };

    fn read(&mut self, alloc: Global, name: &str, limit: u64) -> Result<Vec<u8>, ReadError>
        ensures gives { ReadGives (Some self.old.files) name.now limit result }
        ensures same { self.new.files ≡ self.old.files }
        ensures reads { ReadCounts self.old.read_faults self.new.read_faults result }
        ensures writes { self.new.write_faults ≡ self.old.write_faults }
        ensures listed { read_failed result ≡ is_listed self.old.failing self.old.next_call }
        ensures missing { is_listed self.old.failing self.old.next_call ≡ false
            → file_at self.old.files name.now ≡ None → result ≡ Err ReadError.Missing }
        ensures whole { self.new ≡ after_read self.old }
    {
        if self.calls.fails() {
            self.read_faults = self.read_faults.saturating_add(1);
            return Err(ReadError::Failed);
        }
        let Some(bytes) = find(&self.files, name) else {
            return Err(ReadError::Missing);
        };
        let size = bytes.len() as u64;
        if size > limit {
            return Err(ReadError::TooLong(size));
        }
        Vec::from_slice(alloc, bytes).map_err(ReadError::Memory)
    }

    fn write(&mut self, name: &str, bytes: &[u8]) -> Result<(), WriteError>
        ensures leaves { WriteLeaves (Some self.old.files) (Some self.new.files) name.now bytes.now
            result }
        ensures reads { self.new.read_faults ≡ self.old.read_faults }
        ensures writes { WriteCounts self.old.write_faults self.new.write_faults result }
        ensures listed { write_failed result ≡ is_listed self.old.failing self.old.next_call }
        ensures placed { OnOk result
            (self.new ≡ record (after_write self.old)
            { files = with_file name.now bytes.now self.old.files }) }
        ensures refused { OnErr result (self.new ≡ after_write self.old) }
    {
        if self.calls.fails() {
            self.write_faults = self.write_faults.saturating_add(1);
            return Err(WriteError::Failed);
        }
        place(self.alloc, &mut self.files, name, bytes).map_err(WriteError::Memory)
    }
}

/// Output kept as a list of bytes. Exactly the listed calls of `put` fail, and append nothing. A `put` of nothing
/// that is not listed wants no memory.
#[derive(Drop)]
pub struct MemSink {
    bytes: Vec<u8>,
    calls: Calls,
    faults: u64,
}

impl Model for MemSink {
    ghost use Rattle.rx_store.specs.Memory.{SinkInMemory};

    ghost Value = { SinkInMemory };

    ghost view = { λ s. record {
      bytes = s.bytes.items;
      faults = s.faults;
      next_call = s.calls.next;
      failing = s.calls.failing.items;
    } };
}

impl MemSink {
    /// No bytes. The calls with these numbers, counted from 0, will fail, and append nothing.
    pub fn new(alloc: Global, failing: Vec<u64>) -> MemSink
        ensures { result ≡ new_sink failing.items }
    {
        MemSink {
            bytes: Vec::new(alloc),
            calls: Calls { next: 0, failing },
            faults: 0,
        }
    }

    /// What was put so far.
    pub fn bytes(&self) -> &[u8]
        ensures { result.now ≡ self.now.bytes }
    {
        self.bytes.as_slice()
    }
}

impl Sink for MemSink {
    ghost written = { λ s. Some s.bytes };

    ghost faults = { λ s. s.faults };

    fn put(&mut self, piece: &[u8]) -> Result<(), WriteError>
        ensures leaves { PutLeaves (Some self.old.bytes) (Some self.new.bytes) piece.now result }
        ensures counts { WriteCounts self.old.faults self.new.faults result }
        ensures listed { write_failed result ≡ is_listed self.old.failing self.old.next_call }
        ensures appended { OnOk result
            (self.new ≡ record (after_put self.old) { bytes = self.old.bytes ++ piece.now }) }
        ensures refused { OnErr result (self.new ≡ after_put self.old) }
        ensures empty { is_listed self.old.failing self.old.next_call ≡ false → piece.now ≡ []
            → IsOk result }
    {
        if self.calls.fails() {
            self.faults = self.faults.saturating_add(1);
            return Err(WriteError::Failed);
        }
        self.bytes
            .extend_from_slice(piece)
            .map_err(WriteError::Memory)
    }
}
