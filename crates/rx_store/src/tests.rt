//! What stores and outputs answer and leave, in memory and over the real thing.
use crate::whole_writes::write_whole;
use crate::{DirStore, MemSink, MemStore, OutSink, ReadError, Sink, Store, WriteError};
use std::alloc::{AllocError, Global};
use std::io::Write;
use std::test::Fail;

/// Takes at most so many bytes at a call.
#[derive(Drop)]
struct Slow {
    taken: Vec<u8>,
    step: usize,
}

impl Write for Slow {
    fn write(&mut self, bytes: &[u8]) -> std::io::Result<usize> {
        let count = bytes.len().min(self.step);
        self.taken.extend_from_slice(&bytes[..count])?;
        Ok(count)
    }

    fn flush(&mut self) -> std::io::Result<()> {
        Ok(())
    }
}

/// Whether the store tells a file of exactly these bytes.
fn holds(store: &MemStore, name: &str, bytes: &[u8]) -> bool {
    match store.get(name) {
        Some(found) => found == bytes,
        None => false,
    }
}

#[test]
fn a_file_in_memory_is_written_and_read_up_to_the_limit(rt: HostRuntime) -> Result<(), Fail> {
    let alloc = rt.alloc();
    let mut store = MemStore::new(alloc, Vec::new(alloc));
    store.insert("a", b"1234")?;
    store.write("a", b"12345")?;
    let answer = store.read(alloc, "a", 4);
    assert!(rt; matches!(answer, Err(ReadError::TooLong(5))));
    assert_eq!(rt; store.read(alloc, "a", 5)?.as_slice(), b"12345".as_slice());
    let answer = store.read(alloc, "b", 5);
    assert!(rt; matches!(answer, Err(ReadError::Missing)));
    Ok(())
}

#[test]
fn listed_calls_alone_fail(rt: HostRuntime) -> Result<(), Fail> {
    let alloc = rt.alloc();
    let mut store = MemStore::new(alloc, vec![in alloc; 0, 2]?);
    store.insert("a", b"1")?;
    assert!(rt; matches!(store.write("a", b"2"), Err(WriteError::Failed)));
    assert!(rt; holds(&store, "a", b"1"));
    store.write("a", b"3")?;
    assert!(rt; holds(&store, "a", b"3"));
    let answer = store.read(alloc, "a", 1);
    assert!(rt; matches!(answer, Err(ReadError::Failed)));
    assert_eq!(rt; store.read(alloc, "a", 1)?.as_slice(), b"3".as_slice());

    let mut sink = MemSink::new(alloc, vec![in alloc; 1]?);
    sink.put(b"12")?;
    assert!(rt; matches!(sink.put(b"3"), Err(WriteError::Failed)));
    sink.put(b"45")?;
    assert_eq!(rt; sink.bytes(), b"1245".as_slice());
    Ok(())
}

#[test]
fn a_real_file_is_written_and_read_back(rt: HostRuntime) -> Result<(), Fail> {
    let alloc = rt.alloc();
    let mut store = DirStore::new(rt.clone()?);
    store.write("a", b"12345")?;
    assert_eq!(rt; store.read(alloc, "a", 5)?.as_slice(), b"12345".as_slice());
    let answer = store.read(alloc, "a", 3);
    assert!(rt; matches!(answer, Err(ReadError::TooLong(4))));
    for name in ["b", "."] {
        let answer = store.read(alloc, name, 5);
        assert!(rt; matches!(answer, Err(ReadError::Failed)), "at {name}");
    }
    assert!(rt; matches!(store.write(".", b"1"), Err(WriteError::Failed)));
    Ok(())
}

/// So many bytes, of which neighbours differ.
fn some_bytes(alloc: Global, size: u32) -> Result<Vec<u8>, AllocError> {
    (0..size).map(|place| (place % 251) as u8).collect(alloc)
}

/// The first size of which a file is not read as it was written. All are written over one another.
fn first_lost<S: Store>(alloc: Global, store: &mut S, sizes: &[u32]) -> Result<Option<u32>, Fail> {
    for size in sizes {
        let bytes = some_bytes(alloc, *size)?;
        store.write("sized", &bytes)?;
        let found = store.read(alloc, "sized", u64::from(*size))?;
        if found.as_slice() != bytes.as_slice() {
            return Ok(Some(*size));
        }
    }
    Ok(None)
}

/// Files of one read and of more, the last one shorter than what it is written over.
#[test]
fn a_real_file_of_any_size_is_written_and_read_whole(rt: HostRuntime) -> Result<(), Fail> {
    let mut store = DirStore::new(rt.clone()?);
    let sizes = [0, 65535, 65536, 65537, 200_000, 3];
    assert_eq!(rt; first_lost(rt.alloc(), &mut store, &sizes)?, None);
    Ok(())
}

#[test]
fn a_writer_is_given_all_bytes(rt: HostRuntime) -> Result<(), Fail> {
    let alloc = rt.alloc();
    for (step, takes) in [(0, false), (1, true), (9, true)] {
        let mut writer = Slow {
            taken: Vec::new(alloc),
            step,
        };
        assert_eq!(rt;
            write_whole(&mut writer, b"12345").is_ok(),
            takes,
            "at {step}"
        );
        let taken: &[u8] = if takes { b"12345" } else { b"" };
        assert_eq!(rt; writer.taken.as_slice(), taken, "at {step}");
        let mut sink = OutSink::new(writer);
        assert_eq!(rt; sink.put(b"67").is_ok(), takes, "at {step}");
    }
    Ok(())
}
