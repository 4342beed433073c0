//! Net files and circuits that the tests share.
use rx_store::MemStore;
use rx_tests_kit::no_files;
use std::alloc::{AllocError, Global};

/// The net file of the circuit that gives its one input back, of two bits. Source: `docs/FORMATS.md`, Nets.
pub const GIVEN_BACK: [u8; 27] = [
    0x52, 0x58, 0x4e, 0x31, 2, 1, 0, 1, 0x61, 0, 2, 3, 1, 0, 0, 0, 0, 1, 0, 1, 0x61, 0, 2, 0, 0, 0,
    0,
];

/// The magic, a space of 2 and one input: `a`, an int of two bits, degree 3 and noise 1. It is cell 0.
const HEAD: [u8; 13] = [0x52, 0x58, 0x4e, 0x31, 2, 1, 0, 1, 0x61, 0, 2, 3, 1];

/// A constant of 0, the table of what each number leaves beside its fourth, and degree 3.
const LOOKUP: [u8; 19] = [0, 0, 0, 1, 2, 3, 0, 1, 2, 3, 0, 1, 2, 3, 0, 1, 2, 3, 3];

/// One output, `s`, an int of two bits, up to its cell.
const OUTPUT: [u8; 6] = [1, 0, 1, 0x73, 0, 2];

/// The file of a net with one input and one output: a job has a term of weight 1 for each cell that is listed.
pub fn net_file(alloc: Global, jobs: &[&[u8]], given: u8) -> Result<Vec<u8>, AllocError> {
    let mut file = Vec::new(alloc);
    file.extend_from_slice(&HEAD)?;
    file.extend_from_slice(&[count(jobs.len()), 0, 0, 0])?;
    for cells in jobs {
        push_job(&mut file, cells)?;
    }
    file.extend_from_slice(&OUTPUT)?;
    file.extend_from_slice(&[given, 0, 0, 0])?;
    Ok(file)
}

/// A count of fewer than 256 in one byte.
fn count(length: usize) -> u8 {
    u8::try_from(length).unwrap_or(u8::MAX)
}

/// Adds a job with a term of weight 1 for each of the cells.
fn push_job(file: &mut Vec<u8>, cells: &[u8]) -> Result<(), AllocError> {
    file.push(count(cells.len()))?;
    for cell in cells {
        file.extend_from_slice(&[*cell, 0, 0, 0, 1])?;
    }
    file.extend_from_slice(&LOOKUP)
}

/// A store with net files: `back` gives its input back, `four` has four jobs, of which two are equal and one is used
/// by none, `two` those two that are left of them; `late` names a cell that is not there, and `cut` ends too early.
pub fn nets(alloc: Global) -> Result<MemStore, AllocError> {
    let mut store = no_files(alloc);
    store.insert("back", &GIVEN_BACK)?;
    store.insert("four", &net_file(alloc, &[&[0], &[0], &[1, 2], &[3]], 3)?)?;
    store.insert("two", &net_file(alloc, &[&[0], &[1, 1]], 2)?)?;
    store.insert("late", &net_file(alloc, &[&[0], &[2]], 1)?)?;
    store.insert("cut", &GIVEN_BACK[..26])?;
    store.insert("empty", b"")?;
    store.insert("v", b"int a 2 3\n")?;
    Ok(store)
}

/// A store with circuits of four bits: `once` is a sum, `twice` the same sum under two names, and `idle` has a product
/// beside the sum that no output gives.
pub fn circuits(alloc: Global) -> Result<MemStore, AllocError> {
    let mut store = no_files(alloc);
    store.insert("once", b"bits 2 4\nin a\nin b\nadd s a b\nout s\n")?;
    store.insert(
        "twice",
        b"bits 2 4\nin a\nin b\nadd s a b\nadd t a b\nout s\nout t\n",
    )?;
    store.insert(
        "idle",
        b"bits 2 4\nin a\nin b\nmul p a b\nadd s a b\nout s\n",
    )?;
    store.insert("v", b"int a 4 13\nint b 4 9\n")?;
    Ok(store)
}
