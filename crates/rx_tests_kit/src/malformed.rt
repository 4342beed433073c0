//! Files that are not what their format wants, each by one change, and what the program says of them.
use crate::files::{place_changed, place_longer, place_start};
use crate::runs::{printed, was_printed};
use rx_store::MemStore;
use std::alloc::{AllocError, Global};
use std::thread::Threads;

/// A change of a whole file.
#[derive(Clone, Copy, Debug, PartialEq, Eq)]
pub enum Change {
    /// The byte at a place, from 0, is this one.
    Byte(usize, u8),
    /// The file has so many bytes, fewer than before.
    Cut(usize),
    /// The file has one byte more, 0.
    Longer,
}

/// Places a copy of a file with a change, under the name `x`.
fn place_with(
    alloc: Global,
    store: &mut MemStore,
    file: &str,
    change: Change,
) -> Result<(), AllocError> {
    match change {
        Change::Byte(place, byte) => place_changed(alloc, store, file, "x", place, byte),
        Change::Cut(size) => place_start(alloc, store, file, "x", size),
        Change::Longer => place_longer(alloc, store, file, "x"),
    }
}

/// What a line gives in place of a status and a text, None where it gives them.
fn given_instead<R: Threads + Sync + AllocGlobal>(
    rt: &R,
    store: &mut MemStore,
    line: &str,
    status: u8,
    text: &str,
) -> Result<Option<String>, AllocError> {
    let (answer, sink) = printed(rt, line, store)?;
    if answer == status && was_printed(&sink, text) {
        return Ok(None);
    }
    let given = str::from_utf8(sink.bytes()).unwrap_or("");
    Ok(Some(format!(in rt.alloc(); "{text}: {answer} {given}")?))
}

/// The first change of a file after which a line that names the changed file `x` does not give the status and the text
/// beside it, with what it gave in their place.
pub fn first_wrong_change<R: Threads + Sync + AllocGlobal>(
    rt: &R,
    store: &mut MemStore,
    file: &str,
    line: &str,
    rows: &[(Change, u8, &str)],
) -> Result<Option<String>, AllocError> {
    for (change, status, text) in rows {
        place_with(rt.alloc(), store, file, *change)?;
        if let Some(given) = given_instead(rt, store, line, *status, text)? {
            return Ok(Some(given));
        }
    }
    Ok(None)
}

/// The first file for which a line that names it `x` does not give the status and the text beside it, with what it gave
/// in their place.
pub fn first_wrong_file<R: Threads + Sync + AllocGlobal>(
    rt: &R,
    store: &mut MemStore,
    line: &str,
    rows: &[(&str, u8, &str)],
) -> Result<Option<String>, AllocError> {
    for (file, status, text) in rows {
        store.insert("x", file.as_bytes())?;
        if let Some(given) = given_instead(rt, store, line, *status, text)? {
            return Ok(Some(given));
        }
    }
    Ok(None)
}
