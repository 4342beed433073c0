//! Runs of the program over files in memory.
use rx_store::{MemSink, MemStore, Sink, Store};
use rx_tool::{Gate, OpenGate, tool};
use std::alloc::{AllocError, Global};
use std::thread::Threads;

/// Seeds of 64 zeros and of 64 ones stand in lines of words as `Z` and `U`.
const ZEROS: &str = "0000000000000000000000000000000000000000000000000000000000000000";

const ONES: &str = "1111111111111111111111111111111111111111111111111111111111111111";

/// The words of a line, with the seeds in place of `Z` and `U`.
fn words_of(alloc: Global, line: &str) -> Result<Vec<String>, AllocError> {
    let mut words = Vec::new(alloc);
    for word in line.split_whitespace() {
        let word = match word {
            "Z" => ZEROS,
            "U" => ONES,
            other => other,
        };
        words.push(String::from_str(alloc, word)?)?;
    }
    Ok(words)
}

/// The status of the program for the words of a line, over a store and a sink.
pub fn run<R: Threads + Sync + AllocGlobal, S: Store, K: Sink>(
    rt: &R,
    line: &str,
    store: &mut S,
    sink: &mut K,
) -> Result<u8, AllocError> {
    let words = words_of(rt.alloc(), line)?;
    Ok(tool(rt, rt.alloc(), &words, store, sink, &OpenGate))
}

/// The status of the program for the words of a line, where a gate is told of each job that is run.
pub fn run_through<R: Threads + Sync + AllocGlobal, G: Gate + Sync>(
    rt: &R,
    line: &str,
    store: &mut MemStore,
    gate: &G,
) -> Result<u8, AllocError> {
    let alloc = rt.alloc();
    let words = words_of(alloc, line)?;
    let mut sink = MemSink::new(alloc, Vec::new(alloc));
    Ok(tool(rt, alloc, &words, store, &mut sink, gate))
}

/// The status and what was printed, to a sink that does not fail.
pub fn printed<R: Threads + Sync + AllocGlobal>(
    rt: &R,
    line: &str,
    store: &mut MemStore,
) -> Result<(u8, MemSink), AllocError> {
    let alloc = rt.alloc();
    let mut sink = MemSink::new(alloc, Vec::new(alloc));
    let status = run(rt, line, store, &mut sink)?;
    Ok((status, sink))
}

/// The first line whose status or printed text is not the one beside it, with what it gave in their place. The lines
/// are run in order, up to that one.
pub fn first_wrong<R: Threads + Sync + AllocGlobal>(
    rt: &R,
    store: &mut MemStore,
    cases: &[(&str, u8, &str)],
) -> Result<Option<String>, AllocError> {
    for (line, status, text) in cases {
        let (answer, sink) = printed(rt, line, store)?;
        if answer != *status || !was_printed(&sink, text) {
            let given = str::from_utf8(sink.bytes()).unwrap_or("");
            return Ok(Some(format!(in rt.alloc(); "{line}: {answer} {given}")?));
        }
    }
    Ok(None)
}

/// A store with no files in which no call fails.
pub fn no_files(alloc: Global) -> MemStore {
    MemStore::new(alloc, Vec::new(alloc))
}

/// Whether the file has exactly these bytes.
pub fn holds(store: &MemStore, name: &str, bytes: &[u8]) -> bool {
    match store.get(name) {
        Some(held) => held == bytes,
        None => false,
    }
}

/// Whether the file has this many bytes.
pub fn has_length(store: &MemStore, name: &str, length: usize) -> bool {
    match store.get(name) {
        Some(held) => held.len() == length,
        None => false,
    }
}

/// Whether the sink was given exactly this text.
pub fn was_printed(sink: &MemSink, text: &str) -> bool {
    sink.bytes() == text.as_bytes()
}

/// The word of eight bytes that stands at a place of a file, the least byte first; 0 where there is none.
pub fn word_at(store: &MemStore, name: &str, place: usize) -> u64 {
    match store.get(name) {
        Some(held) if place < held.len() && held.len() - place >= 8 => {
            let b = &held[place..place + 8];
            u64::from_le_bytes([b[0], b[1], b[2], b[3], b[4], b[5], b[6], b[7]])
        }
        _ => 0,
    }
}
