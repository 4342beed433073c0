//! Files that are made of other files. One that is not there counts as empty.
use rx_store::MemStore;
use std::alloc::{AllocError, Global};

/// Places a copy of a file under another name, with one byte changed; or cut by one byte where the place
/// is past its end.
pub fn place_changed(
    alloc: Global,
    store: &mut MemStore,
    from: &str,
    to: &str,
    place: usize,
    byte: u8,
) -> Result<(), AllocError> {
    let mut bytes = Vec::new(alloc);
    if let Some(held) = store.get(from) {
        bytes.extend_from_slice(held)?;
    }
    if place < bytes.len() {
        bytes[place] = byte;
    } else {
        let _ = bytes.pop();
    }
    store.insert(to, &bytes)
}

/// Places a copy of a file under another name, with one byte more.
pub fn place_longer(
    alloc: Global,
    store: &mut MemStore,
    from: &str,
    to: &str,
) -> Result<(), AllocError> {
    let mut bytes = Vec::new(alloc);
    if let Some(held) = store.get(from) {
        bytes.extend_from_slice(held)?;
    }
    bytes.push(0)?;
    store.insert(to, &bytes)
}

/// Places the first bytes of a file under another name.
pub fn place_start(
    alloc: Global,
    store: &mut MemStore,
    from: &str,
    to: &str,
    size: usize,
) -> Result<(), AllocError> {
    let mut bytes = Vec::new(alloc);
    if let Some(held) = store.get(from) {
        bytes.extend_from_slice(&held[..size.min(held.len())])?;
    }
    store.insert(to, &bytes)
}
