//! Files of both versions: `migrate` and `expand` over files in memory.
use rx_store::MemStore;
use rx_tests_kit::{
    first_wrong, has_length, no_files, place_changed, place_longer, place_start, word_at,
};
use std::process::Abort;
use std::test::Fail;
use std::thread::Threads;

/// The file of the net that gives one number of two bits back.
const NET: [u8; 27] = [
    0x52, 0x58, 0x4e, 0x31, 2, 1, 0, 1, 0x61, 0, 2, 3, 1, 0, 0, 0, 0, 1, 0, 1, 0x61, 0, 2, 0, 0, 0,
    0,
];

/// A store with a client, a server key and a ciphertext of `rx-test` as they are written, and in version 1.
fn both_versions<R: Threads + Sync + AllocGlobal + Abort>(rt: &R) -> Result<MemStore, Fail> {
    let mut store = no_files(rt.alloc());
    store.insert("v", b"int a 8 200\n")?;
    store.insert("none", b"")?;
    store.insert("n", &NET)?;
    store.insert("four", b"RXF1")?;
    let cases = [
        ("client rx-test Z c", 0, ""),
        ("keygen c U s", 0, ""),
        ("encrypt c U Z v e", 0, ""),
        ("encrypt c U Z none o", 0, ""),
        ("expand s s1", 0, ""),
        ("expand e e1", 0, ""),
        ("expand o o1", 0, ""),
    ];
    assert_eq!(rt; first_wrong(rt, &mut store, &cases)?, None);
    Ok(store)
}

#[test]
fn there_and_back(rt: HostRuntime) -> Result<(), Fail> {
    let mut store = both_versions(&rt)?;
    let cases = [
        ("migrate U s1 s2", 0, ""),
        ("migrate U e1 e2", 0, ""),
        ("migrate U o1 o2", 0, ""),
        ("decrypt c e", 0, "a 200\n"),
        ("decrypt c e1", 0, "a 200\n"),
        ("decrypt c o1", 0, ""),
        ("run s1 n 1 out", 8, "inputs a missing\n"),
    ];
    assert_eq!(rt; first_wrong(&rt, &mut store, &cases)?, None);
    assert!(rt; has_length(&store, "s1", 241_708));
    assert!(rt; has_length(&store, "s", 77_900));
    assert!(rt; has_length(&store, "e1", 8_284));
    assert!(rt; has_length(&store, "e", 124));
    assert!(rt; has_length(&store, "o1", 48));
    assert!(rt; has_length(&store, "o", 80));
    assert!(rt; store.get("s2") == store.get("s"));
    assert!(rt; store.get("e2") == store.get("e"));
    assert!(rt; store.get("o2") == store.get("o"));
    Ok(())
}

#[test]
fn files_that_are_not_migrated(rt: HostRuntime) -> Result<(), Fail> {
    let alloc = rt.alloc();
    let mut store = both_versions(&rt)?;
    let low = (word_at(&store, "e1", 54) % 256) as u8;
    place_changed(alloc, &mut store, "e1", "mask", 54, low ^ 1)?;
    place_changed(alloc, &mut store, "e1", "body", 2_102, 0)?;
    place_changed(alloc, &mut store, "e1", "cut", 8_284, 0)?;
    place_longer(alloc, &mut store, "e1", "long")?;
    place_changed(alloc, &mut store, "e1", "set", 4, 4)?;
    place_start(alloc, &mut store, "e1", "three", 3)?;
    place_changed(alloc, &mut store, "mask", "cutmask", 8_284, 0)?;
    let cases = [
        ("migrate U mask x", 12, "seed mask 54\n"),
        ("migrate Z e1 x", 12, "seed e1 54\n"),
        ("migrate Z s1 x", 12, "seed s1 44\n"),
        ("migrate Z cut x", 5, "malformed cut short 8284 8283\n"),
        (
            "migrate U cutmask x",
            5,
            "malformed cutmask short 8284 8283\n",
        ),
        ("migrate Z set x", 6, "refused limit message_bits 4\n"),
        ("migrate Z long x", 5, "malformed long long 1\n"),
        ("migrate U c x", 5, "malformed c magic\n"),
        ("migrate U n x", 5, "malformed n magic\n"),
        ("migrate U four x", 5, "malformed four magic\n"),
        ("migrate U three x", 5, "malformed three short 4 3\n"),
        ("migrate U none x", 5, "malformed none short 4 0\n"),
        ("migrate U e x", 5, "malformed e magic\n"),
        ("migrate U s x", 5, "malformed s magic\n"),
        ("migrate U missing x", 3, ""),
        ("migrate Z o1 y", 0, ""),
        ("migrate U body z", 0, ""),
    ];
    assert_eq!(rt; first_wrong(&rt, &mut store, &cases)?, None);
    assert!(rt; store.get("x").is_none());
    assert!(rt; has_length(&store, "y", 80));
    assert!(rt; has_length(&store, "z", 124));
    Ok(())
}

#[test]
fn files_that_are_not_expanded(rt: HostRuntime) -> Result<(), Fail> {
    let alloc = rt.alloc();
    let mut store = both_versions(&rt)?;
    place_changed(alloc, &mut store, "e", "cut", 124, 0)?;
    place_longer(alloc, &mut store, "s", "long")?;
    place_start(alloc, &mut store, "e", "three", 3)?;
    let cases = [
        ("expand e1 x", 5, "malformed e1 magic\n"),
        ("expand s1 x", 5, "malformed s1 magic\n"),
        ("expand c x", 5, "malformed c magic\n"),
        ("expand n x", 5, "malformed n magic\n"),
        ("expand four x", 5, "malformed four magic\n"),
        ("expand three x", 5, "malformed three short 4 3\n"),
        ("expand cut x", 5, "malformed cut short 124 123\n"),
        ("expand long x", 5, "malformed long long 1\n"),
        ("expand missing x", 3, ""),
    ];
    assert_eq!(rt; first_wrong(&rt, &mut store, &cases)?, None);
    assert!(rt; store.get("x").is_none());
    Ok(())
}
