//! Files that have not their format: each cause, and the place that is reported.
use crate::tables::{CLIENTS, NUMBERS, SEEDED, SET_TEXTS, SETS, VALUE_TEXTS, WHOLE_SETS};
use crate::texts::{bits_and, set_text};
use rx_store::MemStore;
use rx_tests_kit::{first_wrong, first_wrong_change, first_wrong_file, no_files};
use std::alloc::AllocError;
use std::process::Abort;
use std::test::Fail;
use std::thread::Threads;

/// A store with a client of `rx-test`, a number and a bit under encryption in both versions, and a parameter text.
fn whole_files<R: Threads + Sync + AllocGlobal + Abort>(rt: &R) -> Result<MemStore, Fail> {
    let mut store = no_files(rt.alloc());
    let text = set_text(rt.alloc(), &[2, 1, 256, 8, 12, 2, 4, 6, 17, 20])?;
    store.insert("p", text.as_bytes())?;
    store.insert("v", b"int a 8 200\nbit b 1 1\n")?;
    let lines = [
        ("client p Z c", 0, ""),
        ("encrypt c U Z v seeded", 0, ""),
        ("expand seeded numbers", 0, ""),
        ("decrypt c numbers", 0, "a 200\nb 1\n"),
    ];
    assert_eq!(rt; first_wrong(rt, &mut store, &lines)?, None);
    Ok(store)
}

#[test]
fn client_files(rt: HostRuntime) -> Result<(), Fail> {
    let mut store = whole_files(&rt)?;
    let wrong = first_wrong_change(&rt, &mut store, "c", "keygen x U y", CLIENTS)?;
    assert_eq!(rt; wrong, None);
    let wrong = first_wrong_change(&rt, &mut store, "c", "encrypt x U Z v y", CLIENTS)?;
    assert_eq!(rt; wrong, None);
    assert!(rt; store.get("y").is_none());
    Ok(())
}

#[test]
fn ciphertext_files(rt: HostRuntime) -> Result<(), Fail> {
    let mut store = whole_files(&rt)?;
    let wrong = first_wrong_change(&rt, &mut store, "numbers", "decrypt c x", NUMBERS)?;
    assert_eq!(rt; wrong, None);
    let wrong = first_wrong_change(&rt, &mut store, "numbers", "migrate U x y", NUMBERS)?;
    assert_eq!(rt; wrong, None);
    assert!(rt; store.get("y").is_none());
    Ok(())
}

#[test]
fn seeded_ciphertext_files(rt: HostRuntime) -> Result<(), Fail> {
    let mut store = whole_files(&rt)?;
    let wrong = first_wrong_change(&rt, &mut store, "seeded", "decrypt c x", SEEDED)?;
    assert_eq!(rt; wrong, None);
    Ok(())
}

/// The first set that is accepted or refused for another reason, with what was said of it.
fn first_wrong_set<R: Threads + Sync + AllocGlobal>(
    rt: &R,
    rows: &[([u32; 10], &str)],
) -> Result<Option<String>, AllocError> {
    let mut store = no_files(rt.alloc());
    for (numbers, report) in rows {
        let text = set_text(rt.alloc(), numbers)?;
        let row = [(text.as_str(), 6, *report)];
        if let Some(given) = first_wrong_file(rt, &mut store, "client x Z y", &row)? {
            return Ok(Some(given));
        }
    }
    Ok(None)
}

#[test]
fn sets_that_are_not_accepted(rt: HostRuntime) -> Result<(), Fail> {
    assert_eq!(rt; first_wrong_set(&rt, SETS)?, None);
    Ok(())
}

#[test]
fn parameter_texts(rt: HostRuntime) -> Result<(), Fail> {
    let mut store = whole_files(&rt)?;
    assert_eq!(rt;
        first_wrong_file(&rt, &mut store, "check x", SET_TEXTS)?,
        None
    );
    let wrong = first_wrong_change(&rt, &mut store, "p", "check x", WHOLE_SETS)?;
    assert_eq!(rt; wrong, None);
    Ok(())
}

#[test]
fn value_files(rt: HostRuntime) -> Result<(), Fail> {
    let mut store = whole_files(&rt)?;
    let wrong = first_wrong_file(&rt, &mut store, "encrypt c U Z x y", VALUE_TEXTS)?;
    assert_eq!(rt; wrong, None);
    assert!(rt; store.get("y").is_none());
    Ok(())
}

/// Line 65 of a value file has its own fault first, and is too many where it has none.
#[test]
fn long_value_files(rt: HostRuntime) -> Result<(), Fail> {
    let mut store = whole_files(&rt)?;
    let rows = [
        ("bit c 1 0\n", "malformed x line 65 limit\n"),
        ("bit b0 1 0\n", "malformed x line 65 again\n"),
        ("bit c 1 2\n", "malformed x line 65 number\n"),
        ("bit c 1 0", "malformed x line 65 form\n"),
        ("\n", "malformed x line 65 form\n"),
    ];
    for (rest, report) in rows {
        let text = bits_and(rt.alloc(), 64, rest)?;
        let row = [(text.as_str(), 5, report)];
        let wrong = first_wrong_file(&rt, &mut store, "encrypt c U Z x y", &row)?;
        assert_eq!(rt; wrong, None);
    }
    let text = bits_and(rt.alloc(), 64, "")?;
    let row = [(text.as_str(), 0, "")];
    let wrong = first_wrong_file(&rt, &mut store, "encrypt c U Z x y", &row)?;
    assert_eq!(rt; wrong, None);
    Ok(())
}
