//! Files of a server that have not their format: each cause, and the place that is reported.
use crate::nets::{GIVEN_BACK, sum_net};
use crate::tables::{CUT_NETS, FIELDS_OF_NETS, KEYS, NETS, SEEDED_KEYS};
use rx_codec::encode_net;
use rx_store::MemStore;
use rx_tests_kit::{first_wrong, first_wrong_change, has_length, no_files};
use std::process::Abort;
use std::test::Fail;
use std::thread::Threads;

/// A store with a server key of `rx-test` in both versions, the net of a sum, and one that gives a number back.
fn whole_files<R: Threads + Sync + AllocGlobal + Abort>(rt: &R) -> Result<MemStore, Fail> {
    let alloc = rt.alloc();
    let mut store = no_files(alloc);
    store.insert("given", &GIVEN_BACK)?;
    store.insert("sum", &encode_net(alloc, &sum_net(alloc)?)?)?;
    let lines = [
        ("client rx-test Z c", 0, ""),
        ("keygen c U seeded", 0, ""),
        ("expand seeded key", 0, ""),
    ];
    assert_eq!(rt; first_wrong(rt, &mut store, &lines)?, None);
    assert!(rt; has_length(&store, "sum", 170));
    Ok(store)
}

#[test]
fn server_files(rt: HostRuntime) -> Result<(), Fail> {
    let mut store = whole_files(&rt)?;
    let wrong = first_wrong_change(&rt, &mut store, "key", "run x given 1 y", KEYS)?;
    assert_eq!(rt; wrong, None);
    let wrong = first_wrong_change(&rt, &mut store, "seeded", "run x given 1 y", SEEDED_KEYS)?;
    assert_eq!(rt; wrong, None);
    assert!(rt; store.get("y").is_none());
    Ok(())
}

#[test]
fn net_files(rt: HostRuntime) -> Result<(), Fail> {
    let mut store = whole_files(&rt)?;
    for rows in [FIELDS_OF_NETS, NETS, CUT_NETS] {
        let wrong = first_wrong_change(&rt, &mut store, "sum", "fold x y", rows)?;
        assert_eq!(rt; wrong, None);
    }
    let wrong = first_wrong_change(&rt, &mut store, "sum", "run seeded x 1 y", NETS)?;
    assert_eq!(rt; wrong, None);
    assert!(rt; store.get("y").is_none());
    Ok(())
}
