//! Server keys, through the whole program.
use crate::nets::GIVEN_BACK;
use rx_store::MemStore;
use rx_tests_kit::{
    first_wrong, has_length, no_files, place_changed, place_longer, place_start, printed,
    was_printed,
};
use std::test::Fail;

#[test]
fn a_server_key_is_written(rt: HostRuntime) -> Result<(), Fail> {
    let alloc = rt.alloc();
    let mut store = no_files(alloc);
    assert_eq!(rt; printed(&rt, "client rx-test Z c", &mut store)?.0, 0);
    place_changed(alloc, &mut store, "c", "cut", 76, 0)?;
    place_longer(alloc, &mut store, "c", "long")?;
    place_changed(alloc, &mut store, "c", "magic", 3, b'2')?;
    place_changed(alloc, &mut store, "c", "bits", 4, 4)?;
    place_changed(alloc, &mut store, "c", "size", 12, 100)?;
    let cases = [
        ("keygen c U s", 0, ""),
        ("keygen cut U t", 5, "malformed cut short 76 75\n"),
        ("keygen long U t", 5, "malformed long long 1\n"),
        ("keygen magic U t", 5, "malformed magic magic\n"),
        ("keygen bits U t", 6, "refused limit message_bits 4\n"),
        ("keygen size U t", 6, "refused limit poly_size 356\n"),
        ("keygen none U t", 3, ""),
        ("keygen c 1 t", 2, "usage\n"),
        ("keygen c U", 2, "usage\n"),
        ("decrypt c s", 5, "malformed s magic\n"),
    ];
    assert_eq!(rt; first_wrong(&rt, &mut store, &cases)?, None);
    assert!(rt; has_length(&store, "s", 77_900));
    assert!(rt; store.get("t").is_none());
    Ok(())
}

#[test]
fn faults_stop_the_making_of_a_key(rt: HostRuntime) -> Result<(), Fail> {
    let alloc = rt.alloc();
    let mut made = no_files(alloc);
    assert_eq!(rt; printed(&rt, "client rx-test Z c", &mut made)?.0, 0);
    let Some(client) = made.get("c") else {
        panic!(rt; "a client file");
    };
    for (failing, status) in [(0, 3), (1, 4), (2, 0)] {
        let mut store = MemStore::new(alloc, vec![in alloc; failing]?);
        store.insert("c", client)?;
        let (answer, sink) = printed(&rt, "keygen c U s", &mut store)?;
        assert_eq!(rt; answer, status, "{failing}");
        assert!(rt; was_printed(&sink, ""), "{failing}");
        assert_eq!(rt; store.get("s").is_some(), status == 0, "{failing}");
    }
    Ok(())
}

#[test]
fn a_server_file_is_short_wherever_it_is_cut(rt: HostRuntime) -> Result<(), Fail> {
    let alloc = rt.alloc();
    let mut store = no_files(alloc);
    store.insert("given", &GIVEN_BACK)?;
    assert_eq!(rt; printed(&rt, "client rx-test Z c", &mut store)?.0, 0);
    assert_eq!(rt; printed(&rt, "keygen c U s", &mut store)?.0, 0);
    for size in 0..78 {
        place_start(alloc, &mut store, "s", "x", size)?;
        let need = match size {
            0..44 => size / 4 * 4 + 4,
            44..76 => 76,
            _ => 77_900,
        };
        let text = format!(in alloc; "malformed x short {need} {size}\n")?;
        let (answer, sink) = printed(&rt, "run x given 1 o", &mut store)?;
        assert_eq!(rt; answer, 5, "{text}");
        assert!(rt; was_printed(&sink, text.as_str()), "{text}");
    }
    Ok(())
}
