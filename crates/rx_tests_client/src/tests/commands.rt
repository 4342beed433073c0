//! The client's commands over files in memory: what they write and print, and what they refuse.
use crate::texts::{small_bits, widths};
use crate::too_long_store::TooLongStore;
use rx_store::{MemSink, MemStore, ReadError, Store};
use rx_tests_kit::{
    first_wrong, has_length, holds, no_files, place_changed, place_longer, place_start, printed,
    run, was_printed, word_at,
};
use std::alloc::{AllocError, Global};
use std::process::Abort;
use std::test::Fail;
use std::thread::Threads;

/// The client file of `rx-test` with a seed of zeros.
const CLIENT: [u8; 76] = [
    0x52, 0x58, 0x43, 0x31, 2, 0, 0, 0, 1, 0, 0, 0, 0, 1, 0, 0, 8, 0, 0, 0, 12, 0, 0, 0, 2, 0, 0,
    0, 4, 0, 0, 0, 6, 0, 0, 0, 0x11, 0, 0, 0, 0x14, 0, 0, 0, 0, 0, 0, 0, 0, 0, 0, 0, 0, 0, 0, 0, 0,
    0, 0, 0, 0, 0, 0, 0, 0, 0, 0, 0, 0, 0, 0, 0, 0, 0, 0, 0,
];

/// A store of parameter texts: `rx-2-2` with other numbers of small key bits, and three that are malformed. One file
/// has the name of a set.
fn set_files(alloc: Global) -> Result<MemStore, AllocError> {
    let mut store = no_files(alloc);
    store.insert("n26", small_bits(alloc, 26)?.as_bytes())?;
    store.insert("n27", small_bits(alloc, 27)?.as_bytes())?;
    store.insert("n31", small_bits(alloc, 31)?.as_bytes())?;
    store.insert("n1025", small_bits(alloc, 1025)?.as_bytes())?;
    store.insert("rx-test", b"not read")?;
    store.insert("cut", b"message_bits 2\nglwe_dim 1")?;
    store.insert("zero", b"message_bits 02\n")?;
    store.insert("big", b"message_bits 4294967296\n")?;
    Ok(store)
}

#[test]
fn words_that_are_no_command(rt: HostRuntime) -> Result<(), Fail> {
    let mut store = set_files(rt.alloc())?;
    let cases = [
        ("", 2, "usage\n"),
        ("check", 2, "usage\n"),
        ("trip rx-test", 2, "usage\n"),
        ("client rx-test 00 c", 2, "usage\n"),
        ("migrate U c", 2, "usage\n"),
        ("migrate 00 c d", 2, "usage\n"),
        ("expand c", 2, "usage\n"),
    ];
    assert_eq!(rt; first_wrong(&rt, &mut store, &cases)?, None);
    assert!(rt; store.get("c").is_none());
    Ok(())
}

#[test]
fn malformed_sets_are_reported(rt: HostRuntime) -> Result<(), Fail> {
    let mut store = set_files(rt.alloc())?;
    let cases = [
        ("check cut", 5, "malformed cut line 2 form\n"),
        ("check zero", 5, "malformed zero line 1 form\n"),
        ("check big", 5, "malformed big line 1 number\n"),
        ("check none", 3, ""),
    ];
    assert_eq!(rt; first_wrong(&rt, &mut store, &cases)?, None);
    Ok(())
}

#[test]
fn sets_are_checked(rt: HostRuntime) -> Result<(), Fail> {
    let mut store = set_files(rt.alloc())?;
    let cases = [
        (
            "check rx-2-2",
            0,
            "step 282574488338432\nboot 6781787720122368\nswitch 281500746514432\nround 225179981368524800\nleft 259370420715651072\nright 288230376151711744\naccepted\n",
        ),
        (
            "check n27",
            6,
            "refused noise 290630635804950528 288230376151711744\n",
        ),
        (
            "check n31",
            6,
            "refused noise 332310922590683136 288230376151711744\n",
        ),
        ("check n1025", 6, "refused limit lwe_dim 1025\n"),
        (
            "client n27 Z c",
            6,
            "refused noise 290630635804950528 288230376151711744\n",
        ),
    ];
    assert_eq!(rt; first_wrong(&rt, &mut store, &cases)?, None);
    let (answer, _sink) = printed(&rt, "check n26", &mut store)?;
    assert_eq!(rt; answer, 0);
    let (answer, _sink) = printed(&rt, "check rx-test", &mut store)?;
    assert_eq!(rt; answer, 0);
    assert!(rt; store.get("c").is_none());
    Ok(())
}

/// A store with clients of `rx-test` and of `rx-k2`, value files, and the numbers of some under encryption.
fn encrypted<R: Threads + Sync + AllocGlobal + Abort>(rt: &R) -> Result<MemStore, Fail> {
    let mut store = no_files(rt.alloc());
    store.insert("v", b"int a 8 200\n")?;
    store.insert("w", b"int a 8 203\n")?;
    store.insert("odd", b"int a 8 1\nint b 9 1\n")?;
    store.insert("open", b"int a 8 200")?;
    store.insert(
        "all",
        b"int a 2 3\nbit b 1 1\nint c 64 18446744073709551615\nbit d 1 0\nint e 6 41\n",
    )?;
    let cases = [
        ("client rx-test Z c", 0, ""),
        ("client rx-k2 Z k", 0, ""),
        ("encrypt c U Z v out", 0, ""),
        ("encrypt c U Z w other", 0, ""),
        ("encrypt c U Z all many", 0, ""),
        ("encrypt k Z U all wide", 0, ""),
    ];
    assert_eq!(rt; first_wrong(rt, &mut store, &cases)?, None);
    Ok(store)
}

#[test]
fn numbers_are_encrypted_and_read(rt: HostRuntime) -> Result<(), Fail> {
    let mut store = encrypted(&rt)?;
    assert!(rt; holds(&store, "c", &CLIENT));
    assert!(rt; has_length(&store, "out", 124));
    let many = "a 3\nb 1\nc 18446744073709551615\nd 0\ne 41\n";
    let cases = [
        ("decrypt c out", 0, "a 200\n"),
        ("decrypt c many", 0, many),
        ("decrypt k wide", 0, many),
    ];
    assert_eq!(rt; first_wrong(&rt, &mut store, &cases)?, None);
    Ok(())
}

#[test]
fn ciphertext_files_that_are_not_read(rt: HostRuntime) -> Result<(), Fail> {
    let alloc = rt.alloc();
    let mut store = encrypted(&rt)?;
    place_changed(alloc, &mut store, "out", "short", 124, 0)?;
    place_longer(alloc, &mut store, "out", "long")?;
    place_changed(alloc, &mut store, "out", "magic", 3, b'3')?;
    place_changed(alloc, &mut store, "out", "items", 76, 65)?;
    place_changed(alloc, &mut store, "out", "bits", 83, 7)?;
    place_changed(alloc, &mut store, "other", "lowered", 84, 2)?;
    let cases = [
        ("decrypt c short", 5, "malformed short short 124 123\n"),
        ("decrypt c long", 5, "malformed long long 1\n"),
        ("decrypt c magic", 5, "malformed magic magic\n"),
        ("decrypt c items", 5, "malformed items field 76\n"),
        ("decrypt c bits", 5, "malformed bits field 83\n"),
        ("decrypt c lowered", 9, "damaged a 0 3 2\n"),
        ("decrypt k out", 7, "mismatch out glwe_dim 2 1\n"),
        ("decrypt out c", 5, "malformed out magic\n"),
    ];
    assert_eq!(rt; first_wrong(&rt, &mut store, &cases)?, None);
    Ok(())
}

#[test]
fn numbers_that_are_not_encrypted(rt: HostRuntime) -> Result<(), Fail> {
    let mut store = encrypted(&rt)?;
    let cases = [
        ("encrypt c U Z odd x", 8, "inputs b width 9\n"),
        ("encrypt c U Z open x", 5, "malformed open line 1 form\n"),
        ("encrypt v U Z v x", 5, "malformed v magic\n"),
        ("encrypt c U Z missing x", 3, ""),
    ];
    assert_eq!(rt; first_wrong(&rt, &mut store, &cases)?, None);
    assert!(rt; store.get("x").is_none());
    Ok(())
}

/// The first mask word and the body of each block, from another implementation of the streams and the format.
#[test]
fn the_words_are_those_of_another_program(rt: HostRuntime) -> Result<(), Fail> {
    let mut store = no_files(rt.alloc());
    store.insert("c", &CLIENT)?;
    store.insert("v", b"int a 8 200\n")?;
    assert_eq!(rt; printed(&rt, "encrypt c U Z v out", &mut store)?.0, 0);
    assert_eq!(rt; printed(&rt, "expand out whole", &mut store)?.0, 0);
    let words = [
        (54, 13646447045964076593),
        (2102, 2387595709872607584),
        (2112, 18311407463645932579),
        (4160, 16510771683255989867),
        (4170, 9341919343576083410),
        (6218, 6655520408858911867),
        (6228, 14886881829259160530),
        (8276, 14551711130222879012),
    ];
    for (place, word) in words {
        assert_eq!(rt; word_at(&store, "whole", place), word, "{place}");
    }
    let bodies = [
        (86, 2387595709872607584),
        (96, 16510771683255989867),
        (106, 6655520408858911867),
        (116, 14551711130222879012),
    ];
    for (place, word) in bodies {
        assert_eq!(rt; word_at(&store, "out", place), word, "{place}");
    }
    Ok(())
}

#[test]
fn faults_stop_a_command(rt: HostRuntime) -> Result<(), Fail> {
    let alloc = rt.alloc();
    let line = "encrypt c U Z v out";
    for (failing, status) in [(0, 3), (1, 3), (2, 4), (3, 0)] {
        let mut store = MemStore::new(alloc, vec![in alloc; failing]?);
        store.insert("c", &CLIENT)?;
        store.insert("v", b"int a 8 200\n")?;
        let (answer, sink) = printed(&rt, line, &mut store)?;
        assert_eq!(rt; answer, status, "{failing}");
        assert!(rt; was_printed(&sink, ""), "{failing}");
        assert!(rt; holds(&store, "c", &CLIENT), "{failing}");
        assert_eq!(rt; store.get("out").is_some(), status == 0, "{failing}");
    }
    let mut store = no_files(alloc);
    let mut sink = MemSink::new(alloc, vec![in alloc; 0]?);
    assert_eq!(rt; run(&rt, "check rx-test", &mut store, &mut sink)?, 4);
    assert!(rt; was_printed(&sink, ""));
    let mut sink = MemSink::new(alloc, vec![in alloc; 0]?);
    assert_eq!(rt; run(&rt, "check", &mut store, &mut sink)?, 2);
    assert!(rt; was_printed(&sink, ""));
    let mut sink = MemSink::new(alloc, Vec::new(alloc));
    assert_eq!(rt;
        run(&rt, "decrypt c out", &mut TooLongStore, &mut sink)?,
        10
    );
    assert!(rt; was_printed(&sink, "limit file c 536870913\n"));
    let mut sink = MemSink::new(alloc, Vec::new(alloc));
    assert_eq!(rt;
        run(&rt, "client rx-test Z c", &mut TooLongStore, &mut sink)?,
        11
    );
    assert!(rt; was_printed(&sink, ""));
    Ok(())
}

/// A file is written whole before anything is printed.
#[test]
fn a_failed_print_leaves_the_whole_file(rt: HostRuntime) -> Result<(), Fail> {
    let alloc = rt.alloc();
    let mut store = encrypted(&rt)?;
    let mut sink = MemSink::new(alloc, vec![in alloc; 0]?);
    assert_eq!(rt; run(&rt, "encrypt c U Z v x", &mut store, &mut sink)?, 4);
    assert!(rt; has_length(&store, "x", 124));
    assert!(rt; store.get("x") == store.get("out"));
    Ok(())
}

/// The first line that does not end with the status beside it where the call of that number alone fails, or after whose
/// status 0 the next call is not the one that fails. Its store holds a client, values, a parameter text and a ciphertext.
fn first_wrong_after_a_fault<R: Threads + Sync + AllocGlobal>(
    rt: &R,
    ciphertext: &[u8],
    cases: &[(&str, u64, u8)],
) -> Result<Option<String>, AllocError> {
    let alloc = rt.alloc();
    for (line, failing, status) in cases {
        let mut store = MemStore::new(alloc, vec![in alloc; *failing]?);
        store.insert("c", &CLIENT)?;
        store.insert("v", b"int a 8 200\n")?;
        store.insert("p", small_bits(alloc, 26)?.as_bytes())?;
        store.insert("out", ciphertext)?;
        let (answer, _sink) = printed(rt, line, &mut store)?;
        let next_fails = match store.read(alloc, "c", 76) {
            Err(ReadError::Failed) => true,
            _ => false,
        };
        if answer != *status || (*status == 0 && !next_fails) {
            return Ok(Some(format!(in alloc; "{line}: {failing} {answer}")?));
        }
    }
    Ok(None)
}

/// A command calls the store once for each of its own files, reads before writes, and never else.
#[test]
fn no_other_call_is_made(rt: HostRuntime) -> Result<(), Fail> {
    let mut store = no_files(rt.alloc());
    store.insert("c", &CLIENT)?;
    store.insert("v", b"int a 8 200\n")?;
    assert_eq!(rt; printed(&rt, "encrypt c U Z v out", &mut store)?.0, 0);
    let cases = [
        ("check rx-test", 0, 0),
        ("check p", 0, 3),
        ("check p", 1, 0),
        ("client rx-test Z k", 0, 4),
        ("client rx-test Z k", 1, 0),
        ("client p Z k", 0, 3),
        ("client p Z k", 1, 4),
        ("client p Z k", 2, 0),
        ("encrypt c U Z v k", 0, 3),
        ("encrypt c U Z v k", 1, 3),
        ("encrypt c U Z v k", 2, 4),
        ("encrypt c U Z v k", 3, 0),
        ("decrypt c out", 0, 3),
        ("decrypt c out", 1, 3),
        ("decrypt c out", 2, 0),
        ("migrate U out k", 0, 3),
        ("migrate U out k", 1, 5),
        ("expand out k", 0, 3),
        ("expand out k", 1, 4),
        ("expand out k", 2, 0),
    ];
    let ciphertext = store.get("out").unwrap_or(&[]);
    assert_eq!(rt; first_wrong_after_a_fault(&rt, ciphertext, &cases)?, None);
    Ok(())
}

#[test]
fn a_field_out_of_range_is_reported(rt: HostRuntime) -> Result<(), Fail> {
    let alloc = rt.alloc();
    let mut store = no_files(alloc);
    store.insert("c", &CLIENT)?;
    store.insert("v", b"int a 8 200\nbit b 1 1\n")?;
    let lines = [
        ("encrypt c U Z v seeded", 0, ""),
        ("expand seeded out", 0, ""),
    ];
    assert_eq!(rt; first_wrong(&rt, &mut store, &lines)?, None);
    let cases = [
        (0, 0, 5, "malformed x magic\n"),
        (4, 4, 6, "refused limit message_bits 4\n"),
        (12, 100, 6, "refused limit poly_size 356\n"),
        (36, 41, 6, "refused limit glwe_bound 41\n"),
        (44, 65, 5, "malformed x field 44\n"),
        (44, 3, 5, "malformed x short 10347 10346\n"),
        (44, 1, 5, "malformed x long 2062\n"),
        (48, 0, 5, "malformed x field 48\n"),
        (48, 33, 5, "malformed x field 48\n"),
        (49, 65, 5, "malformed x field 49\n"),
        (50, 2, 5, "malformed x field 50\n"),
        (50, 1, 5, "malformed x field 51\n"),
        (51, 0, 5, "malformed x field 51\n"),
        (51, 7, 5, "malformed x field 51\n"),
        (51, 66, 5, "malformed x field 51\n"),
        (52, 4, 5, "malformed x field 52\n"),
        (53, 0, 5, "malformed x field 53\n"),
        (53, 6, 5, "malformed x field 53\n"),
        (8285, 97, 5, "malformed x field 8285\n"),
        (8287, 2, 5, "malformed x field 8287\n"),
        (8288, 2, 5, "malformed x field 8288\n"),
    ];
    for (place, byte, status, text) in cases {
        place_changed(alloc, &mut store, "out", "x", place, byte)?;
        let (answer, sink) = printed(&rt, "decrypt c x", &mut store)?;
        assert_eq!(rt; answer, status, "{text}");
        assert!(rt; was_printed(&sink, text), "{place} {byte} {text}");
    }
    Ok(())
}

#[test]
fn a_file_is_short_wherever_it_is_cut(rt: HostRuntime) -> Result<(), Fail> {
    let alloc = rt.alloc();
    let mut store = no_files(alloc);
    store.insert("c", &CLIENT)?;
    store.insert("v", b"")?;
    let lines = [
        ("encrypt c U Z v seeded", 0, ""),
        ("expand seeded out", 0, ""),
    ];
    assert_eq!(rt; first_wrong(&rt, &mut store, &lines)?, None);
    assert!(rt; has_length(&store, "out", 48));
    for (whole, length) in [("out", 48), ("c", 76)] {
        for size in 0..length {
            place_start(alloc, &mut store, whole, "x", size)?;
            let need = if size < 44 { size / 4 * 4 + 4 } else { length };
            let line = if whole == "c" {
                "decrypt x out"
            } else {
                "decrypt c x"
            };
            let text = format!(in alloc; "malformed x short {need} {size}\n")?;
            let (answer, sink) = printed(&rt, line, &mut store)?;
            assert_eq!(rt; answer, 5, "{text}");
            assert!(rt; was_printed(&sink, text.as_str()), "{text}");
        }
    }
    Ok(())
}

#[test]
fn every_width_comes_back(rt: HostRuntime) -> Result<(), Fail> {
    let alloc = rt.alloc();
    for (set, step) in [("rx-2-2", 2), ("rx-test", 2), ("rx-k2", 2), ("rx-3-3", 3)] {
        let mut store = no_files(alloc);
        store.insert("v", widths(alloc, step, "int i", " ")?.as_bytes())?;
        let line = format!(in alloc; "client {set} U c")?;
        assert_eq!(rt; printed(&rt, line.as_str(), &mut store)?.0, 0, "{set}");
        assert_eq!(rt;
            printed(&rt, "encrypt c Z U v out", &mut store)?.0,
            0,
            "{set}"
        );
        let (status, sink) = printed(&rt, "decrypt c out", &mut store)?;
        assert_eq!(rt; status, 0, "{set}");
        let lines = widths(alloc, step, "i", "")?;
        assert!(rt; was_printed(&sink, lines.as_str()), "{set}");
    }
    Ok(())
}
