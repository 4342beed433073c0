//! Nets evaluated through the whole program.
use crate::nets::{GIVEN_BACK, bare_net, both_net, given_net, sum_net};
use rx_codec::encode_net;
use rx_store::{MemSink, MemStore};
use rx_tests_kit::{first_wrong, has_length, no_files, place_changed, printed, run, was_printed};
use std::alloc::AllocError;
use std::test::Fail;
use std::thread::Threads;

/// A store with a client and a server key of `rx-test`, some nets and some numbers under encryption.
fn prepared<R: Threads + Sync + AllocGlobal>(rt: &R) -> Result<MemStore, Fail> {
    let alloc = rt.alloc();
    let mut store = no_files(alloc);
    store.insert("given", &GIVEN_BACK)?;
    store.insert("sum", &encode_net(alloc, &sum_net(alloc)?)?)?;
    store.insert("empty", &encode_net(alloc, &bare_net(alloc, 2, 0)?)?)?;
    store.insert("eight", &encode_net(alloc, &bare_net(alloc, 3, 0)?)?)?;
    store.insert("v", b"int a 2 3\n")?;
    store.insert("w", b"int a 4 7\n")?;
    store.insert("x", b"int b 4 6\nint c 8 1\n")?;
    store.insert("y", b"bit a 1 1\n")?;
    let lines = [
        "client rx-test Z c",
        "client rx-k2 Z k",
        "keygen c U s",
        "encrypt c U Z v a2",
        "encrypt c U Z w a4",
        "encrypt c Z U x bc",
        "encrypt c Z U y bit",
        "encrypt k Z U w wide",
    ];
    for line in lines {
        let _done = printed(rt, line, &mut store)?;
    }
    // A number whose noise tag is 2, and a net that takes it.
    place_changed(alloc, &mut store, "a2", "loud", 85, 2)?;
    place_changed(alloc, &mut store, "given", "bearing", 12, 2)?;
    Ok(store)
}

#[test]
fn a_net_has_one_file(rt: HostRuntime) -> Result<(), Fail> {
    let net = given_net(rt.alloc())?;
    assert_eq!(rt;
        encode_net(rt.alloc(), &net)?.as_slice(),
        GIVEN_BACK.as_slice()
    );
    Ok(())
}

#[test]
fn nets_are_evaluated(rt: HostRuntime) -> Result<(), Fail> {
    let mut store = prepared(&rt)?;
    let cases = [
        ("run s given 1 o a2", 0, "jobs 0\n"),
        ("decrypt c o", 0, "a 3\n"),
        ("run s bearing 1 o loud", 0, "jobs 0\n"),
        ("decrypt c o", 0, "a 3\n"),
        ("run s empty 64 none", 0, "jobs 0\n"),
        ("run s sum 1 o a4 bc", 0, "jobs 4\n"),
        ("decrypt c o", 0, "s 13\nt 1\n"),
        ("run s sum 7 o bc a4", 0, "jobs 4\n"),
        ("decrypt c o", 0, "s 13\nt 1\n"),
    ];
    assert_eq!(rt; first_wrong(&rt, &mut store, &cases)?, None);
    assert!(rt; has_length(&store, "none", 48));
    Ok(())
}

/// A number that is given back has the blocks that were given, byte for byte, also where its place is another one.
#[test]
fn given_blocks_are_not_changed(rt: HostRuntime) -> Result<(), Fail> {
    let alloc = rt.alloc();
    let mut store = prepared(&rt)?;
    store.insert("both", &encode_net(alloc, &both_net(alloc, false)?)?)?;
    store.insert("turned", &encode_net(alloc, &both_net(alloc, true)?)?)?;
    let cases = [
        ("run s given 1 one a2", 0, "jobs 0\n"),
        ("run s bearing 64 noisy loud", 0, "jobs 0\n"),
        ("run s turned 1 cb bc", 0, "jobs 0\n"),
        ("run s both 1 again cb", 0, "jobs 0\n"),
        ("expand a2 a2whole", 0, ""),
        ("expand loud loudwhole", 0, ""),
        ("expand bc bcwhole", 0, ""),
    ];
    assert_eq!(rt; first_wrong(&rt, &mut store, &cases)?, None);
    assert!(rt; has_length(&store, "one", 2110));
    assert!(rt; has_length(&store, "again", 12404));
    assert!(rt; store.get("one") == store.get("a2whole"));
    assert!(rt; store.get("noisy") == store.get("loudwhole"));
    assert!(rt; store.get("again") == store.get("bcwhole"));
    assert!(rt; store.get("cb") != store.get("bcwhole"));
    Ok(())
}

/// The status of the program for the words of a line, where the print of that number fails.
fn status_without_print<R: Threads + Sync + AllocGlobal>(
    rt: &R,
    line: &str,
    store: &mut MemStore,
    failing: u64,
) -> Result<u8, AllocError> {
    let alloc = rt.alloc();
    let mut sink = MemSink::new(alloc, vec![in alloc; failing]?);
    run(rt, line, store, &mut sink)
}

/// The first line that does not end with status 4 where its first print fails, or with 0 where its second would.
fn first_with_other_prints<R: Threads + Sync + AllocGlobal>(
    rt: &R,
    store: &mut MemStore,
    lines: &[&str],
) -> Result<Option<String>, AllocError> {
    for line in lines {
        let first = status_without_print(rt, line, store, 0)?;
        let second = status_without_print(rt, line, store, 1)?;
        if first != 4 || second != 0 {
            return Ok(Some(format!(in rt.alloc(); "{line}: {first} {second}")?));
        }
    }
    Ok(None)
}

#[test]
fn each_command_prints_once(rt: HostRuntime) -> Result<(), Fail> {
    let mut store = prepared(&rt)?;
    let lines = [
        "check rx-test",
        "client rx-test Z d",
        "keygen c U t",
        "encrypt c U Z v in",
        "run s given 1 o a2",
        "decrypt c a2",
        "expand a2 whole",
        "migrate U whole seeded",
    ];
    assert_eq!(rt; first_with_other_prints(&rt, &mut store, &lines)?, None);
    Ok(())
}

#[test]
fn what_does_not_fit_is_reported(rt: HostRuntime) -> Result<(), Fail> {
    let alloc = rt.alloc();
    let mut store = prepared(&rt)?;
    place_changed(alloc, &mut store, "given", "later", 23, 1)?;
    place_changed(alloc, &mut store, "given", "cut", 27, 0)?;
    place_changed(alloc, &mut store, "given", "quiet", 11, 2)?;
    let cases = [
        ("run none given 1 o a2", 3, ""),
        ("run s none 1 o a2", 3, ""),
        ("run s given 1 o none", 3, ""),
        ("run s given one o a2", 2, "usage\n"),
        ("run s given 01 o a2", 2, "usage\n"),
        ("run s given 1", 2, "usage\n"),
        ("run c given 1 o a2", 5, "malformed c magic\n"),
        ("run s a2 1 o a2", 5, "malformed a2 magic\n"),
        ("run s given 1 o a2 s", 5, "malformed s magic\n"),
        ("run s later 1 o a2", 5, "malformed later net output 0\n"),
        ("run s cut 1 o a2", 5, "malformed cut short 27 26\n"),
        ("run s eight 1 o", 7, "mismatch eight message_bits 2 3\n"),
        ("run s given 1 o wide", 7, "mismatch wide glwe_dim 1 2\n"),
        ("run s given 1 o", 8, "inputs a missing\n"),
        ("run s sum 1 o a4", 8, "inputs b missing\n"),
        ("run s sum 1 o a4 bc a4", 8, "inputs a twice\n"),
        ("run s sum 1 o a2 bc", 8, "inputs a form\n"),
        ("run s given 1 o bit", 8, "inputs a form\n"),
        ("run s quiet 1 o a2", 8, "inputs a degree 3 2\n"),
        ("run s given 1 o loud", 8, "inputs a noise 2 1\n"),
        ("run s given 0 o a2", 10, "limit workers 0\n"),
        ("run s given 65 o a2", 10, "limit workers 65\n"),
    ];
    assert_eq!(rt; first_wrong(&rt, &mut store, &cases)?, None);
    assert!(rt; store.get("o").is_none());
    Ok(())
}

#[test]
fn a_board_has_a_limit(rt: HostRuntime) -> Result<(), Fail> {
    let alloc = rt.alloc();
    let mut store = no_files(alloc);
    store.insert("n", &encode_net(alloc, &bare_net(alloc, 2, 65155)?)?)?;
    assert_eq!(rt; printed(&rt, "client rx-2-2 Z c", &mut store)?.0, 0);
    assert_eq!(rt; printed(&rt, "keygen c U s", &mut store)?.0, 0);
    assert!(rt; has_length(&store, "s", 417_868));
    let (answer, sink) = printed(&rt, "run s n 1 o", &mut store)?;
    assert_eq!(rt; answer, 10);
    assert!(rt; was_printed(&sink, "limit board 33554826\n"));
    Ok(())
}

#[test]
fn faults_stop_a_run(rt: HostRuntime) -> Result<(), Fail> {
    let alloc = rt.alloc();
    let made = prepared(&rt)?;
    for (failing, status) in [(0, 3), (1, 3), (2, 3), (3, 4), (4, 0)] {
        let mut store = MemStore::new(alloc, vec![in alloc; failing]?);
        for name in ["s", "given", "a2"] {
            if let Some(bytes) = made.get(name) {
                store.insert(name, bytes)?;
            }
        }
        let (answer, _sink) = printed(&rt, "run s given 1 o a2", &mut store)?;
        assert_eq!(rt; answer, status, "{failing}");
        assert_eq!(rt; store.get("o").is_some(), status == 0, "{failing}");
        assert!(rt; store.get("s") == made.get("s"), "{failing}");
    }
    Ok(())
}
