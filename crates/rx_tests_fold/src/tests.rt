//! Nets that are folded: what is left of them, what they give, and what stops `fold`.
use crate::files::{GIVEN_BACK, circuits, nets};
use rx_store::{MemSink, MemStore};
use rx_tests_kit::{first_wrong, holds, printed, run, was_printed};
use std::alloc::AllocError;
use std::test::Fail;
use std::thread::Threads;

#[test]
fn of_four_jobs_two_are_left(rt: HostRuntime) -> Result<(), Fail> {
    let mut store = nets(rt.alloc())?;
    let cases = [
        ("fold four once", 0, "jobs 2 depth 2\n"),
        ("fold once again", 0, "jobs 2 depth 2\n"),
        ("fold back same", 0, "jobs 0 depth 0\n"),
    ];
    assert_eq!(rt; first_wrong(&rt, &mut store, &cases)?, None);
    assert!(rt; store.get("once") == store.get("two"));
    assert!(rt; store.get("again") == store.get("two"));
    assert!(rt; holds(&store, "same", &GIVEN_BACK));
    Ok(())
}

/// The value 3 under encryption goes through both nets to 2, by one file.
#[test]
fn a_run_writes_the_same_file(rt: HostRuntime) -> Result<(), Fail> {
    let mut store = nets(rt.alloc())?;
    let cases = [
        ("fold four once", 0, "jobs 2 depth 2\n"),
        ("client rx-test Z c", 0, ""),
        ("keygen c U s", 0, ""),
        ("encrypt c U Z v i", 0, ""),
        ("run s four 2 before i", 0, "jobs 4\n"),
        ("run s once 1 after i", 0, "jobs 2\n"),
        ("decrypt c after", 0, "s 2\n"),
    ];
    assert_eq!(rt; first_wrong(&rt, &mut store, &cases)?, None);
    assert!(rt; store.get("before").is_some());
    assert!(rt; store.get("before") == store.get("after"));
    Ok(())
}

/// What `fold` prints of the net of a circuit, of which it writes the file `folded.NAME`; and whether it printed the
/// same as `compile`.
fn folded<R: Threads + Sync + AllocGlobal>(
    rt: &R,
    store: &mut MemStore,
    circuit: &str,
) -> Result<(MemSink, bool), AllocError> {
    let alloc = rt.alloc();
    let compile = format!(in alloc; "compile {circuit} net.{circuit}")?;
    let fold = format!(in alloc; "fold net.{circuit} folded.{circuit}")?;
    let (_compiled, before) = printed(rt, &compile, store)?;
    let (_folded, after) = printed(rt, &fold, store)?;
    let is_same = before.bytes() == after.bytes();
    Ok((after, is_same))
}

/// Of a sum that is computed twice one is left, and of a product that no output gives nothing: what is left are the
/// jobs of the sum alone.
#[test]
fn jobs_that_are_not_needed_are_left_out(rt: HostRuntime) -> Result<(), Fail> {
    let mut store = circuits(rt.alloc())?;
    let (once, is_same) = folded(&rt, &mut store, "once")?;
    assert!(rt; is_same);
    assert!(rt; once.bytes().starts_with(b"jobs "));
    for circuit in ["twice", "idle"] {
        let (line, is_same) = folded(&rt, &mut store, circuit)?;
        assert!(rt; !is_same, "{circuit}");
        assert_eq!(rt; line.bytes(), once.bytes(), "{circuit}");
    }
    assert!(rt; store.get("folded.once").is_some());
    assert!(rt; store.get("folded.idle") == store.get("folded.once"));
    Ok(())
}

/// 13 and 9 are 22, of which four bits leave 6.
#[test]
fn folded_nets_keep_the_values(rt: HostRuntime) -> Result<(), Fail> {
    let mut store = circuits(rt.alloc())?;
    let lines = [
        "client rx-test Z c",
        "keygen c U s",
        "encrypt c U Z v i",
        "compile twice t",
        "fold t ft",
        "compile idle d",
        "fold d fd",
        "run s t 3 given.t i",
        "run s ft 2 given.ft i",
        "run s d 1 given.d i",
        "run s fd 4 given.fd i",
    ];
    for line in lines {
        let (status, _sink) = printed(&rt, line, &mut store)?;
        assert_eq!(rt; status, 0, "{line}");
    }
    let cases = [
        ("decrypt c given.ft", 0, "s 6\nt 6\n"),
        ("decrypt c given.fd", 0, "s 6\n"),
    ];
    assert_eq!(rt; first_wrong(&rt, &mut store, &cases)?, None);
    assert!(rt; store.get("given.t") == store.get("given.ft"));
    assert!(rt; store.get("given.d") == store.get("given.fd"));
    Ok(())
}

#[test]
fn bad_files_are_refused(rt: HostRuntime) -> Result<(), Fail> {
    let mut store = nets(rt.alloc())?;
    let cases = [
        ("fold four", 2, "usage\n"),
        ("fold four o more", 2, "usage\n"),
        ("fold nothing o", 3, ""),
        ("fold v o", 5, "malformed v magic\n"),
        ("fold empty o", 5, "malformed empty short 4 0\n"),
        ("fold cut o", 5, "malformed cut short 27 26\n"),
        ("fold late o", 5, "malformed late net forward 1\n"),
    ];
    assert_eq!(rt; first_wrong(&rt, &mut store, &cases)?, None);
    assert!(rt; store.get("o").is_none());
    Ok(())
}

/// The first call on the store is the read, and the second the write.
#[test]
fn a_failing_call_stops_it(rt: HostRuntime) -> Result<(), Fail> {
    let alloc = rt.alloc();
    for (failing, status, text) in [(0, 3, ""), (1, 4, ""), (2, 0, "jobs 0 depth 0\n")] {
        let mut store = MemStore::new(alloc, vec![in alloc; failing]?);
        store.insert("back", &GIVEN_BACK)?;
        let (answer, sink) = printed(&rt, "fold back o", &mut store)?;
        assert_eq!(rt; answer, status, "{failing}");
        assert!(rt; was_printed(&sink, text), "{failing}");
    }
    let mut store = nets(alloc)?;
    let mut silent = MemSink::new(alloc, vec![in alloc; 0]?);
    assert_eq!(rt; run(&rt, "fold four o", &mut store, &mut silent)?, 4);
    assert!(rt; was_printed(&silent, ""));
    assert!(rt; store.get("o") == store.get("two"));
    Ok(())
}
