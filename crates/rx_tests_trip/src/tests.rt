//! Circuits compiled and run: their values under encryption, the files of a trip, what refuses it and what stops it.
use crate::circuits::{
    GIVEN_BACK, circuits, operations, products, quotients, worked, worked_lines,
};
use rx_store::{MemSink, MemStore};
use rx_tests_kit::{first_wrong, holds, printed, run, was_printed};
use std::alloc::AllocError;
use std::test::Fail;
use std::thread::Threads;

#[test]
fn an_input_given_back_has_one_net(rt: HostRuntime) -> Result<(), Fail> {
    let mut store = circuits(rt.alloc())?;
    let cases = [
        ("compile back n", 0, "jobs 0 depth 0\n"),
        ("compile bare m", 0, "jobs 0 depth 0\n"),
        ("compile odd o", 5, "malformed odd line 1 number\n"),
        ("compile nothing o", 3, ""),
        ("compile back", 2, "usage\n"),
    ];
    assert_eq!(rt; first_wrong(&rt, &mut store, &cases)?, None);
    assert!(rt; holds(&store, "n", &GIVEN_BACK));
    assert!(rt; store.get("o").is_none());
    Ok(())
}

/// The sum of 8 bits takes 13 jobs at most, and its depth is 4.
#[test]
fn a_sum_is_compiled(rt: HostRuntime) -> Result<(), Fail> {
    let mut store = circuits(rt.alloc())?;
    let (status, sink) = printed(&rt, "compile sum n", &mut store)?;
    assert_eq!(rt; status, 0);
    let text = str::from_utf8(sink.bytes()).unwrap_or("");
    assert!(rt;
        text.starts_with("jobs ") && text.ends_with(" depth 4\n"),
        "{text}"
    );
    assert!(rt; text.len() <= "jobs 13 depth 4\n".len(), "{text}");
    Ok(())
}

#[test]
fn the_jobs_are_limited(rt: HostRuntime) -> Result<(), Fail> {
    let alloc = rt.alloc();
    let mut store = circuits(alloc)?;
    store.insert("fits", products(alloc, 23)?.as_bytes())?;
    store.insert("passes", products(alloc, 24)?.as_bytes())?;
    store.insert("v", b"int a 64 1\n")?;
    let cases = [
        ("compile passes n", 10, "limit jobs 68208\n"),
        ("client rx-2-2 Z c", 0, ""),
        ("trip c Z Z Z fits v 1 p", 10, "limit board 33663491\n"),
        ("trip c Z Z Z passes v 1 p", 10, "limit jobs 68208\n"),
        ("trip c Z Z Z passes v 0 p", 10, "limit workers 0\n"),
    ];
    assert_eq!(rt; first_wrong(&rt, &mut store, &cases)?, None);
    assert!(rt; store.get("p.server").is_none());
    Ok(())
}

#[test]
fn trips_print_the_values(rt: HostRuntime) -> Result<(), Fail> {
    let mut store = circuits(rt.alloc())?;
    let cases = [
        ("client rx-test Z c", 0, ""),
        ("trip c U Z Z sum sum.values 2 p", 0, "s 44\n"),
        ("trip c Z Z Z bare empty 1 q", 0, ""),
        ("trip c Z Z Z back sum.values 1 q", 8, "inputs a form\n"),
        ("client rx-3-3 Z w", 0, ""),
        ("trip w U Z Z wide wide.values 2 p", 0, "s 0\n"),
    ];
    assert_eq!(rt; first_wrong(&rt, &mut store, &cases)?, None);
    Ok(())
}

#[test]
fn operations_keep_their_values(rt: HostRuntime) -> Result<(), Fail> {
    let mut store = operations(rt.alloc())?;
    let text = "d 15\nn 0\np 13\nl 0\nm 1\ng 15\ns 15\nv 8\n";
    let cases = [
        ("client rx-test Z k", 0, ""),
        ("plain c v", 0, text),
        ("trip k U Z U c v 3 p", 0, text),
    ];
    assert_eq!(rt; first_wrong(&rt, &mut store, &cases)?, None);
    Ok(())
}

/// In the clear and under encryption; a constant of nine bits is none of eight.
#[test]
fn worked_values_of_each_operation(rt: HostRuntime) -> Result<(), Fail> {
    let alloc = rt.alloc();
    let mut store = worked(alloc)?;
    store.insert("large", b"bits 2 8\nconst k 256\nout k\n")?;
    let lines = worked_lines(alloc)?;
    let cases = [
        ("client rx-test Z k", 0, ""),
        ("plain c v", 0, lines.as_str()),
        ("trip k U Z U c v 4 p", 0, lines.as_str()),
        ("plain large v", 5, "malformed large line 2 number\n"),
        (
            "trip k U Z U large v 4 p",
            5,
            "malformed large line 2 number\n",
        ),
    ];
    assert_eq!(rt; first_wrong(&rt, &mut store, &cases)?, None);
    Ok(())
}

/// The sum of 64 bits that wraps to 0 has the same four files with 1 and with 7 workers.
#[test]
fn a_long_sum_has_one_set_of_files(rt: HostRuntime) -> Result<(), Fail> {
    let mut store = with_client(&rt, circuits(rt.alloc())?)?;
    let cases = [
        ("trip c U Z Z long long.values 1 one", 0, "s 0\n"),
        ("trip c U Z Z long long.values 7 seven", 0, "s 0\n"),
        ("trip c U Z Z long long.values 0 p", 10, "limit workers 0\n"),
        (
            "trip c U Z Z long long.values 65 p",
            10,
            "limit workers 65\n",
        ),
    ];
    assert_eq!(rt; first_wrong(&rt, &mut store, &cases)?, None);
    for (one, seven) in [
        ("one.server", "seven.server"),
        ("one.net", "seven.net"),
        ("one.inputs", "seven.inputs"),
        ("one.outputs", "seven.outputs"),
    ] {
        assert!(rt; store.get(one).is_some(), "{one}");
        assert!(rt; store.get(one) == store.get(seven), "{seven}");
    }
    Ok(())
}

#[test]
fn quotients_keep_their_values(rt: HostRuntime) -> Result<(), Fail> {
    let mut store = quotients(rt.alloc())?;
    let cases = [
        ("client rx-test Z k", 0, ""),
        ("trip k U Z U c more 4 p", 0, "q 28\nr 4\n"),
        ("trip k U Z U c none 4 p", 0, "q 255\nr 5\n"),
        ("trip k U Z U c less 4 p", 0, "q 0\nr 0\n"),
        ("trip k U Z U c same 4 p", 0, "q 1\nr 0\n"),
    ];
    assert_eq!(rt; first_wrong(&rt, &mut store, &cases)?, None);
    Ok(())
}

#[test]
fn samples_give_the_lines_of_plain(rt: HostRuntime) -> Result<(), Fail> {
    let mut store = circuits(rt.alloc())?;
    let _client = printed(&rt, "client rx-test Z k", &mut store)?;
    for make in ["make 1 c v", "make 2 c v", "make 3 c v"] {
        let _made = printed(&rt, make, &mut store)?;
        let (plain, wanted) = printed(&rt, "plain c v", &mut store)?;
        let (trip, given) = printed(&rt, "trip k U Z Z c v 4 p", &mut store)?;
        assert_eq!(rt; plain, 0, "{make}");
        assert_eq!(rt; trip, 0, "{make}");
        assert_eq!(rt; given.bytes(), wanted.bytes(), "{make}");
    }
    Ok(())
}

#[test]
fn five_calls_give_what_a_trip_gives(rt: HostRuntime) -> Result<(), Fail> {
    let mut apart = circuits(rt.alloc())?;
    let calls = [
        ("client rx-test Z c", 0, ""),
        ("keygen c U p.server", 0, ""),
        ("encrypt c Z U sum.values p.inputs", 0, ""),
    ];
    assert_eq!(rt; first_wrong(&rt, &mut apart, &calls)?, None);
    for line in [
        "compile sum p.net",
        "run p.server p.net 3 p.outputs p.inputs",
    ] {
        let (status, _sink) = printed(&rt, line, &mut apart)?;
        assert_eq!(rt; status, 0, "{line}");
    }
    let (_status, wanted) = printed(&rt, "decrypt c p.outputs", &mut apart)?;
    let mut whole = circuits(rt.alloc())?;
    let _client = printed(&rt, "client rx-test Z c", &mut whole)?;
    let (status, lines) = printed(&rt, "trip c U Z U sum sum.values 1 p", &mut whole)?;
    assert_eq!(rt; status, 0);
    assert_eq!(rt; lines.bytes(), wanted.bytes());
    for name in ["p.server", "p.net", "p.inputs", "p.outputs"] {
        assert!(rt; whole.get(name).is_some(), "{name}");
        assert!(rt; whole.get(name) == apart.get(name), "{name}");
    }
    Ok(())
}

/// A client of `rx-test` under seeds of zeros.
fn with_client<R: Threads + Sync + AllocGlobal>(
    rt: &R,
    mut store: MemStore,
) -> Result<MemStore, AllocError> {
    let _client = printed(rt, "client rx-test Z c", &mut store)?;
    Ok(store)
}

#[test]
fn refusals_in_order(rt: HostRuntime) -> Result<(), Fail> {
    let mut store = with_client(&rt, circuits(rt.alloc())?)?;
    let cases = [
        ("trip c Z Z Z sum sum.values 1", 2, "usage\n"),
        ("trip c Z Z 0 sum sum.values 1 p", 2, "usage\n"),
        ("trip c Z Z Z sum sum.values 01 p", 2, "usage\n"),
        ("trip c Z Z Z nothing sum.values 1 p", 3, ""),
        (
            "trip sum Z Z Z odd bad.values 0 p",
            5,
            "malformed sum magic\n",
        ),
        (
            "trip c Z Z Z odd bad.values 0 p",
            5,
            "malformed odd line 1 number\n",
        ),
        (
            "trip c Z Z Z sum bad.values 0 p",
            5,
            "malformed bad.values line 1 number\n",
        ),
        (
            "trip c Z Z Z wide less.values 0 p",
            7,
            "mismatch wide message_bits 2 3\n",
        ),
        ("trip c Z Z Z sum less.values 0 p", 8, "inputs b missing\n"),
        ("trip c Z Z Z sum other.values 0 p", 8, "inputs b form\n"),
        (
            "trip c Z Z Z sum uneven.values 0 p",
            8,
            "inputs c width 7\n",
        ),
        ("trip c Z Z Z sum sum.values 0 p", 10, "limit workers 0\n"),
        ("trip c Z Z Z sum sum.values 65 p", 10, "limit workers 65\n"),
    ];
    assert_eq!(rt; first_wrong(&rt, &mut store, &cases)?, None);
    assert!(rt; store.get("p.server").is_none());
    Ok(())
}

/// The files of a trip that are there, in the order of writing, up to the first that is missing.
fn whole_files(store: &MemStore) -> usize {
    let names = ["p.server", "p.net", "p.inputs", "p.outputs"];
    names
        .iter()
        .take_while(|name| store.get(name).is_some())
        .count()
}

#[test]
fn a_failing_call_stops_a_trip(rt: HostRuntime) -> Result<(), Fail> {
    let alloc = rt.alloc();
    let made = with_client(&rt, circuits(alloc)?)?;
    for (failing, status) in [
        (0, 3),
        (1, 3),
        (2, 3),
        (3, 4),
        (4, 4),
        (5, 4),
        (6, 4),
        (7, 0),
    ] {
        let mut store = MemStore::new(alloc, vec![in alloc; failing]?);
        for name in ["c", "back", "back.values"] {
            if let Some(bytes) = made.get(name) {
                store.insert(name, bytes)?;
            }
        }
        let (answer, sink) = printed(&rt, "trip c U Z Z back back.values 1 p", &mut store)?;
        assert_eq!(rt; answer, status, "{failing}");
        assert!(rt;
            was_printed(&sink, if status == 0 { "a 3\n" } else { "" }),
            "{failing}"
        );
        assert_eq!(rt;
            whole_files(&store) as u64,
            failing.saturating_sub(3),
            "{failing}"
        );
    }
    Ok(())
}

#[test]
fn a_failing_sink_leaves_all_files(rt: HostRuntime) -> Result<(), Fail> {
    let alloc = rt.alloc();
    let mut store = with_client(&rt, circuits(alloc)?)?;
    let mut sink = MemSink::new(alloc, vec![in alloc; 0]?);
    let status = run(
        &rt,
        "trip c U Z Z sum sum.values 1 p",
        &mut store,
        &mut sink,
    )?;
    assert_eq!(rt; status, 4);
    assert!(rt; was_printed(&sink, ""));
    assert_eq!(rt; whole_files(&store), 4);
    Ok(())
}
