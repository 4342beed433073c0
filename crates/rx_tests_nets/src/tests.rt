//! Nets that are evaluated under encryption and in the clear.
ghost use Rattle.std.specs.Prelude.{◌≡◌, ◌⊎◌};
ghost use Rattle.rx_net.specs.Named.{IsNet};

use crate::loud::loud_net;
use crate::mixed::mixed_net;
use crate::plain::{output_lines, value_lines};
use rx_codec::encode_net;
use rx_net::Net;
use rx_store::MemStore;
use rx_tests_kit::{no_files, printed, was_printed};
use std::process::Abort;
use std::test::Fail;
use std::thread::Threads;

/// A store with a client and a server key of a set.
fn keys<R: Threads + Sync + AllocGlobal + Abort>(rt: &R, set: &str) -> Result<MemStore, Fail> {
    let mut store = no_files(rt.alloc());
    let line = format!(in rt.alloc(); "client {set} Z c")?;
    for line in [line.as_str(), "keygen c U s"] {
        assert_eq!(rt; printed(rt, line, &mut store)?.0, 0, "{line}");
    }
    Ok(store)
}

/// Runs a net over numbers, one for each input, and asserts that all outputs are what they are in the clear.
fn assert_plain<R: Threads + Sync + AllocGlobal + Abort>(
    rt: &R,
    store: &mut MemStore,
    net: &Net,
    numbers: &[u64],
) -> Result<(), Fail>
    requires { IsNet net.now }
{
    let alloc = rt.alloc();
    store.insert("net", &encode_net(alloc, net)?)?;
    let values = value_lines(alloc, net, numbers)?;
    store.insert("v", values.as_bytes())?;
    for line in ["encrypt c U Z v in", "run s net 4 out in"] {
        assert_eq!(rt; printed(rt, line, store)?.0, 0, "{line} {values}");
    }
    let (status, sink) = printed(rt, "decrypt c out", store)?;
    let lines = output_lines(alloc, net, numbers)?;
    assert_eq!(rt; status, 0, "{values}");
    assert!(rt; was_printed(&sink, lines.as_str()), "{lines}");
    Ok(())
}

/// Asserts that 1, 2 and 7 workers write the file that 4 workers wrote.
fn assert_one_file<R: Threads + Sync + AllocGlobal + Abort>(
    rt: &R,
    store: &mut MemStore,
) -> Result<(), Fail> {
    for workers in [1, 2, 7] {
        let line = format!(in rt.alloc(); "run s net {workers} other in")?;
        assert_eq!(rt; printed(rt, line.as_str(), store)?.0, 0, "{line}");
        assert!(rt; store.get("other") == store.get("out"), "{line}");
    }
    Ok(())
}

/// All pairs of numbers, through weights that gather all noise that is allowed.
#[test]
fn weights_gather_all_noise(rt: HostRuntime) -> Result<(), Fail> {
    let net = loud_net(rt.alloc())?;
    let mut store = keys(&rt, "rx-test")?;
    for a in 0..4 {
        for b in 0..4 {
            assert_plain(&rt, &mut store, &net, &[a, b])?;
        }
    }
    Ok(())
}

#[test]
fn forty_jobs_of_rx_test(rt: HostRuntime) -> Result<(), Fail> {
    forty_jobs(&rt, "rx-test", 2, &[9, 7, 1])
}

#[test]
fn forty_jobs_of_rx_2_2(rt: HostRuntime) -> Result<(), Fail> {
    forty_jobs(&rt, "rx-2-2", 2, &[6, 13, 0])
}

#[test]
fn forty_jobs_of_rx_k2(rt: HostRuntime) -> Result<(), Fail> {
    forty_jobs(&rt, "rx-k2", 2, &[15, 2, 1])
}

#[test]
fn forty_jobs_of_rx_3_3(rt: HostRuntime) -> Result<(), Fail> {
    forty_jobs(&rt, "rx-3-3", 3, &[41, 54, 1])
}

/// Runs the net of forty jobs over a set of so many message bits, with each number of workers.
fn forty_jobs<R: Threads + Sync + AllocGlobal + Abort>(
    rt: &R,
    set: &str,
    space: u32,
    numbers: &[u64],
) -> Result<(), Fail>
    requires { (space ≡ 2) ⊎ (space ≡ 3) }
{
    let net = mixed_net(rt.alloc(), space)?;
    assert_eq!(rt; net.jobs.as_slice().len(), 40);
    let mut store = keys(rt, set)?;
    assert_plain(rt, &mut store, &net, numbers)?;
    assert_one_file(rt, &mut store)
}
