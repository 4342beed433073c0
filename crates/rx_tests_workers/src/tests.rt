//! Workers at one board.
ghost use Rattle.std.specs.Prelude.{◌≡◌, ◌≤◌, [], length};
ghost use Rattle.rx_board.specs.Seats.{IsOf};

use crate::counter::Counter;
use crate::nets::{SUM_JOBS, sum_net, two_jobs};
use rx_board::{Board, Desk, Seat, Step};
use rx_boot::ServerKey;
use rx_codec::encode_net;
use rx_crew::{Gate, OpenGate, run_net};
use rx_params::named;
use rx_store::MemStore;
use rx_tests_kit::{Meeting, Tally, no_files, printed, run_through, was_printed};
use rx_uses::Uses;
use std::process::Abort;
use std::sync::Wait;
use std::test::Fail;
use std::thread;
use std::thread::Threads;

/// How many jobs of the net of two jobs the workers ran under a key of `rx-test`, and how many were left to the caller.
fn counts<R: Threads + Sync + AllocGlobal + Abort, G: Gate + Sync>(
    rt: &R,
    workers: u32,
    gate: &G,
) -> Result<(u32, u32), Fail>
    requires low { 1 ≤ workers }
    requires high { workers ≤ 64 }
{
    let alloc = rt.alloc();
    let set = named("rx-test").ok_or("a set of that name")?;
    let key = ServerKey::make(alloc, &set, &[7; 32], &[8; 32])?;
    assert_eq!(rt; key.params.message_bits, 2);
    let net = two_jobs(alloc)?;
    let report = run_net(rt, alloc, &net, &key, &[], workers, gate)?;
    Ok((report.ran, report.finished))
}

/// A store with a client and a server key of `rx-test`.
fn keys<R: Threads + Sync + AllocGlobal + Abort>(rt: &R) -> Result<MemStore, Fail> {
    let mut store = no_files(rt.alloc());
    for line in ["client rx-test Z c", "keygen c U s"] {
        assert_eq!(rt; printed(rt, line, &mut store)?.0, 0, "{line}");
    }
    Ok(store)
}

#[test]
fn two_workers_meet(rt: HostRuntime) -> Result<(), Fail> {
    let gate = Meeting::new();
    assert_eq!(rt; counts(&rt, 2, &gate)?, (2, 0));
    assert!(rt; gate.has_met());
    assert_eq!(rt; counts(&rt, 1, &OpenGate)?, (2, 0));
    let mut store = keys(&rt)?;
    let net = two_jobs(rt.alloc())?;
    store.insert("two", &encode_net(rt.alloc(), &net)?)?;
    let gate = Meeting::new();
    assert_eq!(rt; run_through(&rt, "run s two 2 o", &mut store, &gate)?, 0);
    assert!(rt; gate.has_met());
    Ok(())
}

/// The first run of the net `sum` by one of these numbers of workers that fails, that does not run each job once, or
/// whose file is not that of one worker.
fn first_unlike<R: Threads + Sync + AllocGlobal>(
    rt: &R,
    store: &mut MemStore,
    workers: &[u32],
) -> Result<Option<String>, Fail> {
    for count in workers {
        let gate = Tally::new(rt.alloc(), SUM_JOBS, *count)?;
        let name = format!(in rt.alloc(); "out{count}")?;
        let line = format!(in rt.alloc(); "run s sum {count} {name} in")?;
        let status = run_through(rt, line.as_str(), store, &gate)?;
        let is_like = store.get(name.as_str()) == store.get("out1");
        if status != 0 || !gate.has_each_once() || !is_like {
            return Ok(Some(line));
        }
    }
    Ok(None)
}

#[test]
fn all_workers_write_one_sum(rt: HostRuntime) -> Result<(), Fail> {
    let alloc = rt.alloc();
    let mut store = keys(&rt)?;
    store.insert("sum", &encode_net(alloc, &sum_net(alloc)?)?)?;
    store.insert("v", b"int a 64 18446744073709551615\nint b 64 1\n")?;
    assert_eq!(rt; printed(&rt, "encrypt c U Z v in", &mut store)?.0, 0);
    assert_eq!(rt; first_unlike(&rt, &mut store, &[1, 2, 4, 7])?, None);
    let (status, sink) = printed(&rt, "decrypt c out1", &mut store)?;
    assert!(rt; status == 0 && was_printed(&sink, "s 0\n"));
    Ok(())
}

/// What a seat runs first.
fn first_step(board: &Board<'_, Counter>, seat: Seat, desk: Desk) -> Step
    requires board { (board.now.basis ≡ []) × (board.now.plan.width ≡ 1)
        × (board.now.plan.net.space ≡ 2) }
    requires seat { IsOf board.now seat }
    requires desk { desk ≡ 1 }
{
    let mut seat = seat;
    let mut desk = desk;
    board.step(&mut seat, &mut desk, &mut Counter { runs: 0 })
}

/// The word of the cell of the first job, once it is present.
fn awaited<R: Wait>(rt: &R, board: &Board<'_, Counter>, seat: Seat) -> u64
    requires board { (board.now.plan.width ≡ 1) × (length board.now.plan.net.jobs ≡ 2) }
    requires seat { IsOf board.now seat }
{
    let mut seat = seat;
    let mut cell = [9u64];
    board.await_cell(rt, &mut seat, 0, &mut cell);
    cell[0]
}

#[test]
fn a_cell_is_awaited(rt: HostRuntime) -> Result<(), Fail> {
    let alloc = rt.alloc();
    let net = two_jobs(alloc)?;
    let uses = Uses::of(alloc, &net)?;
    let (board, mut one) = Board::new(alloc, &net, &uses, &[], &Counter { runs: 0 })?;
    let board = &board;
    let two = board.split(&mut one);
    let desk = Desk::new(alloc, &net, 1)?;
    let (step, word) = thread::join(
        &rt,
        || -> Step
            requires { (board.now.basis ≡ []) × (board.now.plan.width ≡ 1)
                × (board.now.plan.net.space ≡ 2) × IsOf board.now one × (desk ≡ 1) }
        { first_step(board, one, desk) },
        || -> u64
            requires { (board.now.plan.width ≡ 1) × (length board.now.plan.net.jobs ≡ 2)
                × IsOf board.now two }
        { awaited(&rt, board, two) },
    );
    assert!(rt; matches!(step, Step::Ran(0)) && word == 0);
    Ok(())
}
