//! The lines of refusals, each with its status.
use crate::{Refusal, malformed_binary, many_jobs, wide_board, wrong_input, wrong_workers};
use rx_codec::CodecFault;
use rx_net::NetFault;
use rx_params::Name;
use rx_server::InputFault;
use std::alloc::Global;
use std::process::Abort;
use std::test::Fail;

fn expect_line(rt: &impl Abort, refusal: &Refusal, status: u8, line: &str) {
    assert_eq!(rt; refusal.kind().status(), status);
    assert_eq!(rt; refusal.line(), line.as_bytes());
}

fn expect_nets(rt: &impl Abort, alloc: Global, rows: &[(NetFault, &str)]) -> Result<(), Fail> {
    for (fault, line) in rows {
        let refusal = malformed_binary(alloc, "f", CodecFault::Net(*fault))?;
        expect_line(rt, &refusal, 5, line);
    }
    Ok(())
}

fn expect_inputs(rt: &impl Abort, alloc: Global, rows: &[(InputFault, &str)]) -> Result<(), Fail> {
    for (fault, line) in rows {
        let refusal = wrong_input(alloc, *fault)?;
        expect_line(rt, &refusal, 8, line);
    }
    Ok(())
}

#[test]
fn nets_that_are_not_legal(rt: HostRuntime) -> Result<(), Fail> {
    let rows = [
        (NetFault::Forward { job: 7 }, "malformed f net forward 7\n"),
        (
            NetFault::Range {
                job: 0,
                low: -3,
                high: 16,
            },
            "malformed f net range 0 -3 16\n",
        ),
        (
            NetFault::Noise { job: 65535, sum: 6 },
            "malformed f net noise 65535 6\n",
        ),
        (NetFault::Table { job: 1 }, "malformed f net table 1\n"),
        (
            NetFault::Degree {
                job: 2,
                declared: 1,
                reached: 3,
            },
            "malformed f net degree 2 1 3\n",
        ),
        (
            NetFault::Output { index: 63 },
            "malformed f net output 63\n",
        ),
    ];
    expect_nets(&rt, rt.alloc(), &rows)
}

#[test]
fn inputs_that_do_not_fit(rt: HostRuntime) -> Result<(), Fail> {
    let Some(name) = Name::of(b"a_1") else {
        panic!(rt; "a name");
    };
    let rows = [
        (InputFault::Missing(name), "inputs a_1 missing\n"),
        (InputFault::Twice(name), "inputs a_1 twice\n"),
        (InputFault::Form(name), "inputs a_1 form\n"),
        (
            InputFault::Degree {
                name,
                value: 4,
                limit: 3,
            },
            "inputs a_1 degree 4 3\n",
        ),
        (
            InputFault::Noise {
                name,
                value: 5,
                limit: 1,
            },
            "inputs a_1 noise 5 1\n",
        ),
    ];
    expect_inputs(&rt, rt.alloc(), &rows)
}

#[test]
fn limits_of_a_run(rt: HostRuntime) -> Result<(), Fail> {
    let workers = wrong_workers(rt.alloc(), 65)?;
    expect_line(&rt, &workers, 10, "limit workers 65\n");
    let jobs = many_jobs(rt.alloc(), 68_208)?;
    expect_line(&rt, &jobs, 10, "limit jobs 68208\n");
    let board = wide_board(rt.alloc(), 33_554_433)?;
    expect_line(&rt, &board, 10, "limit board 33554433\n");
    Ok(())
}
