//! Nets that are folded.
ghost use Rattle.std.specs.Prelude.{IfOk};
ghost use Rattle.rx_net.specs.Legal.{Legal};

use crate::fold;
use rx_net::{Net, NetInput, NetPen, PenError, Term, depth};
use rx_params::{Kind, Name};
use std::alloc::{AllocError, Global};
use std::process::Abort;
use std::test::Fail;

const BY_FOUR: [u8; 16] = [0, 1, 2, 3, 0, 1, 2, 3, 0, 1, 2, 3, 0, 1, 2, 3];

const TURNED: [u8; 16] = [3, 2, 1, 0, 3, 2, 1, 0, 3, 2, 1, 0, 3, 2, 1, 0];

fn term(cell: u32) -> Term {
    Term { cell, weight: 1 }
}

fn name(rt: &impl Abort) -> Name {
    let Some(name) = Name::of(b"a") else {
        panic!(rt; "a name");
    };
    name
}

/// A pen with one number of two bits, cell 0.
fn pen_of_a_number(alloc: Global, name: Name) -> Result<NetPen, PenError> {
    let mut pen = NetPen::new(alloc, 2);
    pen.input(NetInput {
        name,
        kind: Kind::Int,
        bits: 2,
        degree: 3,
        noise: 1,
    })?;
    Ok(pen)
}

/// The first two jobs are equal, and no output needs the last.
fn four_jobs(alloc: Global, name: Name) -> Result<Net, PenError>
    ensures { IfOk result (λ net. Legal net) }
{
    let mut pen = pen_of_a_number(alloc, name)?;
    pen.job(&[term(0)], 0, &BY_FOUR)?;
    pen.job(&[term(0)], 0, &BY_FOUR)?;
    pen.job(&[term(1), term(2)], 0, &BY_FOUR)?;
    pen.job(&[term(3)], 0, &BY_FOUR)?;
    pen.output(name, Kind::Int, 2, &[3])?;
    Ok(pen.finish())
}

/// The jobs differ in the table, the constant or the weight, and an output alone uses them.
fn unlike_jobs(alloc: Global, name: Name) -> Result<Net, PenError>
    ensures { IfOk result (λ net. Legal net) }
{
    let mut pen = pen_of_a_number(alloc, name)?;
    pen.job(&[term(0)], 0, &BY_FOUR)?;
    pen.job(&[term(0)], 0, &TURNED)?;
    pen.job(&[term(0)], 1, &BY_FOUR)?;
    pen.job(&[Term { cell: 0, weight: 2 }], 0, &BY_FOUR)?;
    pen.output(name, Kind::Int, 8, &[1, 2, 3, 4])?;
    Ok(pen.finish())
}

fn no_jobs(alloc: Global, name: Name) -> Result<Net, PenError>
    ensures { IfOk result (λ net. Legal net) }
{
    let mut pen = pen_of_a_number(alloc, name)?;
    pen.output(name, Kind::Int, 2, &[0])?;
    Ok(pen.finish())
}

fn folded(alloc: Global, net: Net) -> Result<Net, AllocError>
    requires { Legal net }
    ensures { IfOk result (λ net. Legal net) }
{
    match fold(alloc, net) {
        Ok(net) => Ok(net),
        Err(_) => Err(AllocError),
    }
}

fn job_count(net: &Net) -> usize {
    net.jobs.as_slice().len()
}

fn has_terms(net: &Net, place: usize, terms: &[Term]) -> bool {
    match net.jobs.as_slice().get(place) {
        Some(job) => job.terms.as_slice() == terms,
        None => false,
    }
}

fn gives(net: &Net, cells: &[u32]) -> bool {
    match net.outputs.as_slice().get(0) {
        Some(output) => output.cells.as_slice() == cells,
        None => false,
    }
}

#[test]
fn of_four_jobs_two_are_left_and_fold_no_further(rt: HostRuntime) -> Result<(), Fail> {
    let alloc = rt.alloc();
    let once = folded(alloc, four_jobs(alloc, name(&rt))?)?;
    assert_eq!(rt; job_count(&once), 2);
    assert!(rt; has_terms(&once, 0, &[term(0)]));
    assert!(rt; has_terms(&once, 1, &[term(1), term(1)]));
    assert!(rt; gives(&once, &[2]));
    assert_eq!(rt; depth(alloc, &once)?, 2);
    let twice = folded(alloc, once)?;
    assert_eq!(rt; job_count(&twice), 2);
    assert!(rt; has_terms(&twice, 1, &[term(1), term(1)]));
    assert!(rt; gives(&twice, &[2]));
    Ok(())
}

#[test]
fn unlike_jobs_stay(rt: HostRuntime) -> Result<(), Fail> {
    let alloc = rt.alloc();
    let net = folded(alloc, unlike_jobs(alloc, name(&rt))?)?;
    assert_eq!(rt; job_count(&net), 4);
    assert!(rt; gives(&net, &[1, 2, 3, 4]));
    Ok(())
}

#[test]
fn a_net_without_jobs_stays(rt: HostRuntime) -> Result<(), Fail> {
    let alloc = rt.alloc();
    let net = folded(alloc, no_jobs(alloc, name(&rt))?)?;
    assert_eq!(rt; job_count(&net), 0);
    assert!(rt; gives(&net, &[0]));
    Ok(())
}
