//! The use lists of a net of four jobs, as they are made and after nodes were moved.
ghost use Rattle.std.specs.Prelude.{◌<◌, length, IfOk};
ghost use Rattle.rx_net.specs.Legal.{Legal};
ghost use Rattle.rx_uses.specs.Uses.{IsUsesOf};

use crate::{Uses, input_cells};
use rx_net::{Net, NetInput, NetPen, PenError, Term};
use rx_params::{Kind, Name};
use std::alloc::Global;
use std::process::Abort;
use std::test::Fail;

const ZEROS: [u8; 16] = [0; 16];

fn term(cell: u32) -> Term {
    Term { cell, weight: 1 }
}

/// A net of the input cell 0 and the jobs of the cells 1 to 4: 1 names 0; 2 names 0 and 1; 3 names 0 twice; 4 names 3
/// and 1.
fn four_jobs(rt: &impl Abort, alloc: Global) -> Result<Net, PenError>
    ensures { IfOk result (λ net. Legal net) }
{
    let Some(name) = Name::of(b"a") else {
        panic!(rt; "a name");
    };
    let mut pen = NetPen::new(alloc, 2);
    pen.input(NetInput {
        name,
        kind: Kind::Int,
        bits: 2,
        degree: 3,
        noise: 1,
    })?;
    pen.job(&[term(0)], 0, &ZEROS)?;
    pen.job(&[term(0), term(1)], 0, &ZEROS)?;
    pen.job(&[term(0), term(0)], 0, &ZEROS)?;
    pen.job(&[term(3), term(1)], 0, &ZEROS)?;
    Ok(pen.finish())
}

/// Whether the list of a cell has exactly these nodes.
fn has_nodes(uses: &Uses, cell: u32, nodes: &[u32]) -> bool
    requires { cell < length uses.now.lists }
{
    let mut at = uses.first(cell);
    for node in nodes {
        let Some(found) = at else {
            return false;
        };
        if found != *node {
            return false;
        }
        at = uses.next(found);
    }
    at.is_none()
}

/// Whether the list of a cell has exactly these nodes, each of this job.
fn has_uses(_net: &Net, uses: &Uses, cell: u32, expected: &[(u32, u32)]) -> bool
    requires uses { IsUsesOf _net.now uses.now }
    requires cell { cell < length uses.now.lists }
{
    let mut at = uses.first(cell);
    for (node, job) in expected {
        let Some(found) = at else {
            return false;
        };
        if found != *node || uses.owner(found) != *job {
            return false;
        }
        at = uses.next(found);
    }
    at.is_none()
}

#[test]
fn nodes_in_the_order_of_jobs_and_places(rt: HostRuntime) -> Result<(), Fail> {
    let alloc = rt.alloc();
    let net = four_jobs(&rt, alloc)?;
    let uses = Uses::of(alloc, &net)?;
    let cells = input_cells(&net) as usize + net.jobs.as_slice().len();
    assert_eq!(rt; cells, 5);
    assert!(rt; has_uses(&net, &uses, 0, &[(0, 0), (1, 1), (3, 2), (4, 2)]));
    assert!(rt; has_uses(&net, &uses, 1, &[(2, 1), (6, 3)]));
    assert!(rt; has_uses(&net, &uses, 2, &[]));
    assert!(rt; has_uses(&net, &uses, 3, &[(5, 3)]));
    assert!(rt; has_uses(&net, &uses, 4, &[]));
    Ok(())
}

#[test]
fn nodes_that_are_moved(rt: HostRuntime) -> Result<(), Fail> {
    let alloc = rt.alloc();
    let net = four_jobs(&rt, alloc)?;
    let mut uses = Uses::of(alloc, &net)?;
    let cells = input_cells(&net) as usize + net.jobs.as_slice().len();
    assert_eq!(rt; cells, 5);
    let Some(first) = uses.first(0) else {
        panic!(rt; "a first node");
    };
    let Some(second) = uses.next(first) else {
        panic!(rt; "a second node");
    };
    uses.unlink(second);
    assert!(rt; has_nodes(&uses, 0, &[0, 3, 4]));
    uses.link(second, 1);
    assert!(rt; has_nodes(&uses, 1, &[1, 2, 6]));
    assert!(rt; has_nodes(&uses, 0, &[0, 3, 4]));
    Ok(())
}
