//! Nets of circuits against the values and the bounds of the circuits.
use crate::circuits::{EXAMPLES, SHAPES, division, every_word, products, quotients};
use crate::{numbers_for, outputs_of};
use rx_compile::{CompileFault, compile};
use rx_language::{Circuit, parse};
use rx_meaning::{depth_bound, job_bound, takes, value};
use rx_net::depth;
use std::alloc::Global;
use std::test::Fail;

/// A circuit, and the most jobs and the greatest depth of its net.
struct Case {
    text: &'static str,
    jobs: usize,
    depth: u32,
}

const CASES: [Case; 5] = [
    Case {
        text: "bits 2 8\nin a\nin b\nadd s a b\nout s\n",
        jobs: 13,
        depth: 4,
    },
    Case {
        text: "bits 2 16\nin a\nin b\nadd s a b\nout s\n",
        jobs: 36,
        depth: 5,
    },
    Case {
        text: "bits 2 2\nin a\nin b\nadd s a b\nout s\n",
        jobs: 1,
        depth: 1,
    },
    Case {
        text: "bits 2 2\nin a\nout a\n",
        jobs: 0,
        depth: 0,
    },
    Case {
        text: "bits 2 2\n",
        jobs: 0,
        depth: 0,
    },
];

#[test]
fn small_circuits_take_few_jobs(rt: HostRuntime) -> Result<(), Fail> {
    assert_eq!(rt; first_past(rt.alloc(), &CASES)?, None);
    let one = parse(rt.alloc(), CASES[2].text.as_bytes())?;
    assert_eq!(rt; compile(rt.alloc(), &one)?.jobs.as_slice().len(), 1);
    Ok(())
}

/// The text of the first case whose net is past its bounds.
fn first_past(alloc: Global, cases: &[Case]) -> Result<Option<&'static str>, Fail> {
    for case in cases {
        let circuit = parse(alloc, case.text.as_bytes())?;
        let net = compile(alloc, &circuit)?;
        if net.jobs.as_slice().len() > case.jobs || depth(alloc, &net)? > case.depth {
            return Ok(Some(case.text));
        }
    }
    Ok(None)
}

#[test]
fn examples_give_their_values(rt: HostRuntime) -> Result<(), Fail> {
    for text in &EXAMPLES {
        let circuit = parse(rt.alloc(), text.as_bytes())?;
        assert_eq!(rt; first_other(rt.alloc(), &circuit, 96)?, None);
    }
    Ok(())
}

#[test]
fn every_word_gives_its_value(rt: HostRuntime) -> Result<(), Fail> {
    for shape in &SHAPES {
        for word in ["inw", "ins"] {
            let text = every_word(rt.alloc(), shape, word)?;
            let circuit = parse(rt.alloc(), text.as_bytes())?;
            assert_eq!(rt; first_other(rt.alloc(), &circuit, 72)?, None);
        }
    }
    Ok(())
}

#[test]
fn division_gives_its_values(rt: HostRuntime) -> Result<(), Fail> {
    for shape in &SHAPES {
        let text = division(rt.alloc(), shape)?;
        let circuit = parse(rt.alloc(), text.as_bytes())?;
        // all pairs of edges; at small widths drawn numbers too
        let rounds = if shape.width < 60 { 72 } else { 16 };
        assert_eq!(rt; first_other(rt.alloc(), &circuit, rounds)?, None);
    }
    Ok(())
}

/// The first round in which the net of a circuit gives other numbers than its lines say, takes other inputs, or is past
/// the bounds of the circuit.
fn first_other(alloc: Global, circuit: &Circuit, rounds: u64) -> Result<Option<u64>, Fail> {
    let net = compile(alloc, circuit)?;
    let deepest = depth(alloc, &net)?;
    if net.jobs.as_slice().len() as u64 > job_bound(circuit)
        || deepest > depth_bound(alloc, circuit)?
    {
        return Ok(Some(rounds));
    }
    for round in 0..rounds {
        let numbers = numbers_for(alloc, &net, round)?;
        if !takes(circuit, &numbers) {
            return Ok(Some(round));
        }
        let wanted = value(alloc, circuit, &numbers)?;
        if outputs_of(alloc, &net, &numbers)? != Some(wanted) {
            return Ok(Some(round));
        }
    }
    Ok(None)
}

#[test]
fn many_products_are_refused_by_their_jobs(rt: HostRuntime) -> Result<(), Fail> {
    let most = parse(rt.alloc(), products(rt.alloc(), 23)?.as_bytes())?;
    assert_eq!(rt; job_bound(&most), 65_366);
    assert!(rt; compile(rt.alloc(), &most)?.jobs.as_slice().len() <= 65_366);
    let more = parse(rt.alloc(), products(rt.alloc(), 24)?.as_bytes())?;
    assert_eq!(rt;
        compile(rt.alloc(), &more).err(),
        Some(CompileFault::Jobs(68_208))
    );
    Ok(())
}

#[test]
fn two_quotients_of_64_bits_are_a_net_and_three_are_not(rt: HostRuntime) -> Result<(), Fail> {
    let two = parse(rt.alloc(), quotients(rt.alloc(), 2)?.as_bytes())?;
    assert_eq!(rt; job_bound(&two), 58_372);
    assert!(rt; compile(rt.alloc(), &two)?.jobs.as_slice().len() <= 58_372);
    let three = parse(rt.alloc(), quotients(rt.alloc(), 3)?.as_bytes())?;
    assert_eq!(rt;
        compile(rt.alloc(), &three).err(),
        Some(CompileFault::Jobs(87_558))
    );
    Ok(())
}
