//! Circuits with their bounds, worked out by the cost table.
use crate::{depth_bound, job_bound, takes, value};
use rx_language::parse;
use std::alloc::Global;
use std::test::Fail;

/// A circuit of one input and its jobs and depth, at most, with an output of an input.
struct Case {
    text: &'static str,
    jobs: u64,
    depth: u32,
    input: u64,
    output: u64,
}

const CASES: [Case; 4] = [
    Case {
        text: "bits 2 8\nin a\nadd s a a\nout s\n",
        jobs: 13,
        depth: 4,
        input: 200,
        output: 144,
    },
    Case {
        text: "bits 2 8\nins a 4\ncasts c 8 a\nout c\n",
        jobs: 2,
        depth: 1,
        input: 9,
        output: 249,
    },
    Case {
        text: "bits 2 64\nin a\nmul p a a\nmul q p p\nout q\n",
        jobs: 5684,
        depth: 26,
        input: 3,
        output: 81,
    },
    Case {
        text: "bits 3 9\ninbit a\nnot b a\nand c a b\nor d a b\nout d\n",
        jobs: 3,
        depth: 2,
        input: 0,
        output: 1,
    },
];

#[test]
fn circuits_and_their_bounds(rt: HostRuntime) -> Result<(), Fail> {
    assert_eq!(rt; first_other(rt.alloc(), &CASES)?, None);
    Ok(())
}

/// The text of the first case that comes out otherwise.
fn first_other(alloc: Global, cases: &[Case]) -> Result<Option<&'static str>, Fail> {
    for case in cases {
        let circuit = parse(alloc, case.text.as_bytes())?;
        let bounds = (job_bound(&circuit), depth_bound(alloc, &circuit)?);
        if bounds != (case.jobs, case.depth) || takes(&circuit, &[]) {
            return Ok(Some(case.text));
        }
        let inputs = [case.input];
        if !takes(&circuit, &inputs) {
            return Ok(Some(case.text));
        }
        let outputs = value(alloc, &circuit, &inputs)?;
        if outputs.as_slice() != [case.output].as_slice() {
            return Ok(Some(case.text));
        }
    }
    Ok(None)
}
