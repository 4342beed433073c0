//! Nets that are refused, nets that are made, and what they give.
ghost use Rattle.std.specs.Prelude.{◌≡◌};
ghost use Rattle.rx_params.specs.declared.kind.Kind.TheVariants.{Int as Number};

use crate::{
    Job, Jobs, Net, NetFault, NetInput, NetInputs, NetOutputs, NetPen, PenError, Table, Term,
    Terms, are_within, depth, legal, plain,
};
use rx_params::{Kind, Name};
use std::alloc::{AllocError, Global};
use std::process::Abort;
use std::test::Fail;

const IDENTITY: [u8; 16] = [0, 1, 2, 3, 4, 5, 6, 7, 8, 9, 10, 11, 12, 13, 14, 15];

fn number(name: Name) -> NetInput
    ensures { result ≡ record { name = name; kind = Number; bits = 2; degree = 3; noise = 1 } }
{
    NetInput {
        name,
        kind: Kind::Int,
        bits: 2,
        degree: 3,
        noise: 1,
    }
}

fn bit(name: Name) -> NetInput {
    NetInput {
        name,
        kind: Kind::Bit,
        bits: 1,
        degree: 1,
        noise: 1,
    }
}

fn term(cell: u32, weight: i8) -> Term {
    Term { cell, weight }
}

fn job(alloc: Global, terms: &[Term], constant: i16, degree: u8) -> Result<Job, AllocError> {
    Ok(Job {
        terms: Terms::from_vec(Vec::from_slice(alloc, terms)?),
        constant,
        table: Table::from_vec(Vec::from_slice(alloc, &IDENTITY)?),
        degree,
    })
}

/// A net of space 2.
fn net(alloc: Global, inputs: Vec<NetInput>, jobs: Vec<Job>) -> Net {
    Net {
        space: 2,
        inputs: NetInputs::from_vec(inputs),
        jobs: Jobs::from_vec(jobs),
        outputs: NetOutputs::from_vec(Vec::new(alloc)),
    }
}

/// What is told of one number `a` of two bits and one job.
fn told(
    alloc: Global,
    name: Name,
    terms: &[Term],
    constant: i16,
    degree: u8,
) -> Result<Result<(), NetFault>, AllocError> {
    let inputs = vec![in alloc; number(name)]?;
    let jobs = vec![in alloc; job(alloc, terms, constant, degree)?]?;
    Ok(legal(&net(alloc, inputs, jobs)))
}

#[test]
fn a_job_and_its_fault(rt: HostRuntime) -> Result<(), Fail> {
    let alloc = rt.alloc();
    let (Some(a), Some(b)) = (Name::of(b"a"), Name::of(b"b")) else {
        panic!(rt; "names");
    };
    let itself = told(alloc, a, &[term(1, 1)], 0, 0)?;
    assert_eq!(rt; itself, Err(NetFault::Forward { job: 0 }));
    let wide = told(alloc, a, &[term(0, 5)], 1, 0)?;
    let range = NetFault::Range {
        job: 0,
        low: 1,
        high: 16,
    };
    assert_eq!(rt; wide, Err(range));
    let declared = told(alloc, a, &[term(0, 1)], 0, 2)?;
    let degree = NetFault::Degree {
        job: 0,
        declared: 2,
        reached: 3,
    };
    assert_eq!(rt; declared, Err(degree));
    let bits = vec![in alloc; bit(a), bit(b)]?;
    let jobs = vec![in alloc; job(alloc, &[term(0, 3), term(1, 3)], 0, 6)?]?;
    let loud = legal(&net(alloc, bits, jobs));
    assert_eq!(rt; loud, Err(NetFault::Noise { job: 0, sum: 6 }));
    let twice = told(alloc, a, &[term(0, 2), term(0, -1), term(0, 0)], 3, 9)?;
    assert_eq!(rt; twice, Ok(()));
    Ok(())
}

#[test]
fn a_constant_alone_that_leaves_the_table(rt: HostRuntime) -> Result<(), Fail> {
    let alloc = rt.alloc();
    let Some(a) = Name::of(b"a") else {
        panic!(rt; "a name");
    };
    let least = told(alloc, a, &[], -32768, 0)?;
    let below = NetFault::Range {
        job: 0,
        low: -32768,
        high: -32768,
    };
    assert_eq!(rt; least, Err(below));
    let greatest = told(alloc, a, &[], 32767, 0)?;
    let above = NetFault::Range {
        job: 0,
        low: 32767,
        high: 32767,
    };
    assert_eq!(rt; greatest, Err(above));
    Ok(())
}

#[test]
fn limits_come_first(rt: HostRuntime) -> Result<(), Fail> {
    let alloc = rt.alloc();
    let Some(a) = Name::of(b"a") else {
        panic!(rt; "a name");
    };
    let inputs = vec![in alloc; number(a); 65]?;
    let many = legal(&net(alloc, inputs, Vec::new(alloc)));
    assert_eq!(rt;
        many,
        Err(NetFault::Limit {
            field: 2,
            value: 65
        })
    );
    let inputs = vec![in alloc; number(a); 2]?;
    let again = legal(&net(alloc, inputs, Vec::new(alloc)));
    assert_eq!(rt; again, Err(NetFault::Limit { field: 3, value: 1 }));
    let terms = vec![in alloc; term(9, 0); 17]?;
    let long = told(alloc, a, &terms, 0, 0)?;
    assert_eq!(rt; long, Err(NetFault::Limit { field: 5, value: 0 }));
    Ok(())
}

#[test]
fn a_pen_refuses_and_goes_on(rt: HostRuntime) -> Result<(), Fail> {
    let (Some(a), Some(b)) = (Name::of(b"a"), Name::of(b"b")) else {
        panic!(rt; "names");
    };
    let mut pen = NetPen::new(rt.alloc(), 2);
    let first = pen.input(number(a));
    assert_eq!(rt; first, Ok(0));
    let second = pen.input(bit(b));
    assert_eq!(rt; second, Ok(1));
    let itself = pen.job(&[term(2, 1)], 0, &IDENTITY);
    assert_eq!(rt; itself, Err(PenError::Net(NetFault::Forward { job: 0 })));
    let wide = pen.job(&[term(0, 5)], 1, &IDENTITY);
    let range = NetFault::Range {
        job: 0,
        low: 1,
        high: 16,
    };
    assert_eq!(rt; wide, Err(PenError::Net(range)));
    let loud = pen.job(&[term(1, 7), term(0, -1)], 3, &IDENTITY);
    let noise = NetFault::Noise { job: 0, sum: 8 };
    assert_eq!(rt; loud, Err(PenError::Net(noise)));
    assert_eq!(rt; pen.cells(), 2);
    let cell = pen.job(&[term(1, 4), term(0, -1)], 3, &IDENTITY);
    assert_eq!(rt; cell, Ok(2));
    assert_eq!(rt; pen.cells(), 3);
    Ok(())
}

/// A name of two letters.
fn numbered(rt: &impl Abort, number: u8) -> Name {
    let Some(name) = Name::of(&[b'a' + number / 26, b'a' + number % 26]) else {
        panic!(rt; "a name");
    };
    name
}

fn limit(field: u8, value: u64) -> PenError {
    PenError::Net(NetFault::Limit { field, value })
}

#[test]
fn the_most_inputs_terms_and_outputs(rt: HostRuntime) -> Result<(), Fail> {
    let mut pen = NetPen::new(rt.alloc(), 2);
    for number in 0..64 {
        pen.input(bit(numbered(&rt, number)))?;
    }
    let more = pen.input(bit(numbered(&rt, 64)));
    assert_eq!(rt; more, Err(limit(2, 65)));
    let more = pen.job(&[term(63, 0); 17], 1, &IDENTITY);
    assert_eq!(rt; more, Err(limit(5, 0)));
    let cell = pen.job(&[term(63, 0); 16], 1, &IDENTITY);
    assert_eq!(rt; cell, Ok(64));
    for number in 0..64 {
        pen.output(numbered(&rt, number), Kind::Bit, 1, &[64])?;
    }
    let more = pen.output(numbered(&rt, 64), Kind::Bit, 1, &[64]);
    assert_eq!(rt; more, Err(limit(6, 65)));
    assert_eq!(rt; legal(&pen.finish()), Ok(()));
    Ok(())
}

#[test]
fn the_most_jobs(rt: HostRuntime) -> Result<(), Fail> {
    let mut pen = NetPen::new(rt.alloc(), 2);
    for _ in 0..65_536 {
        pen.job(&[], 0, &IDENTITY)?;
    }
    let more = pen.job(&[], 0, &IDENTITY);
    assert_eq!(rt; more, Err(limit(4, 65_537)));
    assert_eq!(rt; pen.cells(), 65_536);
    assert_eq!(rt; legal(&pen.finish()), Ok(()));
    Ok(())
}

#[test]
fn an_input_that_is_an_output(rt: HostRuntime) -> Result<(), Fail> {
    let alloc = rt.alloc();
    let Some(a) = Name::of(b"a") else {
        panic!(rt; "a name");
    };
    let mut pen = NetPen::new(alloc, 2);
    let first = pen.input(number(a));
    assert_eq!(rt; first, Ok(0));
    let given = pen.output(a, Kind::Int, 2, &[0]);
    assert_eq!(rt; given, Ok(()));
    let again = pen.output(a, Kind::Int, 2, &[0]);
    let refused = PenError::Net(NetFault::Output { index: 1 });
    assert_eq!(rt; again, Err(refused));
    let net = pen.finish();
    assert_eq!(rt; depth(alloc, &net)?, 0);
    Ok(())
}

#[test]
fn a_number_that_is_given_back(rt: HostRuntime) -> Result<(), Fail> {
    let alloc = rt.alloc();
    let Some(a) = Name::of(b"a") else {
        panic!(rt; "a name");
    };
    let mut pen = NetPen::new(alloc, 2);
    pen.input(number(a))?;
    pen.output(a, Kind::Int, 2, &[0])?;
    let net = pen.finish();
    assert!(rt; are_within(&net, &[3]));
    assert!(rt; !are_within(&net, &[4]));
    assert!(rt; !are_within(&net, &[2, 2]));
    let values = plain(alloc, &net, &[2])?;
    assert_eq!(rt; values.as_slice(), &[2][..]);
    Ok(())
}

#[test]
fn a_job_that_is_placed(rt: HostRuntime) -> Result<(), Fail> {
    let alloc = rt.alloc();
    let Some(a) = Name::of(b"a") else {
        panic!(rt; "a name");
    };
    let mut pen = NetPen::new(alloc, 2);
    pen.input(number(a))?;
    let less = Term {
        cell: 0,
        weight: -1,
    };
    let cell = pen.place(&[less], 3, &IDENTITY)?;
    assert_eq!(rt; cell, 1);
    let net = pen.finish();
    let values = plain(alloc, &net, &[1])?;
    assert_eq!(rt; values.as_slice(), &[1, 2][..]);
    Ok(())
}

#[test]
fn a_job_without_terms(rt: HostRuntime) -> Result<(), Fail> {
    let alloc = rt.alloc();
    let mut pen = NetPen::new(alloc, 2);
    let cell = pen.job(&[], 3, &IDENTITY)?;
    assert_eq!(rt; pen.degree(cell), 3);
    let net = pen.finish();
    assert_eq!(rt; depth(alloc, &net)?, 1);
    Ok(())
}
