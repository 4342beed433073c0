//! Net files, byte by byte.
use crate::tests::files::{add_bit, changed};
use crate::{CodecFault, decode_net, encode_net};
use rx_net::{
    Cells, Jobs, Net, NetFault, NetInput, NetInputs, NetOutput, NetOutputs, NetPen, legal,
};
use rx_params::{Kind, Name};
use std::alloc::{AllocError, Global};
use std::test::Fail;

/// The net that gives back its one int of 2 bits.
static SAME: [u8; 27] = [
    b'R', b'X', b'N', b'1', 2, 1, 0, 1, b'a', 0, 2, 3, 1, 0, 0, 0, 0, 1, 0, 1, b'a', 0, 2, 0, 0, 0,
    0,
];

/// The net of one int of 2 bits and of a job over it: 3 less the int, and a table that gives its index up to 3.
static LESS: [u8; 52] = [
    b'R', b'X', b'N', b'1', 2, 1, 0, 1, b'a', 0, 2, 3, 1, 1, 0, 0, 0, 1, 0, 0, 0, 0, 255, 3, 0, 0,
    1, 2, 3, 0, 0, 0, 0, 0, 0, 0, 0, 0, 0, 0, 0, 3, 1, 0, 1, b'a', 0, 2, 1, 0, 0, 0,
];

#[test]
fn nets_read_and_written(rt: HostRuntime) -> Result<(), Fail> {
    let net = decode_net(rt.alloc(), &SAME)?;
    assert_eq!(rt; net.inputs.as_slice().len(), 1);
    assert_eq!(rt; encode_net(rt.alloc(), &net)?.as_slice(), &SAME[..]);
    let net = decode_net(rt.alloc(), &LESS)?;
    for job in net.jobs.as_slice() {
        assert_eq!(rt; job.constant, 3);
        for term in job.terms.as_slice() {
            assert_eq!(rt; (term.cell, term.weight), (0, -1));
        }
    }
    assert_eq!(rt; encode_net(rt.alloc(), &net)?.as_slice(), &LESS[..]);
    Ok(())
}

#[test]
fn a_net_of_a_pen(rt: HostRuntime) -> Result<(), Fail> {
    let alloc = rt.alloc();
    let Some(a) = Name::of(b"a") else {
        panic!(rt; "a name");
    };
    let mut pen = NetPen::new(alloc, 2);
    pen.input(NetInput {
        name: a,
        kind: Kind::Int,
        bits: 2,
        degree: 3,
        noise: 1,
    })?;
    pen.output(a, Kind::Int, 2, &[0])?;
    let net = pen.finish();
    let file = encode_net(alloc, &net)?;
    assert_eq!(rt; file.as_slice(), &SAME[..]);
    let again = decode_net(alloc, file.as_slice())?;
    assert_eq!(rt;
        format!(in alloc; "{again:?}")?,
        format!(in alloc; "{net:?}")?
    );
    Ok(())
}

/// The net of `SAME` as a value of its own parts.
fn same_by_hand(alloc: Global, a: Name) -> Result<Net, Fail> {
    let mut inputs = Vec::new(alloc);
    inputs.push(NetInput {
        name: a,
        kind: Kind::Int,
        bits: 2,
        degree: 3,
        noise: 1,
    })?;
    let mut outputs = Vec::new(alloc);
    outputs.push(NetOutput {
        name: a,
        kind: Kind::Int,
        bits: 2,
        cells: Cells::from_vec(Vec::from_slice(alloc, &[0])?),
    })?;
    Ok(Net {
        space: 2,
        inputs: NetInputs::from_vec(inputs),
        jobs: Jobs::from_vec(Vec::new(alloc)),
        outputs: NetOutputs::from_vec(outputs),
    })
}

#[test]
fn a_net_by_hand(rt: HostRuntime) -> Result<(), Fail> {
    let alloc = rt.alloc();
    let Some(a) = Name::of(b"a") else {
        panic!(rt; "a name");
    };
    let net = same_by_hand(alloc, a)?;
    assert!(rt; legal(&net).is_ok());
    let file = encode_net(alloc, &net)?;
    assert_eq!(rt; file.as_slice(), &SAME[..]);
    let again = decode_net(alloc, file.as_slice())?;
    assert_eq!(rt;
        format!(in alloc; "{again:?}")?,
        format!(in alloc; "{net:?}")?
    );
    Ok(())
}

/// Adds a job of 16 terms, of which as many weigh 1 as may, and so many jobs of no terms.
fn add_jobs(file: &mut Vec<u8>, others: u32) -> Result<(), AllocError> {
    file.push(16)?;
    for cell in 0..16 {
        file.extend_from_slice(&[cell, 0, 0, 0, u8::from(cell < 5)])?;
    }
    file.extend_from_slice(&[0; 19])?;
    for _ in 0..others {
        file.extend_from_slice(&[0; 20])?;
    }
    Ok(())
}

/// A net of 64 inputs, 65,536 jobs and 64 outputs, which are its inputs.
fn greatest_net(alloc: Global) -> Result<Vec<u8>, AllocError> {
    let mut file = Vec::from_slice(alloc, b"RXN1\x02\x40\x00")?;
    for i in 0..64 {
        add_bit(&mut file, i)?;
        file.extend_from_slice(&[1, 1])?;
    }
    file.extend_from_slice(&[0, 0, 1, 0])?;
    add_jobs(&mut file, 65_535)?;
    file.extend_from_slice(&[64, 0])?;
    for i in 0..64 {
        add_bit(&mut file, i)?;
        file.extend_from_slice(&[i, 0, 0, 0])?;
    }
    Ok(file)
}

#[test]
fn the_greatest_net(rt: HostRuntime) -> Result<(), Fail> {
    let file = greatest_net(rt.alloc())?;
    let net = decode_net(rt.alloc(), file.as_slice())?;
    assert_eq!(rt; net.inputs.as_slice().len(), 64);
    assert_eq!(rt; net.outputs.as_slice().len(), 64);
    let jobs = net.jobs.as_slice();
    assert_eq!(rt; jobs.len(), 65_536);
    assert_eq!(rt;
        jobs.first().map(|job| job.terms.as_slice().len()),
        Some(16)
    );
    let again = encode_net(rt.alloc(), &net)?;
    assert!(rt; again.as_slice() == file.as_slice());
    Ok(())
}

/// The first length at which `SAME` is not short of the length at that place.
fn first_net_length(alloc: Global, needs: &[u64]) -> Option<usize> {
    for (len, need) in needs.iter().enumerate() {
        let fault = CodecFault::Short {
            need: *need,
            have: len as u64,
        };
        let start = &SAME[..len.min(SAME.len())];
        if decode_net(alloc, start).err() != Some(fault) {
            return Some(len);
        }
    }
    None
}

#[test]
fn lengths_of_nets(rt: HostRuntime) -> Result<(), Fail> {
    let needs = [
        4, 4, 4, 4, 5, 7, 7, 8, 9, 10, 11, 12, 13, 17, 17, 17, 17, 19, 19, 20, 21, 22, 23, 27, 27,
        27, 27,
    ];
    assert_eq!(rt; first_net_length(rt.alloc(), &needs), None);
    // Another net's fault comes after the bytes that are too many.
    let mut long = changed(rt.alloc(), &SAME, &[(23, 1)])?;
    long.push(0)?;
    let fault = CodecFault::Long { extra: 1 };
    assert_eq!(rt; decode_net(rt.alloc(), long.as_slice()).err(), Some(fault));
    let other = changed(rt.alloc(), &SAME, &[(2, b'C')])?;
    assert_eq!(rt;
        decode_net(rt.alloc(), other.as_slice()).err(),
        Some(CodecFault::Magic)
    );
    Ok(())
}

/// The first of these changes of `LESS` that is not reported as a field at its place.
fn first_unreported(
    alloc: Global,
    changes: &[(usize, u8)],
) -> Result<Option<(usize, u8)>, AllocError> {
    for (at, value) in changes {
        let file = changed(alloc, &LESS, &[(*at, *value)])?;
        let fault = CodecFault::Field { at: *at as u64 };
        if decode_net(alloc, file.as_slice()).err() != Some(fault) {
            return Ok(Some((*at, *value)));
        }
    }
    Ok(None)
}

#[test]
fn fields_of_nets(rt: HostRuntime) -> Result<(), Fail> {
    let changes = [
        (4, 1),
        (4, 4),
        (5, 65),
        (7, 0),
        (7, 33),
        (8, b'A'),
        (9, 2),
        (10, 3),
        (10, 66),
        (11, 4),
        (12, 0),
        (12, 6),
        (17, 17),
        (42, 65),
        (44, 0),
        (45, b'-'),
        (46, 3),
        (47, 1),
    ];
    assert_eq!(rt; first_unreported(rt.alloc(), &changes)?, None);
    Ok(())
}

#[test]
fn too_many_jobs_and_a_name_twice(rt: HostRuntime) -> Result<(), Fail> {
    let jobs = changed(rt.alloc(), &LESS, &[(13, 1), (15, 1)])?;
    assert_eq!(rt;
        decode_net(rt.alloc(), jobs.as_slice()).err(),
        Some(CodecFault::Field { at: 13 })
    );
    let mut twice = Vec::from_slice(rt.alloc(), &SAME[..13])?;
    twice.extend_from_slice(&SAME[7..])?;
    let twice = changed(rt.alloc(), twice.as_slice(), &[(5, 2)])?;
    assert_eq!(rt;
        decode_net(rt.alloc(), twice.as_slice()).err(),
        Some(CodecFault::Field { at: 14 })
    );
    Ok(())
}

/// The first of these changes of `LESS` that is not reported as the fault beside it.
fn first_other_fault(
    alloc: Global,
    cases: &[(usize, u8, NetFault)],
) -> Result<Option<(usize, u8)>, AllocError> {
    for (at, value, fault) in cases {
        let file = changed(alloc, &LESS, &[(*at, *value)])?;
        if decode_net(alloc, file.as_slice()).err() != Some(CodecFault::Net(*fault)) {
            return Ok(Some((*at, *value)));
        }
    }
    Ok(None)
}

#[test]
fn nets_that_are_not_legal(rt: HostRuntime) -> Result<(), Fail> {
    let noisy = changed(rt.alloc(), &LESS, &[(12, 3), (22, 254), (23, 6)])?;
    let fault = NetFault::Noise { job: 0, sum: 6 };
    assert_eq!(rt;
        decode_net(rt.alloc(), noisy.as_slice()).err(),
        Some(CodecFault::Net(fault))
    );
    let range = NetFault::Range {
        job: 0,
        low: -1,
        high: 2,
    };
    let degree = NetFault::Degree {
        job: 0,
        declared: 2,
        reached: 3,
    };
    let cases = [
        (18, 1, NetFault::Forward { job: 0 }),
        (23, 2, range),
        (25, 16, NetFault::Table { job: 0 }),
        (41, 2, degree),
        (48, 2, NetFault::Output { index: 0 }),
    ];
    assert_eq!(rt; first_other_fault(rt.alloc(), &cases)?, None);
    Ok(())
}
