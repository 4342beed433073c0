//! Server files of the small set: 16,384 bootstrapping words, and then 13,824 switch words.
use crate::tests::files::{FIELDS, SMALL, changed, cut};
use crate::{CodecFault, decode_server, encode_server};
use rx_params::Refused;
use std::alloc::{AllocError, Global};
use std::test::Fail;

const SIZE: usize = 241708;

/// The first fields of a file.
fn server_head(alloc: Global) -> Result<Vec<u8>, AllocError> {
    let mut file = Vec::from_slice(alloc, b"RXS1")?;
    file.extend_from_slice(&FIELDS)?;
    Ok(file)
}

/// A file of 100 bytes, whose set has a key of 16,776,192 words: 2^24 less 1,024.
static PROMISE: [u8; 100] = [
    b'R', b'X', b'S', b'1', 2, 0, 0, 0, 4, 0, 0, 0, 0, 4, 0, 0, 41, 0, 0, 0, 4, 0, 0, 0, 15, 0, 0,
    0, 4, 0, 0, 0, 6, 0, 0, 0, 0, 0, 0, 0, 0, 0, 0, 0, 0, 0, 0, 0, 0, 0, 0, 0, 0, 0, 0, 0, 0, 0, 0,
    0, 0, 0, 0, 0, 0, 0, 0, 0, 0, 0, 0, 0, 0, 0, 0, 0, 0, 0, 0, 0, 0, 0, 0, 0, 0, 0, 0, 0, 0, 0, 0,
    0, 0, 0, 0, 0, 0, 0, 0, 0,
];

#[test]
fn a_key_that_is_promised(rt: HostRuntime) {
    let fault = CodecFault::Short {
        need: 134_209_580,
        have: 100,
    };
    assert_eq!(rt; decode_server(rt.alloc(), &PROMISE).err(), Some(fault));
}

/// A file whose words have bytes that go round from 0 to 250.
fn server_file(alloc: Global) -> Result<Vec<u8>, AllocError> {
    let mut file = server_head(alloc)?;
    for place in 44..SIZE {
        file.push(((place - 44) % 251) as u8)?;
    }
    Ok(file)
}

#[test]
fn a_server_key(rt: HostRuntime) -> Result<(), Fail> {
    let file = server_file(rt.alloc())?;
    assert_eq!(rt; file.len(), SIZE);
    let key = decode_server(rt.alloc(), file.as_slice())?;
    assert_eq!(rt; key.params, SMALL);
    let boot = key.boot.words();
    assert_eq!(rt; boot.len(), 16384);
    assert_eq!(rt; boot.first(), Some(&0x0706_0504_0302_0100));
    let switch = key.switch.words();
    assert_eq!(rt; switch.len(), 13824);
    assert_eq!(rt; switch.first(), Some(&0x3938_3736_3534_3332));
    assert_eq!(rt;
        encode_server(rt.alloc(), &key)?.as_slice(),
        file.as_slice()
    );
    Ok(())
}

/// The first length at which the server file is not refused for the fault beside it.
fn first_server_length(
    alloc: Global,
    file: &[u8],
    cases: &[(usize, CodecFault)],
) -> Result<Option<usize>, AllocError> {
    for (len, fault) in cases {
        let cut = cut(alloc, file, *len)?;
        if decode_server(alloc, cut.as_slice()).err() != Some(*fault) {
            return Ok(Some(*len));
        }
    }
    Ok(None)
}

#[test]
fn server_faults(rt: HostRuntime) -> Result<(), Fail> {
    let file = server_file(rt.alloc())?;
    let cases = [
        (0, CodecFault::Short { need: 4, have: 0 }),
        (4, CodecFault::Short { need: 8, have: 4 }),
        (43, CodecFault::Short { need: 44, have: 43 }),
        (
            44,
            CodecFault::Short {
                need: 241708,
                have: 44,
            },
        ),
        (
            241707,
            CodecFault::Short {
                need: 241708,
                have: 241707,
            },
        ),
        (241709, CodecFault::Long { extra: 1 }),
    ];
    assert_eq!(rt;
        first_server_length(rt.alloc(), file.as_slice(), &cases)?,
        None
    );
    let head = server_head(rt.alloc())?;
    let narrow = changed(rt.alloc(), head.as_slice(), &[(13, 0), (12, 100)])?;
    let refused = Refused::Limit {
        field: 3,
        value: 100,
    };
    let found = decode_server(rt.alloc(), narrow.as_slice()).err();
    assert_eq!(rt; found, Some(CodecFault::Params(refused)));
    let other = changed(rt.alloc(), file.as_slice(), &[(2, b'C')])?;
    let found = decode_server(rt.alloc(), other.as_slice()).err();
    assert_eq!(rt; found, Some(CodecFault::Magic));
    Ok(())
}
