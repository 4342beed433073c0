//! Server files of the small set by their bodies: 8,192 words of bootstrapping rows, and then 1,536 of switch rows.
use crate::tests::cipher::{FIELDS, MASK_SEED, changed};
use crate::{
    SeedFault, decode_seeded_server, decode_server, encode_fresh_server, encode_made_server,
    encode_seeded_server,
};
use rx_boot::{ServerKey, seeded_key_laws};
use rx_codec::{CodecFault, encode_server};
use rx_params::{Refused, named};
use std::alloc::{AllocError, Global};
use std::test::Fail;

const SIZE: usize = 77_900;

/// A file whose bodies have bytes that go round from 0 to 250.
fn server_file(alloc: Global) -> Result<Vec<u8>, AllocError> {
    let mut file = Vec::from_slice(alloc, b"RXS2")?;
    file.extend_from_slice(&FIELDS)?;
    file.extend_from_slice(&MASK_SEED)?;
    for place in 76..SIZE {
        file.push(((place - 76) % 251) as u8)?;
    }
    Ok(file)
}

#[test]
fn a_key_by_its_bodies(rt: HostRuntime) -> Result<(), Fail> {
    let file = server_file(rt.alloc())?;
    assert_eq!(rt; file.len(), SIZE);
    let key = decode_server(rt.alloc(), &file)?;
    assert_eq!(rt; key.boot.words().get(256), Some(&0x0706_0504_0302_0100));
    assert_eq!(rt; key.boot.words().len(), 16_384);
    assert_eq!(rt; key.switch.words().len(), 13_824);
    let again = encode_seeded_server(rt.alloc(), &key, &MASK_SEED)?;
    assert_eq!(rt; again.as_slice(), file.as_slice());
    let other = encode_seeded_server(rt.alloc(), &key, &[0x12; 32]);
    assert_eq!(rt; other.err(), Some(SeedFault::Mask { at: 44 }));
    let whole = encode_server(rt.alloc(), &key)?;
    assert_eq!(rt; whole.len(), 241_708);
    let found = decode_seeded_server(rt.alloc(), &whole).err();
    assert_eq!(rt; found, Some(CodecFault::Magic));
    let other = changed(rt.alloc(), &whole, 3, b'2')?;
    let found = decode_server(rt.alloc(), &other).err();
    assert_eq!(rt; found, Some(CodecFault::Long { extra: 163_808 }));
    Ok(())
}

#[test]
fn a_made_key(rt: HostRuntime) -> Result<(), Fail> {
    let Some(p) = named("rx-test") else {
        panic!(rt; "a set of that name");
    };
    let key = ServerKey::make(rt.alloc(), &p, &[7; 32], &MASK_SEED)?;
    seeded_key_laws();
    let file = encode_made_server(rt.alloc(), &key, &MASK_SEED)?;
    let fresh = encode_fresh_server(rt.alloc(), &p, &[7; 32], &MASK_SEED)?;
    assert_eq!(rt; fresh.as_slice(), file.as_slice());
    let again = decode_seeded_server(rt.alloc(), &file)?;
    assert_eq!(rt; again.boot.words(), key.boot.words());
    assert_eq!(rt; again.switch.words(), key.switch.words());
    Ok(())
}

/// The first length at which the file, cut there, is not refused for the fault beside it.
fn first_length(
    alloc: Global,
    file: &[u8],
    cases: &[(usize, CodecFault)],
) -> Result<Option<usize>, AllocError> {
    for (len, fault) in cases {
        let mut cut = Vec::from_slice(alloc, file)?;
        cut.push(0)?;
        cut.truncate(*len);
        if decode_server(alloc, &cut).err() != Some(*fault) {
            return Ok(Some(*len));
        }
    }
    Ok(None)
}

#[test]
fn server_faults(rt: HostRuntime) -> Result<(), Fail> {
    let file = server_file(rt.alloc())?;
    let short = |need, have| CodecFault::Short { need, have };
    let cases = [
        (0, short(4, 0)),
        (3, short(4, 3)),
        (4, short(8, 4)),
        (44, short(76, 44)),
        (75, short(76, 75)),
        (76, short(77_900, 76)),
        (77_899, short(77_900, 77_899)),
        (77_901, CodecFault::Long { extra: 1 }),
    ];
    assert_eq!(rt; first_length(rt.alloc(), &file, &cases)?, None);
    let refused = Refused::Limit { field: 1, value: 4 };
    let other = changed(rt.alloc(), &file, 4, 4)?;
    let found = decode_server(rt.alloc(), &other).err();
    assert_eq!(rt; found, Some(CodecFault::Params(refused)));
    let other = changed(rt.alloc(), &file, 3, b'1')?;
    let found = decode_server(rt.alloc(), &other).err();
    assert_eq!(rt; found, Some(short(241_708, 77_900)));
    Ok(())
}
