//! Pair files of the small set: 24,576 words of the rows of pairs, and then 13,824 of switch rows.
use crate::{decode_pairs, encode_pairs};
use rx_codec::{CodecFault, decode_server};
use rx_multi::PairKey;
use rx_params::{Refused, check_pairs, named};
use std::alloc::{AllocError, Global};
use std::test::Fail;

const SIZE: usize = 307_244;

/// The fields of the small set.
static FIELDS: [u8; 40] = [
    2, 0, 0, 0, 1, 0, 0, 0, 0, 1, 0, 0, 8, 0, 0, 0, 12, 0, 0, 0, 2, 0, 0, 0, 4, 0, 0, 0, 6, 0, 0,
    0, 17, 0, 0, 0, 20, 0, 0, 0,
];

/// A file whose words have bytes that go round from 0 to 250.
fn pair_file(alloc: Global) -> Result<Vec<u8>, AllocError> {
    let mut file = Vec::from_slice(alloc, b"RXM1")?;
    file.extend_from_slice(&FIELDS)?;
    for place in 44..SIZE {
        file.push(((place - 44) % 251) as u8)?;
    }
    Ok(file)
}

/// A file with another byte at a place. A place past its end is passed over.
fn changed(alloc: Global, file: &[u8], at: usize, value: u8) -> Result<Vec<u8>, AllocError> {
    let mut file = Vec::from_slice(alloc, file)?;
    if let Some(byte) = file.get_mut(at) {
        *byte = value;
    }
    Ok(file)
}

#[test]
fn a_key_by_its_words(rt: HostRuntime) -> Result<(), Fail> {
    let file = pair_file(rt.alloc())?;
    assert_eq!(rt; file.len(), SIZE);
    let key = decode_pairs(rt.alloc(), &file)?;
    assert_eq!(rt; key.rows().len(), 24_576);
    assert_eq!(rt; key.rows().first(), Some(&0x0706_0504_0302_0100));
    assert_eq!(rt; key.switch().words().len(), 13_824);
    // 196,608 bytes come before the first switch row, and 196,608 is 251 * 783 + 75
    let first = key.switch().words().first();
    assert_eq!(rt; first, Some(&0x5251_504f_4e4d_4c4b));
    let again = encode_pairs(rt.alloc(), &key)?;
    assert_eq!(rt; again.as_slice(), file.as_slice());
    Ok(())
}

#[test]
fn a_made_key(rt: HostRuntime) -> Result<(), Fail> {
    let Some(p) = named("rx-test") else {
        panic!(rt; "a set of that name");
    };
    if check_pairs(&p).is_err() {
        panic!(rt; "a set that is accepted for pairs");
    }
    let key = PairKey::make(rt.alloc(), &p, &[7; 32], &[8; 32])?;
    let file = encode_pairs(rt.alloc(), &key)?;
    assert_eq!(rt; file.len(), SIZE);
    let again = decode_pairs(rt.alloc(), &file)?;
    assert_eq!(rt; again.rows(), key.rows());
    assert_eq!(rt; again.switch().words(), key.switch().words());
    Ok(())
}

#[test]
fn keys_of_the_other_kind(rt: HostRuntime) -> Result<(), Fail> {
    let file = pair_file(rt.alloc())?;
    let found = decode_server(rt.alloc(), &file).err();
    assert_eq!(rt; found, Some(CodecFault::Magic));
    let plain = changed(rt.alloc(), &file, 2, b'S')?;
    let found = decode_pairs(rt.alloc(), &plain).err();
    assert_eq!(rt; found, Some(CodecFault::Magic));
    Ok(())
}

/// The first length at which the file, cut there, is not refused for the fault beside it.
fn first_length(
    alloc: Global,
    file: &[u8],
    cases: &[(usize, CodecFault)],
) -> Result<Option<usize>, AllocError> {
    for (len, fault) in cases {
        let mut cut = Vec::from_slice(alloc, file)?;
        cut.push(0)?;
        cut.truncate(*len);
        if decode_pairs(alloc, &cut).err() != Some(*fault) {
            return Ok(Some(*len));
        }
    }
    Ok(None)
}

#[test]
fn pair_faults(rt: HostRuntime) -> Result<(), Fail> {
    let file = pair_file(rt.alloc())?;
    let short = |need, have| CodecFault::Short { need, have };
    let cases = [
        (0, short(4, 0)),
        (3, short(4, 3)),
        (4, short(8, 4)),
        (43, short(44, 43)),
        (44, short(307_244, 44)),
        (307_243, short(307_244, 307_243)),
        (307_245, CodecFault::Long { extra: 1 }),
    ];
    assert_eq!(rt; first_length(rt.alloc(), &file, &cases)?, None);
    // seven bits of the small key are no pairs
    let odd = changed(rt.alloc(), &file, 16, 7)?;
    let found = decode_pairs(rt.alloc(), &odd).err();
    let refused = Refused::Limit { field: 4, value: 7 };
    assert_eq!(rt; found, Some(CodecFault::Params(refused)));
    Ok(())
}
