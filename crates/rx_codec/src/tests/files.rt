//! Files of the small set, byte by byte.
use crate::{Client, CodecFault, decode_cipher, decode_client, encode_cipher, encode_client};
use rx_params::{Kind, Params, Refused};
use std::alloc::{AllocError, Global};
use std::test::Fail;

pub(crate) const SMALL: Params = Params {
    message_bits: 2,
    glwe_dim: 1,
    poly_size: 256,
    lwe_dim: 8,
    pbs_base_log: 12,
    pbs_level: 2,
    ks_base_log: 4,
    ks_level: 6,
    glwe_bound: 17,
    lwe_bound: 20,
};

pub(crate) static FIELDS: [u8; 40] = [
    2, 0, 0, 0, 1, 0, 0, 0, 0, 1, 0, 0, 8, 0, 0, 0, 12, 0, 0, 0, 2, 0, 0, 0, 4, 0, 0, 0, 6, 0, 0,
    0, 17, 0, 0, 0, 20, 0, 0, 0,
];

static ZEROS: [u8; 2040] = [0; 2040];

fn client_file(alloc: Global) -> Result<Vec<u8>, AllocError> {
    let mut file = Vec::from_slice(alloc, b"RXC1")?;
    file.extend_from_slice(&FIELDS)?;
    file.extend_from_slice(&[0; 32])?;
    Ok(file)
}

/// A file of no items, whose number of items is written so.
fn cipher_head(alloc: Global, items: u8) -> Result<Vec<u8>, AllocError> {
    let mut file = Vec::from_slice(alloc, b"RXE1")?;
    file.extend_from_slice(&FIELDS)?;
    file.extend_from_slice(&[items, 0, 0, 0])?;
    Ok(file)
}

/// Adds a block: its first mask word is a number, the others are 0, and its body is half of the torus.
fn add_block(file: &mut Vec<u8>, degree: u8, first: u8) -> Result<(), AllocError> {
    file.extend_from_slice(&[degree, 1, first, 0, 0, 0, 0, 0, 0, 0])?;
    file.extend_from_slice(&ZEROS)?;
    file.extend_from_slice(&[0, 0, 0, 0, 0, 0, 0, 128])
}

/// A file of one int of 8 bits.
fn int_file(alloc: Global) -> Result<Vec<u8>, AllocError> {
    let mut file = cipher_head(alloc, 1)?;
    file.extend_from_slice(&[1, b'a', 0, 8])?;
    for first in 1..5 {
        add_block(&mut file, 3, first)?;
    }
    Ok(file)
}

/// A file of two bits of one name.
fn twice_file(alloc: Global) -> Result<Vec<u8>, AllocError> {
    let mut file = cipher_head(alloc, 2)?;
    for first in 1..3 {
        file.extend_from_slice(&[1, b'a', 1, 1])?;
        add_block(&mut file, 1, first)?;
    }
    Ok(file)
}

/// Adds the name and the form of a bit, which differ for each number below 64.
pub(crate) fn add_bit(file: &mut Vec<u8>, number: u8) -> Result<(), AllocError> {
    file.extend_from_slice(&[2, b'a' + number / 16, b'a' + number % 16, 1, 1])
}

/// A file with these values at their places. One past its end is passed over.
pub(crate) fn changed(
    alloc: Global,
    file: &[u8],
    changes: &[(usize, u8)],
) -> Result<Vec<u8>, AllocError> {
    let mut file = Vec::from_slice(alloc, file)?;
    for (at, value) in changes {
        if let Some(byte) = file.get_mut(*at) {
            *byte = *value;
        }
    }
    Ok(file)
}

/// So many bytes of a file, or of the file with one byte more.
pub(crate) fn cut(alloc: Global, file: &[u8], len: usize) -> Result<Vec<u8>, AllocError> {
    let mut file = Vec::from_slice(alloc, file)?;
    file.push(0)?;
    file.truncate(len);
    Ok(file)
}

#[test]
fn a_client(rt: HostRuntime) -> Result<(), Fail> {
    let file = client_file(rt.alloc())?;
    assert_eq!(rt; file.len(), 76);
    let client = decode_client(file.as_slice())?;
    let want = Client {
        params: SMALL,
        seed: [0; 32],
    };
    assert_eq!(rt; client, want);
    assert_eq!(rt;
        encode_client(rt.alloc(), &client)?.as_slice(),
        file.as_slice()
    );
    Ok(())
}

/// The first length at which the client file is not refused for the fault beside it.
fn first_client_length(
    alloc: Global,
    file: &[u8],
    cases: &[(usize, CodecFault)],
) -> Result<Option<usize>, AllocError> {
    for (len, fault) in cases {
        let cut = cut(alloc, file, *len)?;
        if decode_client(cut.as_slice()) != Err(*fault) {
            return Ok(Some(*len));
        }
    }
    Ok(None)
}

#[test]
fn client_faults(rt: HostRuntime) -> Result<(), Fail> {
    let file = client_file(rt.alloc())?;
    let cases = [
        (3, CodecFault::Short { need: 4, have: 3 }),
        (10, CodecFault::Short { need: 12, have: 10 }),
        (75, CodecFault::Short { need: 76, have: 75 }),
        (77, CodecFault::Long { extra: 1 }),
    ];
    assert_eq!(rt;
        first_client_length(rt.alloc(), file.as_slice(), &cases)?,
        None
    );
    let narrow = changed(rt.alloc(), file.as_slice(), &[(13, 0), (12, 100)])?;
    let refused = Refused::Limit {
        field: 3,
        value: 100,
    };
    assert_eq!(rt;
        decode_client(narrow.as_slice()),
        Err(CodecFault::Params(refused))
    );
    let other = cipher_head(rt.alloc(), 0)?;
    assert_eq!(rt; decode_client(other.as_slice()), Err(CodecFault::Magic));
    Ok(())
}

#[test]
fn an_int(rt: HostRuntime) -> Result<(), Fail> {
    let file = int_file(rt.alloc())?;
    assert_eq!(rt; file.len(), 8284);
    let cipher = decode_cipher(rt.alloc(), file.as_slice())?;
    assert_eq!(rt; cipher.params, SMALL);
    assert_eq!(rt; cipher.items.as_slice().len(), 1);
    for item in cipher.items.as_slice() {
        assert_eq!(rt; item.name.as_str(), "a");
        assert_eq!(rt; item.kind, Kind::Int);
        assert_eq!(rt; item.bits, 8);
        assert_eq!(rt; item.blocks.as_slice().len(), 4);
        for (block, first) in item.blocks.as_slice().iter().zip(1..5) {
            assert_eq!(rt; (block.degree, block.noise), (3, 1));
            let words = block.words.as_slice();
            assert_eq!(rt; words.len(), 257);
            assert_eq!(rt; words[0], first);
            assert_eq!(rt; words[1], 0);
            assert_eq!(rt; words[256], 1 << 63);
        }
    }
    assert_eq!(rt;
        encode_cipher(rt.alloc(), &cipher)?.as_slice(),
        file.as_slice()
    );
    Ok(())
}

#[test]
fn no_items(rt: HostRuntime) -> Result<(), Fail> {
    let file = cipher_head(rt.alloc(), 0)?;
    assert_eq!(rt; file.len(), 48);
    let cipher = decode_cipher(rt.alloc(), file.as_slice())?;
    assert_eq!(rt; cipher.items.as_slice().len(), 0);
    assert_eq!(rt;
        encode_cipher(rt.alloc(), &cipher)?.as_slice(),
        file.as_slice()
    );
    Ok(())
}

#[test]
fn as_many_items_as_may_be(rt: HostRuntime) -> Result<(), Fail> {
    let mut file = cipher_head(rt.alloc(), 64)?;
    for number in 0..64 {
        add_bit(&mut file, number)?;
        add_block(&mut file, 1, number)?;
    }
    let cipher = decode_cipher(rt.alloc(), file.as_slice())?;
    assert_eq!(rt; cipher.items.as_slice().len(), 64);
    let again = encode_cipher(rt.alloc(), &cipher)?;
    assert!(rt; again.as_slice() == file.as_slice());
    Ok(())
}

/// The first length at which the ciphertext file is not short of the length beside it.
fn first_cipher_length(
    alloc: Global,
    file: &[u8],
    cases: &[(usize, u64)],
) -> Result<Option<usize>, AllocError> {
    for (len, need) in cases {
        let cut = cut(alloc, file, *len)?;
        let fault = CodecFault::Short {
            need: *need,
            have: *len as u64,
        };
        if decode_cipher(alloc, cut.as_slice()).err() != Some(fault) {
            return Ok(Some(*len));
        }
    }
    Ok(None)
}

#[test]
fn lengths_of_ciphers(rt: HostRuntime) -> Result<(), Fail> {
    let file = int_file(rt.alloc())?;
    let cases = [
        (40, 44),
        (46, 48),
        (48, 49),
        (49, 50),
        (50, 51),
        (51, 52),
        (52, 53),
        (53, 54),
        (100, 2110),
        (8283, 8284),
    ];
    assert_eq!(rt;
        first_cipher_length(rt.alloc(), file.as_slice(), &cases)?,
        None
    );
    let long = cut(rt.alloc(), file.as_slice(), 8285)?;
    let fault = CodecFault::Long { extra: 1 };
    assert_eq!(rt;
        decode_cipher(rt.alloc(), long.as_slice()).err(),
        Some(fault)
    );
    Ok(())
}

/// The first of these changes of the ciphertext file that is not reported as a field at its place.
fn first_cipher_field(
    alloc: Global,
    file: &[u8],
    changes: &[(usize, u8)],
) -> Result<Option<(usize, u8)>, AllocError> {
    for (at, value) in changes {
        let file = changed(alloc, file, &[(*at, *value)])?;
        let fault = CodecFault::Field { at: *at as u64 };
        if decode_cipher(alloc, file.as_slice()).err() != Some(fault) {
            return Ok(Some((*at, *value)));
        }
    }
    Ok(None)
}

#[test]
fn fields_of_ciphers(rt: HostRuntime) -> Result<(), Fail> {
    let file = int_file(rt.alloc())?;
    let changes = [
        (44, 65),
        (48, 0),
        (48, 33),
        (49, b'A'),
        (50, 2),
        (51, 7),
        (51, 66),
        (52, 4),
        (53, 0),
        (53, 6),
        (2110, 4),
    ];
    assert_eq!(rt;
        first_cipher_field(rt.alloc(), file.as_slice(), &changes)?,
        None
    );
    let twice = twice_file(rt.alloc())?;
    let fault = CodecFault::Field { at: 2111 };
    assert_eq!(rt;
        decode_cipher(rt.alloc(), twice.as_slice()).err(),
        Some(fault)
    );
    Ok(())
}
